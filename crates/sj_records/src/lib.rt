//! Scripts of commands over a stream of JSON lines.
//!
//! [`run`] reads a stream of lines, runs a script on the document of each, and writes one record a line, in order. [`run_with`]
//! does so in buffers of the caller's, and [`run_within`] with a bound on the number of reads too. [`apply`] runs one command on
//! a [`Document`]. The contracts of the first three say what is written at each way to end.
#![tactic(auto)]

mod engine;
mod form;
mod history;
pub mod laws;
mod record;
mod refused_line;
mod repeats;
mod run_error;
mod separator;
mod task;

pub use engine::{run, run_with, run_within};
pub use form::Form;
pub use history::apply;
pub use repeats::Repeats;
pub use run_error::RunError;
pub use sj_documents::{Change, Document, Inverse, LazyDocument, Undo, WriteResult};
pub use sj_scripts::{Command, CommandFault, PathPart, Script, ScriptFault, ScriptValue};
