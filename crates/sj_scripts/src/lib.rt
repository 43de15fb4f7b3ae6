//! Scripts of commands.
//!
//! [`Script::read`] reads exactly the commands of a JSON text, or says why it is no script.
#![tactic(auto)]

mod commands;
mod memory_or;
mod path;
mod script;
mod script_value;

pub use memory_or::MemoryOr;
pub use path::PathPart;
pub use script::{Command, CommandFault, Script, ScriptFault};
pub use script_value::ScriptValue;
