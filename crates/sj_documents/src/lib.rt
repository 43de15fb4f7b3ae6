//! The documents that the commands of a script read and write.
//!
//! A [`Document`], in one of three forms, has a call for each command but `undo` and the reloads: it appends the reply to
//! the command, and leaves the tree after it. A write call can also return the [`Inverse`] that takes it back.
#![tactic(auto)]

mod document;
mod edit;
mod inverse;
mod lazy_document;
mod part;
mod path;
mod reads;
mod refusal;

pub use document::Document;
pub use edit::ScriptText;
pub use inverse::{Change, Inverse, Undo, WriteResult};
pub use lazy_document::LazyDocument;
