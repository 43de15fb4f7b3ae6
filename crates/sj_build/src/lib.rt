//! Values that are built of tapes, and of the texts that tapes are read from.
//!
//! A document, or any other type with [`BuildValue`], is made of the nodes of a tape from the last one to the first. Of
//! members with equal keys the first one is kept.
#![tactic(auto)]

mod build;
mod built;
mod deserializer;
mod read;

pub use build::{build_tape, build_value};
pub use built::BuildValue;
pub use deserializer::ValueDeserializer;
pub use read::{deserialize, deserialize_with_buffers};
