//! Reads JSON texts into tapes: stage two of reading, from the positions of a text to its nodes, or to its first fault.
//!
//! A text is tested and scanned as a whole, and then its tokens are read once, from the first to the last. Strings are
//! decoded where they stand, and the nodes borrow from the text. [`Buffers`] keep the room that reading works in from
//! one text to the next.
#![tactic(auto)]

mod atoms;
mod buffers;
mod bytes;
mod characters;
mod containers;
mod descent_fault;
mod deserializer;
mod digits;
mod escapes;
pub mod laws;
mod numbers;
mod reading;
mod scalars;
mod search;
mod stage_two;
mod strings;
mod tail;

pub use atoms::{is_valid_false_atom, is_valid_null_atom, is_valid_true_atom};
pub use buffers::Buffers;
pub use bytes::is_integer;
pub use characters::{codepoint_to_utf8, hex_to_u32};
pub use descent_fault::{DescentFault, DescentKind};
pub use deserializer::Deserializer;
pub use reading::{fill_tape, fill_tape_by, fill_tape_padded, to_tape, to_tape_with_buffers};
use sj_base::Error;

/// What reading returns. Port of `simd_json::Result`.
pub type Result<T> = std::result::Result<T, Error>;
