//! JSON documents that stay a tape until they are first written to.
//!
//! A [`Value`] made of a tape is a view of it, and is read in place, repeated keys included. The first write call builds a
//! document of it, which keeps the first member of each key. A value can also be made of a document. Parts of a value are lazy
//! values too.
#![tactic(auto)]

mod access;
pub mod array;
mod compare;
mod display;
mod edit;
mod encode;
mod from;
mod held;
mod into;
pub mod object;
mod same_as;
mod value;

pub use array::Array;
pub use edit::ToDocument;
pub use held::Held;
pub use object::Object;
pub use same_as::{LazyComparand, ScalarComparand};
pub use value::{TapeOrDocument, Value};
