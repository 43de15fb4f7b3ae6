//! JSON documents that are edited and printed.
//!
//! A document is a tree: a scalar, an array of documents, or an object, in which no key stands twice. [`Value`] is that
//! tree over any type of strings and of decimal literals. In [`owned::Value`] both own their texts. A document
//! that is built from a tape keeps the first of members with equal keys. Documents are also made of Rust's values.
#![tactic(auto)]

mod access;
mod built;
mod compare;
mod convert;
mod copy;
mod depth;
mod display;
mod edit;
mod encode;
mod from;
mod index;
mod lend;
mod literal;
pub mod owned;
mod same_as;
mod value;

pub use convert::from_borrowed;
pub use copy::CopyLiteral;
pub use display::FormatterOutput;
pub use from::FromString;
pub use lend::{LendsMembers, LendsParts, MutableValue};
pub use literal::{Literal, MakeLiteral};
pub use owned::{
    OwnedDeserializer, Value as OwnedValue, to_value as to_owned_value,
    to_value_with_buffers as to_owned_value_with_buffers,
};
pub use same_as::{Comparand, SameAs};
pub use sj_build::{
    BuildValue, ValueDeserializer, build_tape, build_value, deserialize, deserialize_with_buffers,
};
pub use value::Value;
