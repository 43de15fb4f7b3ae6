//! JSON documents that may borrow their texts from the bytes that they were read from.
//!
//! A borrowed document is a [`sj_owned::Value`], as an owned one is, with other types of strings and literals: these are borrowed
//! or owned. So it is read, edited and printed by the same calls.
#![tactic(auto)]

pub mod borrowed;
mod slice;

pub use borrowed::{
    BorrowDeserializer, Value as BorrowedValue, to_value as to_borrowed_value,
    to_value_with_buffers as to_borrowed_value_with_buffers,
};
pub use sj_owned::{MutableValue, from_borrowed};
pub use slice::BorrowSliceDeserializer;
