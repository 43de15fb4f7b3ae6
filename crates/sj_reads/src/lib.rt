//! Typed reads of a JSON value, and of an object's members by key.
//!
//! A form of document implements [`TypedValue`], [`HasScalar`] and [`HasMembers`], one call each, and so has the reads of
//! [`ValueAsScalar`] and [`ValueGetScalar`].
#![tactic(auto)]

mod found;
mod member;
mod read;
mod scalar;

pub use found::Member;
pub use member::{HasMembers, ValueGetScalar};
pub use scalar::{HasScalar, TypedValue, ValueAsScalar};
