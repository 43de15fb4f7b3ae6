//! A JSON document as one flat list of nodes, and views that read it in place.
//!
//! A [`Tape`] is empty or holds the preorder of one document. [`Value`], [`Array`] and [`Object`] are views of parts of
//! a tape: they copy nothing, and each container's count of nodes lets them skip to the next item or member. Contracts
//! say what a view returns by the tree that its nodes stand for.
#![tactic(auto)]

pub mod array;
mod check;
mod compare;
mod encode;
mod find;
pub mod laws;
mod node;
pub mod object;
mod repeat;
mod tape;
mod value;

pub use array::Array;
pub use node::Node;
pub use object::Object;
pub use repeat::{Repeat, RepeatPart};
pub use tape::Tape;
pub use value::Value;
