//! JSON objects: pairs of a key and a value in insertion order, with no key twice.
//!
//! [`Object`] is a list of pairs, with a hash table beside it from the 33rd pair on. A key is found by its text, so a look-up takes
//! a `&str` whatever type stores the keys.
//! Contracts see an object as the list of its pairs: an insertion is `put_key` on that list, a removal `drop_key`.
#![tactic(auto)]

mod compare;
mod copy;
mod entry;
mod hash;
mod hashed;
mod iter;
mod key;
mod members;
mod object;
mod pairs;
mod table;

pub use copy::CopyKey;
pub use entry::{Entry, Refused};
pub use hash::{NotSoRandomState, ObjectHasher, hash_key};
pub use iter::{IntoIter, Iter, Keys, Values};
pub use key::{MakeKey, ObjectKey};
pub use members::Members;
pub use object::Object;
