//! Keys whose hash is computed once, for look-ups in many objects.
//!
//! A [`KnownKey`] finds in an object, or in a document, what `get` finds for the key's text, and puts values where `insert`
//! puts them.
#![tactic(auto)]

mod document;
mod error;
mod key;
mod lookup;
mod object;
mod target;

pub use document::KnownKeyDocument;
pub use error::KnownKeyError;
pub use key::KnownKey;
pub use target::{KnownKeyTarget, KnownKeyTargetMut};
