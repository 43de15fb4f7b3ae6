//! Types of keys.
ghost use Rattle.std.specs.Prelude.{◌≡◌, ℕ, List, IfOk, IsOk, string_bytes};
ghost use Rattle.std.specs.Cow.{cow_str_bytes};

use std::alloc::{AllocError, Global};
use std::borrow::CowStr;

/// A type of keys. Keys are compared by their texts.
pub trait ObjectKey {
    // The bytes of the key's text.
    ghost text: { Self → List ℕ };

    /// Returns the key's text.
    fn as_text(&self) -> &str
        ensures { result.now ≡ text self.now };
}

impl ObjectKey for String {
    ghost text = { string_bytes };

    fn as_text(&self) -> &str {
        self.as_str()
    }
}

impl ObjectKey for CowStr<'_> {
    ghost text = { cow_str_bytes };

    fn as_text(&self) -> &str {
        self.as_ref()
    }
}

/// A type of keys that can be made of a text.
pub trait MakeKey<'de>: ObjectKey + Sized {
    /// Returns a key with this text.
    ///
    /// # Errors
    ///
    /// `AllocError` if there is no memory for a copy of the text.
    fn from_text(alloc: Global, text: &'de str) -> Result<Self, AllocError>
        ensures { IfOk result (λ key. Self.text key ≡ text.now) };
}

/// The key is a copy of the text.
impl<'de> MakeKey<'de> for String {
    fn from_text(alloc: Global, text: &'de str) -> Result<String, AllocError> {
        String::from_str(alloc, text)
    }
}

/// The key borrows the text, and needs no memory.
impl<'de> MakeKey<'de> for CowStr<'de> {
    fn from_text(_alloc: Global, text: &'de str) -> Result<CowStr<'de>, AllocError>
        ensures text { IfOk result (λ key. cow_str_bytes key ≡ text.now) }
        ensures succeeds { IsOk result }
    {
        Ok(CowStr::Borrowed(text))
    }
}
