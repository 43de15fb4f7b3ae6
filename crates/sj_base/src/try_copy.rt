//! Copies of values, where an allocation may fail.
ghost use Rattle.std.specs.Prelude.{◌≡◌, ℕ, Bool, List, IfOk, string_bytes};
ghost use Rattle.std.specs.Cow.{cow_str_bytes};
ghost use Rattle.sj_base.specs.Copied.{is_borrowed_text};
ghost use Rattle.sj_base.specs.Tree.{Tree, string};

use std::alloc::AllocError;
use std::borrow::CowStr;

/// A type whose values can be copied. It stands in the place of `Clone`, whose `clone` can't report a failed allocation.
pub trait TryCopy: Sized {
    // What a copy has in common with its original: the tree, the carriers of its integers, and which texts are borrowed.
    ghost Copied: { Type 0 };

    ghost copied: { Self → Copied };

    // The tree of the value. That of a `String` is a string.
    ghost tree: { Copied → Tree };

    /// Returns a copy of the value (`Clone::clone`).
    ///
    /// # Errors
    ///
    /// `AllocError` if there is no memory for the copy.
    fn try_clone(&self) -> Result<Self, AllocError>
        ensures { IfOk result (λ copy. copied copy ≡ copied self.now) };
}

impl TryCopy for String {
    ghost Copied = { List ℕ };

    ghost copied = { string_bytes };

    ghost tree = { string };

    fn try_clone(&self) -> Result<String, AllocError> {
        // This type has a `clone` of its own, which answers a `Result`.
        self.clone()
    }
}

/// A copy of a borrowed text is borrowed.
impl TryCopy for CowStr<'_> {
    ghost Copied = { Bool × List ℕ };

    ghost copied = { λ text. (is_borrowed_text text, cow_str_bytes text) };

    ghost tree = { λ c. string c.1 };

    fn try_clone(&self) -> Result<Self, AllocError> {
        Ok(match self {
            CowStr::Borrowed(text) => CowStr::Borrowed(*text),
            CowStr::Owned(text) => CowStr::Owned(text.clone()?),
        })
    }
}
