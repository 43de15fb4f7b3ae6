//! Lazy values turned into documents, strings and copies.
ghost use Rattle.std.specs.Prelude.{◌≡◌, true, false, IsOk, IfOk, IfErr, option_map};
ghost use Rattle.std.specs.Cow.{cow_str_bytes};
ghost use Rattle.sj_base.specs.Containers.{scalar_in};
ghost use Rattle.sj_reads.specs.Reads.{str_read};

use crate::held::Held;
use crate::value::Value;
use sj_base::TryCopy;
use sj_values::BorrowedValue;
use std::alloc::{AllocError, Global};
use std::borrow::CowStr;

impl<'t, 'i> Value<'_, 't, 'i> {
    ghost use Rattle.sj_lazy.specs.Upgrade.{Upgrades, IsOwnedOf, owns, borrows};
    ghost use Rattle.sj_lazy.specs.Views.{lazy_tree};

    /// Turns the value into a document. A tape is built into one, a borrowed document is copied, and an owned one is moved.
    ///
    /// The copy recurses as deep as the document nests. To build one from a tape needs no recursion.
    ///
    /// # Errors
    ///
    /// The value comes back if there is no memory for the document. A value that owns its document needs no memory.
    pub fn into_value(self, alloc: Global) -> Result<BorrowedValue<'i>, Self>
        ensures ok { IfOk result (Upgrades self.entry) }
        ensures err { IfErr result (λ v. v ≡ self.entry) }
        ensures succeeds { owns self.entry ≡ true → IsOk result }
    {
        match self {
            Value::Value(Held::Owned(document)) => Ok(document),
            other => match other.document(alloc) {
                Ok(document) => Ok(document),
                Err(_) => Err(other),
            },
        }
    }

    /// Turns the value into one that borrows no document: what is only borrowed is copied. A tape stays a tape.
    ///
    /// The copy recurses as deep as the document nests.
    ///
    /// # Errors
    ///
    /// The value comes back if there is no memory for the copy. Only a borrowed document is copied.
    pub fn into_owned<'n>(self, alloc: Global) -> Result<Value<'n, 't, 'i>, Self>
        ensures ok { IfOk result (IsOwnedOf self.entry) }
        ensures err { IfErr result (λ v. v ≡ self.entry) }
        ensures succeeds { borrows self.entry ≡ false → IsOk result }
    {
        match self {
            Value::Tape(view) => Ok(Value::Tape(view)),
            other => match other.into_value(alloc) {
                Ok(document) => Ok(Value::owned(document)),
                Err(value) => Err(value),
            },
        }
    }

    /// Returns the string, or `None` if the value isn't a string. If the value only borrows its document, a text that this document
    /// owns is copied. A text that is borrowed from the input stays borrowed.
    ///
    /// # Errors
    ///
    /// `AllocError` if there is no memory for that copy. The value is dropped. A part of a tape needs no memory, nor does a value
    /// that owns its document.
    pub fn into_string(self) -> Result<Option<CowStr<'i>>, AllocError>
        ensures ok { IfOk result (λ s. option_map cow_str_bytes s ≡ str_read (scalar_in (lazy_tree self.entry))) }
        ensures succeeds { borrows self.entry ≡ false → IsOk result }
    {
        match self {
            Value::Tape(view) => match view.into_string() {
                Some(text) => Ok(Some(CowStr::Borrowed(text))),
                None => Ok(None),
            },
            Value::Value(Held::Owned(document)) => Ok(document.into_string()),
            Value::Value(Held::Borrowed(document)) => match document {
                BorrowedValue::String(text) => Ok(Some(text.try_clone()?)),
                _ => Ok(None),
            },
        }
    }
}

/// A copy of a part of a tape, or of a document that is only borrowed, is that part or that document. An owned document is
/// copied, by a recursion as deep as it nests.
impl TryCopy for Value<'_, '_, '_> {
    ghost use Rattle.sj_lazy.specs.Copies.{Copied, copied, copied_tree};

    ghost Copied = { Copied };

    ghost copied = { copied };

    ghost tree = { copied_tree };

    fn try_clone(&self) -> Result<Self, AllocError> {
        match self {
            Value::Tape(view) => Ok(Value::Tape(*view)),
            Value::Value(Held::Borrowed(document)) => Ok(Value::borrowed(document)),
            Value::Value(Held::Owned(document)) => Ok(Value::owned(document.try_clone()?)),
        }
    }
}
