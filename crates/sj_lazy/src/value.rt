//! The type of lazy values, and how new ones are made.
ghost use Rattle.std.specs.Prelude.{◌≡◌, ◌≤◌, [], Some, IfSome, IfOk, true, false, option_map, vec_capacity};
ghost use Rattle.std.specs.Option.{option_copied};
ghost use Rattle.sj_base.specs.Tree.{null};
ghost use Rattle.sj_owned.specs.Views.{array_inside, items_inside, members_inside};
ghost use Rattle.sj_tape.specs.Views.{value_tree, value_nodes};

use crate::held::Held;
use sj_base::ValueType;
use sj_tape::Value as TapeValue;
use sj_values::BorrowedValue;
use std::alloc::{AllocError, Global};

/// A JSON value that is a part of a tape until the first write call, and a document from then on. Port of
/// `simd_json::value::lazy::Value`.
///
/// The document of a tape has the first of members with equal keys.
pub type Value<'b, 't, 'i> = TapeOrDocument<
    TapeValue<'t, 'i>,
    &'b BorrowedValue<'i>,
    BorrowedValue<'i>,
>;

/// A part of a tape, or a document. [`Value`] is this type with the types of tapes and documents in it.
///
/// It is generic so that the contract of [`TapeOrDocument::value_mut`] can say what a write through its reference leaves.
#[derive(Debug, Drop)]
pub enum TapeOrDocument<T, B, D> {
    /// A value of a tape.
    Tape(T),
    /// A document.
    Value(Held<B, D>),
}

impl<'b, 't, 'i> Value<'b, 't, 'i> {
    ghost use Rattle.sj_lazy.specs.Contents.{contents, nodes as of_nodes, document as of_document, is_tape, is_document};
    ghost use Rattle.sj_lazy.specs.Views.{lazy_tree, lazy_kind, document_tree};
    ghost use Rattle.sj_lazy.specs.Upgrade.{OwnsSuch, owns};

    /// Creates a lazy value that views a value of a tape. Builds nothing.
    pub fn from_tape(tape: TapeValue<'t, 'i>) -> Self
        ensures { result ≡ TapeOrDocument.Tape tape.entry }
    {
        Value::Tape(tape)
    }

    /// A lazy value of a part of a document.
    pub(crate) fn borrowed(document: &'b BorrowedValue<'i>) -> Self
        ensures part { contents result ≡ of_document document.now }
        ensures held { owns result ≡ false }
    {
        Value::Value(Held::Borrowed(document))
    }

    /// A part of a tape, if one was found, as a lazy value.
    pub(crate) fn of_tape(found: Option<TapeValue<'t, 'i>>) -> Option<Self>
        ensures tree { option_map lazy_tree result ≡ option_map value_tree found.entry }
        ensures part { option_map contents result ≡ option_map of_nodes (option_map value_nodes found.entry) }
        ensures held { IfSome result (λ v. owns v ≡ false) }
    {
        Some(Value::Tape(found?))
    }

    /// A part of a document, if one was found, as a lazy value.
    pub(crate) fn of_document(found: Option<&'b BorrowedValue<'i>>) -> Option<Self>
        ensures tree { option_map lazy_tree result ≡ option_map (λ d. document_tree d.now) found.entry }
        ensures part { option_map contents result ≡ option_map of_document (option_copied found.entry) }
        ensures held { IfSome result (λ v. owns v ≡ false) }
    {
        Some(Value::borrowed(found?))
    }

    /// A lazy value with this document of its own.
    pub(crate) fn owned(document: BorrowedValue<'i>) -> Self
        ensures { OwnsSuch (λ d. d ≡ document.entry) result }
    {
        Value::Value(Held::Owned(document))
    }

    /// Creates a null. It counts as a tape.
    pub fn null() -> Self
        ensures tree { lazy_tree result ≡ null }
        ensures kind { lazy_kind result ≡ ValueType.Null }
        ensures tape { is_tape (contents result) ≡ true }
    {
        Value::Tape(TapeValue::null())
    }

    /// Creates an array without items, as a document. Allocates nothing.
    pub fn array(alloc: Global) -> Self
        ensures { OwnsSuch (λ d. items_inside d ≡ Some []) result }
    {
        Value::owned(BorrowedValue::array(alloc))
    }

    /// Creates an object without members, as a document. Allocates nothing.
    pub fn object(alloc: Global) -> Self
        ensures { OwnsSuch (λ d. members_inside d ≡ Some []) result }
    {
        Value::owned(BorrowedValue::object(alloc))
    }

    /// Creates an array without items, as a document that has room for this many.
    ///
    /// # Errors
    ///
    /// `AllocError` if there is no memory for that room.
    pub fn array_with_capacity(alloc: Global, capacity: usize) -> Result<Self, AllocError>
        ensures empty { IfOk result (OwnsSuch (λ d. items_inside d ≡ Some [])) }
        ensures room { IfOk result (OwnsSuch (λ d. IfSome (array_inside d) (λ vs. capacity ≤ vec_capacity vs))) }
    {
        Ok(Value::owned(BorrowedValue::array_with_capacity(alloc, capacity)?))
    }

    /// Creates an object without members, as a document that has room for this many. The hash table isn't made yet: the 33rd
    /// member still needs memory.
    ///
    /// # Errors
    ///
    /// `AllocError` if there is no memory for that room.
    pub fn object_with_capacity(alloc: Global, capacity: usize) -> Result<Self, AllocError>
        ensures { IfOk result (OwnsSuch (λ d. members_inside d ≡ Some [])) }
    {
        Ok(Value::owned(BorrowedValue::object_with_capacity(alloc, capacity)?))
    }

    /// Returns `true` if the value is a part of a tape, or a null that [`Value::null`] made.
    pub fn is_tape(&self) -> bool
        ensures { result ≡ is_tape (contents self.now) }
    {
        matches!(self, Value::Tape(_))
    }

    /// Returns `true` if the value is a document.
    pub fn is_value(&self) -> bool
        ensures { result ≡ is_document (contents self.now) }
    {
        matches!(self, Value::Value(_))
    }

    /// Returns the type, which tells an `I64` from a `U64`.
    pub fn value_type(&self) -> ValueType
        ensures { result ≡ lazy_kind self.now }
    {
        match self {
            Value::Tape(view) => view.value_type(),
            Value::Value(held) => held.as_document().value_type(),
        }
    }
}

/// The default is [`Value::null`].
impl Default for Value<'_, '_, '_> {
    ghost use Rattle.std.specs.Prelude.{true};
    ghost use Rattle.sj_base.specs.Tree.{null};
    ghost use Rattle.sj_lazy.specs.Contents.{contents, is_tape};
    ghost use Rattle.sj_lazy.specs.Views.{lazy_tree};

    ghost is_default = { λ v. (lazy_tree v ≡ null) × (is_tape (contents v) ≡ true) };

    fn default() -> Self {
        Self::null()
    }
}
