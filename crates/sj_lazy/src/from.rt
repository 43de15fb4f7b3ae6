//! Lazy values made of documents and of Rust's values. They own their document.
ghost use Rattle.std.specs.Prelude.{◌≡◌, List, map as mapped, IfOk, string_bytes};
ghost use Rattle.std.specs.Cow.{cow_str_bytes};
ghost use Rattle.std.specs.Iterator.{Drains, IsFiniteIterable};
ghost use Rattle.std.specs.declared.alloc.Global.{Global as Heap};
ghost use Rattle.std.specs.declared.borrow.CowStr.{CowStr as Text};
ghost use Rattle.std.specs.declared.borrow.CowStr.TheVariants.{Owned};
ghost use Rattle.sj_base.specs.Scalar.{decimal_buf_text};
ghost use Rattle.sj_base.specs.Tree.{string};
ghost use Rattle.sj_owned.specs.Copies.{leaves, on_leaf, owned_text, held_text, held_literal};
ghost use Rattle.sj_owned.specs.From.{IsArrayOf, IsObjectOf, IsObjectOfEntries};
ghost use Rattle.sj_owned.specs.Views.{value_tree};

use crate::value::Value;
use sj_owned::OwnedValue;
use sj_values::BorrowedValue;
use std::alloc::{AllocError, Global};
use std::borrow::CowStr;
use std::collections::HashMap;

/// Creates a value that owns a document: the given one, or one made by `From` of a scalar, a string, an array or an object.
impl<'i, T: Into<BorrowedValue<'i>>> From<T> for Value<'_, '_, 'i> {
    ghost use Rattle.sj_lazy.specs.Upgrade.{OwnsSuch};

    ghost from_gives = { λ x v. OwnsSuch (T.Into.converts x) v };

    fn from(x: T) -> Self {
        Value::owned(x.into())
    }
}

impl<'i> Value<'_, '_, 'i> {
    ghost use Rattle.sj_lazy.specs.Upgrade.{OwnsSuch};
    ghost use Rattle.sj_lazy.specs.Views.{document_tree};

    /// Creates a string that is a copy of `text`.
    ///
    /// # Errors
    ///
    /// `AllocError` if there is no memory for the copy.
    pub fn from_text(alloc: Global, text: &str) -> Result<Self, AllocError>
        ensures { IfOk result (OwnsSuch (λ d. document_tree d ≡ string text.now)) }
    {
        Ok(Value::owned(BorrowedValue::from_text(alloc, text)?))
    }

    /// Creates an array of the values of `list`, each converted.
    ///
    /// # Errors
    ///
    /// `AllocError` if there is no memory for the array. The values are dropped.
    pub fn from_list<S: Into<BorrowedValue<'i>> + Drop>(
        alloc: Global,
        list: Vec<S>,
    ) -> Result<Self, AllocError>
        ensures { IfOk result (OwnsSuch (IsArrayOf S.Into.converts list.items)) }
    {
        Ok(Value::owned(BorrowedValue::from_list(alloc, list)?))
    }

    /// Creates an array of the given values, each converted, in their order. The iterator has to end, as those of a vector, a map or
    /// a range do.
    ///
    /// # Errors
    ///
    /// `AllocError` if there is no memory for the array. The values are dropped.
    pub fn from_values<S: Into<BorrowedValue<'i>> + Drop, I: IntoIterator<Item = S>>(
        alloc: Global,
        values: I,
    ) -> Result<Self, AllocError>
        requires { IsFiniteIterable I.into_iter_gives I.IntoIter.can_next I.IntoIter.remaining values }
        ensures { IfOk result (OwnsSuch (λ d. (it : I.IntoIter) × (xs : List S) × I.into_iter_gives values it
            × Drains I.IntoIter.next_gives it xs × IsArrayOf S.Into.converts xs d)) }
    {
        Ok(Value::owned(BorrowedValue::from_values(alloc, values)?))
    }

    /// Creates an object of the given pairs, with each value converted. The iterator has to end. Of pairs with equal keys the
    /// first one gives the place, and the last one the value.
    ///
    /// # Errors
    ///
    /// `AllocError` if there is no memory for the object. The pairs are dropped.
    pub fn from_pairs<S: Into<BorrowedValue<'i>> + Drop, I: IntoIterator<Item = (CowStr<'i>, S)>>(
        alloc: Global,
        pairs: I,
    ) -> Result<Self, AllocError>
        requires { IsFiniteIterable I.into_iter_gives I.IntoIter.can_next I.IntoIter.remaining pairs }
        ensures { IfOk result (OwnsSuch (λ d. (it : I.IntoIter) × (xs : List (Text Heap × S)) × I.into_iter_gives pairs it
            × Drains I.IntoIter.next_gives it xs × IsObjectOf S.Into.converts cow_str_bytes xs d)) }
    {
        Ok(Value::owned(BorrowedValue::from_pairs(alloc, pairs)?))
    }

    /// Creates an object of the entries of `map`, in the order of the keys' bytes.
    ///
    /// # Errors
    ///
    /// `AllocError` if there is no memory for the object, or for the list in which its pairs are sorted. The entries are
    /// dropped.
    pub fn from_map(
        alloc: Global,
        map: HashMap<String, BorrowedValue<'i>>,
    ) -> Result<Self, AllocError>
        ensures { IfOk result (OwnsSuch (IsObjectOfEntries Owned cow_str_bytes map.entry.entries)) }
    {
        Ok(Value::owned(BorrowedValue::from_map(alloc, map)?))
    }

    /// Converts an owned document. Its texts are moved.
    ///
    /// The recursion is as deep as the value nests.
    ///
    /// # Errors
    ///
    /// `AllocError` if there is no memory for the arrays and objects. The given document is dropped.
    pub fn from_owned(alloc: Global, value: OwnedValue) -> Result<Self, AllocError>
        ensures tree { IfOk result (OwnsSuch (λ d. document_tree d ≡ value_tree string_bytes decimal_buf_text value)) }
        ensures leaves { IfOk result (OwnsSuch (λ d. leaves held_text held_literal d
            ≡ mapped (on_leaf owned_text owned_text) (leaves string_bytes decimal_buf_text value))) }
    {
        Ok(Value::owned(BorrowedValue::from_owned(alloc, value)?))
    }
}
