//! Arrays of lazy values.
ghost use Rattle.std.specs.Prelude.{◌≡◌, ◌↔◌, ⊤, false, IsTrue, IfSome, Some, option_map, slice_get, length, map};
ghost use Rattle.std.specs.Cow.{cow_str_bytes};
ghost use Rattle.std.specs.Option.{option_copied};
ghost use Rattle.std.specs.Iterator.{YieldsFirstBy, MakesProgress, UpTo, item_count};
ghost use Rattle.std.specs.Iterator.SizeHint.{IsWithinCount};
ghost use Rattle.sj_base.specs.Containers.{items_len, item_trees};
ghost use Rattle.sj_base.specs.Path.{item_at};
ghost use Rattle.sj_base.specs.Scalar.{decimal_cow_text};
ghost use Rattle.sj_owned.specs.Views.{items_view};
ghost use Rattle.sj_lazy.specs.Views.{document_tree};

use crate::value::Value;
use sj_tape::{Array as TapeArray, array};
use sj_values::BorrowedValue;
use std::iter::{ExactSizeIterator, FusedIterator};
use std::slice;

/// The items of an array of a lazy value. Port of `simd_json::value::lazy::Array`.
#[derive(Clone, Copy, Debug)]
pub enum Array<'b, 't, 'i> {
    /// An array of a tape.
    Tape(TapeArray<'t, 'i>),
    /// The items of an array of a document.
    Value(&'b Vec<BorrowedValue<'i>>),
}

impl<'b, 't, 'i> Array<'b, 't, 'i> {
    ghost use Rattle.sj_lazy.specs.Contents.{contents};
    ghost use Rattle.sj_lazy.specs.Upgrade.{owns};
    ghost use Rattle.sj_lazy.specs.Views.{lazy_tree, contents_tree};
    ghost use Rattle.sj_lazy.specs.Parts.{array_items, array_contents, item_within, array_parts, items_left};

    /// Returns the number of items.
    pub fn len(&self) -> usize
        ensures { result ≡ items_len (array_items self.now) }
    {
        match self {
            Array::Tape(items) => items.len(),
            Array::Value(items) => items.as_slice().len(),
        }
    }

    /// Returns `true` if the array has no items.
    pub fn is_empty(&self) -> bool
        ensures { IsTrue result ↔ (items_len (array_items self.now) ≡ 0) }
    {
        self.len() == 0
    }

    /// Returns the item at this index, or `None` if the array has no more than `index` items.
    ///
    /// In a tape, the items before it are skipped one by one.
    pub fn get(&self, index: usize) -> Option<Value<'b, 't, 'i>>
        ensures tree { option_map lazy_tree result ≡ item_at (array_items self.now) index }
        ensures part { option_map contents result ≡ item_within (array_contents self.now) index }
        ensures held { IfSome result (λ v. owns v ≡ false) }
    {
        match self {
            Array::Tape(items) => Value::of_tape(items.get(index)),
            Array::Value(items) => Value::of_document(item(items, index)),
        }
    }

    /// Returns an iterator over the items in order.
    pub fn iter(&self) -> Iter<'b, 't, 'i>
        ensures parts { items_left result ≡ array_parts self.now }
        ensures items { map contents_tree (items_left result) ≡ item_trees (array_items self.now) }
        ensures count { length (items_left result) ≡ items_len (array_items self.now) }
    {
        match self {
            Array::Tape(items) => Iter::Tape(items.iter()),
            Array::Value(items) => Iter::Value(items.iter()),
        }
    }
}

impl<'b, 't, 'i> IntoIterator for &Array<'b, 't, 'i> {
    type Item = Value<'b, 't, 'i>;

    type IntoIter = Iter<'b, 't, 'i>;

    ghost use Rattle.sj_lazy.specs.Parts.{array_items, array_parts, items_left};
    ghost use Rattle.sj_lazy.specs.Views.{contents_tree};

    ghost into_iter_gives = { λ array it. (items_left it ≡ array_parts array.now)
        × (map contents_tree (items_left it) ≡ item_trees (array_items array.now))
        × (length (items_left it) ≡ items_len (array_items array.now)) };

    fn into_iter(self) -> Iter<'b, 't, 'i> {
        self.iter()
    }
}

fn item<'b, 'i>(items: &'b Vec<BorrowedValue<'i>>, index: usize) -> Option<&'b BorrowedValue<'i>>
    ensures value { option_copied result ≡ slice_get items.now.items index }
    ensures tree { option_map (λ d. document_tree d.now) result
        ≡ item_at (items_view cow_str_bytes decimal_cow_text items.now.items) index }
{
    items.get(index)
}

/// An iterator over the items of an array in order. After the last item it returns `None` at each call.
#[derive(Clone, Debug, Drop)]
pub enum Iter<'b, 't, 'i> {
    /// The items of a tape.
    Tape(array::Iter<'t, 'i>),
    /// The items of a document.
    Value(slice::Iter<'b, BorrowedValue<'i>>),
}

impl<'b, 't, 'i> Iterator for Iter<'b, 't, 'i> {
    type Item = Value<'b, 't, 'i>;

    ghost use Rattle.sj_lazy.specs.Contents.{contents};
    ghost use Rattle.sj_lazy.specs.Parts.{items_left};
    ghost use Rattle.sj_lazy.specs.Upgrade.{owns};

    ghost next_gives = { YieldsFirstBy contents items_left };

    ghost remaining = { item_count items_left };

    fn next(&mut self) -> Option<Value<'b, 't, 'i>>
        ensures steps { YieldsFirstBy contents items_left self.old result self.new }
        ensures goes { MakesProgress (λ _. ⊤) (item_count items_left) self.old result self.new }
        ensures held { IfSome result (λ v. owns v ≡ false) }
    {
        match self {
            Iter::Tape(items) => Some(Value::Tape(items.next()?)),
            Iter::Value(items) => Some(Value::borrowed(items.next()?)),
        }
    }

    fn size_hint(&self) -> (usize, Option<usize>)
        ensures lower { IsWithinCount result.0 (item_count items_left self.now) }
        ensures upper { IfSome result.1 (UpTo (item_count items_left self.now)) }
        ensures exact { result ≡ (length (items_left self.now), Some (length (items_left self.now))) }
    {
        let len = self.len();
        (len, Some(len))
    }
}

impl ExactSizeIterator for Iter<'_, '_, '_> {
    fn len(&self) -> usize {
        match self {
            Iter::Tape(items) => items.len(),
            Iter::Value(items) => items.len(),
        }
    }
}

impl FusedIterator for Iter<'_, '_, '_> {}
