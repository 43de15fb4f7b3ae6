//! Views of the arrays of a tape.
ghost use Rattle.std.specs.Prelude.{◌≡◌, ◌↔◌, ◌-◌, ◌<◌, ℕ, IsTrue, IfSome, MatchOption, Some, None, option_map, [], ◌∷◌, length, map};
ghost use Rattle.std.specs.Iterator.{YieldsFirstBy, UpTo, item_count};
ghost use Rattle.std.specs.Iterator.SizeHint.{IsWithinCount};
ghost use Rattle.sj_base.specs.Tree.{no_items, item, AreValidItems};
ghost use Rattle.sj_base.specs.Path.{item_at};
ghost use Rattle.sj_base.specs.Containers.{items_len, item_trees};
ghost use Rattle.sj_tape.specs.Listed.{listed_items};
ghost use Rattle.sj_tape.specs.inside.Invariants.{ListsItems};
ghost use Rattle.sj_tape.specs.Nodes.{entries};

use crate::node::Node;
use crate::value::Value;
use std::iter::{ExactSizeIterator, FusedIterator};

/// A view of an array of a tape. Port of `simd_json::tape::Array`.
#[derive(Clone, Copy, Debug)]
pub struct Array<'t, 'i> {
    pub(crate) len: usize,
    pub(crate) nodes: &'t [Node<'i>],
    ghost items: { ListsItems len (entries nodes.now) },
    ghost are_valid: { ∥ AreValidItems (listed_items len (entries nodes.now)) ∥₁ },
}

impl<'t, 'i> Array<'t, 'i> {
    ghost use Rattle.sj_tape.specs.Views.{value_nodes, value_tree, nodes_tree, array_items, array_runs, items_left, array_item};

    /// Returns the first item and a view of the items after it, or `None` if the array has no items.
    #[inline(always)]
    pub fn split_first(&self) -> Option<(Value<'t, 'i>, Array<'t, 'i>)>
        ensures items { MatchOption result (array_items self.now ≡ no_items)
            (λ p. array_items self.now ≡ item (value_tree p.0) (array_items p.1)) }
        ensures runs { MatchOption result (array_runs self.now ≡ [])
            (λ p. array_runs self.now ≡ value_nodes p.0 ∷ array_runs p.1) }
        ensures first { array_item self.now 0 ≡ option_map (λ p. value_nodes p.0) result }
        ensures behind { (i : ℕ) → 0 < i → MatchOption result (array_item self.now i ≡ None)
            (λ p. array_item self.now i ≡ array_item p.1 (i - 1)) }
    {
        if self.len == 0 {
            return None;
        }
        let (first, nodes) = Value::split_from(self.nodes);
        let rest = Array {
            len: self.len - 1,
            nodes,
        };
        Some((first, rest))
    }

    /// Returns the number of items.
    pub fn len(&self) -> usize
        ensures { result ≡ items_len (array_items self.now) }
    {
        self.len
    }

    /// Returns `true` if the array has no items.
    pub fn is_empty(&self) -> bool
        ensures { IsTrue result ↔ (items_len (array_items self.now) ≡ 0) }
    {
        self.len() == 0
    }

    /// Returns the item at this index, or `None` if the array has no more than `index` items.
    ///
    /// Skips the items before it one by one.
    pub fn get(&self, index: usize) -> Option<Value<'t, 'i>>
        ensures tree { option_map value_tree result ≡ item_at (array_items self.now) index }
        ensures nodes { option_map value_nodes result ≡ array_item self.now index }
    {
        if index >= self.len {
            return None;
        }
        let mut rest = *self;
        let mut left = index;
        loop {
            let (first, behind) = rest.split_first()?;
            if left == 0 {
                return Some(first);
            }
            rest = behind;
            left -= 1;
        }
    }

    /// Returns an iterator over the items in document order.
    pub fn iter(&self) -> Iter<'t, 'i>
        ensures nodes { items_left result ≡ array_runs self.now }
        ensures items { map nodes_tree (items_left result) ≡ item_trees (array_items self.now) }
        ensures count { length (items_left result) ≡ items_len (array_items self.now) }
    {
        Iter { rest: *self }
    }
}

impl<'t, 'i> IntoIterator for &Array<'t, 'i> {
    type Item = Value<'t, 'i>;

    type IntoIter = Iter<'t, 'i>;

    ghost use Rattle.sj_tape.specs.Views.{nodes_tree, array_items, array_runs, items_left};

    ghost into_iter_gives = { λ array it. (items_left it ≡ array_runs array.now)
        × (map nodes_tree (items_left it) ≡ item_trees (array_items array.now))
        × (length (items_left it) ≡ items_len (array_items array.now)) };

    fn into_iter(self) -> Iter<'t, 'i> {
        self.iter()
    }
}

/// An iterator over the items of an array in document order. After the last item it returns `None` at each call.
#[derive(Clone, Debug, Drop)]
pub struct Iter<'t, 'i> {
    rest: Array<'t, 'i>,
}

impl<'t, 'i> Iterator for Iter<'t, 'i> {
    type Item = Value<'t, 'i>;

    ghost use Rattle.sj_tape.specs.Views.{value_nodes, items_left};

    ghost next_gives = { YieldsFirstBy value_nodes items_left };

    ghost remaining = { item_count items_left };

    fn next(&mut self) -> Option<Value<'t, 'i>> {
        let (first, rest) = self.rest.split_first()?;
        self.rest = rest;
        Some(first)
    }

    fn size_hint(&self) -> (usize, Option<usize>)
        ensures lower { IsWithinCount result.0 (item_count items_left self.now) }
        ensures upper { IfSome result.1 (UpTo (item_count items_left self.now)) }
        ensures exact { result ≡ (length (items_left self.now), Some (length (items_left self.now))) }
    {
        let len = self.len();
        (len, Some(len))
    }
}

impl ExactSizeIterator for Iter<'_, '_> {
    fn len(&self) -> usize {
        self.rest.len()
    }
}

impl FusedIterator for Iter<'_, '_> {}
