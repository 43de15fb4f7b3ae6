//! Views of the objects of a tape.
ghost use Rattle.std.specs.Prelude.{◌≡◌, ◌↔◌, ℕ, IsTrue, IfSome, MatchOption, Some, None, option_map, List, [], ◌∷◌, length, map, bytes_eq, if◌then◌else◌};
ghost use Rattle.std.specs.Iterator.{YieldsFirstBy, UpTo, item_count};
ghost use Rattle.std.specs.Iterator.SizeHint.{IsWithinCount};
ghost use Rattle.sj_base.specs.Tree.{no_members, member, AreValidMembers};
ghost use Rattle.sj_base.specs.Path.{member_at};
ghost use Rattle.sj_base.specs.Containers.{members_len, member_pairs};
ghost use Rattle.sj_tape.specs.Listed.{listed_members};
ghost use Rattle.sj_tape.specs.inside.Invariants.{ListsMembers};
ghost use Rattle.sj_tape.specs.Nodes.{entries};

use crate::find::find;
use crate::node::{Node, take_node};
use crate::value::Value;
use sj_base::Reads;
use std::iter::{ExactSizeIterator, FusedIterator};

/// A view of an object of a tape. Port of `simd_json::tape::Object`.
///
/// `get` finds the first member with a key; `len` and the iterators count and show each member, repeated keys too.
#[derive(Clone, Copy, Debug)]
pub struct Object<'t, 'i> {
    pub(crate) len: usize,
    pub(crate) nodes: &'t [Node<'i>],
    ghost members: { ListsMembers len (entries nodes.now) },
    ghost are_valid: { ∥ AreValidMembers (listed_members len (entries nodes.now)) ∥₁ },
}

impl<'t, 'i> Object<'t, 'i> {
    ghost use Rattle.sj_tape.specs.Views.{value_nodes, value_tree, nodes_tree, object_members, object_member, object_runs, pair_tree, pairs_left, keys_left, values_left};

    /// Returns the key and the value of the first member and a view of the members after it, or `None` if the object has no
    /// members. A repeated key is shown at each of its members.
    #[inline(always)]
    pub fn split_first(&self) -> Option<(&'i str, Value<'t, 'i>, Object<'t, 'i>)>
        ensures members { MatchOption result (object_members self.now ≡ no_members)
            (λ p. object_members self.now ≡ member p.0.now (value_tree p.1) (object_members p.2)) }
        ensures runs { MatchOption result (object_runs self.now ≡ [])
            (λ p. object_runs self.now ≡ (p.0.now, value_nodes p.1) ∷ object_runs p.2) }
        ensures found { (k : List ℕ) → MatchOption result (object_member self.now k ≡ None)
            (λ p. object_member self.now k
            ≡ (if bytes_eq p.0.now k then Some (value_nodes p.1) else object_member p.2 k)) }
    {
        if self.len == 0 {
            return None;
        }
        let (first, behind) = take_node(self.nodes)?;
        let Node::String(key) = first else {
            return None;
        };
        let (value, nodes) = Value::split_from(behind);
        let rest = Object {
            len: self.len - 1,
            nodes,
        };
        Some((key, value, rest))
    }

    /// Returns the number of members, repeated keys included.
    pub fn len(&self) -> usize
        ensures { result ≡ members_len (object_members self.now) }
    {
        self.len
    }

    /// Returns `true` if the object has no members.
    pub fn is_empty(&self) -> bool
        ensures { IsTrue result ↔ (members_len (object_members self.now) ≡ 0) }
    {
        self.len() == 0
    }

    /// Returns the value of the first member with this key, or `None` if there is none.
    ///
    /// Skips the members before it one by one. [`find`](crate::laws::find) says how many nodes are read.
    pub fn get(&self, name: &str) -> Option<Value<'t, 'i>>
        ensures tree { option_map value_tree result ≡ member_at (object_members self.now) name.now }
        ensures nodes { option_map value_nodes result ≡ object_member self.now name.now }
    {
        let found = find(self.len, name, &mut Reads::new(self.nodes))?;
        Some(Value {
            nodes: &self.nodes[found],
        })
    }

    /// Returns an iterator over the members in document order.
    pub fn iter(&self) -> Iter<'t, 'i>
        ensures nodes { pairs_left result ≡ object_runs self.now }
        ensures members { map pair_tree (pairs_left result) ≡ member_pairs (object_members self.now) }
        ensures count { length (pairs_left result) ≡ members_len (object_members self.now) }
    {
        Iter { rest: *self }
    }

    /// Returns an iterator over the keys in document order.
    pub fn keys(&self) -> Keys<'t, 'i>
        ensures keys { keys_left result ≡ map (λ p. p.0) (member_pairs (object_members self.now)) }
        ensures count { length (keys_left result) ≡ members_len (object_members self.now) }
    {
        Keys {
            members: self.iter(),
        }
    }

    /// Returns an iterator over the values in document order.
    pub fn values(&self) -> Values<'t, 'i>
        ensures nodes { values_left result ≡ map (λ p. p.1) (object_runs self.now) }
        ensures values { map nodes_tree (values_left result) ≡ map (λ p. p.1) (member_pairs (object_members self.now)) }
        ensures count { length (values_left result) ≡ members_len (object_members self.now) }
    {
        Values {
            members: self.iter(),
        }
    }
}

impl<'t, 'i> IntoIterator for &Object<'t, 'i> {
    type Item = (&'i str, Value<'t, 'i>);

    type IntoIter = Iter<'t, 'i>;

    ghost use Rattle.sj_tape.specs.Views.{object_members, object_runs, pair_tree, pairs_left};

    ghost into_iter_gives = { λ object it. (pairs_left it ≡ object_runs object.now)
        × (map pair_tree (pairs_left it) ≡ member_pairs (object_members object.now))
        × (length (pairs_left it) ≡ members_len (object_members object.now)) };

    fn into_iter(self) -> Iter<'t, 'i> {
        self.iter()
    }
}

/// An iterator over the members of an object in document order. After the last member it returns `None` at each call.
#[derive(Clone, Debug, Drop)]
pub struct Iter<'t, 'i> {
    rest: Object<'t, 'i>,
}

impl<'t, 'i> Iterator for Iter<'t, 'i> {
    type Item = (&'i str, Value<'t, 'i>);

    ghost use Rattle.sj_tape.specs.Views.{value_nodes, pairs_left};

    ghost next_gives = { YieldsFirstBy (λ p. (p.0.now, value_nodes p.1)) pairs_left };

    ghost remaining = { item_count pairs_left };

    fn next(&mut self) -> Option<(&'i str, Value<'t, 'i>)> {
        let (key, value, rest) = self.rest.split_first()?;
        self.rest = rest;
        Some((key, value))
    }

    fn size_hint(&self) -> (usize, Option<usize>)
        ensures lower { IsWithinCount result.0 (item_count pairs_left self.now) }
        ensures upper { IfSome result.1 (UpTo (item_count pairs_left self.now)) }
        ensures exact { result ≡ (length (pairs_left self.now), Some (length (pairs_left self.now))) }
    {
        let len = self.len();
        (len, Some(len))
    }
}

impl ExactSizeIterator for Iter<'_, '_> {
    fn len(&self) -> usize {
        self.rest.len()
    }
}

impl FusedIterator for Iter<'_, '_> {}

/// An iterator over the keys of an object in document order. After the last key it returns `None` at each call.
#[derive(Clone, Debug, Drop)]
pub struct Keys<'t, 'i> {
    members: Iter<'t, 'i>,
}

impl<'t, 'i> Iterator for Keys<'t, 'i> {
    type Item = &'i str;

    ghost use Rattle.sj_tape.specs.Views.{keys_left};

    ghost next_gives = { YieldsFirstBy (λ k. k.now) keys_left };

    ghost remaining = { item_count keys_left };

    fn next(&mut self) -> Option<&'i str> {
        let (key, _) = self.members.next()?;
        Some(key)
    }

    fn size_hint(&self) -> (usize, Option<usize>)
        ensures lower { IsWithinCount result.0 (item_count keys_left self.now) }
        ensures upper { IfSome result.1 (UpTo (item_count keys_left self.now)) }
        ensures exact { result ≡ (length (keys_left self.now), Some (length (keys_left self.now))) }
    {
        self.members.size_hint()
    }
}

impl ExactSizeIterator for Keys<'_, '_> {
    fn len(&self) -> usize {
        self.members.len()
    }
}

impl FusedIterator for Keys<'_, '_> {}

/// An iterator over the values of an object in document order. After the last value it returns `None` at each call.
#[derive(Clone, Debug, Drop)]
pub struct Values<'t, 'i> {
    members: Iter<'t, 'i>,
}

impl<'t, 'i> Iterator for Values<'t, 'i> {
    type Item = Value<'t, 'i>;

    ghost use Rattle.sj_tape.specs.Views.{value_nodes, values_left};

    ghost next_gives = { YieldsFirstBy value_nodes values_left };

    ghost remaining = { item_count values_left };

    fn next(&mut self) -> Option<Value<'t, 'i>> {
        let (_, value) = self.members.next()?;
        Some(value)
    }

    fn size_hint(&self) -> (usize, Option<usize>)
        ensures lower { IsWithinCount result.0 (item_count values_left self.now) }
        ensures upper { IfSome result.1 (UpTo (item_count values_left self.now)) }
        ensures exact { result ≡ (length (values_left self.now), Some (length (values_left self.now))) }
    {
        self.members.size_hint()
    }
}

impl ExactSizeIterator for Values<'_, '_> {
    fn len(&self) -> usize {
        self.members.len()
    }
}

impl FusedIterator for Values<'_, '_> {}
