//! Comparisons of views with views, scalars and maps. They take no memory.
ghost use Rattle.std.specs.Prelude.{◌≡◌, ◌↔◌, IsTrue};
ghost use Rattle.sj_base.specs.Tree.{null, boolean, integer, string};
ghost use Rattle.sj_tape.specs.Nodes.{node_entry, entries};

use crate::node::Node;
use crate::value::Value;
use sj_reads::ValueAsScalar;
use std::collections::HashMap;

impl Value<'_, '_> {
    ghost use Rattle.sj_tape.specs.Views.{value_tree};
    ghost use Rattle.sj_tape.specs.Compare.{IsSameMap, map_trees};

    /// Returns `true` if both values are equal, as `==` does.
    ///
    /// Objects are equal if they have the same members in the same order, repeated keys included. An integer in an `I64`
    /// equals the same integer in a `U64`. [`Value::null`] equals a null of a tape.
    pub fn same(&self, other: &Value<'_, '_>) -> bool
        ensures { IsTrue result ↔ (value_tree self.now ≡ value_tree other.now) }
    {
        if self.nodes.is_empty() || other.nodes.is_empty() {
            self.same_null() && other.same_null()
        } else {
            same_nodes(self.nodes, other.nodes)
        }
    }

    /// Returns `true` if the value is null.
    pub fn same_null(&self) -> bool
        ensures { IsTrue result ↔ (value_tree self.now ≡ null) }
    {
        self.is_null()
    }

    /// Returns `true` if the value is this boolean.
    pub fn same_bool(&self, b: bool) -> bool
        ensures { IsTrue result ↔ (value_tree self.now ≡ boolean b) }
    {
        self.as_bool() == Some(b)
    }

    /// Returns `true` if the value is this integer, in an `I64` or a `U64`.
    pub fn same_int(&self, n: i128) -> bool
        ensures { IsTrue result ↔ (value_tree self.now ≡ integer n) }
    {
        self.as_i128() == Some(n)
    }

    /// Returns `true` if the value is this string.
    pub fn same_str(&self, text: &str) -> bool
        ensures { IsTrue result ↔ (value_tree self.now ≡ string text.now) }
    {
        self.as_str() == Some(text)
    }

    /// Returns `true` if the value is an object that is equal to the map.
    ///
    /// They are equal if the object has as many members as the map has keys, and `get` of each key finds an equal value.
    /// The order of members doesn't matter. A repeated key counts as a member, so an object with one never equals a map.
    pub fn same_map(&self, map: &HashMap<String, Value<'_, '_>>) -> bool
        ensures { IsTrue result ↔ IsSameMap (value_tree self.now) (map_trees map.now) }
    {
        let Some(object) = self.as_object() else {
            return false;
        };
        if object.len() != map.len() {
            return false;
        }
        for (key, value) in map {
            let Some(found) = object.get(key) else {
                return false;
            };
            if !found.same(value) {
                return false;
            }
        }
        true
    }
}

impl PartialEq for Value<'_, '_> {
    ghost use Rattle.sj_tape.specs.Views.{value_tree};
    ghost use Rattle.sj_tape.specs.Compare.{value_eq, value_eq_partial};

    ghost eq = { value_eq };

    ghost laws = { value_eq_partial };

    fn eq(&self, other: &Self) -> bool
        ensures value { result ≡ value_eq self.now other.now }
        ensures same_tree { IsTrue result ↔ (value_tree self.now ≡ value_tree other.now) }
    {
        self.same(other)
    }
}

impl Eq for Value<'_, '_> {
    ghost use Rattle.sj_tape.specs.Compare.{value_eq_equiv};

    ghost laws = { value_eq_equiv };
}

/// Returns `true` if the nodes stand for the same entries.
fn same_nodes(a: &[Node<'_>], b: &[Node<'_>]) -> bool
    ensures { IsTrue result ↔ (entries a.now ≡ entries b.now) }
{
    if a.len() != b.len() {
        return false;
    }
    for (x, y) in a.iter().zip(b) {
        if !same_node(x, y) {
            return false;
        }
    }
    true
}

/// Returns `true` if the nodes stand for the same entry. An `I64` and a `U64` of one integer do.
fn same_node(a: &Node<'_>, b: &Node<'_>) -> bool
    ensures { IsTrue result ↔ (node_entry a.now ≡ node_entry b.now) }
{
    match (a, b) {
        (Node::String(s), Node::String(t)) => s == t,
        (
            Node::Object { len, count },
            Node::Object {
                len: other_len,
                count: other_count,
            },
        ) => len == other_len && count == other_count,
        (
            Node::Array { len, count },
            Node::Array {
                len: other_len,
                count: other_count,
            },
        ) => len == other_len && count == other_count,
        (Node::Static(s), Node::Static(t)) => s == t,
        (Node::Decimal(d), Node::Decimal(e)) => d.as_str() == e.as_str(),
        _ => false,
    }
}
