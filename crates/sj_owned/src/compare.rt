//! Comparisons of documents. They take no memory.
ghost use Rattle.std.specs.Prelude.{◌≡◌};
ghost use Rattle.std.specs.Cmp.{on_equiv, partial_equiv_from_equiv};
ghost use Rattle.std.specs.Ordering.{on};
ghost use Rattle.sj_base.specs.Alike.{alike};
ghost use Rattle.sj_base.specs.Scalar.{scalar_tree};
ghost use Rattle.sj_base.specs.Tree.{list, object};
ghost use Rattle.sj_owned.specs.Compare.{kept_alike};
ghost use Rattle.sj_owned.specs.Views.{value_tree, items_view, members_view};
ghost use Rattle.sj_owned.specs.inside.Comparing.{Compares, kept_alike-equiv};

use crate::literal::Literal;
use crate::value::Value;
use sj_base::Scalar;
use sj_object::{Object, ObjectKey};
use sj_reads::ValueAsScalar;

/// Returns `true` if the document is a scalar that is equal to this one.
fn is_scalar<K: ObjectKey, D: Literal>(value: &Value<K, D>, scalar: &Scalar<'_>) -> bool
    ensures { result ≡ alike (scalar_tree scalar.now) (value_tree K.text D.literal value.now) }
{
    match value.as_scalar() {
        Some(other) => scalar.same(&other),
        None => false,
    }
}

/// Returns `true` if the documents are equal.
#[cycle(same)]
pub(crate) fn same_values<K: ObjectKey, D: Literal, L: ObjectKey, E: Literal>(
    a: &Value<K, D>,
    b: &Value<L, E>,
) -> bool
    ensures { Compares result (value_tree K.text D.literal a.now) (value_tree L.text E.literal b.now) }
{
    match a {
        Value::Static(node) => is_scalar(b, &Scalar::Static(*node)),
        Value::Decimal(literal) => is_scalar(b, &Scalar::Literal(literal.as_decimal())),
        Value::String(string) => is_scalar(b, &Scalar::Text(string.as_text())),
        Value::Array(items) => match b {
            Value::Array(others) => same_items(items, others),
            _ => false,
        },
        Value::Object(members) => match b {
            Value::Object(others) => same_members(members, others),
            _ => false,
        },
    }
}

#[cycle(same)]
fn same_items<K: ObjectKey, D: Literal, L: ObjectKey, E: Literal>(
    items: &[Value<K, D>],
    others: &[Value<L, E>],
) -> bool
    ensures { Compares result
        (list (items_view K.text D.literal items.now)) (list (items_view L.text E.literal others.now)) }
{
    if items.len() != others.len() {
        return false;
    }
    for (item, other) in items.iter().zip(others) {
        if !same_values(item, other) {
            return false;
        }
    }
    true
}

#[cycle(same)]
fn same_members<K: ObjectKey, D: Literal, L: ObjectKey, E: Literal>(
    members: &Object<K, Value<K, D>>,
    others: &Object<L, Value<L, E>>,
) -> bool
    ensures { Compares result
        (object (members_view K.text D.literal members.now)) (object (members_view L.text E.literal others.now)) }
{
    if members.len() != others.len() {
        return false;
    }
    for (key, value) in members.iter() {
        let Some(other) = others.get(key.as_text()) else {
            return false;
        };
        if !same_values(value, other) {
            return false;
        }
    }
    true
}

/// Two documents are equal if their trees are. Objects are compared as maps, so the order of members doesn't count, and
/// integers by number, so an `I64` can equal a `U64`. Decimal literals are compared by text.
///
/// The recursion is as deep as the first document nests.
impl<K: ObjectKey, D: Literal> PartialEq for Value<K, D> {
    ghost eq = { on (value_tree K.text D.literal) kept_alike };

    ghost laws = { partial_equiv_from_equiv (on_equiv (value_tree K.text D.literal) kept_alike-equiv) };

    fn eq(&self, other: &Value<K, D>) -> bool
        ensures value { result ≡ kept_alike (value_tree K.text D.literal self.now) (value_tree K.text D.literal other.now) }
        ensures trees { result ≡ alike (value_tree K.text D.literal self.now) (value_tree K.text D.literal other.now) }
    {
        same_values(self, other)
    }
}

impl<K: ObjectKey, D: Literal> Eq for Value<K, D> {
    ghost laws = { on_equiv (value_tree K.text D.literal) kept_alike-equiv };
}
