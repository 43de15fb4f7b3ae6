//! Comparisons of documents with values of other types. They take no memory.
ghost use Rattle.std.specs.Prelude.{◌≡◌, ◌↔◌, true, pos, IsTrue, IsSomeAnd, string_bytes};
ghost use Rattle.std.specs.List.{AllZip};
ghost use Rattle.sj_base.specs.Alike.{alike};
ghost use Rattle.sj_base.specs.Containers.{items_in, members_in, item_trees};
ghost use Rattle.sj_base.specs.Path.{member_at};
ghost use Rattle.sj_base.specs.Tree.{Tree, null, boolean, integer, string};
ghost use Rattle.sj_owned.specs.SameAs.{EqualsAll};
ghost use Rattle.sj_owned.specs.Views.{value_tree, items_view, members_view};

use crate::compare::same_values;
use crate::literal::Literal;
use crate::value::Value;
use sj_object::{Object, ObjectKey};
use sj_reads::ValueAsScalar;
use std::collections::HashMap;

/// Equality with a value of another type. It stands in the place of the Rust crate's `PartialEq` impls with other types.
pub trait SameAs<T> {
    // The two are equal.
    ghost is_same: { Self → T → Type 0 };

    /// Returns `true` if `self` and `other` are equal.
    fn same_as(&self, other: &T) -> bool
        ensures { IsTrue result ↔ is_same self.now other.now };
}

impl<K: ObjectKey, D: Literal, T: Comparand> SameAs<T> for Value<K, D> {
    ghost is_same = { λ v x. T.equals x (value_tree K.text D.literal v) };

    fn same_as(&self, other: &T) -> bool {
        other.equals(self)
    }
}

/// A type of values that documents are compared with, by [`SameAs`].
pub trait Comparand {
    // The value equals a document with this tree.
    ghost equals: { Self → Tree → Type 0 };

    /// Returns `true` if the document equals this value.
    fn equals<K: ObjectKey, D: Literal>(&self, document: &Value<K, D>) -> bool
        ensures { IsTrue result ↔ equals self.now (value_tree K.text D.literal document.now) };
}

/// Returns `true` if the document is this integer, in either carrier.
fn is_signed<K: ObjectKey, D: Literal>(document: &Value<K, D>, n: i128) -> bool
    ensures { IsTrue result ↔ (value_tree K.text D.literal document.now ≡ integer n) }
{
    document.as_i128() == Some(n)
}

fn is_unsigned<K: ObjectKey, D: Literal>(document: &Value<K, D>, n: u128) -> bool
    ensures { IsTrue result ↔ (value_tree K.text D.literal document.now ≡ integer (pos n)) }
{
    document.as_u128() == Some(n)
}

fn is_text<K: ObjectKey, D: Literal>(document: &Value<K, D>, text: &str) -> bool
    ensures { IsTrue result ↔ (value_tree K.text D.literal document.now ≡ string text.now) }
{
    document.as_str() == Some(text)
}

/// A unit equals a null.
impl Comparand for () {
    ghost equals = { λ unit t. t ≡ null };

    fn equals<K: ObjectKey, D: Literal>(&self, document: &Value<K, D>) -> bool {
        document.is_null()
    }
}

impl Comparand for bool {
    ghost equals = { λ b t. t ≡ boolean b };

    fn equals<K: ObjectKey, D: Literal>(&self, document: &Value<K, D>) -> bool {
        document.as_bool() == Some(*self)
    }
}

impl Comparand for i8 {
    ghost equals = { λ n t. t ≡ integer n };

    fn equals<K: ObjectKey, D: Literal>(&self, document: &Value<K, D>) -> bool {
        is_signed(document, i128::from(*self))
    }
}

impl Comparand for i16 {
    ghost equals = { λ n t. t ≡ integer n };

    fn equals<K: ObjectKey, D: Literal>(&self, document: &Value<K, D>) -> bool {
        is_signed(document, i128::from(*self))
    }
}

impl Comparand for i32 {
    ghost equals = { λ n t. t ≡ integer n };

    fn equals<K: ObjectKey, D: Literal>(&self, document: &Value<K, D>) -> bool {
        is_signed(document, i128::from(*self))
    }
}

impl Comparand for i64 {
    ghost equals = { λ n t. t ≡ integer n };

    fn equals<K: ObjectKey, D: Literal>(&self, document: &Value<K, D>) -> bool {
        is_signed(document, i128::from(*self))
    }
}

impl Comparand for i128 {
    ghost equals = { λ n t. t ≡ integer n };

    fn equals<K: ObjectKey, D: Literal>(&self, document: &Value<K, D>) -> bool {
        is_signed(document, *self)
    }
}

impl Comparand for u8 {
    ghost equals = { λ n t. t ≡ integer (pos n) };

    fn equals<K: ObjectKey, D: Literal>(&self, document: &Value<K, D>) -> bool {
        is_unsigned(document, u128::from(*self))
    }
}

impl Comparand for u16 {
    ghost equals = { λ n t. t ≡ integer (pos n) };

    fn equals<K: ObjectKey, D: Literal>(&self, document: &Value<K, D>) -> bool {
        is_unsigned(document, u128::from(*self))
    }
}

impl Comparand for u32 {
    ghost equals = { λ n t. t ≡ integer (pos n) };

    fn equals<K: ObjectKey, D: Literal>(&self, document: &Value<K, D>) -> bool {
        is_unsigned(document, u128::from(*self))
    }
}

impl Comparand for u64 {
    ghost equals = { λ n t. t ≡ integer (pos n) };

    fn equals<K: ObjectKey, D: Literal>(&self, document: &Value<K, D>) -> bool {
        is_unsigned(document, u128::from(*self))
    }
}

impl Comparand for u128 {
    ghost equals = { λ n t. t ≡ integer (pos n) };

    fn equals<K: ObjectKey, D: Literal>(&self, document: &Value<K, D>) -> bool {
        is_unsigned(document, *self)
    }
}

impl Comparand for usize {
    ghost equals = { λ n t. t ≡ integer (pos n) };

    fn equals<K: ObjectKey, D: Literal>(&self, document: &Value<K, D>) -> bool {
        is_unsigned(document, *self as u128)
    }
}

impl Comparand for &str {
    ghost equals = { λ text t. t ≡ string text.now };

    fn equals<K: ObjectKey, D: Literal>(&self, document: &Value<K, D>) -> bool {
        is_text(document, self)
    }
}

impl Comparand for String {
    ghost equals = { λ text t. t ≡ string (string_bytes text) };

    fn equals<K: ObjectKey, D: Literal>(&self, document: &Value<K, D>) -> bool {
        is_text(document, self.as_str())
    }
}

/// A vector equals an array of as many items, each of which equals the value at its index.
impl<U: Comparand> Comparand for Vec<U> {
    ghost equals = { λ us t. IsSomeAnd (items_in t) (λ ts. AllZip U.equals us.items (item_trees ts)) };

    fn equals<K: ObjectKey, D: Literal>(&self, document: &Value<K, D>) -> bool {
        match document {
            Value::Array(items) => equal_items(self, items),
            _ => false,
        }
    }
}

fn equal_items<U: Comparand, K: ObjectKey, D: Literal>(values: &[U], items: &[Value<K, D>]) -> bool
    ensures { IsTrue result ↔ AllZip U.equals values.now (item_trees (items_view K.text D.literal items.now)) }
{
    if values.len() != items.len() {
        return false;
    }
    for (value, item) in values.iter().zip(items) {
        if !value.equals(item) {
            return false;
        }
    }
    true
}

/// A map equals an object of as many members, in which each key of the map finds a value that equals the map's.
impl<U: Comparand> Comparand for HashMap<String, U> {
    ghost equals = { λ map t. IsSomeAnd (members_in t) (EqualsAll U.equals map.entries) };

    fn equals<K: ObjectKey, D: Literal>(&self, document: &Value<K, D>) -> bool {
        match document {
            Value::Object(members) => equal_members(self, members),
            _ => false,
        }
    }
}

fn equal_members<U: Comparand, K: ObjectKey, D: Literal>(
    map: &HashMap<String, U>,
    members: &Object<K, Value<K, D>>,
) -> bool
    ensures { IsTrue result ↔ EqualsAll U.equals map.now.entries (members_view K.text D.literal members.now) }
{
    if members.len() != map.len() {
        return false;
    }
    for (key, value) in map {
        if !equals_member(value, members, key) {
            return false;
        }
    }
    true
}

fn equals_member<U: Comparand, K: ObjectKey, D: Literal>(
    value: &U,
    members: &Object<K, Value<K, D>>,
    key: &str,
) -> bool
    ensures { IsTrue result
        ↔ IsSomeAnd (member_at (members_view K.text D.literal members.now) key.now) (U.equals value.now) }
{
    match members.get(key) {
        Some(found) => value.equals(found),
        None => false,
    }
}

/// Documents are compared as by `==`, whatever holds their texts.
///
/// The recursion is as deep as the first document nests.
impl<L: ObjectKey, E: Literal> Comparand for Value<L, E> {
    ghost equals = { λ w t. alike t (value_tree L.text E.literal w) ≡ true };

    fn equals<K: ObjectKey, D: Literal>(&self, document: &Value<K, D>) -> bool {
        same_values(document, self)
    }
}
