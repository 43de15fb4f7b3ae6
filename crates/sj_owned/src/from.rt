//! Documents made of Rust's values. The conversions by `From` need no memory.
ghost use Rattle.std.specs.Prelude.{◌≡◌, List, [], IfOk, OnOk, MatchOption, string_bytes, map as map_entries};
ghost use Rattle.std.specs.Cmp.Lexicographic.{slice_cmp};
ghost use Rattle.std.specs.List.{AllZip};
ghost use Rattle.std.specs.List.Sorted.{IsPermutation, IsSortedByKey};
ghost use Rattle.std.specs.Ordering.{nat_cmp};
ghost use Rattle.std.specs.Iterator.{Drains, IsFiniteIterable};
ghost use Rattle.std.specs.declared.alloc.Global.{Global as Heap};
ghost use Rattle.std.specs.declared.borrow.CowStr.TheVariants.{Owned, Borrowed};
ghost use Rattle.std.specs.declared.string.String.{String as Text};
ghost use Rattle.std.proofs.Common.{refl};
ghost use Rattle.sj_base.specs.Tree.{string};
ghost use Rattle.sj_base.specs.declared.static_node.StaticNode.TheVariants.{Null, Bool, I64, U64};
ghost use Rattle.sj_object.specs.Pairs.{put_key};
ghost use Rattle.sj_owned.specs.From.{IsArrayOf, IsObjectOf, IsObjectOfEntries};
ghost use Rattle.sj_owned.specs.Views.{value_tree};
ghost use Rattle.sj_owned.specs.declared.value.Value.{Static, String, Array, Object as Members};

use crate::literal::Literal;
use crate::value::Value;
use sj_base::StaticNode;
use sj_object::{Object, ObjectKey};
use std::alloc::{AllocError, Global};
use std::borrow::CowStr;
use std::collections::HashMap;

/// A type of keys and strings that can hold an owned text.
pub trait FromString: ObjectKey + Sized {
    ghost of_string: { Text Heap → Self };

    /// Makes a key that holds `text`.
    fn from_string(text: String) -> Self
        ensures { result ≡ of_string text };

    ghost keeps_text: { (text : Text Heap) → Self.text (of_string text) ≡ string_bytes text };
}

impl FromString for String {
    ghost of_string = { λ text. text };

    ghost keeps_text = { λ text. refl };

    fn from_string(text: String) -> String {
        text
    }
}

impl FromString for CowStr<'_> {
    ghost of_string = { Owned };

    ghost keeps_text = { λ text. refl };

    fn from_string(text: String) -> Self {
        CowStr::Owned(text)
    }
}

impl<K: ObjectKey, D> From<StaticNode> for Value<K, D> {
    ghost from_gives = { λ node v. v ≡ Static node };

    fn from(node: StaticNode) -> Value<K, D> {
        Value::Static(node)
    }
}

/// The value is a null.
impl<K: ObjectKey, D> From<()> for Value<K, D> {
    ghost from_gives = { λ unit v. v ≡ Static Null };

    fn from(_unit: ()) -> Value<K, D> {
        Value::Static(StaticNode::Null)
    }
}

impl<K: ObjectKey, D> From<bool> for Value<K, D> {
    ghost from_gives = { λ b v. v ≡ Static (Bool b) };

    fn from(b: bool) -> Value<K, D> {
        Value::Static(StaticNode::Bool(b))
    }
}

/// The value is an `I64`.
impl<K: ObjectKey, D> From<i8> for Value<K, D> {
    ghost from_gives = { λ n v. v ≡ Static (I64 n) };

    fn from(n: i8) -> Value<K, D> {
        Value::Static(StaticNode::I64(i64::from(n)))
    }
}

/// The value is an `I64`.
impl<K: ObjectKey, D> From<i16> for Value<K, D> {
    ghost from_gives = { λ n v. v ≡ Static (I64 n) };

    fn from(n: i16) -> Value<K, D> {
        Value::Static(StaticNode::I64(i64::from(n)))
    }
}

/// The value is an `I64`.
impl<K: ObjectKey, D> From<i32> for Value<K, D> {
    ghost from_gives = { λ n v. v ≡ Static (I64 n) };

    fn from(n: i32) -> Value<K, D> {
        Value::Static(StaticNode::I64(i64::from(n)))
    }
}

/// The value is an `I64`.
impl<K: ObjectKey, D> From<i64> for Value<K, D> {
    ghost from_gives = { λ n v. v ≡ Static (I64 n) };

    fn from(n: i64) -> Value<K, D> {
        Value::Static(StaticNode::I64(n))
    }
}

/// The value is a `U64`.
impl<K: ObjectKey, D> From<u8> for Value<K, D> {
    ghost from_gives = { λ n v. v ≡ Static (U64 n) };

    fn from(n: u8) -> Value<K, D> {
        Value::Static(StaticNode::U64(u64::from(n)))
    }
}

/// The value is a `U64`.
impl<K: ObjectKey, D> From<u16> for Value<K, D> {
    ghost from_gives = { λ n v. v ≡ Static (U64 n) };

    fn from(n: u16) -> Value<K, D> {
        Value::Static(StaticNode::U64(u64::from(n)))
    }
}

/// The value is a `U64`.
impl<K: ObjectKey, D> From<u32> for Value<K, D> {
    ghost from_gives = { λ n v. v ≡ Static (U64 n) };

    fn from(n: u32) -> Value<K, D> {
        Value::Static(StaticNode::U64(u64::from(n)))
    }
}

/// The value is a `U64`.
impl<K: ObjectKey, D> From<u64> for Value<K, D> {
    ghost from_gives = { λ n v. v ≡ Static (U64 n) };

    fn from(n: u64) -> Value<K, D> {
        Value::Static(StaticNode::U64(n))
    }
}

/// The value is a `U64`.
impl<K: ObjectKey, D> From<usize> for Value<K, D> {
    ghost from_gives = { λ n v. v ≡ Static (U64 n) };

    fn from(n: usize) -> Value<K, D> {
        Value::Static(StaticNode::U64(n as u64))
    }
}

impl<K: FromString, D> From<String> for Value<K, D> {
    ghost from_gives = { λ text v. v ≡ String (K.of_string text) };

    fn from(text: String) -> Value<K, D> {
        Value::String(K::from_string(text))
    }
}

impl<'v, D> From<&'v str> for Value<CowStr<'v>, D> {
    ghost from_gives = { λ text v. v ≡ String (Borrowed text) };

    fn from(text: &'v str) -> Value<CowStr<'v>, D> {
        Value::String(CowStr::Borrowed(text))
    }
}

impl<'v, D> From<CowStr<'v>> for Value<CowStr<'v>, D> {
    ghost from_gives = { λ text v. v ≡ String text };

    fn from(text: CowStr<'v>) -> Value<CowStr<'v>, D> {
        Value::String(text)
    }
}

impl<K: ObjectKey, D> From<Vec<Value<K, D>>> for Value<K, D> {
    ghost from_gives = { λ items v. v ≡ Array items };

    fn from(items: Vec<Value<K, D>>) -> Value<K, D> {
        Value::Array(items)
    }
}

impl<K: ObjectKey, D> From<Object<K, Value<K, D>>> for Value<K, D> {
    ghost from_gives = { λ members v. v ≡ Members members };

    fn from(members: Object<K, Value<K, D>>) -> Value<K, D> {
        Value::Object(members)
    }
}

/// `None` becomes a null.
impl<K: ObjectKey, D, T: Into<Value<K, D>>> From<Option<T>> for Value<K, D> {
    ghost from_gives = { λ x v. MatchOption x (v ≡ Static Null) (λ y. T.Into.converts y v) };

    fn from(x: Option<T>) -> Value<K, D> {
        match x {
            Some(value) => value.into(),
            None => Value::Static(StaticNode::Null),
        }
    }
}

/// The entries, with their keys converted.
fn entry_pairs<K: FromString + Drop, V: Drop>(
    alloc: Global,
    map: HashMap<String, V>,
) -> Result<Vec<(K, V)>, AllocError>
    ensures { IfOk result (λ ps. ps.items ≡ map_entries (λ e. (K.of_string e.0, e.1)) map.entries) }
{
    let mut pairs = Vec::with_capacity(alloc, map.len())?;
    for (key, value) in map {
        pairs.push((K::from_string(key), value))?;
    }
    Ok(pairs)
}

/// Sorts the pairs by the bytes of their keys.
fn sort_pairs<K: ObjectKey, V>(pairs: &mut [(K, V)])
    ensures moved { IsPermutation pairs.old pairs.new }
    ensures sorted { IsSortedByKey (λ p. K.text p.0) (slice_cmp nat_cmp) pairs.new }
{
    pairs.sort_unstable_by(|a, b| a.0.as_text().cmp(b.0.as_text()));
}

/// Converts the values and appends them to `items`, which is empty. If there is no memory, all of them are dropped.
fn convert_into<T: Drop, S: Into<T> + Drop, I: IntoIterator<Item = S>>(
    mut items: Vec<T>,
    values: I,
) -> Result<Vec<T>, AllocError>
    requires empty { items.items ≡ [] }
    requires finite { IsFiniteIterable I.into_iter_gives I.IntoIter.can_next I.IntoIter.remaining values }
    ensures { IfOk result (λ all. (it : I.IntoIter) × (xs : List S) × I.into_iter_gives values it
        × Drains I.IntoIter.next_gives it xs × AllZip S.Into.converts xs all.items) }
{
    for value in values {
        items.push(value.into())?;
    }
    Ok(items)
}

/// Inserts a member. If there is no memory for it, it is dropped.
fn insert<K: ObjectKey + Drop, V: Drop>(
    members: &mut Object<K, V>,
    key: K,
    value: V,
) -> Result<(), AllocError>
    ensures { OnOk result (members.new ≡ put_key K.text members.old key value) }
{
    members.insert(key, value)?;
    Ok(())
}

impl<K: FromString, D: Literal> Value<K, D> {
    /// Creates a string that is a copy of `text`.
    ///
    /// # Errors
    ///
    /// `AllocError` if there is no memory for the copy.
    pub fn from_text(alloc: Global, text: &str) -> Result<Self, AllocError>
        ensures { IfOk result (λ v. value_tree K.text D.literal v ≡ string text.now) }
    {
        Ok(Value::from(String::from_str(alloc, text)?))
    }
}

impl<K: ObjectKey + Drop, D: Literal + Drop> Value<K, D> {
    /// Creates an array of the values of `list`, each converted.
    ///
    /// # Errors
    ///
    /// `AllocError` if there is no memory for the array. The values are dropped.
    pub fn from_list<S: Into<Value<K, D>> + Drop>(
        alloc: Global,
        list: Vec<S>,
    ) -> Result<Self, AllocError>
        ensures { IfOk result (IsArrayOf S.Into.converts list.items) }
    {
        let items = Vec::with_capacity(alloc, list.len())?;
        Ok(Value::Array(convert_into(items, list)?))
    }

    /// Creates an array of the given values, each converted, in their order. The iterator has to end, as those of a vector, a map or
    /// a range do.
    ///
    /// # Errors
    ///
    /// `AllocError` if there is no memory for the array. The values are dropped.
    pub fn from_values<S: Into<Value<K, D>> + Drop, I: IntoIterator<Item = S>>(
        alloc: Global,
        values: I,
    ) -> Result<Self, AllocError>
        requires { IsFiniteIterable I.into_iter_gives I.IntoIter.can_next I.IntoIter.remaining values }
        ensures { IfOk result (λ v. (it : I.IntoIter) × (xs : List S) × I.into_iter_gives values it
            × Drains I.IntoIter.next_gives it xs × IsArrayOf S.Into.converts xs v) }
    {
        Ok(Value::Array(convert_into(Vec::new(alloc), values)?))
    }

    /// Creates an object of the given pairs, with each value converted. The iterator has to end. Of pairs with equal keys the
    /// first one gives the place, and the last one the value.
    ///
    /// # Errors
    ///
    /// `AllocError` if there is no memory for the object. The pairs are dropped.
    pub fn from_pairs<S: Into<Value<K, D>> + Drop, I: IntoIterator<Item = (K, S)>>(
        alloc: Global,
        pairs: I,
    ) -> Result<Self, AllocError>
        requires { IsFiniteIterable I.into_iter_gives I.IntoIter.can_next I.IntoIter.remaining pairs }
        ensures { IfOk result (λ v. (it : I.IntoIter) × (xs : List (K × S)) × I.into_iter_gives pairs it
            × Drains I.IntoIter.next_gives it xs × IsObjectOf S.Into.converts K.text xs v) }
    {
        let mut members = Object::new(alloc);
        for (key, value) in pairs {
            insert(&mut members, key, value.into())?;
        }
        Ok(Value::Object(members))
    }
}

impl<K: FromString + Drop, D: Literal + Drop> Value<K, D> {
    /// Creates an object of the entries of `map`, in the order of the keys' bytes.
    ///
    /// # Errors
    ///
    /// `AllocError` if there is no memory for the object, or for the list in which its pairs are sorted. The entries are
    /// dropped.
    pub fn from_map(alloc: Global, map: HashMap<String, Value<K, D>>) -> Result<Self, AllocError>
        ensures { IfOk result (IsObjectOfEntries K.of_string K.text map.entries) }
    {
        let mut pairs = entry_pairs(alloc, map)?;
        sort_pairs(&mut pairs);
        Value::from_pairs(alloc, pairs)
    }
}
