//! Conversions between borrowed and owned documents.
ghost use Rattle.std.specs.Prelude.{◌≡◌, ℕ, Bool, List, None, Ok, map, IfOk, OnOk, string_bytes};
ghost use Rattle.std.specs.Cow.{cow_str_bytes};
ghost use Rattle.sj_base.specs.Scalar.{decimal_buf_text, decimal_cow_text};
ghost use Rattle.sj_object.specs.Copies.{copied_pairs};
ghost use Rattle.sj_object.specs.Pairs.{value_at, put_key};
ghost use Rattle.sj_owned.specs.Copies.{leaves, on_leaf, held_text, held_literal, owned_text, made_owned};
ghost use Rattle.sj_owned.specs.Views.{value_tree};
ghost use Rattle.sj_owned.specs.inside.Copying.{kept_key, kept_value, converted};

use crate::copy::{append, push_made};
use crate::literal::Literal;
use crate::owned::Value as OwnedValue;
use crate::value::Value;
use sj_base::{DecimalBuf, DecimalCow, TryCopy};
use sj_object::{Object, ObjectKey};
use std::alloc::{AllocError, Global};
use std::borrow::CowStr;

/// A document whose texts may be borrowed.
type Borrowed<'v> = Value<CowStr<'v>, DecimalCow<'v>>;

/// A type of strings and keys that can be converted to the type `L`.
trait IntoKey<L: ObjectKey>: ObjectKey + Sized {
    // What is said of a key before the conversion and after it, and how the second follows from the first.
    ghost Before: { Type 0 };

    ghost After: { Type 0 };

    ghost before: { Self → Before };

    ghost after: { L → After };

    ghost change: { Before → After };

    fn into_key(self, alloc: Global) -> Result<L, AllocError>
        ensures text { IfOk result (λ k. L.text k ≡ Self.text self) }
        ensures changed { IfOk result (λ k. after k ≡ change (before self)) };
}

/// A type of decimal literals that can be converted to the type `E`.
trait IntoLiteral<E: Literal>: Literal + Sized {
    // What is said of a literal before the conversion and after it, and how the second follows from the first.
    ghost Before: { Type 0 };

    ghost After: { Type 0 };

    ghost before: { Self → Before };

    ghost after: { E → After };

    ghost change: { Before → After };

    fn into_literal(self, alloc: Global) -> Result<E, AllocError>
        ensures text { IfOk result (λ d. E.literal d ≡ Self.literal self) }
        ensures changed { IfOk result (λ d. after d ≡ change (before self)) };
}

/// A borrowed text is copied.
impl IntoKey<String> for CowStr<'_> {
    ghost Before = { Bool × List ℕ };

    ghost After = { List ℕ };

    ghost before = { held_text };

    ghost after = { string_bytes };

    ghost change = { λ c. c.1 };

    fn into_key(self, alloc: Global) -> Result<String, AllocError> {
        self.into_owned(alloc)
    }
}

/// A borrowed text is copied.
impl IntoKey<CowStr<'static>> for CowStr<'_> {
    ghost Before = { Bool × List ℕ };

    ghost After = { Bool × List ℕ };

    ghost before = { held_text };

    ghost after = { held_text };

    ghost change = { made_owned };

    fn into_key(self, alloc: Global) -> Result<CowStr<'static>, AllocError> {
        Ok(CowStr::Owned(self.into_owned(alloc)?))
    }
}

/// The text is moved.
impl<'v> IntoKey<CowStr<'v>> for String {
    ghost Before = { List ℕ };

    ghost After = { Bool × List ℕ };

    ghost before = { string_bytes };

    ghost after = { held_text };

    ghost change = { owned_text };

    fn into_key(self, _alloc: Global) -> Result<CowStr<'v>, AllocError> {
        Ok(CowStr::Owned(self))
    }
}

/// A borrowed literal is copied.
impl IntoLiteral<DecimalBuf> for DecimalCow<'_> {
    ghost Before = { Bool × List ℕ };

    ghost After = { List ℕ };

    ghost before = { held_literal };

    ghost after = { decimal_buf_text };

    ghost change = { λ c. c.1 };

    fn into_literal(self, alloc: Global) -> Result<DecimalBuf, AllocError> {
        match self {
            DecimalCow::Borrowed(literal) => DecimalBuf::new(alloc, literal),
            DecimalCow::Owned(literal) => Ok(literal),
        }
    }
}

/// A borrowed literal is copied.
impl IntoLiteral<DecimalCow<'static>> for DecimalCow<'_> {
    ghost Before = { Bool × List ℕ };

    ghost After = { Bool × List ℕ };

    ghost before = { held_literal };

    ghost after = { held_literal };

    ghost change = { made_owned };

    fn into_literal(self, alloc: Global) -> Result<DecimalCow<'static>, AllocError> {
        let literal: DecimalBuf = self.into_literal(alloc)?;
        Ok(DecimalCow::Owned(literal))
    }
}

/// The literal is moved.
impl<'v> IntoLiteral<DecimalCow<'v>> for DecimalBuf {
    ghost Before = { List ℕ };

    ghost After = { Bool × List ℕ };

    ghost before = { decimal_buf_text };

    ghost after = { held_literal };

    ghost change = { owned_text };

    fn into_literal(self, _alloc: Global) -> Result<DecimalCow<'v>, AllocError> {
        Ok(DecimalCow::Owned(self))
    }
}

#[cycle(convert)]
fn convert<K: IntoKey<L> + Drop, D: IntoLiteral<E> + Drop, L: ObjectKey + Drop, E: Literal + Drop>(
    alloc: Global,
    value: Value<K, D>,
) -> Result<Value<L, E>, AllocError>
    ensures { IfOk result (λ v. kept_value L.text E.literal K.after D.after v
        ≡ converted K.change D.change (kept_value K.text D.literal K.before D.before value)) }
{
    match value {
        Value::Static(scalar) => Ok(Value::Static(scalar)),
        Value::Decimal(literal) => Ok(Value::Decimal(literal.into_literal(alloc)?)),
        Value::String(string) => Ok(Value::String(string.into_key(alloc)?)),
        Value::Array(items) => Ok(Value::Array(convert_items(alloc, items)?)),
        Value::Object(members) => Ok(Value::Object(convert_members(alloc, members)?)),
    }
}

#[cycle(convert)]
fn convert_items<
    K: IntoKey<L> + Drop,
    D: IntoLiteral<E> + Drop,
    L: ObjectKey + Drop,
    E: Literal + Drop,
>(alloc: Global, items: Vec<Value<K, D>>) -> Result<Vec<Value<L, E>>, AllocError>
    ensures { IfOk result (λ v. map (kept_value L.text E.literal K.after D.after) v.items
        ≡ map (λ u. converted K.change D.change (kept_value K.text D.literal K.before D.before u)) items.items) }
{
    let mut converted = Vec::with_capacity(alloc, items.len())?;
    for item in items {
        push_made(&mut converted, convert(alloc, item))?;
    }
    Ok(converted)
}

#[cycle(convert)]
fn convert_members<
    K: IntoKey<L> + Drop,
    D: IntoLiteral<E> + Drop,
    L: ObjectKey + Drop,
    E: Literal + Drop,
>(alloc: Global, members: Object<K, Value<K, D>>) -> Result<Object<L, Value<L, E>>, AllocError>
    ensures { IfOk result (λ m. copied_pairs (kept_key L.text K.after) (kept_value L.text E.literal K.after D.after) m
        ≡ copied_pairs (kept_key K.text (λ k. K.change (K.before k))) (λ u. converted K.change D.change (kept_value K.text D.literal K.before D.before u)) members) }
{
    let mut converted = Object::with_capacity(alloc, members.len())?;
    for (key, member) in members {
        append_converted(alloc, &mut converted, key, convert(alloc, member))?;
    }
    Ok(converted)
}

/// Adds a member under the converted key, if its value was made.
fn append_converted<K: IntoKey<L> + Drop, L: ObjectKey + Drop, V: Drop>(
    alloc: Global,
    members: &mut Object<L, V>,
    key: K,
    made: Result<V, AllocError>,
) -> Result<(), AllocError>
    requires { value_at L.text members.old (K.text key) ≡ None }
    ensures { OnOk result ((name : L) × (value : V) × (made ≡ Ok value) × (L.text name ≡ K.text key)
        × (K.after name ≡ K.change (K.before key)) × (members.new ≡ put_key L.text members.old name value)) }
{
    let value = made?;
    let name = key.into_key(alloc)?;
    append(members, name, value)
}

impl<'v> Value<CowStr<'v>, DecimalCow<'v>> {
    /// Converts an owned document to one that may borrow. Its texts are moved. Port of the `From` of
    /// `simd_json::BorrowedValue`.
    ///
    /// The recursion is as deep as the value nests.
    ///
    /// # Errors
    ///
    /// `AllocError` if there is no memory for the arrays and objects. The given document is dropped.
    pub fn from_owned(alloc: Global, value: OwnedValue) -> Result<Borrowed<'v>, AllocError>
        ensures tree { IfOk result (λ v. value_tree cow_str_bytes decimal_cow_text v ≡ value_tree string_bytes decimal_buf_text value) }
        ensures leaves { IfOk result (λ v. leaves held_text held_literal v ≡ map (on_leaf owned_text owned_text) (leaves string_bytes decimal_buf_text value)) }
    {
        convert(alloc, value)
    }

    /// Converts the document to one that owns its texts. Port of `simd_json::BorrowedValue::into_static`. Borrowed texts are
    /// copied.
    ///
    /// The recursion is as deep as the value nests.
    ///
    /// # Errors
    ///
    /// `AllocError` if there is no memory for the new document. The given one is dropped.
    pub fn into_static(self, alloc: Global) -> Result<Borrowed<'static>, AllocError>
        ensures tree { IfOk result (λ v. value_tree cow_str_bytes decimal_cow_text v ≡ value_tree cow_str_bytes decimal_cow_text self.entry) }
        ensures leaves { IfOk result (λ v. leaves held_text held_literal v
            ≡ map (on_leaf made_owned made_owned) (leaves held_text held_literal self.entry)) }
    {
        convert(alloc, self)
    }

    /// Copies the document to one that owns its texts. Port of `simd_json::BorrowedValue::clone_static`.
    ///
    /// Each text is copied once. Arrays and objects are made twice; each of the first copy is dropped once its second is
    /// made.
    ///
    /// The recursion is as deep as the value nests.
    ///
    /// # Errors
    ///
    /// `AllocError` if there is no memory for the copy.
    pub fn clone_static(&self, alloc: Global) -> Result<Borrowed<'static>, AllocError>
        ensures tree { IfOk result (λ v. value_tree cow_str_bytes decimal_cow_text v ≡ value_tree cow_str_bytes decimal_cow_text self.now) }
        ensures leaves { IfOk result (λ v. leaves held_text held_literal v
            ≡ map (on_leaf made_owned made_owned) (leaves held_text held_literal self.now)) }
    {
        self.try_clone()?.into_static(alloc)
    }
}

/// Converts a borrowed document to an owned one. Borrowed texts are copied. Port of the `From` of `simd_json::OwnedValue`.
///
/// The recursion is as deep as the value nests.
///
/// # Errors
///
/// `AllocError` if there is no memory for the new document. The given one is dropped.
pub fn from_borrowed(alloc: Global, value: Borrowed<'_>) -> Result<OwnedValue, AllocError>
    ensures tree { IfOk result (λ v. value_tree string_bytes decimal_buf_text v ≡ value_tree cow_str_bytes decimal_cow_text value.entry) }
    ensures leaves { IfOk result (λ v. leaves string_bytes decimal_buf_text v
        ≡ map (on_leaf (λ c. c.1) (λ c. c.1)) (leaves held_text held_literal value.entry)) }
{
    convert(alloc, value)
}
