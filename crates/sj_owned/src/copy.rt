//! Copies of documents.
ghost use Rattle.std.specs.Prelude.{◌≡◌, [], ◌∷◌, ◌++◌, List, None, Ok, map, IfOk, OnOk};
ghost use Rattle.std.proofs.Common.{ap};
ghost use Rattle.sj_base.specs.Tree.{Tree};
ghost use Rattle.sj_object.specs.Copies.{copied_pairs};
ghost use Rattle.sj_object.specs.Pairs.{value_at, put_key};
ghost use Rattle.sj_owned.specs.Copies.{Leaf, leaves};
ghost use Rattle.sj_owned.specs.Views.{value_tree};
ghost use Rattle.sj_owned.specs.inside.Copying.{kept_key, kept_value};

use crate::literal::Literal;
use crate::value::Value;
use sj_base::{DecimalBuf, DecimalCow, TryCopy};
use sj_object::{CopyKey, Object, ObjectKey};
use std::alloc::AllocError;

/// A type of decimal literals whose copies have the text of their original.
pub trait CopyLiteral: Literal + TryCopy {
    ghost keeps_literal: { (a b : Self) → Self.copied a ≡ Self.copied b → Self.literal a ≡ Self.literal b };
}

impl CopyLiteral for DecimalBuf {
    ghost keeps_literal = { λ a b same. same };
}

impl CopyLiteral for DecimalCow<'_> {
    ghost keeps_literal = { λ a b same. ap (λ p. p.1) same };
}

/// A copy has the same tree, and copies of the strings, keys and literals. An `I64` stays an `I64`, and a `U64` a `U64`.
///
/// The recursion is as deep as the value nests.
impl<K: CopyKey + Drop, D: CopyLiteral + Drop> TryCopy for Value<K, D> {
    ghost Copied = { Tree × List (Leaf K.Copied D.Copied) };

    ghost copied = { λ v. (value_tree K.text D.literal v, leaves K.copied D.copied v) };

    ghost tree = { λ c. c.0 };

    fn try_clone(&self) -> Result<Value<K, D>, AllocError> {
        copy(self)
    }
}

#[cycle(copy)]
fn copy<K: CopyKey + Drop, D: CopyLiteral + Drop>(
    value: &Value<K, D>,
) -> Result<Value<K, D>, AllocError>
    ensures { IfOk result (λ v. kept_value K.text D.literal K.copied D.copied v ≡ kept_value K.text D.literal K.copied D.copied value.now) }
{
    match value {
        Value::Static(scalar) => Ok(Value::Static(*scalar)),
        Value::Decimal(literal) => Ok(Value::Decimal(literal.try_clone()?)),
        Value::String(string) => Ok(Value::String(string.try_clone()?)),
        Value::Array(items) => Ok(Value::Array(copy_items(items)?)),
        Value::Object(members) => Ok(Value::Object(copy_members(members)?)),
    }
}

#[cycle(copy)]
fn copy_items<K: CopyKey + Drop, D: CopyLiteral + Drop>(
    items: &Vec<Value<K, D>>,
) -> Result<Vec<Value<K, D>>, AllocError>
    ensures { IfOk result (λ v. map (kept_value K.text D.literal K.copied D.copied) v.items ≡ map (kept_value K.text D.literal K.copied D.copied) items.now.items) }
{
    let mut copies = Vec::with_capacity(*items.allocator(), items.len())?;
    for item in items {
        push_made(&mut copies, copy(item))?;
    }
    Ok(copies)
}

#[cycle(copy)]
fn copy_members<K: CopyKey + Drop, D: CopyLiteral + Drop>(
    members: &Object<K, Value<K, D>>,
) -> Result<Object<K, Value<K, D>>, AllocError>
    ensures { IfOk result (λ m. copied_pairs (kept_key K.text K.copied) (kept_value K.text D.literal K.copied D.copied) m
        ≡ copied_pairs (kept_key K.text K.copied) (kept_value K.text D.literal K.copied D.copied) members.now) }
{
    let mut copies = members.emptied()?;
    for (key, member) in members.iter() {
        append_copy(&mut copies, key, copy(member))?;
    }
    Ok(copies)
}

/// Adds an item, if it was made.
pub(crate) fn push_made<T: Drop>(
    items: &mut Vec<T>,
    made: Result<T, AllocError>,
) -> Result<(), AllocError>
    ensures { OnOk result ((item : T) × (made ≡ Ok item) × (items.new.items ≡ items.old.items ++ item ∷ [])) }
{
    items.push(made?)?;
    Ok(())
}

/// Adds a member under a copy of the key, if its value was made.
fn append_copy<K: CopyKey + Drop, V: Drop>(
    members: &mut Object<K, V>,
    key: &K,
    made: Result<V, AllocError>,
) -> Result<(), AllocError>
    requires { value_at K.text members.old (K.text key.now) ≡ None }
    ensures { OnOk result ((name : K) × (value : V) × (made ≡ Ok value) × (K.copied name ≡ K.copied key.now)
        × (members.new ≡ put_key K.text members.old name value)) }
{
    let value = made?;
    let name = key.try_clone()?;
    append(members, name, value)
}

/// Adds a member whose key is new. If there is no memory for it, it is dropped.
pub(crate) fn append<K: ObjectKey + Drop, V: Drop>(
    members: &mut Object<K, V>,
    key: K,
    value: V,
) -> Result<(), AllocError>
    requires { value_at K.text members.old (K.text key) ≡ None }
    ensures { OnOk result (members.new ≡ put_key K.text members.old key value) }
{
    Ok(members.push_new(key, value)?)
}
