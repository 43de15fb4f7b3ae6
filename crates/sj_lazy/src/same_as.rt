//! Comparisons of lazy values with values of other types. They build nothing and take no memory.
ghost use Rattle.std.specs.Prelude.{◌↔◌, refl, IsTrue, IsSome, IsSomeAnd, option_map};
ghost use Rattle.std.specs.List.{AllZip};
ghost use Rattle.sj_base.specs.Containers.{scalar_in, item_trees};
ghost use Rattle.sj_base.specs.Tree.{Tree};
ghost use Rattle.sj_lazy.specs.Parts.{array_items, object_members};
ghost use Rattle.sj_lazy.specs.Views.{lazy_tree};
ghost use Rattle.sj_lazy.specs.inside.Scalars.{alone};
ghost use Rattle.sj_owned.specs.SameAs.{EqualsAll};

use crate::access::is_there;
use crate::array::Array;
use crate::compare::document_of;
use crate::object::Object;
use crate::value::Value;
use sj_owned::{Comparand, SameAs};
use sj_reads::ValueAsScalar;
use std::collections::HashMap;

/// A lazy value is compared with a value of another type by its tree. Unlike in `==`, a tape's repeated members count, so an
/// object that repeats a key never equals a map.
///
/// The recursion is as deep as the other value nests.
impl<T: LazyComparand> SameAs<T> for Value<'_, '_, '_> {
    ghost is_same = { λ v x. T.equals x (lazy_tree v) };

    fn same_as(&self, other: &T) -> bool {
        other.equals_lazy(self)
    }
}

/// A type of values that lazy values are compared with, by [`SameAs`].
pub trait LazyComparand: Comparand {
    /// Returns `true` if the lazy value equals this value.
    fn equals_lazy(&self, value: &Value<'_, '_, '_>) -> bool
        ensures { IsTrue result ↔ Self.equals self.now (lazy_tree value.now) };
}

/// A type of values that equal scalars alone, and no array and no object.
pub trait ScalarComparand: Comparand {
    ghost laws: { (x : Self) (t : Tree) → Self.equals x t → IsSome (scalar_in t) };
}

impl ScalarComparand for () {
    ghost laws = { alone _ (λ x. refl) };
}

impl ScalarComparand for bool {
    ghost laws = { alone _ (λ x. refl) };
}

impl ScalarComparand for i8 {
    ghost laws = { alone _ (λ x. refl) };
}

impl ScalarComparand for i16 {
    ghost laws = { alone _ (λ x. refl) };
}

impl ScalarComparand for i32 {
    ghost laws = { alone _ (λ x. refl) };
}

impl ScalarComparand for i64 {
    ghost laws = { alone _ (λ x. refl) };
}

impl ScalarComparand for i128 {
    ghost laws = { alone _ (λ x. refl) };
}

impl ScalarComparand for u8 {
    ghost laws = { alone _ (λ x. refl) };
}

impl ScalarComparand for u16 {
    ghost laws = { alone _ (λ x. refl) };
}

impl ScalarComparand for u32 {
    ghost laws = { alone _ (λ x. refl) };
}

impl ScalarComparand for u64 {
    ghost laws = { alone _ (λ x. refl) };
}

impl ScalarComparand for u128 {
    ghost laws = { alone _ (λ x. refl) };
}

impl ScalarComparand for usize {
    ghost laws = { alone _ (λ x. refl) };
}

impl ScalarComparand for &str {
    ghost laws = { alone _ (λ x. refl) };
}

impl ScalarComparand for String {
    ghost laws = { alone _ (λ x. refl) };
}

impl<T: ScalarComparand> LazyComparand for T {
    fn equals_lazy(&self, value: &Value<'_, '_, '_>) -> bool {
        match value.as_scalar() {
            Some(scalar) => self.equals(&document_of(scalar)),
            None => false,
        }
    }
}

/// A vector equals an array of as many items, each of which equals the value at its index.
impl<U: LazyComparand> LazyComparand for Vec<U> {
    fn equals_lazy(&self, value: &Value<'_, '_, '_>) -> bool {
        match value.as_array() {
            Some(items) => equals_items(self, items),
            None => false,
        }
    }
}

/// A map equals an object of as many members, in which each key of the map finds a value that equals the map's.
/// In an object of a tape each key is looked up from the first member on.
impl<U: LazyComparand> LazyComparand for HashMap<String, U> {
    fn equals_lazy(&self, value: &Value<'_, '_, '_>) -> bool {
        match value.as_object() {
            Some(members) => equals_members(self, members),
            None => false,
        }
    }
}

/// Returns `true` if there is a value and it equals the other one.
fn equals_found<U: LazyComparand>(value: &U, found: Option<Value<'_, '_, '_>>) -> bool
    ensures { IsTrue result ↔ IsSomeAnd (option_map lazy_tree found.entry) (U.equals value.now) }
{
    match found {
        Some(found) => value.equals_lazy(&found),
        None => false,
    }
}

fn equals_items<U: LazyComparand>(values: &[U], items: Array<'_, '_, '_>) -> bool
    ensures { IsTrue result ↔ AllZip U.equals values.now (item_trees (array_items items.entry)) }
{
    let mut left = items.iter();
    for value in values {
        if !equals_found(value, left.next()) {
            return false;
        }
    }
    !is_there(left.next())
}

fn equals_members<U: LazyComparand>(map: &HashMap<String, U>, members: Object<'_, '_, '_>) -> bool
    ensures { IsTrue result ↔ EqualsAll U.equals map.now.entries (object_members members.entry) }
{
    if members.len() != map.len() {
        return false;
    }
    for (key, value) in map {
        if !equals_found(value, members.get(key)) {
            return false;
        }
    }
    true
}
