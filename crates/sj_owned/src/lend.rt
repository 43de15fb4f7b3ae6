//! References into a document for writing, with the names of the traits of `value_trait`.
//!
//! A part of a document has the document's own type, and no clause on what a write to it leaves can be proved there.
//! [`MutableValue`] has these clauses: it is generic, so that the two types are apart, and documents have it.
ghost use Rattle.std.specs.Prelude.{◌≡◌, ℕ, List, Option, Some, Vec, option_and_then, slice_get};
ghost use Rattle.std.specs.Borrow.{LendsIf, sem};
ghost use Rattle.std.specs.Option.{option_copied_mut};
ghost use Rattle.std.specs.declared.alloc.Global.{Global};
ghost use Rattle.sj_owned.specs.Lends.{array_row, item_set, member_set};

use crate::literal::Literal;
use crate::value::Value;
use sj_object::{Object, ObjectKey};

impl<K: ObjectKey, D: Literal> Value<K, D> {
    ghost use Rattle.sj_owned.specs.Views.{array_inside, members_inside};
    ghost use Rattle.sj_owned.specs.Lends.{lends_items, lends_members};

    /// Returns the items for writing, or `None` if the value isn't an array.
    /// Port of `value_trait::ValueAsMutArray::as_array_mut`.
    pub fn as_array_mut(&mut self) -> Option<&mut Vec<Value<K, D>>>
        ensures* writes_back { sem 𝓛 (lends_items K.row D.row K.ObjectKey self.entry result) }
        ensures value { option_copied_mut result ≡ array_inside self.old }
    {
        match self {
            Value::Array(items) => Some(items),
            _ => None,
        }
    }

    /// Returns the members for writing, or `None` if the value isn't an object.
    /// Port of `value_trait::ValueAsMutObject::as_object_mut`.
    pub fn as_object_mut(&mut self) -> Option<&mut Object<K, Value<K, D>>>
        ensures* writes_back { sem 𝓛 (lends_members K.row D.row K.ObjectKey self.entry result) }
        ensures value { option_copied_mut result ≡ members_inside self.old }
    {
        match self {
            Value::Object(members) => Some(members),
            _ => None,
        }
    }
}

/// Members whose values are lent for writing, as those of an [`Object`] are. This is a bound of [`LendsParts`].
/// Callers use [`Object::get_mut`].
pub trait LendsMembers {
    /// The type of the members' values.
    type Part;

    // The value of the member with this key.
    ghost member: { Self → List ℕ → Option Self.Part };

    // The members with another value in the place of that of the member with this key.
    ghost with_value: { Self → List ℕ → Self.Part → Self };

    /// Returns the value of the member with this key for writing, or `None` if there is none.
    fn member_mut(&mut self, name: &str) -> Option<&mut Self::Part>
        ensures* writes_back { sem 𝓛 (LendsIf Self.row Self.Part.row self.entry result (with_value self.old name.now) self.old) }
        ensures value { option_copied_mut result ≡ member self.old name.now };
}

/// A value that lends its items and members for writing. A bound of [`MutableValue`]: call [`Value::as_array_mut`] and
/// [`Value::as_object_mut`].
pub trait LendsParts {
    /// The type of items and of members' values.
    type Part;
    /// The type of an object's members.
    type Members: LendsMembers<Part = Self::Part>;

    // The array or the object that the value is, if it is one.
    ghost array: { Self → Option (Vec Self.Part Global) };

    ghost object: { Self → Option Self.Members };

    // The value that is this array, or this object.
    ghost of_array: { Vec Self.Part Global → Self };

    ghost of_object: { Self.Members → Self };

    // The item at this index, and the value of the member with this key.
    ghost item: { Self → ℕ → Option Self.Part };

    ghost member: { Self → List ℕ → Option Self.Part };

    /// Returns the items for writing, or `None` if the value isn't an array.
    fn items_mut(&mut self) -> Option<&mut Vec<Self::Part>>
        ensures* writes_back { sem 𝓛 (LendsIf Self.row (array_row Self.Part.row) self.entry result of_array self.old) }
        ensures value { option_copied_mut result ≡ array self.old };

    /// Returns the members for writing, or `None` if the value isn't an object.
    fn members_mut(&mut self) -> Option<&mut Self::Members>
        ensures* writes_back { sem 𝓛 (LendsIf Self.row Self.Members.row self.entry result of_object self.old) }
        ensures value { option_copied_mut result ≡ object self.old };

    ghost array_again: { (v : Self) (vs : Vec Self.Part Global) → array v ≡ Some vs → of_array vs ≡ v };

    ghost object_again: { (v : Self) (es : Self.Members) → object v ≡ Some es → of_object es ≡ v };

    ghost item_of_array: { (v : Self) (i : ℕ) → item v i ≡ option_and_then (λ vs. slice_get vs.items i) (array v) };

    ghost member_of_object: { (v : Self) (k : List ℕ) → member v k ≡ option_and_then (λ es. Self.Members.member es k) (object v) };
}

/// Parts of a value for writing, by key and by index.
///
/// The clauses `writes_back` say what the value is after a write through the reference: in a document only that part changes.
/// If a call returns `None`, the value is unchanged.
pub trait MutableValue: LendsParts {
    /// Returns the value of the member with this key for writing, or `None` if there is none or the value isn't an object.
    /// Port of `value_trait::MutableObject::get_mut`.
    fn get_mut(&mut self, name: &str) -> Option<&mut Self::Part>
        ensures* writes_back { sem 𝓛 (LendsIf Self.row Self.Part.row self.entry result
            (member_set Self.Members.with_value Self.of_object self.old (Self.object self.old) name.now) self.old) }
        ensures value { option_copied_mut result ≡ Self.member self.old name.now };

    /// Returns the item at this index for writing, or `None` if there is none or the value isn't an array.
    /// Port of `value_trait::MutableArray::get_idx_mut`.
    fn get_idx_mut(&mut self, index: usize) -> Option<&mut Self::Part>
        ensures* writes_back { sem 𝓛 (LendsIf Self.row Self.Part.row self.entry result
            (item_set Self.of_array self.old (Self.array self.old) index) self.old) }
        ensures value { option_copied_mut result ≡ Self.item self.old index };
}

impl<T: LendsParts> MutableValue for T {
    #[inline]
    fn get_mut(&mut self, name: &str) -> Option<&mut T::Part> {
        self.members_mut()?.member_mut(name)
    }

    #[inline]
    fn get_idx_mut(&mut self, index: usize) -> Option<&mut T::Part> {
        self.items_mut()?.get_mut(index)
    }
}

impl<K: ObjectKey, V> LendsMembers for Object<K, V> {
    type Part = V;

    ghost use Rattle.sj_object.specs.Pairs.{value_at, set_value};

    ghost member = { value_at K.text };

    ghost with_value = { set_value K.text };

    #[inline]
    fn member_mut(&mut self, name: &str) -> Option<&mut V> {
        self.get_mut(name)
    }
}

impl<K: ObjectKey, D: Literal> LendsParts for Value<K, D> {
    type Part = Value<K, D>;

    type Members = Object<K, Value<K, D>>;

    ghost use Rattle.std.proofs.Common.{refl};
    ghost use Rattle.sj_owned.specs.Views.{array_inside, members_inside};
    ghost use Rattle.sj_owned.specs.Parts.{member_of, item_of};
    ghost use Rattle.sj_owned.specs.declared.value.Value.{Array as ArrayOf, Object as ObjectOf};
    ghost use Rattle.sj_owned.specs.inside.Lending.{made_of_items, made_of_members, item_of_vector};

    ghost array = { array_inside };

    ghost object = { members_inside };

    ghost of_array = { ArrayOf };

    ghost of_object = { ObjectOf };

    ghost item = { item_of };

    ghost member = { member_of K.text };

    ghost array_again = { made_of_items };

    ghost object_again = { made_of_members };

    ghost item_of_array = { item_of_vector };

    ghost member_of_object = { λ v k. refl };

    #[inline]
    fn items_mut(&mut self) -> Option<&mut Vec<Value<K, D>>> {
        self.as_array_mut()
    }

    #[inline]
    fn members_mut(&mut self) -> Option<&mut Object<K, Value<K, D>>> {
        self.as_object_mut()
    }
}
