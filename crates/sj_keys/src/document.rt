//! Documents as targets of known keys. A document that is an object is written through that object.
//!
//! In a document the value of a member has the document's own type, and there the prover can't tell what a write through a
//! reference to it leaves. In [`KnownKeyDocument`] the two are different type parameters, so it can.
ghost use Rattle.std.specs.Prelude.{◌≡◌, ℕ, List, Option, Some, option_and_then};
ghost use Rattle.std.specs.Borrow.{LendsIf, sem};
ghost use Rattle.std.specs.Option.{option_copied_mut};
ghost use Rattle.sj_base.specs.declared.static_node.ValueType.{ValueType};
ghost use Rattle.sj_owned.specs.Parts.{member_of};
ghost use Rattle.sj_owned.specs.Lends.{member_set};
ghost use Rattle.sj_keys.specs.Writes.{PutsInside, type_met};

use crate::error::KnownKeyError;
use crate::key::KnownKey;
use crate::target::{KnownKeyTarget, KnownKeyTargetMut};
use sj_base::ValueType;
use sj_object::{Object, ObjectKey};
use sj_owned::{FromString, Literal, Value};
use std::alloc::Global;

/// A target that may be an object, and is written through that object.
pub trait KnownKeyDocument: KnownKeyTarget {
    /// The type of the object.
    type Members: KnownKeyTargetMut<Output = Self::Output>;

    // The object that the target is, if it is one.
    ghost object: { Self → Option Self.Members };

    // The target that is this object.
    ghost of_object: { Self.Members → Self };

    // The type of the target.
    ghost kind: { Self → ValueType };

    /// Returns the type of the target.
    fn known_type(&self) -> ValueType
        ensures { result ≡ kind self.now };

    /// Returns the object for writing, or `None` if the target isn't one.
    fn known_object_mut(&mut self) -> Option<&mut Self::Members>
        ensures* writes_back { sem 𝓛 (LendsIf Self.row Self.Members.row self.entry result of_object self.old) }
        ensures value { option_copied_mut result ≡ object self.old };

    ghost object_again: { (o : Self.Members) → object (of_object o) ≡ Some o };

    ghost same_object: { (v : Self) (o : Self.Members) → object v ≡ Some o → of_object o ≡ v };

    ghost member_of_object: { (v : Self) (k : List ℕ) → Self.member v k ≡ option_and_then (λ o. Self.Members.member o k) (object v) };
}

impl<T: KnownKeyDocument> KnownKeyTargetMut for T {
    ghost with_value = { λ v k w. member_set T.Members.with_value T.of_object v (T.object v) k w };

    ghost puts = { PutsInside T.object T.of_object T.Members.puts };

    ghost other_type = { λ v. type_met T.Members.other_type (T.kind v) (T.object v) };

    ghost use Rattle.sj_keys.specs.inside.Laws.{set_found_inside, set_others_inside, put_found_inside, put_others_inside};

    ghost written_found = { set_found_inside T.object T.of_object T.member T.Members.member T.object_again T.member_of_object T.Members.with_value T.Members.written_found };

    ghost put_found = { put_found_inside T.object T.of_object T.member T.Members.member T.object_again T.member_of_object T.Members.puts T.Members.put_found };

    ghost others_unwritten = { set_others_inside T.object T.of_object T.member T.Members.member T.object_again T.member_of_object T.Members.with_value T.Members.others_unwritten };

    ghost others_unput = { put_others_inside T.object T.of_object T.member T.Members.member T.object_again T.member_of_object T.Members.puts T.Members.others_unput };

    #[inline]
    fn get_known_mut(&mut self, key: &KnownKey<'_>) -> Option<&mut T::Output> {
        self.known_object_mut()?.get_known_mut(key)
    }

    fn insert_known(
        &mut self,
        alloc: Global,
        key: &KnownKey<'_>,
        value: T::Output,
    ) -> Result<Option<T::Output>, KnownKeyError>
    where
        T::Output: Drop,
    {
        match self.known_object_mut() {
            Some(object) => object.insert_known(alloc, key, value),
            None => Err(KnownKeyError::NotAnObject(self.known_type())),
        }
    }

    fn get_known_or_insert<F: FnOnce() -> T::Output + Drop>(
        &mut self,
        alloc: Global,
        key: &KnownKey<'_>,
        with: F,
    ) -> Result<&mut T::Output, KnownKeyError> {
        let kind = self.known_type();
        match self.known_object_mut() {
            Some(object) => object.get_known_or_insert(alloc, key, with),
            None => Err(KnownKeyError::NotAnObject(kind)),
        }
    }
}

impl<K: ObjectKey, D: Literal> KnownKeyTarget for Value<K, D> {
    type Output = Value<K, D>;

    ghost member = { member_of K.text };

    #[inline]
    fn get_known(&self, key: &KnownKey<'_>) -> Option<&Value<K, D>> {
        self.as_object()?.get_known(key)
    }
}

impl<K: FromString + Drop, D: Literal + Drop> KnownKeyDocument for Value<K, D> {
    type Members = Object<K, Value<K, D>>;

    ghost use Rattle.std.proofs.Common.{refl};
    ghost use Rattle.sj_owned.specs.Views.{members_inside, value_kind};
    ghost use Rattle.sj_owned.specs.declared.value.Value.{Object as ObjectOf};
    ghost use Rattle.sj_owned.specs.inside.Lending.{made_of_members};
    ghost use Rattle.sj_keys.specs.inside.Laws.{members_of_object};

    ghost object = { members_inside };

    ghost of_object = { ObjectOf };

    ghost kind = { value_kind };

    ghost object_again = { members_of_object };

    ghost same_object = { made_of_members };

    ghost member_of_object = { λ v k. refl };

    #[inline]
    fn known_type(&self) -> ValueType {
        self.value_type()
    }

    #[inline]
    fn known_object_mut(&mut self) -> Option<&mut Object<K, Value<K, D>>> {
        self.as_object_mut()
    }
}
