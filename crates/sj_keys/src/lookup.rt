//! Look-ups and writes by known keys.
//!
//! Calls whose names begin with `map_` take an object. The others take any target, such as a document.
ghost use Rattle.std.specs.Prelude.{◌≡◌, IsSome, IsOk, IfOk, IfErr, OnOk, OnErr, MatchOption};
ghost use Rattle.std.specs.Cow.{cow_str_bytes};
ghost use Rattle.std.specs.Option.{ForNone, option_copied, option_copied_mut};
ghost use Rattle.sj_object.specs.Pairs.{value_at};
ghost use Rattle.sj_keys.specs.Writes.{Puts, refusal};

use crate::error::KnownKeyError;
use crate::key::KnownKey;
use crate::target::{KnownKeyTarget, KnownKeyTargetMut};
use sj_object::{Object, ObjectKey};
use sj_owned::FromString;
use std::alloc::Global;

impl KnownKey<'_> {
    /// Returns the value of this key, or `None` if there is none or the target isn't an object. Port of
    /// `simd_json::known_key::KnownKey::lookup`.
    #[inline]
    pub fn lookup<'t, T: KnownKeyTarget>(&self, target: &'t T) -> Option<&'t T::Output>
        ensures { option_copied result ≡ T.member target.now (cow_str_bytes self.now) }
    {
        target.get_known(self)
    }

    /// Returns the value of this key, or `None` if there is none. Port of `simd_json::known_key::KnownKey::map_lookup`.
    #[inline]
    pub fn map_lookup<'t, K: ObjectKey, V>(&self, map: &'t Object<K, V>) -> Option<&'t V>
        ensures { option_copied result ≡ value_at K.text map.now (cow_str_bytes self.now) }
    {
        map.get_hashed(self.hash, self.key.as_ref())
    }

    /// Returns the value of this key for writing, or `None` if there is none or the target isn't an object. Port of
    /// `simd_json::known_key::KnownKey::lookup_mut`.
    ///
    /// What the target is after a write is said by [`KnownKeyTargetMut::get_known_mut`], the same call on the target.
    #[inline]
    pub fn lookup_mut<'t, T: KnownKeyTargetMut>(
        &self,
        target: &'t mut T,
    ) -> Option<&'t mut T::Output>
        ensures { option_copied_mut result ≡ T.member target.old (cow_str_bytes self.now) }
    {
        target.get_known_mut(self)
    }

    /// Returns the value of this key for writing, or `None` if there is none. Port of
    /// `simd_json::known_key::KnownKey::map_lookup_mut`.
    ///
    /// What the object is after a write is said by [`KnownKeyTargetMut::get_known_mut`], the same call on the object.
    #[inline]
    pub fn map_lookup_mut<'t, K: ObjectKey, V>(
        &self,
        map: &'t mut Object<K, V>,
    ) -> Option<&'t mut V>
        ensures { option_copied_mut result ≡ value_at K.text map.old (cow_str_bytes self.now) }
    {
        map.get_hashed_mut(self.hash, self.key.as_ref())
    }

    /// Returns the value of this key for writing. A new key goes last, with the value that `with` returns. Port of
    /// `simd_json::known_key::KnownKey::lookup_or_insert_mut`.
    ///
    /// `with` is called for a new key alone, after room has been made for it. A key that is there needs no memory. What the
    /// target is afterwards is said by [`KnownKeyTargetMut::get_known_or_insert`], the same call on the target.
    ///
    /// # Errors
    ///
    /// `NotAnObject` if the target isn't an object. Otherwise `Memory` if there is no memory for a new member. The target is
    /// unchanged, and `with` isn't called.
    pub fn lookup_or_insert_mut<'t, T: KnownKeyTargetMut, F: FnOnce() -> T::Output + Drop>(
        &self,
        alloc: Global,
        target: &'t mut T,
        with: F,
    ) -> Result<&'t mut T::Output, KnownKeyError>
        requires callable { ForNone (T.other_type target.old) (ForNone (T.member target.old (cow_str_bytes self.now)) (F.pre with)) }
        ensures value { IfOk result (λ value. MatchOption (T.member target.old (cow_str_bytes self.now))
            (F.post with value.now) (λ old. value.now ≡ old)) }
        ensures succeeds { IsSome (T.member target.old (cow_str_bytes self.now)) → IsOk result }
        ensures err { IfErr result (λ e. e ≡ refusal (T.other_type target.old)) }
    {
        target.get_known_or_insert(alloc, self, with)
    }

    /// Returns the value of this key for writing. A new key goes last, with the value that `with` returns. Port of
    /// `simd_json::known_key::KnownKey::map_lookup_or_insert_mut`.
    ///
    /// `with` is called for a new key alone, after room has been made for it. A key that is there needs no memory. What the
    /// object is afterwards is said by [`KnownKeyTargetMut::get_known_or_insert`], the same call on the object.
    ///
    /// # Errors
    ///
    /// `Memory` if there is no memory for a new member. The object is unchanged, and `with` isn't called.
    pub fn map_lookup_or_insert_mut<'t, K: FromString + Drop, V: Drop, F: FnOnce() -> V + Drop>(
        &self,
        alloc: Global,
        map: &'t mut Object<K, V>,
        with: F,
    ) -> Result<&'t mut V, KnownKeyError>
        requires callable { ForNone (value_at K.text map.old (cow_str_bytes self.now)) (F.pre with) }
        ensures value { IfOk result (λ value. MatchOption (value_at K.text map.old (cow_str_bytes self.now))
            (F.post with value.now) (λ old. value.now ≡ old)) }
        ensures succeeds { IsSome (value_at K.text map.old (cow_str_bytes self.now)) → IsOk result }
        ensures err { IfErr result (λ e. e ≡ KnownKeyError.Memory) }
    {
        map.get_known_or_insert(alloc, self, with)
    }

    /// Replaces the value of this key and returns the old one. A new key goes last, and the result is `None`. Port of
    /// `simd_json::known_key::KnownKey::insert`.
    ///
    /// A key that is there stays as it is, and replacing its value needs no memory. A new one is a copy of this key's text.
    ///
    /// # Errors
    ///
    /// `NotAnObject` if the target isn't an object. Otherwise `Memory` if there is no memory for a new member. The target is
    /// unchanged, and the value is dropped.
    pub fn insert<T: KnownKeyTargetMut>(
        &self,
        alloc: Global,
        target: &mut T,
        value: T::Output,
    ) -> Result<Option<T::Output>, KnownKeyError>
    where
        T::Output: Drop,
        ensures put { OnOk result (T.puts target.old (cow_str_bytes self.now) value target.new) }
        ensures replaced { IfOk result (λ old. old ≡ T.member target.old (cow_str_bytes self.now)) }
        ensures succeeds { IsSome (T.member target.old (cow_str_bytes self.now)) → IsOk result }
        ensures err { IfErr result (λ e. e ≡ refusal (T.other_type target.old)) }
        ensures unchanged { OnErr result (target.new ≡ target.old) }
    {
        target.insert_known(alloc, self, value)
    }

    /// Replaces the value of this key and returns the old one. A new key goes last, and the result is `None`. Port of
    /// `simd_json::known_key::KnownKey::map_insert`.
    ///
    /// A key that is there stays as it is, and replacing its value needs no memory. A new one is a copy of this key's text.
    ///
    /// # Errors
    ///
    /// `Memory` if there is no memory for a new member. The object is unchanged, and the value is dropped.
    pub fn map_insert<K: FromString + Drop, V: Drop>(
        &self,
        alloc: Global,
        map: &mut Object<K, V>,
        value: V,
    ) -> Result<Option<V>, KnownKeyError>
        ensures put { OnOk result (Puts K.text map.old (cow_str_bytes self.now) value map.new) }
        ensures replaced { IfOk result (λ old. old ≡ value_at K.text map.old (cow_str_bytes self.now)) }
        ensures succeeds { IsSome (value_at K.text map.old (cow_str_bytes self.now)) → IsOk result }
        ensures err { IfErr result (λ e. e ≡ KnownKeyError.Memory) }
        ensures unchanged { OnErr result (map.new ≡ map.old) }
    {
        map.insert_known(alloc, self, value)
    }
}
