//! Objects, in which known keys are looked up with their hashes.
ghost use Rattle.std.specs.Prelude.{◌≡◌, None, IfOk, IfErr};
ghost use Rattle.std.specs.Borrow.{LendsSoOk, sem};
ghost use Rattle.std.specs.Cow.{cow_str_bytes};
ghost use Rattle.sj_object.specs.Pairs.{value_at, set_value};
ghost use Rattle.sj_object.specs.contracts.object.Object.{the_row};
ghost use Rattle.sj_keys.specs.Writes.{Puts};

use crate::error::KnownKeyError;
use crate::key::KnownKey;
use crate::target::{KnownKeyTarget, KnownKeyTargetMut};
use sj_object::{Object, ObjectKey};
use sj_owned::FromString;
use std::alloc::Global;
use std::mem;

impl<K: ObjectKey, V> KnownKeyTarget for Object<K, V> {
    type Output = V;

    ghost member = { value_at K.text };

    #[inline]
    fn get_known(&self, key: &KnownKey<'_>) -> Option<&V> {
        self.get_hashed(key.hash, key.key.as_ref())
    }
}

/// The key of a new member is a copy of the known key's text.
impl<K: FromString + Drop, V: Drop> KnownKeyTargetMut for Object<K, V> {
    ghost with_value = { set_value K.text };

    ghost puts = { Puts K.text };

    ghost other_type = { λ object. None };

    ghost use Rattle.sj_keys.specs.inside.Laws.{set_found, set_others, put_found, put_others};

    ghost written_found = { set_found K.text };

    ghost put_found = { put_found K.text };

    ghost others_unwritten = { set_others K.text };

    ghost others_unput = { put_others K.text };

    #[inline]
    fn get_known_mut(&mut self, key: &KnownKey<'_>) -> Option<&mut V> {
        self.get_hashed_mut(key.hash, key.key.as_ref())
    }

    fn insert_known(
        &mut self,
        alloc: Global,
        key: &KnownKey<'_>,
        value: V,
    ) -> Result<Option<V>, KnownKeyError>
    where
        V: Drop,
    {
        if let Some(found) = self.get_known_mut(key) {
            return Ok(Some(mem::replace(found, value)));
        }
        let name = key.to_key(alloc)?;
        match self.insert_hashed(key.hash, name, value) {
            Ok(old) => Ok(old),
            Err(_) => Err(KnownKeyError::Memory),
        }
    }

    fn get_known_or_insert<F: FnOnce() -> V + Drop>(
        &mut self,
        alloc: Global,
        key: &KnownKey<'_>,
        with: F,
    ) -> Result<&mut V, KnownKeyError> {
        // A key that is there needs no copy of the known key, which takes memory. It is looked up twice, as the object couldn't be
        // written to where the reference of the first look-up may be returned.
        if self.get_known(key).is_some() {
            return Ok(self.get_known_mut(key).unwrap());
        }
        insert_new(self, alloc, key, with)
    }
}

/// Puts a new key last, with the value that `with` returns, and returns that value for writing.
fn insert_new<'t, K: FromString + Drop, V: Drop, F: FnOnce() -> V + Drop>(
    object: &'t mut Object<K, V>,
    alloc: Global,
    key: &KnownKey<'_>,
    with: F,
) -> Result<&'t mut V, KnownKeyError>
    requires absent { value_at K.text object.old (cow_str_bytes key.now) ≡ None }
    requires callable { F.pre with }
    ensures* writes_back { sem 𝓛 (LendsSoOk (the_row K.row V.row K.ObjectKey) V.row object.entry result
        (λ new value. Puts K.text object.old (cow_str_bytes key.now) value new) (λ new. new ≡ object.old)) }
    ensures value { IfOk result (λ value. F.post with value.now) }
    ensures err { IfErr result (λ e. e ≡ KnownKeyError.Memory) }
{
    let name = key.to_key(alloc)?;
    match object.get_or_insert_hashed(key.hash, name, with) {
        Ok(made) => Ok(made),
        Err(_name) => Err(KnownKeyError::Memory),
    }
}
