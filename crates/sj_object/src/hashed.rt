//! Calls by key with the key's hash at hand.
//!
//! They answer as the calls without a hash. That the hash is the key's is a condition of each call;
//! [`hash_key`](crate::hash_key) gives it.
ghost use Rattle.std.specs.Prelude.{◌≡◌, IsSome, IsOk, IfOk, IfErr, OnOk, OnErr, MatchOption};
ghost use Rattle.std.specs.Borrow.{sem};
ghost use Rattle.std.specs.Option.{ForNone, option_copied, option_copied_mut};
ghost use Rattle.sj_object.specs.Hash.{text_hash};
ghost use Rattle.sj_object.specs.Pairs.{value_at, put_key};

use crate::entry::{Entry, Refused};
use crate::key::ObjectKey;
use crate::object::Object;

impl<K: ObjectKey, V> Object<K, V> {
    ghost use Rattle.sj_object.specs.Lends.{lends_value, lends_put};

    /// Returns the value of this key, or `None` if there is none. `hash` has to be the key's [`hash_key`](crate::hash_key).
    pub fn get_hashed(&self, hash: u64, key: &str) -> Option<&V>
        requires { hash ≡ text_hash key.now }
        ensures { option_copied result ≡ value_at K.text self.now key.now }
    {
        self.value_by(Some(hash), key)
    }

    /// Returns the value of this key for writing, or `None` if there is none. `hash` has to be the key's
    /// [`hash_key`](crate::hash_key).
    pub fn get_hashed_mut(&mut self, hash: u64, key: &str) -> Option<&mut V>
        requires { hash ≡ text_hash key.now }
        ensures* writes_back { sem 𝓛 (lends_value K.row V.row K.ObjectKey self.entry key.now result) }
        ensures value { option_copied_mut result ≡ value_at K.text self.old key.now }
    {
        self.value_mut_by(Some(hash), key)
    }

    /// Replaces the value of this key and returns the old one, or puts a new pair last, as [`Object::insert`] does. `hash` has to
    /// be the key's [`hash_key`](crate::hash_key).
    ///
    /// # Errors
    ///
    /// The key and the value come back if there is no memory for a new pair. The object is unchanged.
    pub fn insert_hashed(&mut self, hash: u64, key: K, value: V) -> Result<Option<V>, Refused<K, V>>
    where
        K: Drop,
        V: Drop,
        requires { hash ≡ text_hash (K.text key) }
        ensures ok { OnOk result (self.new ≡ put_key K.text self.old key value) }
        ensures replaced { IfOk result (λ old. old ≡ value_at K.text self.old (K.text key)) }
        ensures succeeds { IsSome (value_at K.text self.old (K.text key)) → IsOk result }
        ensures unchanged { OnErr result (self.new ≡ self.old) }
        ensures handed_back { IfErr result (λ pair. (pair.key ≡ key) × (pair.value ≡ value)) }
    {
        self.insert_by(Some(hash), key, value)
    }

    /// Returns the value of this key for writing. A new key goes last, with the value that `with` returns. `hash` has to be
    /// the key's [`hash_key`](crate::hash_key).
    ///
    /// `with` is called for a new key alone, after room has been made for it. A key that is there stays as it is, and the given
    /// one is dropped.
    ///
    /// # Errors
    ///
    /// The key comes back if there is no memory for a new pair. The object is unchanged, and `with` isn't called.
    pub fn get_or_insert_hashed<F: FnOnce() -> V + Drop>(
        &mut self,
        hash: u64,
        key: K,
        with: F,
    ) -> Result<&mut V, K>
    where
        K: Drop,
        V: Drop,
        requires hash { hash ≡ text_hash (K.text key) }
        requires callable { ForNone (value_at K.text self.old (K.text key)) (F.pre with) }
        ensures* writes_back { sem 𝓛 (lends_put K.row V.row K.ObjectKey self.entry key result) }
        ensures value { IfOk result (λ value. MatchOption (value_at K.text self.old (K.text key))
            (F.post with value.now) (λ old. value.now ≡ old)) }
        ensures succeeds { IsSome (value_at K.text self.old (K.text key)) → IsOk result }
        ensures handed_back { IfErr result (λ refused. refused ≡ key) }
    {
        let Some(at) = self.place_by(Some(hash), key.as_text()) else {
            let at = self.len();
            if self.pairs.make_room().is_err() {
                return Err(key);
            }
            self.pairs.push(Some(hash), Entry { key, value: with() });
            return Ok(self.value_mut(at));
        };
        Ok(self.value_mut(at))
    }
}
