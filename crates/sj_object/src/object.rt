//! The object and its calls by key.
ghost use Rattle.std.specs.Prelude.{◌≡◌, ◌<◌, ◌≤◌, ◌↔◌, [], length, map, slice_get, is_some, None, IsTrue, IsSome, IfSome, IsOk, IfOk, IfErr, OnOk, OnErr};
ghost use Rattle.std.specs.Borrow.{sem};
ghost use Rattle.std.specs.Option.{option_copied, option_copied_mut};
ghost use Rattle.sj_object.specs.Hash.{text_hash};
ghost use Rattle.sj_object.specs.Pairs.{keys_of, value_at, place_of, put_key, drop_key, put_at, AreDistinct};

use crate::entry::{Entry, Refused};
use crate::hash::hash_key;
use crate::iter::{IntoIter, Iter, Keys, Values};
use crate::key::ObjectKey;
use crate::members::Members;
use crate::pairs::Pairs;
use std::alloc::{AllocError, Global};
use std::fmt::{self, Debug};
use std::marker::Model;
use std::mem;

/// Pairs of a key and a value in insertion order, with no key twice.
///
/// It takes the place of the hash map in `simd_json::owned::Object` and `simd_json::borrowed::Object`.
/// A key is found by comparing texts from the first pair on, until the object has more than 32 pairs. Then it gets a hash table
/// beside the list, and keeps it, however many pairs are removed. Keys that share a hash are told apart by their texts, one after
/// the other.
#[derive(Drop)]
pub struct Object<K: ObjectKey, V> {
    pub(crate) pairs: Pairs<K, V>,
}

impl<K: ObjectKey, V> Model for Object<K, V> {
    ghost use Rattle.std.specs.Prelude.{List};
    ghost use Rattle.sj_object.specs.declared.entry.Entry.{Entry};
    ghost use Rattle.sj_object.specs.Pairs.{keys_of};
    ghost use Rattle.sj_object.specs.inside.Stored.{stored, AreIndexed};

    ghost Value = { List (Entry K V) };

    ghost view = { λ o. (stored o.pairs).items };

    ghost invariant = { λ o. AreIndexed K.text o.pairs };
}

impl<K: ObjectKey, V> Object<K, V> {
    ghost use Rattle.sj_object.specs.Iterators.{entries_left, keys_left, values_left};
    ghost use Rattle.sj_object.specs.Lends.{lends_place, lends_value};

    /// Returns an object without pairs. Allocates nothing.
    pub fn new(alloc: Global) -> Self
        ensures { result ≡ [] }
    {
        Object {
            pairs: Pairs::Listed(Vec::new(alloc)),
        }
    }

    /// Returns an object without pairs that has room for this many. The hash table isn't made yet: the 33rd pair still needs
    /// memory.
    ///
    /// # Errors
    ///
    /// `AllocError` if there is no memory for that room.
    pub fn with_capacity(alloc: Global, capacity: usize) -> Result<Self, AllocError>
        ensures { IfOk result (λ object. object ≡ []) }
    {
        let members = Members::with_capacity(alloc, capacity)?;
        Ok(Object::from_members(members))
    }

    /// Returns an object without pairs that has this one's allocator, and room for as many pairs. The hash table isn't made
    /// yet.
    ///
    /// # Errors
    ///
    /// `AllocError` if there is no memory for that room.
    pub fn emptied(&self) -> Result<Self, AllocError>
        ensures empty { IfOk result (λ object. object ≡ []) }
        ensures distinct { AreDistinct (keys_of K.text self.now) }
    {
        Object::with_capacity(*self.entries().allocator(), self.len())
    }

    /// Returns the number of pairs.
    pub fn len(&self) -> usize
        ensures len { result ≡ length self.now }
        ensures distinct { AreDistinct (keys_of K.text self.now) }
    {
        self.pairs.entries().len()
    }

    /// Returns `true` if the object has no pairs.
    pub fn is_empty(&self) -> bool
        ensures { IsTrue result ↔ (self.now ≡ []) }
    {
        self.entries().is_empty()
    }

    /// Returns the place of the pair with this key, counted from 0, or `None` if there is none.
    pub fn place(&self, key: &str) -> Option<usize>
        ensures { result ≡ place_of K.text self.now key.now }
    {
        self.place_by(None, key)
    }

    /// As `place`. `hash` is the key's hash, if it is known.
    pub(crate) fn place_by(&self, hash: Option<u64>, key: &str) -> Option<usize>
        requires { IfSome hash (λ known. known ≡ text_hash key.now) }
        ensures { result ≡ place_of K.text self.now key.now }
    {
        self.pairs.place(hash, key)
    }

    /// Returns the value of this key, or `None` if there is none.
    pub fn get(&self, key: &str) -> Option<&V>
        ensures { option_copied result ≡ value_at K.text self.now key.now }
    {
        self.value_by(None, key)
    }

    /// As `get`. `hash` is the key's hash, if it is known.
    pub(crate) fn value_by(&self, hash: Option<u64>, key: &str) -> Option<&V>
        requires { IfSome hash (λ known. known ≡ text_hash key.now) }
        ensures { option_copied result ≡ value_at K.text self.now key.now }
    {
        let at = self.place_by(hash, key)?;
        Some(&self.entries()[at].value)
    }

    /// Returns the value of this key for writing, or `None` if there is none.
    pub fn get_mut(&mut self, key: &str) -> Option<&mut V>
        ensures* writes_back { sem 𝓛 (lends_value K.row V.row K.ObjectKey self.entry key.now result) }
        ensures value { option_copied_mut result ≡ value_at K.text self.old key.now }
    {
        self.value_mut_by(None, key)
    }

    /// As `get_mut`. `hash` is the key's hash, if it is known.
    pub(crate) fn value_mut_by(&mut self, hash: Option<u64>, key: &str) -> Option<&mut V>
        requires { IfSome hash (λ known. known ≡ text_hash key.now) }
        ensures* writes_back { sem 𝓛 (lends_value K.row V.row K.ObjectKey self.entry key.now result) }
        ensures value { option_copied_mut result ≡ value_at K.text self.old key.now }
    {
        match self.place_by(hash, key) {
            Some(at) => Some(self.value_mut(at)),
            None => None,
        }
    }

    /// The value of the pair at this place.
    pub(crate) fn value_mut(&mut self, at: usize) -> &mut V
        requires { at < length self.old }
        ensures* writes_back { sem 𝓛 (lends_place K.row V.row K.ObjectKey self.entry at result) }
        ensures value { slice_get (map (λ e. e.value) self.old) at ≡ Some result.now }
    {
        match &mut self.pairs {
            Pairs::Listed(entries) => &mut entries[at].value,
            Pairs::Hashed(pairs) => &mut pairs.entries[at].value,
        }
    }

    /// Returns `true` if the object has this key.
    pub fn contains_key(&self, key: &str) -> bool
        ensures { result ≡ is_some (value_at K.text self.now key.now) }
    {
        self.get(key).is_some()
    }

    /// Replaces the value of this key and returns the old one. A new key goes last, and the result is `None`.
    ///
    /// A key that is there stays as it is, and the given one is dropped. Replacing its value needs no memory.
    ///
    /// # Errors
    ///
    /// The key and the value come back if there is no memory for a new pair. The object is unchanged.
    pub fn insert(&mut self, key: K, value: V) -> Result<Option<V>, Refused<K, V>>
    where
        K: Drop,
        V: Drop,
        ensures ok { OnOk result (self.new ≡ put_key K.text self.old key value) }
        ensures replaced { IfOk result (λ old. old ≡ value_at K.text self.old (K.text key)) }
        ensures succeeds { IsSome (value_at K.text self.old (K.text key)) → IsOk result }
        ensures unchanged { OnErr result (self.new ≡ self.old) }
        ensures handed_back { IfErr result (λ pair. (pair.key ≡ key) × (pair.value ≡ value)) }
    {
        let hash = self.hash_for_table(key.as_text());
        self.insert_by(hash, key, value)
    }

    /// The key's hash, if there is a table, so that an insertion computes it once.
    fn hash_for_table(&self, key: &str) -> Option<u64>
        ensures { IfSome result (λ hash. hash ≡ text_hash key.now) }
    {
        match self.pairs {
            Pairs::Hashed(_) => Some(hash_key(key)),
            Pairs::Listed(_) => None,
        }
    }

    /// As `insert`. `hash` is the key's hash, if it is known.
    pub(crate) fn insert_by(
        &mut self,
        hash: Option<u64>,
        key: K,
        value: V,
    ) -> Result<Option<V>, Refused<K, V>>
    where
        K: Drop,
        V: Drop,
        requires { IfSome hash (λ known. known ≡ text_hash (K.text key)) }
        ensures ok { OnOk result (self.new ≡ put_key K.text self.old key value) }
        ensures replaced { IfOk result (λ old. old ≡ value_at K.text self.old (K.text key)) }
        ensures succeeds { IsSome (value_at K.text self.old (K.text key)) → IsOk result }
        ensures unchanged { OnErr result (self.new ≡ self.old) }
        ensures handed_back { IfErr result (λ pair. (pair.key ≡ key) × (pair.value ≡ value)) }
    {
        let Some(at) = self.place_by(hash, key.as_text()) else {
            self.push_by(hash, key, value)?;
            return Ok(None);
        };
        Ok(Some(mem::replace(self.value_mut(at), value)))
    }

    /// Puts a pair last. The object must not have its key, which [`Object::contains_key`] tells; the key isn't looked for.
    ///
    /// # Errors
    ///
    /// The key and the value come back if there is no memory for a new pair. The object is unchanged.
    pub fn push_new(&mut self, key: K, value: V) -> Result<(), Refused<K, V>>
    where
        K: Drop,
        V: Drop,
        requires { value_at K.text self.old (K.text key) ≡ None }
        ensures ok { OnOk result (self.new ≡ put_key K.text self.old key value) }
        ensures unchanged { OnErr result (self.new ≡ self.old) }
        ensures handed_back { IfErr result (λ pair. (pair.key ≡ key) × (pair.value ≡ value)) }
    {
        self.push_by(None, key, value)
    }

    /// As `push_new`. `hash` is the key's hash, if it is known.
    fn push_by(&mut self, hash: Option<u64>, key: K, value: V) -> Result<(), Refused<K, V>>
    where
        K: Drop,
        V: Drop,
        requires hash { IfSome hash (λ known. known ≡ text_hash (K.text key)) }
        requires new_key { value_at K.text self.old (K.text key) ≡ None }
        ensures ok { OnOk result (self.new ≡ put_key K.text self.old key value) }
        ensures unchanged { OnErr result (self.new ≡ self.old) }
        ensures handed_back { IfErr result (λ pair. (pair.key ≡ key) × (pair.value ≡ value)) }
    {
        if self.pairs.make_room().is_err() {
            return Err(Refused { key, value });
        }
        self.pairs.push(hash, Entry { key, value });
        Ok(())
    }

    /// Puts a pair with a new key at a place, counted from 0. The pairs from there on move one place on. If there is a
    /// hash table, all of it is linked anew, unless the pair goes last.
    ///
    /// `place` is at most [`Object::len`]. To test that the key is new, call [`Object::contains_key`].
    ///
    /// # Errors
    ///
    /// The key and the value come back if there is no memory for a new pair. The object is unchanged.
    pub fn insert_at(&mut self, place: usize, key: K, value: V) -> Result<(), Refused<K, V>>
    where
        K: Drop,
        V: Drop,
        requires within { place ≤ length self.old }
        requires new_key { value_at K.text self.old (K.text key) ≡ None }
        ensures ok { OnOk result (self.new ≡ put_at self.old place key value) }
        ensures unchanged { OnErr result (self.new ≡ self.old) }
        ensures handed_back { IfErr result (λ pair. (pair.key ≡ key) × (pair.value ≡ value)) }
    {
        if self.pairs.make_room().is_err() {
            return Err(Refused { key, value });
        }
        self.pairs.insert(place, Entry { key, value });
        Ok(())
    }

    /// Removes the pair of this key and returns its value, or `None` if there is none. The stored key is dropped, and the pairs
    /// after it close up. If there is a hash table, all of it is linked anew, unless the pair is the last. Takes no memory.
    pub fn remove(&mut self, key: &str) -> Option<V>
    where
        K: Drop,
        ensures value { result ≡ value_at K.text self.old key.now }
        ensures rest { self.new ≡ drop_key K.text self.old key.now }
    {
        let at = self.place(key)?;
        let Entry { key: _key, value } = self.pairs.remove(at);
        Some(value)
    }

    /// Returns an iterator over the pairs in insertion order.
    pub fn iter(&self) -> Iter<'_, K, V>
        ensures { entries_left result ≡ self.now }
    {
        Iter::new(self.entries())
    }

    /// The pairs.
    pub(crate) fn entries(&self) -> &Vec<Entry<K, V>>
        ensures { result.now.items ≡ self.now }
    {
        self.pairs.entries()
    }

    /// Returns an iterator over the keys in insertion order.
    pub fn keys(&self) -> Keys<'_, K, V>
        ensures { keys_left result ≡ map (λ e. e.key) self.now }
    {
        Keys::new(self.iter())
    }

    /// Returns an iterator over the values in insertion order.
    pub fn values(&self) -> Values<'_, K, V>
        ensures { values_left result ≡ map (λ e. e.value) self.now }
    {
        Values::new(self.iter())
    }
}

/// Shows the pairs as a map, in insertion order.
impl<K: ObjectKey + Debug, V: Debug> Debug for Object<K, V> {
    fn fmt<W: fmt::Write>(&self, f: &mut fmt::Formatter<W>) -> fmt::Result {
        let mut out = f.debug_map();
        for (key, value) in self {
            out.entry(key, value);
        }
        out.finish()
    }
}

impl<'a, K: ObjectKey, V> IntoIterator for &'a Object<K, V> {
    type Item = (&'a K, &'a V);

    type IntoIter = Iter<'a, K, V>;

    ghost use Rattle.sj_object.specs.Iterators.{entries_left};

    ghost into_iter_gives = { λ object it. entries_left it ≡ object.now };

    fn into_iter(self) -> Iter<'a, K, V> {
        self.iter()
    }
}

/// Takes the object apart. Needs no memory.
impl<K: ObjectKey + Drop, V: Drop> IntoIterator for Object<K, V> {
    type Item = (K, V);

    type IntoIter = IntoIter<K, V>;

    ghost use Rattle.sj_object.specs.Iterators.{owned_left};

    ghost into_iter_gives = { λ object it. owned_left it ≡ object };

    fn into_iter(self) -> IntoIter<K, V> {
        IntoIter::new(self.pairs.into_entries())
    }
}
