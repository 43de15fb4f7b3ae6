//! The pairs of an object, with a table that leads to them where they are many.
ghost use Rattle.std.specs.Prelude.{◌≡◌, ◌+◌, ◌<◌, ◌≤◌, ◌++◌, ◌∷◌, [], length, get_or, IfSome, IfOk, OnOk, OnErr};
ghost use Rattle.std.specs.List.{insert, remove};
ghost use Rattle.std.specs.Vec.{vec_capacity};
ghost use Rattle.sj_object.specs.Hash.{text_hash};
ghost use Rattle.sj_object.specs.Pairs.{keys_of, place_of};
ghost use Rattle.sj_object.specs.inside.Chains.{IsTable, HasRoomFor};
ghost use Rattle.sj_object.specs.inside.Stored.{stored, IsFound, IsListed, AreIndexed, HasRoom};

use crate::entry::Entry;
use crate::hash::hash_key;
use crate::key::ObjectKey;
use crate::table::{Table, hash_of};
use std::alloc::AllocError;
use std::mem;

#[derive(Drop)]
pub(crate) enum Pairs<K, V> {
    /// At most `LIST_MAX` pairs, which are looked up one by one.
    Listed(Vec<Entry<K, V>>),
    /// Any number of pairs, with a hash table.
    Hashed(Box<HashedPairs<K, V>>),
}

#[derive(Drop)]
pub(crate) struct HashedPairs<K, V> {
    pub(crate) entries: Vec<Entry<K, V>>,
    table: Table,
}

/// The most pairs that need no table.
const LIST_MAX: usize = 32;

impl<K, V> Pairs<K, V> {
    pub(crate) fn entries(&self) -> &Vec<Entry<K, V>>
        ensures { result.now ≡ stored self.now }
    {
        match self {
            Pairs::Listed(entries) => entries,
            Pairs::Hashed(pairs) => &pairs.entries,
        }
    }

    pub(crate) fn into_entries(self) -> Vec<Entry<K, V>>
        ensures { result ≡ stored self }
    {
        match self {
            Pairs::Listed(entries) => entries,
            Pairs::Hashed(pairs) => Box::into_inner(pairs).entries,
        }
    }
}

impl<K: ObjectKey, V> Pairs<K, V> {
    /// Returns pairs whose keys are those of `self`, in their order. They get a copy of its table, if it has one.
    pub(crate) fn with_entries(&self, entries: Vec<Entry<K, V>>) -> Result<Pairs<K, V>, AllocError>
    where
        K: Drop,
        V: Drop,
        requires found { IsFound K.text self.now }
        requires keys { keys_of K.text entries.items ≡ keys_of K.text (stored self.now).items }
        ensures pairs { IfOk result (λ pairs. (stored pairs).items ≡ entries.items) }
        ensures found { IfOk result (IsFound K.text) }
        ensures few { IsListed self.now → IfOk result IsListed }
    {
        let Pairs::Hashed(hashed) = self else {
            return Ok(Pairs::Listed(entries));
        };
        let alloc = *entries.allocator();
        let table = hashed.table.try_clone(alloc)?;
        Ok(Pairs::Hashed(Box::new(alloc, HashedPairs { entries, table })?))
    }

    /// Returns the place of this key. `hash` is its hash, if that is known.
    pub(crate) fn place(&self, hash: Option<u64>, key: &str) -> Option<usize>
        requires indexed { AreIndexed K.text self.now }
        requires hash { IfSome hash (λ known. known ≡ text_hash key.now) }
        ensures { result ≡ place_of K.text (stored self.now).items key.now }
    {
        match self {
            Pairs::Listed(entries) => entries.iter().position(|entry| entry.key.as_text() == key),
            Pairs::Hashed(pairs) => pairs.table.find(hash_of(hash, key), key, &pairs.entries),
        }
    }

    /// Makes room for one more pair. The one after the first `LIST_MAX` needs a table, which is made here.
    #[inline(always)]
    pub(crate) fn make_room(&mut self) -> Result<(), AllocError>
    where
        K: Drop,
        V: Drop,
        requires { IsFound K.text self.old }
        ensures pairs { (stored self.new).items ≡ (stored self.old).items }
        ensures found { IsFound K.text self.new }
        ensures room { OnOk result (HasRoom self.new) }
        ensures few { length (stored self.old).items < 32 → IsListed self.old → IsListed self.new }
    {
        match self {
            Pairs::Listed(entries) => {
                entries.reserve(1)?;
                if entries.len() < LIST_MAX {
                    return Ok(());
                }
                self.make_table()
            }
            Pairs::Hashed(pairs) => pairs.make_room(),
        }
    }

    /// Makes a table for listed pairs, whose vector has room for one more.
    #[cold]
    #[inline(never)]
    fn make_table(&mut self) -> Result<(), AllocError>
    where
        K: Drop,
        V: Drop,
        requires listed { IsListed self.old }
        requires found { IsFound K.text self.old }
        requires room { length (stored self.old).items < vec_capacity (stored self.old) }
        ensures pairs { (stored self.new).items ≡ (stored self.old).items }
        ensures found { IsFound K.text self.new }
        ensures room { OnOk result (HasRoom self.new) }
    {
        let Pairs::Listed(entries) = self else {
            unreachable!();
        };
        let pairs = HashedPairs::take(entries)?;
        *self = Pairs::Hashed(pairs);
        Ok(())
    }

    /// Puts a pair last, for which there is room. `hash` is the hash of its key, if that is known.
    #[inline(always)]
    pub(crate) fn push(&mut self, hash: Option<u64>, entry: Entry<K, V>)
        requires found { IsFound K.text self.old }
        requires room { HasRoom self.old }
        requires hash { IfSome hash (λ known. known ≡ text_hash (K.text entry.key)) }
        ensures pairs { (stored self.new).items ≡ (stored self.old).items ++ entry ∷ [] }
        ensures found { IsFound K.text self.new }
        ensures few { IsListed self.old → IsListed self.new }
    {
        match self {
            Pairs::Listed(entries) => entries.push_reserved(entry),
            Pairs::Hashed(pairs) => pairs.push(hash, entry),
        }
    }

    /// Puts a pair at a place, for which there is room.
    pub(crate) fn insert(&mut self, place: usize, entry: Entry<K, V>)
    where
        K: Drop,
        V: Drop,
        requires within { place ≤ length (stored self.old).items }
        requires found { IsFound K.text self.old }
        requires room { HasRoom self.old }
        ensures pairs { (stored self.new).items ≡ insert (stored self.old).items place entry }
        ensures found { IsFound K.text self.new }
        ensures few { IsListed self.old → IsListed self.new }
    {
        match self {
            Pairs::Listed(entries) => insert_reserved(entries, place, entry),
            Pairs::Hashed(pairs) => pairs.insert(place, entry),
        }
    }

    /// Takes the pair at a place out. The pairs after it close up.
    pub(crate) fn remove(&mut self, place: usize) -> Entry<K, V>
        requires within { place < length (stored self.old).items }
        requires found { IsFound K.text self.old }
        ensures entry { result ≡ get_or (stored self.old).items place result }
        ensures pairs { (stored self.new).items ≡ remove (stored self.old).items place }
        ensures found { IsFound K.text self.new }
        ensures few { IsListed self.old → IsListed self.new }
    {
        match self {
            Pairs::Listed(entries) => entries.remove(place),
            Pairs::Hashed(pairs) => pairs.remove(place),
        }
    }
}

/// Puts an item at a place of a vector that has room for it.
pub(crate) fn insert_reserved<T: Drop>(items: &mut Vec<T>, place: usize, item: T)
    requires within { place ≤ length items.old.items }
    requires room { length items.old.items < vec_capacity items.old }
    ensures items { items.new.items ≡ insert items.old.items place item }
    ensures len { length items.new.items ≡ length items.old.items + 1 }
{
    let Ok(()) = items.insert(place, item) else {
        unreachable!();
    };
}

impl<K: ObjectKey, V> HashedPairs<K, V> {
    /// Takes the pairs out of a vector, and makes a table for them that has room as the vector has it. After an error they are in
    /// the vector.
    fn take(entries: &mut Vec<Entry<K, V>>) -> Result<Box<HashedPairs<K, V>>, AllocError>
    where
        K: Drop,
        V: Drop,
        requires { 0 < vec_capacity entries.old }
        ensures pairs { IfOk result (λ pairs. pairs.value.entries ≡ entries.old) }
        ensures table { IfOk result (λ pairs. IsTable pairs.value.table (keys_of K.text entries.old.items)) }
        ensures room { IfOk result (λ pairs. HasRoomFor (vec_capacity entries.old) pairs.value.table) }
        ensures unchanged { OnErr result (entries.new ≡ entries.old) }
    {
        let alloc = *entries.allocator();
        let table = Table::of(alloc, entries)?;
        let taken = HashedPairs {
            entries: mem::replace(entries, Vec::new(alloc)),
            table,
        };
        match Box::new(alloc, taken) {
            Ok(pairs) => Ok(pairs),
            Err(refused) => {
                *entries = refused.value.entries;
                Err(AllocError)
            }
        }
    }

    /// Makes room for one more pair.
    // Few objects have a table, and a loop that fills others is faster without this code.
    #[inline(never)]
    fn make_room(&mut self) -> Result<(), AllocError>
        requires { IsTable self.old.table (keys_of K.text self.old.entries.items) }
        ensures pairs { self.new.entries.items ≡ self.old.entries.items }
        ensures table { IsTable self.new.table (keys_of K.text self.old.entries.items) }
        ensures entries_room { OnOk result (length self.new.entries.items < vec_capacity self.new.entries) }
        ensures table_room { OnOk result (HasRoomFor (length self.new.entries.items + 1) self.new.table) }
    {
        self.entries.reserve(1)?;
        if !self.table.has_room() {
            self.table.make_room(self.entries.capacity())?;
        }
        Ok(())
    }

    /// Puts a pair last, for which there is room. `hash` is the hash of its key, if that is known.
    #[inline(always)]
    fn push(&mut self, hash: Option<u64>, entry: Entry<K, V>)
        requires table { IsTable self.old.table (keys_of K.text self.old.entries.items) }
        requires entries_room { length self.old.entries.items < vec_capacity self.old.entries }
        requires table_room { HasRoomFor (length self.old.entries.items + 1) self.old.table }
        requires hash { IfSome hash (λ known. known ≡ text_hash (K.text entry.key)) }
        ensures pairs { self.new.entries.items ≡ self.old.entries.items ++ entry ∷ [] }
        ensures table { IsTable self.new.table (keys_of K.text self.new.entries.items) }
    {
        let hash = hash_of(hash, entry.key.as_text());
        self.table.put(hash, self.entries.len());
        self.entries.push_reserved(entry);
    }

    /// Puts a pair at a place, for which there is room.
    fn insert(&mut self, place: usize, entry: Entry<K, V>)
    where
        K: Drop,
        V: Drop,
        requires within { place ≤ length self.old.entries.items }
        requires table { IsTable self.old.table (keys_of K.text self.old.entries.items) }
        requires entries_room { length self.old.entries.items < vec_capacity self.old.entries }
        requires table_room { HasRoomFor (length self.old.entries.items + 1) self.old.table }
        ensures pairs { self.new.entries.items ≡ insert self.old.entries.items place entry }
        ensures table { IsTable self.new.table (keys_of K.text self.new.entries.items) }
    {
        self.table.insert(place, hash_key(entry.key.as_text()));
        insert_reserved(&mut self.entries, place, entry);
    }

    /// Takes the pair at a place out. The pairs after it close up.
    fn remove(&mut self, place: usize) -> Entry<K, V>
        requires within { place < length self.old.entries.items }
        requires table { IsTable self.old.table (keys_of K.text self.old.entries.items) }
        ensures entry { result ≡ get_or self.old.entries.items place result }
        ensures pairs { self.new.entries.items ≡ remove self.old.entries.items place }
        ensures table { IsTable self.new.table (keys_of K.text self.new.entries.items) }
    {
        self.table.remove(place);
        self.entries.remove(place)
    }
}
