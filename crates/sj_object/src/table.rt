//! A hash table from the hashes of keys to the places of their pairs.
//!
//! The hash of a key says in which chain its pair stands. A chain begins at the last of its pairs in the list, and each link leads
//! to the one before it. Where a pair has the hash that is looked for, the texts of the keys decide. A new pair that goes last goes
//! to the head of its chain, which takes one step however many keys share its hash.
ghost use Rattle.std.specs.Prelude.{◌≡◌, ◌+◌, ◌<◌, ◌≤◌, ℕ, List, [], ◌∷◌, ◌++◌, length, set, true, Some, None, IfSome, IfOk, OnOk};
ghost use Rattle.std.specs.List.{insert, remove};
ghost use Rattle.std.specs.Vec.{vec_capacity};
ghost use Rattle.sj_object.specs.Hash.{text_hash};
ghost use Rattle.sj_object.specs.Pairs.{keys_of, place_of, AreDistinct};
ghost use Rattle.sj_object.specs.inside.Chains.{home, head_of, has_key, sought, HaveHashes, IsTable, HasRoomFor};

use crate::entry::Entry;
use crate::hash::hash_key;
use crate::key::ObjectKey;
use crate::pairs::insert_reserved;
use std::alloc::{AllocError, Global};
use std::mem;

/// What the table keeps of a pair.
#[derive(Clone, Copy)]
struct Link {
    /// The hash of its key.
    hash: u64,
    /// The place of the next pair of its chain, which stands before it in the list.
    next: Option<usize>,
}

#[derive(Drop)]
pub(crate) struct Table {
    /// The places at which the chains begin.
    heads: Vec<Option<usize>>,
    /// One for each pair, in order.
    links: Vec<Link>,
}

/// 2^64 divided by the golden ratio, as an odd number. A product with it depends in its high bits on all bits of a hash, whose own
/// high bits are 0 for a short key.
const MIX: u64 = 0x9e37_79b9_7f4a_7c15;

/// Returns `true` if the pair at this place has the key.
fn has_key<K: ObjectKey, V>(entries: &[Entry<K, V>], place: usize, key: &str) -> bool
    ensures { result ≡ has_key K.text entries.now place key.now }
{
    match entries.get(place) {
        Some(entry) => entry.key.as_text() == key,
        None => false,
    }
}

/// Looks for the key, whose hash is given, from this place on.
fn seek<K: ObjectKey, V>(
    links: &[Link],
    start: Option<usize>,
    hash: u64,
    key: &str,
    entries: &[Entry<K, V>],
) -> Option<usize>
    ensures { result ≡ sought K.text entries.now hash key.now (length links.now) links.now start }
{
    let mut at = start;
    // No chain is longer than the list.
    let mut left = links.len();
    while left > 0 {
        let place = at?;
        let link = links.get(place)?;
        if link.hash == hash && has_key(entries, place, key) {
            return Some(place);
        }
        at = link.next;
        left -= 1;
    }
    None
}

impl Table {
    /// Returns a table without pairs that has room for this many.
    fn with_room(alloc: Global, pairs: usize) -> Result<Table, AllocError>
        requires { 0 < pairs }
        ensures empty { IfOk result (λ table. IsTable table []) }
        ensures room { IfOk result (HasRoomFor pairs) }
    {
        let mut heads = Vec::new(alloc);
        heads.resize(pairs, None)?;
        let links = Vec::with_capacity(alloc, pairs)?;
        Ok(Table { heads, links })
    }

    /// Returns the table of these pairs, with room for as many as the vector has room for.
    pub(crate) fn of<K: ObjectKey, V>(
        alloc: Global,
        entries: &Vec<Entry<K, V>>,
    ) -> Result<Table, AllocError>
        requires { 0 < vec_capacity entries.now }
        ensures table { IfOk result (λ table. IsTable table (keys_of K.text entries.now.items)) }
        ensures room { IfOk result (HasRoomFor (vec_capacity entries.now)) }
    {
        let mut made = Table::with_room(alloc, entries.capacity())?;
        made.fill(entries);
        Ok(made)
    }

    /// Returns a copy.
    pub(crate) fn try_clone(&self, alloc: Global) -> Result<Table, AllocError>
        ensures { IfOk result (λ table. (ks : List (List ℕ)) → IsTable self.now ks → IsTable table ks) }
    {
        let heads = Vec::from_slice(alloc, &self.heads)?;
        let links = Vec::from_slice(alloc, &self.links)?;
        Ok(Table { heads, links })
    }

    /// Puts all pairs into a table without pairs.
    fn fill<K: ObjectKey, V>(&mut self, entries: &[Entry<K, V>])
        requires empty { IsTable self.old [] }
        requires room { HasRoomFor (length entries.now) self.old }
        ensures table { IsTable self.new (keys_of K.text entries.now) }
        ensures room { vec_capacity self.new.links ≡ vec_capacity self.old.links }
    {
        for (place, entry) in entries.iter().enumerate() {
            self.put(hash_key(entry.key.as_text()), place);
        }
    }

    /// Makes room for this many pairs, which are more than there are.
    pub(crate) fn make_room(&mut self, pairs: usize) -> Result<(), AllocError>
        requires { length self.old.links.items < pairs }
        ensures table { (ks : List (List ℕ)) → IsTable self.old ks → IsTable self.new ks }
        ensures room { OnOk result (HasRoomFor pairs self.new) }
    {
        self.links.reserve_exact(pairs - self.links.len())?;
        self.heads.resize(pairs, None)?;
        self.relink();
        Ok(())
    }

    /// Puts a pair into the table at a place. The places of the pairs after it go up by one.
    pub(crate) fn insert(&mut self, place: usize, hash: u64)
        requires within { place ≤ length self.old.links.items }
        requires room { HasRoomFor (length self.old.links.items + 1) self.old }
        ensures { (ks : List (List ℕ)) (k : List ℕ) → IsTable self.old ks → hash ≡ text_hash k
            → IsTable self.new (insert ks place k) }
    {
        if place == self.links.len() {
            self.put(hash, place);
        } else {
            insert_reserved(&mut self.links, place, Link { hash, next: None });
            self.relink();
        }
    }

    /// Takes the pair at a place out of the table. The places of the pairs after it go down by one.
    pub(crate) fn remove(&mut self, place: usize)
        requires within { place < length self.old.links.items }
        requires some { 0 < length self.old.heads.items }
        ensures { (ks : List (List ℕ)) → IsTable self.old ks → IsTable self.new (remove ks place) }
    {
        let link = self.links.remove(place);
        if place == self.links.len() {
            // Its chain began at the last pair.
            let home = self.home(link.hash);
            self.heads[home] = link.next;
        } else {
            self.relink();
        }
    }

    /// Makes the chains anew, of the hashes that the table keeps.
    fn relink(&mut self)
        requires { 0 < length self.old.heads.items }
        ensures table { (ks : List (List ℕ)) → HaveHashes self.old.links.items ks → IsTable self.new ks }
        ensures heads { 0 < length self.new.heads.items }
        ensures room { vec_capacity self.new.links ≡ vec_capacity self.old.links }
    {
        self.heads.fill(None);
        for place in 0..self.links.len() {
            let home = self.home(self.links[place].hash);
            self.links[place].next = mem::replace(&mut self.heads[home], Some(place));
        }
    }

    /// Puts a pair into the table. Its place is the number of pairs before it, and its key has this hash.
    pub(crate) fn put(&mut self, hash: u64, place: usize)
        requires room { HasRoomFor (length self.old.links.items + 1) self.old }
        requires place { place ≡ length self.old.links.items }
        ensures heads { self.new.heads.items ≡ set self.old.heads.items (home (length self.old.heads.items) hash) (Some (length self.old.links.items)) }
        ensures links { self.new.links.items ≡ self.old.links.items ++ (record { hash = hash; next = head_of self.old.heads.items hash }) ∷ [] }
        ensures room { vec_capacity self.new.links ≡ vec_capacity self.old.links }
    {
        let home = self.home(hash);
        let next = mem::replace(&mut self.heads[home], Some(place));
        self.links.push_reserved(Link { hash, next });
    }

    /// The chain in which this hash stands: the high word of the mixed hash times the number of chains, which is below that
    /// number. A remainder would take several times as long.
    #[inline]
    fn home(&self, hash: u64) -> usize
        requires { 0 < length self.now.heads.items }
        ensures home { result ≡ home (length self.now.heads.items) hash }
        ensures within { result < length self.now.heads.items }
    {
        let mixed = hash.wrapping_mul(MIX);
        let (_, home) = mixed.carrying_mul(self.heads.len() as u64, 0);
        home as usize
    }

    /// Returns the place of the key, whose hash is given.
    pub(crate) fn find<K: ObjectKey, V>(
        &self,
        hash: u64,
        key: &str,
        entries: &[Entry<K, V>],
    ) -> Option<usize>
        requires table { IsTable self.now (keys_of K.text entries.now) }
        requires distinct { AreDistinct (keys_of K.text entries.now) }
        requires hash { hash ≡ text_hash key.now }
        ensures { result ≡ place_of K.text entries.now key.now }
    {
        seek(&self.links, self.heads[self.home(hash)], hash, key, entries)
    }

    /// Returns `true` if there is room for one more pair.
    pub(crate) fn has_room(&self) -> bool
        ensures { result ≡ true → length self.now.links.items + 1 ≤ vec_capacity self.now.links }
    {
        self.links.len() < self.links.capacity()
    }
}

/// The hash of the key: the known one, or else it is computed.
pub(crate) fn hash_of(known: Option<u64>, key: &str) -> u64
    requires { IfSome known (λ hash. hash ≡ text_hash key.now) }
    ensures { result ≡ text_hash key.now }
{
    match known {
        Some(hash) => hash,
        None => hash_key(key),
    }
}
