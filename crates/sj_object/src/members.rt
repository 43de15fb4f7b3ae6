//! The pairs of which an object is made.
ghost use Rattle.std.specs.Prelude.{◌≡◌, [], None, is_some, IfOk, OnOk};
ghost use Rattle.sj_object.specs.Members.{member_pairs, AreMembers, HasRoomForOne};
ghost use Rattle.sj_object.specs.Pairs.{value_at, put_key};

use crate::entry::Entry;
use crate::key::ObjectKey;
use crate::object::Object;
use crate::pairs::Pairs;
use std::alloc::{AllocError, Global};
use std::fmt::{self, Debug};

/// Pairs that are put together one by one, of which [`Object::from_members`] makes an object.
///
/// The key type has no bound. So a trait can have a method that takes the members of an object whose values are of the trait's
/// own type.
#[derive(Drop)]
pub struct Members<K, V> {
    pub(crate) pairs: Pairs<K, V>,
}

impl<K: ObjectKey, V> Members<K, V> {
    /// Creates an empty list of pairs with room for `capacity` pairs. The hash table isn't made yet: the 33rd pair still needs
    /// memory.
    ///
    /// # Errors
    ///
    /// `AllocError` if there is no memory for that room.
    pub fn with_capacity(alloc: Global, capacity: usize) -> Result<Self, AllocError>
        ensures pairs { IfOk result (λ members. member_pairs members ≡ []) }
        ensures members { IfOk result (AreMembers K.text) }
    {
        let entries = Vec::with_capacity(alloc, capacity)?;
        Ok(Members {
            pairs: Pairs::Listed(entries),
        })
    }

    /// Returns `true` if a pair has the key.
    // The builder of documents looks few keys up, and its loop is faster without this code.
    #[inline(never)]
    pub fn contains_key(&self, key: &str) -> bool
        requires { AreMembers K.text self.now }
        ensures { result ≡ is_some (value_at K.text (member_pairs self.now) key.now) }
    {
        self.pairs.place(None, key).is_some()
    }

    /// Makes room for one more pair. The 33rd one needs a hash table, which is made here.
    ///
    /// # Errors
    ///
    /// `AllocError` if there is no memory for it. The pairs are unchanged.
    #[inline(always)]
    pub fn make_room(&mut self) -> Result<(), AllocError>
    where
        K: Drop,
        V: Drop,
        requires { AreMembers K.text self.old }
        ensures pairs { member_pairs self.new ≡ member_pairs self.old }
        ensures members { AreMembers K.text self.new }
        ensures room { OnOk result (HasRoomForOne self.new) }
    {
        self.pairs.make_room()
    }

    /// Puts a pair last, for which there is room ([`Members::make_room`]). No pair may have its key, which isn't looked for.
    #[inline(always)]
    pub fn push_reserved(&mut self, key: K, value: V)
        requires members { AreMembers K.text self.old }
        requires room { HasRoomForOne self.old }
        requires new_key { value_at K.text (member_pairs self.old) (K.text key) ≡ None }
        ensures pairs { member_pairs self.new ≡ put_key K.text (member_pairs self.old) key value }
        ensures members { AreMembers K.text self.new }
    {
        self.pairs.push(None, Entry { key, value });
    }
}

/// Shows the pairs as a map, in their order.
impl<K: Debug, V: Debug> Debug for Members<K, V> {
    fn fmt<W: fmt::Write>(&self, f: &mut fmt::Formatter<W>) -> fmt::Result {
        let mut out = f.debug_map();
        for entry in self.pairs.entries() {
            out.entry(&entry.key, &entry.value);
        }
        out.finish()
    }
}

impl<K: ObjectKey, V> Object<K, V> {
    /// Creates an object of members. Takes no memory.
    ///
    /// `members` have to be as the calls of [`Members`] leave them.
    pub fn from_members(members: Members<K, V>) -> Self
        requires { AreMembers K.text members }
        ensures { result ≡ member_pairs members }
    {
        Object {
            pairs: members.pairs,
        }
    }
}
