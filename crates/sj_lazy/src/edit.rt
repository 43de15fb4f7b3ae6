//! Write calls. Each makes a document of a tape first, and copies a document that is only borrowed.
ghost use Rattle.std.specs.Prelude.{◌≡◌, ◌∷◌, [], ◌++◌, true, false, Some, IsNone, IsOk, IfOk, IfErr, OnOk, OnErr, option_map};
ghost use Rattle.std.specs.Cow.{cow_str_bytes};
ghost use Rattle.std.specs.Borrow.{sem};
ghost use Rattle.std.specs.Option.{option_copied_mut};
ghost use Rattle.sj_base.specs.Containers.{items_in, members_in};
ghost use Rattle.sj_base.specs.Edit.{last_item};
ghost use Rattle.sj_base.specs.Path.{child, key as key_part};
ghost use Rattle.sj_object.specs.Pairs.{value_at, put_key, drop_key};
ghost use Rattle.sj_owned.specs.Parts.{member_of, item_of};
ghost use Rattle.sj_owned.specs.Views.{array_inside, items_inside, members_inside};
ghost use Rattle.sj_owned.specs.Edits.{with_member, without_member, with_item, without_last, refusal, last_of, before_last};

use crate::held::Held;
use crate::value::{TapeOrDocument, Value};
use sj_base::{AccessError, TryCopy};
use sj_owned::{MutableValue, build_value};
use sj_tape::Value as TapeValue;
use sj_values::BorrowedValue;
use sj_values::borrowed::Object;
use std::alloc::{AllocError, Global};
use std::borrow::CowStr;

/// What a document can be made of. A bound of [`TapeOrDocument::value_mut`].
pub trait ToDocument<D> {
    // Whether this is a document of it.
    ghost makes: { Self → D → Type 0 };

    /// Makes a document.
    ///
    /// # Errors
    ///
    /// `AllocError` if there is no memory for the document.
    fn to_document(&self, alloc: Global) -> Result<D, AllocError>
        ensures { IfOk result (makes self.now) };
}

/// A document is built of a tape's value. Of members with equal keys it has the first.
impl<'i> ToDocument<BorrowedValue<'i>> for TapeValue<'_, 'i> {
    ghost use Rattle.sj_lazy.specs.Upgrade.{built_of};

    ghost makes = { built_of };

    fn to_document(&self, alloc: Global) -> Result<BorrowedValue<'i>, AllocError> {
        build_value::<BorrowedValue<'i>, CowStr<'i>>(alloc, *self)
    }
}

/// A document of another value is copied.
impl<'i> ToDocument<BorrowedValue<'i>> for &BorrowedValue<'i> {
    ghost use Rattle.sj_lazy.specs.Upgrade.{copied_of};

    ghost makes = { copied_of };

    fn to_document(&self, _alloc: Global) -> Result<BorrowedValue<'i>, AllocError> {
        self.try_clone()
    }
}

impl<T, B, D> TapeOrDocument<T, B, D> {
    ghost use Rattle.sj_lazy.specs.Contents.{own_document};
    ghost use Rattle.sj_lazy.specs.Lends.{lends_own_document};

    /// The document for writing, if the value owns one.
    #[inline]
    fn owned_mut(&mut self) -> Option<&mut D>
        ensures* writes_back { sem 𝓛 (lends_own_document T.row B.row D.row self.entry result) }
        ensures value { option_copied_mut result ≡ own_document self.old }
    {
        match self {
            TapeOrDocument::Value(held) => held.owned_mut(),
            _ => None,
        }
    }
}

impl<T: ToDocument<D> + Drop, B: ToDocument<D> + Drop, D: Drop> TapeOrDocument<T, B, D> {
    ghost use Rattle.sj_lazy.specs.Lends.{lends_document};
    ghost use Rattle.sj_lazy.specs.Upgrade.{OwnsSuch, UpgradesBy, owns};

    /// Returns a document of what the value holds, for which memory is taken.
    pub(crate) fn document(&self, alloc: Global) -> Result<D, AllocError>
        requires { owns self.now ≡ false }
        ensures { IfOk result (UpgradesBy T.makes B.makes self.now) }
    {
        match self {
            TapeOrDocument::Tape(view) => view.to_document(alloc),
            TapeOrDocument::Value(Held::Borrowed(document)) => document.to_document(alloc),
            TapeOrDocument::Value(Held::Owned(_)) => unreachable!(),
        }
    }

    /// Makes the value own its document.
    fn upgrade(&mut self, alloc: Global) -> Result<(), AllocError>
        ensures ok { OnOk result (OwnsSuch (UpgradesBy T.makes B.makes self.old) self.new) }
        ensures unchanged { OnErr result (self.new ≡ self.old) }
        ensures succeeds { owns self.old ≡ true → IsOk result }
    {
        if let TapeOrDocument::Value(Held::Owned(_)) = self {
            return Ok(());
        }
        *self = TapeOrDocument::Value(Held::Owned(self.document(alloc)?));
        Ok(())
    }

    /// Makes the value own its document, and returns that for writing. A tape is built into a document, and a borrowed document is
    /// copied.
    ///
    /// The copy recurses as deep as the document nests. To build one from a tape needs no recursion.
    ///
    /// # Errors
    ///
    /// `AllocError` if there is no memory for the document. The value is unchanged. A value that owns its document already needs
    /// no memory.
    pub fn value_mut(&mut self, alloc: Global) -> Result<&mut D, AllocError>
        ensures* writes_back { sem 𝓛 (lends_document T.row B.row D.row self.entry result) }
        ensures value { IfOk result (λ d. UpgradesBy T.makes B.makes self.old d.now) }
        ensures succeeds { owns self.old ≡ true → IsOk result }
    {
        self.upgrade(alloc)?;
        match self.owned_mut() {
            Some(document) => Ok(document),
            None => unreachable!(),
        }
    }
}

impl<'i> Value<'_, '_, 'i> {
    ghost use Rattle.sj_lazy.specs.Contents.{Document};
    ghost use Rattle.sj_lazy.specs.Upgrade.{OwnsSuch, Upgrades, WritesBy, Refuses, owns, upgraded};
    ghost use Rattle.sj_lazy.specs.Views.{document_tree};

    /// Makes the value a document, replaces the value of this key and returns the old one. A new key goes last, and the
    /// result is `None`.
    ///
    /// # Errors
    ///
    /// - `Memory` if there is no memory for the document. The value is unchanged.
    /// - `NotAnObject` if the value isn't an object. It owns its document now.
    /// - `Memory` if there is no memory for a new member. The value owns its document now, without that member.
    ///
    /// In each case the key and the value to insert are dropped.
    pub fn insert(
        &mut self,
        alloc: Global,
        key: CowStr<'i>,
        value: BorrowedValue<'i>,
    ) -> Result<Option<BorrowedValue<'i>>, AccessError>
        ensures ok { OnOk result (OwnsSuch (λ d. Some (document_tree d)
            ≡ with_member (upgraded self.old) (cow_str_bytes key.entry) (document_tree value.entry)) self.new) }
        ensures replaced { IfOk result (λ old. option_map document_tree old
            ≡ child (upgraded self.old) (key_part (cow_str_bytes key.entry))) }
        ensures document { IfOk result (λ old. WritesBy (λ e d. (old ≡ member_of cow_str_bytes e (cow_str_bytes key.entry))
            × (members_inside d ≡ option_map (λ es. put_key cow_str_bytes es key.entry value.entry) (members_inside e))) self.old self.new) }
        ensures err { IfErr result (Refuses (λ e. (e ≡ refusal AccessError.NotAnObject (members_in (upgraded self.old)))
            × IsNone (child (upgraded self.old) (key_part (cow_str_bytes key.entry)))) self.old self.new) }
    {
        let Ok(owned) = self.value_mut(alloc) else {
            drop((key, value));
            return Err(AccessError::Memory);
        };
        owned.insert(key, value)
    }

    /// Makes the value a document, removes the member of this key and returns its value, or
    /// returns `None` if there is none. The members after it close up.
    ///
    /// # Errors
    ///
    /// - `Memory` if there is no memory for the document. The value is unchanged.
    /// - `NotAnObject` if the value isn't an object. It owns its document now.
    pub fn remove(
        &mut self,
        alloc: Global,
        key: &str,
    ) -> Result<Option<BorrowedValue<'i>>, AccessError>
        ensures ok { OnOk result (OwnsSuch (λ d. Some (document_tree d)
            ≡ without_member (upgraded self.old) key.now) self.new) }
        ensures value { IfOk result (λ old. option_map document_tree old
            ≡ child (upgraded self.old) (key_part key.now)) }
        ensures document { IfOk result (λ old. WritesBy (λ e d. (Some old ≡ option_map (λ es. value_at cow_str_bytes es key.now) (members_inside e))
            × (members_inside d ≡ option_map (λ es. drop_key cow_str_bytes es key.now) (members_inside e))) self.old self.new) }
        ensures err { IfErr result (Refuses (λ e. (e ≡ AccessError.NotAnObject) × IsNone (members_in (upgraded self.old))) self.old self.new) }
    {
        let Ok(document) = self.value_mut(alloc) else {
            return Err(AccessError::Memory);
        };
        document.remove(key)
    }

    /// Makes the value a document, and appends `value` as the last item.
    ///
    /// # Errors
    ///
    /// - `Memory` if there is no memory for the document. The value is unchanged.
    /// - `NotAnArray` if the value isn't an array. It owns its document now.
    /// - `Memory` if there is no memory for one more item. The value owns its document now, without that item.
    ///
    /// In each case the item is dropped.
    pub fn push(&mut self, alloc: Global, value: BorrowedValue<'i>) -> Result<(), AccessError>
        ensures ok { OnOk result (OwnsSuch (λ d. Some (document_tree d)
            ≡ with_item (upgraded self.old) (document_tree value.entry)) self.new) }
        ensures document { OnOk result (WritesBy (λ e d. items_inside d
            ≡ option_map (λ vs. vs ++ value.entry ∷ []) (items_inside e)) self.old self.new) }
        ensures err { IfErr result (Refuses (λ e. e ≡ refusal AccessError.NotAnArray (items_in (upgraded self.old))) self.old self.new) }
    {
        let Ok(document) = self.value_mut(alloc) else {
            drop(value);
            return Err(AccessError::Memory);
        };
        document.push(value)
    }

    /// Makes the value a document, removes its last item and returns it, or returns `None` if there is none.
    ///
    /// # Errors
    ///
    /// - `Memory` if there is no memory for the document. The value is unchanged.
    /// - `NotAnArray` if the value isn't an array. It owns its document now.
    pub fn pop(&mut self, alloc: Global) -> Result<Option<BorrowedValue<'i>>, AccessError>
        ensures ok { OnOk result (OwnsSuch (λ d. Some (document_tree d)
            ≡ without_last (upgraded self.old)) self.new) }
        ensures value { IfOk result (λ old. Some (option_map document_tree old)
            ≡ option_map last_item (items_in (upgraded self.old))) }
        ensures document { IfOk result (λ old. WritesBy (λ e d. (Some old ≡ option_map last_of (items_inside e))
            × (items_inside d ≡ option_map before_last (items_inside e))) self.old self.new) }
        ensures err { IfErr result (Refuses (λ e. (e ≡ AccessError.NotAnArray) × IsNone (items_in (upgraded self.old))) self.old self.new) }
    {
        let Ok(document) = self.value_mut(alloc) else {
            return Err(AccessError::Memory);
        };
        document.pop()
    }

    /// Makes the value a document, and returns its items for writing, or `None` if it isn't an array.
    ///
    /// Also where it returns `None`, the value is a document afterwards, without repeated members. What a write
    /// through the reference leaves is said by the contract of [`TapeOrDocument::value_mut`], and not by this one.
    ///
    /// # Errors
    ///
    /// `AllocError` if there is no memory for the document. The value is unchanged. A value that owns its document already needs
    /// no memory.
    pub fn as_array_mut(
        &mut self,
        alloc: Global,
    ) -> Result<Option<&mut Vec<BorrowedValue<'i>>>, AllocError>
        ensures part { IfOk result (λ found. (d : Document) × Upgrades self.old d × (option_copied_mut found ≡ array_inside d)) }
        ensures succeeds { owns self.old ≡ true → IsOk result }
    {
        Ok(self.value_mut(alloc)?.as_array_mut())
    }

    /// Makes the value a document, and returns its members for writing, or `None` if it isn't an object.
    ///
    /// Also where it returns `None`, the value is a document afterwards, without repeated members. What a write
    /// through the reference leaves is said by the contract of [`TapeOrDocument::value_mut`], and not by this one.
    ///
    /// # Errors
    ///
    /// `AllocError` if there is no memory for the document. The value is unchanged. A value that owns its document already needs
    /// no memory.
    pub fn as_object_mut(&mut self, alloc: Global) -> Result<Option<&mut Object<'i>>, AllocError>
        ensures part { IfOk result (λ found. (d : Document) × Upgrades self.old d × (option_copied_mut found ≡ members_inside d)) }
        ensures succeeds { owns self.old ≡ true → IsOk result }
    {
        Ok(self.value_mut(alloc)?.as_object_mut())
    }

    /// Makes the value a document, and returns the value of its member with this key for writing, or `None` if there is none
    /// or the value isn't an object.
    ///
    /// Also where it returns `None`, the value is a document afterwards, without repeated members. What a write
    /// through the reference leaves is said by the contract of [`TapeOrDocument::value_mut`], and not by this one.
    ///
    /// # Errors
    ///
    /// `AllocError` if there is no memory for the document. The value is unchanged. A value that owns its document already needs
    /// no memory.
    pub fn get_mut(
        &mut self,
        alloc: Global,
        name: &str,
    ) -> Result<Option<&mut BorrowedValue<'i>>, AllocError>
        ensures part { IfOk result (λ found. (d : Document) × Upgrades self.old d × (option_copied_mut found ≡ member_of cow_str_bytes d name.now)) }
        ensures succeeds { owns self.old ≡ true → IsOk result }
    {
        Ok(self.value_mut(alloc)?.get_mut(name))
    }

    /// Makes the value a document, and returns its item at this index for writing, or `None` if there is none or the value
    /// isn't an array.
    ///
    /// Also where it returns `None`, the value is a document afterwards, without repeated members. What a write
    /// through the reference leaves is said by the contract of [`TapeOrDocument::value_mut`], and not by this one.
    ///
    /// # Errors
    ///
    /// `AllocError` if there is no memory for the document. The value is unchanged. A value that owns its document already needs
    /// no memory.
    pub fn get_idx_mut(
        &mut self,
        alloc: Global,
        index: usize,
    ) -> Result<Option<&mut BorrowedValue<'i>>, AllocError>
        ensures part { IfOk result (λ found. (d : Document) × Upgrades self.old d × (option_copied_mut found ≡ item_of d index)) }
        ensures succeeds { owns self.old ≡ true → IsOk result }
    {
        Ok(self.value_mut(alloc)?.get_idx_mut(index))
    }
}
