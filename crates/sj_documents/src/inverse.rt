//! What takes writes back.
ghost use Rattle.std.specs.Prelude.{◌≡◌, option_map, IfOk, OnOk};
ghost use Rattle.sj_documents.specs.Inverse.{found_of};
ghost use Rattle.sj_documents.specs.Inverses.{change_view};
ghost use Rattle.sj_scripts.specs.Script.{path_view};
ghost use Rattle.sj_scripts.specs.Values.{owned_tree};
ghost use Rattle.sj_documents.specs.inside.KeptChanges.{IsKeptChange};

use crate::path::copy_path;
use sj_owned::OwnedValue;
use sj_scripts::PathPart;
use std::alloc::{AllocError, Global};

/// Whether a write may be taken back later.
#[derive(Clone, Copy, Debug, PartialEq, Eq)]
pub enum Undo {
    /// It may. The write call makes its [`Inverse`]: it copies the path, and the key if the change needs it, and keeps the value
    /// that was replaced or taken out as an owned one. Texts that this value borrows are copied.
    Possible,
    /// It won't be. The write call makes no inverse, and so takes less time and memory.
    Impossible,
}

/// What a write call returns: what takes the write back, if that is asked for and the write isn't refused, and else `None`.
pub type WriteResult = Result<Option<Inverse>, AllocError>;

/// What takes a write back: a change of the part that the path of the write selects.
#[derive(Debug, Drop)]
pub struct Inverse {
    /// The path of the write.
    pub path: Vec<PathPart>,
    /// The change of the part.
    pub change: Change,
}

impl Inverse {
    /// Puts a change together with a copy of the path of its write.
    pub(crate) fn new(
        alloc: Global,
        path: &[PathPart],
        change: Change,
    ) -> Result<Inverse, AllocError>
        ensures path { IfOk result (λ inverse. path_view inverse.path.items ≡ path_view path.now) }
        ensures change { IfOk result (λ inverse. inverse.change ≡ change) }
    {
        let path = copy_path(alloc, path)?;
        Ok(Inverse { path, change })
    }
}

/// A change of a part of a document.
///
/// It can't be made if the path of the inverse selects nothing, also with `Nothing`; if the part is of another kind than its
/// variant changes; or if the key, the place or the array isn't as the variant says.
#[derive(Debug, Drop)]
pub enum Change {
    /// Changes nothing. Takes back a `remove` or a `pop` that found nothing.
    Nothing,
    /// Takes out the member of this key, which has to be there. Takes back an `insert` of a new key.
    DropMember(String),
    /// Replaces the value of this key, which has to be there. Takes back an `insert` of such a key.
    SetMember(String, OwnedValue),
    /// Puts a member with a new key at a place, counted from 0 and at most the number of members. Takes back a `remove`.
    PutMember {
        /// The place among the members, from 0.
        place: usize,
        /// The key of the member.
        key: String,
        /// Its value.
        value: OwnedValue,
    },
    /// Takes out the last item of an array that isn't empty. Takes back a `push`.
    DropItem,
    /// Adds an item at the end of an array. Takes back a `pop`.
    AddItem(OwnedValue),
    /// Replaces the part. Takes back a `set`.
    SetPart(OwnedValue),
}

impl Change {
    /// Returns the value that the write replaced or took out, which its reply shows, or `None` if there was none.
    pub(crate) fn found(&self) -> Option<&OwnedValue>
        ensures { option_map (λ d. owned_tree d.now) result ≡ found_of (change_view self.now) }
    {
        match self {
            Change::Nothing | Change::DropMember(_) | Change::DropItem => None,
            Change::SetMember(_, value)
            | Change::PutMember { value, .. }
            | Change::AddItem(value)
            | Change::SetPart(value) => Some(value),
        }
    }

    /// Walks over the old value, by which the prover knows that no object in it repeats a key.
    pub(crate) fn walk(&self) -> Result<(), AllocError>
        ensures { OnOk result (IsKeptChange (change_view self.now)) }
    {
        if let Some(value) = self.found() {
            value.depth()?;
        }
        Ok(())
    }
}
