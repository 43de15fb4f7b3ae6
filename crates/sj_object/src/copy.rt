//! Copies of objects.
ghost use Rattle.std.specs.Prelude.{◌≡◌, List};
ghost use Rattle.std.proofs.Common.{ap};
ghost use Rattle.sj_base.specs.Tree.{object};
ghost use Rattle.sj_object.specs.Copies.{copied_pairs, pair_members};

use crate::entry::Entry;
use crate::key::ObjectKey;
use crate::object::Object;
use sj_base::TryCopy;
use std::alloc::AllocError;
use std::borrow::CowStr;

/// A type of keys whose copies have the text of their original.
pub trait CopyKey: ObjectKey + TryCopy {
    ghost keeps_text: { (a b : Self) → Self.copied a ≡ Self.copied b → Self.text a ≡ Self.text b };
}

impl CopyKey for String {
    ghost keeps_text = { λ a b same. same };
}

impl CopyKey for CowStr<'_> {
    ghost keeps_text = { λ a b same. ap (λ p. p.1) same };
}

/// A copy has copies of the keys and of the values, in the same order. No key is hashed.
impl<K: CopyKey + Drop, V: TryCopy + Drop> TryCopy for Object<K, V> {
    ghost Copied = { List (K.Copied × V.Copied) };

    ghost copied = { copied_pairs K.copied V.copied };

    ghost tree = { λ pairs. object (pair_members K.tree V.tree pairs) };

    fn try_clone(&self) -> Result<Object<K, V>, AllocError> {
        let alloc = *self.entries().allocator();
        let mut entries = Vec::with_capacity(alloc, self.len())?;
        for entry in self.entries() {
            let key = entry.key.try_clone()?;
            let value = entry.value.try_clone()?;
            entries.push_reserved(Entry { key, value });
        }
        Ok(Object {
            pairs: self.pairs.with_entries(entries)?,
        })
    }
}
