//! The type of known keys.
ghost use Rattle.std.specs.Prelude.{◌≡◌, Bool, List, ℕ, IfOk, IfErr, bytes_eq};
ghost use Rattle.std.specs.Cmp.{on_per, partial_equiv_from_equiv};
ghost use Rattle.std.specs.Cmp.Lexicographic.{nat_list_eq_equiv};
ghost use Rattle.std.specs.Cow.{cow_str_bytes};
ghost use Rattle.std.specs.declared.borrow.CowStr.TheVariants.{Borrowed, Owned};
ghost use Rattle.sj_base.specs.Copied.{is_borrowed_text};
ghost use Rattle.sj_base.specs.Tree.{string};

use crate::error::KnownKeyError;
use sj_base::TryCopy;
use sj_object::hash_key;
use sj_owned::FromString;
use std::alloc::{AllocError, Global};
use std::borrow::CowStr;
use std::marker::Model;

/// A key with its hash, which is computed once. Port of `simd_json::known_key::KnownKey`.
#[derive(Debug, Drop)]
pub struct KnownKey<'k> {
    pub(crate) key: CowStr<'k>,
    pub(crate) hash: u64,
}

impl<'k> Model for KnownKey<'k> {
    ghost use Rattle.std.specs.Prelude.{◌≡◌};
    ghost use Rattle.std.specs.Cow.{cow_str_bytes};
    ghost use Rattle.std.specs.declared.alloc.Global.{Global};
    ghost use Rattle.std.specs.declared.borrow.CowStr.{CowStr};
    ghost use Rattle.sj_object.specs.Hash.{text_hash};

    ghost Value = { CowStr Global };

    ghost view = { λ known. known.key };

    ghost invariant = { λ known. known.hash ≡ text_hash (cow_str_bytes known.key) };
}

impl<'k> KnownKey<'k> {
    /// Returns the key.
    pub fn key(&self) -> &CowStr<'k>
        ensures { result.now ≡ self.now }
    {
        &self.key
    }

    /// A key with the same text, for objects.
    pub(crate) fn to_key<K: FromString>(&self, alloc: Global) -> Result<K, KnownKeyError>
        ensures ok { IfOk result (λ key. K.text key ≡ cow_str_bytes self.now) }
        ensures err { IfErr result (λ e. e ≡ KnownKeyError.Memory) }
    {
        let text = String::from_str(alloc, self.key.as_ref())?;
        Ok(K::from_string(text))
    }
}

/// The text is borrowed, and no memory is needed.
impl<'k> From<&'k str> for KnownKey<'k> {
    ghost from_gives = { λ text known. known ≡ Borrowed text };

    fn from(text: &'k str) -> KnownKey<'k> {
        KnownKey::from(CowStr::Borrowed(text))
    }
}

impl<'k> From<CowStr<'k>> for KnownKey<'k> {
    ghost from_gives = { λ text known. known ≡ text };

    fn from(text: CowStr<'k>) -> KnownKey<'k> {
        KnownKey {
            hash: hash_key(text.as_ref()),
            key: text,
        }
    }
}

impl From<String> for KnownKey<'_> {
    ghost from_gives = { λ text known. known ≡ Owned text };

    fn from(text: String) -> Self {
        KnownKey::from(CowStr::Owned(text))
    }
}

/// Known keys are equal if their texts are.
impl<'k> PartialEq for KnownKey<'k> {
    ghost eq = { λ a b. bytes_eq (cow_str_bytes a) (cow_str_bytes b) };

    ghost laws = { on_per cow_str_bytes (partial_equiv_from_equiv nat_list_eq_equiv) };

    fn eq(&self, other: &Self) -> bool {
        self.key == other.key
    }
}

/// A copy of a borrowed text is borrowed.
impl TryCopy for KnownKey<'_> {
    ghost Copied = { Bool × List ℕ };

    ghost copied = { λ known. (is_borrowed_text known, cow_str_bytes known) };

    ghost tree = { λ c. string c.1 };

    fn try_clone(&self) -> Result<Self, AllocError> {
        Ok(KnownKey {
            key: self.key.try_clone()?,
            hash: self.hash,
        })
    }
}
