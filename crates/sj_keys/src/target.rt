//! The types in which known keys look up and write members.
ghost use Rattle.std.specs.Prelude.{◌≡◌, ℕ, List, Option, Some, false, bytes_eq, IsSome, IsOk, IfOk, IfErr, OnOk, OnErr, MatchOption};
ghost use Rattle.std.specs.Borrow.{LendsIf, LendsSoOk, sem};
ghost use Rattle.std.specs.Cow.{cow_str_bytes};
ghost use Rattle.std.specs.Option.{ForNone, option_copied, option_copied_mut};
ghost use Rattle.sj_base.specs.declared.static_node.ValueType.{ValueType};
ghost use Rattle.sj_keys.specs.Writes.{refusal};

use crate::error::KnownKeyError;
use crate::key::KnownKey;
use std::alloc::Global;

/// A type in which members are looked up by known keys: an object, or a document, which may be one.
///
/// Its calls are those of [`KnownKey`], seen from the target.
pub trait KnownKeyTarget {
    /// The type of the members' values.
    type Output;

    // The value of the member with this key, if the target is an object that has one.
    ghost member: { Self → List ℕ → Option Self.Output };

    /// Returns the value of this key, or `None` if there is none or the target isn't an object.
    fn get_known(&self, key: &KnownKey<'_>) -> Option<&Self::Output>
        ensures { option_copied result ≡ member self.now (cow_str_bytes key.now) };
}

/// A target whose members are written by known keys.
///
/// The clauses `writes_back` say what the target is after a write through the reference.
pub trait KnownKeyTargetMut: KnownKeyTarget {
    // The target with another value in the place of the value of the member with this key.
    ghost with_value: { Self → List ℕ → Self.Output → Self };

    // Whether the second target is the first one after this value was put at this key.
    ghost puts: { Self → List ℕ → Self.Output → Self → Type 0 };

    // The type of the target, if it isn't an object.
    ghost other_type: { Self → Option ValueType };

    /// Returns the value of this key for writing, or `None` if there is none or the target isn't an object.
    fn get_known_mut(&mut self, key: &KnownKey<'_>) -> Option<&mut Self::Output>
        ensures* writes_back { sem 𝓛 (LendsIf Self.row Self.Output.row self.entry result
            (with_value self.old (cow_str_bytes key.now)) self.old) }
        ensures value { option_copied_mut result ≡ Self.member self.old (cow_str_bytes key.now) };

    /// Replaces the value of this key and returns the old one. A new key goes last, and the result is `None`.
    ///
    /// A key that is there stays as it is, and replacing its value needs no memory.
    ///
    /// # Errors
    ///
    /// `NotAnObject` if the target isn't an object. Otherwise `Memory` if there is no memory for a new member. The target is
    /// unchanged, and the value is dropped.
    fn insert_known(
        &mut self,
        alloc: Global,
        key: &KnownKey<'_>,
        value: Self::Output,
    ) -> Result<Option<Self::Output>, KnownKeyError>
    where
        Self::Output: Drop,
        ensures put { OnOk result (puts self.old (cow_str_bytes key.now) value self.new) }
        ensures replaced { IfOk result (λ old. old ≡ Self.member self.old (cow_str_bytes key.now)) }
        ensures succeeds { IsSome (Self.member self.old (cow_str_bytes key.now)) → IsOk result }
        ensures err { IfErr result (λ e. e ≡ refusal (other_type self.old)) }
        ensures unchanged { OnErr result (self.new ≡ self.old) };

    /// Returns the value of this key for writing. A new key goes last, with the value that `with` returns.
    ///
    /// `with` is called for a new key alone, after room has been made for it. A key that is there needs no memory.
    ///
    /// # Errors
    ///
    /// `NotAnObject` if the target isn't an object. Otherwise `Memory` if there is no memory for a new member. The target is
    /// unchanged, and `with` isn't called.
    fn get_known_or_insert<F: FnOnce() -> Self::Output + Drop>(
        &mut self,
        alloc: Global,
        key: &KnownKey<'_>,
        with: F,
    ) -> Result<&mut Self::Output, KnownKeyError>
        requires callable { ForNone (other_type self.old) (ForNone (Self.member self.old (cow_str_bytes key.now)) (F.pre with)) }
        ensures* writes_back { sem 𝓛 (LendsSoOk Self.row Self.Output.row self.entry result
            (λ new value. puts self.old (cow_str_bytes key.now) value new) (λ new. new ≡ self.old)) }
        ensures value { IfOk result (λ value. MatchOption (Self.member self.old (cow_str_bytes key.now))
            (F.post with value.now) (λ old. value.now ≡ old)) }
        ensures succeeds { IsSome (Self.member self.old (cow_str_bytes key.now)) → IsOk result }
        ensures err { IfErr result (λ e. e ≡ refusal (other_type self.old)) };

    // A value that was put, or written through a reference, is found at its key.
    ghost written_found: { (t : Self) (k : List ℕ) (v : Self.Output) → IsSome (Self.member t k) → Self.member (with_value t k v) k ≡ Some v };

    ghost put_found: { (t u : Self) (k : List ℕ) (v : Self.Output) → puts t k v u → Self.member u k ≡ Some v };

    // The values of other keys stay.
    ghost others_unwritten: { (t : Self) (k l : List ℕ) (v : Self.Output) → bytes_eq k l ≡ false → Self.member (with_value t k v) l ≡ Self.member t l };

    ghost others_unput: { (t u : Self) (k l : List ℕ) (v : Self.Output) → puts t k v u → bytes_eq k l ≡ false → Self.member u l ≡ Self.member t l };
}
