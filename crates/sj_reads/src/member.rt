//! Typed reads of an object's members by key.
ghost use Rattle.std.specs.Prelude.{◌≡◌, ℕ, List, Option, option_map};
ghost use Rattle.sj_base.specs.Scalar.{decimal_text, scalar_tree};
ghost use Rattle.sj_reads.specs.Reads.{bool_read, signed_read, unsigned_read, str_read, decimal_read};
ghost use Rattle.sj_reads.specs.Views.{found_text, found_literal};
ghost use Rattle.sj_reads.specs.Member.{Seen, seen_result, looked_up, found_scalar, answered, try_found};

use crate::found::Member;
use crate::read::*;
use crate::scalar::TypedValue;
use sj_base::{Decimal, Scalar, TryTypeError, ValueType};

fn found_scalar(found: Result<Option<Member<'_>>, TryTypeError>) -> Option<Scalar<'_>>
    ensures { option_map scalar_tree result ≡ found_scalar (seen_result found.entry) }
{
    match found {
        Ok(Some(member)) => member.scalar,
        _ => None,
    }
}

/// What a read of a member answers, where `read` is what it makes of the member's scalar.
fn answer<T: Drop>(
    found: Result<Option<Member<'_>>, TryTypeError>,
    read: Option<T>,
    expected: ValueType,
) -> Result<Option<T>, TryTypeError>
    ensures { result ≡ answered read expected (seen_result found.entry) }
{
    match found {
        Ok(Some(member)) => or_mismatch(read, expected, member.kind).map(Some),
        Ok(None) => Ok(None),
        Err(error) => Err(error),
    }
}

/// A type whose values may be objects. A type that implements it has the reads of [`ValueGetScalar`]. The trait
/// isn't in `value_trait`.
pub trait HasMembers: TypedValue {
    // The member with a key, where the value is an object.
    ghost member: { Self → List ℕ → Option Seen };

    /// Returns the first member with this key, or `None` if the object has none.
    ///
    /// # Errors
    ///
    /// `TryTypeError` if the value isn't an object. The expected type is `Object`.
    fn try_member(&self, key: &str) -> Result<Option<Member<'_>>, TryTypeError>
        ensures { seen_result result ≡ looked_up (Self.kind self.now) (member self.now key.now) };
}

/// Reads of an object's members by key as one type (`value_trait::ValueObjectAccessAsScalar` and
/// `ValueObjectAccessTryAsScalar`).
///
/// Every type that implements [`HasMembers`] has them; implement that trait and not this one. If several members have the
/// key, the first one is read.
pub trait ValueGetScalar: TypedValue {
    // The member with a key, where the value is an object.
    ghost member: { Self → List ℕ → Option Seen };

    /// Returns the first member with this key, or `None` if the object has none: [`HasMembers::try_member`].
    ///
    /// # Errors
    ///
    /// `TryTypeError` if the value isn't an object. The expected type is `Object`.
    fn try_get_member(&self, key: &str) -> Result<Option<Member<'_>>, TryTypeError>
        ensures { seen_result result ≡ looked_up (Self.kind self.now) (member self.now key.now) };

    /// Returns the member with this key as a boolean.
    ///
    /// `None` if the value isn't an object, has no such member, or the member isn't a boolean.
    fn get_bool(&self, key: &str) -> Option<bool>
        ensures { let found = looked_up (Self.kind self.now) (member self.now key.now) in
            result ≡ bool_read (found_scalar found) };

    /// Returns the member with this key as a boolean, or `None` if the object has no such member.
    ///
    /// # Errors
    ///
    /// `TryTypeError` if the value isn't an object, or if the member isn't a boolean. The expected type is
    /// `Object` or `Bool`.
    fn try_get_bool(&self, key: &str) -> Result<Option<bool>, TryTypeError>
        ensures { let found = looked_up (Self.kind self.now) (member self.now key.now) in
            result ≡ try_found bool_read ValueType.Bool found };

    /// Returns the member with this key as an `i8`.
    ///
    /// `None` if the value isn't an object, has no such member, or the member isn't an integer that fits an `i8`.
    fn get_i8(&self, key: &str) -> Option<i8>
        ensures { let found = looked_up (Self.kind self.now) (member self.now key.now) in
            result ≡ signed_read 7 (found_scalar found) };

    /// Returns the member with this key as an `i8`, or `None` if the object has no such member.
    ///
    /// # Errors
    ///
    /// `TryTypeError` if the value isn't an object, or if the member isn't an integer that fits an `i8`. The
    /// expected type is `Object` or `I64`.
    fn try_get_i8(&self, key: &str) -> Result<Option<i8>, TryTypeError>
        ensures { let found = looked_up (Self.kind self.now) (member self.now key.now) in
            result ≡ try_found (signed_read 7) ValueType.I64 found };

    /// Returns the member with this key as an `i16`.
    ///
    /// `None` if the value isn't an object, has no such member, or the member isn't an integer that fits an `i16`.
    fn get_i16(&self, key: &str) -> Option<i16>
        ensures { let found = looked_up (Self.kind self.now) (member self.now key.now) in
            result ≡ signed_read 15 (found_scalar found) };

    /// Returns the member with this key as an `i16`, or `None` if the object has no such member.
    ///
    /// # Errors
    ///
    /// `TryTypeError` if the value isn't an object, or if the member isn't an integer that fits an `i16`. The
    /// expected type is `Object` or `I64`.
    fn try_get_i16(&self, key: &str) -> Result<Option<i16>, TryTypeError>
        ensures { let found = looked_up (Self.kind self.now) (member self.now key.now) in
            result ≡ try_found (signed_read 15) ValueType.I64 found };

    /// Returns the member with this key as an `i32`.
    ///
    /// `None` if the value isn't an object, has no such member, or the member isn't an integer that fits an `i32`.
    fn get_i32(&self, key: &str) -> Option<i32>
        ensures { let found = looked_up (Self.kind self.now) (member self.now key.now) in
            result ≡ signed_read 31 (found_scalar found) };

    /// Returns the member with this key as an `i32`, or `None` if the object has no such member.
    ///
    /// # Errors
    ///
    /// `TryTypeError` if the value isn't an object, or if the member isn't an integer that fits an `i32`. The
    /// expected type is `Object` or `I64`.
    fn try_get_i32(&self, key: &str) -> Result<Option<i32>, TryTypeError>
        ensures { let found = looked_up (Self.kind self.now) (member self.now key.now) in
            result ≡ try_found (signed_read 31) ValueType.I64 found };

    /// Returns the member with this key as an `i64`.
    ///
    /// `None` if the value isn't an object, has no such member, or the member isn't an integer that fits an `i64`.
    fn get_i64(&self, key: &str) -> Option<i64>
        ensures { let found = looked_up (Self.kind self.now) (member self.now key.now) in
            result ≡ signed_read 63 (found_scalar found) };

    /// Returns the member with this key as an `i64`, or `None` if the object has no such member.
    ///
    /// # Errors
    ///
    /// `TryTypeError` if the value isn't an object, or if the member isn't an integer that fits an `i64`. The
    /// expected type is `Object` or `I64`.
    fn try_get_i64(&self, key: &str) -> Result<Option<i64>, TryTypeError>
        ensures { let found = looked_up (Self.kind self.now) (member self.now key.now) in
            result ≡ try_found (signed_read 63) ValueType.I64 found };

    /// Returns the member with this key as an `i128`.
    ///
    /// `None` if the value isn't an object, has no such member, or the member isn't an integer that fits an `i128`.
    fn get_i128(&self, key: &str) -> Option<i128>
        ensures { let found = looked_up (Self.kind self.now) (member self.now key.now) in
            result ≡ signed_read 127 (found_scalar found) };

    /// Returns the member with this key as an `i128`, or `None` if the object has no such member.
    ///
    /// # Errors
    ///
    /// `TryTypeError` if the value isn't an object, or if the member isn't an integer that fits an `i128`. The
    /// expected type is `Object` or `I64`.
    fn try_get_i128(&self, key: &str) -> Result<Option<i128>, TryTypeError>
        ensures { let found = looked_up (Self.kind self.now) (member self.now key.now) in
            result ≡ try_found (signed_read 127) ValueType.I64 found };

    /// Returns the member with this key as a `u8`.
    ///
    /// `None` if the value isn't an object, has no such member, or the member isn't an integer that fits a `u8`.
    fn get_u8(&self, key: &str) -> Option<u8>
        ensures { let found = looked_up (Self.kind self.now) (member self.now key.now) in
            result ≡ unsigned_read 8 (found_scalar found) };

    /// Returns the member with this key as a `u8`, or `None` if the object has no such member.
    ///
    /// # Errors
    ///
    /// `TryTypeError` if the value isn't an object, or if the member isn't an integer that fits a `u8`. The
    /// expected type is `Object` or `U64`.
    fn try_get_u8(&self, key: &str) -> Result<Option<u8>, TryTypeError>
        ensures { let found = looked_up (Self.kind self.now) (member self.now key.now) in
            result ≡ try_found (unsigned_read 8) ValueType.U64 found };

    /// Returns the member with this key as a `u16`.
    ///
    /// `None` if the value isn't an object, has no such member, or the member isn't an integer that fits a `u16`.
    fn get_u16(&self, key: &str) -> Option<u16>
        ensures { let found = looked_up (Self.kind self.now) (member self.now key.now) in
            result ≡ unsigned_read 16 (found_scalar found) };

    /// Returns the member with this key as a `u16`, or `None` if the object has no such member.
    ///
    /// # Errors
    ///
    /// `TryTypeError` if the value isn't an object, or if the member isn't an integer that fits a `u16`. The
    /// expected type is `Object` or `U64`.
    fn try_get_u16(&self, key: &str) -> Result<Option<u16>, TryTypeError>
        ensures { let found = looked_up (Self.kind self.now) (member self.now key.now) in
            result ≡ try_found (unsigned_read 16) ValueType.U64 found };

    /// Returns the member with this key as a `u32`.
    ///
    /// `None` if the value isn't an object, has no such member, or the member isn't an integer that fits a `u32`.
    fn get_u32(&self, key: &str) -> Option<u32>
        ensures { let found = looked_up (Self.kind self.now) (member self.now key.now) in
            result ≡ unsigned_read 32 (found_scalar found) };

    /// Returns the member with this key as a `u32`, or `None` if the object has no such member.
    ///
    /// # Errors
    ///
    /// `TryTypeError` if the value isn't an object, or if the member isn't an integer that fits a `u32`. The
    /// expected type is `Object` or `U64`.
    fn try_get_u32(&self, key: &str) -> Result<Option<u32>, TryTypeError>
        ensures { let found = looked_up (Self.kind self.now) (member self.now key.now) in
            result ≡ try_found (unsigned_read 32) ValueType.U64 found };

    /// Returns the member with this key as a `u64`.
    ///
    /// `None` if the value isn't an object, has no such member, or the member isn't an integer that fits a `u64`.
    fn get_u64(&self, key: &str) -> Option<u64>
        ensures { let found = looked_up (Self.kind self.now) (member self.now key.now) in
            result ≡ unsigned_read 64 (found_scalar found) };

    /// Returns the member with this key as a `u64`, or `None` if the object has no such member.
    ///
    /// # Errors
    ///
    /// `TryTypeError` if the value isn't an object, or if the member isn't an integer that fits a `u64`. The
    /// expected type is `Object` or `U64`.
    fn try_get_u64(&self, key: &str) -> Result<Option<u64>, TryTypeError>
        ensures { let found = looked_up (Self.kind self.now) (member self.now key.now) in
            result ≡ try_found (unsigned_read 64) ValueType.U64 found };

    /// Returns the member with this key as a `u128`.
    ///
    /// `None` if the value isn't an object, has no such member, or the member isn't an integer that fits a `u128`.
    fn get_u128(&self, key: &str) -> Option<u128>
        ensures { let found = looked_up (Self.kind self.now) (member self.now key.now) in
            result ≡ unsigned_read 128 (found_scalar found) };

    /// Returns the member with this key as a `u128`, or `None` if the object has no such member.
    ///
    /// # Errors
    ///
    /// `TryTypeError` if the value isn't an object, or if the member isn't an integer that fits a `u128`. The
    /// expected type is `Object` or `U64`.
    fn try_get_u128(&self, key: &str) -> Result<Option<u128>, TryTypeError>
        ensures { let found = looked_up (Self.kind self.now) (member self.now key.now) in
            result ≡ try_found (unsigned_read 128) ValueType.U64 found };

    /// Returns the member with this key as a `usize`.
    ///
    /// `None` if the value isn't an object, has no such member, or the member isn't an integer that fits a `usize`.
    fn get_usize(&self, key: &str) -> Option<usize>
        ensures { let found = looked_up (Self.kind self.now) (member self.now key.now) in
            result ≡ unsigned_read 64 (found_scalar found) };

    /// Returns the member with this key as a `usize`, or `None` if the object has no such member.
    ///
    /// # Errors
    ///
    /// `TryTypeError` if the value isn't an object, or if the member isn't an integer that fits a `usize`. The
    /// expected type is `Object` or `U64`.
    fn try_get_usize(&self, key: &str) -> Result<Option<usize>, TryTypeError>
        ensures { let found = looked_up (Self.kind self.now) (member self.now key.now) in
            result ≡ try_found (unsigned_read 64) ValueType.U64 found };

    /// Returns the member with this key as a string.
    ///
    /// `None` if the value isn't an object, has no such member, or the member isn't a string.
    fn get_str(&self, key: &str) -> Option<&str>
        ensures { let found = looked_up (Self.kind self.now) (member self.now key.now) in
            option_map (λ s. s.now) result ≡ str_read (found_scalar found) };

    /// Returns the member with this key as a string, or `None` if the object has no such member.
    ///
    /// # Errors
    ///
    /// `TryTypeError` if the value isn't an object, or if the member isn't a string. The expected type is
    /// `Object` or `String`.
    fn try_get_str(&self, key: &str) -> Result<Option<&str>, TryTypeError>
        ensures { let found = looked_up (Self.kind self.now) (member self.now key.now) in
            found_text result ≡ try_found str_read ValueType.String found };

    /// Returns the member with this key as a decimal literal.
    ///
    /// `None` if the value isn't an object, has no such member, or the member isn't a decimal literal.
    fn get_decimal(&self, key: &str) -> Option<Decimal<'_>>
        ensures { let found = looked_up (Self.kind self.now) (member self.now key.now) in
            option_map decimal_text result ≡ decimal_read (found_scalar found) };

    /// Returns the member with this key as a decimal literal, or `None` if the object has no such member.
    ///
    /// # Errors
    ///
    /// `TryTypeError` if the value isn't an object, or if the member isn't a decimal literal. The expected type
    /// is `Object` or `Decimal`.
    fn try_get_decimal(&self, key: &str) -> Result<Option<Decimal<'_>>, TryTypeError>
        ensures { let found = looked_up (Self.kind self.now) (member self.now key.now) in
            found_literal result ≡ try_found decimal_read ValueType.Decimal found };
}

impl<T: HasMembers> ValueGetScalar for T {
    ghost member = { T.member };

    fn try_get_member(&self, key: &str) -> Result<Option<Member<'_>>, TryTypeError> {
        self.try_member(key)
    }

    fn get_bool(&self, key: &str) -> Option<bool> {
        read_bool(found_scalar(self.try_get_member(key)))
    }

    fn try_get_bool(&self, key: &str) -> Result<Option<bool>, TryTypeError> {
        let found = self.try_get_member(key);
        answer(found, read_bool(found_scalar(found)), ValueType::Bool)
    }

    fn get_i8(&self, key: &str) -> Option<i8> {
        read_i8(found_scalar(self.try_get_member(key)))
    }

    fn try_get_i8(&self, key: &str) -> Result<Option<i8>, TryTypeError> {
        let found = self.try_get_member(key);
        answer(found, read_i8(found_scalar(found)), ValueType::I64)
    }

    fn get_i16(&self, key: &str) -> Option<i16> {
        read_i16(found_scalar(self.try_get_member(key)))
    }

    fn try_get_i16(&self, key: &str) -> Result<Option<i16>, TryTypeError> {
        let found = self.try_get_member(key);
        answer(found, read_i16(found_scalar(found)), ValueType::I64)
    }

    fn get_i32(&self, key: &str) -> Option<i32> {
        read_i32(found_scalar(self.try_get_member(key)))
    }

    fn try_get_i32(&self, key: &str) -> Result<Option<i32>, TryTypeError> {
        let found = self.try_get_member(key);
        answer(found, read_i32(found_scalar(found)), ValueType::I64)
    }

    fn get_i64(&self, key: &str) -> Option<i64> {
        read_i64(found_scalar(self.try_get_member(key)))
    }

    fn try_get_i64(&self, key: &str) -> Result<Option<i64>, TryTypeError> {
        let found = self.try_get_member(key);
        answer(found, read_i64(found_scalar(found)), ValueType::I64)
    }

    fn get_i128(&self, key: &str) -> Option<i128> {
        read_i128(found_scalar(self.try_get_member(key)))
    }

    fn try_get_i128(&self, key: &str) -> Result<Option<i128>, TryTypeError> {
        let found = self.try_get_member(key);
        answer(found, read_i128(found_scalar(found)), ValueType::I64)
    }

    fn get_u8(&self, key: &str) -> Option<u8> {
        read_u8(found_scalar(self.try_get_member(key)))
    }

    fn try_get_u8(&self, key: &str) -> Result<Option<u8>, TryTypeError> {
        let found = self.try_get_member(key);
        answer(found, read_u8(found_scalar(found)), ValueType::U64)
    }

    fn get_u16(&self, key: &str) -> Option<u16> {
        read_u16(found_scalar(self.try_get_member(key)))
    }

    fn try_get_u16(&self, key: &str) -> Result<Option<u16>, TryTypeError> {
        let found = self.try_get_member(key);
        answer(found, read_u16(found_scalar(found)), ValueType::U64)
    }

    fn get_u32(&self, key: &str) -> Option<u32> {
        read_u32(found_scalar(self.try_get_member(key)))
    }

    fn try_get_u32(&self, key: &str) -> Result<Option<u32>, TryTypeError> {
        let found = self.try_get_member(key);
        answer(found, read_u32(found_scalar(found)), ValueType::U64)
    }

    fn get_u64(&self, key: &str) -> Option<u64> {
        read_u64(found_scalar(self.try_get_member(key)))
    }

    fn try_get_u64(&self, key: &str) -> Result<Option<u64>, TryTypeError> {
        let found = self.try_get_member(key);
        answer(found, read_u64(found_scalar(found)), ValueType::U64)
    }

    fn get_u128(&self, key: &str) -> Option<u128> {
        read_u128(found_scalar(self.try_get_member(key)))
    }

    fn try_get_u128(&self, key: &str) -> Result<Option<u128>, TryTypeError> {
        let found = self.try_get_member(key);
        answer(found, read_u128(found_scalar(found)), ValueType::U64)
    }

    fn get_usize(&self, key: &str) -> Option<usize> {
        read_usize(found_scalar(self.try_get_member(key)))
    }

    fn try_get_usize(&self, key: &str) -> Result<Option<usize>, TryTypeError> {
        let found = self.try_get_member(key);
        answer(found, read_usize(found_scalar(found)), ValueType::U64)
    }

    fn get_str(&self, key: &str) -> Option<&str> {
        read_str(found_scalar(self.try_get_member(key)))
    }

    fn try_get_str(&self, key: &str) -> Result<Option<&str>, TryTypeError> {
        let found = self.try_get_member(key);
        answer(found, read_str(found_scalar(found)), ValueType::String)
    }

    fn get_decimal(&self, key: &str) -> Option<Decimal<'_>> {
        read_decimal(found_scalar(self.try_get_member(key)))
    }

    fn try_get_decimal(&self, key: &str) -> Result<Option<Decimal<'_>>, TryTypeError> {
        let found = self.try_get_member(key);
        answer(found, read_decimal(found_scalar(found)), ValueType::Decimal)
    }
}
