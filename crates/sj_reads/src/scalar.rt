//! Typed reads of a value.
ghost use Rattle.std.specs.Prelude.{◌≡◌, Option, Some, IfSome, is_some, ok_or, option_map};
ghost use Rattle.sj_base.specs.Tree.{Tree};
ghost use Rattle.sj_base.specs.Scalar.{decimal_text, scalar_tree, scalar_type, static_tree, static_type};
ghost use Rattle.sj_base.specs.declared.static_node.ValueType.{ValueType};
ghost use Rattle.sj_reads.specs.Reads.{null_read, bool_read, signed_read, unsigned_read, str_read, decimal_read, mismatch};
ghost use Rattle.sj_reads.specs.Views.{ok_text, ok_literal};

use crate::read::*;
use sj_base::{Decimal, Scalar, StaticNode, TryTypeError, ValueType};

/// A value that has a [`ValueType`]. Port of `value_trait::TypedValue`.
pub trait TypedValue {
    // What `value_type` answers.
    ghost kind: { Self → ValueType };

    /// Returns the type of the value. That of an integer tells its carrier, `I64` or `U64`.
    fn value_type(&self) -> ValueType
        ensures { result ≡ kind self.now };
}

/// A type whose values may be scalars. A type that implements it has the reads of [`ValueAsScalar`]. The trait
/// isn't in `value_trait`.
pub trait HasScalar: TypedValue {
    // The tree of the value, where it is a scalar.
    ghost scalar: { Self → Option Tree };

    /// Returns the value as a scalar, or `None` if it is an array or an object.
    fn scalar(&self) -> Option<Scalar<'_>>
        ensures tree { option_map scalar_tree result ≡ scalar self.now }
        ensures kind { IfSome result (λ s. scalar_type s ≡ Self.kind self.now) };
}

/// Reads of a value as one type. Port of `value_trait::ValueAsScalar`.
///
/// Every type that implements [`HasScalar`] has them; implement that trait and not this one. A read gives the value if it
/// is of that type. An integer from -2^63 to 2^64 - 1 can be read as every type that it fits, whichever carrier holds it; one
/// out of that range is a decimal literal.
pub trait ValueAsScalar: TypedValue {
    // The tree of the value, where it is a scalar.
    ghost scalar: { Self → Option Tree };

    /// Returns the value as a scalar, or `None` if it is an array or an object: [`HasScalar::scalar`].
    fn as_scalar(&self) -> Option<Scalar<'_>>
        ensures tree { option_map scalar_tree result ≡ scalar self.now }
        ensures kind { IfSome result (λ s. scalar_type s ≡ Self.kind self.now) };

    /// Returns `Some(())` if the value is null, or `None` if it isn't.
    fn as_null(&self) -> Option<()>
        ensures { result ≡ null_read (scalar self.now) };

    /// Returns `true` if the value is null.
    fn is_null(&self) -> bool
        ensures { result ≡ is_some (null_read (scalar self.now)) };

    /// Returns `Ok(())` if the value is null.
    ///
    /// # Errors
    ///
    /// `TryTypeError` if the value isn't null. The expected type is `Null`.
    fn try_as_null(&self) -> Result<(), TryTypeError>
        ensures { result ≡ ok_or (null_read (scalar self.now))
            (mismatch ValueType.Null (Self.kind self.now)) };

    /// Returns the boolean, or `None` if the value isn't one.
    fn as_bool(&self) -> Option<bool>
        ensures { result ≡ bool_read (scalar self.now) };

    /// Returns `true` if the value is a boolean.
    fn is_bool(&self) -> bool
        ensures { result ≡ is_some (bool_read (scalar self.now)) };

    /// Returns the boolean.
    ///
    /// # Errors
    ///
    /// `TryTypeError` if the value isn't a boolean. The expected type is `Bool`.
    fn try_as_bool(&self) -> Result<bool, TryTypeError>
        ensures { result ≡ ok_or (bool_read (scalar self.now))
            (mismatch ValueType.Bool (Self.kind self.now)) };

    /// Returns the value as an `i8`, or `None` if it isn't an integer that fits.
    fn as_i8(&self) -> Option<i8>
        ensures { result ≡ signed_read 7 (scalar self.now) };

    /// Returns `true` if the value is an integer that fits an `i8`.
    fn is_i8(&self) -> bool
        ensures { result ≡ is_some (signed_read 7 (scalar self.now)) };

    /// Returns the value as an `i8`.
    ///
    /// # Errors
    ///
    /// `TryTypeError` if the value isn't an integer that fits an `i8`. The expected type is `I64`.
    fn try_as_i8(&self) -> Result<i8, TryTypeError>
        ensures { result ≡ ok_or (signed_read 7 (scalar self.now))
            (mismatch ValueType.I64 (Self.kind self.now)) };

    /// Returns the value as an `i16`, or `None` if it isn't an integer that fits.
    fn as_i16(&self) -> Option<i16>
        ensures { result ≡ signed_read 15 (scalar self.now) };

    /// Returns `true` if the value is an integer that fits an `i16`.
    fn is_i16(&self) -> bool
        ensures { result ≡ is_some (signed_read 15 (scalar self.now)) };

    /// Returns the value as an `i16`.
    ///
    /// # Errors
    ///
    /// `TryTypeError` if the value isn't an integer that fits an `i16`. The expected type is `I64`.
    fn try_as_i16(&self) -> Result<i16, TryTypeError>
        ensures { result ≡ ok_or (signed_read 15 (scalar self.now))
            (mismatch ValueType.I64 (Self.kind self.now)) };

    /// Returns the value as an `i32`, or `None` if it isn't an integer that fits.
    fn as_i32(&self) -> Option<i32>
        ensures { result ≡ signed_read 31 (scalar self.now) };

    /// Returns `true` if the value is an integer that fits an `i32`.
    fn is_i32(&self) -> bool
        ensures { result ≡ is_some (signed_read 31 (scalar self.now)) };

    /// Returns the value as an `i32`.
    ///
    /// # Errors
    ///
    /// `TryTypeError` if the value isn't an integer that fits an `i32`. The expected type is `I64`.
    fn try_as_i32(&self) -> Result<i32, TryTypeError>
        ensures { result ≡ ok_or (signed_read 31 (scalar self.now))
            (mismatch ValueType.I64 (Self.kind self.now)) };

    /// Returns the value as an `i64`, or `None` if it isn't an integer that fits.
    fn as_i64(&self) -> Option<i64>
        ensures { result ≡ signed_read 63 (scalar self.now) };

    /// Returns `true` if the value is an integer that fits an `i64`.
    fn is_i64(&self) -> bool
        ensures { result ≡ is_some (signed_read 63 (scalar self.now)) };

    /// Returns the value as an `i64`.
    ///
    /// # Errors
    ///
    /// `TryTypeError` if the value isn't an integer that fits an `i64`. The expected type is `I64`.
    fn try_as_i64(&self) -> Result<i64, TryTypeError>
        ensures { result ≡ ok_or (signed_read 63 (scalar self.now))
            (mismatch ValueType.I64 (Self.kind self.now)) };

    /// Returns the value as an `i128`, or `None` if it isn't an integer that fits.
    fn as_i128(&self) -> Option<i128>
        ensures { result ≡ signed_read 127 (scalar self.now) };

    /// Returns `true` if the value is an integer that fits an `i128`.
    fn is_i128(&self) -> bool
        ensures { result ≡ is_some (signed_read 127 (scalar self.now)) };

    /// Returns the value as an `i128`.
    ///
    /// # Errors
    ///
    /// `TryTypeError` if the value isn't an integer that fits an `i128`. The expected type is `I64`.
    fn try_as_i128(&self) -> Result<i128, TryTypeError>
        ensures { result ≡ ok_or (signed_read 127 (scalar self.now))
            (mismatch ValueType.I64 (Self.kind self.now)) };

    /// Returns the value as a `u8`, or `None` if it isn't an integer that fits.
    fn as_u8(&self) -> Option<u8>
        ensures { result ≡ unsigned_read 8 (scalar self.now) };

    /// Returns `true` if the value is an integer that fits a `u8`.
    fn is_u8(&self) -> bool
        ensures { result ≡ is_some (unsigned_read 8 (scalar self.now)) };

    /// Returns the value as a `u8`.
    ///
    /// # Errors
    ///
    /// `TryTypeError` if the value isn't an integer that fits a `u8`. The expected type is `U64`.
    fn try_as_u8(&self) -> Result<u8, TryTypeError>
        ensures { result ≡ ok_or (unsigned_read 8 (scalar self.now))
            (mismatch ValueType.U64 (Self.kind self.now)) };

    /// Returns the value as a `u16`, or `None` if it isn't an integer that fits.
    fn as_u16(&self) -> Option<u16>
        ensures { result ≡ unsigned_read 16 (scalar self.now) };

    /// Returns `true` if the value is an integer that fits a `u16`.
    fn is_u16(&self) -> bool
        ensures { result ≡ is_some (unsigned_read 16 (scalar self.now)) };

    /// Returns the value as a `u16`.
    ///
    /// # Errors
    ///
    /// `TryTypeError` if the value isn't an integer that fits a `u16`. The expected type is `U64`.
    fn try_as_u16(&self) -> Result<u16, TryTypeError>
        ensures { result ≡ ok_or (unsigned_read 16 (scalar self.now))
            (mismatch ValueType.U64 (Self.kind self.now)) };

    /// Returns the value as a `u32`, or `None` if it isn't an integer that fits.
    fn as_u32(&self) -> Option<u32>
        ensures { result ≡ unsigned_read 32 (scalar self.now) };

    /// Returns `true` if the value is an integer that fits a `u32`.
    fn is_u32(&self) -> bool
        ensures { result ≡ is_some (unsigned_read 32 (scalar self.now)) };

    /// Returns the value as a `u32`.
    ///
    /// # Errors
    ///
    /// `TryTypeError` if the value isn't an integer that fits a `u32`. The expected type is `U64`.
    fn try_as_u32(&self) -> Result<u32, TryTypeError>
        ensures { result ≡ ok_or (unsigned_read 32 (scalar self.now))
            (mismatch ValueType.U64 (Self.kind self.now)) };

    /// Returns the value as a `u64`, or `None` if it isn't an integer that fits.
    fn as_u64(&self) -> Option<u64>
        ensures { result ≡ unsigned_read 64 (scalar self.now) };

    /// Returns `true` if the value is an integer that fits a `u64`.
    fn is_u64(&self) -> bool
        ensures { result ≡ is_some (unsigned_read 64 (scalar self.now)) };

    /// Returns the value as a `u64`.
    ///
    /// # Errors
    ///
    /// `TryTypeError` if the value isn't an integer that fits a `u64`. The expected type is `U64`.
    fn try_as_u64(&self) -> Result<u64, TryTypeError>
        ensures { result ≡ ok_or (unsigned_read 64 (scalar self.now))
            (mismatch ValueType.U64 (Self.kind self.now)) };

    /// Returns the value as a `u128`, or `None` if it isn't an integer that fits.
    fn as_u128(&self) -> Option<u128>
        ensures { result ≡ unsigned_read 128 (scalar self.now) };

    /// Returns `true` if the value is an integer that fits a `u128`.
    fn is_u128(&self) -> bool
        ensures { result ≡ is_some (unsigned_read 128 (scalar self.now)) };

    /// Returns the value as a `u128`.
    ///
    /// # Errors
    ///
    /// `TryTypeError` if the value isn't an integer that fits a `u128`. The expected type is `U64`.
    fn try_as_u128(&self) -> Result<u128, TryTypeError>
        ensures { result ≡ ok_or (unsigned_read 128 (scalar self.now))
            (mismatch ValueType.U64 (Self.kind self.now)) };

    /// Returns the value as a `usize`, or `None` if it isn't an integer that fits.
    fn as_usize(&self) -> Option<usize>
        ensures { result ≡ unsigned_read 64 (scalar self.now) };

    /// Returns `true` if the value is an integer that fits a `usize`.
    fn is_usize(&self) -> bool
        ensures { result ≡ is_some (unsigned_read 64 (scalar self.now)) };

    /// Returns the value as a `usize`.
    ///
    /// # Errors
    ///
    /// `TryTypeError` if the value isn't an integer that fits a `usize`. The expected type is `U64`.
    fn try_as_usize(&self) -> Result<usize, TryTypeError>
        ensures { result ≡ ok_or (unsigned_read 64 (scalar self.now))
            (mismatch ValueType.U64 (Self.kind self.now)) };

    /// Returns the string, or `None` if the value isn't one.
    fn as_str(&self) -> Option<&str>
        ensures { option_map (λ s. s.now) result ≡ str_read (scalar self.now) };

    /// Returns `true` if the value is a string.
    fn is_str(&self) -> bool
        ensures { result ≡ is_some (str_read (scalar self.now)) };

    /// Returns the string.
    ///
    /// # Errors
    ///
    /// `TryTypeError` if the value isn't a string. The expected type is `String`.
    fn try_as_str(&self) -> Result<&str, TryTypeError>
        ensures { ok_text result ≡ ok_or (str_read (scalar self.now))
            (mismatch ValueType.String (Self.kind self.now)) };

    /// Returns the decimal literal, or `None` if the value isn't one.
    fn as_decimal(&self) -> Option<Decimal<'_>>
        ensures { option_map decimal_text result ≡ decimal_read (scalar self.now) };

    /// Returns `true` if the value is a decimal literal.
    fn is_decimal(&self) -> bool
        ensures { result ≡ is_some (decimal_read (scalar self.now)) };

    /// Returns the decimal literal.
    ///
    /// # Errors
    ///
    /// `TryTypeError` if the value isn't a decimal literal. The expected type is `Decimal`.
    fn try_as_decimal(&self) -> Result<Decimal<'_>, TryTypeError>
        ensures { ok_literal result ≡ ok_or (decimal_read (scalar self.now))
            (mismatch ValueType.Decimal (Self.kind self.now)) };
}

impl TypedValue for StaticNode {
    ghost kind = { static_type };

    fn value_type(&self) -> ValueType {
        StaticNode::value_type(self)
    }
}

impl HasScalar for StaticNode {
    ghost scalar = { λ node. Some (static_tree node) };

    fn scalar(&self) -> Option<Scalar<'_>> {
        Some(Scalar::Static(*self))
    }
}

impl<T: HasScalar> ValueAsScalar for T {
    ghost scalar = { T.scalar };

    #[inline(always)]
    fn as_scalar(&self) -> Option<Scalar<'_>> {
        self.scalar()
    }

    fn as_null(&self) -> Option<()> {
        read_null(self.as_scalar())
    }

    fn is_null(&self) -> bool {
        self.as_null().is_some()
    }

    fn try_as_null(&self) -> Result<(), TryTypeError> {
        or_mismatch(self.as_null(), ValueType::Null, self.value_type())
    }

    fn as_bool(&self) -> Option<bool> {
        read_bool(self.as_scalar())
    }

    fn is_bool(&self) -> bool {
        self.as_bool().is_some()
    }

    fn try_as_bool(&self) -> Result<bool, TryTypeError> {
        or_mismatch(self.as_bool(), ValueType::Bool, self.value_type())
    }

    fn as_i8(&self) -> Option<i8> {
        read_i8(self.as_scalar())
    }

    fn is_i8(&self) -> bool {
        self.as_i8().is_some()
    }

    fn try_as_i8(&self) -> Result<i8, TryTypeError> {
        or_mismatch(self.as_i8(), ValueType::I64, self.value_type())
    }

    fn as_i16(&self) -> Option<i16> {
        read_i16(self.as_scalar())
    }

    fn is_i16(&self) -> bool {
        self.as_i16().is_some()
    }

    fn try_as_i16(&self) -> Result<i16, TryTypeError> {
        or_mismatch(self.as_i16(), ValueType::I64, self.value_type())
    }

    fn as_i32(&self) -> Option<i32> {
        read_i32(self.as_scalar())
    }

    fn is_i32(&self) -> bool {
        self.as_i32().is_some()
    }

    fn try_as_i32(&self) -> Result<i32, TryTypeError> {
        or_mismatch(self.as_i32(), ValueType::I64, self.value_type())
    }

    fn as_i64(&self) -> Option<i64> {
        read_i64(self.as_scalar())
    }

    fn is_i64(&self) -> bool {
        self.as_i64().is_some()
    }

    fn try_as_i64(&self) -> Result<i64, TryTypeError> {
        or_mismatch(self.as_i64(), ValueType::I64, self.value_type())
    }

    fn as_i128(&self) -> Option<i128> {
        read_i128(self.as_scalar())
    }

    fn is_i128(&self) -> bool {
        self.as_i128().is_some()
    }

    fn try_as_i128(&self) -> Result<i128, TryTypeError> {
        or_mismatch(self.as_i128(), ValueType::I64, self.value_type())
    }

    fn as_u8(&self) -> Option<u8> {
        read_u8(self.as_scalar())
    }

    fn is_u8(&self) -> bool {
        self.as_u8().is_some()
    }

    fn try_as_u8(&self) -> Result<u8, TryTypeError> {
        or_mismatch(self.as_u8(), ValueType::U64, self.value_type())
    }

    fn as_u16(&self) -> Option<u16> {
        read_u16(self.as_scalar())
    }

    fn is_u16(&self) -> bool {
        self.as_u16().is_some()
    }

    fn try_as_u16(&self) -> Result<u16, TryTypeError> {
        or_mismatch(self.as_u16(), ValueType::U64, self.value_type())
    }

    fn as_u32(&self) -> Option<u32> {
        read_u32(self.as_scalar())
    }

    fn is_u32(&self) -> bool {
        self.as_u32().is_some()
    }

    fn try_as_u32(&self) -> Result<u32, TryTypeError> {
        or_mismatch(self.as_u32(), ValueType::U64, self.value_type())
    }

    fn as_u64(&self) -> Option<u64> {
        read_u64(self.as_scalar())
    }

    fn is_u64(&self) -> bool {
        self.as_u64().is_some()
    }

    fn try_as_u64(&self) -> Result<u64, TryTypeError> {
        or_mismatch(self.as_u64(), ValueType::U64, self.value_type())
    }

    fn as_u128(&self) -> Option<u128> {
        read_u128(self.as_scalar())
    }

    fn is_u128(&self) -> bool {
        self.as_u128().is_some()
    }

    fn try_as_u128(&self) -> Result<u128, TryTypeError> {
        or_mismatch(self.as_u128(), ValueType::U64, self.value_type())
    }

    fn as_usize(&self) -> Option<usize> {
        read_usize(self.as_scalar())
    }

    fn is_usize(&self) -> bool {
        self.as_usize().is_some()
    }

    fn try_as_usize(&self) -> Result<usize, TryTypeError> {
        or_mismatch(self.as_usize(), ValueType::U64, self.value_type())
    }

    fn as_str(&self) -> Option<&str> {
        read_str(self.as_scalar())
    }

    fn is_str(&self) -> bool {
        self.as_str().is_some()
    }

    fn try_as_str(&self) -> Result<&str, TryTypeError> {
        or_mismatch(self.as_str(), ValueType::String, self.value_type())
    }

    fn as_decimal(&self) -> Option<Decimal<'_>> {
        read_decimal(self.as_scalar())
    }

    fn is_decimal(&self) -> bool {
        self.as_decimal().is_some()
    }

    fn try_as_decimal(&self) -> Result<Decimal<'_>, TryTypeError> {
        or_mismatch(self.as_decimal(), ValueType::Decimal, self.value_type())
    }
}
