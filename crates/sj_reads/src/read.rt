//! Reads of a scalar as one type, which the traits' reads share.
ghost use Rattle.std.specs.Prelude.{◌≡◌, ok_or, option_map};
ghost use Rattle.sj_base.specs.Scalar.{decimal_text, scalar_tree};
ghost use Rattle.sj_reads.specs.Reads.{null_read, bool_read, signed_read, unsigned_read, str_read, decimal_read, mismatch};

use sj_base::{Decimal, Scalar, StaticNode, TryTypeError, ValueType};

/// The value that a read found, or an error that names the type asked for and the type met.
pub(crate) fn or_mismatch<T>(
    found: Option<T>,
    expected: ValueType,
    got: ValueType,
) -> Result<T, TryTypeError>
    ensures { result ≡ ok_or found (mismatch expected got) }
{
    found.ok_or(TryTypeError { expected, got })
}

pub(crate) fn read_null(scalar: Option<Scalar<'_>>) -> Option<()>
    ensures { result ≡ null_read (option_map scalar_tree scalar.entry) }
{
    match scalar? {
        Scalar::Static(StaticNode::Null) => Some(()),
        _ => None,
    }
}

pub(crate) fn read_bool(scalar: Option<Scalar<'_>>) -> Option<bool>
    ensures { result ≡ bool_read (option_map scalar_tree scalar.entry) }
{
    match scalar? {
        Scalar::Static(StaticNode::Bool(b)) => Some(b),
        _ => None,
    }
}

pub(crate) fn read_i8(scalar: Option<Scalar<'_>>) -> Option<i8>
    ensures { result ≡ signed_read 7 (option_map scalar_tree scalar.entry) }
{
    i8::try_from(read_i64(scalar)?).ok()
}

pub(crate) fn read_i16(scalar: Option<Scalar<'_>>) -> Option<i16>
    ensures { result ≡ signed_read 15 (option_map scalar_tree scalar.entry) }
{
    i16::try_from(read_i64(scalar)?).ok()
}

pub(crate) fn read_i32(scalar: Option<Scalar<'_>>) -> Option<i32>
    ensures { result ≡ signed_read 31 (option_map scalar_tree scalar.entry) }
{
    i32::try_from(read_i64(scalar)?).ok()
}

pub(crate) fn read_i64(scalar: Option<Scalar<'_>>) -> Option<i64>
    ensures { result ≡ signed_read 63 (option_map scalar_tree scalar.entry) }
{
    match scalar? {
        Scalar::Static(StaticNode::I64(n)) => Some(n),
        Scalar::Static(StaticNode::U64(n)) => i64::try_from(n).ok(),
        _ => None,
    }
}

pub(crate) fn read_i128(scalar: Option<Scalar<'_>>) -> Option<i128>
    ensures { result ≡ signed_read 127 (option_map scalar_tree scalar.entry) }
{
    match scalar? {
        Scalar::Static(StaticNode::I64(n)) => Some(i128::from(n)),
        Scalar::Static(StaticNode::U64(n)) => Some(i128::from(n)),
        _ => None,
    }
}

pub(crate) fn read_u8(scalar: Option<Scalar<'_>>) -> Option<u8>
    ensures { result ≡ unsigned_read 8 (option_map scalar_tree scalar.entry) }
{
    u8::try_from(read_u64(scalar)?).ok()
}

pub(crate) fn read_u16(scalar: Option<Scalar<'_>>) -> Option<u16>
    ensures { result ≡ unsigned_read 16 (option_map scalar_tree scalar.entry) }
{
    u16::try_from(read_u64(scalar)?).ok()
}

pub(crate) fn read_u32(scalar: Option<Scalar<'_>>) -> Option<u32>
    ensures { result ≡ unsigned_read 32 (option_map scalar_tree scalar.entry) }
{
    u32::try_from(read_u64(scalar)?).ok()
}

pub(crate) fn read_u64(scalar: Option<Scalar<'_>>) -> Option<u64>
    ensures { result ≡ unsigned_read 64 (option_map scalar_tree scalar.entry) }
{
    match scalar? {
        Scalar::Static(StaticNode::I64(n)) => u64::try_from(n).ok(),
        Scalar::Static(StaticNode::U64(n)) => Some(n),
        _ => None,
    }
}

pub(crate) fn read_u128(scalar: Option<Scalar<'_>>) -> Option<u128>
    ensures { result ≡ unsigned_read 128 (option_map scalar_tree scalar.entry) }
{
    Some(u128::from(read_u64(scalar)?))
}

pub(crate) fn read_usize(scalar: Option<Scalar<'_>>) -> Option<usize>
    ensures { result ≡ unsigned_read 64 (option_map scalar_tree scalar.entry) }
{
    usize::try_from(read_u64(scalar)?).ok()
}

pub(crate) fn read_str(scalar: Option<Scalar<'_>>) -> Option<&str>
    ensures { option_map (λ s. s.now) result ≡ str_read (option_map scalar_tree scalar.entry) }
{
    match scalar? {
        Scalar::Text(text) => Some(text),
        _ => None,
    }
}

pub(crate) fn read_decimal(scalar: Option<Scalar<'_>>) -> Option<Decimal<'_>>
    ensures { option_map decimal_text result ≡ decimal_read (option_map scalar_tree scalar.entry) }
{
    match scalar? {
        Scalar::Literal(literal) => Some(literal),
        _ => None,
    }
}
