//! Tests of literals.
ghost use Rattle.std.specs.Prelude.{◌≡◌, codes};
ghost use Rattle.sj_parse.specs.Atoms.{ends_word, is_atom};

use crate::bytes::is_separator;

/// Returns `true` if the bytes begin with `true`, before whitespace, an operator or the end. Port of
/// `simd_json::stage2::is_valid_true_atom`.
#[inline]
pub fn is_valid_true_atom(bytes: &[u8]) -> bool
    ensures { result ≡ is_atom (codes "true") bytes.now }
{
    is_atom(b"true", bytes)
}

/// Returns `true` if the bytes begin with `false`, before whitespace, an operator or the end. Port of
/// `simd_json::stage2::is_valid_false_atom`.
#[inline]
pub fn is_valid_false_atom(bytes: &[u8]) -> bool
    ensures { result ≡ is_atom (codes "false") bytes.now }
{
    is_atom(b"false", bytes)
}

/// Returns `true` if the bytes begin with `null`, before whitespace, an operator or the end. Port of
/// `simd_json::stage2::is_valid_null_atom`.
#[inline]
pub fn is_valid_null_atom(bytes: &[u8]) -> bool
    ensures { result ≡ is_atom (codes "null") bytes.now }
{
    is_atom(b"null", bytes)
}

#[inline(always)]
fn is_atom(literal: &[u8], bytes: &[u8]) -> bool
    ensures { result ≡ is_atom literal.now bytes.now }
{
    match bytes.strip_prefix(literal) {
        Some(rest) => ends_word(rest),
        None => false,
    }
}

/// Whether nothing, whitespace or an operator comes first.
#[inline(always)]
pub(crate) fn ends_word(bytes: &[u8]) -> bool
    ensures { result ≡ ends_word bytes.now }
{
    match bytes.first() {
        Some(byte) => is_separator(*byte),
        None => true,
    }
}
