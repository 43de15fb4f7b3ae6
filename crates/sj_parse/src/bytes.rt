//! Tests of single bytes.
ghost use Rattle.std.specs.Prelude.{◌≡◌, ◌||◌};
ghost use Rattle.std.specs.Char.{is_ascii_digit};
ghost use Rattle.sj_scan.specs.Positions.{is_whitespace, is_operator};

/// Returns `true` if the byte is an ASCII digit. Port of `simd_json::numberparse::is_integer`.
pub fn is_integer(byte: u8) -> bool
    ensures { result ≡ is_ascii_digit byte }
{
    byte.is_ascii_digit()
}

/// Returns `true` if the byte is whitespace or an operator, and so ends a word.
#[inline(always)]
pub(crate) fn is_separator(byte: u8) -> bool
    ensures { result ≡ (is_whitespace byte || is_operator byte) }
{
    matches!(
        byte,
        b' ' | b'\t' | b'\n' | b'\r' | b'{' | b'}' | b'[' | b']' | b':' | b','
    )
}
