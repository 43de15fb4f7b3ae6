//! Characters by their numbers: hexadecimal digits and UTF-8.
ghost use Rattle.std.specs.Prelude.{◌≡◌, ◌≤◌, ◌++◌, length, take, drop, SomeIff, encode_utf8};
ghost use Rattle.std.specs.Char.{IsScalar, len_utf8};
ghost use Rattle.sj_base.specs.Characters.{IsHex, hex_value};

/// Returns the number that the first four bytes spell as hexadecimal digits of either case, or `None` if they spell
/// none. Bytes after them are ignored. Port of `simd_json::charutils::hex_to_u32_nocheck`.
pub fn hex_to_u32(bytes: &[u8]) -> Option<u32>
    ensures { SomeIff result (IsHex (take 4 bytes.now)) (hex_value (take 4 bytes.now)) }
{
    if bytes.len() < 4 {
        return None;
    }
    let digits = &bytes[..4];
    let mut number = 0;
    for digit in digits {
        number = number * 16 + char::from(*digit).to_digit(16)?;
    }
    Some(number)
}

/// Writes a character's UTF-8 to the front of `out`, which has at least 4 bytes, and returns its length in bytes. For a
/// surrogate and past U+10FFFF it returns 0 and writes nothing. Port of `simd_json::charutils::codepoint_to_utf8`.
pub fn codepoint_to_utf8(cp: u32, out: &mut [u8]) -> usize
    requires { 4 ≤ length out.old }
    ensures character { IsScalar cp → (result ≡ len_utf8 cp)
        × (out.new ≡ encode_utf8 cp ++ drop (len_utf8 cp) out.old) }
    ensures none { (IsScalar cp → ⊥) → (result ≡ 0) × (out.new ≡ out.old) }
{
    match char::from_u32(cp) {
        Some(character) => write_character(character, out),
        None => 0,
    }
}

/// Writes a character's UTF-8 to the front of `out` and returns its length in bytes.
pub(crate) fn write_character(character: char, out: &mut [u8]) -> usize
    requires { len_utf8 character ≤ length out.old }
    ensures len { result ≡ len_utf8 character }
    ensures written { out.new ≡ encode_utf8 character ++ drop (len_utf8 character) out.old }
{
    // Most escapes stand for an ASCII character.
    if character.is_ascii() {
        out[0] = character as u8;
        return 1;
    }
    let mut bytes = [0; 4];
    let text = character.encode_utf8(&mut bytes);
    out[..text.len()].copy_from_slice(text.as_bytes());
    text.len()
}
