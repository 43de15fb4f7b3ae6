//! Escapes in strings: the character that each stands for.
ghost use Rattle.std.specs.Prelude.{◌≡◌, ◌∷◌, true, Some, Ok, Err, take, drop, MatchResult, SomeIff};
ghost use Rattle.std.specs.Char.{IsScalar};
ghost use Rattle.sj_parse.specs.declared.descent_fault.DescentKind.TheVariants.{InvalidUnicodeCodepoint};
ghost use Rattle.sj_base.specs.Characters.{short_character, hex_value};
ghost use Rattle.sj_parse.specs.Escapes.{escape, unicode_escape, is_high_surrogate, is_low_surrogate, begins_with_low_surrogate};
ghost use Rattle.sj_parse.specs.inside.Decoded.{escaped_character};

use crate::characters::hex_to_u32;
use crate::descent_fault::DescentKind;

/// A character, and the length of its escape after the backslash, in bytes.
#[derive(Clone, Copy)]
pub(crate) struct Escaped {
    pub(crate) character: char,
    pub(crate) len: usize,
}

/// Reads an escape. These bytes begin after its backslash.
pub(crate) fn read_escape(bytes: &[u8]) -> Result<Escaped, DescentKind>
    ensures { MatchResult result
        (λ e. (escape bytes.now ≡ Ok e.len) × (escaped_character bytes.now ≡ e.character))
        (λ kind. escape bytes.now ≡ Err kind) }
{
    let Some((letter, digits)) = bytes.split_first() else {
        // A body that ends with its closing quote has a byte after each backslash.
        return Err(DescentKind::InvalidEscape);
    };
    if *letter == b'u' {
        return read_unicode_escape(digits);
    }
    match short_character(*letter) {
        Some(character) => Ok(Escaped { character, len: 1 }),
        None => Err(DescentKind::InvalidEscape),
    }
}

/// The character of an escape by one letter.
fn short_character(letter: u8) -> Option<char>
    ensures { result ≡ short_character letter }
{
    match letter {
        b'"' => Some('"'),
        b'\\' => Some('\\'),
        b'/' => Some('/'),
        b'b' => Some('\u{8}'),
        b'f' => Some('\u{c}'),
        b'n' => Some('\n'),
        b'r' => Some('\r'),
        b't' => Some('\t'),
        _ => None,
    }
}

/// Reads the rest of an escape by number, or of a pair of them that stands for one character. `digits` begins after the first
/// `\u`.
fn read_unicode_escape(digits: &[u8]) -> Result<Escaped, DescentKind>
    ensures { MatchResult result
        (λ e. (unicode_escape digits.now ≡ Ok e.len)
        × (escaped_character (0x75 ∷ digits.now) ≡ e.character))
        (λ kind. unicode_escape digits.now ≡ Err kind) }
{
    let Some(high) = hex_to_u32(digits) else {
        return Err(DescentKind::InvalidUnicodeEscape);
    };
    if !is_high_surrogate(high) {
        return character_of(high, 5);
    }
    match read_low_surrogate(&digits[4..]) {
        Some(low) => character_of(0x10000 + (high - 0xd800) * 0x400 + (low - 0xdc00), 11),
        None => Err(DescentKind::InvalidUnicodeCodepoint),
    }
}

fn read_low_surrogate(bytes: &[u8]) -> Option<u32>
    ensures { SomeIff result
        (begins_with_low_surrogate bytes.now ≡ true)
        (hex_value (take 4 (drop 2 bytes.now))) }
{
    let low = hex_to_u32(bytes.strip_prefix(b"\\u")?)?;
    is_low_surrogate(low).then_some(low)
}

fn is_high_surrogate(unit: u32) -> bool
    ensures { result ≡ is_high_surrogate unit }
{
    matches!(unit, 0xd800..=0xdbff)
}

fn is_low_surrogate(unit: u32) -> bool
    ensures { result ≡ is_low_surrogate unit }
{
    matches!(unit, 0xdc00..=0xdfff)
}

/// The character with this number, whose escape has `len` bytes after the backslash. A surrogate by itself is no character.
fn character_of(number: u32, len: usize) -> Result<Escaped, DescentKind>
    ensures { MatchResult result
        (λ e. IsScalar number × (e.len ≡ len) × (e.character ≡ number))
        (λ kind. (IsScalar number → ⊥) × (kind ≡ InvalidUnicodeCodepoint)) }
{
    match char::from_u32(number) {
        Some(character) => Ok(Escaped { character, len }),
        None => Err(DescentKind::InvalidUnicodeCodepoint),
    }
}
