//! Strings, decoded where they stand in the input.
ghost use Rattle.std.specs.Prelude.{◌≡◌, ◌≢◌, ℕ, ◌+◌, ◌<◌, ◌≤◌, ◌^◌, Some, None, length, take, slice_index, MatchResult, IsUtf8};
ghost use Rattle.sj_parse.specs.Escapes.{bad_escape};
ghost use Rattle.sj_parse.specs.inside.Decoded.{decoded};

use crate::characters::write_character;
use crate::descent_fault::Stop;
use crate::escapes::read_escape;
use memchr::memchr;

/// Decodes the body of a string in place and returns its text, which borrows from these bytes. The body begins at
/// `place`, in bytes from the start of the input, and its first `plain` bytes hold no backslash.
///
/// # Errors
///
/// The first bad escape. The bytes before it may be rewritten then.
#[inline(always)]
pub(crate) fn decode<'a>(place: usize, plain: usize, body: &'a mut [u8]) -> Result<&'a str, Stop>
    requires utf8 { IsUtf8 body.old }
    requires within { plain ≤ length body.old }
    requires none { (k : ℕ) → k < plain → slice_index body.old k ≢ 0x5c }
    requires place { place + length body.old < 2 ^ 64 }
    ensures { MatchResult result
        (λ text. (bad_escape place body.entry.now ≡ None) × (text.now ≡ decoded body.entry.now))
        (λ stop. bad_escape place body.entry.now ≡ Some stop) }
{
    if plain == body.len() {
        return Ok(unsafe { std::str::from_utf8_unchecked(body) });
    }
    let len = decode_from(plain, place, body)?;
    let text: &'a [u8] = body;
    Ok(unsafe { std::str::from_utf8_unchecked(&text[..len]) })
}

/// The number of bytes before the first backslash, or of all bytes if there is none.
fn run_len(bytes: &[u8]) -> usize
    ensures within { result ≤ length bytes.now }
    ensures none { (k : ℕ) → k < result → slice_index bytes.now k ≢ 0x5c }
    ensures ends { result < length bytes.now → slice_index bytes.now result ≡ 0x5c }
{
    memchr(b'\\', bytes).unwrap_or(bytes.len())
}

/// Decodes a body whose first backslash is not before `first`, and returns the length of its text.
fn decode_from(first: usize, place: usize, body: &mut [u8]) -> Result<usize, Stop>
    requires within { first ≤ length body.old }
    requires none { (k : ℕ) → k < first → slice_index body.old k ≢ 0x5c }
    requires place { place + length body.old < 2 ^ 64 }
    ensures { MatchResult result
        (λ len. (len ≤ length body.new) × (bad_escape place body.old ≡ None)
        × (take len body.new ≡ decoded body.old))
        (λ stop. bad_escape place body.old ≡ Some stop) }
{
    let mut read = first;
    let mut written = first;
    while read < body.len() {
        if body[read] == b'\\' {
            let escaped = match read_escape(&body[read + 1..]) {
                Ok(escaped) => escaped,
                Err(kind) => {
                    return Err(Stop {
                        kind,
                        place: place + read,
                    });
                }
            };
            written += write_character(escaped.character, &mut body[written..]);
            read += 1 + escaped.len;
        } else {
            let plain = run_len(&body[read..]);
            body.copy_within(read..read + plain, written);
            written += plain;
            read += plain;
        }
    }
    Ok(written)
}
