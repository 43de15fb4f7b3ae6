//! Strings and numbers, read where they stand in the input.
ghost use Rattle.std.specs.Prelude.{◌≡◌, ◌≢◌, ℕ, ◌+◌, ◌<◌, ◌≤◌, ◌^◌, true, false, None, Some, MatchResult, IfErr, IfOk, length, take, drop, slice_index, IsUtf8};
ghost use Rattle.sj_base.specs.NumberTests.{is_number};
ghost use Rattle.sj_parse.specs.Token.{word};
ghost use Rattle.sj_parse.specs.Escapes.{bad_escape, stop};
ghost use Rattle.sj_parse.specs.inside.NumberNode.{HasShape};
ghost use Rattle.sj_parse.specs.inside.Trees.{decoded};
ghost use Rattle.sj_parse.specs.inside.Step.{string_body, StopsAt};

use crate::descent_fault::{DescentKind, Stop};
use crate::numbers::{Shape, find_number};
use crate::search::plain_len;
use crate::strings::decode;

/// The length of the string body that the bytes begin with: the number of bytes before its closing quote, or of all bytes if there
/// is none. Called for bodies with a backslash alone, which are few.
#[cold]
#[inline(never)]
fn body_len(bytes: &[u8]) -> usize
    ensures within { result ≤ length bytes.now }
    ensures body { take result bytes.now ≡ string_body bytes.now }
{
    let mut len = 0;
    while len < bytes.len() {
        len += plain_len(&bytes[len..]);
        if len == bytes.len() || bytes[len] == b'"' {
            return len;
        }
        // A backslash goes with the byte after it.
        if bytes.len() - len < 2 {
            return bytes.len();
        }
        len += 2;
    }
    len
}

/// The length of the string body that the bytes begin with, and that of a front of it without a backslash. Both are equal if the
/// body has none.
#[inline(always)]
fn find_body(bytes: &[u8]) -> (usize, usize)
    ensures body { take result.0 bytes.now ≡ string_body bytes.now }
    ensures within { (result.1 ≤ result.0) × (result.0 ≤ length bytes.now) }
    ensures plain { (k : ℕ) → k < result.1 → slice_index bytes.now k ≢ 0x5c }
{
    let plain = plain_len(bytes);
    // Most bodies have no backslash.
    if plain < bytes.len() && bytes[plain] == b'"' {
        return (plain, plain);
    }
    (plain + body_len(&bytes[plain..]), plain)
}

/// The text of the string whose opening quote stands at `skip`, and the bytes from `cut` on. `cut` lies behind the string, and
/// `place` is the place of the quote in the whole text.
#[inline(always)]
pub(crate) fn split_string<'i>(
    place: usize,
    skip: usize,
    cut: usize,
    rest: &'i mut [u8],
) -> Result<(&'i str, &'i mut [u8]), Stop>
    requires within { skip < length rest.old }
    requires body { IsUtf8 (string_body (drop (skip + 1) rest.old)) }
    requires fits { place + length rest.old < 2 ^ 64 }
    requires cut { (skip + 1 + length (string_body (drop (skip + 1) rest.old)) ≤ cut) × (cut ≤ length rest.old) }
    ensures text { MatchResult result
        (λ p. (bad_escape (place + 1) (string_body (drop (skip + 1) rest.entry.now)) ≡ None) × (p.0.now ≡ decoded (string_body (drop (skip + 1) rest.entry.now))))
        (λ s. bad_escape (place + 1) (string_body (drop (skip + 1) rest.entry.now)) ≡ Some s) }
    ensures stops { IfErr result (StopsAt place skip rest.entry.now) }
    ensures rest { IfOk result (λ p. p.1.now ≡ drop cut rest.entry.now) }
{
    let (len, plain) = find_body(&rest[skip + 1..]);
    let (token, behind) = rest.split_at_mut(cut);
    let (_, from_body) = token.split_at_mut(skip + 1);
    let (body, _) = from_body.split_at_mut(len);
    let text = decode(place + 1, plain, body)?;
    Ok((text, behind))
}

/// The number that begins at `skip`, its shape, and the bytes from `cut` on. `cut` lies behind the number, and `place` is the
/// place of its first byte in the whole text.
#[inline(always)]
pub(crate) fn split_number<'i>(
    place: usize,
    skip: usize,
    cut: usize,
    rest: &'i mut [u8],
) -> Result<(&'i [u8], Shape, &'i mut [u8]), Stop>
    requires within { skip ≤ length rest.old }
    requires cut { (is_number (word (drop skip rest.old)) ≡ true → skip + length (word (drop skip rest.old)) ≤ cut) × (cut ≤ length rest.old) }
    ensures word { IfOk result (λ p. p.0.now ≡ word (drop skip rest.entry.now)) }
    ensures shape { IfOk result (λ p. HasShape (word (drop skip rest.entry.now)) p.1) }
    ensures rest { IfOk result (λ p. p.2.now ≡ drop cut rest.entry.now) }
    ensures fault { IfErr result (λ s. (is_number (word (drop skip rest.entry.now)) ≡ false) × (s ≡ stop DescentKind.InvalidNumber place)) }
{
    let Some((len, shape)) = find_number(&rest[skip..]) else {
        return Err(Stop {
            kind: DescentKind::InvalidNumber,
            place,
        });
    };
    let (token, behind) = rest.split_at_mut(cut);
    let (_, from_word) = token.split_at_mut(skip);
    let (word, _) = from_word.split_at_mut(len);
    Ok((word, shape, behind))
}
