//! Stores bytes at a place of a slice, most of them in pieces of a fixed size, each of which is one load and one store.
//!
//! Pieces are also tested for bytes that need an escape. A text of up to 32 bytes is one piece, or two that may overlap. A longer
//! one is pieces of 32 bytes, or one copy where no test is wanted.
ghost use Rattle.std.specs.Prelude.{◌≡◌, ◌+◌, ◌≤◌, ◌<◌, ◌++◌, [], ◌∷◌, length, take, slice_range, IsTrue, flat_map};
ghost use Rattle.std.specs.Int.{from_bool};
ghost use Rattle.sj_base.specs.Layout.{compact_key};
ghost use Rattle.sj_base.specs.Text.{escaped, quoted};
ghost use Rattle.sj_base.specs.inside.Plain.{IsPlain};

use std::simd::Simd;

/// Stores the text between quotes and returns `true`, or returns `false` if a byte of it may need an escape. What is stored
/// then is of no use.
#[inline(always)]
pub(crate) fn place_quoted(buf: &mut [u8], at: usize, text: &[u8]) -> bool
    requires { at + (length text.now + 2) ≤ length buf.old }
    ensures kept { take at buf.new ≡ take at buf.old }
    ensures len { length buf.new ≡ length buf.old }
    ensures quoted { IsTrue result
        → take (at + (length text.now + 2)) buf.new ≡ take at buf.old ++ quoted text.now }
{
    let end = at + 1 + text.len();
    buf[at] = b'"';
    let plain = place_plain(buf, at + 1, text);
    buf[end] = b'"';
    plain
}

/// Stores the key between quotes, with a comma before it if `with_comma` and a colon after it, and returns `true`, or returns
/// `false` if a byte of the key may need an escape. A comma that isn't wanted is overwritten.
#[inline(always)]
pub(crate) fn place_plain_key(buf: &mut [u8], at: usize, with_comma: bool, key: &[u8]) -> bool
    requires { at + (length key.now + 4) ≤ length buf.old }
    ensures kept { take at buf.new ≡ take at buf.old }
    ensures len { length buf.new ≡ length buf.old }
    ensures key { IsTrue result
        → take (at + (from_bool with_comma + (length key.now + 3))) buf.new ≡ take at buf.old ++ compact_key with_comma key.now }
{
    buf[at] = b',';
    let start = at + usize::from(with_comma);
    let plain = place_quoted(buf, start, key);
    buf[start + key.len() + 2] = b':';
    plain
}

/// Stores the text.
#[inline(always)]
pub(crate) fn place_text(buf: &mut [u8], at: usize, text: &[u8])
    requires { at + length text.now ≤ length buf.old }
    ensures front { take (at + length text.now) buf.new ≡ take at buf.old ++ text.now }
    ensures len { length buf.new ≡ length buf.old }
{
    if text.len() > 32 {
        buf[at..at + text.len()].copy_from_slice(text);
    } else {
        // The test isn't used here, and goes away once the call is inlined.
        place_short(buf, at, text);
    }
}

/// Stores the text and returns `true`, or returns `false` if a byte of it may need an escape. What is stored then is of no
/// use.
#[inline(always)]
fn place_plain(buf: &mut [u8], at: usize, text: &[u8]) -> bool
    requires { at + length text.now ≤ length buf.old }
    ensures kept { take at buf.new ≡ take at buf.old }
    ensures len { length buf.new ≡ length buf.old }
    ensures front { IsTrue result → take (at + length text.now) buf.new ≡ take at buf.old ++ text.now }
    ensures plain { IsTrue result → flat_map escaped text.now ≡ text.now }
{
    if text.len() > 32 {
        place_plain_long(buf, at, text)
    } else {
        place_short(buf, at, text)
    }
}

/// Stops at the first block with a byte that may need an escape.
#[tactic(auto, using(crate::proofs::Blocks::plain_whole))]
fn place_plain_long(buf: &mut [u8], at: usize, text: &[u8]) -> bool
    requires long { 32 < length text.now }
    requires room { at + length text.now ≤ length buf.old }
    ensures kept { take at buf.new ≡ take at buf.old }
    ensures len { length buf.new ≡ length buf.old }
    ensures front { IsTrue result → take (at + length text.now) buf.new ≡ take at buf.old ++ text.now }
    ensures plain { IsTrue result → flat_map escaped text.now ≡ text.now }
{
    let last = text.len() - 32;
    let mut done = 0;
    while done < last {
        if !place_block::<32>(buf, at + done, text, done) {
            return false;
        }
        done += 32;
    }
    place_block::<32>(buf, at + last, text, last)
}

/// Stores the text, and returns whether it is known that no byte of it needs an escape.
#[tactic(auto, using(crate::proofs::Blocks::plain_whole))]
#[inline(always)]
fn place_short(buf: &mut [u8], at: usize, text: &[u8]) -> bool
    requires short { length text.now ≤ 32 }
    requires room { at + length text.now ≤ length buf.old }
    ensures front { take (at + length text.now) buf.new ≡ take at buf.old ++ text.now }
    ensures len { length buf.new ≡ length buf.old }
    ensures plain { IsTrue result → flat_map escaped text.now ≡ text.now }
{
    let len = text.len();
    if len >= 16 {
        place_ends::<16>(buf, at, text)
    } else if len >= 8 {
        place_ends::<8>(buf, at, text)
    } else if len >= 4 {
        place_ends::<4>(buf, at, text)
    } else if len >= 2 {
        place_ends::<2>(buf, at, text)
    } else if len == 1 {
        place_block::<1>(buf, at, text, 0)
    } else {
        true
    }
}

/// Stores the first N bytes and the last N, which overlap where the text is shorter than both.
#[inline(always)]
fn place_ends<const N: usize>(buf: &mut [u8], at: usize, text: &[u8]) -> bool
    requires lanes { N ≤ 64 }
    requires covers { (N ≤ length text.now) × (length text.now ≤ N + N) }
    requires room { at + length text.now ≤ length buf.old }
    ensures front { take (at + length text.now) buf.new ≡ take at buf.old ++ text.now }
    ensures len { length buf.new ≡ length buf.old }
    ensures plain { IsTrue result → IsPlain text.now 0 (length text.now) }
{
    let last = text.len() - N;
    let front = place_block::<N>(buf, at, text, 0);
    place_block::<N>(buf, at + last, text, last) & front
}

/// Stores the N bytes from this place of the text on.
#[inline(always)]
fn place_block<const N: usize>(buf: &mut [u8], at: usize, text: &[u8], from: usize) -> bool
    requires lanes { N ≤ 64 }
    requires within { from + N ≤ length text.now }
    requires room { at + N ≤ length buf.old }
    ensures front { take (at + N) buf.new ≡ take at buf.old ++ slice_range text.now from (from + N) }
    ensures len { length buf.new ≡ length buf.old }
    ensures plain { IsTrue result → IsPlain text.now from (from + N) }
{
    let plain = is_plain_block::<N>(text, from);
    Simd::<u8, N>::from_slice(&text[from..]).copy_to_slice(&mut buf[at..]);
    plain
}

/// Returns how many bytes at the front are known to need no escape.
pub(crate) fn plain_len(text: &[u8]) -> usize
    ensures within { result ≤ length text.now }
    ensures plain { IsPlain text.now 0 result }
{
    let mut at = 0;
    while text.len() - at >= 16 && is_plain_block::<16>(text, at) {
        at += 16;
    }
    while at < text.len() && is_plain(text[at]) {
        at += 1;
    }
    at
}

#[inline(always)]
fn is_plain_block<const N: usize>(text: &[u8], at: usize) -> bool
    requires lanes { N ≤ 64 }
    requires within { at + N ≤ length text.now }
    ensures { IsTrue result → IsPlain text.now at (at + N) }
{
    let block = Simd::<u8, N>::from_slice(&text[at..]);
    (block.simd_eq(Simd::splat(b'"'))
        | block.simd_eq(Simd::splat(b'\\'))
        | block.simd_lt(Simd::splat(b' '))).to_bitmask()
        == 0
}

#[inline(always)]
fn is_plain(byte: u8) -> bool
    ensures { IsTrue result → escaped byte ≡ byte ∷ [] }
{
    byte >= b' ' && byte != b'"' && byte != b'\\'
}
