//! Searches for the ends of strings, of runs of digits and of words. For strings and digits the first 32 bytes are searched at
//! once, if there are as many, and the rest by `memchr` or byte by byte; for words all is searched byte by byte.
ghost use Rattle.std.specs.Prelude.{◌≡◌, ◌==◌, ◌||◌, true, nat_lt, ℕ, ◌<◌, ◌≤◌, length, take, slice_index};
ghost use Rattle.sj_base.specs.NumberTests.{front_digits};
ghost use Rattle.sj_parse.specs.Token.{word};
ghost use Rattle.sj_parse.specs.inside.Step.{IsPlain};
ghost use Rattle.sj_parse.specs.inside.Blocks.{Places};

use crate::bytes::is_separator;
use memchr::memchr2;
use std::simd::prelude::*;

const BLOCK: usize = 32;

/// The number of bytes before the first quote or backslash, or of all bytes if there is none.
#[inline(always)]
pub(crate) fn plain_len(bytes: &[u8]) -> usize
    ensures within { result ≤ length bytes.now }
    ensures plain { (k : ℕ) → k < result → IsPlain (slice_index bytes.now k) }
    ensures ends { result < length bytes.now → (slice_index bytes.now result == 0x22 || slice_index bytes.now result == 0x5c) ≡ true }
{
    // Most strings end in their first block.
    if bytes.len() >= BLOCK {
        let block = u8x32::from_slice(bytes);
        let ends = equal_to(block, b'"') | equal_to(block, b'\\');
        if ends != 0 {
            return ends.trailing_zeros() as usize;
        }
        return BLOCK + scan_plain(&bytes[BLOCK..]);
    }
    scan_plain(bytes)
}

/// The number of digits that the bytes begin with.
#[inline(always)]
pub(crate) fn digits_len(bytes: &[u8]) -> usize
    ensures within { result ≤ length bytes.now }
    ensures digits { take result bytes.now ≡ front_digits bytes.now }
{
    // Most numbers end in their first block.
    if bytes.len() >= BLOCK {
        let block = u8x32::from_slice(bytes);
        let others = below(block, b'0') | above(block, b'9');
        if others != 0 {
            return others.trailing_zeros() as usize;
        }
        return BLOCK + count_digits(&bytes[BLOCK..]);
    }
    count_digits(bytes)
}

/// As [`plain_len`], by `memchr`.
fn scan_plain(bytes: &[u8]) -> usize
    ensures within { result ≤ length bytes.now }
    ensures plain { (k : ℕ) → k < result → IsPlain (slice_index bytes.now k) }
    ensures ends { result < length bytes.now → (slice_index bytes.now result == 0x22 || slice_index bytes.now result == 0x5c) ≡ true }
{
    memchr2(b'"', b'\\', bytes).unwrap_or(bytes.len())
}

/// As [`digits_len`], byte by byte.
fn count_digits(bytes: &[u8]) -> usize
    ensures within { result ≤ length bytes.now }
    ensures digits { take result bytes.now ≡ front_digits bytes.now }
{
    for (place, byte) in bytes.iter().enumerate() {
        if !byte.is_ascii_digit() {
            return place;
        }
    }
    bytes.len()
}

/// The number of bytes before the first whitespace or operator, or of all bytes if there is none.
pub(crate) fn word_len(bytes: &[u8]) -> usize
    ensures within { result ≤ length bytes.now }
    ensures word { take result bytes.now ≡ word bytes.now }
{
    for (place, byte) in bytes.iter().enumerate() {
        if is_separator(*byte) {
            return place;
        }
    }
    bytes.len()
}

/// The places of a byte in a block, as bits.
#[inline(always)]
fn equal_to(block: u8x32, byte: u8) -> u64
    ensures { Places (λ b. b == byte) block result }
{
    block.simd_eq(u8x32::splat(byte)).to_bitmask()
}

/// The places of the bytes below this one, as bits.
#[inline(always)]
fn below(block: u8x32, byte: u8) -> u64
    ensures { Places (λ b. nat_lt b byte) block result }
{
    block.simd_lt(u8x32::splat(byte)).to_bitmask()
}

/// The places of the bytes above this one, as bits.
#[inline(always)]
fn above(block: u8x32, byte: u8) -> u64
    ensures { Places (λ b. nat_lt byte b) block result }
{
    block.simd_gt(u8x32::splat(byte)).to_bitmask()
}
