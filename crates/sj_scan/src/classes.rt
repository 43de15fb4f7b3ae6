//! The bytes of a block by kind, found by vectors of `std::simd`.
ghost use Rattle.std.specs.Prelude.{◌≡◌, ℕ, ◌<◌, ◌==◌, List, ◌++◌, length, drop, replicate, slice_index, nat_lt, IsTrue};
ghost use Rattle.std.specs.Str.{IsAscii};
ghost use Rattle.sj_scan.specs.Positions.{is_whitespace, is_operator};
ghost use Rattle.sj_scan.specs.inside.Lanes.{Computes, IsFourfold, low_entry};
ghost use Rattle.sj_scan.specs.inside.Masks.{Marks};
ghost use Rattle.sj_scan.specs.inside.Blocks.{IsClassified};

use std::simd::prelude::*;

/// For each four lowest bits the whitespace that has them, or 0, four times over. A byte is whitespace if it is the entry of its
/// own lowest bits.
const WHITESPACE: [u8; 64] = [
    b' ', 0, 0, 0, 0, 0, 0, 0, 0, b'\t', b'\n', 0, 0, b'\r', 0, 0, b' ', 0, 0, 0, 0, 0, 0, 0, 0,
    b'\t', b'\n', 0, 0, b'\r', 0, 0, b' ', 0, 0, 0, 0, 0, 0, 0, 0, b'\t', b'\n', 0, 0, b'\r', 0, 0,
    b' ', 0, 0, 0, 0, 0, 0, 0, 0, b'\t', b'\n', 0, 0, b'\r', 0, 0,
];

/// The same for operators. A bracket is looked up as the brace that differs from it in one bit.
const OPERATORS: [u8; 64] = [
    0, 0, 0, 0, 0, 0, 0, 0, 0, 0, b':', b'{', b',', b'}', 0, 0, 0, 0, 0, 0, 0, 0, 0, 0, 0, 0, b':',
    b'{', b',', b'}', 0, 0, 0, 0, 0, 0, 0, 0, 0, 0, 0, 0, b':', b'{', b',', b'}', 0, 0, 0, 0, 0, 0,
    0, 0, 0, 0, 0, 0, b':', b'{', b',', b'}', 0, 0,
];

/// The bytes of a block by kind.
#[derive(Clone, Copy)]
pub(crate) struct Classes {
    pub(crate) backslashes: u64,
    pub(crate) quotes: u64,
    pub(crate) operators: u64,
    pub(crate) whitespace: u64,
    pub(crate) below_space: u64,
}

impl Classes {
    #[inline(always)]
    pub(crate) fn of(block: u8x64) -> Classes
        ensures { IsClassified block result }
    {
        let below_space = below(block, b' ');
        Classes {
            backslashes: equal_to(block, b'\\'),
            quotes: equal_to(block, b'"'),
            operators: operators(block, below_space),
            whitespace: whitespace(block),
            below_space,
        }
    }

    /// The classes of the block without its first `count` bytes, and with as many spaces at its end.
    #[inline(always)]
    pub(crate) fn skipped(self, count: u32) -> Classes
        requires { count < 64 }
        ensures { (block : List ℕ) → length block ≡ 64 → IsClassified block self → IsClassified (drop count block ++ replicate count 0x20) result }
    {
        Classes {
            backslashes: self.backslashes >> count,
            quotes: self.quotes >> count,
            operators: self.operators >> count,
            whitespace: (self.whitespace >> count) | !(u64::MAX >> count),
            below_space: self.below_space >> count,
        }
    }
}

/// Whether all bytes of the block are ASCII.
#[inline(always)]
pub(crate) fn is_ascii(block: u8x64) -> bool
    ensures { IsTrue result → IsAscii block }
{
    below(block, 0x80) == u64::MAX
}

#[inline(always)]
fn operators(block: u8x64, below_space: u64) -> u64
    requires { Marks below_space (λ place. nat_lt (slice_index block place) 0x20) }
    ensures { Marks result (λ place. is_operator (slice_index block place)) }
{
    // Brackets and braces differ in this bit alone. Two control characters become operators by it.
    let curly = block | u8x64::splat(0x20);
    curly.simd_eq(by_low_bits(OPERATORS, block)).to_bitmask() & !below_space
}

#[inline(always)]
fn whitespace(block: u8x64) -> u64
    ensures { Marks result (λ place. is_whitespace (slice_index block place)) }
{
    block.simd_eq(by_low_bits(WHITESPACE, block)).to_bitmask()
}

/// The entry of the table at the four lowest bits of each ASCII byte, and 0 for other bytes, whose highest bit the mask keeps.
#[inline(always)]
fn by_low_bits(table: [u8; 64], block: u8x64) -> u8x64
    requires { IsFourfold table }
    ensures { Computes block result (low_entry table) }
{
    u8x64::from_array(table).swizzle_dyn_within::<16>(block & u8x64::splat(0x8f))
}

#[inline(always)]
fn equal_to(block: u8x64, byte: u8) -> u64
    ensures { Marks result (λ place. slice_index block place == byte) }
{
    block.simd_eq(u8x64::splat(byte)).to_bitmask()
}

#[inline(always)]
fn below(block: u8x64, byte: u8) -> u64
    ensures { Marks result (λ place. nat_lt (slice_index block place) byte) }
{
    block.simd_lt(u8x64::splat(byte)).to_bitmask()
}
