//! The masks of a block: which of its 64 bytes are positions, and which are control characters in a string.
//!
//! A mask has one bit for each byte, the lowest for the first. The tricks on masks are those of simdjson.
ghost use Rattle.std.specs.Prelude.{◌≡◌, ℕ, suc, List, [], Bool};
ghost use Rattle.sj_scan.specs.Positions.{is_odd, backslashes, real_quotes, is_real_quote, is_position};
ghost use Rattle.sj_scan.specs.Scan.{is_control};
ghost use Rattle.sj_scan.specs.inside.Masks.{is_set, Marks, first_if, all_if, is_odd_run, is_odd_count};
ghost use Rattle.sj_scan.specs.inside.Blocks.{before_in, test_in, Precedes, IsClassified};

use crate::classes::Classes;

const ODD_PLACES: u64 = 0xaaaa_aaaa_aaaa_aaaa;

/// What a block has to know of the bytes before it, as words to combine with its masks.
#[derive(Clone, Copy)]
pub(crate) struct Carry {
    /// The first bit where the run of backslashes directly before has odd length, else none.
    odd_backslashes: u64,
    /// All bits where a string is open, else none.
    inside: u64,
    /// The first bit where nothing, whitespace, an operator or a real quote stands directly before, else none.
    separated: u64,
}

/// The positions of a block, and its control characters in strings.
#[derive(Clone, Copy)]
pub(crate) struct Masks {
    pub(crate) positions: u64,
    pub(crate) controls: u64,
}

impl Carry {
    pub(crate) fn start() -> Carry
        ensures { Precedes [] result }
    {
        Carry {
            odd_backslashes: 0,
            inside: 0,
            separated: 1,
        }
    }

    /// Whether a string is open.
    pub(crate) fn is_inside(self) -> bool
        ensures { (before : List ℕ) → Precedes before self → result ≡ is_odd (real_quotes before) }
    {
        self.inside != 0
    }

    /// The masks of the block, and what the next one has to know.
    #[inline(always)]
    pub(crate) fn masks(self, classes: Classes) -> (Masks, Carry)
        ensures positions { (before block : List ℕ) → Precedes before self → IsClassified block classes → Marks result.0.positions (test_in is_position before block) }
        ensures controls { (before block : List ℕ) → Precedes before self → IsClassified block classes → Marks result.0.controls (test_in is_control before block) }
        ensures carry { (before block : List ℕ) → Precedes before self → IsClassified block classes → Precedes (before_in before block 64) result.1 }
    {
        let (quotes, odd_backslashes) = real_quotes(classes, self.odd_backslashes);
        let inside_after = prefix_xor(quotes) ^ self.inside;
        // An opening quote isn't inside, and a closing one is, so it is no position.
        let inside = inside_after ^ quotes;
        let separators = classes.whitespace | classes.operators | quotes;
        let separated = shifted(separators, self.separated);
        let masks = Masks {
            positions: !inside & !classes.whitespace & (classes.operators | quotes | separated),
            controls: classes.below_space & inside,
        };
        let next = Carry {
            odd_backslashes,
            inside: spread(last(inside_after)),
            separated: last(separators),
        };
        (masks, next)
    }
}

/// The real quotes, and the carry of backslashes for the next block.
#[inline(always)]
fn real_quotes(classes: Classes, carry: u64) -> (u64, u64)
    ensures quotes { (before block : List ℕ) → carry ≡ first_if (is_odd (backslashes before)) → IsClassified block classes → Marks result.0 (test_in is_real_quote before block) }
    ensures carry { (before block : List ℕ) → carry ≡ first_if (is_odd (backslashes before)) → IsClassified block classes → result.1 ≡ first_if (is_odd (backslashes (before_in before block 64))) }
{
    let (escaped, next) = escaped(classes.backslashes, carry);
    (classes.quotes & !escaped, next)
}

/// The places directly after a run of backslashes of odd length, and the carry for the next block.
#[inline(always)]
fn escaped(backslashes: u64, carry: u64) -> (u64, u64)
    ensures places { (odd : Bool) → carry ≡ first_if odd → Marks result.0 (is_odd_run odd (is_set backslashes)) }
    ensures carry { (odd : Bool) → carry ≡ first_if odd → result.1 ≡ first_if (is_odd_run odd (is_set backslashes) 64) }
{
    if backslashes == 0 {
        return (carry, 0);
    }
    // A backslash that is escaped escapes nothing.
    let live = backslashes & !carry;
    // The subtraction borrows along each run. Its result differs from `ODD_PLACES` at the backslashes that escape, and directly
    // after each run of odd length.
    let codes = ((live << 1) | ODD_PLACES).wrapping_sub(live) ^ ODD_PLACES;
    (codes ^ (backslashes | carry), last(codes & backslashes))
}

/// Each bit is the parity of the bits up to and including its own.
#[inline(always)]
fn prefix_xor(mask: u64) -> u64
    ensures { Marks result (λ place. is_odd_count (is_set mask) (suc place)) }
{
    let mask = mask ^ (mask << 1);
    let mask = mask ^ (mask << 2);
    let mask = mask ^ (mask << 4);
    let mask = mask ^ (mask << 8);
    let mask = mask ^ (mask << 16);
    mask ^ (mask << 32)
}

/// The mask moved by one place, with the carry at the first.
#[inline(always)]
fn shifted(mask: u64, carry: u64) -> u64
    ensures { (test : ℕ → Bool) → carry ≡ first_if (test 0) → Marks mask (λ place. test (suc place)) → Marks result test }
{
    (mask << 1) | carry
}

/// The bit of the last place.
#[inline(always)]
fn last(mask: u64) -> u64
    ensures { result ≡ first_if (is_set mask 63) }
{
    mask >> 63
}

/// All bits if `bit` is 1, and none if it is 0.
#[inline(always)]
fn spread(bit: u64) -> u64
    ensures { (b : Bool) → bit ≡ first_if b → result ≡ all_if b }
{
    0u64.wrapping_sub(bit)
}
