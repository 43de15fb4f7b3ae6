//! Pushes the places of a mask's bits onto a vector.
ghost use Rattle.std.specs.Prelude.{◌≡◌, ℕ, ◌+◌, ◌^◌, ◌<◌, ◌≤◌, ◌++◌, List, length, vec_len, vec_capacity, All};
ghost use Rattle.sj_scan.specs.inside.Masks.{set_places, IsPrefix};

/// Appends the place of each bit. Eight are appended at a time, since most blocks have no more than eight, and then the vector
/// is truncated to the places that the mask has.
#[inline(always)]
pub(crate) fn push_places(out: &mut Vec<u32>, base: u32, mask: u64)
    requires room { vec_len out.old + 64 ≤ vec_capacity out.old }
    requires fits { base + 64 < 2 ^ 32 }
    ensures items { out.new.items ≡ out.old.items ++ set_places 64 base mask }
    ensures capacity { vec_capacity out.new ≡ vec_capacity out.old }
{
    let end = out.len() + mask.count_ones() as usize;
    let mut rest = push_eight(out, base, mask);
    while out.len() < end {
        rest = push_eight(out, base, rest);
    }
    out.truncate(end);
}

#[inline(always)]
fn push_eight(out: &mut Vec<u32>, base: u32, mask: u64) -> u64
    requires room { vec_len out.old + 8 ≤ vec_capacity out.old }
    requires fits { base + 64 < 2 ^ 32 }
    ensures front { (wanted : List ℕ) → IsPrefix wanted (out.old.items ++ set_places 64 base mask) → IsPrefix wanted (out.new.items ++ set_places 64 base result) }
    ensures len { vec_len out.new ≡ vec_len out.old + 8 }
    ensures capacity { vec_capacity out.new ≡ vec_capacity out.old }
{
    let rest = push_four(out, base, mask);
    push_four(out, base, rest)
}

#[inline(always)]
fn push_four(out: &mut Vec<u32>, base: u32, mask: u64) -> u64
    requires room { vec_len out.old + 4 ≤ vec_capacity out.old }
    requires fits { base + 64 < 2 ^ 32 }
    ensures front { (wanted : List ℕ) → IsPrefix wanted (out.old.items ++ set_places 64 base mask) → IsPrefix wanted (out.new.items ++ set_places 64 base result) }
    ensures len { vec_len out.new ≡ vec_len out.old + 4 }
    ensures capacity { vec_capacity out.new ≡ vec_capacity out.old }
{
    let rest = push_lowest(out, base, mask);
    let rest = push_lowest(out, base, rest);
    let rest = push_lowest(out, base, rest);
    push_lowest(out, base, rest)
}

/// Appends the place of the lowest bit, or junk where the mask has none, and returns the other bits.
#[inline(always)]
fn push_lowest(out: &mut Vec<u32>, base: u32, mask: u64) -> u64
    requires room { vec_len out.old < vec_capacity out.old }
    requires fits { base + 64 < 2 ^ 32 }
    ensures front { (wanted : List ℕ) → IsPrefix wanted (out.old.items ++ set_places 64 base mask) → IsPrefix wanted (out.new.items ++ set_places 64 base result) }
    ensures len { vec_len out.new ≡ vec_len out.old + 1 }
    ensures capacity { vec_capacity out.new ≡ vec_capacity out.old }
{
    out.push_reserved(base + mask.trailing_zeros());
    mask & mask.wrapping_sub(1)
}

/// Appends the place of each bit, with room for no more than these.
pub(crate) fn push_each_place(out: &mut Vec<u32>, base: u32, mask: u64)
    requires room { vec_len out.old + length (set_places 64 base mask) ≤ vec_capacity out.old }
    requires fits { All (λ place. place < 2 ^ 32) (set_places 64 base mask) }
    ensures items { out.new.items ≡ out.old.items ++ set_places 64 base mask }
    ensures capacity { vec_capacity out.new ≡ vec_capacity out.old }
{
    let mut rest = mask;
    while rest != 0 {
        out.push_reserved(base + rest.trailing_zeros());
        rest &= rest - 1;
    }
}
