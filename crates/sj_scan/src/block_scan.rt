//! The scan that reads 64 bytes at a time.
ghost use Rattle.std.specs.Prelude.{◌≡◌, ◌+◌, ◌-◌, ◌≤◌, [], length, take, drop, vec_capacity, IsOk, IfOk, OnOk, OnErr};
ghost use Rattle.std.specs.Str.{is_utf8};
ghost use Rattle.simdutf8.specs.Tracks.{HasRead};
ghost use Rattle.sj_scan.specs.Positions.{positions};
ghost use Rattle.sj_scan.specs.inside.End.{Ends};
ghost use Rattle.sj_scan.specs.inside.Blocks.{IsClassified, filled_up};
ghost use Rattle.sj_scan.specs.inside.Walk.{HasWalked};

use crate::classes::{Classes, is_ascii};
use crate::end::End;
use crate::masks::Carry;
use crate::push::{push_each_place, push_places};
use crate::stage1::{ScanFault, Stage1};
use simdutf8::Checker;
use std::alloc::AllocError;
use std::simd::prelude::*;

const BLOCK: usize = 64;

/// A scan that reads 64 bytes at a time.
///
/// It makes room for as many positions as the text has bytes, at four bytes of memory for each.
#[derive(Clone, Copy, Debug, Default)]
pub struct BlockScan;

impl Stage1 for BlockScan {
    fn scan(&mut self, bytes: &[u8], out: &mut Vec<u32>) -> Result<(), ScanFault> {
        out.clear();
        let end = find_positions(bytes, out)?;
        end.answer(out)
    }
}

fn find_positions(bytes: &[u8], out: &mut Vec<u32>) -> Result<End, AllocError>
    requires empty { out.old.items ≡ [] }
    requires short { length bytes.now ≤ 4294967295 }
    ensures positions { OnOk result (out.new.items ≡ positions bytes.now) }
    ensures end { IfOk result (Ends bytes.now) }
    ensures err { OnErr result (out.new.items ≡ []) }
    ensures room { length bytes.now ≤ vec_capacity out.old → IsOk result }
    ensures capacity { vec_capacity out.old ≤ vec_capacity out.new }
{
    // A text has no more positions than bytes.
    out.reserve(bytes.len())?;
    let walk = read_blocks(bytes, out);
    Ok(read_rest(bytes, out, walk))
}

/// How far a walk has come, and what it found on the way.
#[derive(Clone, Copy)]
struct Walk {
    at: usize,
    utf8: Checker,
    carry: Carry,
    /// Not 0 if a string of the blocks has a control character.
    controls: u64,
}

/// Reads whole blocks, and leaves from 1 to 64 bytes of a text that has some.
fn read_blocks(bytes: &[u8], out: &mut Vec<u32>) -> Walk
    requires empty { out.old.items ≡ [] }
    requires short { length bytes.now ≤ 4294967295 }
    requires room { length bytes.now ≤ vec_capacity out.old }
    ensures walked { HasWalked bytes.now result out.new.items }
    ensures rest { (result.at ≤ length bytes.now - 1) × (length bytes.now ≤ result.at + BLOCK) }
    ensures capacity { vec_capacity out.new ≡ vec_capacity out.old }
{
    let mut walk = Walk {
        at: 0,
        utf8: Checker::new(),
        carry: Carry::start(),
        controls: 0,
    };
    while bytes.len() - walk.at > BLOCK {
        let block = u8x64::from_slice(&bytes[walk.at..]);
        let (masks, carry) = walk.carry.masks(Classes::of(block));
        push_places(out, walk.at as u32, masks.positions);
        walk = Walk {
            at: walk.at + BLOCK,
            utf8: walk.utf8.step(block),
            carry,
            controls: walk.controls | masks.controls,
        };
    }
    walk
}

/// Reads the bytes that are left.
fn read_rest(bytes: &[u8], out: &mut Vec<u32>, walk: Walk) -> End
    requires walked { HasWalked bytes.now walk out.old.items }
    requires rest { (walk.at ≤ length bytes.now - 1) × (length bytes.now ≤ walk.at + BLOCK) }
    requires short { length bytes.now ≤ 4294967295 }
    requires room { length bytes.now ≤ vec_capacity out.old }
    ensures positions { out.new.items ≡ positions bytes.now }
    ensures end { Ends bytes.now result }
    ensures capacity { vec_capacity out.new ≡ vec_capacity out.old }
{
    let (classes, is_utf8) = classify_rest(bytes, walk.at, walk.utf8);
    let (masks, carry) = walk.carry.masks(classes);
    push_each_place(out, walk.at as u32, masks.positions);
    End {
        is_utf8,
        inside: carry.is_inside(),
        has_control: walk.controls | masks.controls != 0,
    }
}

/// The classes of the bytes from `at` on, with spaces after them, and whether the text is UTF-8.
#[inline(always)]
fn classify_rest(bytes: &[u8], at: usize, utf8: Checker) -> (Classes, bool)
    requires read { HasRead utf8 (take at bytes.now) }
    requires rest { (at ≤ length bytes.now - 1) × (length bytes.now ≤ at + BLOCK) }
    ensures classes { IsClassified (filled_up (drop at bytes.now)) result.0 }
    ensures utf8 { result.1 ≡ is_utf8 bytes.now }
{
    let rest = &bytes[at..];
    if bytes.len() < BLOCK {
        let block = filled_up(rest);
        return (Classes::of(block), utf8.step(block).finish());
    }
    // The last block of the text is there without a copy, with bytes in front that were read before.
    let block = u8x64::from_slice(&bytes[bytes.len() - BLOCK..]);
    let classes = Classes::of(block).skipped((BLOCK - rest.len()) as u32);
    let is_utf8 = if is_ascii(block) {
        // No step is needed: a sequence that the bytes before begin and don't end is a fault also for `finish`.
        utf8.finish()
    } else {
        utf8.step(filled_up(rest)).finish()
    };
    (classes, is_utf8)
}

/// The bytes, and spaces after them.
fn filled_up(rest: &[u8]) -> u8x64
    requires { length rest.now ≤ BLOCK }
    ensures { result ≡ filled_up rest.now }
{
    let mut block = [b' '; BLOCK];
    block[..rest.len()].copy_from_slice(rest);
    u8x64::from_array(block)
}
