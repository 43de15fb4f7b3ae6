//! The two scans beside each other, on the beginnings of documents.
//!
//! The contract of scans says that they answer alike. A run shows it of the program as it was built, on real files.
ghost use Rattle.std.specs.Prelude.{◌≡◌, ℕ, List, false, IfOk};
ghost use Rattle.sj_scan.specs.Scan.{Scans, scan_fault};
ghost use Rattle.read_bench.specs.inside.Cuts.{positions_left};

use sj_scan::{BlockScan, PlainScan, ScanFault, Stage1};
use std::alloc::{AllocError, Global};

/// Up to here a document is cut at each byte.
const EACH: usize = 300;

/// The most cuts after these.
const CUTS: usize = 200;

/// Cuts each document at each of its first 300 bytes and at up to 200 further places, at equal distances, and returns at how
/// many cuts the two scans of what stands before differ.
pub(crate) fn count_differences(alloc: Global, documents: &[Vec<u8>]) -> Result<usize, AllocError>
    ensures { IfOk result (λ n. n ≡ 0) }
{
    let mut plain = Vec::new(alloc);
    let mut block = Vec::new(alloc);
    let mut count = 0;
    for document in documents {
        count += count_in(document, &mut plain, &mut block)?;
    }
    Ok(count)
}

/// Returns at how many cuts of the document the two scans differ. It takes the vectors for their positions.
fn count_in(
    document: &[u8],
    plain: &mut Vec<u32>,
    block: &mut Vec<u32>,
) -> Result<usize, AllocError>
    ensures { IfOk result (λ n. n ≡ 0) }
{
    let len = document.len();
    let step = len / CUTS + 1;
    let mut count = 0;
    let mut end = 0;
    while end <= len {
        if differ(&document[..end], plain, block)? {
            count += 1;
        }
        end += if end < EACH { 1 } else { step };
    }
    Ok(count)
}

/// Returns `true` if the two scans of the text differ, in the fault or in the positions. A text of more than `u32::MAX` bytes
/// isn't scanned.
fn differ(text: &[u8], plain: &mut Vec<u32>, block: &mut Vec<u32>) -> Result<bool, AllocError>
    ensures { IfOk result (λ d. d ≡ false) }
{
    if text.len() > u32::MAX as usize {
        return Ok(false);
    }
    let by_bytes = found(PlainScan.scan(text, plain))?;
    let by_blocks = found(BlockScan.scan(text, block))?;
    Ok(by_bytes != by_blocks || plain.as_slice() != block.as_slice())
}

/// Returns the fault that a scan found, if any.
fn found(answer: Result<(), ScanFault>) -> Result<Option<ScanFault>, AllocError>
    ensures { IfOk result (λ fault. (text out : List ℕ) → Scans text answer out → (fault ≡ scan_fault text) × (out ≡ positions_left text)) }
{
    match answer {
        Ok(()) => Ok(None),
        Err(ScanFault::Memory) => Err(AllocError),
        Err(fault) => Ok(Some(fault)),
    }
}
