//! Passes that are made again and again.
ghost use Rattle.std.specs.Prelude.{◌≡◌, IfOk};
ghost use Rattle.read_bench.specs.Refused.{refused_by, tapes_refused};

use crate::arguments::Kind;
use crate::build::Form;
use crate::passes::{Pass, PrintPass, ReadPass, ScanPass};
use crate::stats::Stats;
use sj_scan::{BlockScan, PlainScan, Stage1};
use std::alloc::Global;
use std::io;
use std::time::{Clock, Duration, Instant};

/// The most passes that are made.
const MAX_PASSES: u64 = 1 << 32;

/// What was measured.
#[derive(Clone, Copy)]
pub(crate) struct Measured {
    /// The figures of the passes, in nanoseconds.
    pub(crate) figures: Stats,
    /// The number of documents refused.
    pub(crate) refused: usize,
}

/// Makes passes of this kind over the documents until the duration has gone by, at least one.
///
/// # Errors
///
/// The clock's error, or one of the kind `OutOfMemory`.
pub(crate) fn measure<R: Clock>(
    rt: &R,
    alloc: Global,
    kind: Kind,
    documents: Vec<Vec<u8>>,
    duration: Duration,
) -> io::Result<Measured>
    ensures { IfOk result (λ m. m.refused ≡ refused_by kind documents.items) }
{
    match kind {
        Kind::Tape => time_reading(rt, alloc, BlockScan, None, documents, duration),
        Kind::Plain => time_reading(rt, alloc, PlainScan, None, documents, duration),
        Kind::Owned => {
            let form = Some(Form::Owned);
            time_reading(rt, alloc, BlockScan, form, documents, duration)
        }
        Kind::Borrowed => {
            let form = Some(Form::Borrowed);
            time_reading(rt, alloc, BlockScan, form, documents, duration)
        }
        Kind::Scan => repeat(rt, alloc, &mut ScanPass::new(alloc, documents), duration),
        Kind::Print => time_printing(rt, alloc, documents, duration),
    }
}

/// Makes passes that read each document with this scanner, and build a document in the form, if there is one.
fn time_reading<R: Clock, S: Stage1 + Drop>(
    rt: &R,
    alloc: Global,
    scanner: S,
    form: Option<Form>,
    documents: Vec<Vec<u8>>,
    duration: Duration,
) -> io::Result<Measured>
    ensures { IfOk result (λ m. m.refused ≡ tapes_refused documents.items) }
{
    let mut pass = ReadPass::new(alloc, documents, scanner, form)?;
    repeat(rt, alloc, &mut pass, duration)
}

/// Makes passes that print the tape of each document.
fn time_printing<R: Clock>(
    rt: &R,
    alloc: Global,
    mut documents: Vec<Vec<u8>>,
    duration: Duration,
) -> io::Result<Measured>
    ensures { IfOk result (λ m. m.refused ≡ tapes_refused documents.items) }
{
    let mut pass = PrintPass::read(alloc, &mut documents)?;
    repeat(rt, alloc, &mut pass, duration)
}

/// Makes the pass until the duration has gone by, at least once.
fn repeat<R: Clock, P: Pass>(
    rt: &R,
    alloc: Global,
    pass: &mut P,
    duration: Duration,
) -> io::Result<Measured>
    ensures { IfOk result (λ m. m.refused ≡ P.refusals pass.old) }
{
    let start = Instant::now(rt)?;
    let first = pass.time(rt)?;
    let mut times = vec![in alloc; nanoseconds(first.duration)]?;
    for _ in 1..MAX_PASSES {
        if start.elapsed(rt)? >= duration {
            break;
        }
        let timed = pass.time(rt)?;
        times.push(nanoseconds(timed.duration))?;
    }
    Ok(Measured {
        figures: Stats::of(&mut times),
        refused: first.refused,
    })
}

/// The duration in nanoseconds, or `u64::MAX` if it is longer.
fn nanoseconds(duration: Duration) -> u64 {
    u64::try_from(duration.as_nanos()).unwrap_or(u64::MAX)
}
