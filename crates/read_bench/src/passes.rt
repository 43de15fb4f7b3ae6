//! What a pass does with the documents.
ghost use Rattle.std.specs.Prelude.{◌≡◌, ◌++◌, ℕ, IfOk, OnOk, flat_map};
ghost use Rattle.sj_base.specs.Buffer.{buffer_text};
ghost use Rattle.sj_base.specs.declared.TheConstants.{DEFAULT_MAX_DEPTH};
ghost use Rattle.sj_parse.specs.Answers.{buffer_limit};
ghost use Rattle.read_bench.specs.Printed.{text_of};
ghost use Rattle.read_bench.specs.Refused.{is_refused, is_refused_by_scan, tapes_refused, scans_refused};

use crate::build::{Form, build_in};
use sj_base::{ErrorType, TextBuffer};
use sj_parse::{Buffers, fill_tape_by};
use sj_scan::{BlockScan, ScanFault, Stage1};
use sj_tape::Tape;
use std::alloc::{AllocError, Global};
use std::io;
use std::time::{Clock, Duration, Instant};

/// The time of a pass, and the number of documents that it refused.
#[derive(Clone, Copy)]
pub(crate) struct Timed {
    pub(crate) duration: Duration,
    pub(crate) refused: usize,
}

/// A pass over documents, which can be made again and again.
pub(crate) trait Pass {
    ghost refusals: { Self → ℕ };

    /// Makes the pass, and reads the clock before and after it.
    ///
    /// # Errors
    ///
    /// The clock's error, or one of the kind `OutOfMemory`.
    fn time<R: Clock>(&mut self, rt: &R) -> io::Result<Timed>
        ensures refused { IfOk result (λ timed. timed.refused ≡ refusals self.old) }
        ensures again { refusals self.new ≡ refusals self.old };
}

/// Reads each document into one tape, with its positions from the scanner, and where there is a form builds a document of
/// the tape and drops that. The room for positions is kept from pass to pass, and that of the tape from document to document.
#[derive(Drop)]
pub(crate) struct ReadPass<S: Stage1 + Drop> {
    alloc: Global,
    documents: Vec<Vec<u8>>,
    scanner: S,
    form: Option<Form>,
    buffers: Buffers,
    ghost limit: { buffer_limit buffers ≡ DEFAULT_MAX_DEPTH },
}

impl<S: Stage1 + Drop> ReadPass<S> {
    pub(crate) fn new(
        alloc: Global,
        documents: Vec<Vec<u8>>,
        scanner: S,
        form: Option<Form>,
    ) -> Result<ReadPass<S>, AllocError>
        ensures documents { IfOk result (λ pass. pass.documents ≡ documents) }
        ensures form { IfOk result (λ pass. pass.form ≡ form) }
    {
        let buffers = Buffers::new(alloc, 0)?;
        Ok(ReadPass {
            alloc,
            documents,
            scanner,
            form,
            buffers,
        })
    }
}

impl<S: Stage1 + Drop> Pass for ReadPass<S> {
    ghost refusals = { λ pass. tapes_refused pass.documents.items };

    fn time<R: Clock>(&mut self, rt: &R) -> io::Result<Timed> {
        // Reading rewrites the text.
        let mut copies = self.documents.clone()?;
        let start = Instant::now(rt)?;
        let refused = read_all(
            self.alloc,
            &mut self.scanner,
            self.form,
            &mut copies,
            &mut self.buffers,
        )?;
        let duration = start.elapsed(rt)?;
        Ok(Timed { duration, refused })
    }
}

/// Finds the positions of each document by the scan of `sj_parse`. Their room is kept.
#[derive(Drop)]
pub(crate) struct ScanPass {
    documents: Vec<Vec<u8>>,
    positions: Vec<u32>,
}

impl ScanPass {
    pub(crate) fn new(alloc: Global, documents: Vec<Vec<u8>>) -> ScanPass
        ensures { result.documents ≡ documents }
    {
        let positions = Vec::new(alloc);
        ScanPass {
            documents,
            positions,
        }
    }
}

impl Pass for ScanPass {
    ghost refusals = { λ pass. scans_refused pass.documents.items };

    fn time<R: Clock>(&mut self, rt: &R) -> io::Result<Timed> {
        let start = Instant::now(rt)?;
        let refused = scan_all(&self.documents, &mut self.positions)?;
        let duration = start.elapsed(rt)?;
        Ok(Timed { duration, refused })
    }
}

/// Prints the tape of each document that isn't refused, without whitespace, into one buffer, whose room is kept.
#[derive(Drop)]
pub(crate) struct PrintPass<'t> {
    tapes: Vec<Tape<'t>>,
    refused: usize,
    out: TextBuffer,
}

impl<'t> PrintPass<'t> {
    /// Reads the documents.
    pub(crate) fn read(
        alloc: Global,
        documents: &'t mut [Vec<u8>],
    ) -> Result<PrintPass<'t>, AllocError>
        ensures { IfOk result (λ pass. pass.refused ≡ tapes_refused documents.entry.now) }
    {
        let mut buffers = Buffers::new(alloc, 0)?;
        let mut tapes = Vec::new(alloc);
        let refused = read_tapes(alloc, documents, &mut buffers, &mut tapes)?;
        let out = TextBuffer::new(Vec::new(alloc));
        Ok(PrintPass {
            tapes,
            refused,
            out,
        })
    }
}

impl Pass for PrintPass<'_> {
    ghost refusals = { λ pass. pass.refused };

    fn time<R: Clock>(&mut self, rt: &R) -> io::Result<Timed> {
        self.out.clear();
        let start = Instant::now(rt)?;
        print_all(&self.tapes, &mut self.out)?;
        let duration = start.elapsed(rt)?;
        Ok(Timed {
            duration,
            refused: self.refused,
        })
    }
}

/// Reads each document, builds it where there is a form, and returns how many are refused.
fn read_all<S: Stage1>(
    alloc: Global,
    scanner: &mut S,
    form: Option<Form>,
    documents: &mut [Vec<u8>],
    buffers: &mut Buffers,
) -> Result<usize, AllocError>
    requires { buffer_limit buffers.old ≡ DEFAULT_MAX_DEPTH }
    ensures refused { IfOk result (λ n. n ≡ tapes_refused documents.entry.now) }
    ensures limit { buffer_limit buffers.new ≡ DEFAULT_MAX_DEPTH }
{
    let mut tape = Tape::empty(alloc);
    let mut refused = 0;
    let mut rest = documents;
    while let Some((document, others)) = rest.split_first_mut() {
        if is_refused(scanner, document, buffers, &mut tape)? {
            refused += 1;
        }
        if let Some(form) = form {
            build_in(alloc, form, &tape)?;
        }
        rest = others;
    }
    Ok(refused)
}

/// Appends a tape of each document that isn't refused, and returns how many are refused.
fn read_tapes<'de>(
    alloc: Global,
    documents: &'de mut [Vec<u8>],
    buffers: &mut Buffers,
    tapes: &mut Vec<Tape<'de>>,
) -> Result<usize, AllocError>
    requires { buffer_limit buffers.old ≡ DEFAULT_MAX_DEPTH }
    ensures { IfOk result (λ n. n ≡ tapes_refused documents.entry.now) }
{
    let mut refused = 0;
    let mut rest = documents;
    while let Some((document, others)) = rest.split_first_mut() {
        let mut tape = Tape::empty(alloc);
        if is_refused(&mut BlockScan, document, buffers, &mut tape)? {
            refused += 1;
        } else {
            tapes.push(tape)?;
        }
        rest = others;
    }
    Ok(refused)
}

/// Reads a document into the tape, and returns `true` if it is refused. The tape is empty then.
fn is_refused<'de, S: Stage1>(
    scanner: &mut S,
    document: &'de mut [u8],
    buffers: &mut Buffers,
    tape: &mut Tape<'de>,
) -> Result<bool, AllocError>
    requires { buffer_limit buffers.old ≡ DEFAULT_MAX_DEPTH }
    ensures refused { IfOk result (λ r. r ≡ is_refused document.entry.now) }
    ensures limit { buffer_limit buffers.new ≡ DEFAULT_MAX_DEPTH }
{
    match fill_tape_by(scanner, document, buffers, tape) {
        Ok(()) => Ok(false),
        Err(error) => {
            if error.error() == ErrorType::OutOfMemory {
                return Err(AllocError);
            }
            Ok(true)
        }
    }
}

/// Scans each document, and returns how many are refused.
fn scan_all(documents: &[Vec<u8>], positions: &mut Vec<u32>) -> Result<usize, AllocError>
    ensures { IfOk result (λ n. n ≡ scans_refused documents.now) }
{
    let mut refused = 0;
    for document in documents {
        if is_refused_by_scan(document, positions)? {
            refused += 1;
        }
    }
    Ok(refused)
}

/// Scans a document, and returns `true` if it is refused, as one of more than `u32::MAX` bytes is.
fn is_refused_by_scan(document: &[u8], positions: &mut Vec<u32>) -> Result<bool, AllocError>
    ensures { IfOk result (λ r. r ≡ is_refused_by_scan document.now) }
{
    if document.len() > u32::MAX as usize {
        return Ok(true);
    }
    match BlockScan.scan(document, positions) {
        Ok(()) => Ok(false),
        Err(fault) => {
            if fault == ScanFault::Memory {
                return Err(AllocError);
            }
            Ok(true)
        }
    }
}

/// Appends the compact text of each tape.
fn print_all(tapes: &[Tape<'_>], out: &mut TextBuffer) -> Result<(), AllocError>
    ensures { OnOk result (buffer_text out.new ≡ buffer_text out.old ++ flat_map text_of tapes.now) }
{
    for tape in tapes {
        print(tape, out)?;
    }
    Ok(())
}

/// Appends the compact text of the tape's document, if it has one.
fn print(tape: &Tape<'_>, out: &mut TextBuffer) -> Result<(), AllocError>
    ensures { OnOk result (buffer_text out.new ≡ buffer_text out.old ++ text_of tape.now) }
{
    if tape.is_empty() {
        return Ok(());
    }
    tape.as_value().print(out)
}
