//! Readers and writers that give and take their bytes in pieces, and that fail, and runs on them.

use super::{FORMS, LIMIT, expect_at, expect_eq, expect_that, script_of};
use sj_base::Counted;
use sj_parse::Buffers;
use sj_records::{Form, Repeats, RunError, Script, run, run_within};
use std::alloc::Global;
use std::io;
use std::io::{ErrorKind, Read, Write};
use std::process::Abort;

// Gives its bytes, at most `step` a read, then an error of the kind, and then its end. Where `is_cut`,
// an interruption comes before each read.
#[derive(Drop)]
pub(super) struct Pieces<'a> {
    pub(super) bytes: &'a [u8],
    step: usize,
    pub(super) failure: Option<ErrorKind>,
    is_cut: bool,
    was_cut: bool,
}

impl<'a> Pieces<'a> {
    pub(super) fn new(bytes: &'a [u8], step: usize) -> Pieces<'a> {
        Pieces {
            bytes,
            step,
            failure: None,
            is_cut: false,
            was_cut: false,
        }
    }
}

impl Read for Pieces<'_> {
    fn read(&mut self, buf: &mut [u8]) -> io::Result<usize> {
        if self.is_cut && !self.was_cut {
            self.was_cut = true;
            return Err(io::Error::from(ErrorKind::Interrupted));
        }
        self.was_cut = false;
        if self.bytes.is_empty() {
            return match self.failure.take() {
                Some(kind) => Err(io::Error::from(kind)),
                None => Ok(0),
            };
        }
        let taken = self.step.min(buf.len());
        self.bytes.read(&mut buf[..taken])
    }
}

// Is interrupted at each read.
#[derive(Drop)]
struct Interrupted;

impl Read for Interrupted {
    fn read(&mut self, _buf: &mut [u8]) -> io::Result<usize> {
        Err(io::Error::from(ErrorKind::Interrupted))
    }
}

// How a writer refuses what it has no room for.
#[derive(Clone, Copy, Debug)]
enum Refusal {
    Fails,
    Interrupts,
    TakesNothing,
}

// Takes at most `step` bytes a write, and `room` in all.
#[derive(Drop)]
struct Narrow {
    taken: Vec<u8>,
    step: usize,
    room: usize,
    refusal: Refusal,
}

impl Write for Narrow {
    fn write(&mut self, buf: &[u8]) -> io::Result<usize> {
        let taken = buf.len().min(self.step).min(self.room);
        if taken == 0 && !buf.is_empty() {
            return match self.refusal {
                Refusal::Fails => Err(io::Error::from(ErrorKind::Other)),
                Refusal::Interrupts => Err(io::Error::from(ErrorKind::Interrupted)),
                Refusal::TakesNothing => Ok(0),
            };
        }
        self.taken.extend_from_slice(&buf[..taken])?;
        self.room -= taken;
        Ok(taken)
    }

    fn flush(&mut self) -> io::Result<()> {
        Ok(())
    }
}

pub(super) fn run_by<I: Read + Drop, O: Write + Drop>(
    alloc: Global,
    input: I,
    output: &mut O,
    script: &Script,
    depth: usize,
    form: Form,
    repeats: Repeats,
) -> Result<(), RunError> {
    let mut source = Counted::new(input);
    let mut sink = Counted::new(output);
    let result = run(alloc, &mut source, &mut sink, script, depth, form, repeats);
    let _ = source.into_inner();
    let _ = sink.into_inner();
    result
}

const BOTH: &str = r#"{"replies":[],"document":1}
{"replies":[],"document":2}
"#;

// Runs the empty script.
fn run_empty<I: Read + Drop, O: Write + Drop>(
    rt: &impl Abort,
    alloc: Global,
    input: I,
    output: &mut O,
    form: Form,
) -> Result<(), RunError> {
    let script = script_of(alloc, "[]").expect(rt, "a script");
    run_by(alloc, input, output, &script, LIMIT, form, Repeats::Keep)
}

#[test]
fn failing_reader(rt: HostRuntime) {
    let first = "{\"replies\":[],\"document\":1}\n";
    for (bytes, step, records) in &[
        (b"1\n2".as_slice(), 1, first),
        (b"1\n2".as_slice(), 65536, first),
        (b"1\n2\n3".as_slice(), 1, BOTH),
        (b"1\n2\n3".as_slice(), 65536, BOTH),
    ] {
        for form in &FORMS {
            let mut input = Pieces::new(bytes, *step);
            input.failure = Some(ErrorKind::Other);
            let mut output = Vec::new(rt.alloc());
            let result = run_empty(&rt, rt.alloc(), input, &mut output, *form);
            expect_at(&rt, form, result, Err(RunError::Read));
            expect_at(&rt, form, output.as_slice(), records.as_bytes());
        }
    }
}

#[test]
fn interrupted_reader(rt: HostRuntime) {
    for form in &FORMS {
        let mut input = Pieces::new(b"1\n2", 1);
        input.is_cut = true;
        let mut output = Vec::new(rt.alloc());
        let result = run_empty(&rt, rt.alloc(), input, &mut output, *form);
        expect_at(&rt, form, result, Ok(()));
        expect_at(&rt, form, output.as_slice(), BOTH.as_bytes());
    }
}

// Runs the empty script with at most three reads.
fn run_three<I: Read + Drop>(
    rt: &impl Abort,
    alloc: Global,
    input: I,
    output: &mut Vec<u8>,
    form: Form,
) -> Result<(), RunError> {
    let script = script_of(alloc, "[]").expect(rt, "a script");
    let mut buffers = Buffers::new(alloc, 0).expect(rt, "memory");
    let mut source = Counted::new(input);
    let mut sink = Counted::new(output);
    let result = run_within(
        alloc,
        &mut source,
        &mut sink,
        &script,
        form,
        &mut buffers,
        Repeats::Keep,
        3,
    );
    let _ = source.into_inner();
    let _ = sink.into_inner();
    result
}

// A reader that gives no end, and one that gives it by its third read.
#[test]
fn bounded_reads(rt: HostRuntime) {
    for form in &FORMS {
        let mut output = Vec::new(rt.alloc());
        let result = run_three(&rt, rt.alloc(), Interrupted, &mut output, *form);
        expect_at(&rt, form, result, Err(RunError::TooManyReads));
        expect_that(&rt, "no record", output.is_empty());
        let input = Pieces::new(b"1\n", 1);
        let result = run_three(&rt, rt.alloc(), input, &mut output, *form);
        expect_at(&rt, form, result, Ok(()));
        let record = b"{\"replies\":[],\"document\":1}\n";
        expect_at(&rt, form, output.as_slice(), record.as_slice());
    }
}

// A run whose writer has room for the first bytes alone, which are written.
fn run_narrow(
    rt: &impl Abort,
    alloc: Global,
    refusal: Refusal,
    step: usize,
    room: usize,
    form: Form,
) {
    let mut output = Narrow {
        taken: Vec::new(alloc),
        step,
        room,
        refusal,
    };
    let input: &[u8] = b"1\r\n2";
    let result = run_empty(rt, alloc, input, &mut output, form);
    let ended = if room == BOTH.len() {
        Ok(())
    } else {
        Err(RunError::Write)
    };
    let row = (refusal, room, form);
    expect_at(rt, &row, result, ended);
    let written = Some(output.taken.as_slice());
    expect_at(rt, &row, written, BOTH.as_bytes().get(..room));
}

#[test]
fn narrow_writer(rt: HostRuntime) {
    for refusal in &[Refusal::Fails, Refusal::Interrupts, Refusal::TakesNothing] {
        for room in 0..=BOTH.len() {
            for form in &FORMS {
                run_narrow(&rt, rt.alloc(), *refusal, 1, room, *form);
                run_narrow(&rt, rt.alloc(), *refusal, 7, room, *form);
            }
        }
    }
}
