//! The loop over a stream, which cuts it into lines, runs the script on each and writes their records.
ghost use Rattle.std.specs.Prelude.{◌≡◌, ◌+◌, ◌≤◌, ◌^◌, [], ◌∷◌, ◌++◌, vec_len, IfOk, OnOk, MatchOption};
ghost use Rattle.std.specs.Io.KnownBytes.{IsAtEnd};
ghost use Rattle.sj_parse.specs.Answers.{buffer_limit};
ghost use Rattle.sj_records.specs.Lines.{ended, unended, if_any};
ghost use Rattle.sj_records.specs.Run.{Transfers, LeavesOutput, ReadsFor, WritesFor};
ghost use Rattle.sj_records.specs.Job.{job_of};
ghost use Rattle.sj_records.specs.Texts.{HasReadLines, HasReadStream};
ghost use Rattle.sj_records.specs.inside.Progress.{HasNoLineFeed, LeavesLines, LeavesBytes, task_job};

use crate::form::Form;
use crate::record::{Scratch, clear_text, make_record};
use crate::repeats::Repeats;
use crate::run_error::RunError;
use crate::task::{Task, undo_of};
use sj_base::{Output, Sink, Source, WriteFault};
use sj_parse::Buffers;
use sj_scripts::Script;
use sj_tape::Tape;
use std::alloc::{AllocError, Global};
use std::io::ErrorKind;

/// Splits a piece at its first line feed: returns the bytes before it and those after it, or the whole piece and `None`.
fn split_line<'p>(piece: &'p mut [u8]) -> (&'p mut [u8], Option<&'p mut [u8]>)
    ensures free { HasNoLineFeed result.0.now }
    ensures parts { MatchOption result.1 (piece.entry.now ≡ result.0.now)
        (λ rest. piece.entry.now ≡ result.0.now ++ 0x0a ∷ rest.now) }
{
    let Some(end) = memchr::memchr(b'\n', piece) else {
        return (piece, None);
    };
    let (line, rest) = piece.split_at_mut(end);
    let (_, behind) = rest.split_at_mut(1);
    (line, Some(behind))
}

/// Writes all of the bytes. A prefix of them is written before an error.
fn write_all<W: Sink>(writer: &mut W, bytes: &[u8]) -> Result<(), RunError>
    ensures stands { LeavesBytes result (W.contents writer.old) (W.contents writer.new) bytes.now }
    ensures writes { WritesFor result (W.calls writer.old) (W.calls writer.new) }
{
    match writer.put(bytes) {
        Ok(()) => Ok(()),
        Err(WriteFault) => Err(RunError::Write),
    }
}

/// What is kept from one piece of the stream to the next.
#[derive(Drop)]
struct Pending {
    /// The bytes after the last line feed.
    line: Vec<u8>,
    scratch: Scratch,
}

/// Writes the record of a line. The line is rewritten, and the tape filled anew.
fn write_record<'de, W: Sink>(
    writer: &mut W,
    buffers: &mut Buffers,
    scratch: &mut Scratch,
    tape: &mut Tape<'de>,
    line: &'de mut [u8],
    task: Task<'_>,
) -> Result<(), RunError>
    requires { buffer_limit buffers.old ≡ task.depth }
    ensures stands { LeavesLines result (task_job task.entry) (W.contents writer.old) (W.contents writer.new)
        [] (line.entry.now ∷ []) }
    ensures texts { OnOk result (HasReadLines (task_job task.entry) buffers.old buffers.new (line.entry.now ∷ [])) }
    ensures limit { buffer_limit buffers.new ≡ buffer_limit buffers.old }
    ensures writes { WritesFor result (W.calls writer.old) (W.calls writer.new) }
{
    make_record(buffers, scratch, tape, line, task)?;
    write_all(writer, &scratch.out)
}

/// Writes the record of the pending line, which is rewritten.
fn write_pending<W: Sink>(
    writer: &mut W,
    buffers: &mut Buffers,
    pending: &mut Pending,
    task: Task<'_>,
) -> Result<(), RunError>
    requires { buffer_limit buffers.old ≡ task.depth }
    ensures stands { LeavesLines result (task_job task.entry) (W.contents writer.old) (W.contents writer.new)
        [] (pending.old.line.items ∷ []) }
    ensures texts { OnOk result (HasReadLines (task_job task.entry) buffers.old buffers.new (pending.old.line.items ∷ [])) }
    ensures limit { buffer_limit buffers.new ≡ buffer_limit buffers.old }
    ensures writes { WritesFor result (W.calls writer.old) (W.calls writer.new) }
{
    let Pending { line, scratch } = pending;
    write_record(
        writer,
        buffers,
        scratch,
        &mut Tape::empty(*line.allocator()),
        line,
        task,
    )
}

/// Writes the record of the pending line, of which `end` is the last part, and clears the line. Both are rewritten. The
/// tape is filled anew if `end` is the whole line.
fn complete_line<'p, W: Sink>(
    writer: &mut W,
    buffers: &mut Buffers,
    pending: &mut Pending,
    tape: &mut Tape<'p>,
    end: &'p mut [u8],
    task: Task<'_>,
) -> Result<(), RunError>
    requires { buffer_limit buffers.old ≡ task.depth }
    ensures stands { LeavesLines result (task_job task.entry) (W.contents writer.old) (W.contents writer.new)
        [] ((pending.old.line.items ++ end.entry.now) ∷ []) }
    ensures texts { OnOk result (HasReadLines (task_job task.entry) buffers.old buffers.new
        ((pending.old.line.items ++ end.entry.now) ∷ [])) }
    ensures cleared { OnOk result (pending.new.line.items ≡ []) }
    ensures limit { buffer_limit buffers.new ≡ buffer_limit buffers.old }
    ensures writes { WritesFor result (W.calls writer.old) (W.calls writer.new) }
{
    if pending.line.is_empty() {
        return write_record(writer, buffers, &mut pending.scratch, tape, end, task);
    }
    pending.line.extend_from_slice(end)?;
    write_pending(writer, buffers, pending, task)?;
    clear_text(&mut pending.line);
    Ok(())
}

/// Writes the record of each line that the piece ends, and keeps the bytes after the last line feed. The piece is
/// rewritten.
fn process_piece<W: Sink>(
    writer: &mut W,
    buffers: &mut Buffers,
    pending: &mut Pending,
    piece: &mut [u8],
    task: Task<'_>,
) -> Result<(), RunError>
    requires clean { HasNoLineFeed pending.old.line.items }
    requires limit { buffer_limit buffers.old ≡ task.depth }
    ensures stands { let lines = ended (pending.old.line.items ++ piece.old) in
        LeavesLines result (task_job task.entry) (W.contents writer.old) (W.contents writer.new) lines lines }
    ensures kept { OnOk result
        (pending.new.line.items ≡ unended (pending.old.line.items ++ piece.old)) }
    ensures texts { OnOk result (HasReadLines (task_job task.entry) buffers.old buffers.new
        (ended (pending.old.line.items ++ piece.old))) }
    ensures limit { buffer_limit buffers.new ≡ buffer_limit buffers.old }
    ensures writes { WritesFor result (W.calls writer.old) (W.calls writer.new) }
{
    // One tape for the piece: its nodes borrow from the lines.
    let mut tape = Tape::empty(*pending.line.allocator());
    let mut rest = piece;
    loop {
        let (end, behind) = split_line(rest);
        let Some(behind) = behind else {
            pending.line.extend_from_slice(end)?;
            return Ok(());
        };
        complete_line(writer, buffers, pending, &mut tape, end, task)?;
        rest = behind;
    }
}

/// Writes the record of a last line that no line feed ends. The line is rewritten.
fn finish<W: Sink>(
    writer: &mut W,
    buffers: &mut Buffers,
    pending: &mut Pending,
    task: Task<'_>,
) -> Result<(), RunError>
    requires { buffer_limit buffers.old ≡ task.depth }
    ensures stands { LeavesLines result (task_job task.entry) (W.contents writer.old) (W.contents writer.new)
        [] (if_any pending.old.line.items) }
    ensures texts { OnOk result (HasReadLines (task_job task.entry) buffers.old buffers.new (if_any pending.old.line.items)) }
    ensures limit { buffer_limit buffers.new ≡ buffer_limit buffers.old }
    ensures writes { WritesFor result (W.calls writer.old) (W.calls writer.new) }
{
    if pending.line.is_empty() {
        return Ok(());
    }
    write_pending(writer, buffers, pending, task)
}

/// The most bytes that one read gives.
const PIECE_LEN: usize = 65536;

/// The most reads of one run.
const MAX_READS: u64 = 1 << 62;

fn zeros(alloc: Global, len: usize) -> Result<Vec<u8>, AllocError>
    ensures { IfOk result (λ v. vec_len v ≡ len) }
{
    vec![in alloc; 0; len]
}

/// Runs the task on each line of a stream, with at most `max_reads` reads.
fn run_task<R: Source, W: Sink>(
    alloc: Global,
    reader: &mut R,
    writer: &mut W,
    buffers: &mut Buffers,
    task: Task<'_>,
    max_reads: u64,
) -> Result<(), RunError>
    requires { buffer_limit buffers.old ≡ task.depth }
    ensures stands { Transfers (R.remaining reader.old) (R.remaining reader.new)
        (W.contents writer.old) (W.contents writer.new)
        (LeavesOutput result (task_job task.entry)) }
    ensures at_end { OnOk result (IsAtEnd (R.remaining reader.new)) }
    ensures texts { OnOk result (HasReadStream (task_job task.entry) (R.remaining reader.old) (R.remaining reader.new)
        (W.contents writer.old) (W.contents writer.new) buffers.old buffers.new) }
    ensures reads { ReadsFor max_reads result (R.calls reader.old) (R.calls reader.new) }
    ensures bound { (R.calls reader.new).made ≤ (R.calls reader.old).made + max_reads }
    ensures writes { WritesFor result (W.calls writer.old) (W.calls writer.new) }
    ensures limit { buffer_limit buffers.new ≡ buffer_limit buffers.old }
{
    let mut pending = Pending {
        line: Vec::new(alloc),
        scratch: Scratch::new(alloc),
    };
    let mut piece = zeros(alloc, PIECE_LEN)?;
    for _ in 0..max_reads {
        match reader.read(&mut piece) {
            Ok(0) => return finish(writer, buffers, &mut pending, task),
            Ok(taken) => process_piece(writer, buffers, &mut pending, &mut piece[..taken], task)?,
            Err(e) if e.kind() == ErrorKind::Interrupted => {}
            Err(_) => return Err(RunError::Read),
        }
    }
    Err(RunError::TooManyReads)
}

/// Runs a script on each line of a stream, and writes one record for each line, in order.
///
/// A line ends at a line feed. What stands after the last one is a line too, unless it is empty. Each record is a line:
/// `{"replies":[..],"document":..}`, or `{"error":..,"index":..,"character":..}`, or
/// `{"error":"RepeatedKey","path":[..],"key":..}`.
///
/// The record of a JSON document of at most `u32::MAX` bytes and `depth` levels has the replies to the script's commands and the
/// document after them. With `Repeats::Refuse` the script doesn't run on a document that repeats a key, and the record names the
/// first such key. The record of any other line says why it is not a document. An interrupted read is tried again. An
/// interrupted write is not. Each record is handed to the writer as a whole, so a writer to a file or a pipe should be buffered.
/// Nothing is flushed. The recursion is as deep as a line's document nests.
///
/// # Errors
///
/// See [`RunError`] for each error and what is written before it.
pub fn run<R: Source, W: Sink>(
    alloc: Global,
    reader: &mut R,
    writer: &mut W,
    script: &Script,
    depth: usize,
    form: Form,
    repeats: Repeats,
) -> Result<(), RunError>
    // What is written, by the result.
    ensures stands { Transfers (R.remaining reader.old) (R.remaining reader.new)
        (W.contents writer.old) (W.contents writer.new)
        (LeavesOutput result (job_of script.now depth form repeats)) }
    ensures at_end { OnOk result (IsAtEnd (R.remaining reader.new)) }

    // When each result comes, by the calls of the reader and the writer.
    ensures reads { ReadsFor (2 ^ 62) result (R.calls reader.old) (R.calls reader.new) }
    ensures bound { (R.calls reader.new).made ≤ (R.calls reader.old).made + 2 ^ 62 }
    ensures writes { WritesFor result (W.calls writer.old) (W.calls writer.new) }
{
    let mut buffers = Buffers::with_max_depth(alloc, 0, depth)?;
    run_with(alloc, reader, writer, script, form, &mut buffers, repeats)
}

/// Does what [`run`] does, under the limit of levels of the buffers, whose room is used for each line. Runs that use the same
/// buffers one after the other take room for them once.
///
/// On `Ok` the buffers have read one text for each line, and one for each reload that replied `true`. They have the positions that
/// the last text left, or those of before if there was no text. If the last text had more than 4294967295 bytes, nothing is said of
/// the positions. If there is room for more than 2^20 positions, all room and the positions are given back before the next
/// text is read.
///
/// # Errors
///
/// See [`RunError`] for each error and what is written before it. The buffers can be used again after each.
pub fn run_with<R: Source, W: Sink>(
    alloc: Global,
    reader: &mut R,
    writer: &mut W,
    script: &Script,
    form: Form,
    buffers: &mut Buffers,
    repeats: Repeats,
) -> Result<(), RunError>
    // As of `run`, with the limit of the buffers in the place of `depth`.
    ensures stands { Transfers (R.remaining reader.old) (R.remaining reader.new)
        (W.contents writer.old) (W.contents writer.new)
        (LeavesOutput result (job_of script.now (buffer_limit buffers.old) form repeats)) }
    ensures at_end { OnOk result (IsAtEnd (R.remaining reader.new)) }
    // On `Ok`: the texts that the buffers have read, by their lengths, which are the lines and the texts of the reloads that
    // replied `true`, and what positions the last one left.
    ensures texts { OnOk result (HasReadStream (job_of script.now (buffer_limit buffers.old) form repeats)
        (R.remaining reader.old) (R.remaining reader.new) (W.contents writer.old) (W.contents writer.new)
        buffers.old buffers.new) }
    ensures reads { ReadsFor (2 ^ 62) result (R.calls reader.old) (R.calls reader.new) }
    ensures bound { (R.calls reader.new).made ≤ (R.calls reader.old).made + 2 ^ 62 }
    ensures writes { WritesFor result (W.calls writer.old) (W.calls writer.new) }
    ensures limit { buffer_limit buffers.new ≡ buffer_limit buffers.old }
{
    run_within(
        alloc, reader, writer, script, form, buffers, repeats, MAX_READS,
    )
}

/// Does what [`run_with`] does, with at most `max_reads` reads, those that were interrupted included.
///
/// # Errors
///
/// See [`RunError`] for each error and what is written before it. `TooManyReads` comes if none of `max_reads` reads gave the end.
pub fn run_within<R: Source, W: Sink>(
    alloc: Global,
    reader: &mut R,
    writer: &mut W,
    script: &Script,
    form: Form,
    buffers: &mut Buffers,
    repeats: Repeats,
    max_reads: u64,
) -> Result<(), RunError>
    // As of `run_with`, with `max_reads` in the place of 2^62.
    ensures stands { Transfers (R.remaining reader.old) (R.remaining reader.new)
        (W.contents writer.old) (W.contents writer.new)
        (LeavesOutput result (job_of script.now (buffer_limit buffers.old) form repeats)) }
    ensures at_end { OnOk result (IsAtEnd (R.remaining reader.new)) }
    ensures texts { OnOk result (HasReadStream (job_of script.now (buffer_limit buffers.old) form repeats)
        (R.remaining reader.old) (R.remaining reader.new) (W.contents writer.old) (W.contents writer.new)
        buffers.old buffers.new) }
    ensures reads { ReadsFor max_reads result (R.calls reader.old) (R.calls reader.new) }
    ensures bound { (R.calls reader.new).made ≤ (R.calls reader.old).made + max_reads }
    ensures writes { WritesFor result (W.calls writer.old) (W.calls writer.new) }
    ensures limit { buffer_limit buffers.new ≡ buffer_limit buffers.old }
{
    let task = Task {
        script,
        depth: buffers.max_depth(),
        form,
        repeats,
        undo: undo_of(script.commands()),
    };
    run_task(alloc, reader, writer, buffers, task, max_reads)
}
