//! The calls that read a text into a tape.
//!
//! A call tests the length of the input, and in the padded form the padding, and then scans it: these faults are about
//! the whole text, and stand at index 0 without a character. Then it reserves all the room that the descent over the
//! tokens needs. The faults of the descent name a byte, and the first one is the answer.
ghost use Rattle.std.specs.Prelude.{◌≡◌, ◌≢◌, ℕ, ◌+◌, ◌<◌, ◌≤◌, ◌⊎◌, [], ◌∷◌, ◌++◌, None, Err, IfErr, IfOk, IsOk, OnOk, OnErr, length, take, min, vec_capacity};
ghost use Rattle.sj_base.specs.Spelling.{longest};
ghost use Rattle.sj_base.specs.declared.TheConstants.{DEFAULT_MAX_DEPTH};
ghost use Rattle.sj_scan.specs.Positions.{positions};
ghost use Rattle.sj_scan.specs.Scan.{scan_fault};
ghost use Rattle.sj_tape.specs.Views.{tape_nodes, tape_room};
ghost use Rattle.sj_parse.specs.Fault.{generic, scan_kind, fault, padding, padded_fault};
ghost use Rattle.sj_parse.specs.Answers.{Answers, IsErrorOf, Leaves, HasRoomFor, buffer_texts, buffer_positions, buffer_limit, buffer_room, buffer_levels};

use crate::Result;
use crate::buffers::Buffers;
use crate::containers::Frame;
use crate::stage_two::descend;
use sj_base::{Error, ErrorType, INPUT_PADDING, Reads};
use sj_scan::{BlockScan, ScanFault, Stage1};
use sj_tape::{Node, Tape};
use std::alloc::Global;
use std::mem;

/// Reads a text into a tape, under the limit of [`sj_base::DEFAULT_MAX_DEPTH`] levels. Port of `simd_json::to_tape`.
///
/// Strings are decoded where they stand, so the bytes of the text may be rewritten, also where the call ends with an
/// error. The contract says that the tape's nodes list the text's tree. A proof that needs the tree itself calls the law
/// [`sj_tape::laws::listing_back`].
///
/// # Errors
///
/// The first fault of the text. These are about the whole text, with index 0 and no character: `InputTooLarge` if it has
/// more than `u32::MAX` bytes, `InvalidUtf8`, `Syntax` for a string that isn't closed or holds a byte below 0x20, and
/// `Eof` for a text without a token. The others name a byte, by its index and as their character: `Syntax` for a container
/// beyond the limit of levels and for a text that is cut short; `InternalError` for a byte that begins no value, and for a
/// token after a root container; `TrailingData` for a token after a root scalar; and the kinds that say what was expected or
/// what is invalid. [`DescentKind`](crate::DescentKind) says which byte each of them names. `OutOfMemory`, about the whole
/// text too, may come in place of any answer but `InputTooLarge`, if there is no memory.
pub fn to_tape<'de>(alloc: Global, s: &'de mut [u8]) -> Result<Tape<'de>>
    ensures answers { Answers tape_nodes s.entry.now DEFAULT_MAX_DEPTH (fault s.entry.now DEFAULT_MAX_DEPTH) result }
    ensures not_empty { IfOk result (λ tape. tape_nodes tape ≢ []) }
    ensures too_large { longest < length s.entry.now → result ≡ Err (generic ErrorType.InputTooLarge) }
{
    // Tested before the buffers are made, so that `OutOfMemory` never comes in place of `InputTooLarge`.
    test_len(s.len())?;
    let mut buffers = Buffers::new(alloc, 0)?;
    to_tape_with_buffers(alloc, s, &mut buffers)
}

/// Reads a text into a tape, by the buffers and under their limit. Port of `simd_json::to_tape_with_buffers`.
///
/// The tape has no more nodes than the text has positions.
///
/// # Errors
///
/// Those of [`to_tape`], under the limit of the buffers. The bytes of the text may be rewritten then.
///
/// The buffers keep their limit and can be used again. After `InputTooLarge` their positions are as before. After another
/// fault of the whole text they have none. After a fault that names a byte they have the positions of the text. After
/// `OutOfMemory` they have those of the text, or none if the scan lacked the memory.
pub fn to_tape_with_buffers<'de>(
    alloc: Global,
    s: &'de mut [u8],
    buffers: &mut Buffers,
) -> Result<Tape<'de>>
    ensures answers { let limit = buffer_limit buffers.old in
        Answers tape_nodes s.entry.now limit (fault s.entry.now limit) result }
    ensures not_empty { IfOk result (λ tape. tape_nodes tape ≢ []) }
    ensures too_large { longest < length s.entry.now → result ≡ Err (generic ErrorType.InputTooLarge) }
    ensures scanned { length s.entry.now ≤ longest → Leaves s.entry.now result (buffer_positions buffers.new) }
    ensures not_scanned { longest < length s.entry.now → buffer_positions buffers.new ≡ buffer_positions buffers.old }
    ensures texts { buffer_texts buffers.new ≡ buffer_texts buffers.old ++ length s.entry.now ∷ [] }
    ensures limit { buffer_limit buffers.new ≡ buffer_limit buffers.old }
    ensures room { buffer_room buffers.old ≤ buffer_room buffers.new }
    ensures bound { IfOk result (λ tape. length (tape_nodes tape) ≤ length (buffer_positions buffers.new)) }
    ensures levels { buffer_levels buffers.old ≤ buffer_levels buffers.new }
{
    let mut tape = Tape::empty(alloc);
    fill_tape(s, buffers, &mut tape)?;
    Ok(tape)
}

/// Reads a text into the given tape, in place of what it holds, by the buffers and under their limit. Port of
/// `simd_json::fill_tape`.
///
/// The room of the tape is used again. While the tape holds nodes of an input, that input can't be written to; [`Tape::reset`]
/// lets it go, and the room with it.
///
/// With enough room `OutOfMemory` doesn't come: in the buffers for as many positions as the text has bytes, and for as many
/// open containers as it has positions or as there are levels, whichever are fewer, and in the tape for as many nodes as the
/// text has positions.
///
/// # Errors
///
/// Those of [`to_tape_with_buffers`], which says what they leave of the bytes and the buffers. The tape is empty after each
/// of them, and keeps its room.
pub fn fill_tape<'de>(s: &'de mut [u8], buffers: &mut Buffers, tape: &mut Tape<'de>) -> Result<()>
    ensures answers { let limit = buffer_limit buffers.old in
        Answers (λ _. tape_nodes tape.new) s.entry.now limit (fault s.entry.now limit) result }
    ensures not_empty { OnOk result (tape_nodes tape.new ≢ []) }
    ensures empty { OnErr result (tape_nodes tape.new ≡ []) }
    ensures too_large { longest < length s.entry.now → result ≡ Err (generic ErrorType.InputTooLarge) }
    ensures scanned { length s.entry.now ≤ longest → Leaves s.entry.now result (buffer_positions buffers.new) }
    ensures not_scanned { longest < length s.entry.now → buffer_positions buffers.new ≡ buffer_positions buffers.old }
    ensures texts { buffer_texts buffers.new ≡ buffer_texts buffers.old ++ length s.entry.now ∷ [] }
    ensures limit { buffer_limit buffers.new ≡ buffer_limit buffers.old }
    ensures room { buffer_room buffers.old ≤ buffer_room buffers.new }
    ensures bound { OnOk result (length (tape_nodes tape.new) ≤ length (buffer_positions buffers.new)) }
    ensures levels { buffer_levels buffers.old ≤ buffer_levels buffers.new }
    ensures tape_room { tape_room tape.old ≤ tape_room tape.new }
    ensures enough { HasRoomFor s.entry.now buffers.old (tape_room tape.old) → IfErr result (λ e. e ≢ generic ErrorType.OutOfMemory) }
{
    fill_tape_by(&mut BlockScan, s, buffers, tape)
}

/// Reads a text into the given tape as [`fill_tape`] does, with its positions from the given scan in place of those of
/// [`BlockScan`].
///
/// # Errors
///
/// Those of [`fill_tape`].
pub fn fill_tape_by<'de, S: Stage1>(
    scanner: &mut S,
    s: &'de mut [u8],
    buffers: &mut Buffers,
    tape: &mut Tape<'de>,
) -> Result<()>
    ensures answers { let limit = buffer_limit buffers.old in
        Answers (λ _. tape_nodes tape.new) s.entry.now limit (fault s.entry.now limit) result }
    ensures not_empty { OnOk result (tape_nodes tape.new ≢ []) }
    ensures empty { OnErr result (tape_nodes tape.new ≡ []) }
    ensures too_large { longest < length s.entry.now → result ≡ Err (generic ErrorType.InputTooLarge) }
    ensures scanned { length s.entry.now ≤ longest → Leaves s.entry.now result (buffer_positions buffers.new) }
    ensures not_scanned { longest < length s.entry.now → buffer_positions buffers.new ≡ buffer_positions buffers.old }
    ensures texts { buffer_texts buffers.new ≡ buffer_texts buffers.old ++ length s.entry.now ∷ [] }
    ensures limit { buffer_limit buffers.new ≡ buffer_limit buffers.old }
    ensures room { buffer_room buffers.old ≤ buffer_room buffers.new }
    ensures bound { OnOk result (length (tape_nodes tape.new) ≤ length (buffer_positions buffers.new)) }
    ensures levels { buffer_levels buffers.old ≤ buffer_levels buffers.new }
    ensures tape_room { tape_room tape.old ≤ tape_room tape.new }
    ensures enough { HasRoomFor s.entry.now buffers.old (tape_room tape.old) → IfErr result (λ e. e ≢ generic ErrorType.OutOfMemory) }
{
    let len = s.len();
    let mut nodes = take_room(buffers.allocator(), tape);
    let read = read_nodes(scanner, s, buffers, &mut nodes);
    if read.is_err() {
        nodes.clear();
    }
    *tape = Tape::from_listing(nodes);
    buffers.note(len);
    read
}

/// Reads the first `len` bytes into the given tape as [`fill_tape`] does. At least [`INPUT_PADDING`] bytes, of any
/// value, stand after them. Port of `simd_json::fill_tape_padded`.
///
/// # Errors
///
/// `InputTooLarge` if `len` is more than `u32::MAX`, then `InsufficientPadding` if `s` has fewer than `len + INPUT_PADDING`
/// bytes. Nothing is read then: the bytes stay, and the buffers keep their positions.
///
/// Then those of [`fill_tape`] for the first `len` bytes, with what it leaves of them and of the buffers.
///
/// After each of them the tape is empty, and keeps its room.
pub fn fill_tape_padded<'de>(
    s: &'de mut [u8],
    len: usize,
    buffers: &mut Buffers,
    tape: &mut Tape<'de>,
) -> Result<()>
    ensures answers { let limit = buffer_limit buffers.old in
        Answers (λ _. tape_nodes tape.new) (take len s.entry.now) limit (padded_fault s.entry.now len limit) result }
    ensures not_empty { OnOk result (tape_nodes tape.new ≢ []) }
    ensures empty { OnErr result (tape_nodes tape.new ≡ []) }
    ensures too_large { longest < len → result ≡ Err (generic ErrorType.InputTooLarge) }
    ensures not_padded { len ≤ longest → length s.entry.now < len + padding
        → result ≡ Err (generic ErrorType.InsufficientPadding) }
    ensures scanned { len ≤ longest → len + padding ≤ length s.entry.now → Leaves (take len s.entry.now) result (buffer_positions buffers.new) }
    ensures not_scanned { ((longest < len) ⊎ (length s.entry.now < len + padding)) → buffer_positions buffers.new ≡ buffer_positions buffers.old }
    ensures texts { buffer_texts buffers.new ≡ buffer_texts buffers.old ++ len ∷ [] }
    ensures limit { buffer_limit buffers.new ≡ buffer_limit buffers.old }
    ensures room { buffer_room buffers.old ≤ buffer_room buffers.new }
    ensures bound { OnOk result (length (tape_nodes tape.new) ≤ length (buffer_positions buffers.new)) }
    ensures levels { buffer_levels buffers.old ≤ buffer_levels buffers.new }
    ensures tape_room { tape_room tape.old ≤ tape_room tape.new }
    ensures enough { HasRoomFor (take len s.entry.now) buffers.old (tape_room tape.old) → IfErr result (λ e. e ≢ generic ErrorType.OutOfMemory) }
{
    if let Err(error) = test_padding(s, len) {
        buffers.note(len);
        *tape = Tape::from_listing(take_room(buffers.allocator(), tape));
        return Err(error);
    }
    let (text, _) = s.split_at_mut(len);
    fill_tape(text, buffers, tape)
}

/// Takes the vector of the tape's nodes, and clears it. The tape is empty then.
fn take_room<'de>(alloc: Global, tape: &mut Tape<'de>) -> Vec<Node<'de>>
    ensures nodes { result.items ≡ [] }
    ensures tape { tape_nodes tape.new ≡ [] }
    ensures room { vec_capacity result ≡ tape_room tape.old }
{
    let mut nodes = mem::replace(tape, Tape::empty(alloc)).into_nodes();
    nodes.clear();
    nodes
}

/// Appends the nodes of a text to an empty vector. After an error some of them may stand.
fn read_nodes<'de, S: Stage1>(
    scanner: &mut S,
    s: &'de mut [u8],
    buffers: &mut Buffers,
    nodes: &mut Vec<Node<'de>>,
) -> Result<()>
    requires { nodes.old.items ≡ [] }
    ensures answers { let limit = buffer_limit buffers.old in
        Answers (λ _. nodes.new.items) s.entry.now limit (fault s.entry.now limit) result }
    ensures too_large { longest < length s.entry.now → result ≡ Err (generic ErrorType.InputTooLarge) }
    ensures scanned { length s.entry.now ≤ longest → Leaves s.entry.now result (buffer_positions buffers.new) }
    ensures not_scanned { longest < length s.entry.now → buffer_positions buffers.new ≡ buffer_positions buffers.old }
    ensures texts { buffer_texts buffers.new ≡ buffer_texts buffers.old }
    ensures limit { buffer_limit buffers.new ≡ buffer_limit buffers.old }
    ensures room { buffer_room buffers.old ≤ buffer_room buffers.new }
    ensures bound { OnOk result (length nodes.new.items ≤ length (buffer_positions buffers.new)) }
    ensures levels { buffer_levels buffers.old ≤ buffer_levels buffers.new }
    ensures grows { vec_capacity nodes.old ≤ vec_capacity nodes.new }
    ensures enough { HasRoomFor s.entry.now buffers.old (vec_capacity nodes.old) → IfErr result (λ e. e ≢ generic ErrorType.OutOfMemory) }
{
    let Buffers {
        positions,
        stack,
        max_depth,
        ..
    } = buffers;
    scan(scanner, s, positions)?;
    make_room(positions.len(), *max_depth, nodes, stack)?;
    let mut places = Reads::new(positions);
    Ok(descend(s, &mut places, *max_depth, nodes, stack)?)
}

/// Tests the length of a text, and scans it.
fn scan<S: Stage1>(scanner: &mut S, text: &[u8], places: &mut Vec<u32>) -> Result<()>
    ensures ok { OnOk result ((length text.now ≤ longest) × (scan_fault text.now ≡ None) × (places.new.items ≡ positions text.now)) }
    ensures err { IfErr result (λ e. (limit : ℕ) → IsErrorOf (fault text.now limit) e) }
    ensures too_large { longest < length text.now → result ≡ Err (generic ErrorType.InputTooLarge) }
    ensures scanned { length text.now ≤ longest → Leaves text.now result places.new.items }
    ensures not_scanned { longest < length text.now → places.new.items ≡ places.old.items }
    ensures capacity { vec_capacity places.old ≤ vec_capacity places.new }
    ensures enough { length text.now ≤ vec_capacity places.old → IfErr result (λ e. e ≢ generic ErrorType.OutOfMemory) }
{
    test_len(text.len())?;
    scanner.scan(text, places).map_err(scan_error)
}

/// Empties the stack, and reserves what the descent over that many tokens needs, so that it can't lack memory.
fn make_room(
    count: usize,
    limit: usize,
    nodes: &mut Vec<Node<'_>>,
    stack: &mut Vec<Frame>,
) -> Result<()>
    requires { nodes.old.items ≡ [] }
    ensures empty { (nodes.new.items ≡ []) × (stack.new.items ≡ []) }
    ensures nodes { OnOk result (count ≤ vec_capacity nodes.new) }
    ensures stack { OnOk result (min limit count ≤ vec_capacity stack.new) }
    ensures err { IfErr result (λ e. e ≡ generic ErrorType.OutOfMemory) }
    ensures grows { (vec_capacity nodes.old ≤ vec_capacity nodes.new) × (vec_capacity stack.old ≤ vec_capacity stack.new) }
    ensures enough { count ≤ vec_capacity nodes.old → min limit count ≤ vec_capacity stack.old → IsOk result }
{
    stack.clear();
    nodes.reserve(count)?;
    stack.reserve(limit.min(count))?;
    Ok(())
}

/// Tests the length of a text, in bytes.
fn test_len(len: usize) -> Result<()>
    ensures ok { OnOk result (len ≤ longest) }
    ensures err { OnErr result (longest < len) }
    ensures too_large { IfErr result (λ e. e ≡ generic ErrorType.InputTooLarge) }
{
    if len > u32::MAX as usize {
        return Err(Error::generic(ErrorType::InputTooLarge));
    }
    Ok(())
}

/// Tests the length of a text, and then that there is padding after it.
fn test_padding(s: &[u8], len: usize) -> Result<()>
    ensures ok { OnOk result ((len ≤ longest) × (len + padding ≤ length s.now)) }
    ensures err { IfErr result (λ e. ((longest < len) ⊎ (length s.now < len + padding)) × ((limit : ℕ) → padded_fault s.now len limit ≡ Some e)) }
    ensures too_large { longest < len → result ≡ Err (generic ErrorType.InputTooLarge) }
    ensures not_padded { len ≤ longest → length s.now < len + padding → result ≡ Err (generic ErrorType.InsufficientPadding) }
{
    test_len(len)?;
    if s.len() < len + INPUT_PADDING {
        return Err(Error::generic(ErrorType::InsufficientPadding));
    }
    Ok(())
}

fn scan_error(found: ScanFault) -> Error
    ensures { result ≡ generic (scan_kind found) }
{
    Error::generic(match found {
        ScanFault::Utf8 => ErrorType::InvalidUtf8,
        ScanFault::Unclosed | ScanFault::Control => ErrorType::Syntax,
        ScanFault::NoToken => ErrorType::Eof,
        ScanFault::Memory => ErrorType::OutOfMemory,
    })
}
