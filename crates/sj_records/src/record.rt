//! The record of one line, in bytes.
ghost use Rattle.std.specs.Prelude.{◌≡◌, ◌≢◌, ◌≤◌, ◌^◌, ℕ, nat_le, true, false, List, ◌∷◌, [], ◌++◌, length, vec_capacity, Some, option_map, OnOk, IfOk, IfErr};
ghost use Rattle.std.specs.List.{list_all};
ghost use Rattle.std.specs.Option.{option_copied};
ghost use Rattle.sj_base.specs.Spelling.{longest};
ghost use Rattle.sj_base.specs.Tree.{Tree};
ghost use Rattle.sj_base.specs.Keep.{keep};
ghost use Rattle.sj_base.specs.Text.{text as text_of};
ghost use Rattle.sj_parse.specs.Answers.{IsTapeOf, buffer_limit};
ghost use Rattle.sj_parse.specs.Fault.{fault};
ghost use Rattle.sj_records.specs.History.{may_run, StandFor, Applied};
ghost use Rattle.sj_records.specs.Record.{IsRecord, tree_record, outcome, refused_repeat};
ghost use Rattle.sj_records.specs.Texts.{if_read, reread, reloads, rereads, HasRead, HasReadLines};
ghost use Rattle.sj_owned.specs.Views.{value_tree};
ghost use Rattle.sj_scripts.specs.Script.{command_view, commands_view};
ghost use Rattle.sj_documents.specs.Step.{State, begun, start, reload_reply};
ghost use Rattle.sj_tape.specs.Repeats.{repeat_view};
ghost use Rattle.sj_tape.specs.Views.{tape_nodes, nodes_tree};
ghost use Rattle.sj_scripts.specs.inside.ReadErrors.{IfRefused};
ghost use Rattle.sj_records.specs.Job.{repeats_of};
ghost use Rattle.sj_records.specs.inside.Progress.{task_job};
ghost use Rattle.sj_records.specs.inside.Reloads.{IsReadable, IsPrinted, Runs};

use crate::form::Form;
use crate::history::{apply, put_bool};
use crate::refused_line::{put_fault_record, put_repeat_record};
use crate::repeats::Repeats;
use crate::separator::put_separator;
use crate::task::Task;
use sj_base::laws::printing_reads_back;
use sj_base::{DecimalBuf, DecimalCow, Error};
use sj_documents::{Document, Inverse, LazyDocument};
use sj_object::MakeKey;
use sj_owned::{MakeLiteral, Value, build_tape, build_value};
use sj_parse::laws::printed_texts;
use sj_parse::{Buffers, fill_tape};
use sj_scripts::{Command, MemoryOr};
use sj_tape::{Repeat, Tape};
use std::alloc::{AllocError, Global};
use std::borrow::CowStr;
use std::mem;

/// Room that is kept from one line to the next.
#[derive(Drop)]
pub(crate) struct Scratch {
    /// What the commands of a line hand on to those after a reload.
    pub(crate) room: Room,
    /// The record of the last line.
    pub(crate) out: Vec<u8>,
}

/// What the commands after a reload need: two texts, of which one is read while the other is printed into, and the history of
/// the line.
#[derive(Drop)]
pub(crate) struct Room {
    /// The text that was printed last.
    pub(crate) printed: Vec<u8>,
    /// Room for the one after it.
    pub(crate) next: Vec<u8>,
    /// What takes the writes of the line back, the newest last. Empty if the script has no `undo`.
    pub(crate) history: Vec<Inverse>,
}

impl Scratch {
    /// Creates one without room.
    pub(crate) fn new(alloc: Global) -> Scratch {
        Scratch {
            room: Room {
                printed: Vec::new(alloc),
                next: Vec::new(alloc),
                history: Vec::new(alloc),
            },
            out: Vec::new(alloc),
        }
    }
}

/// Prints the record of a line and a line feed into `scratch.out`, in place of the record of the line before, and empties the
/// history first. The line is rewritten, and the tape filled anew.
pub(crate) fn make_record<'de>(
    buffers: &mut Buffers,
    scratch: &mut Scratch,
    tape: &mut Tape<'de>,
    line: &'de mut [u8],
    task: Task<'_>,
) -> Result<(), AllocError>
    requires { buffer_limit buffers.old ≡ task.depth }
    ensures holds { OnOk result ((bytes : List ℕ) × (scratch.new.out.items ≡ bytes ++ 0x0a ∷ [])
        × IsRecord (task_job task.entry) line.entry.now bytes) }
    ensures texts { OnOk result (HasReadLines (task_job task.entry) buffers.old buffers.new (line.entry.now ∷ [])) }
    ensures limit { buffer_limit buffers.new ≡ buffer_limit buffers.old }
{
    let Scratch { room, out } = scratch;
    room.history.clear();
    clear_text(&mut room.printed);
    clear_text(&mut room.next);
    clear_text(out);
    put_record(buffers, room, tape, out, line, task)?;
    out.push(b'\n')?;
    Ok(())
}

/// The most room, in bytes, that is kept from one line to the next: for the line, for its record, and for each text of its
/// reloads.
const KEPT_TEXT: usize = 1 << 24;

/// Empties a text, and gives back room that is more than what is kept. An indented text may be a thousand times as long as its
/// line.
pub(crate) fn clear_text(text: &mut Vec<u8>)
    ensures items { text.new.items ≡ [] }
    ensures room { vec_capacity text.new ≤ 2 ^ 24 }
{
    if text.capacity() > KEPT_TEXT {
        *text = Vec::new(*text.allocator());
    } else {
        text.clear();
    }
}

fn put_record<'de>(
    buffers: &mut Buffers,
    room: &mut Room,
    tape: &mut Tape<'de>,
    out: &mut Vec<u8>,
    line: &'de mut [u8],
    task: Task<'_>,
) -> Result<(), AllocError>
    requires limit { buffer_limit buffers.old ≡ task.depth }
    requires new_line { room.old.history.items ≡ [] }
    ensures holds { OnOk result ((bytes : List ℕ) × (out.new.items ≡ out.old.items ++ bytes)
        × IsRecord (task_job task.entry) line.entry.now bytes) }
    ensures texts { OnOk result (HasReadLines (task_job task.entry) buffers.old buffers.new (line.entry.now ∷ [])) }
    ensures limit { buffer_limit buffers.new ≡ buffer_limit buffers.old }
{
    match read_tape(buffers, tape, line) {
        Ok(()) => put_tape_record(buffers, room, tape, task, out),
        Err(MemoryOr::Refused(fault)) => put_fault_record(fault, out),
        Err(MemoryOr::Memory) => Err(AllocError),
    }
}

/// The most positions for which room is kept from one text to the next.
const KEPT_POSITIONS: usize = 1 << 20;

/// Reads a text, a line or that of a reload, into the tape, under the limit of the buffers. The text is rewritten. The buffers keep
/// its positions until the next one is read.
fn read_tape<'de>(
    buffers: &mut Buffers,
    tape: &mut Tape<'de>,
    text: &'de mut [u8],
) -> Result<(), MemoryOr<Error>>
    ensures found { OnOk result (IsTapeOf text.entry.now (buffer_limit buffers.old) (tape_nodes tape.new)) }
    ensures not_empty { OnOk result (tape_nodes tape.new ≢ []) }
    ensures refused { IfErr result (λ e. IfRefused e (λ why. fault text.entry.now (buffer_limit buffers.old) ≡ Some why)) }
    ensures texts { OnOk result (HasRead buffers.old buffers.new (text.entry.now ∷ [])) }
    ensures refused_texts { IfErr result (λ e. IfRefused e (λ why. HasRead buffers.old buffers.new (text.entry.now ∷ []))) }
    ensures limit { buffer_limit buffers.new ≡ buffer_limit buffers.old }
{
    if buffers.capacity() > KEPT_POSITIONS {
        buffers.release();
    }
    fill_tape(text, buffers, tape)?;
    Ok(())
}

/// Appends the record of a line that was read into the tape.
fn put_tape_record(
    buffers: &mut Buffers,
    room: &mut Room,
    tape: &mut Tape<'_>,
    task: Task<'_>,
    out: &mut Vec<u8>,
) -> Result<(), AllocError>
    requires limit { buffer_limit buffers.old ≡ task.depth }
    requires new_line { room.old.history.items ≡ [] }
    requires not_empty { tape_nodes tape.old ≢ [] }
    requires readable { IsReadable task.depth (nodes_tree (tape_nodes tape.old)) }
    ensures holds { OnOk result (out.new.items ≡ out.old.items
        ++ text_of (tree_record (task_job task.entry) (nodes_tree (tape_nodes tape.old)))) }
    ensures texts { OnOk result (HasRead buffers.old buffers.new
        (rereads (task_job task.entry) (nodes_tree (tape_nodes tape.old)))) }
    ensures limit { buffer_limit buffers.new ≡ buffer_limit buffers.old }
{
    match find_refused(*out.allocator(), tape, task.repeats)? {
        Some(repeat) => put_repeat_record(&repeat, out),
        None => put_document_record(buffers, room, tape, task, out),
    }
}

/// Returns the first repeated key of the tape's document, if it is to be refused.
fn find_refused<'de>(
    alloc: Global,
    tape: &Tape<'de>,
    repeats: Repeats,
) -> Result<Option<Repeat<'de>>, AllocError>
    requires { tape_nodes tape.now ≢ [] }
    ensures { IfOk result (λ found. option_map repeat_view found
        ≡ refused_repeat (repeats_of repeats) (nodes_tree (tape_nodes tape.now))) }
{
    match repeats {
        Repeats::Keep => Ok(None),
        Repeats::Refuse => tape.as_value().first_repeat(alloc),
    }
}

/// Appends the record of a document that isn't refused, in the task's form.
fn put_document_record(
    buffers: &mut Buffers,
    room: &mut Room,
    tape: &mut Tape<'_>,
    task: Task<'_>,
    out: &mut Vec<u8>,
) -> Result<(), AllocError>
    requires limit { buffer_limit buffers.old ≡ task.depth }
    requires new_line { room.old.history.items ≡ [] }
    requires not_empty { tape_nodes tape.old ≢ [] }
    requires readable { IsReadable task.depth (nodes_tree (tape_nodes tape.old)) }
    ensures holds { OnOk result (out.new.items ≡ out.old.items
        ++ text_of (outcome (task_job task.entry) (nodes_tree (tape_nodes tape.old)))) }
    ensures texts { let job = task_job task.entry in
        OnOk result (HasRead buffers.old buffers.new (reloads job (begun job (nodes_tree (tape_nodes tape.old))) job.script)) }
    ensures limit { buffer_limit buffers.new ≡ buffer_limit buffers.old }
{
    out.extend_from_slice(b"{\"replies\":[")?;
    let commands = task.script.commands();
    let Room {
        printed,
        history,
        ..
    } = room;
    let mut left = run_on_tape(tape, task, commands, true, history, printed, out)?;
    if left.is_some() && tape.nodes().len() > KEPT_NODES {
        // So a tape of many nodes and that of the text are never both in memory.
        *tape = Tape::empty(*out.allocator());
    }
    while let Some(commands) = left {
        left = run_on_text(buffers, room, task, commands, out)?;
    }
    Ok(())
}

/// The most nodes of a tape that stays while its document is built or a reload's text is read. A larger one is given back.
const KEPT_NODES: usize = 1 << 16;

/// Builds the document of a tape. A tape of many nodes is emptied on the way, so that it and its document are never both in
/// memory as a whole.
fn build<'de, K: MakeKey<'de> + Drop, D: MakeLiteral<'de> + Drop>(
    alloc: Global,
    tape: &mut Tape<'de>,
) -> Result<Value<K, D>, AllocError>
    requires { tape_nodes tape.old ≢ [] }
    ensures { IfOk result (λ d. value_tree K.text D.literal d ≡ keep (nodes_tree (tape_nodes tape.old))) }
{
    if tape.nodes().len() > KEPT_NODES {
        return build_tape::<Value<K, D>, K>(alloc, mem::replace(tape, Tape::empty(alloc)));
    }
    build_value::<Value<K, D>, K>(alloc, tape.as_value())
}

/// Reads the text that was printed last, and runs commands on its document, as `run_on_tape`.
fn run_on_text<'s>(
    buffers: &mut Buffers,
    room: &mut Room,
    task: Task<'_>,
    commands: &'s [Command],
    out: &mut Vec<u8>,
) -> Result<Option<&'s [Command]>, AllocError>
    requires limit { buffer_limit buffers.old ≡ task.depth }
    requires allowed { list_all (may_run task.undo) (commands_view commands.now) ≡ true }
    requires readable { (t : Tree) × IsReadable task.depth t × IsPrinted t room.old.printed.items }
    ensures runs { IfOk result (λ left. (s : State) → IsReadable task.entry.depth s.tree → IsPrinted s.tree room.old.printed.items
        → StandFor task.entry.undo (task_job task.entry).keeping s.tree room.old.history.items s
        → Runs task.entry.undo (task_job task.entry) s (commands_view commands.now) false (option_copied left) room.new.history.items room.new.printed.items out.old.items out.new.items []) }
    ensures texts { OnOk result (HasRead buffers.old buffers.new (room.old.printed.items ∷ [])) }
    ensures limit { buffer_limit buffers.new ≡ buffer_limit buffers.old }
{
    printing_reads_back();
    printed_texts();
    let Room {
        printed,
        next,
        history,
    } = room;
    let mut tape = Tape::empty(*out.allocator());
    match read_tape(buffers, &mut tape, printed) {
        Ok(()) => {}
        Err(MemoryOr::Refused(_)) => unreachable!(),
        Err(MemoryOr::Memory) => return Err(AllocError),
    }
    let left = run_on_tape(&mut tape, task, commands, false, history, next, out)?;
    drop(tape);
    mem::swap(printed, next);
    Ok(left)
}

/// Runs commands on the document of a tape, in the task's form. `is_first` tells whether their first reply is the first of
/// the record.
///
/// Returns the commands after the first reload that replied `true`, whose text is in `text` then, or `None` once all have
/// run and the record is complete.
fn run_on_tape<'s>(
    tape: &mut Tape<'_>,
    task: Task<'_>,
    commands: &'s [Command],
    is_first: bool,
    history: &mut Vec<Inverse>,
    text: &mut Vec<u8>,
    out: &mut Vec<u8>,
) -> Result<Option<&'s [Command]>, AllocError>
    requires not_empty { tape_nodes tape.old ≢ [] }
    requires allowed { list_all (may_run task.undo) (commands_view commands.now) ≡ true }
    ensures { IfOk result (λ left. (s : State)
        → StandFor task.entry.undo (task_job task.entry).keeping (start (nodes_tree (tape_nodes tape.old)) (task_job task.entry).keeping) history.old.items s
        → Runs task.entry.undo (task_job task.entry) s (commands_view commands.now) is_first (option_copied left) history.new.items text.new.items out.old.items out.new.items []) }
{
    let alloc = *out.allocator();
    match task.form {
        Form::Owned => {
            let document = build::<String, DecimalBuf>(alloc, tape)?;
            run_commands(document, task, commands, is_first, history, text, out)
        }
        Form::Borrowed => {
            let document = build::<CowStr<'_>, DecimalCow<'_>>(alloc, tape)?;
            run_commands(document, task, commands, is_first, history, text, out)
        }
        Form::Lazy => {
            let document = LazyDocument::new(tape.as_value());
            run_commands(document, task, commands, is_first, history, text, out)
        }
    }
}

/// Runs commands on a document, as `run_on_tape`. The document is dropped.
fn run_commands<'s, T: Document + Drop>(
    mut document: T,
    task: Task<'_>,
    commands: &'s [Command],
    is_first: bool,
    history: &mut Vec<Inverse>,
    text: &mut Vec<u8>,
    out: &mut Vec<u8>,
) -> Result<Option<&'s [Command]>, AllocError>
    requires keeping { T.keeping ≡ (task_job task).keeping }
    requires allowed { list_all (may_run task.undo) (commands_view commands.now) ≡ true }
    ensures { IfOk result (λ left. (s : State) → StandFor task.entry.undo T.keeping (T.tree document) history.old.items s
        → Runs task.entry.undo (task_job task.entry) s (commands_view commands.now) is_first (option_copied left) history.new.items text.new.items out.old.items out.new.items []) }
{
    let mut left = commands;
    let mut is_next_first = is_first;
    while let Some((command, behind)) = left.split_first() {
        put_separator(is_next_first, out)?;
        let is_read_again = run_command(&mut document, task, command, history, text, out)?;
        left = behind;
        is_next_first = false;
        if is_read_again {
            return Ok(Some(left));
        }
    }
    out.extend_from_slice(b"],\"document\":")?;
    document.text(out)?;
    out.push(b'}')?;
    Ok(None)
}

/// Runs one command, and appends its reply. Returns `true` for a reload whose text can be read. The text is in `text` then.
fn run_command<T: Document>(
    document: &mut T,
    task: Task<'_>,
    command: &Command,
    history: &mut Vec<Inverse>,
    text: &mut Vec<u8>,
    out: &mut Vec<u8>,
) -> Result<bool, AllocError>
    ensures applied { OnOk result ((s : State) → may_run task.entry.undo (command_view command.now) ≡ true → StandFor task.entry.undo T.keeping (T.tree document.old) history.old.items s
        → Applied task.entry.undo T.keeping task.entry.depth s (command_view command.now) out.old.items out.new.items (T.tree document.new) history.new.items) }
    ensures printed { IfOk result (λ is_readable. is_readable ≡ true → IsPrinted (T.tree document.new) text.new.items) }
    ensures reread { IfOk result (λ is_readable. (s : State) → s.tree ≡ T.tree document.old
        → reread s (command_view command.now) ≡ if_read is_readable text.new.items) }
{
    match command {
        Command::Reload => {
            text.clear();
            document.text(text)?;
            put_reload(text, out)
        }
        Command::ReloadPp => {
            text.clear();
            document.pretty(text)?;
            put_reload(text, out)
        }
        _ => {
            apply(document, history, command, task.depth, task.undo, out)?;
            Ok(false)
        }
    }
}

/// Appends the reply to a reload, and returns it: whether the text is short enough to be read.
fn put_reload(text: &[u8], out: &mut Vec<u8>) -> Result<bool, AllocError>
    ensures answers { IfOk result (λ is_readable. is_readable ≡ nat_le (length text.now) longest) }
    ensures replies { OnOk result (out.new.items ≡ out.old.items ++ text_of (reload_reply text.now)) }
{
    let is_readable = text.len() <= u32::MAX as usize;
    put_bool(is_readable, out)?;
    Ok(is_readable)
}
