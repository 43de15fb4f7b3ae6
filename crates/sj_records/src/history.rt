//! Commands on a document whose writes can be taken back.
ghost use Rattle.std.specs.Prelude.{◌≡◌, false};
ghost use Rattle.sj_base.specs.Output.{AppendsOrLeaves};
ghost use Rattle.sj_base.specs.Text.{text};
ghost use Rattle.sj_base.specs.Tree.{boolean};
ghost use Rattle.sj_scripts.specs.Script.{command_view};
ghost use Rattle.sj_records.specs.History.{CommandLeaves, UndoLeaves};
ghost use Rattle.sj_records.specs.Laws.{is_reload};
ghost use Rattle.sj_records.specs.inside.Adds.{Adds};

use sj_base::{Scalar, StaticNode, put_text};
use sj_documents::{Document, Inverse, Undo, WriteResult};
use sj_scripts::Command;
use std::alloc::AllocError;

/// Runs a command on a document, and appends its reply. The command must not be a reload, which only [`run`](crate::run) and
/// its kin make.
///
/// `history` has what takes the document's writes back, the newest last. With [`Undo::Possible`] a write that isn't refused adds
/// its inverse. With [`Undo::Impossible`] no write adds one, which takes less time and memory. `Command::Undo` takes the newest
/// inverse off and makes its change, and replies `false` if there is none, or if the change can't be made. So after a write with
/// `Undo::Impossible` it would take back an older one.
///
/// A value that would nest deeper than `depth` levels in the document is refused. What is there already isn't measured.
///
/// The law [`histories_stand`](crate::laws::histories_stand) says what `undo` brings back, for commands whose values repeat no key.
///
/// # Errors
///
/// `AllocError` if there is no memory for what the call of the document needs, or for one more inverse. `out` is unchanged. The
/// document is unchanged, or the command has been run in full on it, or, in the form `Lazy`, only its repeated members have been
/// dropped. The state of `history` is unspecified.
pub fn apply<T: Document>(
    document: &mut T,
    history: &mut Vec<Inverse>,
    command: &Command,
    depth: usize,
    undo: Undo,
    out: &mut Vec<u8>,
) -> Result<(), AllocError>
    requires { is_reload (command_view command.now) ≡ false }
    ensures { CommandLeaves undo result T.keeping depth (T.tree document.old) (T.tree document.new) history.old.items history.new.items
        out.old.items out.new.items (command_view command.now) }
{
    let start = out.len();
    let written = match command {
        Command::Get(path) => return document.get(path, out),
        Command::Contains(path, key) => return document.contains(path, key, out),
        Command::TypeOf(path) => return document.type_of(path, out),
        Command::Len(path) => return document.len(path, out),
        Command::Keys(path) => return document.keys(path, out),
        Command::Insert(path, key, value) => document.insert(path, key, value, depth, undo, out),
        Command::Remove(path, key) => document.remove(path, key, undo, out),
        Command::Push(path, value) => document.push(path, value, depth, undo, out),
        Command::Pop(path) => document.pop(path, undo, out),
        Command::SetAt(path, value) => document.set_at(path, value, depth, undo, out),
        Command::Undo => return take_back(document, history, out),
        Command::Reload | Command::ReloadPp => unreachable!(),
    };
    add(history, written, start, out)
}

/// Adds the inverse that a write returned, if any. Truncates `out` to `start`, where the reply begins, if there is no memory for
/// the inverse.
fn add(
    history: &mut Vec<Inverse>,
    written: WriteResult,
    start: usize,
    out: &mut Vec<u8>,
) -> Result<(), AllocError>
    ensures { Adds result written history.old.items history.new.items start out.old.items out.new.items }
{
    if let Some(inverse) = written?
        && history.push(inverse).is_err()
    {
        out.truncate(start);
        return Err(AllocError);
    }
    Ok(())
}

/// Takes back the newest write, and appends the reply.
fn take_back<T: Document>(
    document: &mut T,
    history: &mut Vec<Inverse>,
    out: &mut Vec<u8>,
) -> Result<(), AllocError>
    ensures { UndoLeaves result T.keeping (T.tree document.old) (T.tree document.new) history.old.items history.new.items
        out.old.items out.new.items }
{
    let Some(inverse) = history.pop() else {
        return put_bool(false, out);
    };
    let is_made = document.take_back(*out.allocator(), inverse)?;
    put_bool(is_made, out)
}

/// Appends the reply that is a boolean.
pub(crate) fn put_bool(reply: bool, out: &mut Vec<u8>) -> Result<(), AllocError>
    ensures { AppendsOrLeaves result out.old.items out.new.items (text (boolean reply)) }
{
    put_text(out, &Scalar::Static(StaticNode::Bool(reply)))
}
