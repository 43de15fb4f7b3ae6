//! What is done to each line of a stream.
ghost use Rattle.std.specs.Prelude.{◌≡◌};
ghost use Rattle.sj_records.specs.History.{undo_for};
ghost use Rattle.sj_scripts.specs.Script.{commands_view};
ghost use Rattle.sj_scripts.specs.Steps.{steps_of};

use crate::form::Form;
use crate::repeats::Repeats;
use sj_documents::Undo;
use sj_scripts::{Command, Script};

/// What is done to each line.
#[derive(Clone, Copy)]
pub(crate) struct Task<'s> {
    pub(crate) script: &'s Script,
    /// The most levels that a document may nest.
    pub(crate) depth: usize,
    pub(crate) form: Form,
    pub(crate) repeats: Repeats,
    /// Whether a command may take a write back.
    pub(crate) undo: Undo,
    ghost needed: { undo ≡ undo_for (steps_of script.now) },
}

/// Returns `Undo::Possible` if one of the commands is `Undo`, and else `Undo::Impossible`.
pub(crate) fn undo_of(commands: &[Command]) -> Undo
    ensures { result ≡ undo_for (commands_view commands.now) }
{
    for command in commands {
        if matches!(command, Command::Undo) {
            return Undo::Possible;
        }
    }
    Undo::Impossible
}
