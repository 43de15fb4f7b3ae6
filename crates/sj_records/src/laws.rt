//! Laws of the definitions. The contract of each function is the law. A body is empty, or calls laws that the proof needs.
//!
//! The base of a write is the tree that it is made on, which `undo` brings back.
ghost use Rattle.sj_records.specs.Laws.{OneRecord, OneReading, DepthStays, NoneIsRepeated, BasesAreKept, TreesAreKept, FormsAgree, RefusingFormsAgree, NoLineFeed, ChangesNothing, ScriptsContinue};
ghost use Rattle.sj_records.specs.Laws.{InsertUndone, RemoveUndone, PushUndone, PopUndone, SetUndone, HistoriesStand};
ghost use Rattle.sj_scripts.specs.Command.{reload, reload_pp};
ghost use Rattle.sj_base.specs.Text.{text, pretty};

/// Each line has exactly one record, whatever the script, the limit of levels, the form and the rule for repeated keys.
pub fn one_record()
    ensures { OneRecord }
{}

/// Any bytes are read as exactly one list of commands, or as exactly one refusal.
pub fn one_reading()
    ensures { OneReading }
{}

/// Along a script, each tree and each base nests at most as deep as the limit, if the line's tree does. Where repeated keys are
/// refused and the line isn't, none of them repeats a key, for any script that `Script::read` accepts.
pub fn depth_stays()
    ensures depth { DepthStays }
    ensures keys { NoneIsRepeated }
{}

/// A line whose document repeats no key has the same record in each form, for any script that `Script::read` accepts. Where
/// repeated keys are refused, this holds of every line, also of one that repeats a key.
pub fn forms_agree()
    ensures kept { FormsAgree }
    ensures refused { RefusingFormsAgree }
{}

/// Along a script that `Script::read` accepts, no base repeats a key, and no tree does once repeated keys have been dropped.
pub fn kept_along()
    ensures bases { BasesAreKept }
    ensures trees { TreesAreKept }
{}

/// Two scripts can be run one after the other. The second, on the document that the first printed, gives the replies and the
/// document that it gives after the first, under the same limit of levels, form and rule for repeated keys.
///
/// This holds if `Script::read` accepts the first script, its line isn't refused for a repeated key, the second script has no
/// `undo`, and the printed document has at most 4294967295 bytes.
pub fn scripts_continue()
    ensures { ScriptsContinue }
{
    sj_base::laws::printing_reads_back();
}

/// A reload changes nothing: a record with replies has one more with it, and any other record is the same.
pub fn reload_changes_nothing()
    ensures compact { ChangesNothing reload text }
    ensures indented { ChangesNothing reload_pp pretty }
{}

/// A write that isn't refused, on a tree that repeats no key, is taken back by a change at its path, which is made of its key,
/// the key's place before the write, and the value of its reply.
pub fn inverse_undoes()
    ensures insert { InsertUndone }
    ensures remove { RemoveUndone }
    ensures push { PushUndone }
    ensures pop { PopUndone }
    ensures set { SetUndone }
{}

/// A document and its history that stand for a state stand for the state after a command that [`apply`](crate::apply) runs, and
/// the reply is that of the state. The value that a command writes has to repeat no key, as none in a script does. With
/// [`Undo::Impossible`](crate::Undo::Impossible) this holds of any command but `Undo`, and nothing is asked of the history.
pub fn histories_stand()
    ensures { HistoriesStand }
{}

/// No record holds a line feed, for any script that `Script::read` accepts.
pub fn no_line_feed()
    ensures { NoLineFeed }
{
    sj_base::laws::printed_bytes();
}
