//! Scripts: their commands, and why bytes are no script.
ghost use Rattle.std.specs.Prelude.{◌≡◌, ◌<◌, Ok, length, slice_get, Some, IfOk, IfErr, IsTrue, ◌↔◌};
ghost use Rattle.sj_scripts.specs.declared.script.ScriptFault.TheVariants.{Memory};
ghost use Rattle.sj_scripts.specs.Script.{IsReadAs, command_view, commands_view, IsAccepted, IsRefusedAs, fault_text, command_fault_name};
ghost use Rattle.sj_base.specs.Output.{AppendsOrLeaves};
ghost use Rattle.sj_scripts.specs.inside.Output.{AppendsOrGrows};
ghost use Rattle.sj_scripts.specs.inside.ReadErrors.{IsScriptFault};

use crate::commands::read_commands;
use crate::path::PathPart;
use crate::script_value::ScriptValue;
use sj_base::{Error, ErrorType, put_int, whole_or_none};
use sj_owned::to_owned_value;
use std::alloc::{AllocError, AllocFailed, Global};

/// One command of a script.
///
/// All but `Get`, `Undo` and the reloads reply `"NoSuchPath"` if the path selects nothing. `Insert`, `Remove`, `Push`, `Pop` and
/// `SetAt` are the write commands.
#[derive(Debug, Drop)]
pub enum Command {
    /// Replies with an array of the value that the path selects, or with an empty array.
    Get(Vec<PathPart>),
    /// Replies with whether the path selects an object with this key.
    Contains(Vec<PathPart>, String),
    /// Replies with the type of the value that the path selects: `"null"`, `"bool"`, `"integer"`, `"decimal"`, `"string"`,
    /// `"array"` or `"object"`.
    TypeOf(Vec<PathPart>),
    /// Replies with the number of items or members, or `"NotAContainer"`.
    Len(Vec<PathPart>),
    /// Replies with an array of the keys, in order, or `"NotAnObject"`.
    Keys(Vec<PathPart>),
    /// Replaces the value of a key, or adds a member at the end. Replies with an array of the old value, or an empty array,
    /// or else `"NotAnObject"` or `"TooDeep"`.
    Insert(Vec<PathPart>, String, ScriptValue),
    /// Takes out the member of a key. Replies with an array of its value, or an empty array, or else `"NotAnObject"`.
    Remove(Vec<PathPart>, String),
    /// Adds an item at the end. Replies with an empty array, or else `"NotAnArray"` or `"TooDeep"`.
    Push(Vec<PathPart>, ScriptValue),
    /// Takes out the last item. Replies with an array of it, or an empty array, or else `"NotAnArray"`.
    Pop(Vec<PathPart>),
    /// Replaces the value that the path selects. Replies with an array of the old value, or else `"TooDeep"`.
    SetAt(Vec<PathPart>, ScriptValue),
    /// Takes back the newest write that was not refused and is not taken back yet. Replies with `true`, or with `false` if there
    /// is none.
    Undo,
    /// Prints the document as compact text, and reads that text in its place. The document stays the same. Replies with
    /// `true`, or with `false` if the text has more than `u32::MAX` bytes. Such a text is not read.
    Reload,
    /// As `Reload`, with the indented text.
    ReloadPp,
}

/// Why a command of a script is refused. The faults are looked for in this order.
#[derive(Clone, Copy, Debug, PartialEq, Eq, thiserror::Error)]
pub enum CommandFault {
    /// The command is not an array.
    #[error("NotAnArray")]
    NotAnArray,
    /// The command has no first item, or one that is not a string.
    #[error("NoName")]
    NoName,
    /// No command has this name.
    #[error("UnknownName")]
    UnknownName,
    /// The command of this name takes another number of arguments.
    #[error("WrongCount")]
    WrongCount,
    /// The path is not an array of strings and integers from 0 to 2^64 - 1.
    #[error("BadPath")]
    BadPath,
    /// The key is not a string.
    #[error("BadKey")]
    BadKey,
}

/// Why a script is refused: its first fault. It is displayed as its variant's name. [`ScriptFault::put_fault`] has the whole text.
#[derive(Clone, Copy, Debug, PartialEq, Eq, thiserror::Error)]
pub enum ScriptFault {
    /// The bytes are not a JSON document of at most 1024 levels and `u32::MAX` bytes.
    #[error("Json")]
    Json(Error),
    /// The document is not an array.
    #[error("NotAnArray")]
    NotAnArray,
    /// The command at index `place`, from 0, is refused, for the reason `fault`.
    #[error("Command")]
    Command { place: usize, fault: CommandFault },
    /// An allocation failed.
    #[error("Memory")]
    Memory,
}

impl From<Error> for ScriptFault {
    ghost from_gives = { IsScriptFault };

    fn from(error: Error) -> ScriptFault {
        match error.error() {
            ErrorType::OutOfMemory => ScriptFault::Memory,
            _ => ScriptFault::Json(error),
        }
    }
}

impl From<AllocError> for ScriptFault {
    ghost from_gives = { λ _ e. e ≡ Memory };

    fn from(_e: AllocError) -> ScriptFault {
        ScriptFault::Memory
    }
}

impl<T: Drop> From<AllocFailed<T>> for ScriptFault {
    ghost from_gives = { λ _ e. e ≡ Memory };

    fn from(_e: AllocFailed<T>) -> ScriptFault {
        ScriptFault::Memory
    }
}

impl CommandFault {
    fn name(self) -> &'static str
        ensures { result.now ≡ command_fault_name self }
    {
        match self {
            CommandFault::NotAnArray => "NotAnArray",
            CommandFault::NoName => "NoName",
            CommandFault::UnknownName => "UnknownName",
            CommandFault::WrongCount => "WrongCount",
            CommandFault::BadPath => "BadPath",
            CommandFault::BadKey => "BadKey",
        }
    }
}

impl ScriptFault {
    /// Appends the text that says why the script is refused, such as `command 0: UnknownName`.
    ///
    /// # Errors
    ///
    /// `AllocError` if there is no memory for the text. Nothing is then appended.
    pub fn put_fault(&self, out: &mut Vec<u8>) -> Result<(), AllocError>
        ensures { AppendsOrLeaves result out.old.items out.new.items (fault_text self.now) }
    {
        let start = out.len();
        let printed = put_parts(self, out);
        whole_or_none(out, start, printed)
    }
}

/// Appends the fault's text. After an error a part of it may stay.
fn put_parts(fault: &ScriptFault, out: &mut Vec<u8>) -> Result<(), AllocError>
    ensures { AppendsOrGrows result out.old.items out.new.items (fault_text fault.now) }
{
    match fault {
        ScriptFault::Json(e) => {
            out.extend_from_slice(e.error().name().as_bytes())?;
            out.extend_from_slice(b" at ")?;
            put_int(out, e.index() as u64)
        }
        ScriptFault::NotAnArray => out.extend_from_slice(b"NotAnArray"),
        ScriptFault::Command { place, fault } => {
            out.extend_from_slice(b"command ")?;
            put_int(out, *place as u64)?;
            out.extend_from_slice(b": ")?;
            out.extend_from_slice(fault.name().as_bytes())
        }
        ScriptFault::Memory => out.extend_from_slice(b"memory"),
    }
}

/// The commands that run on each line.
#[derive(Debug, Drop)]
pub struct Script {
    commands: Vec<Command>,
    ghost is_accepted: { ∥ IsAccepted (commands_view commands.items) ∥₁ },
}

impl Script {
    ghost use Rattle.sj_scripts.specs.Steps.{steps_of};

    /// Reads a script: a JSON array of commands, each an array of its name and its arguments.
    ///
    /// The bytes may be rewritten, also where the call ends with an error. A script nests at most 1024 levels. In its values only
    /// the first of members with equal keys is kept.
    ///
    /// # Errors
    ///
    /// Returns the first fault of the script, or `ScriptFault::Memory` if an allocation failed.
    pub fn read(alloc: Global, bytes: &mut [u8]) -> Result<Script, ScriptFault>
        ensures ok { IfOk result (λ script. IsReadAs bytes.entry.now (Ok (steps_of script))) }
        ensures refused { IfErr result (λ fault. IsRefusedAs fault bytes.entry.now) }
    {
        let document = to_owned_value(alloc, bytes)?;
        let commands = read_commands(document)?;
        Ok(Script { commands })
    }

    /// Returns the number of commands.
    pub fn len(&self) -> usize
        ensures { result ≡ length (steps_of self.now) }
    {
        self.commands.len()
    }

    /// Returns `true` if the script has no commands.
    pub fn is_empty(&self) -> bool
        ensures { IsTrue result ↔ (length (steps_of self.now) ≡ 0) }
    {
        self.commands.is_empty()
    }

    /// Returns the command at this index, from 0, which has to be below [`Script::len`].
    pub fn command(&self, place: usize) -> &Command
        requires { place < length (steps_of self.now) }
        ensures { slice_get (steps_of self.now) place ≡ Some (command_view result.now) }
    {
        &self.commands[place]
    }

    /// Returns the commands.
    pub fn commands(&self) -> &[Command]
        ensures commands { commands_view result.now ≡ steps_of self.now }
        ensures accepted { ∥ IsAccepted (steps_of self.now) ∥₁ }
    {
        self.commands.as_slice()
    }
}
