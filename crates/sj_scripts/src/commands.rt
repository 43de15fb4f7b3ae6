//! Reading the commands of a script from its document.
ghost use Rattle.sj_scripts.specs.Command.{as_part, as_parts, as_path, as_key, path_alone, path_and_key, path_and_value, path_key_value, nullary, command_of, commands_from, commands_in, named};
ghost use Rattle.std.specs.String.{string_bytes};
ghost use Rattle.sj_base.specs.Tree.{list};
ghost use Rattle.sj_base.specs.Scalar.{static_tree};
ghost use Rattle.sj_scripts.specs.Values.{owned_tree};
ghost use Rattle.sj_scripts.specs.inside.Views.{items_view};
ghost use Rattle.sj_scripts.specs.Script.{part_view, path_view, command_view, commands_view};
ghost use Rattle.sj_scripts.specs.inside.ReadErrors.{GivesCommand, GivesSteps};

use crate::memory_or::MemoryOr;
use crate::memory_or::MemoryOr::Refused;
use crate::path::PathPart;
use crate::script::{Command, CommandFault, ScriptFault};
use crate::script_value::ScriptValue;
use sj_base::StaticNode;
use sj_owned::OwnedValue;
use std::alloc::Global;

/// A command or a part of one, or why there is none: it is refused, or an allocation failed.
type Parsed<T> = Result<T, MemoryOr<CommandFault>>;

fn read_part(document: &OwnedValue) -> Parsed<PathPart>
    ensures { GivesCommand part_view result (as_part (owned_tree document.now)) }
{
    match document {
        OwnedValue::String(key) => Ok(PathPart::Key(key.clone()?)),
        OwnedValue::Static(scalar) => read_index(*scalar),
        _ => Err(Refused(CommandFault::BadPath)),
    }
}

fn read_index(scalar: StaticNode) -> Parsed<PathPart>
    ensures { GivesCommand part_view result (as_part (static_tree scalar)) }
{
    match scalar {
        StaticNode::U64(place) => Ok(PathPart::Item(place)),
        StaticNode::I64(place) if place >= 0 => Ok(PathPart::Item(place as u64)),
        _ => Err(Refused(CommandFault::BadPath)),
    }
}

fn read_path(document: &OwnedValue) -> Parsed<Vec<PathPart>>
    ensures { GivesCommand (λ path. path_view path.items) result (as_path (owned_tree document.now)) }
{
    match document {
        OwnedValue::Array(items) => read_path_parts(*items.allocator(), items),
        _ => Err(Refused(CommandFault::BadPath)),
    }
}

fn read_path_parts(alloc: Global, items: &[OwnedValue]) -> Parsed<Vec<PathPart>>
    ensures { GivesCommand (λ path. path_view path.items) result (as_parts (items_view items.now)) }
{
    let mut path = Vec::new(alloc);
    for item in items {
        path.push(read_part(item)?)?;
    }
    Ok(path)
}

fn read_key(document: &OwnedValue) -> Parsed<String>
    ensures { GivesCommand string_bytes result (as_key (owned_tree document.now)) }
{
    match document {
        OwnedValue::String(key) => Ok(key.clone()?),
        _ => Err(Refused(CommandFault::BadKey)),
    }
}

/// Reads the arguments of a command that takes a path.
fn read_path_alone(arguments: &[OwnedValue]) -> Parsed<Vec<PathPart>>
    ensures { GivesCommand (λ path. path_view path.items) result (path_alone (items_view arguments.now)) }
{
    if arguments.len() != 1 {
        return Err(Refused(CommandFault::WrongCount));
    }
    read_path(&arguments[0])
}

/// Reads the arguments of a command that takes a path and a key.
fn read_path_and_key(arguments: &[OwnedValue]) -> Parsed<(Vec<PathPart>, String)>
    ensures { GivesCommand (λ a. (path_view a.0.items, string_bytes a.1)) result (path_and_key (items_view arguments.now)) }
{
    let Some((key, front)) = arguments.split_last() else {
        return Err(Refused(CommandFault::WrongCount));
    };
    let path = read_path_alone(front)?;
    Ok((path, read_key(key)?))
}

/// Reads the arguments of a command that takes a path and a value. The value is moved.
fn read_path_and_value(mut arguments: Vec<OwnedValue>) -> Parsed<(Vec<PathPart>, ScriptValue)>
    ensures { GivesCommand (λ a. (path_view a.0.items, owned_tree a.1.value)) result (path_and_value (items_view arguments.items)) }
{
    let Some(value) = arguments.pop() else {
        return Err(Refused(CommandFault::WrongCount));
    };
    let path = read_path_alone(&arguments)?;
    Ok((path, ScriptValue::new(value)?))
}

/// Reads the arguments of a command that takes a path, a key and a value. The value is moved.
fn read_path_key_value(
    mut arguments: Vec<OwnedValue>,
) -> Parsed<(Vec<PathPart>, String, ScriptValue)>
    ensures { GivesCommand (λ a. (path_view a.0.items, string_bytes a.1, owned_tree a.2.value)) result
        (path_key_value (items_view arguments.items)) }
{
    let Some(value) = arguments.pop() else {
        return Err(Refused(CommandFault::WrongCount));
    };
    let (path, key) = read_path_and_key(&arguments)?;
    Ok((path, key, ScriptValue::new(value)?))
}

/// Returns the command, if there are no arguments.
fn read_nullary(command: Command, arguments: &[OwnedValue]) -> Parsed<Command>
    ensures { GivesCommand command_view result (nullary (command_view command) (items_view arguments.now)) }
{
    if !arguments.is_empty() {
        return Err(Refused(CommandFault::WrongCount));
    }
    Ok(command)
}

fn read_command(document: OwnedValue) -> Parsed<Command>
    ensures { GivesCommand command_view result (command_of (owned_tree document)) }
{
    match document {
        OwnedValue::Array(items) => read_command_items(items),
        _ => Err(Refused(CommandFault::NotAnArray)),
    }
}

/// Reads a command from its items, the name and then the arguments.
fn read_command_items(mut items: Vec<OwnedValue>) -> Parsed<Command>
    ensures { GivesCommand command_view result (command_of (list (items_view items.items))) }
{
    if items.is_empty() {
        return Err(Refused(CommandFault::NoName));
    }
    match items.remove(0) {
        OwnedValue::String(name) => read_named_command(&name, items),
        _ => Err(Refused(CommandFault::NoName)),
    }
}

fn read_named_command(name: &str, arguments: Vec<OwnedValue>) -> Parsed<Command>
    ensures { GivesCommand command_view result (named name.now (items_view arguments.items)) }
{
    match name {
        "get" => Ok(Command::Get(read_path_alone(&arguments)?)),
        "contains" => {
            let (path, key) = read_path_and_key(&arguments)?;
            Ok(Command::Contains(path, key))
        }
        "type" => Ok(Command::TypeOf(read_path_alone(&arguments)?)),
        "len" => Ok(Command::Len(read_path_alone(&arguments)?)),
        "keys" => Ok(Command::Keys(read_path_alone(&arguments)?)),
        "insert" => {
            let (path, key, value) = read_path_key_value(arguments)?;
            Ok(Command::Insert(path, key, value))
        }
        "remove" => {
            let (path, key) = read_path_and_key(&arguments)?;
            Ok(Command::Remove(path, key))
        }
        "push" => {
            let (path, value) = read_path_and_value(arguments)?;
            Ok(Command::Push(path, value))
        }
        "pop" => Ok(Command::Pop(read_path_alone(&arguments)?)),
        "set" => {
            let (path, value) = read_path_and_value(arguments)?;
            Ok(Command::SetAt(path, value))
        }
        "undo" => read_nullary(Command::Undo, &arguments),
        "reload" => read_nullary(Command::Reload, &arguments),
        "reload_pp" => read_nullary(Command::ReloadPp, &arguments),
        _ => Err(Refused(CommandFault::UnknownName)),
    }
}

/// Reads the commands of a script.
pub(crate) fn read_commands(document: OwnedValue) -> Result<Vec<Command>, ScriptFault>
    ensures { GivesSteps (λ commands. commands_view commands.items) result
        (commands_in (owned_tree document)) }
{
    match document {
        OwnedValue::Array(items) => read_command_list(items),
        _ => Err(ScriptFault::NotAnArray),
    }
}

fn read_command_list(items: Vec<OwnedValue>) -> Result<Vec<Command>, ScriptFault>
    ensures { GivesSteps (λ commands. commands_view commands.items) result
        (commands_from 0 (items_view items.items)) }
{
    let mut commands = Vec::new(*items.allocator());
    for (place, item) in items.into_iter().enumerate() {
        match read_command(item) {
            Ok(command) => commands.push(command)?,
            Err(Refused(fault)) => return Err(ScriptFault::Command { place, fault }),
            Err(MemoryOr::Memory) => return Err(ScriptFault::Memory),
        }
    }
    Ok(commands)
}
