//! The records of lines that are refused: for their first fault, or for their first repeated key.
ghost use Rattle.std.specs.Prelude.{◌≡◌, ◌++◌, map, OnOk};
ghost use Rattle.sj_base.specs.Text.{text as text_of, items_text};
ghost use Rattle.sj_records.specs.Record.{repeat_record, part_items, part_tree, fault_record, character_of};
ghost use Rattle.sj_tape.specs.Repeats.{part_view, repeat_view};

use crate::separator::put_separator;
use sj_base::{Error, put_int, put_string};
use sj_tape::{Repeat, RepeatPart};
use std::alloc::AllocError;

/// Appends the record of a line that is no document.
pub(crate) fn put_fault_record(fault: Error, out: &mut Vec<u8>) -> Result<(), AllocError>
    ensures { OnOk result (out.new.items ≡ out.old.items ++ text_of (fault_record fault)) }
{
    out.extend_from_slice(b"{\"error\":")?;
    put_string(out, fault.error().name())?;
    out.extend_from_slice(b",\"index\":")?;
    put_int(out, fault.index() as u64)?;
    out.extend_from_slice(b",\"character\":")?;
    put_character(fault.character(), out)?;
    out.push(b'}')?;
    Ok(())
}

/// Appends the record of a line whose document repeats a key, which is refused.
pub(crate) fn put_repeat_record(repeat: &Repeat<'_>, out: &mut Vec<u8>) -> Result<(), AllocError>
    ensures { OnOk result (out.new.items ≡ out.old.items ++ text_of (repeat_record (repeat_view repeat.now))) }
{
    out.extend_from_slice(b"{\"error\":\"RepeatedKey\",\"path\":[")?;
    put_path(&repeat.path, out)?;
    out.extend_from_slice(b"],\"key\":")?;
    put_string(out, repeat.key)?;
    out.push(b'}')?;
    Ok(())
}

/// Appends the keys and places of a path.
fn put_path(path: &[RepeatPart<'_>], out: &mut Vec<u8>) -> Result<(), AllocError>
    ensures { OnOk result (out.new.items ≡ out.old.items ++ items_text (part_items (map part_view path.now))) }
{
    let mut is_first = true;
    for part in path {
        put_separator(is_first, out)?;
        put_part(part, out)?;
        is_first = false;
    }
    Ok(())
}

fn put_part(part: &RepeatPart<'_>, out: &mut Vec<u8>) -> Result<(), AllocError>
    ensures { OnOk result (out.new.items ≡ out.old.items ++ text_of (part_tree (part_view part.now))) }
{
    match part {
        RepeatPart::Key(key) => put_string(out, key),
        RepeatPart::Item(place) => put_int(out, *place),
    }
}

fn put_character(character: Option<char>, out: &mut Vec<u8>) -> Result<(), AllocError>
    ensures { OnOk result (out.new.items ≡ out.old.items ++ text_of (character_of character)) }
{
    match character {
        Some(character) => put_string(out, character.encode_utf8(&mut [0; 4])),
        None => out.extend_from_slice(b"null"),
    }
}
