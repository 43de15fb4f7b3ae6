//! What the commands that read reply, in any form of document.
ghost use Rattle.std.specs.Prelude.{◌≡◌, option_map};
ghost use Rattle.sj_base.specs.Path.{at};
ghost use Rattle.sj_base.specs.Text.{text};
ghost use Rattle.sj_documents.specs.Step.{reply_of, part_at, contains_reply, type_reply, len_reply, keys_reply};
ghost use Rattle.sj_scripts.specs.Script.{path_view};
ghost use Rattle.sj_base.specs.Output.{AppendsOrLeaves};
ghost use Rattle.sj_documents.specs.inside.Documents.{GivesReply, reply_view};
ghost use Rattle.sj_scripts.specs.inside.Output.{AppendsOrGrows};

use crate::part::Part;
use crate::refusal::Refusal;
use sj_base::{Scalar, StaticNode, put_string, put_text, whole_or_none};
use sj_scripts::PathPart;
use std::alloc::AllocError;

/// Returns the part that a path selects.
pub(crate) fn find<P: Part>(document: P, path: &[PathPart]) -> Option<P>
    ensures { option_map P.tree result ≡ at (P.tree document) (path_view path.now) }
{
    let mut found = document;
    for step in path {
        found = found.child(step)?;
    }
    Some(found)
}

fn select<P: Part>(document: P, path: &[PathPart]) -> Result<P, Refusal>
    ensures { GivesReply P.tree result (part_at (P.tree document) (path_view path.now)) }
{
    find(document, path).ok_or(Refusal::NoSuchPath)
}

/// Returns whether the path selects an object with this key, as a scalar, or `NoSuchPath`.
pub(crate) fn contains_at<'s, P: Part>(
    document: P,
    path: &[PathPart],
    key: &str,
) -> Result<Scalar<'s>, Refusal>
    ensures { reply_view result ≡ contains_reply (P.tree document) (path_view path.now) key.now }
{
    let part = select(document, path)?;
    Ok(Scalar::Static(StaticNode::Bool(part.contains_key(key))))
}

/// Returns the word for the type of what the path selects, or `NoSuchPath`.
pub(crate) fn type_at<'s, P: Part>(document: P, path: &[PathPart]) -> Result<Scalar<'s>, Refusal>
    ensures { reply_view result ≡ type_reply (P.tree document) (path_view path.now) }
{
    let part = select(document, path)?;
    Ok(Scalar::Text(part.type_name()))
}

/// Returns the number of items or members of what the path selects, or `NoSuchPath` or `NotAContainer`.
pub(crate) fn len_at<'s, P: Part>(document: P, path: &[PathPart]) -> Result<Scalar<'s>, Refusal>
    ensures { reply_view result ≡ len_reply (P.tree document) (path_view path.now) }
{
    let part = select(document, path)?;
    match part.count() {
        Some(count) => Ok(Scalar::Static(StaticNode::U64(count as u64))),
        None => Err(Refusal::NotAContainer),
    }
}

/// Appends an array of the keys of the object that the path selects, or the word of a refusal.
pub(crate) fn put_keys_at<P: Part>(
    document: P,
    path: &[PathPart],
    out: &mut Vec<u8>,
) -> Result<(), AllocError>
    ensures { AppendsOrLeaves result out.old.items out.new.items (text (keys_reply (P.tree document) (path_view path.now))) }
{
    let part = match select(document, path) {
        Ok(part) => part,
        Err(refusal) => return put_string(out, refusal.name()),
    };
    let start = out.len();
    match part.put_keys(out) {
        Some(printed) => whole_or_none(out, start, printed),
        None => put_string(out, Refusal::NotAnObject.name()),
    }
}

/// Appends a scalar, or the word of a refusal.
pub(crate) fn put_answer(
    answer: Result<Scalar<'_>, Refusal>,
    out: &mut Vec<u8>,
) -> Result<(), AllocError>
    ensures { AppendsOrLeaves result out.old.items out.new.items (text (reply_view answer.entry)) }
{
    match answer {
        Ok(scalar) => put_text(out, &scalar),
        Err(refusal) => put_string(out, refusal.name()),
    }
}

/// Appends an array of the value, or an empty array.
pub(crate) fn put_found<P: Part>(found: Option<P>, out: &mut Vec<u8>) -> Result<(), AllocError>
    ensures { AppendsOrLeaves result out.old.items out.new.items (text (reply_of (option_map P.tree found))) }
{
    let start = out.len();
    let printed = put_reply(found, out);
    whole_or_none(out, start, printed)
}

/// Appends what [`put_found`] appends. After an error a part of it may stay.
fn put_reply<P: Part>(found: Option<P>, out: &mut Vec<u8>) -> Result<(), AllocError>
    ensures { AppendsOrGrows result out.old.items out.new.items (text (reply_of (option_map P.tree found))) }
{
    out.push(b'[')?;
    if let Some(value) = found {
        value.put(out)?;
    }
    out.push(b']')?;
    Ok(())
}
