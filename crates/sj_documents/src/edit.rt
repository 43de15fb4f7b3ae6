//! Edits of the part of a document that a path selects.
ghost use Rattle.std.specs.Prelude.{◌≡◌, ◌+◌, nat_le, length, not, ◌&&◌, is_some, option_map, IfOk};
ghost use Rattle.sj_owned.specs.Views.{value_tree};
ghost use Rattle.std.specs.String.{string_bytes};
ghost use Rattle.sj_documents.specs.Inverse.{set_member, put_member, add_item};
ghost use Rattle.sj_documents.specs.Inverses.{change_view};
ghost use Rattle.sj_scripts.specs.Script.{path_view};
ghost use Rattle.sj_documents.specs.Step.{Rewrite, write_at, insertion, pushing};
ghost use Rattle.sj_scripts.specs.Values.{owned_tree};
ghost use Rattle.sj_documents.specs.inside.Documents.{rewrite_of, undoing, back_of, is_taken, IsEdited, IsEditBy, IsChangeBy};
ghost use Rattle.sj_object.specs.Pairs.{value_at};

use crate::inverse::Change;
use crate::refusal::Refusal;
use sj_base::{AccessError, DecimalBuf, DecimalCow, StaticNode, TryCopy};
use sj_object::{Object, ObjectKey};
use sj_owned::{FromString, Literal, OwnedValue, Value, from_borrowed};
use sj_scripts::MemoryOr::Refused;
use sj_scripts::{MemoryOr, PathPart};
use std::alloc::{AllocError, Global};
use std::borrow::CowStr;
use std::mem;

/// The value that an edit replaced or took out, if any, or why the edit is refused.
type Edited<V> = Result<Option<V>, MemoryOr<Refusal>>;

/// A type of strings and keys. A document with such strings and keys, and with literals of the type `D`, can be made of an owned
/// document, and be turned into one.
pub trait ScriptText<D: Literal>: FromString {
    /// Converts a value that owns its texts. These are moved.
    ///
    /// # Errors
    ///
    /// `AllocError` if there is no memory for the new value. The old one is dropped.
    fn from_owned(alloc: Global, value: OwnedValue) -> Result<Value<Self, D>, AllocError>
        ensures { IfOk result (λ v. value_tree Self.text D.literal v ≡ owned_tree value) };

    /// Takes a value out, as one that owns its texts. Texts that it owns are moved. Null is left in its place.
    ///
    /// # Errors
    ///
    /// `AllocError` if there is no memory for the owned value. The one that was taken is dropped.
    fn take_owned(alloc: Global, value: &mut Value<Self, D>) -> Result<OwnedValue, AllocError>
        ensures value { IfOk result (λ v. owned_tree v ≡ value_tree Self.text D.literal value.old) }
        ensures left { value.new ≡ Value.Static StaticNode.Null };
}

impl ScriptText<DecimalBuf> for String {
    fn from_owned(_alloc: Global, value: OwnedValue) -> Result<OwnedValue, AllocError> {
        Ok(value)
    }

    fn take_owned(_alloc: Global, value: &mut OwnedValue) -> Result<OwnedValue, AllocError> {
        Ok(mem::take(value))
    }
}

impl<'v> ScriptText<DecimalCow<'v>> for CowStr<'v> {
    fn from_owned(
        alloc: Global,
        value: OwnedValue,
    ) -> Result<Value<CowStr<'v>, DecimalCow<'v>>, AllocError> {
        Value::from_owned(alloc, value)
    }

    fn take_owned(
        alloc: Global,
        value: &mut Value<CowStr<'v>, DecimalCow<'v>>,
    ) -> Result<OwnedValue, AllocError> {
        from_borrowed(alloc, mem::take(value))
    }
}

/// What is done to the part of a document that a path selects.
pub(crate) trait Edit: Sized {
    // What it makes of the tree of the part: the reply and the tree that it leaves, or the word of a refusal.
    ghost rewrite: { Self → Rewrite };

    /// Edits the part, and returns the value that was replaced or taken out, if any.
    fn make<K: ScriptText<D> + Drop, D: Literal + Drop>(
        self,
        alloc: Global,
        part: &mut Value<K, D>,
    ) -> Edited<Value<K, D>>
        ensures { IsEditBy (value_tree K.text D.literal) result part.old part.new (rewrite self) };
}

/// The edit of a write command. `fits` is whether the new value is within the limit of levels there.
#[derive(Clone, Copy)]
pub(crate) enum Write<'e> {
    Insert {
        key: &'e str,
        value: &'e OwnedValue,
        fits: bool,
    },
    Remove {
        key: &'e str,
        /// The place of the key, if it is there, for the inverse. Any number if none is made.
        place: usize,
    },
    Push {
        value: &'e OwnedValue,
        fits: bool,
    },
    Pop,
    Set {
        value: &'e OwnedValue,
        fits: bool,
    },
}

impl Write<'_> {
    /// Returns the change that takes the write back. `found` is the value that it replaced or took out.
    pub(crate) fn inverse(
        self,
        alloc: Global,
        found: Option<OwnedValue>,
    ) -> Result<Change, AllocError>
        ensures { IfOk result (λ change. change_view change ≡ back_of self.entry (option_map owned_tree found)) }
    {
        match self {
            Write::Insert { key, .. } => {
                let key = String::from_str(alloc, key)?;
                match found {
                    Some(value) => Ok(Change::SetMember(key, value)),
                    None => Ok(Change::DropMember(key)),
                }
            }
            Write::Remove { key, place } => match found {
                Some(value) => {
                    let key = String::from_str(alloc, key)?;
                    Ok(Change::PutMember { place, key, value })
                }
                None => Ok(Change::Nothing),
            },
            Write::Push { .. } => Ok(Change::DropItem),
            Write::Pop => Ok(found.map_or(Change::Nothing, Change::AddItem)),
            Write::Set { .. } => Ok(found.map_or(Change::Nothing, Change::SetPart)),
        }
    }
}

/// Returns `true` if a value of `depth` levels stays within the limit in the place of what the path selects.
pub(crate) fn is_within(path: &[PathPart], depth: usize, limit: usize) -> bool
    ensures { result ≡ nat_le (length path.now + depth) limit }
{
    match limit.checked_sub(path.len()) {
        Some(left) => depth <= left,
        None => false,
    }
}

/// Returns `true` if a value of `depth` levels stays within the limit as a member or an item of what the path selects.
pub(crate) fn is_within_below(path: &[PathPart], depth: usize, limit: usize) -> bool
    ensures { result ≡ nat_le (length path.now + 1 + depth) limit }
{
    limit > 0 && is_within(path, depth, limit - 1)
}

/// Edits the part that the path selects, and returns the value that was replaced or taken out, if any.
#[cycle(edit_at)]
pub(crate) fn edit_at<K: ScriptText<D> + Drop, D: Literal + Drop, E: Edit + Drop>(
    alloc: Global,
    document: &mut Value<K, D>,
    path: &[PathPart],
    edit: E,
) -> Edited<Value<K, D>>
    ensures { IsEdited (value_tree K.text D.literal) result (value_tree K.text D.literal document.old) (value_tree K.text D.literal document.new)
        (write_at (value_tree K.text D.literal document.old) (path_view path.now) (E.rewrite edit)) }
{
    let Some((part, rest)) = path.split_first() else {
        return edit.make(alloc, document);
    };
    match part {
        PathPart::Key(name) => {
            let Some(members) = document.as_object_mut() else {
                return Err(Refused(Refusal::NoSuchPath));
            };
            match members.get_mut(name) {
                Some(member) => edit_at(alloc, member, rest, edit),
                None => Err(Refused(Refusal::NoSuchPath)),
            }
        }
        PathPart::Item(place) => {
            let Some(items) = document.as_array_mut() else {
                return Err(Refused(Refusal::NoSuchPath));
            };
            match items.get_mut(*place as usize) {
                Some(item) => edit_at(alloc, item, rest, edit),
                None => Err(Refused(Refusal::NoSuchPath)),
            }
        }
    }
}

impl Edit for Write<'_> {
    ghost rewrite = { rewrite_of };

    fn make<K: ScriptText<D> + Drop, D: Literal + Drop>(
        self,
        alloc: Global,
        part: &mut Value<K, D>,
    ) -> Edited<Value<K, D>> {
        match self {
            Write::Insert { key, value, fits } => insert_member(alloc, part, key, value, fits),
            Write::Remove { key, .. } => match part.remove(key) {
                Ok(old) => Ok(old),
                Err(_) => Err(Refused(Refusal::NotAnObject)),
            },
            Write::Push { value, fits } => push_last(alloc, part, value, fits),
            Write::Pop => match part.pop() {
                Ok(last) => Ok(last),
                Err(_) => Err(Refused(Refusal::NotAnArray)),
            },
            Write::Set { value, fits } => {
                if !fits {
                    return Err(Refused(Refusal::TooDeep));
                }
                let new = K::from_owned(alloc, value.try_clone()?)?;
                Ok(Some(mem::replace(part, new)))
            }
        }
    }
}

/// The change that takes a write back. Where it can't be made, it is refused as `NoSuchPath`.
impl Edit for Change {
    ghost rewrite = { λ change. undoing (change_view change) };

    fn make<K: ScriptText<D> + Drop, D: Literal + Drop>(
        self,
        alloc: Global,
        part: &mut Value<K, D>,
    ) -> Edited<Value<K, D>> {
        if change_part(alloc, part, self)? {
            Ok(None)
        } else {
            Err(Refused(Refusal::NoSuchPath))
        }
    }
}

fn insert_member<K: ScriptText<D> + Drop, D: Literal + Drop>(
    alloc: Global,
    part: &mut Value<K, D>,
    key: &str,
    value: &OwnedValue,
    fits: bool,
) -> Edited<Value<K, D>>
    ensures { IsEditBy (value_tree K.text D.literal) result part.old part.new (insertion fits key.now (owned_tree value.now)) }
{
    let Some(members) = part.as_object_mut() else {
        return Err(Refused(Refusal::NotAnObject));
    };
    if !fits {
        return Err(Refused(Refusal::TooDeep));
    }
    let new = K::from_owned(alloc, value.try_clone()?)?;
    if let Some(member) = members.get_mut(key) {
        return Ok(Some(mem::replace(member, new)));
    }
    let name = K::from_string(String::from_str(alloc, key)?);
    if members.push_new(name, new).is_err() {
        return Err(MemoryOr::Memory);
    }
    Ok(None)
}

fn push_last<K: ScriptText<D> + Drop, D: Literal + Drop>(
    alloc: Global,
    part: &mut Value<K, D>,
    value: &OwnedValue,
    fits: bool,
) -> Edited<Value<K, D>>
    ensures { IsEditBy (value_tree K.text D.literal) result part.old part.new (pushing fits (owned_tree value.now)) }
{
    if !part.is_array() {
        return Err(Refused(Refusal::NotAnArray));
    }
    if !fits {
        return Err(Refused(Refusal::TooDeep));
    }
    match part.push(K::from_owned(alloc, value.try_clone()?)?) {
        Ok(()) => Ok(None),
        Err(_) => Err(MemoryOr::Memory),
    }
}

/// Makes a change of a part, and returns whether it can be made.
fn change_part<K: ScriptText<D> + Drop, D: Literal + Drop>(
    alloc: Global,
    part: &mut Value<K, D>,
    change: Change,
) -> Result<bool, AllocError>
    ensures { IsChangeBy (value_tree K.text D.literal) result part.old part.new (change_view change) }
{
    match change {
        Change::Nothing => Ok(true),
        Change::DropMember(key) => Ok(is_taken(&part.remove(&key))),
        Change::SetMember(key, value) => set_member(alloc, part, key, value),
        Change::PutMember { place, key, value } => put_member(alloc, part, place, key, value),
        Change::DropItem => Ok(is_taken(&part.pop())),
        Change::AddItem(value) => add_item(alloc, part, value),
        Change::SetPart(value) => {
            *part = K::from_owned(alloc, value)?;
            Ok(true)
        }
    }
}

/// Returns `true` if a value was taken out.
fn is_taken<T>(taken: &Result<Option<T>, AccessError>) -> bool
    ensures { result ≡ is_taken taken.now }
{
    matches!(taken, Ok(Some(_)))
}

fn set_member<K: ScriptText<D> + Drop, D: Literal + Drop>(
    alloc: Global,
    part: &mut Value<K, D>,
    key: String,
    value: OwnedValue,
) -> Result<bool, AllocError>
    ensures { IsChangeBy (value_tree K.text D.literal) result part.old part.new (set_member (string_bytes key) (owned_tree value)) }
{
    let name: &str = &key;
    let Some(members) = part.as_object_mut() else {
        return Ok(false);
    };
    let Some(member) = members.get_mut(name) else {
        return Ok(false);
    };
    *member = K::from_owned(alloc, value)?;
    Ok(true)
}

fn put_member<K: ScriptText<D> + Drop, D: Literal + Drop>(
    alloc: Global,
    part: &mut Value<K, D>,
    place: usize,
    key: String,
    value: OwnedValue,
) -> Result<bool, AllocError>
    ensures { IsChangeBy (value_tree K.text D.literal) result part.old part.new (put_member place (string_bytes key) (owned_tree value)) }
{
    let Some(members) = part.as_object_mut() else {
        return Ok(false);
    };
    if !takes_member(members, place, &key) {
        return Ok(false);
    }
    let value = K::from_owned(alloc, value)?;
    if members
        .insert_at(place, K::from_string(key), value)
        .is_err()
    {
        return Err(AllocError);
    }
    Ok(true)
}

/// Returns `true` if a member with this key can be put at a place.
fn takes_member<K: ObjectKey, D: Literal>(
    members: &Object<K, Value<K, D>>,
    place: usize,
    key: &str,
) -> bool
    ensures { result ≡ (not (is_some (value_at K.text members.now key.now)) && nat_le place (length members.now)) }
{
    !members.contains_key(key) && place <= members.len()
}

fn add_item<K: ScriptText<D> + Drop, D: Literal + Drop>(
    alloc: Global,
    part: &mut Value<K, D>,
    value: OwnedValue,
) -> Result<bool, AllocError>
    ensures { IsChangeBy (value_tree K.text D.literal) result part.old part.new (add_item (owned_tree value)) }
{
    if !part.is_array() {
        return Ok(false);
    }
    if part.push(K::from_owned(alloc, value)?).is_err() {
        return Err(AllocError);
    }
    Ok(true)
}
