//! The first repeated key of a value.
ghost use Rattle.std.specs.Prelude.{◌≡◌, ◌≤◌, [], ◌∷◌, ◌++◌, true, length, drop, None, Some, MatchOption, IfOk, OnOk, option_map};
ghost use Rattle.sj_tape.specs.Repeats.{repeated, repeated_in_items, repeated_in_members, is_among, part_view, repeat_view};
ghost use Rattle.sj_tape.specs.Views.{value_tree, array_items, object_members};
ghost use Rattle.sj_tape.specs.inside.Earlier.{growing, texts, Lists, IsAdded};

use crate::array::Array;
use crate::object::Object;
use crate::value::Value;
use std::alloc::{AllocError, Global};
use std::collections::BTreeSet;

/// A step of the path to an object that repeats a key.
#[derive(Clone, Copy, Debug, PartialEq, Eq)]
pub enum RepeatPart<'i> {
    /// The key of a member.
    Key(&'i str),
    /// The place of an item, from 0.
    Item(u64),
}

/// A member whose key stands earlier in the same object.
#[derive(Debug, Drop)]
pub struct Repeat<'i> {
    /// The path to the object, from the value that was searched. It is empty if that value is the object.
    pub path: Vec<RepeatPart<'i>>,
    /// The key, its escapes decoded.
    pub key: &'i str,
}

impl<'i> Repeat<'i> {
    /// Adds the part that leads to what was found from one level further out. The path is built from its end.
    fn inside(mut self, part: RepeatPart<'i>) -> Result<Option<Repeat<'i>>, AllocError>
        ensures { IfOk result (λ found. option_map growing found ≡ Some (part_view part.entry ∷ (growing self.entry).0, (growing self.entry).1)) }
    {
        self.path.push(part)?;
        Ok(Some(self))
    }
}

impl<'i> Value<'_, 'i> {
    /// Returns the first member, in document order, whose key stands earlier in the same object, with the path to that object.
    /// Returns `None` if no object repeats a key. A member comes before the members of its value.
    ///
    /// Takes time that grows with n * log n for an object of n members. The recursion is as deep as the value nests.
    ///
    /// # Errors
    ///
    /// `AllocError` if there is no memory for the keys of the objects that are searched, or for the path.
    pub fn first_repeat(&self, alloc: Global) -> Result<Option<Repeat<'i>>, AllocError>
        ensures { IfOk result (λ found. option_map repeat_view found ≡ repeated (value_tree self.now)) }
    {
        let mut keys = Vec::new(alloc);
        let Some(mut found) = first_in(&mut keys, self)? else {
            return Ok(None);
        };
        found.path.reverse();
        Ok(Some(found))
    }
}

/// `keys` has the keys that stand earlier in the objects around the value. It is as it was where nothing is found.
#[cycle(search)]
fn first_in<'i>(
    keys: &mut Vec<&'i str>,
    value: &Value<'_, 'i>,
) -> Result<Option<Repeat<'i>>, AllocError>
    ensures found { IfOk result (λ found. option_map growing found ≡ repeated (value_tree value.now)) }
    ensures keys { IfOk result (λ found. found ≡ None → keys.new.items ≡ keys.old.items) }
{
    if let Some(items) = value.as_array() {
        return first_in_items(keys, items);
    }
    if let Some(members) = value.as_object() {
        return first_in_members(keys, members);
    }
    Ok(None)
}

#[cycle(search)]
fn first_in_items<'i>(
    keys: &mut Vec<&'i str>,
    items: Array<'_, 'i>,
) -> Result<Option<Repeat<'i>>, AllocError>
    ensures found { IfOk result (λ found. option_map growing found ≡ repeated_in_items 0 (array_items items.entry)) }
    ensures keys { IfOk result (λ found. found ≡ None → keys.new.items ≡ keys.old.items) }
{
    let mut rest = items;
    let mut place = 0;
    while let Some((item, behind)) = rest.split_first() {
        if let Some(found) = first_in(keys, &item)? {
            return found.inside(RepeatPart::Item(place));
        }
        rest = behind;
        place += 1;
    }
    Ok(None)
}

#[cycle(search)]
fn first_in_members<'i>(
    keys: &mut Vec<&'i str>,
    members: Object<'_, 'i>,
) -> Result<Option<Repeat<'i>>, AllocError>
    ensures found { IfOk result (λ found. option_map growing found ≡ repeated_in_members [] (object_members members.entry)) }
    ensures keys { IfOk result (λ found. found ≡ None → keys.new.items ≡ keys.old.items) }
{
    let start = keys.len();
    let mut listed = make_room(keys, members.len())?;
    let mut rest = members;
    while let Some((key, value, behind)) = rest.split_first() {
        if let Some(repeat) = add_key(keys, start, &mut listed, key)? {
            return Ok(Some(repeat));
        }
        if let Some(found) = first_in(keys, &value)? {
            return found.inside(RepeatPart::Key(key));
        }
        rest = behind;
    }
    keys.truncate(start);
    Ok(None)
}

/// The most members of an object whose keys are compared with each other one by one.
const FEW_MEMBERS: usize = 48;

/// The keys of the members before one of an object, where a set lists them.
type Listed<'i> = Option<BTreeSet<&'i str>>;

/// Makes room for the keys of an object of this many members, and lists none yet. An object of more than `FEW_MEMBERS` members has
/// them in a set, since to compare each with all others takes time that grows with the square of their number.
fn make_room<'i>(keys: &mut Vec<&'i str>, len: usize) -> Result<Listed<'i>, AllocError>
    ensures keys { OnOk result (keys.new.items ≡ keys.old.items) }
    ensures lists { IfOk result (λ listed. Lists listed []) }
{
    keys.reserve(len)?;
    if len > FEW_MEMBERS {
        Ok(Some(BTreeSet::new(*keys.allocator())))
    } else {
        Ok(None)
    }
}

/// Returns a [`Repeat`] with an empty path if the key stands earlier in the object whose keys begin at `start`. Else it stands
/// there from now on.
fn add_key<'i>(
    keys: &mut Vec<&'i str>,
    start: usize,
    listed: &mut Listed<'i>,
    key: &'i str,
) -> Result<Option<Repeat<'i>>, AllocError>
    requires within { start ≤ length keys.old.items }
    requires lists { Lists listed.old (texts (drop start keys.old.items)) }
    ensures { IfOk result (λ found. MatchOption found (IsAdded start keys.old.items keys.new.items listed.new key.now)
        (λ repeat. (growing repeat ≡ ([], key.now)) × (is_among key.now (texts (drop start keys.old.items)) ≡ true))) }
{
    if is_met(key, &keys[start..], listed)? {
        let path = Vec::new(*keys.allocator());
        return Ok(Some(Repeat { path, key }));
    }
    keys.push(key)?;
    Ok(None)
}

/// Whether the key is one of those that stand earlier. Where a set lists these, it has the key from now on.
fn is_met<'i>(
    key: &'i str,
    earlier: &[&'i str],
    listed: &mut Listed<'i>,
) -> Result<bool, AllocError>
    requires { Lists listed.old (texts earlier.now) }
    ensures found { IfOk result (λ found. found ≡ is_among key.now (texts earlier.now)) }
    ensures lists { OnOk result (Lists listed.new (texts earlier.now ++ key.now ∷ [])) }
{
    match listed {
        Some(set) => Ok(!set.insert(key)?),
        None => Ok(earlier.contains(&key)),
    }
}
