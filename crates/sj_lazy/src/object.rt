//! Objects of lazy values.
ghost use Rattle.std.specs.Prelude.{◌≡◌, ◌↔◌, ⊤, false, IsTrue, IfSome, Some, option_map, length, map};
ghost use Rattle.std.specs.Cow.{cow_str_bytes};
ghost use Rattle.std.specs.Option.{option_copied};
ghost use Rattle.std.specs.Iterator.{YieldsFirstBy, MakesProgress, UpTo, item_count};
ghost use Rattle.std.specs.Iterator.SizeHint.{IsWithinCount};
ghost use Rattle.sj_base.specs.Containers.{members_len, member_pairs};
ghost use Rattle.sj_base.specs.Path.{member_at};
ghost use Rattle.sj_base.specs.Scalar.{decimal_cow_text};
ghost use Rattle.sj_object.specs.Pairs.{value_at};
ghost use Rattle.sj_owned.specs.Views.{members_view};
ghost use Rattle.sj_lazy.specs.Views.{document_tree};

use crate::value::Value;
use sj_object::ObjectKey;
use sj_tape::{Object as TapeObject, object};
use sj_values::BorrowedValue;
use sj_values::borrowed::Object as Members;
use std::borrow::CowStr;
use std::iter::{ExactSizeIterator, FusedIterator};

/// The members of an object of a lazy value. Port of `simd_json::value::lazy::Object`.
///
/// Of a tape these are all members, also those that repeat a key.
#[derive(Clone, Copy, Debug)]
pub enum Object<'b, 't, 'i> {
    /// An object of a tape.
    Tape(TapeObject<'t, 'i>),
    /// The members of an object of a document.
    Value(&'b Members<'i>),
}

impl<'b, 't, 'i: 'b> Object<'b, 't, 'i> {
    ghost use Rattle.sj_lazy.specs.Contents.{contents};
    ghost use Rattle.sj_lazy.specs.Upgrade.{owns};
    ghost use Rattle.sj_lazy.specs.Views.{lazy_tree, contents_tree};
    ghost use Rattle.sj_lazy.specs.Parts.{object_members, object_contents, member_within, object_parts, pairs_left, keys_left, values_left, pair_tree};

    /// Returns the number of members.
    pub fn len(&self) -> usize
        ensures { result ≡ members_len (object_members self.now) }
    {
        match self {
            Object::Tape(members) => members.len(),
            Object::Value(members) => members.len(),
        }
    }

    /// Returns `true` if the object has no members.
    pub fn is_empty(&self) -> bool
        ensures { IsTrue result ↔ (members_len (object_members self.now) ≡ 0) }
    {
        self.len() == 0
    }

    /// Returns the value of the first member with this key, or `None` if there is none.
    ///
    /// In a tape, the members before it are skipped one by one.
    pub fn get(&self, name: &str) -> Option<Value<'b, 't, 'i>>
        ensures tree { option_map lazy_tree result ≡ member_at (object_members self.now) name.now }
        ensures part { option_map contents result ≡ member_within (object_contents self.now) name.now }
        ensures held { IfSome result (λ v. owns v ≡ false) }
    {
        match self {
            Object::Tape(members) => Value::of_tape(members.get(name)),
            Object::Value(members) => Value::of_document(member(members, name)),
        }
    }

    /// Returns an iterator over the members in order.
    pub fn iter(&self) -> Iter<'b, 't, 'i>
        ensures parts { pairs_left result ≡ object_parts self.now }
        ensures members { map pair_tree (pairs_left result) ≡ member_pairs (object_members self.now) }
        ensures count { length (pairs_left result) ≡ members_len (object_members self.now) }
    {
        match self {
            Object::Tape(members) => Iter::Tape(members.iter()),
            Object::Value(members) => Iter::Value(members.iter()),
        }
    }

    /// Returns an iterator over the keys in order.
    pub fn keys(&self) -> Keys<'b, 't, 'i>
        ensures keys { keys_left result ≡ map (λ p. p.0) (member_pairs (object_members self.now)) }
        ensures count { length (keys_left result) ≡ members_len (object_members self.now) }
    {
        match self {
            Object::Tape(members) => Keys::Tape(members.keys()),
            Object::Value(members) => Keys::Value(members.keys()),
        }
    }

    /// Returns an iterator over the values in order.
    pub fn values(&self) -> Values<'b, 't, 'i>
        ensures parts { values_left result ≡ map (λ p. p.1) (object_parts self.now) }
        ensures values { map contents_tree (values_left result) ≡ map (λ p. p.1) (member_pairs (object_members self.now)) }
        ensures count { length (values_left result) ≡ members_len (object_members self.now) }
    {
        match self {
            Object::Tape(members) => Values::Tape(members.values()),
            Object::Value(members) => Values::Value(members.values()),
        }
    }
}

impl<'b, 't, 'i: 'b> IntoIterator for &Object<'b, 't, 'i> {
    type Item = (&'b str, Value<'b, 't, 'i>);

    type IntoIter = Iter<'b, 't, 'i>;

    ghost use Rattle.sj_lazy.specs.Parts.{object_members, object_parts, pair_tree, pairs_left};

    ghost into_iter_gives = { λ object it. (pairs_left it ≡ object_parts object.now)
        × (map pair_tree (pairs_left it) ≡ member_pairs (object_members object.now))
        × (length (pairs_left it) ≡ members_len (object_members object.now)) };

    fn into_iter(self) -> Iter<'b, 't, 'i> {
        self.iter()
    }
}

fn member<'b, 'i>(members: &'b Members<'i>, name: &str) -> Option<&'b BorrowedValue<'i>>
    ensures value { option_copied result ≡ value_at cow_str_bytes members.now name.now }
    ensures tree { option_map (λ d. document_tree d.now) result
        ≡ member_at (members_view cow_str_bytes decimal_cow_text members.now) name.now }
{
    members.get(name)
}

/// An iterator over the members of an object in order. After the last member it returns `None` at each call.
#[derive(Debug, Drop)]
pub enum Iter<'b, 't, 'i> {
    /// The members of a tape.
    Tape(object::Iter<'t, 'i>),
    /// The members of a document.
    Value(sj_object::Iter<'b, CowStr<'i>, BorrowedValue<'i>>),
}

impl<'b, 't, 'i: 'b> Iterator for Iter<'b, 't, 'i> {
    type Item = (&'b str, Value<'b, 't, 'i>);

    ghost use Rattle.sj_lazy.specs.Contents.{contents};
    ghost use Rattle.sj_lazy.specs.Parts.{pairs_left};
    ghost use Rattle.sj_lazy.specs.Upgrade.{owns};

    ghost next_gives = { YieldsFirstBy (λ p. (p.0.now, contents p.1)) pairs_left };

    ghost remaining = { item_count pairs_left };

    fn next(&mut self) -> Option<(&'b str, Value<'b, 't, 'i>)>
        ensures steps { YieldsFirstBy (λ p. (p.0.now, contents p.1)) pairs_left self.old result self.new }
        ensures goes { MakesProgress (λ _. ⊤) (item_count pairs_left) self.old result self.new }
        ensures held { IfSome result (λ p. owns p.1 ≡ false) }
    {
        match self {
            Iter::Tape(members) => {
                let (key, value) = members.next()?;
                Some((key, Value::Tape(value)))
            }
            Iter::Value(members) => {
                let (key, value) = members.next()?;
                Some((key.as_text(), Value::borrowed(value)))
            }
        }
    }

    fn size_hint(&self) -> (usize, Option<usize>)
        ensures lower { IsWithinCount result.0 (item_count pairs_left self.now) }
        ensures upper { IfSome result.1 (UpTo (item_count pairs_left self.now)) }
        ensures exact { result ≡ (length (pairs_left self.now), Some (length (pairs_left self.now))) }
    {
        let len = self.len();
        (len, Some(len))
    }
}

impl<'b, 'i: 'b> ExactSizeIterator for Iter<'b, '_, 'i> {
    fn len(&self) -> usize {
        match self {
            Iter::Tape(members) => members.len(),
            Iter::Value(members) => members.len(),
        }
    }
}

impl<'b, 'i: 'b> FusedIterator for Iter<'b, '_, 'i> {}

/// An iterator over the keys of an object in order. After the last key it returns `None` at each call.
#[derive(Debug, Drop)]
pub enum Keys<'b, 't, 'i> {
    /// The keys of a tape.
    Tape(object::Keys<'t, 'i>),
    /// The keys of a document.
    Value(sj_object::Keys<'b, CowStr<'i>, BorrowedValue<'i>>),
}

impl<'b, 't, 'i: 'b> Iterator for Keys<'b, 't, 'i> {
    type Item = &'b str;

    ghost use Rattle.sj_lazy.specs.Parts.{keys_left};

    ghost next_gives = { YieldsFirstBy (λ k. k.now) keys_left };

    ghost remaining = { item_count keys_left };

    fn next(&mut self) -> Option<&'b str> {
        match self {
            Keys::Tape(keys) => Some(keys.next()?),
            Keys::Value(keys) => Some(keys.next()?.as_text()),
        }
    }

    fn size_hint(&self) -> (usize, Option<usize>)
        ensures lower { IsWithinCount result.0 (item_count keys_left self.now) }
        ensures upper { IfSome result.1 (UpTo (item_count keys_left self.now)) }
        ensures exact { result ≡ (length (keys_left self.now), Some (length (keys_left self.now))) }
    {
        let len = self.len();
        (len, Some(len))
    }
}

impl<'b, 'i: 'b> ExactSizeIterator for Keys<'b, '_, 'i> {
    fn len(&self) -> usize {
        match self {
            Keys::Tape(keys) => keys.len(),
            Keys::Value(keys) => keys.len(),
        }
    }
}

impl<'b, 'i: 'b> FusedIterator for Keys<'b, '_, 'i> {}

/// An iterator over the values of an object in order. After the last value it returns `None` at each call.
#[derive(Debug, Drop)]
pub enum Values<'b, 't, 'i> {
    /// The values of a tape.
    Tape(object::Values<'t, 'i>),
    /// The values of a document.
    Value(sj_object::Values<'b, CowStr<'i>, BorrowedValue<'i>>),
}

impl<'b, 't, 'i: 'b> Iterator for Values<'b, 't, 'i> {
    type Item = Value<'b, 't, 'i>;

    ghost use Rattle.sj_lazy.specs.Contents.{contents};
    ghost use Rattle.sj_lazy.specs.Parts.{values_left};
    ghost use Rattle.sj_lazy.specs.Upgrade.{owns};

    ghost next_gives = { YieldsFirstBy contents values_left };

    ghost remaining = { item_count values_left };

    fn next(&mut self) -> Option<Value<'b, 't, 'i>>
        ensures steps { YieldsFirstBy contents values_left self.old result self.new }
        ensures goes { MakesProgress (λ _. ⊤) (item_count values_left) self.old result self.new }
        ensures held { IfSome result (λ v. owns v ≡ false) }
    {
        match self {
            Values::Tape(values) => Some(Value::Tape(values.next()?)),
            Values::Value(values) => Some(Value::borrowed(values.next()?)),
        }
    }

    fn size_hint(&self) -> (usize, Option<usize>)
        ensures lower { IsWithinCount result.0 (item_count values_left self.now) }
        ensures upper { IfSome result.1 (UpTo (item_count values_left self.now)) }
        ensures exact { result ≡ (length (values_left self.now), Some (length (values_left self.now))) }
    {
        let len = self.len();
        (len, Some(len))
    }
}

impl<'b, 'i: 'b> ExactSizeIterator for Values<'b, '_, 'i> {
    fn len(&self) -> usize {
        match self {
            Values::Tape(values) => values.len(),
            Values::Value(values) => values.len(),
        }
    }
}

impl<'b, 'i: 'b> FusedIterator for Values<'b, '_, 'i> {}
