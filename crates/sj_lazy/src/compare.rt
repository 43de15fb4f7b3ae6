//! Comparisons of lazy values. They take no memory.
//!
//! Two documents are compared by `==` of documents. A part of a tape is walked through, and its repeated keys are passed
//! over. That takes time in proportion to what is compared where the members come in the same order on both sides and no key
//! is repeated. Otherwise keys are looked up, and a look-up in a tape passes over the members before.
ghost use Rattle.std.specs.Prelude.{◌≡◌, true, is_some, map, option_map, IfSome};
ghost use Rattle.std.specs.Cmp.{on_equiv, partial_equiv_from_equiv};
ghost use Rattle.std.specs.Ordering.{on};
ghost use Rattle.sj_base.specs.Alike.{keys_within};
ghost use Rattle.sj_base.specs.Containers.{member_pairs};
ghost use Rattle.sj_base.specs.Path.{member_at};
ghost use Rattle.sj_base.specs.Scalar.{scalar_tree};
ghost use Rattle.sj_base.specs.Tree.{Members, list, object};
ghost use Rattle.sj_owned.specs.Compare.{kept_alike};
ghost use Rattle.sj_owned.specs.inside.Comparing.{kept_alike-equiv};
ghost use Rattle.sj_tape.specs.Views.{value_tree, array_items as tape_items, object_members as tape_members};
ghost use Rattle.sj_lazy.specs.Parts.{array_items, object_members, keys_left};
ghost use Rattle.sj_lazy.specs.Views.{document_tree, lazy_tree};
ghost use Rattle.sj_lazy.specs.inside.Comparing.{next_alike, among, first_keys, all_found};

use crate::array::Array;
use crate::object::{Keys, Object};
use crate::value::Value;
use sj_base::{DecimalCow, Scalar};
use sj_reads::ValueAsScalar;
use sj_tape::{Array as TapeArray, Object as TapeObject, Value as TapeValue};
use sj_values::BorrowedValue;
use std::borrow::CowStr;

/// The document of a scalar, which borrows its text.
pub(crate) fn document_of(scalar: Scalar<'_>) -> BorrowedValue<'_>
    ensures { document_tree result ≡ scalar_tree scalar.entry }
{
    match scalar {
        Scalar::Static(node) => BorrowedValue::Static(node),
        Scalar::Text(text) => BorrowedValue::String(CowStr::Borrowed(text)),
        Scalar::Literal(literal) => BorrowedValue::Decimal(DecimalCow::Borrowed(literal)),
    }
}

/// Returns `true` if the value is a scalar that is equal to this one.
fn is_scalar(value: &Value<'_, '_, '_>, scalar: Scalar<'_>) -> bool
    ensures { result ≡ kept_alike (scalar_tree scalar.entry) (lazy_tree value.now) }
{
    match value.as_scalar() {
        Some(other) => scalar.same(&other),
        None => false,
    }
}

/// Returns `true` if one of the first `count` members has this key.
fn is_among(members: &TapeObject<'_, '_>, count: usize, name: &str) -> bool
    ensures { result ≡ among (first_keys count (tape_members members.now)) name.now }
{
    let mut rest = *members;
    let mut left = count;
    while left > 0 {
        let Some((key, _, behind)) = rest.split_first() else {
            return false;
        };
        if name == key {
            return true;
        }
        rest = behind;
        left -= 1;
    }
    false
}

/// Returns how many members, counted from the first, have the same keys on both sides in the same order.
fn same_front(members: &TapeObject<'_, '_>, others: &Object<'_, '_, '_>) -> usize
    ensures { first_keys result (tape_members members.now) ≡ first_keys result (object_members others.now) }
{
    let mut keys = members.keys();
    let mut other_keys = others.keys();
    for count in 0..members.len() {
        if keys.next() != other_keys.next() {
            return count;
        }
    }
    members.len()
}

/// Returns the members behind the first of these with this key, or `None` if none has it.
fn members_behind<'t, 'i>(members: TapeObject<'t, 'i>, name: &str) -> Option<TapeObject<'t, 'i>>
    ensures found { is_some result ≡ is_some (member_at (tape_members members.entry) name.now) }
    ensures within { IfSome result (λ rest. (all : Members) → keys_within (tape_members members.entry) all ≡ true → keys_within (tape_members rest) all ≡ true) }
{
    let mut rest = members;
    while let Some((key, _, behind)) = rest.split_first() {
        if name == key {
            return Some(behind);
        }
        rest = behind;
    }
    None
}

/// Returns `true` if each of these keys has a member. A key is looked for behind the member of the key before, and only then
/// from the first member on.
fn are_found(keys: Keys<'_, '_, '_>, members: &TapeObject<'_, '_>) -> bool
    ensures { result ≡ all_found (keys_left keys.entry) (tape_members members.now) }
{
    let mut in_order = *members;
    for key in keys {
        if let Some(rest) = members_behind(in_order, key) {
            in_order = rest;
        } else if members.get(key).is_none() {
            return false;
        }
    }
    true
}

/// Returns `true` if each key of the others has a member. The first `front` members have the same keys on both sides in the same
/// order, so keys are looked for only if the others have more.
fn are_all_found(front: usize, others: &Object<'_, '_, '_>, members: &TapeObject<'_, '_>) -> bool
    requires { first_keys front (tape_members members.now) ≡ first_keys front (object_members others.now) }
    ensures { result ≡ all_found (map (λ p. p.0) (member_pairs (object_members others.now))) (tape_members members.now) }
{
    others.len() <= front || are_found(others.keys(), members)
}

#[cycle(same)]
fn same_view(view: &TapeValue<'_, '_>, other: &Value<'_, '_, '_>) -> bool
    ensures { result ≡ kept_alike (value_tree view.now) (lazy_tree other.now) }
{
    if let Some(items) = view.as_array() {
        return match other.as_array() {
            Some(others) => same_items(items, others),
            None => false,
        };
    }
    if let Some(members) = view.as_object() {
        return match other.as_object() {
            Some(others) => same_members(members, others),
            None => false,
        };
    }
    match view.into_scalar() {
        Some(scalar) => is_scalar(other, scalar),
        // A value that isn't a container is a scalar.
        None => unreachable!(),
    }
}

/// Returns `true` if there is a value and it is equal to the part of a tape.
#[cycle(same)]
fn same_next(view: &TapeValue<'_, '_>, next: Option<Value<'_, '_, '_>>) -> bool
    ensures { result ≡ next_alike (value_tree view.now) (option_map lazy_tree next.entry) }
{
    match next {
        Some(other) => same_view(view, &other),
        None => false,
    }
}

#[cycle(same)]
fn same_items(items: TapeArray<'_, '_>, others: Array<'_, '_, '_>) -> bool
    ensures { result ≡ kept_alike (list (tape_items items.entry)) (list (array_items others.entry)) }
{
    if items.len() != others.len() {
        return false;
    }
    let mut rest = items;
    let mut left = others.iter();
    while let Some((item, behind)) = rest.split_first() {
        if !same_next(&item, left.next()) {
            return false;
        }
        rest = behind;
    }
    true
}

/// As long as the keys come in the same order on both sides, the next value there is the one to compare, and no key is looked
/// up. Whether a key is a repeat is asked only where values differ, since few objects repeat one.
#[cycle(same)]
fn same_members(members: TapeObject<'_, '_>, others: Object<'_, '_, '_>) -> bool
    ensures { result ≡ kept_alike (object (tape_members members.entry)) (object (object_members others.entry)) }
{
    let front = same_front(&members, &others);
    let mut rest = members;
    let mut in_order = others.values();
    for count in 0..members.len() {
        let Some((key, value, behind)) = rest.split_first() else {
            unreachable!()
        };
        let other = if count < front {
            in_order.next()
        } else {
            others.get(key)
        };
        if !same_next(&value, other) && !is_among(&members, count, key) {
            return false;
        }
        rest = behind;
    }
    are_all_found(front, &others, &members)
}

/// Two lazy values are equal if the documents made of them are: of a tape only the first member of each key counts.
/// Objects are compared as maps, integers by number and decimal literals by text, as those of documents are.
///
/// The recursion is as deep as the values nest.
impl PartialEq for Value<'_, '_, '_> {
    ghost eq = { on lazy_tree kept_alike };

    ghost laws = { partial_equiv_from_equiv (on_equiv lazy_tree kept_alike-equiv) };

    fn eq(&self, other: &Self) -> bool
        ensures { result ≡ kept_alike (lazy_tree self.now) (lazy_tree other.now) }
    {
        match self {
            Value::Tape(view) => same_view(view, other),
            Value::Value(held) => match other {
                Value::Tape(view) => same_view(view, self),
                Value::Value(others) => held.as_document() == others.as_document(),
            },
        }
    }
}

impl Eq for Value<'_, '_, '_> {
    ghost laws = { on_equiv lazy_tree kept_alike-equiv };
}
