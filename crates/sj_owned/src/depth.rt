//! How deep documents nest.
ghost use Rattle.std.specs.Prelude.{◌≡◌, ◌+◌, IfOk, OnOk};
ghost use Rattle.sj_base.specs.Keep.{IsKept};
ghost use Rattle.sj_base.specs.Scalar.{scalar_tree};
ghost use Rattle.sj_base.specs.Tree.{depth, items_depth, members_depth, IsValidTree, AreValidItems, AreValidMembers};
ghost use Rattle.sj_owned.specs.Views.{value_tree, items_view, members_view};
ghost use Rattle.sj_owned.specs.inside.Depths.{KeepItems, KeepMembers};

use crate::literal::Literal;
use crate::value::Value;
use sj_base::{Scalar, StaticNode};
use sj_object::{Object, ObjectKey};
use std::alloc::AllocError;

impl<K: ObjectKey, D: Literal> Value<K, D> {
    /// Returns the number of levels that the document nests: 0 for a scalar, and 1 for an array or an object with nothing
    /// inside. On `Ok` the contract also says that no object in the document repeats a key, and that the tree is valid: each
    /// integer is in range, each decimal literal follows the grammar of numbers, and each string and key is UTF-8.
    ///
    /// The recursion is as deep as the document nests.
    ///
    /// # Errors
    ///
    /// `AllocError` if the document nests more levels than a `usize` holds, which none in memory does.
    pub fn depth(&self) -> Result<usize, AllocError>
        ensures levels { IfOk result (λ n. n ≡ depth (value_tree K.text D.literal self.now)) }
        ensures kept { OnOk result (IsKept (value_tree K.text D.literal self.now)) }
        ensures valid { OnOk result (IsValidTree (value_tree K.text D.literal self.now)) }
    {
        count_levels(self)
    }
}

/// One level more, if there is such a number.
fn one_more(levels: usize) -> Result<usize, AllocError>
    ensures { IfOk result (λ n. n ≡ levels + 1) }
{
    levels.checked_add(1).ok_or(AllocError)
}

/// 0, as a scalar holds no other value. What its type says of its parts makes it valid.
#[inline(always)]
fn scalar_levels(scalar: Scalar<'_>) -> usize
    ensures levels { result ≡ 0 }
    ensures valid { IsValidTree (scalar_tree scalar.entry) }
{
    match scalar {
        // Each part alone and under a name, so that what its type says of it is known.
        Scalar::Static(StaticNode::I64(_n)) => 0,
        Scalar::Static(StaticNode::U64(_n)) => 0,
        Scalar::Static(StaticNode::Null | StaticNode::Bool(_)) => 0,
        Scalar::Text(_text) => 0,
        Scalar::Literal(_literal) => 0,
    }
}

#[cycle(count_levels)]
fn count_levels<K: ObjectKey, D: Literal>(value: &Value<K, D>) -> Result<usize, AllocError>
    ensures levels { IfOk result (λ n. n ≡ depth (value_tree K.text D.literal value.now)) }
    ensures kept { OnOk result (IsKept (value_tree K.text D.literal value.now)) }
    ensures valid { OnOk result (IsValidTree (value_tree K.text D.literal value.now)) }
{
    match value {
        Value::Array(items) => one_more(count_item_levels(items)?),
        Value::Object(members) => one_more(count_member_levels(members)?),
        Value::Static(node) => Ok(scalar_levels(Scalar::Static(*node))),
        Value::Decimal(literal) => Ok(scalar_levels(Scalar::Literal(literal.as_decimal()))),
        Value::String(string) => Ok(scalar_levels(Scalar::Text(string.as_text()))),
    }
}

#[cycle(count_levels)]
fn count_item_levels<K: ObjectKey, D: Literal>(
    items: &Vec<Value<K, D>>,
) -> Result<usize, AllocError>
    ensures levels { IfOk result (λ n. n ≡ items_depth (items_view K.text D.literal items.now.items)) }
    ensures kept { OnOk result (KeepItems K.text D.literal items.now.items) }
    ensures valid { OnOk result (AreValidItems (items_view K.text D.literal items.now.items)) }
{
    let mut deepest = 0;
    for item in items {
        deepest = deepest.max(count_levels(item)?);
    }
    Ok(deepest)
}

#[cycle(count_levels)]
fn count_member_levels<K: ObjectKey, D: Literal>(
    members: &Object<K, Value<K, D>>,
) -> Result<usize, AllocError>
    ensures levels { IfOk result (λ n. n ≡ members_depth (members_view K.text D.literal members.now)) }
    ensures kept { OnOk result (KeepMembers K.text D.literal members.now) }
    ensures valid { OnOk result (AreValidMembers (members_view K.text D.literal members.now)) }
{
    // The contract of `len` says that no key stands twice. That of `is_empty` doesn't.
    if members.len() == 0 {
        return Ok(0);
    }
    let mut deepest = 0;
    for (key, member) in members {
        // The key is read, so that it is known to be UTF-8.
        let _text = key.as_text();
        deepest = deepest.max(count_levels(member)?);
    }
    Ok(deepest)
}
