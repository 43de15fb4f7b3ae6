//! Views of the values of a tape.
ghost use Rattle.std.specs.Prelude.{◌≡◌, ◌<◌, ◌++◌, List, [], Some, IfOk, IfSome, drop, is_some, length, ok_or, option_and_then, option_map};
ghost use Rattle.sj_base.specs.Containers.{items_in, members_in, scalar_in};
ghost use Rattle.sj_base.specs.Tree.{Tree, null, IsValidTree};
ghost use Rattle.sj_base.specs.Path.{key, place, member_at, item_at, child};
ghost use Rattle.sj_base.specs.Scalar.{scalar_tree, scalar_type};
ghost use Rattle.sj_reads.specs.Reads.{mismatch, str_read};
ghost use Rattle.sj_tape.specs.Listing.{Entry, listing};
ghost use Rattle.sj_tape.specs.Listed.{IsTape, tree_of};
ghost use Rattle.sj_tape.specs.Nodes.{entries};

use crate::array::Array;
use crate::node::{Node, take_node};
use crate::object::Object;
use sj_base::{Scalar, StaticNode, TryTypeError, ValueType};
use sj_reads::{HasMembers, HasScalar, Member, TypedValue};

/// A view of a value of a tape, or a null that is in no tape. Port of `simd_json::tape::Value` and of its methods from
/// the traits of `value_trait`.
#[derive(Clone, Copy, Debug)]
pub struct Value<'t, 'i> {
    /// The nodes of the value. A null that is in no tape has none.
    pub(crate) nodes: &'t [Node<'i>],
    ghost listed: { IsTape (entries nodes.now) },
    ghost is_valid: { ∥ IsValidTree (tree_of (entries nodes.now)) ∥₁ },
}

impl<'t, 'i> Value<'t, 'i> {
    ghost use Rattle.sj_tape.specs.ByName.{try_nodes, try_member};
    ghost use Rattle.sj_tape.specs.Children.{array_part, object_part, child_nodes};
    ghost use Rattle.sj_tape.specs.Views.{value_nodes, value_tree, value_kind, array_part_of, array_items, object_part_of, object_members, ok_items, ok_members, found_tree, found_nodes, found_items, found_members};

    /// Creates a null that is in no tape.
    #[tactic(auto, unfolding(crate::specs::Listed::tree_of, crate::specs::Listed::listed_tree))]
    pub fn null() -> Value<'t, 'i>
        ensures nodes { value_nodes result ≡ [] }
        ensures tree { value_tree result ≡ null }
        ensures kind { value_kind result ≡ ValueType.Null }
    {
        Value { nodes: &[] }
    }

    /// Returns the first value of the nodes, and the nodes after it.
    #[inline(always)]
    pub(crate) fn split_from(nodes: &'t [Node<'i>]) -> (Value<'t, 'i>, &'t [Node<'i>])
        requires { (t : Tree) × (rest : List Entry) × IsValidTree t × (entries nodes.now ≡ listing t ++ rest) }
        ensures parts { nodes.now ≡ value_nodes result.0 ++ result.1.now }
        ensures tree { (t : Tree) (rest : List Entry) → entries nodes.now ≡ listing t ++ rest
            → (value_tree result.0 ≡ t) × (entries result.1.now ≡ rest) }
        ensures first { (t : Tree) (rest : List Entry) → entries nodes.now ≡ listing t ++ rest
            → entries (value_nodes result.0) ≡ listing t }
    {
        let (first, rest) = nodes.split_at(nodes[0].count() + 1);
        (Value { nodes: first }, rest)
    }

    /// Returns the nodes of the value, in preorder. [`Value::null`] has none.
    #[inline(always)]
    pub fn nodes(&self) -> &'t [Node<'i>]
        ensures nodes { result.now ≡ value_nodes self.now }
        ensures listed { IsTape (entries result.now) }
    {
        self.nodes
    }

    /// Returns the type, which tells an `I64` from a `U64`.
    pub fn value_type(&self) -> ValueType
        ensures { result ≡ value_kind self.now }
    {
        match take_node(self.nodes) {
            Some((first, _)) => first.value_type(),
            None => ValueType::Null,
        }
    }

    /// Returns a view of the array, or `None` if the value isn't an array.
    #[tactic(auto, unfolding(crate::specs::Listed::tree_of))]
    #[inline(always)]
    pub fn as_array(&self) -> Option<Array<'t, 'i>>
        ensures tree { option_map array_items result ≡ items_in (value_tree self.now) }
        ensures nodes { option_map array_part_of result ≡ array_part (value_nodes self.now) }
    {
        let (first, nodes) = take_node(self.nodes)?;
        match first {
            Node::Array { len, .. } => Some(Array { len, nodes }),
            _ => None,
        }
    }

    /// Returns a view of the object, or `None` if the value isn't an object.
    #[tactic(auto, unfolding(crate::specs::Listed::tree_of))]
    #[inline(always)]
    pub fn as_object(&self) -> Option<Object<'t, 'i>>
        ensures tree { option_map object_members result ≡ members_in (value_tree self.now) }
        ensures nodes { option_map object_part_of result ≡ object_part (value_nodes self.now) }
    {
        let (first, nodes) = take_node(self.nodes)?;
        match first {
            Node::Object { len, .. } => Some(Object { len, nodes }),
            _ => None,
        }
    }

    /// Returns `true` if the value is an array.
    pub fn is_array(&self) -> bool
        ensures { result ≡ is_some (items_in (value_tree self.now)) }
    {
        self.as_array().is_some()
    }

    /// Returns `true` if the value is an object.
    pub fn is_object(&self) -> bool
        ensures { result ≡ is_some (members_in (value_tree self.now)) }
    {
        self.as_object().is_some()
    }

    /// Returns a view of the array.
    ///
    /// # Errors
    ///
    /// `TryTypeError` if the value isn't an array. The expected type is `Array`.
    pub fn try_as_array(&self) -> Result<Array<'t, 'i>, TryTypeError>
        ensures tree { ok_items result ≡ ok_or (items_in (value_tree self.now))
            (mismatch ValueType.Array (value_kind self.now)) }
        ensures nodes { IfOk result (λ a. Some (array_part_of a) ≡ array_part (value_nodes self.now)) }
    {
        match self.as_array() {
            Some(array) => Ok(array),
            None => Err(self.mismatch(ValueType::Array)),
        }
    }

    /// Returns a view of the object.
    ///
    /// # Errors
    ///
    /// `TryTypeError` if the value isn't an object. The expected type is `Object`.
    pub fn try_as_object(&self) -> Result<Object<'t, 'i>, TryTypeError>
        ensures tree { ok_members result ≡ ok_or (members_in (value_tree self.now))
            (mismatch ValueType.Object (value_kind self.now)) }
        ensures nodes { IfOk result (λ o. Some (object_part_of o) ≡ object_part (value_nodes self.now)) }
    {
        match self.as_object() {
            Some(object) => Ok(object),
            None => Err(self.mismatch(ValueType::Object)),
        }
    }

    /// Returns the string, which may outlive the tape, or `None` if the value isn't a string.
    #[tactic(auto, unfolding(crate::specs::Listed::tree_of))]
    pub fn into_string(self) -> Option<&'i str>
        ensures { option_map (λ s. s.now) result ≡ str_read (scalar_in (value_tree self.entry)) }
    {
        let (first, _) = take_node(self.nodes)?;
        match first {
            Node::String(text) => Some(text),
            _ => None,
        }
    }

    /// Returns a view of the array, or `None` if the value isn't an array.
    pub fn into_array(self) -> Option<Array<'t, 'i>>
        ensures tree { option_map array_items result ≡ items_in (value_tree self.entry) }
        ensures nodes { option_map array_part_of result ≡ array_part (value_nodes self.entry) }
    {
        self.as_array()
    }

    /// Returns a view of the object, or `None` if the value isn't an object.
    pub fn into_object(self) -> Option<Object<'t, 'i>>
        ensures tree { option_map object_members result ≡ members_in (value_tree self.entry) }
        ensures nodes { option_map object_part_of result ≡ object_part (value_nodes self.entry) }
    {
        self.as_object()
    }

    /// Returns the value of the first member with this key, or `None` if there is none or the value isn't an object.
    pub fn get(&self, name: &str) -> Option<Value<'t, 'i>>
        ensures tree { option_map value_tree result ≡ child (value_tree self.now) (key name.now) }
        ensures nodes { option_map value_nodes result
            ≡ child_nodes (value_nodes self.now) (key name.now) }
    {
        self.as_object()?.get(name)
    }

    /// Returns `true` if the value is an object with a member of this key.
    pub fn contains_key(&self, name: &str) -> bool
        ensures { result ≡ is_some (child (value_tree self.now) (key name.now)) }
    {
        self.get(name).is_some()
    }

    /// Returns the item at this index, or `None` if there is none or the value isn't an array.
    pub fn get_idx(&self, index: usize) -> Option<Value<'t, 'i>>
        ensures tree { option_map value_tree result ≡ child (value_tree self.now) (place index) }
        ensures nodes { option_map value_nodes result
            ≡ child_nodes (value_nodes self.now) (place index) }
    {
        self.as_array()?.get(index)
    }

    /// Returns the array in the first member with this key, or `None` if there is none, it isn't an array, or the value isn't an
    /// object.
    pub fn get_array(&self, name: &str) -> Option<Array<'t, 'i>>
        ensures tree { option_map array_items result
            ≡ option_and_then items_in (child (value_tree self.now) (key name.now)) }
        ensures nodes { option_map array_part_of result
            ≡ option_and_then array_part (child_nodes (value_nodes self.now) (key name.now)) }
    {
        self.get(name)?.as_array()
    }

    /// Returns the object in the first member with this key, or `None` if there is none, it isn't an object, or the value isn't
    /// one.
    pub fn get_object(&self, name: &str) -> Option<Object<'t, 'i>>
        ensures tree { option_map object_members result
            ≡ option_and_then members_in (child (value_tree self.now) (key name.now)) }
        ensures nodes { option_map object_part_of result
            ≡ option_and_then object_part (child_nodes (value_nodes self.now) (key name.now)) }
    {
        self.get(name)?.as_object()
    }

    /// Returns the value of the first member with this key, or `None` if there is none.
    ///
    /// # Errors
    ///
    /// `TryTypeError` if the value isn't an object. The expected type is `Object`.
    pub fn try_get(&self, name: &str) -> Result<Option<Value<'t, 'i>>, TryTypeError>
        ensures tree { found_tree result
            ≡ ok_or (option_map (λ ms. member_at ms name.now) (members_in (value_tree self.now)))
            (mismatch ValueType.Object (value_kind self.now)) }
        ensures nodes { found_nodes result ≡ try_nodes self.now name.now }
    {
        match self.as_object() {
            Some(object) => Ok(object.get(name)),
            None => Err(self.mismatch(ValueType::Object)),
        }
    }

    /// Returns the item at this index, or `None` if there is none.
    ///
    /// # Errors
    ///
    /// `TryTypeError` if the value isn't an array. The expected type is `Array`.
    pub fn try_get_idx(&self, index: usize) -> Result<Option<Value<'t, 'i>>, TryTypeError>
        ensures tree { found_tree result
            ≡ ok_or (option_map (λ ts. item_at ts index) (items_in (value_tree self.now)))
            (mismatch ValueType.Array (value_kind self.now)) }
        ensures nodes { IfOk result (λ found. option_map value_nodes found
            ≡ child_nodes (value_nodes self.now) (place index)) }
    {
        match self.as_array() {
            Some(array) => Ok(array.get(index)),
            None => Err(self.mismatch(ValueType::Array)),
        }
    }

    /// Returns the array in the first member with this key, or `None` if there is none.
    ///
    /// # Errors
    ///
    /// `TryTypeError` if the value isn't an object, with the expected type `Object`, or if the member isn't an array, with
    /// `Array`.
    pub fn try_get_array(&self, name: &str) -> Result<Option<Array<'t, 'i>>, TryTypeError>
        ensures tree { found_items result ≡ try_member items_in ValueType.Array self.now name.now }
        ensures nodes { IfOk result (λ found. option_map array_part_of found
            ≡ option_and_then array_part (child_nodes (value_nodes self.now) (key name.now))) }
    {
        match self.try_get(name)? {
            Some(member) => Ok(Some(member.try_as_array()?)),
            None => Ok(None),
        }
    }

    /// Returns the object in the first member with this key, or `None` if there is none.
    ///
    /// # Errors
    ///
    /// `TryTypeError` if the value isn't an object, with the expected type `Object`, or if the member isn't an object, with
    /// `Object`.
    pub fn try_get_object(&self, name: &str) -> Result<Option<Object<'t, 'i>>, TryTypeError>
        ensures tree { found_members result ≡ try_member members_in ValueType.Object self.now name.now }
        ensures nodes { IfOk result (λ found. option_map object_part_of found
            ≡ option_and_then object_part (child_nodes (value_nodes self.now) (key name.now))) }
    {
        match self.try_get(name)? {
            Some(member) => Ok(Some(member.try_as_object()?)),
            None => Ok(None),
        }
    }

    /// Returns the value as a scalar, whose text may outlive the tape, or `None` if the value is an array or an object.
    #[tactic(auto, unfolding(crate::specs::Listed::tree_of))]
    #[inline(always)]
    pub fn into_scalar(self) -> Option<Scalar<'i>>
        ensures tree { option_map scalar_tree result ≡ scalar_in (value_tree self.entry) }
        ensures kind { IfSome result (λ s. scalar_type s ≡ value_kind self.entry) }
    {
        match take_node(self.nodes) {
            Some((first, _)) => first.scalar(),
            None => Some(Scalar::Static(StaticNode::Null)),
        }
    }

    /// Returns a view of the value whose nodes begin at this index of [`Value::nodes`]. The index has to be below the number of
    /// these nodes. The key of a member is a string here.
    pub fn value_at(&self, index: usize) -> Value<'t, 'i>
        requires { index < length (value_nodes self.now) }
        ensures nodes { (rest : List Node) × (drop index (value_nodes self.now) ≡ value_nodes result ++ rest) }
        ensures listed { entries (value_nodes result) ≡ listing (value_tree result) }
    {
        let (value, _) = Value::split_from(&self.nodes[index..]);
        value
    }

    fn mismatch(&self, expected: ValueType) -> TryTypeError
        ensures { result ≡ mismatch expected (value_kind self.now) }
    {
        TryTypeError {
            expected,
            got: self.value_type(),
        }
    }
}

impl TypedValue for Value<'_, '_> {
    ghost use Rattle.sj_tape.specs.Views.{value_kind};

    ghost kind = { value_kind };

    fn value_type(&self) -> ValueType {
        Value::value_type(self)
    }
}

impl HasScalar for Value<'_, '_> {
    ghost use Rattle.sj_tape.specs.Views.{value_tree};

    ghost scalar = { λ v. scalar_in (value_tree v) };

    #[inline(always)]
    fn scalar(&self) -> Option<Scalar<'_>> {
        self.into_scalar()
    }
}

impl HasMembers for Value<'_, '_> {
    ghost use Rattle.sj_tape.specs.ByName.{member_seen};

    ghost member = { member_seen };

    fn try_member(&self, key: &str) -> Result<Option<Member<'_>>, TryTypeError> {
        match self.try_get(key)? {
            Some(member) => Ok(Some(Member {
                kind: member.value_type(),
                scalar: member.into_scalar(),
            })),
            None => Ok(None),
        }
    }
}
