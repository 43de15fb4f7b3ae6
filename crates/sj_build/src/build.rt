//! Builds documents from tapes.
//!
//! A document is built from the last node of its tape to the first. So a container finds its parts on a stack, and a deep text
//! needs no recursion.
ghost use Rattle.std.specs.Prelude.{◌≡◌, ◌+◌, ◌<◌, ◌↔◌, true, false, [], ◌∷◌, ◌++◌, IsSome, IfOk, OnOk, None, Some, MatchOption, drop, length, map, reverse};
ghost use Rattle.std.specs.Vec.{vec_capacity};
ghost use Rattle.sj_base.specs.Tree.{Tree, no_members};
ghost use Rattle.sj_base.specs.Keep.{keep};
ghost use Rattle.sj_object.specs.Members.{AreMembers, HasRoomForOne};
ghost use Rattle.sj_tape.specs.Nodes.{node_entry};
ghost use Rattle.sj_tape.specs.Views.{tape_nodes, nodes_tree, value_tree as view_tree};
ghost use Rattle.sj_build.specs.inside.Building.{built, shown_tree, shown_key, first_part, behind, is_container, stack, members_shown, place, list_from, object_from, drop_pairs, add_pair};
ghost use Rattle.sj_build.specs.inside.Kept.{add_member, with_last, has_key, mark_of, Knows};

use crate::built::BuildValue;
use sj_base::StaticNode;
use sj_object::{MakeKey, Members};
use sj_tape::{Node, Tape, Value as TapeValue};
use std::alloc::{AllocError, Global};
use std::collections::BTreeSet;

/// The nodes after the one that is built, without those that a container has taken.
#[derive(Drop)]
struct Parts<'de, V> {
    /// The last one is the next. A text is a string or a key, as the container before it decides.
    nodes: Vec<Node<'de>>,
    /// What was built of the containers among them.
    built: Vec<V>,
}

/// The most nodes for which a stack has room at first. The C library serves requests of that size from its cache.
const FIRST_NODES: usize = 42;

/// No parts, with room for this many nodes, but for no more than `FIRST_NODES`.
fn no_parts<'de, V: BuildValue<'de, K> + Drop, K: MakeKey<'de> + Drop>(
    alloc: Global,
    count: usize,
) -> Result<Parts<'de, V>, AllocError>
    ensures { IfOk result (λ parts. stack V.tree parts ≡ []) }
{
    Ok(Parts {
        nodes: Vec::with_capacity(alloc, count.min(FIRST_NODES))?,
        built: Vec::new(alloc),
    })
}

/// Drops what was built of a node, if it is a container.
#[inline(always)]
fn skip<'de, V: BuildValue<'de, K> + Drop, K: MakeKey<'de> + Drop>(
    node: Node<'de>,
    built: &mut Vec<V>,
)
    ensures { reverse built.new.items ≡ behind node.entry (reverse built.old.items) }
{
    match node {
        Node::String(_) | Node::Static(_) | Node::Decimal(_) => {}
        Node::Array { .. } | Node::Object { .. } => drop(built.pop()),
    }
}

/// Drops the next part.
#[inline(always)]
fn skip_part<'de, V: BuildValue<'de, K> + Drop, K: MakeKey<'de> + Drop>(parts: &mut Parts<'de, V>)
    ensures { stack V.tree parts.new ≡ drop 1 (stack V.tree parts.old) }
{
    if let Some(node) = parts.nodes.pop() {
        skip::<V, K>(node, &mut parts.built);
    }
}

/// Takes the next part, and returns it if it is a text.
#[inline(always)]
fn take_key<'de, V: BuildValue<'de, K> + Drop, K: MakeKey<'de> + Drop>(
    parts: &mut Parts<'de, V>,
) -> Option<&'de str>
    ensures key { MatchOption result (shown_key (stack V.tree parts.old) ≡ None)
        (λ key. shown_key (stack V.tree parts.old) ≡ Some key.now) }
    ensures rest { stack V.tree parts.new ≡ drop 1 (stack V.tree parts.old) }
{
    match parts.nodes.pop()? {
        Node::String(key) => Some(key),
        other => {
            skip::<V, K>(other, &mut parts.built);
            None
        }
    }
}

/// Moves the next part to the items, which have room. Each branch puts its own value, so that none is copied on its way out of the
/// `match`.
#[inline(always)]
fn take_item<'de, V: BuildValue<'de, K> + Drop, K: MakeKey<'de> + Drop>(
    alloc: Global,
    parts: &mut Parts<'de, V>,
    items: &mut Vec<V>,
) -> Result<(), AllocError>
    requires { length items.old.items < vec_capacity items.old }
    ensures items { OnOk result (map V.tree items.new.items
        ≡ map V.tree items.old.items ++ shown_tree (first_part (stack V.tree parts.old)) ∷ []) }
    ensures rest { OnOk result (stack V.tree parts.new ≡ drop 1 (stack V.tree parts.old)) }
    ensures len { OnOk result (length items.new.items ≡ length items.old.items + 1) }
    ensures room { vec_capacity items.new ≡ vec_capacity items.old }
{
    // The nodes list a tree, so the part is there, and so is what was built of it. A null would stand for one that isn't.
    match parts.nodes.pop().unwrap_or(Node::Static(StaticNode::Null)) {
        Node::String(text) => items.push_reserved(V::from_text(alloc, text)?),
        Node::Static(scalar) => items.push_reserved(V::from_static(alloc, scalar)?),
        Node::Decimal(literal) => items.push_reserved(V::from_decimal(alloc, literal)?),
        Node::Array { .. } | Node::Object { .. } => match parts.built.pop() {
            Some(value) => items.push_reserved(value),
            None => items.push_reserved(V::from_static(alloc, StaticNode::Null)?),
        },
    }
    Ok(())
}

/// Makes a list of the next parts.
fn take_list<'de, V: BuildValue<'de, K> + Drop, K: MakeKey<'de> + Drop>(
    alloc: Global,
    len: usize,
    parts: &mut Parts<'de, V>,
) -> Result<V, AllocError>
    ensures value { IfOk result (λ v. V.tree v ≡ list_from len (stack V.tree parts.old)) }
    ensures rest { OnOk result (stack V.tree parts.new ≡ drop len (stack V.tree parts.old)) }
{
    let mut items = Vec::with_capacity(alloc, len)?;
    for _i in 0..len {
        take_item(alloc, parts, &mut items)?;
    }
    V::from_array(alloc, items)
}

/// The most members of an object whose keys are looked up in the object itself.
const FEW_MEMBERS: usize = 1024;

/// The number of marks.
const MARKS: usize = 128;

/// The keys that were met.
#[derive(Drop)]
struct MetKeys<'de> {
    /// For each mark, whether a key with it was met. It isn't used where a set lists the keys. A key whose mark wasn't met is new.
    marks: [bool; MARKS],
    /// The keys, where a set lists them.
    listed: Option<BTreeSet<&'de str>>,
}

/// No keys met yet. An object of more than `FEW_MEMBERS` members has them in a set: keys that share a hash stand in one chain of
/// the object's table, and to look up each of them takes time that grows with the square of their number.
fn no_keys<'de>(alloc: Global, len: usize) -> MetKeys<'de>
    ensures knows { Knows result no_members }
    ensures listed { IsSome result.listed ↔ (FEW_MEMBERS < len) }
{
    let listed = if len > FEW_MEMBERS {
        Some(BTreeSet::new(alloc))
    } else {
        None
    };
    MetKeys {
        marks: [false; MARKS],
        listed,
    }
}

/// The mark of a key, by its length and its first and its last byte.
fn mark_of(key: &str) -> usize
    ensures mark { result ≡ mark_of key.now }
    ensures within { result < MARKS }
{
    let bytes = key.as_bytes();
    let (Some(first), Some(last)) = (bytes.first(), bytes.last()) else {
        return 0;
    };
    (7 * (bytes.len() % MARKS) + usize::from(*first) + 11 * usize::from(*last)) % MARKS
}

/// Whether a member has the key, which counts as met from now on.
#[inline(always)]
fn meet<'de, V: BuildValue<'de, K> + Drop, K: MakeKey<'de> + Drop>(
    key: &'de str,
    met: &mut MetKeys<'de>,
    members: &Members<K, V>,
) -> Result<bool, AllocError>
    requires members { AreMembers K.text members.now }
    requires knows { Knows met.old (members_shown K.text V.tree members.now) }
    ensures found { IfOk result (λ found. found ≡ has_key (members_shown K.text V.tree members.now) key.now) }
    ensures knows { (t : Tree) → OnOk result (Knows met.new (add_member (members_shown K.text V.tree members.now) key.now t)) }
{
    match &mut met.listed {
        Some(keys) => Ok(!keys.insert(key)?),
        None => {
            let mark = mark_of(key);
            let is_marked = met.marks[mark];
            met.marks[mark] = true;
            Ok(is_marked && members.contains_key(key))
        }
    }
}

/// Puts a member last, whose key no member has, and for which there is room.
#[inline(always)]
fn put_new<'de, V: BuildValue<'de, K> + Drop, K: MakeKey<'de> + Drop>(
    key: K,
    value: V,
    members: &mut Members<K, V>,
)
    requires members { AreMembers K.text members.old }
    requires room { HasRoomForOne members.old }
    requires new_key { has_key (members_shown K.text V.tree members.old) (K.text key) ≡ false }
    ensures added { members_shown K.text V.tree members.new
        ≡ with_last (members_shown K.text V.tree members.old) (K.text key) (V.tree value) }
    ensures members { AreMembers K.text members.new }
{
    members.push_reserved(key, value);
}

/// Puts a member last as `put_new` does, with the value of the next part, which each branch puts itself as in `take_item`.
#[inline(always)]
fn put_part<'de, V: BuildValue<'de, K> + Drop, K: MakeKey<'de> + Drop>(
    alloc: Global,
    key: K,
    parts: &mut Parts<'de, V>,
    members: &mut Members<K, V>,
) -> Result<(), AllocError>
    requires members { AreMembers K.text members.old }
    requires room { HasRoomForOne members.old }
    requires new_key { has_key (members_shown K.text V.tree members.old) (K.text key) ≡ false }
    ensures added { OnOk result (members_shown K.text V.tree members.new
        ≡ with_last (members_shown K.text V.tree members.old) (K.text key) (shown_tree (first_part (stack V.tree parts.old)))) }
    ensures members { OnOk result (AreMembers K.text members.new) }
    ensures rest { OnOk result (stack V.tree parts.new ≡ drop 1 (stack V.tree parts.old)) }
{
    // As in `take_item`, a null would stand for a part that isn't there.
    match parts.nodes.pop().unwrap_or(Node::Static(StaticNode::Null)) {
        Node::String(text) => put_new(key, V::from_text(alloc, text)?, members),
        Node::Static(scalar) => put_new(key, V::from_static(alloc, scalar)?, members),
        Node::Decimal(literal) => put_new(key, V::from_decimal(alloc, literal)?, members),
        Node::Array { .. } | Node::Object { .. } => match parts.built.pop() {
            Some(value) => put_new(key, value, members),
            None => put_new(key, V::from_static(alloc, StaticNode::Null)?, members),
        },
    }
    Ok(())
}

/// Makes room for a member, and puts it last. No member has its key, and its value is that of the next part.
#[inline(always)]
fn add_part<'de, V: BuildValue<'de, K> + Drop, K: MakeKey<'de> + Drop>(
    alloc: Global,
    key: &'de str,
    parts: &mut Parts<'de, V>,
    members: &mut Members<K, V>,
) -> Result<(), AllocError>
    requires members { AreMembers K.text members.old }
    requires new_key { has_key (members_shown K.text V.tree members.old) key.now ≡ false }
    ensures added { OnOk result (members_shown K.text V.tree members.new
        ≡ with_last (members_shown K.text V.tree members.old) key.now (shown_tree (first_part (stack V.tree parts.old)))) }
    ensures members { OnOk result (AreMembers K.text members.new) }
    ensures rest { OnOk result (stack V.tree parts.new ≡ drop 1 (stack V.tree parts.old)) }
{
    members.make_room()?;
    let key = K::from_text(alloc, key)?;
    put_part(alloc, key, parts, members)
}

/// Moves the next two parts, a key and a value, to the members, unless there is a member with that key. After an error the key may
/// count as met, though no member has it.
#[inline(always)]
fn take_member<'de, V: BuildValue<'de, K> + Drop, K: MakeKey<'de> + Drop>(
    alloc: Global,
    parts: &mut Parts<'de, V>,
    met: &mut MetKeys<'de>,
    members: &mut Members<K, V>,
) -> Result<(), AllocError>
    requires members { AreMembers K.text members.old }
    requires knows { Knows met.old (members_shown K.text V.tree members.old) }
    ensures added { OnOk result (members_shown K.text V.tree members.new
        ≡ add_pair (members_shown K.text V.tree members.old) (stack V.tree parts.old)) }
    ensures members { OnOk result (AreMembers K.text members.new) }
    ensures knows { OnOk result (Knows met.new (members_shown K.text V.tree members.new)) }
    ensures rest { OnOk result (stack V.tree parts.new ≡ drop_pairs 1 (stack V.tree parts.old)) }
{
    let Some(key) = take_key::<V, K>(parts) else {
        skip_part::<V, K>(parts);
        return Ok(());
    };
    if meet(key, met, members)? {
        skip_part::<V, K>(parts);
        return Ok(());
    }
    add_part(alloc, key, parts, members)
}

/// Makes an object of the next parts, a key and a value for each member.
fn take_object<'de, V: BuildValue<'de, K> + Drop, K: MakeKey<'de> + Drop>(
    alloc: Global,
    len: usize,
    parts: &mut Parts<'de, V>,
) -> Result<V, AllocError>
    ensures value { IfOk result (λ v. V.tree v ≡ object_from len (stack V.tree parts.old)) }
    ensures rest { OnOk result (stack V.tree parts.new ≡ drop_pairs len (stack V.tree parts.old)) }
{
    let mut members = Members::with_capacity(alloc, len)?;
    let mut met = no_keys(alloc, len);
    for _i in 0..len {
        take_member(alloc, parts, &mut met, &mut members)?;
    }
    // The set is given back before the object is made.
    drop(met);
    V::from_object(alloc, members)
}

/// Builds the value of a node. A container takes its parts.
#[inline(always)]
fn build<'de, V: BuildValue<'de, K> + Drop, K: MakeKey<'de> + Drop>(
    alloc: Global,
    node: Node<'de>,
    parts: &mut Parts<'de, V>,
) -> Result<V, AllocError>
    ensures value { IfOk result (λ v. V.tree v ≡ shown_tree (first_part (place (node_entry node.entry) (stack V.tree parts.old)))) }
    ensures rest { OnOk result (stack V.tree parts.new ≡ drop 1 (place (node_entry node.entry) (stack V.tree parts.old))) }
{
    match node {
        Node::String(text) => V::from_text(alloc, text),
        Node::Static(scalar) => V::from_static(alloc, scalar),
        Node::Decimal(literal) => V::from_decimal(alloc, literal),
        Node::Array { len, .. } => take_list(alloc, len, parts),
        Node::Object { len, .. } => take_object(alloc, len, parts),
    }
}

/// Puts a container and its value before the parts.
#[inline(always)]
fn put_container<'de, V: BuildValue<'de, K> + Drop, K: MakeKey<'de> + Drop>(
    node: Node<'de>,
    value: V,
    parts: &mut Parts<'de, V>,
) -> Result<(), AllocError>
    requires { is_container node ≡ true }
    ensures { OnOk result (stack V.tree parts.new ≡ built (V.tree value) ∷ stack V.tree parts.old) }
{
    parts.built.push(value)?;
    parts.nodes.push(node)?;
    Ok(())
}

/// Puts a node before the parts. A container takes its own from them, and is built.
#[inline(always)]
fn place<'de, V: BuildValue<'de, K> + Drop, K: MakeKey<'de> + Drop>(
    alloc: Global,
    node: Node<'de>,
    parts: &mut Parts<'de, V>,
) -> Result<(), AllocError>
    ensures { OnOk result (stack V.tree parts.new ≡ place (node_entry node.entry) (stack V.tree parts.old)) }
{
    match node {
        Node::String(_) | Node::Static(_) | Node::Decimal(_) => {
            parts.nodes.push(node)?;
            Ok(())
        }
        Node::Array { .. } | Node::Object { .. } => {
            let value = build(alloc, node, parts)?;
            put_container(node, value, parts)
        }
    }
}

/// Builds the value that a view of a tape shows. Of members with equal keys the first one is kept. Room for the items of an array
/// and for the members of an object is taken once. A view without nodes gives a null.
///
/// # Errors
///
/// `AllocError` if there is no memory for the value, for the stack of its parts, or for the set of the keys of an object with more
/// than 1,024 members. What was built is dropped.
pub fn build_value<'de, V: BuildValue<'de, K> + Drop, K: MakeKey<'de> + Drop>(
    alloc: Global,
    view: TapeValue<'_, 'de>,
) -> Result<V, AllocError>
    ensures { IfOk result (λ v. V.tree v ≡ keep (view_tree view.entry)) }
{
    let nodes = view.nodes();
    // The first node is never a part.
    let mut parts = no_parts(alloc, nodes.len().saturating_sub(1))?;
    let mut left = nodes.len();
    while left > 0 {
        left -= 1;
        let node = nodes[left];
        if left == 0 {
            return build(alloc, node, &mut parts);
        }
        place(alloc, node, &mut parts)?;
    }
    V::from_static(alloc, StaticNode::Null)
}

/// The most nodes whose room is kept until the end.
const KEPT_NODES: usize = 1 << 16;

/// Gives back the room of many nodes once half of it is free.
fn release(nodes: &mut Vec<Node<'_>>)
    ensures { nodes.new.items ≡ nodes.old.items }
{
    if nodes.capacity() > KEPT_NODES && nodes.len() <= nodes.capacity() / 2 {
        nodes.shrink_to_fit();
    }
}

/// Builds the value of a tape, as [`build_value`] does of a view. Of a tape without nodes it is a null.
///
/// A tape of more than 65,536 nodes gives back its room on the way, each time that half of it is free. The nodes of items and
/// members stand on a stack until their container is built.
///
/// # Errors
///
/// `AllocError` if there is no memory for the value, for the stack of its parts, or for the set of the keys of an object with more
/// than 1,024 members. What was built is dropped.
pub fn build_tape<'de, V: BuildValue<'de, K> + Drop, K: MakeKey<'de> + Drop>(
    alloc: Global,
    tape: Tape<'de>,
) -> Result<V, AllocError>
    ensures { IfOk result (λ v. V.tree v ≡ keep (nodes_tree (tape_nodes tape.entry))) }
{
    let mut nodes = tape.into_nodes();
    let mut parts = no_parts(alloc, nodes.len().saturating_sub(1))?;
    while let Some(node) = nodes.pop() {
        if nodes.is_empty() {
            return build(alloc, node, &mut parts);
        }
        place(alloc, node, &mut parts)?;
        release(&mut nodes);
    }
    V::from_static(alloc, StaticNode::Null)
}
