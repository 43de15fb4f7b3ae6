//! Containers: they are opened and closed on the stack, and their nodes are completed.
ghost use Rattle.std.specs.Prelude.{◌≡◌, List, [], ◌∷◌, ◌++◌, ◌+◌, ◌<◌, ◌≤◌, ◌^◌, true, OnOk, length, vec_len, vec_capacity};
ghost use Rattle.sj_base.specs.Tree.{Tree, list, object, Items, Members};
ghost use Rattle.sj_tape.specs.Listing.{listing};
ghost use Rattle.sj_tape.specs.Nodes.{entries, node_entry};
ghost use Rattle.sj_parse.specs.Token.{Token};
ghost use Rattle.sj_parse.specs.Nodes.{makes_node, HasCarrier, HaveCarriers};
ghost use Rattle.sj_parse.specs.inside.Machine.{Waiting, waiting_entries, waiting_stack, array_entries, object_entries, array_frame, object_frame, after_value, opened, frame_entry, config_state, config_stack, IsAt};
ghost use Rattle.sj_parse.specs.inside.Step.{Opens, Closes};

use crate::descent_fault::{DescentKind, Stop};
use crate::stage_two::State;
use sj_tape::Node;

/// A container that is open. The stack of the descent holds one for each.
#[derive(Clone, Copy, Debug)]
pub struct Frame {
    /// The index of its node.
    start: usize,
    /// The number of items or members so far.
    len: usize,
    is_object: bool,
}

impl Frame {
    /// The node of the container, with that many nodes beneath.
    #[inline(always)]
    fn node<'i>(self, count: usize) -> Node<'i>
        ensures entry { node_entry result ≡ frame_entry self count }
        ensures carrier { (t : Token) → HasCarrier t result }
    {
        let Frame { len, is_object, .. } = self;
        if is_object {
            Node::Object { len, count }
        } else {
            Node::Array { len, count }
        }
    }
}

/// Counts one more item or member of the innermost open container, and returns what may come next.
#[inline(always)]
pub(crate) fn after_value(stack: &mut Vec<Frame>) -> State
    requires { (ws : List Waiting) × (stack.old.items ≡ waiting_stack ws) × (length (waiting_entries ws) < 2 ^ 64) }
    ensures state { (ws : List Waiting) (t : Tree) → stack.old.items ≡ waiting_stack ws → result ≡ config_state (after_value ws t) }
    ensures stack { (ws : List Waiting) (t : Tree) → stack.old.items ≡ waiting_stack ws → stack.new.items ≡ config_stack (after_value ws t) }
    ensures capacity { vec_capacity stack.new ≡ vec_capacity stack.old }
    ensures len { vec_len stack.new ≡ vec_len stack.old }
{
    let Some(frame) = stack.last_mut() else {
        return State::End;
    };
    frame.len += 1;
    if frame.is_object {
        State::MemberEnd
    } else {
        State::ItemEnd
    }
}

/// Opens a container at its node.
#[inline(always)]
pub(crate) fn open<'i>(
    place: usize,
    limit: usize,
    is_object: bool,
    nodes: &mut Vec<Node<'i>>,
    stack: &mut Vec<Frame>,
) -> Result<State, Stop>
    requires nodes { vec_len nodes.old < vec_capacity nodes.old }
    requires stack { vec_len stack.old < limit → vec_len stack.old < vec_capacity stack.old }
    ensures opens { (ws : List Waiting) → entries nodes.old.items ≡ waiting_entries ws → stack.old.items ≡ waiting_stack ws
        → Opens limit ws place (opened is_object ws) result (entries nodes.new.items) stack.new.items }
    ensures carriers { (ts : List Token) (t : Token) → makes_node t ≡ true → HaveCarriers ts nodes.old.items → OnOk result (HaveCarriers (ts ++ t ∷ []) nodes.new.items) }
    ensures capacity { (vec_capacity nodes.new ≡ vec_capacity nodes.old) × (vec_capacity stack.new ≡ vec_capacity stack.old) }
    ensures grows { (vec_len nodes.new ≤ vec_len nodes.old + 1) × (vec_len stack.new ≤ vec_len stack.old + 1) }
    ensures levels { vec_len stack.old ≤ limit → vec_len stack.new ≤ limit }
{
    if stack.len() >= limit {
        return Err(Stop {
            kind: DescentKind::Syntax,
            place,
        });
    }
    stack.push_reserved(Frame {
        start: nodes.len(),
        len: 0,
        is_object,
    });
    if is_object {
        nodes.push_reserved(Node::Object { len: 0, count: 0 });
        Ok(State::FirstMember)
    } else {
        nodes.push_reserved(Node::Array { len: 0, count: 0 });
        Ok(State::FirstItem)
    }
}

/// Closes the innermost container: its node gets its counts.
#[inline(always)]
pub(crate) fn close(nodes: &mut Vec<Node<'_>>, stack: &mut Vec<Frame>) -> State
    requires { Closes (entries nodes.old.items) stack.old.items }
    ensures array { (xs : Items) (ws : List Waiting) → entries nodes.old.items ≡ array_entries xs ws → stack.old.items ≡ waiting_stack ws ++ array_frame xs ws ∷ []
        → IsAt (after_value ws (list xs)) result (entries nodes.new.items) stack.new.items }
    ensures object { (ms : Members) (ws : List Waiting) → entries nodes.old.items ≡ object_entries ms ws → stack.old.items ≡ waiting_stack ws ++ object_frame ms ws ∷ []
        → IsAt (after_value ws (object ms)) result (entries nodes.new.items) stack.new.items }
    ensures carriers { (ts : List Token) → HaveCarriers ts nodes.old.items → HaveCarriers ts nodes.new.items }
    ensures capacity { (vec_capacity nodes.new ≡ vec_capacity nodes.old) × (vec_capacity stack.new ≡ vec_capacity stack.old) }
    ensures grows { (vec_len nodes.new ≡ vec_len nodes.old) × (vec_len stack.new ≤ vec_len stack.old) }
{
    let Some(frame) = stack.pop() else {
        unreachable!();
    };
    let count = nodes.len() - frame.start - 1;
    nodes[frame.start] = frame.node(count);
    after_value(stack)
}

/// Adds the node of a scalar, and counts it in the container that holds it.
#[inline(always)]
pub(crate) fn add_scalar<'i>(
    node: Node<'i>,
    nodes: &mut Vec<Node<'i>>,
    stack: &mut Vec<Frame>,
) -> State
    requires room { vec_len nodes.old < vec_capacity nodes.old }
    requires waits { (ws : List Waiting) × (entries nodes.old.items ≡ waiting_entries ws) × (stack.old.items ≡ waiting_stack ws) }
    ensures at { (ws : List Waiting) (t : Tree) → entries nodes.old.items ≡ waiting_entries ws → stack.old.items ≡ waiting_stack ws → node_entry node.entry ∷ [] ≡ listing t
        → IsAt (after_value ws t) result (entries nodes.new.items) stack.new.items }
    ensures carriers { (ts : List Token) (t : Token) → makes_node t ≡ true → HasCarrier t node.entry → HaveCarriers ts nodes.old.items → HaveCarriers (ts ++ t ∷ []) nodes.new.items }
    ensures capacity { (vec_capacity nodes.new ≡ vec_capacity nodes.old) × (vec_capacity stack.new ≡ vec_capacity stack.old) }
    ensures grows { (vec_len nodes.new ≤ vec_len nodes.old + 1) × (vec_len stack.new ≡ vec_len stack.old) }
{
    nodes.push_reserved(node);
    after_value(stack)
}
