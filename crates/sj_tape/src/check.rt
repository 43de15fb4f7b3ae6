//! The test whether nodes are the preorder of a tree. It recurses once for each level of nesting, and takes no memory.
ghost use Rattle.std.specs.Prelude.{◌≡◌, ◌≢◌, ◌+◌, ◌-◌, ◌<◌, ◌≤◌, true, false, [], ◌∷◌, length, drop, IfSome, option_map, MatchOption};
ghost use Rattle.sj_tape.specs.Nodes.{node_entry, entries};
ghost use Rattle.sj_tape.specs.inside.Passing.{PassesTree, PassesContents, PassesPart, PassesKey};

use crate::node::Node;

/// Returns the index after the tree that begins at `start`.
#[cycle(check)]
pub(crate) fn tree_end(nodes: &[Node<'_>], start: usize) -> Option<usize>
    ensures passes { PassesTree (drop start (entries nodes.now))
        (option_map (λ end. drop end (entries nodes.now)) result) }
    ensures bounds { IfSome result (λ end. (start < end) × (end ≤ length nodes.now)) }
{
    match node_at(nodes, start)? {
        Node::Array { len, count } => {
            let end = contents_end(nodes, start + 1, len, false)?;
            counted(start + 1, end, count)
        }
        Node::Object { len, count } => {
            let end = contents_end(nodes, start + 1, len, true)?;
            counted(start + 1, end, count)
        }
        // A leaf has a scalar. The call tells that it is valid.
        leaf => leaf.scalar().and(Some(start + 1)),
    }
}

/// Returns the index after the `len` items, or members, that begin at `start`.
#[cycle(check)]
fn contents_end(nodes: &[Node<'_>], start: usize, len: usize, has_keys: bool) -> Option<usize>
    requires { start ≤ length nodes.now }
    ensures passes { PassesContents has_keys len (drop start (entries nodes.now))
        (option_map (λ end. drop end (entries nodes.now)) result) }
    ensures bounds { IfSome result (λ end. (start ≤ end) × (end ≤ length nodes.now)) }
{
    let mut end = start;
    for _i in 0..len {
        end = part_end(nodes, end, has_keys)?;
    }
    Some(end)
}

/// Returns the index after the item, or the member, that begins at `start`.
#[cycle(check)]
fn part_end(nodes: &[Node<'_>], start: usize, has_keys: bool) -> Option<usize>
    ensures passes { PassesPart has_keys (drop start (entries nodes.now))
        (option_map (λ end. drop end (entries nodes.now)) result) }
    ensures bounds { IfSome result (λ end. (start < end) × (end ≤ length nodes.now)) }
{
    if has_keys {
        tree_end(nodes, key_end(nodes, start)?)
    } else {
        tree_end(nodes, start)
    }
}

/// Returns the index after the key at `start`.
fn key_end(nodes: &[Node<'_>], start: usize) -> Option<usize>
    ensures passes { PassesKey (drop start (entries nodes.now))
        (option_map (λ end. drop end (entries nodes.now)) result) }
    ensures bounds { IfSome result (λ end. (end ≡ start + 1) × (end ≤ length nodes.now)) }
{
    match node_at(nodes, start)? {
        Node::String(_) => Some(start + 1),
        _ => None,
    }
}

fn node_at<'i>(nodes: &[Node<'i>], at: usize) -> Option<Node<'i>>
    ensures { MatchOption result (drop at (entries nodes.now) ≡ [])
        (λ n. (at < length nodes.now)
        × (drop at (entries nodes.now) ≡ node_entry n ∷ drop (at + 1) (entries nodes.now))) }
{
    Some(*nodes.get(at)?)
}

/// Returns `end` if `count` nodes stand between `start` and `end`.
fn counted(start: usize, end: usize, count: usize) -> Option<usize>
    requires { start ≤ end }
    ensures { MatchOption result (end - start ≢ count) (λ r. (r ≡ end) × (end - start ≡ count)) }
{
    (end - start == count).then_some(end)
}
