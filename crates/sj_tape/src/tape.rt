//! Tapes: a whole document as one flat list of nodes.
ghost use Rattle.std.specs.Prelude.{◌≡◌, ◌≢◌, ◌↔◌, ◌⊎◌, ◌<◌, List, [], ◌∷◌, ◌++◌, Some, IsTrue, IsSome, IfSome, IfOk, drop, length};
ghost use Rattle.sj_base.specs.Tree.{Tree, null, IsValidTree};
ghost use Rattle.sj_tape.specs.Listing.{listing};
ghost use Rattle.sj_tape.specs.Listed.{IsPreorder, IsTape, option_listing, tree_of};
ghost use Rattle.sj_tape.specs.Nodes.{entries};

use crate::check::tree_end;
use crate::node::Node;
use crate::value::Value;
use sj_base::StaticNode;
use std::alloc::{AllocError, Global};

/// A document as the list of its nodes in preorder, or no node at all. Port of `simd_json::Tape`.
#[derive(Debug, Drop)]
pub struct Tape<'i> {
    nodes: Vec<Node<'i>>,
    ghost listed: { IsTape (entries nodes.items) },
    ghost is_valid: { ∥ IsValidTree (tree_of (entries nodes.items)) ∥₁ },
}

impl<'i> Tape<'i> {
    ghost use Rattle.sj_tape.specs.Views.{tape_nodes, tape_vector, tape_tree, value_nodes, value_tree};

    /// Creates a tape from nodes, or returns `None` if they aren't the preorder of one document.
    ///
    /// Each `len` and each `count` is checked. The tape keeps the vector, which is otherwise dropped. Takes no memory, and
    /// recurses once for each level of nesting.
    pub fn new(nodes: Vec<Node<'i>>) -> Option<Tape<'i>>
        ensures accepts { IsSome result ↔ ((t : Tree) × (entries nodes.entry.items ≡ listing t)) }
        ensures nodes { IfSome result (λ tape. tape_nodes tape ≡ nodes.entry.items) }
        ensures vector { IfSome result (λ tape. tape_vector tape ≡ nodes.entry) }
        ensures not_empty { IfSome result (λ tape. tape_nodes tape ≢ []) }
        ensures tree { (t : Tree) → entries nodes.entry.items ≡ listing t
            → IfSome result (λ tape. tape_tree tape ≡ Some t) }
        ensures is_valid { (t : Tree) → entries nodes.entry.items ≡ listing t → IsValidTree t }
    {
        if tree_end(&nodes, 0) == Some(nodes.len()) {
            Some(Tape::from_listing(nodes))
        } else {
            None
        }
    }

    /// Creates a tape from nodes that are already known to be the preorder of one valid document, or from no node.
    ///
    /// The tape keeps the vector. Checks nothing and takes no memory. For nodes of another origin use [`Tape::new`].
    pub fn from_listing(nodes: Vec<Node<'i>>) -> Tape<'i>
        requires { (nodes.items ≡ []) ⊎ IsPreorder (entries nodes.items) }
        ensures nodes { tape_nodes result ≡ nodes.entry.items }
        ensures vector { tape_vector result ≡ nodes.entry }
        ensures tree { (t : Tree) → entries nodes.entry.items ≡ listing t → tape_tree result ≡ Some t }
    {
        Tape { nodes }
    }

    /// Creates an empty tape. Takes no memory.
    pub fn empty(alloc: Global) -> Tape<'i>
        ensures { tape_nodes result ≡ [] }
    {
        Tape::from_listing(Vec::new(alloc))
    }

    /// Creates the tape of the document `null`.
    ///
    /// # Errors
    ///
    /// `AllocError` if there is no memory for one node.
    pub fn null(alloc: Global) -> Result<Tape<'i>, AllocError>
        ensures nodes { IfOk result (λ tape. tape_nodes tape ≡ Node.Static StaticNode.Null ∷ []) }
        ensures tree { IfOk result (λ tape. tape_tree tape ≡ Some null) }
    {
        let nodes = Vec::from_array(alloc, [Node::Static(StaticNode::Null)])?;
        Ok(Tape::from_listing(nodes))
    }

    /// Drops the nodes with their room, and returns an empty tape, whose nodes may borrow from another input. Takes no memory.
    /// Port of `simd_json::Tape::reset`.
    pub fn reset<'new>(self) -> Tape<'new>
        ensures { tape_nodes result ≡ [] }
    {
        Tape::empty(*self.nodes.allocator())
    }

    /// Returns the nodes in preorder.
    pub fn nodes(&self) -> &[Node<'i>]
        ensures { result.now ≡ tape_nodes self.now }
    {
        &self.nodes
    }

    /// Returns the tape's own vector of the nodes in preorder, with its room. Takes no memory.
    pub fn into_nodes(self) -> Vec<Node<'i>>
        ensures nodes { result.items ≡ tape_nodes self.entry }
        ensures vector { result ≡ tape_vector self.entry }
        ensures tree { entries result.items ≡ option_listing (tape_tree self.entry) }
    {
        self.nodes
    }

    /// Returns `true` if the tape has no nodes, and so no document.
    pub fn is_empty(&self) -> bool
        ensures { IsTrue result ↔ (tape_nodes self.now ≡ []) }
    {
        self.nodes.is_empty()
    }

    /// Returns a view of the document. There has to be one, which [`Tape::is_empty`] tells. Port of
    /// `simd_json::Tape::as_value`.
    pub fn as_value(&self) -> Value<'_, 'i>
        requires { tape_nodes self.now ≢ [] }
        ensures nodes { value_nodes result ≡ tape_nodes self.now }
        ensures tree { tape_tree self.now ≡ Some (value_tree result) }
        ensures is_valid { IsValidTree (value_tree result) }
    {
        Value {
            nodes: self.nodes(),
        }
    }

    /// Returns a view of the value whose nodes begin at this index, which has to be below the length of [`Tape::nodes`]. The
    /// key of a member has a node of its own, a string.
    pub fn value_at(&self, index: usize) -> Value<'_, 'i>
        requires { index < length (tape_nodes self.now) }
        ensures nodes { (rest : List Node) × (drop index (tape_nodes self.now) ≡ value_nodes result ++ rest) }
        ensures listed { entries (value_nodes result) ≡ listing (value_tree result) }
    {
        self.as_value().value_at(index)
    }
}
