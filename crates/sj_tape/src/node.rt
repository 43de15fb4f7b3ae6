//! The nodes of a tape.
ghost use Rattle.std.specs.Prelude.{◌≡◌, [], ◌∷◌, IfSome, MatchOption, option_map};
ghost use Rattle.sj_base.specs.Scalar.{scalar_tree, scalar_type};
ghost use Rattle.sj_base.specs.Tree.{IsValidTree};

use sj_base::{Decimal, Scalar, StaticNode, ValueType};

/// One value or one key, in the preorder of a document. Port of `simd_json::Node`.
///
/// `len` is the number of items or members, and `count` the number of nodes beneath the container, at all levels.
#[derive(Clone, Copy, Debug)]
pub enum Node<'i> {
    /// A string, or the key before the value of a member.
    String(&'i str),
    /// An object. Each of its members is the node of a key, and then the nodes of a value.
    Object { len: usize, count: usize },
    /// An array. The nodes of its items come one after another.
    Array { len: usize, count: usize },
    /// Null, a boolean or an integer.
    Static(StaticNode),
    /// A number with a fraction or an exponent, or an integer below -2^63 or above 2^64 - 1, as its literal.
    Decimal(Decimal<'i>),
}

impl<'i> Node<'i> {
    ghost use Rattle.sj_tape.specs.Nodes.{node_type, node_count};
    ghost use Rattle.sj_tape.specs.inside.Leaves.{leaf_tree};

    /// Returns the type, which tells an `I64` from a `U64`.
    pub fn value_type(&self) -> ValueType
        ensures { result ≡ node_type self.now }
    {
        match self {
            Node::String(_) => ValueType::String,
            Node::Object { .. } => ValueType::Object,
            Node::Array { .. } => ValueType::Array,
            Node::Static(node) => node.value_type(),
            Node::Decimal(_) => ValueType::Decimal,
        }
    }

    /// Returns the value of a node that isn't a container.
    #[inline(always)]
    pub(crate) fn scalar(&self) -> Option<Scalar<'i>>
        ensures tree { option_map scalar_tree result ≡ leaf_tree self.now }
        ensures is_valid { IfSome result (λ s. IsValidTree (scalar_tree s)) }
        ensures kind { IfSome result (λ s. scalar_type s ≡ node_type self.now) }
    {
        match self {
            // Each carrier alone, so that the range of its integer is known.
            Node::Static(StaticNode::I64(n)) => Some(Scalar::Static(StaticNode::I64(*n))),
            Node::Static(StaticNode::U64(n)) => Some(Scalar::Static(StaticNode::U64(*n))),
            Node::Static(node) => Some(Scalar::Static(*node)),
            Node::String(text) => Some(Scalar::Text(text)),
            Node::Decimal(literal) => Some(Scalar::Literal(*literal)),
            Node::Array { .. } | Node::Object { .. } => None,
        }
    }

    /// Returns the number of nodes beneath.
    #[inline(always)]
    pub(crate) fn count(&self) -> usize
        ensures { result ≡ node_count self.now }
    {
        match self {
            Node::Object { count, .. } | Node::Array { count, .. } => *count,
            Node::String(_) | Node::Static(_) | Node::Decimal(_) => 0,
        }
    }
}

/// Returns the first node and the nodes after it.
#[inline(always)]
pub(crate) fn take_node<'t, 'i>(nodes: &'t [Node<'i>]) -> Option<(Node<'i>, &'t [Node<'i>])>
    ensures { MatchOption result (nodes.now ≡ []) (λ p. nodes.now ≡ p.0 ∷ p.1.now) }
{
    let (first, rest) = nodes.split_first()?;
    Some((*first, rest))
}
