//! Nulls, booleans and integers, and the types of values.
ghost use Rattle.std.specs.Prelude.{◌≡◌, ◌↔◌, Some, IsTrue};
ghost use Rattle.std.proofs.Common.{rules};
ghost use Rattle.std.specs.Cmp.Rules.{comparing};
ghost use Rattle.sj_base.specs.Scalar.{static_tree, static_type, static_eq};
ghost use Rattle.sj_base.specs.Text.{text};

use crate::try_copy::TryCopy;
use std::alloc::AllocError;
use std::fmt;

/// The type of a value. Port of `value_trait::ValueType`.
#[derive(Clone, Copy, Debug, PartialEq, Eq)]
pub enum ValueType {
    /// Null.
    Null,
    /// A boolean.
    Bool,
    /// An integer in a signed carrier.
    I64,
    /// An integer in an unsigned carrier.
    U64,
    /// A number with a fraction or an exponent, or an integer below -2^63 or above 2^64 - 1. It stands in the place of `F64`.
    Decimal,
    /// A string.
    String,
    /// An array.
    Array,
    /// An object.
    Object,
}

/// Null, a boolean or an integer (`simd_json::StaticNode` without floats).
///
/// An integer from 0 to `i64::MAX` can be held by either of two carriers, `I64` and `U64`. Two nodes are equal if they
/// hold the same number, whichever carrier holds it.
#[derive(Clone, Copy, Debug)]
pub enum StaticNode {
    /// Null.
    Null,
    /// A boolean.
    Bool(bool),
    /// An integer in a signed carrier.
    I64(i64),
    /// An integer in an unsigned carrier.
    U64(u64),
}

impl StaticNode {
    /// Returns the type of the value. That of an integer tells its carrier.
    pub fn value_type(&self) -> ValueType
        ensures { result ≡ static_type self.now }
    {
        match self {
            StaticNode::Null => ValueType::Null,
            StaticNode::Bool(_) => ValueType::Bool,
            StaticNode::I64(_) => ValueType::I64,
            StaticNode::U64(_) => ValueType::U64,
        }
    }
}

/// Integers are equal by their number, whichever carrier holds them.
impl PartialEq for StaticNode {
    ghost eq = { static_eq };

    ghost laws = { Prim.search (comparing, rules) };

    fn eq(&self, other: &StaticNode) -> bool
        ensures value { result ≡ static_eq self.now other.now }
        ensures same_tree { IsTrue result ↔ (static_tree self.now ≡ static_tree other.now) }
    {
        match (self, other) {
            (StaticNode::Null, StaticNode::Null) => true,
            (StaticNode::Bool(a), StaticNode::Bool(b)) => a == b,
            (StaticNode::I64(a), StaticNode::I64(b)) => a == b,
            (StaticNode::U64(a), StaticNode::U64(b)) => a == b,
            (StaticNode::I64(a), StaticNode::U64(b)) | (StaticNode::U64(b), StaticNode::I64(a)) => {
                i128::from(*a) == i128::from(*b)
            }
            _ => false,
        }
    }
}

impl Eq for StaticNode {
    ghost laws = { Prim.search (comparing, rules) };
}

impl TryCopy for StaticNode {
    ghost use Rattle.sj_base.specs.declared.static_node.StaticNode.{StaticNode};

    ghost Copied = { StaticNode };

    ghost copied = { λ node. node };

    ghost tree = { static_tree };

    fn try_clone(&self) -> Result<StaticNode, AllocError> {
        Ok(*self)
    }
}

/// The JSON text of the value.
impl fmt::Display for StaticNode {
    ghost output = { λ node. Some (text (static_tree node)) };

    fn fmt<W: fmt::Write>(&self, f: &mut fmt::Formatter<W>) -> fmt::Result {
        match self {
            StaticNode::Null => write!(f, "null"),
            StaticNode::Bool(b) => write!(f, "{b}"),
            StaticNode::I64(n) => write!(f, "{n}"),
            StaticNode::U64(n) => write!(f, "{n}"),
        }
    }
}
