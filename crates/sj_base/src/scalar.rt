//! Scalars: values that hold no other value.
ghost use Rattle.std.specs.Prelude.{◌≡◌, ◌↔◌, IsTrue};
ghost use Rattle.sj_base.specs.Alike.{alike};

use crate::decimal::Decimal;
use crate::static_node::StaticNode;

/// A value that is neither an array nor an object.
#[derive(Clone, Copy, Debug)]
pub enum Scalar<'a> {
    /// Null, a boolean or an integer.
    Static(StaticNode),
    /// A string.
    Text(&'a str),
    /// A number with a fraction or an exponent, or an integer below -2^63 or above 2^64 - 1.
    Literal(Decimal<'a>),
}

impl Scalar<'_> {
    ghost use Rattle.sj_base.specs.Scalar.{scalar_tree};

    /// Returns `true` if both are the same value. Integers are compared by number, whichever carrier holds them, and decimal
    /// literals by text.
    pub fn same(&self, other: &Scalar<'_>) -> bool
        ensures value { result ≡ alike (scalar_tree self.now) (scalar_tree other.now) }
        ensures same_tree { IsTrue result ↔ (scalar_tree self.now ≡ scalar_tree other.now) }
    {
        match (self, other) {
            (Scalar::Static(m), Scalar::Static(n)) => m == n,
            (Scalar::Text(s), Scalar::Text(t)) => s == t,
            (Scalar::Literal(d), Scalar::Literal(e)) => d.as_str() == e.as_str(),
            _ => false,
        }
    }
}
