//! What a look-up by key finds.
ghost use Rattle.std.specs.Prelude.{◌≡◌, option_map};
ghost use Rattle.sj_base.specs.Scalar.{scalar_type};

use sj_base::{Scalar, ValueType};

/// A member that a look-up by key found: its type, and its value if that is a scalar.
#[derive(Clone, Copy, Debug)]
pub struct Member<'a> {
    /// The type of the member's value.
    pub kind: ValueType,
    /// The member's value, or `None` if it is an array or an object.
    pub scalar: Option<Scalar<'a>>,
    // The scalar has that type, so the type tells the carrier of an integer.
    ghost of_kind: { option_map (λ s. scalar_type s) scalar ≡ option_map (λ s. kind) scalar },
}
