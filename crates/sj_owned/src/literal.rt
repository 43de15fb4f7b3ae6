//! Types of decimal literals.
ghost use Rattle.std.specs.Prelude.{◌≡◌, ℕ, List, IsOk, IfOk};
ghost use Rattle.sj_base.specs.Scalar.{decimal_text, decimal_buf_text, decimal_cow_text};

use sj_base::{Decimal, DecimalBuf, DecimalCow};
use std::alloc::{AllocError, Global};

/// A type of decimal literals.
pub trait Literal {
    // The text of the literal.
    ghost literal: { Self → List ℕ };

    /// Borrows the literal.
    fn as_decimal(&self) -> Decimal<'_>
        ensures { decimal_text result ≡ literal self.now };
}

/// A type of decimal literals that can be made from a borrowed one.
pub trait MakeLiteral<'de>: Literal + Sized {
    /// Makes a literal with the text of `decimal`.
    ///
    /// # Errors
    ///
    /// `AllocError` if there is no memory for the text.
    fn from_decimal(alloc: Global, decimal: Decimal<'de>) -> Result<Self, AllocError>
        ensures { IfOk result (λ d. Self.literal d ≡ decimal_text decimal.entry) };
}

impl Literal for DecimalBuf {
    ghost literal = { decimal_buf_text };

    fn as_decimal(&self) -> Decimal<'_> {
        DecimalBuf::as_decimal(self)
    }
}

/// The text is copied.
impl MakeLiteral<'_> for DecimalBuf {
    fn from_decimal(alloc: Global, decimal: Decimal<'_>) -> Result<DecimalBuf, AllocError> {
        DecimalBuf::new(alloc, decimal)
    }
}

impl Literal for DecimalCow<'_> {
    ghost literal = { decimal_cow_text };

    fn as_decimal(&self) -> Decimal<'_> {
        DecimalCow::as_decimal(self)
    }
}

/// The text is borrowed, and needs no memory.
impl<'de> MakeLiteral<'de> for DecimalCow<'de> {
    fn from_decimal(_alloc: Global, decimal: Decimal<'de>) -> Result<DecimalCow<'de>, AllocError>
        ensures text { IfOk result (λ d. decimal_cow_text d ≡ decimal_text decimal.entry) }
        ensures succeeds { IsOk result }
    {
        Ok(DecimalCow::Borrowed(decimal))
    }
}
