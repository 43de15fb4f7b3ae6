//! Decimal literals: numbers with a fraction or an exponent, and integers that no carrier holds, kept as text.
ghost use Rattle.std.specs.Prelude.{◌≡◌, ◌↔◌, IsSome, IfSome, IfOk, string_bytes, List, ℕ, Bool};
ghost use Rattle.sj_base.specs.Number.{IsDecimal};

use crate::number::is_decimal;
use crate::try_copy::TryCopy;
use std::alloc::{AllocError, Global};

/// A borrowed decimal literal: the text of a number with a fraction or an exponent, or of an integer below -2^63 or above
/// 2^64 - 1.
///
/// The number keeps the digits that it was written with, and is never converted to a float.
#[derive(Clone, Copy, Debug)]
pub struct Decimal<'a> {
    text: &'a str,
    ghost is_decimal: { ∥ IsDecimal text.now ∥₁ },
}

impl<'a> Decimal<'a> {
    ghost use Rattle.sj_base.specs.Scalar.{decimal_text};

    /// Returns `text` as a decimal literal, or `None` if it isn't a JSON number of that kind.
    ///
    /// The whole of `text` is tested, so whitespace around a number is refused. No memory is allocated.
    pub fn new(text: &'a str) -> Option<Decimal<'a>>
        ensures accepts { IsSome result ↔ IsDecimal text.now }
        ensures text { IfSome result (λ d. decimal_text d ≡ text.now) }
    {
        Decimal::from_bytes(text.as_bytes())
    }

    /// Returns `bytes` as a decimal literal, or `None` if they aren't a JSON number of that kind.
    ///
    /// The bytes needn't be UTF-8. As in [`Decimal::new`], all of them are tested.
    pub fn from_bytes(bytes: &'a [u8]) -> Option<Decimal<'a>>
        ensures accepts { IsSome result ↔ IsDecimal bytes.now }
        ensures text { IfSome result (λ d. decimal_text d ≡ bytes.now) }
    {
        if is_decimal(bytes) {
            Some(Decimal::from_bytes_unchecked(bytes))
        } else {
            None
        }
    }

    /// Returns `bytes` as a decimal literal, without a test. They have to be one, which [`Decimal::from_bytes`] tells: a JSON
    /// number with a fraction or an exponent, or an integer out of range.
    #[inline(always)]
    pub fn from_bytes_unchecked(bytes: &'a [u8]) -> Decimal<'a>
        requires { IsDecimal bytes.now }
        ensures { decimal_text result ≡ bytes.now }
    {
        Decimal {
            text: unsafe { std::str::from_utf8_unchecked(bytes) },
        }
    }

    /// Returns the text of the literal.
    #[inline(always)]
    pub fn as_str(&self) -> &'a str
        ensures text { result.now ≡ decimal_text self.now }
        ensures is_decimal { IsDecimal result.now }
    {
        self.text
    }
}

/// An owned decimal literal.
#[derive(Debug, Drop)]
pub struct DecimalBuf {
    text: String,
    ghost is_decimal: { ∥ IsDecimal (string_bytes text) ∥₁ },
}

impl DecimalBuf {
    ghost use Rattle.sj_base.specs.Scalar.{decimal_text, decimal_buf_text};

    /// Copies a literal.
    ///
    /// # Errors
    ///
    /// `AllocError` if there is no memory for the text.
    pub fn new(alloc: Global, literal: Decimal<'_>) -> Result<DecimalBuf, AllocError>
        ensures { IfOk result (λ d. decimal_buf_text d ≡ decimal_text literal.entry) }
    {
        Ok(DecimalBuf {
            text: String::from_str(alloc, literal.text)?,
        })
    }

    /// Borrows the literal.
    pub fn as_decimal(&self) -> Decimal<'_>
        ensures { decimal_text result ≡ decimal_buf_text self.now }
    {
        Decimal {
            text: self.text.as_str(),
        }
    }
}

impl TryCopy for DecimalBuf {
    ghost use Rattle.sj_base.specs.Scalar.{decimal_buf_text};
    ghost use Rattle.sj_base.specs.Tree.{decimal};

    ghost Copied = { List ℕ };

    ghost copied = { decimal_buf_text };

    ghost tree = { decimal };

    fn try_clone(&self) -> Result<DecimalBuf, AllocError> {
        Ok(DecimalBuf {
            text: self.text.clone()?,
        })
    }
}

/// A decimal literal that is borrowed or owned, as in `std::borrow::Cow`.
#[derive(Debug, Drop)]
pub enum DecimalCow<'a> {
    /// A borrowed literal.
    Borrowed(Decimal<'a>),
    /// An owned literal.
    Owned(DecimalBuf),
}

impl DecimalCow<'_> {
    ghost use Rattle.sj_base.specs.Scalar.{decimal_text, decimal_cow_text};

    /// Borrows the literal.
    pub fn as_decimal(&self) -> Decimal<'_>
        ensures { decimal_text result ≡ decimal_cow_text self.now }
    {
        match self {
            DecimalCow::Borrowed(literal) => *literal,
            DecimalCow::Owned(literal) => literal.as_decimal(),
        }
    }
}

/// A copy of a borrowed literal is borrowed.
impl TryCopy for DecimalCow<'_> {
    ghost use Rattle.sj_base.specs.Scalar.{decimal_cow_text, is_borrowed};
    ghost use Rattle.sj_base.specs.Tree.{decimal};

    ghost Copied = { Bool × List ℕ };

    ghost copied = { λ d. (is_borrowed d, decimal_cow_text d) };

    ghost tree = { λ c. decimal c.1 };

    fn try_clone(&self) -> Result<Self, AllocError> {
        Ok(match self {
            DecimalCow::Borrowed(literal) => DecimalCow::Borrowed(*literal),
            DecimalCow::Owned(literal) => DecimalCow::Owned(literal.try_clone()?),
        })
    }
}
