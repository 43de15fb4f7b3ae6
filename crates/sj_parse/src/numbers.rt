//! Numbers: an integer in range by its value, any other by its text.
ghost use Rattle.std.specs.Prelude.{◌≡◌, ◌<◌, ◌≤◌, ◌^◌, true, false, length, take, MatchOption, IfSome, IfNone, SomeIff};
ghost use Rattle.sj_parse.specs.Token.{word};
ghost use Rattle.std.specs.Str.Parse.{digits_value};
ghost use Rattle.sj_base.specs.NumberTests.{magnitude, is_whole, is_integer, is_decimal, is_number};
ghost use Rattle.sj_parse.specs.inside.NumberNode.{IsNumberNode, HasShape};

use crate::atoms::ends_word;
use crate::digits::value_of;
use crate::search::{digits_len, word_len};
use sj_base::{Decimal, StaticNode, is_whole, split_minus};
use sj_tape::Node;

/// What is known of a number.
#[derive(Clone, Copy)]
pub(crate) enum Shape {
    /// It is a whole number with a minus or without one, and may be out of range.
    Whole,
    /// It is a decimal literal.
    Decimal,
}

/// Returns the node of a number. An integer in range is an `I64` if it has a minus, and else a `U64`.
#[inline(always)]
pub(crate) fn number<'a>(text: &'a [u8], shape: Shape) -> Node<'a>
    requires { HasShape text.now shape }
    ensures { IsNumberNode text.now result }
{
    match shape {
        Shape::Whole => integer(text),
        Shape::Decimal => Node::Decimal(Decimal::from_bytes_unchecked(text)),
    }
}

/// The length of the word that the bytes begin with, and its shape, or `None` if it is no number.
#[inline(always)]
pub(crate) fn find_number(bytes: &[u8]) -> Option<(usize, Shape)>
    ensures within { IfSome result (λ p. p.0 ≤ length bytes.now) }
    ensures word { IfSome result (λ p. take p.0 bytes.now ≡ word bytes.now) }
    ensures shape { IfSome result (λ p. HasShape (word bytes.now) p.1) }
    ensures none { IfNone result (is_number (word bytes.now) ≡ false) }
{
    match plain_number(bytes) {
        Some(found) => Some(found),
        None => find_decimal(bytes),
    }
}

/// As [`find_number`], for what [`plain_number`] leaves: numbers with an exponent, and words that are no number.
#[cold]
#[inline(never)]
fn find_decimal(bytes: &[u8]) -> Option<(usize, Shape)>
    ensures within { IfSome result (λ p. p.0 ≤ length bytes.now) }
    ensures word { IfSome result (λ p. take p.0 bytes.now ≡ word bytes.now) }
    ensures shape { IfSome result (λ p. HasShape (word bytes.now) p.1) }
    ensures none { IfNone result (is_decimal (word bytes.now) ≡ false) }
{
    let len = word_len(bytes);
    match Decimal::from_bytes(&bytes[..len]) {
        Some(_) => Some((len, Shape::Decimal)),
        None => None,
    }
}

/// The node of a whole number. One that is out of range is kept as its text.
#[inline(always)]
fn integer<'a>(text: &'a [u8]) -> Node<'a>
    requires { is_whole (magnitude text.now) ≡ true }
    ensures { IsNumberNode text.now result }
{
    match in_range(text) {
        Some(integer) => Node::Static(integer),
        None => Node::Decimal(Decimal::from_bytes_unchecked(text)),
    }
}

/// A whole number in its carrier, where it is in range.
#[inline(always)]
fn in_range(text: &[u8]) -> Option<StaticNode>
    requires { is_whole (magnitude text.now) ≡ true }
    ensures { MatchOption result (is_integer text.now ≡ false) (λ n. IsNumberNode text.now (Node.Static n)) }
{
    let (negative, digits) = split_minus(text);
    let value = whole(digits)?;
    if negative {
        Some(StaticNode::I64(0i64.checked_sub_unsigned(value)?))
    } else {
        Some(StaticNode::U64(value))
    }
}

/// The length of the number that the bytes begin with, and its shape, if it stands as a whole word and has no exponent.
#[inline(always)]
fn plain_number(bytes: &[u8]) -> Option<(usize, Shape)>
    ensures within { IfSome result (λ p. p.0 ≤ length bytes.now) }
    ensures word { IfSome result (λ p. take p.0 bytes.now ≡ word bytes.now) }
    ensures shape { IfSome result (λ p. HasShape (word bytes.now) p.1) }
    ensures none { IfNone result (is_integer (word bytes.now) ≡ false) }
{
    let (_, magnitude) = split_minus(bytes);
    let whole = digits_len(magnitude);
    let (digits, behind) = magnitude.split_at(whole);
    if !is_whole(digits) {
        return None;
    }
    let len = bytes.len() - magnitude.len() + whole;
    let Some((b'.', fraction)) = behind.split_first() else {
        return if ends_word(behind) {
            Some((len, Shape::Whole))
        } else {
            None
        };
    };
    let places = digits_len(fraction);
    if places > 0 && ends_word(&fraction[places..]) {
        Some((len + 1 + places, Shape::Decimal))
    } else {
        None
    }
}

/// The value of a whole number, where it is in range.
#[inline(always)]
fn whole(digits: &[u8]) -> Option<u64>
    requires { is_whole digits.now ≡ true }
    ensures { SomeIff result (digits_value 10 digits.now < 2 ^ 64) (digits_value 10 digits.now) }
{
    // The largest in range has 20 digits.
    if digits.len() < 20 {
        Some(value_of(digits))
    } else {
        fast_float::parse_u64(digits).ok()
    }
}
