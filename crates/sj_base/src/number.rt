//! The parts of numbers, and recognition of decimal literals by them (RFC 8259, section 6).
ghost use Rattle.std.specs.Prelude.{◌≡◌, ◌||◌, true};
ghost use Rattle.std.specs.Str.{all_ascii_digits};
ghost use Rattle.sj_base.specs.NumberTests.{is_negative, magnitude, unsigned, front_digits, behind_digits, is_digits, is_whole, is_exponent, is_behind_point, is_fraction_or_exponent, is_in_range, is_kept_by, is_decimal};
ghost use Rattle.std.specs.Str.Parse.{digits_value};

/// Returns `true` if the bytes are a decimal literal.
pub(crate) fn is_decimal(bytes: &[u8]) -> bool
    ensures { result ≡ is_decimal bytes.now }
{
    let (is_negative, magnitude) = split_minus(bytes);
    let (digits, behind) = split_digits(magnitude);
    is_whole(digits) && is_kept_by(is_negative, digits, behind)
}

/// Whether a number is kept as text, by what stands after its digits.
fn is_kept_by(is_negative: bool, digits: &[u8], behind: &[u8]) -> bool
    requires { is_whole digits.now ≡ true }
    ensures { result ≡ is_kept_by is_negative digits.now behind.now }
{
    if behind.is_empty() {
        !is_in_range(is_negative, digits)
    } else {
        is_fraction_or_exponent(behind)
    }
}

/// Whether the integer of these digits lies between -2^63 and 2^64 - 1.
fn is_in_range(is_negative: bool, digits: &[u8]) -> bool
    requires { is_whole digits.now ≡ true }
    ensures { result ≡ is_in_range is_negative (digits_value 10 digits.now) }
{
    match fast_float::parse_u64(digits) {
        Ok(value) => !is_negative || value <= 1 << 63,
        Err(_) => false,
    }
}

/// Returns whether a number begins with a minus, and the bytes after it: its magnitude.
#[inline(always)]
pub fn split_minus(bytes: &[u8]) -> (bool, &[u8])
    ensures negative { result.0 ≡ is_negative bytes.now }
    ensures magnitude { result.1.now ≡ magnitude bytes.now }
{
    match bytes {
        [b'-', behind @ ..] => (true, behind),
        _ => (false, bytes),
    }
}

/// The bytes after a plus or a minus, or all if there is none.
#[inline(always)]
fn unsigned(bytes: &[u8]) -> &[u8]
    ensures { result.now ≡ unsigned bytes.now }
{
    match bytes {
        [b'+' | b'-', behind @ ..] => behind,
        _ => bytes,
    }
}

/// The digits that come first, and the bytes after them.
#[inline(always)]
fn split_digits(bytes: &[u8]) -> (&[u8], &[u8])
    ensures digits { result.0.now ≡ front_digits bytes.now }
    ensures behind { result.1.now ≡ behind_digits bytes.now }
{
    for (place, byte) in bytes.iter().enumerate() {
        if !byte.is_ascii_digit() {
            return bytes.split_at(place);
        }
    }
    (bytes, &[])
}

/// Returns `true` if these digits are those of a whole number: `0` alone, or digits of which the first is 1 to 9. All bytes have to
/// be digits ([`u8::is_ascii_digit`]).
#[inline(always)]
pub fn is_whole(digits: &[u8]) -> bool
    requires { all_ascii_digits digits.now ≡ true }
    ensures { result ≡ is_whole digits.now }
{
    match digits {
        [] => false,
        [first, others @ ..] => *first != b'0' || others.is_empty(),
    }
}

/// Whether all bytes are digits, and there is one.
#[inline(always)]
fn is_digits(bytes: &[u8]) -> bool
    ensures { result ≡ is_digits bytes.now }
{
    let (digits, behind) = split_digits(bytes);
    !digits.is_empty() && behind.is_empty()
}

#[inline(always)]
fn is_fraction_or_exponent(bytes: &[u8]) -> bool
    ensures { result ≡ is_fraction_or_exponent bytes.now }
{
    match bytes {
        [b'.', behind @ ..] => is_behind_point(behind),
        _ => is_exponent(bytes),
    }
}

/// Whether the bytes are digits, with an exponent after them or without one.
#[inline(always)]
fn is_behind_point(bytes: &[u8]) -> bool
    ensures { result ≡ is_behind_point bytes.now }
{
    let (digits, behind) = split_digits(bytes);
    if digits.is_empty() {
        return false;
    }
    behind.is_empty() || is_exponent(behind)
}

fn is_exponent(bytes: &[u8]) -> bool
    ensures { result ≡ is_exponent bytes.now }
{
    match bytes {
        [b'e' | b'E', behind @ ..] => is_digits(unsigned(behind)),
        _ => false,
    }
}
