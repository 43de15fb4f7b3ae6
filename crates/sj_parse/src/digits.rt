//! The values of digits.
ghost use Rattle.std.specs.Prelude.{◌≡◌, ◌<◌, ◌≤◌, ◌^◌, true, length};
ghost use Rattle.std.specs.Str.{all_ascii_digits};
ghost use Rattle.std.specs.Str.Parse.{digits_value, digits_value_after};

/// The value of at most 19 digits.
#[inline(always)]
pub(crate) fn value_of(digits: &[u8]) -> u64
    requires digits { all_ascii_digits digits.now ≡ true }
    requires few { length digits.now ≤ 19 }
    ensures { result ≡ digits_value 10 digits.now }
{
    let mut value = 0;
    let mut rest = digits;
    while let Some((word, others)) = rest.split_first_chunk::<8>() {
        value = value * 100_000_000 + value_of_word(*word);
        rest = others;
    }
    value_after(value, rest)
}

/// The value of eight digits. Neighbours are joined in lanes of 16, of 32 and of 64 bits, all at once.
#[inline(always)]
fn value_of_word(digits: [u8; 8]) -> u64
    requires { all_ascii_digits digits ≡ true }
    ensures { result ≡ digits_value 10 digits }
{
    let numbers = u64::from_le_bytes(digits) - 0x3030_3030_3030_3030;
    let pairs = (numbers * 10 + (numbers >> 8)) & 0x00FF_00FF_00FF_00FF;
    let fours = (pairs * 100 + (pairs >> 16)) & 0x0000_FFFF_0000_FFFF;
    (fours * 10_000 + (fours >> 32)) & 0xFFFF_FFFF
}

/// The value of digits that stand after those of a value.
#[inline(always)]
fn value_after(value: u64, digits: &[u8]) -> u64
    requires digits { all_ascii_digits digits.now ≡ true }
    requires fits { digits_value_after 10 value digits.now < 2 ^ 64 }
    ensures { result ≡ digits_value_after 10 value digits.now }
{
    let mut value = value;
    for digit in digits {
        value = value * 10 + u64::from(*digit - b'0');
    }
    value
}
