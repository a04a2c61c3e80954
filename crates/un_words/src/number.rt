//! Numbers of a text.

ghost use Rattle.std.specs.Prelude.{◌≡◌, ◌<◌, ◌+◌, ◌-◌, ◌*◌, ◌^◌, ◌≤◌, ◌&&◌, min, nat_lt, length, if◌then◌else◌, Some, None};
ghost use Rattle.std.specs.Str.{all_ascii_digits};
ghost use Rattle.un_base.specs.Decimals.{value_of};
ghost use Rattle.un_words.specs.Tokens.{digits_of, number_of};

use crate::token::Number;

/// Whether each byte is a digit.
fn are_digits(text: &[u8]) -> bool
    ensures { result ≡ all_ascii_digits text.now }
{
    for byte in text {
        if !byte.is_ascii_digit() {
            return false;
        }
    }
    true
}

/// The number that the digits so far and this one write, or the largest of 32 bits.
fn with_digit(size: u32, digit: u8) -> u32
    ensures { result ≡ min (10 * size + (digit - 48)) (2 ^ 32 - 1) }
{
    size.saturating_mul(10)
        .saturating_add(u32::from(digit.saturating_sub(b'0')))
}

/// The number that digits write, or the largest of 32 bits.
#[tactic(auto, using(crate::proofs::NumberLaws::kept_size))]
fn size_of(digits: &[u8]) -> u32
    ensures { result ≡ min (value_of digits.now) (2 ^ 32 - 1) }
{
    let mut size = 0;
    for digit in digits {
        size = with_digit(size, *digit);
    }
    size
}

/// The number with this sign, where there is a digit and nothing else.
fn signed(negative: bool, digits: &[u8]) -> Option<Number>
    ensures { result ≡ digits_of negative digits.now }
{
    if digits.is_empty() || !are_digits(digits) {
        return None;
    }
    let size = size_of(digits);
    Some(Number { negative, size })
}

/// An optional minus sign and digits.
pub fn read_number(text: &[u8]) -> Option<Number>
    ensures { result ≡ number_of text.now }
{
    let (first, rest) = text.split_first()?;
    if *first == b'-' {
        signed(true, rest)
    } else {
        signed(false, text)
    }
}
