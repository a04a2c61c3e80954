//! Decimal numbers without sign or leading zeros.

ghost use Rattle.std.specs.Prelude.{◌≡◌, ◌≢◌, ℕ, ◌+◌, ◌-◌, ◌*◌, ◌^◌, ◌<◌, ◌≤◌, ◌++◌, ◌⊎◌, ◌↔◌, true, false, IsTrue, IfSome, IfNone, OnOk};
ghost use Rattle.std.specs.Prelude.{OnErr, decimal};
ghost use Rattle.std.specs.Str.{all_ascii_digits};
ghost use Rattle.un_base.specs.Decimals.{value_of, HasLeadingZero, IsNoDecimal};

use crate::memory_error::NoMemory;
use itoa::Buffer;
use std::alloc::Global;

/// The number that the digits so far and this one write, where it fits.
fn with_digit(value: u64, digit: u8) -> Option<u64>
    requires low { 48 ≤ digit }
    requires high { digit ≤ 57 }
    ensures some { IfSome result (λ n. (n ≡ 10 * value + (digit - 48)) × (n < 2 ^ 64)) }
    ensures none { IfNone result (2 ^ 64 ≤ 10 * value + (digit - 48)) }
{
    value.checked_mul(10)?.checked_add(u64::from(digit - b'0'))
}

/// The number that a text of digits writes, where it fits.
fn read_digits(text: &[u8]) -> Option<u64>
    ensures some { IfSome result (λ n. (all_ascii_digits text.now ≡ true) × (value_of text.now ≡ n) × (n < 2 ^ 64)) }
    ensures none { IfNone result ((all_ascii_digits text.now ≡ false) ⊎ (2 ^ 64 ≤ value_of text.now)) }
{
    let mut value = 0;
    for byte in text {
        if !byte.is_ascii_digit() {
            return None;
        }
        value = with_digit(value, *byte)?;
    }
    Some(value)
}

/// Whether a zero stands before another byte.
fn has_leading_zero(text: &[u8]) -> bool
    ensures { IsTrue result ↔ HasLeadingZero text.now }
{
    text.len() > 1 && text[0] == b'0'
}

/// The number whose decimal text this is, 0 to 2^64 - 1. It takes no memory.
///
/// `None` exactly where the text is empty, has another byte than a digit, has a leading zero before another digit, or
/// writes a larger number.
pub fn read_decimal(text: &[u8]) -> Option<u64>
    ensures some { IfSome result (λ n. text.now ≡ decimal n) }
    ensures none { IfNone result ((n : ℕ) → n < 2 ^ 64 → text.now ≢ decimal n) }
    ensures cause { IfNone result (IsNoDecimal text.now) }
{
    if text.is_empty() || has_leading_zero(text) {
        return None;
    }
    read_digits(text)
}

/// The number of 32 bits whose decimal text this is. `None` exactly where it is the text of no such number. It takes no memory.
pub fn number_of(text: &[u8]) -> Option<u32>
    ensures some { IfSome result (λ n. text.now ≡ decimal n) }
    ensures none { IfNone result ((n : ℕ) → n < 2 ^ 32 → text.now ≢ decimal n) }
{
    match u32::try_from(read_decimal(text)?) {
        Ok(n) => Some(n),
        Err(_) => None,
    }
}

/// Appends the decimal text of `n`.
///
/// # Errors
/// `NoMemory` where there is no memory for the text. Then `out` is unchanged.
pub fn write_decimal(_alloc: Global, out: &mut Vec<u8>, n: u64) -> Result<(), NoMemory>
    ensures ok { OnOk result (out.new.items ≡ out.old.items ++ decimal n) }
    ensures err { OnErr result (out.new.items ≡ out.old.items) }
{
    let mut buffer = Buffer::new();
    out.extend_from_slice(buffer.format(n).as_bytes())?;
    Ok(())
}
