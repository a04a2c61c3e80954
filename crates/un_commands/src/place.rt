//! What stands at a place of a command line: a word that is named, a number within limits, or nothing more.

ghost use Rattle.std.specs.Prelude.{◌≡◌, ◌≢◌, ℕ, ◌<◌, ◌≤◌, ◌^◌, IfOk, IfErr, OnOk, decimal, length};
ghost use Rattle.un_commands.specs.Places.{StandsAt, NoNumberAt};

use un_base::decimal::read_decimal;
use un_outside::words::Word;

/// Asks for a word at a place.
///
/// # Errors
/// The place, where another word or none stands there.
pub fn word_at(words: &[Word], place: u32, text: &[u8]) -> Result<(), u32>
    ensures ok { OnOk result (StandsAt words.now place text.now) }
    ensures bad { IfErr result (λ bad. (bad ≡ place) × ¬ StandsAt words.now place text.now) }
{
    match words.get(place as usize) {
        Some(word) if word.is(text) => Ok(()),
        _ => Err(place),
    }
}

/// The number at a place.
///
/// # Errors
/// The place, where no number below 2^64 stands there.
pub fn number_at(words: &[Word], place: u32) -> Result<u64, u32>
    ensures ok { IfOk result (λ n. StandsAt words.now place (decimal n) × (n < 2 ^ 64)) }
    ensures bad { IfErr result (λ bad. (bad ≡ place)
        × ((n : ℕ) → n < 2 ^ 64 → ¬ StandsAt words.now place (decimal n))) }
{
    match words.get(place as usize) {
        Some(word) => match read_decimal(word.as_bytes()) {
            Some(n) => Ok(n),
            None => Err(place),
        },
        None => Err(place),
    }
}

/// The number from `least` to `most` at a place.
///
/// # Errors
/// The place, where no such number stands there.
pub fn number_within(words: &[Word], place: u32, least: u32, most: u32) -> Result<u32, u32>
    ensures ok { IfOk result (λ n. StandsAt words.now place (decimal n) × (least ≤ n) × (n ≤ most)) }
    ensures bad { IfErr result (λ bad. (bad ≡ place) × NoNumberAt words.now place least most) }
{
    let n = number_at(words, place)?;
    match u32::try_from(n) {
        Ok(n) if least <= n && n <= most => Ok(n),
        _ => Err(place),
    }
}

/// Asks for the end of the words at a place.
///
/// # Errors
/// The place, where a word stands there.
pub fn end_at(words: &[Word], place: u32) -> Result<(), u32>
    ensures ok { OnOk result (length words.now ≤ place) }
    ensures bad { IfErr result (λ bad. (bad ≡ place) × (place < length words.now)) }
{
    if words.len() > place as usize {
        Err(place)
    } else {
        Ok(())
    }
}
