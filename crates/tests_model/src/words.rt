//! Parts of texts, and numbers.

use un_base::decimal::read_decimal;

/// What stands before and behind the first byte of this kind.
pub(crate) fn cut(text: &[u8], byte: u8) -> (&[u8], &[u8]) {
    let at = text.iter().position(|b| *b == byte).unwrap_or(text.len());
    (
        &text[..at.min(text.len())],
        &text[at.saturating_add(1).min(text.len())..],
    )
}

/// The number of a word, and for another word one that no test has.
pub(crate) fn number(word: &[u8]) -> u32 {
    match read_decimal(word) {
        Some(n) => if n <= 4294967295 { n as u32 } else { 100_000 },
        None => 100_000,
    }
}

/// The number at place `k` among the words of a text, and for another word one that no test has.
pub(crate) fn number_at(text: &[u8], k: usize) -> u32 {
    number(text.split(|b| *b == b' ').nth(k).unwrap_or(&[]))
}
