//! Standard input in two parts: a function's text, and after a line `---` what is asked of it.

use std::alloc::Global;
use un_base::decimal::read_decimal;
use un_base::lines::lines;
use un_outside::status::Status;

/// A function's text, and what follows the line `---`.
#[derive(Clone, Copy)]
pub struct Parts<'a> {
    /// The function's text, before the first line that is `---`.
    pub function: &'a [u8],
    /// What follows that line; empty where there is none.
    pub rest: &'a [u8],
}

/// Whether a line that a line feed ends is `---`, where a carriage return before the line feed does not count.
fn is_rule(line: &[u8]) -> bool {
    line == b"---".as_slice() || line == b"---\r".as_slice()
}

/// The part of a text before a place, and the part from another place on.
fn parted(text: &[u8], before: usize, from: usize) -> Parts<'_> {
    let function = &text[..before.min(text.len())];
    let rest = &text[from.min(text.len())..];
    Parts { function, rest }
}

/// The two parts of an input.
pub fn split_input(text: &[u8]) -> Parts<'_> {
    let mut at: usize = 0;
    for line in lines(text) {
        let end = at.saturating_add(line.len());
        let ended = end < text.len();
        if line == b"---".as_slice() || (ended && is_rule(line)) {
            return parted(text, at, end.saturating_add(1));
        }
        at = end.saturating_add(1);
    }
    parted(text, text.len(), text.len())
}

/// Whether a byte stands between numbers.
fn is_between(byte: u8) -> bool {
    byte == b' ' || byte == b'\t' || byte == b'\r'
}

/// The first three words of a line, and how many it has.
pub fn words(line: &[u8]) -> ([&[u8]; 3], usize) {
    let none: &[u8] = b"";
    let mut first = [none; 3];
    let mut n: usize = 0;
    for word in line.split(|b| is_between(*b)) {
        if !word.is_empty() {
            if n < 3 {
                first[n] = word;
            }
            n = n.saturating_add(1);
        }
    }
    (first, n)
}

/// The number below 2^32 that a word is.
pub fn small_number(word: &[u8]) -> Option<u32> {
    read_decimal(word).and_then(|n| u32::try_from(n).ok())
}

/// Adds the numbers of a line.
///
/// # Errors
/// `BadReport` with this line's number where something else stands there.
fn add_numbers(values: &mut Vec<u32>, line: &[u8], number: u32) -> Result<(), Status> {
    for word in line.split(|b| is_between(*b)) {
        if word.is_empty() {
            continue;
        }
        let Some(value) = small_number(word) else {
            return Err(Status::BadReport { line: number });
        };
        if values.push(value).is_err() {
            return Err(Status::NoMemory);
        }
    }
    Ok(())
}

/// The numbers of a text, between blanks and line feeds.
///
/// # Errors
/// `BadReport` with the first line, from 1, on which something else stands; `NoMemory`.
pub fn numbers(alloc: Global, text: &[u8]) -> Result<Vec<u32>, Status> {
    let mut values = Vec::new(alloc);
    let mut number: u32 = 0;
    for line in lines(text) {
        number = number.saturating_add(1);
        add_numbers(&mut values, line, number)?;
    }
    Ok(values)
}
