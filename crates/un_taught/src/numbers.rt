//! What is said of the numbers of a line of a listing or of a start that may not be so large, or lie between multiples.

use crate::lesson::{Lesson, at_word, told};
use crate::row::Row;
use std::alloc::Global;
use un_base::decimal::read_decimal;
use un_base::memory_error::NoMemory;

/// The largest number of 32 bits.
const WORD: u64 = 4_294_967_295;

/// What a number may be.
#[derive(Clone, Copy)]
struct Limits {
    /// The largest one.
    most: u64,
    /// Of what it is a multiple.
    step: u64,
}

/// What the number at a place of a line with this head may be, where it is known.
fn limits_at(head: &[u8], place: usize) -> Option<Limits> {
    let limits = match head {
        b"frame" => Limits {
            most: 1024,
            step: 8,
        },
        b"reg" | b"junk" if place == 1 => Limits { most: 35, step: 1 },
        b"mem" | b"set" if place == 1 => Limits {
            most: WORD,
            step: 4,
        },
        b"reg" | b"junk" | b"mem" | b"set" | b"reply" => Limits {
            most: WORD,
            step: 1,
        },
        _ => return None,
    };
    Some(limits)
}

/// Whether a number is a multiple of a step, or there is none.
fn is_multiple(number: u64, step: u64) -> bool {
    step == 0 || number % step == 0
}

/// What is said of the word at a place of a line with this head, where its number is beyond its limits.
fn beyond_told(
    alloc: Global,
    row: &Row<'_>,
    head: &[u8],
    place: usize,
    number: u64,
) -> Result<Option<Lesson>, NoMemory> {
    let Some(Limits { most, step }) = limits_at(head, place) else {
        return Ok(None);
    };
    if number > most {
        let wrong = format!(in alloc; "`{number}` is more than may stand here");
        let help = format!(in alloc; "the largest number here is {most}");
        let lesson = told(at_word(row, place), wrong, help)?;
        return Ok(Some(lesson));
    }
    if is_multiple(number, step) {
        return Ok(None);
    }
    let wrong = format!(in alloc; "`{number}` is no multiple of {step}");
    let help = format!(in alloc; "multiples of {step} may stand here, up to {most}");
    let lesson = told(at_word(row, place), wrong, help)?;
    Ok(Some(lesson))
}

/// What is said of the first number of a line with this head that is beyond its limits; None where none is.
pub(crate) fn number_told(
    alloc: Global,
    row: &Row<'_>,
    head: &[u8],
) -> Result<Option<Lesson>, NoMemory> {
    for (place, word) in row.words().iter().enumerate() {
        if place > 0 {
            if let Some(number) = read_decimal(word.text) {
                let lesson = beyond_told(alloc, row, head, place, number)?;
                if lesson.is_some() {
                    return Ok(lesson);
                }
            }
        }
    }
    Ok(None)
}
