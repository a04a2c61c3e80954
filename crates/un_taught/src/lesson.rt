//! What is said of a fault.

use crate::row::Row;
use crate::word::Word;
use std::alloc::AllocError;
use un_base::memory_error::NoMemory;

/// Where a fault stands.
#[derive(Clone, Copy)]
pub struct Place {
    /// The line, from 1; 0 for the text as a whole.
    pub line: usize,
    /// The first column of the words at fault, from 0.
    pub column: usize,
    /// How many columns they have, 0 where they are missing.
    pub length: usize,
}

/// What is said of a fault: where it stands, what is wrong, and what would be accepted.
#[derive(Drop)]
pub struct Lesson {
    pub place: Place,
    pub wrong: String,
    pub help: String,
}

/// The place of a word of a line.
pub fn at(row: &Row<'_>, word: &Word<'_>) -> Place {
    Place {
        line: row.number,
        column: word.column,
        length: word.text.len(),
    }
}

/// The place of all words of a line.
pub fn whole(row: &Row<'_>) -> Place {
    let Some(first) = row.words().first() else {
        return behind(row);
    };
    let end = behind(row).column;
    Place {
        line: row.number,
        column: first.column,
        length: end.saturating_sub(first.column),
    }
}

/// The place behind the last word of a line.
pub fn behind(row: &Row<'_>) -> Place {
    let column = match row.words().last() {
        Some(word) => word.column.saturating_add(word.text.len()),
        None => 0,
    };
    Place {
        line: row.number,
        column,
        length: 0,
    }
}

/// The place of the word of this number in a line, or behind its words where there are fewer.
pub(crate) fn at_word(row: &Row<'_>, number: usize) -> Place {
    match row.words().get(number) {
        Some(word) => at(row, word),
        None => behind(row),
    }
}

/// What is said of a fault at a place.
pub fn told(
    place: Place,
    wrong: Result<String, AllocError>,
    help: Result<String, AllocError>,
) -> Result<Lesson, NoMemory> {
    let wrong = wrong?;
    let help = help?;
    Ok(Lesson { place, wrong, help })
}
