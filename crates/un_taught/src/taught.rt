//! The lesson of a text's first fault, and how it is written.

use crate::blocks::{
    blockless_lesson, early_lesson, entry_lesson, late_lesson, mixed_lesson, open_lesson,
    outside_lesson, twice_lesson,
};
use crate::heads::head_lesson;
use crate::lesson::{Lesson, told, whole};
use crate::limits::{long_lesson, many_lesson};
use crate::lines::{byte_lesson, clash_lesson, freq_lesson, misplaced_lesson};
use crate::literals::wide_lesson;
use crate::row::{Row, rows_of};
use crate::unset::unset_lesson;
use crate::word::Shown;
use std::alloc::{AllocError, Global};
use un_base::memory_error::NoMemory;
use un_reader::error::ReadError;
use un_reader::read::read_function;

/// The lesson of a fault of a line, by the fault's code.
fn lesson_by(alloc: Global, rows: &[Row<'_>], row: &Row<'_>, code: u8) -> Result<Lesson, NoMemory> {
    match code {
        1 => byte_lesson(alloc, row),
        2 if row.line.is_none() => head_lesson(alloc, row),
        2 => misplaced_lesson(alloc, rows, row),
        3 => wide_lesson(alloc, row),
        4 => twice_lesson(alloc, rows, row),
        5 => outside_lesson(alloc, rows, row),
        6 => early_lesson(alloc, row),
        7 => late_lesson(alloc, rows, row),
        8 => open_lesson(alloc, rows, row),
        9 => entry_lesson(alloc, row),
        10 => clash_lesson(alloc, row),
        11 => mixed_lesson(alloc, rows, row),
        12 => unset_lesson(alloc, rows, row),
        13 => many_lesson(alloc, rows, row),
        14 => freq_lesson(alloc, row),
        _ => told(
            whole(row),
            format!(in alloc; "the line may not stand here"),
            format!(in alloc; "docs/LANGUAGE.md has the forms of lines"),
        ),
    }
}

/// The lesson of a text's first fault, at this line with this code.
fn lesson_at(alloc: Global, text: &[u8], line: u32, code: u8) -> Result<Lesson, NoMemory> {
    if line == 0 {
        return long_lesson(alloc, text);
    }
    let rows = rows_of(alloc, text)?;
    match rows.as_slice().get((line as usize).saturating_sub(1)) {
        Some(row) => lesson_by(alloc, rows.as_slice(), row, code),
        None => blockless_lesson(alloc, rows.as_slice()),
    }
}

/// The lesson of a text's first fault; None where it has none.
pub fn teach(alloc: Global, text: &[u8]) -> Result<Option<Lesson>, NoMemory> {
    match read_function(alloc, text) {
        Ok(_) => Ok(None),
        Err(ReadError::NoMemory) => Err(NoMemory),
        Err(ReadError::TextFault { line, code }) => {
            let lesson = lesson_at(alloc, text, line, code)?;
            Ok(Some(lesson))
        }
    }
}

/// The line of this number, from 1.
fn line_at(text: &[u8], number: usize) -> &[u8] {
    let mut lines = un_base::lines::lines(text);
    lines.nth(number.saturating_sub(1)).unwrap_or(&[])
}

/// Appends a line with marks under the words at fault.
fn put_marks(out: &mut String, column: usize, length: usize) -> Result<(), AllocError> {
    out.push_str("  | ")?;
    for _column in 0..column.min(400) {
        out.push(' ')?;
    }
    for _mark in 0..length.clamp(1, 400) {
        out.push('^')?;
    }
    out.push_str("\n")
}

/// Appends the line of a fault, with its words underlined.
fn put_line(
    alloc: Global,
    out: &mut String,
    lesson: &Lesson,
    line: &[u8],
) -> Result<(), AllocError> {
    let line = Shown(line.strip_suffix(b"\r").unwrap_or(line));
    let quoted = format!(in alloc; "  | {line}\n")?;
    out.push_str(quoted.as_str())?;
    put_marks(out, lesson.place.column, lesson.place.length)
}

/// A lesson as it is written: the line with the words at fault underlined, where they stand, what is wrong, and what would be accepted.
pub fn written(alloc: Global, text: &[u8], lesson: &Lesson) -> Result<String, AllocError> {
    let mut out = String::new(alloc);
    let number = lesson.place.line;
    let line = line_at(text, number);
    if number > 0 && !line.is_empty() {
        put_line(alloc, &mut out, lesson, line)?;
    }
    let column = lesson.place.column.saturating_add(1);
    let wrong = lesson.wrong.as_str();
    let help = lesson.help.as_str();
    let told = if number == 0 {
        format!(in alloc; "{wrong}\n  = {help}\n")?
    } else {
        format!(in alloc; "line {number}, column {column}: {wrong}\n  = {help}\n")?
    };
    out.push_str(told.as_str())?;
    Ok(out)
}
