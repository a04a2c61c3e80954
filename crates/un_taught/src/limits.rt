//! What there is too much of.

use crate::blocks::label_on;
use crate::lesson::{Lesson, Place, at_word, told, whole};
use crate::row::Row;
use std::alloc::Global;
use un_base::memory_error::NoMemory;
use un_faults::before::Before;
use un_ir::function::{BLOCKS, NAMES, OPS, PARAMS};
use un_reader::limits::TEXT;
use un_words::line::Line;
use un_words::token::Token;

/// The place of a text as a whole.
const WHOLE: Place = Place {
    line: 0,
    column: 0,
    length: 0,
};

/// What is said of a text that is too long.
pub(crate) fn long_lesson(alloc: Global, text: &[u8]) -> Result<Lesson, NoMemory> {
    let bytes = text.len();
    let over = bytes.saturating_sub(TEXT);
    let wrong = format!(in alloc; "the text has more than {TEXT} bytes");
    if over == 0 {
        return told(
            WHOLE,
            wrong,
            format!(in alloc; "cut comments, or divide the function"),
        );
    }
    told(
        WHOLE,
        wrong,
        format!(in alloc;
            "it has {bytes}, which is {over} too many: cut comments, or divide the function"
        ),
    )
}

/// How many lines are operations.
fn operations(rows: &[Row<'_>]) -> usize {
    rows.iter()
        .filter(|row| matches!(row.line, Some(Line::Operation(_))))
        .count()
}

/// How many lines are block lines.
fn blocks(rows: &[Row<'_>]) -> usize {
    rows.iter().filter(|row| label_on(row).is_some()).count()
}

/// How many parameters or arguments a line has.
fn given(row: &Row<'_>) -> usize {
    match &row.line {
        Some(Line::Func { params, .. }) => params.len(),
        Some(Line::Operation(o)) => o.srcs.len(),
        _ => 0,
    }
}

/// The place of the word that is the seventh name of a line behind so many names.
fn seventh(row: &Row<'_>, more: usize) -> Option<usize> {
    let mut names: usize = 0;
    for (place, word) in row.words().iter().enumerate() {
        if matches!(word.form, Token::Named(_)) {
            names = names.saturating_add(1);
            if names > more.saturating_add(PARAMS as usize) {
                return Some(place);
            }
        }
    }
    None
}

/// What is said of too many parameters or arguments.
fn seventh_lesson(alloc: Global, row: &Row<'_>) -> Result<Lesson, NoMemory> {
    let count = given(row);
    let has_result = match &row.line {
        Some(Line::Operation(o)) => o.dst.is_some(),
        _ => false,
    };
    let place = match seventh(row, usize::from(has_result)) {
        Some(place) => at_word(row, place),
        None => whole(row),
    };
    let over = count.saturating_sub(PARAMS as usize);
    let wrong = if matches!(row.line, Some(Line::Func { .. })) {
        format!(in alloc; "a function has at most {PARAMS} parameters, and this one has {count}")
    } else {
        format!(in alloc; "a call has at most {PARAMS} arguments, and this one has {count}")
    };
    told(
        place,
        wrong,
        format!(in alloc; "that is {over} too many: pass them in memory, behind one address"),
    )
}

/// The names that stand before the line of a number.
fn names_before(alloc: Global, rows: &[Row<'_>], number: usize) -> Result<Before, NoMemory> {
    let mut before = Before::new(alloc);
    for row in rows {
        if let Some(line) = &row.line {
            if row.number < number && before.ops < OPS as usize {
                before.note(line)?;
            }
        }
    }
    Ok(before)
}

/// What is said of too many names.
fn names_lesson(alloc: Global, rows: &[Row<'_>], row: &Row<'_>) -> Result<Lesson, NoMemory> {
    let before = names_before(alloc, rows, row.number)?;
    let known = before.names.len();
    let wrong = format!(in alloc;
        "a function has at most {NAMES} names, of both kinds together, and before this line it has {known}"
    );
    let help = format!(in alloc;
        "use a name again whose value is needed no more: a name may be assigned many times"
    );
    told(whole(row), wrong, help)
}

/// What is said of what there is too much of, at the first line with it.
pub(crate) fn many_lesson(
    alloc: Global,
    rows: &[Row<'_>],
    row: &Row<'_>,
) -> Result<Lesson, NoMemory> {
    if given(row) > PARAMS as usize {
        return seventh_lesson(alloc, row);
    }
    let before = rows
        .split(|other| other.number == row.number)
        .next()
        .unwrap_or(&[]);
    let (ops, all_ops) = (operations(before), operations(rows));
    if matches!(row.line, Some(Line::Operation(_))) && ops >= OPS as usize {
        let over = all_ops.saturating_sub(OPS as usize);
        let wrong = format!(in alloc;
            "a function has at most {OPS} operations, and this one has {all_ops}"
        );
        return told(
            whole(row),
            wrong,
            format!(in alloc; "that is {over} too many: divide the function"),
        );
    }
    let (labels, all_labels) = (blocks(before), blocks(rows));
    if label_on(row).is_some() && labels >= BLOCKS as usize {
        let over = all_labels.saturating_sub(BLOCKS as usize);
        let wrong = format!(in alloc;
            "a function has at most {BLOCKS} blocks, and this one has {all_labels}"
        );
        return told(
            whole(row),
            wrong,
            format!(in alloc; "that is {over} too many: divide the function"),
        );
    }
    names_lesson(alloc, rows, row)
}
