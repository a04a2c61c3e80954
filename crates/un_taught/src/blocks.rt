//! Labels, jumps, and how blocks end.

use crate::lesson::{Lesson, Place, at, at_word, behind, told, whole};
use crate::near::nearest;
use crate::row::Row;
use crate::word::{Shown, as_shown};
use std::alloc::{AllocError, Global};
use un_base::memory_error::NoMemory;
use un_base::name::Name;
use un_words::line::{Line, TermLine};

/// The label of a block line.
pub fn label_on(row: &Row<'_>) -> Option<Name> {
    match &row.line {
        Some(Line::Block { label, .. }) => Some(*label),
        _ => None,
    }
}

/// The terminator on a line.
pub fn term_on(row: &Row<'_>) -> Option<TermLine> {
    match &row.line {
        Some(Line::Terminator(term)) => Some(*term),
        _ => None,
    }
}

/// The label to which a line jumps.
pub fn target_on(row: &Row<'_>) -> Option<Name> {
    match term_on(row)? {
        TermLine::Jump(to) => Some(to),
        TermLine::Branch { to, .. } => Some(to),
        TermLine::Ret(_) => None,
    }
}

/// The line of the first block with this label.
pub(crate) fn block_named<'r, 'a>(rows: &'r [Row<'a>], label: &Name) -> Option<&'r Row<'a>> {
    rows.iter().find(|row| match label_on(row) {
        Some(other) => other.as_bytes() == label.as_bytes(),
        None => false,
    })
}

/// What is said of a label that stands on an earlier block line.
pub(crate) fn twice_lesson(
    alloc: Global,
    rows: &[Row<'_>],
    row: &Row<'_>,
) -> Result<Lesson, NoMemory> {
    let place = at_word(row, 1);
    let earlier = match label_on(row) {
        Some(label) => block_named(rows, &label),
        None => None,
    };
    let wrong = format!(in alloc; "the label stands on an earlier block line");
    match earlier {
        Some(first) => {
            let number = first.number;
            told(
                place,
                wrong,
                format!(in alloc; "line {number} has it too: give one of them another name"),
            )
        }
        None => told(place, wrong, format!(in alloc; "give it another name")),
    }
}

/// The texts of all labels.
fn labels(alloc: Global, rows: &[Row<'_>]) -> Result<Vec<Name>, AllocError> {
    rows.iter().filter_map(|row| label_on(row)).collect(alloc)
}

/// What is said of a label that no block has, where these are the blocks' labels.
fn unknown_among(
    alloc: Global,
    place: Place,
    label: &Name,
    labels: &[Name],
) -> Result<Lesson, NoMemory> {
    let texts: Vec<&[u8]> = labels.iter().map(|it| it.as_bytes()).collect(alloc)?;
    let near = nearest(alloc, label.as_bytes(), texts.as_slice())?;
    let name = as_shown(label);
    let wrong = format!(in alloc; "no block has the label `{name}`");
    match near {
        Some(near) => {
            let near = Shown(near);
            told(place, wrong, format!(in alloc; "did you mean `{near}`?"))
        }
        None => told(
            place,
            wrong,
            format!(in alloc; "a line `block {name} freq N` begins such a block"),
        ),
    }
}

/// What is said of a jump to no block.
pub(crate) fn outside_lesson(
    alloc: Global,
    rows: &[Row<'_>],
    row: &Row<'_>,
) -> Result<Lesson, NoMemory> {
    let place = match row.words().last() {
        Some(word) => at(row, word),
        None => behind(row),
    };
    let Some(label) = target_on(row) else {
        let wrong = format!(in alloc; "no block has this label");
        return told(
            place,
            wrong,
            format!(in alloc; "write the label of a block"),
        );
    };
    let labels = labels(alloc, rows)?;
    unknown_among(alloc, place, &label, labels.as_slice())
}

/// What is said of a jump to the entry.
pub(crate) fn entry_lesson(alloc: Global, row: &Row<'_>) -> Result<Lesson, NoMemory> {
    let place = match row.words().last() {
        Some(word) => at(row, word),
        None => behind(row),
    };
    let wrong = format!(in alloc; "a jump may not lead to the entry, which is the first block");
    let help = format!(in alloc;
        "put a block before it, as `block start freq 1`, from which the code goes on at it"
    );
    told(place, wrong, help)
}

/// What is said of a line that stands before the first block line.
pub(crate) fn early_lesson(alloc: Global, row: &Row<'_>) -> Result<Lesson, NoMemory> {
    let wrong = format!(in alloc; "there is no block line before this line");
    told(
        whole(row),
        wrong,
        format!(in alloc; "put `block entry freq 1` before it"),
    )
}

/// What is said of a text that has no block line.
pub(crate) fn blockless_lesson(alloc: Global, rows: &[Row<'_>]) -> Result<Lesson, NoMemory> {
    let place = Place {
        line: rows.len().saturating_add(1),
        column: 0,
        length: 0,
    };
    let has_words = rows.iter().any(|row| !row.words().is_empty());
    let wrong = if has_words {
        format!(in alloc; "the text ends, and no block has begun")
    } else {
        format!(in alloc; "the text is empty")
    };
    let help = format!(in alloc;
        "a function is a line `func NAME %p`, a line `block LABEL freq N`, operations, and last `ret` or `ret %v`"
    );
    told(place, wrong, help)
}

/// The last terminator before a line.
fn term_before<'r, 'a>(rows: &'r [Row<'a>], row: &Row<'_>) -> Option<&'r Row<'a>> {
    let mut last = None;
    for other in rows {
        if other.number < row.number && term_on(other).is_some() {
            last = Some(other);
        }
    }
    last
}

/// What is said of a line behind the end of its block.
pub(crate) fn late_lesson(
    alloc: Global,
    rows: &[Row<'_>],
    row: &Row<'_>,
) -> Result<Lesson, NoMemory> {
    let number = match term_before(rows, row) {
        Some(term) => term.number,
        None => 0,
    };
    let wrong = format!(in alloc; "the block has ended before this line, at line {number}");
    told(
        whole(row),
        wrong,
        format!(in alloc; "a line `block LABEL freq N` begins the next block"),
    )
}

/// The last line of a text that has words.
fn last_row<'r, 'a>(rows: &'r [Row<'a>]) -> Option<&'r Row<'a>> {
    let mut last = None;
    for row in rows {
        if !row.words().is_empty() {
            last = Some(row);
        }
    }
    last
}

/// What is said of a last block that does not end.
pub(crate) fn open_lesson(
    alloc: Global,
    rows: &[Row<'_>],
    row: &Row<'_>,
) -> Result<Lesson, NoMemory> {
    let last = last_row(rows).unwrap_or(row);
    let number = last.number;
    let branches = matches!(term_on(last), Some(TermLine::Branch { .. }));
    let wrong = if branches {
        format!(in alloc;
            "the last block ends by an `if` in line {number}, and no block follows it"
        )
    } else {
        format!(in alloc; "the last block, of this line, does not end")
    };
    let help = if branches {
        format!(in alloc;
            "put a block behind line {number}, as `block exit freq 1` with a line `ret`"
        )
    } else {
        format!(in alloc; "put `ret`, `ret %v` or `jump LABEL` behind line {number}")
    };
    told(at_word(row, 1), wrong, help)
}

/// Whether a return has a value, where the line is one.
fn value_on(row: &Row<'_>) -> Option<bool> {
    match term_on(row)? {
        TermLine::Ret(value) => Some(value.is_some()),
        _ => None,
    }
}

/// What is said of a return in another form than the first one.
pub(crate) fn mixed_lesson(
    alloc: Global,
    rows: &[Row<'_>],
    row: &Row<'_>,
) -> Result<Lesson, NoMemory> {
    let first = rows
        .iter()
        .find(|row| value_on(row).is_some())
        .unwrap_or(row);
    let number = first.number;
    let wrong = if value_on(first) == Some(true) {
        format!(in alloc; "this return gives no value, and that in line {number} gives one")
    } else {
        format!(in alloc; "this return gives a value, and that in line {number} gives none")
    };
    told(
        whole(row),
        wrong,
        format!(in alloc; "all returns of a function give a value, or none does"),
    )
}
