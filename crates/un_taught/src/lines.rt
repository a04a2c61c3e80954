//! Faults of one line that has a form: bytes, kinds of names, frequencies, and `func` lines in another place than first.

use crate::lesson::{Lesson, Place, at_word, told, whole};
use crate::row::Row;
use crate::word::Word;
use std::alloc::Global;
use un_base::memory_error::NoMemory;
use un_ir::function::Kind;
use un_isa::facts::{operand_spaces, result_space, source_name};
use un_isa::op::Op;
use un_isa::reg::Space;
use un_words::line::{Line, TermLine};
use un_words::token::Token;

/// The place of the first byte of a line that is neither a tab nor printable, with the byte.
fn strange_byte(line: &[u8]) -> Option<(usize, u8)> {
    for (at, byte) in line.iter().enumerate() {
        if *byte != b'\t' && (*byte < 32 || *byte > 126) {
            return Some((at, *byte));
        }
    }
    None
}

/// What is said of a byte that may not stand in a line.
pub(crate) fn byte_lesson(alloc: Global, row: &Row<'_>) -> Result<Lesson, NoMemory> {
    let help = format!(in alloc;
        "before a comment a line has tabs and the printable characters of ASCII alone"
    );
    match strange_byte(row.bytes) {
        Some((column, byte)) => {
            let place = Place {
                line: row.number,
                column,
                length: 1,
            };
            let wrong = if byte > 126 {
                format!(in alloc; "the byte {byte} is no character of ASCII that can be printed")
            } else {
                format!(in alloc; "the byte {byte} is a control character")
            };
            told(place, wrong, help)
        }
        None => told(
            whole(row),
            format!(in alloc; "the line has a carriage return and no line feed"),
            help,
        ),
    }
}

/// What is said of a frequency.
pub(crate) fn freq_lesson(alloc: Global, row: &Row<'_>) -> Result<Lesson, NoMemory> {
    let wrong = format!(in alloc; "a frequency is 1 to 1000000");
    let help = format!(in alloc;
        "write how often the block is entered for each run of the function, and at least 1: only their ratios count"
    );
    told(at_word(row, 3), wrong, help)
}

/// The place of the first word of a line whose text stands on it before.
fn repeated(row: &Row<'_>) -> Option<usize> {
    for (place, word) in row.words().iter().enumerate() {
        if row
            .words()
            .iter()
            .take(place)
            .any(|other| other.text == word.text)
        {
            return Some(place);
        }
    }
    None
}

/// What is said of a `func` line that stands in another place than first or repeats a parameter, or of another first line.
pub(crate) fn misplaced_lesson(
    alloc: Global,
    rows: &[Row<'_>],
    row: &Row<'_>,
) -> Result<Lesson, NoMemory> {
    if !matches!(row.line, Some(Line::Func { .. })) {
        let wrong = format!(in alloc; "the first line of a function is its `func` line");
        return told(
            whole(row),
            wrong,
            format!(in alloc; "put `func NAME %p %q` before it, with its parameters"),
        );
    }
    let earlier = rows
        .iter()
        .find(|other| matches!(other.line, Some(Line::Func { .. })));
    match earlier {
        Some(first) if first.number < row.number => {
            let number = first.number;
            let wrong = format!(in alloc; "a text has one function, and line {number} began it");
            told(
                whole(row),
                wrong,
                format!(in alloc; "put this one into a file of its own"),
            )
        }
        _ => match repeated(row) {
            Some(place) => {
                let word = row.word(place);
                let wrong = format!(in alloc; "the parameter `{word}` stands twice");
                told(
                    at_word(row, place),
                    wrong,
                    format!(in alloc; "give one of them another name"),
                )
            }
            None => told(
                whole(row),
                format!(in alloc; "the line may not stand here"),
                format!(in alloc; "a `func` line is the first line"),
            ),
        },
    }
}

/// The kind of the names of a space.
fn kind_of(space: Space) -> Kind {
    match space {
        Space::P => Kind::Pred,
        Space::R | Space::M => Kind::General,
    }
}

/// The kind of the name at a place among the names of an operation's line.
fn kind_in_operation(op: Op, has_result: bool, place: usize) -> Kind {
    if has_result && place == 0 {
        return match result_space(op) {
            Some(space) => kind_of(space),
            None => Kind::General,
        };
    }
    let operand = if has_result {
        place.saturating_sub(1)
    } else {
        place
    };
    match operand_spaces(op).get(operand) {
        Some(space) => kind_of(*space),
        None => Kind::General,
    }
}

/// The kind that the name at a place among the names of a line has to have.
fn kind_wanted(line: &Line, place: usize) -> Kind {
    match line {
        Line::Operation(o) => kind_in_operation(o.op, o.dst.is_some(), place),
        Line::Terminator(TermLine::Branch { .. }) => Kind::Pred,
        _ => Kind::General,
    }
}

/// The kind of the name that a word is.
fn kind_of_word(word: &Word<'_>) -> Option<Kind> {
    match word.form {
        Token::Named((_, kind)) => Some(kind),
        Token::Negated((_, kind)) => Some(kind),
        _ => None,
    }
}

/// The place of the first name of a line that is not of the kind of its place, with that kind.
fn clashing(row: &Row<'_>, line: &Line) -> Option<(usize, Kind)> {
    let mut names: usize = 0;
    for (place, word) in row.words().iter().enumerate() {
        if let Some(kind) = kind_of_word(word) {
            let wanted = kind_wanted(line, names);
            if kind != wanted {
                return Some((place, wanted));
            }
            names = names.saturating_add(1);
        }
    }
    None
}

/// What is said of a name that is not of the kind of its place.
pub(crate) fn clash_lesson(alloc: Global, row: &Row<'_>) -> Result<Lesson, NoMemory> {
    let found = match &row.line {
        Some(line) => clashing(row, line),
        None => None,
    };
    match found {
        Some((place, Kind::Pred)) => {
            let word = row.word(place);
            let wrong = format!(in alloc;
                "`{word}` stands where a predicate, `$` and a name, should"
            );
            told(
                at_word(row, place),
                wrong,
                format!(in alloc; "a predicate is made by a comparison, as `$c = cmpgti %a, #0`"),
            )
        }
        Some((place, Kind::General)) => {
            let word = row.word(place);
            let wrong = format!(in alloc;
                "`{word}` stands where a word of 32 bits, `%` and a name, should"
            );
            told(
                at_word(row, place),
                wrong,
                format!(in alloc; "a predicate becomes a word by `%d = mux $p, %one, %zero`"),
            )
        }
        None => told(
            whole(row),
            format!(in alloc; "a name of the line is not of the kind of its place"),
            format!(in alloc; "`%` is a word of 32 bits, `$` a predicate"),
        ),
    }
}

/// The word of an operation on a line.
pub fn operation_on(row: &Row<'_>) -> Option<&'static [u8]> {
    match &row.line {
        Some(Line::Operation(o)) => Some(source_name(o.op)),
        _ => None,
    }
}
