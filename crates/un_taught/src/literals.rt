//! Numbers that are not written as such, or do not fit their operation.

use crate::forms::form_of;
use crate::lesson::{Lesson, at, at_word, told, whole};
use crate::row::Row;
use crate::word::{Shown, Word};
use std::alloc::Global;
use un_base::memory_error::NoMemory;
use un_isa::facts::{Range, literal_range, source_name};
use un_isa::op::Op;
use un_words::line::Line;
use un_words::token::Token;

/// What a literal of this range may be.
pub(crate) fn range_text(range: Range) -> &'static str {
    match range {
        Range::Signed16 => "-32768 to 32767",
        Range::Signed10 => "-512 to 511",
        Range::Unsigned5 => "0 to 31",
        Range::Offset => "the multiples of 4 from -4096 to 4092",
        Range::FrameOffset => "the multiples of 4 from 0 to 4092",
    }
}

/// What may be the literal of an operation.
fn range_of(op: Op) -> &'static str {
    match literal_range(op) {
        Some(range) => range_text(range),
        None => "no number",
    }
}

/// What can be done where a literal does not fit.
fn way_out(op: Op) -> &'static str {
    match op {
        Op::Imm => "; a wider constant is made by `imm`, `asl` and `addi` or `add`",
        Op::Addi | Op::Andi | Op::Ori | Op::CmpEqi | Op::CmpGti => {
            "; another number comes into a name by `imm`"
        }
        Op::Load | Op::Store => "; a farther address is made by `add`",
        _ => "",
    }
}

/// The value of a hexadecimal digit.
fn hex_digit(byte: u8) -> Option<u64> {
    match byte {
        b'0'..=b'9' => Some(u64::from(byte.wrapping_sub(b'0'))),
        b'a'..=b'f' => Some(u64::from(byte.wrapping_sub(b'a')).saturating_add(10)),
        b'A'..=b'F' => Some(u64::from(byte.wrapping_sub(b'A')).saturating_add(10)),
        _ => None,
    }
}

/// The number that hexadecimal digits write, where it fits.
fn read_digits(digits: &[u8]) -> Option<u64> {
    let mut value: u64 = 0;
    for byte in digits {
        let digit = hex_digit(*byte)?;
        value = value.checked_mul(16)?.checked_add(digit)?;
    }
    Some(value)
}

/// The number that a word writes behind `#0x`.
fn read_hexadecimal(word: &[u8]) -> Option<u64> {
    let digits = word.strip_prefix(b"#0x")?;
    if digits.is_empty() {
        return None;
    }
    read_digits(digits)
}

/// What is said of a word where an operation has its literal.
pub(crate) fn literal_lesson(
    alloc: Global,
    row: &Row<'_>,
    word: &Word<'_>,
    op: Op,
) -> Result<Lesson, NoMemory> {
    let range = range_of(op);
    let form = form_of(op);
    let place = at(row, word);
    if matches!(word.form, Token::Plain(_)) {
        let wrong = format!(in alloc; "a literal begins with `#`");
        return told(place, wrong, format!(in alloc; "did you mean `#{word}`?"));
    }
    if let Some(value) = read_hexadecimal(word.text) {
        let wrong = format!(in alloc; "numbers are decimal");
        let help = format!(in alloc; "did you mean `#{value}`? The literal is {range} here");
        return told(place, wrong, help);
    }
    let wrong = format!(in alloc;
        "`{word}` is no literal: `#`, `-` where it is negative, and decimal digits"
    );
    told(
        place,
        wrong,
        format!(in alloc; "the line is written `{form}`, with {range} as n"),
    )
}

/// The place of the first literal of a line.
fn literal_in(row: &Row<'_>) -> Option<usize> {
    row.words()
        .iter()
        .position(|word| matches!(word.form, Token::Literal(_)))
}

/// What is said of a number that does not fit its operation.
pub(crate) fn wide_lesson(alloc: Global, row: &Row<'_>) -> Result<Lesson, NoMemory> {
    let (Some(Line::Operation(line)), Some(place)) = (&row.line, literal_in(row)) else {
        let wrong = format!(in alloc; "the number does not fit its operation");
        return told(whole(row), wrong, format!(in alloc; "write one that does"));
    };
    let word = row.word(place);
    let name = Shown(source_name(line.op));
    let range = range_of(line.op);
    let other = way_out(line.op);
    let wrong = format!(in alloc; "`{word}` does not fit `{name}`");
    told(
        at_word(row, place),
        wrong,
        format!(in alloc; "`{name}` takes {range} here{other}"),
    )
}
