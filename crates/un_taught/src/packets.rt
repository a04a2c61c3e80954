//! What is said of a packet of a listing, by the first of its words that shows a fault of its own: one that is no instruction, a register
//! that there is not, a number out of its range, or a label that no block has.

use crate::lesson::{Lesson, Place, told};
use crate::literals::range_text;
use crate::near::nearest;
use crate::row::Row;
use crate::word::{Shown, Word};
use std::alloc::{AllocError, Global};
use un_base::decimal::read_decimal;
use un_base::lines::lines;
use un_base::memory_error::NoMemory;
use un_isa::facts::{Range, is_in_range};
use un_lists::items::Items;
use un_words::number::read_number;

/// The names of instructions, as a listing has them, with what their numbers may be.
static NAMES: [(&str, Option<Range>); 19] = [
    ("add", Some(Range::Signed16)),
    ("sub", None),
    ("and", Some(Range::Signed10)),
    ("or", Some(Range::Signed10)),
    ("xor", None),
    ("mpyi", None),
    ("asl", Some(Range::Unsigned5)),
    ("asr", Some(Range::Unsigned5)),
    ("lsr", Some(Range::Unsigned5)),
    ("mux", None),
    ("memw", Some(Range::Offset)),
    ("cmp.eq", Some(Range::Signed10)),
    ("cmp.gt", Some(Range::Signed10)),
    ("cmp.gtu", None),
    ("jump", None),
    ("call", None),
    ("jumpr", None),
    ("nop", None),
    ("if", None),
];

/// Whether a byte may stand in a name or a label.
fn is_of_name(byte: u8) -> bool {
    matches!(byte, b'a'..=b'z' | b'A'..=b'Z' | b'0'..=b'9' | b'.' | b'_')
}

/// The bytes of a text before the first one that may not stand in a name.
fn name_in(text: &[u8]) -> &[u8] {
    match text.iter().position(|byte| !is_of_name(*byte)) {
        Some(end) => &text[..end.min(text.len())],
        None => text,
    }
}

/// Whether a name is an instruction's.
fn is_instruction(name: &[u8]) -> bool {
    NAMES.iter().any(|entry| entry.0.as_bytes() == name)
}

/// What the number of the instruction of this name may be; without a name it is a number that is put into a register.
fn range_of(name: &[u8]) -> Option<Range> {
    if name.is_empty() {
        return Some(Range::Signed16);
    }
    match NAMES.iter().find(|entry| entry.0.as_bytes() == name) {
        Some(entry) => entry.1,
        None => None,
    }
}

/// The number of the register that a name with this letter has.
fn register_of<'a>(name: &'a [u8], letter: &[u8; 1]) -> Option<u64> {
    let digits = name.strip_prefix(letter)?;
    read_decimal(digits)
}

/// Whether there is the register of this name; None where the name is of another form.
fn is_register(name: &[u8]) -> Option<bool> {
    match (register_of(name, b"r"), register_of(name, b"p")) {
        (Some(number), _) => Some(number <= 31),
        (None, Some(number)) => Some(number <= 3),
        (None, None) => None,
    }
}

/// A place in a word, from a byte of it on.
fn inside(row: &Row<'_>, word: &Word<'_>, from: usize, length: usize) -> Place {
    Place {
        line: row.number,
        column: word.column.saturating_add(from),
        length,
    }
}

/// The names of all instructions.
fn instructions(alloc: Global) -> Result<Vec<&'static [u8]>, AllocError> {
    NAMES.iter().map(|entry| entry.0.as_bytes()).collect(alloc)
}

/// What is said of a name that is no instruction's.
fn unknown_told(
    alloc: Global,
    row: &Row<'_>,
    word: &Word<'_>,
    name: &[u8],
) -> Result<Lesson, NoMemory> {
    let names = instructions(alloc)?;
    let near = nearest(alloc, name, names.as_slice())?;
    let place = inside(row, word, 0, name.len());
    let shown = Shown(name);
    let wrong = format!(in alloc; "there is no `{shown}` among the instructions");
    match near {
        Some(near) => {
            let near = Shown(near);
            told(place, wrong, format!(in alloc; "did you mean `{near}`?"))
        }
        None => told(
            place,
            wrong,
            format!(in alloc; "the instructions are in docs/LANGUAGE.md, below `Listings`"),
        ),
    }
}

/// What is said of the name of a register that there is not.
fn register_told(
    alloc: Global,
    row: &Row<'_>,
    word: &Word<'_>,
    name: &[u8],
) -> Result<Lesson, NoMemory> {
    let shown = Shown(name);
    told(
        inside(row, word, 0, name.len()),
        format!(in alloc; "there is no register `{shown}`"),
        format!(in alloc; "there are r0 to r31 and p0 to p3"),
    )
}

/// The labels of a listing's blocks.
fn labels_of(alloc: Global, text: &[u8]) -> Result<Items<&[u8]>, NoMemory> {
    let mut labels = Items::new(alloc);
    for line in lines(text) {
        let line = line.strip_suffix(b"\r").unwrap_or(line);
        if let Some(label) = line.strip_prefix(b"block ") {
            labels.push(label)?;
        }
    }
    Ok(labels)
}

/// What is said of a jump to a label, where no block has it.
fn label_told(
    alloc: Global,
    row: &Row<'_>,
    word: &Word<'_>,
    text: &[u8],
) -> Result<Option<Lesson>, NoMemory> {
    let label = name_in(word.text);
    let labels = labels_of(alloc, text)?;
    if label.is_empty() || labels.as_slice().iter().any(|other| *other == label) {
        return Ok(None);
    }
    let near = nearest(alloc, label, labels.as_slice())?;
    let shown = Shown(label);
    let wrong = format!(in alloc; "no block of the listing has the label `{shown}`");
    let place = inside(row, word, 0, label.len());
    let lesson = match near {
        Some(near) => {
            let near = Shown(near);
            told(place, wrong, format!(in alloc; "did you mean `{near}`?"))
        }
        None => told(
            place,
            wrong,
            format!(in alloc; "a jump leads to a block of its own listing, `block {shown}`"),
        ),
    };
    Ok(Some(lesson?))
}

/// The bytes of a text before the first one that is no digit, behind a sign.
fn digits_in(text: &[u8]) -> &[u8] {
    match text
        .iter()
        .position(|byte| !matches!(*byte, b'0'..=b'9' | b'-'))
    {
        Some(end) => &text[..end.min(text.len())],
        None => text,
    }
}

/// Whether digits with a sign write a number that an instruction takes.
fn is_taken(range: Range, digits: &[u8]) -> bool {
    match read_number(digits) {
        Some(number) => {
            let size = number.size.min(65535) as i32;
            let value = if number.negative {
                0_i32.saturating_sub(size)
            } else {
                size
            };
            is_in_range(range, value)
        }
        None => false,
    }
}

/// What is said of the number of an instruction, where it is out of its range.
fn number_told(
    alloc: Global,
    row: &Row<'_>,
    word: &Word<'_>,
    name: &[u8],
) -> Result<Option<Lesson>, NoMemory> {
    let (Some(from), Some(range)) = (
        word.text.iter().position(|byte| *byte == b'#'),
        range_of(name),
    ) else {
        return Ok(None);
    };
    let digits = digits_in(word.text.get(from.saturating_add(1)..).unwrap_or(&[]));
    if is_taken(range, digits) {
        return Ok(None);
    }
    let shown = Shown(digits);
    let takes = range_text(range);
    let wrong = format!(in alloc; "`#{shown}` is out of the range of its instruction");
    let lesson = told(
        inside(row, word, from, digits.len().saturating_add(1)),
        wrong,
        format!(in alloc; "it takes {takes}"),
    )?;
    Ok(Some(lesson))
}

/// What is said of a word behind an instruction's name, or that is one, where it shows a fault.
fn word_told(
    alloc: Global,
    row: &Row<'_>,
    word: &Word<'_>,
    before: &[u8],
    text: &[u8],
) -> Result<Option<Lesson>, NoMemory> {
    let name = name_in(word.text);
    if before == b"jump".as_slice() {
        return label_told(alloc, row, word, text);
    }
    if before == b"call".as_slice() {
        return Ok(None);
    }
    match is_register(name) {
        Some(true) => {}
        Some(false) => return Ok(Some(register_told(alloc, row, word, name)?)),
        None if name.is_empty() || is_instruction(name) => {}
        None => return Ok(Some(unknown_told(alloc, row, word, name)?)),
    }
    let named = if is_instruction(name) { name } else { before };
    number_told(alloc, row, word, named)
}

/// The name of the instruction that a word stands in, where another follows it.
fn name_behind<'a>(word: &Word<'a>, before: &'a [u8]) -> &'a [u8] {
    let name = name_in(word.text);
    if word.text.ends_with(b";") {
        b""
    } else if is_instruction(name) {
        name
    } else {
        before
    }
}

/// What is said of a packet by the first of its words that shows a fault; None where none does.
pub(crate) fn packet_told(
    alloc: Global,
    row: &Row<'_>,
    text: &[u8],
) -> Result<Option<Lesson>, NoMemory> {
    let mut name: &[u8] = b"";
    for word in row.words() {
        let lesson = word_told(alloc, row, word, name, text)?;
        if lesson.is_some() {
            return Ok(lesson);
        }
        name = name_behind(word, name);
    }
    Ok(None)
}
