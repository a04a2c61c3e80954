//! Rows of texts with what is asked of them. Between two `|` stands a row: a text, `?`, a question, `:` and the answer. The answer leaves
//! out what `...` stands for, and has a range `LO..HI` or `LO..` where any of these numbers will do. `&` is the text of the row before, and
//! a row that begins with `#` is a comment.

use crate::ends::put_ends;
use crate::firsts::put_first;
use crate::hostile::put_deep;
use crate::least_rows::put_kept;
use crate::posts::{put_counts, put_end, put_operands, put_parts};
use crate::reports::put_altered;
use crate::runs::{put_numbers, put_run};
use crate::searches::{put_solved, put_tried};
use crate::verdicts::{put_verdict, put_verdict_by_lines};
use crate::versions::put_version;
use std::alloc::Global;
use std::str::from_utf8;
use un_base::decimal::read_decimal;
use un_base::memory_error::NoMemory;

/// What stands before and behind the first byte of this kind.
pub(crate) fn cut(text: &[u8], byte: u8) -> (&[u8], &[u8]) {
    let at = text.iter().position(|b| *b == byte).unwrap_or(text.len());
    (
        &text[..at.min(text.len())],
        &text[at.saturating_add(1).min(text.len())..],
    )
}

/// The number of a word, and the largest one for another word.
pub(crate) fn number(word: &[u8]) -> u64 {
    read_decimal(word).unwrap_or(u64::MAX)
}

/// The number at place `k` among the words of a text, and the largest one where there is none.
pub(crate) fn number_at(text: &[u8], k: usize) -> u64 {
    number(text.split(|b| *b == b' ').nth(k).unwrap_or(&[]))
}

/// Appends the answer to a question about a text: of what is posted, for the whole or for its blocks, of how rounds end, of propagators of
/// two operands, of the least ends of blocks, of rows of them, of a search, of an attempt, of a first solution, of the check of a tree or of
/// its lines, of a run over an altered report, one of a version or a deep tree, of the numbers of a report, or else of a run by words.
fn put_answer(
    alloc: Global,
    out: &mut Vec<u8>,
    text: &[u8],
    question: &[u8],
) -> Result<(), NoMemory> {
    // (a run, whose first letter a search has too)
    if question.starts_with(b"steps") {
        return put_run(alloc, out, text, question);
    }
    if question.starts_with(b"parts") {
        return put_parts(alloc, out, text);
    }
    match question.first() {
        Some(b'p') => put_counts(alloc, out, text),
        Some(b'e') => put_end(alloc, out, text, question),
        Some(b'd') => put_deep(alloc, out, text),
        Some(b'v') => put_verdict(alloc, out, text, question),
        Some(b'l') => put_verdict_by_lines(alloc, out, text, question),
        Some(b'b') => put_ends(alloc, out, text),
        Some(b'k') => put_kept(alloc, out, text),
        Some(b'n') => put_numbers(alloc, out, text, question),
        Some(b'o') => put_operands(alloc, out, text),
        Some(b's') => put_solved(alloc, out, text, question),
        Some(b'=') => put_altered(alloc, out, text, question),
        Some(b'f') => put_first(alloc, out, text, question),
        Some(b't') => put_tried(alloc, out, text, question),
        Some(b'1'..=b'4') => put_version(alloc, out, text, question),
        _ => put_run(alloc, out, text, question),
    }
}

/// Whether a word is the one that is wanted, or a number of the range that is.
fn is_word(found: &[u8], wanted: &[u8]) -> bool {
    let (least, most) = cut(wanted, b'.');
    match (read_decimal(found), most.strip_prefix(b".")) {
        (Some(n), Some(most)) => number(least) <= n && n <= number(most),
        _ => found == wanted,
    }
}

/// Whether the words of an answer are those that are wanted.
fn are_words(found: &[u8], answer: &[u8]) -> bool {
    let mut words = found.split(|b| *b == b' ');
    for wanted in answer.split(|b| *b == b' ') {
        match words.next() {
            Some(word) if is_word(word, wanted) => {}
            _ => return false,
        }
    }
    words.next().is_none()
}

/// What stands before and behind what an answer leaves out, where it does.
fn parts(answer: &[u8]) -> Option<(&[u8], &[u8])> {
    let text = from_utf8(answer).ok()?;
    let (front, back) = text.split_once("...")?;
    Some((front.as_bytes(), back.as_bytes()))
}

/// Whether an answer is what is wanted.
pub(crate) fn is_wanted(found: &[u8], answer: &[u8]) -> bool {
    match parts(answer) {
        Some((front, back)) => found.starts_with(front) && found.ends_with(back),
        None => are_words(found, answer),
    }
}

/// Whether a text has the answer of a section.
fn is_answered(alloc: Global, text: &[u8], section: &[u8]) -> Result<bool, NoMemory> {
    let (question, answer) = cut(section, b':');
    let mut out = Vec::new(alloc);
    put_answer(alloc, &mut out, text, question)?;
    Ok(is_wanted(out.as_slice(), answer))
}

/// The first row whose answer is another, if there is one.
fn first_wrong(alloc: Global, rows: &[u8]) -> Result<Option<&[u8]>, NoMemory> {
    let mut text: &[u8] = &[];
    for row in rows.split(|b| *b == b'|') {
        let (own, section) = cut(row, b'?');
        if own.starts_with(b"#") {
            continue;
        }
        if own != b"&".as_slice() {
            text = own;
        }
        if !is_answered(alloc, text, section)? {
            return Ok(Some(row));
        }
    }
    Ok(None)
}

/// What names a row that has another answer, and nothing where none has.
pub(crate) fn named(wrong: Result<Option<&[u8]>, NoMemory>) -> &str {
    match wrong {
        Ok(None) => "",
        Ok(Some(row)) => from_utf8(row).unwrap_or("a row that is no text"),
        Err(NoMemory) => "no memory",
    }
}

/// The first row whose answer is another, and nothing where each has its own.
pub(crate) fn wrong_row(alloc: Global, rows: &[u8]) -> &str {
    named(first_wrong(alloc, rows))
}
