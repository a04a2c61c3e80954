//! The lines of a text, each with its words and what it is where it has a form.

use crate::word::{Shown, Word, words_of};
use std::alloc::Global;
use un_base::lines::lines;
use un_base::memory_error::NoMemory;
use un_lists::items::Items;
use un_words::line::Line;
use un_words::shape::read_line;
use un_words::token::Token;

/// A line of a text.
#[derive(Drop)]
pub struct Row<'a> {
    /// Its number, from 1.
    pub number: usize,
    /// What stands before its comment.
    pub bytes: &'a [u8],
    words: Items<Word<'a>>,
    /// What it is, where it has the form of a line.
    pub line: Option<Line>,
}

impl<'a> Row<'a> {
    /// The text of the word at a place, as it is shown.
    pub fn word(&self, place: usize) -> Shown<'a> {
        match self.words().get(place) {
            Some(word) => Shown(word.text),
            None => Shown(&[]),
        }
    }

    /// The words of the line.
    pub fn words(&self) -> &[Word<'a>] {
        self.words.as_slice()
    }
}

/// A line without a carriage return at its end and without its comment.
fn before_comment(line: &[u8]) -> &[u8] {
    let line = line.strip_suffix(b"\r").unwrap_or(line);
    match line.iter().position(|byte| *byte == b';') {
        Some(end) => &line[..end.min(line.len())],
        None => line,
    }
}

/// The forms of words.
fn forms_of(alloc: Global, words: &[Word<'_>]) -> Result<Items<Token>, NoMemory> {
    let mut forms = Items::new(alloc);
    for word in words {
        forms.push(word.form)?;
    }
    Ok(forms)
}

/// What a line with these words is.
fn line_of(alloc: Global, words: &[Word<'_>]) -> Result<Option<Line>, NoMemory> {
    let forms = forms_of(alloc, words)?;
    read_line(alloc, forms.as_slice())
}

/// The line of this number with these bytes.
pub fn row_of(alloc: Global, number: usize, bytes: &[u8]) -> Result<Row<'_>, NoMemory> {
    let words = words_of(alloc, bytes)?;
    let line = line_of(alloc, words.as_slice())?;
    Ok(Row {
        number,
        bytes,
        words,
        line,
    })
}

/// All lines of a text.
pub fn rows_of(alloc: Global, text: &[u8]) -> Result<Items<Row<'_>>, NoMemory> {
    let mut rows = Items::new(alloc);
    let mut number: usize = 0;
    for line in lines(text) {
        number = number.saturating_add(1);
        rows.push(row_of(alloc, number, before_comment(line))?)?;
    }
    Ok(rows)
}
