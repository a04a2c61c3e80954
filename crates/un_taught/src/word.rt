//! The words of a line, each with its column.

use std::alloc::{AllocError, Global};
use std::fmt;
use un_base::name::Name;
use un_lists::items::Items;
use un_words::token::{Token, read_token};

/// A word of a line. It is shown with a `?` for each byte that is no printable character.
#[derive(Clone, Copy)]
pub struct Word<'a> {
    pub text: &'a [u8],
    /// Its first column, from 0.
    pub column: usize,
    pub form: Token,
}

/// Bytes of a text, shown in the same way.
#[derive(Clone, Copy)]
pub struct Shown<'a>(pub &'a [u8]);

/// A name without its sigil, as it is shown.
pub(crate) fn as_shown(name: &Name) -> Shown<'_> {
    Shown(name.as_bytes())
}

/// The character that stands for a byte.
fn printable(byte: u8) -> char {
    if byte == b'\t' {
        ' '
    } else if 32 <= byte && byte <= 126 {
        char::from(byte)
    } else {
        '?'
    }
}

impl<'a> fmt::Display for Shown<'a> {
    fn fmt<W: fmt::Write>(&self, f: &mut fmt::Formatter<W>) -> fmt::Result {
        for byte in self.0 {
            f.write_char(printable(*byte))?;
        }
        Ok(())
    }
}

impl<'a> fmt::Display for Word<'a> {
    fn fmt<W: fmt::Write>(&self, f: &mut fmt::Formatter<W>) -> fmt::Result {
        for byte in self.text {
            f.write_char(printable(*byte))?;
        }
        Ok(())
    }
}

/// The bytes of a line between two columns.
fn between(line: &[u8], from: usize, to: usize) -> &[u8] {
    let front = &line[..to.min(line.len())];
    &front[from.min(front.len())..]
}

/// The word between two columns.
fn word_between(line: &[u8], from: usize, to: usize) -> Word<'_> {
    let text = between(line, from, to);
    Word {
        text,
        column: from,
        form: read_token(text),
    }
}

/// Whether words end at this byte: at a blank, a comma or an equals sign.
fn ends_word(byte: u8) -> bool {
    matches!(byte, b' ' | b'\t' | b',' | b'=')
}

/// Whether the byte is a word of its own.
fn is_mark(byte: u8) -> bool {
    matches!(byte, b',' | b'=')
}

/// The words of a line without its comment.
pub fn words_of(alloc: Global, line: &[u8]) -> Result<Items<Word<'_>>, AllocError> {
    let mut words = Items::new(alloc);
    let mut begun: Option<usize> = None;
    for (at, byte) in line.iter().enumerate() {
        if ends_word(*byte) {
            if let Some(from) = begun {
                words.push(word_between(line, from, at))?;
            }
            if is_mark(*byte) {
                words.push(word_between(line, at, at.saturating_add(1)))?;
            }
            begun = None;
        } else if begun.is_none() {
            begun = Some(at);
        }
    }
    if let Some(from) = begun {
        words.push(word_between(line, from, line.len()))?;
    }
    Ok(words)
}
