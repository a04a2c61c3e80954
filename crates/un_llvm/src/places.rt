//! Names and labels by their places, and operands.

use crate::cursor::Cursor;
use crate::function::{BlockId, NameId, Operand};
use crate::lists::push;
use crate::refusal::{Missing, Refusal};
use crate::token::Token;
use crate::types::Types;
use std::alloc::Global;
use un_base::memory_error::NoMemory;

/// What a function's lines speak of: types, the names of values, and the labels of blocks.
#[derive(Drop)]
pub struct Scope<'a> {
    pub alloc: Global,
    pub types: Types<'a>,
    pub names: Vec<&'a [u8]>,
    pub labels: Vec<&'a [u8]>,
}

/// What stands before a value and matters here.
#[derive(Clone, Copy)]
pub struct Told {
    /// Whether a number of fewer bits fills a word with its sign.
    pub signed: bool,
    /// The number of bytes of which an address is a multiple, 1 where none is told.
    pub align: u32,
}

/// Words that may stand before a value and say nothing that matters here.
static ATTRIBUTES: [&[u8]; 12] = [
    b"noundef",
    b"nonnull",
    b"zeroext",
    b"nocapture",
    b"readonly",
    b"writeonly",
    b"readnone",
    b"noalias",
    b"returned",
    b"inreg",
    b"immarg",
    b"nofree",
];

/// Words that may stand before a value with a number or with something in brackets behind them.
static MEASURED: [&[u8]; 5] = [
    b"dereferenceable",
    b"dereferenceable_or_null",
    b"sret",
    b"captures",
    b"range",
];

/// Takes one of the words with something behind them, and that.
fn skip_measured(cursor: &mut Cursor<'_, '_>) {
    for word in MEASURED.iter() {
        if cursor.takes_word(word) {
            if cursor.takes_mark(b'(') {
                cursor.skip_parentheses();
            } else {
                let _ = cursor.take();
            }
        }
    }
}

/// The number behind the word `align`, in brackets or not, where that word is next.
pub(crate) fn alignment(cursor: &mut Cursor<'_, '_>) -> Option<u32> {
    if !cursor.takes_word(b"align") {
        return None;
    }
    let is_open = cursor.takes_mark(b'(');
    let align = match cursor.take() {
        Some(Token::Number(number)) => u32::try_from(number).unwrap_or(1),
        _ => 1,
    };
    if is_open {
        cursor.takes_mark(b')');
    }
    Some(align)
}

/// Takes all that stands before a value.
pub(crate) fn attributes(cursor: &mut Cursor<'_, '_>) -> Told {
    let mut found = Told {
        signed: false,
        align: 1,
    };
    for _ in 0..cursor.left() {
        let before = cursor.left();
        cursor.skip_words(&ATTRIBUTES);
        skip_measured(cursor);
        found.signed = cursor.takes_word(b"signext") || found.signed;
        found.align = alignment(cursor).unwrap_or(found.align);
        if cursor.left() == before {
            break;
        }
    }
    found
}

/// The place of a text among texts.
fn place_of(texts: &[&[u8]], text: &[u8]) -> Option<usize> {
    texts.iter().position(|t| *t == text)
}

/// The number that a word stands for.
fn constant(word: &[u8]) -> Option<i64> {
    if word == b"true".as_slice() {
        return Some(1);
    }
    let is_zero = word == b"false".as_slice()
        || word == b"null".as_slice()
        || word == b"undef".as_slice()
        || word == b"poison".as_slice()
        || word == b"zeroinitializer".as_slice();
    if is_zero { Some(0) } else { None }
}

impl<'a> Scope<'a> {
    /// A scope with types and labels, and no names.
    pub fn new(alloc: Global, types: Types<'a>, labels: Vec<&'a [u8]>) -> Scope<'a> {
        Scope {
            alloc,
            types,
            names: Vec::new(alloc),
            labels,
        }
    }

    /// The place of a name, which is added where it is new.
    pub fn name(&mut self, text: &'a [u8]) -> Result<NameId, NoMemory> {
        if let Some(place) = place_of(self.names.as_slice(), text) {
            return Ok(place);
        }
        let place = self.names.len();
        push(&mut self.names, text)?;
        Ok(place)
    }

    /// The block of a label.
    ///
    /// # Errors
    /// `Block` where there is none.
    pub fn block(&self, cursor: &Cursor<'_, 'a>, label: &'a [u8]) -> Result<BlockId, Refusal<'a>> {
        match place_of(self.labels.as_slice(), label) {
            Some(place) => Ok(place),
            None => Err(cursor.lacks_word(Missing::Block, label)),
        }
    }

    /// The block behind the word `label`.
    pub fn label(&self, cursor: &mut Cursor<'_, 'a>) -> Result<BlockId, Refusal<'a>> {
        cursor.takes_word(b"label");
        match cursor.take() {
            Some(Token::Local(label)) => self.block(cursor, label),
            _ => Err(cursor.lacks(Missing::Form)),
        }
    }

    /// A value.
    ///
    /// # Errors
    /// `Form` where none stands there, `Address` where it is made of the address of a variable.
    pub fn operand(&mut self, cursor: &mut Cursor<'_, 'a>) -> Result<Operand<'a>, Refusal<'a>> {
        let _ = attributes(cursor);
        match cursor.take() {
            Some(Token::Local(name)) => Ok(Operand::Name(self.name(name)?)),
            Some(Token::Number(number)) => Ok(Operand::Number(number)),
            Some(Token::Global(name)) => Ok(Operand::Address(name)),
            // (a structure as an argument)
            Some(Token::Word(b"byval")) => Err(cursor.lacks_word(Missing::Type, b"byval")),
            Some(Token::Word(word)) => match constant(word) {
                Some(number) => Ok(Operand::Number(number)),
                None => Err(cursor.lacks_word(Missing::Address, word)),
            },
            _ => Err(cursor.lacks(Missing::Form)),
        }
    }

    /// A type and a value of it: how many bits it has, and the value.
    pub(crate) fn typed(
        &mut self,
        cursor: &mut Cursor<'_, 'a>,
    ) -> Result<(u32, Operand<'a>), Refusal<'a>> {
        let width = self.types.read_width(cursor)?;
        let operand = self.operand(cursor)?;
        Ok((width, operand))
    }
}
