//! The tokens of a statement, taken one by one.

use crate::refusal::{Missing, Refusal};
use crate::token::Token;

/// What is left of a statement.
#[derive(Clone, Copy)]
pub struct Cursor<'t, 'a> {
    /// The line of the statement.
    pub line: u32,
    /// Its tokens.
    pub tokens: &'t [Token<'a>],
    /// How many of them were taken.
    pub taken: usize,
}

impl<'t, 'a> Cursor<'t, 'a> {
    /// How many tokens are left.
    pub fn left(&self) -> usize {
        self.tokens.len().saturating_sub(self.taken)
    }

    /// The next token, which stays.
    pub fn peek(&self) -> Option<Token<'a>> {
        self.tokens.get(self.taken).copied()
    }

    /// The next token.
    pub fn take(&mut self) -> Option<Token<'a>> {
        let next = self.peek();
        self.taken = self.taken.saturating_add(1);
        next
    }

    /// Takes this mark, where it is next.
    pub(crate) fn takes_mark(&mut self, mark: u8) -> bool {
        match self.peek() {
            Some(Token::Mark(b)) if b == mark => {
                self.taken = self.taken.saturating_add(1);
                true
            }
            _ => false,
        }
    }

    /// Takes this word, where it is next.
    pub(crate) fn takes_word(&mut self, word: &[u8]) -> bool {
        match self.peek() {
            Some(Token::Word(next)) if next == word => {
                self.taken = self.taken.saturating_add(1);
                true
            }
            _ => false,
        }
    }

    /// Takes words as long as they are among these.
    pub(crate) fn skip_words(&mut self, words: &[&[u8]]) {
        for _ in 0..self.left() {
            let before = self.left();
            for word in words {
                self.takes_word(word);
            }
            if self.left() == before {
                break;
            }
        }
    }

    /// What is missing at this line, about no word.
    pub fn lacks(&self, missing: Missing) -> Refusal<'a> {
        Refusal::Lacks {
            line: self.line,
            missing,
            word: b"",
        }
    }

    /// What is missing at this line, about a word.
    pub(crate) fn lacks_word(&self, missing: Missing, word: &'a [u8]) -> Refusal<'a> {
        Refusal::Lacks {
            line: self.line,
            missing,
            word,
        }
    }

    /// Takes this mark.
    ///
    /// # Errors
    /// `Form` where something else is next.
    pub fn mark(&mut self, mark: u8) -> Result<(), Refusal<'a>> {
        if self.takes_mark(mark) {
            Ok(())
        } else {
            Err(self.lacks(Missing::Form))
        }
    }

    /// Takes a word.
    ///
    /// # Errors
    /// `Form` where something else is next.
    pub fn word(&mut self) -> Result<&'a [u8], Refusal<'a>> {
        match self.take() {
            Some(Token::Word(word)) => Ok(word),
            _ => Err(self.lacks(Missing::Form)),
        }
    }

    /// Takes a whole number.
    ///
    /// # Errors
    /// `Form` where something else is next.
    pub fn number(&mut self) -> Result<i64, Refusal<'a>> {
        match self.take() {
            Some(Token::Number(number)) => Ok(number),
            _ => Err(self.lacks(Missing::Form)),
        }
    }

    /// Takes all up to the bracket that closes one that was taken last.
    pub(crate) fn skip_parentheses(&mut self) {
        let mut open: u32 = 1;
        for _ in 0..self.left() {
            match self.take() {
                Some(Token::Mark(b'(')) => open = open.saturating_add(1),
                Some(Token::Mark(b')')) => open = open.saturating_sub(1),
                _ => {}
            }
            if open == 0 {
                break;
            }
        }
    }
}
