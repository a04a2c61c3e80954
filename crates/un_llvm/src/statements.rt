//! The statements of a module: its lines as tokens, where lines within brackets go together.

use crate::lists::push;
use crate::token::{Token, first_token, parted};
use std::alloc::Global;
use un_base::lines::lines;
use un_base::memory_error::NoMemory;

/// Where a statement stands.
#[derive(Clone, Copy)]
pub struct Span<'a> {
    /// Its first line, from 1.
    pub line: u32,
    /// The label that it is, where it is one.
    pub label: Option<&'a [u8]>,
    /// The place of its first token.
    pub start: usize,
    /// The place behind its last token.
    pub end: usize,
}

/// A module in tokens.
#[derive(Drop)]
pub struct Statements<'a> {
    pub tokens: Vec<Token<'a>>,
    pub spans: Vec<Span<'a>>,
    /// How many brackets are open.
    depth: u32,
}

/// The label that a line is: what stands before a colon, where the line begins with it.
fn label_of(line: &[u8]) -> Option<&[u8]> {
    let first = *line.first()?;
    if matches!(first, b' ' | b'\t' | b';' | b'!' | b'@' | b'^') {
        return None;
    }
    let colon = line.iter().position(|b| *b == b':' || *b == b' ')?;
    let (label, rest) = parted(line, colon);
    if rest.starts_with(b":") {
        Some(label)
    } else {
        None
    }
}

/// How many brackets are open behind a token.
fn depth_behind(depth: u32, token: &Token<'_>) -> u32 {
    match token {
        Token::Mark(b'[') => depth.saturating_add(1),
        Token::Mark(b']') => depth.saturating_sub(1),
        _ => depth,
    }
}

impl<'a> Statements<'a> {
    /// Adds the tokens of a line.
    fn add_tokens(&mut self, line: &'a [u8]) -> Result<(), NoMemory> {
        let mut rest = line;
        for _ in 0..line.len() {
            let Some(cut) = first_token(rest) else {
                break;
            };
            self.depth = depth_behind(self.depth, &cut.token);
            push(&mut self.tokens, cut.token)?;
            rest = cut.rest;
        }
        Ok(())
    }

    /// Adds a statement of tokens from `start` on, or adds these tokens to the last statement, where a bracket was open.
    fn add_span(&mut self, span: Span<'a>, goes_on: bool) -> Result<(), NoMemory> {
        if goes_on && let Some(last) = self.spans.pop() {
            let joined = Span {
                end: span.end,
                ..last
            };
            return push(&mut self.spans, joined);
        }
        if span.start < span.end || span.label.is_some() {
            push(&mut self.spans, span)?;
        }
        Ok(())
    }

    /// Adds a line.
    fn add_line(&mut self, line: u32, text: &'a [u8]) -> Result<(), NoMemory> {
        let goes_on = self.depth > 0;
        let start = self.tokens.len();
        let label = label_of(text);
        if label.is_none() {
            self.add_tokens(text)?;
        }
        let end = self.tokens.len();
        self.add_span(
            Span {
                line,
                label,
                start,
                end,
            },
            goes_on,
        )
    }
}

/// The statements of a text.
pub(crate) fn read_statements(alloc: Global, text: &[u8]) -> Result<Statements<'_>, NoMemory> {
    let mut found = Statements {
        tokens: Vec::new(alloc),
        spans: Vec::new(alloc),
        depth: 0,
    };
    let mut line: u32 = 0;
    for text in lines(text) {
        line = line.saturating_add(1);
        found.add_line(line, text)?;
    }
    Ok(found)
}
