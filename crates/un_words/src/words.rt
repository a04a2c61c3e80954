//! The words of a line, by their form.

ghost use Rattle.std.specs.Prelude.{◌≡◌, ◌+◌, ◌-◌, ◌<◌, ◌≤◌, ◌∷◌, ◌==◌, false, true, length, take, drop, slice_index, IfOk};
ghost use Rattle.std.specs.List.{prefix_len};
ghost use Rattle.un_words.specs.Words.{is_blank, is_mark, is_inner, words_of};
ghost use Rattle.un_words.specs.Tokens.{tokens_of};

use crate::token::{Token, read_token};
use std::alloc::Global;
use un_base::memory_error::NoMemory;
use un_lists::items::Items;

/// Whether it is a tab or a space.
fn is_blank(b: u8) -> bool
    ensures { result ≡ is_blank b }
{
    b == b'\t' || b == b' '
}

/// Whether it is a comma or an equals sign.
fn is_mark(b: u8) -> bool
    ensures { result ≡ is_mark b }
{
    b == b',' || b == b'='
}

/// Whether it is a byte of a longer word.
fn is_inner(b: u8) -> bool
    ensures { result ≡ is_inner b }
{
    !(is_blank(b) || is_mark(b))
}

/// How many blanks the line begins with.
fn blanks_len(line: &[u8]) -> usize
    ensures count { result ≡ prefix_len is_blank line.now }
    ensures bound { result ≤ length line.now }
{
    for (i, b) in line.iter().enumerate() {
        if !is_blank(*b) {
            return i;
        }
    }
    line.len()
}

/// How many bytes of a longer word the line begins with.
fn inner_len(line: &[u8]) -> usize
    ensures count { result ≡ prefix_len is_inner line.now }
    ensures bound { result ≤ length line.now }
{
    for (i, b) in line.iter().enumerate() {
        if !is_inner(*b) {
            return i;
        }
    }
    line.len()
}

/// The line without the blanks that it begins with.
fn skip_blanks(line: &[u8]) -> &[u8]
    ensures words { words_of result.now ≡ words_of line.now }
    ensures first { 0 < length result.now → is_blank (slice_index result.now 0) ≡ false }
    ensures bound { length result.now ≤ length line.now }
{
    &line[blanks_len(line)..]
}

/// The length of the first word of a line that begins with one.
#[tactic(auto, using(crate::proofs::WordLaws::mark_word, crate::proofs::WordLaws::inner_word))]
fn word_len(line: &[u8]) -> usize
    requires some { 0 < length line.now }
    requires first { is_blank (slice_index line.now 0) ≡ false }
    ensures some { 0 < result }
    ensures bound { result ≤ length line.now }
    ensures cut { words_of line.now ≡ take result line.now ∷ words_of (drop result line.now) }
{
    if is_mark(line[0]) { 1 } else { inner_len(line) }
}

/// The words of a line from left to right, by their form.
pub fn tokens(alloc: Global, line: &[u8]) -> Result<Items<Token>, NoMemory>
    ensures { IfOk result (λ v. v ≡ tokens_of line.now) }
{
    let mut found = Items::new(alloc);
    let mut rest = skip_blanks(line);
    while !rest.is_empty() {
        let len = word_len(rest);
        found.push(read_token(&rest[..len]))?;
        rest = skip_blanks(&rest[len..]);
    }
    Ok(found)
}
