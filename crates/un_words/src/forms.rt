//! What stands at the words of a line.

ghost use Rattle.std.specs.Prelude.{◌≡◌, ◌==◌, ◌&&◌, ◌||◌, not, length, drop, codes, IfOk, true, false, if◌then◌else◌};
ghost use Rattle.std.specs.List.{list_all, zip};
ghost use Rattle.std.specs.Str.{bytes_eq};
ghost use Rattle.un_words.specs.Shapes.{is_slot, have_forms, alternate, is_list, word_in, word_at, is_word_at, plain_in, plain_at, name_in};
ghost use Rattle.un_words.specs.Shapes.{name_at, condition_in, condition_at, names_at, literal_at, literal_or, zero_number};

use crate::slot::Slot;
use crate::token::{Number, Token};
use std::alloc::{AllocError, Global};
use un_base::memory_error::NoMemory;
use un_base::name::Name;
use un_ir::function::Kind;
use un_lists::items::Items;

/// Whether two texts are the same.
pub fn is_text(a: &[u8], b: &[u8]) -> bool
    ensures { result ≡ bytes_eq a.now b.now }
{
    a == b
}

/// Whether the word has the form.
pub fn is_slot(slot: Slot, token: &Token) -> bool
    ensures { result ≡ is_slot slot token.now }
{
    match slot {
        Slot::Comma => matches!(token, Token::Comma),
        Slot::Equals => matches!(token, Token::Equals),
        Slot::Named => matches!(token, Token::Named(_)),
        Slot::Literal => matches!(token, Token::Literal(_)),
        Slot::Plain => matches!(token, Token::Plain(_)),
        Slot::Word => matches!(token, Token::Word(_)),
    }
}

/// Whether the words have these forms as far as both go.
fn agree(slots: &[Slot], tokens: &[Token]) -> bool
    ensures { result ≡ list_all (λ p. is_slot p.1 p.0) (zip tokens.now slots.now) }
{
    tokens.iter().zip(slots).all(|(t, s)| is_slot(*s, t))
}

/// Whether the words have these forms, one for one.
pub fn have_forms(slots: &[Slot], tokens: &[Token]) -> bool
    ensures { result ≡ have_forms slots.now tokens.now }
{
    if tokens.len() != slots.len() {
        return false;
    }
    agree(slots, tokens)
}

/// Whether each word is a name.
pub(crate) fn are_names(tokens: &[Token]) -> bool
    ensures { result ≡ list_all (is_slot Slot.Named) tokens.now }
{
    tokens.iter().all(|t| is_slot(Slot::Named, t))
}

/// Whether the words are names with commas between them, one name at least.
fn alternate(tokens: &[Token]) -> bool
    ensures { result ≡ alternate true tokens.now }
{
    let mut named = true;
    for token in tokens {
        let slot = if named { Slot::Named } else { Slot::Comma };
        if !is_slot(slot, token) {
            return false;
        }
        named = !named;
    }
    !named
}

/// Whether the words are none, or names with commas between them.
pub fn is_list(tokens: &[Token]) -> bool
    ensures { result ≡ is_list tokens.now }
{
    tokens.is_empty() || alternate(tokens)
}

/// The words from place `n` on.
pub(crate) fn from_place(tokens: &[Token], n: usize) -> &[Token]
    ensures { result.now ≡ drop n tokens.now }
{
    if n < tokens.len() { &tokens[n..] } else { &[] }
}

/// The word without a sigil at place `i`.
pub fn word_at(tokens: &[Token], i: usize) -> Option<Name>
    ensures { result ≡ word_at i tokens.now }
{
    match tokens.get(i)? {
        Token::Word(word) => Some(*word),
        _ => None,
    }
}

/// Whether this very word stands at place `i`.
pub fn is_word_at(tokens: &[Token], i: usize, text: &[u8]) -> bool
    ensures { result ≡ is_word_at i text.now tokens.now }
{
    match word_at(tokens, i) {
        Some(word) => is_text(word.as_bytes(), text),
        None => false,
    }
}

/// The number at place `i`.
pub(crate) fn plain_at(tokens: &[Token], i: usize) -> Option<Number>
    ensures { result ≡ plain_at i tokens.now }
{
    match tokens.get(i)? {
        Token::Plain(number) => Some(*number),
        _ => None,
    }
}

/// The name that the word is.
fn name_in(token: &Token) -> Option<(Name, Kind)>
    ensures { result ≡ name_in token.now }
{
    match token {
        Token::Named(name) => Some(*name),
        _ => None,
    }
}

/// The name behind a sigil at place `i`.
pub fn name_at(tokens: &[Token], i: usize) -> Option<(Name, Kind)>
    ensures { result ≡ name_at i tokens.now }
{
    name_in(tokens.get(i)?)
}

/// The name of a branch at place `i`, and whether it stands there without an exclamation mark.
pub(crate) fn condition_at(tokens: &[Token], i: usize) -> Option<((Name, Kind), bool)>
    ensures { result ≡ condition_at i tokens.now }
{
    match tokens.get(i)? {
        Token::Named(name) => Some((*name, true)),
        Token::Negated(name) => Some((*name, false)),
        _ => None,
    }
}

/// The names behind sigils, in order, collected.
fn collect_names(alloc: Global, tokens: &[Token]) -> Result<Vec<(Name, Kind)>, AllocError>
    ensures { IfOk result (λ names. names.items ≡ names_at tokens.now) }
{
    tokens.iter().filter_map(|t| name_in(t)).collect(alloc)
}

/// The names behind sigils, in order.
pub fn names_at(alloc: Global, tokens: &[Token]) -> Result<Items<(Name, Kind)>, NoMemory>
    ensures { IfOk result (λ names. names ≡ names_at tokens.now) }
{
    let names = collect_names(alloc, tokens)?;
    Ok(Items::from_vec(names))
}

/// The first number behind a `#`, or 0.
pub fn literal_at(tokens: &[Token]) -> Number
    ensures { result ≡ literal_at tokens.now }
{
    for token in tokens {
        if let Token::Literal(number) = token {
            return *number;
        }
    }
    Number {
        negative: false,
        size: 0,
    }
}
