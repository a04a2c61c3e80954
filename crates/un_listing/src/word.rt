//! The words of an instruction's text.

ghost use Rattle.std.specs.Prelude.{◌≡◌, ◌+◌, ◌-◌, ◌<◌, ◌≤◌, take, drop, ◌++◌, ◌==◌, ◌∷◌, [], IfOk, OnOk, nat_lt, nat_le, length, map};
ghost use Rattle.std.specs.Prelude.{filter, option_map};
ghost use Rattle.std.specs.List.{slice_split, position_or_len};
ghost use Rattle.std.specs.Option.{option_and_then};
ghost use Rattle.un_listing.specs.ListingWords.{name_of, register_in, reg_of, signed, small, literal_of, word_by, word_of, is_between};
ghost use Rattle.un_listing.specs.ListingWords.{spelled, words_of, fresh_of, negated_of};

use std::alloc::Global;
use un_base::memory_error::NoMemory;
use un_base::name::Name;
use un_isa::reg::{GENERALS, PREDICATES, Reg};
use un_lists::items::Items;
use un_words::number::read_number;
use un_words::token::Number;

/// A word by its form: a name, which may spell a register, also with `.new` behind it; a number behind `#`; a register behind `!`,
/// with `.new` behind it or not; or none of these.
#[derive(Clone, Copy)]
pub enum Word {
    Named(Name),
    Literal(i32),
    Negated(Reg),
    NegatedFresh(Reg),
    Other,
}

/// One of `count` registers, the first of which has the number `base`.
fn register_in(base: u32, count: u32, n: Number) -> Option<Reg>
    requires { base + count < 100 }
    ensures { result ≡ register_in base count n }
{
    if !n.negative && n.size < count {
        Some(Reg(base + n.size))
    } else {
        None
    }
}

/// The register that the bytes spell.
pub(crate) fn read_reg(bytes: &[u8]) -> Option<Reg>
    ensures { result ≡ reg_of bytes.now }
{
    let (first, rest) = bytes.split_first()?;
    match first {
        b'r' => register_in(0, GENERALS, read_number(rest)?),
        b'p' => register_in(GENERALS, PREDICATES, read_number(rest)?),
        _ => None,
    }
}

/// The register that the bytes spell with `.new` behind it.
pub(crate) fn read_fresh(bytes: &[u8]) -> Option<Reg>
    ensures { result ≡ fresh_of bytes.now }
{
    if !bytes.ends_with(b".new") {
        return None;
    }
    read_reg(&bytes[..bytes.len() - 4])
}

/// The number with its sign, where it is small.
fn small(n: Number) -> Option<i32>
    ensures { result ≡ small n }
{
    if n.size > 65535 {
        return None;
    }
    let size = n.size as i32;
    Some(if n.negative { -size } else { size })
}

/// A small number.
fn read_literal(bytes: &[u8]) -> Option<i32>
    ensures { result ≡ literal_of bytes.now }
{
    small(read_number(bytes)?)
}

/// A number behind `#`.
fn literal(bytes: &[u8]) -> Word
    ensures { result ≡ word_by Word.Literal (literal_of bytes.now) }
{
    match read_literal(bytes) {
        Some(number) => Word::Literal(number),
        None => Word::Other,
    }
}

/// A register behind `!` and before `.new`.
fn negated_fresh(bytes: &[u8]) -> Word
    ensures { result ≡ word_by Word.NegatedFresh (fresh_of bytes.now) }
{
    match read_fresh(bytes) {
        Some(reg) => Word::NegatedFresh(reg),
        None => Word::Other,
    }
}

/// A register behind `!`.
fn negated(bytes: &[u8]) -> Word
    ensures { result ≡ negated_of bytes.now }
{
    match read_reg(bytes) {
        Some(reg) => Word::Negated(reg),
        None => negated_fresh(bytes),
    }
}

/// A name.
fn named(bytes: &[u8]) -> Word
    ensures { result ≡ word_by Word.Named (name_of bytes.now) }
{
    match Name::from_bytes(bytes) {
        Some(name) => Word::Named(name),
        None => Word::Other,
    }
}

/// A word by its form.
fn read_word(bytes: &[u8]) -> Word
    ensures { result ≡ word_of bytes.now }
{
    match bytes.split_first() {
        Some((b'#', rest)) => literal(rest),
        Some((b'!', rest)) => negated(rest),
        _ => named(bytes),
    }
}

/// Whether the byte is in no word.
fn is_between(b: u8) -> bool
    ensures { result ≡ is_between b }
{
    !(b.is_ascii_alphanumeric() || matches!(b, b'_' | b'.' | b'#' | b'-' | b'!'))
}

/// Appends the word, where it has a byte.
fn push_word(found: &mut Items<Word>, part: &[u8]) -> Result<(), NoMemory>
    ensures { OnOk result (found.new ≡ found.old ++ spelled part.now) }
{
    match part {
        [] => Ok(()),
        _ => {
            found.push(read_word(part))?;
            Ok(())
        }
    }
}

/// Where the first word ends: at the first byte that is in no word, or at the end of the text.
fn word_end(text: &[u8]) -> usize
    ensures place { result ≡ position_or_len is_between text.now }
    ensures bound { result ≤ length text.now }
{
    for (i, b) in text.iter().enumerate() {
        if is_between(*b) {
            return i;
        }
    }
    text.len()
}

/// The bytes behind the one at place `end`.
pub fn behind(text: &[u8], end: usize) -> &[u8]
    ensures { result.now ≡ drop (end + 1) text.now }
{
    if end < text.len() {
        &text[end + 1..]
    } else {
        &[]
    }
}

/// The words of a text, from left to right.
#[tactic(auto, using(crate::proofs::WordCuts::first_word_cut, std::proofs::lemmas::Grind::common_steps))]
pub fn words(alloc: Global, text: &[u8]) -> Result<Items<Word>, NoMemory>
    ensures { IfOk result (λ found. found ≡ words_of text.now) }
{
    let mut found = Items::new(alloc);
    let mut rest = text;
    while !rest.is_empty() {
        let end = word_end(rest);
        push_word(&mut found, &rest[..end])?;
        rest = behind(rest, end);
    }
    Ok(found)
}
