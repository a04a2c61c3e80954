//! The words of a line by their form.

ghost use Rattle.std.specs.Prelude.{◌≡◌, ◌∷◌, [], if◌then◌else◌, true, false};
ghost use Rattle.un_words.specs.Tokens.{named_of, plain_of, token_of, token_by, number_of};

use crate::number::read_number;
use un_base::name::Name;
use un_ir::function::Kind;

/// A number of a text.
#[derive(Clone, Copy, PartialEq, Eq)]
pub struct Number {
    /// Whether it has a minus sign.
    pub negative: bool,
    /// Its size without the sign; greater ones than 2^32 − 1, which no range of the language reaches, are kept as that.
    pub size: u32,
}

/// A word: a comma, an equals sign, a name behind `%` or `$`, such a name behind `!`, a number behind `#`, a number, a
/// name without a sigil, or none of these.
#[derive(Clone, Copy)]
pub enum Token {
    Comma,
    Equals,
    Named((Name, Kind)),
    Negated((Name, Kind)),
    Literal(Number),
    Plain(Number),
    Word(Name),
    Other,
}

/// A name behind a sigil.
fn named(word: &[u8]) -> Option<(Name, Kind)>
    ensures { result ≡ named_of word.now }
{
    let (sigil, rest) = word.split_first()?;
    let kind = match sigil {
        b'%' => Kind::General,
        b'$' => Kind::Pred,
        _ => return None,
    };
    let name = Name::from_bytes(rest)?;
    Some((name, kind))
}

/// A name without a sigil, or a number, or none of these.
fn plain(word: &[u8]) -> Token
    ensures { result ≡ plain_of word.now }
{
    if let Some(name) = Name::from_bytes(word) {
        return Token::Word(name);
    }
    match read_number(word) {
        Some(number) => Token::Plain(number),
        None => Token::Other,
    }
}

/// A name behind a sigil, behind an exclamation mark.
fn negated(word: &[u8]) -> Token
    ensures { result ≡ token_by Token.Negated (named_of word.now) }
{
    match named(word) {
        Some(name) => Token::Negated(name),
        None => Token::Other,
    }
}

/// A number behind a `#`.
fn literal(word: &[u8]) -> Token
    ensures { result ≡ token_by Token.Literal (number_of word.now) }
{
    match read_number(word) {
        Some(number) => Token::Literal(number),
        None => Token::Other,
    }
}

/// A name behind a sigil.
fn spelled(word: &[u8]) -> Token
    ensures { result ≡ token_by Token.Named (named_of word.now) }
{
    match named(word) {
        Some(name) => Token::Named(name),
        None => Token::Other,
    }
}

/// A word by its form.
pub fn read_token(word: &[u8]) -> Token
    ensures { result ≡ token_of word.now }
{
    match word.split_first() {
        None => Token::Other,
        Some((b',', _)) => Token::Comma,
        Some((b'=', _)) => Token::Equals,
        Some((b'#', rest)) => literal(rest),
        Some((b'!', rest)) => negated(rest),
        Some((b'%' | b'$', _)) => spelled(word),
        Some(_) => plain(word),
    }
}
