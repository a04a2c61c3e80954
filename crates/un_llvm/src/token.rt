//! The tokens of a line.

/// A token. Names stand without their sigil.
#[derive(Clone, Copy)]
pub enum Token<'a> {
    /// A keyword, or the word of a type.
    Word(&'a [u8]),
    /// A name behind `%`.
    Local(&'a [u8]),
    /// A name behind `@`.
    Global(&'a [u8]),
    /// A name or a number behind `!`; nothing where neither stands there.
    Metadata(&'a [u8]),
    /// A text between quotes.
    Text(&'a [u8]),
    /// A whole number.
    Number(i64),
    /// Any other byte.
    Mark(u8),
}

/// A token, and what stands behind it.
#[derive(Clone, Copy)]
pub struct Cut<'a> {
    pub token: Token<'a>,
    pub rest: &'a [u8],
}

/// Whether a byte may stand in a name, a keyword or a number.
fn is_inner(b: u8) -> bool {
    b.is_ascii_alphanumeric() || matches!(b, b'_' | b'.' | b'$' | b'-')
}

/// A text parted at a place.
pub fn parted(text: &[u8], place: usize) -> (&[u8], &[u8]) {
    text.split_at(place.min(text.len()))
}

/// How many bytes of a name a text begins with.
fn name_len(text: &[u8]) -> usize {
    match text.iter().position(|b| !is_inner(*b)) {
        Some(place) => place,
        None => text.len(),
    }
}

/// A text without the blanks that it begins with.
fn behind_blanks(text: &[u8]) -> &[u8] {
    match text.iter().position(|b| !matches!(b, b' ' | b'\t' | b'\r')) {
        Some(place) => parted(text, place).1,
        None => &[],
    }
}

/// The text up to a quote with which a text goes on, and what stands behind that quote.
fn quoted(text: &[u8]) -> (&[u8], &[u8]) {
    match text.iter().position(|b| *b == b'"') {
        Some(place) => {
            let (inside, rest) = parted(text, place);
            (inside, parted(rest, 1).1)
        }
        None => (text, &[]),
    }
}

/// The name with which a text begins, with or without quotes, and what stands behind it.
fn name_in(text: &[u8]) -> (&[u8], &[u8]) {
    match text.split_first() {
        Some((b'"', rest)) => quoted(rest),
        _ => parted(text, name_len(text)),
    }
}

/// The whole number that digits write, where it has at most eighteen of them.
fn digits(text: &[u8]) -> Option<i64> {
    if text.is_empty() || text.len() > 18 {
        return None;
    }
    let mut number: i64 = 0;
    for b in text {
        if !b.is_ascii_digit() {
            return None;
        }
        let digit = i64::from(b.saturating_sub(b'0'));
        number = number.saturating_mul(10).saturating_add(digit);
    }
    Some(number)
}

/// The whole number that a text is.
pub fn number_of(text: &[u8]) -> Option<i64> {
    match text.split_first() {
        Some((b'-', rest)) => {
            let number = digits(rest)?;
            Some(0i64.saturating_sub(number))
        }
        _ => digits(text),
    }
}

/// A word or a number.
fn word(text: &[u8]) -> Token<'_> {
    match number_of(text) {
        Some(number) => Token::Number(number),
        None => Token::Word(text),
    }
}

/// The first token of a text that begins with neither a blank nor a comment.
fn first_of<'a>(first: u8, rest: &'a [u8], text: &'a [u8]) -> Cut<'a> {
    match first {
        b'%' => {
            let (name, rest) = name_in(rest);
            Cut {
                token: Token::Local(name),
                rest,
            }
        }
        b'@' => {
            let (name, rest) = name_in(rest);
            Cut {
                token: Token::Global(name),
                rest,
            }
        }
        b'!' => {
            let (name, rest) = parted(rest, name_len(rest));
            Cut {
                token: Token::Metadata(name),
                rest,
            }
        }
        b'"' => {
            let (inside, rest) = quoted(rest);
            Cut {
                token: Token::Text(inside),
                rest,
            }
        }
        b if is_inner(b) => {
            let (inside, rest) = parted(text, name_len(text));
            Cut {
                token: word(inside),
                rest,
            }
        }
        b => Cut {
            token: Token::Mark(b),
            rest,
        },
    }
}

/// The first token of a text; none at its end and before a comment.
pub(crate) fn first_token(text: &[u8]) -> Option<Cut<'_>> {
    let text = behind_blanks(text);
    match text.split_first() {
        None | Some((b';', _)) => None,
        Some((first, rest)) => Some(first_of(*first, rest, text)),
    }
}
