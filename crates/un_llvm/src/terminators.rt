//! The last instructions of blocks.

use crate::cursor::Cursor;
use crate::function::{Action, Branch, Case};
use crate::lists::push;
use crate::places::Scope;
use crate::refusal::Refusal;
use crate::token::Token;
use un_base::memory_error::NoMemory;

/// The name of the line on which a branch's weights stand.
fn weights_name<'a>(cursor: &Cursor<'_, 'a>) -> Option<&'a [u8]> {
    let mut rest = *cursor;
    for _ in 0..cursor.left() {
        if let Some(Token::Metadata(b"prof")) = rest.take()
            && let Some(Token::Metadata(name)) = rest.take()
        {
            return Some(name);
        }
    }
    None
}

/// `br`, behind that word; and the name of the line on which its weights stand.
pub fn branch<'a>(
    scope: &mut Scope<'a>,
    cursor: &mut Cursor<'_, 'a>,
) -> Result<(Action<'a>, Option<&'a [u8]>), Refusal<'a>> {
    if let Some(Token::Word(b"label")) = cursor.peek() {
        return Ok((Action::Jump(scope.label(cursor)?), None));
    }
    let (_, condition) = scope.typed(cursor)?;
    cursor.mark(b',')?;
    let yes = scope.label(cursor)?;
    cursor.mark(b',')?;
    let no = scope.label(cursor)?;
    let branch = Branch {
        condition,
        yes,
        no,
        weights: None,
    };
    Ok((Action::Branch(branch), weights_name(cursor)))
}

/// A way out of a switch.
fn case<'a>(scope: &mut Scope<'a>, cursor: &mut Cursor<'_, 'a>) -> Result<Case, Refusal<'a>> {
    let _ = scope.types.read_width(cursor)?;
    let value = cursor.number()?;
    cursor.mark(b',')?;
    let to = scope.label(cursor)?;
    Ok(Case { value, to })
}

/// `switch`, behind that word; and how many bits its value has.
pub fn switch<'a>(
    scope: &mut Scope<'a>,
    cursor: &mut Cursor<'_, 'a>,
) -> Result<(u32, Action<'a>), Refusal<'a>> {
    let (width, value) = scope.typed(cursor)?;
    cursor.mark(b',')?;
    let otherwise = scope.label(cursor)?;
    cursor.mark(b'[')?;
    let mut cases = Vec::new(scope.alloc);
    for _ in 0..cursor.left() {
        if cursor.takes_mark(b']') {
            break;
        }
        let case = case(scope, cursor)?;
        push(&mut cases, case)?;
    }
    let action = Action::Switch {
        value,
        otherwise,
        cases,
    };
    Ok((width, action))
}

/// `ret`, behind that word; and how many bits the result has.
pub fn give<'a>(
    scope: &mut Scope<'a>,
    cursor: &mut Cursor<'_, 'a>,
) -> Result<(u32, Action<'a>), Refusal<'a>> {
    if cursor.takes_word(b"void") {
        return Ok((0, Action::Return(None)));
    }
    let (width, value) = scope.typed(cursor)?;
    Ok((width, Action::Return(Some(value))))
}
