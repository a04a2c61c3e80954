//! Instructions that make addresses and use them.

use crate::cursor::Cursor;
use crate::function::{Action, Operand, Scaled};
use crate::lists::push;
use crate::places::{Scope, alignment};
use crate::refusal::{Missing, Refusal};
use crate::token::Token;
use crate::types::{Kind, TypeId};
use un_base::memory_error::NoMemory;

/// An address that is being made: what is added so far, and the type of what lies there.
#[derive(Drop)]
struct Place<'a> {
    parts: Vec<Scaled<'a>>,
    offset: i64,
    kind: TypeId,
}

/// Adds so many values of a size to an address.
fn add_scaled<'a>(place: &mut Place<'a>, operand: Operand<'a>, bytes: u32) -> Result<(), NoMemory> {
    match operand {
        Operand::Number(number) => {
            let distance = number.saturating_mul(i64::from(bytes));
            place.offset = place.offset.saturating_add(distance);
            Ok(())
        }
        _ => push(&mut place.parts, Scaled { operand, bytes }),
    }
}

/// Goes from an address into the value that lies there.
fn go_into<'a>(
    scope: &mut Scope<'a>,
    cursor: &Cursor<'_, 'a>,
    place: &mut Place<'a>,
    index: Operand<'a>,
) -> Result<(), Refusal<'a>> {
    match (scope.types.shape(place.kind).kind, index) {
        (Kind::Array(element), _) => {
            let bytes = scope.types.shape(element).size;
            add_scaled(place, index, bytes)?;
            place.kind = element;
            Ok(())
        }
        (Kind::Record { first, count }, Operand::Number(number)) => {
            let Some(field) = scope.types.field(first, count, number) else {
                return Err(cursor.lacks(Missing::Type));
            };
            place.offset = place.offset.saturating_add(i64::from(field.offset));
            place.kind = field.kind;
            Ok(())
        }
        _ => Err(cursor.lacks(Missing::Type)),
    }
}

/// `getelementptr`, behind that word.
pub fn locate<'a>(
    scope: &mut Scope<'a>,
    cursor: &mut Cursor<'_, 'a>,
) -> Result<Action<'a>, Refusal<'a>> {
    cursor.skip_words(&[b"inbounds", b"nuw", b"nusw"]);
    let kind = scope.types.read(cursor)?;
    cursor.mark(b',')?;
    let (_, base) = scope.typed(cursor)?;
    let mut place = Place {
        parts: Vec::new(scope.alloc),
        offset: 0,
        kind,
    };
    for step in 0..cursor.left() {
        if !cursor.takes_mark(b',') || matches!(cursor.peek(), Some(Token::Metadata(_))) {
            break;
        }
        let (width, index) = scope.typed(cursor)?;
        if width != 32 {
            return Err(cursor.lacks(Missing::Width));
        }
        if step == 0 {
            let bytes = scope.types.shape(kind).size;
            if bytes == 0 {
                return Err(cursor.lacks(Missing::Type));
            }
            add_scaled(&mut place, index, bytes)?;
        } else {
            go_into(scope, cursor, &mut place, index)?;
        }
    }
    let Place { parts, offset, .. } = place;
    Ok(Action::Locate {
        base,
        parts,
        offset,
    })
}

/// An address of a word, behind a type and a comma.
fn word_address<'a>(
    scope: &mut Scope<'a>,
    cursor: &mut Cursor<'_, 'a>,
) -> Result<Operand<'a>, Refusal<'a>> {
    cursor.mark(b',')?;
    let (_, address) = scope.typed(cursor)?;
    cursor.takes_mark(b',');
    match alignment(cursor) {
        Some(align) if align % 4 != 0 => Err(cursor.lacks(Missing::Alignment)),
        _ => Ok(address),
    }
}

/// `load`, behind that word.
pub fn load<'a>(
    scope: &mut Scope<'a>,
    cursor: &mut Cursor<'_, 'a>,
) -> Result<Action<'a>, Refusal<'a>> {
    cursor.skip_words(&[b"volatile"]);
    let width = scope.types.read_width(cursor)?;
    if width != 32 {
        return Err(cursor.lacks(Missing::Access));
    }
    Ok(Action::Load(word_address(scope, cursor)?))
}

/// `store`, behind that word.
pub fn store<'a>(
    scope: &mut Scope<'a>,
    cursor: &mut Cursor<'_, 'a>,
) -> Result<Action<'a>, Refusal<'a>> {
    cursor.skip_words(&[b"volatile"]);
    let (width, value) = scope.typed(cursor)?;
    if width != 32 {
        return Err(cursor.lacks(Missing::Access));
    }
    let address = word_address(scope, cursor)?;
    Ok(Action::Store { address, value })
}
