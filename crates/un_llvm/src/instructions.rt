//! Instructions, one a statement.

use crate::calls::call;
use crate::cursor::Cursor;
use crate::function::{Action, Binary, Incoming, Instruction, NameId, Relation};
use crate::lists::push;
use crate::memory::{load, locate, store};
use crate::places::Scope;
use crate::refusal::{Missing, Refusal};
use crate::terminators::{branch, give, switch};
use crate::token::Token;
use un_base::memory_error::NoMemory;

/// An instruction, and the name of the line on which its weights stand.
#[derive(Drop)]
pub struct Read<'a> {
    pub instruction: Instruction<'a>,
    pub weights: Option<&'a [u8]>,
}

/// The instructions that compute something of two values.
static BINARIES: [(&[u8], Binary); 13] = [
    (b"add", Binary::Add),
    (b"sub", Binary::Sub),
    (b"mul", Binary::Mul),
    (b"and", Binary::And),
    (b"or", Binary::Or),
    (b"xor", Binary::Xor),
    (b"shl", Binary::ShiftLeft),
    (b"lshr", Binary::ShiftRight),
    (b"ashr", Binary::ShiftSigned),
    (b"sdiv", Binary::Divide),
    (b"srem", Binary::Remainder),
    (b"udiv", Binary::DivideUnsigned),
    (b"urem", Binary::RemainderUnsigned),
];

/// The relations by their words.
static RELATIONS: [(&[u8], Relation); 10] = [
    (b"eq", Relation::Equal),
    (b"ne", Relation::NotEqual),
    (b"sgt", Relation::Greater),
    (b"sge", Relation::GreaterEqual),
    (b"slt", Relation::Less),
    (b"sle", Relation::LessEqual),
    (b"ugt", Relation::GreaterUnsigned),
    (b"uge", Relation::GreaterEqualUnsigned),
    (b"ult", Relation::LessUnsigned),
    (b"ule", Relation::LessEqualUnsigned),
];

/// The computation of a word.
fn binary_named(word: &[u8]) -> Option<Binary> {
    for (name, what) in BINARIES.iter() {
        if word == *name {
            return Some(*what);
        }
    }
    None
}

/// The relation of a word.
fn relation_named(word: &[u8]) -> Option<Relation> {
    for (name, relation) in RELATIONS.iter() {
        if word == *name {
            return Some(*relation);
        }
    }
    None
}

/// A computation, behind its word.
fn compute<'a>(
    scope: &mut Scope<'a>,
    cursor: &mut Cursor<'_, 'a>,
    what: Binary,
) -> Result<(u32, Action<'a>), Refusal<'a>> {
    cursor.skip_words(&[b"nsw", b"nuw", b"exact", b"disjoint"]);
    let (width, left) = scope.typed(cursor)?;
    cursor.mark(b',')?;
    let right = scope.operand(cursor)?;
    Ok((width, Action::Compute { what, left, right }))
}

/// `icmp`, behind that word.
fn compare<'a>(
    scope: &mut Scope<'a>,
    cursor: &mut Cursor<'_, 'a>,
) -> Result<(u32, Action<'a>), Refusal<'a>> {
    cursor.skip_words(&[b"samesign"]);
    let word = cursor.word()?;
    let Some(relation) = relation_named(word) else {
        return Err(cursor.lacks_word(Missing::Instruction, word));
    };
    let (width, left) = scope.typed(cursor)?;
    cursor.mark(b',')?;
    let right = scope.operand(cursor)?;
    let action = Action::Compare {
        relation,
        left,
        right,
    };
    Ok((width, action))
}

/// `select`, behind that word.
fn choose<'a>(
    scope: &mut Scope<'a>,
    cursor: &mut Cursor<'_, 'a>,
) -> Result<(u32, Action<'a>), Refusal<'a>> {
    let (_, condition) = scope.typed(cursor)?;
    cursor.mark(b',')?;
    let (width, yes) = scope.typed(cursor)?;
    cursor.mark(b',')?;
    let (_, no) = scope.typed(cursor)?;
    let action = Action::Choose { condition, yes, no };
    Ok((width, action))
}

/// A value that comes in from a block, in brackets.
fn incoming<'a>(
    scope: &mut Scope<'a>,
    cursor: &mut Cursor<'_, 'a>,
) -> Result<Incoming<'a>, Refusal<'a>> {
    cursor.mark(b'[')?;
    let value = scope.operand(cursor)?;
    cursor.mark(b',')?;
    let from = scope.label(cursor)?;
    cursor.mark(b']')?;
    Ok(Incoming { value, from })
}

/// `phi`, behind that word.
fn merge<'a>(
    scope: &mut Scope<'a>,
    cursor: &mut Cursor<'_, 'a>,
) -> Result<(u32, Action<'a>), Refusal<'a>> {
    let width = scope.types.read_width(cursor)?;
    let mut found = Vec::new(scope.alloc);
    for _ in 0..cursor.left() {
        let value = incoming(scope, cursor)?;
        push(&mut found, value)?;
        if !cursor.takes_mark(b',') {
            break;
        }
    }
    Ok((width, Action::Merge(found)))
}

/// A conversion, behind its word: how many bits the result has, and what it does.
fn convert<'a>(
    scope: &mut Scope<'a>,
    cursor: &mut Cursor<'_, 'a>,
    word: &'a [u8],
) -> Result<(u32, Action<'a>), Refusal<'a>> {
    cursor.skip_words(&[b"nneg", b"nuw", b"nsw"]);
    let (from, value) = scope.typed(cursor)?;
    cursor.takes_word(b"to");
    let width = scope.types.read_width(cursor)?;
    let action = match word {
        b"zext" => Action::Widen {
            value,
            from,
            signed: false,
        },
        b"sext" => Action::Widen {
            value,
            from,
            signed: true,
        },
        b"trunc" => Action::Narrow(value),
        _ if from == width => Action::Same(value),
        _ => return Err(cursor.lacks(Missing::Width)),
    };
    Ok((width, action))
}

/// `freeze`, behind that word.
fn freeze<'a>(
    scope: &mut Scope<'a>,
    cursor: &mut Cursor<'_, 'a>,
) -> Result<(u32, Action<'a>), Refusal<'a>> {
    let (width, value) = scope.typed(cursor)?;
    Ok((width, Action::Same(value)))
}

/// What an instruction with this word does that neither leaves its block nor calls: how many bits its values have, and what it does.
fn plain<'a>(
    scope: &mut Scope<'a>,
    cursor: &mut Cursor<'_, 'a>,
    word: &'a [u8],
) -> Result<(u32, Action<'a>), Refusal<'a>> {
    if let Some(what) = binary_named(word) {
        return compute(scope, cursor, what);
    }
    match word {
        b"icmp" => compare(scope, cursor),
        b"select" => choose(scope, cursor),
        b"phi" => merge(scope, cursor),
        b"getelementptr" => Ok((32, locate(scope, cursor)?)),
        b"load" => Ok((32, load(scope, cursor)?)),
        b"store" => Ok((32, store(scope, cursor)?)),
        b"freeze" => freeze(scope, cursor),
        b"zext" | b"sext" | b"trunc" | b"bitcast" | b"inttoptr" | b"ptrtoint" => {
            convert(scope, cursor, word)
        }
        _ => Err(cursor.lacks_word(Missing::Instruction, word)),
    }
}

/// What an instruction with this word does: how many bits its values have, and what it does; nothing where it does nothing.
fn acted<'a>(
    scope: &mut Scope<'a>,
    cursor: &mut Cursor<'_, 'a>,
    word: &'a [u8],
) -> Result<Option<(u32, Action<'a>)>, Refusal<'a>> {
    match word {
        b"call" => call(scope, cursor),
        b"switch" => Ok(Some(switch(scope, cursor)?)),
        b"ret" => Ok(Some(give(scope, cursor)?)),
        b"unreachable" => Ok(Some((0, Action::Unreachable))),
        _ => Ok(Some(plain(scope, cursor, word)?)),
    }
}

/// The name of an instruction's result, behind which an equals sign stands.
fn result_of<'a>(
    scope: &mut Scope<'a>,
    cursor: &mut Cursor<'_, 'a>,
) -> Result<Option<NameId>, Refusal<'a>> {
    let Some(Token::Local(name)) = cursor.peek() else {
        return Ok(None);
    };
    let _ = cursor.take();
    cursor.mark(b'=')?;
    Ok(Some(scope.name(name)?))
}

/// An instruction; none where a statement does nothing that matters.
pub fn instruction<'a>(
    scope: &mut Scope<'a>,
    cursor: &mut Cursor<'_, 'a>,
) -> Result<Option<Read<'a>>, Refusal<'a>> {
    let line = cursor.line;
    // (a record for a debugger)
    if cursor.takes_mark(b'#') {
        return Ok(None);
    }
    let result = result_of(scope, cursor)?;
    cursor.skip_words(&[b"tail", b"musttail", b"notail"]);
    let word = cursor.word()?;
    if word == b"br".as_slice() {
        let (action, weights) = branch(scope, cursor)?;
        let instruction = Instruction {
            line,
            result,
            width: 1,
            action,
        };
        return Ok(Some(Read {
            instruction,
            weights,
        }));
    }
    let Some((width, action)) = acted(scope, cursor, word)? else {
        return Ok(None);
    };
    let instruction = Instruction {
        line,
        result,
        width,
        action,
    };
    Ok(Some(Read {
        instruction,
        weights: None,
    }))
}
