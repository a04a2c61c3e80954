//! Calls, and the functions of LLVM's own that stand for an instruction.

use crate::cursor::Cursor;
use crate::function::{Action, Argument, Binary, Bits, Operand};
use crate::lists::push;
use crate::places::{Scope, attributes};
use crate::refusal::{Missing, Refusal};
use crate::token::Token;
use un_base::memory_error::NoMemory;

/// What a call passes on, and the number of bytes of which it is a multiple where it is an address.
#[derive(Clone, Copy)]
struct Passed<'a> {
    argument: Argument<'a>,
    align: u32,
}

/// A call as it is written.
#[derive(Drop)]
struct Written<'a> {
    callee: &'a [u8],
    passed: Vec<Passed<'a>>,
}

/// Words that may stand between `call` and its type and say nothing that matters here.
static WORDS: [&[u8]; 5] = [b"fastcc", b"ccc", b"coldcc", b"nnan", b"fast"];

/// What a call passes on, with its type.
fn read_passed<'a>(
    scope: &mut Scope<'a>,
    cursor: &mut Cursor<'_, 'a>,
) -> Result<Passed<'a>, Refusal<'a>> {
    let width = scope.types.read_width(cursor)?;
    let found = attributes(cursor);
    let operand = scope.operand(cursor)?;
    let argument = Argument {
        operand,
        width,
        signed: found.signed,
    };
    Ok(Passed {
        argument,
        align: found.align,
    })
}

/// What a call passes on, behind the bracket before it.
fn all_passed<'a>(
    scope: &mut Scope<'a>,
    cursor: &mut Cursor<'_, 'a>,
) -> Result<Vec<Passed<'a>>, Refusal<'a>> {
    let mut found = Vec::new(scope.alloc);
    if cursor.takes_mark(b')') {
        return Ok(found);
    }
    for _ in 0..cursor.left() {
        let one = read_passed(scope, cursor)?;
        push(&mut found, one)?;
        if cursor.takes_mark(b')') {
            break;
        }
        cursor.mark(b',')?;
    }
    Ok(found)
}

/// The function that is called, behind the type of its result.
fn callee<'a>(cursor: &mut Cursor<'_, 'a>) -> Result<&'a [u8], Refusal<'a>> {
    match cursor.take() {
        Some(Token::Global(name)) => Ok(name),
        _ => Err(cursor.lacks(Missing::Indirect)),
    }
}

/// The functions of LLVM's own that compute something of two values, by how their names begin.
static COMPUTED: [(&[u8], Binary); 6] = [
    (b"llvm.smin.", Binary::Least),
    (b"llvm.smax.", Binary::Most),
    (b"llvm.umin.", Binary::LeastUnsigned),
    (b"llvm.umax.", Binary::MostUnsigned),
    (b"llvm.uadd.sat.", Binary::AddLimited),
    (b"llvm.usub.sat.", Binary::SubLimited),
];

/// The functions of LLVM's own that compute something of a value's bits, by how their names begin.
static COUNTED: [(&[u8], Bits); 5] = [
    (b"llvm.ctpop.", Bits::Population),
    (b"llvm.ctlz.", Bits::Leading),
    (b"llvm.cttz.", Bits::Trailing),
    (b"llvm.bitreverse.", Bits::Reversed),
    (b"llvm.bswap.", Bits::Swapped),
];

/// The functions of LLVM's own that do nothing, by how their names begin.
static IDLE: [&[u8]; 5] = [
    b"llvm.dbg.",
    b"llvm.lifetime.",
    b"llvm.assume",
    b"llvm.experimental.noalias",
    b"llvm.donothing",
];

/// Whether a name begins with one of these texts.
pub fn is_idle(name: &[u8]) -> bool {
    IDLE.iter().any(|start| name.starts_with(start))
}

/// What a function of LLVM's own computes of two values.
fn computed(name: &[u8]) -> Option<Binary> {
    for (start, what) in COMPUTED.iter() {
        if name.starts_with(start) {
            return Some(*what);
        }
    }
    None
}

/// What a function of LLVM's own computes of a value's bits.
fn counted(name: &[u8]) -> Option<Bits> {
    for (start, what) in COUNTED.iter() {
        if name.starts_with(start) {
            return Some(*what);
        }
    }
    None
}

/// A function of LLVM's own of one value; a second one says what is asked of the first.
fn of_one<'a>(name: &[u8], value: Operand<'a>) -> Option<Action<'a>> {
    if name.starts_with(b"llvm.abs.") {
        return Some(Action::Absolute(value));
    }
    if name.starts_with(b"llvm.expect.") {
        return Some(Action::Same(value));
    }
    let what = counted(name)?;
    Some(Action::Count { what, value })
}

/// A function of LLVM's own of two values.
fn of_two<'a>(name: &[u8], left: Operand<'a>, right: Operand<'a>) -> Option<Action<'a>> {
    match computed(name) {
        Some(what) => Some(Action::Compute { what, left, right }),
        None => of_one(name, left),
    }
}

/// A function of LLVM's own of three values.
fn of_three<'a>(
    name: &[u8],
    high: Operand<'a>,
    low: Operand<'a>,
    amount: Operand<'a>,
) -> Option<Action<'a>> {
    let right = name.starts_with(b"llvm.fshr.");
    if right || name.starts_with(b"llvm.fshl.") {
        Some(Action::Funnel {
            high,
            low,
            amount,
            right,
        })
    } else {
        None
    }
}

/// What a function of LLVM's own does with memory.
fn in_memory<'a>(
    name: &[u8],
    to: Operand<'a>,
    with: Operand<'a>,
    bytes: Operand<'a>,
) -> Option<Action<'a>> {
    if name.starts_with(b"llvm.memset.") {
        return Some(Action::Fill {
            to,
            byte: with,
            bytes,
        });
    }
    let overlaps = name.starts_with(b"llvm.memmove.");
    if overlaps || name.starts_with(b"llvm.memcpy.") {
        return Some(Action::Copy {
            to,
            from: with,
            bytes,
            overlaps,
        });
    }
    None
}

/// Whether an address is one of words; what is none is.
fn is_aligned(passed: &Passed<'_>) -> bool {
    passed.argument.width != 32 || passed.align % 4 == 0
}

/// What a function of LLVM's own does.
fn intrinsic<'a>(cursor: &Cursor<'_, 'a>, call: &Written<'a>) -> Result<Action<'a>, Refusal<'a>> {
    let name = call.callee;
    let lacks = cursor.lacks_word(Missing::Intrinsic, name);
    let action = match call.passed.as_slice() {
        [value] => of_one(name, value.argument.operand),
        [left, right] => of_two(name, left.argument.operand, right.argument.operand),
        [high, low, by] => of_three(
            name,
            high.argument.operand,
            low.argument.operand,
            by.argument.operand,
        ),
        [to, with, bytes, _] => {
            if !is_aligned(to) || !is_aligned(with) {
                return Err(cursor.lacks(Missing::Words));
            }
            in_memory(
                name,
                to.argument.operand,
                with.argument.operand,
                bytes.argument.operand,
            )
        }
        _ => None,
    };
    action.ok_or(lacks)
}

/// What a call does.
fn action<'a>(
    scope: &Scope<'a>,
    cursor: &Cursor<'_, 'a>,
    call: Written<'a>,
) -> Result<Action<'a>, Refusal<'a>> {
    if call.callee.starts_with(b"llvm.") {
        return intrinsic(cursor, &call);
    }
    if call.passed.len() > 6 {
        return Err(cursor.lacks(Missing::Arguments));
    }
    let mut arguments = Vec::new(scope.alloc);
    for passed in &call.passed {
        push(&mut arguments, passed.argument)?;
    }
    Ok(Action::Call {
        callee: call.callee,
        arguments,
    })
}

/// `call`, behind that word: how many bits its result has and what it does; nothing where it does nothing.
pub fn call<'a>(
    scope: &mut Scope<'a>,
    cursor: &mut Cursor<'_, 'a>,
) -> Result<Option<(u32, Action<'a>)>, Refusal<'a>> {
    cursor.skip_words(&WORDS);
    let _ = attributes(cursor);
    let mut ahead = *cursor;
    let _ = scope.types.read(&mut ahead)?;
    let name = callee(&mut ahead)?;
    if is_idle(name) {
        return Ok(None);
    }
    let width = scope.types.read_width(cursor)?;
    let name = callee(cursor)?;
    cursor.mark(b'(')?;
    let passed = all_passed(scope, cursor)?;
    let call = Written {
        callee: name,
        passed,
    };
    let action = action(scope, cursor, call)?;
    Ok(Some((width, action)))
}
