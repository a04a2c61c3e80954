//! Instructions of listings in the spelling that `alloc` prints.

use crate::listing::{Listing, block_of};
use crate::text::{find, is_blank, parted, trimmed};
use un_base::memory_error::NoMemory;
use un_ir::function::{Block, Function};
use un_ir::text::{put_number, put_text};
use un_isa::op::Op;

/// A jump: what stands before the word `jump`, and its label.
#[derive(Clone, Copy)]
pub struct Jump<'a> {
    pub before: &'a [u8],
    pub label: &'a [u8],
}

/// What stands behind the hint that a jump may have.
fn behind_hint(text: &[u8]) -> &[u8] {
    if let Some(rest) = text.strip_prefix(b":nt") {
        return rest;
    }
    match text.strip_prefix(b":t") {
        Some(rest) => rest,
        None => text,
    }
}

/// The jump that an instruction is, where it leads to a label.
pub fn jump_in(text: &[u8]) -> Option<Jump<'_>> {
    let halves = parted(text, find(text, b"jump")?);
    let rest = behind_hint(parted(halves.behind, 4).behind);
    let label = rest.strip_prefix(b" ")?;
    Some(Jump {
        before: halves.front,
        label: trimmed(label),
    })
}

/// The label to which a hardware loop goes back, where an instruction begins one.
pub(crate) fn loop_in(text: &[u8]) -> Option<&[u8]> {
    let rest = match text.strip_prefix(b"loop0(") {
        Some(rest) => rest,
        None => text.strip_prefix(b"loop1(")?,
    };
    let place = rest.iter().position(|b| *b == b',')?;
    Some(parted(rest, place).front)
}

/// Whether an instruction may leave its block.
pub fn leaves(text: &[u8]) -> bool {
    text.starts_with(b"jump") || text.starts_with(b":endloop") || find(text, b" jump").is_some()
}

/// Whether an instruction always leaves its block.
pub(crate) fn always_leaves(text: &[u8]) -> bool {
    text.starts_with(b"jump")
}

/// Appends a text with one blank in place of several, and none behind a comma.
fn put_squeezed(out: &mut Vec<u8>, text: &[u8]) -> Result<(), NoMemory> {
    let mut last = b',';
    for b in text {
        let b = if is_blank(*b) { b' ' } else { *b };
        if b != b' ' || !(last == b' ' || last == b',') {
            put_text(out, &[b])?;
            last = b;
        }
    }
    Ok(())
}

/// How many arguments a block's first call of a function has.
fn arguments_in(block: &Block, callee: &[u8]) -> Option<usize> {
    for op in block.ops.as_slice() {
        if let (Op::Call, Some(name)) = (op.op, &op.callee) {
            if name.as_bytes() == callee {
                return Some(op.srcs.as_slice().len());
            }
        }
    }
    None
}

/// How many arguments the function's first call of another has; 0 where it has none.
fn arguments_of(f: &Function, callee: &[u8]) -> usize {
    for block in f.blocks.as_slice() {
        if let Some(count) = arguments_in(block, callee) {
            return count;
        }
    }
    0
}

/// Appends a call with the registers of its arguments.
fn put_call(out: &mut Vec<u8>, callee: &[u8], arguments: usize) -> Result<(), NoMemory> {
    put_text(out, b"call ")?;
    put_text(out, callee)?;
    put_text(out, b"(")?;
    for register in 0..arguments {
        if register > 0 {
            put_text(out, b",")?;
        }
        put_text(out, b"r")?;
        put_number(out, register as u64)?;
    }
    put_text(out, b")")
}

/// Appends a jump to a block, which goes by `b` and its number.
fn put_jump(out: &mut Vec<u8>, before: &[u8], block: u32) -> Result<(), NoMemory> {
    put_squeezed(out, before)?;
    put_text(out, b"jump b")?;
    put_number(out, u64::from(block))
}

/// Appends an instruction as `alloc` would print it: a jump without its hint, its label as `b` and the number of its block, and a call
/// with the registers of as many arguments as the function's call has.
pub(crate) fn put_plain(
    out: &mut Vec<u8>,
    listing: &Listing<'_>,
    f: &Function,
    text: &[u8],
) -> Result<(), NoMemory> {
    if let Some(jump) = jump_in(text) {
        if let Some(block) = block_of(listing, jump.label) {
            return put_jump(out, jump.before, block);
        }
    }
    match text.strip_prefix(b"call ") {
        Some(callee) if find(callee, b"(").is_none() => {
            let callee = trimmed(callee);
            put_call(out, callee, arguments_of(f, callee))
        }
        _ => put_squeezed(out, text),
    }
}
