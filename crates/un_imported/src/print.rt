//! A function as text of the input language.

use crate::body::{Block, BlockId, Body, End, Fork, Label, Step, ways_out};
use crate::names::NameId;
use crate::tidy::reached;
use std::alloc::Global;
use un_base::memory_error::NoMemory;
use un_base::name::Name;
use un_ir::function::Kind;
use un_ir::text::{put_number, put_signed_number, put_text};
use un_isa::facts::{literal_range, source_name};
use un_isa::op::Op;
use un_llvm::lists::push;

/// A place as a number.
fn number(place: usize) -> u64 {
    u64::try_from(place).unwrap_or(u64::MAX)
}

/// Whether a text is digits alone.
fn is_digits(text: &[u8]) -> bool {
    !text.is_empty() && text.iter().all(|b| b.is_ascii_digit())
}

/// Whether a text is one of the letters and digits behind it.
fn is_numbered(text: &[u8], letters: &[u8]) -> bool {
    match text.split_first() {
        Some((first, rest)) => letters.contains(first) && is_digits(rest),
        None => false,
    }
}

/// Whether a text of LLVM's is a name that stands for itself: no name that is made here is spelled so.
fn is_plain(text: &[u8], letters: &[u8]) -> bool {
    Name::from_bytes(text).is_some() && !is_numbered(text, letters) && !text.starts_with(b"_n.")
}

/// The blocks in the order in which they are made: each of LLVM's, and those that were made for it behind it.
fn base_order(alloc: Global, body: &Body<'_>) -> Result<Vec<BlockId>, NoMemory> {
    let mut found = Vec::new(alloc);
    for origin in 0..body.blocks.len() {
        for (place, block) in body.blocks.iter().enumerate() {
            if block.origin == origin {
                push(&mut found, place)?;
            }
        }
    }
    Ok(found)
}

/// Whether a block is left to place.
fn is_left(left: &[bool], place: BlockId) -> bool {
    left.get(place).copied().unwrap_or(false)
}

/// The block to place behind another one: where it leads, the next in the order before another one.
fn follower(body: &Body<'_>, order: &[BlockId], left: &[bool], last: BlockId) -> Option<BlockId> {
    let next = order.iter().copied().find(|b| is_left(left, *b))?;
    let Some(block) = body.blocks.get(last) else {
        return Some(next);
    };
    let ways = ways_out(block.end);
    if ways.contains(&Some(next)) {
        return Some(next);
    }
    for way in ways.iter().rev() {
        if let Some(to) = way
            && is_left(left, *to)
        {
            return Some(*to);
        }
    }
    Some(next)
}

/// The blocks in the order in which they are printed.
fn order(alloc: Global, body: &Body<'_>) -> Result<Vec<BlockId>, NoMemory> {
    let base = base_order(alloc, body)?;
    let mut left = reached(alloc, body)?;
    let mut found: Vec<BlockId> = Vec::new(alloc);
    let mut last: BlockId = 0;
    for k in 0..body.blocks.len() {
        let next = if k == 0 {
            Some(0)
        } else {
            follower(body, base.as_slice(), left.as_slice(), last)
        };
        let Some(next) = next else {
            break;
        };
        if let Some(flag) = left.get_mut(next) {
            *flag = false;
        }
        push(&mut found, next)?;
        last = next;
    }
    Ok(found)
}

/// Appends a text and a number.
fn put_numbered(out: &mut Vec<u8>, text: &[u8], place: usize) -> Result<(), NoMemory> {
    put_text(out, text)?;
    put_number(out, number(place))
}

/// Appends a name with its sigil.
fn put_name(out: &mut Vec<u8>, body: &Body<'_>, name: NameId) -> Result<(), NoMemory> {
    let sigil: &[u8] = match body.names.kinds.get(name) {
        Some(Kind::Pred) => b"$",
        _ => b"%",
    };
    put_text(out, sigil)?;
    let text = body.names.texts.get(name).copied().unwrap_or(b"");
    if is_digits(text) {
        put_text(out, b"v")?;
        put_text(out, text)
    } else if is_plain(text, b"vt") {
        put_text(out, text)
    } else if text.is_empty() {
        put_numbered(out, b"t", name)
    } else {
        put_numbered(out, b"_n.", name)
    }
}

/// Appends the label of a block.
fn put_label(out: &mut Vec<u8>, body: &Body<'_>, place: BlockId) -> Result<(), NoMemory> {
    let label = match body.blocks.get(place) {
        Some(block) => block.label,
        None => Label::New,
    };
    match label {
        Label::Given(text) if is_digits(text) => {
            put_text(out, b"b")?;
            put_text(out, text)
        }
        Label::Given(text) if is_plain(text, b"be") => put_text(out, text),
        _ => put_numbered(out, b"e", place),
    }
}

/// Appends the line of a block's label.
fn put_block_line(
    out: &mut Vec<u8>,
    body: &Body<'_>,
    place: BlockId,
    freq: u64,
) -> Result<(), NoMemory> {
    put_text(out, b"block ")?;
    put_label(out, body, place)?;
    put_text(out, b" freq ")?;
    put_number(out, freq)?;
    put_text(out, b"\n")
}

/// Appends the number of an operation.
fn put_literal(out: &mut Vec<u8>, before: &[u8], step: &Step<'_>) -> Result<(), NoMemory> {
    put_text(out, before)?;
    put_signed_number(out, step.imm)
}

/// Appends the operands of an operation, with a number where it has one: the number stands behind the first operand.
fn put_operands(out: &mut Vec<u8>, body: &Body<'_>, step: &Step<'_>) -> Result<(), NoMemory> {
    let has_number = literal_range(step.op).is_some();
    if has_number && step.srcs.is_empty() {
        return put_literal(out, b" #", step);
    }
    for (k, name) in step.srcs.as_slice().iter().enumerate() {
        put_text(
            out,
            if k == 0 {
                b" ".as_slice()
            } else {
                b", ".as_slice()
            },
        )?;
        put_name(out, body, *name)?;
        if k == 0 && has_number {
            put_literal(out, b", #", step)?;
        }
    }
    Ok(())
}

/// Appends the line of an operation.
fn put_step(out: &mut Vec<u8>, body: &Body<'_>, step: &Step<'_>) -> Result<(), NoMemory> {
    put_text(out, b"  ")?;
    if let Some(name) = step.dst {
        put_name(out, body, name)?;
        put_text(out, b" = ")?;
    }
    put_text(out, source_name(step.op))?;
    if step.op == Op::Call {
        put_text(out, b" ")?;
        put_text(out, step.callee)?;
    }
    put_operands(out, body, step)?;
    put_text(out, b"\n")
}

/// Appends the line of a jump.
fn put_jump(out: &mut Vec<u8>, body: &Body<'_>, to: BlockId) -> Result<(), NoMemory> {
    put_text(out, b"  jump ")?;
    put_label(out, body, to)?;
    put_text(out, b"\n")
}

/// Appends the line of a branch to a block.
fn put_branch(
    out: &mut Vec<u8>,
    body: &Body<'_>,
    pred: NameId,
    negated: bool,
    to: BlockId,
) -> Result<(), NoMemory> {
    put_text(out, b"  if ")?;
    if negated {
        put_text(out, b"!")?;
    }
    put_name(out, body, pred)?;
    put_text(out, b" jump ")?;
    put_label(out, body, to)?;
    put_text(out, b"\n")
}

/// How often a block runs.
fn freq(body: &Body<'_>, place: BlockId) -> u64 {
    match body.blocks.get(place) {
        Some(block) => block.freq,
        None => 1,
    }
}

/// A branch that jumps to the one of its blocks that runs more often.
fn often_first(body: &Body<'_>, fork: Fork) -> Fork {
    if freq(body, fork.yes) >= freq(body, fork.no) {
        return fork;
    }
    Fork {
        pred: fork.pred,
        negated: !fork.negated,
        yes: fork.no,
        no: fork.yes,
    }
}

/// Appends the lines of a branch to two blocks neither of which stands behind it: a block of its own jumps to the second.
fn put_two_ways(
    out: &mut Vec<u8>,
    body: &Body<'_>,
    place: BlockId,
    fork: Fork,
) -> Result<(), NoMemory> {
    put_branch(out, body, fork.pred, fork.negated, fork.yes)?;
    let spare = body.blocks.len().saturating_add(place);
    let often = freq(body, fork.no).min(freq(body, place));
    put_block_line(out, body, spare, often)?;
    put_jump(out, body, fork.no)
}

/// Appends the lines of a branch at the end of a block that stands at a place, before another one.
fn put_fork(
    out: &mut Vec<u8>,
    body: &Body<'_>,
    place: BlockId,
    fork: Fork,
    next: Option<BlockId>,
) -> Result<(), NoMemory> {
    if next == Some(fork.yes) {
        return put_branch(out, body, fork.pred, !fork.negated, fork.no);
    }
    if next == Some(fork.no) {
        return put_branch(out, body, fork.pred, fork.negated, fork.yes);
    }
    put_two_ways(out, body, place, often_first(body, fork))
}

/// Appends the lines of how a block ends that stands at a place, before another one.
fn put_end(
    out: &mut Vec<u8>,
    body: &Body<'_>,
    place: BlockId,
    end: End,
    next: Option<BlockId>,
) -> Result<(), NoMemory> {
    match end {
        End::Jump(to) if next == Some(to) => Ok(()),
        End::Jump(to) => put_jump(out, body, to),
        End::Fork(fork) => put_fork(out, body, place, fork, next),
        End::Return(Some(name)) => {
            put_text(out, b"  ret ")?;
            put_name(out, body, name)?;
            put_text(out, b"\n")
        }
        End::Return(None) => put_text(out, b"  ret\n"),
    }
}

/// Appends a block, before another one.
fn put_block(
    out: &mut Vec<u8>,
    body: &Body<'_>,
    place: BlockId,
    next: Option<BlockId>,
) -> Result<(), NoMemory> {
    let Some(block) = body.blocks.get(place) else {
        return Ok(());
    };
    put_block_line(out, body, place, block.freq)?;
    for step in &block.steps {
        put_step(out, body, step)?;
    }
    put_end(out, body, place, block.end, next)
}

/// Appends the first line.
fn put_head(out: &mut Vec<u8>, name: &[u8], body: &Body<'_>) -> Result<(), NoMemory> {
    put_text(out, b"func ")?;
    put_text(out, name)?;
    for parameter in &body.parameters {
        put_text(out, b" ")?;
        put_name(out, body, *parameter)?;
    }
    put_text(out, b"\n")
}

/// A function of this name as text.
pub fn print(alloc: Global, name: &[u8], body: &Body<'_>) -> Result<Vec<u8>, NoMemory> {
    let order = order(alloc, body)?;
    let mut out = Vec::new(alloc);
    put_head(&mut out, name, body)?;
    for (k, place) in order.iter().enumerate() {
        let next = order.get(k.saturating_add(1)).copied();
        put_block(&mut out, body, *place, next)?;
    }
    Ok(out)
}
