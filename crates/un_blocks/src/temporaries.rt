//! The facts of a block's temporaries, and of the block, read from the model.

use crate::gather::{Scope, is_source_or_end, no_operation, operations, tails};
use std::alloc::{AllocError, Global};
use un_ir::extended::{ExtKind, ExtOp, NodeCopy};
use un_ir::function::{Kind, SrcOp};
use un_isa::facts::result_space;
use un_isa::reg::Space;
use un_trial::facts::{BlockFacts, Temporary};
use un_trial::table::{NONE, Table};

/// Which of the values at the block's start a temporary is.
fn start_place(s: &Scope<'_>, t: u32) -> Option<u32> {
    match s.op(s.definer(t)) {
        Some(op) => match op.kind {
            ExtKind::In => Some(place_among(s, op, t)),
            _ => None,
        },
        None => None,
    }
}

fn place_among(s: &Scope<'_>, op: &ExtOp, t: u32) -> u32 {
    let mut j = 0u32;
    for x in op.results.as_slice() {
        if s.local(*x) == t {
            return j;
        }
        j = j.saturating_add(1);
    }
    NONE
}

/// The source operation that defines a temporary.
fn source_of<'a>(s: &Scope<'a>, t: u32) -> Option<&'a SrcOp> {
    match s.op(s.definer(t)) {
        Some(op) => match &op.kind {
            ExtKind::Body(source) => Some(source),
            _ => None,
        },
        None => None,
    }
}

/// The name or saved value that a value stands for; NONE where it is neither.
fn key_of(s: &Scope<'_>, v: u32) -> u32 {
    if let Some(j) = start_place(s, v) {
        return s.start_key(j);
    }
    match source_of(s, v) {
        Some(source) => source.dst.map_or(NONE, |name| name.0),
        None => NONE,
    }
}

/// The register whose value at the function's entry a key stands for; NONE at a name.
fn saved_of(s: &Scope<'_>, key: u32) -> u32 {
    let names = s.names();
    if key == NONE || key < names {
        return NONE;
    }
    let place = key.saturating_sub(names) as usize;
    s.machine.saved.get(place).copied().unwrap_or(NONE)
}

/// Whether a value is a predicate.
fn is_predicate(s: &Scope<'_>, v: u32) -> bool {
    if let Some(j) = start_place(s, v) {
        let key = s.start_key(j);
        return s.m.ext.names.as_slice().get(key as usize).copied() == Some(Kind::Pred);
    }
    match source_of(s, v) {
        Some(source) => result_space(source.op) == Some(Space::P),
        None => false,
    }
}

fn is_root(s: &Scope<'_>, t: u32) -> bool {
    let o = s.definer(t);
    s.value(t) == t || s.is_copy(o, NodeCopy::D) || s.is_copy(o, NodeCopy::D2)
}

/// A temporary without what is told of values.
fn copy(alloc: Global, s: &Scope<'_>, t: u32) -> Temporary {
    Temporary {
        value: s.value(t),
        definer: s.definer(t),
        register: s.temp(t).map_or(NONE, |vars| vars.reg.0),
        is_root: is_root(s, t),
        ..no_temporary(alloc)
    }
}

/// A temporary, with what its own value is, but not yet who carries and reads it.
fn temporary(alloc: Global, s: &Scope<'_>, t: u32) -> Temporary {
    let mut x = copy(alloc, s, t);
    if x.value == t {
        x.key = key_of(s, t);
        x.saved = saved_of(s, x.key);
        x.is_predicate = is_predicate(s, t);
    }
    x
}

/// Notes a temporary among the carriers of its value, and where it is the copy d or d2.
fn note_carrier(s: &Scope<'_>, t: u32, x: &mut Temporary) -> Result<(), AllocError> {
    let o = s.definer(t);
    if s.is_copy(o, NodeCopy::D) {
        x.first_carrier = t;
        x.copy = o;
    }
    if s.is_copy(o, NodeCopy::D2) {
        x.second_copy = o;
    }
    x.carriers.push(t)?;
    Ok(())
}

fn note_carriers(s: &Scope<'_>, list: &mut [Temporary]) -> Result<(), AllocError> {
    for t in 0..s.temps {
        if let Some(x) = list.get_mut(s.value(t) as usize) {
            note_carrier(s, t, x)?;
        }
    }
    Ok(())
}

/// Notes an operation among the readers of what it reads.
fn note_reader(
    s: &Scope<'_>,
    o: u32,
    op: &ExtOp,
    list: &mut [Temporary],
) -> Result<(), AllocError> {
    for x in op.operands.as_slice() {
        if let Some(read) = list.get_mut(s.value_read(x) as usize)
            && read.readers.last().copied() != Some(o)
        {
            read.readers.push(o)?;
        }
    }
    Ok(())
}

/// Notes the readers of values that every solution issues.
fn note_readers(s: &Scope<'_>, list: &mut [Temporary]) -> Result<(), AllocError> {
    let mut o = 0u32;
    for op in s.block.ops.as_slice() {
        if is_source_or_end(&op.kind) {
            note_reader(s, o, op, list)?;
        }
        o = o.saturating_add(1);
    }
    Ok(())
}

/// Notes which values the block's end reads.
fn note_end(op: &ExtOp, s: &Scope<'_>, list: &mut [Temporary]) {
    let mut j = 0u32;
    for x in op.operands.as_slice() {
        if let Some(read) = list.get_mut(s.value_read(x) as usize)
            && read.at_end == NONE
        {
            read.at_end = j;
        }
        j = j.saturating_add(1);
    }
}

/// Notes of each value who carries and reads it.
fn note_values(s: &Scope<'_>, list: &mut [Temporary]) -> Result<(), AllocError> {
    note_carriers(s, list)?;
    note_readers(s, list)?;
    if let Some(op) = s.op(output(s)) {
        note_end(op, s, list);
    }
    Ok(())
}

fn temporaries(alloc: Global, s: &Scope<'_>) -> Result<Vec<Temporary>, AllocError> {
    let mut list = Vec::new(alloc);
    for t in 0..s.temps {
        list.push(temporary(alloc, s, t))?;
    }
    note_values(s, list.as_mut_slice())?;
    Ok(list)
}

/// What stands for a temporary where there is none.
fn no_temporary(alloc: Global) -> Temporary {
    Temporary {
        value: NONE,
        definer: NONE,
        register: NONE,
        is_predicate: false,
        is_root: false,
        saved: NONE,
        key: NONE,
        copy: NONE,
        second_copy: NONE,
        first_carrier: NONE,
        carriers: Vec::new(alloc),
        readers: Vec::new(alloc),
        at_end: NONE,
    }
}

/// What an operation is to its block.
#[derive(Clone, Copy, PartialEq)]
enum Role {
    Start,
    End,
    Terminator,
    Enter,
    Leave,
    Body,
    Copy,
}

fn role_of(kind: &ExtKind) -> Role {
    match kind {
        ExtKind::In => Role::Start,
        ExtKind::Out => Role::End,
        ExtKind::End(_) => Role::Terminator,
        ExtKind::Enter => Role::Enter,
        ExtKind::Leave => Role::Leave,
        ExtKind::Body(_) => Role::Body,
        ExtKind::Copy(_) => Role::Copy,
    }
}

/// The first operation with a role; NONE where there is none.
fn with_role(s: &Scope<'_>, role: Role) -> u32 {
    let mut o = 0u32;
    for op in s.block.ops.as_slice() {
        if role_of(&op.kind) == role {
            return o;
        }
        o = o.saturating_add(1);
    }
    NONE
}

/// The operation that reads what is live at the block's end.
fn output(s: &Scope<'_>) -> u32 {
    with_role(s, Role::End)
}

/// The operations of the source but the terminator.
fn body(alloc: Global, s: &Scope<'_>) -> Result<Vec<u32>, AllocError> {
    let mut list = Vec::new(alloc);
    let mut o = 0u32;
    for op in s.block.ops.as_slice() {
        if role_of(&op.kind) == Role::Body {
            list.push(o)?;
        }
        o = o.saturating_add(1);
    }
    Ok(list)
}

/// The values at the block's start.
fn input(alloc: Global, s: &Scope<'_>) -> Result<Vec<u32>, AllocError> {
    let mut list = Vec::new(alloc);
    if let Some(op) = s.op(with_role(s, Role::Start)) {
        for t in op.results.as_slice() {
            list.push(s.local(*t))?;
        }
    }
    Ok(list)
}

/// The facts of a block whose first variable has this number.
pub fn block_facts(
    alloc: Global,
    s: &Scope<'_>,
    first_variable: u32,
) -> Result<BlockFacts, AllocError> {
    let operations = operations(alloc, s)?;
    let temporaries = temporaries(alloc, s)?;
    let tails = tails(alloc, operations.as_slice())?;
    let (body, input) = lists(alloc, s)?;
    let end = s.vars.end.0;
    Ok(BlockFacts {
        horizon: s.block.horizon,
        end,
        first_variable,
        variables: end.saturating_add(1).saturating_sub(first_variable),
        operations: Table::of(operations, no_operation(alloc)),
        tails,
        temporaries: Table::of(temporaries, no_temporary(alloc)),
        body,
        input,
        output: output(s),
        enter: with_role(s, Role::Enter),
        leave: with_role(s, Role::Leave),
        terminator: with_role(s, Role::Terminator),
    })
}

fn lists(alloc: Global, s: &Scope<'_>) -> Result<(Vec<u32>, Vec<u32>), AllocError> {
    let body = body(alloc, s)?;
    let input = input(alloc, s)?;
    Ok((body, input))
}
