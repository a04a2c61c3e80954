//! Linear and extended functions, operation by operation.

ghost use Rattle.std.specs.Prelude.{◌≤◌, length};

use crate::pieces::{put_home, put_op, put_temp};
use std::alloc::Global;
use un_base::ids::{BlockId, OpId, TempId};
use un_base::memory_error::NoMemory;
use un_ir::extended::{Ext, ExtBlock, ExtKind, ExtOp, Lssa, NodeCopy, Operand};
use un_ir::function::{SrcOp, Term};
use un_ir::text::{put_number, put_signed_number, put_text};
use un_isa::facts::{literal_range, source_name};
use un_isa::op::Op;
use un_isa::reg::{GENERALS, LINK, Reg};
use un_isa::table::Table;

/// Appends temporaries with one space between.
fn put_temps(out: &mut Vec<u8>, temps: &[TempId]) -> Result<(), NoMemory> {
    let mut before: &[u8] = b"";
    for temp in temps {
        put_text(out, before)?;
        put_temp(out, *temp)?;
        before = b" ";
    }
    Ok(())
}

/// Appends a space and an operand: its alternatives, and the register to which it is preassigned.
fn put_operand(out: &mut Vec<u8>, operand: &Operand) -> Result<(), NoMemory> {
    put_text(out, b" [")?;
    put_temps(out, operand.alts.as_slice())?;
    put_text(out, b"]")?;
    put_home(out, operand.home)
}

/// Appends operands, each after a space.
fn put_operands(out: &mut Vec<u8>, operands: &[Operand]) -> Result<(), NoMemory> {
    for operand in operands {
        put_operand(out, operand)?;
    }
    Ok(())
}

/// Appends the literal of an operation after a space, where it has one.
fn put_literal(out: &mut Vec<u8>, source: &SrcOp) -> Result<(), NoMemory> {
    if literal_range(source.op).is_none() {
        return Ok(());
    }
    put_text(out, b" #")?;
    put_signed_number(out, source.imm)
}

/// How many operands stand before the literal: of a store the base alone.
fn count_before_literal(op: Op, operands: &[Operand]) -> usize
    ensures { result ≤ length operands.now }
{
    match op {
        Op::Store => operands.len().min(1),
        _ => operands.len(),
    }
}

/// Appends the callee of a call after a space.
fn put_callee(out: &mut Vec<u8>, source: &SrcOp) -> Result<(), NoMemory> {
    let Some(callee) = &source.callee else {
        return Ok(());
    };
    put_text(out, b" ")?;
    put_text(out, callee.as_bytes())
}

/// Appends an operation of the source with what it reads.
fn put_source(out: &mut Vec<u8>, source: &SrcOp, operands: &[Operand]) -> Result<(), NoMemory> {
    let count = count_before_literal(source.op, operands);
    put_text(out, source_name(source.op))?;
    put_callee(out, source)?;
    put_operands(out, &operands[..count])?;
    put_literal(out, source)?;
    put_operands(out, &operands[count..])
}

/// Appends the label of a block of these after a space, where there is such a block.
fn put_label(out: &mut Vec<u8>, blocks: &[ExtBlock], to: BlockId) -> Result<(), NoMemory> {
    let Some(block) = blocks.get(to.0 as usize) else {
        return Ok(());
    };
    put_text(out, b" ")?;
    put_text(out, block.label.as_bytes())
}

/// The words of a terminator before its operands.
pub fn first_words(term: Term) -> &'static [u8] {
    match term {
        Term::Fall => b"fall",
        Term::Jump(_) => b"jump",
        Term::Branch { sense: true, .. } => b"if",
        Term::Branch { .. } => b"if !",
        Term::Ret(_) => b"ret",
    }
}

/// Appends where a terminator leads, behind its operands.
fn put_target(out: &mut Vec<u8>, blocks: &[ExtBlock], term: Term) -> Result<(), NoMemory> {
    match term {
        Term::Fall | Term::Ret(_) => Ok(()),
        Term::Jump(to) => put_label(out, blocks, to),
        Term::Branch { to, .. } => {
            put_text(out, b" jump")?;
            put_label(out, blocks, to)
        }
    }
}

/// The word for a copy.
fn copy_word(node: NodeCopy) -> &'static [u8] {
    match node {
        NodeCopy::D => b"d",
        NodeCopy::D2 => b"d2",
        NodeCopy::U => b"u",
        NodeCopy::U2 => b"u2",
    }
}

/// The word for an operation that is none of the source.
fn kind_word(kind: &ExtKind) -> &'static [u8] {
    match kind {
        ExtKind::In => b"in",
        ExtKind::Out => b"out",
        ExtKind::Enter => b"enter",
        ExtKind::Leave => b"leave",
        ExtKind::Copy(node) => copy_word(*node),
        ExtKind::End(term) => first_words(*term),
        ExtKind::Body(_) => b"",
    }
}

/// Appends what an operation is and reads.
fn put_kind(out: &mut Vec<u8>, blocks: &[ExtBlock], op: &ExtOp) -> Result<(), NoMemory> {
    let operands = op.operands.as_slice();
    if let ExtKind::Body(source) = &op.kind {
        return put_source(out, source, operands);
    }
    put_text(out, kind_word(&op.kind))?;
    put_operands(out, operands)?;
    match &op.kind {
        ExtKind::End(term) => put_target(out, blocks, *term),
        _ => Ok(()),
    }
}

/// The register of the saved value at place `k`: the registers that a function keeps rise, the link register is the last.
fn saved_register(t: &Table, k: usize) -> Reg {
    let mut left = k;
    for r in 0..GENERALS {
        if t.saved >> r & 1 == 1 {
            if left == 0 {
                return Reg(r);
            }
            left -= 1;
        }
    }
    Reg(LINK)
}

/// The register of the value at place `j` at the entry's start: a parameter's by its number, then the saved ones.
fn entry_home(t: &Table, block: &ExtBlock, j: usize) -> Option<Reg> {
    match block.live_in.as_slice().get(j) {
        Some(name) => {
            let arg = t.args.get(name.0 as usize)?;
            Some(Reg(u32::from(*arg)))
        }
        None => Some(saved_register(t, j.saturating_sub(block.live_in.len()))),
    }
}

/// The register to which the result at place `j` of an operation is preassigned, in the entry or elsewhere.
fn result_home(t: &Table, block: &ExtBlock, is_entry: bool, op: &ExtOp, j: usize) -> Option<Reg> {
    match &op.kind {
        ExtKind::In if is_entry => entry_home(t, block, j),
        ExtKind::Body(source) if source.op == Op::Call => Some(Reg(u32::from(t.result))),
        _ => None,
    }
}

/// A block of a function with its table: where an operation's line takes registers and labels from.
#[derive(Clone, Copy)]
struct Place<'a> {
    table: &'a Table,
    blocks: &'a [ExtBlock],
    block: &'a ExtBlock,
    is_entry: bool,
}

/// Appends the results of an operation, each with the register to which it is preassigned.
fn put_results(out: &mut Vec<u8>, at: Place<'_>, op: &ExtOp) -> Result<(), NoMemory> {
    let mut before: &[u8] = b" -> ";
    for (j, temp) in op.results.as_slice().iter().enumerate() {
        put_text(out, before)?;
        put_temp(out, *temp)?;
        put_home(out, result_home(at.table, at.block, at.is_entry, op, j))?;
        before = b" ";
    }
    Ok(())
}

/// Appends the line of an operation.
fn put_line(out: &mut Vec<u8>, at: Place<'_>, id: OpId, op: &ExtOp) -> Result<(), NoMemory> {
    put_text(out, b"  ")?;
    put_op(out, id)?;
    put_text(out, b" ")?;
    put_kind(out, at.blocks, op)?;
    put_results(out, at, op)?;
    put_text(out, b"\n")
}

/// Appends the line of a block's label.
fn put_head(out: &mut Vec<u8>, block: &ExtBlock) -> Result<(), NoMemory> {
    put_text(out, b"block ")?;
    put_text(out, block.label.as_bytes())?;
    put_text(out, b" freq ")?;
    put_number(out, u64::from(block.freq))?;
    put_text(out, b" horizon ")?;
    put_number(out, u64::from(block.horizon))?;
    put_text(out, b"\n")
}

/// Appends the lines of a block whose first operation has the number `first`, and answers the number after its last.
fn put_block(out: &mut Vec<u8>, at: Place<'_>, first: OpId) -> Result<OpId, NoMemory> {
    put_head(out, at.block)?;
    let mut id = first;
    for op in at.block.ops.as_slice() {
        put_line(out, at, id, op)?;
        id = OpId(id.0.saturating_add(1));
    }
    Ok(id)
}

/// A line for each of these blocks, and below it one for each operation: what it is, reads and defines.
fn blocks_text(alloc: Global, table: &Table, blocks: &[ExtBlock]) -> Result<Vec<u8>, NoMemory> {
    let mut out = Vec::new(alloc);
    let mut id = OpId(0);
    for (k, block) in blocks.iter().enumerate() {
        let at = Place {
            table,
            blocks,
            block,
            is_entry: k == 0,
        };
        id = put_block(&mut out, at, id)?;
    }
    Ok(out)
}

/// A line for each block of an extended function, and below it one for each operation: what it is, reads and defines.
pub fn extended_text(alloc: Global, e: &Ext) -> Result<Vec<u8>, NoMemory> {
    blocks_text(alloc, &e.table, e.blocks.as_slice())
}

/// A line for each block of a linear function, and below it one for each operation: what it is, reads and defines.
pub fn linear_text(alloc: Global, l: &Lssa) -> Result<Vec<u8>, NoMemory> {
    blocks_text(alloc, &l.table, l.blocks.as_slice())
}
