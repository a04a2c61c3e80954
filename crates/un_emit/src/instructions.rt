//! The instruction of each operation.

ghost use Rattle.std.specs.Prelude.{◌≡◌, ◌≤◌, IfOk, IfSome, All};
ghost use Rattle.un_emit.specs.Bounds.{IsPlace, FitFrame};
ghost use Rattle.un_isa.specs.declared.reg.TheConstants.{FRAME};
ghost use Rattle.un_model.specs.Emission.{slot_offset, source_instr, label_at, label_of, term_instr, copy_instr, stack_instr};
ghost use Rattle.un_model.specs.Emission.{instr_by, instr_if, new_op, is_beside, emitted_by};
ghost use Rattle.un_model.specs.Schedules.{schedule_of};

use crate::registers::{operand_registers, result_register};
use std::alloc::Global;
use un_base::ids::BlockId;
use un_base::memory_error::NoMemory;
use un_base::name::Name;
use un_ir::extended::{ExtBlock, ExtKind, ExtOp};
use un_ir::function::{SrcOp, Term};
use un_isa::instr::Instr;
use un_isa::op::Op;
use un_isa::reg::{FIRST_SLOT, Reg};
use un_lists::few::Few;
use un_model::model::{Model, OpVars};
use un_model::placement::{choice, optional_value};
use un_model::schedule::LiveRange;

/// The byte of the frame at which a slot begins.
fn slot_offset(slot: Option<Reg>) -> i32
    requires { IfSome slot IsPlace }
    ensures { result ≡ slot_offset slot }
{
    match slot {
        None => 0,
        Some(r) => (4 * r.0.saturating_sub(FIRST_SLOT)) as i32,
    }
}

/// The instruction of an operation of the source. A call's result is in the register that the table says, and none of its own.
fn source_instr(source: &SrcOp, op: Op, srcs: Few<Reg>, dst: Option<Reg>) -> Instr
    ensures { result ≡ source_instr source.now op srcs dst }
{
    let dst = match op {
        Op::Call => None,
        _ => dst,
    };
    Instr {
        op,
        dst,
        srcs,
        imm: source.imm,
        label: source.callee,
    }
}

/// The label of a block.
fn label_at(blocks: &[ExtBlock], b: BlockId) -> Option<Name>
    ensures { result ≡ label_at blocks.now b }
{
    let block = blocks.get(b.0 as usize)?;
    Some(block.label)
}

/// The label to which a terminator may jump.
fn label(blocks: &[ExtBlock], term: Term) -> Option<Name>
    ensures { result ≡ label_of blocks.now term }
{
    match term {
        Term::Fall | Term::Ret(_) => None,
        Term::Jump(to) | Term::Branch { to, .. } => label_at(blocks, to),
    }
}

/// The instruction of a terminator.
fn term_instr(blocks: &[ExtBlock], term: Term, op: Op, srcs: Few<Reg>) -> Instr
    ensures { result ≡ term_instr blocks.now term op srcs }
{
    Instr {
        op,
        dst: None,
        srcs,
        imm: 0,
        label: label(blocks, term),
    }
}

/// The instruction of a copy. A Spill writes the slot of its result, a Reload reads the slot of its operand.
fn copy_instr(alloc: Global, op: Op, srcs: Few<Reg>, dst: Option<Reg>) -> Instr
    requires operands { All IsPlace srcs }
    requires result { IfSome dst IsPlace }
    ensures { result ≡ copy_instr op srcs dst }
{
    match op {
        Op::Spill => Instr {
            op: Op::Spill,
            dst: None,
            srcs,
            imm: slot_offset(dst),
            label: None,
        },
        Op::Reload => Instr {
            op: Op::Reload,
            dst,
            srcs: Few::new(alloc),
            imm: slot_offset(srcs.as_slice().get(0).copied()),
            label: None,
        },
        _ => Instr {
            op,
            dst,
            srcs,
            imm: 0,
            label: None,
        },
    }
}

/// The instruction that moves the stack pointer by so many bytes.
fn stack_instr(alloc: Global, op: Op, bytes: i32) -> Instr
    ensures { result ≡ stack_instr op bytes }
{
    Instr {
        op,
        dst: None,
        srcs: Few::new(alloc),
        imm: bytes,
        label: None,
    }
}

/// The instruction of an operation of this kind, with these registers for its operands and its result, in a function with a
/// frame of so many bytes.
fn instr(
    alloc: Global,
    blocks: &[ExtBlock],
    frame: u32,
    kind: &ExtKind,
    op: Op,
    srcs: Few<Reg>,
    dst: Option<Reg>,
) -> Option<Instr>
    requires frame { frame ≤ FRAME }
    requires operands { All IsPlace srcs }
    requires result { IfSome dst IsPlace }
    ensures { result ≡ instr_by blocks.now frame kind.now op srcs dst }
{
    match kind {
        ExtKind::In | ExtKind::Out => None,
        ExtKind::Body(source) => Some(source_instr(source, op, srcs, dst)),
        ExtKind::End(term) => Some(term_instr(blocks, *term, op, srcs)),
        ExtKind::Copy(_) => Some(copy_instr(alloc, op, srcs, dst)),
        ExtKind::Enter => Some(stack_instr(alloc, op, -(frame as i32))),
        ExtKind::Leave => Some(stack_instr(alloc, op, frame as i32)),
    }
}

/// Whether what an operation reads first is defined in its own cycle, where the temporaries have these live ranges.
fn is_beside(ranges: &[LiveRange], values: &[u32], op: &ExtOp, vars: &OpVars) -> bool
    ensures { result ≡ is_beside ranges.now values.now op.now vars.now }
{
    let Some(operand) = op.operands.as_slice().first() else {
        return false;
    };
    let x = choice(values, vars, 0, operand);
    match ranges.get(x.0 as usize) {
        None => false,
        Some(range) => range.from == optional_value(values, vars.cycle),
    }
}

/// The jump that tests what its own packet writes, for one that tests a predicate of an earlier packet.
fn new_op(op: Op) -> Op
    ensures { result ≡ new_op op }
{
    match op {
        Op::JumpIf => Op::JumpIfNew,
        Op::JumpIfNot => Op::JumpIfNotNew,
        _ => op,
    }
}

/// The operation as which one is emitted that stands in the cycle of what it reads first, or not: a terminator tests that there.
fn emitted_op(is_beside: bool, kind: &ExtKind, op: Op) -> Op
    ensures { result ≡ emitted_by is_beside kind.now op }
{
    match kind {
        ExtKind::End(_) if is_beside => new_op(op),
        _ => op,
    }
}

/// The instruction of an operation that issues `issued`, none where that is none, and none of a block's start and of its end.
pub(crate) fn emitted(
    alloc: Global,
    m: &Model,
    values: &[u32],
    ranges: &[LiveRange],
    frame: u32,
    issued: Option<Op>,
    op: &ExtOp,
    vars: &OpVars,
) -> Result<Option<Instr>, NoMemory>
    requires frame { FitFrame m.now values.now frame }
    requires ranges { ranges.now ≡ (schedule_of m.now values.now).ranges }
    ensures { IfOk result (λ i. i ≡ instr_if m.now values.now op.now vars.now issued) }
{
    let Some(instruction) = issued else {
        return Ok(None);
    };
    let beside = is_beside(ranges, values, op, vars);
    let emitted = emitted_op(beside, &op.kind, instruction);
    let srcs = operand_registers(alloc, m, values, op, vars)?;
    let dst = result_register(m, values, op);
    let blocks = m.ext.blocks.as_slice();
    Ok(instr(alloc, blocks, frame, &op.kind, emitted, srcs, dst))
}
