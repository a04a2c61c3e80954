//! Operations of a generated function.

ghost use Rattle.std.specs.Prelude.{◌≡◌, pos, [], ◌∷◌, ◌++◌, Some, None, ◌<◌, OnOk, IfOk};
ghost use Rattle.un_gen.specs.Draws.{after};
ghost use Rattle.un_gen.specs.Generated.{word, op_by, op_of, op_after, ops_after, behind_ops, imm_of, entry_ops};

use crate::draws::Draws;
use std::alloc::{AllocError, Global};
use un_base::ids::NameId;
use un_base::memory_error::NoMemory;
use un_ir::function::SrcOp;
use un_isa::op::Op;
use un_lists::few::Few;
use un_lists::items::Items;

/// The name $p0.
pub(crate) const TRUTH: NameId = NameId(8);

/// How many operations a block draws.
const DRAWN: u32 = 4;

/// How many general names there are, how many operations of which one is drawn, and how many literals.
const CHOICES: u32 = 8;

/// An operation with these operands and this literal.
fn source_op(op: Op, dst: NameId, srcs: Few<NameId>, imm: i32) -> SrcOp
    ensures { result ≡ record { op = op; dst = Some dst; srcs = srcs; imm = imm; callee = None } }
{
    SrcOp {
        op,
        dst: Some(dst),
        srcs,
        imm,
        callee: None,
    }
}

/// An operation of one operand and a literal.
fn with_literal(alloc: Global, op: Op, dst: NameId, a: u32, imm: i32) -> Result<SrcOp, NoMemory>
    ensures { IfOk result (λ o. o ≡ record { op = op; dst = Some dst; srcs = word a ∷ []; imm = imm; callee = None }) }
{
    let mut srcs = Few::new(alloc);
    srcs.push(NameId(a))?;
    Ok(source_op(op, dst, srcs, imm))
}

/// An operation of two operands.
fn with_operands(alloc: Global, op: Op, dst: NameId, a: u32, c: u32) -> Result<SrcOp, NoMemory>
    ensures { IfOk result (λ o. o ≡ record { op = op; dst = Some dst; srcs = word a ∷ word c ∷ []; imm = pos 0; callee = None }) }
{
    let mut srcs = Few::new(alloc);
    srcs.push(NameId(a))?;
    srcs.push(NameId(c))?;
    Ok(source_op(op, dst, srcs, 0))
}

/// The operation with this number.
fn op_by(k: u32) -> Op
    ensures { result ≡ op_by k }
{
    match k {
        0 => Op::Add,
        1 => Op::Sub,
        2 => Op::And,
        3 => Op::Xor,
        4 => Op::Mpyi,
        5 => Op::Addi,
        6 => Op::Load,
        _ => Op::CmpGt,
    }
}

/// An operation with what was drawn for its result, its first operand, and its second or its literal.
fn op_of(alloc: Global, op: Op, d: u32, a: u32, c: u32) -> Result<SrcOp, NoMemory>
    requires { c < CHOICES }
    ensures { IfOk result (λ o. o ≡ op_of op d a c) }
{
    match op {
        Op::Addi => with_literal(alloc, op, NameId(d), a, c as i32 - 4),
        Op::Load => with_literal(alloc, op, NameId(d), a, (4 * c) as i32),
        Op::CmpGt => with_operands(alloc, op, TRUTH, a, c),
        _ => with_operands(alloc, op, NameId(d), a, c),
    }
}

/// An operation as it is drawn.
fn drawn_op(alloc: Global, draws: &mut Draws) -> Result<SrcOp, NoMemory>
    ensures op { IfOk result (λ o. o ≡ op_after draws.old.state) }
    ensures state { draws.new.state ≡ after 4 draws.old.state }
{
    let op = op_by(draws.draw(CHOICES));
    let d = draws.draw(CHOICES);
    let a = draws.draw(CHOICES);
    let c = draws.draw(CHOICES);
    op_of(alloc, op, d, a, c)
}

/// Adds an operation as it is drawn.
fn push_drawn(alloc: Global, draws: &mut Draws, ops: &mut Items<SrcOp>) -> Result<(), NoMemory>
    ensures op { OnOk result (ops.new ≡ ops.old ++ op_after draws.old.state ∷ []) }
    ensures state { draws.new.state ≡ after 4 draws.old.state }
{
    let op = drawn_op(alloc, draws)?;
    ops.push(op)?;
    Ok(())
}

/// The operations of a block as they are drawn.
pub(crate) fn drawn_ops(alloc: Global, draws: &mut Draws) -> Result<Items<SrcOp>, NoMemory>
    ensures ops { IfOk result (λ ops. ops ≡ ops_after 4 draws.old.state) }
    ensures state { OnOk result (draws.new.state ≡ behind_ops 4 draws.old.state) }
{
    let mut ops = Items::new(alloc);
    for i in 0..DRAWN {
        push_drawn(alloc, draws, &mut ops)?;
    }
    Ok(ops)
}

/// `%vN = imm #N`.
fn imm_of(alloc: Global, n: u32) -> SrcOp
    requires { n < CHOICES }
    ensures { result ≡ imm_of n }
{
    source_op(Op::Imm, NameId(n), Few::new(alloc), n as i32)
}

/// What the first block assigns to the words that are no parameters.
fn word_ops(alloc: Global) -> Result<Vec<SrcOp>, AllocError>
    ensures { IfOk result (λ ops. ops.items ≡ imm_of 4 ∷ imm_of 5 ∷ imm_of 6 ∷ imm_of 7 ∷ []) }
{
    let ops = vec![in alloc;
        imm_of(alloc, 4),
        imm_of(alloc, 5),
        imm_of(alloc, 6),
        imm_of(alloc, 7),
    ]?;
    Ok(ops)
}

/// The operations of the first block.
pub(crate) fn entry_ops(alloc: Global) -> Result<Items<SrcOp>, NoMemory>
    ensures { IfOk result (λ ops. ops ≡ entry_ops) }
{
    let mut ops = Items::from_vec(word_ops(alloc)?);
    ops.push(with_operands(alloc, Op::CmpEq, TRUTH, 0, 1)?)?;
    Ok(ops)
}
