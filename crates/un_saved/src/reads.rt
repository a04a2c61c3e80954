//! Whether a block reads the saved values that it takes in registers, in every solution.

ghost use Rattle.std.specs.Prelude.{◌≡◌, ◌==◌, ◌&&◌};
ghost use Rattle.std.specs.List.{list_all, list_any};
ghost use Rattle.un_base.specs.declared.ids.TempId.{TempId};
ghost use Rattle.un_ir.specs.Linear.{first_of};
ghost use Rattle.un_ir.specs.declared.extended.Operand.{Operand};
ghost use Rattle.un_press.specs.Accesses.{takes_register};
ghost use Rattle.un_saved.specs.Reads.{reads_low, reads_saved};

use crate::places::saved_in;
use un_base::ids::TempId;
use un_ir::extended::{ExtBlock, ExtKind, ExtOp, Operand, first_of};

/// Whether an operand takes no slot.
fn takes_register(kind: &ExtKind, x: &Operand) -> bool
    ensures { result ≡ takes_register kind.now x.now }
{
    match kind {
        ExtKind::Body(_) => true,
        ExtKind::End(_) => true,
        ExtKind::Out => x.home.is_some(),
        _ => false,
    }
}

/// Whether some of the operands of an operation of this kind reads value `n` in a register.
fn any_reads(n: u32, kind: &ExtKind, operands: &[Operand]) -> bool
    ensures { result ≡ list_any (λ (x : Operand). first_of x.alts == n && takes_register kind.now x) operands.now }
{
    operands.iter().any(|x| first_of(x.alts.as_slice()) == n && takes_register(kind, x))
}

/// Whether every solution has the operation, and it reads value `n` in a register.
fn reads_low(n: u32, op: &ExtOp) -> bool
    ensures { result ≡ reads_low n op.now }
{
    op.kind.is_mandatory() && any_reads(n, &op.kind, op.operands.as_slice())
}

/// Whether some of these operations does.
fn is_read_low(ops: &[ExtOp], n: u32) -> bool
    ensures { result ≡ list_any (reads_low n) ops.now }
{
    ops.iter().any(|op| reads_low(n, op))
}

/// Whether they read each of these values so.
fn are_read_low(ops: &[ExtOp], temps: &[TempId]) -> bool
    ensures { result ≡ list_all (λ (t : TempId). list_any (reads_low t.0) ops.now) temps.now }
{
    temps.iter().all(|t| is_read_low(ops, t.0))
}

/// Whether a block reads each saved value that it takes in a register.
pub fn reads_saved(block: &ExtBlock) -> bool
    ensures { result ≡ reads_saved block.now }
{
    are_read_low(block.ops.as_slice(), saved_in(block))
}
