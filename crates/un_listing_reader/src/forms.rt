//! Whether instructions have the form of instructions: registers of the right kinds, literals in their ranges, and labels.

ghost use Rattle.std.specs.Prelude.{◌≡◌, ◌↔◌, IsTrue, All};
ghost use Rattle.un_isa.specs.declared.reg.Space.TheVariants.{R};
ghost use Rattle.un_isa.specs.Registers.{space_of};
ghost use Rattle.un_listing_reader.specs.PacketForms.{ReadsItsKinds, HasItsRange, IsFormed};

use crate::rules::{are_in, has_its_label, has_literal, is_in, writes_its_space};
use un_isa::facts::{Range, is_in_range, operand_spaces};
use un_isa::instr::Instr;
use un_isa::op::Op;
use un_isa::reg::{Reg, Space};

/// Whether the registers are general ones.
fn are_general(regs: &[Reg]) -> bool
    ensures { IsTrue result ↔ (All (λ r. space_of r.0 ≡ R) regs.now) }
{
    for reg in regs {
        if !is_in(*reg, Space::R) {
            return false;
        }
    }
    true
}

/// Whether the operands are of the kinds of the operation.
fn reads_its_kinds(op: Op, srcs: &[Reg]) -> bool
    ensures { IsTrue result ↔ (ReadsItsKinds op srcs.now) }
{
    match op {
        Op::Call => are_general(srcs),
        _ => are_in(srcs, operand_spaces(op)),
    }
}

/// Whether the number is in the range of the operation.
fn has_its_range(op: Op, n: i32) -> bool
    ensures { IsTrue result ↔ (HasItsRange op n) }
{
    match op {
        Op::Enter | Op::Leave => is_in_range(Range::Signed16, n),
        _ => has_literal(op, n),
    }
}

/// Whether it has the form of an instruction.
fn is_formed(i: &Instr) -> bool
    ensures { IsTrue result ↔ (IsFormed i.now) }
{
    if !reads_its_kinds(i.op, i.srcs.as_slice()) || !writes_its_space(i.op, i.dst) {
        return false;
    }
    has_its_range(i.op, i.imm) && has_its_label(i.op, &i.label)
}

/// Whether all have the form of instructions.
pub fn are_formed(instrs: &[Instr]) -> bool
    ensures { IsTrue result ↔ (All IsFormed instrs.now) }
{
    for i in instrs {
        if !is_formed(i) {
            return false;
        }
    }
    true
}
