//! What the operations on registers compute.

ghost use Rattle.std.specs.Prelude.{◌≡◌, nat_eq, if◌then◌else◌, slice_index};
ghost use Rattle.un_isa.specs.Words.{eval, value_of, truth_of};
ghost use Rattle.un_isa.specs.Operands.{CanEval, IsShift};

use crate::op::Op;

/// A truth value as a word: 1 for true, 0 for false.
fn truth(b: bool) -> u32
    ensures { result ≡ truth_of b }
{
    if b { 1 } else { 0 }
}

/// The first number where the predicate is true, else the second.
fn chosen(predicate: u32, yes: u32, no: u32) -> u32
    ensures { result ≡ (if nat_eq predicate 0 then no else yes) }
{
    if predicate == 0 { no } else { yes }
}

/// The operand at place `k`, 0 where there is none.
fn operand(srcs: &[u32], k: usize) -> u32
    ensures { result ≡ slice_index srcs.now k }
{
    if k < srcs.len() { srcs[k] } else { 0 }
}

/// What an operation computes of its operands in order and its literal, where an operand that it does not have counts for
/// nothing. Operations that compute nothing from operands, as loads and jumps, give 0.
pub fn value(op: Op, a: u32, b: u32, c: u32, imm: i32) -> u32
    requires { IsShift op imm }
    ensures { result ≡ value_of op a b c imm }
{
    match op {
        Op::Imm => imm.cast_unsigned(),
        Op::Mov => a,
        Op::Add => a.wrapping_add(b),
        Op::Sub => a.wrapping_sub(b),
        Op::And => a & b,
        Op::Or => a | b,
        Op::Xor => a ^ b,
        Op::Addi => a.wrapping_add(imm.cast_unsigned()),
        Op::Andi => a & imm.cast_unsigned(),
        Op::Ori => a | imm.cast_unsigned(),
        Op::Mux => chosen(a, b, c),
        Op::CmpEq => truth(a == b),
        Op::CmpGt => truth(a.cast_signed() > b.cast_signed()),
        Op::CmpGtu => truth(a > b),
        Op::CmpEqi => truth(a == imm.cast_unsigned()),
        Op::CmpGti => truth(a.cast_signed() > imm),
        Op::Mpyi => a.wrapping_mul(b),
        Op::Asl => a << imm,
        Op::Asr => (a.cast_signed() >> imm).cast_unsigned(),
        Op::Lsr => a >> imm,
        Op::P2R => chosen(a, 255, 0),
        Op::R2P => a % 2,
        Op::Load | Op::Store | Op::Call | Op::Spill | Op::Reload => 0,
        Op::Jump | Op::JumpIf | Op::JumpIfNot | Op::Jumpr => 0,
        Op::JumpIfNew | Op::JumpIfNotNew => 0,
        Op::Enter | Op::Leave | Op::Nop => 0,
    }
}

/// What an operation of the classes ALU32 and XTYPE, other than Enter and Leave, computes of its operands and its
/// literal, as the Hexagon V4 Programmer's Reference Manual has it. A predicate is 1 for true and 0 for false.
pub fn eval_alu(op: Op, srcs: &[u32], imm: i32) -> u32
    requires { CanEval op srcs.now imm }
    ensures { result ≡ eval op srcs.now imm }
{
    value(
        op,
        operand(srcs, 0),
        operand(srcs, 1),
        operand(srcs, 2),
        imm,
    )
}
