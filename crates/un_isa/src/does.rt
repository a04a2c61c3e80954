//! What operations do, and the words that are read off it.

ghost use Rattle.std.specs.Prelude.{◌≡◌};
ghost use Rattle.un_isa.specs.Facts.{does_of};
ghost use Rattle.un_isa.specs.Does.{is_call, is_return, is_jump, is_transfer, is_leaving, is_compare, is_branch, is_new};

use crate::op::Op;

/// When a jump is taken: always, or where its predicate is true, or where it is false. A jump tests its predicate as it was before
/// its packet, or as a compare of its own packet writes it.
#[derive(Clone, Copy)]
pub enum When {
    Always,
    IfTrue,
    IfFalse,
    IfNewTrue,
    IfNewFalse,
}

/// What an operation does.
#[derive(Clone, Copy)]
pub enum Does {
    /// Computes a word of its operands and its literal.
    Computes,
    /// Compares its operands, and gives a predicate.
    Compares,
    /// Gives the value of its operand on, from one register to another.
    Moves,
    /// Reads a word of memory.
    Loads,
    /// Writes a word of memory.
    Stores,
    /// Writes a register to a word of the frame.
    Spills,
    /// Reads a register back from a word of the frame.
    Reloads,
    /// Calls a function.
    Calls,
    /// Goes to a label.
    Jumps(When),
    /// Goes back to the caller.
    Returns,
    /// Makes the frame.
    OpensFrame,
    /// Takes the frame away.
    ClosesFrame,
    /// Does nothing.
    Rests,
}

/// What an operation does.
pub fn does_of(op: Op) -> Does
    ensures { result ≡ does_of op }
{
    match op {
        Op::Imm | Op::Add | Op::Sub | Op::And | Op::Or | Op::Xor | Op::Mux => Does::Computes,
        Op::Addi | Op::Andi | Op::Ori | Op::Mpyi | Op::Asl | Op::Asr | Op::Lsr => Does::Computes,
        Op::CmpEq | Op::CmpGt | Op::CmpGtu | Op::CmpEqi | Op::CmpGti => Does::Compares,
        Op::Mov | Op::P2R | Op::R2P => Does::Moves,
        Op::Load => Does::Loads,
        Op::Store => Does::Stores,
        Op::Spill => Does::Spills,
        Op::Reload => Does::Reloads,
        Op::Call => Does::Calls,
        Op::Jump => Does::Jumps(When::Always),
        Op::JumpIf => Does::Jumps(When::IfTrue),
        Op::JumpIfNot => Does::Jumps(When::IfFalse),
        Op::Jumpr => Does::Returns,
        Op::Enter => Does::OpensFrame,
        Op::Leave => Does::ClosesFrame,
        Op::Nop => Does::Rests,
        Op::JumpIfNew => Does::Jumps(When::IfNewTrue),
        Op::JumpIfNotNew => Does::Jumps(When::IfNewFalse),
    }
}

/// Whether an operation calls.
pub fn is_call(op: Op) -> bool
    ensures { result ≡ is_call op }
{
    matches!(does_of(op), Does::Calls)
}

/// Whether it returns.
pub fn is_return(op: Op) -> bool
    ensures { result ≡ is_return op }
{
    matches!(does_of(op), Does::Returns)
}

/// Whether it jumps to a label.
pub fn is_jump(op: Op) -> bool
    ensures { result ≡ is_jump op }
{
    matches!(does_of(op), Does::Jumps(_))
}

/// Whether it leaves its block.
pub fn is_transfer(op: Op) -> bool
    ensures { result ≡ is_transfer op }
{
    matches!(does_of(op), Does::Jumps(_) | Does::Returns)
}

/// Whether it leaves its block always.
pub fn is_leaving(op: Op) -> bool
    ensures { result ≡ is_leaving op }
{
    matches!(does_of(op), Does::Jumps(When::Always) | Does::Returns)
}

/// Whether it compares, and gives a predicate.
pub fn is_compare(op: Op) -> bool
    ensures { result ≡ is_compare op }
{
    matches!(does_of(op), Does::Compares)
}

/// Whether it jumps by a predicate of an earlier packet.
pub fn is_branch(op: Op) -> bool
    ensures { result ≡ is_branch op }
{
    matches!(
        does_of(op),
        Does::Jumps(When::IfTrue) | Does::Jumps(When::IfFalse)
    )
}

/// Whether it jumps by the predicate that a compare of its own packet writes.
pub fn is_new(op: Op) -> bool
    ensures { result ≡ is_new op }
{
    matches!(
        does_of(op),
        Does::Jumps(When::IfNewTrue) | Does::Jumps(When::IfNewFalse)
    )
}
