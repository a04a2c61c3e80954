//! The operations and their names in the text of a table.

ghost use Rattle.std.specs.Prelude.{◌≡◌, ◌≢◌, ◌<◌, ◌↔◌, IsTrue, IfSome, IfNone};
ghost use Rattle.un_isa.specs.declared.op.Op.{Op};
ghost use Rattle.un_isa.specs.Tables.{number_of};
ghost use Rattle.un_target.specs.Names.{name_of, IsNamed};

use un_isa::op::{OPERATIONS, Op};

/// All operations, by their numbers.
pub const ALL: [Op; OPERATIONS] = [
    Op::Imm,
    Op::Mov,
    Op::Add,
    Op::Sub,
    Op::And,
    Op::Or,
    Op::Xor,
    Op::Addi,
    Op::Andi,
    Op::Ori,
    Op::Mux,
    Op::CmpEq,
    Op::CmpGt,
    Op::CmpGtu,
    Op::CmpEqi,
    Op::CmpGti,
    Op::Mpyi,
    Op::Asl,
    Op::Asr,
    Op::Lsr,
    Op::Load,
    Op::Store,
    Op::Call,
    Op::Jump,
    Op::JumpIf,
    Op::JumpIfNot,
    Op::Jumpr,
    Op::Spill,
    Op::Reload,
    Op::P2R,
    Op::R2P,
    Op::Enter,
    Op::Leave,
    Op::Nop,
    Op::JumpIfNew,
    Op::JumpIfNotNew,
];

/// The operation of a number.
pub fn op_at(number: usize) -> Op
    requires { number < OPERATIONS }
    ensures { number_of result ≡ number }
{
    ALL[number]
}

/// The name of an operation.
pub fn name(op: Op) -> &'static str
    ensures { result.now ≡ name_of op }
{
    match op {
        Op::Imm => "Imm",
        Op::Mov => "Mov",
        Op::Add => "Add",
        Op::Sub => "Sub",
        Op::And => "And",
        Op::Or => "Or",
        Op::Xor => "Xor",
        Op::Addi => "Addi",
        Op::Andi => "Andi",
        Op::Ori => "Ori",
        Op::Mux => "Mux",
        Op::CmpEq => "CmpEq",
        Op::CmpGt => "CmpGt",
        Op::CmpGtu => "CmpGtu",
        Op::CmpEqi => "CmpEqi",
        Op::CmpGti => "CmpGti",
        Op::Mpyi => "Mpyi",
        Op::Asl => "Asl",
        Op::Asr => "Asr",
        Op::Lsr => "Lsr",
        Op::Load => "Load",
        Op::Store => "Store",
        Op::Call => "Call",
        Op::Jump => "Jump",
        Op::JumpIf => "JumpIf",
        Op::JumpIfNot => "JumpIfNot",
        Op::Jumpr => "Jumpr",
        Op::Spill => "Spill",
        Op::Reload => "Reload",
        Op::P2R => "P2R",
        Op::R2P => "R2P",
        Op::Enter => "Enter",
        Op::Leave => "Leave",
        Op::Nop => "Nop",
        Op::JumpIfNew => "JumpIfNew",
        Op::JumpIfNotNew => "JumpIfNotNew",
    }
}

/// The operation of this name. It takes no memory.
pub fn op_named(text: &str) -> Option<Op>
    ensures some { IfSome result (λ op. text.now ≡ name_of op) }
    ensures none { IfNone result ((op : Op) → text.now ≢ name_of op) }
{
    for number in 0..OPERATIONS {
        let op = op_at(number);
        if name(op) == text {
            return Some(op);
        }
    }
    None
}

/// Whether a text is the name of an operation. It takes no memory.
pub fn is_named(text: &str) -> bool
    ensures { IsTrue result ↔ IsNamed text.now }
{
    op_named(text).is_some()
}
