//! What the tables say of each operation, as functions of the operation.

ghost use Rattle.std.specs.Prelude.{◌≡◌, ◌↔◌, IsTrue};
ghost use Rattle.un_isa.specs.Facts.{class_of, latency_by, operand_spaces, operand_space, result_space, literal_range, is_source};
ghost use Rattle.un_isa.specs.Facts.{source_name, printed_name};
ghost use Rattle.un_isa.specs.Operands.{InRange};

use crate::op::Op;
use crate::reg::Space;

/// The classes of instructions. Nop has none.
#[derive(Clone, Copy, PartialEq)]
pub enum Class {
    Alu32,
    Xtype,
    Loading,
    Storing,
    Control,
    Nothing,
}

/// The ranges of literals.
#[derive(Clone, Copy, PartialEq)]
pub enum Range {
    /// -32768 to 32767.
    Signed16,
    /// -512 to 511.
    Signed10,
    /// 0 to 31.
    Unsigned5,
    /// The multiples of 4 from -4096 to 4092.
    Offset,
    /// The multiples of 4 from 0 to 4092.
    FrameOffset,
}

/// The class of an operation.
pub fn class_of(op: Op) -> Class
    ensures { result ≡ class_of op }
{
    match op {
        Op::Imm | Op::Mov | Op::Add | Op::Sub | Op::And | Op::Or | Op::Xor => Class::Alu32,
        Op::Addi | Op::Andi | Op::Ori | Op::Mux => Class::Alu32,
        Op::CmpEq | Op::CmpGt | Op::CmpGtu | Op::CmpEqi | Op::CmpGti => Class::Alu32,
        Op::Enter | Op::Leave => Class::Alu32,
        Op::Mpyi | Op::Asl | Op::Asr | Op::Lsr | Op::P2R | Op::R2P => Class::Xtype,
        Op::Load | Op::Reload => Class::Loading,
        Op::Store | Op::Spill => Class::Storing,
        Op::Call | Op::Jump | Op::JumpIf | Op::JumpIfNot | Op::Jumpr => Class::Control,
        Op::JumpIfNew | Op::JumpIfNotNew => Class::Control,
        Op::Nop => Class::Nothing,
    }
}

/// The spaces of the operands in order. Those of a Call depend on its callee, and are not listed.
pub fn operand_spaces(op: Op) -> &'static [Space]
    ensures { result.now ≡ operand_spaces op }
{
    match op {
        Op::Imm | Op::Call | Op::Jump | Op::Reload | Op::Enter | Op::Leave | Op::Nop => &[],
        Op::Mov | Op::Addi | Op::Andi | Op::Ori | Op::CmpEqi | Op::CmpGti => &[Space::R],
        Op::Asl | Op::Asr | Op::Lsr | Op::Load | Op::Jumpr | Op::Spill | Op::R2P => &[Space::R],
        Op::JumpIf | Op::JumpIfNot | Op::JumpIfNew | Op::JumpIfNotNew | Op::P2R => &[Space::P],
        Op::Add | Op::Sub | Op::And | Op::Or | Op::Xor | Op::Mpyi => &[Space::R, Space::R],
        Op::CmpEq | Op::CmpGt | Op::CmpGtu | Op::Store => &[Space::R, Space::R],
        Op::Mux => &[Space::P, Space::R, Space::R],
    }
}

/// The space of the operand at place `j`, from 0, where there is one. A Call has any number of general registers.
pub fn operand_space(op: Op, j: usize) -> Option<Space>
    ensures { result ≡ operand_space op j }
{
    match op {
        Op::Call => Some(Space::R),
        _ => operand_spaces(op).get(j).copied(),
    }
}

/// The space of the result, where there is one. That of a Call is in the table's register for results.
pub fn result_space(op: Op) -> Option<Space>
    ensures { result ≡ result_space op }
{
    match op {
        Op::Imm | Op::Mov | Op::Add | Op::Sub | Op::And | Op::Or | Op::Xor => Some(Space::R),
        Op::Addi | Op::Andi | Op::Ori | Op::Mux | Op::Mpyi => Some(Space::R),
        Op::Asl | Op::Asr | Op::Lsr | Op::Load | Op::Call => Some(Space::R),
        Op::Reload | Op::P2R => Some(Space::R),
        Op::CmpEq | Op::CmpGt | Op::CmpGtu | Op::CmpEqi | Op::CmpGti => Some(Space::P),
        Op::R2P => Some(Space::P),
        Op::Store | Op::Jump | Op::JumpIf | Op::JumpIfNot | Op::Jumpr => None,
        Op::JumpIfNew | Op::JumpIfNotNew => None,
        Op::Spill | Op::Enter | Op::Leave | Op::Nop => None,
    }
}

/// The range of the literal, where there is one. The number of an Enter and of a Leave is the size of the frame.
pub fn literal_range(op: Op) -> Option<Range>
    ensures { result ≡ literal_range op }
{
    match op {
        Op::Imm | Op::Addi => Some(Range::Signed16),
        Op::Andi | Op::Ori | Op::CmpEqi | Op::CmpGti => Some(Range::Signed10),
        Op::Asl | Op::Asr | Op::Lsr => Some(Range::Unsigned5),
        Op::Load | Op::Store => Some(Range::Offset),
        Op::Spill | Op::Reload => Some(Range::FrameOffset),
        Op::Mov | Op::Add | Op::Sub | Op::And | Op::Or | Op::Xor | Op::Mux => None,
        Op::CmpEq | Op::CmpGt | Op::CmpGtu | Op::Mpyi | Op::P2R | Op::R2P => None,
        Op::Call | Op::Jump | Op::JumpIf | Op::JumpIfNot | Op::Jumpr => None,
        Op::JumpIfNew | Op::JumpIfNotNew => None,
        Op::Enter | Op::Leave | Op::Nop => None,
    }
}

/// Whether a number is in a range.
pub fn is_in_range(range: Range, n: i32) -> bool
    ensures { IsTrue result ↔ (InRange range n) }
{
    match range {
        Range::Signed16 => -32768 <= n && n <= 32767,
        Range::Signed10 => -512 <= n && n <= 511,
        Range::Unsigned5 => 0 <= n && n <= 31,
        Range::Offset => -4096 <= n && n <= 4092 && n.rem_euclid(4) == 0,
        Range::FrameOffset => 0 <= n && n <= 4092 && n.rem_euclid(4) == 0,
    }
}

/// The word of an operation in the text of a function, the empty text where it does not stand there as an operation.
pub fn source_name(op: Op) -> &'static [u8]
    ensures { result.now ≡ source_name op }
{
    match op {
        Op::Imm => b"imm",
        Op::Mov => b"mov",
        Op::Add => b"add",
        Op::Sub => b"sub",
        Op::And => b"and",
        Op::Or => b"or",
        Op::Xor => b"xor",
        Op::Addi => b"addi",
        Op::Andi => b"andi",
        Op::Ori => b"ori",
        Op::Mux => b"mux",
        Op::CmpEq => b"cmpeq",
        Op::CmpGt => b"cmpgt",
        Op::CmpGtu => b"cmpgtu",
        Op::CmpEqi => b"cmpeqi",
        Op::CmpGti => b"cmpgti",
        Op::Mpyi => b"mpyi",
        Op::Asl => b"asl",
        Op::Asr => b"asr",
        Op::Lsr => b"lsr",
        Op::Load => b"load",
        Op::Store => b"store",
        Op::Call => b"call",
        Op::Jump | Op::JumpIf | Op::JumpIfNot | Op::Jumpr | Op::Spill | Op::Reload => b"",
        Op::P2R | Op::R2P | Op::Enter | Op::Leave | Op::Nop => b"",
        Op::JumpIfNew | Op::JumpIfNotNew => b"",
    }
}

/// The word of an operation as it is printed, the empty text where it is printed without one.
pub fn printed_name(op: Op) -> &'static [u8]
    ensures { result.now ≡ printed_name op }
{
    match op {
        Op::Imm | Op::Mov | Op::P2R | Op::R2P => b"",
        Op::Add | Op::Addi | Op::Enter | Op::Leave => b"add",
        Op::Sub => b"sub",
        Op::And | Op::Andi => b"and",
        Op::Or | Op::Ori => b"or",
        Op::Xor => b"xor",
        Op::Mux => b"mux",
        Op::CmpEq | Op::CmpEqi => b"cmp.eq",
        Op::CmpGt | Op::CmpGti => b"cmp.gt",
        Op::CmpGtu => b"cmp.gtu",
        Op::Mpyi => b"mpyi",
        Op::Asl => b"asl",
        Op::Asr => b"asr",
        Op::Lsr => b"lsr",
        Op::Load | Op::Store | Op::Spill | Op::Reload => b"memw",
        Op::Call => b"call",
        Op::Jump | Op::JumpIf | Op::JumpIfNot | Op::JumpIfNew | Op::JumpIfNotNew => b"jump",
        Op::Jumpr => b"jumpr",
        Op::Nop => b"nop",
    }
}
