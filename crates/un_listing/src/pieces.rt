//! Pieces of an instruction's text. Each function appends one to a text, and there is `NoMemory` where it finds no room.

ghost use Rattle.std.specs.Prelude.{◌≡◌, ◌++◌, OnOk, codes};
ghost use Rattle.std.specs.List.{flat_map};
ghost use Rattle.un_listing.specs.Listing.{joined, reg_text, some_reg_text, operand_text, operands_text, literal_text, result_text};
ghost use Rattle.un_listing.specs.Listing.{word_text, label_text};

use un_base::memory_error::NoMemory;
use un_base::name::Name;
use un_ir::text::{put_number, put_signed_number, put_text};
use un_isa::instr::Instr;
use un_isa::reg::{GENERALS, Reg};

/// Appends `#` and the number of an instruction.
pub fn put_literal(out: &mut Vec<u8>, instr: &Instr) -> Result<(), NoMemory>
    ensures { OnOk result (out.new.items ≡ out.old.items ++ literal_text instr.now) }
{
    put_text(out, b"#")?;
    put_signed_number(out, instr.imm)
}

/// Appends a register.
pub(crate) fn put_reg(out: &mut Vec<u8>, reg: Reg) -> Result<(), NoMemory>
    ensures { OnOk result (out.new.items ≡ out.old.items ++ reg_text reg) }
{
    if reg.0 < GENERALS {
        put_text(out, b"r")?;
        put_number(out, u64::from(reg.0))
    } else {
        put_text(out, b"p")?;
        put_number(out, u64::from(reg.0 - GENERALS))
    }
}

/// Appends a register, where there is one.
pub(crate) fn put_some_reg(out: &mut Vec<u8>, reg: Option<Reg>) -> Result<(), NoMemory>
    ensures { OnOk result (out.new.items ≡ out.old.items ++ some_reg_text reg) }
{
    match reg {
        None => Ok(()),
        Some(reg) => put_reg(out, reg),
    }
}

/// Appends the operand at place `k` from 0, where there is one.
pub fn put_operand(out: &mut Vec<u8>, instr: &Instr, k: usize) -> Result<(), NoMemory>
    ensures { OnOk result (out.new.items ≡ out.old.items ++ operand_text instr.now k) }
{
    put_some_reg(out, instr.srcs.as_slice().get(k).copied())
}

/// Appends each register after a comma.
fn put_more_regs(out: &mut Vec<u8>, regs: &[Reg]) -> Result<(), NoMemory>
    ensures { OnOk result
        (out.new.items ≡ out.old.items ++ flat_map (λ r. codes "," ++ reg_text r) regs.now) }
{
    for reg in regs {
        put_text(out, b",")?;
        put_reg(out, *reg)?;
    }
    Ok(())
}

/// Appends registers with commas between them.
fn put_regs(out: &mut Vec<u8>, regs: &[Reg]) -> Result<(), NoMemory>
    ensures { OnOk result (out.new.items ≡ out.old.items ++ joined (codes ",") reg_text regs.now) }
{
    match regs {
        [] => Ok(()),
        [first, rest @ ..] => {
            put_reg(out, *first)?;
            put_more_regs(out, rest)
        }
    }
}

/// Appends all operands between parentheses.
pub fn put_operands(out: &mut Vec<u8>, instr: &Instr) -> Result<(), NoMemory>
    ensures { OnOk result (out.new.items ≡ out.old.items ++ operands_text instr.now) }
{
    put_text(out, b"(")?;
    put_regs(out, instr.srcs.as_slice())?;
    put_text(out, b")")
}

/// Appends the register that an instruction writes, and `=`.
pub fn put_result(out: &mut Vec<u8>, instr: &Instr) -> Result<(), NoMemory>
    ensures { OnOk result (out.new.items ≡ out.old.items ++ result_text instr.now) }
{
    put_some_reg(out, instr.dst)?;
    put_text(out, b" = ")
}

/// Appends the offset of a word, from its `+` on.
fn put_offset(out: &mut Vec<u8>, instr: &Instr) -> Result<(), NoMemory>
    ensures { OnOk result
        (out.new.items ≡ out.old.items ++ (codes "+" ++ literal_text instr.now ++ codes ")")) }
{
    put_text(out, b"+")?;
    put_literal(out, instr)?;
    put_text(out, b")")
}

/// Appends the word at the first operand with the offset of the instruction.
pub fn put_word(out: &mut Vec<u8>, instr: &Instr) -> Result<(), NoMemory>
    ensures { OnOk result
        (out.new.items ≡ out.old.items ++ word_text (operand_text instr.now 0) instr.now) }
{
    put_text(out, b"memw(")?;
    put_operand(out, instr, 0)?;
    put_offset(out, instr)
}

/// Appends the word at the stack pointer with the offset of the instruction.
pub(crate) fn put_frame_word(out: &mut Vec<u8>, instr: &Instr) -> Result<(), NoMemory>
    ensures { OnOk result (out.new.items ≡ out.old.items ++ word_text (codes "r29") instr.now) }
{
    put_text(out, b"memw(r29")?;
    put_offset(out, instr)
}

/// Appends the label of an instruction, where it has one.
pub fn put_label(out: &mut Vec<u8>, label: &Option<Name>) -> Result<(), NoMemory>
    ensures { OnOk result (out.new.items ≡ out.old.items ++ label_text label.now) }
{
    match label {
        None => Ok(()),
        Some(label) => put_text(out, label.as_bytes()),
    }
}
