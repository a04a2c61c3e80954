//! Code as text.

ghost use Rattle.std.specs.Prelude.{◌≡◌, ◌++◌, OnOk, IfOk, codes, map};
ghost use Rattle.std.specs.List.{flat_map};
ghost use Rattle.un_base.specs.Lines.{joined_lines};
ghost use Rattle.un_listing.specs.Listing.{joined, operand_text, label_text, instr_text, text_in, packet_line, block_lines, code_text};

use crate::form::{Form, form_of};
use crate::pieces::{
    put_frame_word, put_label, put_literal, put_operand, put_operands, put_result, put_word,
};
use std::alloc::Global;
use un_base::memory_error::NoMemory;
use un_ir::text::{put_number, put_text};
use un_isa::facts::printed_name;
use un_isa::instr::Instr;
use un_packet::code::{Code, CodeBlock, Packet};

/// Appends an instruction of the form `rD = add(rA,rB)`.
fn put_computed(out: &mut Vec<u8>, instr: &Instr) -> Result<(), NoMemory>
    ensures { OnOk result (out.new.items ≡ out.old.items ++ text_in Form.Computed instr.now) }
{
    put_result(out, instr)?;
    put_text(out, printed_name(instr.op))?;
    put_operands(out, instr)
}

/// Appends an instruction of the form `rD = add(rA,#n)`.
fn put_with_literal(out: &mut Vec<u8>, instr: &Instr) -> Result<(), NoMemory>
    ensures { OnOk result (out.new.items ≡ out.old.items ++ text_in Form.WithLiteral instr.now) }
{
    put_result(out, instr)?;
    put_text(out, printed_name(instr.op))?;
    put_text(out, b"(")?;
    put_operand(out, instr, 0)?;
    put_text(out, b",")?;
    put_literal(out, instr)?;
    put_text(out, b")")
}

/// Appends an instruction of the form `memw(rA+#n) = rB`.
fn put_stored(out: &mut Vec<u8>, instr: &Instr) -> Result<(), NoMemory>
    ensures { OnOk result (out.new.items ≡ out.old.items ++ text_in Form.Stored instr.now) }
{
    put_word(out, instr)?;
    put_text(out, b" = ")?;
    put_operand(out, instr, 1)
}

/// Appends an instruction of the form `memw(r29+#n) = rA`.
fn put_spilled(out: &mut Vec<u8>, instr: &Instr) -> Result<(), NoMemory>
    ensures { OnOk result (out.new.items ≡ out.old.items ++ text_in Form.Spilled instr.now) }
{
    put_frame_word(out, instr)?;
    put_text(out, b" = ")?;
    put_operand(out, instr, 0)
}

/// Appends an instruction of the form `r29 = add(r29,#n)`.
fn put_stack_moved(out: &mut Vec<u8>, instr: &Instr) -> Result<(), NoMemory>
    ensures { OnOk result (out.new.items ≡ out.old.items ++ text_in Form.StackMoved instr.now) }
{
    put_text(out, b"r29 = add(r29,")?;
    put_literal(out, instr)?;
    put_text(out, b")")
}

/// Appends an instruction of the form `call L(r0,r1)`.
fn put_called(out: &mut Vec<u8>, instr: &Instr) -> Result<(), NoMemory>
    ensures { OnOk result (out.new.items ≡ out.old.items ++ text_in Form.Called instr.now) }
{
    put_text(out, b"call ")?;
    put_label(out, &instr.label)?;
    put_operands(out, instr)
}

/// Appends an instruction of the form `if (pA) jump L`, with `start` before the predicate and `end` between it and the label.
fn put_jumped_if(out: &mut Vec<u8>, start: &[u8], end: &[u8], instr: &Instr) -> Result<(), NoMemory>
    ensures { OnOk result (out.new.items ≡ out.old.items
        ++ (start.now ++ operand_text instr.now 0 ++ end.now ++ label_text instr.now.label)) }
{
    put_text(out, start)?;
    put_operand(out, instr, 0)?;
    put_text(out, end)?;
    put_label(out, &instr.label)
}

/// Appends an instruction.
fn put_instr(out: &mut Vec<u8>, instr: &Instr) -> Result<(), NoMemory>
    ensures { OnOk result (out.new.items ≡ out.old.items ++ instr_text instr.now) }
{
    match form_of(instr.op) {
        Form::Literal => {
            put_result(out, instr)?;
            put_literal(out, instr)
        }
        Form::Copied => {
            put_result(out, instr)?;
            put_operand(out, instr, 0)
        }
        Form::Computed => put_computed(out, instr),
        Form::WithLiteral => put_with_literal(out, instr),
        Form::Loaded => {
            put_result(out, instr)?;
            put_word(out, instr)
        }
        Form::Stored => put_stored(out, instr),
        Form::Reloaded => {
            put_result(out, instr)?;
            put_frame_word(out, instr)
        }
        Form::Spilled => put_spilled(out, instr),
        Form::StackMoved => put_stack_moved(out, instr),
        Form::Called => put_called(out, instr),
        Form::Jumped => {
            put_text(out, b"jump ")?;
            put_label(out, &instr.label)
        }
        Form::JumpedIf => put_jumped_if(out, b"if (", b") jump ", instr),
        Form::JumpedIfNot => put_jumped_if(out, b"if (!", b") jump ", instr),
        Form::JumpedIfNew => put_jumped_if(out, b"if (", b".new) jump ", instr),
        Form::JumpedIfNotNew => put_jumped_if(out, b"if (!", b".new) jump ", instr),
        Form::Returned => {
            put_text(out, b"jumpr ")?;
            put_operand(out, instr, 0)
        }
        Form::Idle => put_text(out, b"nop"),
    }
}

/// Appends each instruction after a semicolon.
fn put_more_instrs(out: &mut Vec<u8>, instrs: &[Instr]) -> Result<(), NoMemory>
    ensures { OnOk result
        (out.new.items ≡ out.old.items ++ flat_map (λ i. codes "; " ++ instr_text i) instrs.now) }
{
    for instr in instrs {
        put_text(out, b"; ")?;
        put_instr(out, instr)?;
    }
    Ok(())
}

/// Appends instructions with semicolons between them.
fn put_instrs(out: &mut Vec<u8>, instrs: &[Instr]) -> Result<(), NoMemory>
    ensures { OnOk result
        (out.new.items ≡ out.old.items ++ joined (codes "; ") instr_text instrs.now) }
{
    match instrs {
        [] => Ok(()),
        [first, rest @ ..] => {
            put_instr(out, first)?;
            put_more_instrs(out, rest)
        }
    }
}

/// Appends the line of a packet.
pub fn put_packet(out: &mut Vec<u8>, packet: &Packet) -> Result<(), NoMemory>
    ensures { OnOk result (out.new.items ≡ out.old.items ++ (packet_line packet.now ++ codes "\n")) }
{
    put_text(out, b"{ ")?;
    put_instrs(out, packet.instrs.as_slice())?;
    put_text(out, b" }\n")
}

/// Appends the lines of packets.
fn put_packets(out: &mut Vec<u8>, packets: &[Packet]) -> Result<(), NoMemory>
    ensures { OnOk result
        (out.new.items ≡ out.old.items ++ joined_lines (map packet_line packets.now)) }
{
    for packet in packets {
        put_packet(out, packet)?;
    }
    Ok(())
}

/// Appends the lines of a block.
fn put_block(out: &mut Vec<u8>, block: &CodeBlock) -> Result<(), NoMemory>
    ensures { OnOk result (out.new.items ≡ out.old.items ++ joined_lines (block_lines block.now)) }
{
    put_text(out, b"block ")?;
    put_text(out, block.label.as_bytes())?;
    put_text(out, b"\n")?;
    put_packets(out, block.packets.as_slice())
}

/// Appends the lines of blocks.
fn put_blocks(out: &mut Vec<u8>, blocks: &[CodeBlock]) -> Result<(), NoMemory>
    ensures { OnOk result
        (out.new.items ≡ out.old.items ++ joined_lines (flat_map block_lines blocks.now)) }
{
    for block in blocks {
        put_block(out, block)?;
    }
    Ok(())
}

/// Appends the listing of code.
pub(crate) fn put_code(out: &mut Vec<u8>, c: &Code) -> Result<(), NoMemory>
    ensures { OnOk result (out.new.items ≡ out.old.items ++ code_text c.now) }
{
    put_text(out, b"frame ")?;
    put_number(out, u64::from(c.frame))?;
    put_text(out, b"\n")?;
    put_blocks(out, c.blocks.as_slice())
}

/// The listing of code: `frame` with the size of its frame in bytes, then for each block `block` with its label, and a
/// line for each packet, its instructions between braces and with semicolons between them.
///
/// # Errors
/// `NoMemory` where there is no memory for the text.
pub fn print_code(alloc: Global, c: &Code) -> Result<Vec<u8>, NoMemory>
    ensures { IfOk result (λ text. text.items ≡ code_text c.now) }
{
    let mut out = Vec::new(alloc);
    put_code(&mut out, c)?;
    Ok(out)
}
