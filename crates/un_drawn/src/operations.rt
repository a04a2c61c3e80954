//! An operation of a solution in words: its source line, or what a copy does.

use crate::blocks::{Section, Sheet, operation};
use crate::names::{meaning_of, put_meaning_in_words};
use crate::pieces::{put_place, put_texts};
use crate::source::source_line;
use crate::waits::issues_of;
use un_base::ids::{OpId, TempId};
use un_base::memory_error::NoMemory;
use un_ir::extended::ExtKind;
use un_ir::text::put_text;
use un_isa::op::Op;

/// What a copy that issues an instruction does.
fn copy_words(instr: Option<Op>) -> &'static [u8] {
    match instr {
        Some(Op::Spill) => b"spill of ",
        Some(Op::Reload) => b"reload of ",
        _ => b"move of ",
    }
}

/// Appends what a copy does that gives a temporary.
fn put_copy(
    out: &mut Vec<u8>,
    sheet: &Sheet<'_>,
    section: &Section<'_>,
    temp: TempId,
) -> Result<(), NoMemory> {
    let Some(range) = sheet.plan.ranges.as_slice().get(temp.0 as usize) else {
        return Ok(());
    };
    put_text(out, copy_words(range.instr))?;
    put_meaning_in_words(out, sheet, meaning_of(sheet, section, temp))?;
    put_text(out, b" to ")?;
    put_place(out, range.reg)
}

/// Appends an operation that has a line in the text of the function.
fn put_source(
    out: &mut Vec<u8>,
    sheet: &Sheet<'_>,
    section: &Section<'_>,
    place: u32,
) -> Result<(), NoMemory> {
    match source_line(sheet.source, section, place) {
        Some(line) => put_text(out, line),
        None => put_text(out, b"the fall to the next block"),
    }
}

/// Appends the operation at a place of a block.
pub fn put_operation(
    out: &mut Vec<u8>,
    sheet: &Sheet<'_>,
    section: &Section<'_>,
    place: u32,
) -> Result<(), NoMemory> {
    let Some(op) = section.block.ops.as_slice().get(place as usize) else {
        return Ok(());
    };
    match &op.kind {
        ExtKind::Body(_) | ExtKind::End(_) => put_source(out, sheet, section, place),
        ExtKind::In => put_text(out, b"the block's start"),
        ExtKind::Out => put_text(out, b"the block's end"),
        ExtKind::Enter => put_text(out, b"the frame is made"),
        ExtKind::Leave => put_text(out, b"the frame is left"),
        ExtKind::Copy(_) => match op.results.as_slice().first() {
            Some(temp) => put_copy(out, sheet, section, *temp),
            None => Ok(()),
        },
    }
}
