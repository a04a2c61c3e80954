//! Pieces of the texts: several pieces at once, registers and slots, and blanks up to a width.

use un_base::memory_error::NoMemory;
use un_ir::text::{put_number, put_text};
use un_isa::reg::{FIRST_SLOT, GENERALS, Space, space_of};

/// Appends texts, one after the other.
pub fn put_texts(out: &mut Vec<u8>, texts: &[&[u8]]) -> Result<(), NoMemory> {
    for text in texts {
        put_text(out, text)?;
    }
    Ok(())
}

/// Appends numbers, each behind a text.
pub fn put_numbers(out: &mut Vec<u8>, numbers: &[(&[u8], u64)]) -> Result<(), NoMemory> {
    for (before, n) in numbers {
        put_text(out, before)?;
        put_number(out, *n)?;
    }
    Ok(())
}

/// Appends blanks, until the text is so many bytes longer than it was at `start`.
pub(crate) fn pad(out: &mut Vec<u8>, start: usize, width: usize) -> Result<(), NoMemory> {
    let written = out.len().saturating_sub(start);
    for _ in 0..width.saturating_sub(written) {
        put_text(out, b" ")?;
    }
    Ok(())
}

/// Appends a register, or a frame slot with its number.
pub fn put_place(out: &mut Vec<u8>, reg: u32) -> Result<(), NoMemory> {
    let (word, first): (&[u8], u32) = match space_of(reg) {
        Space::R => (b"r", 0),
        Space::P => (b"p", GENERALS),
        Space::M => (b"slot", FIRST_SLOT),
    };
    put_text(out, word)?;
    put_number(out, u64::from(reg.saturating_sub(first)))
}

/// Appends a register, or a frame slot with its number, as it stands above a column: in three bytes at most.
pub(crate) fn put_column_name(out: &mut Vec<u8>, reg: u32) -> Result<(), NoMemory> {
    match space_of(reg) {
        Space::M => {
            put_text(out, b"s")?;
            put_number(out, u64::from(reg.saturating_sub(FIRST_SLOT)))
        }
        _ => put_place(out, reg),
    }
}

/// Appends what share of a whole a part is, in hundredths with one place behind the point, rounded.
pub(crate) fn put_share(out: &mut Vec<u8>, part: u64, whole: u64) -> Result<(), NoMemory> {
    let whole = whole.max(1);
    let share = part.saturating_mul(1000).saturating_add(whole / 2) / whole;
    put_number(out, share / 10)?;
    put_text(out, b".")?;
    put_number(out, share % 10)?;
    put_text(out, b" %")
}
