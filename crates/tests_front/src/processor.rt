//! Values of the processor's tables and functions.

use crate::listings::put_truth;
use crate::rows::number;
use std::alloc::Global;
use un_base::memory_error::NoMemory;
use un_ir::text::{put_number, put_text};
use un_isa::alu::eval_alu;
use un_isa::facts::{Range, is_in_range};
use un_isa::memory::Memory;
use un_isa::op::Op;
use un_isa::reg_set::{RegSet, callee_saved};
use un_isa::table::{hexagon, latency};

/// The range of a question.
fn range(question: &[u8]) -> Range {
    match question.last() {
        Some(b'6') => Range::Signed16,
        Some(b'0') => Range::Signed10,
        Some(b'5') => Range::Unsigned5,
        Some(b'y') => Range::Offset,
        _ => Range::FrameOffset,
    }
}

/// The number of a text, which may have a sign.
fn literal(text: &[u8]) -> i32 {
    let size = number(text.strip_prefix(b"-").unwrap_or(text)).min(65535) as i32;
    if text.starts_with(b"-") { -size } else { size }
}

/// Appends whether a number is in a range.
pub(crate) fn put_in_range(
    out: &mut Vec<u8>,
    text: &[u8],
    question: &[u8],
) -> Result<(), NoMemory> {
    put_truth(out, is_in_range(range(question), literal(text)))
}

/// Whether a set has what was put in, and nothing else.
fn set_contains() -> bool {
    let mut set = RegSet::empty();
    set.insert(31);
    set.contains(31) && !set.contains(30)
}

/// Whether writes at the addresses of a memory alone are kept.
fn keeps_words(memory: &mut Memory) -> bool {
    memory.set(12, 9);
    memory.set(8, 1);
    memory.get(4) == Some(7) && memory.get(8) == None && memory.get(12) == Some(9)
}

/// Appends whether a memory of two words keeps writes.
pub(crate) fn put_memory(alloc: Global, out: &mut Vec<u8>) -> Result<(), NoMemory> {
    let words = [(4, 7), (12, 8)].to_vec(alloc)?;
    match Memory::new(words) {
        Some(mut memory) => put_truth(out, keeps_words(&mut memory)),
        None => put_text(out, b"none"),
    }
}

/// Appends how many registers calls keep.
pub(crate) fn put_saved(alloc: Global, out: &mut Vec<u8>) -> Result<(), NoMemory> {
    let saved = callee_saved(alloc, &hexagon())?;
    put_number(out, saved.len() as u64)
}

/// Whether operations compute and wait as they do, and sets contain what was put in.
pub(crate) fn computes() -> bool {
    let subtracts = eval_alu(Op::Sub, &[1, 2], 0) == 4294967295;
    subtracts && latency(&hexagon(), Op::Load) == 2 && set_contains()
}
