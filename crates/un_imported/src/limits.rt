//! Whether a function is larger than the input language allows.

use crate::body::Body;
use un_base::lines::lines;
use un_ir::function::{BLOCKS, OPS};

/// How many times as large a function may be before it is made smaller.
const ROOM: usize = 8;

/// Whether so many blocks are too many to begin with.
pub(crate) fn are_far_too_many(blocks: usize) -> bool {
    blocks > ROOM * BLOCKS as usize
}

/// Whether a function has too many operations to be made small enough.
pub(crate) fn is_far_too_large(body: &Body<'_>) -> bool {
    let mut ops: usize = 0;
    for block in &body.blocks {
        ops = ops.saturating_add(block.steps.len());
    }
    ops > ROOM * OPS as usize
}

/// Whether a line of a function is an operation: it neither begins a block nor ends one.
fn is_operation(line: &[u8]) -> bool {
    line.starts_with(b"  ")
        && !line.starts_with(b"  jump ")
        && !line.starts_with(b"  if ")
        && !line.starts_with(b"  ret")
}

/// Whether a function's text has more blocks or operations than the language allows.
pub(crate) fn is_too_large(text: &[u8]) -> bool {
    let mut blocks: u32 = 0;
    let mut ops: u32 = 0;
    for line in lines(text) {
        if line.starts_with(b"block ") {
            blocks = blocks.saturating_add(1);
        } else if is_operation(line) {
            ops = ops.saturating_add(1);
        }
    }
    blocks > BLOCKS || ops > OPS
}
