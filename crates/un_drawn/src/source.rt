//! The lines of a function's text, by block and operation.

use crate::blocks::Section;
use un_base::lines::lines;
use un_ir::extended::{ExtKind, ExtOp};

/// Whether an operation stands in the text of its function.
fn is_in_text(op: &ExtOp) -> bool {
    matches!(&op.kind, ExtKind::Body(_) | ExtKind::End(_))
}

/// How many operations of a block's text stand before a place of its extended block.
fn before(section: &Section<'_>, place: u32) -> u32 {
    let mut count: u32 = 0;
    for op in section.block.ops.as_slice().iter().take(place as usize) {
        if is_in_text(op) {
            count = count.saturating_add(1);
        }
    }
    count
}

/// The line of a block's text behind so many others; none where it has no more lines.
fn nth_line(text: &[u8], block: u32, n: u32) -> Option<&[u8]> {
    let own = block.saturating_add(1);
    let mut blocks: u32 = 0;
    let mut left = n;
    for line in lines(text) {
        if line.starts_with(b"block ") {
            blocks = blocks.saturating_add(1);
        } else if blocks == own {
            if left == 0 {
                return Some(line);
            }
            left -= 1;
        }
    }
    None
}

/// The line of the operation at a place of an extended block, in the text of its function as the printer writes it, without the blanks
/// before it; none where it has no line of its own.
pub(crate) fn source_line<'a>(
    text: &'a [u8],
    section: &Section<'_>,
    place: u32,
) -> Option<&'a [u8]> {
    let line = nth_line(text, section.number, before(section, place))?;
    line.strip_prefix(b"  ")
}
