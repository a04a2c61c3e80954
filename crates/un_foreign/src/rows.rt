//! The table of a comparison: a row for each block.

use crate::listing::{Listing, label_of};
use crate::matched::Matched;
use std::alloc::Global;
use un_base::memory_error::NoMemory;
use un_ir::function::{Block, Function};
use un_ir::text::{put_number, put_text};

/// What a comparison is made of.
#[derive(Drop)]
pub struct Sheet<'a> {
    pub f: &'a Function,
    pub listing: &'a Listing<'a>,
    pub matched: &'a Matched,
    /// How many cycles the packets of each block of the listing wait.
    pub waits: &'a [u64],
    /// How many packets each block of the function has in this project's code; none where it has none.
    pub best: &'a [Option<u64>],
    /// How many packets each block of the function has in any code of the subset, at least.
    pub least: &'a [u64],
}

/// What the listing costs.
#[derive(Clone, Copy)]
pub struct Sum {
    /// The cost of the blocks that have a frequency.
    pub cost: u64,
    /// How many packets and waits are in blocks that have none.
    pub uncounted: u64,
}

/// The figures of a row; what is not known is a dash.
#[derive(Clone, Copy)]
struct Row {
    freq: Option<u64>,
    packets: Option<u64>,
    waits: Option<u64>,
    best: Option<u64>,
    least: Option<u64>,
}

/// The widths of the columns behind the first.
const WIDTH: usize = 10;

/// Appends blanks up to a width.
fn put_blanks(out: &mut Vec<u8>, width: usize, taken: usize) -> Result<(), NoMemory> {
    for _blank in 0..width.saturating_sub(taken) {
        put_text(out, b" ")?;
    }
    Ok(())
}

/// Appends a text at the right of a column.
fn put_cell(out: &mut Vec<u8>, text: &[u8]) -> Result<(), NoMemory> {
    put_blanks(out, WIDTH, text.len())?;
    put_text(out, text)
}

/// Appends a number at the right of a column, or a dash.
fn put_figure(alloc: Global, out: &mut Vec<u8>, number: Option<u64>) -> Result<(), NoMemory> {
    let Some(number) = number else {
        return put_cell(out, b"-");
    };
    let mut text = Vec::new(alloc);
    put_number(&mut text, number)?;
    put_cell(out, text.as_slice())
}

/// Appends the figures of a row, and ends it.
fn put_figures(alloc: Global, out: &mut Vec<u8>, row: &Row) -> Result<(), NoMemory> {
    for figure in [row.freq, row.packets, row.waits, row.best, row.least] {
        put_figure(alloc, out, figure)?;
    }
    put_text(out, b"\n")
}

/// Appends the name of a row at the left of its column.
fn put_name(out: &mut Vec<u8>, name: &[u8], width: usize) -> Result<(), NoMemory> {
    put_text(out, name)?;
    put_blanks(out, width, name.len())
}

/// How many packets a block of the listing has.
pub fn packets_in(listing: &Listing<'_>, block: u32) -> u64 {
    let mut count: u64 = 0;
    for listed in listing.packets.as_slice() {
        if listed.block == block {
            count = count.saturating_add(1);
        }
    }
    count
}

/// How many packets this project's code has in the block of the function at a place.
fn best_of(sheet: &Sheet<'_>, place: usize) -> Option<u64> {
    sheet.best.get(place).copied().flatten()
}

/// The block of the function that one of the listing is.
fn own<'a>(sheet: &Sheet<'a>, block: u32) -> Option<(usize, &'a Block)> {
    let place = (*sheet.matched.blocks.as_slice().get(block as usize)?)?;
    let own = sheet.f.blocks.as_slice().get(place)?;
    Some((place, own))
}

/// The row of a block of the listing.
fn row_of(sheet: &Sheet<'_>, block: u32) -> Row {
    let packets = Some(packets_in(sheet.listing, block));
    let waits = sheet.waits.get(block as usize).copied();
    match own(sheet, block) {
        Some((place, own)) => Row {
            freq: Some(u64::from(own.freq)),
            packets,
            waits,
            best: best_of(sheet, place),
            least: sheet.least.get(place).copied(),
        },
        None => Row {
            freq: None,
            packets,
            waits,
            best: None,
            least: None,
        },
    }
}

/// The row of a block of the function that the listing has not.
fn row_without(sheet: &Sheet<'_>, place: usize, own: &Block) -> Row {
    Row {
        freq: Some(u64::from(own.freq)),
        packets: None,
        waits: None,
        best: best_of(sheet, place),
        least: sheet.least.get(place).copied(),
    }
}

/// The name of a block of the listing: its label, or that of the function's block that it is.
fn name_of<'a>(sheet: &Sheet<'a>, block: u32) -> &'a [u8] {
    match label_of(sheet.listing, block) {
        Some(label) => label,
        None => match own(sheet, block) {
            Some((_, own)) => own.label.as_bytes(),
            None => b"(none)",
        },
    }
}

/// How wide the column of names is.
fn name_width(sheet: &Sheet<'_>) -> usize {
    let mut width = 5;
    for block in 0..sheet.listing.blocks {
        width = name_of(sheet, block).len().max(width);
    }
    for block in sheet.f.blocks.as_slice() {
        width = block.label.as_bytes().len().max(width);
    }
    width
}

/// The sum with a row.
fn with_row(sum: Sum, row: &Row) -> Sum {
    let packets = row.packets.unwrap_or(0);
    let cycles = packets.saturating_add(row.waits.unwrap_or(0));
    match row.freq {
        Some(freq) => Sum {
            cost: sum.cost.saturating_add(freq.saturating_mul(cycles)),
            uncounted: sum.uncounted,
        },
        None => Sum {
            cost: sum.cost,
            uncounted: sum.uncounted.saturating_add(cycles),
        },
    }
}

/// Appends the heads of the columns.
fn put_heads(out: &mut Vec<u8>, width: usize) -> Result<(), NoMemory> {
    put_name(out, b"block", width)?;
    for head in ["freq", "packets", "waits", "best here", "at least"] {
        put_cell(out, head.as_bytes())?;
    }
    put_text(out, b"\n")
}

/// Whether a block of the listing is this one of the function.
fn is_matched(sheet: &Sheet<'_>, place: usize) -> bool {
    sheet
        .matched
        .blocks
        .as_slice()
        .iter()
        .any(|block| *block == Some(place))
}

/// Appends the rows of the function's blocks that the listing has not.
fn put_missing(
    alloc: Global,
    out: &mut Vec<u8>,
    sheet: &Sheet<'_>,
    width: usize,
) -> Result<(), NoMemory> {
    for (place, own) in sheet.f.blocks.as_slice().iter().enumerate() {
        if !is_matched(sheet, place) {
            put_name(out, own.label.as_bytes(), width)?;
            put_figures(alloc, out, &row_without(sheet, place, own))?;
        }
    }
    Ok(())
}

/// Appends the table, and answers what the listing costs.
pub fn put_table(alloc: Global, out: &mut Vec<u8>, sheet: &Sheet<'_>) -> Result<Sum, NoMemory> {
    let width = name_width(sheet);
    put_heads(out, width)?;
    let mut sum = Sum {
        cost: 0,
        uncounted: 0,
    };
    for block in 0..sheet.listing.blocks {
        let row = row_of(sheet, block);
        put_name(out, name_of(sheet, block), width)?;
        put_figures(alloc, out, &row)?;
        sum = with_row(sum, &row);
    }
    put_missing(alloc, out, sheet, width)?;
    Ok(sum)
}
