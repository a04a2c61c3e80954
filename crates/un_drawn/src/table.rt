//! A solution as tables: a row for each cycle, a column for each register and slot in use.

use crate::bars::{Bar, Column, KEY, bar_at, bars, columns, put_label};
use crate::blocks::{Section, Sheet, packet};
use crate::cause::least_packets;
use crate::panels::{Panel, is_shown, panels};
use crate::pieces::{pad, put_column_name, put_numbers, put_texts};
use std::alloc::Global;
use un_base::memory_error::NoMemory;
use un_ir::text::{put_number, put_text};
use un_listing::print::put_packet;

/// Appends what is said of a block above its table.
pub fn put_head(out: &mut Vec<u8>, section: &Section<'_>, least: u32) -> Result<(), NoMemory> {
    put_texts(out, &[b"block ", section.block.label.as_bytes()])?;
    put_numbers(
        out,
        &[
            (b": freq ", u64::from(section.block.freq)),
            (b", length ", u64::from(section.length)),
            (b", at least ", u64::from(least)),
        ],
    )
}

/// Appends a cycle, so that the numbers of a column end in one place.
fn put_cycle(out: &mut Vec<u8>, cycle: u32) -> Result<(), NoMemory> {
    let blanks: &[u8] = if cycle < 10 {
        b"    "
    } else if cycle < 100 {
        b"   "
    } else {
        b"  "
    };
    put_text(out, blanks)?;
    put_number(out, u64::from(cycle))
}

/// Appends what a register or slot has in a cycle: a label where a bar begins, and below it a stroke as far as it goes.
fn put_cell(
    out: &mut Vec<u8>,
    sheet: &Sheet<'_>,
    bars: &[Bar],
    column: &Column,
    cycle: u32,
) -> Result<(), NoMemory> {
    put_text(out, b"  ")?;
    let start = out.len();
    match bar_at(bars, column.reg, cycle) {
        None => put_text(out, b".")?,
        Some(bar) => {
            if bar.from == cycle {
                put_label(out, sheet, &bar)?;
            } else {
                put_text(out, b"|")?;
            }
        }
    }
    pad(out, start, column.width)
}

/// Appends the packet of a cycle, and what stands there in place of one.
fn put_issued(
    out: &mut Vec<u8>,
    sheet: &Sheet<'_>,
    section: &Section<'_>,
    cycle: u32,
) -> Result<(), NoMemory> {
    put_text(out, b"  ")?;
    match packet(sheet, section, cycle) {
        Some(packet) => put_packet(out, packet),
        None => put_text(out, b"at the block's start\n"),
    }
}

/// Appends the row of a cycle.
fn put_row(
    out: &mut Vec<u8>,
    sheet: &Sheet<'_>,
    section: &Section<'_>,
    bars: &[Bar],
    panel: Panel<'_>,
    cycle: u32,
) -> Result<(), NoMemory> {
    put_cycle(out, cycle)?;
    for column in panel.columns {
        put_cell(out, sheet, bars, column, cycle)?;
    }
    if panel.has_packets {
        put_issued(out, sheet, section, cycle)
    } else {
        put_text(out, b"\n")
    }
}

/// Appends what stands above a column.
fn put_column(out: &mut Vec<u8>, column: &Column) -> Result<(), NoMemory> {
    put_text(out, b"  ")?;
    let start = out.len();
    put_column_name(out, column.reg)?;
    pad(out, start, column.width)
}

/// Appends the row above a panel.
fn put_columns(out: &mut Vec<u8>, panel: Panel<'_>) -> Result<(), NoMemory> {
    put_text(out, b"cycle")?;
    for column in panel.columns {
        put_column(out, column)?;
    }
    if panel.has_packets {
        put_text(out, b"  packet\n")
    } else {
        put_text(out, b"\n")
    }
}

/// Appends the rows of a panel of a block that has these bars, where it shows something of it.
fn put_rows(
    out: &mut Vec<u8>,
    sheet: &Sheet<'_>,
    section: &Section<'_>,
    bars: &[Bar],
    panel: Panel<'_>,
) -> Result<(), NoMemory> {
    if !is_shown(panel, bars) {
        return Ok(());
    }
    put_columns(out, panel)?;
    for cycle in 0..section.length.saturating_add(1) {
        put_row(out, sheet, section, bars, panel, cycle)?;
    }
    Ok(())
}

/// Appends the table of a block.
fn put_section(
    alloc: Global,
    out: &mut Vec<u8>,
    sheet: &Sheet<'_>,
    section: &Section<'_>,
    panels: &[Panel<'_>],
) -> Result<(), NoMemory> {
    let least = least_packets(alloc, sheet, section)?;
    put_head(out, section, least)?;
    put_text(out, b"\n")?;
    let bars = bars(alloc, sheet, section)?;
    for panel in panels {
        put_rows(out, sheet, section, bars.as_slice(), *panel)?;
    }
    Ok(())
}

/// Appends the tables of all blocks, each with what is said of it and an empty line behind it, and last what the marks mean.
pub(crate) fn put_tables(
    alloc: Global,
    out: &mut Vec<u8>,
    sheet: &Sheet<'_>,
    sections: &[Section<'_>],
) -> Result<(), NoMemory> {
    let columns = columns(alloc, sheet, sections)?;
    let panels = panels(alloc, sheet, sections, columns.as_slice())?;
    for section in sections {
        put_section(alloc, out, sheet, section, panels.as_slice())?;
        put_text(out, b"\n")?;
    }
    put_text(out, KEY)
}
