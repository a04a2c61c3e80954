//! The columns of a table in panels, one below the other, where side by side they would be too wide.

use crate::bars::{Bar, Column};
use crate::blocks::{Section, Sheet, packet};
use std::alloc::Global;
use un_base::memory_error::NoMemory;
use un_listing::print::put_packet;
use un_lists::items::Items;

/// How many columns of text a table has at most, where its widest packet and its widest column leave room for that.
const WIDTH: usize = 200;

/// How wide the numbers of the cycles are.
const CYCLE: usize = 5;

/// How wide the packets are at least: what stands above them, and beside a block's start.
const PACKET: usize = 20;

/// How much lies between two columns.
pub(crate) const GAP: usize = 2;

/// Some of the columns of a table.
#[derive(Clone, Copy)]
pub struct Panel<'a> {
    /// The columns, in their order.
    pub columns: &'a [Column],
    /// Whether the packets stand behind them.
    pub has_packets: bool,
}

/// How wide the widest packet of a block is.
fn widest_packet(
    alloc: Global,
    sheet: &Sheet<'_>,
    section: &Section<'_>,
) -> Result<usize, NoMemory> {
    let mut widest: usize = 0;
    for cycle in 1..section.length.saturating_add(1) {
        if let Some(packet) = packet(sheet, section, cycle) {
            let mut text = Vec::new(alloc);
            put_packet(&mut text, packet)?;
            widest = widest.max(text.len().saturating_sub(1));
        }
    }
    Ok(widest)
}

/// How wide the widest packet of all blocks is.
fn packets_width(
    alloc: Global,
    sheet: &Sheet<'_>,
    sections: &[Section<'_>],
) -> Result<usize, NoMemory> {
    let mut widest = PACKET;
    for section in sections {
        widest = widest.max(widest_packet(alloc, sheet, section)?);
    }
    Ok(widest.saturating_add(GAP))
}

/// Where to begin the panels behind the first, and how wide the last one is.
#[derive(Drop)]
struct Cuts {
    places: Items<usize>,
    width: usize,
}

/// The columns cut wherever the next one has no room.
fn cut(alloc: Global, columns: &[Column]) -> Result<Cuts, NoMemory> {
    let mut places = Items::new(alloc);
    let mut width = CYCLE;
    for (place, column) in columns.iter().enumerate() {
        let own = column.width.saturating_add(GAP);
        if width > CYCLE && width.saturating_add(own) > WIDTH {
            places.push(place)?;
            width = CYCLE;
        }
        width = width.saturating_add(own);
    }
    Ok(Cuts { places, width })
}

/// The columns between two places as a panel.
fn panel_of(columns: &[Column], from: usize, to: usize, has_packets: bool) -> Panel<'_> {
    Panel {
        columns: columns.get(from..to).unwrap_or(&[]),
        has_packets,
    }
}

/// The columns in panels; the packets stand in the last one.
pub(crate) fn panels<'a>(
    alloc: Global,
    sheet: &Sheet<'_>,
    sections: &[Section<'_>],
    columns: &'a [Column],
) -> Result<Items<Panel<'a>>, NoMemory> {
    let mut cuts = cut(alloc, columns)?;
    let width = packets_width(alloc, sheet, sections)?;
    if cuts.width > CYCLE && cuts.width.saturating_add(width) > WIDTH {
        cuts.places.push(columns.len())?;
    }
    let mut panels = Items::new(alloc);
    let mut from: usize = 0;
    for place in cuts.places.as_slice() {
        panels.push(panel_of(columns, from, *place, false))?;
        from = *place;
    }
    panels.push(panel_of(columns, from, columns.len(), true))?;
    Ok(panels)
}

/// Whether a register or slot has one of these bars, and is not left as it was.
fn is_used(column: &Column, bars: &[Bar]) -> bool {
    bars.iter()
        .any(|bar| bar.reg == column.reg && !bar.is_untouched)
}

/// Whether a panel shows something of a block that has these bars.
pub(crate) fn is_shown(panel: Panel<'_>, bars: &[Bar]) -> bool {
    if panel.has_packets {
        return true;
    }
    panel.columns.iter().any(|column| is_used(column, bars))
}
