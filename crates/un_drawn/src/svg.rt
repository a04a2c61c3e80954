//! A solution as a drawing: registers and slots across, cycles down, a rectangle for each live range.

use crate::bars::{Bar, Column, Role, bars, columns, put_label};
use crate::blocks::{Section, Sheet, packet, whole_cost};
use crate::cause::least_packets;
use crate::given::Given;
use crate::operations::put_operation;
use crate::pieces::{put_column_name, put_numbers, put_place, put_texts};
use crate::table::put_head;
use std::alloc::Global;
use un_base::memory_error::NoMemory;
use un_ir::text::{put_number, put_text};
use un_listing::print::put_packet;

/// How wide a letter is, in pixels, as all lengths of a drawing.
const LETTER: u32 = 8;

/// How high a cycle is.
const ROW: u32 = 22;

/// How much is left free to the left, for the cycles.
const LEFT: u32 = 36;

/// How high what stands above a block's cycles is.
const HEAD: u32 = 52;

/// How much is left free below a block.
const GAP: u32 = 28;

/// How high what stands above all blocks is: a line of what is drawn, and a line of what the colours mean.
const TITLE: u32 = 64;

/// How wide a colour with its meaning is.
const COLOUR: u32 = 150;

/// How the parts of a drawing look.
static STYLE: &[u8] = b"\
<style>
text { font: 13px 'DejaVu Sans Mono', monospace; fill: #222; pointer-events: none }
.head { font-weight: bold }
.small { fill: #666 }
.cycle { stroke: #ddd }
rect { stroke: #555 }
.given { fill: #cfe3f7 }
.saved { fill: #e6e6e6 }
.spill { fill: #f7c9a8 }
.reload { fill: #fbe6a2 }
.move { fill: #d3efcf }
</style>
";

/// How far a drawing has come: how far down, and how far to the right.
#[derive(Clone, Copy)]
struct Extent {
    down: u32,
    across: u32,
}

/// A number of bytes as a length.
fn letters(n: usize) -> u32 {
    let n = u32::try_from(n).unwrap_or(u32::MAX);
    n.saturating_mul(LETTER)
}

/// How wide a column is.
fn column_width(column: &Column) -> u32 {
    letters(column.width.saturating_add(2))
}

/// How far down a cycle of a block lies.
fn row_of(top: u32, cycle: u32) -> u32 {
    top.saturating_add(HEAD)
        .saturating_add(cycle.saturating_mul(ROW))
}

/// How a bar looks.
fn look(role: Role) -> &'static [u8] {
    match role {
        Role::Given => b"given",
        Role::Saved => b"saved",
        Role::Spilled => b"spill",
        Role::Reloaded => b"reload",
        Role::Moved => b"move",
    }
}

/// What the colours mean.
static COLOURS: [(&[u8], &[u8]); 5] = [
    (b"given", b"a value"),
    (b"saved", b"the caller's"),
    (b"spill", b"spilled"),
    (b"reload", b"reloaded"),
    (b"move", b"moved"),
];

/// Appends the beginning of a text at a place.
fn put_text_at(out: &mut Vec<u8>, class: &[u8], x: u32, y: u32) -> Result<(), NoMemory> {
    put_texts(out, &[b"<text class=\"", class])?;
    put_numbers(
        out,
        &[(b"\" x=\"", u64::from(x)), (b"\" y=\"", u64::from(y))],
    )?;
    put_text(out, b"\">")
}

/// Appends the beginning of a rectangle of a class.
fn put_rectangle(
    out: &mut Vec<u8>,
    class: &[u8],
    x: u32,
    y: u32,
    width: u32,
    height: u32,
) -> Result<(), NoMemory> {
    put_texts(out, &[b"<rect class=\"", class])?;
    put_numbers(
        out,
        &[
            (b"\" x=\"", u64::from(x)),
            (b"\" y=\"", u64::from(y)),
            (b"\" width=\"", u64::from(width)),
            (b"\" height=\"", u64::from(height)),
        ],
    )?;
    put_text(out, b"\" rx=\"3\">")
}

/// Appends what is shown where a bar is pointed at: the operation that gives its value, its register or slot, and its cycles.
fn put_pointed(
    out: &mut Vec<u8>,
    sheet: &Sheet<'_>,
    section: &Section<'_>,
    bar: &Bar,
) -> Result<(), NoMemory> {
    put_text(out, b"<title>")?;
    put_label(out, sheet, bar)?;
    put_text(out, b" in ")?;
    put_place(out, bar.reg)?;
    put_numbers(
        out,
        &[
            (b", cycles ", u64::from(bar.from)),
            (b" to ", u64::from(bar.last)),
        ],
    )?;
    put_text(out, b": ")?;
    put_operation(out, sheet, section, bar.op.0.saturating_sub(section.first))?;
    put_text(out, b"</title>")
}

/// Appends a bar in a column that lies at `x`, with its label.
fn put_bar(
    out: &mut Vec<u8>,
    sheet: &Sheet<'_>,
    section: &Section<'_>,
    bar: &Bar,
    top: u32,
    x: u32,
    width: u32,
) -> Result<(), NoMemory> {
    let cycles = bar.last.saturating_sub(bar.from).saturating_add(1);
    let height = cycles.saturating_mul(ROW).saturating_sub(2);
    let y = row_of(top, bar.from);
    put_rectangle(out, look(bar.role), x, y, width.saturating_sub(4), height)?;
    put_pointed(out, sheet, section, bar)?;
    put_text(out, b"</rect>\n")?;
    put_text_at(out, b"value", x.saturating_add(6), y.saturating_add(15))?;
    put_label(out, sheet, bar)?;
    put_text(out, b"</text>\n")
}

/// Appends the bars of a column that lies at `x`.
fn put_bars(
    out: &mut Vec<u8>,
    sheet: &Sheet<'_>,
    section: &Section<'_>,
    bars: &[Bar],
    column: &Column,
    top: u32,
    x: u32,
) -> Result<(), NoMemory> {
    for bar in bars {
        if bar.reg == column.reg {
            put_bar(out, sheet, section, bar, top, x, column_width(column))?;
        }
    }
    Ok(())
}

/// Appends a column that lies at `x`: its register or slot, and its bars.
fn put_column(
    out: &mut Vec<u8>,
    sheet: &Sheet<'_>,
    section: &Section<'_>,
    bars: &[Bar],
    column: &Column,
    top: u32,
    x: u32,
) -> Result<(), NoMemory> {
    let y = top.saturating_add(HEAD - 8);
    put_text_at(out, b"small", x.saturating_add(6), y)?;
    put_column_name(out, column.reg)?;
    put_text(out, b"</text>\n")?;
    put_bars(out, sheet, section, bars, column, top, x)
}

/// Appends the columns of a block.
fn put_columns(
    out: &mut Vec<u8>,
    sheet: &Sheet<'_>,
    section: &Section<'_>,
    bars: &[Bar],
    columns: &[Column],
    top: u32,
) -> Result<(), NoMemory> {
    let mut x = LEFT;
    for column in columns {
        put_column(out, sheet, section, bars, column, top, x)?;
        x = x.saturating_add(column_width(column));
    }
    Ok(())
}

/// Appends the line of a cycle from the left to `right`, and its number.
fn put_cycle(out: &mut Vec<u8>, y: u32, right: u32, cycle: u32) -> Result<(), NoMemory> {
    let line = u64::from(y.saturating_sub(1));
    put_numbers(
        out,
        &[
            (b"<line class=\"cycle\" x1=\"8\" x2=\"", u64::from(right)),
            (b"\" y1=\"", line),
            (b"\" y2=\"", line),
        ],
    )?;
    put_text(out, b"\"/>\n")?;
    put_text_at(out, b"small", 10, y.saturating_add(15))?;
    put_number(out, u64::from(cycle))?;
    put_text(out, b"</text>\n")
}

/// Appends the packet of a cycle at a place, and answers how many bytes it has.
fn put_issued(
    out: &mut Vec<u8>,
    sheet: &Sheet<'_>,
    section: &Section<'_>,
    cycle: u32,
    x: u32,
    y: u32,
) -> Result<usize, NoMemory> {
    let Some(packet) = packet(sheet, section, cycle) else {
        return Ok(0);
    };
    put_text_at(out, b"packet", x, y.saturating_add(15))?;
    let start = out.len();
    put_packet(out, packet)?;
    let width = out.len().saturating_sub(start);
    put_text(out, b"</text>\n")?;
    Ok(width)
}

/// Appends the cycles of a block with its packets, which stand behind the columns, and answers how far they go to the right.
fn put_cycles(
    out: &mut Vec<u8>,
    sheet: &Sheet<'_>,
    section: &Section<'_>,
    top: u32,
    x: u32,
) -> Result<u32, NoMemory> {
    let mut right = x;
    for cycle in 0..section.length.saturating_add(1) {
        let y = row_of(top, cycle);
        put_cycle(out, y, x, cycle)?;
        let width = put_issued(out, sheet, section, cycle, x.saturating_add(12), y)?;
        right = right.max(x.saturating_add(12).saturating_add(letters(width)));
    }
    Ok(right)
}

/// The width of columns.
fn columns_end(columns: &[Column]) -> u32 {
    let mut x = LEFT;
    for column in columns {
        x = x.saturating_add(column_width(column));
    }
    x
}

/// Appends what stands above a block.
fn put_title(
    alloc: Global,
    out: &mut Vec<u8>,
    sheet: &Sheet<'_>,
    section: &Section<'_>,
    top: u32,
) -> Result<(), NoMemory> {
    let least = least_packets(alloc, sheet, section)?;
    put_text_at(out, b"head", 8, top.saturating_add(18))?;
    put_head(out, section, least)?;
    put_text(out, b"</text>\n")
}

/// Appends the drawing of a block in these columns, and answers how far down and to the right it goes.
fn put_section(
    alloc: Global,
    out: &mut Vec<u8>,
    sheet: &Sheet<'_>,
    section: &Section<'_>,
    columns: &[Column],
    top: u32,
) -> Result<Extent, NoMemory> {
    put_title(alloc, out, sheet, section, top)?;
    let bars = bars(alloc, sheet, section)?;
    let across = put_cycles(out, sheet, section, top, columns_end(columns))?;
    put_columns(out, sheet, section, bars.as_slice(), columns, top)?;
    let down = row_of(top, section.length.saturating_add(1)).saturating_add(GAP);
    Ok(Extent { down, across })
}

/// Appends the drawings of all blocks, and answers how far down and to the right they go.
fn put_sections(
    alloc: Global,
    out: &mut Vec<u8>,
    sheet: &Sheet<'_>,
    sections: &[Section<'_>],
) -> Result<Extent, NoMemory> {
    let columns = columns(alloc, sheet, sections)?;
    let mut extent = Extent {
        down: TITLE,
        across: 5 * COLOUR + 16,
    };
    for section in sections {
        let own = put_section(alloc, out, sheet, section, columns.as_slice(), extent.down)?;
        extent.down = own.down;
        extent.across = extent.across.max(own.across);
    }
    Ok(extent)
}

/// Appends the beginning of a drawing of this size.
fn put_start(out: &mut Vec<u8>, extent: Extent) -> Result<(), NoMemory> {
    let (across, down) = (u64::from(extent.across), u64::from(extent.down));
    put_text(out, b"<svg xmlns=\"http://www.w3.org/2000/svg\"")?;
    put_numbers(
        out,
        &[
            (b" width=\"", across),
            (b"\" height=\"", down),
            (b"\" viewBox=\"0 0 ", across),
            (b" ", down),
        ],
    )?;
    put_texts(
        out,
        &[
            b"\">\n",
            STYLE,
            b"<rect width=\"100%\" height=\"100%\" style=\"fill: white; stroke: none\"/>\n",
        ],
    )
}

/// Appends what is drawn: the function, what its code costs, and the bound of a report.
fn put_function(
    out: &mut Vec<u8>,
    sheet: &Sheet<'_>,
    sections: &[Section<'_>],
    given: &Given<'_>,
) -> Result<(), NoMemory> {
    put_text_at(out, b"head", 8, 22)?;
    put_texts(out, &[b"function ", sheet.name.as_bytes()])?;
    put_numbers(out, &[(b": cost ", whole_cost(sections))])?;
    if let Some(bound) = given.bound {
        put_numbers(out, &[(b", bound ", bound)])?;
    }
    put_text(out, b"</text>\n")
}

/// Appends a line of the colours with what they mean.
fn put_legend(out: &mut Vec<u8>) -> Result<(), NoMemory> {
    let mut x: u32 = 8;
    for (class, meaning) in COLOURS.iter() {
        put_rectangle(out, class, x, 36, 18, 18)?;
        put_text(out, b"</rect>\n")?;
        put_text_at(out, b"small", x.saturating_add(26), 50)?;
        put_texts(out, &[meaning, b"</text>\n"])?;
        x = x.saturating_add(COLOUR);
    }
    Ok(())
}

/// Appends the drawing of all blocks, one below the other.
pub(crate) fn put_drawing(
    alloc: Global,
    out: &mut Vec<u8>,
    sheet: &Sheet<'_>,
    sections: &[Section<'_>],
    given: &Given<'_>,
) -> Result<(), NoMemory> {
    let mut body = Vec::new(alloc);
    let extent = put_sections(alloc, &mut body, sheet, sections)?;
    put_start(out, extent)?;
    put_function(out, sheet, sections, given)?;
    put_legend(out)?;
    put_texts(out, &[body.as_slice(), b"</svg>\n"])
}
