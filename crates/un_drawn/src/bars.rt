//! Live ranges as bars in columns, a column for each register and slot.

use crate::blocks::{Section, Sheet, operation};
use crate::names::{Meaning, meaning_of, put_meaning};
use std::alloc::Global;
use un_base::ids::{OpId, TempId};
use un_base::memory_error::NoMemory;
use un_ir::text::put_text;
use un_isa::op::Op;
use un_isa::reg::{FIRST_SLOT, SLOTS};
use un_lists::items::Items;
use un_model::schedule::LiveRange;

/// What gives a bar's value: a spill, a reload or a move of it, or else the source, or the caller.
#[derive(Clone, Copy)]
pub enum Role {
    Given,
    Saved,
    Spilled,
    Reloaded,
    Moved,
}

/// The live range of a temporary, as a bar in the column of its register or slot.
#[derive(Clone, Copy)]
pub struct Bar {
    /// What it carries: the value of a name, what the caller left in a register, or a call's result that no name takes.
    pub carried: Meaning,
    /// How what it carries came there.
    pub role: Role,
    /// The operation that gives it, by its number in the function.
    pub op: OpId,
    /// The number of its register or slot: slots from 36 on.
    pub reg: u32,
    /// Its first cycle: that of its definer, 0 for a value at the block's start.
    pub from: u32,
    /// Its last cycle, inclusive.
    pub last: u32,
    /// Whether it is what the caller left in this register, where it stays for the whole block.
    pub is_untouched: bool,
    /// How many bytes its label has.
    pub width: usize,
}

/// A register or slot that is in use.
#[derive(Clone, Copy)]
pub struct Column {
    /// Its number: slots from 36 on.
    pub reg: u32,
    /// How many bytes its name and the labels in it have at most.
    pub width: usize,
}

/// What stands before a value that came there so.
fn mark(role: Role) -> &'static [u8] {
    match role {
        Role::Given | Role::Saved => b"",
        Role::Spilled => b"S ",
        Role::Reloaded => b"R ",
        Role::Moved => b"M ",
    }
}

/// What the marks and names in a drawing mean.
pub static KEY: &[u8] = b"\
key: %a a value of that name, r31 under a register or slot what the caller left in r31, * a call's result without a name; S it is spilled
     there, R reloaded, M moved there; | it stays, . nothing that is read later; s0 the frame's slot 0
";

/// Appends what stands where a bar begins.
pub fn put_label(out: &mut Vec<u8>, sheet: &Sheet<'_>, bar: &Bar) -> Result<(), NoMemory> {
    put_text(out, mark(bar.role))?;
    put_meaning(out, sheet, bar.carried)
}

/// How many bytes that has.
fn label_width(alloc: Global, sheet: &Sheet<'_>, bar: &Bar) -> Result<usize, NoMemory> {
    let mut label = Vec::new(alloc);
    put_label(&mut label, sheet, bar)?;
    Ok(label.len())
}

/// Whether an operation of a block is a copy.
pub fn is_copy(section: &Section<'_>, op: OpId) -> bool {
    match operation(section, op) {
        Some(op) => op.kind.is_copy(),
        None => false,
    }
}

/// How a value comes to where a live range has it.
fn role_of(section: &Section<'_>, range: &LiveRange, carried: Meaning) -> Role {
    if is_copy(section, range.op) {
        return match range.instr {
            Some(Op::Spill) => Role::Spilled,
            Some(Op::Reload) => Role::Reloaded,
            _ => Role::Moved,
        };
    }
    match carried {
        Meaning::Saved(_) => Role::Saved,
        _ => Role::Given,
    }
}

/// Whether a live range is what the caller left in a register, where it stays for the whole block.
fn is_untouched(section: &Section<'_>, range: &LiveRange, carried: Meaning) -> bool {
    match carried {
        Meaning::Saved(reg) => reg == range.reg && range.from == 0 && range.last >= section.length,
        _ => false,
    }
}

/// The bar of a live range.
fn bar_of(
    alloc: Global,
    sheet: &Sheet<'_>,
    section: &Section<'_>,
    range: &LiveRange,
    carried: Meaning,
) -> Result<Bar, NoMemory> {
    let mut bar = Bar {
        carried,
        role: role_of(section, range, carried),
        op: range.op,
        reg: range.reg,
        from: range.from,
        last: range.last,
        is_untouched: is_untouched(section, range, carried),
        width: 0,
    };
    bar.width = label_width(alloc, sheet, &bar)?;
    Ok(bar)
}

/// The bars of a block.
pub(crate) fn bars(
    alloc: Global,
    sheet: &Sheet<'_>,
    section: &Section<'_>,
) -> Result<Items<Bar>, NoMemory> {
    let mut bars = Items::new(alloc);
    let mut temp: u32 = 0;
    for range in sheet.plan.ranges.as_slice() {
        if range.active && range.block.0 == section.number {
            let carried = meaning_of(sheet, section, TempId(temp));
            bars.push(bar_of(alloc, sheet, section, range, carried)?)?;
        }
        temp = temp.saturating_add(1);
    }
    Ok(bars)
}

/// Notes for each register and slot how wide the bars in it are. A register that is not touched is not in use.
fn note(widths: &mut [usize], bars: &[Bar]) {
    for bar in bars {
        let reg = bar.reg as usize;
        if !bar.is_untouched && reg < widths.len() {
            widths[reg] = bar.width.max(widths[reg]);
        }
    }
}

/// How wide the bars of all blocks are in each register and slot, 0 where it is not in use.
fn widths(
    alloc: Global,
    sheet: &Sheet<'_>,
    sections: &[Section<'_>],
) -> Result<Vec<usize>, NoMemory> {
    let mut widths = [0; (FIRST_SLOT + SLOTS) as usize].to_vec(alloc)?;
    for section in sections {
        let bars = bars(alloc, sheet, section)?;
        note(widths.as_mut_slice(), bars.as_slice());
    }
    Ok(widths)
}

/// How many bytes stand above a column at most.
const NAME: usize = 3;

/// The registers and slots in use in some block, rising: each block is drawn in all of them.
pub fn columns(
    alloc: Global,
    sheet: &Sheet<'_>,
    sections: &[Section<'_>],
) -> Result<Items<Column>, NoMemory> {
    let widths = widths(alloc, sheet, sections)?;
    let mut columns = Items::new(alloc);
    let mut reg: u32 = 0;
    for width in widths.as_slice() {
        if *width > 0 {
            columns.push(Column {
                reg,
                width: (*width).max(NAME),
            })?;
        }
        reg = reg.saturating_add(1);
    }
    Ok(columns)
}

/// The bar that lies in a register or slot in a cycle.
pub(crate) fn bar_at(bars: &[Bar], reg: u32, cycle: u32) -> Option<Bar> {
    for bar in bars {
        if bar.reg == reg && bar.from <= cycle && cycle <= bar.last {
            return Some(*bar);
        }
    }
    None
}
