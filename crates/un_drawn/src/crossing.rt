//! What makes code save and reload values: calls that they cross, and too few registers for those that are alive.

use crate::blocks::{Section, Sheet};
use crate::names::{Meaning, meaning_of, put_meaning_in_words};
use crate::pieces::{put_numbers, put_place, put_texts};
use crate::waits::{Held, held_in};
use std::alloc::Global;
use un_base::ids::TempId;
use un_base::memory_error::NoMemory;
use un_ir::text::put_text;
use un_isa::op::Op;
use un_isa::reg::{LINK, Space, space_of};
use un_model::model::{ASSIGNABLE, Model};
use un_model::schedule::{LiveRange, Schedule};

/// Whether a value lies in a register or slot when a call of its block issues, and after it.
fn crosses(plan: &Schedule, range: &LiveRange) -> bool {
    for issue in plan.issues.as_slice() {
        let is_call = issue.instr == Some(Op::Call) && issue.block == range.block;
        if is_call && range.from < issue.cycle && issue.cycle <= range.last {
            return true;
        }
    }
    false
}

/// Appends a value that crosses a call, where it is one of the source.
fn put_crossing(
    out: &mut Vec<u8>,
    sheet: &Sheet<'_>,
    section: &Section<'_>,
    held: &Held,
) -> Result<(), NoMemory> {
    let carried = meaning_of(sheet, section, held.temp);
    if matches!(carried, Meaning::Saved(_)) || !crosses(sheet.plan, &held.range) {
        return Ok(());
    }
    put_text(out, b"    ")?;
    put_meaning_in_words(out, sheet, carried)?;
    put_text(out, b" in ")?;
    put_place(out, held.range.reg)?;
    put_text(out, b"\n")
}

/// Appends a line for each value that crosses a call of a block, where there are some.
fn put_crossings(
    alloc: Global,
    out: &mut Vec<u8>,
    sheet: &Sheet<'_>,
    section: &Section<'_>,
    all: &[Held],
) -> Result<(), NoMemory> {
    let mut lines = Vec::new(alloc);
    for held in all {
        put_crossing(&mut lines, sheet, section, held)?;
    }
    if lines.is_empty() {
        return Ok(());
    }
    put_texts(out, &[b"  these values cross a call:\n", lines.as_slice()])
}

/// How many registers code may use.
fn registers(m: &Model) -> u32 {
    m.options.regs.unwrap_or(ASSIGNABLE + 1)
}

/// Whether code may use a register.
fn is_assignable(m: &Model, reg: u32) -> bool {
    match m.options.regs {
        Some(n) => reg < n,
        None => reg < ASSIGNABLE || reg == LINK,
    }
}

/// Whether a value in a register or slot takes up a register that code may use, or would if it were not in a slot. What the caller left in
/// a register that code may not use takes up none.
fn is_counted(m: &Model, reg: u32) -> bool {
    match space_of(reg) {
        Space::R => is_assignable(m, reg),
        Space::P => false,
        Space::M => true,
    }
}

/// The value that a temporary carries, as that value's own temporary.
fn value_of(m: &Model, temp: TempId) -> TempId {
    match m.temps.as_slice().get(temp.0 as usize) {
        Some(vars) => vars.value,
        None => temp,
    }
}

/// Whether a live range is one of a value that takes up a register in a cycle.
fn is_alive(m: &Model, held: &Held, cycle: u32) -> bool {
    held.range.from <= cycle && cycle <= held.range.last && is_counted(m, held.range.reg)
}

/// Whether one of the live ranges before a place is of the same value in the same cycle.
fn is_repeated(m: &Model, all: &[Held], place: usize, cycle: u32) -> bool {
    let Some(own) = all.get(place) else {
        return false;
    };
    for held in all.iter().take(place) {
        if value_of(m, held.temp) == value_of(m, own.temp) && is_alive(m, held, cycle) {
            return true;
        }
    }
    false
}

/// How many values are alive in a cycle, in registers that code may use or in slots.
fn alive_in(m: &Model, all: &[Held], cycle: u32) -> u32 {
    let mut alive: u32 = 0;
    for (place, held) in all.iter().enumerate() {
        if is_alive(m, held, cycle) && !is_repeated(m, all, place, cycle) {
            alive = alive.saturating_add(1);
        }
    }
    alive
}

/// The first cycle of a block in which most values are alive, and how many.
fn most_alive(m: &Model, section: &Section<'_>, all: &[Held]) -> (u32, u32) {
    let mut most = (0, 0);
    for cycle in 0..section.length.saturating_add(1) {
        let alive = alive_in(m, all, cycle);
        if alive > most.1 {
            most = (cycle, alive);
        }
    }
    most
}

/// Appends that there are too few registers in a block, where more values are alive in a cycle.
fn put_pressure(
    out: &mut Vec<u8>,
    sheet: &Sheet<'_>,
    section: &Section<'_>,
    all: &[Held],
) -> Result<(), NoMemory> {
    let (cycle, alive) = most_alive(sheet.m, section, all);
    let registers = registers(sheet.m);
    if alive <= registers {
        return Ok(());
    }
    put_numbers(
        out,
        &[
            (b"  too few registers: ", u64::from(alive)),
            (b" values are alive in cycle ", u64::from(cycle)),
            (b", and there are ", u64::from(registers)),
        ],
    )?;
    put_text(out, b"\n")
}

/// Appends what makes a block save and reload values.
pub fn put_needs(
    alloc: Global,
    out: &mut Vec<u8>,
    sheet: &Sheet<'_>,
    section: &Section<'_>,
) -> Result<(), NoMemory> {
    let all = held_in(alloc, sheet, section)?;
    put_crossings(alloc, out, sheet, section, all.as_slice())?;
    put_pressure(out, sheet, section, all.as_slice())
}
