//! What the operations of a block wait for: by what every solution asks for, by the saves, reloads and moves of the code at hand, and by
//! its registers.

use crate::blocks::{Section, Sheet};
use std::alloc::Global;
use un_base::ids::TempId;
use un_base::memory_error::NoMemory;
use un_base::numbers::number;
use un_isa::op::Op;
use un_isa::reg_set::is_in_mask;
use un_lists::items::Items;
use un_model::instructions::gap;
use un_model::model::Arc;
use un_model::schedule::{Issue, LiveRange, Read};

/// What of the code at hand is taken as given, when it is asked how long a block has to be.
#[derive(Clone, Copy)]
pub enum Fixed {
    /// Nothing: what is found holds of every solution.
    Nothing,
    /// Which saves, reloads and moves there are, which value each operation reads, and whether there is a frame.
    Copies,
    /// Besides that the register of each value, and the order of the values in each register.
    Registers,
}

/// An operation of a block waits for another.
#[derive(Clone, Copy)]
pub struct Wait {
    /// The place in the block of the one that comes first.
    pub from: u32,
    /// The place of the one that waits.
    pub to: u32,
    /// How many cycles after the first it issues, at least.
    pub gap: u32,
    /// The register or slot that is not free before, where that is why it waits.
    pub busy: Option<u32>,
}

/// A live range of a block that occupies its register or slot, with its temporary.
#[derive(Clone, Copy)]
pub struct Held {
    pub temp: TempId,
    pub range: LiveRange,
}

/// The precedences of a block.
fn arcs_of<'a>(sheet: &Sheet<'a>, section: &Section<'_>) -> &'a [Arc] {
    match sheet.m.arcs.as_slice().get(section.number as usize) {
        Some(arcs) => arcs.as_slice(),
        None => &[],
    }
}

/// Adds what holds of every solution.
fn push_arcs(
    waits: &mut Items<Wait>,
    sheet: &Sheet<'_>,
    section: &Section<'_>,
) -> Result<(), NoMemory> {
    for arc in arcs_of(sheet, section) {
        waits.push(Wait {
            from: arc.from.0.saturating_sub(section.first),
            to: arc.to.0.saturating_sub(section.first),
            gap: arc.gap,
            busy: None,
        })?;
    }
    Ok(())
}

/// Adds that a reader waits for the operation that gives what it reads.
fn push_read(
    waits: &mut Items<Wait>,
    sheet: &Sheet<'_>,
    section: &Section<'_>,
    read: &Read,
) -> Result<(), NoMemory> {
    let Some(range) = sheet.plan.ranges.as_slice().get(read.temp.0 as usize) else {
        return Ok(());
    };
    waits.push(Wait {
        from: range.op.0.saturating_sub(section.first),
        to: read.user.0.saturating_sub(section.first),
        gap: gap(&sheet.m.ext.table, range.instr, read.instr),
        busy: None,
    })?;
    Ok(())
}

/// Adds that each operation waits for what it reads.
fn push_reads(
    waits: &mut Items<Wait>,
    sheet: &Sheet<'_>,
    section: &Section<'_>,
) -> Result<(), NoMemory> {
    for read in sheet.plan.reads.as_slice() {
        if read.block.0 == section.number {
            push_read(waits, sheet, section, read)?;
        }
    }
    Ok(())
}

/// The operations of a block as they issue.
pub fn issues_of<'a>(sheet: &Sheet<'a>, section: &Section<'_>) -> &'a [Issue] {
    let issues = sheet.plan.issues.as_slice();
    let first = section.first as usize;
    let behind = first.saturating_add(section.block.ops.len());
    issues.get(first..behind).unwrap_or(&[])
}

/// How many cycles after the frame is made an instruction issues, at least.
fn after_enter(instr: Option<Op>) -> Option<u32> {
    match instr {
        Some(Op::Spill | Op::Reload | Op::Call | Op::Leave) => Some(1),
        _ => None,
    }
}

/// How many cycles after an instruction the frame is left, at least.
fn before_leave(instr: Option<Op>) -> Option<u32> {
    match instr {
        Some(Op::Spill | Op::Reload) => Some(0),
        Some(Op::Call) => Some(1),
        _ => None,
    }
}

/// The place of the operation that issues an instruction of a block's frame.
fn place_of(issues: &[Issue], op: Op) -> Result<Option<u32>, NoMemory> {
    match issues.iter().position(|issue| issue.instr == Some(op)) {
        None => Ok(None),
        Some(place) => Ok(Some(number(place)?)),
    }
}

/// Adds a wait between two places, where there are both of them and a gap.
fn push_between(
    waits: &mut Items<Wait>,
    from: Option<u32>,
    to: Option<u32>,
    gap: Option<u32>,
) -> Result<(), NoMemory> {
    if let (Some(from), Some(to), Some(gap)) = (from, to, gap) {
        waits.push(Wait {
            from,
            to,
            gap,
            busy: None,
        })?;
    }
    Ok(())
}

/// Adds what waits for the frame, and what the frame waits for.
fn push_frame(
    waits: &mut Items<Wait>,
    sheet: &Sheet<'_>,
    section: &Section<'_>,
) -> Result<(), NoMemory> {
    let issues = issues_of(sheet, section);
    let enter = place_of(issues, Op::Enter)?;
    let leave = place_of(issues, Op::Leave)?;
    let mut place: u32 = 0;
    for issue in issues {
        push_between(waits, enter, Some(place), after_enter(issue.instr))?;
        push_between(waits, Some(place), leave, before_leave(issue.instr))?;
        place = place.saturating_add(1);
    }
    Ok(())
}

/// The live ranges of a block that occupy their registers and slots.
pub(crate) fn held_in(
    alloc: Global,
    sheet: &Sheet<'_>,
    section: &Section<'_>,
) -> Result<Items<Held>, NoMemory> {
    let mut all = Items::new(alloc);
    let mut temp: u32 = 0;
    for range in sheet.plan.ranges.as_slice() {
        if range.active && range.block.0 == section.number {
            all.push(Held {
                temp: TempId(temp),
                range: *range,
            })?;
        }
        temp = temp.saturating_add(1);
    }
    Ok(all)
}

/// Adds that what is at a place waits, `gap` cycles, for all that occupies a register before it: for its definer by one cycle more than for
/// its readers.
fn push_freed(
    waits: &mut Items<Wait>,
    sheet: &Sheet<'_>,
    section: &Section<'_>,
    before: &Held,
    to: u32,
) -> Result<(), NoMemory> {
    let busy = Some(before.range.reg);
    waits.push(Wait {
        from: before.range.op.0.saturating_sub(section.first),
        to,
        gap: 1,
        busy,
    })?;
    for read in sheet.plan.reads.as_slice() {
        if read.temp == before.temp {
            waits.push(Wait {
                from: read.user.0.saturating_sub(section.first),
                to,
                gap: 0,
                busy,
            })?;
        }
    }
    Ok(())
}

/// Adds what a value waits for that comes into the register of these after them.
fn push_after(
    waits: &mut Items<Wait>,
    sheet: &Sheet<'_>,
    section: &Section<'_>,
    all: &[Held],
    next: &LiveRange,
) -> Result<(), NoMemory> {
    let to = next.op.0.saturating_sub(section.first);
    for held in all {
        if held.range.reg == next.reg && held.range.last < next.from {
            push_freed(waits, sheet, section, held, to)?;
        }
    }
    Ok(())
}

/// Adds that values in a register come one after the other.
fn push_orders(
    waits: &mut Items<Wait>,
    sheet: &Sheet<'_>,
    section: &Section<'_>,
    all: &[Held],
) -> Result<(), NoMemory> {
    for held in all {
        push_after(waits, sheet, section, all, &held.range)?;
    }
    Ok(())
}

/// Adds what stands between a call and a value in a register that it clobbers: the call waits for what is before it, and what is after it
/// for the call.
fn push_clobbered(
    waits: &mut Items<Wait>,
    sheet: &Sheet<'_>,
    section: &Section<'_>,
    call: &Issue,
    held: &Held,
) -> Result<(), NoMemory> {
    let place = call.op.0.saturating_sub(section.first);
    if held.range.last < call.cycle {
        return push_freed(waits, sheet, section, held, place);
    }
    if held.range.from > call.cycle {
        waits.push(Wait {
            from: place,
            to: held.range.op.0.saturating_sub(section.first),
            gap: 1,
            busy: Some(held.range.reg),
        })?;
    }
    Ok(())
}

/// Adds that for each value in a register that a call clobbers.
fn push_call(
    waits: &mut Items<Wait>,
    sheet: &Sheet<'_>,
    section: &Section<'_>,
    all: &[Held],
    call: &Issue,
) -> Result<(), NoMemory> {
    for held in all {
        if is_in_mask(sheet.m.ext.table.clobbered, held.range.reg) {
            push_clobbered(waits, sheet, section, call, held)?;
        }
    }
    Ok(())
}

/// Adds that for each call of a block.
fn push_calls(
    waits: &mut Items<Wait>,
    sheet: &Sheet<'_>,
    section: &Section<'_>,
    all: &[Held],
) -> Result<(), NoMemory> {
    for issue in issues_of(sheet, section) {
        if issue.instr == Some(Op::Call) {
            push_call(waits, sheet, section, all, issue)?;
        }
    }
    Ok(())
}

/// Adds what operations wait for where registers are given.
fn push_registers(
    alloc: Global,
    waits: &mut Items<Wait>,
    sheet: &Sheet<'_>,
    section: &Section<'_>,
) -> Result<(), NoMemory> {
    let all = held_in(alloc, sheet, section)?;
    push_orders(waits, sheet, section, all.as_slice())?;
    push_calls(waits, sheet, section, all.as_slice())
}

/// What the operations of a block wait for, where so much of the code is given.
pub fn waits_of(
    alloc: Global,
    sheet: &Sheet<'_>,
    section: &Section<'_>,
    fixed: Fixed,
) -> Result<Items<Wait>, NoMemory> {
    let mut waits = Items::new(alloc);
    push_arcs(&mut waits, sheet, section)?;
    if matches!(fixed, Fixed::Copies | Fixed::Registers) {
        push_reads(&mut waits, sheet, section)?;
        push_frame(&mut waits, sheet, section)?;
    }
    if matches!(fixed, Fixed::Registers) {
        push_registers(alloc, &mut waits, sheet, section)?;
    }
    Ok(waits)
}
