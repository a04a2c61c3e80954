//! How early and how late each operation of a block can issue, and the longest chain of what its operations wait for.

use crate::blocks::{Section, Sheet};
use crate::waits::{Fixed, Wait, issues_of, waits_of};
use std::alloc::{AllocError, Global};
use un_base::memory_error::NoMemory;
use un_isa::op::Op;
use un_lists::items::Items;

/// How far an operation is from the start and the end of its block.
#[derive(Clone, Copy)]
pub struct Reach {
    /// The instruction that it issues; None where it issues none, or is not asked for.
    pub instr: Option<Op>,
    /// The first cycle in which it can issue; 0 for the block's start.
    pub head: u32,
    /// The place among the waits of the one that holds it there; None where none does.
    pub ahead: Option<u32>,
    /// How many cycles it issues before the block's end, at least; 0 for that end.
    pub tail: u32,
    /// The place among the waits of the one that holds it there; None where none does.
    pub behind: Option<u32>,
}

/// The operations of a block with what they wait for.
#[derive(Drop)]
pub struct Reaches {
    /// Each operation of the block.
    pub all: Vec<Reach>,
    /// What they wait for.
    pub waits: Items<Wait>,
}

/// An operation that nothing holds.
fn unheld(instr: Option<Op>) -> Reach {
    let own = match instr {
        None => 0,
        Some(_) => 1,
    };
    Reach {
        instr,
        head: own,
        ahead: None,
        tail: own,
        behind: None,
    }
}

/// The operations of a block where nothing holds them: all that issue in the code at hand, or those alone that issue in every solution.
fn unheld_in(
    alloc: Global,
    sheet: &Sheet<'_>,
    section: &Section<'_>,
    fixed: Fixed,
) -> Result<Vec<Reach>, AllocError> {
    let mut all = Vec::new(alloc);
    let issues = issues_of(sheet, section).iter();
    for (op, issue) in section.block.ops.as_slice().iter().zip(issues) {
        let is_left_out = matches!(fixed, Fixed::Nothing) && op.kind.is_optional();
        let instr = if is_left_out { None } else { issue.instr };
        all.push(unheld(instr))?;
    }
    Ok(all)
}

/// The first cycle of the operation at a place, 0 where there is none.
pub(crate) fn head_at(all: &[Reach], place: u32) -> u32 {
    match all.get(place as usize) {
        Some(reach) => reach.head,
        None => 0,
    }
}

/// How many cycles before the end the operation at a place issues, 0 where there is none.
pub(crate) fn tail_at(all: &[Reach], place: u32) -> u32 {
    match all.get(place as usize) {
        Some(reach) => reach.tail,
        None => 0,
    }
}

/// Lets the operation at a place issue no earlier; whether that changes it.
fn hold_head(all: &mut [Reach], place: u32, head: u32, wait: u32) -> bool {
    let place = place as usize;
    if place < all.len() && all[place].head < head {
        all[place].head = head;
        all[place].ahead = Some(wait);
        return true;
    }
    false
}

/// Lets the operation at a place issue no later; whether that changes it.
fn hold_tail(all: &mut [Reach], place: u32, tail: u32, wait: u32) -> bool {
    let place = place as usize;
    if place < all.len() && all[place].tail < tail {
        all[place].tail = tail;
        all[place].behind = Some(wait);
        return true;
    }
    false
}

/// Lets each operation that waits issue no earlier than what it waits for allows, and what it waits for no later; whether that changes
/// something.
fn hold_all(all: &mut [Reach], waits: &[Wait]) -> bool {
    let mut changed = false;
    let mut number: u32 = 0;
    for wait in waits {
        let head = head_at(all, wait.from).saturating_add(wait.gap);
        let tail = tail_at(all, wait.to).saturating_add(wait.gap);
        if hold_head(all, wait.to, head, number) {
            changed = true;
        }
        if hold_tail(all, wait.from, tail, number) {
            changed = true;
        }
        number = number.saturating_add(1);
    }
    changed
}

/// Lets each operation issue as its waits allow. They have no circle, so that as many rounds as there are operations are enough.
fn settle(all: &mut [Reach], waits: &[Wait]) {
    for _ in 0..all.len() {
        if !hold_all(all, waits) {
            return;
        }
    }
}

/// How early and how late the operations of a block can issue, where so much of the code is given.
pub(crate) fn reaches_of(
    alloc: Global,
    sheet: &Sheet<'_>,
    section: &Section<'_>,
    fixed: Fixed,
) -> Result<Reaches, NoMemory> {
    let waits = waits_of(alloc, sheet, section, fixed)?;
    let mut all = unheld_in(alloc, sheet, section, fixed)?;
    settle(all.as_mut_slice(), waits.as_slice());
    Ok(Reaches { all, waits })
}

/// The operation on the longest chain: its place, and how many packets the chain asks for. Of those on such chains the last one.
pub fn longest(all: &[Reach]) -> (u32, u32) {
    let mut place: u32 = 0;
    let mut last: u32 = 0;
    let mut most: u32 = 0;
    for reach in all {
        let end = reach.head.saturating_add(reach.tail);
        if end >= most {
            most = end;
            last = place;
        }
        place = place.saturating_add(1);
    }
    (last, most.saturating_sub(1))
}

/// The wait that holds the operation at a place: before it, or behind it.
fn holder(reaches: &Reaches, place: u32, is_ahead: bool) -> Option<Wait> {
    let reach = reaches.all.as_slice().get(place as usize)?;
    let number = if is_ahead { reach.ahead } else { reach.behind };
    reaches.waits.as_slice().get(number? as usize).copied()
}

/// The waits of a chain up to an operation, the last first, or from it on, the first first.
pub fn chain(
    alloc: Global,
    reaches: &Reaches,
    place: u32,
    is_ahead: bool,
) -> Result<Items<Wait>, NoMemory> {
    let mut chain = Items::new(alloc);
    let mut at = place;
    for _ in 0..reaches.all.len() {
        let Some(wait) = holder(reaches, at, is_ahead) else {
            return Ok(chain);
        };
        chain.push(wait)?;
        at = if is_ahead { wait.from } else { wait.to };
    }
    Ok(chain)
}
