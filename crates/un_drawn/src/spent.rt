//! What spills, reloads, moves and the frame take of a block.

use crate::bars::is_copy;
use crate::blocks::{Section, Sheet, operation};
use crate::names::{Meaning, meaning_of};
use crate::pieces::put_numbers;
use un_base::memory_error::NoMemory;
use un_ir::text::put_text;
use un_isa::op::Op;
use un_model::schedule::Issue;

/// How many spills, reloads, moves and changes of the stack pointer a block issues, and how many of the copies are of what the caller
/// left in a register.
#[derive(Clone, Copy)]
struct Spent {
    spills: u32,
    reloads: u32,
    moves: u32,
    frames: u32,
    saved: u32,
}

/// Whether the operation of an issue copies what the caller left in a register.
fn is_of_saved(sheet: &Sheet<'_>, section: &Section<'_>, issue: &Issue) -> bool {
    let Some(op) = operation(section, issue.op) else {
        return false;
    };
    match op.results.as_slice().first() {
        Some(temp) => matches!(meaning_of(sheet, section, *temp), Meaning::Saved(_)),
        None => false,
    }
}

/// What is spent with a copy that issues so.
fn with_copy(spent: Spent, issue: &Issue, is_of_saved: bool) -> Spent {
    let mut spent = spent;
    match issue.instr {
        Some(Op::Spill) => spent.spills = spent.spills.saturating_add(1),
        Some(Op::Reload) => spent.reloads = spent.reloads.saturating_add(1),
        _ => spent.moves = spent.moves.saturating_add(1),
    }
    if is_of_saved {
        spent.saved = spent.saved.saturating_add(1);
    }
    spent
}

/// Whether an operation issues in a block.
fn is_issued(section: &Section<'_>, issue: &Issue) -> bool {
    issue.instr.is_some() && issue.block.0 == section.number
}

/// What a block spends.
fn spent_in(sheet: &Sheet<'_>, section: &Section<'_>) -> Spent {
    let mut spent = Spent {
        spills: 0,
        reloads: 0,
        moves: 0,
        frames: 0,
        saved: 0,
    };
    for issue in sheet.plan.issues.as_slice() {
        if is_issued(section, issue) {
            if issue.frame {
                spent.frames = spent.frames.saturating_add(1);
            } else if is_copy(section, issue.op) {
                spent = with_copy(spent, issue, is_of_saved(sheet, section, issue));
            }
        }
    }
    spent
}

/// Whether the packet of a cycle of a block has a copy or a change of the stack pointer, and nothing else.
fn is_spent(sheet: &Sheet<'_>, section: &Section<'_>, cycle: u32) -> bool {
    let mut some = false;
    for issue in sheet.plan.issues.as_slice() {
        if is_issued(section, issue) && issue.cycle == cycle {
            some = true;
            if !issue.frame && !is_copy(section, issue.op) {
                return false;
            }
        }
    }
    some
}

/// How many packets of a block have nothing else.
fn packets_spent(sheet: &Sheet<'_>, section: &Section<'_>) -> u32 {
    let mut packets: u32 = 0;
    for cycle in 1..section.length.saturating_add(1) {
        if is_spent(sheet, section, cycle) {
            packets = packets.saturating_add(1);
        }
    }
    packets
}

/// Appends the line of what a block spends.
fn put_counts(out: &mut Vec<u8>, spent: &Spent) -> Result<(), NoMemory> {
    put_numbers(
        out,
        &[
            (b"  spills ", u64::from(spent.spills)),
            (b", reloads ", u64::from(spent.reloads)),
            (b", moves ", u64::from(spent.moves)),
            (b", of these for saved registers ", u64::from(spent.saved)),
            (b", changes of the frame ", u64::from(spent.frames)),
        ],
    )
}

/// Appends what a block spends on spills, reloads, moves and the frame, where it spends something.
pub(crate) fn put_spent(
    out: &mut Vec<u8>,
    sheet: &Sheet<'_>,
    section: &Section<'_>,
) -> Result<(), NoMemory> {
    let spent = spent_in(sheet, section);
    let copies = spent.spills.max(spent.reloads).max(spent.moves);
    if copies.max(spent.frames) == 0 {
        return put_text(out, b"  no spills, reloads or moves\n");
    }
    put_counts(out, &spent)?;
    let packets = u64::from(packets_spent(sheet, section));
    let cost = packets.saturating_mul(u64::from(section.block.freq));
    put_numbers(
        out,
        &[
            (b"; packets with nothing else ", packets),
            (b", cost ", cost),
        ],
    )?;
    put_text(out, b"\n")
}
