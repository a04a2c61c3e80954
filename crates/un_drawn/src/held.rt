//! What holds the length of a block, in words: a chain of what its operations wait for, or operations that share a resource of packets.

use crate::blocks::{Section, Sheet};
use crate::cause::{Demand, cause, demand_of};
use crate::counts::{Crowd, is_in, resource_words};
use crate::operations::put_operation;
use crate::pieces::{put_numbers, put_place, put_texts};
use crate::reach::{chain, head_at, tail_at};
use crate::waits::{Fixed, Wait};
use std::alloc::Global;
use un_base::memory_error::NoMemory;
use un_base::numbers::number;
use un_ir::text::{put_number, put_text};
use un_isa::table::Table;

/// A block with what asks for all its packets.
#[derive(Clone, Copy)]
struct Told<'a> {
    sheet: &'a Sheet<'a>,
    section: &'a Section<'a>,
    demand: &'a Demand,
}

/// What the beginning of a sentence says of what is given of the code.
fn given_words(fixed: Fixed) -> &'static [u8] {
    match fixed {
        Fixed::Nothing => b"  its length is what ",
        Fixed::Copies => b"  with its saves, reloads and moves its length is what ",
        Fixed::Registers => b"  with its registers its length is what ",
    }
}

/// Appends the line of an operation in a cycle, and for which register it waits.
fn put_line(
    out: &mut Vec<u8>,
    told: Told<'_>,
    cycle: u32,
    place: u32,
    busy: Option<u32>,
) -> Result<(), NoMemory> {
    put_numbers(out, &[(b"    cycle ", u64::from(cycle))])?;
    put_text(out, b": ")?;
    put_operation(out, told.sheet, told.section, place)?;
    if let Some(reg) = busy {
        put_text(out, b", which waits for ")?;
        put_place(out, reg)?;
    }
    put_text(out, b"\n")
}

/// Appends the lines of what an operation waits for, from the first on, and its own, each with the first cycle that it can have.
fn put_ahead(alloc: Global, out: &mut Vec<u8>, told: Told<'_>, place: u32) -> Result<(), NoMemory> {
    let all = told.demand.reaches.all.as_slice();
    let chain = chain(alloc, &told.demand.reaches, place, true)?;
    let first = chain.as_slice().last().map_or(place, |wait| wait.from);
    put_line(out, told, head_at(all, first), first, None)?;
    for wait in chain.as_slice().iter().rev() {
        put_line(out, told, head_at(all, wait.to), wait.to, wait.busy)?;
    }
    Ok(())
}

/// Appends the lines of what waits for an operation, and of what that holds, each with the last cycle that it can have.
fn put_behind(
    alloc: Global,
    out: &mut Vec<u8>,
    told: Told<'_>,
    place: u32,
) -> Result<(), NoMemory> {
    let all = told.demand.reaches.all.as_slice();
    let end = told.section.length.saturating_add(1);
    for wait in chain(alloc, &told.demand.reaches, place, false)?.as_slice() {
        let cycle = end.saturating_sub(tail_at(all, wait.to));
        put_line(out, told, cycle, wait.to, wait.busy)?;
    }
    Ok(())
}

/// Appends what the chain of an operation asks for.
fn put_chain(alloc: Global, out: &mut Vec<u8>, told: Told<'_>) -> Result<(), NoMemory> {
    put_texts(
        out,
        &[
            given_words(told.demand.fixed),
            b"this chain of precedences asks for:\n",
        ],
    )?;
    put_ahead(alloc, out, told, told.demand.last)?;
    put_behind(alloc, out, told, told.demand.last)
}

/// The place of the first operation of a crowd that can issue as early as one of them, or as late.
fn edge(t: &Table, demand: &Demand, is_first: bool) -> Result<u32, NoMemory> {
    let crowd = demand.crowd;
    let at = demand.reaches.all.as_slice().iter().position(|reach| {
        let is_edge = if is_first {
            reach.head == crowd.head
        } else {
            reach.tail == crowd.tail
        };
        is_edge && is_in(t, &crowd, reach)
    });
    number(at.unwrap_or(0))
}

/// Appends how many packets lie ahead of a crowd, and why.
fn put_before(alloc: Global, out: &mut Vec<u8>, told: Told<'_>) -> Result<(), NoMemory> {
    let before = told.demand.crowd.head.saturating_sub(1);
    if before == 0 {
        return Ok(());
    }
    put_numbers(
        out,
        &[(b"  packets before the first of them: ", u64::from(before))],
    )?;
    put_text(out, b"\n")?;
    let place = edge(&told.sheet.m.ext.table, told.demand, true)?;
    put_ahead(alloc, out, told, place)
}

/// Appends how many packets lie behind a crowd, and why.
fn put_after(alloc: Global, out: &mut Vec<u8>, told: Told<'_>) -> Result<(), NoMemory> {
    let after = told.demand.crowd.tail.saturating_sub(1);
    if after == 0 {
        return Ok(());
    }
    put_numbers(
        out,
        &[(b"  packets behind the last of them: ", u64::from(after))],
    )?;
    put_text(out, b"\n")?;
    let place = edge(&told.sheet.m.ext.table, told.demand, false)?;
    put_behind(alloc, out, told, place)
}

/// Appends what operations ask for that share a resource.
fn put_crowd(alloc: Global, out: &mut Vec<u8>, told: Told<'_>) -> Result<(), NoMemory> {
    let crowd = told.demand.crowd;
    put_texts(
        out,
        &[
            given_words(told.demand.fixed),
            b"the packets have room for: ",
        ],
    )?;
    put_number(out, u64::from(crowd.needed))?;
    put_texts(out, &[b" ", resource_words(crowd.resource)])?;
    put_numbers(out, &[(b", at most ", u64::from(crowd.places))])?;
    put_text(out, b" a packet\n")?;
    put_before(alloc, out, told)?;
    put_after(alloc, out, told)
}

/// Appends what asks for all packets of a block.
fn put_cause(alloc: Global, out: &mut Vec<u8>, told: Told<'_>) -> Result<(), NoMemory> {
    if told.demand.chained >= told.section.length {
        put_chain(alloc, out, told)
    } else {
        put_crowd(alloc, out, told)
    }
}

/// What of the code may be given, with the words behind which stands how many packets are asked for.
static LEAST: [(&[u8], Fixed); 3] = [
    (b"in any code ", Fixed::Nothing),
    (b", with its saves, reloads and moves ", Fixed::Copies),
    (b", with its registers ", Fixed::Registers),
];

/// Appends what is known of a block for whose length nothing that is looked at asks, of code that the search proved to be cheapest, or
/// did not.
fn put_unheld(
    alloc: Global,
    out: &mut Vec<u8>,
    sheet: &Sheet<'_>,
    section: &Section<'_>,
    is_proved: bool,
) -> Result<(), NoMemory> {
    put_text(out, b"  it is longer than what is looked at asks for: ")?;
    for (words, fixed) in LEAST.iter() {
        let demand = demand_of(alloc, sheet, section, *fixed)?;
        put_numbers(out, &[(*words, u64::from(demand.packets()))])?;
    }
    if is_proved {
        put_text(
            out,
            b"\n  the search proved that no code costs less, so that it is shorter only where another block is longer\n",
        )
    } else {
        put_text(out, b"; nothing that is known holds it\n")
    }
}

/// Appends what holds the length of a block, of code that the search proved to be cheapest, or did not.
pub fn put_held(
    alloc: Global,
    out: &mut Vec<u8>,
    sheet: &Sheet<'_>,
    section: &Section<'_>,
    is_proved: bool,
) -> Result<(), NoMemory> {
    let Some(demand) = cause(alloc, sheet, section)? else {
        return put_unheld(alloc, out, sheet, section, is_proved);
    };
    let told = Told {
        sheet,
        section,
        demand: &demand,
    };
    put_cause(alloc, out, told)
}
