//! What the operations of a block ask of it: a call keeps few registers, so of the values that cross it those that are more are spilled by
//! its cycle and reloaded after it, and with what is ahead of it and behind it they fill cycles. In a block with more values than registers
//! so does each operation of the source.

ghost use Rattle.std.specs.Prelude.{◌≡◌, ◌+◌, ◌-◌, ◌&&◌, ◌||◌, true, false, All, IfOk, filter, fold, if◌then◌else◌, length, map, max};
ghost use Rattle.un_ir.specs.Kinds.{is_call_kind, is_source};
ghost use Rattle.un_isa.specs.Tables.{latency_of};
ghost use Rattle.un_isa.specs.declared.op.Op.TheVariants.{Reload};
ghost use Rattle.un_model.specs.declared.model.Arc.{Arc};
ghost use Rattle.un_rooms.specs.Demands.{demand_of};
ghost use Rattle.un_rooms.specs.Reach.{IsWithin, IsArcWithin};
ghost use Rattle.un_sites.specs.Crossings.{kept_at, kept_over};
ghost use Rattle.un_sites.specs.Lengths.{is_full, is_asking, head_by, later_than, tail_by, tail_of, owed_head};
ghost use Rattle.un_sites.specs.Places.{Place};
ghost use Rattle.un_sites.specs.Rooms.{is_before};
ghost use Rattle.un_sites.specs.Shares.{cycles_with};
ghost use Rattle.un_sites.specs.Sites.{place_of};
ghost use Rattle.un_sites.specs.declared.sites.Spot.{Spot};

use crate::alive::{after, alive_by, before};
use crate::call_sides::on_side;
use crate::crossings::{Crossing, ahead, crossing_by};
use crate::post_aparts::temps_in;
use crate::reach::Reach;
use crate::shares::{cycles_with, has_leave};
use crate::spans::mandatory_in;
use std::alloc::{AllocError, Global};
use un_base::memory_error::NoMemory;
use un_base::numbers::{later, number};
use un_ir::extended::ExtKind;
use un_isa::op::Op;
use un_isa::reg_set::callee_saved;
use un_isa::table::{Table, latency};
use un_lists::items::Items;
use un_model::model::Arc;
use un_sites::edges::Accesses;
use un_sites::sites::Spot;

/// A cycle from which on an operation issues and how long before its block's end, at least, and what it asks for beside it.
#[derive(Clone, Copy)]
pub(crate) struct Demand {
    pub(crate) head: u32,
    pub(crate) tail: u32,
    pub(crate) asked: Accesses,
}

/// The registers that a block has for values.
#[derive(Clone, Copy)]
pub(crate) struct Room {
    pub(crate) registers: usize,
    /// Whether there are more values than registers.
    pub(crate) is_full: bool,
}

/// Whether a block with these operations has more values than registers.
fn is_full(alloc: Global, registers: usize, spots: &[Spot<'_>]) -> Result<bool, AllocError>
    ensures { IfOk result (λ b. b ≡ is_full registers (map place_of spots.now)) }
{
    let mandatory = mandatory_in(alloc, spots)?;
    let values = temps_in(alloc, mandatory.as_slice())?;
    Ok(registers < values.len())
}

/// The registers of a block with these operations, which has so many.
fn room_for(alloc: Global, registers: usize, spots: &[Spot<'_>]) -> Result<Room, AllocError>
    ensures registers { IfOk result (λ room. room.registers ≡ registers) }
    ensures full { IfOk result (λ room. room.is_full ≡ is_full registers (map place_of spots.now)) }
{
    let is_full = is_full(alloc, registers, spots)?;
    Ok(Room { registers, is_full })
}

/// Whether an operation asks for something.
fn is_asking(room: Room, p: &Spot<'_>) -> bool
    ensures { result ≡ (is_call_kind p.now.it.now.kind || (is_source p.now.it.now.kind && room.is_full)) }
{
    p.it.kind.is_call() || (p.it.kind.is_source() && room.is_full)
}

/// For how many values that are kept over an operation there are registers: a call keeps few.
fn kept_at(alloc: Global, t: &Table, registers: usize, o: &Spot<'_>) -> Result<usize, NoMemory>
    ensures { IfOk result (λ n. n ≡ kept_at t.now registers (place_of o.now)) }
{
    if o.it.kind.is_call() {
        let kept = callee_saved(alloc, t)?;
        Ok(kept.len())
    } else {
        Ok(registers)
    }
}

/// What values that are kept over an operation ask for, of which so many have registers: no value at the start of the entry is in a slot.
fn accesses(kept: usize, is_entry: bool, values: Crossing) -> Result<Accesses, NoMemory>
    ensures spills { IfOk result (λ asked. asked.spills ≡ (if is_entry then values.all - kept else 0)) }
    ensures reloads { IfOk result (λ asked. asked.reloads ≡ values.in_registers - kept) }
{
    let all = number(values.all.saturating_sub(kept))?;
    let reloads = number(values.in_registers.saturating_sub(kept))?;
    Ok(Accesses {
        spills: if is_entry { all } else { 0 },
        reloads,
    })
}

/// The first cycle in which an operation has its Spills behind it.
fn head_by(spills: u32) -> Result<u32, NoMemory>
    ensures { IfOk result (λ head. head ≡ head_by spills) }
{
    if spills == 0 {
        return Ok(0);
    }
    later(spills, 1)
}

/// How long before its block's end an operation issues, for its Reloads.
fn tail_by(latency: u32, reloads: u32) -> Result<u32, NoMemory>
    ensures { IfOk result (λ tail. tail ≡ tail_by latency reloads) }
{
    if reloads == 0 {
        return Ok(1);
    }
    let more = later(reloads, 1)?;
    later(latency, more / 2)
}

/// The first cycle in which the end of a block has behind it the Spills and the Reloads that the block owes.
pub(crate) fn owed_head(t: &Table, owed: Accesses) -> Result<u32, NoMemory>
    ensures { IfOk result (λ head. head ≡ owed_head t.now owed) }
{
    let spilled = later(head_by(owed.spills)?, 1)?;
    let reloaded = tail_by(latency(t, Op::Reload), owed.reloads)?;
    Ok(spilled.max(reloaded))
}

/// The first cycle in which an operation has these, of which it is one, and its Spills behind it.
fn head_with(t: &Table, early: &[Spot<'_>], spills: u32) -> Result<u32, NoMemory>
    ensures { IfOk result (λ head. head ≡ max (head_by spills) (cycles_with t.now (map place_of early.now) false spills 0)) }
{
    let head = head_by(spills)?;
    let asked = Accesses { spills, reloads: 0 };
    let cycles = cycles_with(t, early, false, asked)?;
    Ok(head.max(cycles))
}

/// How long before its block's end an operation issues, for these and its Reloads.
fn tail_with(t: &Table, late: &[Spot<'_>], leaves: bool, reloads: u32) -> Result<u32, NoMemory>
    ensures { IfOk result (λ tail. tail ≡ max (tail_by (latency_of t.now Reload) reloads)
        (cycles_with t.now (map place_of late.now) leaves 0 reloads + 1)) }
{
    let tail = tail_by(latency(t, Op::Reload), reloads)?;
    let asked = Accesses { spills: 0, reloads };
    let cycles = cycles_with(t, late, leaves, asked)?;
    Ok(tail.max(later(cycles, 1)?))
}

/// Those of the operations that are behind a call, or after another operation.
fn later_than<'a>(
    alloc: Global,
    reach: Reach,
    arcs: &[Arc],
    o: &Spot<'_>,
    spots: &[Spot<'a>],
) -> Result<Items<Spot<'a>>, AllocError>
    requires arcs { All (IsArcWithin reach.low reach.count) arcs.now }
    requires o { IsWithin reach.low reach.count o.now.op }
    ensures { IfOk result (λ found. map place_of found ≡ later_than arcs.now (map place_of spots.now) (place_of o.now)) }
{
    if o.it.kind.is_call() {
        on_side(alloc, reach, arcs, o, true, spots)
    } else {
        after(alloc, reach, arcs, o, spots)
    }
}

/// How many values are kept over an operation, where these have issued by its cycle and these issue later.
fn kept_over(
    alloc: Global,
    reach: Reach,
    arcs: &[Arc],
    o: &Spot<'_>,
    spots: &[Spot<'_>],
    early: &[Spot<'_>],
    later: &[Spot<'_>],
) -> Result<Crossing, AllocError>
    requires arcs { All (IsArcWithin reach.low reach.count) arcs.now }
    requires o { IsWithin reach.low reach.count o.now.op }
    requires early { map place_of early.now
        ≡ filter (λ (d : Place). is_before arcs.now d (place_of o.now)) (map place_of spots.now) }
    requires later { map place_of later.now ≡ later_than arcs.now (map place_of spots.now) (place_of o.now) }
    ensures all { IfOk result (λ k. k.all ≡ length (kept_over false arcs.now (map place_of spots.now) (place_of o.now))) }
    ensures in_registers { IfOk result (λ k. k.in_registers
        ≡ length (kept_over true arcs.now (map place_of spots.now) (place_of o.now))) }
{
    if o.it.kind.is_call() {
        let ahead = ahead(alloc, reach, arcs, o, spots)?;
        crossing_by(alloc, reach, arcs, o, spots, ahead.as_slice(), later)
    } else {
        alive_by(alloc, reach, arcs, o, spots, early, later)
    }
}

/// What an operation asks for that does ask.
fn asked_demand<'a>(
    alloc: Global,
    t: &Table,
    registers: usize,
    is_entry: bool,
    reach: Reach,
    arcs: &[Arc],
    o: &Spot<'a>,
    spots: &[Spot<'a>],
) -> Result<Demand, NoMemory>
    requires arcs { All (IsArcWithin reach.low reach.count) arcs.now }
    requires within { IsWithin reach.low reach.count o.now.op }
    requires asking { is_asking registers (map place_of spots.now) (place_of o.now) ≡ true }
    ensures { IfOk result (λ d. d ≡ demand_of t.now registers is_entry arcs.now (map place_of spots.now) (place_of o.now)) }
{
    let early = before(alloc, reach, arcs, o, spots)?;
    let later = later_than(alloc, reach, arcs, o, spots)?;
    let values = kept_over(
        alloc,
        reach,
        arcs,
        o,
        spots,
        early.as_slice(),
        later.as_slice(),
    )?;
    let kept = kept_at(alloc, t, registers, o)?;
    let asked = accesses(kept, is_entry, values)?;
    let head = head_with(t, early.as_slice(), asked.spills)?;
    let tail = tail_with(t, later.as_slice(), has_leave(spots), asked.reloads)?;
    Ok(Demand { head, tail, asked })
}

/// How long before its block's end an operation issues, at least.
fn tail_of(kind: &ExtKind) -> u32
    ensures { result ≡ tail_of kind.now }
{
    match kind {
        ExtKind::Out => 0,
        ExtKind::In => 1,
        ExtKind::Body(_) => 1,
        ExtKind::End(_) => 1,
        ExtKind::Copy(_) => 1,
        ExtKind::Enter => 1,
        ExtKind::Leave => 1,
    }
}

/// What an operation asks for.
fn demand_of<'a>(
    alloc: Global,
    t: &Table,
    room: Room,
    is_entry: bool,
    reach: Reach,
    arcs: &[Arc],
    p: &Spot<'a>,
    spots: &[Spot<'a>],
) -> Result<Demand, NoMemory>
    requires arcs { All (IsArcWithin reach.low reach.count) arcs.now }
    requires within { IsWithin reach.low reach.count p.now.op }
    requires full { room.is_full ≡ is_full room.registers (map place_of spots.now) }
    ensures { IfOk result (λ d. d ≡ demand_of t.now room.registers is_entry arcs.now (map place_of spots.now) (place_of p.now)) }
{
    if is_asking(room, p) {
        return asked_demand(alloc, t, room.registers, is_entry, reach, arcs, p, spots);
    }
    Ok(Demand {
        head: 0,
        tail: tail_of(&p.it.kind),
        asked: Accesses {
            spills: 0,
            reloads: 0,
        },
    })
}

/// What each of a block's operations asks for, where the block has so many registers.
pub(crate) fn demands_in(
    alloc: Global,
    t: &Table,
    registers: usize,
    is_entry: bool,
    reach: Reach,
    arcs: &[Arc],
    spots: &[Spot<'_>],
) -> Result<Items<Demand>, NoMemory>
    requires spots { All (λ (p : Spot). IsWithin reach.low reach.count p.op) spots.now }
    requires arcs { All (IsArcWithin reach.low reach.count) arcs.now }
    ensures { IfOk result (λ demands. demands
        ≡ map (demand_of t.now registers is_entry arcs.now (map place_of spots.now)) (map place_of spots.now)) }
{
    let room = room_for(alloc, registers, spots)?;
    let mut demands = Items::new(alloc);
    for p in spots {
        let demand = demand_of(alloc, t, room, is_entry, reach, arcs, p, spots)?;
        demands.push(demand)?;
    }
    Ok(demands)
}

/// The most Spills that are owed or that one of them asks for, and the most Reloads.
pub(crate) fn most(owed: Accesses, demands: &[Demand]) -> Accesses
    ensures spills { result.spills ≡ fold max owed.spills (map (λ (d : Demand). d.asked.spills) demands.now) }
    ensures reloads { result.reloads ≡ fold max owed.reloads (map (λ (d : Demand). d.asked.reloads) demands.now) }
{
    let mut spills = owed.spills;
    let mut reloads = owed.reloads;
    for d in demands {
        spills = spills.max(d.asked.spills);
        reloads = reloads.max(d.asked.reloads);
    }
    Accesses { spills, reloads }
}
