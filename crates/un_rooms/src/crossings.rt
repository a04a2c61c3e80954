//! What crosses calls: the values that are there before a call, and are read behind it or go into what is.

ghost use Rattle.std.specs.Prelude.{◌≡◌, ◌==◌, ◌&&◌, ◌||◌, not, true, false, All, IfOk, filter, length, map};
ghost use Rattle.std.specs.List.{list_any};
ghost use Rattle.un_ir.specs.Kinds.{is_source};
ghost use Rattle.un_ir.specs.declared.extended.Operand.{Operand};
ghost use Rattle.un_ir.specs.Linear.{first_of, is_in};
ghost use Rattle.un_model.specs.declared.model.Arc.{Arc};
ghost use Rattle.un_rooms.specs.Reach.{mark_at, IsWithin, IsArcWithin};
ghost use Rattle.un_sites.specs.Crossings.{is_register_home, is_asked, reads_value, is_ahead, is_loose, crossing, is_crossing};
ghost use Rattle.un_sites.specs.Places.{Place};
ghost use Rattle.un_sites.specs.Rooms.{is_behind};
ghost use Rattle.un_sites.specs.Sites.{place_of};
ghost use Rattle.un_sites.specs.declared.sites.Spot.{Spot};

use crate::call_sides::on_side;
use crate::carried::{carried, marked_count};
use crate::post_aparts::temps_in;
use crate::reach::{Reach, mark_at, mark_leading};
use std::alloc::{AllocError, Global};
use un_base::ids::TempId;
use un_ir::extended::{ExtKind, Operand, first_of};
use un_isa::reg::{FIRST_SLOT, Reg};
use un_lists::items::Items;
use un_model::model::Arc;
use un_sites::sites::Spot;

/// How many values cross a call, and how many of them are read in registers.
#[derive(Clone, Copy)]
pub(crate) struct Crossing {
    pub(crate) all: usize,
    pub(crate) in_registers: usize,
}

/// Whether a home is a register.
fn is_register_home(home: Option<Reg>) -> bool
    ensures { result ≡ is_register_home home }
{
    match home {
        None => false,
        Some(r) => r.0 < FIRST_SLOT,
    }
}

/// Whether an operand finds its value in a register, where that is asked for.
pub(crate) fn is_asked(in_register: bool, kind: &ExtKind, x: &Operand) -> bool
    ensures { result ≡ is_asked in_register kind.now x.now }
{
    !in_register || (!kind.is_delimiter() || is_register_home(x.home))
}

/// Whether some of the operands of an operation of this kind reads value `n`.
fn any_reads(in_register: bool, n: u32, kind: &ExtKind, operands: &[Operand]) -> bool
    ensures { result ≡ list_any (λ (x : Operand). first_of x.alts == n && is_asked in_register kind.now x) operands.now }
{
    operands.iter().any(|x| first_of(x.alts.as_slice()) == n && is_asked(in_register, kind, x))
}

/// Whether every solution has an operation that reads value `n`.
pub(crate) fn reads_value(in_register: bool, n: u32, p: &Spot<'_>) -> bool
    ensures { result ≡ reads_value in_register n (place_of p.now) }
{
    let kind = &p.it.kind;
    kind.is_mandatory() && any_reads(in_register, n, kind, p.it.operands.as_slice())
}

/// Whether one of these operations reads value `n`.
fn any_reads_value(in_register: bool, n: u32, behind: &[Spot<'_>]) -> bool
    ensures { result ≡ list_any (λ (p : Spot). reads_value in_register n (place_of p)) behind.now }
{
    behind.iter().any(|p| reads_value(in_register, n, p))
}

/// Whether one of these operations reads value `n`.
pub(crate) fn is_read(in_register: bool, behind: &[Spot<'_>], n: u32) -> bool
    ensures { result ≡ list_any (reads_value in_register n) (map place_of behind.now) }
{
    any_reads_value(in_register, n, behind)
}

/// How many of these values cross a call that has these operations behind it, and these neither ahead of it nor the call.
pub(crate) fn crossing_count(
    alloc: Global,
    in_register: bool,
    behind: &[Spot<'_>],
    loose: &[Spot<'_>],
    values: &[TempId],
) -> Result<usize, AllocError>
    ensures { IfOk result (λ n. n
        ≡ length (filter (is_crossing in_register (map place_of behind.now) (map place_of loose.now)) values.now)) }
{
    let marks = carried(alloc, in_register, behind, loose)?;
    Ok(marked_count(marks.as_slice(), values))
}

/// Whether an operation is ahead of the call with a number, of which the marks say what leads to it.
fn is_ahead_by(low: u32, marks: &[bool], call: u32, p: &Spot<'_>) -> bool
    ensures { result ≡ (not (p.now.op == call) && (is_in p.now.it.now.kind || mark_at low marks.now p.now.op)) }
{
    p.op != call && (p.it.kind.is_in() || mark_at(low, marks, p.op))
}

/// Those of the operations that are ahead of the call with a number, of which the marks say what leads to it.
fn ahead_by<'a>(
    alloc: Global,
    low: u32,
    marks: &[bool],
    call: u32,
    spots: &[Spot<'a>],
) -> Result<Items<Spot<'a>>, AllocError>
    ensures { IfOk result (λ found. map place_of found ≡ filter (λ (p : Place).
        not (p.op == call) && (is_in p.it.kind || mark_at low marks.now p.op)) (map place_of spots.now)) }
{
    let mut found = Items::new(alloc);
    for p in spots {
        if is_ahead_by(low, marks, call, p) {
            found.push(*p)?;
        }
    }
    Ok(found)
}

/// Those of the operations that are ahead of a call.
pub(crate) fn ahead<'a>(
    alloc: Global,
    reach: Reach,
    arcs: &[Arc],
    call: &Spot<'_>,
    spots: &[Spot<'a>],
) -> Result<Items<Spot<'a>>, AllocError>
    requires arcs { All (IsArcWithin reach.low reach.count) arcs.now }
    requires call { IsWithin reach.low reach.count call.now.op }
    ensures { IfOk result (λ found. map place_of found ≡ filter (is_ahead arcs.now (place_of call.now)) (map place_of spots.now)) }
{
    let marks = mark_leading(alloc, reach, arcs, call.op)?;
    let found = ahead_by(alloc, reach.low, marks.as_slice(), call.op, spots)?;
    Ok(found)
}

/// Whether an operation of the source is neither ahead of the call with a number, of which the marks say what leads to it, nor the call.
fn is_loose_by(low: u32, marks: &[bool], call: u32, p: &Spot<'_>) -> bool
    ensures { result ≡ (is_source p.now.it.now.kind && (not (p.now.op == call)
        && not (not (p.now.op == call) && (is_in p.now.it.now.kind || mark_at low marks.now p.now.op)))) }
{
    p.it.kind.is_source() && (p.op != call && !is_ahead_by(low, marks, call, p))
}

/// Those of the operations that are so.
fn loose_by<'a>(
    alloc: Global,
    low: u32,
    marks: &[bool],
    call: u32,
    spots: &[Spot<'a>],
) -> Result<Items<Spot<'a>>, AllocError>
    ensures { IfOk result (λ found. map place_of found ≡ filter (λ (p : Place). is_source p.it.kind && (not (p.op == call)
        && not (not (p.op == call) && (is_in p.it.kind || mark_at low marks.now p.op)))) (map place_of spots.now)) }
{
    let mut found = Items::new(alloc);
    for p in spots {
        if is_loose_by(low, marks, call, p) {
            found.push(*p)?;
        }
    }
    Ok(found)
}

/// Those of the source's operations that are neither ahead of a call nor the call.
pub(crate) fn loose<'a>(
    alloc: Global,
    reach: Reach,
    arcs: &[Arc],
    call: &Spot<'_>,
    spots: &[Spot<'a>],
) -> Result<Items<Spot<'a>>, AllocError>
    requires arcs { All (IsArcWithin reach.low reach.count) arcs.now }
    requires call { IsWithin reach.low reach.count call.now.op }
    ensures { IfOk result (λ found. map place_of found ≡ filter (is_loose arcs.now (place_of call.now)) (map place_of spots.now)) }
{
    let marks = mark_leading(alloc, reach, arcs, call.op)?;
    let found = loose_by(alloc, reach.low, marks.as_slice(), call.op, spots)?;
    Ok(found)
}

/// What crosses a call that has these operations ahead of it, and these behind it.
pub(crate) fn crossing_by(
    alloc: Global,
    reach: Reach,
    arcs: &[Arc],
    call: &Spot<'_>,
    spots: &[Spot<'_>],
    before: &[Spot<'_>],
    behind: &[Spot<'_>],
) -> Result<Crossing, AllocError>
    requires arcs { All (IsArcWithin reach.low reach.count) arcs.now }
    requires call { IsWithin reach.low reach.count call.now.op }
    requires before { map place_of before.now ≡ filter (is_ahead arcs.now (place_of call.now)) (map place_of spots.now) }
    requires behind { map place_of behind.now ≡ filter (is_behind arcs.now (place_of call.now)) (map place_of spots.now) }
    ensures all { IfOk result (λ k. k.all ≡ length (crossing false arcs.now (map place_of spots.now) (place_of call.now))) }
    ensures in_registers { IfOk result (λ k. k.in_registers
        ≡ length (crossing true arcs.now (map place_of spots.now) (place_of call.now))) }
{
    let loose = loose(alloc, reach, arcs, call, spots)?;
    let values = temps_in(alloc, before)?;
    let all = crossing_count(alloc, false, behind, loose.as_slice(), values.as_slice())?;
    let in_registers = crossing_count(alloc, true, behind, loose.as_slice(), values.as_slice())?;
    Ok(Crossing { all, in_registers })
}

/// How many values cross a call.
pub(crate) fn crossing_all(
    alloc: Global,
    reach: Reach,
    arcs: &[Arc],
    call: &Spot<'_>,
    spots: &[Spot<'_>],
) -> Result<usize, AllocError>
    requires arcs { All (IsArcWithin reach.low reach.count) arcs.now }
    requires call { IsWithin reach.low reach.count call.now.op }
    ensures { IfOk result (λ n. n ≡ length (crossing false arcs.now (map place_of spots.now) (place_of call.now))) }
{
    let behind = on_side(alloc, reach, arcs, call, true, spots)?;
    let before = ahead(alloc, reach, arcs, call, spots)?;
    let loose = loose(alloc, reach, arcs, call, spots)?;
    let values = temps_in(alloc, before.as_slice())?;
    crossing_count(
        alloc,
        false,
        behind.as_slice(),
        loose.as_slice(),
        values.as_slice(),
    )
}
