//! What is there in the cycle of an operation and is read after it: what is known of the cycles of the other operations of its block.

ghost use Rattle.std.specs.Prelude.{◌≡◌, ◌==◌, ◌&&◌, ◌||◌, not, true, false, All, IfOk, filter, if◌then◌else◌, length, map};
ghost use Rattle.std.specs.List.{list_any};
ghost use Rattle.un_ir.specs.Kinds.{is_source, ends_block};
ghost use Rattle.un_ir.specs.Linear.{is_in, is_out};
ghost use Rattle.un_model.specs.declared.model.Arc.{Arc};
ghost use Rattle.un_rooms.specs.Reach.{mark_at, IsWithin, IsArcWithin};
ghost use Rattle.un_sites.specs.Crossings.{alive, is_after, is_free};
ghost use Rattle.un_sites.specs.Places.{Place};
ghost use Rattle.un_sites.specs.Rooms.{is_before};
ghost use Rattle.un_sites.specs.Sites.{place_of};
ghost use Rattle.un_sites.specs.declared.sites.Spot.{Spot};

use crate::crossings::{Crossing, crossing_count};
use crate::post_aparts::temps_in;
use crate::reach::{Reach, mark_at, mark_leading, mark_waiting};
use crate::saved::is_out;
use std::alloc::{AllocError, Global};
use un_ir::extended::ExtKind;
use un_lists::items::Items;
use un_model::model::Arc;
use un_sites::sites::Spot;

/// Those of the operations that have issued by the cycle of the operation of which the marks say what leads to it.
fn before_by<'a>(
    alloc: Global,
    low: u32,
    marks: &[bool],
    spots: &[Spot<'a>],
) -> Result<Items<Spot<'a>>, AllocError>
    ensures { IfOk result (λ found. map place_of found
        ≡ filter (λ (p : Place). is_in p.it.kind || mark_at low marks.now p.op) (map place_of spots.now)) }
{
    let mut found = Items::new(alloc);
    for p in spots {
        if p.it.kind.is_in() || mark_at(low, marks, p.op) {
            found.push(*p)?;
        }
    }
    Ok(found)
}

/// Those of the operations that have issued by the cycle of an operation, whatever the cycles are.
pub(crate) fn before<'a>(
    alloc: Global,
    reach: Reach,
    arcs: &[Arc],
    o: &Spot<'_>,
    spots: &[Spot<'a>],
) -> Result<Items<Spot<'a>>, AllocError>
    requires arcs { All (IsArcWithin reach.low reach.count) arcs.now }
    requires o { IsWithin reach.low reach.count o.now.op }
    ensures { IfOk result (λ found. map place_of found
        ≡ filter (λ (d : Place). is_before arcs.now d (place_of o.now)) (map place_of spots.now)) }
{
    let marks = mark_leading(alloc, reach, arcs, o.op)?;
    let found = before_by(alloc, reach.low, marks.as_slice(), spots)?;
    Ok(found)
}

/// Those of the source's operations that need not have issued by the cycle of the operation of which the marks say what leads to it.
fn free_by<'a>(
    alloc: Global,
    low: u32,
    marks: &[bool],
    spots: &[Spot<'a>],
) -> Result<Items<Spot<'a>>, AllocError>
    ensures { IfOk result (λ found. map place_of found ≡ filter (λ (p : Place).
        is_source p.it.kind && not (is_in p.it.kind || mark_at low marks.now p.op)) (map place_of spots.now)) }
{
    let mut found = Items::new(alloc);
    for p in spots {
        if p.it.kind.is_source() && !(p.it.kind.is_in() || mark_at(low, marks, p.op)) {
            found.push(*p)?;
        }
    }
    Ok(found)
}

/// Those of the source's operations that need not have issued by the cycle of an operation.
fn free<'a>(
    alloc: Global,
    reach: Reach,
    arcs: &[Arc],
    o: &Spot<'_>,
    spots: &[Spot<'a>],
) -> Result<Items<Spot<'a>>, AllocError>
    requires arcs { All (IsArcWithin reach.low reach.count) arcs.now }
    requires o { IsWithin reach.low reach.count o.now.op }
    ensures { IfOk result (λ found. map place_of found ≡ filter (is_free arcs.now (place_of o.now)) (map place_of spots.now)) }
{
    let marks = mark_leading(alloc, reach, arcs, o.op)?;
    let found = free_by(alloc, reach.low, marks.as_slice(), spots)?;
    Ok(found)
}

/// Whether an operation is one of the source that is marked.
fn follows(low: u32, marks: &[bool], p: &Spot<'_>) -> bool
    ensures { result ≡ (is_source (place_of p.now).it.kind && mark_at low marks.now (place_of p.now).op) }
{
    p.it.kind.is_source() && mark_at(low, marks, p.op)
}

/// Whether one of these operations is.
fn any_follows(low: u32, marks: &[bool], spots: &[Spot<'_>]) -> bool
    ensures { result ≡ list_any (λ (p : Spot). is_source (place_of p).it.kind && mark_at low marks.now (place_of p).op) spots.now }
{
    spots.iter().any(|p| follows(low, marks, p))
}

/// Whether an operation ends its block: the block's end, or, as is asked for, the terminator too.
fn is_closing(with_terminator: bool, kind: &ExtKind) -> bool
    ensures { result ≡ (if with_terminator then ends_block kind.now else is_out kind.now) }
{
    if with_terminator {
        kind.ends_block()
    } else {
        is_out(kind)
    }
}

/// Those of the operations that end the block, as is asked for, or are marked.
fn after_by<'a>(
    alloc: Global,
    low: u32,
    marks: &[bool],
    with_terminator: bool,
    spots: &[Spot<'a>],
) -> Result<Items<Spot<'a>>, AllocError>
    ensures { IfOk result (λ found. map place_of found ≡ filter (λ (p : Place).
        (if with_terminator then ends_block p.it.kind else is_out p.it.kind) || mark_at low marks.now p.op) (map place_of spots.now)) }
{
    let mut found = Items::new(alloc);
    for p in spots {
        if is_closing(with_terminator, &p.it.kind) || mark_at(low, marks, p.op) {
            found.push(*p)?;
        }
    }
    Ok(found)
}

/// Those of the operations that issue after an operation, whatever the cycles are.
pub(crate) fn after<'a>(
    alloc: Global,
    reach: Reach,
    arcs: &[Arc],
    o: &Spot<'_>,
    spots: &[Spot<'a>],
) -> Result<Items<Spot<'a>>, AllocError>
    requires arcs { All (IsArcWithin reach.low reach.count) arcs.now }
    requires o { IsWithin reach.low reach.count o.now.op }
    ensures { IfOk result (λ found. map place_of found
        ≡ filter (is_after arcs.now (map place_of spots.now) (place_of o.now)) (map place_of spots.now)) }
{
    let marks = mark_waiting(alloc, reach, arcs, o.op)?;
    let with_terminator = any_follows(reach.low, marks.as_slice(), spots);
    let found = after_by(alloc, reach.low, marks.as_slice(), with_terminator, spots)?;
    Ok(found)
}

/// How many values are there in the cycle of an operation and are read after it, where these have issued by then and these issue later.
pub(crate) fn alive_by(
    alloc: Global,
    reach: Reach,
    arcs: &[Arc],
    o: &Spot<'_>,
    spots: &[Spot<'_>],
    before: &[Spot<'_>],
    after: &[Spot<'_>],
) -> Result<Crossing, AllocError>
    requires arcs { All (IsArcWithin reach.low reach.count) arcs.now }
    requires o { IsWithin reach.low reach.count o.now.op }
    requires before { map place_of before.now
        ≡ filter (λ (d : Place). is_before arcs.now d (place_of o.now)) (map place_of spots.now) }
    requires after { map place_of after.now
        ≡ filter (is_after arcs.now (map place_of spots.now) (place_of o.now)) (map place_of spots.now) }
    ensures all { IfOk result (λ k. k.all ≡ length (alive false arcs.now (map place_of spots.now) (place_of o.now))) }
    ensures in_registers { IfOk result (λ k. k.in_registers
        ≡ length (alive true arcs.now (map place_of spots.now) (place_of o.now))) }
{
    let loose = free(alloc, reach, arcs, o, spots)?;
    let values = temps_in(alloc, before)?;
    let all = crossing_count(alloc, false, after, loose.as_slice(), values.as_slice())?;
    let in_registers = crossing_count(alloc, true, after, loose.as_slice(), values.as_slice())?;
    Ok(Crossing { all, in_registers })
}
