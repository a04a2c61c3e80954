//! The calls of a block as the rows of a model see them: how many names cross each that are read in registers behind it.

ghost use Rattle.std.specs.Prelude.{◌≡◌, ◌==◌, true, All, IfOk, filter, length, map};
ghost use Rattle.std.specs.List.{list_any};
ghost use Rattle.un_base.specs.declared.ids.TempId.{TempId};
ghost use Rattle.un_rooms.specs.Marked.{is_marked};
ghost use Rattle.un_rooms.specs.Reach.{IsWithin, IsArcWithin};
ghost use Rattle.un_rows.specs.Rows.{is_among, names_of, crossed_by, crossed_in};
ghost use Rattle.un_sites.specs.Crossings.{crossing, is_crossing};
ghost use Rattle.un_sites.specs.Sites.{place_of};
ghost use Rattle.un_sites.specs.declared.sites.Spot.{Spot};

use crate::call_sides::on_side;
use crate::call_waits::calls_in;
use crate::carried::{carried, is_marked};
use crate::crossings::{ahead, loose};
use crate::post_aparts::temps_in;
use crate::reach::Reach;
use crate::span::reach_of;
use crate::tasks::{task_place, var_in};
use std::alloc::{AllocError, Global};
use un_base::ids::TempId;
use un_base::memory_error::NoMemory;
use un_base::numbers::number;
use un_ir::extended::ExtBlock;
use un_length::block::Task;
use un_lists::items::Items;
use un_model::model::Arc;
use un_rows::known::Crossed;
use un_saved::places::saved_in;
use un_sites::sites::Spot;

/// Whether a temporary is among these.
fn is_among(temps: &[TempId], t: TempId) -> bool
    ensures { result ≡ is_among temps.now t }
{
    temps.iter().any(|u| u.0 == t.0)
}

/// Whether one of these is.
fn any_among(temps: &[TempId], these: &[TempId]) -> bool
    ensures { result ≡ list_any (is_among temps.now) these.now }
{
    these.iter().any(|t| is_among(temps, *t))
}

/// Those of these values that are marked.
fn marked_values(
    alloc: Global,
    marks: &[bool],
    values: &[TempId],
) -> Result<Items<TempId>, AllocError>
    ensures { IfOk result (λ found. found ≡ filter (λ (t : TempId). is_marked marks.now t.0) values.now) }
{
    let mut found = Items::new(alloc);
    for t in values {
        if is_marked(marks, t.0) {
            found.push(*t)?;
        }
    }
    Ok(found)
}

/// Those of these values that cross a call, and are read in registers behind it, which has these operations behind it, and these neither
/// ahead of it nor the call.
fn carried_values(
    alloc: Global,
    behind: &[Spot<'_>],
    loose: &[Spot<'_>],
    values: &[TempId],
) -> Result<Items<TempId>, AllocError>
    ensures { IfOk result (λ found. found
        ≡ filter (is_crossing true (map place_of behind.now) (map place_of loose.now)) values.now) }
{
    let marks = carried(alloc, true, behind, loose)?;
    let found = marked_values(alloc, marks.as_slice(), values)?;
    Ok(found)
}

/// The values that cross a call and are read in registers behind it.
fn crossing_values(
    alloc: Global,
    reach: Reach,
    arcs: &[Arc],
    call: &Spot<'_>,
    spots: &[Spot<'_>],
) -> Result<Items<TempId>, AllocError>
    requires arcs { All (IsArcWithin reach.low reach.count) arcs.now }
    requires call { IsWithin reach.low reach.count call.now.op }
    ensures { IfOk result (λ found. found ≡ crossing true arcs.now (map place_of spots.now) (place_of call.now)) }
{
    let behind = on_side(alloc, reach, arcs, call, true, spots)?;
    let before = ahead(alloc, reach, arcs, call, spots)?;
    let loose = loose(alloc, reach, arcs, call, spots)?;
    let values = temps_in(alloc, before.as_slice())?;
    carried_values(
        alloc,
        behind.as_slice(),
        loose.as_slice(),
        values.as_slice(),
    )
}

/// How many names cross a call of a block and are read in registers behind it: none are counted where a saved value is among them.
fn names_count(
    alloc: Global,
    reach: Reach,
    arcs: &[Arc],
    block: &ExtBlock,
    spots: &[Spot<'_>],
    call: &Spot<'_>,
) -> Result<usize, AllocError>
    requires arcs { All (IsArcWithin reach.low reach.count) arcs.now }
    requires call { IsWithin reach.low reach.count call.now.op }
    ensures { IfOk result (λ n. n ≡ length (names_of arcs.now block.now (map place_of spots.now) (place_of call.now))) }
{
    let values = crossing_values(alloc, reach, arcs, call, spots)?;
    if any_among(saved_in(block), values.as_slice()) {
        return Ok(0);
    }
    Ok(values.len())
}

/// A call of a block with these operations in its length.
fn crossed_by(
    alloc: Global,
    reach: Reach,
    arcs: &[Arc],
    block: &ExtBlock,
    ops: &[Task],
    spots: &[Spot<'_>],
    call: &Spot<'_>,
) -> Result<Crossed, NoMemory>
    requires arcs { All (IsArcWithin reach.low reach.count) arcs.now }
    requires call { IsWithin reach.low reach.count call.now.op }
    ensures { IfOk result (λ crossed. crossed
        ≡ crossed_by arcs.now block.now ops.now (map place_of spots.now) (place_of call.now)) }
{
    let names = names_count(alloc, reach, arcs, block, spots, call)?;
    Ok(Crossed {
        place: number(task_place(ops, var_in(call.time())))?,
        names: number(names)?,
    })
}

/// So of each of these calls.
fn crossed_all(
    alloc: Global,
    reach: Reach,
    arcs: &[Arc],
    block: &ExtBlock,
    ops: &[Task],
    spots: &[Spot<'_>],
    calls: &[Spot<'_>],
) -> Result<Items<Crossed>, NoMemory>
    requires arcs { All (IsArcWithin reach.low reach.count) arcs.now }
    requires calls { All (λ (p : Spot). IsWithin reach.low reach.count p.op) calls.now }
    ensures { IfOk result (λ crossed. crossed
        ≡ map (crossed_by arcs.now block.now ops.now (map place_of spots.now)) (map place_of calls.now)) }
{
    let mut crossed = Items::new(alloc);
    for call in calls {
        let one = crossed_by(alloc, reach, arcs, block, ops, spots, call)?;
        crossed.push(one)?;
    }
    Ok(crossed)
}

/// The calls of a block with these operations in its length.
pub(crate) fn crossed_in(
    alloc: Global,
    arcs: &[Arc],
    block: &ExtBlock,
    ops: &[Task],
    spots: &[Spot<'_>],
) -> Result<Items<Crossed>, NoMemory>
    ensures { IfOk result (λ crossed. crossed ≡ crossed_in arcs.now block.now ops.now (map place_of spots.now)) }
{
    let reach = reach_of(spots, arcs);
    let calls = calls_in(alloc, reach, spots)?;
    crossed_all(alloc, reach, arcs, block, ops, spots, calls.as_slice())
}
