//! What stands behind a call whatever the cycles are.

ghost use Rattle.std.specs.Prelude.{◌≡◌, ◌==◌, ◌||◌, ◌&&◌, not, All, IfOk, filter, map};
ghost use Rattle.un_model.specs.declared.model.Arc.{Arc};
ghost use Rattle.un_sites.specs.Places.{Place};
ghost use Rattle.un_rooms.specs.Calls.{on_side};
ghost use Rattle.un_rooms.specs.Reach.{mark_at, IsWithin, IsArcWithin};
ghost use Rattle.un_ir.specs.Kinds.{ends_block};
ghost use Rattle.un_sites.specs.Rooms.{is_behind};
ghost use Rattle.un_sites.specs.Sites.{place_of};

use crate::reach::{Reach, mark_at, mark_reached};
use std::alloc::{AllocError, Global};
use un_lists::items::Items;
use un_model::model::Arc;
use un_sites::sites::Spot;

/// Whether an operation is behind the call with a number, of which the marks say what it reaches, or, as is asked for, is not.
fn is_on_side(low: u32, marks: &[bool], call: u32, behind: bool, p: &Spot<'_>) -> bool
    ensures { result ≡ on_side behind (ends_block p.now.it.now.kind || (not (p.now.op == call) && mark_at low marks.now p.now.op)) }
{
    let is_behind = p.it.kind.ends_block() || (p.op != call && mark_at(low, marks, p.op));
    if behind { is_behind } else { !is_behind }
}

/// Those of the operations that are behind the call with a number, of which the marks say what it reaches, or that are not.
fn on_side_by<'a>(
    alloc: Global,
    low: u32,
    marks: &[bool],
    call: u32,
    behind: bool,
    spots: &[Spot<'a>],
) -> Result<Items<Spot<'a>>, AllocError>
    ensures { IfOk result (λ found. map place_of found ≡ filter (λ (p : Place).
        on_side behind (ends_block p.it.kind || (not (p.op == call) && mark_at low marks.now p.op))) (map place_of spots.now)) }
{
    let mut found = Items::new(alloc);
    for p in spots {
        if is_on_side(low, marks, call, behind, p) {
            found.push(*p)?;
        }
    }
    Ok(found)
}

/// The operations of a list that are behind a call, or, where `behind` is false, those that are not.
pub(crate) fn on_side<'a>(
    alloc: Global,
    reach: Reach,
    arcs: &[Arc],
    call: &Spot<'_>,
    behind: bool,
    spots: &[Spot<'a>],
) -> Result<Items<Spot<'a>>, AllocError>
    requires arcs { All (IsArcWithin reach.low reach.count) arcs.now }
    requires call { IsWithin reach.low reach.count call.now.op }
    ensures { IfOk result (λ found. map place_of found
        ≡ filter (λ (p : Place). on_side behind (is_behind arcs.now (place_of call.now) p)) (map place_of spots.now)) }
{
    let marks = mark_reached(alloc, reach, arcs, call.op)?;
    on_side_by(alloc, reach.low, marks.as_slice(), call.op, behind, spots)
}
