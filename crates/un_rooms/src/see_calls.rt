//! The calls of a block, as its temporaries see them.

ghost use Rattle.std.specs.Prelude.{◌≡◌, ℕ, List, All, IfOk, filter, length, map};
ghost use Rattle.std.specs.List.{AllZip};
ghost use Rattle.un_rooms.specs.Calls.{SeesCall};
ghost use Rattle.un_rooms.specs.Gathered.{gathered};
ghost use Rattle.un_sites.specs.Places.{Place};
ghost use Rattle.un_ir.specs.Kinds.{is_call_kind};
ghost use Rattle.un_sites.specs.Postings.{with_kind};
ghost use Rattle.un_rooms.specs.Reach.{IsWithin, IsArcWithin};
ghost use Rattle.un_sites.specs.Rooms.{is_behind, users_of};
ghost use Rattle.un_sites.specs.Sites.{place_of};
ghost use Rattle.un_rooms.specs.declared.call_rows.CallSite.{CallSite};
ghost use Rattle.un_sites.specs.declared.sites.Spot.{Spot};

use crate::call_rows::CallSite;
use crate::call_sides::on_side;
use crate::post_aparts::{Span, all_users};
use crate::reach::{Reach, mark_leading};
use std::alloc::{AllocError, Global};
use un_base::memory_error::NoMemory;
use un_lists::items::Items;
use un_model::model::Arc;
use un_prop::act::UserOf;
use un_sites::sites::{Spot, cycle_var};

/// A call, with the users of each temporary among what is behind it.
pub(crate) fn see_call(
    alloc: Global,
    reach: Reach,
    arcs: &[Arc],
    call: &Spot<'_>,
    users: Items<Items<UserOf>>,
) -> Result<CallSite, AllocError>
    requires arcs { All (IsArcWithin reach.low reach.count) arcs.now }
    requires call { IsWithin reach.low reach.count call.now.op }
    ensures sees { IfOk result (λ s. (ps : List Place) (first : ℕ) → users ≡ gathered first (length users)
        (users_of (filter (is_behind arcs.now (place_of call.now)) ps)) → SeesCall arcs.now ps first (place_of call.now) s) }
    ensures long { IfOk result (λ s. length s.users ≡ length users) }
{
    let marks = mark_leading(alloc, reach, arcs, call.op)?;
    Ok(CallSite {
        op: call.op,
        at: cycle_var(call),
        low: reach.low,
        leading: Items::from_vec(marks),
        users,
    })
}

/// The users of the temporaries of a span among what is behind a call.
fn users_behind(
    alloc: Global,
    reach: Reach,
    arcs: &[Arc],
    span: Span,
    spots: &[Spot<'_>],
    call: &Spot<'_>,
) -> Result<Items<Items<UserOf>>, NoMemory>
    requires arcs { All (IsArcWithin reach.low reach.count) arcs.now }
    requires call { IsWithin reach.low reach.count call.now.op }
    ensures { IfOk result (λ lists. lists ≡ gathered span.first span.count
        (users_of (filter (is_behind arcs.now (place_of call.now)) (map place_of spots.now)))) }
{
    let later = on_side(alloc, reach, arcs, call, true, spots)?;
    let users = all_users(alloc, span.first, span.count, later.as_slice())?;
    Ok(users)
}

/// A call among the operations of a block, with the users of the temporaries of a span.
fn see_among(
    alloc: Global,
    reach: Reach,
    arcs: &[Arc],
    span: Span,
    spots: &[Spot<'_>],
    call: &Spot<'_>,
) -> Result<CallSite, NoMemory>
    requires arcs { All (IsArcWithin reach.low reach.count) arcs.now }
    requires call { IsWithin reach.low reach.count call.now.op }
    ensures sees { IfOk result (SeesCall arcs.now (map place_of spots.now) span.first (place_of call.now)) }
    ensures long { IfOk result (λ s. length s.users ≡ span.count) }
{
    let users = users_behind(alloc, reach, arcs, span, spots, call)?;
    let site = see_call(alloc, reach, arcs, call, users)?;
    Ok(site)
}

/// The calls among the operations of a block, each with the users of the temporaries of a span.
pub(crate) fn see_calls(
    alloc: Global,
    reach: Reach,
    arcs: &[Arc],
    span: Span,
    spots: &[Spot<'_>],
) -> Result<Items<CallSite>, NoMemory>
    requires arcs { All (IsArcWithin reach.low reach.count) arcs.now }
    requires spots { All (λ (p : Spot). IsWithin reach.low reach.count p.op) spots.now }
    ensures sees { IfOk result (AllZip (SeesCall arcs.now (map place_of spots.now) span.first)
        (with_kind is_call_kind (map place_of spots.now))) }
    ensures long { IfOk result (All (λ (s : CallSite). length s.users ≡ span.count)) }
{
    let mut calls = Items::new(alloc);
    for p in spots {
        if p.it.kind.is_call() {
            let site = see_among(alloc, reach, arcs, span, spots, p)?;
            calls.push(site)?;
        }
    }
    Ok(calls)
}
