//! What is posted of pressure: in each cycle of a block, and across each of its calls, there is room for the values that are there.

ghost use Rattle.std.specs.Prelude.{◌≡◌, [], ◌∷◌, ◌++◌, All, IfOk, OnOk, length, map, slice_get};
ghost use Rattle.un_ir.specs.Kinds.{is_call_kind};
ghost use Rattle.un_rooms.specs.Reach.{IsWithin, IsArcWithin};
ghost use Rattle.un_sites.specs.Places.{definers_of};
ghost use Rattle.un_sites.specs.Postings.{with_kind};
ghost use Rattle.un_sites.specs.Pressures.{live_by, across_by, pressure_by, pressure_in, pressures_of};
ghost use Rattle.un_sites.specs.Sites.{place_of, definers_in};
ghost use Rattle.un_sites.specs.declared.sites.Spot.{Spot};

use crate::call_waits::calls_in;
use crate::crossings::crossing_all;
use crate::post_clobbers::arcs_at;
use crate::reach::Reach;
use crate::room::{block_room, spared_count};
use crate::span::reach_of;
use crate::spans::{mandatory_in, spans_in};
use un_base::memory_error::NoMemory;
use un_base::numbers::{advance, number};
use un_ir::extended::ExtBlock;
use un_kinds::make_press::{make_across, make_live};
use un_kinds::props::Props;
use un_lists::items::Items;
use un_model::model::{Arc, BlockVars, Model};
use un_sites::sites::{Site, Spot, cycle_var};
use un_sites::tables::add_block;

/// In each cycle there is room for the values of a block with these operations.
fn post_live(
    props: &mut Props,
    room: &[u32],
    horizon: u32,
    spots: &[Spot<'_>],
) -> Result<(), NoMemory>
    ensures { OnOk result (props.new ≡ props.old ++ live_by room.now horizon (map place_of spots.now) ∷ []) }
{
    let mandatory = mandatory_in(props.alloc(), spots)?;
    let values = spans_in(props.alloc(), mandatory.as_slice())?;
    let count = number(room.len())?;
    let made = make_live(props.alloc(), values, count, horizon)?;
    props.push(made)
}

/// There is room for the values that cross a call of a block with these operations.
fn post_across(
    props: &mut Props,
    mask: u64,
    reach: Reach,
    arcs: &[Arc],
    room: &[u32],
    spots: &[Spot<'_>],
    call: &Spot<'_>,
) -> Result<(), NoMemory>
    requires arcs { All (IsArcWithin reach.low reach.count) arcs.now }
    requires call { IsWithin reach.low reach.count call.now.op }
    ensures { OnOk result (props.new ≡ props.old
        ++ across_by mask arcs.now room.now (map place_of spots.now) (place_of call.now) ∷ []) }
{
    let crossing = crossing_all(props.alloc(), reach, arcs, call, spots)?;
    let sure = number(crossing)?;
    let spared = number(spared_count(mask, room))?;
    let made = make_across(props.alloc(), cycle_var(call), sure, spared)?;
    props.push(made)
}

/// The same of each of these calls.
fn post_calls(
    props: &mut Props,
    mask: u64,
    reach: Reach,
    arcs: &[Arc],
    room: &[u32],
    spots: &[Spot<'_>],
    calls: &[Spot<'_>],
) -> Result<(), NoMemory>
    requires arcs { All (IsArcWithin reach.low reach.count) arcs.now }
    requires calls { All (λ (p : Spot). IsWithin reach.low reach.count p.op) calls.now }
    ensures { OnOk result (props.new ≡ props.old
        ++ map (across_by mask arcs.now room.now (map place_of spots.now)) (map place_of calls.now)) }
{
    for call in calls {
        post_across(props, mask, reach, arcs, room, spots, call)?;
    }
    Ok(())
}

/// The same of each call of a block.
fn post_crossings(
    props: &mut Props,
    mask: u64,
    arcs: &[Arc],
    room: &[u32],
    spots: &[Spot<'_>],
) -> Result<(), NoMemory>
    ensures { OnOk result (props.new ≡ props.old
        ++ map (across_by mask arcs.now room.now (map place_of spots.now)) (with_kind is_call_kind (map place_of spots.now))) }
{
    let reach = reach_of(spots, arcs);
    let calls = calls_in(props.alloc(), reach, spots)?;
    post_calls(props, mask, reach, arcs, room, spots, calls.as_slice())?;
    Ok(())
}

/// What is posted of the pressure of a block with these operations and arcs, and this room.
fn post_block(
    props: &mut Props,
    mask: u64,
    arcs: &[Arc],
    room: &[u32],
    horizon: u32,
    spots: &[Spot<'_>],
) -> Result<(), NoMemory>
    ensures { OnOk result (props.new ≡ props.old ++ pressure_by mask arcs.now room.now horizon (map place_of spots.now)) }
{
    post_live(props, room, horizon, spots)?;
    post_crossings(props, mask, arcs, room, spots)?;
    Ok(())
}

/// What is posted of the pressure of block `b`, of which the first operation has the number `first`.
fn post_block_at(
    props: &mut Props,
    m: &Model,
    sites: &[Site<'_>],
    b: u32,
    first: u32,
    block: &ExtBlock,
    vars: &BlockVars,
) -> Result<(), NoMemory>
    ensures { OnOk result (props.new ≡ props.old ++ pressure_in m.now (definers_in sites.now) b first block.now vars.now) }
{
    let mut spots = Items::from_vec(Vec::with_capacity(props.alloc(), block.ops.len())?);
    add_block(&mut spots, b, first, block, vars)?;
    let room = block_room(props.alloc(), m.domains.as_slice(), sites, spots.as_slice())?;
    let mask = m.ext.table.clobbered;
    let arcs = arcs_at(&m.arcs, b);
    post_block(props, mask, arcs, &room, block.horizon, spots.as_slice())
}

/// What is posted of the pressure of all blocks of a model, of which this is the table of definers.
pub fn post_pressures(props: &mut Props, m: &Model, sites: &[Site<'_>]) -> Result<(), NoMemory>
    requires { definers_in sites.now ≡ definers_of m.now }
    ensures { OnOk result (props.new ≡ props.old ++ pressures_of m.now) }
{
    let mut n = 0;
    for k in 0..m.ext.blocks.len().min(m.blocks.len()) {
        let b = number(k)?;
        let block = m.ext.blocks.get(k);
        post_block_at(props, m, sites, b, n, block, m.blocks.get(k))?;
        n = advance(n, block.ops.len())?;
    }
    Ok(())
}
