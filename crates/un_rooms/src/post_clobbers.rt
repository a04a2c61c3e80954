//! What is posted of the calls of a block: across a call, none of its temporaries has a register that calls do not keep.

ghost use Rattle.std.specs.Prelude.{◌≡◌, [], ◌∷◌, ◌++◌, List, All, OnOk, length, map, slice_get};
ghost use Rattle.std.specs.List.{AllZip};
ghost use Rattle.un_model.specs.declared.model.Arc.{Arc};
ghost use Rattle.un_rooms.specs.Calls.{SeesCall};
ghost use Rattle.un_rooms.specs.Gathered.{gathered, IsAmong};
ghost use Rattle.un_sites.specs.Places.{Place, definers_of};
ghost use Rattle.un_ir.specs.Kinds.{is_call_kind};
ghost use Rattle.un_sites.specs.Postings.{with_kind};
ghost use Rattle.un_sites.specs.Rooms.{arcs_or, clobbers_of, spared_at, spared_in, temps_in, users_of};
ghost use Rattle.un_sites.specs.Sites.{definers_in, place_of};
ghost use Rattle.un_rooms.specs.declared.call_rows.CallSite.{CallSite};

use crate::call_rows::{CallSite, calls_but};
use crate::post_aparts::{Span, all_users, span_of, temp_with, temps_in};
use crate::see_calls::see_calls;
use crate::span::reach_of;
use un_base::ids::TempId;
use un_base::memory_error::NoMemory;
use un_base::numbers::{advance, number};
use un_ir::extended::ExtBlock;
use un_kinds::make_rect::make_clobber;
use un_kinds::props::Props;
use un_lists::items::Items;
use un_model::model::{Arc, BlockVars, Model};
use un_prop::act::UserOf;
use un_sites::sites::{Site, Spot, site_of};
use un_sites::tables::add_block;

/// What is posted of the calls of a block for one of its temporaries, where the users of these stand from `first` on.
pub(crate) fn post_spared(
    props: &mut Props,
    mask: u64,
    sites: &[Site<'_>],
    calls: &[CallSite],
    first: u32,
    lists: &Items<Items<UserOf>>,
    t: TempId,
) -> Result<(), NoMemory>
    requires users { IsAmong first (length lists.now) t }
    requires calls { All (λ (s : CallSite). IsAmong first (length s.users) t) calls.now }
    ensures { OnOk result ((arcs : List Arc) (ps : List Place) → lists.now ≡ gathered first (length lists.now) (users_of ps)
        → AllZip (SeesCall arcs ps first) (with_kind is_call_kind ps) calls.now
        → props.new ≡ props.old ++ spared_at mask arcs (definers_in sites.now) ps t ∷ []) }
{
    let site = site_of(sites, t);
    let found = calls_but(props.alloc(), calls, first, t, &site)?;
    let users = lists.get((t.0 - first) as usize);
    let temp = temp_with(props.alloc(), &site, users.as_slice())?;
    let made = make_clobber(props.alloc(), mask, temp, found)?;
    props.push(made)?;
    Ok(())
}

/// What is posted of the calls of a block for each of these temporaries, where the users of these stand from `first` on.
pub(crate) fn post_spared_all(
    props: &mut Props,
    mask: u64,
    sites: &[Site<'_>],
    calls: &[CallSite],
    first: u32,
    lists: &Items<Items<UserOf>>,
    temps: &[TempId],
) -> Result<(), NoMemory>
    requires users { All (IsAmong first (length lists.now)) temps.now }
    requires calls { All (λ (s : CallSite). length s.users ≡ length lists.now) calls.now }
    ensures { OnOk result ((arcs : List Arc) (ps : List Place) → lists.now ≡ gathered first (length lists.now) (users_of ps)
        → AllZip (SeesCall arcs ps first) (with_kind is_call_kind ps) calls.now
        → props.new ≡ props.old ++ map (spared_at mask arcs (definers_in sites.now) ps) temps.now) }
{
    for t in temps {
        post_spared(props, mask, sites, calls, first, lists, *t)?;
    }
    Ok(())
}

/// What is posted of the calls of a block for each of these temporaries, which are of a span.
fn post_span(
    props: &mut Props,
    mask: u64,
    sites: &[Site<'_>],
    arcs: &[Arc],
    spots: &[Spot<'_>],
    span: Span,
    temps: &[TempId],
) -> Result<(), NoMemory>
    requires { All (IsAmong span.first span.count) temps.now }
    ensures { OnOk result (props.new ≡ props.old
        ++ map (spared_at mask arcs.now (definers_in sites.now) (map place_of spots.now)) temps.now) }
{
    let reach = reach_of(spots, arcs);
    let lists = all_users(props.alloc(), span.first, span.count, spots)?;
    let calls = see_calls(props.alloc(), reach, arcs, span, spots)?;
    post_spared_all(
        props,
        mask,
        sites,
        calls.as_slice(),
        span.first,
        &lists,
        temps,
    )?;
    Ok(())
}

/// What is posted of the calls of a block with these operations and arcs.
pub fn post_block(
    props: &mut Props,
    mask: u64,
    sites: &[Site<'_>],
    arcs: &[Arc],
    spots: &[Spot<'_>],
) -> Result<(), NoMemory>
    ensures { OnOk result (props.new ≡ props.old
        ++ map (spared_at mask arcs.now (definers_in sites.now) (map place_of spots.now)) (temps_in (map place_of spots.now))) }
{
    let temps = temps_in(props.alloc(), spots)?;
    let span = span_of(temps.as_slice());
    post_span(props, mask, sites, arcs, spots, span, temps.as_slice())?;
    Ok(())
}

/// The arcs of block `b`; a block that is not there has none.
pub fn arcs_at(arcs: &Items<Items<Arc>>, b: u32) -> &[Arc]
    ensures { result.now ≡ arcs_or (slice_get arcs.now b) }
{
    let i = b as usize;
    if i < arcs.len() {
        arcs.get(i).as_slice()
    } else {
        &[]
    }
}

/// What is posted of the calls of block `b`, of which the first operation has the number `first`.
fn post_block_at(
    props: &mut Props,
    m: &Model,
    sites: &[Site<'_>],
    b: u32,
    first: u32,
    block: &ExtBlock,
    vars: &BlockVars,
) -> Result<(), NoMemory>
    ensures { OnOk result (props.new ≡ props.old
        ++ spared_in m.now.ext.table.clobbered m.now.arcs (definers_in sites.now) b first block.now vars.now) }
{
    let mut spots = Items::from_vec(Vec::with_capacity(props.alloc(), block.ops.len())?);
    add_block(&mut spots, b, first, block, vars)?;
    let mask = m.ext.table.clobbered;
    post_block(props, mask, sites, arcs_at(&m.arcs, b), spots.as_slice())
}

/// What is posted of the calls of all blocks of a model, of which this is the table of definers.
pub fn post_clobbers(props: &mut Props, m: &Model, sites: &[Site<'_>]) -> Result<(), NoMemory>
    requires { definers_in sites.now ≡ definers_of m.now }
    ensures { OnOk result (props.new ≡ props.old ++ clobbers_of m.now) }
{
    let mut n = 0;
    for k in 0..m.ext.blocks.len().min(m.blocks.len()) {
        let b = number(k)?;
        let block = m.ext.blocks.get(k);
        post_block_at(props, m, sites, b, n, block, m.blocks.get(k))?;
        n = advance(n, block.ops.len())?;
    }
    Ok(())
}
