//! What is posted for one block of a model: propagators that all hold for exactly the assignments that the block allows by itself, and
//! that cost less there than a limit.

ghost use Rattle.std.specs.Prelude.{◌≡◌, ◌<◌, [], ◌++◌, All, IfOk, OnOk, Some, length, map, slice_get};
ghost use Rattle.un_isa.specs.Fit.{IsFit};
ghost use Rattle.un_domains.specs.Domains.{values_of};
ghost use Rattle.un_domains.specs.Sets.{Sets, NoneEmpty};
ghost use Rattle.un_ir.specs.Extended.{IsExtended};
ghost use Rattle.un_model.specs.Options.{AreOptions};
ghost use Rattle.un_model.specs.Variables.{IsModel};
ghost use Rattle.un_kinds.specs.AnyProps.{constraint_of, cut_of};
ghost use Rattle.un_kinds.specs.Scopes.{IsTight};
ghost use Rattle.un_prop.specs.Rounds.{fix_of};
ghost use Rattle.un_sites.specs.Places.{block_places, definers_of, places_of};
ghost use Rattle.un_sites.specs.Sites.{place_of, definers_in};
ghost use Rattle.un_post.specs.PartPostings.{part_in, part_postings, part_rooms, part_single, where_block};
ghost use Rattle.un_post.specs.PartPosts.{IsPartExact, FailsWherePartEmpty, fix_part};
ghost use Rattle.un_post.specs.Posts.{ReadsFrom, IsGrounded, SpansAtMost, largest_horizon};

use crate::post::{Listed, Posted, with_store};
use std::alloc::Global;
use un_base::ids::BlockId;
use un_base::memory_error::NoMemory;
use un_base::numbers::{advance, number};
use un_ir::extended::ExtBlock;
use un_kinds::props::Props;
use un_lists::items::Items;
use un_model::model::{BlockVars, Model};
use un_rooms::post_aparts::post_apart;
use un_rooms::post_clobbers::{arcs_at, post_block as post_spared};
use un_rooms::post_packets::post_block as post_packets;
use un_rooms::post_twos::post_twos_at;
use un_single::post_arcs::post_arcs_in;
use un_single::post_edges::post_block as post_edges;
use un_single::post_frame::post_part_frame;
use un_single::post_limit::post_part_limit;
use un_single::post_places::post_places;
use un_sites::sites::{Site, Spot};
use un_sites::tables::{add_block, all_sites, all_spots};

/// A block of a model, as what is posted for it needs it.
#[derive(Clone, Copy)]
struct Part<'a> {
    /// Its number.
    b: u32,
    /// The number of its first operation.
    first: u32,
    /// The block itself.
    block: &'a ExtBlock,
    /// Its variables.
    vars: &'a BlockVars,
}

/// What is posted of the cost of a block, of its operations, of the edges from it and of the frame in it, where these are the block's
/// operations.
#[tactic(auto, using(un_kinds::proofs::Appends::four_added))]
fn post_single(
    props: &mut Props,
    m: &Model,
    limit: Option<u64>,
    sites: &[Site<'_>],
    own: &[Spot<'_>],
    p: &Part<'_>,
) -> Result<(), NoMemory>
    requires sites { definers_in sites.now ≡ definers_of m.now }
    requires block { slice_get m.now.ext.blocks p.now.b ≡ Some p.now.block.now }
    requires own { map place_of own.now ≡ block_places p.now.b p.now.first p.now.block.now p.now.vars.now }
    ensures { OnOk result (let q = p.now in props.new ≡ props.old
        ++ part_single m.now (definers_of m.now) limit q.b q.first q.block.now q.vars.now) }
{
    post_part_limit(props, p.block, p.vars, limit)?;
    post_places(props, &m.ext.table, m.options.slots, sites, own)?;
    post_edges(props, sites, &m.ext.blocks, p.b as usize, p.first, p.vars)?;
    post_part_frame(props, m, sites, own)?;
    Ok(())
}

/// What is posted of the arcs, the registers, the calls and the packets of a block, where these are all operations and the block's.
#[tactic(auto, using(un_kinds::proofs::Appends::four_added))]
fn post_rooms(
    props: &mut Props,
    m: &Model,
    sites: &[Site<'_>],
    spots: &[Spot<'_>],
    own: &[Spot<'_>],
    p: &Part<'_>,
) -> Result<(), NoMemory>
    requires sites { definers_in sites.now ≡ definers_of m.now }
    requires spots { map place_of spots.now ≡ places_of m.now }
    requires own { map place_of own.now ≡ block_places p.now.b p.now.first p.now.block.now p.now.vars.now }
    ensures { OnOk result (let q = p.now in props.new ≡ props.old
        ++ part_rooms m.now (definers_of m.now) q.b q.first q.block.now q.vars.now) }
{
    post_arcs_in(props, spots, arcs_at(&m.arcs, p.b))?;
    post_apart(props, sites, own)?;
    post_spared(props, m.ext.table.clobbered, sites, &[], own)?;
    post_packets(props, &m.ext.table, p.b, p.first, p.block, p.vars)?;
    Ok(())
}

/// What is posted for the part of a block.
#[tactic(auto, using(un_kinds::proofs::Appends::three_added))]
fn post_part(
    props: &mut Props,
    m: &Model,
    limit: Option<u64>,
    sites: &[Site<'_>],
    spots: &[Spot<'_>],
    p: &Part<'_>,
) -> Result<(), NoMemory>
    requires sites { definers_in sites.now ≡ definers_of m.now }
    requires spots { map place_of spots.now ≡ places_of m.now }
    requires block { slice_get m.now.ext.blocks p.now.b ≡ Some p.now.block.now }
    ensures { OnOk result (let q = p.now in props.new ≡ props.old
        ++ part_in m.now (definers_of m.now) limit q.b q.first q.block.now q.vars.now) }
{
    let mut own = Items::from_vec(Vec::with_capacity(props.alloc(), p.block.ops.len())?);
    add_block(&mut own, p.b, p.first, p.block, p.vars)?;
    post_single(props, m, limit, sites, own.as_slice(), p)?;
    post_rooms(props, m, sites, spots, own.as_slice(), p)?;
    post_twos_at(props, m.options.slots, sites, own.as_slice())?;
    Ok(())
}

/// What is posted for the part of block `k`, where it is this one.
fn post_where(
    props: &mut Props,
    m: &Model,
    k: BlockId,
    limit: Option<u64>,
    sites: &[Site<'_>],
    spots: &[Spot<'_>],
    p: &Part<'_>,
) -> Result<(), NoMemory>
    requires sites { definers_in sites.now ≡ definers_of m.now }
    requires spots { map place_of spots.now ≡ places_of m.now }
    requires block { slice_get m.now.ext.blocks p.now.b ≡ Some p.now.block.now }
    ensures { OnOk result (let q = p.now in props.new ≡ props.old
        ++ where_block k.0 (part_in m.now (definers_of m.now) limit) q.b q.first q.block.now q.vars.now) }
{
    if p.b != k.0 {
        return Ok(());
    }
    post_part(props, m, limit, sites, spots, p)
}

/// What is posted for the part of block `k` of a model, of which these are the tables.
fn post_each(
    props: &mut Props,
    m: &Model,
    k: BlockId,
    limit: Option<u64>,
    sites: &[Site<'_>],
    spots: &[Spot<'_>],
) -> Result<(), NoMemory>
    requires sites { definers_in sites.now ≡ definers_of m.now }
    requires spots { map place_of spots.now ≡ places_of m.now }
    ensures { OnOk result (props.new ≡ props.old ++ part_postings m.now k.0 limit) }
{
    let mut n = 0;
    for i in 0..m.ext.blocks.len().min(m.blocks.len()) {
        let b = number(i)?;
        let block = m.ext.blocks.get(i);
        let part = Part {
            b,
            first: n,
            block,
            vars: m.blocks.get(i),
        };
        post_where(props, m, k, limit, sites, spots, &part)?;
        n = advance(n, block.ops.len())?;
    }
    Ok(())
}

/// The propagators for the part of block `k` of a model.
fn part_props(alloc: Global, m: &Model, k: BlockId, limit: Option<u64>) -> Result<Listed, NoMemory>
    ensures { IfOk result (λ l. l.props ≡ part_postings m.now k.0 limit) }
{
    let spots = all_spots(alloc, m)?;
    let sites = all_sites(alloc, spots.as_slice(), m.temps.as_slice())?;
    let mut props = Props::new(alloc);
    post_each(&mut props, m, k, limit, sites.as_slice(), spots.as_slice())?;
    Ok(Listed { props, limit_at: 0 })
}

/// What is posted for the part of a block of a model, under a limit on what the block costs, or none. The limit's propagator stands
/// first.
///
/// # Errors
/// Where memory is short, or where there are more variables or operations than numbers below 2^32.
pub fn post_block(
    alloc: Global,
    m: &Model,
    b: BlockId,
    limit: Option<u64>,
) -> Result<Posted, NoMemory>
    requires model { IsModel m.now }
    requires extended { IsExtended m.now.ext }
    requires fit { IsFit m.now.ext.table }
    requires options { AreOptions m.now.options }
    requires block { b.0 < length m.now.ext.blocks }
    ensures asks { IfOk result (λ p. map constraint_of p.props.items ≡ part_postings m.now b.0 limit) }
    ensures sets { IfOk result (λ p. p.store.sets ≡ map values_of m.now.domains) }
    ensures marked { IfOk result (λ p. p.store.marked ≡ []) }

    // The assignments of the block's part below the limit are exactly those of the store for which all propagators hold.
    ensures exact { IfOk result (λ p. IsPartExact m.now b.0 limit p.store.sets p.props.items) }

    // Rounds may begin on the store, and fail on each within it where the relaxation of the block under the limit has no member.
    ensures live { IfOk result (λ p. NoneEmpty p.store.sets) }
    ensures reads { IfOk result (λ p. All (ReadsFrom p.store.sets) p.props.items) }
    ensures tight { IfOk result (λ p. All IsTight p.props.items) }
    ensures grounded { IfOk result (λ p. All IsGrounded p.props.items) }
    ensures horizon { IfOk result (λ p. p.horizon ≡ largest_horizon m.now.ext.blocks) }
    ensures spans { IfOk result (λ p. All (SpansAtMost p.horizon) p.props.items) }
    ensures fails { IfOk result (λ p. FailsWherePartEmpty m.now b.0 limit p.store.sets p.props.items) }

    // What rounds leave of a box is one function of the model, the block, the limit and the box, whichever list was posted.
    ensures fixed { IfOk result (λ p. (box : Sets) → fix_of cut_of p.props.items box ≡ fix_part m.now b.0 limit box) }
{
    let listed = part_props(alloc, m, b, limit)?;
    let posted = with_store(alloc, m, listed)?;
    Ok(posted)
}
