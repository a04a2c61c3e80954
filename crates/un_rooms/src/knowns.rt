//! What is known of each block of a model wherever the saved values stand, and the rows that follow from it.

ghost use Rattle.std.specs.Prelude.{◌≡◌, IfOk, map, slice_get};
ghost use Rattle.un_rows.specs.Rows.{basis_of, crossed_in, known_at, knowns_of, rows_of};
ghost use Rattle.un_sites.specs.Places.{block_places, definers_of, places_of};
ghost use Rattle.un_sites.specs.Rooms.{arcs_or};
ghost use Rattle.un_sites.specs.Saved.{edges_between, crowded_of};
ghost use Rattle.un_sites.specs.Shares.{has_leave};
ghost use Rattle.un_sites.specs.Sites.{place_of, definers_in};

use crate::crowds::{Crowds, crowds_of};
use crate::known_calls::crossed_in;
use crate::post_clobbers::arcs_at;
use crate::post_lengths::block_at;
use crate::shares::has_leave;
use std::alloc::Global;
use un_base::memory_error::NoMemory;
use un_base::numbers::{advance, number};
use un_counted::counted::LeastEnd;
use un_ir::extended::ExtBlock;
use un_isa::reg_set::{callee_saved, saved_registers};
use un_least::least::least_end;
use un_length::block::Block;
use un_lists::items::Items;
use un_model::model::{BlockVars, Model};
use un_rows::known::{Basis, Crossed, Known};
use un_rows::roles::role_of;
use un_rows::rows::rows_by;
use un_saved::boundary::Marks;
use un_saved::joined::joined;
use un_sites::sites::{Site, Spot};
use un_sites::tables::add_block;

/// The operations of block `b` with their calls.
fn calls_of(
    alloc: Global,
    m: &Model,
    b: u32,
    first: u32,
    block: &ExtBlock,
    vars: &BlockVars,
    known: &Block,
) -> Result<(bool, Items<Crossed>), NoMemory>
    ensures leaves { IfOk result (λ found. found.0 ≡ has_leave (block_places b first block.now vars.now)) }
    ensures calls { IfOk result (λ found. found.1
        ≡ crossed_in (arcs_or (slice_get m.now.arcs b)) block.now known.now.ops (block_places b first block.now vars.now)) }
{
    let mut spots = Items::new(alloc);
    add_block(&mut spots, b, first, block, vars)?;
    let calls = crossed_in(
        alloc,
        arcs_at(&m.arcs, b),
        block,
        known.ops.as_slice(),
        spots.as_slice(),
    )?;
    Ok((has_leave(spots.as_slice()), calls))
}

/// What is known of block `b`, of which the first operation has the number `first`.
fn known_of(
    alloc: Global,
    m: &Model,
    marks: &Marks,
    crowds: &Crowds,
    sites: &[Site<'_>],
    all: &[Spot<'_>],
    b: u32,
    first: u32,
    block: &ExtBlock,
    vars: &BlockVars,
) -> Result<Known, NoMemory>
    requires sites { definers_in sites.now ≡ definers_of m.now }
    requires all { map place_of all.now ≡ places_of m.now }
    requires edges { crowds.now.edges ≡ edges_between m.now.ext.blocks }
    requires crowded { crowds.now.crowded ≡ crowded_of m.now }
    ensures { IfOk result (λ known. known ≡ known_at m.now marks.now b block.now vars.now (block_places b first block.now vars.now)) }
{
    let own = block_at(alloc, m, crowds, sites, all, b, first, block, vars)?;
    let (leaves, calls) = calls_of(alloc, m, b, first, block, vars, &own)?;
    let end = least_end(alloc, &own, 0)?;
    Ok(Known {
        end: vars.end,
        freq: block.freq,
        horizon: block.horizon,
        ops: own.ops,
        arcs: own.arcs,
        own: end,
        leaves,
        role: role_of(marks, b, block),
        calls,
    })
}

/// What is known of each block of a model, of which these are the tables of definers and of operations.
fn knowns_of(
    alloc: Global,
    m: &Model,
    sites: &[Site<'_>],
    spots: &[Spot<'_>],
) -> Result<Items<Known>, NoMemory>
    requires sites { definers_in sites.now ≡ definers_of m.now }
    requires spots { map place_of spots.now ≡ places_of m.now }
    ensures { IfOk result (λ knowns. knowns ≡ knowns_of m.now) }
{
    let crowds = crowds_of(alloc, m)?;
    let marks = joined(alloc, &m.ext.blocks)?;
    let mut knowns = Items::new(alloc);
    let mut n = 0;
    for k in 0..m.ext.blocks.len().min(m.blocks.len()) {
        let b = number(k)?;
        let block = m.ext.blocks.get(k);
        let known = known_of(
            alloc,
            m,
            &marks,
            &crowds,
            sites,
            spots,
            b,
            n,
            block,
            m.blocks.get(k),
        )?;
        knowns.push(known)?;
        n = advance(n, block.ops.len())?;
    }
    Ok(knowns)
}

/// What the rows of a model count with.
fn basis_of(alloc: Global, m: &Model) -> Result<Basis, NoMemory>
    ensures { IfOk result (λ basis. basis ≡ basis_of m.now) }
{
    let kept = callee_saved(alloc, &m.ext.table)?;
    let saved = saved_registers(alloc, &m.ext.table)?;
    Ok(Basis {
        kept: number(kept.len())?,
        saved: number(saved.len())?,
    })
}

/// The rows of a model, of which these are the tables of definers and of operations; none of a function of one block.
pub fn rows_of(
    alloc: Global,
    m: &Model,
    sites: &[Site<'_>],
    spots: &[Spot<'_>],
) -> Result<Items<Items<LeastEnd>>, NoMemory>
    requires sites { definers_in sites.now ≡ definers_of m.now }
    requires spots { map place_of spots.now ≡ places_of m.now }
    ensures { IfOk result (λ rows. rows ≡ rows_of m.now) }
{
    if m.ext.blocks.len() <= 1 {
        return Ok(Items::new(alloc));
    }
    let knowns = knowns_of(alloc, m, sites, spots)?;
    let basis = basis_of(alloc, m)?;
    rows_by(alloc, &m.ext.table, basis, knowns.as_slice())
}
