//! What is posted of the lengths of blocks: what a block issues in every solution has room before its end, in the order that the
//! arcs and the calls ask for.

ghost use Rattle.std.specs.Prelude.{◌≡◌, ◌==◌, [], ◌∷◌, ◌++◌, IfOk, OnOk, map, slice_get};
ghost use Rattle.un_kinds.specs.Constraints as constraint;
ghost use Rattle.un_rooms.specs.Waits.{befores_by};
ghost use Rattle.un_sites.specs.Befores.{arc_before, befores_in, known_befores, length_in, lengths_of};
ghost use Rattle.un_sites.specs.Lengths.{length_by};
ghost use Rattle.un_sites.specs.Places.{definers_of, places_of};
ghost use Rattle.un_sites.specs.Rooms.{arcs_or};
ghost use Rattle.un_sites.specs.Saved.{edges_between, crowded_of};
ghost use Rattle.un_sites.specs.Sites.{place_of, definers_in};

use crate::call_waits::add_call_waits;
use crate::crowds::{Crowds, crowds_of, owed_by};
use crate::post_clobbers::arcs_at;
use crate::room::register_count;
use crate::tasks::{precedences_by, tasks_in};
use crate::wait::Wait;
use std::alloc::{AllocError, Global};
use un_base::ids::VarId;
use un_base::memory_error::NoMemory;
use un_base::numbers::{advance, number};
use un_ir::extended::ExtBlock;
use un_isa::table::Table;
use un_kinds::make_slots::make_length;
use un_kinds::props::Props;
use un_length::block::Block;
use un_lists::items::Items;
use un_model::model::{Arc, BlockVars, Model};
use un_sites::edges::Accesses;
use un_sites::sites::{Site, Spot, time_with};
use un_sites::tables::add_block;

/// Adds what the operations of arcs wait for, where this is the table of all operations.
fn add_arc_waits(
    waits: &mut Items<Wait>,
    spots: &[Spot<'_>],
    arcs: &[Arc],
) -> Result<(), AllocError>
    ensures { OnOk result (befores_by waits.new ≡ befores_by waits.old ++ befores_in (map place_of spots.now) arcs.now) }
{
    for arc in arcs {
        waits.push(Wait {
            from: time_with(spots, arc.from),
            to: time_with(spots, arc.to),
            gap: arc.gap,
        })?;
    }
    Ok(())
}

/// What the operations of block `b` wait for.
fn known_waits(
    alloc: Global,
    m: &Model,
    all: &[Spot<'_>],
    b: u32,
    spots: &[Spot<'_>],
) -> Result<Items<Wait>, NoMemory>
    requires { map place_of all.now ≡ places_of m.now }
    ensures { IfOk result (λ waits. befores_by waits ≡ known_befores m.now b (map place_of spots.now)) }
{
    let arcs = arcs_at(&m.arcs, b);
    let mut waits = Items::new(alloc);
    add_arc_waits(&mut waits, all, arcs)?;
    add_call_waits(alloc, &mut waits, &m.ext.table, arcs, spots)?;
    Ok(waits)
}

/// The operations of a block that has so many registers and owes so much, with the order among them.
fn block_by(
    alloc: Global,
    t: &Table,
    registers: usize,
    is_entry: bool,
    owed: Accesses,
    known: &[Arc],
    waits: &[Wait],
    end: VarId,
    horizon: u32,
    spots: &[Spot<'_>],
) -> Result<Block, NoMemory>
    ensures { IfOk result (λ b. constraint.Length b.ops b.arcs b.end b.horizon
        ≡ length_by t.now registers is_entry owed known.now (befores_by waits.now) end horizon (map place_of spots.now)) }
{
    let ops = tasks_in(alloc, t, registers, is_entry, owed, known, spots)?;
    let arcs = precedences_by(alloc, ops.as_slice(), waits)?;
    Ok(Block {
        ops,
        arcs,
        end,
        horizon,
    })
}

/// The operations of block `b`, which has so many registers and owes so much, with the order that is known of them.
fn known_block(
    alloc: Global,
    m: &Model,
    all: &[Spot<'_>],
    b: u32,
    registers: usize,
    owed: Accesses,
    end: VarId,
    horizon: u32,
    spots: &[Spot<'_>],
) -> Result<Block, NoMemory>
    requires { map place_of all.now ≡ places_of m.now }
    ensures { IfOk result (λ k. constraint.Length k.ops k.arcs k.end k.horizon ≡ length_by m.now.ext.table registers (b == 0) owed
        (arcs_or (slice_get m.now.arcs b)) (known_befores m.now b (map place_of spots.now)) end horizon (map place_of spots.now)) }
{
    let waits = known_waits(alloc, m, all, b, spots)?;
    let arcs = arcs_at(&m.arcs, b);
    block_by(
        alloc,
        &m.ext.table,
        registers,
        b == 0,
        owed,
        arcs,
        waits.as_slice(),
        end,
        horizon,
        spots,
    )
}

/// The operations of block `b`, of which the first has the number `first`, with the order among them.
pub(crate) fn block_at(
    alloc: Global,
    m: &Model,
    crowds: &Crowds,
    sites: &[Site<'_>],
    all: &[Spot<'_>],
    b: u32,
    first: u32,
    block: &ExtBlock,
    vars: &BlockVars,
) -> Result<Block, NoMemory>
    requires sites { definers_in sites.now ≡ definers_of m.now }
    requires all { map place_of all.now ≡ places_of m.now }
    requires edges { crowds.now.edges ≡ edges_between m.now.ext.blocks }
    requires crowded { crowds.now.crowded ≡ crowded_of m.now }
    ensures { IfOk result (λ k. constraint.Length k.ops k.arcs k.end k.horizon ∷ [] ≡ length_in m.now b first block.now vars.now) }
{
    let mut spots = Items::new(alloc);
    add_block(&mut spots, b, first, block, vars)?;
    let owed = owed_by(crowds, b, block, spots.as_slice());
    let registers = register_count(alloc, m, sites, spots.as_slice())?;
    let made = known_block(
        alloc,
        m,
        all,
        b,
        registers,
        owed,
        vars.end,
        block.horizon,
        spots.as_slice(),
    )?;
    Ok(made)
}

/// What is posted of the length of block `b`, of which the first operation has the number `first`.
fn post_block(
    props: &mut Props,
    m: &Model,
    crowds: &Crowds,
    sites: &[Site<'_>],
    all: &[Spot<'_>],
    b: u32,
    first: u32,
    block: &ExtBlock,
    vars: &BlockVars,
) -> Result<(), NoMemory>
    requires sites { definers_in sites.now ≡ definers_of m.now }
    requires all { map place_of all.now ≡ places_of m.now }
    requires edges { crowds.now.edges ≡ edges_between m.now.ext.blocks }
    requires crowded { crowds.now.crowded ≡ crowded_of m.now }
    ensures { OnOk result (props.new ≡ props.old ++ length_in m.now b first block.now vars.now) }
{
    let known = block_at(props.alloc(), m, crowds, sites, all, b, first, block, vars)?;
    let made = make_length(props.alloc(), known)?;
    props.push(made)
}

/// What is posted of the lengths of all blocks of a model, of which these are the tables of definers and of operations.
pub fn post_lengths(
    props: &mut Props,
    m: &Model,
    sites: &[Site<'_>],
    spots: &[Spot<'_>],
) -> Result<(), NoMemory>
    requires sites { definers_in sites.now ≡ definers_of m.now }
    requires spots { map place_of spots.now ≡ places_of m.now }
    ensures { OnOk result (props.new ≡ props.old ++ lengths_of m.now) }
{
    let crowds = crowds_of(props.alloc(), m)?;
    let mut n = 0;
    for k in 0..m.ext.blocks.len().min(m.blocks.len()) {
        let b = number(k)?;
        let block = m.ext.blocks.get(k);
        post_block(
            props,
            m,
            &crowds,
            sites,
            spots,
            b,
            n,
            block,
            m.blocks.get(k),
        )?;
        n = advance(n, block.ops.len())?;
    }
    Ok(())
}
