//! What is posted of packets: they have room for what the operations of a block issue.

ghost use Rattle.std.specs.Prelude.{◌≡◌, [], ◌∷◌, ◌++◌, IfOk, OnOk, map};
ghost use Rattle.un_model.specs.Instructions.{needs_by};
ghost use Rattle.un_kinds.specs.Constraints as constraint;
ghost use Rattle.un_sites.specs.Places.{by_number};
ghost use Rattle.un_sites.specs.Postings.{with_kind};
ghost use Rattle.un_ir.specs.Kinds.{issues_kind};
ghost use Rattle.un_sites.specs.Rooms.{item_of, packets_in, packets_of};
ghost use Rattle.un_sites.specs.Sites.{place_of};

use std::alloc::{AllocError, Global};
use un_base::memory_error::NoMemory;
use un_base::numbers::{advance, number};
use un_ir::extended::{ExtBlock, ExtKind};
use un_isa::table::{Needs, Table};
use un_kinds::make_slots::make_per_cycle;
use un_kinds::props::Props;
use un_lists::items::Items;
use un_model::instructions::{instruction, needs};
use un_model::model::{BlockVars, Model};
use un_sites::numbers::number_count;
use un_sites::sites::{Spot, cycle_var};
use un_sites::tables::add_block;
use un_slots::item::Item;

/// What an operation needs, by its numbers.
fn needs_of(alloc: Global, t: &Table, kind: &ExtKind) -> Result<Items<Needs>, AllocError>
    ensures { IfOk result (λ uses. uses ≡ by_number (needs_by t.now) kind.now) }
{
    let mut uses = Items::new(alloc);
    for n in 0..number_count(kind) {
        uses.push(needs(t, instruction(kind, n)))?;
    }
    Ok(uses)
}

/// An operation as what takes resources.
fn item_of(alloc: Global, t: &Table, p: &Spot<'_>) -> Result<Item, AllocError>
    ensures { IfOk result (λ item. item ≡ item_of t.now (place_of p.now)) }
{
    let uses = needs_of(alloc, t, &p.it.kind)?;
    Ok(Item {
        on: p.act(),
        at: cycle_var(p),
        uses,
    })
}

/// The operations that issue instructions.
fn items_of(alloc: Global, t: &Table, spots: &[Spot<'_>]) -> Result<Items<Item>, AllocError>
    ensures { IfOk result (λ items. items ≡ map (item_of t.now) (with_kind issues_kind (map place_of spots.now))) }
{
    let mut items = Items::new(alloc);
    for p in spots {
        if p.it.kind.issues() {
            items.push(item_of(alloc, t, p)?)?;
        }
    }
    Ok(items)
}

/// The operations of a block that issue instructions.
fn block_items(
    alloc: Global,
    t: &Table,
    b: u32,
    n: u32,
    block: &ExtBlock,
    vars: &BlockVars,
) -> Result<Items<Item>, NoMemory>
    ensures { IfOk result (λ items. constraint.PerCycle items block.now.horizon ∷ [] ≡ packets_in t.now b n block.now vars.now) }
{
    let mut spots = Items::from_vec(Vec::with_capacity(alloc, block.ops.len())?);
    add_block(&mut spots, b, n, block, vars)?;
    let items = items_of(alloc, t, spots.as_slice())?;
    Ok(items)
}

/// The packets of a block have room for what its operations issue.
pub fn post_block(
    props: &mut Props,
    t: &Table,
    b: u32,
    n: u32,
    block: &ExtBlock,
    vars: &BlockVars,
) -> Result<(), NoMemory>
    ensures { OnOk result (props.new ≡ props.old ++ packets_in t.now b n block.now vars.now) }
{
    let items = block_items(props.alloc(), t, b, n, block, vars)?;
    let made = make_per_cycle(props.alloc(), items, block.horizon)?;
    props.push(made)
}

/// Packets have room for what the operations of each block issue.
pub fn post_packets(props: &mut Props, m: &Model) -> Result<(), NoMemory>
    ensures { OnOk result (props.new ≡ props.old ++ packets_of m.now) }
{
    let mut n = 0;
    for k in 0..m.ext.blocks.len().min(m.blocks.len()) {
        let b = number(k)?;
        let block = m.ext.blocks.get(k);
        post_block(props, &m.ext.table, b, n, block, m.blocks.get(k))?;
        n = advance(n, block.ops.len())?;
    }
    Ok(())
}
