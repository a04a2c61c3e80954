//! Propagators of what packets and blocks have room for, from their fields.

ghost use Rattle.std.specs.Prelude.{◌++◌, IfOk};
ghost use Rattle.un_kinds.specs.Constraints as constraint;
ghost use Rattle.un_kinds.specs.Scopes.{IsScope, Makes, vars_in, own_var, item_vars, task_vars};

use crate::any::AnyProp;
use crate::vars::{Naming, rising};
use std::alloc::{AllocError, Global};
use un_base::ids::VarId;
use un_base::memory_error::NoMemory;
use un_length::block::Block;
use un_length::length::Length;
use un_lists::items::Items;
use un_slots::item::Item;
use un_slots::per_cycle::PerCycle;

/// The variables of what takes resources.
fn slot_vars(alloc: Global, items: &Items<Item>) -> Result<Items<VarId>, AllocError>
    ensures { IfOk result (λ vs. IsScope vs (vars_in item_vars items.now)) }
{
    let mut vars = Vec::new(alloc);
    items.add_to(&mut vars)?;
    rising(alloc, vars)
}

/// Operations that take no more of each resource in a cycle than a packet has.
pub fn make_per_cycle(alloc: Global, items: Items<Item>, horizon: u32) -> Result<AnyProp, NoMemory>
    ensures { IfOk result (Makes (constraint.PerCycle items horizon)) }
{
    let vars = slot_vars(alloc, &items)?;
    let made = PerCycle {
        items,
        horizon,
        vars,
    };
    Ok(AnyProp::PerCycle(made))
}

/// The variables of a block.
fn block_vars(alloc: Global, block: &Block) -> Result<Items<VarId>, AllocError>
    ensures { IfOk result (λ vs. IsScope vs (vars_in task_vars block.now.ops ++ own_var block.now.end)) }
{
    let mut vars = Vec::new(alloc);
    block.ops.add_to(&mut vars)?;
    block.end.add_to(&mut vars)?;
    rising(alloc, vars)
}

/// Operations of a block that have room before its end.
pub fn make_length(alloc: Global, block: Block) -> Result<AnyProp, NoMemory>
    ensures { IfOk result (Makes (constraint.Length block.ops block.arcs block.end block.horizon)) }
{
    let vars = block_vars(alloc, &block)?;
    let made = Length { block, vars };
    Ok(AnyProp::Length(made))
}
