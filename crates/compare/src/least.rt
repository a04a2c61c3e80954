//! How many packets each block of the function has in any code of the subset, at least: by the precedences of the operations that every
//! solution issues, and by what packets have room for.

ghost use Rattle.un_isa.specs.Fit.{IsFit};

use std::alloc::Global;
use un_base::memory_error::NoMemory;
use un_ir::extended::{ExtBlock, ExtKind, ExtOp};
use un_ir::function::Function;
use un_isa::facts::{Class, class_of};
use un_isa::packet_counts::{Resource, places};
use un_isa::reg::SLOTS;
use un_isa::table::Table;
use un_lists::items::Items;
use un_model::instructions::instruction;
use un_model::model::{Arc, Model, Options};
use un_problem::problem::model;

/// The resources of a packet.
const RESOURCES: [Resource; 5] = [
    Resource::Instructions,
    Resource::Memory,
    Resource::Stores,
    Resource::MultiplyOrControl,
    Resource::Control,
];

/// Whether an instruction of a class takes a place of a resource.
fn takes(resource: Resource, class: Class) -> bool {
    match resource {
        Resource::Instructions => true,
        Resource::Memory => matches!(class, Class::Loading | Class::Storing),
        Resource::Stores => matches!(class, Class::Storing),
        Resource::MultiplyOrControl => matches!(class, Class::Xtype | Class::Control),
        Resource::Control => matches!(class, Class::Control),
    }
}

/// How many packets have room for the operations that take a resource.
fn packets_for(resource: Resource, ops: &[ExtOp]) -> u64 {
    let mut needed: u64 = 0;
    for op in ops {
        if let Some(it) = instruction(&op.kind, 0) {
            if takes(resource, class_of(it)) {
                needed = needed.saturating_add(1);
            }
        }
    }
    needed.div_ceil(u64::from(places(resource)).max(1))
}

/// The most packets that one of the resources asks for.
fn counted(ops: &[ExtOp]) -> u64 {
    let mut most = 0;
    for resource in RESOURCES {
        most = packets_for(resource, ops).max(most);
    }
    most
}

/// The first cycle of an operation that every solution issues; 0 for the others.
fn first_cycle(kind: &ExtKind) -> u64 {
    match instruction(kind, 0) {
        Some(_) => 1,
        None => 0,
    }
}

/// Raises the cycle of an operation, where an arc asks for it; `first` is the number of the block's first operation.
fn raise(cycles: &mut [u64], first: u32, arc: &Arc) {
    let from = arc.from.0.saturating_sub(first) as usize;
    let to = arc.to.0.saturating_sub(first) as usize;
    let Some(before) = cycles.get(from).copied() else {
        return;
    };
    if let Some(cycle) = cycles.get_mut(to) {
        *cycle = before.saturating_add(u64::from(arc.gap)).max(*cycle);
    }
}

/// How many packets a block has behind which an operation has this first cycle.
fn packets_behind(cycle: u64, kind: &ExtKind) -> u64 {
    match kind {
        ExtKind::Out => cycle.saturating_sub(1),
        _ => cycle,
    }
}

/// The first cycle of each operation, where nothing comes before it.
fn first_cycles(alloc: Global, ops: &[ExtOp]) -> Result<Items<u64>, NoMemory> {
    let mut cycles = Items::new(alloc);
    for op in ops {
        cycles.push(first_cycle(&op.kind))?;
    }
    Ok(cycles)
}

/// The first cycles of a block's operations, by what comes before them.
fn cycles_of(
    alloc: Global,
    first: u32,
    ops: &[ExtOp],
    arcs: &[Arc],
) -> Result<Items<u64>, NoMemory> {
    let mut cycles = first_cycles(alloc, ops)?.into_vec();
    for arc in arcs {
        raise(cycles.as_mut_slice(), first, arc);
    }
    Ok(Items::from_vec(cycles))
}

/// The least number of packets of a block.
fn least_of(alloc: Global, first: u32, block: &ExtBlock, arcs: &[Arc]) -> Result<u64, NoMemory> {
    let ops = block.ops.as_slice();
    let cycles = cycles_of(alloc, first, ops, arcs)?;
    let mut most = counted(ops);
    for (cycle, op) in cycles.as_slice().iter().zip(ops) {
        most = packets_behind(*cycle, &op.kind).max(most);
    }
    Ok(most)
}

/// The least numbers of packets of a model's blocks.
fn least_of_all(alloc: Global, m: &Model) -> Result<Items<u64>, NoMemory> {
    let mut found = Items::new(alloc);
    let mut first: u32 = 0;
    for (block, arcs) in m.ext.blocks.as_slice().iter().zip(m.arcs.as_slice()) {
        found.push(least_of(alloc, first, block, arcs.as_slice())?)?;
        let count = u32::try_from(block.ops.len()).unwrap_or(u32::MAX);
        first = first.saturating_add(count);
    }
    Ok(found)
}

/// The least number of packets of each block of a function, in any code of the subset by a table.
pub fn least_packets(alloc: Global, t: &Table, f: &Function) -> Result<Items<u64>, NoMemory>
    requires { IsFit t.now }
{
    let options = Options {
        regs: None,
        slots: SLOTS,
    };
    let m = model(alloc, f, t, &options)?;
    least_of_all(alloc, &m)
}
