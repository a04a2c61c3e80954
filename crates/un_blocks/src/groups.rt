//! The facts of a function, with the groups of block boundaries that edges join.

use crate::facts::{Block, Facts, at, has};
use crate::gather::{Scope, number_of};
use crate::grid::Grid;
use crate::packets::end_by_packets;
use crate::temporaries::block_facts;
use std::alloc::{AllocError, Global};
use un_base::memory_error::NoMemory;
use un_domains::domain::Domain;
use un_ir::extended::{ExtBlock, ExtKind};
use un_ir::function::{Kind, Term};
use un_model::model::Model;
use un_trial::facts::{BlockFacts, Operation};
use un_trial::machine::Machine;
use un_trial::table::{NONE, Table};

/// An edge between two numbers that are joined.
#[derive(Clone, Copy)]
struct Edge {
    from: u32,
    to: u32,
}

/// The terminator of a block; it falls through where there is none.
fn terminator(block: &ExtBlock) -> Term {
    let mut term = Term::Fall;
    for op in block.ops.as_slice() {
        if let ExtKind::End(end) = &op.kind {
            term = *end;
        }
    }
    term
}

fn returns(block: &ExtBlock) -> bool {
    matches!(terminator(block), Term::Ret(_))
}

/// The edges from the ends of blocks, numbered behind their starts, to the starts of those that follow.
fn edges(alloc: Global, blocks: &[ExtBlock]) -> Result<Vec<Edge>, AllocError> {
    let count = count_of_blocks(blocks);
    let mut list = Vec::new(alloc);
    let mut b = 0u32;
    for block in blocks {
        let from = count.saturating_add(b);
        let next = b.saturating_add(1);
        match terminator(block) {
            Term::Fall => list.push(Edge { from, to: next })?,
            Term::Jump(to) => list.push(Edge { from, to: to.0 })?,
            Term::Branch { to, .. } => {
                list.push(Edge { from, to: to.0 })?;
                list.push(Edge { from, to: next })?
            }
            Term::Ret(_) => {}
        }
        b = next;
    }
    Ok(list)
}

fn count_of_blocks(blocks: &[ExtBlock]) -> u32 {
    u32::try_from(blocks.len()).unwrap_or(u32::MAX)
}

/// The least of the numbers that are joined with each.
fn join(alloc: Global, size: u32, edges: &[Edge]) -> Result<Table<u32>, AllocError> {
    let mut part = Table::of(Vec::new(alloc), NONE);
    part.refill(size, 0)?;
    for i in 0..size {
        part.put(i, i);
    }
    for _ in 0..size {
        join_each(&mut part, edges);
    }
    Ok(part)
}

fn join_each(part: &mut Table<u32>, edges: &[Edge]) {
    for edge in edges {
        let least = part.at(edge.from).min(part.at(edge.to));
        part.put(edge.from, least);
        part.put(edge.to, least);
    }
}

/// The edges from the start of a block to its end, where it has no copies of saved values: it is neither the entry nor returns.
fn inner_edges(
    alloc: Global,
    blocks: &[ExtBlock],
    group: &Table<u32>,
) -> Result<Vec<Edge>, AllocError> {
    let count = count_of_blocks(blocks);
    let mut list = Vec::new(alloc);
    let mut b = 0u32;
    for block in blocks {
        if b > 0 && !returns(block) {
            list.push(Edge {
                from: group.at(b),
                to: group.at(count.saturating_add(b)),
            })?;
        }
        b = b.saturating_add(1);
    }
    Ok(list)
}

/// How many temporaries a block has.
fn temps_of(block: &ExtBlock) -> u32 {
    let mut count = 0u32;
    for op in block.ops.as_slice() {
        count = count.saturating_add(u32::try_from(op.results.len()).unwrap_or(0));
    }
    count
}

/// Whether an operation is a copy of a value that stands at the block's start or at its end.
fn is_bound_copy(block: &BlockFacts, op: &Operation) -> bool {
    let Some(x) = op.operands.first() else {
        return false;
    };
    let is_copy = op.instruction != NONE && op.result != NONE;
    let is_at_end = block.temporaries.row(x.value).at_end != NONE;
    is_copy && (is_at_end || has(block.input.as_slice(), x.value))
}

/// The copies of values that stand at a block's start or at its end.
fn bound_copies(alloc: Global, block: &BlockFacts) -> Result<Vec<u32>, AllocError> {
    let mut list = Vec::new(alloc);
    for o in 0..block.operations.len() {
        if is_bound_copy(block, block.operations.row(o)) {
            list.push(o)?;
        }
    }
    Ok(list)
}

/// The facts of the blocks, with their groups.
fn blocks(
    alloc: Global,
    m: &Model,
    machine: &Machine,
    group: &Table<u32>,
    least_ends: &[u32],
) -> Result<Vec<Block>, AllocError> {
    let count = count_of_blocks(m.ext.blocks.as_slice());
    let mut list = Vec::new(alloc);
    let mut next = Next {
        op: 0,
        temp: 0,
        variable: 0,
    };
    for b in 0..count {
        if let Some(scope) = scope_of(m, machine, b, next) {
            let facts = block_facts(alloc, &scope, next.variable)?;
            let bound_copies = bound_copies(alloc, &facts)?;
            let least_end = least_end(&scope, &facts, at(least_ends, b).max(1));
            list.push(Block {
                facts,
                bound_copies,
                frequency: u64::from(scope.block.freq),
                least_end,
                group_in: group.at(b),
                group_out: group.at(count.saturating_add(b)),
            })?;
            next = behind(&scope);
        }
    }
    Ok(list)
}

/// The numbers at which a block begins.
#[derive(Clone, Copy)]
struct Next {
    op: u32,
    temp: u32,
    variable: u32,
}

/// A lower bound of a block's end where that of the model is `least`: more where the machine's jumps wait and the model's do not.
fn least_end(s: &Scope<'_>, block: &BlockFacts, least: u32) -> u32 {
    if s.machine.table.fresh == s.m.ext.table.fresh {
        least
    } else {
        end_by_packets(block).max(least)
    }
}

fn scope_of<'a>(m: &'a Model, machine: &'a Machine, b: u32, next: Next) -> Option<Scope<'a>> {
    let block = m.ext.blocks.as_slice().get(b as usize)?;
    let vars = m.blocks.as_slice().get(b as usize)?;
    let arcs = m.arcs.as_slice().get(b as usize)?;
    Some(Scope {
        m,
        machine,
        block,
        vars,
        arcs: arcs.as_slice(),
        first_op: next.op,
        first_temp: next.temp,
        temps: temps_of(block),
        is_entry: b == 0,
    })
}

/// The numbers at which the next block begins.
fn behind(s: &Scope<'_>) -> Next {
    let ops = u32::try_from(s.block.ops.len()).unwrap_or(0);
    Next {
        op: s.first_op.saturating_add(ops),
        temp: s.first_temp.saturating_add(s.temps),
        variable: s.vars.end.0.saturating_add(1),
    }
}

/// The only register of a value, NONE where it has a choice.
fn home_of(m: &Model, register: u32) -> u32 {
    match m.domains.as_slice().get(register as usize) {
        Some(Domain::Set(values)) if values.len() == 1 => at(values.as_slice(), 0),
        _ => NONE,
    }
}

/// Notes what is live at a block's start, and in the entry where.
fn note_start(
    m: &Model,
    block: &Block,
    is_entry: bool,
    live: &mut Grid<bool>,
    fixed: &mut Grid<u32>,
) {
    for t in &block.facts.input {
        let x = block.temporary(*t);
        live.put(block.group_in, x.key, true);
        if is_entry {
            fixed.put(block.group_in, x.key, home_of(m, x.register));
        }
    }
}

/// Notes what is live at a block's end, and where it is to be restored.
fn note_end(block: &Block, is_return: bool, live: &mut Grid<bool>, fixed: &mut Grid<u32>) {
    for x in &block.operation(block.facts.output).operands {
        live.put(block.group_out, x.key, true);
        if is_return {
            fixed.put(block.group_out, x.key, x.home);
        }
    }
}

fn name_kinds(alloc: Global, m: &Model) -> Result<Table<bool>, AllocError> {
    let mut list = Vec::new(alloc);
    for kind in m.ext.names.as_slice() {
        list.push(*kind == Kind::Pred)?;
    }
    Ok(Table::of(list, false))
}

fn copy_instructions(alloc: Global, m: &Model) -> Result<Vec<u32>, AllocError> {
    let mut list = Vec::new(alloc);
    for (block, vars) in m.ext.blocks.as_slice().iter().zip(m.blocks.as_slice()) {
        for (op, var) in block.ops.as_slice().iter().zip(vars.ops.as_slice()) {
            if matches!(op.kind, ExtKind::Copy(_)) {
                list.push(number_of(var.instr))?;
            }
        }
    }
    Ok(list)
}

fn start_registers(alloc: Global, blocks: &[Block]) -> Result<Vec<u32>, AllocError> {
    let mut list = Vec::new(alloc);
    for block in blocks {
        for t in &block.facts.input {
            list.push(block.temporary(*t).register)?;
        }
    }
    Ok(list)
}

/// The groups' tables: what is live, and what is fixed.
fn note_groups(m: &Model, blocks: &[Block], live: &mut Grid<bool>, fixed: &mut Grid<u32>) {
    let mut is_entry = true;
    for (block, source) in blocks.iter().zip(m.ext.blocks.as_slice()) {
        note_start(m, block, is_entry, live, fixed);
        note_end(block, returns(source), live, fixed);
        is_entry = false;
    }
}

/// The facts of a function under lower bounds of its blocks' ends.
///
/// # Errors
/// `NoMemory` where there is no memory for them.
pub fn facts(alloc: Global, m: &Model, least_ends: &[u32]) -> Result<Facts, NoMemory> {
    let machine = Machine::of(alloc, m)?;
    let facts = facts_on(alloc, m, machine, least_ends)?;
    Ok(facts)
}

/// The facts of a function if each jump waited for the latency of what it tests: its solutions then are solutions where jumps need not wait.
///
/// # Errors
/// `NoMemory` where there is no memory for them.
pub fn waiting_facts(alloc: Global, m: &Model, least_ends: &[u32]) -> Result<Facts, NoMemory> {
    let mut machine = Machine::of(alloc, m)?;
    machine.table.fresh = false;
    let facts = facts_on(alloc, m, machine, least_ends)?;
    Ok(facts)
}

fn facts_on(
    alloc: Global,
    m: &Model,
    machine: Machine,
    least_ends: &[u32],
) -> Result<Facts, AllocError> {
    let sources = m.ext.blocks.as_slice();
    let groups = count_of_blocks(sources).saturating_mul(2);
    let group = groups_of(alloc, sources, groups)?;
    let region = regions_of(alloc, sources, groups, &group)?;
    let blocks = blocks(alloc, m, &machine, &group, least_ends)?;
    with_blocks(alloc, m, machine, groups, region, blocks)
}

fn groups_of(alloc: Global, sources: &[ExtBlock], size: u32) -> Result<Table<u32>, AllocError> {
    let edges = edges(alloc, sources)?;
    join(alloc, size, edges.as_slice())
}

fn regions_of(
    alloc: Global,
    sources: &[ExtBlock],
    size: u32,
    group: &Table<u32>,
) -> Result<Table<u32>, AllocError> {
    let edges = inner_edges(alloc, sources, group)?;
    join(alloc, size, edges.as_slice())
}

fn with_blocks(
    alloc: Global,
    m: &Model,
    machine: Machine,
    groups: u32,
    region: Table<u32>,
    blocks: Vec<Block>,
) -> Result<Facts, AllocError> {
    let names = u32::try_from(m.ext.names.len()).unwrap_or(0);
    let saved = u32::try_from(machine.saved.len()).unwrap_or(0);
    let keys = names.saturating_add(saved);
    let mut live = Grid::filled(alloc, groups, keys, false)?;
    let mut fixed = Grid::filled(alloc, groups, keys, NONE)?;
    note_groups(m, blocks.as_slice(), &mut live, &mut fixed);
    let name_is_predicate = name_kinds(alloc, m)?;
    let copy_instructions = copy_instructions(alloc, m)?;
    let start_registers = start_registers(alloc, blocks.as_slice())?;
    Ok(Facts {
        machine,
        blocks,
        groups,
        names,
        keys,
        live,
        fixed,
        region,
        name_is_predicate,
        flag: m.flag.0,
        variables: u32::try_from(m.domains.len()).unwrap_or(0),
        copy_instructions,
        start_registers,
    })
}
