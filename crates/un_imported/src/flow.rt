//! Where the blocks of LLVM's function lead, and the order in which each stands behind those that it needs.

use std::alloc::Global;
use un_base::memory_error::NoMemory;
use un_llvm::function::{Action, Block, BlockId, Function};
use un_llvm::lists::push;

/// A way from a block to another: how likely it is, where that is told.
#[derive(Clone, Copy)]
pub struct Way {
    pub to: BlockId,
    pub weight: Option<u32>,
}

/// The ways out of each block.
#[derive(Drop)]
pub struct Flow {
    pub ways: Vec<Vec<Way>>,
}

impl Flow {
    /// The ways out of a block.
    pub(crate) fn ways_of(&self, block: BlockId) -> &[Way] {
        match self.ways.get(block) {
            Some(ways) => ways.as_slice(),
            None => &[],
        }
    }
}

/// Adds a way.
fn add(ways: &mut Vec<Way>, to: BlockId, weight: Option<u32>) -> Result<(), NoMemory> {
    push(ways, Way { to, weight })
}

/// The ways out of a block.
fn ways_out(alloc: Global, block: &Block<'_>) -> Result<Vec<Way>, NoMemory> {
    let mut ways = Vec::new(alloc);
    let Some(last) = block.instructions.last() else {
        return Ok(ways);
    };
    match &last.action {
        Action::Jump(to) => add(&mut ways, *to, None)?,
        Action::Branch(branch) => {
            add(&mut ways, branch.yes, branch.weights.map(|w| w.0))?;
            add(&mut ways, branch.no, branch.weights.map(|w| w.1))?;
        }
        Action::Switch {
            otherwise,
            cases,
            ..
        } => {
            for case in cases {
                add(&mut ways, case.to, None)?;
            }
            add(&mut ways, *otherwise, None)?;
        }
        _ => {}
    }
    Ok(ways)
}

/// Where the blocks of a function lead.
pub fn flow_of(alloc: Global, f: &Function<'_>) -> Result<Flow, NoMemory> {
    let mut ways = Vec::new(alloc);
    for block in &f.blocks {
        let out = ways_out(alloc, block)?;
        push(&mut ways, out)?;
    }
    Ok(Flow { ways })
}

/// A block on the way from the entry, and how many of its ways were gone.
#[derive(Clone, Copy)]
struct Visit {
    block: BlockId,
    gone: usize,
}

/// How many steps a walk over all blocks has at most.
fn most_steps(flow: &Flow) -> usize {
    let mut steps = flow.ways.len().saturating_mul(2);
    for ways in &flow.ways {
        steps = steps.saturating_add(ways.len());
    }
    steps.saturating_add(1)
}

/// Sets the flag at a place, and answers whether it was not set.
fn sets(flags: &mut Vec<bool>, place: usize) -> bool {
    match flags.get_mut(place) {
        Some(flag) if !*flag => {
            *flag = true;
            true
        }
        _ => false,
    }
}

/// So many flags that are not set.
pub fn flags(alloc: Global, count: usize) -> Result<Vec<bool>, NoMemory> {
    let mut found = Vec::new(alloc);
    for _ in 0..count {
        push(&mut found, false)?;
    }
    Ok(found)
}

/// The blocks that can be reached, each behind all that are on every way to it.
pub fn order(alloc: Global, flow: &Flow) -> Result<Vec<BlockId>, NoMemory> {
    let mut seen = flags(alloc, flow.ways.len())?;
    let mut open: Vec<Visit> = Vec::new(alloc);
    let mut found: Vec<BlockId> = Vec::new(alloc);
    if sets(&mut seen, 0) {
        push(&mut open, Visit { block: 0, gone: 0 })?;
    }
    for _ in 0..most_steps(flow) {
        let Some(visit) = open.pop() else {
            break;
        };
        let Some(way) = flow.ways_of(visit.block).get(visit.gone) else {
            push(&mut found, visit.block)?;
            continue;
        };
        let gone = visit.gone.saturating_add(1);
        let block = visit.block;
        push(&mut open, Visit { block, gone })?;
        if sets(&mut seen, way.to) {
            let next = Visit {
                block: way.to,
                gone: 0,
            };
            push(&mut open, next)?;
        }
    }
    found.reverse();
    Ok(found)
}
