//! How many loops each block of LLVM's function stands in.

use crate::flow::{Flow, flags};
use std::alloc::Global;
use un_base::memory_error::NoMemory;
use un_llvm::function::BlockId;
use un_llvm::lists::push;

/// Whether a flag is set.
fn is_set(set: &[bool], place: usize) -> bool {
    set.get(place).copied().unwrap_or(false)
}

/// Whether a block leads to one of a set, and is not `without`.
fn leads_to(flow: &Flow, block: BlockId, set: &[bool]) -> bool {
    flow.ways_of(block).iter().any(|way| is_set(set, way.to))
}

/// Adds to a set what one step of it reaches, forward, and leaves out one block.
fn spread(flow: &Flow, set: &mut Vec<bool>, without: BlockId) {
    for block in 0..flow.ways.len() {
        if is_set(set.as_slice(), block) {
            for way in flow.ways_of(block) {
                if way.to != without
                    && let Some(flag) = set.get_mut(way.to)
                {
                    *flag = true;
                }
            }
        }
    }
}

/// The blocks that the entry leads to where a block is left out.
fn reached_without(alloc: Global, flow: &Flow, without: BlockId) -> Result<Vec<bool>, NoMemory> {
    let mut set = flags(alloc, flow.ways.len())?;
    if without != 0
        && let Some(flag) = set.get_mut(0)
    {
        *flag = true;
    }
    for _ in 0..flow.ways.len() {
        spread(flow, &mut set, without);
    }
    Ok(set)
}

/// The blocks that lead back to a block which is on every way to them: the ends of its loop.
fn latches(alloc: Global, flow: &Flow, header: BlockId) -> Result<Vec<bool>, NoMemory> {
    let around = reached_without(alloc, flow, header)?;
    let mut set = flags(alloc, flow.ways.len())?;
    for block in 0..flow.ways.len() {
        let leads = flow.ways_of(block).iter().any(|way| way.to == header);
        if leads
            && !is_set(around.as_slice(), block)
            && let Some(flag) = set.get_mut(block)
        {
            *flag = true;
        }
    }
    Ok(set)
}

/// Adds to the blocks of a loop what leads to them, and not by its first block.
fn grow(flow: &Flow, set: &mut Vec<bool>, header: BlockId) {
    for block in 0..flow.ways.len() {
        if block != header
            && leads_to(flow, block, set.as_slice())
            && !is_set(set.as_slice(), block)
            && let Some(flag) = set.get_mut(block)
        {
            *flag = true;
        }
    }
}

/// The blocks of the loop that begins with a block; none where none begins there.
fn loop_at(alloc: Global, flow: &Flow, header: BlockId) -> Result<Vec<bool>, NoMemory> {
    let mut set = latches(alloc, flow, header)?;
    if !set.iter().any(|b| *b) {
        return Ok(set);
    }
    // (what leads to the header leads to no other block of the loop by it)
    let own = is_set(set.as_slice(), header);
    if let Some(flag) = set.get_mut(header) {
        *flag = false;
    }
    if !(own && !set.iter().any(|b| *b)) {
        for _ in 0..flow.ways.len() {
            grow(flow, &mut set, header);
        }
    }
    if let Some(flag) = set.get_mut(header) {
        *flag = true;
    }
    Ok(set)
}

/// How many loops each block stands in.
pub(crate) fn depths(alloc: Global, flow: &Flow) -> Result<Vec<u32>, NoMemory> {
    let mut depths: Vec<u32> = Vec::new(alloc);
    for _ in 0..flow.ways.len() {
        push(&mut depths, 0)?;
    }
    for header in 0..flow.ways.len() {
        let set = loop_at(alloc, flow, header)?;
        for (depth, inside) in depths.iter_mut().zip(set.as_slice()) {
            if *inside {
                *depth = depth.saturating_add(1);
            }
        }
    }
    Ok(depths)
}
