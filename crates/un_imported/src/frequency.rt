//! How often each block and each way is taken: by the weights that branches tell, and else nine times of ten back into the inner loop.

use crate::flow::{Flow, Way};
use crate::loops::depths;
use std::alloc::Global;
use un_base::memory_error::NoMemory;
use un_llvm::function::BlockId;
use un_llvm::lists::push;

/// What a frequency of one run is counted as.
const ONCE: u64 = 0x10_0000;

/// What a way that is always taken is counted as.
const ALWAYS: u64 = 0x1_0000;

/// How often the frequencies are passed on at most.
const ROUNDS: u32 = 20_000;

/// How often blocks and ways are taken.
#[derive(Drop)]
pub struct Frequencies {
    /// How often each block runs, in parts of `ONCE`.
    blocks: Vec<u64>,
    /// How likely each way out of each block is, in parts of `ALWAYS`.
    likely: Vec<Vec<u64>>,
}

/// A number of runs, at least one.
fn runs(parts: u64) -> u64 {
    let rounded = parts.saturating_add(ONCE / 2) / ONCE;
    rounded.clamp(1, 1_000_000)
}

impl Frequencies {
    /// How often a block runs.
    pub fn block(&self, block: BlockId) -> u64 {
        runs(self.blocks.get(block).copied().unwrap_or(0))
    }

    /// How likely a way is, in parts of `ALWAYS`.
    fn likely(&self, block: BlockId, way: usize) -> u64 {
        match self.likely.get(block) {
            Some(ways) => ways.get(way).copied().unwrap_or(0),
            None => 0,
        }
    }

    /// How often a way out of a block is taken.
    pub fn way(&self, block: BlockId, way: usize) -> u64 {
        let often = self.blocks.get(block).copied().unwrap_or(0);
        runs(often.saturating_mul(self.likely(block, way)) / ALWAYS)
    }
}

/// The weight of a way, where none is told: nine where it stays in more loops than another way.
fn guessed(depths: &[u32], ways: &[Way], way: &Way) -> u64 {
    let own = depths.get(way.to).copied().unwrap_or(0);
    for other in ways {
        if depths.get(other.to).copied().unwrap_or(0) < own {
            return 9;
        }
    }
    1
}

/// The weights of the ways out of a block.
fn weights(alloc: Global, depths: &[u32], ways: &[Way]) -> Result<Vec<u64>, NoMemory> {
    let mut found: Vec<u64> = Vec::new(alloc);
    for way in ways {
        let weight = match way.weight {
            Some(weight) => u64::from(weight).max(1),
            None => guessed(depths, ways, way),
        };
        push(&mut found, weight)?;
    }
    Ok(found)
}

/// How likely each way out of a block is.
fn shares(alloc: Global, depths: &[u32], ways: &[Way]) -> Result<Vec<u64>, NoMemory> {
    let mut found = weights(alloc, depths, ways)?;
    let mut sum: u64 = 0;
    for weight in &found {
        sum = sum.saturating_add(*weight);
    }
    let sum = sum.max(1);
    for weight in found.iter_mut() {
        *weight = weight.saturating_mul(ALWAYS) / sum;
    }
    Ok(found)
}

/// How likely all ways are.
fn all_shares(alloc: Global, flow: &Flow) -> Result<Vec<Vec<u64>>, NoMemory> {
    let depths = depths(alloc, flow)?;
    let mut found = Vec::new(alloc);
    for ways in &flow.ways {
        let shares = shares(alloc, depths.as_slice(), ways.as_slice())?;
        push(&mut found, shares)?;
    }
    Ok(found)
}

/// So many zeros.
fn zeros(alloc: Global, count: usize) -> Result<Vec<u64>, NoMemory> {
    let mut found = Vec::new(alloc);
    for _ in 0..count {
        push(&mut found, 0)?;
    }
    Ok(found)
}

/// Adds to a number of a list.
fn add_at(numbers: &mut Vec<u64>, place: usize, more: u64) {
    if let Some(number) = numbers.get_mut(place) {
        *number = number.saturating_add(more);
    }
}

/// What comes to the blocks in a round: along this order at once, and back against it in the next round.
#[derive(Drop)]
struct Round {
    now: Vec<u64>,
    next: Vec<u64>,
}

/// Passes on how often a block runs.
fn pass_on(
    found: &Frequencies,
    flow: &Flow,
    places: &[u64],
    round: &mut Round,
    block: BlockId,
    often: u64,
) {
    let own = places.get(block).copied().unwrap_or(0);
    for (k, way) in flow.ways_of(block).iter().enumerate() {
        let share = often.saturating_mul(found.likely(block, k)) / ALWAYS;
        if places.get(way.to).copied().unwrap_or(0) > own {
            add_at(&mut round.now, way.to, share);
        } else {
            add_at(&mut round.next, way.to, share);
        }
    }
}

/// One round over all blocks in an order; answers whether a frequency changed.
fn changes(
    alloc: Global,
    found: &mut Frequencies,
    flow: &Flow,
    order: &[BlockId],
    places: &[u64],
    round: &mut Round,
) -> Result<bool, NoMemory> {
    let mut changed = false;
    let zeros = zeros(alloc, flow.ways.len())?;
    round.now = std::mem::replace(&mut round.next, zeros);
    add_at(&mut round.now, 0, ONCE);
    for block in order {
        let often = round.now.get(*block).copied().unwrap_or(0);
        pass_on(found, flow, places, round, *block, often);
        if let Some(old) = found.blocks.get_mut(*block) {
            changed = changed || *old != often;
            *old = often;
        }
    }
    Ok(changed)
}

/// The place of each block in an order.
fn places(alloc: Global, order: &[BlockId], count: usize) -> Result<Vec<u64>, NoMemory> {
    let mut found = zeros(alloc, count)?;
    let mut at: u64 = 0;
    for block in order {
        at = at.saturating_add(1);
        if let Some(place) = found.get_mut(*block) {
            *place = at;
        }
    }
    Ok(found)
}

/// How often the blocks and ways of a function are taken.
pub(crate) fn all_frequencies(
    alloc: Global,
    flow: &Flow,
    order: &[BlockId],
) -> Result<Frequencies, NoMemory> {
    let count = flow.ways.len();
    let mut found = Frequencies {
        blocks: zeros(alloc, count)?,
        likely: all_shares(alloc, flow)?,
    };
    let places = places(alloc, order, count)?;
    let mut round = Round {
        now: zeros(alloc, count)?,
        next: zeros(alloc, count)?,
    };
    for _ in 0..ROUNDS {
        if !changes(
            alloc,
            &mut found,
            flow,
            order,
            places.as_slice(),
            &mut round,
        )? {
            break;
        }
    }
    Ok(found)
}
