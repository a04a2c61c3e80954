//! Orders of a block's operations by list scheduling: of those that can come next the one comes first that waits least, behind which
//! the block goes on longest, and that ends most live ranges.

use crate::chance::Noise;
use std::alloc::{AllocError, Global};
use un_blocks::facts::Block;
use un_isa::packet_counts::PACKET;
use un_trial::facts::Operation;
use un_trial::table::{NONE, Table};

/// What speaks against an operation for each cycle that it waits.
const WAIT: u32 = 16;

/// What speaks for it for each cycle that the block goes on behind it.
const TAIL: u32 = 8;

/// So many operations that come earlier in the source speak for it as little as possible.
const EARLIER: u32 = 8;

/// The score of an operation that nothing speaks for or against.
const MIDDLE: u32 = 1 << 30;

/// What an order looks at besides cycles.
#[derive(Clone, Copy)]
pub struct Weights {
    /// What speaks for an operation for each live range that it ends, and against it where it begins one.
    pub pressure: u32,
    /// Chance speaks for it by less than this.
    pub chance: u32,
}

/// An operation that can come next, and the cycle from which it can issue.
#[derive(Clone, Copy)]
struct Next {
    op: u32,
    cycle: u32,
}

/// How far an order has come. Its tables serve one order after another.
#[derive(Drop)]
pub struct List {
    /// The cycle of each operation that is placed; NONE for the others.
    cycles: Table<u32>,
    /// How often operations that are still to come read each value, the block's end among them.
    reads: Table<u32>,
    /// The present cycle.
    now: u32,
    /// How many operations have the present cycle.
    filled: u32,
}

/// How often an operation reads a value.
fn reads_of(op: &Operation, v: u32) -> u32 {
    let mut count = 0u32;
    for x in &op.operands {
        if x.value == v {
            count = count.saturating_add(1);
        }
    }
    count
}

impl List {
    /// A list without tables. It takes no memory.
    pub fn new(alloc: Global) -> List {
        List {
            cycles: Table::of(Vec::new(alloc), NONE),
            reads: Table::of(Vec::new(alloc), 0),
            now: 1,
            filled: 0,
        }
    }

    /// Clears the tables for a block, and notes what its operations read.
    fn start(&mut self, block: &Block) -> Result<(), AllocError> {
        self.now = 1;
        self.filled = 0;
        self.cycles.refill(block.facts.operations.len(), NONE)?;
        self.reads.refill(block.facts.temporaries.len(), 0)?;
        for op in block.facts.operations.as_slice() {
            self.note_reads(op);
        }
        Ok(())
    }

    /// Notes what an operation reads, where every solution issues it.
    fn note_reads(&mut self, op: &Operation) {
        if op.instruction != NONE {
            return;
        }
        for x in &op.operands {
            let count = self.reads.at(x.value).saturating_add(1);
            self.reads.put(x.value, count);
        }
    }

    /// The first cycle in which an operation can issue; None where it is placed, or one is not that has to stand before it.
    fn earliest(&self, block: &Block, o: u32) -> Option<u32> {
        if self.cycles.at(o) != NONE {
            return None;
        }
        let mut earliest = self.now;
        for gap in &block.operation(o).before {
            let issue = self.cycles.at(gap.from);
            if issue == NONE {
                return None;
            }
            earliest = earliest.max(issue.saturating_add(gap.cycles));
        }
        Some(earliest)
    }

    /// How many operands of an operation read a value for the last time.
    fn ended(&self, op: &Operation) -> u32 {
        let mut count = 0u32;
        for x in &op.operands {
            if self.reads.at(x.value) == reads_of(op, x.value) {
                count = count.saturating_add(1);
            }
        }
        count
    }

    /// How much speaks for an operation.
    fn score(&self, block: &Block, next: Next, weights: Weights) -> u32 {
        let op = block.operation(next.op);
        let begun = if op.result == NONE {
            0
        } else {
            weights.pressure
        };
        let behind = block.facts.tails.at(next.op).saturating_mul(TAIL);
        let ended = self.ended(op).saturating_mul(weights.pressure);
        let waits = next.cycle.saturating_sub(self.now).saturating_mul(WAIT);
        MIDDLE
            .saturating_add(behind)
            .saturating_add(ended)
            .saturating_sub(waits)
            .saturating_sub(begun)
            .saturating_sub(next.op / EARLIER)
    }

    /// The operation that comes next; None where none is left that can.
    fn best(&self, block: &Block, weights: Weights, noise: &mut Noise) -> Option<Next> {
        let mut best = None;
        let mut most = 0;
        for o in &block.facts.body {
            let Some(cycle) = self.earliest(block, *o) else {
                continue;
            };
            let next = Next { op: *o, cycle };
            let chance = noise.place(weights.chance);
            let score = self.score(block, next, weights).saturating_add(chance);
            if score > most {
                most = score;
                best = Some(next);
            }
        }
        best
    }

    /// Makes a cycle with room for an operation the present one.
    fn go_to(&mut self, cycle: u32) {
        if cycle > self.now {
            self.now = cycle;
            self.filled = 0;
        } else if self.filled >= PACKET {
            self.now = self.now.saturating_add(1);
            self.filled = 0;
        }
        self.filled = self.filled.saturating_add(1);
    }

    /// Places an operation.
    fn place(&mut self, op: &Operation, next: Next) {
        self.go_to(next.cycle);
        self.cycles.put(next.op, self.now);
        for x in &op.operands {
            let count = self.reads.at(x.value).saturating_sub(1);
            self.reads.put(x.value, count);
        }
    }

    /// Makes an order one of a block's operations, as these weights and chance have it.
    pub fn fill(
        &mut self,
        block: &Block,
        weights: Weights,
        noise: &mut Noise,
        order: &mut Vec<u32>,
    ) -> Result<(), AllocError> {
        self.start(block)?;
        order.clear();
        for _ in 0..block.facts.body.len() {
            let Some(next) = self.best(block, weights, noise) else {
                break;
            };
            self.place(block.operation(next.op), next);
            order.push(next.op)?;
        }
        Ok(())
    }
}
