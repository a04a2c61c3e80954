//! Which names are needed where.

use crate::body::{Block, BlockId, Body, Step, read_at_end, ways_out};
use crate::names::NameId;
use std::alloc::Global;
use un_base::memory_error::NoMemory;
use un_llvm::lists::push;

/// Rows of flags.
#[derive(Drop)]
pub struct Rows {
    width: usize,
    flags: Vec<bool>,
}

impl Rows {
    /// So many rows of so many flags, none of which is set.
    pub fn new(alloc: Global, rows: usize, width: usize) -> Result<Rows, NoMemory> {
        let mut flags = Vec::new(alloc);
        for _ in 0..rows.saturating_mul(width) {
            push(&mut flags, false)?;
        }
        Ok(Rows { width, flags })
    }

    /// Where a flag lies; behind all where there is none.
    fn place(&self, row: usize, column: usize) -> usize {
        if column < self.width {
            row.saturating_mul(self.width).saturating_add(column)
        } else {
            usize::MAX
        }
    }

    /// Whether a flag is set.
    pub fn has(&self, row: usize, column: usize) -> bool {
        let place = self.place(row, column);
        self.flags.get(place).copied().unwrap_or(false)
    }

    /// Sets a flag or takes it back, and answers whether it was otherwise.
    pub fn put(&mut self, row: usize, column: usize, set: bool) -> bool {
        let place = self.place(row, column);
        match self.flags.get_mut(place) {
            Some(flag) if *flag != set => {
                *flag = set;
                true
            }
            _ => false,
        }
    }

    /// Sets the flags of one row in another, and answers whether one was not set.
    pub fn join(&mut self, to: usize, from: usize) -> bool {
        let mut changed = false;
        for column in 0..self.width {
            if self.has(from, column) {
                changed = self.put(to, column, true) || changed;
            }
        }
        changed
    }

    /// Takes all flags of a row back.
    pub fn clear(&mut self, row: usize) {
        for column in 0..self.width {
            self.put(row, column, false);
        }
    }
}

/// The names that are needed at the start of each block; the row behind the blocks' is a place to count in.
#[derive(Drop)]
pub struct Live {
    rows: Rows,
    /// The row to count in.
    here: usize,
}

impl Live {
    /// Whether a name is needed at the start of a block.
    pub fn at_start(&self, block: BlockId, name: NameId) -> bool {
        self.rows.has(block, name)
    }

    /// Whether a name is needed where the count has come to.
    pub fn here(&self, name: NameId) -> bool {
        self.rows.has(self.here, name)
    }

    /// Begins to count at the end of a block.
    pub fn begin(&mut self, block: &Block<'_>) {
        self.rows.clear(self.here);
        for to in ways_out(block.end) {
            if let Some(to) = to {
                self.rows.join(self.here, to);
            }
        }
        if let Some(name) = read_at_end(block.end) {
            self.rows.put(self.here, name, true);
        }
    }

    /// Counts what an operation assigns and reads.
    pub fn pass(&mut self, step: &Step<'_>) {
        if let Some(name) = step.dst {
            self.rows.put(self.here, name, false);
        }
        for name in step.srcs.as_slice() {
            self.rows.put(self.here, *name, true);
        }
    }

    /// Counts a whole block, and answers whether more is needed at its start than was known.
    fn takes(&mut self, place: BlockId, block: &Block<'_>) -> bool {
        self.begin(block);
        for step in block.steps.iter().rev() {
            self.pass(step);
        }
        self.rows.join(place, self.here)
    }
}

/// One round over all blocks from the last to the first, and whether more is needed than was known.
fn grows(live: &mut Live, body: &Body<'_>) -> bool {
    let mut changed = false;
    for (place, block) in body.blocks.iter().enumerate().rev() {
        changed = live.takes(place, block) || changed;
    }
    changed
}

/// The names that are needed at the start of each block.
pub fn live_names(alloc: Global, body: &Body<'_>) -> Result<Live, NoMemory> {
    let here = body.blocks.len();
    let rows = Rows::new(alloc, here.saturating_add(1), body.names.len())?;
    let mut live = Live { rows, here };
    for _ in 0..here.saturating_add(2) {
        if !grows(&mut live, body) {
            break;
        }
    }
    Ok(live)
}
