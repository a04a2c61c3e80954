//! What the search knows of a function. Blocks, groups, keys and variables are numbers in the function.

use crate::grid::Grid;
use un_trial::facts::{BlockFacts, Operation, Temporary};
use un_trial::machine::Machine;
use un_trial::table::{NONE, Table};

/// A block, with the groups of places at its start and at its end.
#[derive(Drop)]
pub struct Block {
    /// What a trial reads of it.
    pub facts: BlockFacts,
    /// How often it runs, 1 to 1,000,000: its weight in a cost.
    pub frequency: u64,
    /// A lower bound of the block's end, in cycles: a schedule with this end is not tried to be made better.
    pub least_end: u32,
    /// Its copies of values that stand at its start or at its end.
    pub bound_copies: Vec<u32>,
    /// The group of its start.
    pub group_in: u32,
    /// The group of its end.
    pub group_out: u32,
}

/// A function. A group is a set of block boundaries joined by edges: one place for each key that is live there. Keys are the
/// names, then the saved values.
#[derive(Drop)]
pub struct Facts {
    /// The processor, and what may be used of it.
    pub machine: Machine,
    /// The blocks, in order; the first is the entry.
    pub blocks: Vec<Block>,
    /// Two for each block: a group has the number of its least boundary, where starts of blocks come first, and then their ends.
    pub groups: u32,
    /// How many names the function has: these are the keys below this number.
    pub names: u32,
    /// How many keys there are: the names, and the values of the saved registers behind them.
    pub keys: u32,
    /// Whether a key is live in a group.
    pub live: Grid<bool>,
    /// The place that the model prescribes; NONE where it is free.
    pub fixed: Grid<u32>,
    /// The region of each group: groups joined by blocks without copies of saved values have one region.
    pub region: Table<u32>,
    /// For each name, by number, whether it is a predicate.
    pub name_is_predicate: Table<bool>,
    /// The variable of the frame flag: 1 where the code has a frame, else 0.
    pub flag: u32,
    /// How many variables the model has.
    pub variables: u32,
    /// The variables of the instructions of all copies: a Spill or a Reload among them makes a frame.
    pub copy_instructions: Vec<u32>,
    /// The variables of the registers of all values at blocks' starts: a slot among them makes a frame.
    pub start_registers: Vec<u32>,
}

/// Whether a list has an item.
pub(crate) fn has(list: &[u32], item: u32) -> bool {
    for x in list {
        if *x == item {
            return true;
        }
    }
    false
}

/// The item at a place, 0 where there is none.
pub fn at(list: &[u32], place: u32) -> u32 {
    list.get(place as usize).copied().unwrap_or(0)
}

impl Block {
    /// An operation of the block.
    pub fn operation(&self, o: u32) -> &Operation {
        self.facts.operations.row(o)
    }

    /// A temporary of the block.
    pub fn temporary(&self, t: u32) -> &Temporary {
        self.facts.temporaries.row(t)
    }

    /// Whether a temporary is a value at the block's start.
    pub fn is_in(&self, t: u32) -> bool {
        has(self.facts.input.as_slice(), t)
    }

    /// Whether its jump may issue before the latency of what it tests is over.
    fn has_fresh_jump(&self) -> bool {
        for gap in &self.operation(self.facts.terminator).before {
            if gap.cycles < self.operation(gap.from).latency {
                return true;
            }
        }
        false
    }

    /// Whether the block calls.
    pub fn has_call(&self) -> bool {
        for o in &self.facts.body {
            if self.operation(*o).is_call {
                return true;
            }
        }
        false
    }
}

impl Facts {
    /// How many of the saved values stand in registers that a call keeps: all but the last, which is the link.
    pub fn kept(&self) -> u32 {
        let saved = u32::try_from(self.machine.saved.len()).unwrap_or(0);
        saved.saturating_sub(1)
    }

    /// The register of a saved value, by its place among them.
    pub fn saved_register(&self, i: u32) -> u32 {
        self.machine.saved.get(i as usize).copied().unwrap_or(NONE)
    }

    /// Whether a block has a jump that may issue before the latency of what it tests is over.
    pub fn has_fresh_jump(&self) -> bool {
        for block in &self.blocks {
            if block.has_fresh_jump() {
                return true;
            }
        }
        false
    }

    /// Whether a key has a place in a group that the model leaves open.
    pub fn is_free(&self, g: u32, k: u32) -> bool {
        self.live.at(g, k) && self.fixed.at(g, k) == NONE
    }

    /// Whether a key is free in a group and has to have one place there and in another group: that of a name anywhere, that of a
    /// saved value in its region.
    pub fn is_beside(&self, g: u32, h: u32, k: u32) -> bool {
        self.is_free(h, k) && self.region.at(h) == self.region.at(g)
    }
}
