//! Plans: places of all keys, and for each block the best schedule under them.

use crate::places::Places;
use std::alloc::{AllocError, Global};
use un_blocks::facts::Facts;
use un_trial::recipe::Recipe;
use un_trial::trial::Size;

/// What a trial of a block gave.
#[derive(Drop)]
pub struct Schedule {
    /// The block's end, in cycles.
    pub end: u32,
    /// How many of its copies are active.
    pub copies: u32,
    /// The values of the block's variables, from its first on.
    pub values: Vec<u32>,
    /// The recipe by which it was made.
    pub recipe: Recipe,
}

/// The trials of a block under a plan's places.
#[derive(Drop)]
pub struct BlockPlan {
    /// How many trials were made under these places.
    pub tried: u64,
    /// How many of them were made when one was smaller than all before.
    pub gained: u64,
    /// Whether one of them came to an end, so that `best` tells something.
    pub is_found: bool,
    /// The schedule with the least end, among those with one end with the fewest copies.
    pub best: Schedule,
}

/// Places, and the blocks under them.
#[derive(Drop)]
pub struct Plan {
    /// The place of each key in each group.
    pub places: Places,
    /// Whether the function has a frame, so that keys may stand in slots.
    pub frame: bool,
    /// The trials of each block under these places.
    pub blocks: Vec<BlockPlan>,
}

/// What a plan costs: cycles count first, and then copies.
#[derive(Clone, Copy)]
pub struct Cost {
    /// The sum over the blocks of frequency times packets.
    pub cycles: u64,
    /// The sum over the blocks of frequency times active copies.
    pub copies: u64,
}

/// No schedule is larger.
pub(crate) const UNLIMITED: Size = Size {
    end: u32::MAX,
    copies: u32::MAX,
};

/// More than any plan costs.
pub(crate) const ENDLESS: Cost = Cost {
    cycles: u64::MAX,
    copies: 0,
};

impl Cost {
    /// Whether this cost is less than another.
    pub fn is_below(self, other: Cost) -> bool {
        self.cycles < other.cycles || self.cycles == other.cycles && self.copies < other.copies
    }
}

/// Makes a list that of other items.
pub(crate) fn copy_list(to: &mut Vec<u32>, from: &[u32]) -> Result<(), AllocError> {
    to.clear();
    to.extend_from_slice(from)
}

impl BlockPlan {
    fn new(alloc: Global) -> BlockPlan {
        BlockPlan {
            tried: 0,
            gained: 0,
            is_found: false,
            best: Schedule {
                end: 0,
                copies: 0,
                values: Vec::new(alloc),
                recipe: Recipe::new(alloc),
            },
        }
    }

    /// Forgets the trials.
    pub fn restart(&mut self) {
        self.tried = 0;
        self.gained = 0;
        self.is_found = false;
    }

    /// Goes on from the best schedule, with as much patience as at first.
    pub fn go_on(&mut self) {
        self.tried = 2;
        self.gained = 2;
    }

    /// Makes the trials those of another.
    pub fn copy_from(&mut self, other: &BlockPlan) -> Result<(), AllocError> {
        self.tried = other.tried;
        self.gained = other.gained;
        self.is_found = other.is_found;
        self.best.end = other.best.end;
        self.best.copies = other.best.copies;
        copy_list(&mut self.best.values, other.best.values.as_slice())?;
        self.best.recipe.copy_from(&other.best.recipe)
    }

    /// The size of the best schedule; no limit where there is none.
    pub fn size(&self) -> Size {
        if self.is_found {
            Size {
                end: self.best.end,
                copies: self.best.copies,
            }
        } else {
            UNLIMITED
        }
    }
}

impl Plan {
    /// A plan without trials.
    pub fn new(
        alloc: Global,
        facts: &Facts,
        places: Places,
        frame: bool,
    ) -> Result<Plan, AllocError> {
        let blocks = block_plans(alloc, facts.blocks.len())?;
        Ok(Plan {
            places,
            frame,
            blocks,
        })
    }
}

impl Plan {
    /// Makes the plan another one of the same function.
    pub fn copy_from(&mut self, other: &Plan) -> Result<(), AllocError> {
        self.places.copy_from(&other.places)?;
        self.frame = other.frame;
        for (mine, block) in self.blocks.iter_mut().zip(other.blocks.as_slice()) {
            mine.copy_from(block)?;
        }
        Ok(())
    }
}

fn block_plans(alloc: Global, count: usize) -> Result<Vec<BlockPlan>, AllocError> {
    let mut list = Vec::new(alloc);
    for _ in 0..count {
        list.push(BlockPlan::new(alloc))?;
    }
    Ok(list)
}
