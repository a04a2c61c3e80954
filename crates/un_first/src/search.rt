//! Trials of a plan's blocks.

use crate::chance::Noise;
use crate::changes::spare_slots;
use crate::lists::{List, Weights};
use crate::orders::move_one;
use crate::places::Places;
use crate::plan::{BlockPlan, Cost, Plan, UNLIMITED};
use std::alloc::{AllocError, Global};
use std::mem;
use un_blocks::facts::{Block, Facts, at};
use un_trial::recipe::{Crossing, Manner, PLAIN, Recipe};
use un_trial::sets::{EMPTY, RegisterSet};
use un_trial::trial::{Size, Task, Trial};

/// How many operations of a further trial's order are moved at most.
const MOVES: u64 = 5;

/// After so many trials that brought no smaller schedule a block is tried no more.
const PATIENCE: u64 = 800;

/// After so many a block that ends as early as it can is tried no more where copies are to be saved.
const COPY_PATIENCE: u64 = 20;

/// What a live range weighs in a list: one of these.
const PRESSURES: [u32; 8] = [1, 2, 4, 8, 16, 32, 64, 128];

/// What chance weighs in a list: less than this.
const CHANCE: u32 = 24;

/// A recipe to begin with, where there is one.
#[derive(Drop)]
struct Seed {
    is_there: bool,
    recipe: Recipe,
}

/// The state of a search, but for its plans.
#[derive(Drop)]
pub struct Search<'a> {
    /// The function whose plans are tried.
    pub facts: &'a Facts,
    /// Where its chance comes from, which follows from the seed.
    pub noise: Noise,
    /// How many trials it may make.
    pub budget: u64,
    /// How many trials are left.
    pub left: u64,
    /// What the blocks' least ends cost together: no plan costs less.
    pub least: u64,
    /// Whether blocks that end as early as they can are tried as well, to save copies.
    pub saves_copies: bool,
    /// Whether trials go other ways as well, since a plan costs the least or its places are not changed any more.
    pub is_settled: bool,
    trial: Trial<'a>,
    list: List,
    recipe: Recipe,
    /// The present plan's recipes are the first trials under other places.
    seeds: Vec<Seed>,
}

/// The cost of a block that ends so.
fn cycles(block: &Block, end: u32) -> u64 {
    block
        .frequency
        .saturating_mul(u64::from(end.saturating_sub(1)))
}

/// The cost of the blocks' least ends.
pub fn least_cost(facts: &Facts) -> u64 {
    let mut sum = 0u64;
    for block in &facts.blocks {
        sum = sum.saturating_add(cycles(block, block.least_end));
    }
    sum
}

/// The cost of a plan's schedules.
pub fn cycles_of(facts: &Facts, plan: &Plan) -> u64 {
    let mut sum = 0u64;
    for (block, mine) in facts.blocks.as_slice().iter().zip(plan.blocks.as_slice()) {
        sum = sum.saturating_add(cycles(block, mine.best.end));
    }
    sum
}

/// The slots that trials of a plan may use: none where it has no frame.
fn slots_of(facts: &Facts, places: &Places, frame: bool) -> RegisterSet {
    if frame {
        spare_slots(facts, places)
    } else {
        EMPTY
    }
}

fn seeds(alloc: Global, count: usize) -> Result<Vec<Seed>, AllocError> {
    let mut list = Vec::new(alloc);
    for _ in 0..count {
        list.push(Seed {
            is_there: false,
            recipe: Recipe::new(alloc),
        })?;
    }
    Ok(list)
}

impl<'a> Search<'a> {
    /// A search with so many trials, which begin at one of the function's blocks, and with its chance from a seed.
    pub fn new(
        alloc: Global,
        facts: &'a Facts,
        first: &'a Block,
        budget: u64,
        seed: u64,
    ) -> Result<Search<'a>, AllocError> {
        let task = Task {
            machine: &facts.machine,
            block: &first.facts,
            frame: false,
            spare_slots: EMPTY,
            most: UNLIMITED,
        };
        let seeds = seeds(alloc, facts.blocks.len())?;
        Ok(Search {
            facts,
            noise: Noise::new(seed),
            budget,
            left: budget,
            least: least_cost(facts),
            saves_copies: false,
            is_settled: false,
            trial: Trial::empty(alloc, task),
            list: List::new(alloc),
            recipe: Recipe::new(alloc),
            seeds,
        })
    }

    /// How many trials were made.
    pub fn made(&self) -> u64 {
        self.budget.saturating_sub(self.left)
    }

    /// The recipe of a block's first trial: the seed or the source order.
    fn first_recipe(&mut self, b: u32, block: &Block, manner: Manner) -> Result<(), AllocError> {
        match self.seeds.get(b as usize) {
            Some(seed) if seed.is_there => self.recipe.copy_from(&seed.recipe),
            _ => self.recipe.restart(block.facts.body.as_slice(), manner),
        }
    }

    /// The recipe of a further trial: the best so far with some operations moved.
    fn other_recipe(
        &mut self,
        block: &Block,
        mine: &BlockPlan,
        manner: Manner,
    ) -> Result<(), AllocError> {
        if mine.is_found {
            self.recipe.copy_from(&mine.best.recipe)?;
        } else {
            self.recipe.restart(block.facts.body.as_slice(), manner)?;
        }
        if self.noise.one_in(8) {
            self.recipe.manner.spill_saved = manner.spill_saved;
            self.recipe.manner.link_first = manner.link_first;
        }
        if self.is_settled && self.noise.one_in(4) {
            self.recipe.manner.make_room = !self.recipe.manner.make_room;
        }
        if mine.tried > 1 && block.has_call() && self.noise.one_in(3) {
            self.change_manner(block)?;
        }
        let moves = self.noise.below(MOVES).saturating_add(1);
        for _ in 0..moves {
            move_one(block, self.recipe.order.as_mut_slice(), &mut self.noise);
        }
        Ok(())
    }

    /// Changes by chance what the recipe's trial does about calls.
    fn change_manner(&mut self, block: &Block) -> Result<(), AllocError> {
        match self.noise.below(6) {
            0 => self.recipe.manner.to_arguments = !self.recipe.manner.to_arguments,
            1 => self.recipe.manner.save_at_once = !self.recipe.manner.save_at_once,
            _ => self.change_crossing(block)?,
        }
        Ok(())
    }

    /// Changes by chance where one of a block's values stands where it crosses a call.
    fn change_crossing(&mut self, block: &Block) -> Result<(), AllocError> {
        let count = block.facts.temporaries.len();
        let t = self.noise.place(count);
        let crossing = match self.noise.below(3) {
            0 => Crossing::Slot,
            1 => Crossing::KeptLate,
            _ => Crossing::Kept,
        };
        self.recipe
            .set_crossing(block.temporary(t).value, count, crossing)
    }

    /// Whether a trial has an order by a list: every other one of a block without calls, where that may bring an earlier end.
    fn is_listed(&mut self, block: &Block, mine: &BlockPlan) -> bool {
        let is_late = mine.is_found && mine.best.end > block.least_end;
        self.is_settled && is_late && !block.has_call() && self.noise.one_in(2)
    }

    /// The recipe of a trial by a list.
    fn listed_recipe(&mut self, block: &Block, manner: Manner) -> Result<(), AllocError> {
        self.recipe.restart(&[], manner)?;
        let weights = Weights {
            pressure: at(&PRESSURES, self.noise.place(8)),
            chance: self.noise.place(CHANCE),
        };
        self.list
            .fill(block, weights, &mut self.noise, &mut self.recipe.order)
    }

    fn next_recipe(&mut self, b: u32, block: &Block, mine: &BlockPlan) -> Result<(), AllocError> {
        let mut manner = PLAIN;
        manner.spill_saved = self.noise.one_in(2);
        manner.link_first = self.noise.one_in(2);
        if mine.tried == 0 {
            self.first_recipe(b, block, manner)
        } else if self.is_listed(block, mine) {
            self.listed_recipe(block, manner)
        } else {
            self.other_recipe(block, mine, manner)
        }
    }

    /// Makes the trial the best of its block, where it is not worse.
    fn keep(&mut self, end: u32, mine: &mut BlockPlan) {
        let copies = self.trial.copies();
        let found = Size { end, copies };
        if found.is_above(mine.size()) {
            return;
        }
        if mine.size().is_above(found) {
            mine.gained = mine.tried;
        }
        mine.is_found = true;
        mine.best.end = end;
        mine.best.copies = copies;
        self.trial.exchange_values(&mut mine.best.values);
        mem::swap(&mut self.recipe, &mut mine.best.recipe);
    }

    /// Makes one trial of a block, unless it would be that of its best schedule again.
    fn try_block(
        &mut self,
        b: u32,
        block: &'a Block,
        scene: &Scene<'_>,
        mine: &mut BlockPlan,
    ) -> Result<(), AllocError> {
        self.next_recipe(b, block, mine)?;
        self.left = self.left.saturating_sub(1);
        mine.tried = mine.tried.saturating_add(1);
        if mine.is_found && self.recipe.is_same(&mine.best.recipe) {
            return Ok(());
        }
        self.run_trial(block, scene, mine)
    }

    /// Makes the trial of a block by the recipe.
    fn run_trial(
        &mut self,
        block: &'a Block,
        scene: &Scene<'_>,
        mine: &mut BlockPlan,
    ) -> Result<(), AllocError> {
        let task = Task {
            machine: &self.facts.machine,
            block: &block.facts,
            frame: scene.frame,
            spare_slots: scene.spare_slots,
            most: mine.size(),
        };
        let start = scene.places.row(block.group_in);
        let finish = scene.places.row(block.group_out);
        let end = self.trial.run(task, start, finish, &self.recipe)?;
        if let Some(found) = end {
            self.keep(found, mine);
        }
        Ok(())
    }

    /// Whether a block is tried no more: it ends as early as it can, and has no copies to be saved, or nothing was gained for long.
    fn is_over(&self, block: &Block, mine: &BlockPlan) -> bool {
        let idle = mine.tried.saturating_sub(mine.gained);
        if !mine.is_found || mine.best.end > block.least_end {
            idle > PATIENCE
        } else {
            !self.saves_copies || mine.best.copies == 0 || idle > COPY_PATIENCE
        }
    }

    /// Makes the trials of a block up to `effort`, until its end is the least or nothing was gained for long.
    fn try_up_to(
        &mut self,
        b: u32,
        block: &'a Block,
        scene: &Scene<'_>,
        mine: &mut BlockPlan,
        effort: u64,
    ) -> Result<(), AllocError> {
        for _ in mine.tried..effort {
            if self.left == 0 || self.is_over(block, mine) {
                break;
            }
            self.try_block(b, block, scene, mine)?;
        }
        Ok(())
    }

    /// Makes the trials of each block up to `effort`. Answers the cost; None where it exceeds the limit or a block has no schedule.
    pub fn cost(
        &mut self,
        plan: &mut Plan,
        effort: u64,
        limit: u64,
    ) -> Result<Option<Cost>, AllocError> {
        let facts = self.facts;
        let scene = Scene {
            places: &plan.places,
            frame: plan.frame,
            spare_slots: slots_of(facts, &plan.places, plan.frame),
        };
        let mut cost = Cost {
            cycles: 0,
            copies: 0,
        };
        let mut b = 0u32;
        for (mine, block) in plan.blocks.iter_mut().zip(facts.blocks.as_slice()) {
            self.try_up_to(b, block, &scene, mine, effort)?;
            if !mine.is_found {
                return Ok(None);
            }
            cost = with_block(cost, block, mine);
            if cost.cycles > limit {
                return Ok(None);
            }
            b = b.saturating_add(1);
        }
        Ok(Some(cost))
    }

    /// Makes the plan's recipes those of the first trials under other places.
    pub(crate) fn remember(&mut self, plan: &Plan) -> Result<(), AllocError> {
        for (seed, mine) in self.seeds.iter_mut().zip(plan.blocks.as_slice()) {
            if mine.is_found {
                seed.is_there = true;
                seed.recipe.copy_from(&mine.best.recipe)?;
            }
        }
        Ok(())
    }
}

impl<'a> Search<'a> {
    /// A plan of other facts without its trials; its recipes are those of the first ones.
    pub(crate) fn restarted(&mut self, plan: Plan) -> Result<Plan, AllocError> {
        let mut new = plan;
        self.remember(&new)?;
        for mine in new.blocks.iter_mut() {
            mine.restart();
        }
        Ok(new)
    }
}

/// A cost with that of one block more.
fn with_block(cost: Cost, block: &Block, mine: &BlockPlan) -> Cost {
    let copies = block.frequency.saturating_mul(u64::from(mine.best.copies));
    Cost {
        cycles: cost.cycles.saturating_add(cycles(block, mine.best.end)),
        copies: cost.copies.saturating_add(copies),
    }
}

/// What the trials of a plan share.
#[derive(Clone, Copy)]
struct Scene<'p> {
    places: &'p Places,
    frame: bool,
    spare_slots: RegisterSet,
}
