//! Climbing on the places, from record to record: a change is gone on from where it costs no more, and now and then where it costs little
//! more than the best so far.

use crate::chance::Noise;
use crate::changes::{Change, any_change, change_place, is_change};
use crate::places::Places;
use crate::plan::{Cost, ENDLESS, Plan};
use crate::search::Search;
use crate::wishes::{pick_block, wish_of};
use std::alloc::{AllocError, Global};
use std::mem;
use un_blocks::facts::Facts;
use un_blocks::grid::Grid;

/// After so many changes without gain each block gets more trials.
const PATIENCE: u32 = 400;

/// After so many changes without gain a plan that costs the least is not changed any more to save copies.
const COPY_PATIENCE: u32 = 48;

/// After each so many changes without gain the best plan is the present one again.
const RETURN: u32 = 64;

/// A climb is not given up before so many trials, nor before a quarter of all that it may make.
const LEAST_TRIALS: u64 = 1_000;

/// Then it is given up where it has made so many times as many trials as when the best plan was last made cheaper.
const STALE: u64 = 4;

/// A plan that costs more than the present one is gone on from once in so many times.
const DETOUR: u64 = 2;

/// The trials of a plan that is settled are this part of all that were allowed before: one in so many.
const SETTLED: u64 = 8;

/// The plans of a climb.
#[derive(Drop)]
struct Plans {
    /// The plan that is changed.
    present: Plan,
    /// Room for what a change makes of it.
    next: Plan,
    /// The plan that costs least so far.
    best: Plan,
}

impl Plans {
    fn new(alloc: Global, facts: &Facts, start: Plan) -> Result<Plans, AllocError> {
        let next = blank(alloc, facts)?;
        let mut best = blank(alloc, facts)?;
        best.copy_from(&start)?;
        Ok(Plans {
            present: start,
            next,
            best,
        })
    }
}

/// A plan that stands for none yet.
fn blank(alloc: Global, facts: &Facts) -> Result<Plan, AllocError> {
    let places = Grid::filled(alloc, facts.groups, facts.keys, 0)?;
    Plan::new(alloc, facts, places, false)
}

/// How far the climb has come: the trials for each block, the changes without gain, and what plans cost.
#[derive(Clone, Copy)]
struct Climb {
    effort: u64,
    idle: u32,
    /// What the present plan costs.
    cost: Cost,
    /// What the best plan costs.
    record: Cost,
    /// How many trials were made when the best plan was last made cheaper.
    gained: u64,
}

impl Climb {
    /// What a plan may cost to be gone on from: by chance, an eighth more than the best at most.
    fn limit(self, noise: &mut Noise) -> u64 {
        let mut slack = self.record.cycles / 8;
        for _ in 0..noise.below(8) {
            slack /= 2;
        }
        let limit = self.record.cycles.saturating_add(slack);
        limit.max(self.cost.cycles)
    }

    /// Whether no change is tried any more where plans cost this at least: the best one costs no more, and copies were not saved for long.
    fn is_over(self, least: u64) -> bool {
        let is_plain = self.record.copies == 0 || self.idle > COPY_PATIENCE;
        self.record.cycles <= least && is_plain
    }
}

/// Whether the places of a group differ.
fn differs(old: &Places, new: &Places, g: u32) -> bool {
    old.row(g) != new.row(g)
}

/// Makes the blocks of the new plan those of the old one, without the trials of those whose places differ.
fn copy_blocks(facts: &Facts, old: &Plan, new: &mut Plan) -> Result<(), AllocError> {
    let blocks = facts.blocks.as_slice().iter().zip(old.blocks.as_slice());
    for ((block, present), mine) in blocks.zip(new.blocks.iter_mut()) {
        let places = &new.places;
        if differs(&old.places, places, block.group_in)
            || differs(&old.places, places, block.group_out)
        {
            mine.restart();
        } else {
            mine.copy_from(present)?;
        }
    }
    Ok(())
}

impl<'a> Search<'a> {
    /// A change: three in four by a wish of a block, else by chance.
    fn pick_change(&mut self, plan: &Plan) -> Option<Change> {
        let facts = self.facts;
        let b = pick_block(facts, plan, &mut self.noise);
        let block = facts.blocks.as_slice().get(b as usize)?;
        let mine = plan.blocks.as_slice().get(b as usize)?;
        if self.noise.one_in(4) {
            any_change(facts, &plan.places, block, plan.frame, &mut self.noise)
        } else {
            wish_of(facts, block, mine, &mut self.noise)
        }
    }

    /// Makes the next plan of the present one by a change. Whether there is one.
    fn change(&mut self, plan: &Plan, next: &mut Plan) -> Result<bool, AllocError> {
        let Some(change) = self.pick_change(plan) else {
            return Ok(false);
        };
        let wide = !self.noise.one_in(3);
        if !is_change(self.facts, &plan.places, change) {
            return Ok(false);
        }
        next.places.copy_from(&plan.places)?;
        if !change_place(
            self.facts,
            &plan.places,
            &mut next.places,
            change,
            plan.frame,
            wide,
        ) {
            return Ok(false);
        }
        next.frame = plan.frame;
        copy_blocks(self.facts, plan, next)?;
        Ok(true)
    }

    /// What a changed plan costs, by two trials a block and then by all; None where it is not gone on from.
    fn cost_of_change(&mut self, next: &mut Plan, now: Climb) -> Result<Option<Cost>, AllocError> {
        let limit = now.limit(&mut self.noise);
        let slack = limit.saturating_add(limit / 16);
        if self.cost(next, 2, slack)?.is_none() {
            return Ok(None);
        }
        match self.cost(next, now.effort, limit)? {
            Some(cost) if !now.cost.is_below(cost) || self.noise.one_in(DETOUR) => Ok(Some(cost)),
            _ => Ok(None),
        }
    }

    /// Makes more trials of the present plan.
    fn refresh(&mut self, plans: &mut Plans, now: Climb) -> Result<Climb, AllocError> {
        let mut new = now;
        if let Some(cost) = self.cost(&mut plans.present, now.effort, u64::MAX)? {
            new.cost = cost;
        }
        self.note(plans, new)
    }

    /// Goes back to the best plan, with more trials for each block where nothing was gained for long.
    fn go_back(&mut self, plans: &mut Plans, now: Climb) -> Result<Climb, AllocError> {
        let mut new = now;
        plans.present.copy_from(&plans.best)?;
        new.cost = now.record;
        if now.idle > PATIENCE {
            new.idle = 0;
            new.effort = now.effort.saturating_mul(2);
            return self.refresh(plans, new);
        }
        Ok(new)
    }

    /// Makes the present plan's recipes the first ones, and keeps it where it costs less than the best. Where none can cost less, copies
    /// are saved from then on.
    fn note(&mut self, plans: &mut Plans, now: Climb) -> Result<Climb, AllocError> {
        let mut new = now;
        self.remember(&plans.present)?;
        if now.cost.is_below(now.record) {
            if now.cost.cycles < now.record.cycles {
                new.gained = self.made();
            }
            new.idle = 0;
            new.record = now.cost;
            plans.best.copy_from(&plans.present)?;
        }
        if new.record.cycles <= self.least {
            self.saves_copies = true;
            self.is_settled = true;
        }
        Ok(new)
    }

    /// Tries one change.
    fn step(&mut self, plans: &mut Plans, now: Climb) -> Result<Climb, AllocError> {
        let mut new = now;
        new.idle = now.idle.saturating_add(1);
        if new.idle % RETURN == 0 {
            new = self.go_back(plans, new)?;
        }
        if !self.change(&plans.present, &mut plans.next)? {
            return Ok(new);
        }
        let Some(cost) = self.cost_of_change(&mut plans.next, new)? else {
            return Ok(new);
        };
        new.cost = cost;
        mem::swap(&mut plans.present, &mut plans.next);
        self.note(plans, new)
    }

    /// Whether nothing was gained for so long that the climb is given up.
    fn is_stale(&self, now: Climb) -> bool {
        let made = self.made();
        made > LEAST_TRIALS.max(self.budget / 4) && made / STALE > now.gained
    }

    /// Changes places until `reserve` trials are left, or nothing was gained for long: then those above the reserve are left out. Answers
    /// the best plan.
    pub(crate) fn climb(
        &mut self,
        alloc: Global,
        start: Plan,
        reserve: u64,
    ) -> Result<Plan, AllocError> {
        let mut plans = Plans::new(alloc, self.facts, start)?;
        let begin = Climb {
            effort: 4,
            idle: 0,
            cost: ENDLESS,
            record: ENDLESS,
            gained: 0,
        };
        let mut now = self.refresh(&mut plans, begin)?;
        for _ in 0..self.left.saturating_mul(4) {
            if self.is_stale(now) {
                self.left = self.left.min(reserve);
            }
            if self.left <= reserve || now.is_over(self.least) {
                break;
            }
            now = self.step(&mut plans, now)?;
        }
        Ok(plans.best)
    }

    /// Makes further trials of a plan that go other ways as well: by lists, and with room made for what ends in registers. It costs no more.
    pub fn settle(&mut self, plan: &mut Plan) -> Result<(), AllocError> {
        self.is_settled = true;
        self.left = self.budget / SETTLED;
        for mine in plan.blocks.iter_mut() {
            mine.go_on();
        }
        self.spend(plan)
    }

    /// Makes more and more trials for the blocks above their least ends, and for copies.
    pub(crate) fn spend(&mut self, plan: &mut Plan) -> Result<(), AllocError> {
        self.saves_copies = true;
        let mut effort = 8u64;
        for _ in 3..32 {
            let _cost = self.cost(plan, effort, u64::MAX)?;
            effort = effort.saturating_mul(2);
        }
        Ok(())
    }
}
