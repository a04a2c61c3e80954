//! A first solution.

ghost use Rattle.std.specs.Prelude.{IfOk, IfSome};
ghost use Rattle.un_model.specs.Solutions.{IsSolution};
ghost use Rattle.un_model.specs.Variables.{IsModel};

use crate::assemble::assembled;
use crate::plan::Plan;
use crate::search::{Search, cycles_of, least_cost};
use crate::start::best_start;
use std::alloc::{AllocError, Global};
use un_base::memory_error::NoMemory;
use un_blocks::facts::{Block, Facts};
use un_blocks::groups::{facts, waiting_facts};
use un_isa::reg::GENERALS;
use un_lists::items::Items;
use un_model::model::{Model, Solution};
use un_trial::sets::EMPTY;
use un_violations::solution::is_solution;

/// The values as a solution, where they are one: where no clause is broken.
///
/// # Errors
/// `NoMemory` where there is no memory for the schedule.
pub fn judged(alloc: Global, m: &Model, values: Vec<u32>) -> Result<Option<Solution>, NoMemory>
    requires model { IsModel m.now }
    ensures { IfOk result (λ found. IfSome found (λ s. IsSolution m.now s)) }
{
    let solution = Solution {
        values: Items::from_vec(values),
    };
    if is_solution(alloc, m, &solution)? {
        Ok(Some(solution))
    } else {
        Ok(None)
    }
}

/// A search under fewer registers has so many trials at most.
const FEWER_TRIALS: u64 = 1_000;

/// From so many trials a block on two searches have half of them each: they come to other plans, and the better one is mostly cheaper than
/// what one search finds. With fewer one search is not at its end by half.
const HALVED_TRIALS: u64 = 5_000;

/// The seed of a search's chance.
const FIRST_SEED: u64 = 0;

/// The seed of a second search's chance.
const SECOND_SEED: u64 = 1;

/// How many of so many trials of a function's blocks one search has.
fn share(trials: u64, blocks: &[Block]) -> u64 {
    let count = u64::try_from(blocks.len()).unwrap_or(u64::MAX);
    if trials / count.max(1) < HALVED_TRIALS {
        trials
    } else {
        trials / 2
    }
}

/// The values that a search found.
#[derive(Drop)]
struct Found {
    /// The value of each variable.
    values: Vec<u32>,
    /// What they cost.
    cycles: u64,
}

/// The values of a plan's schedules.
fn values_of(alloc: Global, facts: &Facts, plan: &Plan) -> Result<Found, AllocError> {
    let values = assembled(alloc, facts, plan)?;
    Ok(Found {
        values,
        cycles: cycles_of(facts, plan),
    })
}

/// The plan that a search with so many trials finds, with its chance from a seed.
fn searched(
    alloc: Global,
    facts: &Facts,
    budget: u64,
    seed: u64,
) -> Result<Option<Plan>, AllocError> {
    let Some(first) = facts.blocks.as_slice().first() else {
        return Ok(None);
    };
    let mut search = Search::new(alloc, facts, first, budget, seed)?;
    let quarter = budget / 4;
    let Some(start) = best_start(alloc, &mut search, budget.saturating_sub(quarter))? else {
        return Ok(None);
    };
    let mut plan = search.climb(alloc, start, quarter)?;
    search.spend(&mut plan)?;
    search.settle(&mut plan)?;
    Ok(Some(plan))
}

/// The plan that a search finds which goes on from one of other facts, by its places and recipes, with a quarter of so many trials.
fn resumed(
    alloc: Global,
    facts: &Facts,
    plan: Plan,
    budget: u64,
) -> Result<Option<Plan>, AllocError> {
    let Some(first) = facts.blocks.as_slice().first() else {
        return Ok(None);
    };
    let mut search = Search::new(alloc, facts, first, budget, FIRST_SEED)?;
    let start = search.restarted(plan)?;
    search.left = budget / 4;
    let mut plan = search.climb(alloc, start, 0)?;
    search.settle(&mut plan)?;
    Ok(Some(plan))
}

impl Found {
    /// Makes the values those of a plan where that costs less.
    fn improve(&mut self, alloc: Global, facts: &Facts, plan: &Plan) -> Result<(), AllocError> {
        if cycles_of(facts, plan) < self.cycles {
            *self = values_of(alloc, facts, plan)?;
        }
        Ok(())
    }
}

/// Makes values the cheapest of those, of what a search finds where jumps wait for what they test, and of what one finds that goes on from
/// there without. Blocks whose jumps need not wait are late for longer, and take trials from the others: so the values might cost more than
/// if all jumps had to wait. Nothing is tried where they cost no more than is possible then.
fn improve_by_waiting(
    alloc: Global,
    facts: &Facts,
    waiting: &Facts,
    budget: u64,
    best: &mut Found,
) -> Result<(), AllocError> {
    if best.cycles <= least_cost(waiting) {
        return Ok(());
    }
    let Some(plan) = searched(alloc, waiting, budget, FIRST_SEED)? else {
        return Ok(());
    };
    best.improve(alloc, waiting, &plan)?;
    if let Some(quick) = resumed(alloc, facts, plan, budget)? {
        best.improve(alloc, facts, &quick)?;
    }
    Ok(())
}

/// Makes values those that a search from another seed finds, where they cost less. Nothing is tried where the values cost the least.
fn improve_by_chance(
    alloc: Global,
    facts: &Facts,
    budget: u64,
    best: &mut Found,
) -> Result<(), AllocError> {
    if best.cycles <= least_cost(facts) {
        return Ok(());
    }
    match searched(alloc, facts, budget, SECOND_SEED)? {
        None => Ok(()),
        Some(plan) => best.improve(alloc, facts, &plan),
    }
}

/// Makes values the cheapest of those that searches under fewer and fewer registers find. They go other ways, and what they find is as
/// good under all registers. Nothing is tried where the values cost the least.
fn improve_by_fewer(
    alloc: Global,
    facts: &mut Facts,
    budget: u64,
    best: &mut Found,
) -> Result<(), AllocError> {
    let least = least_cost(facts);
    for _ in 1..GENERALS {
        facts.machine.assignable.drop_greatest();
        if best.cycles <= least || facts.machine.assignable == EMPTY {
            break;
        }
        if let Some(plan) = searched(alloc, facts, budget, FIRST_SEED)? {
            best.improve(alloc, facts, &plan)?;
        }
    }
    Ok(())
}

/// The values that a search makes, or one of those that follow: where jumps may issue beside what they test, one as if they waited, and one
/// that goes on from there; else, where the trials are halved, one from another seed; where options limit the registers, some under fewer.
/// None where no start assignment leads to any. Nothing is promised of them: `first` judges them.
///
/// # Errors
/// `NoMemory` where there is no memory for the plans.
pub fn candidate(
    alloc: Global,
    m: &Model,
    least_ends: &[u32],
    budget: u32,
) -> Result<Option<Vec<u32>>, NoMemory> {
    let all = u64::from(budget);
    let mut facts = facts(alloc, m, least_ends)?;
    let trials = share(all, facts.blocks.as_slice());
    let Some(plan) = searched(alloc, &facts, trials, FIRST_SEED)? else {
        return Ok(None);
    };
    let mut best = values_of(alloc, &facts, &plan)?;
    if best.cycles <= least_cost(&facts) {
        return Ok(Some(best.values));
    }
    if facts.has_fresh_jump() {
        let waiting = waiting_facts(alloc, m, least_ends)?;
        improve_by_waiting(alloc, &facts, &waiting, trials, &mut best)?;
    } else if trials < all {
        improve_by_chance(alloc, &facts, trials, &mut best)?;
    }
    if m.options.regs.is_some() {
        improve_by_fewer(alloc, &mut facts, trials.min(FEWER_TRIALS), &mut best)?;
    }
    Ok(Some(best.values))
}

/// A solution by at most `budget` trials of blocks and an eighth more: of one search, or, from 5,000 a block on, of two with half of them
/// each. Where jumps may issue beside what they test, there is a second search in any case, as if they waited, with as many trials as the
/// first, and one with a third as many goes on from what it finds; where options limit the registers and the solution costs more than the
/// least, more follow under fewer registers. It follows from the model, the bounds and the budget alone; None where none was found.
/// `least_ends` has a lower bound of each block's end: a block that has reached it gets no more trials. A wrong one makes the answer
/// worse, and not wrong.
///
/// # Errors
/// `NoMemory` where there is no memory for the plans.
pub fn first(
    alloc: Global,
    m: &Model,
    least_ends: &[u32],
    budget: u32,
) -> Result<Option<Solution>, NoMemory>
    requires model { IsModel m.now }
    ensures { IfOk result (λ found. IfSome found (λ s. IsSolution m.now s)) }
{
    match candidate(alloc, m, least_ends, budget)? {
        None => Ok(None),
        Some(values) => judged(alloc, m, values),
    }
}
