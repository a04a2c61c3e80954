//! The best solution so far.

ghost use Rattle.std.specs.Prelude.{◌≡◌, ◌<◌, ◌≤◌, IfOk};
ghost use Rattle.un_model.specs.Cost.{cost_of};
ghost use Rattle.un_model.specs.Solutions.{IsSolution};
ghost use Rattle.un_model.specs.Variables.{IsModel};
ghost use Rattle.un_merges.specs.Merges.{HasNoMerge};
ghost use Rattle.un_post.specs.Postable.{IsPostable};
ghost use Rattle.un_search.specs.Solved.{IsBest};

use std::alloc::Global;
use un_base::memory_error::NoMemory;
use un_merges::merges::without_merges;
use un_model::cost::cost;
use un_model::model::{Model, Solution};

/// With as many nodes a tree may have a branch. With fewer the answer follows from what the rounds leave of the first box alone.
pub(crate) const BRANCH_NODES: u32 = 3;

/// A solution and what it costs.
#[derive(Drop)]
pub struct Best {
    /// The solution: a value for each variable of the model.
    pub solution: Solution,
    /// Its cost: the sum over the blocks of frequency times packets.
    pub cost: u64,
}

/// What a solution costs.
pub(crate) fn price(m: &Model, solution: &Solution) -> u64
    requires postable { IsPostable m.now }
    ensures { result ≡ cost_of m.now solution.now }
{
    cost(m, solution)
}

/// A solution with what it costs.
fn priced(m: &Model, solution: Solution) -> Best
    requires postable { IsPostable m.now }
    ensures solution { result.solution ≡ solution }
    ensures cost { result.cost ≡ cost_of m.now solution }
{
    let cost = price(m, &solution);
    Best { solution, cost }
}

/// The solution without merges, where there are nodes for a branch.
fn tightened(alloc: Global, m: &Model, solution: Solution, nodes: u32) -> Result<Solution, NoMemory>
    requires model { IsModel m.now }
    requires solution { IsSolution m.now solution }
    ensures solution { IfOk result (λ s. IsSolution m.now s) }
    ensures tight { 3 ≤ nodes → IfOk result (λ s. HasNoMerge m.now s) }
    ensures no_dearer { IfOk result (λ s. cost_of m.now s ≤ cost_of m.now solution) }
    ensures few { nodes < 3 → IfOk result (λ s. s ≡ solution) }
{
    if nodes < BRANCH_NODES {
        return Ok(solution);
    }
    without_merges(alloc, m, solution)
}

/// A solution that was found as the best one, without merges where there are nodes for a branch, as it was found where there are fewer.
pub(crate) fn best_of(
    alloc: Global,
    m: &Model,
    solution: Solution,
    nodes: u32,
) -> Result<Best, NoMemory>
    requires postable { IsPostable m.now }
    requires solution { IsSolution m.now solution }
    ensures best { IfOk result (IsBest m.now nodes) }
    ensures no_dearer { IfOk result (λ b. b.cost ≤ cost_of m.now solution) }
    ensures few { nodes < 3 → IfOk result (λ b. b.solution ≡ solution) }
{
    let tight = tightened(alloc, m, solution, nodes)?;
    Ok(priced(m, tight))
}
