//! The best solution that a search finds, with a bound and a tree that shows it.

ghost use Rattle.std.specs.Prelude.{◌≡◌, ◌≢◌, ◌≤◌, ◌<◌, None, Some, All, Contains, IfOk, IfSome};
ghost use Rattle.un_ir.specs.Extended.{IsExtended};
ghost use Rattle.un_isa.specs.Fit.{IsFit};
ghost use Rattle.un_model.specs.Cost.{cost_of};
ghost use Rattle.un_model.specs.Options.{AreOptions};
ghost use Rattle.un_model.specs.Solutions.{IsSolution};
ghost use Rattle.un_model.specs.Variables.{IsModel};
ghost use Rattle.un_model.specs.declared.model.Solution.{Solution};
ghost use Rattle.un_bound.specs.Arcs.{IsShort};
ghost use Rattle.un_certificate.specs.Bounds.{IsBound, IsLeastOpen};
ghost use Rattle.un_certificate.specs.Joints.{visits_in};
ghost use Rattle.un_post.specs.Postable.{IsPostable};
ghost use Rattle.un_merges.specs.Merges.{HasNoMerge};
ghost use Rattle.un_tree.specs.declared.node.Node.TheVariants.{Open};
ghost use Rattle.un_search.specs.Answers.{AreEnough, IsLeftOfRoot, IsRefuted};
ghost use Rattle.un_search.specs.Roots.{IsIncumbent};
ghost use Rattle.un_search.specs.Solved.{IsBest, IsByRounds, IsCode, IsLast, IsEnded, OnBetter, OnEnded, OnCode, OnInfeasible, OnSpent, OnOther};
ghost use Rattle.un_search.specs.Solved.{HasNoOpenLeaf};

use crate::attempt::{Tried, Under, attempt, attempt_under};
use crate::best::{Best, best_of};
use crate::root::{Incumbent, lowered};
use crate::start::{incumbent, unposted};
use std::alloc::Global;
use un_base::memory_error::NoMemory;
use un_certificate::bound::bound_of;
use un_model::model::{Model, Solution};
use un_tree::node::Tree;

/// What a search answers for a model.
#[derive(Drop)]
pub enum Answer {
    /// A solution, its cost, a bound that no solution costs less than, and the tree that shows the bound.
    Code {
        solution: Solution,
        cost: u64,
        bound: u64,
        tree: Tree,
    },
    /// There is no solution, as the tree shows.
    Infeasible(Tree),
    /// The nodes were used before a solution was found.
    Spent(Tree),
}

/// The best solution of all attempts, with a bound that no solution costs less than and the tree that shows it.
#[derive(Drop)]
struct Last {
    best: Best,
    bound: u64,
    tree: Tree,
}

/// What an attempt under the cost of the best solution came to.
#[derive(Drop)]
enum Step {
    Better(Incumbent),
    Ended(Last),
}

/// The best solution with its tree, and the bound that the tree shows: `least` is the least of the least costs in the boxes of its open
/// leaves, where there are some.
fn with_bound(m: &Model, best: Best, tree: Tree, least: Option<u64>, nodes: u32) -> Last
    requires postable { IsPostable m.now }
    requires short { All IsShort m.now.ext.blocks }
    requires best { IsBest m.now nodes best }
    requires ended { IsEnded m.now (Some best.cost) nodes tree.nodes.items }
    requires lowest { IsLeastOpen m.now (visits_in m.now tree.nodes.items) least }
    ensures last { IsLast m.now nodes result }
    ensures same { result.best ≡ best }
{
    let bound = bound_of(m, best.cost, least);
    Last { best, bound, tree }
}

/// An attempt at a solution that costs less than the best one.
fn try_better(alloc: Global, m: &Model, now: Incumbent, nodes: u32) -> Result<Step, NoMemory>
    requires postable { IsPostable m.now }
    requires short { All IsShort m.now.ext.blocks }
    requires some { 0 < nodes }
    requires now { IsIncumbent m.now nodes now }
    ensures better { IfOk result (OnBetter (IsIncumbent m.now nodes)) }
    ensures falls { IfOk result (OnBetter (λ i. i.best.cost < now.best.cost)) }
    ensures last { IfOk result (OnEnded (IsLast m.now nodes)) }
    ensures same { IfOk result (OnEnded (λ l. l.best ≡ now.best)) }
    ensures few { nodes < 3 → IfOk result (OnBetter (λ i. IsLeftOfRoot m.now (Some now.best.cost) i.best.solution)) }
{
    let Incumbent { best, posting } = now;
    let Under { tried, root } = attempt_under(alloc, m, posting, best.cost, nodes)?;
    match tried {
        Tried::Found(solution) => {
            let next = best_of(alloc, m, solution, nodes)?;
            let posting = lowered(alloc, m, root, next.cost)?;
            Ok(Step::Better(Incumbent {
                best: next,
                posting,
            }))
        }
        Tried::Refuted(tree) => Ok(Step::Ended(with_bound(m, best, tree, None, nodes))),
        Tried::Cut { tree, least } => {
            Ok(Step::Ended(with_bound(m, best, tree, Some(least), nodes)))
        }
    }
}

/// Attempts from a solution on, each under the cost of the best one so far, until there is none that costs less or the nodes are used.
fn best_attempts(alloc: Global, m: &Model, start: Incumbent, nodes: u32) -> Result<Last, NoMemory>
    requires postable { IsPostable m.now }
    requires short { All IsShort m.now.ext.blocks }
    requires some { 0 < nodes }
    requires start { IsIncumbent m.now nodes start }
    ensures last { IfOk result (IsLast m.now nodes) }
    ensures no_dearer { IfOk result (λ l. l.best.cost ≤ start.best.cost) }
    ensures few { nodes < 3 → IfOk result (λ l. IsByRounds m.now (Some start.best.solution) l.best.solution) }
{
    let mut now = start;
    loop {
        match try_better(alloc, m, now, nodes)? {
            Step::Better(next) => now = next,
            Step::Ended(last) => return Ok(last),
        }
    }
}

/// The answer with the best solution of all attempts.
fn code_of(last: Last) -> Answer
    ensures { result ≡ Answer.Code last.best.solution last.best.cost last.bound last.tree }
{
    let Last { best, bound, tree } = last;
    let Best { solution, cost } = best;
    Answer::Code {
        solution,
        cost,
        bound,
        tree,
    }
}

/// The answer from a solution on.
fn from_best(alloc: Global, m: &Model, best: Incumbent, nodes: u32) -> Result<Answer, NoMemory>
    requires postable { IsPostable m.now }
    requires short { All IsShort m.now.ext.blocks }
    requires some { 0 < nodes }
    requires best { IsIncumbent m.now nodes best }
    ensures code { IfOk result (OnCode (IsCode m.now nodes)) }
    ensures no_dearer { IfOk result (OnCode (λ s cost bound t. cost ≤ best.best.cost)) }
    ensures found { IfOk result (OnOther ⊥) }
    ensures few { nodes < 3 → IfOk result (OnCode (λ s cost bound t. IsByRounds m.now (Some best.best.solution) s)) }
{
    let last = best_attempts(alloc, m, best, nodes)?;
    Ok(code_of(last))
}

/// The answer where no solution is known yet: the first attempt has no limit.
fn from_none(alloc: Global, m: &Model, nodes: u32) -> Result<Answer, NoMemory>
    requires postable { IsPostable m.now }
    requires short { All IsShort m.now.ext.blocks }
    requires some { 0 < nodes }
    ensures code { IfOk result (OnCode (IsCode m.now nodes)) }
    ensures infeasible { IfOk result (OnInfeasible (IsRefuted m.now None nodes)) }
    ensures spent { IfOk result (OnSpent (λ t. IsEnded m.now None nodes t × Contains t Open)) }
    ensures few { nodes < 3 → IfOk result (OnCode (λ s cost bound t. IsByRounds m.now None s)) }
{
    match attempt(alloc, m, None, nodes)? {
        Tried::Found(solution) => {
            let best = unposted(alloc, m, solution, nodes)?;
            let answer = from_best(alloc, m, best, nodes)?;
            Ok(answer)
        }
        Tried::Refuted(tree) => Ok(Answer::Infeasible(tree)),
        Tried::Cut { tree, least: _ } => Ok(Answer::Spent(tree)),
    }
}

/// Looks for the best solution of a model, each attempt with at most so many nodes, and from `start` on where there is one.
///
/// # Errors
/// `NoMemory` where there is no memory for the search.
pub fn solve(
    alloc: Global,
    m: &Model,
    start: Option<Solution>,
    nodes: u32,
) -> Result<Answer, NoMemory>
    requires model { IsModel m.now }
    requires extended { IsExtended m.now.ext }
    requires fit { IsFit m.now.ext.table }
    requires options { AreOptions m.now.options }
    requires short { All IsShort m.now.ext.blocks }
    requires some { 0 < nodes }
    requires start { IfSome start (λ s. IsSolution m.now s) }

    // The solution, its cost, and that of the start.
    ensures solution { IfOk result (OnCode (λ s cost bound t. IsSolution m.now s × (cost ≡ cost_of m.now s))) }
    ensures no_dearer { IfOk result (OnCode (λ s cost bound t. IfSome start (λ x. cost ≤ cost_of m.now x))) }
    ensures tight { 3 ≤ nodes → IfOk result (OnCode (λ s cost bound t. HasNoMerge m.now s)) }
    ensures few { nodes < 3 → IfOk result (OnCode (λ s cost bound t. IsByRounds m.now start s)) }

    // The tree, and the bound that it shows.
    ensures tree { IfOk result (OnCode (λ s cost bound t. IsEnded m.now (Some cost) nodes t)) }
    ensures bound { IfOk result (OnCode (λ s cost bound t. IsBound m.now cost (visits_in m.now t) bound)) }
    ensures least { IfOk result (OnCode (λ s cost bound t. (x : Solution) → IsSolution m.now x → bound ≤ cost_of m.now x)) }
    ensures equal { IfOk result (OnCode (λ s cost bound t. All (λ n. n ≢ Open) t → bound ≡ cost)) }

    // No code.
    ensures started { IfOk result (OnOther (start ≡ None)) }
    ensures infeasible { IfOk result (OnInfeasible (λ t. IsEnded m.now None nodes t × All (λ n. n ≢ Open) t)) }
    ensures none { IfOk result (OnInfeasible (λ t. (x : Solution) → IsSolution m.now x → ⊥)) }
    ensures spent { IfOk result (OnSpent (λ t. IsEnded m.now None nodes t × Contains t Open)) }

    // With as many nodes the search comes to its end.
    ensures enough { AreEnough m.now nodes → IfOk result HasNoOpenLeaf }
{
    match incumbent(alloc, m, start, nodes)? {
        None => {
            let answer = from_none(alloc, m, nodes)?;
            Ok(answer)
        }
        Some(best) => {
            let answer = from_best(alloc, m, best, nodes)?;
            Ok(answer)
        }
    }
}
