//! The solution from which a search starts.

ghost use Rattle.std.specs.Prelude.{◌≡◌, ◌<◌, ◌≤◌, ◌-◌, ◌^◌, IfOk, IfSome, IsSomeAnd};
ghost use Rattle.std.specs.Option.{option_map};
ghost use Rattle.un_ir.specs.Extended.{IsExtended};
ghost use Rattle.un_isa.specs.Fit.{IsFit};
ghost use Rattle.un_domains.specs.Sets.{NoneEmpty};
ghost use Rattle.un_model.specs.Cost.{cost_of};
ghost use Rattle.un_model.specs.Options.{AreOptions};
ghost use Rattle.un_model.specs.Solutions.{IsSolution};
ghost use Rattle.un_model.specs.Variables.{IsModel};
ghost use Rattle.un_post.specs.Postable.{IsPostable};
ghost use Rattle.un_search.specs.Roots.{IsIncumbent, IsRoot};
ghost use Rattle.un_search.specs.declared.root.Incumbent.{Incumbent};

use crate::best::{BRANCH_NODES, best_of, price};
use crate::lifts::lift_of;
use crate::near::best_near;
use crate::order::note_ends;
use crate::root::{Incumbent, Posting, Root, first_root, lowered};
use std::alloc::{AllocError, Global};
use un_base::ids::VarId;
use un_base::memory_error::NoMemory;
use un_domains::store::Store;
use un_engine::engine::Engine;
use un_first::first::first;
use un_kinds::any::AnyProp;
use un_model::model::{BlockVars, Model, Solution};

/// How often a function's block may be tried for the first solution, where there are few nodes.
pub const TRIALS: u32 = 1_000;

/// How often it may be tried for each node, where that is more.
const TRIALS_OF_NODE: u32 = 8;

/// Each further block adds this part of them: one in so many.
const FURTHER_BLOCKS: u32 = 4;

/// How often blocks may be tried at most.
const MOST_TRIALS: u32 = 64_000;

/// How many operations may be tried at most, were each trial one of the largest block: the more it has, the longer a trial takes.
const MOST_OPERATIONS_TRIED: usize = 20_000_000;

/// From so many nodes on better solutions are looked for near the first one.
const NEAR_NODES: u32 = 100;

/// For so many nodes there is one decision near the first solution, which costs more time than a node.
const NODES_OF_DECISION: u32 = 4;

/// The number of operations of the largest block, copies with them.
fn largest_block(blocks: &[BlockVars]) -> usize {
    let mut largest = 0;
    for block in blocks {
        largest = block.ops.len().max(largest);
    }
    largest
}

/// How often blocks may be tried at most, where the largest has so many operations.
fn most_trials(operations: usize) -> u32 {
    let most = MOST_OPERATIONS_TRIED / operations.max(1);
    u32::try_from(most)
        .unwrap_or(MOST_TRIALS)
        .min(MOST_TRIALS)
        .max(TRIALS)
}

/// How often these blocks may be tried for the first solution, by a search with so many nodes.
fn trials(nodes: u32, blocks: &[BlockVars]) -> u32 {
    let first = nodes.saturating_mul(TRIALS_OF_NODE).max(TRIALS);
    let share = first / FURTHER_BLOCKS;
    let others = u32::try_from(blocks.len().saturating_sub(1)).unwrap_or(u32::MAX);
    let further = share.saturating_mul(others);
    first
        .saturating_add(further)
        .min(most_trials(largest_block(blocks)))
}

/// The least end that a store leaves, or the least of all where it has no such variable.
fn end_left(store: &Store, end: VarId) -> u32
    requires { NoneEmpty store.now.sets }
{
    if end.0 < store.len() {
        store.min(end)
    } else {
        1
    }
}

/// The least end of a block below which the rounds fail at once.
fn least_end(engine: &mut Engine<AnyProp>, end: VarId) -> Result<u32, NoMemory>
    requires live { NoneEmpty engine.old.store.sets }
    ensures same { IfOk result (λ least. engine.new ≡ engine.old) }
{
    match lift_of(engine, end, 0)? {
        None => Ok(end_left(engine.store(), end)),
        Some(lift) => Ok(lift.val.saturating_add(1)),
    }
}

/// Adds an end.
fn add_end(ends: &mut Vec<u32>, least: u32) -> Result<(), AllocError> {
    ends.push(least)?;
    Ok(())
}

/// The least end of each block below which the rounds fail at once.
fn ends_in(
    alloc: Global,
    engine: &mut Engine<AnyProp>,
    blocks: &[BlockVars],
) -> Result<Vec<u32>, NoMemory>
    requires live { NoneEmpty engine.old.store.sets }
    ensures same { IfOk result (λ ends. engine.new ≡ engine.old) }
{
    let mut ends = Vec::new(alloc);
    for vars in blocks {
        let least = least_end(engine, vars.end)?;
        add_end(&mut ends, least)?;
    }
    Ok(ends)
}

/// The least end of each block below which the rounds fail at once, where they do not fail on the first box. Nothing is promised of them:
/// a first solution that is made with others costs more or less, and is one.
///
/// # Errors
/// `NoMemory` where there is no memory for the rounds.
pub fn least_ends(alloc: Global, m: &Model) -> Result<Option<Vec<u32>>, NoMemory>
    requires model { IsModel m.now }
    requires extended { IsExtended m.now.ext }
    requires fit { IsFit m.now.ext.table }
    requires options { AreOptions m.now.options }
{
    match first_root(alloc, m, u64::MAX)? {
        None => Ok(None),
        Some(mut root) => {
            let ends = ends_in(alloc, &mut root.stores.engine, m.blocks.as_slice())?;
            Ok(Some(ends))
        }
    }
}

/// A solution, where there is one, the least ends of the blocks, and what no solution costs less than, as they say.
#[derive(Drop)]
struct Outlook {
    solution: Option<Solution>,
    ends: Vec<u32>,
    least: u64,
}

/// What blocks with these ends cost.
fn cost_of_ends(m: &Model, ends: &[u32]) -> u64 {
    let mut sum = 0u64;
    for (block, end) in m.ext.blocks.as_slice().iter().zip(ends) {
        let packets = u64::from(end.saturating_sub(1));
        sum = sum.saturating_add(packets.saturating_mul(u64::from(block.freq)));
    }
    sum
}

/// A solution that was made without a search of boxes, where one was found.
fn made(
    alloc: Global,
    m: &Model,
    engine: &mut Engine<AnyProp>,
    nodes: u32,
) -> Result<Outlook, NoMemory>
    requires postable { IsPostable m.now }
    requires live { NoneEmpty engine.old.store.sets }
    ensures solution { IfOk result (λ made. IfSome made.solution (λ s. IsSolution m.now s)) }
    ensures same { IfOk result (λ made. engine.new ≡ engine.old) }
{
    let ends = ends_in(alloc, engine, m.blocks.as_slice())?;
    let trials = trials(nodes, m.blocks.as_slice());
    let solution = first(alloc, m, ends.as_slice(), trials)?;
    let least = cost_of_ends(m, ends.as_slice());
    Ok(Outlook {
        solution,
        ends,
        least,
    })
}

/// The solution that costs less, the first one on a tie.
fn cheaper_solution(m: &Model, one: Solution, other: Solution) -> Solution
    requires postable { IsPostable m.now }
    requires one { IsSolution m.now one }
    requires other { IsSolution m.now other }
    ensures solution { IsSolution m.now result }
    ensures no_dearer { cost_of m.now result ≤ cost_of m.now one }
    ensures cheapest { cost_of m.now result ≤ cost_of m.now other }
    ensures ties { cost_of m.now one ≤ cost_of m.now other → result ≡ one }
{
    if price(m, &other) < price(m, &one) {
        other
    } else {
        one
    }
}

/// The solution that costs less of those that there are.
fn cheapest(m: &Model, start: Option<Solution>, other: Option<Solution>) -> Option<Solution>
    requires postable { IsPostable m.now }
    requires start { IfSome start (λ s. IsSolution m.now s) }
    requires other { IfSome other (λ s. IsSolution m.now s) }
    ensures solution { IfSome result (λ s. IsSolution m.now s) }
    ensures no_dearer { IfSome start (λ x. IsSomeAnd result (λ s. cost_of m.now s ≤ cost_of m.now x)) }
{
    match start {
        None => other,
        Some(one) => match other {
            None => Some(one),
            Some(other) => Some(cheaper_solution(m, one, other)),
        },
    }
}

/// The start, or a solution that was made where it costs less.
fn candidate(
    alloc: Global,
    m: &Model,
    engine: &mut Engine<AnyProp>,
    start: Option<Solution>,
    nodes: u32,
) -> Result<Outlook, NoMemory>
    requires postable { IsPostable m.now }
    requires live { NoneEmpty engine.old.store.sets }
    requires start { IfSome start (λ s. IsSolution m.now s) }
    ensures solution { IfOk result (λ found. IfSome found.solution (λ s. IsSolution m.now s)) }
    ensures no_dearer { IfOk result (λ found. IfSome start (λ x. IsSomeAnd found.solution (λ s. cost_of m.now s ≤ cost_of m.now x))) }
    ensures same { IfOk result (λ found. engine.new ≡ engine.old) }
{
    let made = made(alloc, m, engine, nodes)?;
    Ok(Outlook {
        solution: cheapest(m, start, made.solution),
        ends: made.ends,
        least: made.least,
    })
}

/// Whether each block has no more operations, copies with them, than there are decisions: no search of a larger one comes to its end.
fn is_in_reach(m: &Model, decisions: u32) -> bool {
    m.blocks
        .as_slice()
        .iter()
        .all(|block| block.ops.len() <= decisions as usize)
}

/// The best solution that is found near one, where there are nodes for it and it costs more than the least.
fn near_start(
    alloc: Global,
    m: &Model,
    first: Incumbent,
    least: u64,
    nodes: u32,
) -> Result<Incumbent, NoMemory>
    requires postable { IsPostable m.now }
    requires first { IsIncumbent m.now nodes first }
    ensures incumbent { IfOk result (IsIncumbent m.now nodes) }
    ensures no_dearer { IfOk result (λ i. i.best.cost ≤ first.best.cost) }
{
    let decisions = nodes / NODES_OF_DECISION;
    if nodes < NEAR_NODES || first.best.cost <= least || !is_in_reach(m, decisions) {
        return Ok(first);
    }
    best_near(alloc, m, first, nodes, decisions)
}

/// A solution as the best one, with nothing posted.
pub(crate) fn unposted(
    alloc: Global,
    m: &Model,
    solution: Solution,
    nodes: u32,
) -> Result<Incumbent, NoMemory>
    requires postable { IsPostable m.now }
    requires solution { IsSolution m.now solution }
    ensures incumbent { IfOk result (IsIncumbent m.now nodes) }
    ensures no_dearer { IfOk result (λ i. i.best.cost ≤ cost_of m.now solution) }
    ensures few { nodes < 3 → IfOk result (λ i. i.best.solution ≡ solution) }
{
    let best = best_of(alloc, m, solution, nodes)?;
    Ok(Incumbent {
        best,
        posting: Posting::Nothing,
    })
}

/// The start, where there is one.
fn started(
    alloc: Global,
    m: &Model,
    start: Option<Solution>,
    nodes: u32,
) -> Result<Option<Incumbent>, NoMemory>
    requires postable { IsPostable m.now }
    requires start { IfSome start (λ s. IsSolution m.now s) }
    ensures incumbent { IfOk result (λ found. IfSome found (IsIncumbent m.now nodes)) }
    ensures no_dearer { IfOk result (λ found. IfSome start (λ x. IsSomeAnd found (λ i. i.best.cost ≤ cost_of m.now x))) }
    ensures few { nodes < 3 → IfOk result (λ found. option_map (λ (i : Incumbent). i.best.solution) found ≡ start) }
{
    match start {
        None => Ok(None),
        Some(solution) => {
            let incumbent = unposted(alloc, m, solution, nodes)?;
            Ok(Some(incumbent))
        }
    }
}

/// The best solution before the first attempt, with what is posted under its cost, from a root on.
fn from_solution(
    alloc: Global,
    m: &Model,
    root: Root,
    outlook: Outlook,
    nodes: u32,
) -> Result<Option<Incumbent>, NoMemory>
    requires postable { IsPostable m.now }
    requires root { IsRoot m.now root }
    requires top { root.limit ≡ 2 ^ 64 - 1 }
    requires solution { IfSome outlook.solution (λ s. IsSolution m.now s) }
    ensures incumbent { IfOk result (λ found. IfSome found (IsIncumbent m.now nodes)) }
    ensures no_dearer { IfOk result (λ found. IfSome outlook.solution (λ x. IsSomeAnd found (λ i. i.best.cost ≤ cost_of m.now x))) }
{
    let Outlook {
        solution,
        ends: _,
        least,
    } = outlook;
    match solution {
        None => Ok(None),
        Some(solution) => {
            let best = best_of(alloc, m, solution, nodes)?;
            let posting = lowered(alloc, m, Some(root), best.cost)?;
            let near = near_start(alloc, m, Incumbent { best, posting }, least, nodes)?;
            Ok(Some(near))
        }
    }
}

/// The best solution before the first attempt, where there is one, from a root on.
fn from_root(
    alloc: Global,
    m: &Model,
    root: Root,
    start: Option<Solution>,
    nodes: u32,
) -> Result<Option<Incumbent>, NoMemory>
    requires postable { IsPostable m.now }
    requires root { IsRoot m.now root }
    requires top { root.limit ≡ 2 ^ 64 - 1 }
    requires start { IfSome start (λ s. IsSolution m.now s) }
    ensures incumbent { IfOk result (λ found. IfSome found (IsIncumbent m.now nodes)) }
    ensures no_dearer { IfOk result (λ found. IfSome start (λ x. IsSomeAnd found (λ i. i.best.cost ≤ cost_of m.now x))) }
{
    let mut root = root;
    let outlook = candidate(alloc, m, &mut root.stores.engine, start, nodes)?;
    note_ends(root.stores.order.as_mut_slice(), outlook.ends.as_slice());
    let found = from_solution(alloc, m, root, outlook, nodes)?;
    Ok(found)
}

/// The best solution before the first attempt, where there is one, with what is posted under its cost. With fewer nodes than a branch
/// takes it is the start.
pub(crate) fn incumbent(
    alloc: Global,
    m: &Model,
    start: Option<Solution>,
    nodes: u32,
) -> Result<Option<Incumbent>, NoMemory>
    requires postable { IsPostable m.now }
    requires start { IfSome start (λ s. IsSolution m.now s) }
    ensures incumbent { IfOk result (λ found. IfSome found (IsIncumbent m.now nodes)) }
    ensures no_dearer { IfOk result (λ found. IfSome start (λ x. IsSomeAnd found (λ i. i.best.cost ≤ cost_of m.now x))) }
    ensures few { nodes < 3 → IfOk result (λ found. option_map (λ (i : Incumbent). i.best.solution) found ≡ start) }
{
    if nodes < BRANCH_NODES {
        return started(alloc, m, start, nodes);
    }
    match first_root(alloc, m, u64::MAX)? {
        None => started(alloc, m, start, nodes),
        Some(root) => from_root(alloc, m, root, start, nodes),
    }
}
