//! Solutions near one: another schedule of a block is looked for that is one cycle shorter, of what the block issues as it is, or in a
//! window of its cycles, where all else of the block stays where the rounds let it. What is found was judged, so nothing else is promised
//! of it.

ghost use Rattle.std.specs.Prelude.{◌≡◌, ◌≤◌, ◌⊎◌, [], IfOk, IfSome, OnOk};
ghost use Rattle.un_domains.specs.Sets.{NoneEmpty};
ghost use Rattle.un_model.specs.Solutions.{IsSolution};
ghost use Rattle.un_model.specs.Variables.{IsModel};
ghost use Rattle.un_post.specs.Postable.{IsPostable};
ghost use Rattle.un_search.specs.Roots.{IsIncumbent, IsRoot};
ghost use Rattle.un_search.specs.Solved.{IsBest};

use crate::best::{Best, best_of};
use crate::dive::Dive;
use crate::order::BlockOrder;
use crate::root::{Incumbent, Posting, Root, lowered};
use crate::rounds::ModelStores;
use crate::settle::{Search, settle};
use crate::window::{BlockOf, CycleRange, Hint, Part};
use std::alloc::{AllocError, Global};
use un_base::ids::VarId;
use un_base::memory_error::NoMemory;
use un_domains::side::Side;
use un_first::first::judged;
use un_model::model::{Model, Solution};

/// The ways in which a schedule is looked for: of what a block issues as it is, and in windows of so many cycles.
const WAYS: [Option<u32>; 3] = [None, Some(4), Some(8)];

/// Gives a variable a value, where the rounds let it.
fn follow(dive: &mut Dive, hint: Hint) -> Result<(), NoMemory>
    ensures { OnOk result (dive.new ≡ dive.old) }
{
    let Hint { var, val } = hint;
    if !dive.is_open(var) || !dive.has(var, val) {
        return Ok(());
    }
    if dive.greatest(var) > val && !dive.decide(var, val, Side::AtMost)? {
        return Ok(());
    }
    let below = val.saturating_sub(1);
    if dive.has(var, val) && dive.least(var) < val {
        dive.decide(var, below, Side::Above)?;
    }
    Ok(())
}

/// The values of a solution, where the dive has left one alone that one.
fn values_with(alloc: Global, solution: &Solution, dive: &Dive) -> Result<Vec<u32>, AllocError> {
    let mut values = Vec::new(alloc);
    for x in solution.values.as_slice() {
        let v = VarId(u32::try_from(values.len()).unwrap_or(u32::MAX));
        if dive.size(v) == 1 {
            values.push(dive.least(v))?;
        } else {
            values.push(*x)?;
        }
    }
    Ok(values)
}

/// Looks for a schedule of a block that is one cycle shorter. The dive stays where it comes to.
fn shortened(
    alloc: Global,
    dive: &mut Dive,
    search: Search<'_>,
) -> Result<Option<Vec<u32>>, NoMemory>
    ensures { OnOk result (dive.new ≡ dive.old) }
{
    let site = search.site;
    let shorter = site.value(search.block.end).saturating_sub(1);
    if !dive.decide(search.block.end, shorter, Side::AtMost)? {
        return Ok(None);
    }
    let hints = site.hints(alloc, search.part)?;
    for hint in &hints {
        follow(dive, *hint)?;
    }
    if settle(alloc, dive, search)? {
        let values = values_with(alloc, site.solution, dive)?;
        Ok(Some(values))
    } else {
        Ok(None)
    }
}

/// Looks for a solution with a schedule of a block that is one cycle shorter.
fn in_part(
    alloc: Global,
    m: &Model,
    dive: &mut Dive,
    search: Search<'_>,
) -> Result<Option<Solution>, NoMemory>
    requires model { IsModel m.now }
    ensures found { IfOk result (λ found. IfSome found (λ s. IsSolution m.now s)) }
    ensures same { OnOk result (dive.new ≡ dive.old) }
{
    let found = shortened(alloc, dive, search)?;
    dive.rise();
    match found {
        None => Ok(None),
        Some(values) => judged(alloc, m, values),
    }
}

/// Looks for a shorter schedule of a block in the windows of one width.
fn in_windows(
    alloc: Global,
    m: &Model,
    dive: &mut Dive,
    site: BlockOf<'_>,
    block: &BlockOrder,
    width: u32,
) -> Result<Option<Solution>, NoMemory>
    requires model { IsModel m.now }
    ensures found { IfOk result (λ found. IfSome found (λ s. IsSolution m.now s)) }
    ensures same { OnOk result (dive.new ≡ dive.old) }
{
    let step = (width / 2).max(1);
    for k in 0..site.value(block.end).div_ceil(step) {
        let low = k.saturating_mul(step).saturating_add(1);
        let part = Part::In(CycleRange {
            low,
            high: low.saturating_add(width).saturating_sub(1),
        });
        let found = in_part(alloc, m, dive, Search { site, block, part })?;
        if found.is_some() {
            return Ok(found);
        }
    }
    Ok(None)
}

/// Looks for a shorter schedule of a block in the windows of one width, or, where there is no width, of what it issues as it is.
fn in_block(
    alloc: Global,
    m: &Model,
    dive: &mut Dive,
    site: BlockOf<'_>,
    block: &BlockOrder,
    width: Option<u32>,
) -> Result<Option<Solution>, NoMemory>
    requires model { IsModel m.now }
    ensures found { IfOk result (λ found. IfSome found (λ s. IsSolution m.now s)) }
    ensures same { OnOk result (dive.new ≡ dive.old) }
{
    match width {
        Some(width) => in_windows(alloc, m, dive, site, block, width),
        None => {
            let part = Part::Cycles;
            in_part(alloc, m, dive, Search { site, block, part })
        }
    }
}

/// Looks for a shorter schedule of one of the blocks, in one of these ways.
fn in_blocks(
    alloc: Global,
    m: &Model,
    solution: &Solution,
    dive: &mut Dive,
    order: &[BlockOrder],
    width: Option<u32>,
) -> Result<Option<Solution>, NoMemory>
    requires model { IsModel m.now }
    ensures found { IfOk result (λ found. IfSome found (λ s. IsSolution m.now s)) }
    ensures same { OnOk result (dive.new ≡ dive.old) }
{
    for block in order {
        if let Some(vars) = m.blocks.as_slice().get(block.place) {
            let site = BlockOf {
                m,
                solution,
                block: vars,
                first: block.first,
            };
            let found = in_block(alloc, m, dive, site, block, width)?;
            if found.is_some() {
                return Ok(found);
            }
        }
    }
    Ok(None)
}

/// Looks for a shorter schedule of one of the blocks: of what they issue as it is, and then in small windows first.
fn in_ways(
    alloc: Global,
    m: &Model,
    solution: &Solution,
    dive: &mut Dive,
    order: &[BlockOrder],
) -> Result<Option<Solution>, NoMemory>
    requires model { IsModel m.now }
    ensures found { IfOk result (λ found. IfSome found (λ s. IsSolution m.now s)) }
    ensures same { OnOk result (dive.new ≡ dive.old) }
{
    for width in WAYS {
        let found = in_blocks(alloc, m, solution, dive, order, width)?;
        if found.is_some() {
            return Ok(found);
        }
    }
    Ok(None)
}

/// A solution near one, where one was found, how many decisions are left, and the stores, which are where they were.
#[derive(Drop)]
struct Found {
    solution: Option<Solution>,
    left: u32,
    stores: ModelStores,
}

/// Looks once for a solution near one that costs less.
fn near(
    alloc: Global,
    m: &Model,
    solution: &Solution,
    stores: ModelStores,
    left: u32,
) -> Result<Found, NoMemory>
    requires model { IsModel m.now }
    requires live { NoneEmpty stores.engine.store.sets }
    requires fresh { stores.engine.store.marked ≡ [] }
    ensures found { IfOk result (λ found. IfSome found.solution (λ s. IsSolution m.now s)) }
    ensures same { IfOk result (λ found. found.stores ≡ stores) }
{
    let ModelStores {
        engine,
        cuts,
        scratch,
        order,
    } = stores;
    let mut dive = Dive::new(engine, left);
    let solution = in_ways(alloc, m, solution, &mut dive, order.as_slice())?;
    let left = dive.left();
    let engine = dive.into_engine();
    Ok(Found {
        solution,
        left,
        stores: ModelStores {
            engine,
            cuts,
            scratch,
            order,
        },
    })
}

/// The one that costs less, the first one on a tie.
fn cheaper(one: Best, other: Best) -> Best
    ensures either { (result ≡ one) ⊎ (result ≡ other) }
    ensures no_dearer { result.cost ≤ one.cost }
{
    if other.cost < one.cost { other } else { one }
}

/// The one that costs less, the first one on a tie, with what is posted under its cost.
fn next(
    alloc: Global,
    m: &Model,
    one: Best,
    other: Best,
    root: Root,
    nodes: u32,
) -> Result<Incumbent, NoMemory>
    requires one { IsBest m.now nodes one }
    requires other { IsBest m.now nodes other }
    requires root { IsRoot m.now root }
    requires under { root.limit ≡ one.cost }
    ensures incumbent { IfOk result (IsIncumbent m.now nodes) }
    ensures no_dearer { IfOk result (λ i. i.best.cost ≤ one.cost) }
{
    let _ = nodes;
    let best = cheaper(one, other);
    let posting = lowered(alloc, m, Some(root), best.cost)?;
    Ok(Incumbent { best, posting })
}

/// The best solution after a look near it, how many decisions are left, and whether to look again.
#[derive(Drop)]
struct Seen {
    now: Incumbent,
    left: u32,
    goes_on: bool,
}

/// Looks once near the best solution.
fn look(
    alloc: Global,
    m: &Model,
    incumbent: Incumbent,
    nodes: u32,
    left: u32,
) -> Result<Seen, NoMemory>
    requires postable { IsPostable m.now }
    requires incumbent { IsIncumbent m.now nodes incumbent }
    ensures incumbent { IfOk result (λ seen. IsIncumbent m.now nodes seen.now) }
    ensures no_dearer { IfOk result (λ seen. seen.now.best.cost ≤ incumbent.best.cost) }
{
    let Incumbent { best, posting } = incumbent;
    match posting {
        Posting::Begun(Some(root)) => look_from(alloc, m, best, root, nodes, left),
        posting => Ok(Seen {
            now: Incumbent { best, posting },
            left,
            goes_on: false,
        }),
    }
}

/// Looks once near the best solution, from the root under its cost.
fn look_from(
    alloc: Global,
    m: &Model,
    best: Best,
    root: Root,
    nodes: u32,
    left: u32,
) -> Result<Seen, NoMemory>
    requires postable { IsPostable m.now }
    requires best { IsBest m.now nodes best }
    requires root { IsRoot m.now root }
    requires under { root.limit ≡ best.cost }
    ensures incumbent { IfOk result (λ seen. IsIncumbent m.now nodes seen.now) }
    ensures no_dearer { IfOk result (λ seen. seen.now.best.cost ≤ best.cost) }
{
    let Root {
        stores,
        limit,
        limit_at,
    } = root;
    let Found {
        solution,
        left,
        stores,
    } = near(alloc, m, &best.solution, stores, left)?;
    let root = Root {
        stores,
        limit,
        limit_at,
    };
    match solution {
        None => Ok(Seen {
            now: Incumbent {
                best,
                posting: Posting::Begun(Some(root)),
            },
            left,
            goes_on: false,
        }),
        Some(solution) => {
            let other = best_of(alloc, m, solution, nodes)?;
            let now = next(alloc, m, best, other, root, nodes)?;
            Ok(Seen {
                now,
                left,
                goes_on: true,
            })
        }
    }
}

/// The best solution that is found near one by at most `decisions` decisions of an engine: it costs no more.
///
/// # Errors
/// `NoMemory` where there is no memory for the rounds.
pub(crate) fn best_near(
    alloc: Global,
    m: &Model,
    first: Incumbent,
    nodes: u32,
    decisions: u32,
) -> Result<Incumbent, NoMemory>
    requires postable { IsPostable m.now }
    requires first { IsIncumbent m.now nodes first }
    ensures incumbent { IfOk result (IsIncumbent m.now nodes) }
    ensures no_dearer { IfOk result (λ i. i.best.cost ≤ first.best.cost) }
{
    let mut now = first;
    let mut left = decisions;
    for _ in 0..decisions {
        let seen = look(alloc, m, now, nodes, left)?;
        now = seen.now;
        left = seen.left;
        if !seen.goes_on {
            return Ok(now);
        }
    }
    Ok(now)
}
