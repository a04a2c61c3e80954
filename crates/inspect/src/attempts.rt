//! A search for a function's model, attempt by attempt, with the time of each.

ghost use Rattle.std.specs.Prelude.{◌<◌, IfOk};
ghost use Rattle.un_baseline.specs.RoomyOptions.{AreRoomyFor};
ghost use Rattle.un_model.specs.Solutions.{IsSolution};
ghost use Rattle.un_problem.specs.Problems.{IsProblemOf};

use crate::clock::{mean, now, put_time};
use crate::request::Counts;
use std::alloc::Global;
use std::time::CpuClock;
use un_base::memory_error::NoMemory;
use un_baseline::spill::spill_everywhere;
use un_first::first::first;
use un_ir::function::Function;
use un_merges::merges::without_merges;
use un_model::cost::cost;
use un_model::model::{Model, Solution};
use un_search::attempt::{Tried, attempt};
use un_shown::text::put_between;

/// How many nodes an attempt may have, where no number says it.
const NODES: u32 = 2_000;

/// How many attempts there are at most.
const ATTEMPTS: u32 = 1_000;

/// A solution by so many trials of blocks, or the one that keeps each name in a frame slot.
fn made(alloc: Global, f: &Function, m: &Model, trials: u32) -> Result<Solution, NoMemory>
    requires problem { IsProblemOf f.now m.now }
    requires roomy { AreRoomyFor f.now m.now.options }
    ensures { IfOk result (λ s. IsSolution m.now s) }
{
    let _ = f;
    match first(alloc, m, [].as_slice(), trials)? {
        Some(s) => Ok(s),
        None => {
            let s = spill_everywhere(alloc, m)?;
            Ok(s)
        }
    }
}

/// What the solution costs from which the attempts start.
fn start(alloc: Global, f: &Function, m: &Model, trials: u32) -> Result<u64, NoMemory>
    requires problem { IsProblemOf f.now m.now }
    requires roomy { AreRoomyFor f.now m.now.options }
{
    let s = made(alloc, f, m, trials)?;
    let s = without_merges(alloc, m, s)?;
    Ok(cost(m, &s))
}

/// Appends what an attempt came to; the cost of the solution that it found.
fn put_tried(
    out: &mut Vec<u8>,
    f: &Function,
    m: &Model,
    tried: &Tried,
) -> Result<Option<u64>, NoMemory>
    requires { IsProblemOf f.now m.now }
{
    let _ = f;
    match tried {
        Tried::Found(s) => {
            let cost = cost(m, s);
            put_between(out, b"found ", cost, b"\n")?;
            Ok(Some(cost))
        }
        Tried::Refuted(tree) => {
            put_between(out, b"closed by ", tree.nodes.len() as u64, b" nodes\n")?;
            Ok(None)
        }
        Tried::Cut { tree, least } => {
            put_between(out, b"open after ", tree.nodes.len() as u64, b" nodes")?;
            put_between(out, b", least ", *least, b"\n")?;
            Ok(None)
        }
    }
}

/// Appends what an attempt under a limit comes to and its time; the cost of the solution that it found.
fn put_attempt(
    rt: &impl CpuClock,
    alloc: Global,
    out: &mut Vec<u8>,
    f: &Function,
    m: &Model,
    limit: u64,
    nodes: u32,
) -> Result<Option<u64>, NoMemory>
    requires problem { IsProblemOf f.now m.now }
    requires some { 0 < nodes }
{
    let start = now(rt);
    let tried = attempt(alloc, m, Some(limit), nodes)?;
    let time = mean(rt, start, 1);
    let found = put_tried(out, f, m, &tried)?;
    put_time(alloc, out, "attempt", time)?;
    Ok(found)
}

/// Appends what attempts come to, each under the cost of the solution before, until one finds none, with their times.
pub(crate) fn put_attempts(
    rt: &impl CpuClock,
    alloc: Global,
    out: &mut Vec<u8>,
    counts: Counts,
    f: &Function,
    m: &Model,
) -> Result<(), NoMemory>
    requires problem { IsProblemOf f.now m.now }
    requires roomy { AreRoomyFor f.now m.now.options }
{
    let nodes = counts.first.unwrap_or(NODES).max(1);
    let mut limit = start(alloc, f, m, counts.second)?;
    put_between(out, b"start ", limit, b"\n")?;
    for _ in 0..ATTEMPTS {
        match put_attempt(rt, alloc, out, f, m, limit, nodes)? {
            None => return Ok(()),
            Some(cost) => limit = cost,
        }
    }
    Ok(())
}
