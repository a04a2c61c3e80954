//! The first solution of a function's model: what it costs beside the root's bound and the solution that keeps each name in a frame
//! slot, whether it was refused, and how long it takes.

ghost use Rattle.un_baseline.specs.RoomyOptions.{AreRoomyFor};
ghost use Rattle.un_problem.specs.Problems.{IsProblemOf};

use crate::clock::{mean, now, put_time};
use crate::request::Counts;
use std::alloc::Global;
use std::time::CpuClock;
use un_base::memory_error::NoMemory;
use un_baseline::spill::spill_everywhere;
use un_first::first::candidate;
use un_ir::function::Function;
use un_ir::text::put_text;
use un_lists::items::Items;
use un_model::cost::cost;
use un_model::model::{Model, Solution};
use un_search::solve::{Answer, solve};
use un_search::start::{TRIALS, least_ends};
use un_shown::text::put_between;
use un_violations::violations::violations;

/// Appends the cost of a solution with the values, or how many clauses they break.
fn put_judged(
    alloc: Global,
    out: &mut Vec<u8>,
    f: &Function,
    m: &Model,
    values: Vec<u32>,
) -> Result<(), NoMemory>
    requires { IsProblemOf f.now m.now }
{
    let _ = f;
    let s = Solution {
        values: Items::from_vec(values),
    };
    let broken = violations(alloc, m, &s)?;
    if broken.is_empty() {
        put_between(out, b"first ", cost(m, &s), b"\n")
    } else {
        put_between(out, b"refused ", broken.len() as u64, b"\n")
    }
}

/// Appends what the search for a first solution comes to, where a block's end is no less than these, and its time.
fn put_candidate(
    rt: &impl CpuClock,
    alloc: Global,
    out: &mut Vec<u8>,
    f: &Function,
    m: &Model,
    ends: &[u32],
    trials: u32,
) -> Result<(), NoMemory>
    requires { IsProblemOf f.now m.now }
{
    let start = now(rt);
    let found = candidate(alloc, m, ends, trials)?;
    let time = mean(rt, start, 1);
    match found {
        None => put_text(out, b"none\n")?,
        Some(values) => put_judged(alloc, out, f, m, values)?,
    }
    put_time(alloc, out, "time", time)
}

/// Whether there is a first solution whose values break a clause, where a block's end is no less than these.
fn is_refused(alloc: Global, f: &Function, m: &Model, ends: &[u32]) -> Result<bool, NoMemory>
    requires { IsProblemOf f.now m.now }
{
    let _ = f;
    match candidate(alloc, m, ends, TRIALS)? {
        None => Ok(false),
        Some(values) => {
            let values = Items::from_vec(values);
            let broken = violations(alloc, m, &Solution { values })?;
            Ok(!broken.is_empty())
        }
    }
}

/// Appends how many first solutions a search for a function refuses, which makes at most one.
pub(crate) fn put_refused(
    alloc: Global,
    out: &mut Vec<u8>,
    f: &Function,
    m: &Model,
) -> Result<(), NoMemory>
    requires { IsProblemOf f.now m.now }
{
    let refused = match least_ends(alloc, m)? {
        None => false,
        Some(ends) => is_refused(alloc, f, m, ends.as_slice())?,
    };
    put_between(out, b"refused ", u64::from(refused), b"\n")
}

/// Appends the bound of a search of one node.
fn put_bound(alloc: Global, out: &mut Vec<u8>, f: &Function, m: &Model) -> Result<(), NoMemory>
    requires problem { IsProblemOf f.now m.now }
    requires roomy { AreRoomyFor f.now m.now.options }
{
    let _ = f;
    let s = spill_everywhere(alloc, m)?;
    put_between(out, b"slots ", cost(m, &s), b"\n")?;
    match solve(alloc, m, Some(s), 1)? {
        Answer::Code { bound, .. } => put_between(out, b"bound ", bound, b"\n"),
        _ => Ok(()),
    }
}

/// Appends the first solution by so many trials of blocks: its cost, that of keeping each name in a frame slot, the root's bound, and
/// the time that it takes.
pub fn put_first(
    rt: &impl CpuClock,
    alloc: Global,
    out: &mut Vec<u8>,
    counts: Counts,
    f: &Function,
    m: &Model,
) -> Result<(), NoMemory>
    requires problem { IsProblemOf f.now m.now }
    requires roomy { AreRoomyFor f.now m.now.options }
{
    put_bound(alloc, out, f, m)?;
    let trials = counts.first.unwrap_or(TRIALS);
    match least_ends(alloc, m)? {
        None => put_text(out, b"none\n"),
        Some(ends) => put_candidate(rt, alloc, out, f, m, ends.as_slice(), trials),
    }
}
