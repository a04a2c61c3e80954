//! A search of the variables of a block, depth first, that goes back a few times.

ghost use Rattle.std.specs.Prelude.{◌≡◌, OnOk};

use crate::dive::Dive;
use crate::order::BlockOrder;
use crate::window::{BlockOf, Part};
use std::alloc::{AllocError, Global};
use un_base::ids::VarId;
use un_base::memory_error::NoMemory;
use un_domains::side::Side;
use un_model::model::OpVars;

/// How often a search may go back.
const FAILURES: u32 = 30;

/// A decision of a search, which may still be turned to its other side where it is the left one.
#[derive(Clone, Copy)]
struct Turn {
    var: VarId,
    val: u32,
    is_left: bool,
}

/// What is looked for: a part of a block of a solution anew, with the order of the block's variables.
#[derive(Clone, Copy)]
pub(crate) struct Search<'a> {
    pub(crate) site: BlockOf<'a>,
    pub(crate) block: &'a BlockOrder,
    pub(crate) part: Part,
}

/// How a search stands: its variables have one value each, one more was decided, or there is none.
#[derive(Clone, Copy)]
enum Progress {
    Done,
    Going,
    Stuck,
}

fn push(path: &mut Vec<Turn>, turn: Turn) -> Result<(), AllocError> {
    path.push(turn)?;
    Ok(())
}

/// The variable of these with the fewest values, but more than one.
fn smallest_open(dive: &Dive, vars: &[VarId]) -> Option<VarId> {
    let mut smallest = None;
    let mut least = u32::MAX;
    for v in vars {
        if dive.is_open(*v) && dive.size(*v) < least {
            least = dive.size(*v);
            smallest = Some(*v);
        }
    }
    smallest
}

/// The first of these with more than one value.
fn first_open(dive: &Dive, vars: &[VarId]) -> Option<VarId> {
    for v in vars {
        if dive.is_open(*v) {
            return Some(*v);
        }
    }
    None
}

/// Whether a variable comes before another, where there is one: by its least value, and then by its greatest.
fn is_sooner(dive: &Dive, v: VarId, other: Option<VarId>) -> bool {
    let Some(other) = other else {
        return true;
    };
    let (low, least) = (dive.least(v), dive.least(other));
    low < least || (low == least && dive.greatest(v) < dive.greatest(other))
}

/// The cycle with more than one value that comes soonest: the least first, and then the one that may wait the least.
fn soonest_open(dive: &Dive, ops: &[OpVars]) -> Option<VarId> {
    let mut soonest = None;
    for op in ops {
        if let Some(v) = op.cycle {
            if dive.is_open(v) && is_sooner(dive, v, soonest) {
                soonest = Some(v);
            }
        }
    }
    soonest
}

/// The variable that is decided next.
fn next_open(dive: &Dive, search: Search<'_>) -> Option<VarId> {
    let BlockOrder { cycles, others, .. } = search.block;
    match search.part {
        Part::Cycles => match soonest_open(dive, search.site.block.ops.as_slice()) {
            Some(v) => Some(v),
            None => smallest_open(dive, others.as_slice()),
        },
        Part::In(_) => match smallest_open(dive, cycles.as_slice()) {
            Some(v) => Some(v),
            None => first_open(dive, others.as_slice()),
        },
    }
}

/// Turns the last decision that can be turned.
fn retreat(dive: &mut Dive, path: &mut Vec<Turn>) -> Result<Progress, NoMemory>
    ensures { OnOk result (dive.new ≡ dive.old) }
{
    for _ in 0..path.len() {
        let Some(turn) = path.pop() else {
            break;
        };
        dive.back();
        if turn.is_left && dive.decide(turn.var, turn.val, Side::Above)? {
            let other = Turn {
                is_left: false,
                var: turn.var,
                val: turn.val,
            };
            push(path, other)?;
            return Ok(Progress::Going);
        }
    }
    Ok(Progress::Stuck)
}

/// Decides one variable more, at its least value or above it.
fn advance(dive: &mut Dive, search: Search<'_>, path: &mut Vec<Turn>) -> Result<Progress, NoMemory>
    ensures { OnOk result (dive.new ≡ dive.old) }
{
    let Some(var) = next_open(dive, search) else {
        return Ok(Progress::Done);
    };
    let val = dive.least(var);
    if dive.decide(var, val, Side::AtMost)? {
        push(
            path,
            Turn {
                var,
                val,
                is_left: true,
            },
        )?;
        return Ok(Progress::Going);
    }
    if dive.decide(var, val, Side::Above)? {
        push(
            path,
            Turn {
                var,
                val,
                is_left: false,
            },
        )?;
        return Ok(Progress::Going);
    }
    Ok(Progress::Stuck)
}

/// Searches the variables of a block depth first. Whether each of them has one value then.
pub(crate) fn settle(alloc: Global, dive: &mut Dive, search: Search<'_>) -> Result<bool, NoMemory>
    ensures { OnOk result (dive.new ≡ dive.old) }
{
    let mut path = Vec::new(alloc);
    let mut failures = 0u32;
    for _ in 0..dive.left() {
        let mut progress = advance(dive, search, &mut path)?;
        if let Progress::Stuck = progress {
            failures = failures.saturating_add(1);
            if failures <= FAILURES {
                progress = retreat(dive, &mut path)?;
            }
        }
        match progress {
            Progress::Done => return Ok(true),
            Progress::Stuck => return Ok(false),
            Progress::Going => {}
        }
    }
    Ok(false)
}
