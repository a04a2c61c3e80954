//! Whole runs.

ghost use Rattle.std.specs.Prelude.{◌≡◌, ℕ, IfOk, List, length};
ghost use Rattle.un_base.specs.declared.ids.NameId.{NameId};
ghost use Rattle.un_ir.specs.declared.function.Block.{Block};
ghost use Rattle.un_ir.specs.LinearOf.{AreLive};
ghost use Rattle.un_source.specs.States.{stop_of, left_stop, StopsInside};
ghost use Rattle.un_source.specs.Outcomes.{named_values, end_by, IsSourceOutcome};

use crate::blocks::{Left, run_blocks};
use crate::state::{Stop, first_state, value_in};
use std::alloc::Global;
use un_base::ids::NameId;
use un_base::memory_error::NoMemory;
use un_ir::extended::LiveSets;
use un_ir::function::{Block, Function};
use un_isa::outcome::{End, Outcome};
use un_isa::start::Start;
use un_lists::items::Items;
use un_live::live::live_in;

/// Names with their values.
fn named_values(
    alloc: Global,
    values: &[u32],
    names: &[NameId],
) -> Result<Items<(NameId, u32)>, NoMemory>
    ensures { IfOk result (λ pairs. pairs ≡ named_values values.now names.now) }
{
    let mut pairs = Items::new(alloc);
    for name in names {
        pairs.push((*name, value_in(values, *name)))?;
    }
    Ok(pairs)
}

/// How a run ends that stops so within a block.
fn stopped(stop: Stop) -> End
    ensures { (blocks : List Block) (lists : List (List NameId)) (values : List ℕ) → result ≡ end_by blocks lists values (stop_of stop) }
{
    match stop {
        Stop::Returned(result) => End::Returned {
            result,
            target: None,
        },
        Stop::Trapped => End::Trapped,
        Stop::Waiting(call) => End::Waiting(call),
    }
}

/// How a run ends that would enter a further block or has stopped in one, with these values.
fn end_of(
    alloc: Global,
    blocks: &[Block],
    live: &LiveSets,
    values: &[u32],
    left: Left,
) -> Result<End, NoMemory>
    requires lists { length live.now.at_start ≡ length blocks.now }
    requires inside { StopsInside (length blocks.now) left }
    ensures { IfOk result (λ end. end ≡ end_by blocks.now live.now.at_start values.now (left_stop left)) }
{
    match left {
        Left::Ended(stop) => Ok(stopped(stop)),
        Left::To(b) => {
            let values = named_values(alloc, values, live.at_start.get(b).as_slice())?;
            Ok(End::Running {
                label: blocks[b].label,
                values,
            })
        }
    }
}

/// What a function, with the names live at its blocks' starts, comes to from a start where at most `n` blocks are entered.
fn run_with(
    alloc: Global,
    f: &Function,
    live: &LiveSets,
    start: &Start,
    n: u32,
) -> Result<Outcome, NoMemory>
    requires { AreLive f.now.blocks live.now.at_start }
    ensures { IfOk result (IsSourceOutcome f.now start.now n) }
{
    let mut s = first_state(alloc, f, start)?;
    let blocks = f.blocks.as_slice();
    let left = run_blocks(alloc, blocks, start.replies.as_slice(), n, &mut s)?;
    let end = end_of(alloc, blocks, live, s.values.as_slice(), left)?;
    Ok(Outcome {
        end,
        memory: s.memory,
        calls: s.calls,
        cycles: None,
    })
}

/// What a function comes to from a start where at most `n` blocks are entered, the entry being the first: it returns, an
/// access traps, a call waits for a reply, or a further block would be entered, with the values of the names live at its
/// start.
///
/// # Errors
/// `NoMemory` where there is no memory for the run.
pub fn run_source(alloc: Global, f: &Function, start: &Start, n: u32) -> Result<Outcome, NoMemory>
    ensures { IfOk result (IsSourceOutcome f.now start.now n) }
{
    let live = live_in(alloc, f)?;
    run_with(alloc, f, &live, start, n)
}
