//! One block after another.

ghost use Rattle.std.specs.Prelude.{◌≡◌, ℕ, ◌<◌, ◌≤◌, ◌^◌, List, Some, None, IfOk, All, length, slice_get};
ghost use Rattle.un_isa.specs.declared.start.Reply.{Reply};
ghost use Rattle.un_ir.specs.declared.function.Block.{Block};
ghost use Rattle.un_ir.specs.Live.{targets_of};
ghost use Rattle.un_ir.specs.Source.{SourceState, SourceRun, leave, through, enter};
ghost use Rattle.un_source.specs.States.{state_of, left_stop, CanRun, led, LeadsTo, StopsInside, CanRunBlocks};

use crate::ops::run_ops;
use crate::state::{State, Stop, value_in};
use std::alloc::Global;
use un_base::memory_error::NoMemory;
use un_ir::function::{Block, Term};
use un_isa::start::Reply;

/// Where a block leads: to another block, or to the end of the run.
#[derive(Drop)]
pub enum Left {
    To(usize),
    Ended(Stop),
}

/// Where the terminator of block `b` leads.
fn leave(b: usize, term: &Term, values: &[u32]) -> Left
    requires { b < 2 ^ 32 }
    ensures inside { LeadsTo (targets_of b term.now) result }
    ensures led { (s : SourceState) (go : ℕ → SourceState → SourceRun) → values.now ≡ s.values → leave b term.now s go ≡ led result s go }
{
    match term {
        Term::Fall => Left::To(b + 1),
        Term::Jump(to) => Left::To(to.0 as usize),
        Term::Branch { pred, sense, to } => {
            if (value_in(values, *pred) != 0) == *sense {
                Left::To(to.0 as usize)
            } else {
                Left::To(b + 1)
            }
        }
        Term::Ret(None) => Left::Ended(Stop::Returned(None)),
        Term::Ret(Some(name)) => Left::Ended(Stop::Returned(Some(value_in(values, *name)))),
    }
}

/// Runs a block, which is block `b`.
fn pass(
    alloc: Global,
    b: usize,
    block: &Block,
    replies: &[Reply],
    s: &mut State,
) -> Result<Left, NoMemory>
    requires place { b < 2 ^ 32 }
    requires ops { All CanRun block.now.ops }
    ensures inside { IfOk result (LeadsTo (targets_of b block.now.term)) }
    ensures led { IfOk result (λ left. (go : ℕ → SourceState → SourceRun) →
        through (Some block.now) b (state_of replies.now s.old) go ≡ led left (state_of replies.now s.new) go) }
{
    match run_ops(alloc, block.ops.as_slice(), replies, s)? {
        Some(stop) => Ok(Left::Ended(stop)),
        None => Ok(leave(b, &block.term, s.values.as_slice())),
    }
}

/// Runs from the entry, where at most `n` blocks are entered, and answers the block that would be entered next, or how
/// the run stopped.
pub(crate) fn run_blocks(
    alloc: Global,
    blocks: &[Block],
    replies: &[Reply],
    n: u32,
    s: &mut State,
) -> Result<Left, NoMemory>
    requires { CanRunBlocks blocks.now }
    ensures inside { IfOk result (StopsInside (length blocks.now)) }
    ensures run { IfOk result (λ left. enter blocks.now n 0 (state_of replies.now s.old)
        ≡ record { stop = left_stop left; state = state_of replies.now s.new }) }
{
    let mut b = 0;
    for i in 0..n {
        match pass(alloc, b, &blocks[b], replies, s)? {
            Left::To(next) => b = next,
            Left::Ended(stop) => return Ok(Left::Ended(stop)),
        }
    }
    Ok(Left::To(b))
}
