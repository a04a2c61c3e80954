//! A guess that brings the packets of a solution closer, taken where it is a solution.

ghost use Rattle.std.specs.Prelude.{◌≤◌, IsTrue, IfOk, OnOk};
ghost use Rattle.un_model.specs.Cost.{cost_of, value_of};
ghost use Rattle.un_model.specs.Solutions.{IsSolution};
ghost use Rattle.un_model.specs.Variables.{IsModel};
ghost use Rattle.std.specs.List.{All};

use crate::packing::packed;
use std::alloc::Global;
use un_base::ids::BlockId;
use un_base::memory_error::NoMemory;
use un_base::numbers::number;
use un_lists::items::Items;
use un_model::cost::value;
use un_model::model::{BlockVars, Model, Solution};
use un_model::placement::schedule;
use un_model::schedule::Schedule;
use un_violations::solution::is_solution;

/// Whether no block ends later than before.
fn end_no_later(blocks: &[BlockVars], new: &[u32], old: &[u32]) -> bool
    ensures { IsTrue result → All (λ vars. value_of new.now vars.end ≤ value_of old.now vars.end) blocks.now }
{
    for vars in blocks {
        if value(new, vars.end) > value(old, vars.end) {
            return false;
        }
    }
    true
}

/// Takes a guess where it is another solution, in which no block ends later.
#[tactic(auto, using(crate::proofs::Lowering::cost_no_more))]
fn take_guess(alloc: Global, m: &Model, guess: Solution, s: &mut Solution) -> Result<(), NoMemory>
    requires model { IsModel m.now }
    requires solution { IsSolution m.now s.old }
    ensures solution { OnOk result (IsSolution m.now s.new) }
    ensures no_dearer { OnOk result (cost_of m.now s.new ≤ cost_of m.now s.old) }
{
    let (new, old) = (guess.values.as_slice(), s.values.as_slice());
    if new == old {
        return Ok(());
    }
    if end_no_later(m.blocks.as_slice(), new, old) && is_solution(alloc, m, &guess)? {
        *s = guess;
    }
    Ok(())
}

/// A solution that costs no more, whose packets were listed again in their order, block by block.
pub(crate) fn repacked(alloc: Global, m: &Model, s: Solution) -> Result<Solution, NoMemory>
    requires model { IsModel m.now }
    requires solution { IsSolution m.now s }
    ensures solution { IfOk result (λ new. IsSolution m.now new) }
    ensures no_dearer { IfOk result (λ new. cost_of m.now new ≤ cost_of m.now s) }
{
    let t = schedule(alloc, m, &s)?;
    let mut best = s;
    repack(alloc, m, &t, &mut best)?;
    Ok(best)
}

/// Lists the packets of each block again, where that gives a solution.
fn repack(alloc: Global, m: &Model, t: &Schedule, s: &mut Solution) -> Result<(), NoMemory>
    requires model { IsModel m.now }
    requires solution { IsSolution m.now s.old }
    ensures solution { OnOk result (IsSolution m.now s.new) }
    ensures no_dearer { OnOk result (cost_of m.now s.new ≤ cost_of m.now s.old) }
{
    for k in 0..m.blocks.len() {
        let b = number(k)?;
        let values = packed(alloc, m, t, BlockId(b), s.values.as_slice())?;
        let guess = Solution {
            values: Items::from_vec(values),
        };
        take_guess(alloc, m, guess, s)?;
    }
    Ok(())
}
