//! Merges of the packets of a solution, taken while there are any.

ghost use Rattle.std.specs.Prelude.{◌≡◌, ◌-◌, ◌<◌, ◌≤◌, true, false, IfOk, OnOk, sum, length, slice_set};
ghost use Rattle.un_merges.specs.Merges.{is_cycle, lowered, merged, HasNoMergeIn, HasNoMerge};
ghost use Rattle.un_merges.specs.Lowered.{AreLowered};
ghost use Rattle.un_model.specs.Cost.{value_of, cost_of};
ghost use Rattle.un_model.specs.Pairs.{places_from};
ghost use Rattle.un_model.specs.Solutions.{IsSolution};
ghost use Rattle.un_model.specs.Variables.{IsModel};

use crate::guess::repacked;
use std::alloc::Global;
use un_base::ids::VarId;
use un_base::memory_error::NoMemory;
use un_lists::items::Items;
use un_model::cost::value;
use un_model::model::{BlockVars, Model, OpVars, Solution};
use un_violations::solution::is_solution;

/// Makes a variable one less than it was, where that is greater than `t`.
#[tactic(auto, using(crate::proofs::Lowering::inside))]
fn lower(new: &mut [u32], old: &[u32], v: VarId, t: u32)
    requires { length new.old ≡ length old.now }
    ensures lower { t < value_of old.now v → new.new ≡ slice_set new.old v.0 (value_of old.now v - 1) }
    ensures same { value_of old.now v ≤ t → new.new ≡ new.old }
{
    let x = value(old, v);
    if x > t {
        new[v.0 as usize] = x - 1;
    }
}

/// Makes each cycle of these operations one less than it was, where that is greater than `t`.
fn lower_cycles(new: &mut [u32], old: &[u32], ops: &[OpVars], t: u32)
    requires { new.old ≡ old.now }
    ensures { AreLowered ops.now t old.now new.new }
{
    for op in ops {
        match op.cycle {
            Some(v) => lower(new, old, v, t),
            None => {}
        }
    }
}

/// Makes each cycle of the block one less than it was, where that is greater than `t`.
fn lower_block(new: &mut [u32], old: &[u32], vars: &BlockVars, t: u32)
    requires { new.old ≡ old.now }
    ensures { new.new ≡ places_from (lowered (is_cycle vars.now) t) 0 old.now }
{
    lower_cycles(new, old, vars.ops.as_slice(), t);
    lower(new, old, vars.end, t);
}

/// A solution with each cycle of the block that is greater than `t` lowered by one.
#[tactic(auto, unfolding(crate::specs::Merges::merged))]
fn merged(alloc: Global, vars: &BlockVars, t: u32, s: &Solution) -> Result<Solution, NoMemory>
    ensures { IfOk result (λ new. new ≡ merged vars.now t s.now) }
{
    let old = s.values.as_slice();
    let mut new = old.to_vec(alloc)?;
    lower_block(new.as_mut_slice(), old, vars, t);
    Ok(Solution {
        values: Items::from_vec(new),
    })
}

/// Takes the merge of the block's packets `t` and `t` + 1 where that is a solution. Whether it is.
fn take_merge(
    alloc: Global,
    m: &Model,
    vars: &BlockVars,
    t: u32,
    s: &mut Solution,
) -> Result<bool, NoMemory>
    requires model { IsModel m.now }
    requires solution { IsSolution m.now s.old }
    ensures solution { OnOk result (IsSolution m.now s.new) }
    ensures taken { IfOk result (λ found. found ≡ true → s.new ≡ merged vars.now t s.old) }
    ensures same { IfOk result (λ found. found ≡ false → s.new ≡ s.old) }
    ensures none { IfOk result (λ found. found ≡ false → ¬ IsSolution m.now (merged vars.now t s.old)) }
{
    let new = merged(alloc, vars, t, s)?;
    let found = is_solution(alloc, m, &new)?;
    if found {
        *s = new;
    }
    Ok(found)
}

/// Takes merges of a block while there are any. Whether there was one.
#[tactic(auto, using(crate::proofs::Passes::tried_start, crate::proofs::Passes::tried_end))]
fn merge_block(
    alloc: Global,
    m: &Model,
    vars: &BlockVars,
    s: &mut Solution,
) -> Result<bool, NoMemory>
    requires model { IsModel m.now }
    requires solution { IsSolution m.now s.old }
    ensures solution { OnOk result (IsSolution m.now s.new) }
    ensures no_dearer { OnOk result (cost_of m.now s.new ≤ cost_of m.now s.old) }
    ensures falls { IfOk result (λ found. found ≡ true → sum s.new.values < sum s.old.values) }
    ensures same { IfOk result (λ found. found ≡ false → s.new ≡ s.old) }
    ensures none { IfOk result (λ found. found ≡ false → HasNoMergeIn m.now s.old vars.now) }
{
    let mut found = false;
    let mut t = 1;
    while t < value(s.values.as_slice(), vars.end) {
        if take_merge(alloc, m, vars, t, s)? {
            found = true;
        } else {
            t += 1;
        }
    }
    Ok(found)
}

/// Takes merges of each block while there are any. Whether there was one.
#[tactic(auto, using(crate::proofs::Passes::passed_start, crate::proofs::Passes::passed_found, crate::proofs::Passes::passed_none))]
fn merge_blocks(alloc: Global, m: &Model, s: &mut Solution) -> Result<bool, NoMemory>
    requires model { IsModel m.now }
    requires solution { IsSolution m.now s.old }
    ensures solution { OnOk result (IsSolution m.now s.new) }
    ensures no_dearer { OnOk result (cost_of m.now s.new ≤ cost_of m.now s.old) }
    ensures falls { IfOk result (λ found. found ≡ true → sum s.new.values < sum s.old.values) }
    ensures tight { IfOk result (λ found. found ≡ false → HasNoMerge m.now s.new) }
{
    let mut found = false;
    for vars in m.blocks.as_slice() {
        if merge_block(alloc, m, vars, s)? {
            found = true;
        }
    }
    Ok(found)
}

/// A solution without merges that costs no more than this one: its packets are listed again, and then each two neighbours that
/// can be one packet are made one.
///
/// # Errors
/// `NoMemory` where there is no memory for the solutions that are tried.
pub fn without_merges(alloc: Global, m: &Model, s: Solution) -> Result<Solution, NoMemory>
    requires model { IsModel m.now }
    requires solution { IsSolution m.now s }
    ensures solution { IfOk result (λ new. IsSolution m.now new) }
    ensures tight { IfOk result (λ new. HasNoMerge m.now new) }
    ensures no_dearer { IfOk result (λ new. cost_of m.now new ≤ cost_of m.now s) }
{
    let mut best = repacked(alloc, m, s)?;
    while merge_blocks(alloc, m, &mut best)? {}
    Ok(best)
}
