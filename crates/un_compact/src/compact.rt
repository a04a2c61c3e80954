//! A schedule of any length brought to the length of a solution.

ghost use Rattle.std.specs.Prelude.{◌≡◌, ◌≤◌, ◌==◌, ◌||◌, ℕ, Bool, true, List, IfOk, OnOk, All};
ghost use Rattle.std.specs.List.Sorted.{IsPermutation, IsNonDecreasing};
ghost use Rattle.un_isa.specs.Fit.{IsFit};
ghost use Rattle.un_ir.specs.Extended.{IsExtended};
ghost use Rattle.un_model.specs.Cost.{value_of, cost_of};
ghost use Rattle.un_model.specs.Schedules.{value_by};
ghost use Rattle.un_model.specs.Solutions.{IsSolution};
ghost use Rattle.un_model.specs.Variables.{IsModel};
ghost use Rattle.un_violations.specs.Loose.{is_cycle, is_time_in, IsLoose};
ghost use Rattle.un_compact.specs.Squeezes.{times_of, is_in, is_used, squeezed};
ghost use Rattle.un_compact.specs.Compacted.{IsCompacted};
ghost use Rattle.un_compact.specs.Retimed.{AreMoved, compacted};

use crate::laws::compacts;
use crate::squeeze::{rising_times, squeezed};
use std::alloc::Global;
use un_base::ids::VarId;
use un_base::memory_error::NoMemory;
use un_lists::items::Items;
use un_model::cost::value;
use un_model::model::{BlockVars, Model, OpVars, Solution};

/// Moves a cycle or an end of a block, in which these cycles are in use.
fn move_time(new: &mut Items<u32>, old: &[u32], v: VarId, times: &[u32])
    requires rising { IsNonDecreasing times.now }
    requires start { is_in times.now 0 ≡ true }
    requires inside { is_in times.now (value_of old.now v) ≡ true }
    ensures { (p : ℕ → Bool) (before : List ℕ) → AreMoved p (squeezed (is_in times.now)) old.now before new.old
        → AreMoved (λ k. p k || k == v.0) (squeezed (is_in times.now)) old.now before new.new }
{
    let k = v.0 as usize;
    if k < new.len() {
        new.set(k, squeezed(times, value(old, v)));
    }
}

/// Moves the cycles of operations of a block, in which these cycles are in use.
fn move_cycles(new: &mut Items<u32>, old: &[u32], ops: &[OpVars], times: &[u32])
    requires rising { IsNonDecreasing times.now }
    requires start { is_in times.now 0 ≡ true }
    requires inside { All (λ o. is_in times.now (value_by old.now o.cycle) ≡ true) ops.now }
    ensures { (p : ℕ → Bool) (before : List ℕ) → AreMoved p (squeezed (is_in times.now)) old.now before new.old
        → AreMoved (λ k. p k || is_cycle ops.now k) (squeezed (is_in times.now)) old.now before new.new }
{
    for op in ops {
        match op.cycle {
            Some(v) => move_time(new, old, v, times),
            None => {}
        }
    }
}

/// Moves the cycles and the end of a block.
fn move_block(
    alloc: Global,
    new: &mut Items<u32>,
    old: &[u32],
    vars: &BlockVars,
) -> Result<(), NoMemory>
    ensures { OnOk result (AreMoved (is_time_in vars.now) (squeezed (is_used old.now vars.now)) old.now new.old new.new) }
{
    let times = rising_times(alloc, old, vars)?;
    move_cycles(new, old, vars.ops.as_slice(), times.as_slice());
    move_time(new, old, vars.end, times.as_slice());
    Ok(())
}

/// The same values once more.
fn copied(alloc: Global, values: &[u32]) -> Result<Items<u32>, NoMemory>
    ensures { IfOk result (λ same. same ≡ values.now) }
{
    let same = values.to_vec(alloc)?;
    Ok(Items::from_vec(same))
}

/// The values with the cycles and the end of each block moved.
fn compacted(alloc: Global, m: &Model, s: &Solution) -> Result<Solution, NoMemory>
    ensures { IfOk result (λ new. new ≡ compacted m.now s.now) }
{
    let old = s.values.as_slice();
    let mut new = copied(alloc, old)?;
    for vars in m.blocks.as_slice() {
        move_block(alloc, &mut new, old, vars)?;
    }
    Ok(Solution { values: new })
}

/// A solution that costs no more than a schedule of any length: in each block the distance of each two neighbouring cycles in
/// use, 0 and the end among them, becomes the lesser of itself and 2, and all else stays.
///
/// # Errors
/// `NoMemory` where there is no memory for the values and for the cycles of a block.
pub fn compact(alloc: Global, m: &Model, s: &Solution) -> Result<Solution, NoMemory>
    requires model { IsModel m.now }
    requires extended { IsExtended m.now.ext }
    requires fit { IsFit m.now.ext.table }
    requires loose { IsLoose m.now s.now }
    ensures compacted { IfOk result (λ new. IsCompacted m.now s.now new) }
    ensures solution { IfOk result (λ new. IsSolution m.now new) }
    ensures no_dearer { IfOk result (λ new. cost_of m.now new ≤ cost_of m.now s.now) }
{
    compacts(m, s);
    let new = compacted(alloc, m, s)?;
    Ok(new)
}
