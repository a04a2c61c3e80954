//! What compacting shows of all schedules of a model, however long.

ghost use Rattle.std.specs.Prelude.{◌≤◌};
ghost use Rattle.un_isa.specs.Fit.{IsFit};
ghost use Rattle.un_ir.specs.Extended.{IsExtended};
ghost use Rattle.un_model.specs.declared.model.Solution.{Solution};
ghost use Rattle.un_model.specs.Cost.{cost_of};
ghost use Rattle.un_model.specs.Solutions.{IsSolution};
ghost use Rattle.un_model.specs.Variables.{IsModel};
ghost use Rattle.un_violations.specs.Loose.{IsLoose};
ghost use Rattle.un_compact.specs.Compacted.{IsCompacted};
ghost use Rattle.un_compact.specs.Retimed.{compacted};

use un_model::model::{Model, Solution};

/// A schedule of any length, compacted, is a solution that costs no more. It does nothing.
pub(crate) fn compacts(m: &Model, s: &Solution)
    requires model { IsModel m.now }
    requires extended { IsExtended m.now.ext }
    requires fit { IsFit m.now.ext.table }
    requires loose { IsLoose m.now s.now }
    ensures compacted { IsCompacted m.now s.now (compacted m.now s.now) }
    ensures solution { IsSolution m.now (compacted m.now s.now) }
    ensures no_dearer { cost_of m.now (compacted m.now s.now) ≤ cost_of m.now s.now }
{
    let _ = m;
    let _ = s;
}

/// What no solution costs less than, no schedule of any length does. It does nothing.
pub fn none_cheaper(m: &Model, n: u64)
    requires model { IsModel m.now }
    requires extended { IsExtended m.now.ext }
    requires fit { IsFit m.now.ext.table }
    ensures { ((s : Solution) → IsSolution m.now s → n ≤ cost_of m.now s) → (x : Solution) → IsLoose m.now x → n ≤ cost_of m.now x }
{
    let _ = m;
    let _ = n;
}
