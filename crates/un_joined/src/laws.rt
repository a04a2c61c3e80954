//! When the parts of the blocks of a model make a solution, as the contract of a function that does nothing.

ghost use Rattle.std.specs.Prelude.{◌↔◌};
ghost use Rattle.un_isa.specs.Fit.{IsFit};
ghost use Rattle.un_ir.specs.Extended.{IsExtended};
ghost use Rattle.un_model.specs.Options.{AreOptions};
ghost use Rattle.un_model.specs.Solutions.{IsSolution};
ghost use Rattle.un_model.specs.Variables.{IsModel};
ghost use Rattle.un_joined.specs.Joined.{AreJoined};

use un_model::model::{Model, Solution};

/// The solutions are the values that are of the part of each block, where some block uses the frame if the flag is set.
pub fn joined(m: &Model, s: &Solution)
    requires model { IsModel m.now }
    requires extended { IsExtended m.now.ext }
    requires fit { IsFit m.now.ext.table }
    requires options { AreOptions m.now.options }
    ensures { IsSolution m.now s.now ↔ AreJoined m.now s.now }
{
    let _ = m;
    let _ = s;
}
