//! What a solution is to the blocks of its model, as contracts of functions that do nothing.

ghost use Rattle.un_isa.specs.Fit.{IsFit};
ghost use Rattle.un_ir.specs.Extended.{IsExtended};
ghost use Rattle.un_model.specs.Options.{AreOptions};
ghost use Rattle.un_model.specs.Solutions.{IsSolution};
ghost use Rattle.un_model.specs.Variables.{IsModel};
ghost use Rattle.un_post.specs.PartPosts.{IsInParts};

use un_model::model::{Model, Solution};

/// A solution is of the part of each block, and costs the sum of what it costs there.
pub fn solution_in_parts(m: &Model, s: &Solution)
    requires model { IsModel m.now }
    requires extended { IsExtended m.now.ext }
    requires fit { IsFit m.now.ext.table }
    requires options { AreOptions m.now.options }
    requires solution { IsSolution m.now s.now }
    ensures { IsInParts m.now s.now }
{
    let _ = m;
    let _ = s;
}
