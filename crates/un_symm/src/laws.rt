//! What is known of two interchangeable registers exchanged in a solution.

ghost use Rattle.std.specs.Prelude.{◌≡◌};
ghost use Rattle.un_model.specs.Cost.{cost_of};
ghost use Rattle.un_model.specs.Solutions.{IsSolution};
ghost use Rattle.un_model.specs.Variables.{IsModel};
ghost use Rattle.un_symm.specs.Exchanges.{exchange_of};
ghost use Rattle.un_symm.specs.Interchangeable.{AreInterchangeable};

use un_isa::reg::Reg;
use un_model::model::{Model, Solution};

/// A solution in which two interchangeable registers are exchanged is a solution of equal cost. It does nothing.
pub fn exchanges(m: &Model, s: &Solution, a: Reg, b: Reg)
    requires model { IsModel m.now }
    requires solution { IsSolution m.now s.now }
    requires alike { AreInterchangeable m.now a.0 b.0 }
    ensures solution { IsSolution m.now (exchange_of m.now a.0 b.0 s.now) }
    ensures cost { cost_of m.now (exchange_of m.now a.0 b.0 s.now) ≡ cost_of m.now s.now }
{
    let _ = m;
    let _ = s;
    let _ = a;
    let _ = b;
}
