//! What the values that are counted to cross a call have among them.

ghost use Rattle.std.specs.Prelude.{ℕ, List, false, Contains, slice_get};
ghost use Rattle.un_base.specs.declared.ids.TempId.{TempId};
ghost use Rattle.un_model.specs.Variables.{IsModel};
ghost use Rattle.un_sites.specs.Crossings.{crossing};
ghost use Rattle.un_sites.specs.Places.{Place};
ghost use Rattle.un_sites.specs.Rooms.{arcs_or};
ghost use Rattle.un_sites.specs.Sure.{SurelyCrosses};

use un_model::model::Model;

/// Of a block of a model each value that crosses a call wherever the two stand, as chains of its arcs say, is one of those that are
/// counted to cross it.
pub fn counts_what_crosses(m: &Model)
    requires { IsModel m.now }
    ensures { (b : ℕ) (ps : List Place) (call : Place) (x : TempId) → let arcs = arcs_or (slice_get m.now.arcs b) in
        SurelyCrosses arcs ps call x → Contains (crossing false arcs ps call) x }
{
    let _ = m;
}
