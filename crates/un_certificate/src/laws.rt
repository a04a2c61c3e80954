//! The laws of certificates, as contracts of functions that do nothing.

ghost use Rattle.std.specs.Prelude.{◌≡◌, ℕ, ◌≤◌, List, Some};
ghost use Rattle.un_domains.specs.Sets.{Sets};
ghost use Rattle.un_ir.specs.Extended.{IsExtended};
ghost use Rattle.un_isa.specs.Fit.{IsFit};
ghost use Rattle.un_model.specs.Cost.{cost_of};
ghost use Rattle.un_model.specs.Options.{AreOptions};
ghost use Rattle.un_model.specs.Solutions.{IsSolution};
ghost use Rattle.un_model.specs.Variables.{IsModel};
ghost use Rattle.un_model.specs.declared.model.Solution.{Solution};
ghost use Rattle.un_tree.specs.Covered.{InOpen};
ghost use Rattle.un_certificate.specs.Certificates.{IsStanding};
ghost use Rattle.un_model.specs.Boxes.{IsBelow};
ghost use Rattle.un_certificate.specs.Joints.{visits_in};
ghost use Rattle.un_certificate.specs.Bounds.{IsBound};

use un_model::model::Model;
use un_tree::node::Tree;

/// Each solution below the limit is in the box of an open leaf; so there is none where no leaf is open.
pub fn solutions_are_open(m: &Model, limit: Option<u64>, tree: &Tree)
    requires model { IsModel m.now }
    requires extended { IsExtended m.now.ext }
    requires fit { IsFit m.now.ext.table }
    requires options { AreOptions m.now.options }
    requires standing { IsStanding m.now limit tree.now.nodes.items }
    ensures { (x : List ℕ) → IsBelow m.now limit x → InOpen x (visits_in m.now tree.now.nodes.items) }
{
    let _ = m;
    let _ = limit;
    let _ = tree;
}

/// Each solution costs at least the tree's bound.
pub fn bound_holds(m: &Model, limit: u64, tree: &Tree)
    requires model { IsModel m.now }
    requires extended { IsExtended m.now.ext }
    requires fit { IsFit m.now.ext.table }
    requires options { AreOptions m.now.options }
    requires standing { IsStanding m.now (Some limit) tree.now.nodes.items }
    ensures { (n : ℕ) → IsBound m.now limit (visits_in m.now tree.now.nodes.items) n
        → (x : Solution) → IsSolution m.now x → n ≤ cost_of m.now x }
{
    let _ = m;
    let _ = limit;
    let _ = tree;
}
