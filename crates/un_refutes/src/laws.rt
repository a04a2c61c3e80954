//! What the answers of the check of a tree with mirrors say, as a contract of a function that does nothing.

ghost use Rattle.std.specs.Prelude.{◌≡◌};
ghost use Rattle.un_refutes.specs.SymVerdicts.{IsSymVerdict};
ghost use Rattle.un_refutes.specs.declared.verdict.SymVerdict.{SymVerdict};

use un_model::model::Model;
use un_symtree::node::SymTree;

/// There is one answer to a list of nodes.
pub fn one_sym_verdict(m: &Model, limit: u64, t: &SymTree)
    ensures { (u v : SymVerdict) → IsSymVerdict m.now limit t.now.nodes.items u → IsSymVerdict m.now limit t.now.nodes.items v → u ≡ v }
{
    let _ = m;
    let _ = limit;
    let _ = t;
}
