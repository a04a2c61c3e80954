//! The tree of a search, shortened to a tree with mirrors that the check accepts.

ghost use Rattle.std.specs.Prelude.{◌≡◌, ◌≢◌, ◌≤◌, Some, All, IfOk, length};
ghost use Rattle.un_ir.specs.Extended.{IsExtended};
ghost use Rattle.un_isa.specs.Fit.{IsFit};
ghost use Rattle.un_mirrors.specs.Shortened.{IsShortOf, IsNoMore, sym_routes};
ghost use Rattle.un_model.specs.Options.{AreOptions};
ghost use Rattle.un_model.specs.Variables.{IsModel};
ghost use Rattle.un_tree.specs.declared.node.Node.TheVariants.{Open};
ghost use Rattle.un_symtree.specs.SymTexts.{SymFits};
ghost use Rattle.un_certificate.specs.Certificates.{IsCertificate};
ghost use Rattle.un_refutes.specs.SymVerdicts.{IsSymVerdict};
ghost use Rattle.un_refutes.specs.declared.verdict.SymVerdict.{SymVerdict};

use std::alloc::Global;
use un_base::memory_error::NoMemory;
use un_mirrors::shorten;
use un_model::model::Model;
use un_symtree::node::SymTree;
use un_tree::node::Tree;

/// The tree of a search that found no solution below the limit, shortened: each subtree is put as a mirror where one of a register and the
/// next one may stand there. The check accepts it under that limit.
///
/// # Errors
/// `NoMemory` where there is no memory for it.
pub fn shorten(alloc: Global, m: &Model, limit: u64, t: &Tree) -> Result<SymTree, NoMemory>
    requires model { IsModel m.now }
    requires extended { IsExtended m.now.ext }
    requires fit { IsFit m.now.ext.table }
    requires options { AreOptions m.now.options }
    requires certificate { IsCertificate m.now (Some limit) t.now.nodes.items }
    requires closed { All (λ n. n ≢ Open) t.now.nodes.items }
    ensures cuts { IfOk result (λ u. IsShortOf t.now.nodes.items u.nodes.items) }
    ensures yes { IfOk result (λ u. IsSymVerdict m.now limit u.nodes.items SymVerdict.Yes) }
    ensures few { IfOk result (λ u. length u.nodes.items ≤ length t.now.nodes.items) }
    ensures some { IfOk result (λ u. 1 ≤ length u.nodes.items) }
    ensures fits { IfOk result (λ u. All SymFits u.nodes.items) }
    ensures no_more { IfOk result (λ u. All (λ r. IsNoMore m.now r.node r.path) (sym_routes u.nodes.items)) }
{
    let _ = limit;
    shorten::shorten(alloc, m, t)
}
