//! What sound reports and the check of a report say, as contracts of functions that do nothing.

ghost use Rattle.std.specs.Prelude.{◌≡◌, Result, Ok};
ghost use Rattle.un_isa.specs.Versions.{table_of};
ghost use Rattle.un_outside.specs.declared.status.NoCause.{NoCause};
ghost use Rattle.un_problem.specs.Problems.{IsProblemOf};
ghost use Rattle.un_certificate.specs.Certificates.{IsCertificate};
ghost use Rattle.un_check.specs.Causes.{HasCause, IsTold, claim_of, limit_of};
ghost use Rattle.un_check.specs.Laws.{BoundsAll, HasCodeFor, IsAccepting};
ghost use Rattle.un_check.specs.Sound.{IsSoundFor};
ghost use Rattle.un_check.specs.Verdicts.{IsVerdict};
ghost use Rattle.un_check.specs.declared.verdict.TreeVerdict.{TreeVerdict};

use un_ir::function::Function;
use un_model::model::Model;
use un_report::report::Report;
use un_tree::node::Tree;

/// No solution costs less than the bound of a sound report with code, and none is there where a sound report says so.
pub fn sound_bound(f: &Function, m: &Model, r: &Report)
    requires problem { IsProblemOf f.now m.now }
    requires sound { IsSoundFor m.now f.now r.now }
    ensures { BoundsAll m.now r.now.answer }
{
    let _ = f;
    let _ = m;
    let _ = r;
}

/// The code of a sound report does what the function does, and its packets, as often as they run, are its cost.
pub fn sound_code(f: &Function, m: &Model, r: &Report)
    requires problem { IsProblemOf f.now m.now }
    requires sound { IsSoundFor m.now f.now r.now }
    ensures { HasCodeFor f.now m.now r.now.answer }
{
    let _ = f;
    let _ = m;
    let _ = r;
}

/// The check accepts the tree of a search under the limit that the search had.
pub fn accepts_certificate(m: &Model, limit: Option<u64>, tree: &Tree)
    requires { IsCertificate m.now limit tree.now.nodes.items }
    ensures { (v : TreeVerdict) → IsVerdict m.now limit tree.now.nodes.items v → IsAccepting v }
{
    let _ = m;
    let _ = limit;
    let _ = tree;
}

/// There is one answer to a report: that all is right, or the first cause that stands.
pub fn one_answer(f: &Function, r: &Report)
    ensures { (a b : Result (Unit {0}) NoCause) → IsTold (table_of r.now.version) f.now r.now.options (claim_of r.now) a
        → IsTold (table_of r.now.version) f.now r.now.options (claim_of r.now) b → a ≡ b }
{
    let _ = f;
    let _ = r;
}

/// The check accepts the report of a search on a model for the table of the report's version: it is sound, and its tree is that of a search
/// under its answer's limit.
pub fn accepts_search(f: &Function, m: &Model, r: &Report)
    requires problem { IsProblemOf f.now m.now }
    requires tabled { table_of r.now.version ≡ m.now.ext.table }
    requires chosen { r.now.options ≡ m.now.options }
    requires sound { IsSoundFor m.now f.now r.now }
    requires searched { IsCertificate m.now (limit_of r.now.answer) r.now.tree.nodes.items }
    ensures none { (c : NoCause) → HasCause (table_of r.now.version) f.now r.now.options (claim_of r.now) c → ⊥ }
    ensures accepted { (told : Result (Unit {0}) NoCause) → IsTold (table_of r.now.version) f.now r.now.options (claim_of r.now) told
        → told ≡ Ok tt }
{
    let _ = f;
    let _ = m;
    let _ = r;
}
