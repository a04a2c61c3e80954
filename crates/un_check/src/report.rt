//! The check of a report.

ghost use Rattle.std.specs.Prelude.{◌≡◌, List, All, IfOk, OnOk};
ghost use Rattle.un_isa.specs.Fit.{IsFit};
ghost use Rattle.un_isa.specs.Versions.{IsVersion, table_of};
ghost use Rattle.un_model.specs.Options.{AreOptions};
ghost use Rattle.un_problem.specs.Problems.{IsProblemOf};
ghost use Rattle.un_report.specs.Views.{IsViewOf};
ghost use Rattle.un_report.specs.declared.report.Report.{Report};
ghost use Rattle.un_tree.specs.Texts.{Fits, tree_text};
ghost use Rattle.un_tree.specs.declared.node.Node.{Node};
ghost use Rattle.un_check.specs.Causes.{AreLines, IsTold, IsToldBy, claim_of, claim_with};
ghost use Rattle.un_check.specs.Sound.{IsSound, IsSoundFor};

use crate::answer::judge_head;
use crate::leaves::{judge_tree, limit_of};
use crate::tree::{see_lines, see_tree};
use std::alloc::Global;
use un_base::memory_error::NoMemory;
use un_ir::function::Function;
use un_isa::table::{Table, table_of};
use un_model::model::Model;
use un_outside::status::NoCause;
use un_problem::problem::model;
use un_report::report::Report;
use un_report::view::ReportView;

/// The check of a report on a function whose model this is.
fn check_by(
    alloc: Global,
    f: &Function,
    m: &Model,
    r: &Report,
) -> Result<Result<(), NoCause>, NoMemory>
    requires problem { IsProblemOf f.now m.now }
    ensures told { IfOk result (IsToldBy f.now.name m.now (claim_of r.now)) }
    ensures sound { IfOk result (λ told. OnOk told (IsSoundFor m.now f.now r.now)) }
{
    let head = judge_head(alloc, f, m, r.name.as_bytes(), &r.answer)?;
    match head {
        Err(cause) => Ok(Err(cause)),
        Ok(()) => {
            let seen = see_tree(alloc, m, limit_of(&r.answer), r.tree.nodes.as_slice())?;
            Ok(judge_tree(f, m, r.nodes, &r.answer, seen))
        }
    }
}

/// The check of a report on a function, by the table of the report's version: that all is right, or why the report is not accepted. A
/// report that is accepted is sound: its code does what the function does, and no solution costs less than its bound.
///
/// # Errors
/// Where memory is short, or there are more nodes, variables or operations than numbers below 2^32.
pub fn check_report(
    alloc: Global,
    f: &Function,
    r: &Report,
) -> Result<Result<(), NoCause>, NoMemory>
    requires version { IsVersion r.now.version }
    requires options { AreOptions r.now.options }
    ensures told { IfOk result (IsTold (table_of r.now.version) f.now r.now.options (claim_of r.now)) }
    ensures sound { IfOk result (λ told. OnOk told (IsSound (table_of r.now.version) f.now r.now)) }
{
    let m = model(alloc, f, &table_of(r.version), &r.options)?;
    check_by(alloc, f, &m, r)
}

/// The check of a view of a report on a function whose model this is.
fn check_view_by(
    alloc: Global,
    f: &Function,
    m: &Model,
    v: &ReportView<'_>,
) -> Result<Result<(), NoCause>, NoMemory>
    requires problem { IsProblemOf f.now m.now }
    requires lines { AreLines v.now.count v.now.tree.now }
    ensures told { (nodes : List Node) → All Fits nodes → v.now.tree.now ≡ tree_text nodes
        → IfOk result (IsToldBy f.now.name m.now (claim_with v.now nodes)) }
    ensures sound { (r : Report) → IsViewOf r v.now → All Fits r.tree.nodes.items → IfOk result (λ told. OnOk told (IsSoundFor m.now f.now r)) }
{
    let head = judge_head(alloc, f, m, v.name, &v.answer)?;
    match head {
        Err(cause) => Ok(Err(cause)),
        Ok(()) => {
            let seen = see_lines(alloc, m, limit_of(&v.answer), v.tree)?;
            Ok(judge_tree(f, m, v.nodes, &v.answer, seen))
        }
    }
}

/// The check of a view of a report on a function by a table of the processor, whatever the report's version: what is said of its code and of
/// its bound is by this table. It goes through the lines of the tree once, and through those of parts twice.
///
/// # Errors
/// Where memory is short, or there are more nodes, variables or operations than numbers below 2^32.
pub fn check_table(
    alloc: Global,
    f: &Function,
    v: &ReportView<'_>,
    t: &Table,
) -> Result<Result<(), NoCause>, NoMemory>
    requires fit { IsFit t.now }
    requires options { AreOptions v.now.options }
    requires lines { AreLines v.now.count v.now.tree.now }
    ensures told { (nodes : List Node) → All Fits nodes → v.now.tree.now ≡ tree_text nodes
        → IfOk result (IsTold t.now f.now v.now.options (claim_with v.now nodes)) }
    ensures sound { (r : Report) → IsViewOf r v.now → All Fits r.tree.nodes.items
        → IfOk result (λ told. OnOk told (IsSound t.now f.now r)) }
{
    let m = model(alloc, f, t, &v.options)?;
    check_view_by(alloc, f, &m, v)
}

/// The check of a view of a report on a function, by the table of the report's version: what `check_report` answers for the report.
///
/// # Errors
/// Those of `check_table`.
pub fn check_view(
    alloc: Global,
    f: &Function,
    v: &ReportView<'_>,
) -> Result<Result<(), NoCause>, NoMemory>
    requires version { IsVersion v.now.version }
    requires options { AreOptions v.now.options }
    requires lines { AreLines v.now.count v.now.tree.now }
    ensures told { (nodes : List Node) → All Fits nodes → v.now.tree.now ≡ tree_text nodes
        → IfOk result (IsTold (table_of v.now.version) f.now v.now.options (claim_with v.now nodes)) }
    ensures sound { (r : Report) → IsViewOf r v.now → All Fits r.tree.nodes.items
        → IfOk result (λ told. OnOk told (IsSound (table_of v.now.version) f.now r)) }
{
    check_table(alloc, f, v, &table_of(v.version))
}
