//! The report of a search for the code of a function.

ghost use Rattle.std.specs.Prelude.{◌≡◌, ◌≤◌, IfOk, IfSome};
ghost use Rattle.un_commands.specs.Settings.{IsCountOfNodes};
ghost use Rattle.un_isa.specs.declared.table.TheConstants.{LAST};
ghost use Rattle.un_model.specs.Solutions.{IsSolution};
ghost use Rattle.un_problem.specs.Problems.{IsProblemOf, IsExtOf};
ghost use Rattle.un_report_reader.specs.Readings.{IsReport};
ghost use Rattle.un_search.specs.Solved.{OnCode};
ghost use Rattle.un_top.specs.Reports.{IsSearchOf, UsesRoom};
ghost use Rattle.un_top.specs.Searches.{IsStartOf, IsNoWorse, IsCodeOf, IsReported};

use std::alloc::Global;
use un_base::memory_error::NoMemory;
use un_baseline::roomy::is_roomy;
use un_baseline::spill::spill_everywhere;
use un_emit::emit::emit;
use un_ir::function::Function;
use un_isa::table::LAST;
use un_model::model::{Model, Solution};
use un_packet::code::Code;
use un_report::report::{Answered, Report};
use un_search::solve::{Answer, solve};
use un_tree::node::Tree;

/// What a search starts from: the solution that keeps each name in a frame slot of its own, where the options have room for it.
fn start_of(alloc: Global, f: &Function, m: &Model) -> Result<Option<Solution>, NoMemory>
    requires problem { IsProblemOf f.now m.now }
    ensures { IfOk result (IsStartOf f.now m.now) }
{
    if !is_roomy(f, &m.options) {
        return Ok(None);
    }
    let solution = spill_everywhere(alloc, m)?;
    Ok(Some(solution))
}

/// The code of a solution of a function's model.
///
/// # Errors
/// `NoMemory` where there is no memory for the code.
pub fn code_of(alloc: Global, f: &Function, m: &Model, s: &Solution) -> Result<Code, NoMemory>
    requires problem { IsProblemOf f.now m.now }
    requires solution { IsSolution m.now s.now }
    ensures { IfOk result (IsCodeOf f.now m.now s.now) }
{
    let code = emit(alloc, f, &m.ext, m, s)?;
    Ok(code)
}

/// A report of a function in the last version, under the options of its model.
fn report_with(f: &Function, m: &Model, nodes: u32, answer: Answered, tree: Tree) -> Report
    ensures versioned { result.version ≡ LAST }
    ensures named { result.name ≡ f.now.name }
    ensures chosen { result.options ≡ m.now.options }
    ensures budget { result.nodes ≡ nodes }
    ensures answer { result.answer ≡ answer }
    ensures tree { result.tree ≡ tree }
{
    Report {
        version: LAST,
        name: f.name,
        options: m.options,
        nodes,
        answer,
        tree,
    }
}

/// The report of an answer with code.
fn code_report(
    alloc: Global,
    f: &Function,
    m: &Model,
    nodes: u32,
    solved: Answer,
) -> Result<Report, NoMemory>
    requires problem { IsProblemOf f.now m.now }
    requires solution { OnCode (λ s cost bound t. IsSolution m.now s) solved }
    ensures { IfOk result (IsReported f.now m.now nodes solved) }
{
    match solved {
        Answer::Code {
            solution,
            cost,
            bound,
            tree,
        } => {
            let code = code_of(alloc, f, m, &solution)?;
            let answer = Answered::Code {
                cost,
                bound,
                code,
                solution,
            };
            Ok(report_with(f, m, nodes, answer, tree))
        }
        Answer::Infeasible(tree) => Ok(report_with(f, m, nodes, Answered::Infeasible, tree)),
        Answer::Spent(tree) => Ok(report_with(f, m, nodes, Answered::Spent, tree)),
    }
}

/// The report of a search with at most so many nodes for code of a function, whose model this is, from a solution on where there is one.
///
/// # Errors
/// `NoMemory` where there is no memory for the search or the code.
pub(crate) fn report_from(
    alloc: Global,
    f: &Function,
    m: &Model,
    start: Option<Solution>,
    nodes: u32,
) -> Result<Report, NoMemory>
    requires problem { IsProblemOf f.now m.now }
    requires start { IfSome start (IsSolution m.now) }
    requires some { 1 ≤ nodes }
    ensures search { IfOk result (IsSearchOf f.now m.now nodes) }
    ensures no_worse { IfOk result (λ r. IsNoWorse m.now start r.answer) }
    ensures read { IsCountOfNodes nodes → IfOk result IsReport }
{
    let solved = solve(alloc, m, start, nodes)?;
    let report = code_report(alloc, f, m, nodes, solved)?;
    Ok(report)
}

/// The report of such a search from the solution on that keeps each name in a frame slot of its own, where the options have room for that.
///
/// # Errors
/// `NoMemory` where there is no memory for the search or the code.
pub fn search_report(alloc: Global, f: &Function, m: &Model, nodes: u32) -> Result<Report, NoMemory>
    requires problem { IsProblemOf f.now m.now }
    requires some { 1 ≤ nodes }
    ensures search { IfOk result (IsSearchOf f.now m.now nodes) }
    ensures room { IfOk result (λ r. (e : IsExtOf m.now.ext.table f.now m.now.ext) → UsesRoom f.now m.now e.live r.answer) }
    ensures read { IsCountOfNodes nodes → IfOk result IsReport }
{
    let start = start_of(alloc, f, m)?;
    let report = report_from(alloc, f, m, start, nodes)?;
    Ok(report)
}
