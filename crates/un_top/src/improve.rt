//! A search from the numbers of a schedule on, as the program answers it.

ghost use Rattle.std.specs.Prelude.{◌≡◌, ℕ, List, [], ◌∷◌, IfOk, IfErr, MatchOption, map};
ghost use Rattle.un_commands.specs.Alloc.{AreSearchOptions, model_options};
ghost use Rattle.un_commands.specs.Settings.{IsCountOfNodes};
ghost use Rattle.un_isa.specs.Versions.{table_of};
ghost use Rattle.un_isa.specs.declared.table.TheConstants.{LAST};
ghost use Rattle.un_model.specs.Cost.{cost_of};
ghost use Rattle.un_model.specs.Variables.{IsModel};
ghost use Rattle.un_problem.specs.Problems.{IsProblemOf};
ghost use Rattle.un_report_reader.specs.Readings.{IsNumbers};
ghost use Rattle.un_violations.specs.Loose.{IsLoose};
ghost use Rattle.un_top.specs.Checks.{no_line};
ghost use Rattle.un_top.specs.Improvements.{IsFirstLoose, IsAnswerTo, IsImprovementOf, IsImprovement, RefusesNumbers, RefusesImprovement};
ghost use Rattle.un_top.specs.Reports.{IsCodeWithin, IsSearchText};
ghost use Rattle.un_top.specs.Runs.{IsWritten};

use crate::check::put_no;
use crate::output::{Output, printed};
use crate::reading::numbers_of;
use crate::search::report_from;
use std::alloc::Global;
use un_base::memory_error::NoMemory;
use un_commands::command::SearchOptions;
use un_compact::compact::compact;
use un_ir::function::Function;
use un_isa::table::{LAST, table_of};
use un_model::model::{Model, Solution};
use un_model::verdict::Broken;
use un_outside::status::{NoCause, Status};
use un_problem::problem::model;
use un_runs::input::split;
use un_runs::refused::Refused;
use un_runs::runs::function_of;
use un_violations::violations::loose_violations;

/// The number of the first clause of a list.
fn first_of(broken: &Vec<Broken>) -> Option<u8>
    ensures { MatchOption result (broken.now.items ≡ []) (λ k. (others : List ℕ) × (map (λ b. b.clause) broken.now.items ≡ k ∷ others)) }
{
    match broken.as_slice() {
        [] => None,
        [first, ..] => Some(first.clause),
    }
}

/// The number of the first clause of schedules of any length that numbers break.
fn first_broken(alloc: Global, m: &Model, s: &Solution) -> Result<Option<u8>, NoMemory>
    requires model { IsModel m.now }
    ensures { IfOk result (λ first. MatchOption first (IsLoose m.now s.now) (IsFirstLoose m.now s.now)) }
{
    let broken = loose_violations(alloc, m, s)?;
    Ok(first_of(&broken))
}

/// What is put out where numbers break a clause.
fn refusal(alloc: Global, clause: u8) -> Result<Output, NoMemory>
    ensures ends { IfOk result (λ out. out.status ≡ Status.No (NoCause.Solution clause)) }
    ensures printed { IfOk result (λ out. out.text.items ≡ no_line (NoCause.Solution clause)) }
    ensures written { IfOk result (λ out. IsWritten out.status) }
{
    let cause = NoCause::Solution(clause);
    let mut text = Vec::new(alloc);
    put_no(&mut text, cause)?;
    Ok(Output {
        text,
        status: Status::No(cause),
    })
}

/// The report of a search from a schedule of any length on.
fn improved(
    alloc: Global,
    f: &Function,
    m: &Model,
    s: &Solution,
    nodes: u32,
) -> Result<Output, NoMemory>
    requires problem { IsProblemOf f.now m.now }
    requires loose { IsLoose m.now s.now }
    requires nodes { IsCountOfNodes nodes }
    ensures found { IfOk result (λ out. IsSearchText f.now m.now nodes (IsCodeWithin (cost_of m.now s.now)) out.status out.text.items) }
    ensures written { IfOk result (λ out. IsWritten out.status) }
{
    let start = compact(alloc, m, s)?;
    let report = report_from(alloc, f, m, Some(start), nodes)?;
    let output = printed(alloc, &report)?;
    Ok(output)
}

/// The answer to numbers, by the function's model.
fn answer_to(
    alloc: Global,
    f: &Function,
    m: &Model,
    s: &Solution,
    nodes: u32,
) -> Result<Output, NoMemory>
    requires problem { IsProblemOf f.now m.now }
    requires nodes { IsCountOfNodes nodes }
    ensures answer { IfOk result (λ out. IsAnswerTo f.now m.now nodes s.now out.status out.text.items) }
    ensures written { IfOk result (λ out. IsWritten out.status) }
{
    match first_broken(alloc, m, s)? {
        Some(clause) => refusal(alloc, clause),
        None => improved(alloc, f, m, s, nodes),
    }
}

/// The answer to the numbers that a text is, under the options of a search.
fn answer_under(
    alloc: Global,
    f: &Function,
    text: &[u8],
    s: &Solution,
    options: SearchOptions,
) -> Result<Output, NoMemory>
    requires numbers { IsNumbers text.now s.now.values }
    requires options { AreSearchOptions options }
    ensures answer { IfOk result
        (λ out. IsImprovementOf (table_of LAST) (model_options options) options.nodes f.now text.now out.status out.text.items) }
    ensures written { IfOk result (λ out. IsWritten out.status) }
{
    let _ = text;
    let model = model(alloc, f, &table_of(LAST), &options.model_options())?;
    let output = answer_to(alloc, f, &model, s, options.nodes)?;
    Ok(output)
}

/// The answer to the text of numbers, on a function.
fn improve_of(
    alloc: Global,
    f: &Function,
    text: &[u8],
    options: SearchOptions,
) -> Result<Output, Refused>
    requires options { AreSearchOptions options }
    ensures ok { IfOk result
        (λ out. IsImprovementOf (table_of LAST) (model_options options) options.nodes f.now text.now out.status out.text.items) }
    ensures written { IfOk result (λ out. IsWritten out.status) }
    ensures refused { IfErr result (RefusesNumbers text.now) }
{
    let s = numbers_of(alloc, text)?;
    let out = answer_under(alloc, f, text, &s, options)?;
    Ok(out)
}

/// The report of a search from the schedule on that the numbers in the second part of an input are, of the function in the first one; or the
/// first clause of schedules that they break.
///
/// # Errors
/// `TextFault` with the first fault of the function's text; `BadSecond` with the first bad line of the numbers; `NoMemory` where there is no
/// memory for the search.
pub(crate) fn improve_input(
    alloc: Global,
    input: &[u8],
    options: SearchOptions,
) -> Result<Output, Refused>
    requires options { AreSearchOptions options }
    ensures ok { IfOk result
        (λ out. IsImprovement (table_of LAST) (model_options options) options.nodes input.now out.status out.text.items) }
    ensures written { IfOk result (λ out. IsWritten out.status) }
    ensures refused { IfErr result (RefusesImprovement input.now) }
{
    let parts = split(input);
    let f = function_of(alloc, parts.first)?;
    let out = improve_of(alloc, &f, parts.second, options)?;
    Ok(out)
}
