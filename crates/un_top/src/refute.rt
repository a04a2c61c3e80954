//! Whether a function has code below a limit, as the program answers it.

ghost use Rattle.std.specs.Prelude.{◌≡◌, Some, IfOk, IfErr, codes};
ghost use Rattle.un_commands.specs.Alloc.{AreSearchOptions, model_options};
ghost use Rattle.un_commands.specs.Settings.{IsCountOfNodes};
ghost use Rattle.un_isa.specs.Versions.{table_of};
ghost use Rattle.un_isa.specs.declared.table.TheConstants.{LAST};
ghost use Rattle.un_model.specs.Extended.{HasSmallCounts};
ghost use Rattle.un_model.specs.Cost.{cost_of};
ghost use Rattle.un_model.specs.Variables.{IsModel};
ghost use Rattle.un_problem.specs.Problems.{IsProblemOf};
ghost use Rattle.un_reader.specs.Read.{IsRead};
ghost use Rattle.un_refutation.specs.Refutations.{cut_text};
ghost use Rattle.un_search.specs.Answers.{IsRefuted as IsTreeRefuted};
ghost use Rattle.un_top.specs.Behaviours.{of_refute};
ghost use Rattle.un_top.specs.Checks.{counted_line};
ghost use Rattle.un_top.specs.Refutations.{IsAnswerBelow, IsRefuted, IsRefuting};
ghost use Rattle.un_top.specs.Runs.{IsWritten, RefusesText};

use crate::check::put_counted;
use crate::output::Output;
use crate::produce::status_by;
use std::alloc::Global;
use un_base::memory_error::NoMemory;
use un_commands::command::SearchOptions;
use un_ir::function::Function;
use un_isa::table::{LAST, table_of};
use un_model::cost::cost;
use un_model::model::{Model, Solution};
use un_outside::status::Status;
use un_problem::problem::model;
use un_refutation::print::{print_cut, print_refutation};
use un_refutes::shorten::shorten;
use un_runs::runs::function_of;
use un_search::attempt::{Tried, attempt};
use un_tree::node::Tree;

/// What is put out of a solution.
fn found(alloc: Global, m: &Model, s: &Solution) -> Result<Output, NoMemory>
    requires model { IsModel m.now }
    requires counts { HasSmallCounts m.now.ext }
    ensures ends { IfOk result (λ out. out.status ≡ Status.Found (cost_of m.now s.now)) }
    ensures printed { IfOk result (λ out. out.text.items ≡ counted_line (codes "cost ") (cost_of m.now s.now)) }
{
    let cost = cost(m, s);
    let mut text = Vec::new(alloc);
    put_counted(&mut text, b"cost ", cost)?;
    Ok(Output {
        text,
        status: Status::Found { cost },
    })
}

/// What is put out of a tree without an open leaf.
fn refuted(
    alloc: Global,
    f: &Function,
    m: &Model,
    limit: u64,
    nodes: u32,
    tree: &Tree,
) -> Result<Output, NoMemory>
    requires problem { IsProblemOf f.now m.now }
    requires nodes { IsCountOfNodes nodes }
    requires refuted { IsTreeRefuted m.now (Some limit) nodes tree.now.nodes.items }
    ensures ends { IfOk result (λ out. out.status ≡ Status.Done) }
    ensures answer { IfOk result (λ out. IsRefuted f.now m.now nodes limit out.text.items) }
{
    let _ = nodes;
    let short = shorten(alloc, m, limit, tree)?;
    let text = print_refutation(alloc, limit, f.name, m.options, &short)?;
    Ok(Output {
        text,
        status: Status::Done,
    })
}

/// What is put out of a tree with an open leaf.
fn cut_short(
    alloc: Global,
    f: &Function,
    m: &Model,
    limit: u64,
    tree: &Tree,
) -> Result<Output, NoMemory>
    ensures ends { IfOk result (λ out. out.status ≡ Status.Cut) }
    ensures printed { IfOk result (λ out. out.text.items ≡ cut_text limit f.now.name m.now.options tree.now.nodes.items) }
{
    let text = print_cut(alloc, limit, f.name, m.options, tree)?;
    Ok(Output {
        text,
        status: Status::Cut,
    })
}

/// What is put out of an attempt to find code of a function that costs less than a limit.
fn answer_below(
    alloc: Global,
    f: &Function,
    m: &Model,
    limit: u64,
    nodes: u32,
) -> Result<Output, NoMemory>
    requires problem { IsProblemOf f.now m.now }
    requires nodes { IsCountOfNodes nodes }
    ensures answer { IfOk result (λ out. IsAnswerBelow f.now m.now nodes limit out.status out.text.items) }
    ensures written { IfOk result (λ out. IsWritten out.status) }
{
    match attempt(alloc, m, Some(limit), nodes)? {
        Tried::Found(solution) => found(alloc, m, &solution),
        Tried::Refuted(tree) => refuted(alloc, f, m, limit, nodes, &tree),
        Tried::Cut { tree, .. } => cut_short(alloc, f, m, limit, &tree),
    }
}

/// The same by the function's model under the options of a search.
fn refute_of(
    alloc: Global,
    text: &[u8],
    f: &Function,
    limit: u64,
    options: SearchOptions,
) -> Result<Output, NoMemory>
    requires read { IsRead text.now f.now }
    requires options { AreSearchOptions options }
    ensures answer { IfOk result
        (λ out. IsRefuting (table_of LAST) (model_options options) options.nodes limit text.now out.status out.text.items) }
    ensures written { IfOk result (λ out. IsWritten out.status) }
{
    let _ = text;
    let model = model(alloc, f, &table_of(LAST), &options.model_options())?;
    let output = answer_below(alloc, f, &model, limit, options.nodes)?;
    Ok(output)
}

/// Whether the function that a text is has code below a limit: the cost of such code; a refutation; or the tree of a search that had no more
/// nodes.
///
/// # Errors
/// `TextFault` with the first fault of the text; `NoMemory` where there is no memory for the search.
pub(crate) fn refute_output(
    alloc: Global,
    text: &[u8],
    limit: u64,
    options: SearchOptions,
) -> Result<Output, Status>
    requires options { AreSearchOptions options }
    ensures ok { IfOk result (λ out. (of_refute limit options).Output text.now out.status out.text.items) }
    ensures written { IfOk result (λ out. IsWritten out.status) }
    ensures refused { IfErr result (RefusesText (of_refute limit options) text.now) }
{
    let f = match function_of(alloc, text) {
        Ok(f) => f,
        Err(refused) => return Err(status_by(refused)),
    };
    match refute_of(alloc, text, &f, limit, options) {
        Ok(out) => Ok(out),
        Err(_) => Err(Status::NoMemory),
    }
}
