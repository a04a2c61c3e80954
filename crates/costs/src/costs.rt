//! What a function costs by its first solution and by a search.

ghost use Rattle.un_problem.specs.Problems.{IsProblemOf};

use std::alloc::Global;
use un_base::memory_error::NoMemory;
use un_first::first::first;
use un_ir::function::Function;
use un_isa::table::{LAST, table_of};
use un_model::cost::cost;
use un_model::model::Model;
use un_problem::problem::{default_options, model};
use un_reader::read::read_function;
use un_report::report::Answered;
use un_search::start::{TRIALS, least_ends};
use un_top::search::search_report;

/// How many nodes a search has.
const NODES: u32 = 3;

/// What a function costs.
#[derive(Clone, Copy)]
pub struct Costs {
    /// The cost of its first solution.
    pub first: u64,
    /// The cost of the code that a search finds.
    pub cost: u64,
    /// What no code costs less than, as the search knows.
    pub bound: u64,
}

/// What the first solution of a function's model costs, where there is one.
fn first_cost(alloc: Global, f: &Function, m: &Model) -> Result<Option<u64>, NoMemory>
    requires { IsProblemOf f.now m.now }
{
    let _ = f;
    let Some(ends) = least_ends(alloc, m)? else {
        return Ok(None);
    };
    match first(alloc, m, ends.as_slice(), TRIALS)? {
        None => Ok(None),
        Some(s) => Ok(Some(cost(m, &s))),
    }
}

/// What a function of this model costs, where there are a first solution and code.
fn costs_in(alloc: Global, f: &Function, m: &Model) -> Result<Option<Costs>, NoMemory>
    requires { IsProblemOf f.now m.now }
{
    let Some(first) = first_cost(alloc, f, m)? else {
        return Ok(None);
    };
    let report = search_report(alloc, f, m, NODES)?;
    match &report.answer {
        Answered::Code { cost, bound, .. } => Ok(Some(Costs {
            first,
            cost: *cost,
            bound: *bound,
        })),
        _ => Ok(None),
    }
}

/// What the function of a text costs; None where the text has a fault.
///
/// # Errors
/// `NoMemory` where there is no memory for the search.
pub(crate) fn costs_of(alloc: Global, text: &[u8]) -> Result<Option<Costs>, NoMemory> {
    let Ok(f) = read_function(alloc, text) else {
        return Ok(None);
    };
    let m = model(alloc, &f, &table_of(LAST), &default_options())?;
    costs_in(alloc, &f, &m)
}
