//! Reports of examples, drawn and explained, beside the texts that are expected.

ghost use Rattle.un_problem.specs.Problems.{IsProblemOf};

use std::alloc::Global;
use un_drawn::drawn::{Form, put_drawn};
use un_drawn::given::version_of;
use un_ir::function::Function;
use un_isa::table::table_of;
use un_model::model::Model;
use un_outside::status::Status;
use un_problem::problem::{default_options, model};
use un_reader::read::read_function;
use un_shown::input::split_input;

/// Appends the tables of a report, and what is explained of it.
fn put_both(
    alloc: Global,
    out: &mut Vec<u8>,
    f: &Function,
    m: &Model,
    report: &[u8],
) -> Result<(), Status>
    requires { IsProblemOf f.now m.now }
{
    put_drawn(alloc, out, f, m, report, Form::Tables)?;
    put_drawn(alloc, out, f, m, report, Form::Words)
}

/// The same of a report on a function.
fn put_of_function(
    alloc: Global,
    out: &mut Vec<u8>,
    f: &Function,
    report: &[u8],
) -> Result<(), Status> {
    let table = table_of(version_of(report));
    match model(alloc, f, &table, &default_options()) {
        Ok(m) => put_both(alloc, out, f, &m, report),
        Err(_) => Err(Status::NoMemory),
    }
}

/// The same of an input: a function's text without a fault, a line `---`, and a report.
fn put_of_input(alloc: Global, out: &mut Vec<u8>, input: &[u8]) -> Result<(), Status> {
    let parts = split_input(input);
    match read_function(alloc, parts.function) {
        Ok(f) => put_of_function(alloc, out, &f, parts.rest),
        Err(_) => Err(Status::NoMemory),
    }
}

/// Whether an input is drawn and explained as expected.
pub(crate) fn is_drawn_as(alloc: Global, input: &[u8], want: &[u8]) -> bool {
    let mut out = Vec::new(alloc);
    match put_of_input(alloc, &mut out, input) {
        Ok(()) => out.as_slice() == want,
        Err(_) => false,
    }
}
