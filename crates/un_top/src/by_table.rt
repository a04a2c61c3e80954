//! What the commands put out that go by a table in their input.

ghost use Rattle.std.specs.Prelude.{◌≤◌, IfOk, IfErr, length};
ghost use Rattle.un_commands.specs.Alloc.{AreSearchOptions};
ghost use Rattle.un_isa.specs.Fit.{IsFit};
ghost use Rattle.un_target.specs.Tables.{IsTableText};
ghost use Rattle.un_top.specs.Behaviours.{of_alloc_table, of_check_table, of_run_code_table};
ghost use Rattle.un_top.specs.Runs.{IsWritten, RefusesText};
ghost use Rattle.un_top.specs.Tables.{RefusesTable};
ghost use Rattle.un_top.specs.declared.limits.TheConstants.{INPUT};

use crate::check::check_by;
use crate::output::Output;
use crate::produce::{done, report_by, status_by};
use std::alloc::Global;
use un_commands::command::SearchOptions;
use un_isa::table::Table;
use un_outside::status::Status;
use un_runs::input::{split, split_three};
use un_runs::runs::{code_run_by, function_of};
use un_target::error::TableError;
use un_target::reading::read_table;

/// The table of a text, or how a run ends where there is none.
fn table_of_text(alloc: Global, text: &[u8]) -> Result<Table, Status>
    ensures ok { IfOk result (IsTableText text.now) }
    ensures fit { IfOk result IsFit }
    ensures refused { IfErr result (RefusesTable text.now) }
{
    match read_table(alloc, text) {
        Ok(table) => Ok(table),
        Err(TableError::NoMemory) => Err(Status::NoMemory),
        Err(TableError::Bad(cause)) => Err(Status::BadTable { code: cause.code() }),
    }
}

/// The report of the function in the first part of an input by the table in the second one.
///
/// # Errors
/// `TextFault` with the first fault of the function's text; `BadTable` with the first cause why the second part is no table's; `NoMemory`.
pub(crate) fn table_report(
    alloc: Global,
    input: &[u8],
    options: SearchOptions,
) -> Result<Output, Status>
    requires options { AreSearchOptions options }
    requires few { length input.now ≤ INPUT }
    ensures ok { IfOk result (λ out. (of_alloc_table options).Output input.now out.status out.text.items) }
    ensures written { IfOk result (λ out. IsWritten out.status) }
    ensures refused { IfErr result (RefusesText (of_alloc_table options) input.now) }
{
    let parts = split(input);
    let f = match function_of(alloc, parts.first) {
        Ok(f) => f,
        Err(refused) => return Err(status_by(refused)),
    };
    let table = match table_of_text(alloc, parts.second) {
        Ok(table) => table,
        Err(status) => return Err(status),
    };
    match report_by(alloc, parts.first, &f, &table, options) {
        Ok(out) => Ok(out),
        Err(_) => Err(Status::NoMemory),
    }
}

/// The check by the table in the middle part of an input of the report in the last one, on the function in the first one.
///
/// # Errors
/// `TextFault` with the first fault of the function's text; `BadTable` with the first cause why the middle part is no table's; `BadReport`
/// with the first bad line of the report; `NoMemory`.
pub(crate) fn table_check(alloc: Global, input: &[u8]) -> Result<Output, Status>
    requires few { length input.now ≤ INPUT }
    ensures ok { IfOk result (λ out. of_check_table.Output input.now out.status out.text.items) }
    ensures written { IfOk result (λ out. IsWritten out.status) }
    ensures refused { IfErr result (RefusesText of_check_table input.now) }
{
    let parts = split_three(input);
    let f = match function_of(alloc, parts.first) {
        Ok(f) => f,
        Err(refused) => return Err(status_by(refused)),
    };
    let table = match table_of_text(alloc, parts.middle) {
        Ok(table) => table,
        Err(status) => return Err(status),
    };
    match check_by(alloc, &f, &table, parts.last) {
        Ok(out) => Ok(out),
        Err(refused) => Err(status_by(refused)),
    }
}

/// The outcome by the table in the middle part of an input of the code in the first one from the start in the last one.
///
/// # Errors
/// `BadTable` with the first cause why the middle part is no table's; `BadReport` with the first bad line of the listing, else with that
/// of the start; `NoMemory`.
pub(crate) fn table_run(alloc: Global, input: &[u8]) -> Result<Output, Status>
    requires few { length input.now ≤ INPUT }
    ensures ok { IfOk result (λ out. of_run_code_table.Output input.now out.status out.text.items) }
    ensures written { IfOk result (λ out. IsWritten out.status) }
    ensures refused { IfErr result (RefusesText of_run_code_table input.now) }
{
    let parts = split_three(input);
    let table = match table_of_text(alloc, parts.middle) {
        Ok(table) => table,
        Err(status) => return Err(status),
    };
    match code_run_by(alloc, &table, parts.first, parts.last) {
        Ok(shown) => Ok(done(shown)),
        Err(refused) => Err(status_by(refused)),
    }
}
