//! What the program reads of texts: a report or its view, the numbers of a solution, and a refutation.

ghost use Rattle.std.specs.Prelude.{◌≡◌, IfOk, IfErr};
ghost use Rattle.un_report_reader.specs.Readings.{IsViewRead, IsReportRead, IsNumbers};
ghost use Rattle.un_refutation.specs.Readings.{IsRefutationRead};
ghost use Rattle.un_top.specs.Checks.{unviewed_by, RefusesReport};
ghost use Rattle.un_top.specs.Improvements.{RefusesNumbers};
ghost use Rattle.un_top.specs.Refutations.{RefusesRefutation};

use std::alloc::Global;
use un_model::model::Solution;
use un_refutation::read::read_refutation;
use un_refutation::refutation::Refutation;
use un_report::report::Report;
use un_report::view::ReportView;
use un_report_reader::error::ReportError;
use un_report_reader::read::{read_numbers, read_report, read_view};
use un_runs::refused::Refused;

/// Why there is no outcome where a report's text is not read.
fn unviewed_by(error: ReportError) -> Refused
    ensures { result ≡ unviewed_by error }
{
    match error {
        ReportError::NoMemory => Refused::NoMemory,
        ReportError::BadReport { line } => Refused::BadSecond { line },
    }
}

/// The view of the report that a text is.
pub(crate) fn view_of<'a>(alloc: Global, text: &'a [u8]) -> Result<ReportView<'a>, Refused>
    ensures ok { IfOk result (IsViewRead text.now) }
    ensures refused { IfErr result (RefusesReport text.now) }
{
    match read_view(alloc, text) {
        Ok(view) => Ok(view),
        Err(error) => Err(unviewed_by(error)),
    }
}

/// The report that a text is.
pub(crate) fn report_in(alloc: Global, text: &[u8]) -> Result<Report, Refused>
    ensures ok { IfOk result (IsReportRead text.now) }
    ensures refused { IfErr result (RefusesReport text.now) }
{
    match read_report(alloc, text) {
        Ok(report) => Ok(report),
        Err(error) => Err(unviewed_by(error)),
    }
}

/// The numbers of a solution that a text is.
pub(crate) fn numbers_of(alloc: Global, text: &[u8]) -> Result<Solution, Refused>
    ensures ok { IfOk result (λ s. IsNumbers text.now s.values) }
    ensures refused { IfErr result (RefusesNumbers text.now) }
{
    match read_numbers(alloc, text) {
        Ok(s) => Ok(s),
        Err(error) => Err(unviewed_by(error)),
    }
}

/// The refutation that a text is.
pub(crate) fn refutation_of(alloc: Global, text: &[u8]) -> Result<Refutation, Refused>
    ensures ok { IfOk result (IsRefutationRead text.now) }
    ensures refused { IfErr result (RefusesRefutation text.now) }
{
    match read_refutation(alloc, text) {
        Ok(refutation) => Ok(refutation),
        Err(error) => Err(unviewed_by(error)),
    }
}
