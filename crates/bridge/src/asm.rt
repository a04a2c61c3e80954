//! The assembly of a report, which stands alone or behind the text of its function.

use std::alloc::Global;
use un_answers::answer::Answer;
use un_assembly::assembly::assembly;
use un_outside::status::Status;
use un_report::report::Answered;
use un_report::view::ReportView;
use un_report_reader::error::ReportError;
use un_report_reader::read::read_view;
use un_runs::input::split;

/// The report in an input: what stands behind a line `---`, or all of it.
fn report_in(input: &[u8]) -> &[u8] {
    let parts = split(input);
    if parts.second.is_empty() {
        parts.first
    } else {
        parts.second
    }
}

/// The assembly of a report's code.
fn assembly_of(alloc: Global, view: &ReportView<'_>) -> Result<Vec<u8>, Status> {
    let text = match &view.answer {
        Answered::Code { code, .. } => assembly(alloc, view.name, code),
        Answered::Infeasible => return Err(Status::Infeasible),
        Answered::Spent => return Err(Status::Spent),
    };
    match text {
        Ok(text) => Ok(text),
        Err(_) => Err(Status::NoMemory),
    }
}

/// The assembly of the report in an input; a report without code has none, and the status says so.
pub fn asm(alloc: Global, input: &[u8]) -> Answer {
    let assembled = match read_view(alloc, report_in(input)) {
        Ok(view) => assembly_of(alloc, &view),
        Err(ReportError::NoMemory) => Err(Status::NoMemory),
        Err(ReportError::BadReport { line }) => Err(Status::BadReport { line }),
    };
    match assembled {
        Ok(text) => Answer::done(alloc, text),
        Err(status) => Answer::failed(alloc, status),
    }
}
