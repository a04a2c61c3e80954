//! What a command puts out.

ghost use Rattle.std.specs.Prelude.{◌≡◌, IfOk};
ghost use Rattle.un_report.specs.Reports.{report_text};
ghost use Rattle.un_top.specs.Reports.{status_of};
ghost use Rattle.un_top.specs.Runs.{IsWritten};

use std::alloc::Global;
use un_base::memory_error::NoMemory;
use un_outside::status::Status;
use un_report::print::print_report;
use un_report::report::{Answered, Report};

/// What a command puts out, and how a run ends that writes it whole.
#[derive(Drop)]
pub struct Output {
    /// The bytes to write.
    pub text: Vec<u8>,
    /// How the run ends where they are written whole.
    pub status: Status,
}

/// How a run ends that writes a report with this answer.
pub(crate) fn status_of(answer: &Answered) -> Status
    ensures is { result ≡ status_of answer.now }
    ensures written { IsWritten result }
{
    match answer {
        Answered::Code { .. } => Status::Done,
        Answered::Infeasible => Status::Infeasible,
        Answered::Spent => Status::Spent,
    }
}

/// A report as text.
pub fn printed(alloc: Global, report: &Report) -> Result<Output, NoMemory>
    ensures printed { IfOk result (λ out. out.text.items ≡ report_text report.now) }
    ensures ends { IfOk result (λ out. out.status ≡ status_of report.now.answer) }
    ensures written { IfOk result (λ out. IsWritten out.status) }
{
    let text = print_report(alloc, report)?;
    Ok(Output {
        text,
        status: status_of(&report.answer),
    })
}
