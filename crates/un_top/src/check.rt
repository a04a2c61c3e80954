//! The check of a report, as the program answers it.

ghost use Rattle.std.specs.Prelude.{◌≡◌, ◌++◌, IfOk, IfErr, OnOk};
ghost use Rattle.un_report_reader.specs.Readings.{IsViewRead};
ghost use Rattle.un_top.specs.Checks.{yes_line, counted_line, no_line, told_line, told_status};
ghost use Rattle.un_isa.specs.Fit.{IsFit};
ghost use Rattle.un_isa.specs.Versions.{table_of};
ghost use Rattle.un_top.specs.Checks.{IsAnswered, IsCheckBy, IsCheckOf, IsCheck, RefusesReport, RefusesCheck};
ghost use Rattle.un_top.specs.Runs.{IsWritten};

use crate::output::Output;
use crate::reading::view_of;
use std::alloc::Global;
use un_base::memory_error::NoMemory;
use un_check::report::{check_table, check_view};
use un_ir::function::Function;
use un_ir::text::{put_number, put_text};
use un_isa::table::Table;
use un_outside::status::{NoCause, Status};
use un_report::report::Answered;
use un_report::view::ReportView;
use un_runs::input::split;
use un_runs::refused::Refused;
use un_runs::runs::function_of;

/// Appends the line for a report that is accepted.
fn put_yes(out: &mut Vec<u8>, answer: &Answered) -> Result<(), NoMemory>
    ensures { OnOk result (out.new.items ≡ out.old.items ++ yes_line answer.now) }
{
    match answer {
        Answered::Code { cost, bound, .. } => {
            put_text(out, b"yes code cost ")?;
            put_number(out, *cost)?;
            put_text(out, b" bound ")?;
            put_number(out, *bound)?;
            put_text(out, b"\n")
        }
        Answered::Infeasible => put_text(out, b"yes infeasible\n"),
        Answered::Spent => put_text(out, b"yes spent\n"),
    }
}

/// Appends a line of words and a number.
pub(crate) fn put_counted(out: &mut Vec<u8>, words: &[u8], n: u64) -> Result<(), NoMemory>
    ensures { OnOk result (out.new.items ≡ out.old.items ++ counted_line words.now n) }
{
    put_text(out, words)?;
    put_number(out, n)?;
    put_text(out, b"\n")
}

/// Appends the line for a cause.
pub(crate) fn put_no(out: &mut Vec<u8>, cause: NoCause) -> Result<(), NoMemory>
    ensures { OnOk result (out.new.items ≡ out.old.items ++ no_line cause) }
{
    match cause {
        NoCause::Name => put_text(out, b"no name\n"),
        NoCause::Solution(rule) => put_counted(out, b"no solution ", u64::from(rule)),
        NoCause::Cost => put_text(out, b"no cost\n"),
        NoCause::Listing => put_text(out, b"no listing\n"),
        NoCause::Strict(place) => put_counted(out, b"no strict ", u64::from(place)),
        NoCause::Split(place) => put_counted(out, b"no split ", u64::from(place)),
        NoCause::Alive(place) => put_counted(out, b"no alive ", u64::from(place)),
        NoCause::Closed(place) => put_counted(out, b"no closed ", u64::from(place)),
        NoCause::Mirror(place) => put_counted(out, b"no mirror ", u64::from(place)),
        NoCause::Short => put_text(out, b"no short\n"),
        NoCause::Spent => put_text(out, b"no spent\n"),
        NoCause::Bound => put_text(out, b"no bound\n"),
    }
}

/// The line for an answer to a report.
fn told_text(
    alloc: Global,
    answer: &Answered,
    told: Result<(), NoCause>,
) -> Result<Vec<u8>, NoMemory>
    ensures { IfOk result (λ text. text.items ≡ told_line answer.now told) }
{
    let mut out = Vec::new(alloc);
    match told {
        Ok(()) => put_yes(&mut out, answer)?,
        Err(cause) => put_no(&mut out, cause)?,
    }
    Ok(out)
}

/// How a run ends that writes it.
fn told_status(told: Result<(), NoCause>) -> Status
    ensures is { result ≡ told_status told }
    ensures written { IsWritten result }
{
    match told {
        Ok(()) => Status::Done,
        Err(cause) => Status::No(cause),
    }
}

/// The answer to the report that a text is, which is viewed, on a function.
fn answer_of(
    alloc: Global,
    f: &Function,
    text: &[u8],
    view: &ReportView<'_>,
) -> Result<Result<(), NoCause>, NoMemory>
    requires { IsViewRead text.now view.now }
    ensures { IfOk result (IsAnswered table_of f.now text.now view.now.answer) }
{
    let _ = text;
    check_view(alloc, f, view)
}

/// The same by a table, whatever the version.
fn answer_by(
    alloc: Global,
    f: &Function,
    t: &Table,
    text: &[u8],
    view: &ReportView<'_>,
) -> Result<Result<(), NoCause>, NoMemory>
    requires fit { IsFit t.now }
    requires view { IsViewRead text.now view.now }
    ensures { IfOk result (IsAnswered (λ version. t.now) f.now text.now view.now.answer) }
{
    let _ = text;
    check_table(alloc, f, view, t)
}

/// What is put out of an answer to a report.
fn told_output(
    alloc: Global,
    answer: &Answered,
    told: Result<(), NoCause>,
) -> Result<Output, NoMemory>
    ensures ends { IfOk result (λ out. out.status ≡ told_status told) }
    ensures printed { IfOk result (λ out. out.text.items ≡ told_line answer.now told) }
    ensures written { IfOk result (λ out. IsWritten out.status) }
{
    let text = told_text(alloc, answer, told)?;
    Ok(Output {
        text,
        status: told_status(told),
    })
}

/// The check of the report that a text is, on a function.
fn check_of(alloc: Global, f: &Function, text: &[u8]) -> Result<Output, Refused>
    ensures ok { IfOk result (λ out. IsCheckOf f.now text.now out.status out.text.items) }
    ensures written { IfOk result (λ out. IsWritten out.status) }
    ensures refused { IfErr result (RefusesReport text.now) }
{
    let view = view_of(alloc, text)?;
    let told = answer_of(alloc, f, text, &view)?;
    let out = told_output(alloc, &view.answer, told)?;
    Ok(out)
}

/// The check by a table of the report that a text is, on a function.
pub(crate) fn check_by(
    alloc: Global,
    f: &Function,
    t: &Table,
    text: &[u8],
) -> Result<Output, Refused>
    requires fit { IsFit t.now }
    ensures ok { IfOk result (λ out. IsCheckBy (λ version. t.now) f.now text.now out.status out.text.items) }
    ensures written { IfOk result (λ out. IsWritten out.status) }
    ensures refused { IfErr result (RefusesReport text.now) }
{
    let view = view_of(alloc, text)?;
    let told = answer_by(alloc, f, t, text, &view)?;
    let out = told_output(alloc, &view.answer, told)?;
    Ok(out)
}

/// The check of the report in the second part of an input, on the function in the first one.
///
/// # Errors
/// `TextFault` with the first fault of the function's text; `BadSecond` with the first bad line of the report; `NoMemory` where there is no
/// memory for the check.
pub(crate) fn check_input(alloc: Global, input: &[u8]) -> Result<Output, Refused>
    ensures ok { IfOk result (λ out. IsCheck input.now out.status out.text.items) }
    ensures written { IfOk result (λ out. IsWritten out.status) }
    ensures refused { IfErr result (RefusesCheck input.now) }
{
    let parts = split(input);
    let f = function_of(alloc, parts.first)?;
    let out = check_of(alloc, &f, parts.second)?;
    Ok(out)
}
