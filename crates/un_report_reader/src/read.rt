//! Reports from texts, and the numbers of a solution alone.

ghost use Rattle.std.specs.Prelude.{◌≡◌, ◌++◌, ℕ, List, [], IfOk, IfErr, OnOk};
ghost use Rattle.un_report.specs.Reports.{report_text};
ghost use Rattle.un_report.specs.declared.report.Report.{Report};
ghost use Rattle.un_report_reader.specs.declared.error.ReportError.TheVariants as Error;
ghost use Rattle.un_report.specs.Views.{IsViewOf};
ghost use Rattle.un_report_reader.specs.Errors.{IsErrorAt};
ghost use Rattle.un_report_reader.specs.FirstBad.{InNothing};
ghost use Rattle.un_report_reader.specs.Readings.{IsReport, IsView, IsErrorOf, IsViewRead, IsViewBack, IsReportRead, IsReportBack};
ghost use Rattle.un_report_reader.specs.Readings.{IsNumbers, IsNumbersError, AreNumbersBack};

use crate::answer::answer;
use crate::error::ReportError;
use crate::head::read_head;
use crate::limits::limits_of;
use crate::numbers::solution;
use crate::place::{Place, bad_line};
use crate::tree::{Lines, end, tree};
use std::alloc::Global;
use un_base::name::Name;
use un_model::model::Solution;
use un_report::report::Report;
use un_report::view::ReportView;
use un_tree::read::read_tree;

/// The view of the report whose text this is.
fn view<'a>(alloc: Global, text: &'a [u8]) -> Result<ReportView<'a>, ReportError>
    ensures ok { IfOk result (IsViewRead text.now) }
    ensures bad { IfErr result (IsErrorOf text.now) }
{
    let at = Place {
        rest: text,
        lines: 0,
    };
    let (head, at) = read_head(at)?;
    let limits = limits_of(head.version);
    let (answer, at) = answer(alloc, at, limits)?;
    let (Lines { text: tree, count }, at) = tree(at, limits)?;
    end(at)?;
    Ok(ReportView {
        version: head.version,
        name: head.name,
        options: head.settings.options,
        nodes: head.settings.nodes,
        answer,
        tree,
        count,
    })
}

/// The report whose text this is, its name and its tree as slices of the text. No tree is made: each of its lines is looked at once.
///
/// # Errors
/// `BadReport` with the first line outside the grammar, from 1, the one behind the last where lines are missing; `NoMemory` where there is
/// no memory for the report.
pub fn read_view<'a>(alloc: Global, text: &'a [u8]) -> Result<ReportView<'a>, ReportError>
    ensures ok { IfOk result (IsViewRead text.now) }
    ensures bad { IfErr result (IsErrorOf text.now) }
    ensures whole { (r : Report) → IsReport r → text.now ≡ report_text r → IsViewBack r result }
{
    view(alloc, text)
}

/// The report that a view is of.
fn report_of(alloc: Global, view: ReportView) -> Result<Report, ReportError>
    requires { IsView view }
    ensures ok { IfOk result (λ s. IsReport s × IsViewOf s view.entry) }
    ensures err { IfErr result (λ e. e ≡ Error.NoMemory) }
{
    let Some(name) = Name::from_bytes(view.name) else {
        return Err(ReportError::NoMemory);
    };
    match read_tree(alloc, view.tree) {
        Ok(tree) => Ok(Report {
            version: view.version,
            name,
            options: view.options,
            nodes: view.nodes,
            answer: view.answer,
            tree,
        }),
        Err(_) => Err(ReportError::NoMemory),
    }
}

/// The report whose text this is.
///
/// # Errors
/// As `read_view` has them; `NoMemory` also where there is no memory for the tree.
pub fn read_report(alloc: Global, text: &[u8]) -> Result<Report, ReportError>
    ensures ok { IfOk result (IsReportRead text.now) }
    ensures bad { IfErr result (IsErrorOf text.now) }
    ensures whole { (r : Report) → IsReport r → text.now ≡ report_text r → IsReportBack r result }
{
    match read_view(alloc, text) {
        Ok(view) => report_of(alloc, view),
        Err(error) => Err(error),
    }
}

/// Asks for nothing more.
fn nothing(at: Place) -> Result<(), ReportError>
    ensures ok { OnOk result (at.entry.rest.now ≡ []) }
    ensures bad { IfErr result (IsErrorAt InNothing at.entry) }
{
    if at.rest.is_empty() {
        Ok(())
    } else {
        Err(bad_line(at, 1))
    }
}

/// The numbers that a text is, and nothing else.
fn alone(alloc: Global, text: &[u8]) -> Result<Solution, ReportError>
    ensures ok { IfOk result (λ s. IsNumbers text.now s.values) }
    ensures bad { IfErr result (IsNumbersError text.now) }
{
    let at = Place {
        rest: text,
        lines: 0,
    };
    let (solution, at) = solution(alloc, at)?;
    nothing(at)?;
    Ok(solution)
}

/// The numbers of a solution whose text this is: the line of how many they are, and the numbers, as a report has them. They may be any
/// numbers of 32 bits, also those of no solution.
///
/// # Errors
/// `BadReport` with the first line outside that, from 1: the one behind the last where lines are missing, or where text stands behind the
/// numbers; `NoMemory` where there is no memory for them.
pub fn read_numbers(alloc: Global, text: &[u8]) -> Result<Solution, ReportError>
    ensures ok { IfOk result (λ s. IsNumbers text.now s.values) }
    ensures bad { IfErr result (IsNumbersError text.now) }
    ensures whole { (values : List ℕ) → IsNumbers text.now values → AreNumbersBack values result }
{
    alone(alloc, text)
}
