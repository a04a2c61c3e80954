//! The answer of a report, read.

ghost use Rattle.std.specs.Prelude.{◌≡◌, ◌≢◌, ℕ, List, ◌++◌, IfOk, IfErr, IfSome, IfNone};
ghost use Rattle.un_report.specs.Reports.{answer_text};
ghost use Rattle.un_report_reader.specs.Answers.{AreCosts, costs_lines, two, IsAnswer, answer_lines, IsCodeRead};
ghost use Rattle.un_report_reader.specs.Errors.{IsErrorAt, IsRead};
ghost use Rattle.un_report_reader.specs.FirstBad.{IsBadLine, InAnswer, InCost};
ghost use Rattle.un_report_reader.specs.declared.kind.Kind.{Kind};
ghost use Rattle.un_report_reader.specs.declared.limits.Limits.{Limits};
ghost use Rattle.un_report_reader.specs.Limits.{AreSmall};
ghost use Rattle.un_report_reader.specs.Lines.{one, IsAny, kind_text};

use crate::cut::after;
use crate::error::ReportError;
use crate::head::number_line;
use crate::kind::Kind;
use crate::limits::Limits;
use crate::listing::listing;
use crate::numbers::solution;
use crate::place::{Place, bad_line, behind};
use std::alloc::Global;
use un_report::report::Answered;

/// The kind of answer with whose line a text begins, and what is left behind that.
fn kind_of(text: &[u8]) -> Option<(Kind, &[u8])>
    ensures some { IfSome result (λ p. text.now ≡ kind_text p.0 ++ p.1.now) }
    ensures none { IfNone result ((kind : Kind) (rest : List ℕ) → text.now ≢ kind_text kind ++ rest) }
{
    match after(text, b"answer code\n") {
        Some(rest) => Some((Kind::Code, rest)),
        None => match after(text, b"answer infeasible\n") {
            Some(rest) => Some((Kind::Infeasible, rest)),
            None => match after(text, b"answer spent\n") {
                Some(rest) => Some((Kind::Spent, rest)),
                None => None,
            },
        },
    }
}

/// The line of the kind of answer.
fn kind_line(at: Place) -> Result<(Kind, Place), ReportError>
    ensures ok { IfOk result (λ p. IsRead IsAny kind_text one at.entry p.0 p.1) }
    ensures bad { IfErr result (IsErrorAt (IsBadLine IsAny kind_text) at.entry) }
{
    match kind_of(at.rest) {
        Some((kind, rest)) => Ok((kind, behind(at, rest, 1)?)),
        None => Err(bad_line(at, 1)),
    }
}

/// The lines of the cost and its bound.
fn costs(at: Place) -> Result<((u64, u64), Place), ReportError>
    ensures ok { IfOk result (λ p. IsRead AreCosts costs_lines two at.entry p.0 p.1) }
    ensures bad { (l : Limits) → IfErr result (IsErrorAt (InCost l) at.entry) }
{
    let (cost, at) = number_line(at, b"cost ", 0, u64::MAX)?;
    let (bound, at) = number_line(at, b"bound ", 0, u64::MAX)?;
    Ok(((cost, bound), at))
}

/// An answer that is code, behind the line of its kind.
fn code_answer<'a>(
    alloc: Global,
    at: Place<'a>,
    limits: Limits,
) -> Result<(Answered, Place<'a>), ReportError>
    requires { AreSmall limits }
    ensures ok { IfOk result (λ p. IsCodeRead limits at.entry p.0 p.1) }
    ensures bad { IfErr result (IsErrorAt (InCost limits) at.entry) }
{
    let ((cost, bound), at) = costs(at)?;
    let (code, at) = listing(alloc, at, limits)?;
    let (solution, at) = solution(alloc, at)?;
    let answer = Answered::Code {
        cost,
        bound,
        code,
        solution,
    };
    Ok((answer, at))
}

/// The answer.
pub(crate) fn answer<'a>(
    alloc: Global,
    at: Place<'a>,
    limits: Limits,
) -> Result<(Answered, Place<'a>), ReportError>
    requires { AreSmall limits }
    ensures ok { IfOk result (λ p. IsRead (IsAnswer limits) answer_text answer_lines at.entry p.0 p.1) }
    ensures bad { IfErr result (IsErrorAt (InAnswer limits) at.entry) }
{
    let (kind, at) = kind_line(at)?;
    match kind {
        Kind::Code => code_answer(alloc, at, limits),
        Kind::Infeasible => Ok((Answered::Infeasible, at)),
        Kind::Spent => Ok((Answered::Spent, at)),
    }
}
