//! The numbers of a solution, read.

ghost use Rattle.std.specs.Prelude.{◌≡◌, ◌≢◌, ℕ, ◌<◌, List, [], ◌∷◌, ◌++◌, IfOk, IfErr, OnOk};
ghost use Rattle.un_report.specs.Reports.{after_number, numbers_text};
ghost use Rattle.un_report_reader.specs.Answers.{IsSolutionRead};
ghost use Rattle.un_report_reader.specs.Errors.{IsErrorAt, IsRead};
ghost use Rattle.un_report_reader.specs.FirstBad.{IsBadNumber, IsBadSolution, numbers_lines};
ghost use Rattle.un_report_reader.specs.Lines.{AreNumbers, line_count};

use crate::cut::number;
use crate::error::ReportError;
use crate::head::number_line;
use crate::place::{Place, bad_line, behind};
use std::alloc::Global;
use un_base::memory_error::NoMemory;
use un_lists::items::Items;
use un_model::model::Solution;
use un_report::report::NUMBERS;

/// The byte behind the number at place `k` of so many.
fn end_of(k: u32, count: u32) -> u8
    requires { k < count }
    ensures is { after_number count k ≡ result ∷ [] }
    ensures low { result < 48 }
{
    if (k as usize + 1) % NUMBERS == 0 || k + 1 == count {
        b'\n'
    } else {
        b' '
    }
}

/// How many lines so many numbers take.
fn lines_of(count: u32) -> u32
    ensures { result ≡ line_count count }
{
    ((count as usize + (NUMBERS - 1)) / NUMBERS) as u32
}

/// Adds a number.
fn add(values: &mut Items<u32>, n: u32) -> Result<(), NoMemory>
    ensures { OnOk result (values.new ≡ values.old ++ n ∷ []) }
{
    values.push(n)?;
    Ok(())
}

/// So many numbers of a solution.
fn numbers<'a>(
    alloc: Global,
    at: Place<'a>,
    count: u32,
) -> Result<(Items<u32>, Place<'a>), ReportError>
    ensures ok { IfOk result (λ p. IsRead (AreNumbers count) numbers_text numbers_lines at.entry p.0 p.1) }
    ensures bad { IfErr result (IsErrorAt (IsBadNumber count) at.entry) }
{
    let mut values = Items::new(alloc);
    let mut rest = at.rest;
    for k in 0..count {
        let Some((n, left)) = number(rest, b"", end_of(k, count), 0, u32::MAX as u64) else {
            return Err(bad_line(at, k / (NUMBERS as u32) + 1));
        };
        add(&mut values, n as u32)?;
        rest = left;
    }
    Ok((values, behind(at, rest, lines_of(count))?))
}

/// The solution, with the line of how many numbers it has.
pub(crate) fn solution<'a>(
    alloc: Global,
    at: Place<'a>,
) -> Result<(Solution, Place<'a>), ReportError>
    ensures ok { IfOk result (λ p. IsSolutionRead at.entry p.0.values p.1) }
    ensures bad { IfErr result (IsErrorAt IsBadSolution at.entry) }
{
    let (count, at) = number_line(at, b"solution ", 0, u32::MAX as u64)?;
    let (values, at) = numbers(alloc, at, count as u32)?;
    Ok((Solution { values }, at))
}
