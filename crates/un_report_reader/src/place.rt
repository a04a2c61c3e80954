//! A place in a text: what is left of it, and how many lines stand before.

ghost use Rattle.std.specs.Prelude.{◌≡◌, ◌+◌, ◌<◌, ◌^◌, IfOk, IfErr};
ghost use Rattle.un_report_reader.specs.declared.error.ReportError.TheVariants as Error;
ghost use Rattle.un_report_reader.specs.Errors.{Names};

use crate::error::ReportError;
use un_base::numbers::later;

/// What is left of a text, and how many lines stand before it.
#[derive(Clone, Copy)]
pub struct Place<'a> {
    pub rest: &'a [u8],
    pub lines: u32,
}

/// The place so many lines later, where this is left.
pub fn behind<'a>(at: Place<'a>, rest: &'a [u8], lines: u32) -> Result<Place<'a>, ReportError>
    ensures rest { IfOk result (λ next. next.rest.now ≡ rest.now) }
    ensures lines { IfOk result (λ next. next.lines ≡ at.entry.lines + lines) }
    ensures err { IfErr result (λ e. e ≡ Error.NoMemory) }
{
    let lines = later(at.lines, lines)?;
    Ok(Place { rest, lines })
}

/// The answer where a line is bad, counted from a place. A number that is too large for a line is answered as want of memory.
pub fn bad_line(at: Place, line: u32) -> ReportError
    ensures bad { Names (at.entry.lines + line) result }
    ensures exact { at.entry.lines + line < 2 ^ 32 → result ≡ Error.BadReport (at.entry.lines + line) }
{
    match at.lines.checked_add(line) {
        Some(line) => ReportError::BadReport { line },
        None => ReportError::NoMemory,
    }
}
