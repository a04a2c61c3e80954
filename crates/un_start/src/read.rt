//! Starts from texts.

ghost use Rattle.std.specs.Prelude.{◌≡◌, ◌+◌, ℕ, List, [], MatchOption, IfOk, IfErr, OnOk};
ghost use Rattle.un_start.specs.declared.line.Line.{Line};
ghost use Rattle.un_start.specs.Drafts.{count_in, ending, IsDraftOf, IsTaken, IsReadTo};
ghost use Rattle.un_start.specs.Lines.{lines_text};
ghost use Rattle.un_start.specs.StartTexts.{AreStart, BeginsNoNext, IsStartText, IsFirstBad, IsErrorOf, IsReadBack};

use crate::draft::Draft;
use crate::line::{Line, first_line};
use std::alloc::Global;
use un_base::memory_error::NoMemory;
use un_isa::start::Start;

/// Why there is no start: there was no memory, or a line is bad, counted from 1.
#[derive(Clone, Copy)]
pub enum StartError {
    NoMemory,
    BadStart { line: u32 },
}

impl From<NoMemory> for StartError {
    ghost use Rattle.std.specs.Prelude.{◌≡◌};
    ghost use Rattle.un_start.specs.declared.read.StartError.TheVariants.{NoMemory};

    ghost from_gives = { λ _ error. error ≡ NoMemory };

    fn from(_error: NoMemory) -> StartError {
        StartError::NoMemory
    }
}

/// Takes the first line of a text to those so far, where it may stand behind them, and answers what stands behind it.
fn take_line<'a>(
    alloc: Global,
    draft: &mut Draft,
    text: &'a [u8],
) -> Result<Option<&'a [u8]>, NoMemory>
    ensures { IfOk result (λ rest. (ls : List Line) → IsDraftOf draft.old ls →
        MatchOption rest (BeginsNoNext ls text.now × IsDraftOf draft.new ls) (λ r. IsTaken ls text.now r.now draft.new)) }
{
    let Some((line, rest)) = first_line(text) else {
        return Ok(None);
    };
    if !draft.takes(line) {
        return Ok(None);
    }
    draft.add(alloc, line)?;
    Ok(Some(rest))
}

/// Takes lines of a text up to the first that may not stand where it stands, and answers the text from there on.
fn take_lines<'a>(alloc: Global, draft: &mut Draft, text: &'a [u8]) -> Result<&'a [u8], NoMemory>
    requires { IsDraftOf draft.old [] }
    ensures { IfOk result (λ rest. IsReadTo text.now rest.now draft.new) }
{
    let mut left = text;
    'lines: loop {
        match take_line(alloc, draft, left)? {
            Some(rest) => left = rest,
            None => return Ok(left),
        }
    }
}

/// The answer where the line behind so many is bad. A number that is too large for a line is answered as want of memory.
fn refusal(count: u32) -> StartError
    ensures { (text : List ℕ) → IsFirstBad text (count + 1) → IsErrorOf text result }
{
    match count.checked_add(1) {
        Some(line) => StartError::BadStart { line },
        None => StartError::NoMemory,
    }
}

/// The number of blocks that a line tells.
fn count_in(last: Option<Line>) -> Option<u32>
    ensures { result ≡ count_in last }
{
    match last {
        Some(Line::Blocks(count)) => Some(count),
        _ => None,
    }
}

/// The number of blocks that the last line tells, where no text is left behind it.
fn ending(last: Option<Line>, rest: &[u8]) -> Option<u32>
    ensures { result ≡ ending last rest.now }
{
    if rest.is_empty() {
        count_in(last)
    } else {
        None
    }
}

/// The start whose text this is, with the number of blocks that may be entered. Its lines are `reg R N`, `mem ADDRESS WORD`, then for each
/// call `reply N`, `set ADDRESS WORD` and `junk R N`, and last `blocks N`.
///
/// # Errors
/// `BadStart` with the first line outside the grammar, from 1, the one behind the last where lines are missing; `NoMemory` where there is
/// no memory for the start.
pub fn read_start(alloc: Global, text: &[u8]) -> Result<(Start, u32), StartError>
    ensures ok { IfOk result (λ read. IsStartText text.now read.0 read.1) }
    ensures bad { IfErr result (IsErrorOf text.now) }
    ensures whole { (ls : List Line) (n : ℕ) → AreStart ls n → text.now ≡ lines_text ls → IsReadBack ls n result }
{
    let mut draft = Draft::new(alloc);
    let rest = take_lines(alloc, &mut draft, text)?;
    match ending(draft.last, rest) {
        Some(count) => Ok((draft.into_start(), count)),
        None => Err(refusal(draft.count)),
    }
}
