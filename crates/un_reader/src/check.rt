//! The lines of a text, each checked against what stands before it.

ghost use Rattle.std.specs.Prelude.{◌≡◌, ◌+◌, ◌<◌, ◌≤◌, ◌^◌, ◌++◌, ◌∷◌, [], OnOk, IfOk, IfErr, Some, None, length};
ghost use Rattle.un_faults.specs.Before.{before_of};
ghost use Rattle.un_faults.specs.Codes.{code_of};
ghost use Rattle.un_reader.specs.declared.limits.TheConstants.{TEXT};
ghost use Rattle.un_reader.specs.Errors.{Tells};
ghost use Rattle.un_words.specs.Tokens.{tokens_of};
ghost use Rattle.un_words.specs.Shapes.{shape_of, line_of};
ghost use Rattle.un_faults.specs.LineFaults.{line_fault};
ghost use Rattle.un_reader.specs.Lines.{HasNoLineFault, IsFirstLineFault, shapes_in};
ghost use Rattle.un_words.specs.Pieces.{lines_in};

use crate::error::ReadError;
use std::alloc::Global;
use un_base::memory_error::NoMemory;
use un_faults::before::Before;
use un_faults::fault::Fault;
use un_faults::line_fault::{are_plain, shaped_fault};
use un_lists::items::Items;
use un_words::line::Line;
use un_words::pieces::{content, first_len};
use un_words::shape::read_line;
use un_words::words::tokens;

/// The fault of a line, which is counted from 1.
pub(crate) fn fault_of(line: usize, fault: Fault) -> ReadError
    requires { line < 2 ^ 32 }
    ensures { result ≡ ReadError.TextFault line (code_of fault) }
{
    ReadError::TextFault {
        line: line as u32,
        code: fault.code(),
    }
}

/// The line that the bytes are, where they have a shape.
fn shape(alloc: Global, bytes: &[u8]) -> Result<Option<Line>, NoMemory>
    ensures { IfOk result (λ line. line ≡ shape_of (tokens_of bytes.now)) }
{
    let words = tokens(alloc, bytes)?;
    read_line(alloc, words.as_slice())
}

/// The line at a place, where it has no fault.
fn good_line(alloc: Global, before: &Before, bytes: &[u8], place: usize) -> Result<Line, ReadError>
    requires { place < TEXT }
    ensures good { IfOk result (λ line. line_fault before.now bytes.now ≡ None) }
    ensures line { IfOk result (λ line. line ≡ line_of bytes.now) }
    ensures bad { IfErr result (Tells (λ l fault. (l ≡ place + 1) × (line_fault before.now bytes.now ≡ Some fault))) }
{
    if !are_plain(bytes) {
        return Err(fault_of(place + 1, Fault::BadByte));
    }
    match shape(alloc, bytes)? {
        None => Err(fault_of(place + 1, Fault::BadLine)),
        Some(line) => match shaped_fault(alloc, before, &line)? {
            None => Ok(line),
            Some(fault) => Err(fault_of(place + 1, fault)),
        },
    }
}

/// A text whose lines have no fault.
#[derive(Drop)]
pub struct Checked {
    /// Its lines, in order.
    pub lines: Items<Line>,
    /// What would stand before a line behind them.
    pub before: Before,
}

/// Reads one line more.
#[tactic(auto, using(un_faults::proofs::BeforeLaws::before_of_push, un_faults::proofs::BeforeLaws::few_ops))]
fn add_line(alloc: Global, checked: &mut Checked, bytes: &[u8]) -> Result<(), ReadError>
    requires before { checked.old.before ≡ before_of checked.old.lines }
    requires count { length checked.old.lines < TEXT }
    ensures good { OnOk result (line_fault checked.old.before bytes.now ≡ None) }
    ensures lines { OnOk result (checked.new.lines ≡ checked.old.lines ++ line_of bytes.now ∷ []) }
    ensures before { OnOk result (checked.new.before ≡ before_of checked.new.lines) }
    ensures bad { IfErr result (Tells (λ l fault. (l ≡ length checked.old.lines + 1)
        × (line_fault checked.old.before bytes.now ≡ Some fault))) }
{
    let line = good_line(alloc, &checked.before, bytes, checked.lines.len())?;
    checked.before.note(&line)?;
    checked.lines.push(line)?;
    Ok(())
}

/// Reads the lines of a text, of which none has been read.
fn add_lines(alloc: Global, checked: &mut Checked, text: &[u8]) -> Result<(), ReadError>
    requires lines { checked.old.lines ≡ [] }
    requires before { checked.old.before ≡ before_of [] }
    requires count { length text.now ≤ TEXT }
    ensures good { OnOk result (HasNoLineFault (lines_in text.now)) }
    ensures lines { OnOk result (checked.new.lines ≡ shapes_in text.now) }
    ensures before { OnOk result (checked.new.before ≡ before_of checked.new.lines) }
    ensures count { OnOk result (length checked.new.lines ≤ length text.now) }
    ensures bad { IfErr result (Tells (IsFirstLineFault (lines_in text.now))) }
{
    let mut rest = text;
    while !rest.is_empty() {
        let len = first_len(rest);
        add_line(alloc, checked, content(&rest[..len]))?;
        rest = &rest[len..];
    }
    Ok(())
}

/// The lines of a text by their shapes, one for each, where none has a fault, or else the first fault.
pub fn check_lines(alloc: Global, text: &[u8]) -> Result<Checked, ReadError>
    requires { length text.now ≤ TEXT }
    ensures good { IfOk result (λ checked. HasNoLineFault (lines_in text.now)) }
    ensures lines { IfOk result (λ checked. checked.lines ≡ shapes_in text.now) }
    ensures before { IfOk result (λ checked. checked.before ≡ before_of checked.lines) }
    ensures count { IfOk result (λ checked. length checked.lines ≤ length text.now) }
    ensures bad { IfErr result (Tells (IsFirstLineFault (lines_in text.now))) }
{
    let mut checked = Checked {
        lines: Items::new(alloc),
        before: Before::new(alloc),
    };
    match add_lines(alloc, &mut checked, text) {
        Ok(_) => Ok(checked),
        Err(error) => Err(error),
    }
}
