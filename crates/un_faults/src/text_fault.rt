//! The faults of a whole text, none of whose lines has one.

ghost use Rattle.std.specs.Prelude.{◌≡◌, ◌+◌, ◌<◌, ◌^◌, ◌≤◌, IfSome, drop, length, Some, None};
ghost use Rattle.std.specs.List.{list_any, position};
ghost use Rattle.std.specs.Str.{bytes_eq};
ghost use Rattle.un_faults.specs.Before.{labels_of};
ghost use Rattle.un_faults.specs.Groups.{term_of};
ghost use Rattle.un_faults.specs.TextFaults.{is_block, last_block, ends_well, falls_off, target_of, target_on, jumps_outside};
ghost use Rattle.un_faults.specs.TextFaults.{is_entry, jumps_to_entry, value_on_term, value_on, first_value, returns_else, mixed_return};
ghost use Rattle.un_faults.specs.TextFaults.{does, first_there, shape_faults, shape_fault};

use crate::fault::Fault;
use crate::line_fault::has_label;
use un_base::name::Name;
use un_words::forms::is_text;
use un_words::line::{Line, TermLine};

/// Whether it is a block line.
pub fn is_block(line: &Line) -> bool
    ensures { result ≡ is_block line.now }
{
    matches!(line, Line::Block { .. })
}

/// The terminator of a block, by the lines behind its block line.
pub fn find_term(lines: &[Line]) -> Option<TermLine>
    ensures { result ≡ term_of lines.now }
{
    for line in lines {
        match line {
            Line::Terminator(term) => return Some(*term),
            Line::Block { .. } => return None,
            _ => {}
        }
    }
    None
}

/// The place of the last block line.
fn last_block(lines: &[Line]) -> Option<usize>
    ensures place { result ≡ last_block lines.now }
    ensures bound { IfSome result (λ k. k < length lines.now) }
{
    let mut last = None;
    for (i, line) in lines.iter().enumerate() {
        if is_block(line) {
            last = Some(i);
        }
    }
    last
}

/// Whether a block that ends so ends by a jump or a return.
fn ends_well(term: Option<TermLine>) -> bool
    ensures { result ≡ ends_well term }
{
    match term {
        None => false,
        Some(TermLine::Jump(_)) => true,
        Some(TermLine::Branch { .. }) => false,
        Some(TermLine::Ret(_)) => true,
    }
}

/// The place of the last block line, where the block does not end so.
fn falls_off(lines: &[Line]) -> Option<usize>
    ensures place { result ≡ falls_off lines.now }
    ensures bound { IfSome result (λ k. k < length lines.now) }
{
    let last = last_block(lines)?;
    if ends_well(find_term(&lines[last + 1..])) {
        None
    } else {
        Some(last)
    }
}

/// The label to which a line jumps.
fn target_on(line: &Line) -> Option<Name>
    ensures { result ≡ target_on line.now }
{
    match line {
        Line::Terminator(TermLine::Jump(to)) => Some(*to),
        Line::Terminator(TermLine::Branch { to, .. }) => Some(*to),
        _ => None,
    }
}

/// Whether the line jumps to none of the labels.
fn jumps_outside(labels: &[Name], line: &Line) -> bool
    ensures { result ≡ jumps_outside labels.now line.now }
{
    match target_on(line) {
        Some(to) => !has_label(labels, to),
        None => false,
    }
}

/// Whether it is the first label.
fn is_entry(labels: &[Name], to: Name) -> bool
    ensures { result ≡ is_entry labels.now to }
{
    match labels.first() {
        Some(entry) => is_text(to.as_bytes(), entry.as_bytes()),
        None => false,
    }
}

/// Whether the line jumps to the first of the labels.
fn jumps_to_entry(labels: &[Name], line: &Line) -> bool
    ensures { result ≡ jumps_to_entry labels.now line.now }
{
    match target_on(line) {
        Some(to) => is_entry(labels, to),
        None => false,
    }
}

/// Whether the line is a return, and then whether it has a value.
fn value_on(line: &Line) -> Option<bool>
    ensures { result ≡ value_on line.now }
{
    match line {
        Line::Terminator(TermLine::Ret(None)) => Some(false),
        Line::Terminator(TermLine::Ret(Some(_))) => Some(true),
        _ => None,
    }
}

/// Whether the first return has a value.
fn first_value(lines: &[Line]) -> Option<bool>
    ensures { result ≡ first_value lines.now }
{
    for line in lines {
        if let Some(valued) = value_on(line) {
            return Some(valued);
        }
    }
    None
}

/// Whether the line is a return of another form.
fn returns_else(valued: bool, line: &Line) -> bool
    ensures { result ≡ returns_else valued line.now }
{
    match value_on(line) {
        Some(other) => { if valued { !other } else { other } }
        None => false,
    }
}

/// What a line may do that only the whole text refuses: jump to no block, jump to the entry, or return in another form than this.
#[derive(Clone, Copy)]
pub enum Wrong {
    Outside,
    ToEntry,
    OtherReturn(bool),
}

/// Whether the line does it.
fn does(wrong: Wrong, labels: &[Name], line: &Line) -> bool
    ensures { result ≡ does wrong labels.now line.now }
{
    match wrong {
        Wrong::Outside => jumps_outside(labels, line),
        Wrong::ToEntry => jumps_to_entry(labels, line),
        Wrong::OtherReturn(valued) => returns_else(valued, line),
    }
}

/// The place of the first line that does it.
fn first_wrong(wrong: Wrong, labels: &[Name], lines: &[Line]) -> Option<usize>
    ensures place { result ≡ position (does wrong labels.now) lines.now }
    ensures bound { IfSome result (λ k. k < length lines.now) }
{
    for (i, line) in lines.iter().enumerate() {
        if does(wrong, labels, line) {
            return Some(i);
        }
    }
    None
}

/// The place of the first return of another form than the first return.
fn mixed_return(lines: &[Line]) -> Option<usize>
    ensures place { result ≡ mixed_return lines.now }
    ensures bound { IfSome result (λ k. k < length lines.now) }
{
    let valued = first_value(lines)?;
    first_wrong(Wrong::OtherReturn(valued), &[], lines)
}

/// The first fault of the jumps and returns of a text.
fn term_fault(lines: &[Line], labels: &[Name]) -> Option<(usize, Fault)>
    requires { labels.now ≡ labels_of lines.now }
    ensures fault { result ≡ first_there (drop 2 (shape_faults lines.now)) }
    ensures bound { IfSome result (λ f. f.0 ≤ length lines.now + 1) }
{
    if let Some(k) = first_wrong(Wrong::Outside, labels, lines) {
        return Some((k + 1, Fault::UnknownLabel));
    }
    if let Some(k) = first_wrong(Wrong::ToEntry, labels, lines) {
        return Some((k + 1, Fault::JumpToEntry));
    }
    let k = mixed_return(lines)?;
    Some((k + 1, Fault::MixedResult))
}

/// The first fault of a text with these lines and labels, with its line, liveness left out.
pub fn shape_fault(lines: &[Line], labels: &[Name]) -> Option<(usize, Fault)>
    requires { labels.now ≡ labels_of lines.now }
    ensures fault { result ≡ shape_fault lines.now }
    ensures bound { IfSome result (λ f. f.0 ≤ length lines.now + 1) }
{
    if labels.is_empty() {
        return Some((lines.len() + 1, Fault::NoBlock));
    }
    match falls_off(lines) {
        Some(k) => Some((k + 1, Fault::FallsOff)),
        None => term_fault(lines, labels),
    }
}
