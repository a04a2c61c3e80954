//! The faults of one line, given what stands before it.

ghost use Rattle.std.specs.Prelude.{◌≡◌, ◌==◌, ◌&&◌, ◌||◌, not, [], IfOk, length, drop};
ghost use Rattle.std.specs.List.{list_any, list_all, zip};
ghost use Rattle.un_ir.specs.WellFormed.{kind_in};
ghost use Rattle.std.specs.Str.{bytes_eq};
ghost use Rattle.un_faults.specs.LineFaults.{is_plain_byte, has_repeat, is_misplaced, is_predicate, misfits, operands_clash};
ghost use Rattle.un_faults.specs.LineFaults.{result_clashes, term_clashes, has_clash, is_over_limit, has_too_many};
ghost use Rattle.un_faults.specs.LineFaults.{is_wide, freq_fits, has_bad_freq, repeats_label};
ghost use Rattle.un_faults.specs.LineFaults.{is_body, is_before_block, is_after_end, first_of, faults_on, line_fault};
ghost use Rattle.un_words.specs.Shapes.{line_of};

use crate::before::{Before, same_kind};
use crate::fault::Fault;
use crate::literal::literal_fits;
use crate::names::Names;
use crate::new_names::new_names;
use std::alloc::Global;
use un_base::memory_error::NoMemory;
use un_base::name::Name;
use un_ir::function::{BLOCKS, FREQUENCY, Kind, NAMES, OPS, PARAMS};
use un_isa::does::is_call;
use un_isa::facts::{operand_spaces, result_space};
use un_isa::op::Op;
use un_isa::reg::Space;
use un_words::forms::is_text;
use un_words::line::{Line, OpLine, TermLine};
use un_words::token::Number;

/// Whether it is a tab, or a byte from a space to a tilde.
fn is_plain_byte(b: u8) -> bool
    ensures { result ≡ is_plain_byte b }
{
    b == b'\t' || (32 <= b && b <= 126)
}

/// Whether each byte is a tab, or stands from a space to a tilde.
pub fn are_plain(bytes: &[u8]) -> bool
    ensures { result ≡ list_all is_plain_byte bytes.now }
{
    for b in bytes {
        if !is_plain_byte(*b) {
            return false;
        }
    }
    true
}

/// Whether a name stands in the list twice, where none has been seen yet.
fn sees_repeat(seen: &mut Names, names: &[(Name, Kind)]) -> Result<bool, NoMemory>
    requires { seen.old ≡ [] }
    ensures { IfOk result (λ repeats. repeats ≡ has_repeat names.now) }
{
    for name in names {
        if seen.has(name) {
            return Ok(true);
        }
        seen.add(name)?;
    }
    Ok(false)
}

/// Whether a name stands in the list twice.
fn has_repeat(alloc: Global, names: &[(Name, Kind)]) -> Result<bool, NoMemory>
    ensures { IfOk result (λ repeats. repeats ≡ has_repeat names.now) }
{
    let mut seen = Names::new(alloc);
    sees_repeat(&mut seen, names)
}

/// Whether a `func` line is not the first or repeats a parameter, or another line is the first.
fn is_misplaced(alloc: Global, before: &Before, line: &Line) -> Result<bool, NoMemory>
    ensures { IfOk result (λ misplaced. misplaced ≡ is_misplaced before.now line.now) }
{
    match line {
        Line::Blank => Ok(false),
        Line::Func { params, .. } => {
            if before.name.is_some() {
                Ok(true)
            } else {
                has_repeat(alloc, params.as_slice())
            }
        }
        _ => Ok(before.name.is_none()),
    }
}

/// Whether the name is that of a predicate.
fn is_predicate(name: &(Name, Kind)) -> bool
    ensures { result ≡ is_predicate name.now }
{
    same_kind(Kind::Pred, name.1)
}

/// Whether one of the names is that of a predicate.
fn has_predicate(names: &[(Name, Kind)]) -> bool
    ensures { result ≡ list_any is_predicate names.now }
{
    for name in names {
        if is_predicate(name) {
            return true;
        }
    }
    false
}

/// The kind of the names that stand in a space.
fn kind_in(space: Space) -> Kind
    ensures { result ≡ kind_in space }
{
    match space {
        Space::R => Kind::General,
        Space::P => Kind::Pred,
        Space::M => Kind::General,
    }
}

/// Whether the name is not of the kind of this space.
fn misfits(space: Space, name: &(Name, Kind)) -> bool
    ensures { result ≡ misfits space name.now }
{
    !same_kind(kind_in(space), name.1)
}

/// Whether an operand is not of the kind of its space.
fn any_misfits(spaces: &[Space], srcs: &[(Name, Kind)]) -> bool
    ensures { result ≡ list_any (λ p. misfits p.0 p.1) (zip spaces.now srcs.now) }
{
    spaces.iter().zip(srcs).any(|(s, n)| misfits(*s, n))
}

/// Whether an operand is not of the kind of its place. A call takes words.
fn operands_clash(op: Op, srcs: &[(Name, Kind)]) -> bool
    ensures { result ≡ operands_clash op srcs.now }
{
    if is_call(op) {
        has_predicate(srcs)
    } else {
        any_misfits(operand_spaces(op), srcs)
    }
}

/// Whether the result is not of the operation's kind.
fn result_clashes(op: Op, dst: &Option<(Name, Kind)>) -> bool
    ensures { result ≡ result_clashes op dst.now }
{
    match dst {
        None => false,
        Some(name) => match result_space(op) {
            None => false,
            Some(space) => misfits(space, name),
        },
    }
}

/// Whether a terminator's name is not of the kind of its place.
fn term_clashes(term: &TermLine) -> bool
    ensures { result ≡ term_clashes term.now }
{
    match term {
        TermLine::Jump(_) => false,
        TermLine::Branch { pred, .. } => !is_predicate(pred),
        TermLine::Ret(None) => false,
        TermLine::Ret(Some(name)) => is_predicate(name),
    }
}

/// Whether a name of the line is not of the kind of its place.
fn has_clash(line: &Line) -> bool
    ensures { result ≡ has_clash line.now }
{
    match line {
        Line::Blank => false,
        Line::Func { params, .. } => has_predicate(params.as_slice()),
        Line::Block { .. } => false,
        Line::Operation(o) => result_clashes(o.op, &o.dst)
            || operands_clash(o.op, o.srcs.as_slice()),
        Line::Terminator(term) => term_clashes(term),
    }
}

/// Whether there are more parameters, arguments, blocks or operations than there may be.
fn is_over_limit(before: &Before, line: &Line) -> bool
    ensures { result ≡ is_over_limit before.now line.now }
{
    match line {
        Line::Func { params, .. } => (PARAMS as usize) < params.len(),
        Line::Block { .. } => (BLOCKS as usize) <= before.labels.len(),
        Line::Operation(o) => (PARAMS as usize) < o.srcs.len() || (OPS as usize) <= before.ops,
        _ => false,
    }
}

/// Whether there are more parameters, arguments, blocks, operations or names than there may be.
fn has_too_many(alloc: Global, before: &Before, line: &Line) -> Result<bool, NoMemory>
    ensures { IfOk result (λ many. many ≡ has_too_many before.now line.now) }
{
    if is_over_limit(before, line) {
        return Ok(true);
    }
    let new = new_names(alloc, &before.names, line)?;
    Ok((NAMES as usize) < before.names.len() + new.len())
}

/// Whether the line's literal is outside the range of its operation.
fn is_wide(line: &Line) -> bool
    ensures { result ≡ is_wide line.now }
{
    match line {
        Line::Operation(o) => !literal_fits(o.op, o.imm),
        _ => false,
    }
}

/// Whether the number is a frequency.
fn freq_fits(n: Number) -> bool
    ensures { result ≡ freq_fits n }
{
    !n.negative && 1 <= n.size && n.size <= FREQUENCY
}

/// Whether a block line's frequency is none.
fn has_bad_freq(line: &Line) -> bool
    ensures { result ≡ has_bad_freq line.now }
{
    match line {
        Line::Block { freq, .. } => !freq_fits(*freq),
        _ => false,
    }
}

/// Whether the label is among these.
pub fn has_label(labels: &[Name], label: Name) -> bool
    ensures { result ≡ list_any (bytes_eq label) labels.now }
{
    for other in labels {
        if is_text(label.as_bytes(), other.as_bytes()) {
            return true;
        }
    }
    false
}

/// Whether a block line's label stands on an earlier one.
fn repeats_label(before: &Before, line: &Line) -> bool
    ensures { result ≡ repeats_label before.now line.now }
{
    match line {
        Line::Block { label, .. } => has_label(before.labels.as_slice(), *label),
        _ => false,
    }
}

/// Whether the line is an operation or a terminator.
fn is_body(line: &Line) -> bool
    ensures { result ≡ is_body line.now }
{
    match line {
        Line::Operation(_) => true,
        Line::Terminator(_) => true,
        _ => false,
    }
}

/// Whether the line is an operation or a terminator and stands before the first block line.
fn is_before_block(before: &Before, line: &Line) -> bool
    ensures { result ≡ is_before_block before.now line.now }
{
    is_body(line) && before.labels.len() == 0
}

/// Whether the line is an operation or a terminator and stands behind its block's terminator.
fn is_after_end(before: &Before, line: &Line) -> bool
    ensures { result ≡ is_after_end before.now line.now }
{
    is_body(line) && before.ended
}

/// The first fault of a line with a shape.
pub fn shaped_fault(alloc: Global, before: &Before, line: &Line) -> Result<Option<Fault>, NoMemory>
    ensures { IfOk result (λ fault. fault ≡ first_of (faults_on before.now line.now)) }
{
    let fault = if is_misplaced(alloc, before, line)? {
        Some(Fault::BadLine)
    } else if has_clash(line) {
        Some(Fault::KindClash)
    } else if has_too_many(alloc, before, line)? {
        Some(Fault::TooMany)
    } else {
        late_fault(before, line)
    };
    Ok(fault)
}

/// The first of the faults that are looked for last.
fn late_fault(before: &Before, line: &Line) -> Option<Fault>
    ensures { result ≡ first_of (drop 3 (faults_on before.now line.now)) }
{
    if is_wide(line) {
        Some(Fault::WideLiteral)
    } else if has_bad_freq(line) {
        Some(Fault::BadFreq)
    } else if repeats_label(before, line) {
        Some(Fault::DupLabel)
    } else if is_before_block(before, line) {
        Some(Fault::NoBlock)
    } else if is_after_end(before, line) {
        Some(Fault::AfterEnd)
    } else {
        None
    }
}
