//! Reading a function.

ghost use Rattle.std.specs.Prelude.{◌≡◌, ◌+◌, ◌<◌, ◌^◌, ◌≤◌, ℕ, List, IfOk, IfErr, Some, None, length};
ghost use Rattle.std.specs.List.{position_or_len};
ghost use Rattle.un_faults.specs.Before.{before_of, name_of, names_of, labels_of};
ghost use Rattle.un_ir.specs.declared.function.TheConstants.{NAMES};
ghost use Rattle.un_reader.specs.declared.limits.TheConstants.{TEXT};
ghost use Rattle.un_reader.specs.Errors.{Tells};
ghost use Rattle.un_ir.specs.WellFormed.{IsWellFormed};
ghost use Rattle.un_reader.specs.Functions.{ArePartsOf};
ghost use Rattle.un_faults.specs.Named.{IsNamed};
ghost use Rattle.un_reader.specs.Read.{AreLinesOf, IsRead, IsTextFault};
ghost use Rattle.un_faults.specs.TextFaults.{is_block, shape_fault};

use crate::build::source_parts;
use crate::check::{check_lines, fault_of};
use crate::draft::Draft;
use crate::entry::has_live;
use crate::error::ReadError;
use crate::limits::TEXT;
use std::alloc::Global;
use un_base::name::Name;
use un_faults::before::Before;
use un_faults::fault::Fault;
use un_faults::names::Names;
use un_faults::text_fault::{is_block, shape_fault};
use un_ir::function::Function;
use un_words::line::Line;

/// The place of the first block line, or the count where there is none.
fn entry_place(lines: &[Line]) -> usize
    ensures place { result ≡ position_or_len is_block lines.now }
    ensures bound { result ≤ length lines.now }
{
    for (i, line) in lines.iter().enumerate() {
        if is_block(line) {
            return i;
        }
    }
    lines.len()
}

/// The parts of the function that lines with this name, these names and labels are, where their whole has no fault,
/// liveness left out.
fn named_parts(
    alloc: Global,
    lines: &[Line],
    name: Name,
    names: &Names,
    labels: &[Name],
) -> Result<Draft, ReadError>
    requires name { name_of lines.now ≡ Some name }
    requires names { names.now ≡ names_of lines.now }
    requires labels { labels.now ≡ labels_of lines.now }
    requires few_names { length names.now ≤ NAMES }
    requires few_labels { length labels.now ≤ TEXT }
    requires count { length lines.now ≤ TEXT }
    ensures good { IfOk result (λ d. shape_fault lines.now ≡ None) }
    ensures parts { IfOk result (λ d. ArePartsOf lines.now d.name d.params d.names d.blocks) }
    ensures bad { IfErr result (Tells (λ line fault. shape_fault lines.now ≡ Some (line, fault))) }
{
    if let Some((line, fault)) = shape_fault(lines, labels) {
        return Err(fault_of(line, fault));
    }
    match source_parts(alloc, name, names, labels, lines) {
        Ok(parts) => Ok(parts),
        Err(_) => Err(ReadError::NoMemory),
    }
}

/// The parts of the function that lines without a fault are, where their whole has none, liveness left out.
fn good_parts(alloc: Global, lines: &[Line], before: &Before) -> Result<Draft, ReadError>
    requires before { before.now ≡ before_of lines.now }
    requires few { length before.now.names ≤ NAMES }
    requires named { IsNamed before.now }
    requires count { length lines.now ≤ TEXT }
    requires labels { length before.now.labels ≤ TEXT }
    ensures good { IfOk result (λ d. shape_fault lines.now ≡ None) }
    ensures parts { IfOk result (λ d. ArePartsOf lines.now d.name d.params d.names d.blocks) }
    ensures bad { IfErr result (Tells (λ line fault. shape_fault lines.now ≡ Some (line, fault))) }
{
    match before.name {
        None => Err(fault_of(lines.len() + 1, Fault::NoBlock)),
        Some(name) => named_parts(alloc, lines, name, &before.names, before.labels.as_slice()),
    }
}

/// The function that has these parts.
fn whole(parts: Draft) -> Function
    requires { IsWellFormed parts.name parts.params parts.names parts.blocks }
    ensures name { result.name ≡ parts.name }
    ensures params { result.params ≡ parts.params }
    ensures names { result.names ≡ parts.names }
    ensures blocks { result.blocks ≡ parts.blocks }
{
    let Draft {
        name,
        params,
        names,
        blocks,
    } = parts;
    Function {
        name,
        params,
        names,
        blocks,
    }
}

/// The function with these parts of a text's lines, where no name is live at the start of the entry but parameters.
fn entered(alloc: Global, lines: &[Line], parts: Draft) -> Result<Function, ReadError>
    requires text { (text : List ℕ) × AreLinesOf text lines.now }
    requires count { length lines.now ≤ TEXT }
    requires good { shape_fault lines.now ≡ None }
    requires parts { ArePartsOf lines.now parts.name parts.params parts.names parts.blocks }
    ensures read { (text : List ℕ) → AreLinesOf text lines.now → IfOk result (IsRead text) }
    ensures fault { (text : List ℕ) → AreLinesOf text lines.now → IfErr result (Tells (IsTextFault text)) }
{
    if has_live(alloc, &parts)? {
        return Err(fault_of(entry_place(lines) + 1, Fault::LiveAtEntry));
    }
    Ok(whole(parts))
}

/// The function that the lines of a text are, none of which has a fault.
fn read_lines(alloc: Global, lines: &[Line], before: &Before) -> Result<Function, ReadError>
    requires text { (text : List ℕ) × AreLinesOf text lines.now }
    requires before { before.now ≡ before_of lines.now }
    requires count { length lines.now ≤ TEXT }
    ensures read { (text : List ℕ) → AreLinesOf text lines.now → IfOk result (IsRead text) }
    ensures fault { (text : List ℕ) → AreLinesOf text lines.now → IfErr result (Tells (IsTextFault text)) }
{
    match good_parts(alloc, lines, before) {
        Ok(parts) => entered(alloc, lines, parts),
        Err(error) => Err(error),
    }
}

/// The function that a text is.
///
/// # Errors
/// `TextFault` with the line and the code of the text's first fault where it is none, and `NoMemory` where there is no
/// memory for the function or for what is needed on the way.
pub fn read_function(alloc: Global, text: &[u8]) -> Result<Function, ReadError>
    ensures read { IfOk result (IsRead text.now) }
    ensures fault { IfErr result (Tells (IsTextFault text.now)) }
{
    if text.len() > TEXT {
        return Err(fault_of(0, Fault::TooMany));
    }
    match check_lines(alloc, text) {
        Ok(checked) => read_lines(alloc, checked.lines.as_slice(), &checked.before),
        Err(error) => Err(error),
    }
}
