//! The names of a line that have no number yet.

ghost use Rattle.std.specs.Prelude.{◌≡◌, ◌++◌, IfOk, OnOk};
ghost use Rattle.std.specs.List.{list_any};
ghost use Rattle.un_faults.specs.Before.{same_name, add_name, numbered};
ghost use Rattle.un_words.specs.LineNames.{names_on};

use crate::before::same_name;
use crate::names::Names;
use std::alloc::Global;
use un_base::memory_error::NoMemory;
use un_base::name::Name;
use un_ir::function::Kind;
use un_lists::items::Items;
use un_words::line::{Line, OpLine, TermLine};

/// Whether the name is in the list.
fn has_name(names: &[(Name, Kind)], name: &(Name, Kind)) -> bool
    ensures { result ≡ list_any (same_name name.now) names.now }
{
    for other in names {
        if same_name(name, other) {
            return true;
        }
    }
    false
}

/// Puts the name to the new ones, where it is neither known nor among them.
fn push_new(
    known: &Names,
    new: &mut Items<(Name, Kind)>,
    name: &(Name, Kind),
) -> Result<(), NoMemory>
    ensures { OnOk result (known.now ++ new.new ≡ add_name (known.now ++ new.old) name.now) }
{
    if known.has(name) {
        return Ok(());
    }
    if has_name(new.as_slice(), name) {
        return Ok(());
    }
    new.push(*name)?;
    Ok(())
}

/// The same for each name of a list.
fn push_all(
    known: &Names,
    new: &mut Items<(Name, Kind)>,
    names: &[(Name, Kind)],
) -> Result<(), NoMemory>
    ensures { OnOk result (known.now ++ new.new ≡ numbered (known.now ++ new.old) names.now) }
{
    for name in names {
        push_new(known, new, name)?;
    }
    Ok(())
}

/// The same for an operation's names: first its result's.
fn push_op(known: &Names, new: &mut Items<(Name, Kind)>, o: &OpLine) -> Result<(), NoMemory>
    ensures { OnOk result
        (known.now ++ new.new ≡ numbered (known.now ++ new.old) (names_on (Line.Operation o.now))) }
{
    if let Some(dst) = &o.dst {
        push_new(known, new, dst)?;
    }
    push_all(known, new, o.srcs.as_slice())
}

/// The same for a line's names.
fn push_line(known: &Names, new: &mut Items<(Name, Kind)>, line: &Line) -> Result<(), NoMemory>
    ensures { OnOk result (known.now ++ new.new ≡ numbered (known.now ++ new.old) (names_on line.now)) }
{
    match line {
        Line::Func { params, .. } => push_all(known, new, params.as_slice()),
        Line::Operation(o) => push_op(known, new, o),
        Line::Terminator(TermLine::Branch { pred, .. }) => push_new(known, new, pred),
        Line::Terminator(TermLine::Ret(Some(name))) => push_new(known, new, name),
        _ => Ok(()),
    }
}

/// The names of the line that are not known, each once, from left to right.
pub(crate) fn new_names(
    alloc: Global,
    known: &Names,
    line: &Line,
) -> Result<Items<(Name, Kind)>, NoMemory>
    ensures { IfOk result (λ new. known.now ++ new ≡ numbered known.now (names_on line.now)) }
{
    let mut new = Items::new(alloc);
    push_line(known, &mut new, line)?;
    Ok(new)
}
