//! What stands before a line.

ghost use Rattle.std.specs.Prelude.{◌≡◌, ◌+◌, ◌^◌, ◌<◌, ◌++◌, OnOk, length, [], false, if◌then◌else◌};
ghost use Rattle.std.specs.List.{list_any, fold};
ghost use Rattle.un_faults.specs.Before.{same_kind, same_name, add_name, numbered, before_of, label_on, name_on, is_operation, ended_after};
ghost use Rattle.un_words.specs.LineNames.{names_on};
ghost use Rattle.std.specs.Option.{option_to_list, option_or};
ghost use Rattle.un_faults.specs.Noted.{noted};

use crate::names::Names;
use std::alloc::Global;
use un_base::memory_error::NoMemory;
use un_base::name::Name;
use un_ir::function::Kind;
use un_lists::items::Items;
use un_words::forms::is_text;
use un_words::line::{Line, OpLine, TermLine};

/// What stands before a line.
#[derive(Drop)]
pub struct Before {
    /// The name on the `func` line; None before that line.
    pub name: Option<Name>,
    /// The labels of the block lines, in order.
    pub labels: Items<Name>,
    /// The names of values, in the order of their first appearance.
    pub names: Names,
    /// How many operations there are, terminators not counted.
    pub ops: usize,
    /// Whether a terminator has ended the last block: false behind its block line, and before any block.
    pub ended: bool,
}

/// Whether two kinds are the same.
pub fn same_kind(a: Kind, b: Kind) -> bool
    ensures { result ≡ same_kind a b }
{
    match a {
        Kind::General => matches!(b, Kind::General),
        Kind::Pred => matches!(b, Kind::Pred),
    }
}

/// Whether two names are the same, in the same space.
pub fn same_name(a: &(Name, Kind), b: &(Name, Kind)) -> bool
    ensures { result ≡ same_name a.now b.now }
{
    is_text(a.0.as_bytes(), b.0.as_bytes()) && same_kind(a.1, b.1)
}

/// Gives each name of the list that has none a number, in their order.
fn add_names(names: &mut Names, more: &[(Name, Kind)]) -> Result<(), NoMemory>
    ensures { OnOk result (names.new ≡ numbered names.old more.now) }
{
    for name in more {
        names.add(name)?;
    }
    Ok(())
}

/// The same for an operation's names: first its result's.
fn add_op(names: &mut Names, o: &OpLine) -> Result<(), NoMemory>
    ensures { OnOk result (names.new ≡ numbered names.old (names_on (Line.Operation o.now))) }
{
    if let Some(dst) = &o.dst {
        names.add(dst)?;
    }
    add_names(names, o.srcs.as_slice())
}

/// The same for a line's names.
fn add_line(names: &mut Names, line: &Line) -> Result<(), NoMemory>
    ensures { OnOk result (names.new ≡ numbered names.old (names_on line.now)) }
{
    match line {
        Line::Func { params, .. } => add_names(names, params.as_slice()),
        Line::Operation(o) => add_op(names, o),
        Line::Terminator(TermLine::Branch { pred, .. }) => names.add(pred),
        Line::Terminator(TermLine::Ret(Some(name))) => names.add(name),
        _ => Ok(()),
    }
}

/// The name on a `func` line.
fn name_on(line: &Line) -> Option<Name>
    ensures { result ≡ name_on line.now }
{
    match line {
        Line::Func { name, .. } => Some(*name),
        _ => None,
    }
}

/// Whether a terminator has ended the last block behind the line.
fn ended_after(ended: bool, line: &Line) -> bool
    ensures { result ≡ ended_after ended line.now }
{
    match line {
        Line::Terminator(_) => true,
        Line::Block { .. } => false,
        _ => ended,
    }
}

/// The number of operations behind the line.
fn ops_after(ops: usize, line: &Line) -> usize
    requires { ops < 2 ^ 32 }
    ensures { result ≡ ops + (if is_operation line.now then 1 else 0) }
{
    match line {
        Line::Operation(_) => ops + 1,
        _ => ops,
    }
}

/// The labels, and that of a block line.
fn add_label(labels: &mut Items<Name>, line: &Line) -> Result<(), NoMemory>
    ensures { OnOk result (labels.new ≡ labels.old ++ option_to_list (label_on line.now)) }
{
    if let Line::Block { label, .. } = line {
        labels.push(*label)?;
    }
    Ok(())
}

impl Before {
    /// What stands before the first line.
    pub fn new(alloc: Global) -> Before
        ensures { result ≡ before_of [] }
    {
        Before {
            name: None,
            labels: Items::new(alloc),
            names: Names::new(alloc),
            ops: 0,
            ended: false,
        }
    }

    /// Goes one line on.
    ///
    /// # Errors
    /// `NoMemory` where there is no memory for the line's names or label. Then no more is said of the value.
    pub fn note(&mut self, line: &Line) -> Result<(), NoMemory>
        requires { self.old.ops < 2 ^ 32 }
        ensures { OnOk result (self.new ≡ noted self.old line.now) }
    {
        add_line(&mut self.names, line)?;
        add_label(&mut self.labels, line)?;
        self.name = self.name.or(name_on(line));
        self.ops = ops_after(self.ops, line);
        self.ended = ended_after(self.ended, line);
        Ok(())
    }
}
