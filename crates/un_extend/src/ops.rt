//! Operations with their copies.

ghost use Rattle.std.specs.Prelude.{◌≡◌, ◌+◌, ◌++◌, map, length, replicate, IfOk, OnOk};
ghost use Rattle.un_ir.specs.Extended.{is_return};
ghost use Rattle.un_ir.specs.ExtendOf.{new_temps, with_op, with_leave, with_enter, with_results, with_extended, with_all_extended};
ghost use Rattle.un_ir.specs.ExtendOf.{sorts_of, sort_of_name};
ghost use Rattle.un_ir.specs.declared.extended.ExtKind.{ExtKind};
ghost use Rattle.un_ir.specs.ExtendOf.{new_operands, with_operands, with_values};
ghost use Rattle.un_ir.specs.WellFormed.{result_kind};

use crate::copies::{add_op, push_frame_op, push_temps};
use crate::values::{push_operands, push_values};
use std::alloc::Global;
use un_base::ids::{NameId, TempId};
use un_base::memory_error::NoMemory;
use un_base::numbers::later;
use un_ir::extended::{ExtKind, ExtOp, Growth, Operand, Sort, name_kind};
use un_ir::function::{Kind, Term};
use un_isa::facts::result_space;
use un_isa::op::Op;
use un_isa::reg::Space;
use un_lists::items::Items;

/// Whether the terminator is a return.
pub fn is_return(term: Term) -> bool
    ensures { result ≡ is_return term }
{
    match term {
        Term::Ret(_) => true,
        _ => false,
    }
}

/// Adds Leave before a return.
fn push_leave(alloc: Global, g: &mut Growth, kind: &ExtKind) -> Result<(), NoMemory>
    ensures { OnOk result (g.new ≡ with_leave kind.now g.old) }
{
    match kind {
        ExtKind::End(term) => {
            if is_return(*term) {
                push_frame_op(alloc, g, ExtKind::Leave)
            } else {
                Ok(())
            }
        }
        _ => Ok(()),
    }
}

/// Adds Enter behind the first values of the entry.
fn push_enter(alloc: Global, g: &mut Growth, is_entry: bool, kind: &ExtKind) -> Result<(), NoMemory>
    ensures { OnOk result (g.new ≡ with_enter is_entry kind.now g.old) }
{
    match kind {
        ExtKind::In => {
            if is_entry {
                push_frame_op(alloc, g, ExtKind::Enter)
            } else {
                Ok(())
            }
        }
        _ => Ok(()),
    }
}

/// So many temporaries from the next one on.
fn new_temps(alloc: Global, g: &mut Growth, count: u32) -> Result<Items<TempId>, NoMemory>
    ensures temps { IfOk result (λ temps. temps ≡ new_temps g.old count) }
    ensures next { OnOk result (g.new ≡ record g.old { next = g.old.next + count }) }
{
    let mut temps = Items::new(alloc);
    push_temps(&mut temps, g.next, count)?;
    g.next = later(g.next, count)?;
    Ok(temps)
}

/// Adds an operation of a linear function with other operands and results.
fn push_op(
    g: &mut Growth,
    kind: &ExtKind,
    operands: Items<Operand>,
    results: Items<TempId>,
) -> Result<(), NoMemory>
    ensures { OnOk result (g.new ≡ with_op g.old (record { kind = kind.now; operands = operands; results = results })) }
{
    let kind = kind.clone()?;
    add_op(g, kind, operands, results)
}

/// A count of temporaries as a number.
fn number_of(count: usize) -> Result<u32, NoMemory>
    ensures { IfOk result (λ n. n ≡ count) }
{
    match u32::try_from(count) {
        Ok(n) => Ok(n),
        Err(_) => Err(NoMemory),
    }
}

/// Adds the same sort so many times.
fn push_same(sorts: &mut Items<Sort>, sort: Sort, count: usize) -> Result<(), NoMemory>
    ensures { OnOk result (sorts.new ≡ sorts.old ++ replicate count sort) }
{
    for k in 0..count {
        sorts.push(sort)?;
    }
    Ok(())
}

/// Adds the sorts of names, which all have copies.
fn push_name_sorts(
    sorts: &mut Items<Sort>,
    names: &[Kind],
    live_in: &[NameId],
) -> Result<(), NoMemory>
    ensures { OnOk result (sorts.new ≡ sorts.old ++ map (sort_of_name names.now) live_in.now) }
{
    for name in live_in {
        sorts.push(Sort {
            kind: name_kind(names, *name),
            copied: true,
        })?;
    }
    Ok(())
}

/// The kind of an operation's result.
fn result_kind(op: Op) -> Kind
    ensures { result ≡ result_kind op }
{
    match result_space(op) {
        Some(Space::P) => Kind::Pred,
        _ => Kind::General,
    }
}

/// Adds the sorts of the values at a block's start, where saved values have copies or not.
fn push_first_sorts(
    sorts: &mut Items<Sort>,
    names: &[Kind],
    live_in: &[NameId],
    saved: bool,
    count: usize,
) -> Result<(), NoMemory>
    ensures { OnOk result (sorts.new ≡ sorts.old ++ sorts_of names.now live_in.now saved ExtKind.In count) }
{
    push_name_sorts(sorts, names, live_in)?;
    let sort = Sort {
        kind: Kind::General,
        copied: saved,
    };
    push_same(sorts, sort, count.saturating_sub(live_in.len()))
}

/// Adds the sorts of the values that an operation defines, where saved values have copies or not.
fn push_sorts(
    sorts: &mut Items<Sort>,
    names: &[Kind],
    live_in: &[NameId],
    saved: bool,
    kind: &ExtKind,
    count: usize,
) -> Result<(), NoMemory>
    ensures { OnOk result (sorts.new ≡ sorts.old ++ sorts_of names.now live_in.now saved kind.now count) }
{
    match kind {
        ExtKind::In => push_first_sorts(sorts, names, live_in, saved, count),
        ExtKind::Body(o) => {
            let sort = Sort {
                kind: result_kind(o.op),
                copied: true,
            };
            push_same(sorts, sort, count)
        }
        _ => Ok(()),
    }
}

/// Adds an operation behind the copies of its operands, and answers the number of its first result.
fn push_itself(alloc: Global, g: &mut Growth, op: &ExtOp) -> Result<u32, NoMemory>
    ensures first { IfOk result (λ first. first ≡ (let read = with_operands op.now.operands g.old in read.next)) }
    ensures grown { OnOk result (g.new ≡ with_results op.now.kind (new_operands op.now.operands g.old) (length op.now.results)
        (with_operands op.now.operands g.old)) }
{
    let count = number_of(op.results.len())?;
    let mut operands = Items::new(alloc);
    push_operands(alloc, &mut operands, g, op.operands.as_slice())?;
    let first = g.next;
    let results = new_temps(alloc, g, count)?;
    push_op(g, &op.kind, operands, results)?;
    Ok(first)
}

/// Adds the values of an operation's results, the first of which is temporary `first`, each with its copies.
fn push_results(
    alloc: Global,
    g: &mut Growth,
    names: &[Kind],
    live_in: &[NameId],
    saved: bool,
    op: &ExtOp,
    first: u32,
) -> Result<(), NoMemory>
    ensures { OnOk result (g.new ≡ with_values first
        (sorts_of names.now live_in.now saved op.now.kind (length op.now.results)) g.old) }
{
    let count = op.results.len();
    let mut sorts = Items::new(alloc);
    push_sorts(&mut sorts, names, live_in, saved, &op.kind, count)?;
    push_values(alloc, g, first, sorts.as_slice())
}

/// Adds an operation with its copies: those of its operands, itself, those of its results.
fn push_extended(
    alloc: Global,
    g: &mut Growth,
    names: &[Kind],
    live_in: &[NameId],
    is_entry: bool,
    saved: bool,
    op: &ExtOp,
) -> Result<(), NoMemory>
    ensures { OnOk result (g.new ≡ with_extended names.now live_in.now is_entry saved op.now g.old) }
{
    push_leave(alloc, g, &op.kind)?;
    let first = push_itself(alloc, g, op)?;
    push_results(alloc, g, names, live_in, saved, op, first)?;
    push_enter(alloc, g, is_entry, &op.kind)
}

/// Adds operations with their copies.
pub(crate) fn push_all_extended(
    alloc: Global,
    g: &mut Growth,
    names: &[Kind],
    live_in: &[NameId],
    is_entry: bool,
    saved: bool,
    ops: &[ExtOp],
) -> Result<(), NoMemory>
    ensures { OnOk result (g.new ≡ with_all_extended names.now live_in.now is_entry saved ops.now g.old) }
{
    for op in ops {
        push_extended(alloc, g, names, live_in, is_entry, saved, op)?;
    }
    Ok(())
}
