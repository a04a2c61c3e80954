//! The operations of a block with those of a draft among them.

ghost use Rattle.std.specs.Prelude.{◌≡◌, ◌++◌, All, IfOk, OnOk, length, max};
ghost use Rattle.un_length.specs.Places.{Leads};
ghost use Rattle.un_rows.specs.Drafts.{owed_task, owed_tasks, past_all, drafted_ops, is_within, within, drafted_arcs};

use crate::draft::{Draft, Owed};
use crate::known::Known;
use std::alloc::{AllocError, Global};
use un_base::ids::VarId;
use un_base::memory_error::NoMemory;
use un_base::numbers::later;
use un_isa::table::Table;
use un_length::block::{Block, Precedence, Task};
use un_lists::items::Items;
use un_model::instructions::needs;

/// The later of two numbers.
pub(crate) fn later_of(a: u32, b: u32) -> u32
    ensures { result ≡ max a b }
{
    a.max(b)
}

/// Adds operations.
fn add_tasks(ops: &mut Items<Task>, more: &[Task]) -> Result<(), AllocError>
    ensures { OnOk result (ops.new ≡ ops.old ++ more.now) }
{
    for task in more {
        ops.push(*task)?;
    }
    Ok(())
}

/// One of a draft, with this number for its variable.
fn owed_task(t: &Table, v: u32, one: Owed) -> Task
    ensures { result ≡ owed_task t.now v one }
{
    Task {
        at: VarId(v),
        head: one.head,
        tail: one.tail,
        needs: needs(t, Some(one.op)),
    }
}

/// Adds those of a draft, with numbers from `first` on.
fn add_owed(ops: &mut Items<Task>, t: &Table, first: u32, owed: &[Owed]) -> Result<(), NoMemory>
    ensures { OnOk result (ops.new ≡ ops.old ++ owed_tasks t.now first owed.now) }
{
    let mut v = first;
    for one in owed {
        ops.push(owed_task(t, v, *one))?;
        v = later(v, 1)?;
    }
    Ok(())
}

/// The first number from which on no operation has one for its variable.
fn past_all(ops: &[Task]) -> Result<u32, NoMemory>
    ensures { IfOk result (λ n. n ≡ past_all ops.now) }
{
    let mut past = 0;
    for task in ops {
        let next = later(task.at.0, 1)?;
        past = later_of(past, next);
    }
    Ok(past)
}

/// The operations with those of a draft behind them.
fn drafted_ops(alloc: Global, t: &Table, ops: &[Task], d: &Draft) -> Result<Items<Task>, NoMemory>
    ensures { IfOk result (λ all. all ≡ drafted_ops t.now ops.now d.now) }
{
    let first = past_all(ops)?;
    let mut all = Items::new(alloc);
    add_tasks(&mut all, ops)?;
    add_owed(&mut all, t, first, d.owed.as_slice())?;
    Ok(all)
}

/// Whether both places of a precedence are among the first `count`.
fn is_within(count: usize, arc: Precedence) -> bool
    ensures { result ≡ is_within count arc }
{
    (arc.from as usize) < count && (arc.to as usize) < count
}

/// Adds those precedences of which both places are.
fn add_within(
    arcs: &mut Items<Precedence>,
    count: usize,
    more: &[Precedence],
) -> Result<(), AllocError>
    ensures { OnOk result (arcs.new ≡ arcs.old ++ within count more.now) }
{
    for arc in more {
        if is_within(count, *arc) {
            arcs.push(*arc)?;
        }
    }
    Ok(())
}

/// Those of a block and of a draft.
fn drafted_arcs(
    alloc: Global,
    count: usize,
    known: &[Precedence],
    d: &Draft,
) -> Result<Items<Precedence>, AllocError>
    ensures is { IfOk result (λ arcs. arcs ≡ drafted_arcs count known.now d.now) }
    ensures lead { IfOk result (All (Leads count)) }
{
    let mut arcs = Items::new(alloc);
    add_within(&mut arcs, count, d.front.as_slice())?;
    add_within(&mut arcs, count, known)?;
    add_within(&mut arcs, count, d.back.as_slice())?;
    Ok(arcs)
}

/// The operations of a block with those of a draft, and their precedences.
pub(crate) fn drafted(alloc: Global, t: &Table, known: &Known, d: &Draft) -> Result<Block, NoMemory>
    ensures ops { IfOk result (λ b. b.ops ≡ drafted_ops t.now known.now.ops d.now) }
    ensures arcs { IfOk result (λ b. b.arcs
        ≡ drafted_arcs (length (drafted_ops t.now known.now.ops d.now)) known.now.arcs d.now) }
    ensures horizon { IfOk result (λ b. b.horizon ≡ known.now.horizon) }
{
    let ops = drafted_ops(alloc, t, known.ops.as_slice(), d)?;
    let arcs = drafted_arcs(alloc, ops.len(), known.arcs.as_slice(), d)?;
    Ok(Block {
        ops,
        arcs,
        end: known.end,
        horizon: known.horizon,
    })
}
