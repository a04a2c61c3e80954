//! The precedences among the operations of a block that every solution issues.

ghost use Rattle.std.specs.Prelude.{◌≡◌, ℕ, ◌+◌, ◌<◌, ◌++◌, ◌||◌, Bool, Option, Some, map, length, IfOk, OnOk, slice_index_or};
ghost use Rattle.std.specs.Option.{option_to_list};
ghost use Rattle.un_ir.specs.Kinds.{is_mandatory};
ghost use Rattle.un_model.specs.Arcs.{own_instr, value_read, defines, reads_from, data_gap, memory_gap, larger, largest_gap};
ghost use Rattle.un_model.specs.Arcs.{arc, arcs_between, arcs_into, block_arcs, blocks_arcs};

use crate::distances::memory_distance;
use crate::instructions::{gap, instruction};
use crate::model::{Arc, TempVars};
use crate::placement::chosen;
use std::alloc::Global;
use un_base::ids::OpId;
use un_base::memory_error::NoMemory;
use un_base::numbers::advance;
use un_ir::extended::{Ext, ExtOp, Operand};
use un_isa::table::Table;
use un_lists::items::Items;

/// The larger of two gaps.
fn larger(a: Option<u32>, b: Option<u32>) -> Option<u32>
    ensures { result ≡ larger a b }
{
    match a {
        None => b,
        Some(x) => match b {
            None => Some(x),
            Some(y) => Some(x.max(y)),
        },
    }
}

/// How long after `from` the operation `to` issues by data, which reads what that defines or does not.
fn data_gap(t: &Table, reads: bool, from: &ExtOp, to: &ExtOp) -> Option<u32>
    ensures { result ≡ data_gap t.now reads from.now to.now }
{
    if reads {
        Some(gap(t, instruction(&from.kind, 0), instruction(&to.kind, 0)))
    } else {
        None
    }
}

/// How long after `from` the operation `to` issues, which reads what that defines or does not.
fn largest_gap(t: &Table, reads: bool, from: &ExtOp, to: &ExtOp) -> Option<u32>
    ensures { result ≡ largest_gap t.now reads from.now to.now }
{
    if !from.kind.is_mandatory() || !to.kind.is_mandatory() {
        return None;
    }
    let by_memory = memory_distance(instruction(&from.kind, 0), instruction(&to.kind, 0));
    larger(data_gap(t, reads, from, to), by_memory)
}

/// Marks the operation that defines what an operand reads, where it is one of those from number `first` on.
fn mark(marks: &mut Vec<bool>, temps: &[TempVars], first: u32, operand: &Operand)
    ensures length { length marks.new.items ≡ length marks.old.items }
    ensures marked { (k : ℕ) (d : Bool) → k < length marks.old.items → slice_index_or marks.new.items k d
        ≡ (slice_index_or marks.old.items k d || defines temps.now (first + k) (value_read operand.now)) }
{
    let Some(temp) = temps.get(chosen(&operand.alts, 0).0 as usize) else {
        return;
    };
    if temp.op.0 >= first {
        let k = (temp.op.0 - first) as usize;
        if k < marks.len() {
            marks[k] = true;
        }
    }
}

/// Which of `count` operations, from number `first` on, define what an operation reads.
fn definers(
    alloc: Global,
    temps: &[TempVars],
    first: u32,
    count: usize,
    op: &ExtOp,
) -> Result<Vec<bool>, NoMemory>
    ensures length { IfOk result (λ marks. length marks.items ≡ count) }
    ensures marked { IfOk result (λ marks. (k : ℕ) (d : Bool) → k < count
        → slice_index_or marks.items k d ≡ reads_from temps.now (first + k) op.now) }
{
    let mut marks = vec![in alloc; false; count]?;
    for j in 0..op.operands.len() {
        mark(&mut marks, temps, first, op.operands.get(j));
    }
    Ok(marks)
}

/// The arc from operation `n` to operation `m`, where a precedence relates them.
fn push_between(arcs: &mut Items<Arc>, n: u32, m: u32, gap: Option<u32>) -> Result<(), NoMemory>
    ensures { OnOk result (arcs.new ≡ arcs.old ++ map (arc n m) (option_to_list gap)) }
{
    if let Some(cycles) = gap {
        arcs.push(Arc {
            from: OpId(n),
            to: OpId(m),
            gap: cycles,
        })?;
    }
    Ok(())
}

/// The arcs to operation `m` from those before it, of which the marked ones define what it reads.
fn push_marked(
    arcs: &mut Items<Arc>,
    t: &Table,
    marks: &[bool],
    temps: &[TempVars],
    first: u32,
    before: &[ExtOp],
    m: u32,
    to: &ExtOp,
) -> Result<(), NoMemory>
    requires length { length marks.now ≡ length before.now }
    requires marked { (k : ℕ) (d : Bool) → k < length before.now
        → slice_index_or marks.now k d ≡ reads_from temps.now (first + k) to.now }
    ensures { OnOk result (arcs.new ≡ arcs.old ++ arcs_into t.now temps.now first before.now m to.now) }
{
    let _ = temps;
    let mut n = first;
    for k in 0..before.len() {
        push_between(arcs, n, m, largest_gap(t, marks[k], &before[k], to))?;
        n = advance(n, 1)?;
    }
    Ok(())
}

/// The arcs to operation `m` from those before it in its block.
fn push_into(
    alloc: Global,
    arcs: &mut Items<Arc>,
    t: &Table,
    temps: &[TempVars],
    first: u32,
    before: &[ExtOp],
    m: u32,
    to: &ExtOp,
) -> Result<(), NoMemory>
    ensures { OnOk result (arcs.new ≡ arcs.old ++ arcs_into t.now temps.now first before.now m to.now) }
{
    if !to.kind.is_mandatory() {
        return Ok(());
    }
    let marks = definers(alloc, temps, first, before.len(), to)?;
    push_marked(arcs, t, marks.as_slice(), temps, first, before, m, to)
}

/// The arcs of a block, of which the first operation has the number `first`.
fn block_arcs(
    alloc: Global,
    t: &Table,
    temps: &[TempVars],
    first: u32,
    ops: &[ExtOp],
) -> Result<Items<Arc>, NoMemory>
    ensures { IfOk result (λ arcs. arcs ≡ block_arcs t.now temps.now first ops.now) }
{
    let mut arcs = Items::new(alloc);
    let mut m = first;
    for i in 0..ops.len() {
        push_into(alloc, &mut arcs, t, temps, first, &ops[..i], m, &ops[i])?;
        m = advance(m, 1)?;
    }
    Ok(arcs)
}

/// The arcs of each block.
pub(crate) fn arcs(
    alloc: Global,
    e: &Ext,
    temps: &[TempVars],
) -> Result<Items<Items<Arc>>, NoMemory>
    ensures { IfOk result (λ arcs. arcs ≡ blocks_arcs e.now.table temps.now 0 e.now.blocks) }
{
    let mut arcs = Items::new(alloc);
    let mut n = 0;
    for k in 0..e.blocks.len() {
        let ops = e.blocks.get(k).ops.as_slice();
        let more = block_arcs(alloc, &e.table, temps, n, ops)?;
        arcs.push(more)?;
        n = advance(n, ops.len())?;
    }
    Ok(arcs)
}
