//! How a solution is read as a schedule.

ghost use Rattle.std.specs.Prelude.{◌≡◌, ◌==◌, ℕ, ◌+◌, ◌-◌, ◌<◌, ◌≤◌, List, [], ◌∷◌, ◌++◌, length, IfOk, OnOk, OnErr, max, map};
ghost use Rattle.std.specs.Prelude.{slice_index, slice_get};
ghost use Rattle.std.specs.List.{list_all};
ghost use Rattle.un_model.specs.Cost.{value_of};
ghost use Rattle.un_model.specs.Schedules.{HasLastReads};
ghost use Rattle.un_model.specs.Pairs.{places_from, pairs_from, joined, over_blocks};
ghost use Rattle.un_ir.specs.Kinds.{is_delimiter, is_frame_op};
ghost use Rattle.un_model.specs.Schedules.{value_by, instr_of, cycle_by, cycle_of, is_active, is_zero, issue_of};
ghost use Rattle.un_model.specs.Schedules.{block_issues, issues_of, chosen, choice_of, read_of, op_reads, reads_at, block_reads, reads_of};
ghost use Rattle.un_model.specs.Schedules.{last_read, cycle_for, range_by, range_of, ranges_of, schedule_of};

use crate::cost::value;
use crate::instructions::instruction;
use crate::model::{BlockVars, Model, OpVars, Solution, TempVars};
use crate::schedule::{Issue, LiveRange, Read, Schedule};
use std::alloc::Global;
use un_base::ids::{BlockId, OpId, TempId, VarId};
use un_base::memory_error::NoMemory;
use un_base::numbers::{advance, number};
use un_ir::extended::{ExtBlock, ExtKind, ExtOp, Operand};
use un_isa::op::Op;
use un_lists::items::Items;

/// The value of a variable that not every operation has, 0 where there is none.
pub fn optional_value(values: &[u32], v: Option<VarId>) -> u32
    ensures { result ≡ value_by values.now v }
{
    match v {
        None => 0,
        Some(var) => value(values, var),
    }
}

/// The cycle of an operation in a block with this end.
pub fn cycle(values: &[u32], end: u32, kind: &ExtKind, vars: &OpVars) -> u32
    ensures { result ≡ cycle_by values.now end kind.now vars.now }
{
    match kind {
        ExtKind::In => 0,
        ExtKind::Out => end,
        _ => optional_value(values, vars.cycle),
    }
}

/// Whether a variable is 0.
fn is_variable_zero(values: &[u32], v: VarId) -> bool
    ensures { result ≡ (value_of values.now v == 0) }
{
    value(values, v) == 0
}

/// Whether these variables are 0.
fn are_zero(values: &[u32], vars: &[VarId]) -> bool
    ensures { result ≡ list_all (λ v. value_of values.now v == 0) vars.now }
{
    vars.iter().all(|v| is_variable_zero(values, *v))
}

/// Whether the cycle and the choices of an operation are 0.
fn is_zero(values: &[u32], vars: &OpVars) -> bool
    ensures { result ≡ is_zero values.now vars.now }
{
    optional_value(values, vars.cycle) == 0 && are_zero(values, vars.choices.as_slice())
}

/// The instruction that an operation issues.
fn issued(values: &[u32], op: &ExtOp, vars: &OpVars) -> Option<Op>
    ensures { result ≡ instr_of values.now op.now vars.now }
{
    instruction(&op.kind, optional_value(values, vars.instr))
}

/// Operation `n` as the values issue it, in block `b`, which has this end.
fn issue(values: &[u32], b: u32, end: u32, n: u32, op: &ExtOp, vars: &OpVars) -> Issue
    ensures { result ≡ issue_of values.now b end n op.now vars.now }
{
    let instr = issued(values, op, vars);
    Issue {
        block: BlockId(b),
        op: OpId(n),
        instr,
        active: op.kind.is_delimiter() || instr.is_some(),
        frame: op.kind.is_frame_op(),
        zero: is_zero(values, vars),
        cycle: cycle(values, end, &op.kind, vars),
        end,
    }
}

/// The temporary at place `c` of the alternatives.
pub(crate) fn chosen(alts: &Items<TempId>, c: u32) -> TempId
    ensures { result ≡ chosen alts.now c }
{
    alts.as_slice()
        .get(c as usize)
        .copied()
        .unwrap_or(TempId(0))
}

/// The temporary that the operand at place `j` chooses.
pub fn choice(values: &[u32], vars: &OpVars, j: usize, operand: &Operand) -> TempId
    ensures { result ≡ choice_of values.now vars.now j operand.now }
{
    let var = vars.choices.as_slice().get(j).copied();
    chosen(&operand.alts, optional_value(values, var))
}

/// The operand at place `j` of an operation that issues so.
fn read(values: &[u32], i: &Issue, vars: &OpVars, j: usize, number: u32, operand: &Operand) -> Read
    requires { number ≡ j }
    ensures { result ≡ read_of values.now i.now vars.now j operand.now }
{
    Read {
        block: i.block,
        user: i.op,
        instr: i.instr,
        operand: number,
        temp: choice(values, vars, j, operand),
        cycle: i.cycle,
        home: operand.home,
    }
}

/// What the operands of an operation that issues so read, after the reads so far.
fn push_operands(
    reads: &mut Items<Read>,
    values: &[u32],
    i: &Issue,
    op: &ExtOp,
    vars: &OpVars,
) -> Result<(), NoMemory>
    ensures { OnOk result
        (reads.new ≡ reads.old ++ places_from (read_of values.now i.now vars.now) 0 op.now.operands) }
{
    for j in 0..op.operands.len() {
        let place = number(j)?;
        reads.push(read(values, i, vars, j, place, op.operands.get(j)))?;
    }
    Ok(())
}

/// What an operation that issues so reads, after the reads so far.
fn push_reads(
    reads: &mut Items<Read>,
    values: &[u32],
    i: &Issue,
    op: &ExtOp,
    vars: &OpVars,
) -> Result<(), NoMemory>
    ensures { OnOk result (reads.new ≡ reads.old ++ op_reads values.now i.now op.now vars.now) }
{
    if i.active {
        push_operands(reads, values, i, op, vars)?;
    }
    Ok(())
}

/// The operations of block `b` as the values issue them, of which the first has the number `first`, and what they read, after
/// those so far.
fn push_block(
    issues: &mut Items<Issue>,
    reads: &mut Items<Read>,
    values: &[u32],
    b: u32,
    first: u32,
    block: &ExtBlock,
    vars: &BlockVars,
) -> Result<(), NoMemory>
    ensures issues { OnOk result
        (issues.new ≡ issues.old ++ block_issues values.now b first block.now vars.now) }
    ensures reads { OnOk result
        (reads.new ≡ reads.old ++ block_reads values.now b first block.now vars.now) }
{
    let end = value(values, vars.end);
    let mut n = first;
    for k in 0..block.ops.len().min(vars.ops.len()) {
        let op = block.ops.get(k);
        let op_vars = vars.ops.get(k);
        let i = issue(values, b, end, n, op, op_vars);
        push_reads(reads, values, &i, op, op_vars)?;
        issues.push(i)?;
        n = advance(n, 1)?;
    }
    Ok(())
}

/// The operations as the values issue them, and what they read.
fn push_blocks(
    issues: &mut Items<Issue>,
    reads: &mut Items<Read>,
    m: &Model,
    values: &[u32],
) -> Result<(), NoMemory>
    ensures issues { OnOk result (issues.new ≡ issues.old ++ issues_of m.now values.now) }
    ensures reads { OnOk result (reads.new ≡ reads.old ++ reads_of m.now values.now) }
{
    let mut n = 0;
    for k in 0..m.ext.blocks.len().min(m.blocks.len()) {
        let b = number(k)?;
        let block = m.ext.blocks.get(k);
        push_block(issues, reads, values, b, n, block, m.blocks.get(k))?;
        n = advance(n, block.ops.len())?;
    }
    Ok(())
}

/// The largest cycle of the users of each temporary, 0 where it has none.
fn last_reads(alloc: Global, reads: &[Read], n: usize) -> Result<Vec<u32>, NoMemory>
    ensures { IfOk result (λ lasts. HasLastReads reads.now n lasts.items) }
{
    let mut lasts = vec![in alloc; 0; n]?;
    for r in reads {
        let t = r.temp.0 as usize;
        if t < n {
            lasts[t] = lasts[t].max(r.cycle);
        }
    }
    Ok(lasts)
}

/// The live range of a temporary that is read last in this cycle.
fn range(values: &[u32], issues: &[Issue], t: &TempVars, last: u32) -> LiveRange
    ensures { result ≡ range_by values.now t.now last (slice_get issues.now t.now.op.0) }
{
    let reg = value(values, t.reg);
    match issues.get(t.op.0 as usize) {
        None => LiveRange {
            block: BlockId(0),
            op: t.op,
            instr: None,
            active: false,
            reg,
            from: 0,
            last: 0,
        },
        Some(definer) => LiveRange {
            block: definer.block,
            op: t.op,
            instr: definer.instr,
            active: definer.active,
            reg,
            from: definer.cycle,
            last: definer.cycle.max(last.saturating_sub(1)),
        },
    }
}

/// The live ranges of all temporaries.
fn ranges(
    alloc: Global,
    values: &[u32],
    issues: &[Issue],
    reads: &[Read],
    temps: &Items<TempVars>,
) -> Result<Items<LiveRange>, NoMemory>
    ensures { IfOk result (λ ranges. ranges ≡ ranges_of values.now issues.now reads.now temps.now) }
{
    let lasts = last_reads(alloc, reads, temps.len())?;
    let mut ranges = Items::new(alloc);
    for k in 0..temps.len() {
        ranges.push(range(values, issues, temps.get(k), lasts[k]))?;
    }
    Ok(ranges)
}

/// A solution of a model as a schedule.
pub fn schedule(alloc: Global, m: &Model, s: &Solution) -> Result<Schedule, NoMemory>
    ensures { IfOk result (λ t. t ≡ schedule_of m.now s.now.values) }
{
    let values = s.values.as_slice();
    let mut issues = Items::new(alloc);
    let mut reads = Items::new(alloc);
    push_blocks(&mut issues, &mut reads, m, values)?;
    let ranges = ranges(alloc, values, issues.as_slice(), reads.as_slice(), &m.temps)?;
    Ok(Schedule {
        issues,
        reads,
        ranges,
    })
}
