//! The values of the solution that spills every name, operation by operation.

ghost use Rattle.std.specs.Prelude.{◌≡◌, All, ◌<◌, ℕ, ◌+◌, ◌++◌, [], ◌∷◌, if◌then◌else◌, replicate, map, drop, true};
ghost use Rattle.std.specs.Prelude.{MatchOption, length, slice_get, slice_index, IfOk, OnOk};
ghost use Rattle.un_base.specs.declared.ids.TempId.{TempId};
ghost use Rattle.un_isa.specs.Registers.{saved_registers};
ghost use Rattle.un_isa.specs.declared.op.Op.TheVariants.{Jumpr};
ghost use Rattle.un_isa.specs.Tables.{latency_of};
ghost use Rattle.un_baseline.specs.declared.plan.Definer.TheVariants.{Start, Other};
ghost use Rattle.un_baseline.specs.declared.plan.TheConstants.{PREDICATE};
ghost use Rattle.un_ir.specs.declared.extended.ExtKind.TheVariants.{In, Out, Body, End, Copy, Enter, Leave};
ghost use Rattle.un_ir.specs.declared.function.Term.{Term};
ghost use Rattle.un_model.specs.Congruences.{KeepsCongruences};
ghost use Rattle.un_model.specs.Instructions.{gives_truth};
ghost use Rattle.un_model.specs.Pairs.{places_from};
ghost use Rattle.un_model.specs.Schedules.{schedule_of};
ghost use Rattle.un_model.specs.Solutions.{IsSolution};
ghost use Rattle.un_model.specs.Cost.{cost_of, value_of};
ghost use Rattle.un_model.specs.Variables.{chosen_operands};
ghost use Rattle.un_baseline.specs.RoomyOptions.{IsOfFunction, IsSpillable};
ghost use Rattle.un_baseline.specs.SpilledCost.{spill_cost};
ghost use Rattle.un_baseline.specs.Plans.{step_values, steps_values, block_values, blocks_values};
ghost use Rattle.un_baseline.specs.SpillEverywhere.{purpose_of_end, purpose_of_out, purpose_of, purpose_at, start_register, leave_cycle};
ghost use Rattle.un_baseline.specs.SpillEverywhere.{end_cycle, copies_of, handed_place, out_place, operand_place, step_of, assigning};
ghost use Rattle.un_baseline.specs.SpillEverywhere.{other_progress, after_end, progress_of, steps_of, progress_after, first_number};
ghost use Rattle.un_baseline.specs.SpillEverywhere.{setting_of, first_cycle, first_progress, block_end, block_plan, block_plans};
ghost use Rattle.un_baseline.specs.SpillEverywhere.{spilled_values};

use crate::copies::{after_copy, copy_move, is_placed, last_place, name_at, result_wait, slot_of};
use crate::plan::{Definer, Move, PREDICATE, Progress, Purpose, Setting};
use std::alloc::Global;
use un_base::ids::{NameId, TempId};
use un_base::memory_error::NoMemory;
use un_base::numbers::{later, number};
use un_ir::extended::{Ext, ExtBlock, ExtKind, ExtOp, NodeCopy, Operand, name_kind};
use un_ir::function::{Kind, SrcOp, Term};
use un_isa::op::Op;
use un_isa::reg::FIRST_SLOT;
use un_isa::reg_set::saved_registers;
use un_isa::table::{Table, latency};
use un_lists::items::Items;
use un_model::model::{Model, Solution};
use un_model::{ends, instructions};

/// The value of the frame flag where there is a frame.
const FRAME_FLAG: u32 = 1;

/// What the copies before a terminator are for.
fn purpose_of_end(term: Term) -> Purpose
    ensures { result ≡ purpose_of_end term }
{
    match term {
        Term::Ret(_) => Purpose::Link,
        _ => Purpose::Operands,
    }
}

/// What the copies before the end of a block are for that ends so.
fn purpose_of_out(term: Term) -> Purpose
    ensures { result ≡ purpose_of_out term }
{
    match term {
        Term::Ret(Some(_)) => Purpose::Returned,
        _ => Purpose::Unread,
    }
}

/// What the copies of operands before an operation are for, in a block that ends so and where those before what follows the
/// operation are for `following`.
fn purpose_of(term: Term, kind: &ExtKind, following: Purpose) -> Purpose
    ensures { result ≡ purpose_of term kind.now following }
{
    match kind {
        ExtKind::Copy(_) => following,
        ExtKind::Body(_) => Purpose::Operands,
        ExtKind::End(last) => purpose_of_end(*last),
        ExtKind::Out => purpose_of_out(term),
        _ => Purpose::Unread,
    }
}

/// What the copies of operands are for that stand first among the operations of a block from place `k` on.
fn purpose_at(term: Term, ops: &Items<ExtOp>, k: usize) -> Purpose
    ensures { result ≡ purpose_at term (drop k ops.now) }
{
    for i in k..ops.len() {
        let op = ops.get(i);
        if !op.kind.is_copy() {
            return purpose_of(term, &op.kind, Purpose::Unread);
        }
    }
    Purpose::Unread
}

/// The same, where it is known already within a row of copies.
fn purpose_in_row(
    in_row: bool,
    purpose: Purpose,
    term: Term,
    ops: &Items<ExtOp>,
    k: usize,
) -> Purpose
    requires { in_row ≡ true → purpose ≡ purpose_at term (drop k ops.now) }
    ensures { result ≡ purpose_at term (drop k ops.now) }
{
    if in_row {
        purpose
    } else {
        purpose_at(term, ops, k)
    }
}

/// The value `n` so many times, after the values so far.
fn push_same(values: &mut Items<u32>, count: usize, n: u32) -> Result<(), NoMemory>
    ensures { OnOk result (values.new ≡ values.old ++ replicate count n) }
{
    for i in 0..count {
        values.push(n)?;
    }
    Ok(())
}

/// The place of the last alternative of each operand, after the values so far.
fn push_last_places(values: &mut Items<u32>, operands: &[Operand]) -> Result<(), NoMemory>
    ensures { OnOk result (values.new ≡ values.old ++ map operand_place operands.now) }
{
    for x in operands {
        values.push(last_place(x.alts.as_slice())?)?;
    }
    Ok(())
}

/// The register of the value at place `j` of a block's start, which has this name or none. `saved` are the registers whose
/// values at a function's entry are wanted at its return.
fn start_register(
    t: &Table,
    saved: &[u32],
    s: &Setting,
    live_in: &Items<NameId>,
    j: usize,
    name: Option<NameId>,
) -> Result<u32, NoMemory>
    requires { saved.now ≡ saved_registers t.now }
    ensures { IfOk result (λ r. r ≡ start_register t.now s.now live_in.now j name) }
{
    match name {
        Some(n) => {
            if s.is_entry {
                Ok(u32::from(t.args.get(n.0 as usize).copied().unwrap_or(0)))
            } else {
                slot_of(n)
            }
        }
        None => {
            let place = j.saturating_sub(live_in.len());
            let register = saved.get(place).copied().unwrap_or(0);
            let is_link = later(number(j)?, 1)? == s.values;
            if s.is_entry || !is_link {
                Ok(register)
            } else {
                Ok(s.link)
            }
        }
    }
}

/// The registers of the values at a block's start, after the values so far.
fn push_starts(
    values: &mut Items<u32>,
    t: &Table,
    saved: &[u32],
    s: &Setting,
    live_in: &Items<NameId>,
    results: &Items<TempId>,
) -> Result<(), NoMemory>
    requires { saved.now ≡ saved_registers t.now }
    ensures { OnOk result
        (values.new ≡ values.old ++ places_from (λ (j : ℕ) (x : TempId). start_register t.now s.now live_in.now j (slice_get live_in.now j))
        0 results.now) }
{
    for j in 0..results.len() {
        let _x = results.get(j);
        let name = name_at(live_in, j);
        values.push(start_register(t, saved, s, live_in, j, name)?)?;
    }
    Ok(())
}

/// How many copies keep a value of a name of this kind.
fn copies_of(kind: Kind) -> u32
    ensures { result ≡ copies_of kind }
{
    match kind {
        Kind::General => 1,
        Kind::Pred => 2,
    }
}

/// The place of the alternative that the operand at place `j` of a block's end chooses, which reads this name or none, where
/// the block has `count` such operands.
fn handed_place(
    names: &Items<Kind>,
    s: &Setting,
    count: usize,
    j: usize,
    x: &Operand,
    name: Option<NameId>,
) -> Result<u32, NoMemory>
    requires { j < count }
    ensures { IfOk result (λ place. place ≡ handed_place names.now s.now count j x.now name) }
{
    if is_placed(s, x.alts.as_slice()) {
        return Ok(0);
    }
    match name {
        Some(n) => Ok(copies_of(name_kind(names.as_slice(), n))),
        None => { if j + 1 == count { Ok(1) } else { Ok(0) } }
    }
}

/// The place of the alternative that the operand at place `j` of the end of a block chooses, which has `count` of them.
fn out_place(
    names: &Items<Kind>,
    live_out: &Items<NameId>,
    s: &Setting,
    count: usize,
    j: usize,
    x: &Operand,
) -> Result<u32, NoMemory>
    requires { j < count }
    ensures { IfOk result (λ place. place ≡ out_place names.now live_out.now s.now count s.now.term j x.now) }
{
    match s.term {
        Term::Ret(Some(_)) => {
            if j == 0 {
                last_place(x.alts.as_slice())
            } else {
                Ok(0)
            }
        }
        Term::Ret(None) => Ok(0),
        _ => {
            let name = name_at(live_out, j);
            handed_place(names, s, count, j, x, name)
        }
    }
}

/// The choices of the operands of a block's end, after the values so far.
fn push_outs(
    values: &mut Items<u32>,
    names: &Items<Kind>,
    live_out: &Items<NameId>,
    s: &Setting,
    operands: &Items<Operand>,
) -> Result<(), NoMemory>
    ensures { OnOk result
        (values.new ≡ values.old ++ places_from (out_place names.now live_out.now s.now (length operands.now) s.now.term) 0 operands.now) }
{
    let count = operands.len();
    for j in 0..count {
        values.push(out_place(names, live_out, s, count, j, operands.get(j))?)?;
    }
    Ok(())
}

/// The cycle of a return's Leave.
fn leave_cycle(t: &Table, term: Term, now: u32) -> Result<u32, NoMemory>
    ensures { IfOk result (λ cycle. cycle ≡ leave_cycle t.now term now) }
{
    later(later(now, result_wait(t, term))?, latency(t, Op::Reload))
}

/// The cycle of a terminator.
fn end_cycle(t: &Table, term: Term, now: u32) -> Result<u32, NoMemory>
    ensures { IfOk result (λ cycle. cycle ≡ end_cycle t.now term now) }
{
    match term {
        Term::Ret(_) => later(leave_cycle(t, term, now)?, latency(t, Op::Leave)),
        _ => Ok(now),
    }
}

/// The next cycle after a terminator.
fn after_end(t: &Table, term: Term, now: u32) -> Result<u32, NoMemory>
    ensures { IfOk result (λ next. next ≡ after_end t.now term now) }
{
    match term {
        Term::Ret(_) => Ok(now),
        _ => later(now, instructions::latency(t, instructions::transfer(term))),
    }
}

/// The end of a block whose plan has come to the cycle `now`.
fn block_end(t: &Table, term: Term, now: u32) -> Result<u32, NoMemory>
    ensures { IfOk result (λ end. end ≡ block_end t.now term now) }
{
    match term {
        Term::Ret(_) => later(end_cycle(t, term, now)?, latency(t, Op::Jumpr)),
        _ => Ok(now),
    }
}

/// The values of a copy that does this, after the values so far.
fn push_copy(values: &mut Items<u32>, op: &ExtOp, node: NodeCopy, m: &Move) -> Result<(), NoMemory>
    requires { op.now.kind ≡ Copy node }
    ensures { OnOk result
        (values.new ≡ values.old ++ step_values op.now (record {
          instr = m.now.instr;
          cycle = m.now.cycle;
          choices =
              replicate (length (chosen_operands op.now)) m.now.place;
          registers = replicate (length op.now.results) m.now.register;
        })) }
{
    values.push(m.instr)?;
    values.push(m.cycle)?;
    match node {
        NodeCopy::D => {}
        _ => push_same(values, op.operands.len(), m.place)?,
    }
    push_same(values, op.results.len(), m.register)?;
    Ok(())
}

/// The values of an operation in the cycle `now` whose operands choose their last alternatives and whose results have this
/// register, after the values so far.
fn push_mandatory(
    values: &mut Items<u32>,
    op: &ExtOp,
    now: u32,
    register: u32,
) -> Result<(), NoMemory>
    ensures { OnOk result
        (values.new ≡ values.old ++ now ∷ (map operand_place op.now.operands ++ replicate (length op.now.results) register)) }
{
    values.push(now)?;
    push_last_places(values, op.operands.as_slice())?;
    push_same(values, op.results.len(), register)?;
    Ok(())
}

/// The values of Enter or Leave in the cycle `now`, after the values so far.
fn push_frame(values: &mut Items<u32>, op: &ExtOp, now: u32) -> Result<(), NoMemory>
    ensures { OnOk result
        (values.new ≡ values.old ++ 1 ∷ now ∷ (replicate (length op.now.operands) 0 ++ replicate (length op.now.results) 0)) }
{
    values.push(1)?;
    values.push(now)?;
    push_same(values, op.operands.len(), 0)?;
    push_same(values, op.results.len(), 0)?;
    Ok(())
}

/// The progress behind an operation that is no copy.
fn other_progress(cycle: u32, definer: Definer) -> Progress
    ensures { result ≡ other_progress cycle definer }
{
    Progress {
        cycle,
        values: 0,
        operands: 0,
        definer,
    }
}

/// What defines the value whose copies come after an operation that assigns this name.
fn assigning(name: Option<NameId>) -> Definer
    ensures { result ≡ assigning name }
{
    match name {
        None => Definer::Other,
        Some(n) => Definer::Assigns(n),
    }
}

/// The register of an operation's result: r0, or p0 of a truth value.
fn result_register(op: Op) -> u32
    ensures { result ≡ (if gives_truth op then PREDICATE else 0) }
{
    if instructions::gives_truth(op) {
        PREDICATE
    } else {
        0
    }
}

/// The values of a copy, after the values so far, and the progress behind it.
fn plan_copy(
    values: &mut Items<u32>,
    e: &Ext,
    block: &ExtBlock,
    s: &Setting,
    p: &Progress,
    purpose: Purpose,
    op: &ExtOp,
    node: NodeCopy,
) -> Result<Progress, NoMemory>
    requires { op.now.kind ≡ Copy node }
    ensures values { OnOk result
        (values.new ≡ values.old ++ step_values op.now (step_of e.now block.now s.now p.now purpose op.now (Copy node))) }
    ensures progress { IfOk result (λ after. after ≡ progress_of e.now block.now s.now p.now purpose op.now (Copy node)) }
{
    let m = copy_move(e, &block.live_in, s, p, purpose, op, node)?;
    push_copy(values, op, node, &m)?;
    after_copy(&e.table, p, &m, purpose, node)
}

/// The values of an operation of the source, after the values so far, and the progress behind it.
fn plan_body(
    values: &mut Items<u32>,
    t: &Table,
    p: &Progress,
    op: &ExtOp,
    o: &SrcOp,
) -> Result<Progress, NoMemory>
    ensures values { OnOk result
        (values.new ≡ values.old ++ p.now.cycle ∷ (map operand_place op.now.operands ++
        replicate (length op.now.results) (if gives_truth o.now.op then PREDICATE else 0))) }
    ensures progress { IfOk result (λ after. after ≡ other_progress (p.now.cycle + latency_of t.now o.now.op) (assigning o.now.dst)) }
{
    push_mandatory(values, op, p.cycle, result_register(o.op))?;
    let next = later(p.cycle, latency(t, o.op))?;
    Ok(other_progress(next, assigning(o.dst)))
}

/// The values of a terminator, after the values so far, and the progress behind it.
fn plan_end(
    values: &mut Items<u32>,
    t: &Table,
    p: &Progress,
    op: &ExtOp,
    term: Term,
) -> Result<Progress, NoMemory>
    ensures values { OnOk result
        (values.new ≡ values.old ++ end_cycle t.now term p.now.cycle ∷
        (map operand_place op.now.operands ++ replicate (length op.now.results) 0)) }
    ensures progress { IfOk result (λ after. after ≡ other_progress (after_end t.now term p.now.cycle) Other) }
{
    let cycle = end_cycle(t, term, p.cycle)?;
    push_mandatory(values, op, cycle, 0)?;
    Ok(other_progress(after_end(t, term, p.cycle)?, Definer::Other))
}

/// The values of a block's start, after the values so far, and the progress behind it.
fn plan_start(
    values: &mut Items<u32>,
    e: &Ext,
    saved: &[u32],
    block: &ExtBlock,
    s: &Setting,
    p: &Progress,
    op: &ExtOp,
) -> Result<Progress, NoMemory>
    requires { saved.now ≡ saved_registers e.now.table }
    ensures values { OnOk result
        (values.new ≡ values.old ++ (replicate (length op.now.operands) 0 ++
        places_from (λ (j : ℕ) (x : TempId). start_register e.now.table s.now block.now.live_in j (slice_get block.now.live_in j)) 0
        op.now.results)) }
    ensures progress { IfOk result (λ after. after ≡ other_progress p.now.cycle (if s.now.is_entry then Start else Other)) }
{
    push_same(values, op.operands.len(), 0)?;
    push_starts(values, &e.table, saved, s, &block.live_in, &op.results)?;
    let definer = if s.is_entry {
        Definer::Start
    } else {
        Definer::Other
    };
    Ok(other_progress(p.cycle, definer))
}

/// The values of a block's end, after the values so far, and the progress behind it.
fn plan_out(
    values: &mut Items<u32>,
    e: &Ext,
    block: &ExtBlock,
    s: &Setting,
    p: &Progress,
    op: &ExtOp,
) -> Result<Progress, NoMemory>
    ensures values { OnOk result
        (values.new ≡ values.old ++ (places_from (out_place e.now.names block.now.live_out s.now (length op.now.operands) s.now.term) 0
        op.now.operands ++ replicate (length op.now.results) 0)) }
    ensures progress { IfOk result (λ after. after ≡ other_progress p.now.cycle Other) }
{
    push_outs(values, &e.names, &block.live_out, s, &op.operands)?;
    push_same(values, op.results.len(), 0)?;
    Ok(other_progress(p.cycle, Definer::Other))
}

/// The values of Enter or Leave in a cycle, after the values so far, and the progress behind it.
fn plan_frame(
    values: &mut Items<u32>,
    p: &Progress,
    op: &ExtOp,
    cycle: u32,
) -> Result<Progress, NoMemory>
    ensures values { OnOk result
        (values.new ≡ values.old ++ 1 ∷ cycle ∷ (replicate (length op.now.operands) 0 ++ replicate (length op.now.results) 0)) }
    ensures progress { IfOk result (λ after. after ≡ other_progress p.now.cycle Other) }
{
    push_frame(values, op, cycle)?;
    Ok(other_progress(p.cycle, Definer::Other))
}

/// The values of an operation, after the values so far, and the progress behind it.
fn plan_op(
    values: &mut Items<u32>,
    e: &Ext,
    saved: &[u32],
    block: &ExtBlock,
    s: &Setting,
    p: &Progress,
    purpose: Purpose,
    op: &ExtOp,
) -> Result<Progress, NoMemory>
    requires { saved.now ≡ saved_registers e.now.table }
    ensures values { OnOk result
        (values.new ≡ values.old ++ step_values op.now (step_of e.now block.now s.now p.now purpose op.now op.now.kind)) }
    ensures progress { IfOk result (λ after. after ≡ progress_of e.now block.now s.now p.now purpose op.now op.now.kind) }
{
    match &op.kind {
        ExtKind::Copy(node) => plan_copy(values, e, block, s, p, purpose, op, *node),
        ExtKind::Body(o) => plan_body(values, &e.table, p, op, o),
        ExtKind::End(term) => plan_end(values, &e.table, p, op, *term),
        ExtKind::In => plan_start(values, e, saved, block, s, p, op),
        ExtKind::Out => plan_out(values, e, block, s, p, op),
        ExtKind::Enter => plan_frame(values, p, op, 1),
        ExtKind::Leave => {
            let cycle = leave_cycle(&e.table, s.term, p.cycle)?;
            plan_frame(values, p, op, cycle)
        }
    }
}

/// The number of the first of these temporaries, and how many there are.
fn first_and_count(temps: &[TempId]) -> Result<(u32, u32), NoMemory>
    ensures { IfOk result (λ (first, count). (first ≡ first_number temps.now) × (count ≡ length temps.now)) }
{
    let count = number(temps.len())?;
    match temps {
        [] => Ok((0, count)),
        [first, ..] => Ok((first.0, count)),
    }
}

/// What holds in the whole of a block.
fn setting(e: &Ext, is_entry: bool, block: &ExtBlock) -> Result<Setting, NoMemory>
    ensures { IfOk result (λ s. s ≡ setting_of e.now is_entry block.now) }
{
    let (first, values) = first_and_count(ends::live_in_temps(&block.ops))?;
    let placed = if is_entry { 0 } else { later(first, values)? };
    Ok(Setting {
        is_entry,
        term: ends::term(&block.ops),
        link: later(FIRST_SLOT, number(e.names.len())?)?,
        values,
        placed,
    })
}

/// The cycle of the first instruction of a block, but for the entry's Enter.
fn first_cycle(t: &Table, is_entry: bool) -> Result<u32, NoMemory>
    ensures { IfOk result (λ cycle. cycle ≡ first_cycle t.now is_entry) }
{
    if is_entry {
        later(1, latency(t, Op::Enter))
    } else {
        Ok(1)
    }
}

/// The progress before the first operation of a block.
fn first_progress(e: &Ext, is_entry: bool) -> Result<Progress, NoMemory>
    ensures { IfOk result (λ p. p ≡ first_progress e.now is_entry) }
{
    let cycle = first_cycle(&e.table, is_entry)?;
    Ok(other_progress(cycle, Definer::Other))
}

/// The values of the operations of a block, after the values so far, and the progress behind them.
fn push_ops(
    values: &mut Items<u32>,
    e: &Ext,
    saved: &[u32],
    block: &ExtBlock,
    s: &Setting,
    first: Progress,
) -> Result<Progress, NoMemory>
    requires { saved.now ≡ saved_registers e.now.table }
    ensures values { OnOk result
        (values.new ≡ values.old ++ steps_values block.now.ops (steps_of e.now block.now s.now first block.now.ops)) }
    ensures progress { IfOk result (λ last. last ≡ progress_after e.now block.now s.now first block.now.ops) }
{
    let mut p = first;
    let mut in_row = false;
    let mut purpose = Purpose::Unread;
    for k in 0..block.ops.len() {
        let op = block.ops.get(k);
        purpose = purpose_in_row(in_row, purpose, s.term, &block.ops, k);
        p = plan_op(values, e, saved, block, s, &p, purpose, op)?;
        in_row = op.kind.is_copy();
    }
    Ok(p)
}

/// The values of a block, after the values so far.
fn push_block(
    values: &mut Items<u32>,
    e: &Ext,
    saved: &[u32],
    is_entry: bool,
    block: &ExtBlock,
) -> Result<(), NoMemory>
    requires { saved.now ≡ saved_registers e.now.table }
    ensures { OnOk result
        (values.new ≡ values.old ++ block_values block.now (block_plan e.now is_entry block.now)) }
{
    let s = setting(e, is_entry, block)?;
    let first = first_progress(e, is_entry)?;
    let last = push_ops(values, e, saved, block, &s, first)?;
    values.push(block_end(&e.table, s.term, last.cycle)?)?;
    Ok(())
}

/// The values of all blocks, of which the first is the entry, after the values so far.
fn push_blocks(values: &mut Items<u32>, e: &Ext, saved: &[u32]) -> Result<(), NoMemory>
    requires { saved.now ≡ saved_registers e.now.table }
    ensures { OnOk result
        (values.new ≡ values.old ++ blocks_values e.now.blocks (block_plans e.now true e.now.blocks)) }
{
    for k in 0..e.blocks.len() {
        push_block(values, e, saved, k == 0, e.blocks.get(k))?;
    }
    Ok(())
}

/// The solution that keeps each name in a frame slot of its own: every operand is reloaded before its operation, every result
/// is spilled after it, and one instruction issues in a packet. It costs what is stated of the function that the model is of. The
/// answer is `NoMemory` where there is no memory for it.
pub fn spill_everywhere(alloc: Global, m: &Model) -> Result<Solution, NoMemory>
    requires { IsSpillable m.now }
    ensures solution { IfOk result (IsSolution m.now) }
    ensures values { IfOk result (λ s. s.values ≡ spilled_values m.now.ext) }
    ensures cost { (source : IsOfFunction m.now.ext)
        → IfOk result (λ s. cost_of m.now s ≡ spill_cost m.now.ext.table source.function source.lists) }
{
    let saved = saved_registers(alloc, &m.ext.table)?;
    let mut values = Items::new(alloc);
    push_blocks(&mut values, &m.ext, saved.as_slice())?;
    values.push(FRAME_FLAG)?;
    Ok(Solution { values })
}
