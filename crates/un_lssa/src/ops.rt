//! Operations of a linear function.

ghost use Rattle.std.specs.Prelude.{◌≡◌, ◌+◌, ◌<◌, ◌≤◌, ◌^◌, ◌++◌, [], ◌∷◌, length, map, slice_index, IfOk, OnOk, List, Some, None};
ghost use Rattle.std.specs.List.{range_with_len};
ghost use Rattle.std.specs.Option.{option_to_list};
ghost use Rattle.un_isa.specs.Registers.{callee_saved, saved_registers};
ghost use Rattle.un_ir.specs.Extended.{temp, at_register};
ghost use Rattle.un_ir.specs.LinearOf.{reads, assigned, past, name_operand, argument_operands, source_operands, body_op, body_ops};
ghost use Rattle.un_ir.specs.LinearOf.{current_after, past_all, in_op, end_ops, kept_operands, out_operands_of, out_op};
ghost use Rattle.un_ir.specs.declared.extended.ExtKind.{ExtKind};
ghost use Rattle.un_ir.specs.declared.function.Term.{Term};
ghost use Rattle.un_base.specs.declared.ids.NameId.{NameId};
ghost use Rattle.un_lssa.specs.Making.{home_at};

use crate::names::{assign, current_temp};
use std::alloc::Global;
use un_base::ids::{NameId, TempId};
use un_base::memory_error::NoMemory;
use un_ir::extended::{ExtKind, ExtOp, Operand};
use un_ir::function::{SrcOp, Term};
use un_isa::op::Op;
use un_isa::reg::Reg;
use un_isa::table::Table;
use un_lists::items::Items;

/// An operand that reads one temporary.
fn reads(alloc: Global, n: u32, home: Option<Reg>) -> Result<Operand, NoMemory>
    ensures { IfOk result (λ operand. operand ≡ reads n home) }
{
    let mut alts = Items::new(alloc);
    alts.push(TempId(n))?;
    Ok(Operand { alts, home })
}

/// An operand that reads one temporary, behind those so far.
fn push_read(
    alloc: Global,
    operands: &mut Items<Operand>,
    n: u32,
    home: Option<Reg>,
) -> Result<(), NoMemory>
    ensures { OnOk result (operands.new ≡ operands.old ++ reads n home ∷ []) }
{
    let operand = reads(alloc, n, home)?;
    operands.push(operand)?;
    Ok(())
}

/// An operand alone.
fn only(alloc: Global, n: u32, home: Option<Reg>) -> Result<Items<Operand>, NoMemory>
    ensures { IfOk result (λ operands. operands ≡ reads n home ∷ []) }
{
    let mut operands = Items::new(alloc);
    push_read(alloc, &mut operands, n, home)?;
    Ok(operands)
}

/// Operands that read names, behind those so far.
fn push_names(
    alloc: Global,
    operands: &mut Items<Operand>,
    current: &[u32],
    names: &[NameId],
) -> Result<(), NoMemory>
    ensures { OnOk result (operands.new ≡ operands.old ++ map (name_operand current.now None) names.now) }
{
    for name in names {
        push_read(alloc, operands, current_temp(current, *name), None)?;
    }
    Ok(())
}

/// The register of the argument at place `j`.
fn home_at(t: &Table, j: usize) -> Option<Reg>
    ensures { result ≡ home_at t.now.args j }
{
    match t.args.get(j) {
        Some(r) => Some(Reg(u32::from(*r))),
        None => None,
    }
}

/// Arguments in their registers.
#[tactic(auto, using(crate::proofs::Operands::argument_step))]
fn arguments(
    alloc: Global,
    t: &Table,
    current: &[u32],
    names: &[NameId],
) -> Result<Items<Operand>, NoMemory>
    ensures { IfOk result (λ operands. operands ≡ argument_operands current.now t.now.args names.now) }
{
    let mut operands = Items::new(alloc);
    for (j, name) in names.iter().enumerate() {
        let n = current_temp(current, *name);
        push_read(alloc, &mut operands, n, home_at(t, j))?;
    }
    Ok(operands)
}

/// The operands of an operation of the source.
fn source_operands(
    alloc: Global,
    t: &Table,
    current: &[u32],
    o: &SrcOp,
) -> Result<Items<Operand>, NoMemory>
    ensures { IfOk result (λ operands. operands ≡ source_operands t.now current.now o.now.op o.now.srcs) }
{
    let names = o.srcs.as_slice();
    match o.op {
        Op::Call => arguments(alloc, t, current, names),
        _ => {
            let mut operands = Items::new(alloc);
            push_names(alloc, &mut operands, current, names)?;
            Ok(operands)
        }
    }
}

/// Adds an operation of these parts.
fn add_op(
    ops: &mut Items<ExtOp>,
    kind: ExtKind,
    operands: Items<Operand>,
    results: Items<TempId>,
) -> Result<(), NoMemory>
    ensures { OnOk result (ops.new ≡ ops.old ++ record { kind = kind; operands = operands; results = results } ∷ []) }
{
    ops.push(ExtOp {
        kind,
        operands,
        results,
    })?;
    Ok(())
}

/// So many temporaries, the first of which is temporary `n`.
fn new_temps(alloc: Global, n: u32, count: u32) -> Result<Items<TempId>, NoMemory>
    requires { n + count < 2 ^ 32 }
    ensures { IfOk result (λ temps. temps ≡ map temp (range_with_len n count)) }
{
    let mut temps = Items::new(alloc);
    for k in 0..count {
        temps.push(TempId(n + k))?;
    }
    Ok(temps)
}

/// What an operation of the source defines: temporary `n` where it has a result.
fn body_results(alloc: Global, n: u32, o: &SrcOp) -> Result<Items<TempId>, NoMemory>
    ensures { IfOk result (λ results. results ≡ map (λ (name : NameId). temp n) (option_to_list o.now.dst)) }
{
    let mut results = Items::new(alloc);
    if o.dst.is_some() {
        results.push(TempId(n))?;
    }
    Ok(results)
}

/// Adds an operation of the source with these operands and results.
fn add_body_op(
    ops: &mut Items<ExtOp>,
    o: &SrcOp,
    operands: Items<Operand>,
    results: Items<TempId>,
) -> Result<(), NoMemory>
    ensures { OnOk result (ops.new ≡ ops.old ++ record { kind = ExtKind.Body o.now; operands = operands; results = results } ∷ []) }
{
    let o = o.clone()?;
    add_op(ops, ExtKind::Body(o), operands, results)
}

/// An operation of the source behind those so far, which defines temporary `n` where it has a result.
fn push_body_op(
    alloc: Global,
    t: &Table,
    ops: &mut Items<ExtOp>,
    current: &[u32],
    n: u32,
    o: &SrcOp,
) -> Result<(), NoMemory>
    ensures { OnOk result (ops.new ≡ ops.old ++ body_op t.now current.now n o.now ∷ []) }
{
    let operands = source_operands(alloc, t, current, o)?;
    let results = body_results(alloc, n, o)?;
    add_body_op(ops, o, operands, results)
}

/// The operations of the source behind those so far, and the first temporary that they do not define. The first of them
/// may define temporary `first`; `current` has the temporary of each name.
#[tactic(auto, using(crate::proofs::Operands::past_all_grows))]
pub(crate) fn push_body(
    alloc: Global,
    t: &Table,
    ops: &mut Items<ExtOp>,
    current: &mut [u32],
    first: u32,
    source: &[SrcOp],
) -> Result<u32, NoMemory>
    requires { past_all first source.now < 2 ^ 32 }
    ensures past { IfOk result (λ n. n ≡ past_all first source.now) }
    ensures ops { OnOk result (ops.new ≡ ops.old ++ body_ops t.now current.old first source.now) }
    ensures current { OnOk result (current.new ≡ current_after current.old first source.now) }
{
    let mut n = first;
    for o in source {
        push_body_op(alloc, t, ops, current, n, o)?;
        if let Some(name) = o.dst {
            assign(current, name, n);
            n += 1;
        }
    }
    Ok(n)
}

/// The values at a block's start, behind the operations so far.
pub(crate) fn push_in(
    alloc: Global,
    ops: &mut Items<ExtOp>,
    n: u32,
    count: u32,
) -> Result<(), NoMemory>
    requires { n + count < 2 ^ 32 }
    ensures { OnOk result (ops.new ≡ ops.old ++ in_op n count ∷ []) }
{
    let results = new_temps(alloc, n, count)?;
    add_op(ops, ExtKind::In, Items::new(alloc), results)
}

/// The terminator behind the operations so far, where there is one. A return reads the saved value of the link register.
pub fn push_end(
    alloc: Global,
    ops: &mut Items<ExtOp>,
    current: &[u32],
    link: u32,
    term: Term,
) -> Result<(), NoMemory>
    ensures { OnOk result (ops.new ≡ ops.old ++ end_ops current.now link term) }
{
    let operands = match term {
        Term::Fall => return Ok(()),
        Term::Jump(_) => Items::new(alloc),
        Term::Branch { pred, .. } => only(alloc, current_temp(current, pred), None)?,
        Term::Ret(_) => only(alloc, link, None)?,
    };
    add_op(ops, ExtKind::End(term), operands, Items::new(alloc))
}

/// Saved values in registers, behind the operands so far. The first is temporary `first`.
fn push_kept(
    alloc: Global,
    operands: &mut Items<Operand>,
    first: u32,
    registers: &[u32],
) -> Result<(), NoMemory>
    requires { first + length registers.now < 2 ^ 32 }
    ensures { OnOk result (operands.new ≡ operands.old ++ kept_operands first registers.now) }
{
    let mut n = first;
    for r in registers {
        push_read(alloc, operands, n, Some(Reg(*r)))?;
        n += 1;
    }
    Ok(())
}

/// So many saved values, behind the operands so far. The first is temporary `first`.
fn push_saved(
    alloc: Global,
    operands: &mut Items<Operand>,
    first: u32,
    count: u32,
) -> Result<(), NoMemory>
    requires { first + count < 2 ^ 32 }
    ensures { OnOk result (operands.new ≡ operands.old ++ map (λ n. reads n None) (range_with_len first count)) }
{
    for k in 0..count {
        push_read(alloc, operands, first + k, None)?;
    }
    Ok(())
}

/// What the end of a block that returns reads: the result and the callee-saved registers' values, each in its register.
fn returned_operands(
    alloc: Global,
    t: &Table,
    registers: &[u32],
    current: &[u32],
    first: u32,
    value: Option<NameId>,
) -> Result<Items<Operand>, NoMemory>
    requires kept { registers.now ≡ callee_saved t.now }
    requires fit { first + length registers.now + 1 < 2 ^ 32 }
    ensures { (live_out : List NameId) → IfOk result (λ operands. operands ≡ out_operands_of t.now current.now first live_out
        (Term.Ret value)) }
{
    let mut operands = Items::new(alloc);
    if let Some(name) = value {
        let home = Some(Reg(u32::from(t.result)));
        push_read(alloc, &mut operands, current_temp(current, name), home)?;
    }
    push_kept(alloc, &mut operands, first, registers)?;
    Ok(operands)
}

/// What the end of another block reads: the names that are live there and the saved values.
fn next_operands(
    alloc: Global,
    current: &[u32],
    first: u32,
    saved: u32,
    live_out: &[NameId],
) -> Result<Items<Operand>, NoMemory>
    requires { first + saved < 2 ^ 32 }
    ensures { IfOk result (λ operands. operands
        ≡ map (name_operand current.now None) live_out.now ++ map (λ n. reads n None) (range_with_len first saved)) }
{
    let mut operands = Items::new(alloc);
    push_names(alloc, &mut operands, current, live_out)?;
    push_saved(alloc, &mut operands, first, saved)?;
    Ok(operands)
}

/// What the block's end reads. The first of the saved values is temporary `first`.
fn out_operands(
    alloc: Global,
    t: &Table,
    registers: &[u32],
    current: &[u32],
    first: u32,
    live_out: &[NameId],
    term: Term,
) -> Result<Items<Operand>, NoMemory>
    requires kept { registers.now ≡ callee_saved t.now }
    requires fit { first + length registers.now + 1 < 2 ^ 32 }
    ensures { IfOk result (λ operands. operands ≡ out_operands_of t.now current.now first live_out.now term) }
{
    let saved = registers.len() as u32 + 1;
    match term {
        Term::Ret(value) => returned_operands(alloc, t, registers, current, first, value),
        Term::Fall => next_operands(alloc, current, first, saved, live_out),
        Term::Jump(_) => next_operands(alloc, current, first, saved, live_out),
        Term::Branch { .. } => next_operands(alloc, current, first, saved, live_out),
    }
}

/// The values at a block's end, behind the operations so far.
pub(crate) fn push_out(
    alloc: Global,
    t: &Table,
    registers: &[u32],
    ops: &mut Items<ExtOp>,
    current: &[u32],
    first: u32,
    live_out: &[NameId],
    term: Term,
) -> Result<(), NoMemory>
    requires kept { registers.now ≡ callee_saved t.now }
    requires fit { first + length registers.now + 1 < 2 ^ 32 }
    ensures { OnOk result (ops.new ≡ ops.old ++ out_op t.now current.now first live_out.now term ∷ []) }
{
    let operands = out_operands(alloc, t, registers, current, first, live_out, term)?;
    add_op(ops, ExtKind::Out, operands, Items::new(alloc))
}
