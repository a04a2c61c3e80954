//! The variables of an extended function with their domains.

ghost use Rattle.std.specs.Option.{option_to_list};
ghost use Rattle.std.specs.Prelude.{◌≡◌, ℕ, ◌+◌, ◌-◌, ◌<◌, ◌≤◌, ◌++◌, ◌∷◌, [], List, true, is_some, map, length, IfOk, OnOk};
ghost use Rattle.std.specs.List.{range_with_len};
ghost use Rattle.un_isa.specs.Registers.{saved_registers};
ghost use Rattle.un_model.specs.Homes.{IsScope};
ghost use Rattle.un_model.specs.Options.{AreOptions};
ghost use Rattle.un_model.specs.Pairs.{places_from};
ghost use Rattle.un_ir.specs.Kinds.{is_optional, has_choices};
ghost use Rattle.un_model.specs.Variables.{has_cycle, chosen_operands, register_place, var_at, var_if, op_vars};
ghost use Rattle.un_model.specs.Variables.{ops_vars, block_vars, blocks_vars, op_temps, ops_temps, blocks_temps, copy_domain, instr_domain};
ghost use Rattle.un_model.specs.Variables.{cycle_domain, choice_domain, result_domain, carries_truth, op_domains, ops_domains};
ghost use Rattle.un_model.specs.Variables.{block_domains, blocks_domains, own_horizon, IsModel, model_of};

use crate::arcs::arcs;
use crate::homes::homes;
use crate::model::{BlockVars, Model, OpVars, Options, TempVars};
use crate::registers::{Scope, carried, domain, first_slots, is_truth};
use std::alloc::Global;
use un_base::ids::{OpId, TempId, VarId};
use un_base::memory_error::NoMemory;
use un_base::numbers::{advance, number};
use un_domains::domain::Domain;
use un_ir::extended::{Ext, ExtBlock, ExtKind, ExtOp, Operand, RELOAD, TO_PREDICATE};
use un_isa::reg::{FIRST_SLOT, SLOTS};
use un_isa::reg_set::saved_registers;
use un_lists::items::Items;

/// The instructions of a copy of a truth value, or of another.
fn copy_instructions(truth: bool) -> Domain
    ensures { result ≡ copy_domain truth }
{
    if truth {
        Domain::Range {
            lo: 0,
            hi: TO_PREDICATE,
        }
    } else {
        Domain::Range { lo: 0, hi: RELOAD }
    }
}

/// The instructions of an optional operation.
fn instructions(truth: bool, kind: &ExtKind) -> Option<Domain>
    ensures domain { result ≡ instr_domain truth kind.now }
    ensures some { is_some result ≡ is_optional kind.now }
{
    match kind {
        ExtKind::Copy(_) => Some(copy_instructions(truth)),
        ExtKind::Enter | ExtKind::Leave => Some(Domain::Range { lo: 0, hi: 1 }),
        ExtKind::In | ExtKind::Out | ExtKind::Body(_) | ExtKind::End(_) => None,
    }
}

/// The cycles of an operation.
fn cycles(horizon: u32, kind: &ExtKind) -> Option<Domain>
    ensures domain { result ≡ cycle_domain horizon kind.now }
    ensures some { is_some result ≡ has_cycle kind.now }
{
    let hi = horizon.saturating_sub(1);
    match kind {
        ExtKind::In | ExtKind::Out => None,
        ExtKind::Body(_) | ExtKind::End(_) => Some(Domain::Range { lo: 1, hi }),
        ExtKind::Copy(_) | ExtKind::Enter | ExtKind::Leave => Some(Domain::Range { lo: 0, hi }),
    }
}

/// The choices of an operand.
fn choices(operand: &Operand) -> Result<Domain, NoMemory>
    ensures { IfOk result (λ d. d ≡ choice_domain operand.now) }
{
    let hi = number(operand.alts.len().saturating_sub(1))?;
    Ok(Domain::Range { lo: 0, hi })
}

/// The operands that have choices.
fn chosen_operands(op: &ExtOp) -> &[Operand]
    ensures { result.now ≡ chosen_operands op.now }
{
    if op.kind.has_choices() {
        op.operands.as_slice()
    } else {
        &[]
    }
}

/// A further variable with its domain.
fn add(domains: &mut Items<Domain>, d: Domain) -> Result<VarId, NoMemory>
    ensures domains { OnOk result (domains.new ≡ domains.old ++ d ∷ []) }
    ensures var { IfOk result (λ v. v ≡ var_at (length domains.old)) }
{
    let n = number(domains.len())?;
    domains.push(d)?;
    Ok(VarId(n))
}

/// A further variable where it has a domain.
fn add_some(domains: &mut Items<Domain>, d: Option<Domain>) -> Result<Option<VarId>, NoMemory>
    ensures domains { OnOk result (domains.new ≡ domains.old ++ option_to_list d) }
    ensures var { IfOk result (λ v. v ≡ var_if (is_some d) (length domains.old)) }
{
    match d {
        None => Ok(None),
        Some(values) => {
            let v = add(domains, values)?;
            Ok(Some(v))
        }
    }
}

/// A variable for the choice of each of these operands.
fn add_choices(
    alloc: Global,
    domains: &mut Items<Domain>,
    operands: &[Operand],
) -> Result<Items<VarId>, NoMemory>
    ensures domains { OnOk result (domains.new ≡ domains.old ++ map choice_domain operands.now) }
    ensures vars { IfOk result
        (λ vars. vars ≡ map var_at (range_with_len (length domains.old) (length operands.now))) }
{
    let mut vars = Items::new(alloc);
    for j in 0..operands.len() {
        let d = choices(&operands[j])?;
        let v = add(domains, d)?;
        vars.push(v)?;
    }
    Ok(vars)
}

/// A temporary for each result of operation `n`, with a variable for its register.
fn add_results(
    alloc: Global,
    domains: &mut Items<Domain>,
    temps: &mut Items<TempVars>,
    scope: &Scope<'_>,
    n: u32,
    op: &ExtOp,
) -> Result<(), NoMemory>
    requires scope { IsScope scope.now.ext.now scope.now.is_entry scope.now.block.now scope.now.saved.now scope.now.homes.now }
    requires slots { scope.now.slots.now ≡ range_with_len FIRST_SLOT scope.now.options.now.slots }
    ensures domains { OnOk result
        (domains.new ≡ domains.old ++ places_from (result_domain scope.now.ext.now scope.now.options.now scope.now.is_entry
        scope.now.block.now op.now) 0 op.now.results) }
    ensures temps { OnOk result (temps.new ≡ temps.old ++ op_temps n (length domains.old) op.now) }
{
    for j in 0..op.results.len() {
        let x = *op.results.get(j);
        let d = domain(alloc, scope, op, j, x)?;
        let reg = add(domains, d)?;
        temps.push(TempVars {
            op: OpId(n),
            value: carried(op, x),
            reg,
        })?;
    }
    Ok(())
}

/// Whether an operation carries a truth value.
fn carries_truth(scope: &Scope<'_>, op: &ExtOp) -> bool
    requires { IsScope scope.now.ext.now scope.now.is_entry scope.now.block.now scope.now.saved.now scope.now.homes.now }
    ensures { result ≡ carries_truth scope.now.ext.now scope.now.block.now op.now op.now.results }
{
    match op.results.as_slice().get(0) {
        None => false,
        Some(x) => is_truth(scope, carried(op, *x)),
    }
}

/// The variables of operation `n`.
fn add_op(
    alloc: Global,
    domains: &mut Items<Domain>,
    temps: &mut Items<TempVars>,
    scope: &Scope<'_>,
    n: u32,
    op: &ExtOp,
) -> Result<OpVars, NoMemory>
    requires scope { IsScope scope.now.ext.now scope.now.is_entry scope.now.block.now scope.now.saved.now scope.now.homes.now }
    requires slots { scope.now.slots.now ≡ range_with_len FIRST_SLOT scope.now.options.now.slots }
    ensures domains { OnOk result
        (domains.new ≡ domains.old ++ op_domains scope.now.ext.now scope.now.options.now scope.now.is_entry scope.now.block.now
        scope.now.block.now.horizon op.now) }
    ensures temps { OnOk result
        (temps.new ≡ temps.old ++ op_temps n (length domains.old + register_place op.now) op.now) }
    ensures vars { IfOk result (λ vars. vars ≡ op_vars (length domains.old) op.now) }
{
    let instr = add_some(domains, instructions(carries_truth(scope, op), &op.kind))?;
    let cycle = add_some(domains, cycles(scope.block.horizon, &op.kind))?;
    let choices = add_choices(alloc, domains, chosen_operands(op))?;
    add_results(alloc, domains, temps, scope, n, op)?;
    Ok(OpVars {
        instr,
        cycle,
        choices,
    })
}

/// The variables of the operations of a block, of which the first has the number `first`.
fn add_ops(
    alloc: Global,
    domains: &mut Items<Domain>,
    temps: &mut Items<TempVars>,
    scope: &Scope<'_>,
    first: u32,
) -> Result<Items<OpVars>, NoMemory>
    requires scope { IsScope scope.now.ext.now scope.now.is_entry scope.now.block.now scope.now.saved.now scope.now.homes.now }
    requires slots { scope.now.slots.now ≡ range_with_len FIRST_SLOT scope.now.options.now.slots }
    ensures domains { OnOk result
        (domains.new ≡ domains.old ++ ops_domains scope.now.ext.now scope.now.options.now scope.now.is_entry scope.now.block.now
        scope.now.block.now.horizon scope.now.block.now.ops) }
    ensures temps { OnOk result
        (temps.new ≡ temps.old ++ ops_temps first (length domains.old) scope.now.block.now.ops) }
    ensures vars { IfOk result
        (λ vars. vars ≡ ops_vars (length domains.old) scope.now.block.now.ops) }
{
    let ops = &scope.block.ops;
    let mut vars = Items::new(alloc);
    let mut n = first;
    for i in 0..ops.len() {
        let v = add_op(alloc, domains, temps, scope, n, ops.get(i))?;
        vars.push(v)?;
        n = advance(n, 1)?;
    }
    Ok(vars)
}

/// The variables of a block, of which the first operation has the number `first`.
fn add_block(
    alloc: Global,
    domains: &mut Items<Domain>,
    temps: &mut Items<TempVars>,
    scope: &Scope<'_>,
    first: u32,
) -> Result<BlockVars, NoMemory>
    requires scope { IsScope scope.now.ext.now scope.now.is_entry scope.now.block.now scope.now.saved.now scope.now.homes.now }
    requires slots { scope.now.slots.now ≡ range_with_len FIRST_SLOT scope.now.options.now.slots }
    ensures domains { OnOk result
        (domains.new ≡ domains.old ++ block_domains scope.now.ext.now scope.now.options.now scope.now.is_entry scope.now.block.now.horizon
        scope.now.block.now) }
    ensures temps { OnOk result
        (temps.new ≡ temps.old ++ ops_temps first (length domains.old) scope.now.block.now.ops) }
    ensures vars { IfOk result (λ vars. vars ≡ block_vars (length domains.old) scope.now.block.now) }
{
    let ops = add_ops(alloc, domains, temps, scope, first)?;
    let end = add(
        domains,
        Domain::Range {
            lo: 1,
            hi: scope.block.horizon,
        },
    )?;
    Ok(BlockVars { ops, end })
}

/// The variables of a block of a function, which is the entry or not.
fn add_scoped(
    alloc: Global,
    domains: &mut Items<Domain>,
    temps: &mut Items<TempVars>,
    e: &Ext,
    o: &Options,
    saved: &Items<u32>,
    slots: &[u32],
    is_entry: bool,
    block: &ExtBlock,
    first: u32,
) -> Result<BlockVars, NoMemory>
    requires saved { saved.now ≡ saved_registers e.now.table }
    requires slots { slots.now ≡ range_with_len FIRST_SLOT o.now.slots }
    ensures domains { OnOk result
        (domains.new ≡ domains.old ++ block_domains e.now o.now is_entry block.now.horizon block.now) }
    ensures temps { OnOk result (temps.new ≡ temps.old ++ ops_temps first (length domains.old) block.now.ops) }
    ensures vars { IfOk result (λ vars. vars ≡ block_vars (length domains.old) block.now) }
{
    let homes = homes(alloc, e, saved, is_entry, block)?;
    let scope = Scope {
        ext: e,
        saved,
        homes: &homes,
        options: o,
        slots,
        is_entry,
        block,
    };
    add_block(alloc, domains, temps, &scope, first)
}

/// The variables of all blocks.
fn add_blocks(
    alloc: Global,
    domains: &mut Items<Domain>,
    temps: &mut Items<TempVars>,
    e: &Ext,
    o: &Options,
) -> Result<Items<BlockVars>, NoMemory>
    requires { o.now.slots ≤ SLOTS }
    ensures domains { OnOk result
        (domains.new ≡ domains.old ++ blocks_domains e.now o.now own_horizon true e.now.blocks) }
    ensures temps { OnOk result (temps.new ≡ temps.old ++ blocks_temps 0 (length domains.old) e.now.blocks) }
    ensures vars { IfOk result (λ vars. vars ≡ blocks_vars (length domains.old) e.now.blocks) }
{
    let saved = saved_registers(alloc, &e.table)?;
    let slots = first_slots(alloc, o.slots)?;
    let mut vars = Items::new(alloc);
    let mut n = 0;
    for k in 0..e.blocks.len() {
        let block = e.blocks.get(k);
        let v = add_scoped(
            alloc,
            domains,
            temps,
            e,
            o,
            &saved,
            slots.as_slice(),
            k == 0,
            block,
            n,
        )?;
        vars.push(v)?;
        n = advance(n, block.ops.len())?;
    }
    Ok(vars)
}

/// The model of an extended function: its variables, each with its domain, in the order of its blocks and operations. It fails
/// where memory is short, or where there are more variables than numbers below 2^32.
pub fn build(alloc: Global, e: &Ext, o: &Options) -> Result<Model, NoMemory>
    requires { AreOptions o.now }
    ensures gives { IfOk result (λ m. m ≡ model_of e.now o.now) }
    ensures model { IfOk result (λ m. IsModel m) }
{
    let mut domains = Items::new(alloc);
    let mut temps = Items::new(alloc);
    let blocks = add_blocks(alloc, &mut domains, &mut temps, e, o)?;
    let flag = add(&mut domains, Domain::Range { lo: 0, hi: 1 })?;
    let arcs = arcs(alloc, e, temps.as_slice())?;
    let ext = e.clone()?;
    Ok(Model {
        ext,
        options: *o,
        domains,
        temps,
        blocks,
        flag,
        arcs,
    })
}
