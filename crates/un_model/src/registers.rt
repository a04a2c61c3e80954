//! The registers that a value may have.

ghost use Rattle.std.specs.Prelude.{◌≡◌, ℕ, ◌+◌, ◌-◌, ◌<◌, ◌≤◌, ◌^◌, ◌||◌, if◌then◌else◌, ◌∷◌, ◌++◌, [], length, IfOk, OnOk, filter};
ghost use Rattle.std.specs.Prelude.{slice_get, slice_index};
ghost use Rattle.std.specs.List.{range_with_len};
ghost use Rattle.std.specs.Option.{option_map};
ghost use Rattle.un_domains.specs.declared.domain.Domain.TheVariants.{Set};
ghost use Rattle.un_isa.specs.RegSets.{has};
ghost use Rattle.un_isa.specs.Registers.{saved_registers};
ghost use Rattle.un_model.specs.Registers.{is_assignable, reg_at, name_home, start_home, call_home, result_home, is_pred, is_pred_name};
ghost use Rattle.un_model.specs.Registers.{gives_truth_at, is_truth, predicate_registers, general_registers, value_registers};
ghost use Rattle.un_model.specs.Registers.{begins_with_zero, with_zero};
ghost use Rattle.un_model.specs.Homes.{home_of, IsScope};
ghost use Rattle.un_model.specs.Variables.{first_alternative, carried, home_domain, source_domain, start_domain, copy_registers};
ghost use Rattle.un_model.specs.Variables.{result_domain};

use crate::homes::{Homes, home_at};
use crate::instructions::gives_truth;
use crate::model::Options;
use std::alloc::Global;
use un_base::ids::{NameId, TempId};
use un_base::memory_error::NoMemory;
use un_domains::domain::Domain;
use un_ir::extended::{Ext, ExtBlock, ExtKind, ExtOp, Operand};
use un_ir::function::Kind;
use un_isa::op::Op;
use un_isa::reg::{FIRST_SLOT, GENERALS, LINK, PREDICATES, Reg, SLOTS, STACK};
use un_isa::reg_set::{RegSet, callee_saved};
use un_isa::table::Table;
use un_lists::items::Items;

/// Whether a register may be assigned.
fn is_assignable(regs: Option<u32>, r: u32) -> bool
    ensures { result ≡ is_assignable regs r }
{
    match regs {
        None => r < STACK || r == LINK,
        Some(n) => r < n,
    }
}

/// The home of a name in the entry or elsewhere.
fn name_home(t: &Table, is_entry: bool, name: NameId) -> Option<Reg>
    ensures { result ≡ name_home t.now is_entry name }
{
    if is_entry {
        let r = t.args.get(name.0 as usize).copied().map_or(0, u32::from);
        Some(Reg(r))
    } else {
        None
    }
}

/// The register at place `k` of these numbers.
fn reg_at(numbers: &Items<u32>, k: usize) -> Option<Reg>
    ensures { result ≡ option_map reg_at (slice_get numbers.now k) }
{
    match numbers.as_slice().get(k) {
        None => None,
        Some(r) => Some(Reg(*r)),
    }
}

/// The name at place `j`, where there is one.
fn name_at(names: &Items<NameId>, j: usize) -> Option<NameId>
    ensures { result ≡ slice_get names.now j }
{
    names.as_slice().get(j).copied()
}

/// The home of the value at place `j` of those at a block's start, which has this name where it has one.
fn start_home(
    t: &Table,
    saved: &Items<u32>,
    is_entry: bool,
    live_in: &Items<NameId>,
    j: usize,
    name: Option<NameId>,
) -> Option<Reg>
    requires { saved.now ≡ saved_registers t.now }
    ensures { result ≡ start_home t.now is_entry live_in.now j name }
{
    match name {
        None => reg_at(saved, j.saturating_sub(live_in.len())),
        Some(name) => name_home(t, is_entry, name),
    }
}

/// The home of the result of an operation of the source.
fn call_home(t: &Table, op: Op) -> Option<Reg>
    ensures { result ≡ call_home t.now op }
{
    match op {
        Op::Call => Some(Reg(u32::from(t.result))),
        _ => None,
    }
}

/// The home of the result at place `j` of an operation.
pub(crate) fn result_home(
    t: &Table,
    saved: &Items<u32>,
    is_entry: bool,
    live_in: &Items<NameId>,
    kind: &ExtKind,
    j: usize,
) -> Option<Reg>
    requires { saved.now ≡ saved_registers t.now }
    ensures { result ≡ result_home t.now is_entry live_in.now kind.now j }
{
    match kind {
        ExtKind::In => {
            let name = name_at(live_in, j);
            start_home(t, saved, is_entry, live_in, j, name)
        }
        ExtKind::Body(source) => call_home(t, source.op),
        _ => None,
    }
}

/// Whether a name, where there is one, is a predicate's.
fn is_pred_name(names: &Items<Kind>, name: Option<NameId>) -> bool
    ensures { result ≡ is_pred_name names.now name }
{
    match name {
        None => false,
        Some(n) => match names.as_slice().get(n.0 as usize) {
            None => false,
            Some(Kind::General) => false,
            Some(Kind::Pred) => true,
        },
    }
}

/// Whether the result at place `j` of an operation of the source, or of a block's start, is a truth value.
pub(crate) fn gives_truth_at(
    names: &Items<Kind>,
    live_in: &Items<NameId>,
    kind: &ExtKind,
    j: usize,
) -> bool
    ensures { result ≡ gives_truth_at names.now live_in.now kind.now j }
{
    match kind {
        ExtKind::In => is_pred_name(names, name_at(live_in, j)),
        ExtKind::Body(source) => gives_truth(source.op),
        _ => false,
    }
}

/// What the domains of a block's variables are made of.
#[derive(Clone, Copy)]
pub(crate) struct Scope<'a> {
    pub(crate) ext: &'a Ext,
    /// The registers whose values a function hands back.
    pub(crate) saved: &'a Items<u32>,
    /// The homes of the block's values.
    pub(crate) homes: &'a Homes,
    pub(crate) options: &'a Options,
    /// The slots that the options allow.
    pub(crate) slots: &'a [u32],
    pub(crate) is_entry: bool,
    pub(crate) block: &'a ExtBlock,
}

/// The first alternative of the first operand, `x` where there is none.
fn first_alternative(operands: &Items<Operand>, x: TempId) -> TempId
    ensures { result ≡ first_alternative operands.now x }
{
    match operands.as_slice().get(0) {
        None => x,
        Some(operand) => operand.alts.as_slice().get(0).copied().unwrap_or(x),
    }
}

/// The value that the result `x` of an operation carries.
pub(crate) fn carried(op: &ExtOp, x: TempId) -> TempId
    ensures { result ≡ carried op.now x }
{
    match &op.kind {
        ExtKind::Copy(_) => first_alternative(&op.operands, x),
        _ => x,
    }
}

/// The assignable registers and those of a set.
fn assignable(alloc: Global, regs: Option<u32>, set: RegSet) -> Result<Vec<u32>, NoMemory>
    ensures { IfOk result
        (λ registers. registers.items ≡ filter (λ r. is_assignable regs r || has set r) (range_with_len 0 GENERALS)) }
{
    let registers = (0..GENERALS)
        .filter(|r| is_assignable(regs, *r) || set.contains(*r))
        .collect(alloc)?;
    Ok(registers)
}

/// The assignable registers and the homes of a value.
fn general(alloc: Global, scope: &Scope<'_>, x: TempId) -> Result<Items<u32>, NoMemory>
    requires { IsScope scope.now.ext.now scope.now.is_entry scope.now.block.now scope.now.saved.now scope.now.homes.now }
    ensures { IfOk result
        (λ registers. registers ≡ general_registers scope.now.ext.now scope.now.options.now.regs scope.now.is_entry scope.now.block.now x) }
{
    let registers = assignable(alloc, scope.options.regs, home_at(scope.homes, x).registers)?;
    Ok(Items::from_vec(registers))
}

/// Whether a value is a truth value.
pub(crate) fn is_truth(scope: &Scope<'_>, x: TempId) -> bool
    requires { IsScope scope.now.ext.now scope.now.is_entry scope.now.block.now scope.now.saved.now scope.now.homes.now }
    ensures { result ≡ is_truth scope.now.ext.now.names scope.now.block.now x }
{
    home_at(scope.homes, x).truth
}

/// So many numbers from the first on, after those so far.
fn push_range(numbers: &mut Items<u32>, first: u32, count: u32) -> Result<(), NoMemory>
    requires { first + count < 2 ^ 32 }
    ensures { OnOk result (numbers.new ≡ numbers.old ++ range_with_len first count) }
{
    for k in 0..count {
        numbers.push(first + k)?;
    }
    Ok(())
}

/// The first so many slots.
pub(crate) fn first_slots(alloc: Global, count: u32) -> Result<Items<u32>, NoMemory>
    requires { count ≤ SLOTS }
    ensures { IfOk result (λ slots. slots ≡ range_with_len FIRST_SLOT count) }
{
    let mut slots = Items::new(alloc);
    push_range(&mut slots, FIRST_SLOT, count)?;
    Ok(slots)
}

/// p0 to p3 where the value is a truth value, after the registers so far.
fn push_predicates(numbers: &mut Items<u32>, truth: bool) -> Result<(), NoMemory>
    ensures { OnOk result (numbers.new ≡ numbers.old ++ (if truth then predicate_registers else [])) }
{
    if truth {
        push_range(numbers, GENERALS, PREDICATES)?;
    }
    Ok(())
}

/// The assignable registers and the homes of a value, p0 to p3 where it is a truth value, and the slots.
fn value_registers(alloc: Global, scope: &Scope<'_>, x: TempId) -> Result<Items<u32>, NoMemory>
    requires scope { IsScope scope.now.ext.now scope.now.is_entry scope.now.block.now scope.now.saved.now scope.now.homes.now }
    requires slots { scope.now.slots.now ≡ range_with_len FIRST_SLOT scope.now.options.now.slots }
    ensures { IfOk result
        (λ registers. registers ≡ value_registers scope.now.ext.now scope.now.options.now.regs scope.now.options.now.slots
        scope.now.is_entry scope.now.block.now x) }
{
    let mut registers = general(alloc, scope, x)?;
    push_predicates(&mut registers, is_truth(scope, x))?;
    registers.append(scope.slots)?;
    Ok(registers)
}

/// Whether the first of these numbers is 0.
fn begins_with_zero(numbers: &[u32]) -> bool
    ensures { result ≡ begins_with_zero numbers.now }
{
    match numbers.get(0) {
        None => false,
        Some(n) => *n == 0,
    }
}

/// These numbers with 0 in front, where it is not there.
fn with_zero(alloc: Global, numbers: Items<u32>) -> Result<Items<u32>, NoMemory>
    ensures { IfOk result (λ all. all ≡ with_zero numbers) }
{
    if begins_with_zero(numbers.as_slice()) {
        return Ok(numbers);
    }
    let mut all = Items::new(alloc);
    all.push(0)?;
    all.append(numbers.as_slice())?;
    Ok(all)
}

/// A list as a domain.
fn listed(alloc: Global, registers: Items<u32>) -> Result<Domain, NoMemory>
    ensures { IfOk result (λ d. d ≡ Set registers) }
{
    let d = Domain::of(alloc, registers.into_vec())?;
    Ok(d)
}

/// The home alone.
fn home_domain(alloc: Global, home: Option<Reg>) -> Result<Domain, NoMemory>
    ensures { IfOk result (λ d. d ≡ home_domain home) }
{
    let mut registers = Items::new(alloc);
    if let Some(reg) = home {
        registers.push(reg.0)?;
    }
    listed(alloc, registers)
}

/// The registers of the value `x` at place `j` of those at a block's start.
fn start_domain(alloc: Global, scope: &Scope<'_>, j: usize, x: TempId) -> Result<Domain, NoMemory>
    requires scope { IsScope scope.now.ext.now scope.now.is_entry scope.now.block.now scope.now.saved.now scope.now.homes.now }
    requires slots { scope.now.slots.now ≡ range_with_len FIRST_SLOT scope.now.options.now.slots }
    ensures { IfOk result
        (λ d. d ≡ start_domain scope.now.ext.now scope.now.options.now scope.now.is_entry scope.now.block.now j x) }
{
    if scope.is_entry {
        let home = result_home(
            &scope.ext.table,
            scope.saved,
            true,
            &scope.block.live_in,
            &ExtKind::In,
            j,
        );
        let d = home_domain(alloc, home)?;
        return Ok(d);
    }
    let registers = value_registers(alloc, scope, x)?;
    listed(alloc, registers)
}

/// p0 to p3.
fn predicates(alloc: Global) -> Result<Items<u32>, NoMemory>
    ensures { IfOk result (λ registers. registers ≡ predicate_registers) }
{
    let mut registers = Items::new(alloc);
    push_range(&mut registers, GENERALS, PREDICATES)?;
    Ok(registers)
}

/// The registers of a result of the source.
fn source_domain(alloc: Global, scope: &Scope<'_>, op: Op, x: TempId) -> Result<Domain, NoMemory>
    requires { IsScope scope.now.ext.now scope.now.is_entry scope.now.block.now scope.now.saved.now scope.now.homes.now }
    ensures { IfOk result
        (λ d. d ≡ source_domain scope.now.ext.now scope.now.options.now scope.now.is_entry scope.now.block.now op x) }
{
    if op == Op::Call {
        let d = home_domain(alloc, Some(Reg(u32::from(scope.ext.table.result))))?;
        return Ok(d);
    }
    if gives_truth(op) {
        let registers = predicates(alloc)?;
        return listed(alloc, registers);
    }
    let registers = general(alloc, scope, x)?;
    listed(alloc, registers)
}

/// The registers of a copy of value `y`.
fn copy_domain(alloc: Global, scope: &Scope<'_>, y: TempId) -> Result<Domain, NoMemory>
    requires scope { IsScope scope.now.ext.now scope.now.is_entry scope.now.block.now scope.now.saved.now scope.now.homes.now }
    requires slots { scope.now.slots.now ≡ range_with_len FIRST_SLOT scope.now.options.now.slots }
    ensures { IfOk result
        (λ d. d ≡ copy_registers scope.now.ext.now scope.now.options.now scope.now.is_entry scope.now.block.now y) }
{
    let registers = value_registers(alloc, scope, y)?;
    let all = with_zero(alloc, registers)?;
    listed(alloc, all)
}

/// The registers of the result `x` at place `j` of an operation.
pub(crate) fn domain(
    alloc: Global,
    scope: &Scope<'_>,
    op: &ExtOp,
    j: usize,
    x: TempId,
) -> Result<Domain, NoMemory>
    requires scope { IsScope scope.now.ext.now scope.now.is_entry scope.now.block.now scope.now.saved.now scope.now.homes.now }
    requires slots { scope.now.slots.now ≡ range_with_len FIRST_SLOT scope.now.options.now.slots }
    ensures { IfOk result
        (λ d. d ≡ result_domain scope.now.ext.now scope.now.options.now scope.now.is_entry scope.now.block.now op.now j x) }
{
    let d = match &op.kind {
        ExtKind::In => start_domain(alloc, scope, j, x)?,
        ExtKind::Body(source) => source_domain(alloc, scope, source.op, x)?,
        ExtKind::Copy(_) => copy_domain(alloc, scope, carried(op, x))?,
        _ => listed(alloc, Items::new(alloc))?,
    };
    Ok(d)
}
