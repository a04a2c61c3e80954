//! The operations of a model by their numbers, and what a box leaves to them.

ghost use Rattle.std.specs.Prelude.{◌≡◌, ◌↔◌, ◌+◌, ◌^◌, ℕ, ◌<◌, ◌≤◌, ◌||◌, IsTrue, Some, true, List, [], ◌∷◌, length, map, slice_get};
ghost use Rattle.std.specs.List.{list_any, flat_map};
ghost use Rattle.std.specs.Option.{option_map, option_to_list};
ghost use Rattle.un_domains.specs.Sets.{set_at, has};
ghost use Rattle.un_steps.specs.Found.{operation_of};
ghost use Rattle.un_steps.specs.Words.{Operation, operations_of, operation_at, operation, block_operations, definer_of, regs, IsVar};
ghost use Rattle.un_steps.specs.Words.{reg_numbers, result_vars, other_vars, number_of, time_by, time_of, cycles, cycles_by, giving_cycles};
ghost use Rattle.un_steps.specs.Words.{giving_by, least_of, greatest_of, IsSure, IsOff, instrs, instrs_by};
ghost use Rattle.un_steps.specs.Rules.{lacks_zero};

use crate::look;
use un_base::ids::{TempId, VarId};
use un_domains::store::Store;
use un_ir::extended::{ExtBlock, ExtKind, ExtOp};
use un_model::model::{BlockVars, Model, OpVars, TempVars};

/// An operation of a model.
#[derive(Clone, Copy)]
pub struct Found<'a> {
    /// The number of its block.
    pub block: usize,
    /// Its block.
    pub owner: &'a ExtBlock,
    /// The variable of its block's end.
    pub end: VarId,
    /// The operation itself.
    pub op: &'a ExtOp,
    /// Its variables.
    pub vars: &'a OpVars,
}

/// Operation `n` of the block, counted from its first.
pub fn in_block<'a>(b: usize, block: &'a ExtBlock, vars: &'a BlockVars, n: usize) -> Found<'a>
    requires op { n < length block.now.ops }
    requires vars { n < length vars.now.ops }
    ensures { Some (operation_of result) ≡ slice_get (block_operations b block.now vars.now) n }
{
    let op = block.ops.get(n);
    let op_vars = vars.ops.get(n);
    Found {
        block: b,
        owner: block,
        end: vars.end,
        op,
        vars: op_vars,
    }
}

/// Operation `n` of a model.
pub fn operation(m: &Model, n: u32) -> Option<Found<'_>>
    ensures { option_map operation_of result ≡ operation_at m.now n }
{
    let mut rest = n as usize;
    for k in 0..m.ext.blocks.len().min(m.blocks.len()) {
        let block = m.ext.blocks.get(k);
        let vars = m.blocks.get(k);
        let count = block.ops.len().min(vars.ops.len());
        if rest < count {
            return Some(in_block(k, block, vars, rest));
        }
        rest -= count;
    }
    None
}

/// The operation that defines a temporary.
pub fn definer(m: &Model, x: TempId) -> Option<Found<'_>>
    ensures { option_map operation_of result ≡ definer_of m.now x }
{
    match m.temps.as_slice().get(x.0 as usize) {
        None => None,
        Some(t) => operation(m, t.op.0),
    }
}

/// The variables of a temporary, where there is one.
pub fn temp_vars(m: &Model, x: TempId) -> Option<TempVars>
    ensures { result ≡ slice_get m.now.temps x.0 }
{
    m.temps.as_slice().get(x.0 as usize).copied()
}

/// Whether register `r` is left to a temporary.
pub(crate) fn has_reg(m: &Model, s: &Store, x: TempId, r: u32) -> bool
    ensures { result ≡ has (regs m.now s.now.sets x) r }
{
    match m.temps.as_slice().get(x.0 as usize) {
        None => false,
        Some(t) => look::has(s, t.reg, r),
    }
}

/// Whether a variable is this one.
pub fn is_var(w: Option<VarId>, v: VarId) -> bool
    ensures { IsTrue result ↔ IsVar w v.0 }
{
    match w {
        None => false,
        Some(u) => u.0 == v.0,
    }
}

/// Whether `v` is the number of this variable, where there is one.
fn is_number(w: Option<VarId>, v: VarId) -> bool
    ensures { result ≡ has (map number_of (option_to_list w)) v.0 }
{
    match w {
        None => false,
        Some(u) => v.0 == u.0,
    }
}

/// Whether `v` is the register of a temporary.
fn is_register(m: &Model, x: TempId, v: VarId) -> bool
    ensures { result ≡ has (reg_numbers (slice_get m.now.temps x.0)) v.0 }
{
    match m.temps.as_slice().get(x.0 as usize) {
        None => false,
        Some(t) => v.0 == t.reg.0,
    }
}

/// Whether `v` is the register of a result.
pub(crate) fn is_result(m: &Model, p: &Found<'_>, v: VarId) -> bool
    ensures { result ≡ has (result_vars m.now (operation_of p.now)) v.0 }
{
    for j in 0..p.op.results.len() {
        let x = p.op.results.get(j);
        if is_register(m, *x, v) {
            return true;
        }
    }
    false
}

/// Whether `v` is the variable of a choice.
fn is_choice(choices: &[VarId], v: VarId) -> bool
    ensures { result ≡ has (map number_of choices.now) v.0 }
{
    for j in 0..choices.len() {
        if v.0 == choices[j].0 {
            return true;
        }
    }
    false
}

/// Whether `v` is a variable of the operation, but not that of its instruction.
pub(crate) fn is_other(m: &Model, p: &Found<'_>, v: VarId) -> bool
    ensures { result ≡ has (other_vars m.now (operation_of p.now)) v.0 }
{
    if is_number(p.vars.cycle, v) {
        return true;
    }
    if is_choice(p.vars.choices.as_slice(), v) {
        return true;
    }
    is_result(m, p, v)
}

/// Whether a variable, where there is one, cannot be 0.
fn lacks_zero(s: &Store, w: Option<VarId>) -> bool
    ensures { result ≡ list_any (lacks_zero s.now.sets) (map number_of (option_to_list w)) }
{
    match w {
        None => false,
        Some(v) => !look::has(s, v, 0),
    }
}

/// Whether the register of a temporary cannot be 0.
fn register_lacks_zero(m: &Model, s: &Store, x: TempId) -> bool
    ensures { result ≡ list_any (lacks_zero s.now.sets) (reg_numbers (slice_get m.now.temps x.0)) }
{
    match m.temps.as_slice().get(x.0 as usize) {
        None => false,
        Some(t) => !look::has(s, t.reg, 0),
    }
}

/// Whether a register of a result cannot be 0.
fn result_lacks_zero(m: &Model, s: &Store, p: &Found<'_>) -> bool
    ensures { result ≡ list_any (lacks_zero s.now.sets) (result_vars m.now (operation_of p.now)) }
{
    for j in 0..p.op.results.len() {
        let x = p.op.results.get(j);
        if register_lacks_zero(m, s, *x) {
            return true;
        }
    }
    false
}

/// Whether the variable of a choice cannot be 0.
fn choice_lacks_zero(s: &Store, choices: &[VarId]) -> bool
    ensures { result ≡ list_any (lacks_zero s.now.sets) (map number_of choices.now) }
{
    for j in 0..choices.len() {
        if !look::has(s, choices[j], 0) {
            return true;
        }
    }
    false
}

/// Whether a variable of the operation, but that of its instruction, cannot be 0.
pub(crate) fn other_lacks_zero(m: &Model, s: &Store, p: &Found<'_>) -> bool
    ensures { result ≡ list_any (lacks_zero s.now.sets) (other_vars m.now (operation_of p.now)) }
{
    if lacks_zero(s, p.vars.cycle) {
        return true;
    }
    if choice_lacks_zero(s, p.vars.choices.as_slice()) {
        return true;
    }
    result_lacks_zero(m, s, p)
}

/// The variable of an operation's time.
pub fn time(p: &Found<'_>) -> Option<VarId>
    ensures { result ≡ time_of (operation_of p.now) }
{
    match p.op.kind {
        ExtKind::In => None,
        ExtKind::Out => Some(p.end),
        _ => p.vars.cycle,
    }
}

/// The least cycle that is left to an operation.
pub fn least_cycle(s: &Store, p: &Found<'_>) -> Option<u32>
    ensures { result ≡ least_of (cycles s.now.sets (operation_of p.now)) }
{
    match time(p) {
        None => Some(0),
        Some(v) => look::least(s, v),
    }
}

/// The greatest cycle that is left to an operation.
pub fn greatest_cycle(s: &Store, p: &Found<'_>) -> Option<u32>
    ensures { result ≡ greatest_of (cycles s.now.sets (operation_of p.now)) }
{
    match time(p) {
        None => Some(0),
        Some(v) => look::greatest(s, v),
    }
}

/// The least cycle in which an operation gives its results.
pub(crate) fn giving_cycle(s: &Store, p: &Found<'_>) -> Option<u32>
    ensures { result ≡ least_of (giving_cycles s.now.sets (operation_of p.now)) }
{
    if p.op.kind.is_in() {
        return Some(0);
    }
    match time(p) {
        None => None,
        Some(v) => look::least_positive(s, v),
    }
}

/// Whether an operation is active in all of the box.
pub fn is_sure(s: &Store, p: &Found<'_>) -> bool
    ensures { IsTrue result ↔ IsSure s.now.sets (operation_of p.now) }
{
    look::is_never_zero(s, p.vars.instr)
}

/// Whether an operation is active nowhere in the box.
pub fn is_off(s: &Store, p: &Found<'_>) -> bool
    ensures { IsTrue result ↔ IsOff s.now.sets (operation_of p.now) }
{
    look::is_zero_alone(s, p.vars.instr)
}

/// One more than the greatest number of an instruction that is left to this variable.
fn numbers_end(s: &Store, w: Option<VarId>) -> u64
    ensures above { (n : ℕ) → has (instrs_by s.now.sets w) n ≡ true → n < result }
    ensures small { result ≤ 2 ^ 32 }
{
    match w {
        None => 1,
        Some(v) => look::end(s, v),
    }
}

/// Whether instruction `n` is left to this variable.
fn has_number(s: &Store, w: Option<VarId>, n: u32) -> bool
    ensures { result ≡ has (instrs_by s.now.sets w) n }
{
    match w {
        None => n == 0,
        Some(v) => 0 < n && look::has(s, v, n),
    }
}

/// One more than the greatest number of an instruction that is left to an operation.
pub fn instr_end(s: &Store, p: &Found<'_>) -> u64
    ensures above { (n : ℕ) → has (instrs s.now.sets (operation_of p.now)) n ≡ true → n < result }
    ensures small { result ≤ 2 ^ 32 }
{
    numbers_end(s, p.vars.instr)
}

/// Whether instruction `n` is left to an operation.
pub fn has_instr(s: &Store, p: &Found<'_>, n: u32) -> bool
    ensures { result ≡ has (instrs s.now.sets (operation_of p.now)) n }
{
    has_number(s, p.vars.instr, n)
}

/// Whether an instruction is left to this variable.
fn has_some_number(s: &Store, w: Option<VarId>) -> bool
    ensures { IsTrue result ↔ (0 < length (instrs_by s.now.sets w)) }
{
    match w {
        None => true,
        Some(v) => {
            let least = look::least_positive(s, v);
            least.is_some()
        }
    }
}

/// Whether an instruction is left to an operation.
pub(crate) fn has_some_instr(s: &Store, p: &Found<'_>) -> bool
    ensures { IsTrue result ↔ (0 < length (instrs s.now.sets (operation_of p.now))) }
{
    has_some_number(s, p.vars.instr)
}
