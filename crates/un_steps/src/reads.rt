//! What an operation may read.

ghost use Rattle.std.specs.Prelude.{◌≡◌, ◌↔◌, ◌+◌, ◌^◌, ℕ, ◌<◌, ◌≤◌, IsTrue, IsSomeAnd, true, List, [], ◌∷◌, length, slice_get};
ghost use Rattle.std.specs.Option.{option_map};
ghost use Rattle.un_domains.specs.Sets.{set_at, has};
ghost use Rattle.un_model.specs.Instructions.{instruction_of, space_read};
ghost use Rattle.un_model.specs.Solutions.{InSpace};
ghost use Rattle.un_steps.specs.Found.{operation_of, alternative_of};
ghost use Rattle.un_steps.specs.Words.{alternative, alternative_in, alternative_by, instrs, regs, gap_by, cycles, greatest_of, least_of, giving_cycles};
ghost use Rattle.un_steps.specs.Rules.{IsLateFor, WaitsPast, HasNoSpace, ShareNone};

use crate::look;
use crate::operation::{
    Found, giving_cycle, greatest_cycle, has_instr, has_reg, has_some_instr, instr_end, temp_vars,
};
use un_base::ids::{TempId, VarId};
use un_domains::store::Store;
use un_ir::extended::Operand;
use un_isa::facts::operand_space;
use un_isa::op::Op;
use un_isa::reg::{Space, space_of};
use un_model::instructions::{gap, instruction};
use un_model::model::Model;

/// An alternative of an operand.
#[derive(Clone, Copy)]
pub struct Alternate<'a> {
    /// The place of the operand.
    pub at: usize,
    /// The operand.
    pub operand: &'a Operand,
    /// The temporary that it chooses.
    pub temp: TempId,
}

/// Alternative `y` of the operand at place `j`.
fn alternative_at(j: usize, operand: &Operand, y: u32) -> Option<Alternate<'_>>
    ensures { option_map alternative_of result ≡ alternative_by j operand.now (slice_get operand.now.alts y) }
{
    match operand.alts.as_slice().get(y as usize) {
        None => None,
        Some(x) => Some(Alternate {
            at: j,
            operand,
            temp: *x,
        }),
    }
}

/// Alternative `y` of the operand whose choice is `v`.
fn picked<'a>(choices: &[VarId], operands: &'a [Operand], v: VarId, y: u32) -> Option<Alternate<'a>>
    ensures { option_map alternative_of result ≡ alternative_in v.0 y 0 choices.now operands.now }
{
    for j in 0..choices.len().min(operands.len()) {
        if choices[j].0 == v.0 {
            return alternative_at(j, &operands[j], y);
        }
    }
    None
}

/// Alternative `y` of the operand of an operation whose choice is `v`.
pub fn alternative<'a>(p: &Found<'a>, v: VarId, y: u32) -> Option<Alternate<'a>>
    ensures { option_map alternative_of result ≡ alternative (operation_of p.now) v.0 y }
{
    picked(p.vars.choices.as_slice(), p.op.operands.as_slice(), v, y)
}

/// Whether a register lies in a space.
pub fn in_space(reg: u32, space: Option<Space>) -> bool
    ensures { IsTrue result ↔ InSpace reg space }
{
    match space {
        None => true,
        Some(Space::R) => matches!(space_of(reg), Space::R),
        Some(Space::P) => matches!(space_of(reg), Space::P),
        Some(Space::M) => matches!(space_of(reg), Space::M),
    }
}

/// The space that an instruction asks of its operand at place `j`.
pub fn space_read(instruction: Option<Op>, j: usize) -> Option<Space>
    ensures { result ≡ space_read instruction j }
{
    match instruction {
        None => None,
        Some(Op::Reload) => Some(Space::M),
        Some(op) => operand_space(op, j),
    }
}

/// Whether register `r` is left to `v` and lies in a space.
pub(crate) fn is_left_in(s: &Store, v: VarId, r: u32, space: Option<Space>) -> bool
    ensures { IsTrue result ↔ ((has (set_at s.now.sets v.0) r ≡ true) × InSpace r space) }
{
    look::has(s, v, r) && in_space(r, space)
}

/// Whether no register in a space is left to `v`.
fn none_left_in(s: &Store, v: VarId, space: Option<Space>) -> bool
    ensures { IsTrue result ↔ ((r : ℕ) → has (set_at s.now.sets v.0) r ≡ true → InSpace r space → ⊥) }
{
    let end = look::end(s, v);
    for r in 0..end {
        if is_left_in(s, v, r as u32, space) {
            return false;
        }
    }
    true
}

/// Whether no register in a space is left to a temporary.
fn has_none_in(m: &Model, s: &Store, x: TempId, space: Option<Space>) -> bool
    ensures { IsTrue result ↔ ((r : ℕ) → has (regs m.now s.now.sets x) r ≡ true → InSpace r space → ⊥) }
{
    match temp_vars(m, x) {
        None => true,
        Some(t) => none_left_in(s, t.reg, space),
    }
}

/// Whether an alternative has no register in the operand's space where the operation has instruction `n`.
fn has_none_for(m: &Model, s: &Store, p: &Found<'_>, a: &Alternate<'_>, n: u32) -> bool
    ensures { IsTrue result ↔ ((r : ℕ) → has (regs m.now s.now.sets a.now.temp) r ≡ true
        → InSpace r (space_read (instruction_of p.now.op.now.kind n) a.now.at) → ⊥) }
{
    let space = space_read(instruction(&p.op.kind, n), a.at);
    has_none_in(m, s, a.temp, space)
}

/// Whether an alternative has no register in the operand's space for instruction `n`, if that is left.
fn spares(m: &Model, s: &Store, p: &Found<'_>, a: &Alternate<'_>, n: u32) -> bool
    ensures { IsTrue result ↔ (has (instrs s.now.sets (operation_of p.now)) n ≡ true → (r : ℕ)
        → has (regs m.now s.now.sets a.now.temp) r ≡ true → InSpace r (space_read (instruction_of p.now.op.now.kind n) a.now.at) → ⊥) }
{
    if !has_instr(s, p, n) {
        return true;
    }
    has_none_for(m, s, p, a, n)
}

/// Whether an alternative has no register in the operand's space, whatever the instruction.
pub(crate) fn has_no_space(m: &Model, s: &Store, p: &Found<'_>, a: &Alternate<'_>) -> bool
    ensures { IsTrue result ↔ HasNoSpace m.now s.now.sets (operation_of p.now) (alternative_of a.now) }
{
    let end = instr_end(s, p);
    for n in 0..end {
        if !spares(m, s, p, a, n as u32) {
            return false;
        }
    }
    true
}

/// Whether `p`, with instruction `j` if that is left, waits for `d`, with instruction `i`, past a cycle.
fn waits_with(
    m: &Model,
    s: &Store,
    p: &Found<'_>,
    d: &Found<'_>,
    last: u32,
    c: u32,
    i: u32,
    j: u32,
) -> bool
    ensures { IsTrue result ↔ (has (instrs s.now.sets (operation_of p.now)) j ≡ true
        → last < c + gap_by m.now (operation_of d.now) (operation_of p.now) i j) }
{
    if !has_instr(s, p, j) {
        return true;
    }
    let n = gap(
        &m.ext.table,
        instruction(&d.op.kind, i),
        instruction(&p.op.kind, j),
    );
    u64::from(last) < u64::from(c) + u64::from(n)
}

/// Whether `p`, whatever its instruction, waits for `d`, with instruction `i`, past a cycle.
fn waits_for(m: &Model, s: &Store, p: &Found<'_>, d: &Found<'_>, last: u32, c: u32, i: u32) -> bool
    ensures { IsTrue result ↔ ((j : ℕ) → has (instrs s.now.sets (operation_of p.now)) j ≡ true
        → last < c + gap_by m.now (operation_of d.now) (operation_of p.now) i j) }
{
    let end = instr_end(s, p);
    for j in 0..end {
        if !waits_with(m, s, p, d, last, c, i, j as u32) {
            return false;
        }
    }
    true
}

/// Whether `p` waits for `d`, with instruction `i` if that is left, past a cycle.
fn waits_if(m: &Model, s: &Store, p: &Found<'_>, d: &Found<'_>, last: u32, c: u32, i: u32) -> bool
    ensures { IsTrue result ↔ (has (instrs s.now.sets (operation_of d.now)) i ≡ true → (j : ℕ)
        → has (instrs s.now.sets (operation_of p.now)) j ≡ true → last < c + gap_by m.now (operation_of d.now) (operation_of p.now) i j) }
{
    if !has_instr(s, d, i) {
        return true;
    }
    waits_for(m, s, p, d, last, c, i)
}

/// Whether `p` waits for `d`, whatever the instructions of the two, past a cycle.
fn waits(m: &Model, s: &Store, p: &Found<'_>, d: &Found<'_>, last: u32, c: u32) -> bool
    ensures { IsTrue result ↔ ((i j : ℕ) → has (instrs s.now.sets (operation_of d.now)) i ≡ true
        → has (instrs s.now.sets (operation_of p.now)) j ≡ true → last < c + gap_by m.now (operation_of d.now) (operation_of p.now) i j) }
{
    let end = instr_end(s, d);
    for i in 0..end {
        if !waits_if(m, s, p, d, last, c, i as u32) {
            return false;
        }
    }
    true
}

/// Whether `p` waits past a cycle for `d`, which gives in cycle `c`, and an instruction is left to each.
fn waits_past(m: &Model, s: &Store, p: &Found<'_>, d: &Found<'_>, last: u32, c: u32) -> bool
    ensures { IsTrue result ↔ WaitsPast m.now s.now.sets (operation_of p.now) (operation_of d.now) last c }
{
    if !has_some_instr(s, d) {
        return false;
    }
    if !has_some_instr(s, p) {
        return false;
    }
    waits(m, s, p, d, last, c)
}

/// Whether what `d` gives in cycle `c` comes too late for `p`.
fn is_late_from(m: &Model, s: &Store, p: &Found<'_>, d: &Found<'_>, c: u32) -> bool
    ensures { IsTrue result ↔ IsSomeAnd (greatest_of (cycles s.now.sets (operation_of p.now)))
        (λ last. WaitsPast m.now s.now.sets (operation_of p.now) (operation_of d.now) last c) }
{
    match greatest_cycle(s, p) {
        None => false,
        Some(last) => waits_past(m, s, p, d, last, c),
    }
}

/// Whether what `d` gives is given too late for `p`.
pub(crate) fn is_late_for(m: &Model, s: &Store, p: &Found<'_>, d: &Found<'_>) -> bool
    ensures { IsTrue result ↔ IsLateFor m.now s.now.sets (operation_of p.now) (operation_of d.now) }
{
    match giving_cycle(s, d) {
        None => false,
        Some(c) => is_late_from(m, s, p, d, c),
    }
}

/// Whether register `r` is left to `v` and to a temporary.
fn is_shared(m: &Model, s: &Store, v: VarId, z: TempId, r: u32) -> bool
    ensures { IsTrue result ↔ ((has (set_at s.now.sets v.0) r ≡ true) × (has (regs m.now s.now.sets z) r ≡ true)) }
{
    look::has(s, v, r) && has_reg(m, s, z, r)
}

/// Whether no register is left to `v` and to a temporary.
fn shares_none(m: &Model, s: &Store, v: VarId, z: TempId) -> bool
    ensures { IsTrue result ↔ ((r : ℕ) → has (set_at s.now.sets v.0) r ≡ true → has (regs m.now s.now.sets z) r ≡ true → ⊥) }
{
    let end = look::end(s, v);
    for r in 0..end {
        if is_shared(m, s, v, z, r as u32) {
            return false;
        }
    }
    true
}

/// Whether two temporaries share no register.
pub fn share_none(m: &Model, s: &Store, x: TempId, z: TempId) -> bool
    ensures { IsTrue result ↔ ShareNone m.now s.now.sets x z }
{
    match m.temps.as_slice().get(x.0 as usize) {
        None => true,
        Some(t) => shares_none(m, s, t.reg, z),
    }
}
