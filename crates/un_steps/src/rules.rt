//! The first twelve rules: whether a value may go.

ghost use Rattle.std.specs.Prelude.{◌≡◌, ◌≢◌, ◌↔◌, ◌+◌, ◌-◌, ◌*◌, ◌^◌, ◌<◌, ◌≤◌, ◌⊎◌, ℕ, IsTrue, IsSomeAnd, true, false, List, [], ◌∷◌, length, slice_get, Contains};
ghost use Rattle.un_base.specs.declared.ids.TempId.{TempId};
ghost use Rattle.un_ir.specs.Extended.{is_copy};
ghost use Rattle.un_ir.specs.Linear.{is_out, place_over};
ghost use Rattle.un_ir.specs.Live.{targets_of};
ghost use Rattle.un_domains.specs.Sets.{set_at, has};
ghost use Rattle.un_model.specs.Arcs.{own_instr, value_read};
ghost use Rattle.un_model.specs.Congruences.{term_of, live_in_temps};
ghost use Rattle.un_model.specs.Instructions.{instruction_of, space_given};
ghost use Rattle.un_model.specs.Solutions.{InSpace};
ghost use Rattle.un_steps.specs.Found.{operation_of, alternative_of};
ghost use Rattle.un_steps.specs.Rules.{IsTooSoon, IsIdle, IsPastEnd, IsOutsideBlock, IsFromIdle, IsTooLateFor, IsOutsideSpace, IsNoSpace};
ghost use Rattle.un_steps.specs.Rules.{IsAlike, IsAlikeAt, HasNoOther, AreOneRegister, IsNotCongruent, HasSuccessor, IsElsewhereIn};
ghost use Rattle.un_steps.specs.Rules.{IsTakenElsewhere, ShareNone, IsTooDear, end_with, cost_with};
ghost use Rattle.un_steps.specs.Rules.{IsNotHome, IsNoFrame, IsAccess, AreAccesses, HasNoSpace, IsLateFor, only};
ghost use Rattle.un_steps.specs.Words.{IsVar, IsOff, time_of, cycles, least_of, greatest_of, definer_of, alternative, regs, choices_by};

use crate::look;
use crate::operation::{
    Found, definer, greatest_cycle, has_reg, is_off, is_other, is_result, is_sure, is_var,
    least_cycle, other_lacks_zero, temp_vars, time,
};
use crate::reads::{
    Alternate, alternative, has_no_space, in_space, is_late_for, is_left_in, share_none, space_read,
};
use un_base::ids::{TempId, VarId};
use un_domains::store::Store;
use un_ir::extended::{ExtBlock, ExtKind, Operand, RELOAD, SPILL};
use un_ir::function::Term;
use un_isa::op::Op;
use un_isa::reg::{Reg, Space};
use un_model::ends::{live_in_temps, place, term};
use un_model::instructions::{instruction, space_given};
use un_model::model::{BlockVars, Model};

/// Whether cycle `y` is before the least cycle of an operation and a gap.
fn is_early(s: &Store, from: &Found<'_>, gap: u32, y: u32) -> bool
    ensures { IsTrue result ↔ IsSomeAnd (least_of (cycles s.now.sets (operation_of from.now))) (λ c. y < c + gap) }
{
    match least_cycle(s, from) {
        None => false,
        Some(c) => u64::from(y) < u64::from(c) + u64::from(gap),
    }
}

/// Whether cycle `y` and a gap lead past the greatest cycle of an operation.
fn is_late(s: &Store, to: &Found<'_>, gap: u32, y: u32) -> bool
    ensures { IsTrue result ↔ IsSomeAnd (greatest_of (cycles s.now.sets (operation_of to.now))) (λ c. c < y + gap) }
{
    match greatest_cycle(s, to) {
        None => false,
        Some(c) => u64::from(c) < u64::from(y) + u64::from(gap),
    }
}

/// 1: of an arc, cycles too close to its other end.
pub(crate) fn is_too_soon(
    s: &Store,
    from: &Found<'_>,
    to: &Found<'_>,
    gap: u32,
    v: VarId,
    y: u32,
) -> bool
    ensures { IsTrue result ↔ IsTooSoon s.now.sets (operation_of from.now) (operation_of to.now) gap v.0 y }
{
    (is_var(time(to), v) && is_early(s, from, gap, y))
        || (is_var(time(from), v) && is_late(s, to, gap, y))
}

/// 2: of an operation that is off, all but 0; and that it is off, where another of its variables cannot be 0.
pub fn is_idle(m: &Model, s: &Store, p: &Found<'_>, v: VarId, y: u32) -> bool
    ensures { IsTrue result ↔ IsIdle m.now s.now.sets (operation_of p.now) v.0 y }
{
    (is_off(s, p) && is_other(m, p, v) && 0 < y)
        || (is_var(p.vars.instr, v) && y == 0 && other_lacks_zero(m, s, p))
}

/// Whether cycle `y` is not before the greatest end.
fn is_past_end(s: &Store, p: &Found<'_>, y: u32) -> bool
    ensures { IsTrue result ↔ IsPastEnd s.now.sets (operation_of p.now) y }
{
    match look::greatest(s, p.end) {
        None => false,
        Some(end) => end <= y,
    }
}

/// Whether end `y` is not after the least cycle.
fn is_before_cycle(s: &Store, p: &Found<'_>, y: u32) -> bool
    ensures { IsTrue result ↔ IsSomeAnd (least_of (cycles s.now.sets (operation_of p.now))) (λ c. y ≤ c) }
{
    match least_cycle(s, p) {
        None => false,
        Some(c) => y <= c,
    }
}

/// Whether cycle `y` is 0 or not before the greatest end.
fn is_bad_cycle(s: &Store, p: &Found<'_>, y: u32) -> bool
    ensures { IsTrue result ↔ ((y ≡ 0) ⊎ IsPastEnd s.now.sets (operation_of p.now) y) }
{
    y == 0 || is_past_end(s, p, y)
}

/// Whether a cycle or an end leaves no place in the block.
fn leaves_no_place(s: &Store, p: &Found<'_>, v: VarId, y: u32) -> bool
    ensures { IsTrue result ↔ ((IsVar p.now.vars.now.cycle v.0 × ((y ≡ 0) ⊎ IsPastEnd s.now.sets (operation_of p.now) y))
        ⊎ ((p.now.end.0 ≡ v.0) × IsSomeAnd (least_of (cycles s.now.sets (operation_of p.now))) (λ c. y ≤ c))) }
{
    (is_var(p.vars.cycle, v) && is_bad_cycle(s, p, y))
        || (p.end.0 == v.0 && is_before_cycle(s, p, y))
}

/// 3: of an operation that is sure, cycles outside its block, and ends that leave it outside.
pub(crate) fn is_outside_block(s: &Store, p: &Found<'_>, v: VarId, y: u32) -> bool
    ensures { IsTrue result ↔ IsOutsideBlock s.now.sets (operation_of p.now) v.0 y }
{
    !p.op.kind.is_delimiter() && is_sure(s, p) && leaves_no_place(s, p, v, y)
}

/// Whether the definer of an alternative is off.
fn is_from_off(m: &Model, s: &Store, x: TempId) -> bool
    ensures { IsTrue result ↔ IsSomeAnd (definer_of m.now x) (IsOff s.now.sets) }
{
    match definer(m, x) {
        None => false,
        Some(d) => is_off(s, &d),
    }
}

/// Whether the definer of alternative `y` is off.
fn chooses_off(m: &Model, s: &Store, p: &Found<'_>, v: VarId, y: u32) -> bool
    ensures { IsTrue result ↔ IsSomeAnd (alternative (operation_of p.now) v.0 y)
        (λ a. IsSomeAnd (definer_of m.now a.temp) (IsOff s.now.sets)) }
{
    match alternative(p, v, y) {
        None => false,
        Some(a) => is_from_off(m, s, a.temp),
    }
}

/// 4: of an operation that is sure, alternatives whose definer is off.
pub(crate) fn is_from_idle(m: &Model, s: &Store, p: &Found<'_>, v: VarId, y: u32) -> bool
    ensures { IsTrue result ↔ IsFromIdle m.now s.now.sets (operation_of p.now) v.0 y }
{
    is_sure(s, p) && chooses_off(m, s, p, v, y)
}

/// Whether a temporary is given too late.
fn is_given_late(m: &Model, s: &Store, p: &Found<'_>, x: TempId) -> bool
    ensures { IsTrue result ↔ IsSomeAnd (definer_of m.now x) (IsLateFor m.now s.now.sets (operation_of p.now)) }
{
    match definer(m, x) {
        None => false,
        Some(d) => is_late_for(m, s, p, &d),
    }
}

/// Whether alternative `y` is given too late.
fn chooses_late(m: &Model, s: &Store, p: &Found<'_>, v: VarId, y: u32) -> bool
    ensures { IsTrue result ↔ IsSomeAnd (alternative (operation_of p.now) v.0 y)
        (λ a. IsSomeAnd (definer_of m.now a.temp) (IsLateFor m.now s.now.sets (operation_of p.now))) }
{
    match alternative(p, v, y) {
        None => false,
        Some(a) => is_given_late(m, s, p, a.temp),
    }
}

/// 5: of an operation that is sure, alternatives that are given too late.
pub(crate) fn is_too_late_for(m: &Model, s: &Store, p: &Found<'_>, v: VarId, y: u32) -> bool
    ensures { IsTrue result ↔ IsTooLateFor m.now s.now.sets (operation_of p.now) v.0 y }
{
    is_sure(s, p) && chooses_late(m, s, p, v, y)
}

/// The one value that is left to a variable, where there is one alone.
fn only(s: &Store, v: VarId) -> Option<u32>
    ensures { result ≡ only (set_at s.now.sets v.0) }
{
    if look::size(s, v) != 1 {
        return None;
    }
    look::least(s, v)
}

/// Whether register `y` is outside the space of what a copy with this one instruction gives.
fn is_outside_of(kind: &ExtKind, n: u32, y: u32) -> bool
    ensures { IsTrue result ↔ ((0 < n) × (InSpace y (space_given (instruction_of kind.now n)) → ⊥)) }
{
    0 < n && !in_space(y, space_given(instruction(kind, n)))
}

/// The same where the instruction is that of a variable.
fn is_outside_by(s: &Store, kind: &ExtKind, i: VarId, y: u32) -> bool
    ensures { IsTrue result ↔ IsSomeAnd (only (set_at s.now.sets i.0)) (λ n. (0 < n) × (InSpace y (space_given (instruction_of kind.now n)) → ⊥)) }
{
    match only(s, i) {
        None => false,
        Some(n) => is_outside_of(kind, n, y),
    }
}

/// The same, where there is that variable.
fn is_outside_in(s: &Store, kind: &ExtKind, i: Option<VarId>, y: u32) -> bool
    ensures { IsTrue result ↔ IsSomeAnd i (λ w. IsSomeAnd (only (set_at s.now.sets w.0))
        (λ n. (0 < n) × (InSpace y (space_given (instruction_of kind.now n)) → ⊥))) }
{
    match i {
        None => false,
        Some(w) => is_outside_by(s, kind, w, y),
    }
}

/// 6: of a copy with one instruction, registers outside the space of its result.
pub(crate) fn is_outside_space(m: &Model, s: &Store, p: &Found<'_>, v: VarId, y: u32) -> bool
    ensures { IsTrue result ↔ IsOutsideSpace m.now s.now.sets (operation_of p.now) v.0 y }
{
    p.op.kind.is_copy() && is_result(m, p, v) && is_outside_in(s, &p.op.kind, p.vars.instr, y)
}

/// Whether an operation is a block's end.
fn is_out(kind: &ExtKind) -> bool
    ensures { result ≡ is_out kind.now }
{
    matches!(kind, ExtKind::Out)
}

/// Whether alternative `y` has no space.
fn chooses_no_space(m: &Model, s: &Store, p: &Found<'_>, v: VarId, y: u32) -> bool
    ensures { IsTrue result ↔ IsSomeAnd (alternative (operation_of p.now) v.0 y) (HasNoSpace m.now s.now.sets (operation_of p.now)) }
{
    match alternative(p, v, y) {
        None => false,
        Some(a) => has_no_space(m, s, p, &a),
    }
}

/// 7: of an operation that is sure, alternatives without a register in the operand's space.
pub(crate) fn is_no_space(m: &Model, s: &Store, p: &Found<'_>, v: VarId, y: u32) -> bool
    ensures { IsTrue result ↔ IsNoSpace m.now s.now.sets (operation_of p.now) v.0 y }
{
    !is_out(&p.op.kind) && is_sure(s, p) && chooses_no_space(m, s, p, v, y)
}

/// Whether a temporary cannot be at a home.
fn is_away(m: &Model, s: &Store, x: TempId, home: Option<Reg>) -> bool
    ensures { IsTrue result ↔ IsSomeAnd home (λ r. has (regs m.now s.now.sets x) r.0 ≡ false) }
{
    match home {
        None => false,
        Some(r) => !has_reg(m, s, x, r.0),
    }
}

/// 9: of an operand with a home, alternatives that cannot be there.
pub(crate) fn is_not_home(m: &Model, s: &Store, p: &Found<'_>, v: VarId, y: u32) -> bool
    ensures { IsTrue result ↔ IsNotHome m.now s.now.sets (operation_of p.now) v.0 y }
{
    match alternative(p, v, y) {
        None => false,
        Some(a) => is_away(m, s, a.temp, a.operand.home),
    }
}

/// Whether an instruction of a copy accesses the frame.
fn is_access(n: u32) -> bool
    ensures { IsTrue result ↔ IsAccess n }
{
    n == SPILL || n == RELOAD
}

/// Whether an instruction is not left to a copy, or accesses the frame.
fn is_access_if(s: &Store, i: VarId, n: u32) -> bool
    ensures { IsTrue result ↔ (has (set_at s.now.sets i.0) n ≡ true → IsAccess n) }
{
    if !look::has(s, i, n) {
        return true;
    }
    is_access(n)
}

/// Whether all instructions that are left to a copy access the frame.
fn all_access(s: &Store, i: VarId) -> bool
    ensures { IsTrue result ↔ ((n : ℕ) → has (set_at s.now.sets i.0) n ≡ true → IsAccess n) }
{
    let end = look::end(s, i);
    for n in 0..end {
        if !is_access_if(s, i, n as u32) {
            return false;
        }
    }
    true
}

/// Whether instructions are left to a copy, and all access the frame.
fn are_accesses(s: &Store, i: VarId) -> bool
    ensures { IsTrue result ↔ AreAccesses (set_at s.now.sets i.0) }
{
    0 < look::size(s, i) && all_access(s, i)
}

/// The values that go by a copy's instruction variable.
fn is_frameless(m: &Model, s: &Store, i: VarId, v: VarId, y: u32) -> bool
    ensures { IsTrue result ↔ (((set_at s.now.sets m.now.flag.0 ≡ 0 ∷ []) × (i.0 ≡ v.0) × IsAccess y)
        ⊎ ((m.now.flag.0 ≡ v.0) × (y ≡ 0) × AreAccesses (set_at s.now.sets i.0))) }
{
    (look::is_only(s, m.flag, 0) && i.0 == v.0 && is_access(y))
        || (m.flag.0 == v.0 && y == 0 && are_accesses(s, i))
}

/// The same, where there is that variable.
fn is_frameless_in(m: &Model, s: &Store, i: Option<VarId>, v: VarId, y: u32) -> bool
    ensures { IsTrue result ↔ IsSomeAnd i (λ w. ((set_at s.now.sets m.now.flag.0 ≡ 0 ∷ []) × (w.0 ≡ v.0) × IsAccess y)
        ⊎ ((m.now.flag.0 ≡ v.0) × (y ≡ 0) × AreAccesses (set_at s.now.sets w.0))) }
{
    match i {
        None => false,
        Some(w) => is_frameless(m, s, w, v, y),
    }
}

/// 12: without a frame, the instructions of a copy that access it; and that there is none, where a copy has these alone.
pub(crate) fn is_no_frame(m: &Model, s: &Store, p: &Found<'_>, v: VarId, y: u32) -> bool
    ensures { IsTrue result ↔ IsNoFrame m.now s.now.sets (operation_of p.now) v.0 y }
{
    p.op.kind.is_copy() && is_frameless_in(m, s, p.vars.instr, v, y)
}

/// Whether `q` is not left to `v` in a space, or is `r`.
fn is_same_if(s: &Store, v: VarId, space: Option<Space>, r: u32, q: u32) -> bool
    ensures { IsTrue result ↔ (has (set_at s.now.sets v.0) q ≡ true → InSpace q space → r ≡ q) }
{
    if !is_left_in(s, v, q, space) {
        return true;
    }
    r == q
}

/// Whether `r` is the one register that is left to `v` in a space.
fn is_one(s: &Store, v: VarId, space: Option<Space>, r: u32) -> bool
    ensures { IsTrue result ↔ ((q : ℕ) → has (set_at s.now.sets v.0) q ≡ true → InSpace q space → r ≡ q) }
{
    let end = look::end(s, v);
    for q in 0..end {
        if !is_same_if(s, v, space, r, q as u32) {
            return false;
        }
    }
    true
}

/// Whether `r` is the one register that is left to a temporary in a space.
fn is_one_of(m: &Model, s: &Store, z: TempId, space: Option<Space>, r: u32) -> bool
    ensures { IsTrue result ↔ ((q : ℕ) → has (regs m.now s.now.sets z) q ≡ true → InSpace q space → r ≡ q) }
{
    match temp_vars(m, z) {
        None => true,
        Some(t) => is_one(s, t.reg, space, r),
    }
}

/// Whether `r` is not left to `v` in a space, or is the one register of another temporary in one.
fn is_one_if(
    m: &Model,
    s: &Store,
    v: VarId,
    of_v: Option<Space>,
    z: TempId,
    of_z: Option<Space>,
    r: u32,
) -> bool
    ensures { IsTrue result ↔ (has (set_at s.now.sets v.0) r ≡ true → InSpace r of_v
        → (q : ℕ) → has (regs m.now s.now.sets z) q ≡ true → InSpace q of_z → r ≡ q) }
{
    if !is_left_in(s, v, r, of_v) {
        return true;
    }
    is_one_of(m, s, z, of_z, r)
}

/// Whether each register of `v` in a space is the one register of another temporary in one.
fn are_one_by(
    m: &Model,
    s: &Store,
    v: VarId,
    of_v: Option<Space>,
    z: TempId,
    of_z: Option<Space>,
) -> bool
    ensures { IsTrue result ↔ ((r : ℕ) → has (set_at s.now.sets v.0) r ≡ true → InSpace r of_v
        → (q : ℕ) → has (regs m.now s.now.sets z) q ≡ true → InSpace q of_z → r ≡ q) }
{
    let end = look::end(s, v);
    for r in 0..end {
        if !is_one_if(m, s, v, of_v, z, of_z, r as u32) {
            return false;
        }
    }
    true
}

/// Whether two temporaries have no two registers in these spaces.
fn are_one(
    m: &Model,
    s: &Store,
    x: TempId,
    of_x: Option<Space>,
    z: TempId,
    of_z: Option<Space>,
) -> bool
    ensures { IsTrue result ↔ ((r : ℕ) → has (regs m.now s.now.sets x) r ≡ true → InSpace r of_x
        → (q : ℕ) → has (regs m.now s.now.sets z) q ≡ true → InSpace q of_z → r ≡ q) }
{
    match temp_vars(m, x) {
        None => true,
        Some(t) => are_one_by(m, s, t.reg, of_x, z, of_z),
    }
}

/// The instruction of an operation that cannot be left out.
fn own_instr(p: &Found<'_>) -> Option<Op>
    ensures { result ≡ own_instr p.now.op.now }
{
    instruction(&p.op.kind, 0)
}

/// Whether the temporaries at the places of an alternative and of operand `k` have no two registers.
fn are_one_at(m: &Model, s: &Store, p: &Found<'_>, a: &Alternate<'_>, k: usize, z: TempId) -> bool
    ensures { IsTrue result ↔ AreOneRegister m.now s.now.sets (operation_of p.now) a.now.at a.now.temp k z }
{
    let of_x = space_read(own_instr(p), a.at);
    let of_z = space_read(own_instr(p), k);
    are_one(m, s, a.temp, of_x, z, of_z)
}

/// One more than the greatest alternative that is left to a choice.
fn choice_end(s: &Store, w: Option<VarId>) -> u64
    ensures above { (i : ℕ) → has (choices_by s.now.sets w) i ≡ true → i < result }
    ensures small { result ≤ 2 ^ 32 }
{
    match w {
        None => 1,
        Some(v) => look::end(s, v),
    }
}

/// Whether alternative `i` is left to a choice.
fn is_choice_left(s: &Store, w: Option<VarId>, i: u32) -> bool
    ensures { result ≡ has (choices_by s.now.sets w) i }
{
    match w {
        None => i == 0,
        Some(v) => look::has(s, v, i),
    }
}

/// Alternative `i` of an operand, where there is one.
fn temp_at(b: &Operand, i: u32) -> Option<TempId>
    ensures { result ≡ slice_get b.now.alts i }
{
    b.alts.as_slice().get(i as usize).copied()
}

/// Whether alternative `i` of operand `k` is not there, or has no other register.
fn is_alternative_one(
    m: &Model,
    s: &Store,
    p: &Found<'_>,
    a: &Alternate<'_>,
    k: usize,
    b: &Operand,
    i: u32,
) -> bool
    ensures { IsTrue result ↔ ((z : TempId) → slice_get b.now.alts i ≡ Some z
        → AreOneRegister m.now s.now.sets (operation_of p.now) a.now.at a.now.temp k z) }
{
    match temp_at(b, i) {
        None => true,
        Some(z) => are_one_at(m, s, p, a, k, z),
    }
}

/// Whether alternative `i` of operand `k` is not left, or has no other register.
fn is_choice_one(
    m: &Model,
    s: &Store,
    p: &Found<'_>,
    a: &Alternate<'_>,
    k: usize,
    b: &Operand,
    w: Option<VarId>,
    i: u32,
) -> bool
    ensures { IsTrue result ↔ (has (choices_by s.now.sets w) i ≡ true → (z : TempId) → slice_get b.now.alts i ≡ Some z
        → AreOneRegister m.now s.now.sets (operation_of p.now) a.now.at a.now.temp k z) }
{
    if !is_choice_left(s, w, i) {
        return true;
    }
    is_alternative_one(m, s, p, a, k, b, i)
}

/// Whether operand `k`, which has this choice, is left no other register.
fn is_left_no_other(
    m: &Model,
    s: &Store,
    p: &Found<'_>,
    a: &Alternate<'_>,
    k: usize,
    b: &Operand,
    w: Option<VarId>,
) -> bool
    ensures { IsTrue result ↔ ((i : ℕ) → has (choices_by s.now.sets w) i ≡ true → (z : TempId) → slice_get b.now.alts i ≡ Some z
        → AreOneRegister m.now s.now.sets (operation_of p.now) a.now.at a.now.temp k z) }
{
    let end = choice_end(s, w);
    for i in 0..end {
        if !is_choice_one(m, s, p, a, k, b, w, i as u32) {
            return false;
        }
    }
    true
}

/// Whether operand `k` is left no other register.
fn has_no_other(
    m: &Model,
    s: &Store,
    p: &Found<'_>,
    a: &Alternate<'_>,
    k: usize,
    b: &Operand,
) -> bool
    ensures { IsTrue result ↔ HasNoOther m.now s.now.sets (operation_of p.now) (alternative_of a.now) k b.now }
{
    let w = p.vars.choices.as_slice().get(k).copied();
    is_left_no_other(m, s, p, a, k, b, w)
}

/// The value that an operand reads.
fn value_read(x: &Operand) -> TempId
    ensures { result ≡ value_read x.now }
{
    x.alts.as_slice().get(0).copied().unwrap_or(TempId(0))
}

/// Whether two operands read different values.
fn reads_other(a: &Operand, b: &Operand) -> bool
    ensures { IsTrue result ↔ (value_read b.now ≢ value_read a.now) }
{
    let x = value_read(a);
    let y = value_read(b);
    y.0 != x.0
}

/// Whether operand `k` reads another value and is left no other register.
fn is_alike_by(
    m: &Model,
    s: &Store,
    p: &Found<'_>,
    a: &Alternate<'_>,
    k: usize,
    b: &Operand,
) -> bool
    ensures { IsTrue result ↔ ((value_read b.now ≢ value_read a.now.operand.now)
        × HasNoOther m.now s.now.sets (operation_of p.now) (alternative_of a.now) k b.now) }
{
    reads_other(a.operand, b) && has_no_other(m, s, p, a, k, b)
}

/// The same, where there is operand `k`.
fn is_alike_at(m: &Model, s: &Store, p: &Found<'_>, a: &Alternate<'_>, k: usize) -> bool
    ensures { IsTrue result ↔ IsAlikeAt m.now s.now.sets (operation_of p.now) (alternative_of a.now) k }
{
    match p.op.operands.as_slice().get(k) {
        None => false,
        Some(b) => is_alike_by(m, s, p, a, k, b),
    }
}

/// The same, of some operand.
fn leaves_one_none(m: &Model, s: &Store, p: &Found<'_>, a: &Alternate<'_>) -> bool
    ensures { IsTrue result ↔ ((k : ℕ) × IsAlikeAt m.now s.now.sets (operation_of p.now) (alternative_of a.now) k) }
{
    for k in 0..p.op.operands.len() {
        if is_alike_at(m, s, p, a, k) {
            return true;
        }
    }
    false
}

/// The same of alternative `y`.
fn chooses_alike(m: &Model, s: &Store, p: &Found<'_>, v: VarId, y: u32) -> bool
    ensures { IsTrue result ↔ IsSomeAnd (alternative (operation_of p.now) v.0 y)
        (λ a. (k : ℕ) × IsAlikeAt m.now s.now.sets (operation_of p.now) a k) }
{
    match alternative(p, v, y) {
        None => false,
        Some(a) => leaves_one_none(m, s, p, &a),
    }
}

/// 8: of an operation that every solution issues, alternatives beside which another operand finds no register.
pub(crate) fn is_alike(m: &Model, s: &Store, p: &Found<'_>, v: VarId, y: u32) -> bool
    ensures { IsTrue result ↔ IsAlike m.now s.now.sets (operation_of p.now) v.0 y }
{
    p.op.kind.is_mandatory() && chooses_alike(m, s, p, v, y)
}

/// Whether a block takes elsewhere what is handed over in an alternative's place.
fn is_taken_at(
    m: &Model,
    s: &Store,
    p: &Found<'_>,
    a: &Alternate<'_>,
    b: &ExtBlock,
    j: usize,
    z: TempId,
) -> bool
    requires { j < 2 ^ 62 }
    ensures { IsTrue result ↔ ((place_over p.now.owner.now b.now j ≡ a.now.at) × ShareNone m.now s.now.sets a.now.temp z) }
{
    place(p.owner, b, j) == a.at && share_none(m, s, a.temp, z)
}

/// The same, at some place of what the block takes.
fn is_taken_elsewhere(m: &Model, s: &Store, p: &Found<'_>, a: &Alternate<'_>, b: &ExtBlock) -> bool
    ensures { IsTrue result ↔ ((j : ℕ) × IsTakenElsewhere m.now s.now.sets (operation_of p.now) (alternative_of a.now) b.now j) }
{
    let temps = live_in_temps(&b.ops);
    for j in 0..temps.len() {
        if is_taken_at(m, s, p, a, b, j, temps[j]) {
            return true;
        }
    }
    false
}

/// The same of block `l`, where there is one.
fn is_elsewhere_in(m: &Model, s: &Store, p: &Found<'_>, a: &Alternate<'_>, l: usize) -> bool
    ensures { IsTrue result ↔ IsElsewhereIn m.now s.now.sets (operation_of p.now) (alternative_of a.now) l }
{
    match m.ext.blocks.as_slice().get(l) {
        None => false,
        Some(b) => is_taken_elsewhere(m, s, p, a, b),
    }
}

/// The same of the block behind the operation's.
fn is_elsewhere_next(m: &Model, s: &Store, p: &Found<'_>, a: &Alternate<'_>) -> bool
    ensures { IsTrue result ↔ IsElsewhereIn m.now s.now.sets (operation_of p.now) (alternative_of a.now) (p.now.block + 1) }
{
    if p.block >= m.ext.blocks.len() {
        return false;
    }
    is_elsewhere_in(m, s, p, a, p.block + 1)
}

/// The same of a block to which the operation's may lead by this terminator.
fn leads_elsewhere(m: &Model, s: &Store, p: &Found<'_>, a: &Alternate<'_>, term: Term) -> bool
    ensures { IsTrue result ↔ ((l : ℕ) × Contains (targets_of p.now.block term) l
        × IsElsewhereIn m.now s.now.sets (operation_of p.now) (alternative_of a.now) l) }
{
    match term {
        Term::Fall => is_elsewhere_next(m, s, p, a),
        Term::Jump(to) => is_elsewhere_in(m, s, p, a, to.0 as usize),
        Term::Branch { to, .. } => {
            is_elsewhere_next(m, s, p, a) || is_elsewhere_in(m, s, p, a, to.0 as usize)
        }
        Term::Ret(_) => false,
    }
}

/// The same of a block to which the operation's may lead.
fn has_successor(m: &Model, s: &Store, p: &Found<'_>, a: &Alternate<'_>) -> bool
    ensures { IsTrue result ↔ HasSuccessor m.now s.now.sets (operation_of p.now) (alternative_of a.now) }
{
    let term = term(&p.owner.ops);
    leads_elsewhere(m, s, p, a, term)
}

/// The same of alternative `y`.
fn chooses_elsewhere(m: &Model, s: &Store, p: &Found<'_>, v: VarId, y: u32) -> bool
    ensures { IsTrue result ↔ IsSomeAnd (alternative (operation_of p.now) v.0 y) (HasSuccessor m.now s.now.sets (operation_of p.now)) }
{
    match alternative(p, v, y) {
        None => false,
        Some(a) => has_successor(m, s, p, &a),
    }
}

/// 10: of `out`, alternatives that share no register with what a successor takes in their place.
pub(crate) fn is_not_congruent(m: &Model, s: &Store, p: &Found<'_>, v: VarId, y: u32) -> bool
    ensures { IsTrue result ↔ IsNotCongruent m.now s.now.sets (operation_of p.now) v.0 y }
{
    is_out(&p.op.kind) && chooses_elsewhere(m, s, p, v, y)
}

/// The end of a block: `y` of the one with variable `v`, and the least of the others.
fn end_with(s: &Store, v: VarId, y: u32, vars: &BlockVars) -> Option<u32>
    ensures { result ≡ end_with s.now.sets v.0 y vars.now }
{
    if vars.end.0 == v.0 {
        Some(y)
    } else {
        look::least(s, vars.end)
    }
}

/// What a block costs that runs so often and has this end.
fn block_cost(freq: u32, end: u32) -> u128
    ensures value { result ≡ freq * (end - 1) }
    ensures small { result < 2 ^ 64 }
{
    u128::from(freq) * u128::from(end.saturating_sub(1))
}

/// What blocks cost with these ends.
fn cost_with(m: &Model, s: &Store, v: VarId, y: u32) -> Option<u128>
    ensures { result ≡ cost_with s.now.sets v.0 y m.now.ext.blocks m.now.blocks }
{
    let mut sum: u128 = 0;
    for k in 0..m.ext.blocks.len().min(m.blocks.len()) {
        let block = m.ext.blocks.get(k);
        let vars = m.blocks.get(k);
        match end_with(s, v, y, vars) {
            None => return None,
            Some(end) => sum += block_cost(block.freq, end),
        }
    }
    Some(sum)
}

/// Whether blocks cost at least `c` with these ends.
fn is_dear_by(m: &Model, s: &Store, v: VarId, y: u32, c: u64) -> bool
    ensures { IsTrue result ↔ IsSomeAnd (cost_with s.now.sets v.0 y m.now.ext.blocks m.now.blocks) (λ n. c ≤ n) }
{
    match cost_with(m, s, v, y) {
        None => false,
        Some(n) => u128::from(c) <= n,
    }
}

/// Whether blocks cost at least the limit with these ends.
fn is_dear(m: &Model, limit: Option<u64>, s: &Store, v: VarId, y: u32) -> bool
    ensures { IsTrue result ↔ IsSomeAnd limit (λ c. IsSomeAnd (cost_with s.now.sets v.0 y m.now.ext.blocks m.now.blocks) (λ n. c ≤ n)) }
{
    match limit {
        None => false,
        Some(c) => is_dear_by(m, s, v, y, c),
    }
}

/// 11: with a limit, ends of a block that with the least ends of the others cost it.
pub(crate) fn is_too_dear(
    m: &Model,
    limit: Option<u64>,
    s: &Store,
    vars: &BlockVars,
    v: VarId,
    y: u32,
) -> bool
    ensures { IsTrue result ↔ IsTooDear m.now limit s.now.sets vars.now v.0 y }
{
    vars.end.0 == v.0 && is_dear(m, limit, s, v, y)
}
