//! Where the values lie that a rule may let go: a turn need not look at all that are left.

ghost use Rattle.std.specs.Prelude.{◌≡◌, ◌+◌, ◌<◌, ◌≤◌, ℕ, IsSomeAnd, true, slice_get};
ghost use Rattle.un_domains.specs.Sets.{set_at, has, NoneEmpty};
ghost use Rattle.un_steps.specs.Allowed.{arcs_of, MayGo, MayGoAtArc};
ghost use Rattle.un_steps.specs.Found.{operation_of};
ghost use Rattle.un_steps.specs.Rules.{IsTooSoon, IsIdle, IsPastEnd, IsOutsideBlock};
ghost use Rattle.un_steps.specs.Words.{cycles, least_of, greatest_of, operation_at};
ghost use Rattle.un_steps.specs.declared.step.Rule.TheVariants.{Idle, OutsideBlock, TooDear};
ghost use Rattle.un_logs.specs.Reaches.{LiesIn};
ghost use Rattle.un_logs.specs.Rounds.{Leaves};

use crate::ends::{end, greatest, greatest_cycle, least, least_cycle};
use crate::turn::Turn;
use un_base::ids::VarId;
use un_domains::store::Store;
use un_judge::leaf::Rules;
use un_model::model::{Arc, Model};
use un_steps::allowed::{arc, may_go};
use un_steps::look;
use un_steps::operation::{Found, is_off, is_sure, is_var, operation, time};
use un_steps::step::Rule;

/// The values from one on, before another.
#[derive(Clone, Copy)]
pub struct Reach {
    /// The first.
    pub from: u64,
    /// The one behind the last.
    pub to: u64,
}

/// No values.
fn nothing() -> Reach {
    Reach { from: 0, to: 0 }
}

/// From the least value that is left to the greatest.
fn left(s: &Store, v: VarId) -> Reach
    requires { NoneEmpty s.now.sets }
    ensures { (y : ℕ) → has (set_at s.now.sets v.0) y ≡ true → LiesIn result y }
{
    match least(s, v) {
        None => nothing(),
        Some(least) => Reach {
            from: u64::from(least),
            to: end(s, v),
        },
    }
}

/// Those of them before `to`.
fn before(a: Reach, to: u64) -> Reach
    ensures { (y : ℕ) → LiesIn a y → y < to → LiesIn result y }
{
    Reach {
        from: a.from,
        to: a.to.min(to),
    }
}

/// Those of them from `from` on.
fn behind(a: Reach, from: u64) -> Reach
    ensures { (y : ℕ) → LiesIn a y → from ≤ y → LiesIn result y }
{
    Reach {
        from: a.from.max(from),
        to: a.to,
    }
}

/// Those of them that are before the least cycle of an operation and a gap.
fn early(s: &Store, a: Reach, from: &Found<'_>, gap: u32) -> Reach
    requires { NoneEmpty s.now.sets }
    ensures { (y : ℕ) → LiesIn a y → IsSomeAnd (least_of (cycles s.now.sets (operation_of from.now))) (λ c. y < c + gap)
        → LiesIn result y }
{
    match least_cycle(s, from) {
        None => nothing(),
        Some(c) => before(a, u64::from(c) + u64::from(gap)),
    }
}

/// Those of them from which a gap leads past the greatest cycle of an operation.
fn late(s: &Store, a: Reach, to: &Found<'_>, gap: u32) -> Reach
    requires { NoneEmpty s.now.sets }
    ensures { (y : ℕ) → LiesIn a y → IsSomeAnd (greatest_of (cycles s.now.sets (operation_of to.now))) (λ c. c < y + gap)
        → LiesIn result y }
{
    match greatest_cycle(s, to) {
        None => nothing(),
        Some(c) => behind(a, (u64::from(c) + 1).saturating_sub(u64::from(gap))),
    }
}

/// By an arc between two operations.
fn reach_between(s: &Store, v: VarId, from: &Found<'_>, to: &Found<'_>, gap: u32) -> Reach
    requires { NoneEmpty s.now.sets }
    ensures { (y : ℕ) → has (set_at s.now.sets v.0) y ≡ true
        → IsTooSoon s.now.sets (operation_of from.now) (operation_of to.now) gap v.0 y → LiesIn result y }
{
    let all = left(s, v);
    if is_var(time(to), v) {
        if is_var(time(from), v) {
            return all;
        }
        return early(s, all, from, gap);
    }
    late(s, all, to, gap)
}

/// By an arc from an operation.
fn reach_from(m: &Model, s: &Store, v: VarId, from: &Found<'_>, a: &Arc) -> Reach
    requires { NoneEmpty s.now.sets }
    ensures { (y : ℕ) → has (set_at s.now.sets v.0) y ≡ true → IsSomeAnd (operation_at m.now a.now.to.0)
        (λ to. IsTooSoon s.now.sets (operation_of from.now) to a.now.gap v.0 y) → LiesIn result y }
{
    match operation(m, a.to.0) {
        None => nothing(),
        Some(to) => reach_between(s, v, from, &to, a.gap),
    }
}

/// By an arc.
fn reach_by(m: &Model, s: &Store, v: VarId, a: &Arc) -> Reach
    requires { NoneEmpty s.now.sets }
    ensures { (y : ℕ) → has (set_at s.now.sets v.0) y ≡ true → MayGoAtArc m.now s.now.sets v.0 y a.now → LiesIn result y }
{
    match operation(m, a.from.0) {
        None => nothing(),
        Some(from) => reach_from(m, s, v, &from, a),
    }
}

/// By arc `n`.
fn reach_arc(m: &Model, s: &Store, v: VarId, n: u32) -> Reach
    requires { NoneEmpty s.now.sets }
    ensures { (y : ℕ) → has (set_at s.now.sets v.0) y ≡ true → IsSomeAnd (slice_get (arcs_of m.now) n) (MayGoAtArc m.now s.now.sets v.0 y)
        → LiesIn result y }
{
    match arc(m, n) {
        None => nothing(),
        Some(a) => reach_by(m, s, v, &a),
    }
}

/// Where an operation is off, all; else 0 alone.
fn reach_off(m: &Model, s: &Store, v: VarId, p: &Found<'_>) -> Reach
    requires { NoneEmpty s.now.sets }
    ensures { (y : ℕ) → has (set_at s.now.sets v.0) y ≡ true → IsIdle m.now s.now.sets (operation_of p.now) v.0 y → LiesIn result y }
{
    let _ = m;
    let all = left(s, v);
    if is_off(s, p) {
        return all;
    }
    before(all, 1)
}

/// The same of operation `n`.
fn reach_idle(m: &Model, s: &Store, v: VarId, n: u32) -> Reach
    requires { NoneEmpty s.now.sets }
    ensures { (y : ℕ) → has (set_at s.now.sets v.0) y ≡ true → IsSomeAnd (operation_at m.now n) (λ p. IsIdle m.now s.now.sets p v.0 y)
        → LiesIn result y }
{
    match operation(m, n) {
        None => nothing(),
        Some(p) => reach_off(m, s, v, &p),
    }
}

/// Cycles from the greatest end on, or all where 0 is left.
fn reach_cycle(s: &Store, v: VarId, p: &Found<'_>) -> Reach
    requires { NoneEmpty s.now.sets }
    ensures zero { (y : ℕ) → has (set_at s.now.sets v.0) y ≡ true → y ≡ 0 → LiesIn result y }
    ensures past { (y : ℕ) → has (set_at s.now.sets v.0) y ≡ true → IsPastEnd s.now.sets (operation_of p.now) y → LiesIn result y }
{
    let all = left(s, v);
    if look::has(s, v, 0) {
        return all;
    }
    match greatest(s, p.end) {
        None => nothing(),
        Some(end) => behind(all, u64::from(end)),
    }
}

/// Of an operation that is sure: cycles outside its block, or ends up to its least cycle.
fn reach_place(s: &Store, v: VarId, p: &Found<'_>) -> Reach
    requires { NoneEmpty s.now.sets }
    ensures { (y : ℕ) → has (set_at s.now.sets v.0) y ≡ true → IsOutsideBlock s.now.sets (operation_of p.now) v.0 y → LiesIn result y }
{
    if !is_sure(s, p) {
        return nothing();
    }
    if p.end.0 != v.0 {
        return reach_cycle(s, v, p);
    }
    if is_var(p.vars.cycle, v) {
        return left(s, v);
    }
    early(s, left(s, v), p, 1)
}

/// The same of operation `n`.
fn reach_block(m: &Model, s: &Store, v: VarId, n: u32) -> Reach
    requires { NoneEmpty s.now.sets }
    ensures { (y : ℕ) → has (set_at s.now.sets v.0) y ≡ true → IsSomeAnd (operation_at m.now n) (λ p. IsOutsideBlock s.now.sets p v.0 y)
        → LiesIn result y }
{
    match operation(m, n) {
        None => nothing(),
        Some(p) => reach_place(s, v, &p),
    }
}

/// Ends of block `n`: none where the greatest may not go.
fn reach_end(r: &Rules<'_>, s: &Store, v: VarId, n: u32) -> Reach
    requires { NoneEmpty s.now.sets }
    ensures { (y : ℕ) → has (set_at s.now.sets v.0) y ≡ true → MayGo TooDear r.now.m.now r.now.limit s.now.sets n v.0 y → LiesIn result y }
{
    match greatest(s, v) {
        None => nothing(),
        Some(last) => {
            if may_go(Rule::TooDear, r.m, r.limit, s, n, v, last) {
                left(s, v)
            } else {
                nothing()
            }
        }
    }
}

/// Where the values lie that may go in a turn.
pub(crate) fn reach_of(r: &Rules<'_>, s: &Store, t: &Turn) -> Reach
    requires { NoneEmpty s.now.sets }
    ensures { (y : ℕ) → Leaves r.now.m.now r.now.limit t.now s.now.sets y → LiesIn result y }
{
    match t.rule {
        Rule::TooSoon => reach_arc(r.m, s, t.var, t.place),
        Rule::Idle => reach_idle(r.m, s, t.var, t.place),
        Rule::OutsideBlock => reach_block(r.m, s, t.var, t.place),
        Rule::TooDear => reach_end(r, s, t.var, t.place),
        _ => left(s, t.var),
    }
}
