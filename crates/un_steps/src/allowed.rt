//! Whether a step of a log is allowed.

ghost use Rattle.std.specs.Prelude.{◌≡◌, ◌↔◌, ◌<◌, ◌≤◌, ℕ, IsTrue, IsSomeAnd, MatchOption, true, List, [], length, slice_get};
ghost use Rattle.un_domains.specs.Sets.{set_at, has};
ghost use Rattle.un_steps.specs.Allowed.{arcs_of, MayGoAtArc, MayGo, Takes, places_of, IsAllowed};
ghost use Rattle.un_steps.specs.Found.{operation_of};
ghost use Rattle.un_steps.specs.declared.step.Rule.TheVariants.{TooDear};
ghost use Rattle.un_steps.specs.Full.{operations_of as of_block};
ghost use Rattle.un_steps.specs.Rules.{IsTooSoon, IsFullIn, IsTooFull};
ghost use Rattle.un_steps.specs.Words.{operation_at, operations_of, operations_in};

use crate::full::{Block, is_full, is_too_full};
use crate::look;
use crate::operation::{Found, operation};
use crate::rules::{
    is_alike, is_from_idle, is_idle, is_no_frame, is_no_space, is_not_congruent, is_not_home,
    is_outside_block, is_outside_space, is_too_dear, is_too_late_for, is_too_soon,
};
use crate::step::{Rule, Step};
use un_base::ids::VarId;
use un_domains::store::Store;
use un_model::model::{Arc, Model};

/// Arc `n`, of those of all blocks.
pub fn arc(m: &Model, n: u32) -> Option<Arc>
    ensures { result ≡ slice_get (arcs_of m.now) n }
{
    let mut rest = n as usize;
    for k in 0..m.arcs.len() {
        let arcs = m.arcs.get(k);
        let count = arcs.len();
        if rest < count {
            let a = arcs.get(rest);
            return Some(*a);
        }
        rest -= count;
    }
    None
}

/// Whether a value may go by an arc that begins at `from`.
fn may_go_to(m: &Model, s: &Store, from: &Found<'_>, a: &Arc, v: VarId, y: u32) -> bool
    ensures { IsTrue result ↔ IsSomeAnd (operation_at m.now a.now.to.0)
        (λ to. IsTooSoon s.now.sets (operation_of from.now) to a.now.gap v.0 y) }
{
    match operation(m, a.to.0) {
        None => false,
        Some(to) => is_too_soon(s, from, &to, a.gap, v, y),
    }
}

/// Whether a value may go by an arc.
fn may_go_at_arc(m: &Model, s: &Store, a: &Arc, v: VarId, y: u32) -> bool
    ensures { IsTrue result ↔ MayGoAtArc m.now s.now.sets v.0 y a.now }
{
    match operation(m, a.from.0) {
        None => false,
        Some(from) => may_go_to(m, s, &from, a, v, y),
    }
}

/// Whether a value may go by arc `n`.
fn may_go_by_arc(m: &Model, s: &Store, n: u32, v: VarId, y: u32) -> bool
    ensures { IsTrue result ↔ IsSomeAnd (slice_get (arcs_of m.now) n) (MayGoAtArc m.now s.now.sets v.0 y) }
{
    match arc(m, n) {
        None => false,
        Some(a) => may_go_at_arc(m, s, &a, v, y),
    }
}

/// Whether a value may go by a rule of operations at one.
fn takes(rule: Rule, m: &Model, s: &Store, p: &Found<'_>, v: VarId, y: u32) -> bool
    ensures { IsTrue result ↔ Takes rule m.now s.now.sets (operation_of p.now) v.0 y }
{
    match rule {
        Rule::TooSoon => false,
        Rule::Idle => is_idle(m, s, p, v, y),
        Rule::OutsideBlock => is_outside_block(s, p, v, y),
        Rule::FromIdle => is_from_idle(m, s, p, v, y),
        Rule::TooLateFor => is_too_late_for(m, s, p, v, y),
        Rule::OutsideSpace => is_outside_space(m, s, p, v, y),
        Rule::NoSpace => is_no_space(m, s, p, v, y),
        Rule::Alike => is_alike(m, s, p, v, y),
        Rule::NotHome => is_not_home(m, s, p, v, y),
        Rule::NotCongruent => is_not_congruent(m, s, p, v, y),
        Rule::TooDear => false,
        Rule::NoFrame => is_no_frame(m, s, p, v, y),
        Rule::TooFull => false,
    }
}

/// Whether a value may go by a rule of operations at operation `n`.
fn may_go_at(rule: Rule, m: &Model, s: &Store, n: u32, v: VarId, y: u32) -> bool
    ensures { IsTrue result ↔ IsSomeAnd (operation_at m.now n) (λ p. Takes rule m.now s.now.sets p v.0 y) }
{
    match operation(m, n) {
        None => false,
        Some(p) => takes(rule, m, s, &p, v, y),
    }
}

/// Whether a value may go by the end of block `n`.
fn may_go_by_end(m: &Model, limit: Option<u64>, s: &Store, n: u32, v: VarId, y: u32) -> bool
    ensures { IsTrue result ↔ MayGo TooDear m.now limit s.now.sets n v.0 y }
{
    match m.blocks.as_slice().get(n as usize) {
        None => false,
        Some(vars) => is_too_dear(m, limit, s, vars, v, y),
    }
}

/// Block `n`.
pub fn block(m: &Model, n: u32) -> Option<Block<'_>>
    ensures { MatchOption result (operations_in m.now n ≡ []) (λ b. operations_in m.now n ≡ of_block b) }
{
    let owner = m.ext.blocks.as_slice().get(n as usize)?;
    let vars = m.blocks.as_slice().get(n as usize)?;
    Some(Block {
        number: n as usize,
        owner,
        vars,
    })
}

/// Whether the values of a variable may go by the packets of block `n`.
fn may_go_by_packets(m: &Model, s: &Store, n: u32, v: VarId) -> bool
    ensures { IsTrue result ↔ IsTooFull m.now s.now.sets (operations_in m.now n) v.0 }
{
    match block(m, n) {
        None => false,
        Some(b) => is_too_full(m, s, &b, v),
    }
}

/// Whether in some cycles the operations of block `n` take more than the packets have: where they do not, no value goes by the packets.
pub fn is_full_at(m: &Model, s: &Store, n: u32) -> bool
    ensures { IsTrue result ↔ ((a : ℕ) × (k : ℕ) × IsFullIn m.now s.now.sets (operations_in m.now n) a k) }
{
    match block(m, n) {
        None => false,
        Some(b) => is_full(m, s, &b),
    }
}

/// Whether a value may go from the box by a rule at a place.
pub fn may_go(
    rule: Rule,
    m: &Model,
    limit: Option<u64>,
    s: &Store,
    n: u32,
    v: VarId,
    y: u32,
) -> bool
    ensures { IsTrue result ↔ MayGo rule m.now limit s.now.sets n v.0 y }
{
    match rule {
        Rule::TooSoon => may_go_by_arc(m, s, n, v, y),
        Rule::Idle => may_go_at(Rule::Idle, m, s, n, v, y),
        Rule::OutsideBlock => may_go_at(Rule::OutsideBlock, m, s, n, v, y),
        Rule::FromIdle => may_go_at(Rule::FromIdle, m, s, n, v, y),
        Rule::TooLateFor => may_go_at(Rule::TooLateFor, m, s, n, v, y),
        Rule::OutsideSpace => may_go_at(Rule::OutsideSpace, m, s, n, v, y),
        Rule::NoSpace => may_go_at(Rule::NoSpace, m, s, n, v, y),
        Rule::Alike => may_go_at(Rule::Alike, m, s, n, v, y),
        Rule::NotHome => may_go_at(Rule::NotHome, m, s, n, v, y),
        Rule::NotCongruent => may_go_at(Rule::NotCongruent, m, s, n, v, y),
        Rule::TooDear => may_go_by_end(m, limit, s, n, v, y),
        Rule::NoFrame => may_go_at(Rule::NoFrame, m, s, n, v, y),
        Rule::TooFull => may_go_by_packets(m, s, n, v),
    }
}

/// Whether there is operation `n`.
fn has_operation(m: &Model, n: u32) -> bool
    ensures { IsTrue result ↔ (n < length (operations_of m.now)) }
{
    let found = operation(m, n);
    found.is_some()
}

/// Whether there is arc `n`.
fn has_arc(m: &Model, n: u32) -> bool
    ensures { IsTrue result ↔ (n < length (arcs_of m.now)) }
{
    let found = arc(m, n);
    found.is_some()
}

/// Whether there is block `n`.
fn has_block(m: &Model, n: u32) -> bool
    ensures { IsTrue result ↔ (n < length m.now.blocks) }
{
    (n as usize) < m.blocks.len()
}

/// Whether a rule has place `n`.
pub fn has_place(rule: Rule, m: &Model, n: u32) -> bool
    ensures { IsTrue result ↔ (n < places_of rule m.now) }
{
    match rule {
        Rule::TooSoon => has_arc(m, n),
        Rule::Idle => has_operation(m, n),
        Rule::OutsideBlock => has_operation(m, n),
        Rule::FromIdle => has_operation(m, n),
        Rule::TooLateFor => has_operation(m, n),
        Rule::OutsideSpace => has_operation(m, n),
        Rule::NoSpace => has_operation(m, n),
        Rule::Alike => has_operation(m, n),
        Rule::NotHome => has_operation(m, n),
        Rule::NotCongruent => has_operation(m, n),
        Rule::TooDear => has_block(m, n),
        Rule::NoFrame => has_operation(m, n),
        Rule::TooFull => has_block(m, n),
    }
}

/// Whether a value may go, if it is left.
fn may_go_if(m: &Model, limit: Option<u64>, s: &Store, step: &Step, y: u32) -> bool
    ensures { IsTrue result ↔ (has (set_at s.now.sets step.now.var.0) y ≡ true
        → MayGo step.now.rule m.now limit s.now.sets step.now.place step.now.var.0 y) }
{
    if !look::has(s, step.var, y) {
        return true;
    }
    may_go(step.rule, m, limit, s, step.place, step.var, y)
}

/// Whether all values of a step may go.
fn all_may_go(m: &Model, limit: Option<u64>, s: &Store, step: &Step) -> bool
    ensures { IsTrue result ↔ ((y : ℕ) → step.now.first ≤ y → y ≤ step.now.last → has (set_at s.now.sets step.now.var.0) y ≡ true
        → MayGo step.now.rule m.now limit s.now.sets step.now.place step.now.var.0 y) }
{
    let end = look::end(s, step.var);
    let last = end.min(u64::from(step.last) + 1);
    for y in u64::from(step.first)..last {
        if !may_go_if(m, limit, s, step, y as u32) {
            return false;
        }
    }
    true
}

/// Whether some value of a step is left.
fn takes_some(s: &Store, step: &Step) -> bool
    ensures { IsTrue result ↔ ((y : ℕ) × (step.now.first ≤ y) × (y ≤ step.now.last) × (has (set_at s.now.sets step.now.var.0) y ≡ true)) }
{
    let end = look::end(s, step.var);
    let last = end.min(u64::from(step.last) + 1);
    for y in u64::from(step.first)..last {
        if look::has(s, step.var, y as u32) {
            return true;
        }
    }
    false
}

/// Whether all values of a step may go by the packets of a block, which tell no value from another.
fn all_may_go_by_packets(m: &Model, s: &Store, step: &Step) -> bool
    ensures { IsTrue result ↔ ((y : ℕ) → step.now.first ≤ y → y ≤ step.now.last → has (set_at s.now.sets step.now.var.0) y ≡ true
        → IsTooFull m.now s.now.sets (operations_in m.now step.now.place) step.now.var.0) }
{
    if !takes_some(s, step) {
        return true;
    }
    may_go_by_packets(m, s, step.place, step.var)
}

/// Whether all values of a step may go, each rule asked in its way.
fn takes_none_that_stays(m: &Model, limit: Option<u64>, s: &Store, step: &Step) -> bool
    ensures { IsTrue result ↔ ((y : ℕ) → step.now.first ≤ y → y ≤ step.now.last → has (set_at s.now.sets step.now.var.0) y ≡ true
        → MayGo step.now.rule m.now limit s.now.sets step.now.place step.now.var.0 y) }
{
    match step.rule {
        Rule::TooFull => all_may_go_by_packets(m, s, step),
        _ => all_may_go(m, limit, s, step),
    }
}

/// Whether a step is allowed in a box.
pub fn is_allowed(m: &Model, limit: Option<u64>, s: &Store, step: &Step) -> bool
    ensures { IsTrue result ↔ IsAllowed m.now limit s.now.sets step.now }
{
    if !has_place(step.rule, m, step.place) {
        return false;
    }
    if step.var.0 >= s.len() {
        return false;
    }
    takes_none_that_stays(m, limit, s, step)
}
