//! The next run of values that may go.

ghost use Rattle.std.specs.Prelude.{◌≡◌, ◌≢◌, ◌↔◌, ◌<◌, ◌≤◌, ℕ, IsTrue, true, IfSome, IfNone, length};
ghost use Rattle.std.specs.Bool.{OnFalse};
ghost use Rattle.un_domains.specs.Sets.{set_at, has, NoneEmpty};
ghost use Rattle.un_steps.specs.Allowed.{MayGo};
ghost use Rattle.un_logs.specs.Rounds.{Leaves, AllGo, NoneGoes, IsRun};

use crate::ends::end;
use crate::reach::reach_of;
use crate::turn::{Run, Turn};
use un_base::ids::VarId;
use un_domains::store::Store;
use un_judge::leaf::Rules;
use un_steps::allowed::may_go;
use un_steps::look;
use un_steps::step::Rule;

/// Whether a value may go, if it is left.
fn is_free(r: &Rules<'_>, s: &Store, t: &Turn, y: u32) -> bool
    ensures { IsTrue result ↔ MayGo t.now.rule r.now.m.now r.now.limit s.now.sets t.now.place t.now.var.0 y }
{
    may_go(t.rule, r.m, r.limit, s, t.place, t.var, y)
}

/// Whether a value is left, and may go.
fn leaves(r: &Rules<'_>, s: &Store, t: &Turn, y: u32) -> bool
    ensures { IsTrue result ↔ Leaves r.now.m.now r.now.limit t.now s.now.sets y }
{
    look::has(s, t.var, y) && is_free(r, s, t, y)
}

/// The first value, from this one on, that may go.
fn first_from(r: &Rules<'_>, s: &Store, t: &Turn, from: u64) -> Option<u32>
    requires { NoneEmpty s.now.sets }
    ensures within { IfSome result (λ y. from ≤ y) }
    ensures before { IfSome result (λ y. (z : ℕ) → from ≤ z → z < y → Leaves r.now.m.now r.now.limit t.now s.now.sets z → ⊥) }
    ensures found { IfSome result (Leaves r.now.m.now r.now.limit t.now s.now.sets) }
    ensures none { IfNone result (NoneGoes r.now.m.now r.now.limit t.now s.now.sets from) }
{
    let reach = reach_of(r, s, t);
    let end = end(s, t.var);
    for y in from.max(reach.from)..end.min(reach.to) {
        if leaves(r, s, t, y as u32) {
            return Some(y as u32);
        }
    }
    None
}

/// The last value that is left, where this one is.
fn last_left(s: &Store, v: VarId, first: u32) -> u32
    requires { has (set_at s.now.sets v.0) first ≡ true }
    ensures order { first ≤ result }
    ensures left { has (set_at s.now.sets v.0) result ≡ true }
    ensures none { (y : ℕ) → result < y → has (set_at s.now.sets v.0) y ≡ true → ⊥ }
{
    match look::greatest(s, v) {
        None => first,
        Some(last) => last,
    }
}

/// The last value of the run that begins with this one, which may go. Each value is asked for.
fn last_by_values(r: &Rules<'_>, s: &Store, t: &Turn, first: u32) -> u32
    requires { Leaves r.now.m.now r.now.limit t.now s.now.sets first }
    ensures order { first ≤ result }
    ensures left { has (set_at s.now.sets t.now.var.0) result ≡ true }
    ensures each { AllGo r.now.m.now r.now.limit t.now s.now.sets first result }
    ensures longest { (y : ℕ) → result < y → has (set_at s.now.sets t.now.var.0) y ≡ true
        → AllGo r.now.m.now r.now.limit t.now s.now.sets first y → ⊥ }
{
    let mut last = first;
    let end = look::end(s, t.var);
    for y in u64::from(first) + 1..end {
        if look::has(s, t.var, y as u32) {
            if !is_free(r, s, t, y as u32) {
                return last;
            }
            last = y as u32;
        }
    }
    last
}

/// The last value of the run that begins with this one, which may go. The packets of a block tell no value from another.
fn last_from(r: &Rules<'_>, s: &Store, t: &Turn, first: u32) -> u32
    requires { Leaves r.now.m.now r.now.limit t.now s.now.sets first }
    ensures order { first ≤ result }
    ensures left { has (set_at s.now.sets t.now.var.0) result ≡ true }
    ensures each { AllGo r.now.m.now r.now.limit t.now s.now.sets first result }
    ensures longest { (y : ℕ) → result < y → has (set_at s.now.sets t.now.var.0) y ≡ true
        → AllGo r.now.m.now r.now.limit t.now s.now.sets first y → ⊥ }
{
    match t.rule {
        Rule::TooFull => last_left(s, t.var, first),
        _ => last_by_values(r, s, t, first),
    }
}

/// The next run of values that may go, from this one on, in a box without an empty set.
fn next_run(r: &Rules<'_>, s: &Store, t: &Turn, from: u64) -> Option<Run>
    requires { NoneEmpty s.now.sets }
    ensures run { IfSome result (IsRun r.now.m.now r.now.limit t.now s.now.sets from) }
    ensures none { IfNone result (NoneGoes r.now.m.now r.now.limit t.now s.now.sets from) }
{
    match first_from(r, s, t, from) {
        None => None,
        Some(first) => {
            let last = last_from(r, s, t, first);
            Some(Run { first, last })
        }
    }
}

/// The same, where no other set is empty, and the variable's own only after a run went.
pub(crate) fn run_behind(r: &Rules<'_>, s: &Store, t: &Turn, from: u64, went: bool) -> Option<Run>
    requires others { (v : ℕ) → v ≢ t.now.var.0 → v < length s.now.sets → 0 < length (set_at s.now.sets v) }
    requires full { OnFalse went (NoneEmpty s.now.sets) }
    ensures run { IfSome result (IsRun r.now.m.now r.now.limit t.now s.now.sets from) }
    ensures none { IfNone result (NoneGoes r.now.m.now r.now.limit t.now s.now.sets from) }
{
    if !went {
        return next_run(r, s, t, from);
    }
    if look::size(s, t.var) == 0 {
        return None;
    }
    next_run(r, s, t, from)
}
