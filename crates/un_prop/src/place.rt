//! Filters of a choice, which names a place of a list: a place goes where what stands there cannot be chosen.

ghost use Rattle.std.specs.Prelude.{◌≡◌, ◌≢◌, ℕ, ◌<◌, ◌≤◌, ◌^◌, Bool, length, true};
ghost use Rattle.std.specs.List.{list_any};
ghost use Rattle.un_domains.specs.Sets.{Sets, set_at, NoneEmpty};
ghost use Rattle.un_prop.specs.Rounds.{HasVars};
ghost use Rattle.un_prop.specs.Among.{among, AllAmong};
ghost use Rattle.un_prop.specs.Acts.{act_vars};
ghost use Rattle.un_prop.specs.Going.{Stepped};
ghost use Rattle.un_prop.specs.Places.{each_place, place_cut, idle_test, act_cut, choice_steps, places_in};
ghost use Rattle.un_prop.specs.declared.propagator.Pruned.TheVariants.{Failed};

use crate::act::Act;
use crate::look::is_sure;
use crate::propagator::{Predicate, Pruned};
use crate::step::{drop_value, keep_le};
use un_base::ids::VarId;
use un_domains::window::Window;

/// How many places of a list a word can name.
pub fn places<T>(xs: &[T]) -> usize
    ensures { result ≡ places_in xs.now }
{
    xs.len().min(1 << 32)
}

/// A predicate of a choice.
pub trait Choice: Predicate {
    /// Whether what stands at a place can be chosen, as far as a store says.
    ghost can: { Self → Sets → ℕ → Bool };

    /// Whether what stands at a place can be chosen, as far as a store says.
    fn can_choose(&self, w: &Window<'_>, i: u32) -> bool
        requires vars { w.now.vars.now ≡ Self.scope self.now }
        requires known { HasVars (Self.scope self.now) w.now.store.now.sets }
        requires live { NoneEmpty w.now.store.now.sets }
        ensures { result ≡ can self.now w.now.store.now.sets i };
}

/// Where the user is sure, takes place `i` from a choice, unless what stands there can be chosen. A place that is gone already is not
/// looked at.
fn keep_place<C: Choice>(
    c: &C,
    w: &mut Window<'_>,
    before: Pruned,
    on: Act,
    choice: VarId,
    i: u32,
) -> Pruned
    requires vars { w.old.vars.now ≡ C.scope c.now }
    requires of_on { AllAmong (C.scope c.now) (act_vars on) }
    requires of_choice { among (C.scope c.now) choice ≡ true }
    requires known { HasVars (C.scope c.now) w.old.store.now.sets }
    requires live { before ≢ Failed → NoneEmpty w.old.store.now.sets }
    ensures step { Stepped w.old.vars.now (place_cut on choice (C.can c.now) i) w.old.store.now w.new.store.now before result }
    ensures same_reference { w.new.store.ghost_name ≡ w.old.store.ghost_name }
    ensures vars { w.new.vars ≡ w.old.vars }
{
    if before == Pruned::Failed {
        return before;
    }
    if !w.has(choice, i) {
        return before;
    }
    if !is_sure(w, on) {
        return before;
    }
    if c.can_choose(w, i) {
        return before;
    }
    drop_value(w, before, choice, i)
}

/// Where the user is sure, takes each of the first `n` places from a choice, unless what stands there can be chosen.
fn keep_places<C: Choice>(
    c: &C,
    w: &mut Window<'_>,
    before: Pruned,
    on: Act,
    choice: VarId,
    n: usize,
) -> Pruned
    requires small { n ≤ 2 ^ 32 }
    requires vars { w.old.vars.now ≡ C.scope c.now }
    requires of_on { AllAmong (C.scope c.now) (act_vars on) }
    requires of_choice { among (C.scope c.now) choice ≡ true }
    requires known { HasVars (C.scope c.now) w.old.store.now.sets }
    requires live { before ≢ Failed → NoneEmpty w.old.store.now.sets }
    ensures step { Stepped w.old.vars.now (each_place (place_cut on choice (C.can c.now)) n) w.old.store.now w.new.store.now before result }
    ensures same_reference { w.new.store.ghost_name ≡ w.old.store.ghost_name }
    ensures vars { w.new.vars ≡ w.old.vars }
{
    let mut did = before;
    for i in 0..n {
        did = keep_place(c, w, did, on, choice, i as u32);
    }
    did
}

/// Whether some place that is left can be chosen.
fn any_place<C: Choice>(c: &C, w: &Window<'_>, choice: VarId) -> bool
    requires vars { w.now.vars.now ≡ C.scope c.now }
    requires of_choice { among (C.scope c.now) choice ≡ true }
    requires known { HasVars (C.scope c.now) w.now.store.now.sets }
    requires live { NoneEmpty w.now.store.now.sets }
    ensures { result ≡ list_any (C.can c.now w.now.store.now.sets) (set_at w.now.store.now.sets choice.0) }
{
    let low = u64::from(w.min(choice));
    let end = u64::from(w.max(choice)) + 1;
    for y in low..end {
        if w.has(choice, y as u32) {
            if c.can_choose(w, y as u32) {
                return true;
            }
        }
    }
    false
}

/// Where no place that is left can be chosen, the user is inactive.
fn keep_idle<C: Choice>(c: &C, w: &mut Window<'_>, before: Pruned, on: Act, choice: VarId) -> Pruned
    requires vars { w.old.vars.now ≡ C.scope c.now }
    requires of_on { AllAmong (C.scope c.now) (act_vars on) }
    requires of_choice { among (C.scope c.now) choice ≡ true }
    requires known { HasVars (C.scope c.now) w.old.store.now.sets }
    requires live { before ≢ Failed → NoneEmpty w.old.store.now.sets }
    ensures step { Stepped w.old.vars.now (act_cut (idle_test choice (C.can c.now)) on) w.old.store.now w.new.store.now before result }
    ensures same_reference { w.new.store.ghost_name ≡ w.old.store.ghost_name }
    ensures vars { w.new.vars ≡ w.old.vars }
{
    if before == Pruned::Failed {
        return before;
    }
    match on {
        Act::Always => before,
        Act::Var(v) => {
            if any_place(c, w, choice) {
                before
            } else {
                keep_le(w, before, v, 0)
            }
        }
    }
}

/// All that is known of a choice among the first `n` places.
pub fn keep_choice<C: Choice>(
    c: &C,
    w: &mut Window<'_>,
    before: Pruned,
    on: Act,
    choice: VarId,
    n: usize,
) -> Pruned
    requires small { n ≤ 2 ^ 32 }
    requires vars { w.old.vars.now ≡ C.scope c.now }
    requires of_on { AllAmong (C.scope c.now) (act_vars on) }
    requires of_choice { among (C.scope c.now) choice ≡ true }
    requires known { HasVars (C.scope c.now) w.old.store.now.sets }
    requires live { before ≢ Failed → NoneEmpty w.old.store.now.sets }
    ensures step { Stepped w.old.vars.now (choice_steps on choice (C.can c.now) n) w.old.store.now w.new.store.now before result }
    ensures same_reference { w.new.store.ghost_name ≡ w.old.store.ghost_name }
    ensures vars { w.new.vars ≡ w.old.vars }
{
    let first = keep_places(c, w, before, on, choice, n);
    keep_idle(c, w, first, on, choice)
}
