//! The check of the last variable of a predicate: where all its variables but one have one value, each value of that one
//! is tried.

ghost use Rattle.std.specs.Prelude.{◌≡◌, ◌≢◌, ◌<◌, ◌≤◌, ◌||◌, ℕ, length, nat_eq, not, Contains, All, slice_index, slice_set, MatchOption};
ghost use Rattle.un_base.specs.declared.ids.VarId.{VarId};
ghost use Rattle.un_domains.specs.Sets.{Sets, set_at, least, cut_by, NoneEmpty};
ghost use Rattle.un_prop.specs.Rounds.{HasVars};
ghost use Rattle.un_prop.specs.Last.{last_of, last_cut, point};
ghost use Rattle.un_prop.specs.Pruning.{join, IsPrune};
ghost use Rattle.un_prop.specs.Going.{Goes};
ghost use Rattle.un_prop.specs.declared.propagator.Pruned.TheVariants.{Failed};

use crate::propagator::{Predicate, Pruned, Scratch};
use crate::step::{answer, joined};
use un_base::ids::VarId;
use un_domains::window::Window;

/// The one of these variables that is left to check: the only one that has other than one value, or the first where all
/// have one.
fn find_last(vars: &[VarId], w: &Window<'_>) -> Option<VarId>
    requires { HasVars vars.now w.now.store.now.sets }
    ensures { result ≡ last_of vars.now w.now.store.now.sets }
{
    let mut found = None;
    for v in vars {
        if !w.is_single(*v) {
            if found.is_some() {
                return None;
            }
            found = Some(*v);
        }
    }
    if found.is_some() {
        return found;
    }
    vars.first().copied()
}

/// Writes the least value of each of these variables at its place.
pub fn fill(vars: &[VarId], w: &Window<'_>, fixed: &mut [u32])
    requires known { HasVars vars.now w.now.store.now.sets }
    requires live { NoneEmpty w.now.store.now.sets }
    requires room { length w.now.store.now.sets ≤ length fixed.old }
    ensures { All (λ v. slice_index fixed.new v.0 ≡ least (set_at w.now.store.now.sets v.0)) vars.now }
{
    for v in vars {
        fixed[v.0 as usize] = w.min(*v);
    }
}

/// Takes the value `y` from `v`, where the predicate does not hold for it and what is written of the others.
fn try_value<P: Predicate>(
    p: &P,
    w: &mut Window<'_>,
    before: Pruned,
    v: VarId,
    y: u32,
    fixed: &mut [u32],
) -> Pruned
    requires there { v.0 < length w.old.store.now.sets }
    requires lent { Contains w.old.vars.now v }
    requires some { before ≢ Failed → 0 < length (set_at w.old.store.now.sets v.0) }
    requires room { length w.old.store.now.sets ≤ length fixed.old }
    requires known { HasVars (P.scope p.now) w.old.store.now.sets }
    ensures goes { Goes w.old.vars.now (cut_by (λ z. not (nat_eq z y) || P.holds p.now (slice_set fixed.old v.0 y)) v.0) w.old.store.now
        w.new.store.now before result }
    ensures fixed { (u : ℕ) → u ≢ v.0 → slice_index fixed.new u ≡ slice_index fixed.old u }
    ensures same_reference { w.new.store.ghost_name ≡ w.old.store.ghost_name }
    ensures vars { w.new.vars ≡ w.old.vars }
{
    if before == Pruned::Failed {
        return before;
    }
    fixed[v.0 as usize] = y;
    if p.test(fixed) {
        return before;
    }
    let did = answer(w.drop_value(v, y));
    joined(before, did)
}

/// Tries each value of `v`, with what is written of the others.
pub fn try_all<P: Predicate>(p: &P, w: &mut Window<'_>, v: VarId, fixed: &mut [u32]) -> Pruned
    requires vars { w.old.vars.now ≡ P.scope p.now }
    requires lent { Contains (P.scope p.now) v }
    requires known { HasVars (P.scope p.now) w.old.store.now.sets }
    requires live { NoneEmpty w.old.store.now.sets }
    requires room { length w.old.store.now.sets ≤ length fixed.old }
    requires written { All (λ u. slice_index fixed.old u.0 ≡ least (set_at w.old.store.now.sets u.0)) (P.scope p.now) }
    ensures prune { IsPrune w.old.vars.now (cut_by (λ y. P.holds p.now (slice_set (point w.old.store.now.sets) v.0 y)) v.0
        w.old.store.now.sets) w.old.store.now w.new.store.now result }
    ensures same_reference { w.new.store.ghost_name ≡ w.old.store.ghost_name }
    ensures vars { w.new.vars ≡ w.old.vars }
{
    let low = u64::from(w.min(v));
    let end = u64::from(w.max(v)) + 1;
    let mut did = Pruned::Same;
    for y in low..end {
        did = try_value(p, w, did, v, y as u32, fixed);
    }
    did
}

/// Takes each value from the last variable of the predicate for which it does not hold.
pub fn check_last<P: Predicate>(
    p: &P,
    w: &mut Window<'_>,
    scratch: &mut Scratch,
    before: Pruned,
) -> Pruned
    requires vars { w.old.vars.now ≡ P.scope p.now }
    requires known { HasVars (P.scope p.now) w.old.store.now.sets }
    requires live { before ≢ Failed → NoneEmpty w.old.store.now.sets }
    requires room { length w.old.store.now.sets ≤ length scratch.old.fixed.items }
    ensures goes { Goes w.old.vars.now (last_cut (P.scope p.now) (P.holds p.now)) w.old.store.now w.new.store.now before result }
    ensures fixed { length scratch.new.fixed.items ≡ length scratch.old.fixed.items }
    ensures cycles { length scratch.new.cycles.items ≡ length scratch.old.cycles.items }
    ensures same_reference { w.new.store.ghost_name ≡ w.old.store.ghost_name }
    ensures vars { w.new.vars ≡ w.old.vars }
{
    if before == Pruned::Failed {
        return before;
    }
    match find_last(p.reads(), w) {
        None => before,
        Some(v) => {
            let fixed = scratch.fixed.as_mut_slice();
            fill(p.reads(), w, fixed);
            let did = try_all(p, w, v, fixed);
            joined(before, did)
        }
    }
}
