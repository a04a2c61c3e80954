//! Single cuts through a window, as steps of a pruning. A step takes what the steps before it did, and answers what all
//! of them did; after one that failed, it does nothing.

ghost use Rattle.std.specs.Prelude.{◌≡◌, ◌≢◌, ◌<◌, ℕ, length, nat_le, nat_lt, nat_eq, not, true};
ghost use Rattle.un_domains.specs.Sets.{set_at, kept, cut_by};
ghost use Rattle.un_prop.specs.Pruning.{join};
ghost use Rattle.un_prop.specs.Rounds.{HasVars};
ghost use Rattle.un_prop.specs.Failing.{fail_cut};
ghost use Rattle.un_prop.specs.Among.{among};
ghost use Rattle.un_prop.specs.Going.{Stepped, answer_of};
ghost use Rattle.un_prop.specs.declared.propagator.Pruned.TheVariants.{Failed};

use crate::propagator::Pruned;
use un_base::ids::VarId;
use un_domains::cut::Cut;
use un_domains::window::Window;

/// What a cut did, as a pruning.
pub(crate) fn answer(cut: Cut) -> Pruned
    ensures { result ≡ answer_of cut }
{
    match cut {
        Cut::Same => Pruned::Same,
        Cut::Changed => Pruned::Tighter,
        Cut::Emptied => Pruned::Failed,
    }
}

/// What two prunings did together.
pub fn joined(first: Pruned, second: Pruned) -> Pruned
    ensures { result ≡ join first second }
{
    match (first, second) {
        (Pruned::Failed, _) => Pruned::Failed,
        (Pruned::Same, _) => second,
        (Pruned::Tighter, Pruned::Failed) => Pruned::Failed,
        (Pruned::Tighter, _) => Pruned::Tighter,
    }
}

/// Keeps the values of `v` that are at most `x`.
pub fn keep_le(w: &mut Window<'_>, before: Pruned, v: VarId, x: u32) -> Pruned
    requires there { v.0 < length w.old.store.now.sets }
    requires lent { among w.old.vars.now v ≡ true }
    requires going { before ≢ Failed }
    ensures step { Stepped w.old.vars.now (cut_by (λ y. nat_le y x) v.0) w.old.store.now w.new.store.now before result }
    ensures sets { w.new.store.now.sets ≡ kept (λ y. nat_le y x) w.old.store.now.sets v.0 }
    ensures same_reference { w.new.store.ghost_name ≡ w.old.store.ghost_name }
    ensures vars { w.new.vars ≡ w.old.vars }
{
    let did = answer(w.keep_le(v, x));
    joined(before, did)
}

/// Keeps the values of `v` that are greater than `x`.
pub fn keep_gt(w: &mut Window<'_>, before: Pruned, v: VarId, x: u32) -> Pruned
    requires there { v.0 < length w.old.store.now.sets }
    requires lent { among w.old.vars.now v ≡ true }
    requires going { before ≢ Failed }
    ensures step { Stepped w.old.vars.now (cut_by (λ y. nat_lt x y) v.0) w.old.store.now w.new.store.now before result }
    ensures same_reference { w.new.store.ghost_name ≡ w.old.store.ghost_name }
    ensures vars { w.new.vars ≡ w.old.vars }
{
    let did = answer(w.keep_gt(v, x));
    joined(before, did)
}

/// Keeps the value `x` alone of `v`.
pub fn keep_eq(w: &mut Window<'_>, before: Pruned, v: VarId, x: u32) -> Pruned
    requires there { v.0 < length w.old.store.now.sets }
    requires lent { among w.old.vars.now v ≡ true }
    requires going { before ≢ Failed }
    ensures step { Stepped w.old.vars.now (cut_by (λ y. nat_eq y x) v.0) w.old.store.now w.new.store.now before result }
    ensures same_reference { w.new.store.ghost_name ≡ w.old.store.ghost_name }
    ensures vars { w.new.vars ≡ w.old.vars }
{
    let did = answer(w.keep_eq(v, x));
    joined(before, did)
}

/// Takes the value `x` from `v`.
pub fn drop_value(w: &mut Window<'_>, before: Pruned, v: VarId, x: u32) -> Pruned
    requires there { v.0 < length w.old.store.now.sets }
    requires some { 0 < length (set_at w.old.store.now.sets v.0) }
    requires lent { among w.old.vars.now v ≡ true }
    requires going { before ≢ Failed }
    ensures step { Stepped w.old.vars.now (cut_by (λ y. not (nat_eq y x)) v.0) w.old.store.now w.new.store.now before result }
    ensures same_reference { w.new.store.ghost_name ≡ w.old.store.ghost_name }
    ensures vars { w.new.vars ≡ w.old.vars }
{
    let did = answer(w.drop_value(v, x));
    joined(before, did)
}

/// Takes every value from the first variable of the window, if it has one.
pub fn fail(w: &mut Window<'_>, before: Pruned) -> Pruned
    requires known { HasVars w.old.vars.now w.old.store.now.sets }
    requires going { before ≢ Failed }
    ensures step { Stepped w.old.vars.now (fail_cut w.old.vars.now) w.old.store.now w.new.store.now before result }
    ensures same_reference { w.new.store.ghost_name ≡ w.old.store.ghost_name }
    ensures vars { w.new.vars ≡ w.old.vars }
{
    let vars = w.vars;
    match vars.first() {
        None => before,
        Some(v) => {
            w.keep_le(*v, 0);
            w.keep_gt(*v, 0);
            Pruned::Failed
        }
    }
}
