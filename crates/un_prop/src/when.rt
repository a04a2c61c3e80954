//! Cuts of a variable where something is so of the store, as steps of a pruning.

ghost use Rattle.std.specs.Prelude.{◌≡◌, ◌≢◌, ◌<◌, Bool, length, true};
ghost use Rattle.un_domains.specs.Sets.{Sets, NoneEmpty};
ghost use Rattle.un_prop.specs.Among.{among};
ghost use Rattle.un_prop.specs.Going.{Stepped};
ghost use Rattle.un_prop.specs.When.{is_only, when_cut, other_than, up_to};
ghost use Rattle.un_prop.specs.declared.propagator.Pruned.TheVariants.{Failed};

use crate::propagator::Pruned;
use crate::step::{drop_value, keep_le};
use un_base::ids::VarId;
use un_domains::window::Window;

/// Whether `n` is the only value left of `v`.
pub fn is_only(w: &Window<'_>, v: VarId, n: u32) -> bool
    requires there { v.0 < length w.now.store.now.sets }
    requires live { NoneEmpty w.now.store.now.sets }
    ensures { result ≡ is_only v n w.now.store.now.sets }
{
    if !w.is_single(v) {
        return false;
    }
    w.min(v) == n
}

/// Takes the value `n` from `v`, where `so`, which says what is so of the store.
pub fn drop_when(w: &mut Window<'_>, before: Pruned, so: bool, v: VarId, n: u32) -> Pruned
    requires there { v.0 < length w.old.store.now.sets }
    requires live { before ≢ Failed → NoneEmpty w.old.store.now.sets }
    requires lent { among w.old.vars.now v ≡ true }
    ensures step { (fact : Sets → Bool) → (before ≢ Failed → so ≡ fact w.old.store.now.sets)
        → Stepped w.old.vars.now (when_cut fact (other_than n) v) w.old.store.now w.new.store.now before result }
    ensures same_reference { w.new.store.ghost_name ≡ w.old.store.ghost_name }
    ensures vars { w.new.vars ≡ w.old.vars }
{
    if before == Pruned::Failed {
        return before;
    }
    if !so {
        return before;
    }
    drop_value(w, before, v, n)
}

/// Keeps the values of `v` that are at most `n`, where `so`, which says what is so of the store.
pub fn keep_le_when(w: &mut Window<'_>, before: Pruned, so: bool, v: VarId, n: u32) -> Pruned
    requires there { v.0 < length w.old.store.now.sets }
    requires live { before ≢ Failed → NoneEmpty w.old.store.now.sets }
    requires lent { among w.old.vars.now v ≡ true }
    ensures step { (fact : Sets → Bool) → (before ≢ Failed → so ≡ fact w.old.store.now.sets)
        → Stepped w.old.vars.now (when_cut fact (up_to n) v) w.old.store.now w.new.store.now before result }
    ensures same_reference { w.new.store.ghost_name ≡ w.old.store.ghost_name }
    ensures vars { w.new.vars ≡ w.old.vars }
{
    if before == Pruned::Failed {
        return before;
    }
    if !so {
        return before;
    }
    keep_le(w, before, v, n)
}
