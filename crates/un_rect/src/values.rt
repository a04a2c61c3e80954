//! Cuts of one variable by a test of its values.

ghost use Rattle.std.specs.Prelude.{◌≡◌, ◌≢◌, ◌<◌, ◌||◌, ℕ, Bool, true, length, nat_eq, not};
ghost use Rattle.un_domains.specs.Sets.{set_at, cut_by, NoneEmpty};
ghost use Rattle.un_prop.specs.Rounds.{HasVars};
ghost use Rattle.un_prop.specs.Among.{among};
ghost use Rattle.un_prop.specs.Going.{Stepped};
ghost use Rattle.un_prop.specs.declared.propagator.Pruned.TheVariants.{Failed};

use un_base::ids::VarId;
use un_domains::window::Window;
use un_prop::propagator::Pruned;
use un_prop::step::drop_value;

/// A test of values.
pub trait ValueTest {
    /// Whether a value passes.
    ghost lets: { Self → ℕ → Bool };

    /// Whether a value passes.
    fn passes(&self, y: u32) -> bool
        ensures { result ≡ lets self.now y };
}

/// Takes the value `y` from `v`, unless it passes.
fn keep_value<T: ValueTest>(t: &T, w: &mut Window<'_>, before: Pruned, v: VarId, y: u32) -> Pruned
    requires lent { among w.old.vars.now v ≡ true }
    requires known { HasVars w.old.vars.now w.old.store.now.sets }
    requires live { before ≢ Failed → NoneEmpty w.old.store.now.sets }
    ensures step { Stepped w.old.vars.now (cut_by (λ z. not (nat_eq z y) || T.lets t.now y) v.0) w.old.store.now w.new.store.now before
        result }
    ensures same_reference { w.new.store.ghost_name ≡ w.old.store.ghost_name }
    ensures vars { w.new.vars ≡ w.old.vars }
{
    if before == Pruned::Failed {
        return before;
    }
    if t.passes(y) {
        return before;
    }
    drop_value(w, before, v, y)
}

/// Keeps the values of `v` that pass.
pub(crate) fn keep_passing<T: ValueTest>(
    t: &T,
    w: &mut Window<'_>,
    before: Pruned,
    v: VarId,
) -> Pruned
    requires lent { among w.old.vars.now v ≡ true }
    requires known { HasVars w.old.vars.now w.old.store.now.sets }
    requires live { before ≢ Failed → NoneEmpty w.old.store.now.sets }
    ensures step { Stepped w.old.vars.now (cut_by (T.lets t.now) v.0) w.old.store.now w.new.store.now before result }
    ensures same_reference { w.new.store.ghost_name ≡ w.old.store.ghost_name }
    ensures vars { w.new.vars ≡ w.old.vars }
{
    if before == Pruned::Failed {
        return before;
    }
    let low = u64::from(w.min(v));
    let end = u64::from(w.max(v)) + 1;
    let mut did = before;
    for y in low..end {
        did = keep_value(t, w, did, v, y as u32);
    }
    did
}
