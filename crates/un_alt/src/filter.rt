//! Filters of a choice that may be missing.

ghost use Rattle.std.specs.Prelude.{◌≡◌, ◌^◌, ◌≤◌};
ghost use Rattle.un_domains.specs.Sets.{NoneEmpty};
ghost use Rattle.un_prop.specs.Acts.{act_vars};
ghost use Rattle.un_prop.specs.Among.{AllAmong};
ghost use Rattle.un_prop.specs.Going.{Stepped};
ghost use Rattle.un_prop.specs.Rounds.{HasVars};
ghost use Rattle.un_prop.specs.declared.propagator.Pruned.TheVariants.{Same};
ghost use Rattle.un_alt.specs.Filters.{choice_cut};
ghost use Rattle.un_alt.specs.Registers.{choice_vars};

use un_base::ids::VarId;
use un_domains::window::Window;
use un_prop::act::Act;
use un_prop::place::{Choice, keep_choice};
use un_prop::propagator::Pruned;

/// All that is known of a choice among the first `n` places, where there is a choice.
pub(crate) fn keep_chosen<C: Choice>(
    c: &C,
    w: &mut Window<'_>,
    on: Act,
    choice: Option<VarId>,
    n: usize,
) -> Pruned
    requires small { n ≤ 2 ^ 32 }
    requires vars { w.old.vars.now ≡ C.scope c.now }
    requires of_on { AllAmong (C.scope c.now) (act_vars on) }
    requires of_choice { AllAmong (C.scope c.now) (choice_vars choice) }
    requires known { HasVars (C.scope c.now) w.old.store.now.sets }
    requires live { NoneEmpty w.old.store.now.sets }
    ensures step { Stepped w.old.vars.now (choice_cut on choice (C.can c.now) n) w.old.store.now w.new.store.now Same result }
    ensures same_reference { w.new.store.ghost_name ≡ w.old.store.ghost_name }
    ensures vars { w.new.vars ≡ w.old.vars }
{
    match choice {
        None => Pruned::Same,
        Some(v) => keep_choice(c, w, Pruned::Same, on, v, n),
    }
}
