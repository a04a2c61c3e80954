//! An active operand chooses an active temporary.

ghost use Rattle.std.specs.Prelude.{◌≡◌, ◌≢◌, ◌<◌, ◌≤◌, ◌^◌, length};
ghost use Rattle.un_prop.specs.Going.{Stepped};
ghost use Rattle.un_prop.specs.LastLaws.{Ascend};
ghost use Rattle.un_prop.specs.Places.{each_place};
ghost use Rattle.un_prop.specs.declared.propagator.Pruned.TheVariants.{Failed};
ghost use Rattle.un_domains.specs.Sets.{NoneEmpty};
ghost use Rattle.un_prop.specs.Acts.{act_vars};
ghost use Rattle.un_prop.specs.Rounds.{HasVars};
ghost use Rattle.un_alt.specs.Chosen.{ChosenVars, may_be_active, definer_cut};

use un_base::ids::VarId;
use un_domains::window::Window;
use un_lists::items::Items;
use un_prop::act::{Act, active, value};
use un_prop::last::check_last;
use un_prop::look::is_sure;
use un_prop::place::{Choice, keep_choice, places};
use un_prop::propagator::{Predicate, Propagator, Pruned, Scratch};
use un_prop::step::drop_value;
use un_prop::when::is_only;

/// An operand of the operation `user` reads one of the temporaries whose definers are `alts`, that at the place `choice`.
#[derive(Drop)]
pub struct Chosen {
    /// The activity of the operation that reads.
    pub user: Act,
    /// The variable of the operand's choice: a place in `alts`.
    pub choice: VarId,
    /// The activities of the definers of the operand's alternatives, in order: the chosen one has to be active.
    pub alts: Items<Act>,
    /// The variables of the user, the choice and the definers, rising, each once: it reads these, and cuts these alone.
    pub vars: Items<VarId>,
    ghost ascend: { Ascend vars },
    ghost among: { ChosenVars vars user choice alts },
}

/// Whether a definer can be active.
fn may_be_active(w: &Window<'_>, a: Act) -> bool
    requires known { HasVars (act_vars a) w.now.store.now.sets }
    requires live { NoneEmpty w.now.store.now.sets }
    ensures { result ≡ may_be_active w.now.store.now.sets a }
{
    match a {
        Act::Always => true,
        Act::Var(v) => w.max(v) > 0,
    }
}

/// Where the user is sure and place `i` alone is left to choose, the definer there is active.
fn keep_definer(w: &mut Window<'_>, before: Pruned, p: &Chosen, i: usize) -> Pruned
    requires there { i < length p.now.alts }
    requires small { i < 2 ^ 32 }
    requires vars { w.old.vars.now ≡ p.now.vars }
    requires known { HasVars p.now.vars w.old.store.now.sets }
    requires live { before ≢ Failed → NoneEmpty w.old.store.now.sets }
    ensures step { Stepped w.old.vars.now (definer_cut p.now.user p.now.choice p.now.alts i) w.old.store.now w.new.store.now before result }
    ensures same_reference { w.new.store.ghost_name ≡ w.old.store.ghost_name }
    ensures vars { w.new.vars ≡ w.old.vars }
{
    if before == Pruned::Failed {
        return before;
    }
    if !is_sure(w, p.user) {
        return before;
    }
    if !is_only(w, p.choice, i as u32) {
        return before;
    }
    match p.alts.as_slice()[i] {
        Act::Always => before,
        Act::Var(v) => drop_value(w, before, v, 0),
    }
}

/// Where the user is sure and one place is left to choose, the definer there is active.
fn keep_definers(w: &mut Window<'_>, before: Pruned, p: &Chosen, n: usize) -> Pruned
    requires there { n ≤ length p.now.alts }
    requires small { n ≤ 2 ^ 32 }
    requires vars { w.old.vars.now ≡ p.now.vars }
    requires known { HasVars p.now.vars w.old.store.now.sets }
    requires live { before ≢ Failed → NoneEmpty w.old.store.now.sets }
    ensures step { Stepped w.old.vars.now (each_place (definer_cut p.now.user p.now.choice p.now.alts) n) w.old.store.now w.new.store.now
        before result }
    ensures same_reference { w.new.store.ghost_name ≡ w.old.store.ghost_name }
    ensures vars { w.new.vars ≡ w.old.vars }
{
    let mut did = before;
    for i in 0..n {
        did = keep_definer(w, did, p, i);
    }
    did
}

impl Predicate for Chosen {
    ghost use Rattle.un_alt.specs.Chosen.{chosen_holds};
    ghost use Rattle.un_alt.specs.ChosenLaws.{chosen_looks};

    ghost scope = { λ p. p.vars };

    ghost holds = { λ p x. chosen_holds p.user p.choice p.alts x };

    fn reads(&self) -> &[VarId] {
        self.vars.as_slice()
    }

    fn test(&self, fixed: &[u32]) -> bool {
        if !active(fixed, self.user) {
            return true;
        }
        match self.alts.as_slice().get(value(fixed, self.choice) as usize) {
            Some(definer) => active(fixed, *definer),
            None => false,
        }
    }

    ghost looks = { λ p x y same. chosen_looks p.vars p.user p.choice p.alts p.among x y same };
}

impl Choice for Chosen {
    ghost use Rattle.un_alt.specs.Chosen.{chosen_can};

    ghost can = { λ p s i. chosen_can p.alts s i };

    fn can_choose(&self, w: &Window<'_>, i: u32) -> bool {
        let i = i as usize;
        if i < self.alts.len() {
            may_be_active(w, self.alts.as_slice()[i])
        } else {
            false
        }
    }
}

impl Propagator for Chosen {
    ghost use Rattle.std.specs.Prelude.{option_and_then};
    ghost use Rattle.un_prop.specs.Last.{last_cut};
    ghost use Rattle.un_prop.specs.PartLaws.{one_part, one_whole, lawful_checked, keeps_checked, forward_checked};
    ghost use Rattle.un_alt.specs.Chosen.{chosen_holds, chosen_steps};
    ghost use Rattle.un_alt.specs.ChosenLaws.{chosen_looks, steps_lawful, steps_keep};
    ghost use Rattle.un_prop.specs.WithinLaws.{one_within};

    ghost cut = { λ p s. option_and_then (last_cut p.vars (chosen_holds p.user p.choice p.alts)) (chosen_steps p.user p.choice p.alts s) };

    ghost parts = { λ p. one_part p.vars (chosen_holds p.user p.choice p.alts) };

    ghost strong = { λ p s. Unit {0} };

    ghost span = { λ p. 0 };

    fn prune_in(&self, w: &mut Window<'_>, scratch: &mut Scratch) -> Pruned {
        let n = places(self.alts.as_slice());
        let first = keep_choice(self, w, Pruned::Same, self.user, self.choice, n);
        let did = keep_definers(w, first, self, n);
        check_last(self, w, scratch, did)
    }

    ghost keeps = { λ p s x k full there holds. keeps_checked p.vars (chosen_holds p.user p.choice p.alts)
        (chosen_looks p.vars p.user p.choice p.alts p.among) p.ascend (chosen_steps p.user p.choice p.alts)
        (steps_lawful p.vars p.user p.choice p.alts p.among) s x k
        (steps_keep p.vars p.user p.choice p.alts p.among s x k there holds) there.long holds };

    ghost lawful = { λ p. lawful_checked p.vars (chosen_holds p.user p.choice p.alts) (chosen_looks p.vars p.user p.choice p.alts p.among)
        p.ascend (chosen_steps p.user p.choice p.alts) (steps_lawful p.vars p.user p.choice p.alts p.among) };

    ghost whole = { λ p x. one_whole p.vars (chosen_holds p.user p.choice p.alts) x };

    ghost within = { λ p. one_within p.vars (chosen_holds p.user p.choice p.alts) };

    ghost forward = { λ p. forward_checked p.vars (chosen_holds p.user p.choice p.alts)
        (chosen_looks p.vars p.user p.choice p.alts p.among) p.ascend (chosen_steps p.user p.choice p.alts)
        (steps_lawful p.vars p.user p.choice p.alts p.among) };

    ghost strength = { λ p s k full words grounded e. tt };
}
