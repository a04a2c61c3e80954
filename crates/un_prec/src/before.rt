//! A precedence: one operation at least so much after another.

ghost use Rattle.std.specs.Prelude.{◌≡◌, ◌≢◌, ◌≤◌, ℕ, List, length, true, false};
ghost use Rattle.un_domains.specs.Sets.{IsIn, NoneEmpty};
ghost use Rattle.un_prop.specs.Acts.{act_vars, is_active};
ghost use Rattle.un_prop.specs.Going.{Goes};
ghost use Rattle.un_prop.specs.Last.{last_cut};
ghost use Rattle.un_prop.specs.LastLaws.{Ascend};
ghost use Rattle.un_prop.specs.Rounds.{HasVars};
ghost use Rattle.un_prop.specs.declared.propagator.Pruned.TheVariants.{Failed};
ghost use Rattle.un_prec.specs.Before.{BeforeVars, before_holds};

use crate::link::{Link, keeps_gap};
use crate::rules::keep_link;
use un_base::ids::VarId;
use un_domains::window::Window;
use un_lists::items::Items;
use un_prop::act::{Act, At};
use un_prop::last::check_last;
use un_prop::propagator::{Predicate, Propagator, Pruned, Scratch};

/// Both operations are active and `b` is at least `gap` after `a`, or one is inactive.
#[derive(Drop)]
pub struct Before {
    /// The time of the first operation: its cycle, or 0 for a block's start.
    pub a: At,
    /// The activity of the first operation.
    pub a_on: Act,
    /// The time of the second operation: its cycle, or the end of the block for `out`.
    pub b: At,
    /// The activity of the second operation.
    pub b_on: Act,
    /// How many cycles the second is after the first, at least.
    pub gap: u32,
    /// The variables of both operations, rising, each once: it reads these, and cuts these alone.
    pub vars: Items<VarId>,
    ghost ascend: { Ascend vars },
    ghost among: { BeforeVars vars a a_on b b_on gap },
}

impl Predicate for Before {
    ghost use Rattle.un_prec.specs.Before.{before_link, before_holds, before_steps, BeforeVars, BeforeStrong};
    ghost use Rattle.un_prec.specs.BeforeLaws.{before_looks, before_lawful, before_keeps, before_strong};

    ghost scope = { λ p. p.vars };

    ghost holds = { λ p x. before_holds p.a p.a_on p.b p.b_on p.gap x };

    fn reads(&self) -> &[VarId] {
        self.vars.as_slice()
    }

    fn test(&self, fixed: &[u32]) -> bool {
        let link = Link {
            from: self.a,
            from_on: self.a_on,
            to: self.b,
            to_on: self.b_on,
            gap: self.gap,
        };
        keeps_gap(fixed, link)
    }

    ghost looks = { λ p x y same. before_looks p.vars p.a p.a_on p.b p.b_on p.gap p.among x y same };
}

/// Whether an activity is off, whatever the assignment.
fn is_off(w: &Window<'_>, on: Act) -> bool
    requires known { HasVars (act_vars on) w.now.store.now.sets }
    requires live { NoneEmpty w.now.store.now.sets }
    ensures { result ≡ true → (x : List ℕ) → IsIn x w.now.store.now.sets → is_active on x ≡ false }
{
    match on {
        Act::Always => false,
        Act::Var(v) => w.max(v) == 0,
    }
}

/// Checks the last variable of a precedence, unless an operation is off: each cycle of the other will do then.
fn check_active(p: &Before, w: &mut Window<'_>, scratch: &mut Scratch, before: Pruned) -> Pruned
    requires vars { w.old.vars.now ≡ p.now.vars }
    requires known { HasVars p.now.vars w.old.store.now.sets }
    requires live { before ≢ Failed → NoneEmpty w.old.store.now.sets }
    requires room { length w.old.store.now.sets ≤ length scratch.old.fixed.items }
    ensures goes { Goes w.old.vars.now (last_cut p.now.vars (before_holds p.now.a p.now.a_on p.now.b p.now.b_on p.now.gap)) w.old.store.now
        w.new.store.now before result }
    ensures fixed { length scratch.new.fixed.items ≡ length scratch.old.fixed.items }
    ensures cycles { length scratch.new.cycles.items ≡ length scratch.old.cycles.items }
    ensures same_reference { w.new.store.ghost_name ≡ w.old.store.ghost_name }
    ensures vars { w.new.vars ≡ w.old.vars }
{
    if before == Pruned::Failed {
        return before;
    }
    if is_off(w, p.a_on) {
        return before;
    }
    if is_off(w, p.b_on) {
        return before;
    }
    check_last(p, w, scratch, before)
}

impl Propagator for Before {
    ghost use Rattle.un_prop.specs.Last.{last_cut};
    ghost use Rattle.un_prop.specs.PartLaws.{one_part, one_whole, lawful_checked, keeps_checked, forward_checked, stable_first};
    ghost use Rattle.un_prop.specs.WithinLaws.{one_within};
    ghost use Rattle.std.specs.Prelude.{option_and_then};
    ghost use Rattle.un_prec.specs.Before.{before_link, before_holds, before_steps, BeforeVars, BeforeStrong};
    ghost use Rattle.un_prec.specs.BeforeLaws.{before_looks, before_lawful, before_keeps, before_strong};

    ghost cut = { λ p s. option_and_then (last_cut p.vars (before_holds p.a p.a_on p.b p.b_on p.gap))
        (before_steps p.vars p.a p.a_on p.b p.b_on p.gap s) };

    ghost parts = { λ p. one_part p.vars (before_holds p.a p.a_on p.b p.b_on p.gap) };

    ghost strong = { λ p s. BeforeStrong p.a p.a_on p.b p.b_on p.gap s };

    ghost span = { λ p. 0 };

    fn prune_in(&self, w: &mut Window<'_>, scratch: &mut Scratch) -> Pruned {
        let link = Link {
            from: self.a,
            from_on: self.a_on,
            to: self.b,
            to_on: self.b_on,
            gap: self.gap,
        };
        let did = keep_link(w, Pruned::Same, link);
        check_active(self, w, scratch, did)
    }

    ghost keeps = { λ p s x k full there holds. keeps_checked p.vars (before_holds p.a p.a_on p.b p.b_on p.gap)
        (before_looks p.vars p.a p.a_on p.b p.b_on p.gap p.among) p.ascend (before_steps p.vars p.a p.a_on p.b p.b_on p.gap)
        (before_lawful p.vars p.a p.a_on p.b p.b_on p.gap p.among) s x k
        (before_keeps p.vars p.a p.a_on p.b p.b_on p.gap p.among s x k there holds) there.long holds };

    ghost lawful = { λ p. lawful_checked p.vars (before_holds p.a p.a_on p.b p.b_on p.gap)
        (before_looks p.vars p.a p.a_on p.b p.b_on p.gap p.among) p.ascend (before_steps p.vars p.a p.a_on p.b p.b_on p.gap)
        (before_lawful p.vars p.a p.a_on p.b p.b_on p.gap p.among) };

    ghost whole = { λ p x. one_whole p.vars (before_holds p.a p.a_on p.b p.b_on p.gap) x };

    ghost within = { λ p. one_within p.vars (before_holds p.a p.a_on p.b p.b_on p.gap) };

    ghost forward = { λ p. forward_checked p.vars (before_holds p.a p.a_on p.b p.b_on p.gap)
        (before_looks p.vars p.a p.a_on p.b p.b_on p.gap p.among) p.ascend (before_steps p.vars p.a p.a_on p.b p.b_on p.gap)
        (before_lawful p.vars p.a p.a_on p.b p.b_on p.gap p.among) };

    ghost strength = { λ p s k full words grounded e. before_strong p.vars p.a p.a_on p.b p.b_on p.gap p.among s k full words grounded
        (stable_first p.vars (before_holds p.a p.a_on p.b p.b_on p.gap) (before_looks p.vars p.a p.a_on p.b p.b_on p.gap p.among) p.ascend
        (before_steps p.vars p.a p.a_on p.b p.b_on p.gap) (before_lawful p.vars p.a p.a_on p.b p.b_on p.gap p.among) s k full e) };
}
