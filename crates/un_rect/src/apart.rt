//! Apart: two active temporaries of a block with one register do not occupy it in one cycle.

ghost use Rattle.std.specs.Prelude.{◌≡◌, ◌≤◌, length, drop};
ghost use Rattle.std.specs.List.{list_all};
ghost use Rattle.un_prop.specs.LastLaws.{Ascend};
ghost use Rattle.un_rect.specs.Apart.{pair_holds, ApartVars};

use crate::checks::{are_apart, check_all};
use crate::extents::{Extent, FEW, MANY, MOST, SOME, no_extent};
use crate::left::{Left, nothing_left};
use crate::{clashes, orders};
use un_base::ids::VarId;
use un_domains::window::Window;
use un_lists::items::Items;
use un_prop::act::Temp;
use un_prop::propagator::{Predicate, Propagator, Pruned, Scratch};

/// Of each two of the temporaries not both are active, or they have other registers, or one ends before the other starts.
#[derive(Drop)]
pub struct Apart {
    /// The temporaries of a block, each two of which are kept apart.
    pub temps: Items<Temp>,
    /// The variables of the temporaries, rising, each once: it reads these, and cuts these alone.
    pub vars: Items<VarId>,
    ghost ascend: { Ascend vars },
    ghost among: { ApartVars vars temps },
}

/// Whether a temporary of an assignment is apart from each of a list, from a place on.
fn is_apart_from(fixed: &[u32], a: &Temp, temps: &[Temp], from: usize) -> bool
    requires { from ≤ length temps.now }
    ensures { result ≡ list_all (λ b. pair_holds a.now b fixed.now) (drop from temps.now) }
{
    for j in from..temps.len() {
        if !are_apart(fixed, a, &temps[j]) {
            return false;
        }
    }
    true
}

impl Predicate for Apart {
    ghost use Rattle.un_rect.specs.Apart.{apart_holds};
    ghost use Rattle.un_rect.specs.ApartLaws.{apart_looks};

    ghost scope = { λ p. p.vars };

    ghost holds = { λ p x. apart_holds p.temps x };

    fn reads(&self) -> &[VarId] {
        self.vars.as_slice()
    }

    fn test(&self, fixed: &[u32]) -> bool {
        let temps = self.temps.as_slice();
        for i in 0..temps.len() {
            if !is_apart_from(fixed, &temps[i], temps, i + 1) {
                return false;
            }
        }
        true
    }

    ghost looks = { λ p x y same. apart_looks p.vars p.temps p.among x y same };
}

impl Apart {
    ghost use Rattle.un_domains.specs.Sets.{NoneEmpty};
    ghost use Rattle.un_prop.specs.Pruning.{IsPrune, HasRoom};
    ghost use Rattle.un_prop.specs.Rounds.{HasVars};
    ghost use Rattle.un_rect.specs.Apart.{apart_cut};

    /// Takes values away, by notes of as many temporaries as there is room for.
    fn keep_noted(
        &self,
        w: &mut Window<'_>,
        scratch: &mut Scratch,
        extents: &mut [Extent],
        left: &mut [Left],
    ) -> Pruned
        requires vars { w.old.vars.now ≡ self.now.vars }
        requires known { HasVars self.now.vars w.old.store.now.sets }
        requires live { NoneEmpty w.old.store.now.sets }
        requires room { HasRoom (length w.old.store.now.sets) 0 scratch.old }
        ensures prune { IsPrune self.now.vars (apart_cut self.now.vars self.now.temps w.old.store.now.sets) w.old.store.now
            w.new.store.now result }
        ensures fixed { length scratch.new.fixed.items ≡ length scratch.old.fixed.items }
        ensures cycles { length scratch.new.cycles.items ≡ length scratch.old.cycles.items }
        ensures same_reference { w.new.store.ghost_name ≡ w.old.store.ghost_name }
    {
        let temps = self.temps.as_slice();
        let first = clashes::keep_all(w, Pruned::Same, temps, extents);
        let second = orders::keep_all(w, first, temps, extents);
        check_all(w, second, temps, left, scratch.fixed.as_mut_slice())
    }

    /// The same with room for few. As the next ones it is a function of its own in the program as well: a prune of any propagator would else
    /// pay for room for the notes.
    #[inline(never)]
    fn keep_few(&self, w: &mut Window<'_>, scratch: &mut Scratch) -> Pruned
        requires vars { w.old.vars.now ≡ self.now.vars }
        requires known { HasVars self.now.vars w.old.store.now.sets }
        requires live { NoneEmpty w.old.store.now.sets }
        requires room { HasRoom (length w.old.store.now.sets) 0 scratch.old }
        ensures prune { IsPrune self.now.vars (apart_cut self.now.vars self.now.temps w.old.store.now.sets) w.old.store.now
            w.new.store.now result }
        ensures fixed { length scratch.new.fixed.items ≡ length scratch.old.fixed.items }
        ensures cycles { length scratch.new.cycles.items ≡ length scratch.old.cycles.items }
        ensures same_reference { w.new.store.ghost_name ≡ w.old.store.ghost_name }
    {
        let mut extents = [no_extent(); FEW];
        let mut left = [nothing_left(); FEW];
        self.keep_noted(w, scratch, &mut extents, &mut left)
    }

    /// With room for some.
    #[inline(never)]
    fn keep_some(&self, w: &mut Window<'_>, scratch: &mut Scratch) -> Pruned
        requires vars { w.old.vars.now ≡ self.now.vars }
        requires known { HasVars self.now.vars w.old.store.now.sets }
        requires live { NoneEmpty w.old.store.now.sets }
        requires room { HasRoom (length w.old.store.now.sets) 0 scratch.old }
        ensures prune { IsPrune self.now.vars (apart_cut self.now.vars self.now.temps w.old.store.now.sets) w.old.store.now
            w.new.store.now result }
        ensures fixed { length scratch.new.fixed.items ≡ length scratch.old.fixed.items }
        ensures cycles { length scratch.new.cycles.items ≡ length scratch.old.cycles.items }
        ensures same_reference { w.new.store.ghost_name ≡ w.old.store.ghost_name }
    {
        let mut extents = [no_extent(); SOME];
        let mut left = [nothing_left(); SOME];
        self.keep_noted(w, scratch, &mut extents, &mut left)
    }

    /// With room for many.
    #[inline(never)]
    fn keep_many(&self, w: &mut Window<'_>, scratch: &mut Scratch) -> Pruned
        requires vars { w.old.vars.now ≡ self.now.vars }
        requires known { HasVars self.now.vars w.old.store.now.sets }
        requires live { NoneEmpty w.old.store.now.sets }
        requires room { HasRoom (length w.old.store.now.sets) 0 scratch.old }
        ensures prune { IsPrune self.now.vars (apart_cut self.now.vars self.now.temps w.old.store.now.sets) w.old.store.now
            w.new.store.now result }
        ensures fixed { length scratch.new.fixed.items ≡ length scratch.old.fixed.items }
        ensures cycles { length scratch.new.cycles.items ≡ length scratch.old.cycles.items }
        ensures same_reference { w.new.store.ghost_name ≡ w.old.store.ghost_name }
    {
        let mut extents = [no_extent(); MANY];
        let mut left = [nothing_left(); MANY];
        self.keep_noted(w, scratch, &mut extents, &mut left)
    }

    /// With room for most.
    #[inline(never)]
    fn keep_most(&self, w: &mut Window<'_>, scratch: &mut Scratch) -> Pruned
        requires vars { w.old.vars.now ≡ self.now.vars }
        requires known { HasVars self.now.vars w.old.store.now.sets }
        requires live { NoneEmpty w.old.store.now.sets }
        requires room { HasRoom (length w.old.store.now.sets) 0 scratch.old }
        ensures prune { IsPrune self.now.vars (apart_cut self.now.vars self.now.temps w.old.store.now.sets) w.old.store.now
            w.new.store.now result }
        ensures fixed { length scratch.new.fixed.items ≡ length scratch.old.fixed.items }
        ensures cycles { length scratch.new.cycles.items ≡ length scratch.old.cycles.items }
        ensures same_reference { w.new.store.ghost_name ≡ w.old.store.ghost_name }
    {
        let mut extents = [no_extent(); MOST];
        let mut left = [nothing_left(); MOST];
        self.keep_noted(w, scratch, &mut extents, &mut left)
    }
}

impl Propagator for Apart {
    ghost use Rattle.un_rect.specs.Apart.{apart_cut, apart_parts, ApartStrong};
    ghost use Rattle.un_rect.specs.PartsWithin.{apart_within};
    ghost use Rattle.un_rect.specs.ApartLaws.{apart_lawful, apart_keeps, apart_whole, apart_forward, apart_strong};

    ghost cut = { λ p. apart_cut p.vars p.temps };

    ghost parts = { λ p. apart_parts p.vars p.temps };

    ghost strong = { λ p s. ApartStrong p.temps s };

    ghost span = { λ p. 0 };

    fn prune_in(&self, w: &mut Window<'_>, scratch: &mut Scratch) -> Pruned {
        if self.temps.len() <= FEW {
            return self.keep_few(w, scratch);
        }
        if self.temps.len() <= SOME {
            return self.keep_some(w, scratch);
        }
        if self.temps.len() <= MANY {
            return self.keep_many(w, scratch);
        }
        self.keep_most(w, scratch)
    }

    ghost keeps = { λ p s x k full there holds. apart_keeps p.vars p.ascend p.temps p.among s x k there holds };

    ghost lawful = { λ p. apart_lawful p.vars p.ascend p.temps p.among };

    ghost whole = { λ p x. apart_whole p.vars p.temps x };

    ghost within = { λ p. apart_within p.vars p.temps };

    ghost forward = { λ p. apart_forward p.vars p.ascend p.temps p.among };

    ghost strength = { λ p s k full words grounded e. apart_strong p.vars p.ascend p.temps p.among s k full e };
}
