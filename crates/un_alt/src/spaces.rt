//! Spaces: the registers of an active operation lie in the spaces of its instruction.

ghost use Rattle.std.specs.Prelude.{◌≡◌, ◌<◌, length};
ghost use Rattle.std.specs.List.{list_any};
ghost use Rattle.un_prop.specs.LastLaws.{Ascend};
ghost use Rattle.un_alt.specs.Spaces.{SpacesVars, may_lie};
ghost use Rattle.un_domains.specs.Sets.{set_at, has, NoneEmpty};
ghost use Rattle.un_prop.specs.Acts.{act_vars};
ghost use Rattle.un_prop.specs.Rounds.{HasVars};
ghost use Rattle.un_prop.specs.Choices.{passes_at};

use crate::filter::keep_chosen;
use crate::registers::chosen;
use crate::span::Span;
use un_base::ids::VarId;
use un_domains::window::Window;
use un_lists::items::Items;
use un_prop::act::{Act, number};
use un_prop::last::check_last;
use un_prop::place::{Choice, places};
use un_prop::propagator::{Predicate, Propagator, Pruned, Scratch};

/// The temporary that a choice names among `regs`, or the only one where there is no choice, has a register of the set of `sets`
/// at the number of `on`, where that is active.
#[derive(Drop)]
pub struct Spaces {
    /// The activity of the operation, whose number says which set counts: that of its instruction, or 1 for one always active.
    pub on: Act,
    /// The variable of the operand's choice: a place in `regs`; None for a result, and for an operand without a choice.
    pub choice: Option<VarId>,
    /// The variables of the registers of the operand's alternatives, in order; for a result its own alone.
    pub regs: Items<VarId>,
    /// The registers that the temporary may have, at the place of the activity's number.
    pub sets: Items<Span>,
    /// The variables of the operation, the choice and the registers, rising, each once: it reads these, and cuts these alone.
    pub vars: Items<VarId>,
    ghost ascend: { Ascend vars },
    ghost among: { SpacesVars vars on choice regs },
}

/// Whether the set at a place has a number; there is none past the end.
fn is_in(sets: &[Span], i: u32, n: u32) -> bool
    ensures { result ≡ passes_at (λ set. has set n) sets.now i }
{
    let i = i as usize;
    if i < sets.len() {
        sets[i].contains(n)
    } else {
        false
    }
}

/// Whether a variable has a value of the set at a place.
fn meets_at(w: &Window<'_>, v: VarId, sets: &[Span], n: u32) -> bool
    requires { v.0 < length w.now.store.now.sets }
    ensures { result ≡ passes_at (list_any (has (set_at w.now.store.now.sets v.0))) sets.now n }
{
    let n = n as usize;
    if n < sets.len() {
        sets[n].meets(w, v)
    } else {
        false
    }
}

/// Whether a variable has a value of the set at some place that `u` has left.
fn meets_left(w: &Window<'_>, v: VarId, u: VarId, sets: &[Span]) -> bool
    requires there { v.0 < length w.now.store.now.sets }
    requires left { u.0 < length w.now.store.now.sets }
    requires live { NoneEmpty w.now.store.now.sets }
    ensures { result ≡ list_any (passes_at (list_any (has (set_at w.now.store.now.sets v.0))) sets.now) (set_at w.now.store.now.sets u.0) }
{
    let low = u64::from(w.min(u));
    let end = u64::from(w.max(u)) + 1;
    for n in low..end {
        if w.has(u, n as u32) {
            if meets_at(w, v, sets, n as u32) {
                return true;
            }
        }
    }
    false
}

/// Whether a register can be in the set of some number that an activity has left.
fn may_lie(w: &Window<'_>, v: VarId, on: Act, sets: &[Span]) -> bool
    requires there { v.0 < length w.now.store.now.sets }
    requires known { HasVars (act_vars on) w.now.store.now.sets }
    requires live { NoneEmpty w.now.store.now.sets }
    ensures { result ≡ may_lie on sets.now w.now.store.now.sets v }
{
    match on {
        Act::Always => meets_at(w, v, sets, 1),
        Act::Var(u) => meets_left(w, v, u, sets),
    }
}

impl Predicate for Spaces {
    ghost use Rattle.un_alt.specs.Spaces.{spaces_holds};
    ghost use Rattle.un_alt.specs.SpacesLaws.{spaces_looks};

    ghost scope = { λ p. p.vars };

    ghost holds = { λ p x. spaces_holds p.on p.choice p.regs p.sets x };

    fn reads(&self) -> &[VarId] {
        self.vars.as_slice()
    }

    fn test(&self, fixed: &[u32]) -> bool {
        let on = number(fixed, self.on);
        if on == 0 {
            return true;
        }
        match chosen(fixed, self.choice, self.regs.as_slice()) {
            Some(reg) => is_in(self.sets.as_slice(), on, reg),
            None => false,
        }
    }

    ghost looks = { λ p x y same. spaces_looks p.vars p.on p.choice p.regs p.sets p.among x y same };
}

impl Choice for Spaces {
    ghost use Rattle.un_alt.specs.Spaces.{spaces_can};

    ghost can = { λ p s i. spaces_can p.on p.regs p.sets s i };

    fn can_choose(&self, w: &Window<'_>, i: u32) -> bool {
        let i = i as usize;
        if i < self.regs.len() {
            may_lie(w, self.regs.as_slice()[i], self.on, self.sets.as_slice())
        } else {
            false
        }
    }
}

impl Propagator for Spaces {
    ghost use Rattle.std.specs.Prelude.{Some, option_and_then};
    ghost use Rattle.un_prop.specs.Last.{last_cut};
    ghost use Rattle.un_prop.specs.PartLaws.{one_part, one_whole};
    ghost use Rattle.un_prop.specs.WithinLaws.{one_within};
    ghost use Rattle.un_prop.specs.Places.{places_in};
    ghost use Rattle.un_prop.specs.declared.act.Act.TheVariants.{Always};
    ghost use Rattle.un_alt.specs.Filters.{choice_cut};
    ghost use Rattle.un_alt.specs.FilterLaws.{filtered_keeps, filtered_lawful, filtered_forward, none_among};
    ghost use Rattle.un_alt.specs.RegisterLaws.{one_among};
    ghost use Rattle.un_alt.specs.Spaces.{spaces_holds, spaces_can};
    ghost use Rattle.un_alt.specs.SpacesLaws.{spaces_looks, spaces_lawful, spaces_fits};

    ghost cut = { λ p s. option_and_then (last_cut p.vars (spaces_holds p.on p.choice p.regs p.sets))
        (choice_cut p.on p.choice (spaces_can p.on p.regs p.sets) (places_in p.regs) s) };

    ghost parts = { λ p. one_part p.vars (spaces_holds p.on p.choice p.regs p.sets) };

    ghost strong = { λ p s. Unit {0} };

    ghost span = { λ p. 0 };

    fn prune_in(&self, w: &mut Window<'_>, scratch: &mut Scratch) -> Pruned {
        let n = places(self.regs.as_slice());
        let did = keep_chosen(self, w, self.on, self.choice, n);
        check_last(self, w, scratch, did)
    }

    ghost keeps = { λ p s x k full there holds. filtered_keeps p.vars (spaces_holds p.on p.choice p.regs p.sets)
        (spaces_looks p.vars p.on p.choice p.regs p.sets p.among) p.ascend p.on p.choice (spaces_can p.on p.regs p.sets) (places_in p.regs)
        p.among.of_on p.among.of_choice (spaces_lawful p.vars p.on p.choice p.regs p.sets p.among)
        (spaces_fits p.vars p.on p.choice p.regs p.sets p.among) s x k there holds };

    ghost lawful = { λ p. filtered_lawful p.vars (spaces_holds p.on p.choice p.regs p.sets)
        (spaces_looks p.vars p.on p.choice p.regs p.sets p.among) p.ascend p.on p.choice (spaces_can p.on p.regs p.sets) (places_in p.regs)
        p.among.of_on p.among.of_choice (spaces_lawful p.vars p.on p.choice p.regs p.sets p.among) };

    ghost whole = { λ p x. one_whole p.vars (spaces_holds p.on p.choice p.regs p.sets) x };

    ghost within = { λ p. one_within p.vars (spaces_holds p.on p.choice p.regs p.sets) };

    ghost forward = { λ p. filtered_forward p.vars (spaces_holds p.on p.choice p.regs p.sets)
        (spaces_looks p.vars p.on p.choice p.regs p.sets p.among) p.ascend p.on p.choice (spaces_can p.on p.regs p.sets) (places_in p.regs)
        p.among.of_on p.among.of_choice (spaces_lawful p.vars p.on p.choice p.regs p.sets p.among) };

    ghost strength = { λ p s k full words grounded e. tt };
}
