//! Congruences: a chosen temporary and another have one register.

ghost use Rattle.std.specs.Prelude.{◌≡◌, ◌<◌, length};
ghost use Rattle.std.specs.List.{list_any};
ghost use Rattle.un_domains.specs.Sets.{set_at, has, NoneEmpty};
ghost use Rattle.un_prop.specs.LastLaws.{Ascend};
ghost use Rattle.un_alt.specs.Same.{SameVars};

use crate::filter::keep_chosen;
use crate::registers::chosen;
use un_base::ids::VarId;
use un_domains::window::Window;
use un_lists::items::Items;
use un_prop::act::{Act, value};
use un_prop::last::check_last;
use un_prop::place::{Choice, places};
use un_prop::propagator::{Predicate, Propagator, Pruned, Scratch};

/// The temporary that an operand chooses has the register of another temporary.
#[derive(Drop)]
pub struct Same {
    /// The variable of the operand's choice: a place in `regs`.
    pub choice: VarId,
    /// The variables of the registers of the operand's alternatives, in order.
    pub regs: Items<VarId>,
    /// The variable of the register of the other temporary, which takes the value over in the next block.
    pub to: VarId,
    /// The variables of the choice and of all registers, rising, each once: it reads these, and cuts these alone.
    pub vars: Items<VarId>,
    ghost ascend: { Ascend vars },
    ghost among: { SameVars vars choice regs to },
}

/// Whether some value is one of both variables, looked for from the least one on.
fn meet_anywhere(w: &Window<'_>, v: VarId, to: VarId) -> bool
    requires there { v.0 < length w.now.store.now.sets }
    requires to { to.0 < length w.now.store.now.sets }
    requires live { NoneEmpty w.now.store.now.sets }
    ensures { result ≡ list_any (has (set_at w.now.store.now.sets to.0)) (set_at w.now.store.now.sets v.0) }
{
    let low = u64::from(w.min(v));
    let end = u64::from(w.max(v)) + 1;
    for y in low..end {
        if w.has(v, y as u32) {
            if w.has(to, y as u32) {
                return true;
            }
        }
    }
    false
}

/// The same. The least value of the other variable is tried first: mostly it is one of both, or the only one there.
fn meet(w: &Window<'_>, v: VarId, to: VarId) -> bool
    requires there { v.0 < length w.now.store.now.sets }
    requires to { to.0 < length w.now.store.now.sets }
    requires live { NoneEmpty w.now.store.now.sets }
    ensures { result ≡ list_any (has (set_at w.now.store.now.sets to.0)) (set_at w.now.store.now.sets v.0) }
{
    let first = w.min(to);
    if w.has(v, first) {
        return true;
    }
    if w.is_single(to) {
        return false;
    }
    meet_anywhere(w, v, to)
}

impl Predicate for Same {
    ghost use Rattle.un_alt.specs.Same.{same_holds};
    ghost use Rattle.un_alt.specs.SameLaws.{same_looks};

    ghost scope = { λ p. p.vars };

    ghost holds = { λ p x. same_holds p.choice p.regs p.to x };

    fn reads(&self) -> &[VarId] {
        self.vars.as_slice()
    }

    fn test(&self, fixed: &[u32]) -> bool {
        match chosen(fixed, Some(self.choice), self.regs.as_slice()) {
            Some(reg) => reg == value(fixed, self.to),
            None => false,
        }
    }

    ghost looks = { λ p x y same. same_looks p.vars p.choice p.regs p.to p.among x y same };
}

impl Choice for Same {
    ghost use Rattle.un_alt.specs.Same.{same_can};

    ghost can = { λ p s i. same_can p.regs p.to s i };

    fn can_choose(&self, w: &Window<'_>, i: u32) -> bool {
        let i = i as usize;
        if i < self.regs.len() {
            meet(w, self.regs.as_slice()[i], self.to)
        } else {
            false
        }
    }
}

impl Propagator for Same {
    ghost use Rattle.std.specs.Prelude.{Some, option_and_then};
    ghost use Rattle.un_prop.specs.Last.{last_cut};
    ghost use Rattle.un_prop.specs.PartLaws.{one_part, one_whole};
    ghost use Rattle.un_prop.specs.WithinLaws.{one_within};
    ghost use Rattle.un_prop.specs.Places.{places_in};
    ghost use Rattle.un_prop.specs.declared.act.Act.TheVariants.{Always};
    ghost use Rattle.un_alt.specs.Filters.{choice_cut};
    ghost use Rattle.un_alt.specs.FilterLaws.{filtered_keeps, filtered_lawful, filtered_forward, none_among};
    ghost use Rattle.un_alt.specs.RegisterLaws.{one_among};
    ghost use Rattle.un_alt.specs.Same.{same_holds, same_can};
    ghost use Rattle.un_alt.specs.SameLaws.{same_looks, same_lawful, same_fits};

    ghost cut = { λ p s. option_and_then (last_cut p.vars (same_holds p.choice p.regs p.to))
        (choice_cut Always (Some p.choice) (same_can p.regs p.to) (places_in p.regs) s) };

    ghost parts = { λ p. one_part p.vars (same_holds p.choice p.regs p.to) };

    ghost strong = { λ p s. Unit {0} };

    ghost span = { λ p. 0 };

    fn prune_in(&self, w: &mut Window<'_>, scratch: &mut Scratch) -> Pruned {
        let n = places(self.regs.as_slice());
        let did = keep_chosen(self, w, Act::Always, Some(self.choice), n);
        check_last(self, w, scratch, did)
    }

    ghost keeps = { λ p s x k full there holds. filtered_keeps p.vars (same_holds p.choice p.regs p.to)
        (same_looks p.vars p.choice p.regs p.to p.among) p.ascend Always (Some p.choice) (same_can p.regs p.to) (places_in p.regs)
        (none_among p.vars) (one_among p.vars p.choice p.among.of_choice) (same_lawful p.vars p.choice p.regs p.to p.among)
        (same_fits p.vars p.choice p.regs p.to p.among) s x k there holds };

    ghost lawful = { λ p. filtered_lawful p.vars (same_holds p.choice p.regs p.to) (same_looks p.vars p.choice p.regs p.to p.among) p.ascend
        Always (Some p.choice) (same_can p.regs p.to) (places_in p.regs) (none_among p.vars) (one_among p.vars p.choice p.among.of_choice)
        (same_lawful p.vars p.choice p.regs p.to p.among) };

    ghost whole = { λ p x. one_whole p.vars (same_holds p.choice p.regs p.to) x };

    ghost within = { λ p. one_within p.vars (same_holds p.choice p.regs p.to) };

    ghost forward = { λ p. filtered_forward p.vars (same_holds p.choice p.regs p.to) (same_looks p.vars p.choice p.regs p.to p.among)
        p.ascend Always (Some p.choice) (same_can p.regs p.to) (places_in p.regs) (none_among p.vars)
        (one_among p.vars p.choice p.among.of_choice) (same_lawful p.vars p.choice p.regs p.to p.among) };

    ghost strength = { λ p s k full words grounded e. tt };
}
