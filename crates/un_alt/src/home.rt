//! Preassignments: a chosen temporary has a given register.

ghost use Rattle.std.specs.Prelude.{◌≡◌};
ghost use Rattle.un_prop.specs.LastLaws.{Ascend};
ghost use Rattle.un_alt.specs.Home.{HomeVars};

use crate::filter::keep_chosen;
use crate::registers::chosen;
use un_base::ids::VarId;
use un_domains::window::Window;
use un_isa::reg::Reg;
use un_lists::items::Items;
use un_prop::act::Act;
use un_prop::last::check_last;
use un_prop::place::{Choice, places};
use un_prop::propagator::{Predicate, Propagator, Pruned, Scratch};

/// The temporary that a choice names among `regs`, or the only one where there is no choice, has the register `home`.
#[derive(Drop)]
pub struct Home {
    /// The variable of the operand's choice: a place in `regs`; None where it has one alternative and no choice.
    pub choice: Option<VarId>,
    /// The variables of the registers of the operand's alternatives, in order.
    pub regs: Items<VarId>,
    /// The register to which the operand is preassigned.
    pub home: Reg,
    /// The variables of the choice and the registers, rising, each once: it reads these, and cuts these alone.
    pub vars: Items<VarId>,
    ghost ascend: { Ascend vars },
    ghost among: { HomeVars vars choice regs },
}

impl Predicate for Home {
    ghost use Rattle.un_alt.specs.Home.{home_holds};
    ghost use Rattle.un_alt.specs.HomeLaws.{home_looks};

    ghost scope = { λ p. p.vars };

    ghost holds = { λ p x. home_holds p.choice p.regs p.home.0 x };

    fn reads(&self) -> &[VarId] {
        self.vars.as_slice()
    }

    fn test(&self, fixed: &[u32]) -> bool {
        match chosen(fixed, self.choice, self.regs.as_slice()) {
            Some(reg) => reg == self.home.0,
            None => false,
        }
    }

    ghost looks = { λ p x y same. home_looks p.vars p.choice p.regs p.home.0 p.among x y same };
}

impl Choice for Home {
    ghost use Rattle.un_alt.specs.Home.{home_can};

    ghost can = { λ p s i. home_can p.regs p.home.0 s i };

    fn can_choose(&self, w: &Window<'_>, i: u32) -> bool {
        let i = i as usize;
        if i < self.regs.len() {
            w.has(self.regs.as_slice()[i], self.home.0)
        } else {
            false
        }
    }
}

impl Propagator for Home {
    ghost use Rattle.std.specs.Prelude.{Some, option_and_then};
    ghost use Rattle.un_prop.specs.Last.{last_cut};
    ghost use Rattle.un_prop.specs.PartLaws.{one_part, one_whole};
    ghost use Rattle.un_prop.specs.WithinLaws.{one_within};
    ghost use Rattle.un_prop.specs.Places.{places_in};
    ghost use Rattle.un_prop.specs.declared.act.Act.TheVariants.{Always};
    ghost use Rattle.un_alt.specs.Filters.{choice_cut};
    ghost use Rattle.un_alt.specs.FilterLaws.{filtered_keeps, filtered_lawful, filtered_forward, none_among};
    ghost use Rattle.un_alt.specs.RegisterLaws.{one_among};
    ghost use Rattle.un_alt.specs.Home.{home_holds, home_can};
    ghost use Rattle.un_alt.specs.HomeLaws.{home_looks, home_lawful, home_fits};

    ghost cut = { λ p s. option_and_then (last_cut p.vars (home_holds p.choice p.regs p.home.0))
        (choice_cut Always p.choice (home_can p.regs p.home.0) (places_in p.regs) s) };

    ghost parts = { λ p. one_part p.vars (home_holds p.choice p.regs p.home.0) };

    ghost strong = { λ p s. Unit {0} };

    ghost span = { λ p. 0 };

    fn prune_in(&self, w: &mut Window<'_>, scratch: &mut Scratch) -> Pruned {
        let n = places(self.regs.as_slice());
        let did = keep_chosen(self, w, Act::Always, self.choice, n);
        check_last(self, w, scratch, did)
    }

    ghost keeps = { λ p s x k full there holds. filtered_keeps p.vars (home_holds p.choice p.regs p.home.0)
        (home_looks p.vars p.choice p.regs p.home.0 p.among) p.ascend Always p.choice (home_can p.regs p.home.0) (places_in p.regs)
        (none_among p.vars) p.among.of_choice (home_lawful p.vars p.choice p.regs p.home.0 p.among)
        (home_fits p.vars p.choice p.regs p.home.0 p.among) s x k there holds };

    ghost lawful = { λ p. filtered_lawful p.vars (home_holds p.choice p.regs p.home.0) (home_looks p.vars p.choice p.regs p.home.0 p.among)
        p.ascend Always p.choice (home_can p.regs p.home.0) (places_in p.regs) (none_among p.vars) p.among.of_choice
        (home_lawful p.vars p.choice p.regs p.home.0 p.among) };

    ghost whole = { λ p x. one_whole p.vars (home_holds p.choice p.regs p.home.0) x };

    ghost within = { λ p. one_within p.vars (home_holds p.choice p.regs p.home.0) };

    ghost forward = { λ p. filtered_forward p.vars (home_holds p.choice p.regs p.home.0)
        (home_looks p.vars p.choice p.regs p.home.0 p.among) p.ascend Always p.choice (home_can p.regs p.home.0) (places_in p.regs)
        (none_among p.vars) p.among.of_choice (home_lawful p.vars p.choice p.regs p.home.0 p.among) };

    ghost strength = { λ p s k full words grounded e. tt };
}
