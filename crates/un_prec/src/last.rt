//! A control transfer issues in the last cycle of its block.

ghost use Rattle.std.specs.Prelude.{◌≡◌};
ghost use Rattle.un_prop.specs.LastLaws.{Ascend};
ghost use Rattle.un_prec.specs.Last.{LastVars};

use crate::link::Link;
use crate::rules::{close, keep_link};
use un_base::ids::VarId;
use un_domains::window::Window;
use un_lists::items::Items;
use un_prop::act::{Act, At, value};
use un_prop::last::check_last;
use un_prop::propagator::{Predicate, Propagator, Pruned, Scratch};

/// The control transfer that issues at `at` does so in the last cycle before the end of its block.
#[derive(Drop)]
pub struct Last {
    /// The variable of the transfer's cycle.
    pub at: VarId,
    /// The variable of the block's end, which is to be one more than that cycle.
    pub end: VarId,
    /// Both variables, rising, each once: it reads these, and cuts these alone.
    pub vars: Items<VarId>,
    ghost ascend: { Ascend vars },
    ghost among: { LastVars vars at end },
}

impl Predicate for Last {
    ghost use Rattle.un_prec.specs.Last.{last_holds, last_steps, LastVars, LastStrong};
    ghost use Rattle.un_prec.specs.LastLaws.{last_looks, last_steps_lawful, last_steps_keep, last_strong};

    ghost scope = { λ p. p.vars };

    ghost holds = { λ p x. last_holds p.at p.end x };

    fn reads(&self) -> &[VarId] {
        self.vars.as_slice()
    }

    fn test(&self, fixed: &[u32]) -> bool {
        let at = u64::from(value(fixed, self.at));
        u64::from(value(fixed, self.end)) == at + 1
    }

    ghost looks = { λ p x y same. last_looks p.vars p.at p.end p.among x y same };
}

impl Propagator for Last {
    ghost use Rattle.un_prop.specs.Last.{last_cut};
    ghost use Rattle.un_prop.specs.PartLaws.{one_part, one_whole, lawful_checked, keeps_checked, forward_checked, stable_first};
    ghost use Rattle.un_prop.specs.WithinLaws.{one_within};
    ghost use Rattle.std.specs.Prelude.{option_and_then};
    ghost use Rattle.un_prec.specs.Last.{last_holds, last_steps, LastVars, LastStrong};
    ghost use Rattle.un_prec.specs.LastLaws.{last_looks, last_steps_lawful, last_steps_keep, last_strong};

    ghost cut = { λ p s. option_and_then (last_cut p.vars (last_holds p.at p.end)) (last_steps p.vars p.at p.end s) };

    ghost parts = { λ p. one_part p.vars (last_holds p.at p.end) };

    ghost strong = { λ p s. LastStrong p.at p.end s };

    ghost span = { λ p. 0 };

    fn prune_in(&self, w: &mut Window<'_>, scratch: &mut Scratch) -> Pruned {
        let link = Link {
            from: At::Var(self.at),
            from_on: Act::Always,
            to: At::Var(self.end),
            to_on: Act::Always,
            gap: 1,
        };
        let first = keep_link(w, Pruned::Same, link);
        let did = close(w, first, link);
        check_last(self, w, scratch, did)
    }

    ghost keeps = { λ p s x k full there holds. keeps_checked p.vars (last_holds p.at p.end) (last_looks p.vars p.at p.end p.among) p.ascend
        (last_steps p.vars p.at p.end) (last_steps_lawful p.vars p.at p.end p.among) s x k
        (last_steps_keep p.vars p.at p.end p.among s x k there holds) there.long holds };

    ghost lawful = { λ p. lawful_checked p.vars (last_holds p.at p.end) (last_looks p.vars p.at p.end p.among) p.ascend
        (last_steps p.vars p.at p.end) (last_steps_lawful p.vars p.at p.end p.among) };

    ghost whole = { λ p x. one_whole p.vars (last_holds p.at p.end) x };

    ghost within = { λ p. one_within p.vars (last_holds p.at p.end) };

    ghost forward = { λ p. forward_checked p.vars (last_holds p.at p.end) (last_looks p.vars p.at p.end p.among) p.ascend
        (last_steps p.vars p.at p.end) (last_steps_lawful p.vars p.at p.end p.among) };

    ghost strength = { λ p s k full words grounded e. last_strong p.vars p.at p.end p.among s k full words grounded
        (stable_first p.vars (last_holds p.at p.end) (last_looks p.vars p.at p.end p.among) p.ascend (last_steps p.vars p.at p.end)
        (last_steps_lawful p.vars p.at p.end p.among) s k full e) };
}
