//! An operation issues inside its block.

ghost use Rattle.std.specs.Prelude.{◌≡◌};
ghost use Rattle.un_prop.specs.LastLaws.{Ascend};
ghost use Rattle.un_prec.specs.Inside.{InsideVars};

use crate::link::{Link, keeps_gap};
use crate::rules::keep_link;
use un_base::ids::VarId;
use un_domains::window::Window;
use un_lists::items::Items;
use un_prop::act::{Act, At};
use un_prop::last::check_last;
use un_prop::propagator::{Predicate, Propagator, Pruned, Scratch};

/// An active operation issues from cycle 1 to the end of its block less 1.
#[derive(Drop)]
pub struct Inside {
    /// The variable of the operation's cycle.
    pub at: VarId,
    /// The operation's activity.
    pub on: Act,
    /// The variable of the block's end, in cycles.
    pub end: VarId,
    /// The variables of the operation and of the end, rising, each once: it reads these, and cuts these alone.
    pub vars: Items<VarId>,
    ghost ascend: { Ascend vars },
    ghost among: { InsideVars vars at on end },
}

impl Predicate for Inside {
    ghost use Rattle.un_prec.specs.Inside.{start_link, end_link, inside_holds, inside_steps, InsideVars, InsideStrong};
    ghost use Rattle.un_prec.specs.InsideLaws.{inside_looks, inside_lawful, inside_keeps, inside_strong};

    ghost scope = { λ p. p.vars };

    ghost holds = { λ p x. inside_holds p.at p.on p.end x };

    fn reads(&self) -> &[VarId] {
        self.vars.as_slice()
    }

    fn test(&self, fixed: &[u32]) -> bool {
        let start = Link {
            from: At::Const(0),
            from_on: Act::Always,
            to: At::Var(self.at),
            to_on: self.on,
            gap: 1,
        };
        let end = Link {
            from: At::Var(self.at),
            from_on: self.on,
            to: At::Var(self.end),
            to_on: Act::Always,
            gap: 1,
        };
        if !keeps_gap(fixed, start) {
            return false;
        }
        keeps_gap(fixed, end)
    }

    ghost looks = { λ p x y same. inside_looks p.vars p.at p.on p.end p.among x y same };
}

impl Propagator for Inside {
    ghost use Rattle.un_prop.specs.Last.{last_cut};
    ghost use Rattle.un_prop.specs.PartLaws.{one_part, one_whole, lawful_checked, keeps_checked, forward_checked, stable_first};
    ghost use Rattle.un_prop.specs.WithinLaws.{one_within};
    ghost use Rattle.std.specs.Prelude.{option_and_then};
    ghost use Rattle.un_prec.specs.Inside.{start_link, end_link, inside_holds, inside_steps, InsideVars, InsideStrong};
    ghost use Rattle.un_prec.specs.InsideLaws.{inside_looks, inside_lawful, inside_keeps, inside_strong};

    ghost cut = { λ p s. option_and_then (last_cut p.vars (inside_holds p.at p.on p.end)) (inside_steps p.vars p.at p.on p.end s) };

    ghost parts = { λ p. one_part p.vars (inside_holds p.at p.on p.end) };

    ghost strong = { λ p s. InsideStrong p.at p.on p.end s };

    ghost span = { λ p. 0 };

    fn prune_in(&self, w: &mut Window<'_>, scratch: &mut Scratch) -> Pruned {
        let start = Link {
            from: At::Const(0),
            from_on: Act::Always,
            to: At::Var(self.at),
            to_on: self.on,
            gap: 1,
        };
        let end = Link {
            from: At::Var(self.at),
            from_on: self.on,
            to: At::Var(self.end),
            to_on: Act::Always,
            gap: 1,
        };
        let first = keep_link(w, Pruned::Same, start);
        let did = keep_link(w, first, end);
        check_last(self, w, scratch, did)
    }

    ghost keeps = { λ p s x k full there holds. keeps_checked p.vars (inside_holds p.at p.on p.end)
        (inside_looks p.vars p.at p.on p.end p.among) p.ascend (inside_steps p.vars p.at p.on p.end)
        (inside_lawful p.vars p.at p.on p.end p.among) s x k (inside_keeps p.vars p.at p.on p.end p.among s x k there holds) there.long
        holds };

    ghost lawful = { λ p. lawful_checked p.vars (inside_holds p.at p.on p.end) (inside_looks p.vars p.at p.on p.end p.among) p.ascend
        (inside_steps p.vars p.at p.on p.end) (inside_lawful p.vars p.at p.on p.end p.among) };

    ghost whole = { λ p x. one_whole p.vars (inside_holds p.at p.on p.end) x };

    ghost within = { λ p. one_within p.vars (inside_holds p.at p.on p.end) };

    ghost forward = { λ p. forward_checked p.vars (inside_holds p.at p.on p.end) (inside_looks p.vars p.at p.on p.end p.among) p.ascend
        (inside_steps p.vars p.at p.on p.end) (inside_lawful p.vars p.at p.on p.end p.among) };

    ghost strength = { λ p s k full words grounded e. inside_strong p.vars p.at p.on p.end p.among s k full words grounded
        (stable_first p.vars (inside_holds p.at p.on p.end) (inside_looks p.vars p.at p.on p.end p.among) p.ascend
        (inside_steps p.vars p.at p.on p.end) (inside_lawful p.vars p.at p.on p.end p.among) s k full e) };
}
