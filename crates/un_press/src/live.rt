//! In each cycle the values of a block that are there and are read later are no more than there is room for.

ghost use Rattle.std.specs.Prelude.{◌≡◌, nat_le, nat_lt, length};
ghost use Rattle.std.specs.List.{list_any};
ghost use Rattle.un_prop.specs.Acts.{at_value};
ghost use Rattle.un_prop.specs.declared.act.At.{At};
ghost use Rattle.un_prop.specs.LastLaws.{Ascend};
ghost use Rattle.un_press.specs.Pressures.{LiveVars, is_live, living, live_holds};

use un_base::ids::VarId;
use un_domains::window::Window;
use un_lists::items::Items;
use un_prop::act::{At, time};
use un_prop::last::check_last;
use un_prop::propagator::{Predicate, Propagator, Pruned, Scratch};

/// A value: the time of its definer, and those of the operations that read it in every solution.
#[derive(Drop)]
pub struct Span {
    /// The cycle in which its definer issues; 0 for a value at the block's start.
    pub def: At,
    /// The cycles in which it is read; the block's end for a value that is there then.
    pub uses: Items<At>,
}

/// Whether one of these times is after cycle `t`.
fn any_later(t: u32, fixed: &[u32], uses: &[At]) -> bool
    ensures { result ≡ list_any (λ (u : At). nat_lt t (at_value u fixed.now)) uses.now }
{
    uses.iter().any(|u| t < time(fixed, *u))
}

/// Whether a value is defined by cycle `t` and is read later.
fn is_live(t: u32, fixed: &[u32], v: &Span) -> bool
    ensures { result ≡ is_live t fixed.now v.now }
{
    time(fixed, v.def) <= t && any_later(t, fixed, v.uses.as_slice())
}

/// How many of these values are.
fn living(values: &[Span], fixed: &[u32], t: u32) -> usize
    ensures { result ≡ living values.now fixed.now t }
{
    values.iter().filter(|v| is_live(t, fixed, v)).count()
}

/// In each cycle the values that are there and are read later are no more than there is room for. Something has to carry each of
/// them there, in a register or a slot of its own. It takes no value away before all cycles but one are fixed.
#[derive(Drop)]
pub struct Live {
    /// The values of a block.
    pub values: Items<Span>,
    /// How many of them there is room for in a cycle, in registers and slots.
    pub room: u32,
    /// The block's horizon: the cycles that it counts over go from 0 to `horizon` − 1.
    pub horizon: u32,
    /// The variables of the values' times, rising, each once: it reads these, and cuts these alone.
    pub vars: Items<VarId>,
    ghost ascend: { Ascend vars },
    ghost among: { LiveVars vars values },
}

impl Live {
    /// Whether there is room for all values at once, so that it holds of every assignment.
    fn is_roomy(&self) -> bool
        ensures { result ≡ nat_le (length self.now.values) self.now.room }
    {
        self.values.len() <= self.room as usize
    }
}

impl Predicate for Live {
    ghost use Rattle.un_press.specs.Pressures.{live_holds};
    ghost use Rattle.un_press.specs.PressureLaws.{live_looks};

    ghost scope = { λ p. p.vars };

    ghost holds = { λ p x. live_holds p.values p.room p.horizon x };

    fn reads(&self) -> &[VarId] {
        self.vars.as_slice()
    }

    fn test(&self, fixed: &[u32]) -> bool {
        let values = self.values.as_slice();
        (0..self.horizon).all(|t| living(values, fixed, t) <= self.room as usize)
    }

    ghost looks = { λ p x y same. live_looks p.vars p.values p.room p.horizon p.among x y same };
}

impl Propagator for Live {
    ghost use Rattle.un_prop.specs.Last.{last_cut};
    ghost use Rattle.un_prop.specs.LastLaws.{last_lawful, last_keeps};
    ghost use Rattle.un_prop.specs.PartLaws.{one_part, one_whole, forward_one};
    ghost use Rattle.un_prop.specs.WithinLaws.{one_within};
    ghost use Rattle.un_press.specs.Pressures.{live_holds};
    ghost use Rattle.un_press.specs.PressureLaws.{live_looks};

    ghost cut = { λ p s. last_cut p.vars (live_holds p.values p.room p.horizon) s };

    ghost parts = { λ p. one_part p.vars (live_holds p.values p.room p.horizon) };

    ghost strong = { λ p s. Unit {0} };

    ghost span = { λ p. 0 };

    fn is_heavy(&self) -> bool {
        true
    }

    fn prune_in(&self, w: &mut Window<'_>, scratch: &mut Scratch) -> Pruned {
        if self.is_roomy() {
            return Pruned::Same;
        }
        check_last(self, w, scratch, Pruned::Same)
    }

    ghost keeps = { λ p s x k full there holds. last_keeps p.vars (live_holds p.values p.room p.horizon)
        (live_looks p.vars p.values p.room p.horizon p.among) s x k there holds };

    ghost lawful = { λ p. last_lawful p.vars (live_holds p.values p.room p.horizon)
        (live_looks p.vars p.values p.room p.horizon p.among) };

    ghost whole = { λ p x. one_whole p.vars (live_holds p.values p.room p.horizon) x };

    ghost within = { λ p. one_within p.vars (live_holds p.values p.room p.horizon) };

    ghost forward = { λ p. forward_one p.vars (live_holds p.values p.room p.horizon)
        (live_looks p.vars p.values p.room p.horizon p.among) p.ascend };

    ghost strength = { λ p s k full words grounded e. tt };
}
