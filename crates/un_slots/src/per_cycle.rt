//! In each cycle the operations of a block take no more of each resource than a packet has.

ghost use Rattle.std.specs.Prelude.{◌≡◌};
ghost use Rattle.un_prop.specs.LastLaws.{Ascend};
ghost use Rattle.un_slots.specs.Slots.{SlotVars, has_room, item_holds};

use crate::crowd::keep_crowds;
use crate::item::Item;
use crate::keep::keep_items;
use crate::load::{is_within, taken};
use un_base::ids::VarId;
use un_domains::window::Window;
use un_lists::items::Items;
use un_prop::act::{active, number, value};
use un_prop::last::check_last;
use un_prop::propagator::{Predicate, Propagator, Pruned, Scratch};

/// Whether the items take no more than a packet has in cycle `c`.
fn has_room(items: &[Item], fixed: &[u32], c: u32) -> bool
    ensures { result ≡ has_room items.now fixed.now c }
{
    is_within(taken(items, fixed, c))
}

/// Whether an item is not active; or its cycle is before the horizon and has room, and there are needs for its number.
fn item_holds(items: &[Item], horizon: u32, fixed: &[u32], item: &Item) -> bool
    ensures { result ≡ item_holds items.now horizon fixed.now item.now }
{
    if !active(fixed, item.on) {
        return true;
    }
    let c = value(fixed, item.at);
    if c >= horizon {
        return false;
    }
    if number(fixed, item.on) as usize >= item.uses.len() {
        return false;
    }
    has_room(items, fixed, c)
}

/// In each cycle the active items take no more of each resource than a packet has. No active item has a cycle at or past
/// `horizon`, and each has needs for its number.
#[derive(Drop)]
pub struct PerCycle {
    /// The operations of a block that may issue, optional ones with them.
    pub items: Items<Item>,
    /// The block's horizon: the cycles that it counts over go from 0 to `horizon` − 1.
    pub horizon: u32,
    /// The variables of the items, rising, each once: it reads these, and cuts these alone.
    pub vars: Items<VarId>,
    ghost ascend: { Ascend vars },
    ghost among: { SlotVars vars items },
}

impl Predicate for PerCycle {
    ghost use Rattle.un_slots.specs.Slots.{per_cycle_holds};
    ghost use Rattle.un_slots.specs.SlotLaws.{per_cycle_looks};

    ghost scope = { λ p. p.vars };

    ghost holds = { λ p x. per_cycle_holds p.items p.horizon x };

    fn reads(&self) -> &[VarId] {
        self.vars.as_slice()
    }

    fn test(&self, fixed: &[u32]) -> bool {
        let items = self.items.as_slice();
        items
            .iter()
            .all(|item| item_holds(items, self.horizon, fixed, item))
    }

    ghost looks = { λ p x y same. per_cycle_looks p.vars p.items p.horizon p.among x y same };
}

impl Propagator for PerCycle {
    ghost use Rattle.std.specs.Prelude.{option_and_then};
    ghost use Rattle.un_prop.specs.Last.{last_cut};
    ghost use Rattle.un_prop.specs.PartLaws.{one_part, one_whole, lawful_checked, keeps_checked, forward_checked, stable_first};
    ghost use Rattle.un_prop.specs.WithinLaws.{one_within};
    ghost use Rattle.un_slots.specs.Slots.{per_cycle_holds};
    ghost use Rattle.un_slots.specs.SlotLaws.{per_cycle_looks};
    ghost use Rattle.un_slots.specs.Loads.{SlotsStrong};
    ghost use Rattle.un_slots.specs.Crowds.{per_cycle_steps};
    ghost use Rattle.un_slots.specs.PerCycleLaws.{steps_lawful, steps_keeps, steps_strong};

    ghost cut = { λ p s. option_and_then (last_cut p.vars (per_cycle_holds p.items p.horizon))
        (per_cycle_steps p.vars p.items p.horizon s) };

    ghost parts = { λ p. one_part p.vars (per_cycle_holds p.items p.horizon) };

    ghost strong = { λ p s. SlotsStrong p.items s };

    ghost span = { λ p. p.horizon };

    fn prune_in(&self, w: &mut Window<'_>, scratch: &mut Scratch) -> Pruned {
        let items = self.items.as_slice();
        let kept = keep_items(items, self.horizon, w, scratch);
        let did = keep_crowds(items, self.horizon, w, kept, scratch);
        check_last(self, w, scratch, did)
    }

    ghost keeps = { λ p s x k full there holds. keeps_checked p.vars (per_cycle_holds p.items p.horizon)
        (per_cycle_looks p.vars p.items p.horizon p.among) p.ascend (per_cycle_steps p.vars p.items p.horizon)
        (steps_lawful p.vars p.items p.horizon p.among) s x k
        (steps_keeps p.vars p.items p.horizon p.among s x k there holds) there.long holds };

    ghost lawful = { λ p. lawful_checked p.vars (per_cycle_holds p.items p.horizon)
        (per_cycle_looks p.vars p.items p.horizon p.among) p.ascend (per_cycle_steps p.vars p.items p.horizon)
        (steps_lawful p.vars p.items p.horizon p.among) };

    ghost whole = { λ p x. one_whole p.vars (per_cycle_holds p.items p.horizon) x };

    ghost within = { λ p. one_within p.vars (per_cycle_holds p.items p.horizon) };

    ghost forward = { λ p. forward_checked p.vars (per_cycle_holds p.items p.horizon)
        (per_cycle_looks p.vars p.items p.horizon p.among) p.ascend (per_cycle_steps p.vars p.items p.horizon)
        (steps_lawful p.vars p.items p.horizon p.among) };

    ghost strength = { λ p s k full words grounded e. steps_strong p.vars p.items p.horizon p.among s k full (stable_first p.vars
        (per_cycle_holds p.items p.horizon) (per_cycle_looks p.vars p.items p.horizon p.among) p.ascend
        (per_cycle_steps p.vars p.items p.horizon) (steps_lawful p.vars p.items p.horizon p.among) s k full e) };
}
