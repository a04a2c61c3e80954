//! The settled items of each cycle, listed in `Scratch`: the last one of a cycle stands in `cycles`, and the one before each item
//! in `fixed`. A place is given as one more than it is, and 0 is the end. So what a cycle holds is found without a look at all
//! items.

ghost use Rattle.std.specs.Prelude.{◌≡◌, ◌+◌, ◌<◌, ◌≤◌, ◌-◌, ◌^◌, ℕ, length, slice_index};
ghost use Rattle.un_domains.specs.Sets.{NoneEmpty};
ghost use Rattle.un_prop.specs.Rounds.{HasVars};
ghost use Rattle.un_slots.specs.Slots.{SlotVars};
ghost use Rattle.un_slots.specs.Loads.{settled_at, load};
ghost use Rattle.un_slots.specs.Amounts.{IsLoad};
ghost use Rattle.un_slots.specs.Listings.{last_passing, Chained, Listed, listable};

use crate::item::Item;
use crate::load::{Load, is_settled, least_number, load_from, take};
use un_domains::window::Window;
use un_prop::propagator::Scratch;

/// The greatest place that is given, less 1.
const MOST: usize = 0xFFFF_FFFE;

/// How many items can be listed.
pub(crate) fn listable(items: &[Item], before: &[u32]) -> usize
    ensures { result ≡ listable items.now before.now }
{
    items.len().min(before.len()).min(MOST)
}

/// No cycle before the horizon has an item.
pub(crate) fn clear(cycles: &mut [u32], horizon: u32)
    requires { horizon ≤ length cycles.old }
    ensures none { (c : ℕ) → c < horizon → slice_index cycles.new c ≡ 0 }
    ensures long { length cycles.new ≡ length cycles.old }
{
    for c in 0..horizon {
        cycles[c as usize] = 0;
    }
}

/// Lists the item at place `j`, where it is settled in a cycle before the horizon.
fn link(items: &[Item], horizon: u32, w: &Window<'_>, j: usize, scratch: &mut Scratch)
    requires there { j < length items.now }
    requires room { j < length scratch.old.fixed.items }
    requires small { j < 2 ^ 32 - 2 }
    requires span { horizon ≤ length scratch.old.cycles.items }
    requires vars { SlotVars w.now.vars.now items.now }
    requires known { HasVars w.now.vars.now w.now.store.now.sets }
    requires live { NoneEmpty w.now.store.now.sets }
    requires listed { Listed items.now horizon j (settled_at w.now.store.now.sets) scratch.old.cycles.items scratch.old.fixed.items }
    ensures listed { Listed items.now horizon (j + 1) (settled_at w.now.store.now.sets) scratch.new.cycles.items scratch.new.fixed.items }
    ensures fixed { length scratch.new.fixed.items ≡ length scratch.old.fixed.items }
    ensures cycles { length scratch.new.cycles.items ≡ length scratch.old.cycles.items }
{
    let item = &items[j];
    if is_settled(w, item) {
        let c = w.min(item.at);
        if c < horizon {
            scratch.fixed[j] = scratch.cycles[c as usize];
            scratch.cycles[c as usize] = (j + 1) as u32;
        }
    }
}

/// Lists the settled items of each cycle before the horizon.
pub(crate) fn list(items: &[Item], horizon: u32, w: &Window<'_>, scratch: &mut Scratch)
    requires span { horizon ≤ length scratch.old.cycles.items }
    requires vars { SlotVars w.now.vars.now items.now }
    requires known { HasVars w.now.vars.now w.now.store.now.sets }
    requires live { NoneEmpty w.now.store.now.sets }
    ensures listed { Listed items.now horizon (listable items.now scratch.new.fixed.items) (settled_at w.now.store.now.sets)
        scratch.new.cycles.items scratch.new.fixed.items }
    ensures fixed { length scratch.new.fixed.items ≡ length scratch.old.fixed.items }
    ensures cycles { length scratch.new.cycles.items ≡ length scratch.old.cycles.items }
{
    clear(scratch.cycles.as_mut_slice(), horizon);
    let n = listable(items, scratch.fixed.as_slice());
    for j in 0..n {
        link(items, horizon, w, j, scratch);
    }
}

/// What the settled items take in cycle `c`, whose last one stands in `cycles`.
pub(crate) fn load_at(
    items: &[Item],
    w: &Window<'_>,
    c: u32,
    cycles: &[u32],
    before: &[u32],
) -> Load
    requires span { c < length cycles.now }
    requires vars { SlotVars w.now.vars.now items.now }
    requires known { HasVars w.now.vars.now w.now.store.now.sets }
    requires live { NoneEmpty w.now.store.now.sets }
    requires head { slice_index cycles.now c ≡ last_passing items.now (settled_at w.now.store.now.sets c) (listable items.now before.now) }
    requires nexts { Chained items.now (listable items.now before.now) (settled_at w.now.store.now.sets c) before.now }
    ensures { IsLoad result (λ r. load r items.now w.now.store.now.sets c) }
{
    let mut load = load_from(items, w, listable(items, before), c);
    let mut last = cycles[c as usize];
    while last > 0 {
        let item = &items[last as usize - 1];
        load = take(load, item.uses.as_slice(), least_number(w, item.on));
        last = before[last as usize - 1];
    }
    load
}
