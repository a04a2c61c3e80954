//! Crowds: whether the sure items whose cycles all lie in an interval need more of a resource than its packets have. The items are
//! listed by their last cycles. From the first cycle on, those that end at a cycle are counted at their least cycles, and the intervals
//! that end there are looked at, the shortest first; the counts stand where the lists of earlier cycles stood.

ghost use Rattle.std.specs.Prelude.{◌≡◌, ◌≢◌, ◌+◌, ◌-◌, ◌*◌, ◌<◌, ◌≤◌, ◌^◌, ◌||◌, ℕ, length};
ghost use Rattle.std.specs.Prelude.{min, nat_eq, nat_le, slice_index, slice_set, sum_by, take};
ghost use Rattle.std.specs.List.{list_any};
ghost use Rattle.un_domains.specs.Sets.{NoneEmpty, least, set_at};
ghost use Rattle.un_isa.specs.PacketCounts.{places_of};
ghost use Rattle.un_prop.specs.Going.{Stepped};
ghost use Rattle.un_prop.specs.Rounds.{HasVars};
ghost use Rattle.un_prop.specs.declared.propagator.Pruned.TheVariants.{Failed};
ghost use Rattle.un_slots.specs.Slots.{ItemVars, SlotVars};
ghost use Rattle.un_slots.specs.Crowds.{surely_takes, crowd_fits, all_below, counted, crowds_fit, crowd_cut};
ghost use Rattle.un_slots.specs.Counts.{at_least, ends_at, ending, adds, sum_from, end_fits};
ghost use Rattle.un_slots.specs.Listings.{last_passing, Chained, Listed, listable};

use crate::item::Item;
use crate::listing::{clear, listable};
use crate::takes::surely_takes;
use un_domains::window::Window;
use un_isa::packet_counts::{Resource, places};
use un_prop::propagator::{Pruned, Scratch};
use un_prop::step::fail;

/// How many items are counted at most: as many as a number can say.
const COUNTED: usize = 0xFFFF_FFFF;

/// Whether some item surely takes some of a resource.
fn is_taken(items: &[Item], w: &Window<'_>, r: Resource) -> bool
    requires vars { SlotVars w.now.vars.now items.now }
    requires known { HasVars w.now.vars.now w.now.store.now.sets }
    requires live { NoneEmpty w.now.store.now.sets }
    ensures { result ≡ list_any (surely_takes r w.now.store.now.sets) items.now }
{
    for item in items {
        if surely_takes(w, r, item) {
            return true;
        }
    }
    false
}

/// Whether an item surely takes some of a resource and has `high` as its last cycle.
fn ends_at(w: &Window<'_>, r: Resource, item: &Item, high: u32) -> bool
    requires vars { ItemVars w.now.vars.now item.now }
    requires known { HasVars w.now.vars.now w.now.store.now.sets }
    requires live { NoneEmpty w.now.store.now.sets }
    ensures { result ≡ ends_at r w.now.store.now.sets high item.now }
{
    if w.max(item.at) != high {
        return false;
    }
    surely_takes(w, r, item)
}

/// Lists the item at place `j` at its last cycle, where it surely takes some of a resource and that is before the horizon.
fn link_end(
    items: &[Item],
    horizon: u32,
    w: &Window<'_>,
    r: Resource,
    j: usize,
    scratch: &mut Scratch,
)
    requires there { j < length items.now }
    requires room { j < length scratch.old.fixed.items }
    requires small { j < 2 ^ 32 - 2 }
    requires span { horizon ≤ length scratch.old.cycles.items }
    requires vars { SlotVars w.now.vars.now items.now }
    requires known { HasVars w.now.vars.now w.now.store.now.sets }
    requires live { NoneEmpty w.now.store.now.sets }
    requires listed { Listed items.now horizon j (ends_at r w.now.store.now.sets) scratch.old.cycles.items scratch.old.fixed.items }
    ensures listed { Listed items.now horizon (j + 1) (ends_at r w.now.store.now.sets) scratch.new.cycles.items scratch.new.fixed.items }
    ensures fixed { length scratch.new.fixed.items ≡ length scratch.old.fixed.items }
    ensures cycles { length scratch.new.cycles.items ≡ length scratch.old.cycles.items }
{
    let item = &items[j];
    if surely_takes(w, r, item) {
        let c = w.max(item.at);
        if c < horizon {
            scratch.fixed[j] = scratch.cycles[c as usize];
            scratch.cycles[c as usize] = (j + 1) as u32;
        }
    }
}

/// Lists the items that surely take some of a resource at their last cycles.
fn list_ends(items: &[Item], horizon: u32, w: &Window<'_>, r: Resource, scratch: &mut Scratch)
    requires span { horizon ≤ length scratch.old.cycles.items }
    requires vars { SlotVars w.now.vars.now items.now }
    requires known { HasVars w.now.vars.now w.now.store.now.sets }
    requires live { NoneEmpty w.now.store.now.sets }
    ensures listed { Listed items.now horizon (listable items.now scratch.new.fixed.items) (ends_at r w.now.store.now.sets)
        scratch.new.cycles.items scratch.new.fixed.items }
    ensures fixed { length scratch.new.fixed.items ≡ length scratch.old.fixed.items }
    ensures cycles { length scratch.new.cycles.items ≡ length scratch.old.cycles.items }
{
    clear(scratch.cycles.as_mut_slice(), horizon);
    let n = listable(items, scratch.fixed.as_slice());
    for j in 0..n {
        link_end(items, horizon, w, r, j, scratch);
    }
}

/// Counts an item at its least cycle.
fn add(w: &Window<'_>, item: &Item, cycles: &mut [u32])
    requires vars { ItemVars w.now.vars.now item.now }
    requires known { HasVars w.now.vars.now w.now.store.now.sets }
    requires live { NoneEmpty w.now.store.now.sets }
    requires room { least (set_at w.now.store.now.sets item.now.at.0) < length cycles.old }
    requires small { slice_index cycles.old (least (set_at w.now.store.now.sets item.now.at.0)) < 2 ^ 32 - 1 }
    ensures { (c : ℕ) → slice_index cycles.new c ≡ slice_index cycles.old c + at_least w.now.store.now.sets c item.now }
{
    let c = w.min(item.at) as usize;
    cycles[c] = cycles[c] + 1;
}

/// Counts an item at its least cycle, if it surely takes some of a resource and ends at `high`; how many that is.
fn add_at(w: &Window<'_>, r: Resource, item: &Item, high: u32, cycles: &mut [u32]) -> u32
    requires vars { ItemVars w.now.vars.now item.now }
    requires known { HasVars w.now.vars.now w.now.store.now.sets }
    requires live { NoneEmpty w.now.store.now.sets }
    requires room { high < length cycles.old }
    requires small { (c : ℕ) → c ≤ high → slice_index cycles.old c + adds r high w.now.store.now.sets c item.now < 2 ^ 32 }
    ensures counts { (c : ℕ) → slice_index cycles.new c ≡ slice_index cycles.old c + adds r high w.now.store.now.sets c item.now }
    ensures many { result ≡ ending r w.now.store.now.sets high item.now }
{
    if !ends_at(w, r, item, high) {
        return 0;
    }
    add(w, item, cycles);
    1
}

/// Counts the items from a place on that surely take some of a resource and end at `high`; how many they are.
fn add_rest(
    items: &[Item],
    w: &Window<'_>,
    r: Resource,
    high: u32,
    from: usize,
    cycles: &mut [u32],
) -> u32
    requires vars { SlotVars w.now.vars.now items.now }
    requires known { HasVars w.now.vars.now w.now.store.now.sets }
    requires live { NoneEmpty w.now.store.now.sets }
    requires room { high < length cycles.old }
    requires within { from ≤ min (length items.now) (2 ^ 32 - 1) }
    requires small { (c : ℕ) → c ≤ high
        → slice_index cycles.old c + sum_by (adds r high w.now.store.now.sets c) (counted items.now) < 2 ^ 32 }
    ensures counts { (c : ℕ) → slice_index cycles.new c + sum_by (adds r high w.now.store.now.sets c) (take from items.now)
        ≡ slice_index cycles.old c + sum_by (adds r high w.now.store.now.sets c) (counted items.now) }
    ensures many { result + sum_by (ending r w.now.store.now.sets high) (take from items.now)
        ≡ sum_by (ending r w.now.store.now.sets high) (counted items.now) }
{
    let mut many = 0;
    for j in from..items.len().min(COUNTED) {
        many += add_at(w, r, &items[j], high, cycles);
    }
    many
}

/// Counts the items that surely take some of a resource and end at `high`, whose last one stands in `cycles`; how many they are.
fn add_ending(
    items: &[Item],
    w: &Window<'_>,
    r: Resource,
    high: u32,
    cycles: &mut [u32],
    before: &[u32],
) -> u32
    requires vars { SlotVars w.now.vars.now items.now }
    requires known { HasVars w.now.vars.now w.now.store.now.sets }
    requires live { NoneEmpty w.now.store.now.sets }
    requires room { high < length cycles.old }
    requires head { slice_index cycles.old high ≡ last_passing items.now (ends_at r w.now.store.now.sets high)
        (listable items.now before.now) }
    requires nexts { Chained items.now (listable items.now before.now) (ends_at r w.now.store.now.sets high) before.now }
    requires small { (c : ℕ) → c ≤ high → slice_index (slice_set cycles.old high 0) c
        + sum_by (adds r high w.now.store.now.sets c) (counted items.now) < 2 ^ 32 }
    ensures counts { (c : ℕ) → slice_index cycles.new c ≡ slice_index (slice_set cycles.old high 0) c
        + sum_by (adds r high w.now.store.now.sets c) (counted items.now) }
    ensures many { result ≡ sum_by (ending r w.now.store.now.sets high) (counted items.now) }
{
    let n = listable(items, before);
    let mut last = cycles[high as usize];
    cycles[high as usize] = 0;
    let mut many = add_rest(items, w, r, high, n, cycles);
    while last > 0 {
        many += add_at(w, r, &items[last as usize - 1], high, cycles);
        last = before[last as usize - 1];
    }
    many
}

/// Whether from no cycle to `high` there are more than the packets have. In all there are at most `total`.
fn fits_down(cycles: &[u32], high: u32, places: u32, total: u64) -> bool
    requires room { high < length cycles.now }
    requires whole { sum_from (slice_index cycles.now) 0 (high + 1) ≤ total }
    ensures { result ≡ all_below (λ low. nat_le (sum_from (slice_index cycles.now) low (high + 1 - low))
        (places * (high + 1 - low))) (high + 1) }
{
    let mut crowd = 0;
    let mut room = 0;
    let mut c = u64::from(high) + 1;
    while c > 0 {
        c -= 1;
        crowd += u64::from(cycles[c as usize]);
        room += u64::from(places);
        if crowd > room {
            return false;
        }
        // Longer intervals have room for all.
        if room >= total {
            return true;
        }
    }
    true
}

/// Whether no interval of cycles that ends with `high` has more of the counted operations than its packets have of a resource.
/// `many` of them end there: where that is 0, a shorter interval has told it. In all there are at most `total`.
pub fn has_room(cycles: &[u32], r: Resource, high: u32, many: u32, total: u64) -> bool
    requires room { high < length cycles.now }
    requires whole { sum_from (slice_index cycles.now) 0 (high + 1) ≤ total }
    ensures { result ≡ (nat_eq many 0 || all_below (λ low. nat_le (sum_from (slice_index cycles.now) low (high + 1 - low))
        (places_of r * (high + 1 - low))) (high + 1)) }
{
    if many == 0 {
        return true;
    }
    fits_down(cycles, high, places(r), total)
}

/// Whether the listed intervals before the horizon have room for what surely takes some of a resource.
fn ends_fit(
    items: &[Item],
    horizon: u32,
    w: &Window<'_>,
    r: Resource,
    cycles: &mut [u32],
    before: &[u32],
) -> bool
    requires vars { SlotVars w.now.vars.now items.now }
    requires known { HasVars w.now.vars.now w.now.store.now.sets }
    requires live { NoneEmpty w.now.store.now.sets }
    requires span { horizon ≤ length cycles.old }
    requires listed { Listed items.now horizon (listable items.now before.now) (ends_at r w.now.store.now.sets) cycles.old before.now }
    ensures { result ≡ all_below (end_fits r (counted items.now) w.now.store.now.sets) horizon }
{
    let mut total = 0;
    for high in 0..horizon {
        let many = add_ending(items, w, r, high, cycles, before);
        total += many;
        if !has_room(cycles, r, high, many, u64::from(total)) {
            return false;
        }
    }
    true
}

/// Whether all intervals before the horizon have room for what surely takes some of a resource.
fn fits(items: &[Item], horizon: u32, w: &Window<'_>, r: Resource, scratch: &mut Scratch) -> bool
    requires vars { SlotVars w.now.vars.now items.now }
    requires known { HasVars w.now.vars.now w.now.store.now.sets }
    requires live { NoneEmpty w.now.store.now.sets }
    requires span { horizon ≤ length scratch.old.cycles.items }
    ensures fits { result ≡ all_below (end_fits r (counted items.now) w.now.store.now.sets) horizon }
    ensures fixed { length scratch.new.fixed.items ≡ length scratch.old.fixed.items }
    ensures cycles { length scratch.new.cycles.items ≡ length scratch.old.cycles.items }
{
    if !is_taken(items, w, r) {
        return true;
    }
    list_ends(items, horizon, w, r, scratch);
    ends_fit(
        items,
        horizon,
        w,
        r,
        scratch.cycles.as_mut_slice(),
        scratch.fixed.as_slice(),
    )
}

/// Whether all intervals before the horizon have room.
fn all_fit(items: &[Item], horizon: u32, w: &Window<'_>, scratch: &mut Scratch) -> bool
    requires vars { SlotVars w.now.vars.now items.now }
    requires known { HasVars w.now.vars.now w.now.store.now.sets }
    requires live { NoneEmpty w.now.store.now.sets }
    requires span { horizon ≤ length scratch.old.cycles.items }
    ensures fits { result ≡ crowds_fit items.now horizon w.now.store.now.sets }
    ensures fixed { length scratch.new.fixed.items ≡ length scratch.old.fixed.items }
    ensures cycles { length scratch.new.cycles.items ≡ length scratch.old.cycles.items }
{
    fits(items, horizon, w, Resource::Instructions, scratch)
        && fits(items, horizon, w, Resource::Memory, scratch)
        && fits(items, horizon, w, Resource::Stores, scratch)
        && fits(items, horizon, w, Resource::MultiplyOrControl, scratch)
        && fits(items, horizon, w, Resource::Control, scratch)
}

/// Fails where some interval before the horizon has not.
pub(crate) fn keep_crowds(
    items: &[Item],
    horizon: u32,
    w: &mut Window<'_>,
    before: Pruned,
    scratch: &mut Scratch,
) -> Pruned
    requires vars { SlotVars w.old.vars.now items.now }
    requires known { HasVars w.old.vars.now w.old.store.now.sets }
    requires live { before ≢ Failed → NoneEmpty w.old.store.now.sets }
    requires span { horizon ≤ length scratch.old.cycles.items }
    ensures step { Stepped w.old.vars.now (crowd_cut w.old.vars.now items.now horizon) w.old.store.now w.new.store.now before result }
    ensures fixed { length scratch.new.fixed.items ≡ length scratch.old.fixed.items }
    ensures cycles { length scratch.new.cycles.items ≡ length scratch.old.cycles.items }
    ensures same_reference { w.new.store.ghost_name ≡ w.old.store.ghost_name }
    ensures vars { w.new.vars ≡ w.old.vars }
{
    if before == Pruned::Failed {
        return before;
    }
    if all_fit(items, horizon, w, scratch) {
        return before;
    }
    fail(w, before)
}
