//! Whether an item can issue in a cycle beside the settled ones.

ghost use Rattle.std.specs.Prelude.{◌≡◌, ◌<◌, ◌≤◌, ◌≢◌, ◌&&◌, ℕ, Some, false, length, nat_lt, slice_index, true};
ghost use Rattle.std.specs.List.{list_any, slice_get};
ghost use Rattle.un_domains.specs.Sets.{NoneEmpty, has, set_at};
ghost use Rattle.un_prop.specs.Acts.{act_vars};
ghost use Rattle.un_prop.specs.Looks.{act_set};
ghost use Rattle.un_prop.specs.Rounds.{HasVars};
ghost use Rattle.un_isa.specs.declared.packet_counts.Resource.{Resource};
ghost use Rattle.un_slots.specs.Slots.{SlotVars, ItemVars};
ghost use Rattle.un_slots.specs.Loads.{settled_at, fits_beside, others, can_issue};
ghost use Rattle.un_slots.specs.Amounts.{IsLoad};
ghost use Rattle.un_slots.specs.Listings.{last_passing, Chained, Listed, listable, is_unmarked, is_left};

use crate::item::Item;
use crate::listing::{listable, load_at};
use crate::load::{Load, empty, is_settled, is_within, least_number, take};
use un_base::ids::VarId;
use un_domains::window::Window;
use un_prop::act::Act;
use un_prop::propagator::Scratch;

/// What stands in `Scratch.cycles` at a cycle that is to go.
pub(crate) const MARK: u32 = 0xFFFF_FFFF;

/// Whether number `n` has needs, and they fit beside what is taken.
fn fits(item: &Item, load: Load, n: u32) -> bool
    ensures { (f : Resource → ℕ) → IsLoad load f → result ≡ fits_beside f item.now n }
{
    if n as usize >= item.uses.len() {
        return false;
    }
    is_within(take(load, item.uses.as_slice(), n))
}

/// Whether some number that `v` has left fits beside what is taken.
fn fits_left(w: &Window<'_>, item: &Item, v: VarId, load: Load) -> bool
    requires there { v.0 < length w.now.store.now.sets }
    requires live { NoneEmpty w.now.store.now.sets }
    ensures { (f : Resource → ℕ) → IsLoad load f → result ≡ list_any (fits_beside f item.now) (set_at w.now.store.now.sets v.0) }
{
    let low = u64::from(w.min(v));
    let end = u64::from(w.max(v)) + 1;
    for n in low..end {
        if w.has(v, n as u32) {
            if fits(item, load, n as u32) {
                return true;
            }
        }
    }
    false
}

/// Whether some number that an item has left fits beside what is taken.
fn fits_some(w: &Window<'_>, item: &Item, load: Load) -> bool
    requires known { HasVars (act_vars item.now.on) w.now.store.now.sets }
    requires live { NoneEmpty w.now.store.now.sets }
    ensures { (f : Resource → ℕ) → IsLoad load f → result ≡ list_any (fits_beside f item.now) (act_set item.now.on w.now.store.now.sets) }
{
    match item.on {
        Act::Always => fits(item, load, 1),
        Act::Var(v) => fits_left(w, item, v, load),
    }
}

/// Whether the item at place `k` can issue in cycle `c`, one of its own, beside the others that are settled.
fn can_issue(
    items: &[Item],
    w: &Window<'_>,
    k: usize,
    item: &Item,
    c: u32,
    scratch: &Scratch,
) -> bool
    requires item { slice_get items.now k ≡ Some item.now }
    requires vars { SlotVars w.now.vars.now items.now }
    requires of_item { ItemVars w.now.vars.now item.now }
    requires known { HasVars w.now.vars.now w.now.store.now.sets }
    requires live { NoneEmpty w.now.store.now.sets }
    requires its_own { has (set_at w.now.store.now.sets item.now.at.0) c ≡ true }
    requires span { c < length scratch.now.cycles.items }
    requires head { slice_index scratch.now.cycles.items c ≡ last_passing items.now (settled_at w.now.store.now.sets c)
        (listable items.now scratch.now.fixed.items) }
    requires nexts { Chained items.now (listable items.now scratch.now.fixed.items) (settled_at w.now.store.now.sets c)
        scratch.now.fixed.items }
    ensures { result ≡ can_issue (others k items.now) item.now w.now.store.now.sets c }
{
    let load = load_at(
        items,
        w,
        c,
        scratch.cycles.as_slice(),
        scratch.fixed.as_slice(),
    );
    if is_settled(w, item) {
        if least_number(w, item.on) as usize >= item.uses.len() {
            return false;
        }
        is_within(load)
    } else {
        fits_some(w, item, load)
    }
}

/// Whether all items are listed, and an item can issue in a cycle that no settled item has.
fn is_free(items: &[Item], w: &Window<'_>, item: &Item, before: &[u32]) -> bool
    requires of_item { ItemVars w.now.vars.now item.now }
    requires known { HasVars w.now.vars.now w.now.store.now.sets }
    requires live { NoneEmpty w.now.store.now.sets }
    ensures alone { result ≡ true → list_any (fits_beside (λ r. 0) item.now) (act_set item.now.on w.now.store.now.sets) ≡ true }
    ensures whole { result ≡ true → listable items.now before.now ≡ length items.now }
{
    if listable(items, before) != items.len() {
        return false;
    }
    fits_some(w, item, empty())
}

/// Marks cycle `c`, where it is one of the item's and the item can't issue in it; whether it is marked. Where the item is free, it
/// can issue in each cycle that no settled item has.
fn mark_at(
    items: &[Item],
    w: &Window<'_>,
    k: usize,
    item: &Item,
    free: bool,
    c: u32,
    scratch: &mut Scratch,
) -> bool
    requires item { slice_get items.now k ≡ Some item.now }
    requires vars { SlotVars w.now.vars.now items.now }
    requires of_item { ItemVars w.now.vars.now item.now }
    requires known { HasVars w.now.vars.now w.now.store.now.sets }
    requires live { NoneEmpty w.now.store.now.sets }
    requires span { c < length scratch.old.cycles.items }
    requires head { slice_index scratch.old.cycles.items c ≡ last_passing items.now (settled_at w.now.store.now.sets c)
        (listable items.now scratch.old.fixed.items) }
    requires nexts { Chained items.now (listable items.now scratch.old.fixed.items) (settled_at w.now.store.now.sets c)
        scratch.old.fixed.items }
    requires alone { free ≡ true → list_any (fits_beside (λ r. 0) item.now) (act_set item.now.on w.now.store.now.sets) ≡ true }
    requires whole { free ≡ true → listable items.now scratch.old.fixed.items ≡ length items.now }
    ensures here { has (set_at w.now.store.now.sets item.now.at.0) c ≡ true
        → is_unmarked scratch.new.cycles.items c ≡ can_issue (others k items.now) item.now w.now.store.now.sets c }
    ensures elsewhere { (e : ℕ) → e ≢ c → slice_index scratch.new.cycles.items e ≡ slice_index scratch.old.cycles.items e }
    ensures none { result ≡ false → has (set_at w.now.store.now.sets item.now.at.0) c ≡ true
        → can_issue (others k items.now) item.now w.now.store.now.sets c ≡ true }
    ensures same { result ≡ false → scratch.new.cycles.items ≡ scratch.old.cycles.items }
    ensures fixed { scratch.new.fixed.items ≡ scratch.old.fixed.items }
    ensures cycles { length scratch.new.cycles.items ≡ length scratch.old.cycles.items }
{
    if free {
        if scratch.cycles[c as usize] == 0 {
            return false;
        }
    }
    if !w.has(item.at, c) {
        return false;
    }
    if can_issue(items, w, k, item, c, scratch) {
        return false;
    }
    scratch.cycles[c as usize] = MARK;
    true
}

/// The end of the cycles from `low` on that have to be looked at for an item: where it is free, those up to the last that a settled
/// item has.
fn last_taken(cycles: &[u32], free: bool, low: u32, end: u32) -> u32
    requires { end ≤ length cycles.now }
    ensures within { result ≤ end }
    ensures idle { (c : ℕ) → low ≤ c → result ≤ c → c < end → (free ≡ true) × (slice_index cycles.now c ≡ 0) }
{
    if !free {
        return end;
    }
    let mut last = end;
    while last > low {
        if cycles[last as usize - 1] != 0 {
            return last;
        }
        last -= 1;
    }
    last
}

/// Marks each cycle of an item before the horizon in which it can't issue; whether there is one, or one at or past the horizon.
pub(crate) fn mark(
    items: &[Item],
    horizon: u32,
    w: &Window<'_>,
    k: usize,
    item: &Item,
    scratch: &mut Scratch,
) -> bool
    requires item { slice_get items.now k ≡ Some item.now }
    requires vars { SlotVars w.now.vars.now items.now }
    requires of_item { ItemVars w.now.vars.now item.now }
    requires known { HasVars w.now.vars.now w.now.store.now.sets }
    requires live { NoneEmpty w.now.store.now.sets }
    requires span { horizon ≤ length scratch.old.cycles.items }
    requires listed { Listed items.now horizon (listable items.now scratch.old.fixed.items) (settled_at w.now.store.now.sets)
        scratch.old.cycles.items scratch.old.fixed.items }
    ensures marks { (c : ℕ) → has (set_at w.now.store.now.sets item.now.at.0) c ≡ true
        → is_left scratch.new.cycles.items horizon c ≡ (nat_lt c horizon && can_issue
        (others k items.now) item.now w.now.store.now.sets c) }
    ensures none { result ≡ false → (c : ℕ) → has (set_at w.now.store.now.sets item.now.at.0) c ≡ true
        → (nat_lt c horizon && can_issue (others k items.now) item.now w.now.store.now.sets c) ≡ true }
    ensures same { result ≡ false → scratch.new.cycles.items ≡ scratch.old.cycles.items }
    ensures fixed { scratch.new.fixed.items ≡ scratch.old.fixed.items }
    ensures cycles { length scratch.new.cycles.items ≡ length scratch.old.cycles.items }
{
    let low = w.min(item.at);
    let high = w.max(item.at);
    let end = horizon.min(high.saturating_add(1));
    let free = is_free(items, w, item, scratch.fixed.as_slice());
    let last = last_taken(scratch.cycles.as_slice(), free, low, end);
    let mut any = high >= horizon;
    for c in low..last {
        let here = mark_at(items, w, k, item, free, c, scratch);
        any = any || here;
    }
    any
}
