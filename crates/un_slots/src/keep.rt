//! The cycles that are left: each sure item loses those in which it can't issue.

ghost use Rattle.std.specs.Prelude.{◌≡◌, ◌≢◌, ◌<◌, ◌≤◌, ◌||◌, ℕ, Contains, length, nat_eq, not, true};
ghost use Rattle.un_domains.specs.Sets.{NoneEmpty, cut_by, set_at};
ghost use Rattle.un_prop.specs.Among.{among};
ghost use Rattle.un_prop.specs.Going.{Goes, Stepped};
ghost use Rattle.un_prop.specs.Places.{each_place};
ghost use Rattle.un_prop.specs.Pruning.{IsPrune};
ghost use Rattle.un_prop.specs.Rounds.{HasVars};
ghost use Rattle.un_prop.specs.declared.propagator.Pruned.TheVariants.{Same, Failed};
ghost use Rattle.un_slots.specs.Slots.{SlotVars};
ghost use Rattle.un_slots.specs.Loads.{settled_at, slot_cut};
ghost use Rattle.un_slots.specs.Listings.{Listed, listable, is_left};

use crate::issue::{MARK, mark};
use crate::item::Item;
use crate::listing::list;
use un_base::ids::VarId;
use un_domains::window::Window;
use un_prop::look::is_sure;
use un_prop::propagator::{Pruned, Scratch};
use un_prop::step::{drop_value, joined};

/// Whether cycle `c` is before the horizon and has no mark.
fn is_left(marks: &[u32], horizon: u32, c: u32) -> bool
    requires { horizon ≤ length marks.now }
    ensures { result ≡ is_left marks.now horizon c }
{
    if c >= horizon {
        return false;
    }
    marks[c as usize] != MARK
}

/// Takes cycle `c` from `v`, unless it is left.
fn keep_at(
    w: &mut Window<'_>,
    before: Pruned,
    v: VarId,
    c: u32,
    horizon: u32,
    marks: &[u32],
) -> Pruned
    requires there { v.0 < length w.old.store.now.sets }
    requires lent { among w.old.vars.now v ≡ true }
    requires span { horizon ≤ length marks.now }
    requires some { before ≢ Failed → 0 < length (set_at w.old.store.now.sets v.0) }
    ensures goes { Goes w.old.vars.now (cut_by (λ z. not (nat_eq z c) || is_left marks.now horizon c) v.0) w.old.store.now
        w.new.store.now before result }
    ensures long { length w.new.store.now.sets ≡ length w.old.store.now.sets }
    ensures same_reference { w.new.store.ghost_name ≡ w.old.store.ghost_name }
    ensures vars { w.new.vars ≡ w.old.vars }
{
    if before == Pruned::Failed {
        return before;
    }
    if is_left(marks, horizon, c) {
        return before;
    }
    drop_value(w, before, v, c)
}

/// Keeps the cycles of `v` that are left.
fn keep_left(w: &mut Window<'_>, v: VarId, horizon: u32, marks: &[u32]) -> Pruned
    requires there { v.0 < length w.old.store.now.sets }
    requires lent { among w.old.vars.now v ≡ true }
    requires span { horizon ≤ length marks.now }
    requires live { NoneEmpty w.old.store.now.sets }
    ensures prune { IsPrune w.old.vars.now (cut_by (is_left marks.now horizon) v.0 w.old.store.now.sets) w.old.store.now w.new.store.now
        result }
    ensures same_reference { w.new.store.ghost_name ≡ w.old.store.ghost_name }
    ensures vars { w.new.vars ≡ w.old.vars }
{
    let low = u64::from(w.min(v));
    let end = u64::from(w.max(v)) + 1;
    let mut did = Pruned::Same;
    for c in low..end {
        did = keep_at(w, did, v, c as u32, horizon, marks);
    }
    did
}

/// Where the item at place `k` is sure, it loses the cycles in which it can't issue. The settled items are listed before and after.
fn keep_item(
    items: &[Item],
    horizon: u32,
    w: &mut Window<'_>,
    before: Pruned,
    k: usize,
    scratch: &mut Scratch,
) -> Pruned
    requires there { k < length items.now }
    requires vars { SlotVars w.old.vars.now items.now }
    requires known { HasVars w.old.vars.now w.old.store.now.sets }
    requires live { before ≢ Failed → NoneEmpty w.old.store.now.sets }
    requires span { horizon ≤ length scratch.old.cycles.items }
    requires listed { before ≢ Failed → Listed items.now horizon
        (listable items.now scratch.old.fixed.items) (settled_at w.old.store.now.sets) scratch.old.cycles.items scratch.old.fixed.items }
    ensures step { Stepped w.old.vars.now (slot_cut items.now horizon k) w.old.store.now w.new.store.now before result }
    ensures listed { result ≢ Failed → Listed items.now horizon
        (listable items.now scratch.new.fixed.items) (settled_at w.new.store.now.sets) scratch.new.cycles.items scratch.new.fixed.items }
    ensures fixed { length scratch.new.fixed.items ≡ length scratch.old.fixed.items }
    ensures cycles { length scratch.new.cycles.items ≡ length scratch.old.cycles.items }
    ensures same_reference { w.new.store.ghost_name ≡ w.old.store.ghost_name }
    ensures vars { w.new.vars ≡ w.old.vars }
{
    if before == Pruned::Failed {
        return before;
    }
    let item = &items[k];
    if !is_sure(w, item.on) {
        return before;
    }
    if !mark(items, horizon, w, k, item, scratch) {
        return before;
    }
    let did = keep_left(w, item.at, horizon, scratch.cycles.as_slice());
    match did {
        Pruned::Failed => did,
        _ => {
            list(items, horizon, w, scratch);
            joined(before, did)
        }
    }
}

/// Each sure item loses the cycles in which it can't issue.
pub(crate) fn keep_items(
    items: &[Item],
    horizon: u32,
    w: &mut Window<'_>,
    scratch: &mut Scratch,
) -> Pruned
    requires vars { SlotVars w.old.vars.now items.now }
    requires known { HasVars w.old.vars.now w.old.store.now.sets }
    requires live { NoneEmpty w.old.store.now.sets }
    requires span { horizon ≤ length scratch.old.cycles.items }
    ensures step { Stepped w.old.vars.now (each_place (slot_cut items.now horizon)
        (length items.now)) w.old.store.now w.new.store.now Same result }
    ensures fixed { length scratch.new.fixed.items ≡ length scratch.old.fixed.items }
    ensures cycles { length scratch.new.cycles.items ≡ length scratch.old.cycles.items }
    ensures same_reference { w.new.store.ghost_name ≡ w.old.store.ghost_name }
    ensures vars { w.new.vars ≡ w.old.vars }
{
    list(items, horizon, w, scratch);
    let mut did = Pruned::Same;
    for k in 0..items.len() {
        did = keep_item(items, horizon, w, did, k, scratch);
    }
    did
}
