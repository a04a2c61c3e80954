//! How much of each resource of a packet is taken.

ghost use Rattle.std.specs.Prelude.{◌≡◌, ◌+◌, ◌<◌, nat_le, length, drop};
ghost use Rattle.std.specs.List.{list_all};
ghost use Rattle.un_domains.specs.Sets.{NoneEmpty, least};
ghost use Rattle.un_prop.specs.Acts.{act_vars};
ghost use Rattle.un_prop.specs.Looks.{act_set};
ghost use Rattle.un_prop.specs.Rounds.{HasVars};
ghost use Rattle.un_slots.specs.Slots.{share_at, issues_at, taken_by, taken, ItemVars, SlotVars};
ghost use Rattle.un_isa.specs.PacketCounts.{resources, places_of, share_of};
ghost use Rattle.un_slots.specs.Loads.{is_settled, load_by, load};
ghost use Rattle.un_slots.specs.Amounts.{amount, IsLoad};

use crate::item::Item;
use un_domains::window::Window;
use un_isa::packet_counts::{CONTROL_PLACES, MEM_PLACES, PACKET, STORE_PLACES, XC_PLACES};
use un_isa::table::Needs;
use un_prop::act::{Act, active, number, value};
use un_prop::look::is_sure;

/// So many places of a packet are taken, each up to the greatest number.
#[derive(Clone, Copy)]
pub(crate) struct Load {
    instructions: u32,
    mem: u32,
    store: u32,
    xc: u32,
    control: u32,
}

/// Nothing is taken.
pub(crate) fn empty() -> Load
    ensures { IsLoad result (λ r. 0) }
{
    Load {
        instructions: 0,
        mem: 0,
        store: 0,
        xc: 0,
        control: 0,
    }
}

/// What is taken with an instruction of these needs more.
fn with(load: Load, n: Needs) -> Load
    ensures { IsLoad result (λ r. amount r load + share_of r n) }
{
    Load {
        instructions: load.instructions.saturating_add(1),
        mem: load.mem.saturating_add(u32::from(n.mem)),
        store: load.store.saturating_add(u32::from(n.store)),
        xc: load.xc.saturating_add(u32::from(n.xc)),
        control: load.control.saturating_add(u32::from(n.control)),
    }
}

/// What is taken with the entry of `uses` at place `n` more, if there is one.
pub(crate) fn take(load: Load, uses: &[Needs], n: u32) -> Load
    ensures { IsLoad result (λ r. amount r load + share_at r uses.now n) }
{
    let n = n as usize;
    if n < uses.len() {
        with(load, uses[n])
    } else {
        load
    }
}

/// Whether no more is taken than a packet has.
pub(crate) fn is_within(load: Load) -> bool
    ensures { result ≡ list_all (λ r. nat_le (amount r load) (places_of r)) resources }
{
    load.instructions <= PACKET
        && load.mem <= MEM_PLACES
        && load.store <= STORE_PLACES
        && load.xc <= XC_PLACES
        && load.control <= CONTROL_PLACES
}

/// Whether an item issues in cycle `c`.
fn issues_at(fixed: &[u32], item: &Item, c: u32) -> bool
    ensures { result ≡ issues_at c fixed.now item.now }
{
    active(fixed, item.on) && value(fixed, item.at) == c
}

/// What is taken with what an item takes in cycle `c` more.
fn add_taken(load: Load, fixed: &[u32], item: &Item, c: u32) -> Load
    ensures { IsLoad result (λ r. amount r load + taken_by r c fixed.now item.now) }
{
    if issues_at(fixed, item, c) {
        take(load, item.uses.as_slice(), number(fixed, item.on))
    } else {
        load
    }
}

/// What the items take in cycle `c`.
pub(crate) fn taken(items: &[Item], fixed: &[u32], c: u32) -> Load
    ensures { IsLoad result (λ r. taken r items.now fixed.now c) }
{
    let mut load = empty();
    for item in items {
        load = add_taken(load, fixed, item, c);
    }
    load
}

/// Whether an item is settled: it is sure, has one cycle and one number left.
pub(crate) fn is_settled(w: &Window<'_>, item: &Item) -> bool
    requires vars { ItemVars w.now.vars.now item.now }
    requires known { HasVars w.now.vars.now w.now.store.now.sets }
    ensures { result ≡ is_settled w.now.store.now.sets item.now }
{
    if !is_sure(w, item.on) {
        return false;
    }
    if !w.is_single(item.at) {
        return false;
    }
    match item.on {
        Act::Always => true,
        Act::Var(v) => w.is_single(v),
    }
}

/// The least number that an activity has.
pub(crate) fn least_number(w: &Window<'_>, on: Act) -> u32
    requires known { HasVars (act_vars on) w.now.store.now.sets }
    requires live { NoneEmpty w.now.store.now.sets }
    ensures { result ≡ least (act_set on w.now.store.now.sets) }
{
    match on {
        Act::Always => 1,
        Act::Var(v) => w.min(v),
    }
}

/// What is taken with what an item takes in cycle `c` more, where it is settled.
fn add_settled(load: Load, w: &Window<'_>, item: &Item, c: u32) -> Load
    requires vars { ItemVars w.now.vars.now item.now }
    requires known { HasVars w.now.vars.now w.now.store.now.sets }
    requires live { NoneEmpty w.now.store.now.sets }
    ensures { IsLoad result (λ r. amount r load + load_by r w.now.store.now.sets c item.now) }
{
    if !is_settled(w, item) {
        return load;
    }
    if w.min(item.at) != c {
        return load;
    }
    take(load, item.uses.as_slice(), least_number(w, item.on))
}

/// What the settled items from place `m` on take in cycle `c`.
pub(crate) fn load_from(items: &[Item], w: &Window<'_>, m: usize, c: u32) -> Load
    requires vars { SlotVars w.now.vars.now items.now }
    requires known { HasVars w.now.vars.now w.now.store.now.sets }
    requires live { NoneEmpty w.now.store.now.sets }
    ensures { IsLoad result (λ r. load r (drop m items.now) w.now.store.now.sets c) }
{
    let mut load = empty();
    for j in m..items.len() {
        load = add_settled(load, w, &items[j], c);
    }
    load
}
