//! Changes of a plan's places.

use crate::chance::Noise;
use crate::places::{Places, taken};
use un_blocks::facts::{Block, Facts};
use un_isa::reg::{self, FIRST_SLOT, GENERALS};
use un_trial::sets::{EMPTY, PREDICATES, REGISTERS, RegisterSet, Space, space_at};
use un_trial::table::NONE;

/// A place for a key in a group.
#[derive(Clone, Copy)]
pub struct Change {
    /// The group, as a row of the table of places.
    pub group: u32,
    /// The key: a name by its number, or a saved value by its place behind all names.
    pub key: u32,
    /// The number of the register or slot that it is to have there.
    pub place: u32,
}

/// Takes those of these places that are slots out of a set.
fn remove_slots(set: &mut RegisterSet, places: &[u32]) {
    for r in places {
        if *r != NONE && *r >= FIRST_SLOT {
            set.remove(*r);
        }
    }
}

/// The slots that no group uses.
pub fn spare_slots(facts: &Facts, places: &Places) -> RegisterSet {
    let mut set = facts.machine.slots;
    for g in 0..facts.groups {
        remove_slots(&mut set, places.row(g));
    }
    set
}

/// The slot that a key has in some group, else one that no group uses.
fn slot_of(facts: &Facts, places: &Places, k: u32) -> u32 {
    for g in 0..facts.groups {
        let r = places.at(g, k);
        if r != NONE && r >= FIRST_SLOT {
            return r;
        }
    }
    spare_slots(facts, places).least()
}

/// Another key that stands in a place of a group.
fn other_at(facts: &Facts, places: &Places, g: u32, k: u32, r: u32) -> u32 {
    for y in 0..facts.keys {
        if y != k && places.at(g, y) == r {
            return y;
        }
    }
    NONE
}

/// Puts a saved value into a slot in its region.
fn put_in_slot(facts: &Facts, places: &mut Places, g: u32, k: u32) {
    let slot = slot_of(facts, places, k);
    for h in 0..facts.groups {
        if facts.is_beside(g, h, k) {
            places.put(h, k, slot);
        }
    }
}

/// Puts a key into a place of a group. A name that stands there takes the old place, a saved value goes to a slot. Whether it can.
fn put(facts: &Facts, places: &mut Places, change: Change, frame: bool) -> bool {
    let g = change.group;
    let old = places.at(g, change.key);
    let other = other_at(facts, places, g, change.key, change.place);
    places.put(g, change.key, change.place);
    if other == NONE {
        return true;
    }
    if !facts.is_free(g, other) {
        return false;
    }
    if other < facts.names {
        places.put(g, other, old);
        return space_at(old) != Space::Predicate || facts.name_is_predicate.at(other);
    }
    put_in_slot(facts, places, g, other);
    frame
}

/// Whether no two keys of a group have one place, and every live one has a place.
fn is_sound_in(facts: &Facts, places: &Places, g: u32) -> bool {
    let mut set = EMPTY;
    for k in 0..facts.keys {
        let r = places.at(g, k);
        if facts.live.at(g, k) && (r >= REGISTERS || set.has(r)) {
            return false;
        }
        set = set.with(r);
    }
    true
}

/// The same of all groups, where it is so of the old places: groups that have the old ones are not looked at.
fn stays_sound(facts: &Facts, old: &Places, new: &Places) -> bool {
    for g in 0..facts.groups {
        if old.row(g) != new.row(g) && !is_sound_in(facts, new, g) {
            return false;
        }
    }
    true
}

/// How many names have an open place in a group.
fn free_names(facts: &Facts, g: u32) -> u32 {
    let mut count = 0u32;
    for k in 0..facts.names {
        if facts.is_free(g, k) {
            count = count.saturating_add(1);
        }
    }
    count
}

/// One of the names that have an open place in a group.
fn free_name(facts: &Facts, g: u32, place: u32) -> Option<u32> {
    let mut left = place;
    for k in 0..facts.names {
        if facts.is_free(g, k) {
            if left == 0 {
                return Some(k);
            }
            left = left.saturating_sub(1);
        }
    }
    None
}

/// Where a saved value goes from a slot: to its own register; the link, which each call overwrites, to that of another one.
pub(crate) fn saved_home(facts: &Facts, i: u32, noise: &mut Noise) -> u32 {
    if i < facts.kept() {
        facts.saved_register(i)
    } else {
        facts.saved_register(noise.place(facts.kept()))
    }
}

/// A saved value by chance goes to a slot in its region, or back to a register.
fn saved_change(facts: &Facts, places: &Places, group: u32, noise: &mut Noise) -> Option<Change> {
    let i = noise.place(facts.kept().saturating_add(1));
    let key = facts.names.saturating_add(i);
    let place = if places.at(group, key) < FIRST_SLOT {
        slot_of(facts, places, key)
    } else {
        saved_home(facts, i, noise)
    };
    if facts.is_free(group, key) {
        Some(Change { group, key, place })
    } else {
        None
    }
}

/// A place by chance for a name at one of a block's ends, or for a saved value.
pub(crate) fn any_change(
    facts: &Facts,
    places: &Places,
    block: &Block,
    frame: bool,
    noise: &mut Noise,
) -> Option<Change> {
    let group = if noise.one_in(2) {
        block.group_in
    } else {
        block.group_out
    };
    if frame && noise.one_in(8) {
        return saved_change(facts, places, group, noise);
    }
    let key = free_name(facts, group, noise.place(free_names(facts, group)))?;
    let to_slot = noise.one_in(8);
    if to_slot && frame {
        let place = slot_of(facts, places, key);
        return Some(Change { group, key, place });
    }
    let is_predicate = facts.name_is_predicate.at(key) && !noise.one_in(4);
    let place = if is_predicate {
        GENERALS.saturating_add(noise.place(reg::PREDICATES))
    } else {
        noise.place(GENERALS)
    };
    if facts.machine.assignable.or(PREDICATES).has(place) {
        Some(Change { group, key, place })
    } else {
        None
    }
}

/// Whether a change is made in another group too: wherever a name has the same place (wide), or in the region of a saved value.
fn reaches(facts: &Facts, old: &Places, change: Change, h: u32, wide: bool) -> bool {
    let g = change.group;
    if change.key >= facts.names {
        return facts.is_beside(g, h, change.key);
    }
    let same = old.at(h, change.key) == old.at(g, change.key);
    facts.is_free(h, change.key) && (h == g || wide && same)
}

/// Whether a change leads to another place, and the key's place is open.
pub(crate) fn is_change(facts: &Facts, places: &Places, change: Change) -> bool {
    let present = places.at(change.group, change.key);
    let is_open = facts.is_free(change.group, change.key);
    change.place < REGISTERS && change.place != present && is_open
}

/// Puts one key of a group into a place: there alone, wherever it has the same place (wide), or a saved value in its region. The
/// new places are the old ones before, and the change is one. Whether it can.
pub(crate) fn change_place(
    facts: &Facts,
    old: &Places,
    new: &mut Places,
    change: Change,
    frame: bool,
    wide: bool,
) -> bool {
    for h in 0..facts.groups {
        if reaches(facts, old, change, h, wide) {
            let there = Change {
                group: h,
                key: change.key,
                place: change.place,
            };
            if !put(facts, new, there, frame) {
                return false;
            }
        }
    }
    stays_sound(facts, old, new)
}
