//! Start assignments: one place for each key.

use crate::places::{Places, taken};
use std::alloc::{AllocError, Global};
use un_blocks::facts::{Block, Facts};
use un_blocks::grid::Grid;
use un_isa::reg::{FIRST_SLOT, LINK};
use un_trial::sets::{EMPTY, GENERAL, PREDICATES, RegisterSet};
use un_trial::table::NONE;

/// How many saved values stand in slots between entry and returns, those of the first registers.
#[derive(Clone, Copy)]
pub enum Spilled {
    Nothing,
    Two,
    Half,
    All,
}

impl Spilled {
    /// How many of so many.
    fn among(self, kept: u32) -> u32 {
        match self {
            Spilled::Nothing => 0,
            Spilled::Two => 2,
            Spilled::Half => kept / 2,
            Spilled::All => kept,
        }
    }
}

/// A start assignment.
#[derive(Clone, Copy)]
pub struct Start {
    /// Whether the function has a frame, so that keys may stand in slots.
    pub frame: bool,
    /// How many saved values stand in slots between entry and returns.
    pub spilled: Spilled,
}

/// The start assignments in the order in which they are tried.
pub const STARTS: [Start; 5] = [
    Start {
        frame: false,
        spilled: Spilled::Nothing,
    },
    Start {
        frame: true,
        spilled: Spilled::Nothing,
    },
    Start {
        frame: true,
        spilled: Spilled::Two,
    },
    Start {
        frame: true,
        spilled: Spilled::Half,
    },
    Start {
        frame: true,
        spilled: Spilled::All,
    },
];

/// Weights per group are compared to so many parts of one.
const PARTS: u64 = 1_000;

/// How many values of a name a block reads and writes.
fn uses(block: &Block, name: u32) -> u64 {
    let mut uses = 0u64;
    for t in 0..block.facts.temporaries.len() {
        let x = block.temporary(t);
        if x.key == name && x.value == t {
            let readers = u64::try_from(x.readers.len()).unwrap_or(u64::MAX);
            let written = u64::from(!block.is_in(t));
            uses = uses.saturating_add(readers.saturating_add(written));
        }
    }
    uses
}

/// Reads and writes of a name, by frequency.
fn weight(facts: &Facts, name: u32) -> u64 {
    let mut weight = 0u64;
    for block in &facts.blocks {
        weight = weight.saturating_add(block.frequency.saturating_mul(uses(block, name)));
    }
    weight
}

/// The operation that defines a value; the first where it stands at the block's start.
fn definer(block: &Block, v: u32) -> u32 {
    for o in 0..block.facts.operations.len() {
        if block.operation(o).result == v {
            return o;
        }
    }
    0
}

/// The last operation that reads a value.
fn last_reader(block: &Block, v: u32) -> u32 {
    let x = block.temporary(v);
    if x.at_end != NONE {
        return block.facts.output;
    }
    let mut last = 0;
    for o in &x.readers {
        last = last.max(*o);
    }
    last
}

/// Whether a value is alive across a call, in the source order.
fn value_crosses(block: &Block, v: u32) -> bool {
    let from = definer(block, v);
    let to = last_reader(block, v);
    for o in &block.facts.body {
        if block.operation(*o).is_call && from < *o && *o < to {
            return true;
        }
    }
    false
}

fn crosses_in(block: &Block, name: u32) -> bool {
    if !block.has_call() {
        return false;
    }
    for t in 0..block.facts.temporaries.len() {
        let x = block.temporary(t);
        if x.key == name && x.value == t && value_crosses(block, t) {
            return true;
        }
    }
    false
}

/// Whether a value of the name is alive across a call.
fn crosses_call(facts: &Facts, name: u32) -> bool {
    for block in &facts.blocks {
        if crosses_in(block, name) {
            return true;
        }
    }
    false
}

/// Whether the function calls.
fn calls(facts: &Facts) -> bool {
    for block in &facts.blocks {
        if block.has_call() {
            return true;
        }
    }
    false
}

/// In how many groups a key's place is open.
fn free_groups(facts: &Facts, k: u32) -> u64 {
    let mut count = 0u64;
    for g in 0..facts.groups {
        if facts.is_free(g, k) {
            count = count.saturating_add(1);
        }
    }
    count
}

/// The first place of a saved value: its own register, or NONE for a slot.
fn saved_place(facts: &Facts, start: Start, i: u32) -> u32 {
    if i < facts.kept() {
        if i < start.spilled.among(facts.kept()) {
            NONE
        } else {
            facts.saved_register(i)
        }
    } else if calls(facts) {
        NONE
    } else {
        LINK
    }
}

/// The registers of the saved values that stand in slots.
fn freed(facts: &Facts, start: Start) -> RegisterSet {
    let mut set = EMPTY;
    for i in 0..start.spilled.among(facts.kept()) {
        set = set.with(facts.saved_register(i));
    }
    set
}

/// The registers that may be assigned and that a call writes, but for the link.
fn unkept(facts: &Facts) -> RegisterSet {
    facts
        .machine
        .assignable
        .and(facts.machine.clobbered)
        .and(GENERAL)
        .without(LINK)
}

/// The predicates but the last, which stays free.
fn predicates() -> RegisterSet {
    PREDICATES.without(FIRST_SLOT - 1)
}

/// The register of a parameter at the function's entry.
fn own_register(facts: &Facts, k: u32) -> u32 {
    match facts.blocks.as_slice().first() {
        Some(block) => facts.fixed.at(block.group_in, k),
        None => NONE,
    }
}

/// The first place that a name wants in its groups, where others are taken; NONE for a slot. What crosses a call wants a kept
/// register whose saved value is spilled.
fn name_place(facts: &Facts, start: Start, k: u32, busy: RegisterSet) -> u32 {
    let freed = freed(facts, start)
        .and(facts.machine.assignable)
        .minus(busy);
    if crosses_call(facts, k) {
        return freed.least();
    }
    let first = if facts.name_is_predicate.at(k) {
        predicates()
    } else {
        RegisterSet::one(own_register(facts, k))
    };
    let own = first.minus(busy).least();
    if own != NONE {
        return own;
    }
    let unkept = unkept(facts).minus(busy).least();
    if unkept != NONE {
        unkept
    } else {
        freed.least()
    }
}

/// The places that are taken in the groups in which a key's place is open.
fn busy(facts: &Facts, places: &Places, k: u32) -> RegisterSet {
    let mut set = EMPTY;
    for g in 0..facts.groups {
        if facts.is_free(g, k) {
            set = set.or(taken(places, g));
        }
    }
    set
}

fn put_everywhere(facts: &Facts, places: &mut Places, k: u32, r: u32) {
    for g in 0..facts.groups {
        if facts.is_free(g, k) {
            places.put(g, k, r);
        }
    }
}

/// Gives a key its place; `next_slot` is the first that no key has. Whether there is one.
fn assign_key(
    facts: &Facts,
    start: Start,
    k: u32,
    places: &mut Places,
    next_slot: &mut u32,
) -> bool {
    if free_groups(facts, k) == 0 {
        return true;
    }
    let mut r = if k < facts.names {
        name_place(facts, start, k, busy(facts, places, k))
    } else {
        saved_place(facts, start, k.saturating_sub(facts.names))
    };
    if r == NONE {
        r = *next_slot;
        *next_slot = r.saturating_add(1);
    }
    if r >= FIRST_SLOT && !(start.frame && facts.machine.slots.has(r)) {
        return false;
    }
    put_everywhere(facts, places, k, r);
    true
}

/// The names by falling weight per group.
pub(crate) fn names_by_weight(alloc: Global, facts: &Facts) -> Result<Vec<(u64, u32)>, AllocError> {
    let mut list = Vec::new(alloc);
    for n in 0..facts.names {
        let groups = free_groups(facts, n).saturating_add(1);
        let share = weight(facts, n).saturating_mul(PARTS) / groups.max(1);
        list.push((u64::MAX.saturating_sub(share), n))?;
    }
    list.sort()?;
    Ok(list)
}

/// The places that the model prescribes.
fn fixed_places(alloc: Global, facts: &Facts) -> Result<Places, AllocError> {
    let mut places = Grid::filled(alloc, facts.groups, facts.keys, NONE)?;
    places.copy_from(&facts.fixed)?;
    Ok(places)
}

fn assign_all(facts: &Facts, start: Start, names: &[(u64, u32)], places: &mut Places) -> bool {
    let mut next_slot = FIRST_SLOT;
    for (_, k) in names {
        if !assign_key(facts, start, *k, places, &mut next_slot) {
            return false;
        }
    }
    for k in facts.names..facts.keys {
        if !assign_key(facts, start, k, places, &mut next_slot) {
            return false;
        }
    }
    true
}

/// One place for each key, these names first and in their order, then the saved values; None where there are too few.
pub(crate) fn assign(
    alloc: Global,
    facts: &Facts,
    start: Start,
    names: &[(u64, u32)],
) -> Result<Option<Places>, AllocError> {
    let mut places = fixed_places(alloc, facts)?;
    if assign_all(facts, start, names, &mut places) {
        Ok(Some(places))
    } else {
        Ok(None)
    }
}
