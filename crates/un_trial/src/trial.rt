//! One trial: a block is allocated and scheduled in one sweep over an order of its operations. Registers and slots go to values
//! as the sweep meets them; every instruction takes the first cycle that fits. A step that cannot be made ends the trial.

mod body;
mod calls;
mod choice;
mod ends;
mod moves;
mod ranges;
mod spills;

use crate::facts::{BlockFacts, Operand, Operation, Temporary};
use crate::machine::Machine;
use crate::packets::{NO_SHARE, ONE_PLACE, Share};
use crate::pairs::Pairs;
use crate::recipe::{Crossing, Manner, PLAIN, Recipe};
use crate::sets::{ALL, NO_REGISTERS, REGISTERS, RegisterMask, RegisterSet};
use crate::table::{NONE, Table};
use std::alloc::{AllocError, Global};

/// What a trial is made of, besides its recipe and the places of the keys.
#[derive(Clone, Copy)]
pub struct Task<'a> {
    /// The processor, and what may be used of it.
    pub machine: &'a Machine,
    /// The block that is allocated and scheduled.
    pub block: &'a BlockFacts,
    /// Whether the function has a frame, so that there may be Spills and Reloads.
    pub frame: bool,
    /// The slots that no place uses.
    pub spare_slots: RegisterSet,
    /// What a schedule may be at most: the trial is given up once it ends later, or as late with more copies.
    pub most: Size,
}

/// How large a schedule is.
#[derive(Clone, Copy)]
pub struct Size {
    /// The block's end.
    pub end: u32,
    /// How many copies are active.
    pub copies: u32,
}

impl Size {
    /// Whether a schedule is larger than another: it ends later, or as late with more copies.
    pub fn is_above(self, other: Size) -> bool {
        self.end > other.end || self.end == other.end && self.copies > other.copies
    }
}

/// A temporary's register and its live range so far, `defined` to `last_read`.
#[derive(Clone, Copy)]
struct Stay {
    /// Whether it stands there still.
    active: bool,
    register: u32,
    defined: u32,
    available: u32,
    last_read: u32,
}

const NOWHERE: Stay = Stay {
    active: false,
    register: NONE,
    defined: 0,
    available: 0,
    last_read: 0,
};

/// A value: who carries it, and who reads it.
#[derive(Clone, Copy)]
struct Carried {
    /// The registers in which temporaries stand that carry it.
    registers: RegisterMask,
    /// The slot in which one stands; NONE where none does. Never do two: what stands in a slot is not spilled again.
    slot: u32,
    /// How many of them every later reader may choose.
    roots: u32,
    /// The first place behind the present one that reads it; NONE where there is none.
    use_behind: u32,
    /// The last place up to the present one that reads it; NONE where there is none.
    read_last: u32,
    /// The last place of all that reads it, but for the block's end; NONE where there is none.
    last_use: u32,
}

const UNCARRIED: Carried = Carried {
    registers: NO_REGISTERS,
    slot: NONE,
    roots: 0,
    use_behind: NONE,
    read_last: NONE,
    last_use: NONE,
};

/// Blank places of a trial's tables.
#[derive(Drop)]
struct Blanks {
    none: Vec<u32>,
    zero: Vec<u32>,
    carried: Vec<Carried>,
    packets: Vec<Share>,
    stays: Vec<Stay>,
    placed: Vec<bool>,
}

impl Blanks {
    fn new(alloc: Global) -> Blanks {
        Blanks {
            none: Vec::new(alloc),
            zero: Vec::new(alloc),
            carried: Vec::new(alloc),
            packets: Vec::new(alloc),
            stays: Vec::new(alloc),
            placed: Vec::new(alloc),
        }
    }
}

/// How far a trial has come.
#[derive(Clone, Copy)]
struct Marks {
    /// The registers from which nothing may be moved now.
    locked: RegisterMask,
    /// The registers in which values end.
    ends_in: RegisterMask,
    /// The registers and slots without a temporary.
    vacant: RegisterSet,
    /// The place in the order. The terminator reads at the order's length, the block's end one behind it.
    position: u32,
    /// The place of the next call behind it; NONE where there is none.
    next_call: u32,
    /// The first cycle with room for an instruction: all before it are full.
    open_from: u32,
    /// What the schedule comes to at least.
    least: Size,
    last_cycle: u32,
    /// The last cycle of a Spill or Reload.
    last_touch: u32,
    last_call: u32,
    /// The first cycle behind Enter.
    frame_from: u32,
}

const START: Marks = Marks {
    locked: NO_REGISTERS,
    ends_in: NO_REGISTERS,
    vacant: ALL,
    position: 0,
    next_call: 0,
    open_from: 1,
    least: Size { end: 0, copies: 0 },
    last_cycle: 0,
    last_touch: 0,
    last_call: 0,
    frame_from: 1,
};

/// The place of an item in a list.
fn place_of(list: &[u32], item: u32) -> Option<u32> {
    let mut place = 0u32;
    for x in list {
        if *x == item {
            return Some(place);
        }
        place = place.saturating_add(1);
    }
    None
}

/// The state of a trial. Its tables serve one trial after another.
#[derive(Drop)]
pub struct Trial<'a> {
    task: Task<'a>,
    manner: Manner,
    /// Where each value stands that crosses a call.
    crossing: Table<Crossing>,
    /// The places of all keys at the block's start and at its end.
    start: Table<u32>,
    finish: Table<u32>,
    /// The source operations in the order in which they are placed, and the places of calls.
    order: Table<u32>,
    calls: Vec<u32>,
    /// The values, by number.
    carried: Table<Carried>,
    /// For each operand of a place still to come the next place that reads its value, the nearest operand last.
    later_uses: Vec<u32>,
    /// The block's variables from its first on.
    values: Table<u32>,
    /// What each packet has given away.
    packets: Table<Share>,
    stays: Table<Stay>,
    /// Whether a copy was made.
    placed: Table<bool>,
    /// The temporary in each register and slot, and the cycle from which another may start there.
    occupant: Table<u32>,
    free_from: Table<u32>,
    blanks: Blanks,
    /// The temporaries that the present operation reads, by operand.
    got: Pairs,
    marks: Marks,
}

/// A table of numbers without places.
fn no_numbers(alloc: Global, outside: u32) -> Table<u32> {
    Table::of(Vec::new(alloc), outside)
}

impl<'a> Trial<'a> {
    /// A trial without tables. It takes no memory yet.
    pub fn empty(alloc: Global, task: Task<'a>) -> Trial<'a> {
        Trial {
            task,
            manner: PLAIN,
            crossing: Table::of(Vec::new(alloc), Crossing::Kept),
            start: no_numbers(alloc, NONE),
            finish: no_numbers(alloc, NONE),
            order: no_numbers(alloc, NONE),
            calls: Vec::new(alloc),
            carried: Table::of(Vec::new(alloc), UNCARRIED),
            later_uses: Vec::new(alloc),
            values: no_numbers(alloc, 0),
            packets: Table::of(Vec::new(alloc), NO_SHARE),
            stays: Table::of(Vec::new(alloc), NOWHERE),
            placed: Table::of(Vec::new(alloc), false),
            occupant: no_numbers(alloc, NONE),
            free_from: no_numbers(alloc, 0),
            blanks: Blanks::new(alloc),
            got: Pairs::new(),
            marks: START,
        }
    }

    /// Makes a trial of the task: a sweep over the recipe's order, with these places of the keys at the block's start and end. Answers
    /// the block's end; None where a step cannot be made.
    pub fn run(
        &mut self,
        task: Task<'a>,
        start: &[u32],
        finish: &[u32],
        recipe: &Recipe,
    ) -> Result<Option<u32>, AllocError> {
        self.task = task;
        self.start.copy_from(start)?;
        self.finish.copy_from(finish)?;
        self.manner = recipe.manner;
        self.order.copy_from(recipe.order.as_slice())?;
        self.crossing.copy_from(recipe.crossing.as_slice())?;
        self.clear()?;
        self.note_calls()?;
        self.note_uses()?;
        Ok(self.sweep())
    }

    /// Clears the tables for the task's block.
    fn clear(&mut self) -> Result<(), AllocError> {
        let block = self.task.block;
        let blanks = &mut self.blanks;
        self.marks = START;
        self.carried
            .wipe(block.temporaries.len(), &mut blanks.carried)?;
        self.values.wipe(block.variables, &mut blanks.zero)?;
        self.packets.wipe(block.horizon, &mut blanks.packets)?;
        self.stays.wipe(block.temporaries.len(), &mut blanks.stays)?;
        self.placed
            .wipe(block.operations.len(), &mut blanks.placed)?;
        self.occupant.wipe(REGISTERS, &mut blanks.none)?;
        self.free_from.wipe(REGISTERS, &mut blanks.zero)
    }

    /// Notes the calls.
    fn note_calls(&mut self) -> Result<(), AllocError> {
        self.calls.clear();
        for place in 0..self.order.len() {
            if self.operation(self.order.at(place)).is_call {
                self.calls.push(place)?;
            }
        }
        Ok(())
    }

    /// Notes the registers in which values end, and which place reads each value first and which next.
    fn note_uses(&mut self) -> Result<(), AllocError> {
        let length = self.length();
        self.later_uses.clear();
        for x in &self.operation(self.task.block.output).operands {
            let r = self.place_at_end(x);
            self.marks.ends_in = self.marks.ends_in.with(r);
            if let Some(carried) = self.carried.row_mut(x.value) {
                carried.use_behind = length.saturating_add(1);
            }
        }
        for i in 0..length.saturating_add(1) {
            self.note_uses_at(length.saturating_sub(i))?;
        }
        Ok(())
    }

    /// Notes the uses at a place, where those behind it are noted.
    fn note_uses_at(&mut self, place: u32) -> Result<(), AllocError> {
        let operands = self.operation(self.operation_at(place)).operands.as_slice();
        for x in operands.iter().rev() {
            let mut next = NONE;
            if let Some(carried) = self.carried.row_mut(x.value) {
                next = carried.use_behind;
                carried.use_behind = place;
                if carried.last_use == NONE {
                    carried.last_use = place;
                }
            }
            self.later_uses.push(next)?;
        }
        Ok(())
    }

    /// How many copies the trial made.
    pub fn copies(&self) -> u32 {
        self.marks.least.copies
    }

    /// Exchanges the values of the block's variables, from its first on, with a list.
    pub fn exchange_values(&mut self, values: &mut Vec<u32>) {
        self.values.exchange(values);
    }

    #[inline(always)]
    fn operation(&self, o: u32) -> &'a Operation {
        self.task.block.operations.row(o)
    }

    /// The operation at a place of the order, or the terminator behind its last place.
    #[inline(always)]
    fn operation_at(&self, place: u32) -> u32 {
        if place == self.length() {
            self.task.block.terminator
        } else {
            self.order.at(place)
        }
    }

    #[inline(always)]
    fn temporary(&self, t: u32) -> &'a Temporary {
        self.task.block.temporaries.row(t)
    }

    #[inline(always)]
    fn value_of(&self, t: u32) -> u32 {
        self.temporary(t).value
    }

    #[inline(always)]
    fn length(&self) -> u32 {
        self.order.len()
    }

    #[inline(always)]
    fn set(&mut self, variable: u32, x: u32) {
        let first = self.task.block.first_variable;
        self.values.put(variable.saturating_sub(first), x);
    }

    /// The value of a variable, 0 where the block has none.
    #[inline(always)]
    fn value(&self, variable: u32) -> u32 {
        let first = self.task.block.first_variable;
        self.values.at(variable.saturating_sub(first))
    }

    fn choose(&mut self, x: &Operand, t: u32) -> Option<()> {
        let place = place_of(x.alternatives.as_slice(), t)?;
        self.set(x.choice, place);
        Some(())
    }

    /// The first cycle from `earliest` on with room; the horizon where there is none.
    fn first_fit(&self, earliest: u32, needs: Share) -> u32 {
        let horizon = self.task.block.horizon;
        for c in earliest.max(self.marks.open_from)..horizon {
            if self.packets.at(c).has_room(needs) {
                return c;
            }
        }
        horizon
    }

    fn issue(&mut self, o: u32, cycle: u32, needs: Share) {
        let used = self.packets.at(cycle).and(needs);
        self.packets.put(cycle, used);
        if cycle == self.marks.open_from && !used.has_room(ONE_PLACE) {
            self.marks.open_from = self.first_fit(cycle.saturating_add(1), ONE_PLACE);
        }
        self.marks.last_cycle = self.marks.last_cycle.max(cycle);
        let end = cycle.saturating_add(self.task.block.tails.at(o));
        self.marks.least.end = self.marks.least.end.max(end);
        self.set(self.operation(o).cycle, cycle);
    }

    /// The least cycle that the precedences to an operation allow.
    fn ready(&self, o: u32) -> u32 {
        let mut ready = 1u32;
        for gap in &self.operation(o).before {
            ready = ready.max(self.value(gap.issue).saturating_add(gap.cycles));
        }
        ready
    }
}
