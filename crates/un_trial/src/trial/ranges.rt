//! Where temporaries stand, and from when to when.

use super::{Stay, Trial};
use crate::facts::Operand;
use crate::recipe::Crossing;
use crate::sets::{RegisterMask, Space, space_at};
use crate::table::NONE;
use un_isa::reg::FIRST_SLOT;

impl<'a> Trial<'a> {
    #[inline(always)]
    pub(super) fn register_of(&self, t: u32) -> u32 {
        self.stays.row(t).register
    }

    #[inline(always)]
    pub(super) fn space_of(&self, t: u32) -> Space {
        space_at(self.register_of(t))
    }

    #[inline(always)]
    pub(super) fn is_resident(&self, t: u32) -> bool {
        self.stays.row(t).active
    }

    pub(super) fn place_at_end(&self, x: &Operand) -> u32 {
        if x.home == NONE {
            self.finish.at(x.key)
        } else {
            x.home
        }
    }

    pub(super) fn value_ends_in(&self, v: u32) -> u32 {
        let out = self.operation(self.task.block.output);
        match out.operands.get(self.temporary(v).at_end as usize) {
            Some(x) => self.place_at_end(x),
            None => NONE,
        }
    }

    pub(super) fn ends_in_slot(&self, v: u32) -> bool {
        let r = self.value_ends_in(v);
        r != NONE && r >= FIRST_SLOT
    }

    fn first_call(&self, from: u32) -> u32 {
        self.calls
            .iter()
            .copied()
            .find(|p| *p >= from)
            .unwrap_or(NONE)
    }

    /// Goes on to a place of the order: what is read there is read next behind it.
    pub(super) fn go_to(&mut self, place: u32) {
        self.marks.position = place;
        for x in &self.operation(self.operation_at(place)).operands {
            let next = self.later_uses.pop().unwrap_or(NONE);
            if let Some(carried) = self.carried.row_mut(x.value) {
                carried.use_behind = next;
                carried.read_last = place;
            }
        }
        if place >= self.marks.next_call {
            self.marks.next_call = self.first_call(place.saturating_add(1));
        }
    }

    /// The first place behind the present one that reads a value; NONE where there is none.
    #[inline(always)]
    pub(super) fn use_behind(&self, v: u32) -> u32 {
        self.carried.row(v).use_behind
    }

    /// The first place from the present one on that reads a value; NONE where there is none.
    pub(super) fn next_use(&self, v: u32) -> u32 {
        let carried = self.carried.row(v);
        if carried.read_last == self.marks.position {
            carried.read_last
        } else {
            carried.use_behind
        }
    }

    /// Whether a value is needed in a register behind a call that is still to come.
    pub(super) fn crosses(&self, v: u32) -> bool {
        let call = self.marks.next_call;
        if call == NONE {
            return false;
        }
        let last = self.carried.row(v).last_use;
        let is_read = last != NONE && last > call;
        is_read || self.temporary(v).at_end != NONE && !self.ends_in_slot(v)
    }

    /// Whether a value is to stand in a kept register before the call that it crosses.
    pub(super) fn wants_kept(&self, v: u32) -> bool {
        self.crosses(v) && self.crossing.at(v) == Crossing::Kept
    }

    /// Whether a temporary that every later reader of a value may choose stands in a slot or in one of these registers.
    pub(super) fn has_root(&self, v: u32, among: RegisterMask) -> bool {
        let carried = self.carried.row(v);
        let mut left = carried.registers.and(among);
        for _ in 0..FIRST_SLOT {
            let Some(r) = left.take_least() else {
                break;
            };
            if self.temporary(self.occupant.at(r)).is_root {
                return true;
            }
        }
        self.temporary(self.occupant.at(carried.slot)).is_root
    }

    /// Whether another copy that every later reader may choose stands somewhere.
    pub(super) fn is_elsewhere(&self, t: u32) -> bool {
        let x = self.temporary(t);
        let own = if x.is_root && self.is_resident(t) {
            1
        } else {
            0
        };
        self.carried.row(x.value).roots > own
    }

    pub(super) fn slot_copy(&self, v: u32) -> u32 {
        self.occupant.at(self.carried.row(v).slot)
    }

    /// Notes that a temporary of a value stands in a register or slot.
    fn note_standing(&mut self, v: u32, register: u32, is_root: bool) {
        if let Some(carried) = self.carried.row_mut(v) {
            carried.registers = carried.registers.with(register);
            if register >= FIRST_SLOT {
                carried.slot = register;
            }
            if is_root {
                carried.roots = carried.roots.saturating_add(1);
            }
        }
    }

    /// Notes that a temporary of a value left its register or slot.
    fn note_left(&mut self, v: u32, register: u32, is_root: bool) {
        if let Some(carried) = self.carried.row_mut(v) {
            carried.registers = carried.registers.without(register);
            if register >= FIRST_SLOT {
                carried.slot = NONE;
            }
            if is_root {
                carried.roots = carried.roots.saturating_sub(1);
            }
        }
    }

    pub(super) fn occupy(&mut self, t: u32, register: u32, cycle: u32, latency: u32) {
        let stay = Stay {
            active: true,
            register,
            defined: cycle,
            available: cycle.saturating_add(latency),
            last_read: cycle,
        };
        self.stays.put(t, stay);
        self.occupant.put(register, t);
        self.marks.vacant.remove(register);
        let x = self.temporary(t);
        self.note_standing(x.value, register, x.is_root);
        self.set(x.register, register);
    }

    pub(super) fn read_at(&mut self, t: u32, cycle: u32) {
        if let Some(stay) = self.stays.row_mut(t) {
            stay.last_read = stay.last_read.max(cycle);
        }
    }

    pub(super) fn release(&mut self, t: u32) {
        let stay = self.stays.at(t);
        if !stay.active {
            return;
        }
        self.stays.put(
            t,
            Stay {
                active: false,
                ..stay
            },
        );
        self.occupant.put(stay.register, NONE);
        self.marks.vacant.insert(stay.register);
        let x = self.temporary(t);
        self.note_left(x.value, stay.register, x.is_root);
        self.free_from.raise(
            stay.register,
            stay.last_read.max(stay.defined.saturating_add(1)),
        );
    }

    pub(super) fn release_if_dead(&mut self, v: u32) {
        let carried = self.carried.at(v);
        if carried.use_behind != NONE {
            return;
        }
        let mut left = carried.registers;
        for _ in 0..FIRST_SLOT {
            let Some(r) = left.take_least() else {
                break;
            };
            let t = self.occupant.at(r);
            self.release(t);
        }
        let t = self.occupant.at(carried.slot);
        self.release(t);
    }

    pub(super) fn lock(&mut self, t: u32) {
        if self.is_resident(t) {
            self.marks.locked = self.marks.locked.with(self.register_of(t));
        }
    }
}
