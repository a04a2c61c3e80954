//! The choice of registers.

use super::Trial;
use crate::sets::{GENERAL_REGISTERS, PREDICATE_REGISTERS, RegisterMask};
use crate::table::NONE;
use un_isa::reg::{FIRST_SLOT, GENERALS};

/// What speaks against a register for each cycle that it is free later.
const LATER: u64 = 3;

/// What speaks against a register that is not the hint: the hint is taken where it is free a cycle later, too.
const OTHER: u64 = 4;

/// What speaks against one in which another value ends: it is taken where it is free a cycle earlier.
const ENDING: u64 = 5;

impl<'a> Trial<'a> {
    /// What speaks against a register: the cycle from which a value can stand there, and a taste.
    #[inline(always)]
    fn score(&self, r: u32, earliest: u32, taste: u64) -> u64 {
        let start = u64::from(earliest.max(self.free_from.at(r)));
        start.saturating_mul(LATER).saturating_add(taste)
    }

    /// The free register that is free first; the hint is preferred, places of others at the end are spared.
    pub(super) fn best_free(&self, set: RegisterMask, earliest: u32, hint: u32) -> u32 {
        let vacant = self.marks.vacant.registers();
        let mut left = set.and(vacant).minus(self.marks.locked);
        let mut best = NONE;
        let mut least = u64::MAX;
        if left.has(hint) {
            best = hint;
            least = self.score(hint, earliest, 0);
        }
        let floor = u64::from(earliest)
            .saturating_mul(LATER)
            .saturating_add(OTHER);
        for _ in 0..FIRST_SLOT {
            let Some(r) = left.take_least() else {
                break;
            };
            if least <= floor {
                break;
            }
            let taste = if self.marks.ends_in.has(r) {
                ENDING
            } else {
                OTHER
            };
            let score = self.score(r, earliest, taste);
            if score < least {
                least = score;
                best = r;
            }
        }
        best
    }

    /// How willingly the saved value in a register gives it up; 2 where it does not.
    fn kept_rank(&self, r: u32) -> u32 {
        let t = self.occupant.at(r);
        let x = self.temporary(t);
        if x.saved == NONE || x.value != t || !self.copy_is_left(x.copy) {
            return 2;
        }
        if self.ends_in_slot(t) {
            return 0;
        }
        if self.manner.spill_saved { 1 } else { 2 }
    }

    /// A kept register for a value that crosses a call: a free one, else that of a saved value which goes to a slot anyway, or
    /// which may be spilled.
    pub(super) fn take_kept(&mut self, earliest: u32, hint: u32) -> u32 {
        let machine = self.task.machine;
        let set = machine.kept.registers().and(machine.assignable.registers());
        let free = self.best_free(set, earliest, hint);
        if free != NONE {
            return free;
        }
        let vacant = self.marks.vacant.registers();
        let mut left = set.minus(vacant).minus(self.marks.locked);
        let mut best = NONE;
        let mut least = 2;
        for _ in 0..FIRST_SLOT {
            let Some(r) = left.take_least() else {
                break;
            };
            let rank = self.kept_rank(r);
            if rank < least {
                least = rank;
                best = self.occupant.at(r);
            }
        }
        self.evict_general(best).unwrap_or(NONE)
    }

    /// Whether what stands in a register is to leave it for a value that ends there: it ends in a slot itself.
    fn makes_room(&self, r: u32) -> bool {
        if !self.manner.make_room || r >= GENERALS || self.marks.locked.has(r) {
            return false;
        }
        let t = self.occupant.at(r);
        let v = self.value_of(t);
        let is_last = self.use_behind(v) > self.length();
        t == v && is_last && self.ends_in_slot(v) && self.copy_is_left(self.temporary(v).copy)
    }

    /// The general registers that may be assigned.
    #[inline(always)]
    pub(super) fn generals(&self) -> RegisterMask {
        let assignable = self.task.machine.assignable.registers();
        assignable.and(GENERAL_REGISTERS)
    }

    pub(super) fn take_general(&mut self, earliest: u32, hint: u32, crosses: bool) -> Option<u32> {
        if self.makes_room(hint) {
            let ending = self.occupant.at(hint);
            return self.evict_general(ending);
        }
        let set = self.generals();
        let kept = if crosses {
            self.take_kept(earliest, hint)
        } else {
            NONE
        };
        if kept != NONE {
            return Some(kept);
        }
        let free = self.best_free(set, earliest, hint);
        if free != NONE {
            return Some(free);
        }
        self.evict_general(self.victim(set))
    }

    pub(super) fn take_predicate(&mut self, earliest: u32, hint: u32) -> Option<u32> {
        let free = self.best_free(PREDICATE_REGISTERS, earliest, hint);
        if free != NONE {
            return Some(free);
        }
        self.evict_predicate(self.victim(PREDICATE_REGISTERS))
    }

    /// A predicate's copy d in a general register.
    pub(super) fn to_general(&mut self, v: u32, crosses: bool) -> Option<u32> {
        let copy = self.temporary(v).copy;
        if !self.copy_is_left(copy) || !self.is_resident(v) {
            return None;
        }
        let r = self.take_general(0, NONE, crosses)?;
        self.copy(copy, v, r)
    }
}
