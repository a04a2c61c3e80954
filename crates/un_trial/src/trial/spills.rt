//! Copies, spills and evictions.

use super::Trial;
use crate::facts::copy_instruction;
use crate::packets::Share;
use crate::sets::{REGISTERS, RegisterMask, Space, space_at};
use crate::table::NONE;
use un_ir::extended::{RELOAD, SPILL};
use un_isa::reg::{FIRST_SLOT, LINK};

impl<'a> Trial<'a> {
    pub(super) fn copy_is_left(&self, o: u32) -> bool {
        self.operation(o).result != NONE && !self.placed.at(o)
    }

    /// Every copy is made here, at the first cycle that fits.
    pub(super) fn copy(&mut self, o: u32, source: u32, register: u32) -> Option<u32> {
        let op = self.operation(o);
        let instruction = copy_instruction(self.space_of(source), space_at(register))?;
        let touches = instruction == SPILL || instruction == RELOAD;
        let is_open = register < REGISTERS && self.occupant.at(register) == NONE;
        if !self.copy_is_left(o) || !is_open || touches && !self.task.frame {
            return None;
        }
        let from = if touches { self.marks.frame_from } else { 1 };
        let ready = self
            .stays
            .row(source)
            .available
            .max(self.free_from.at(register))
            .max(from);
        let made = self.task.machine.copy(instruction);
        let needs = Share::of(made.needs);
        let cycle = self.first_fit(ready, needs);
        self.issue(o, cycle, needs);
        if touches {
            self.marks.last_touch = self.marks.last_touch.max(cycle);
        }
        self.read_at(source, cycle);
        self.placed.put(o, true);
        self.marks.least.copies = self.marks.least.copies.saturating_add(1);
        self.set(op.instruction, instruction);
        self.choose(op.operands.first()?, source)?;
        self.occupy(op.result, register, cycle, made.latency);
        Some(op.result)
    }

    /// A value that ends in a slot goes there; others to the spare slot that is free first.
    fn slot_for(&self, v: u32) -> u32 {
        if self.ends_in_slot(v) {
            return self.value_ends_in(v);
        }
        let mut left = self.task.spare_slots.and(self.marks.vacant);
        let mut best = NONE;
        let mut least = NONE;
        for _ in FIRST_SLOT..REGISTERS {
            let Some(s) = left.take_least() else {
                break;
            };
            if self.free_from.at(s) < least {
                best = s;
                least = self.free_from.at(s);
            }
            if least == 0 {
                break;
            }
        }
        best
    }

    /// A slot copy of a value that stands in a general register: by d, or by d2 from where d brought a predicate.
    fn spill_general(&mut self, v: u32) -> Option<u32> {
        let x = self.temporary(v);
        let is_itself = self.is_resident(v) && self.space_of(v) == Space::General;
        let (copy, from) = if is_itself {
            (x.copy, v)
        } else {
            (x.second_copy, x.first_carrier)
        };
        if !self.is_resident(from) {
            return None;
        }
        self.copy(copy, from, self.slot_for(v))
    }

    pub(super) fn spill(&mut self, v: u32) -> Option<u32> {
        let there = self.slot_copy(v);
        if there != NONE {
            return Some(there);
        }
        let is_predicate = self.is_resident(v) && self.space_of(v) == Space::Predicate;
        if !is_predicate || self.is_resident(self.temporary(v).first_carrier) {
            return self.spill_general(v);
        }
        let general = self.to_general(v, false)?;
        let slot = self.spill_general(v)?;
        self.release(general);
        Some(slot)
    }

    /// What the score of a temporary comes to at most whose value is read next at a place.
    #[inline(always)]
    fn most_score(&self, next: u32) -> u64 {
        if next == NONE {
            return u64::MAX;
        }
        let distance = u64::from(next.saturating_sub(self.marks.position));
        distance.saturating_mul(2).saturating_add(1)
    }

    /// How gladly a temporary of a value leaves its register, by its next use; 0 where it cannot.
    fn eviction_score(&self, t: u32, v: u32, next: u32) -> u64 {
        let x = self.temporary(v);
        if !self.is_resident(t) {
            return 0;
        }
        if next == NONE {
            return u64::MAX;
        }
        let elsewhere = self.is_elsewhere(t);
        if !elsewhere && !self.can_be_copied(t) {
            return 0;
        }
        let clean = elsewhere || self.ends_in_slot(v);
        if x.saved != NONE && x.saved != LINK && !clean && !self.manner.spill_saved {
            return 1;
        }
        let distance = u64::from(next.saturating_sub(self.marks.position));
        let score = if clean {
            distance.saturating_mul(2)
        } else {
            distance
        };
        score.saturating_add(1)
    }

    /// Whether the copy that a temporary is spilled with is still to be used.
    fn can_be_copied(&self, t: u32) -> bool {
        let v = self.value_of(t);
        let x = self.temporary(v);
        let copy = if t == v {
            x.copy
        } else if t == x.first_carrier {
            x.second_copy
        } else {
            NONE
        };
        self.copy_is_left(copy) && (self.task.frame || self.space_of(t) != Space::General)
    }

    /// The temporary in one of these registers that leaves most gladly, the first of them; NONE where none can.
    pub(super) fn victim(&self, set: RegisterMask) -> u32 {
        let vacant = self.marks.vacant.registers();
        let mut left = set.minus(vacant).minus(self.marks.locked);
        let mut most = 0;
        let mut victim = NONE;
        for _ in 0..FIRST_SLOT {
            let Some(r) = left.take_least() else {
                break;
            };
            let t = self.occupant.at(r);
            let v = self.value_of(t);
            let next = self.next_use(v);
            if self.most_score(next) <= most {
                continue;
            }
            let score = self.eviction_score(t, v, next);
            if score > most {
                most = score;
                victim = t;
            }
        }
        victim
    }

    /// Whether a temporary alone carries a value that is still read.
    fn is_needed(&self, t: u32) -> bool {
        self.next_use(self.value_of(t)) != NONE && !self.is_elsewhere(t)
    }

    fn leave(&mut self, t: u32) -> Option<u32> {
        self.release(t);
        let r = self.register_of(t);
        if r < FIRST_SLOT && self.occupant.at(r) == NONE {
            Some(r)
        } else {
            None
        }
    }

    /// Frees a general register; where its value is needed, that is spilled first.
    pub(super) fn evict_general(&mut self, t: u32) -> Option<u32> {
        if self.is_needed(t) {
            self.spill_general(self.value_of(t))?;
        }
        self.leave(t)
    }

    /// Frees a predicate register; where its value is needed, that is brought to a general register first.
    pub(super) fn evict_predicate(&mut self, t: u32) -> Option<u32> {
        let v = self.value_of(t);
        if self.is_needed(t) {
            self.to_general(v, self.wants_kept(v))?;
        }
        self.leave(t)
    }
}
