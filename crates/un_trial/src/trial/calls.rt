//! Calls: what they would destroy is saved, their arguments move to their registers.

use super::Trial;
use crate::facts::Operand;
use crate::packets::Share;
use crate::pairs::Pairs;
use crate::recipe::Crossing;
use crate::sets::{ALL_REGISTERS, NO_REGISTERS};
use crate::table::NONE;
use un_isa::reg::{FIRST_SLOT, LINK};

impl<'a> Trial<'a> {
    /// The values that a call would destroy, by next use.
    fn endangered(&self) -> Option<Pairs> {
        let mut list = Pairs::new();
        let spared = ALL_REGISTERS.minus(self.task.machine.clobbered.registers());
        let mut left = ALL_REGISTERS.minus(self.marks.vacant.registers());
        for _ in 0..FIRST_SLOT {
            let Some(r) = left.take_least() else {
                break;
            };
            let v = self.value_of(self.occupant.at(r));
            let next = self.use_behind(v);
            if next != NONE && !self.has_root(v, spared) {
                list.insert(next, v)?;
            }
        }
        Some(list)
    }

    /// Saves a value from a call: a copy in a kept register, else in a slot. The link and what only `out` reads go to their slots, and
    /// so does what the manner says.
    fn save(&mut self, v: u32) -> Option<u32> {
        let x = self.temporary(v);
        let is_read_at_end = x.saved == LINK || self.use_behind(v) > self.length();
        let to_slot = is_read_at_end && self.ends_in_slot(v)
            || self.crossing.at(v) == Crossing::Slot;
        let (copy, from) = if self.is_resident(v) {
            (x.copy, v)
        } else {
            (x.second_copy, x.first_carrier)
        };
        if !to_slot && self.copy_is_left(copy) && self.is_resident(from) {
            let kept = self.take_kept(0, self.value_ends_in(v));
            if kept != NONE {
                return self.copy(copy, from, kept);
            }
        }
        self.spill(v)
    }

    /// Whether a value is an argument, stands where one is to stand, or is a predicate.
    fn is_in_the_way(&self, operands: &[Operand], v: u32) -> bool {
        let is_hit = operands.iter().any(|x| x.value == v
            || self.value_of(self.occupant.at(x.home)) == v);
        is_hit || self.temporary(v).is_predicate
    }

    /// Saves the values that are in the call's way. Answers the others.
    fn save_early(&mut self, operands: &[Operand]) -> Option<Pairs> {
        let endangered = self.endangered()?;
        let mut late = Pairs::new();
        for i in 0..endangered.len() {
            let next = endangered.at(i);
            if self.is_in_the_way(operands, next.item) {
                self.save(next.item)?;
            } else {
                late.push(next.place, next.item)?;
            }
        }
        Some(late)
    }

    /// The registers to which operands are preassigned.
    fn homes(&self, operands: &[Operand]) -> Option<Pairs> {
        let mut targets = Pairs::new();
        for x in operands {
            targets.push(targets.len(), x.home)?;
        }
        Some(targets)
    }

    pub(super) fn choose_all(&mut self, operands: &[Operand], got: &Pairs) -> Option<()> {
        for i in 0..got.len() {
            let x = operands.get(got.at(i).place as usize)?;
            self.choose(x, got.at(i).item)?;
        }
        Some(())
    }

    fn save_all(&mut self, late: &Pairs) -> Option<()> {
        for i in 0..late.len() {
            self.save(late.at(i).item)?;
        }
        Some(())
    }

    pub(super) fn place_call(&mut self, o: u32) -> Option<()> {
        let operands = self.operation(o).operands.as_slice();
        self.marks.locked = NO_REGISTERS;
        let late = self.save_early(operands)?;
        let targets = self.homes(operands)?;
        let got = self.move_all(o, &targets)?;
        self.choose_all(operands, &got)?;
        self.save_all(&late)?;
        self.issue_call(o, &got);
        self.save_result(o)
    }

    /// Lets go what a call overwrites. Answers the cycle from which it may issue.
    fn clear_for_call(&mut self, earliest: u32) -> u32 {
        let mut from = earliest.max(self.marks.frame_from);
        let mut left = self.task.machine.clobbered.registers();
        for _ in 0..FIRST_SLOT {
            let Some(r) = left.take_least() else {
                break;
            };
            let t = self.occupant.at(r);
            self.release(t);
            from = from.max(self.free_from.at(r));
        }
        from
    }

    /// Nothing starts before this cycle in a register that a call clobbers.
    fn close_clobbered(&mut self, from: u32) {
        let mut left = self.task.machine.clobbered.registers();
        for _ in 0..FIRST_SLOT {
            let Some(r) = left.take_least() else {
                break;
            };
            self.free_from.put(r, from);
        }
    }

    fn issue_call(&mut self, o: u32, got: &Pairs) {
        let op = self.operation(o);
        let earliest = self.clear_for_call(self.ready_with(o, got));
        let needs = Share::of(op.needs);
        let cycle = self.first_fit(earliest, needs);
        self.issue(o, cycle, needs);
        self.marks.last_call = self.marks.last_call.max(cycle);
        for i in 0..got.len() {
            self.read_at(got.at(i).item, cycle);
        }
        self.close_clobbered(cycle.saturating_add(1));
        for x in &op.operands {
            self.release_if_dead(x.value);
        }
        if op.result != NONE {
            self.occupy(op.result, self.task.machine.result, cycle, op.latency);
            self.release_if_dead(op.result);
        }
    }

    /// Saves a call's result from the next call at once, where it crosses that and the manner asks for it: its register is free then.
    fn save_result(&mut self, o: u32) -> Option<()> {
        let v = self.operation(o).result;
        if self.manner.save_at_once && v != NONE && self.crosses(v) {
            self.marks.locked = NO_REGISTERS;
            self.save(v)?;
            self.release(v);
        }
        Some(())
    }
}
