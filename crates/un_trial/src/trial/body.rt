//! Operations of the source other than calls.

use super::{Trial, place_of};
use crate::facts::{Operand, Operation};
use crate::packets::Share;
use crate::pairs::Pairs;
use crate::sets::NO_REGISTERS;
use crate::table::NONE;
use un_isa::reg::FIRST_SLOT;

impl<'a> Trial<'a> {
    /// Locks the registers in which alternatives of an operand stand.
    fn lock_alternatives(&mut self, x: &Operand) {
        let mut left = self.carried.row(x.value).registers;
        for _ in 0..FIRST_SLOT {
            let Some(r) = left.take_least() else {
                break;
            };
            if place_of(x.alternatives.as_slice(), self.occupant.at(r)).is_some() {
                self.marks.locked = self.marks.locked.with(r);
            }
        }
    }

    /// Takes for each operand of an operation an alternative that stands in a register. Whether each has one.
    fn take_standing(&mut self, op: &Operation) -> bool {
        self.got.clear();
        for x in &op.operands {
            let Some(found) = self.standing(x) else {
                return false;
            };
            self.set(x.choice, found.place);
            if self.got.push(self.got.len(), found.item).is_none() {
                return false;
            }
        }
        true
    }

    /// Gets what an operation's operands read, each in a register of its own, where not each has one.
    fn bring_all(&mut self, op: &Operation) -> Option<()> {
        self.got.clear();
        self.marks.locked = NO_REGISTERS;
        for x in &op.operands {
            self.lock_alternatives(x);
        }
        for x in &op.operands {
            let t = self.acquire(x, NONE)?;
            self.got.push(self.got.len(), t)?;
            self.lock(t);
            self.choose(x, t)?;
        }
        Some(())
    }

    /// Gets what an operation's operands read, each in a register.
    fn acquire_all(&mut self, op: &Operation) -> Option<()> {
        if self.take_standing(op) {
            return Some(());
        }
        self.bring_all(op)
    }

    /// The least cycle that the precedences to an operation and the temporaries that it reads allow.
    pub(super) fn ready_with(&self, o: u32, got: &Pairs) -> u32 {
        let mut ready = self.ready(o);
        for i in 0..got.len() {
            ready = ready.max(self.stays.row(got.at(i).item).available);
        }
        ready
    }

    /// Reads operands at a cycle; the registers of those that died are free from then on. None where one was given away too early.
    fn read_all(&mut self, cycle: u32) -> Option<()> {
        for i in 0..self.got.len() {
            let t = self.got.at(i).item;
            self.read_at(t, cycle);
            let r = self.register_of(t);
            let other = self.occupant.at(r);
            if other == t {
                continue;
            }
            if other != NONE && self.stays.row(other).defined < cycle {
                return None;
            }
            self.free_from.raise(r, cycle);
        }
        Some(())
    }

    /// Releases the values that an operation reads last, whose registers are free from the cycle at which it fits now.
    fn release_read(&mut self, op: &Operation, cycle: u32) {
        for x in &op.operands {
            self.release_if_dead(x.value);
        }
        self.marks.locked = NO_REGISTERS;
        for i in 0..self.got.len() {
            let t = self.got.at(i).item;
            let r = self.register_of(t);
            if self.is_resident(t) {
                self.marks.locked = self.marks.locked.with(r);
            } else {
                self.free_from.raise(r, cycle);
            }
        }
    }

    /// The register in which the next call reads a value as an argument; NONE where it does not.
    fn argument_register(&self, v: u32) -> u32 {
        let call = self.operation(self.order.at(self.marks.next_call));
        for x in &call.operands {
            if x.value == v {
                return x.home;
            }
        }
        NONE
    }

    /// Where a result should stand: where the next call reads it, if the manner asks for that, else where it ends.
    fn wanted_place(&self, v: u32) -> u32 {
        if self.manner.to_arguments && self.marks.next_call != NONE {
            let r = self.argument_register(v);
            if r != NONE {
                return r;
            }
        }
        self.value_ends_in(v)
    }

    pub(super) fn place_body(&mut self, o: u32) -> Option<()> {
        let op = self.operation(o);
        self.acquire_all(op)?;
        let earliest = self.ready_with(o, &self.got);
        let needs = Share::of(op.needs);
        let cycle = self.first_fit(earliest, needs);
        self.release_read(op, cycle);
        if op.result == NONE {
            self.issue(o, cycle, needs);
            return self.read_all(cycle);
        }
        let hint = self.wanted_place(op.result);
        let is_predicate = self.temporary(op.result).is_predicate;
        let register = self.take(is_predicate, op.result, earliest, hint)?;
        let cycle = self.first_fit(cycle.max(self.free_from.at(register)), needs);
        self.issue(o, cycle, needs);
        self.read_all(cycle)?;
        self.occupy(op.result, register, cycle, op.latency);
        self.release_if_dead(op.result);
        Some(())
    }
}
