//! The block's start and its end.

use super::Trial;
use crate::facts::Operand;
use crate::packets::Share;
use crate::pairs::Pairs;
use crate::sets::{NO_REGISTERS, REGISTERS, Space};
use crate::table::NONE;
use un_isa::reg::{FIRST_SLOT, LINK};

impl<'a> Trial<'a> {
    fn begin(&mut self) -> Option<()> {
        let block = self.task.block;
        for t in &block.input {
            let r = self.start.at(self.temporary(*t).key);
            if r >= REGISTERS || self.occupant.at(r) != NONE {
                return None;
            }
            self.occupy(*t, r, 0, 1);
        }
        if self.task.frame && block.enter != NONE {
            let enter = self.operation(block.enter);
            self.set(enter.instruction, 1);
            self.issue(block.enter, 1, Share::of(enter.needs));
            self.marks.frame_from = 2;
        }
        for t in &block.input {
            if self.use_behind(*t) == NONE {
                self.release(*t);
            }
        }
        Some(())
    }

    /// The terminator's operand, in a register that no other value ends in; NONE where it has none.
    fn terminator_operand(&mut self) -> Option<u32> {
        let op = self.operation(self.task.block.terminator);
        let Some(x) = op.operands.first() else {
            return Some(NONE);
        };
        if op.is_return {
            return self.return_operand(x);
        }
        self.marks.locked = self.marks.ends_in.without(self.value_ends_in(x.value));
        let t = self.acquire(x, NONE)?;
        self.choose(x, t)?;
        Some(t)
    }

    fn return_operand(&mut self, x: &Operand) -> Option<u32> {
        self.marks.locked = self.marks.ends_in;
        let mut t = self.acquire(x, LINK)?;
        if self.marks.ends_in.has(self.register_of(t)) {
            let r = self.take_general(0, LINK, false)?;
            t = self.bring_on(x.copy, t, r)?;
        }
        self.choose(x, t)?;
        Some(t)
    }

    /// Values that end in slots are there or are spilled now. Answers the others as targets of moves.
    fn end_slots(&mut self) -> Option<Pairs> {
        let mut targets = Pairs::new();
        let mut j = 0u32;
        for x in &self.operation(self.task.block.output).operands {
            let r = self.place_at_end(x);
            if r < FIRST_SLOT {
                targets.push(j, r)?;
            } else {
                self.end_in_slot(x, r)?;
            }
            j = j.saturating_add(1);
        }
        Some(targets)
    }

    fn end_in_slot(&mut self, x: &Operand, r: u32) -> Option<()> {
        let t = self.spill(x.value)?;
        if self.register_of(t) != r {
            return None;
        }
        self.choose(x, t)
    }

    fn place_leave(&mut self) {
        let leave = self.task.block.leave;
        if !self.task.frame || leave == NONE {
            return;
        }
        let op = self.operation(leave);
        let earliest = self
            .marks
            .last_touch
            .max(self.marks.last_call.saturating_add(1))
            .max(self.marks.frame_from);
        let needs = Share::of(op.needs);
        let cycle = self.first_fit(earliest, needs);
        self.set(op.instruction, 1);
        self.issue(leave, cycle, needs);
    }

    /// From which cycle on the terminator may read what it tests; 0 where it tests nothing.
    fn tested_from(&self, tested: u32) -> u32 {
        if tested == NONE {
            return 0;
        }
        let definer = self.operation(self.temporary(tested).definer);
        let given = if definer.instruction == NONE {
            definer.op
        } else {
            self.task.machine.copy(self.value(definer.instruction)).op
        };
        let user = self.operation(self.task.block.terminator).op;
        let gap = self.task.machine.gap(given, user);
        self.stays.row(tested).defined.saturating_add(gap)
    }

    /// Issues the terminator in the last packet, where there is one. Answers the block's end.
    fn place_terminator(&mut self, tested: u32, end: u32) -> u32 {
        let terminator = self.task.block.terminator;
        if terminator == NONE {
            return end;
        }
        let needs = Share::of(self.operation(terminator).needs);
        let ready = self.ready(terminator).max(self.tested_from(tested));
        let cycle = self.first_fit(ready.max(end.saturating_sub(1)), needs);
        self.issue(terminator, cycle, needs);
        cycle.saturating_add(1)
    }

    fn finish(&mut self) -> Option<u32> {
        let block = self.task.block;
        self.go_to(self.length());
        let tested = self.terminator_operand()?;
        self.marks.locked = NO_REGISTERS;
        self.lock(tested);
        let targets = self.end_slots()?;
        let got = self.move_all(block.output, &targets)?;
        self.choose_all(self.operation(block.output).operands.as_slice(), &got)?;
        self.place_leave();
        let ready = self.ready_with(block.output, &got);
        let end = self.place_terminator(tested, ready.max(self.marks.last_cycle.saturating_add(1)));
        self.set(block.end, end);
        if end > block.horizon { None } else { Some(end) }
    }

    fn place(&mut self, o: u32) -> Option<()> {
        if self.operation(o).is_call {
            self.place_call(o)
        } else {
            self.place_body(o)
        }
    }

    /// Whether a temporary is the link, and stands in a general register.
    fn is_link(&self, t: u32) -> bool {
        self.temporary(t).saved == LINK && self.is_resident(t) && self.space_of(t) == Space::General
    }

    /// The link leaves its register before a call needs it to, where the manner asks for it: stores have room then.
    fn save_link(&mut self) -> Option<()> {
        if !self.manner.link_first || !self.task.frame || self.calls.is_empty() {
            return Some(());
        }
        for t in &self.task.block.input {
            if self.is_link(*t) {
                self.spill(*t)?;
                self.release(*t);
            }
        }
        Some(())
    }

    /// Sweeps over the order. Answers the block's end.
    pub(super) fn sweep(&mut self) -> Option<u32> {
        self.begin()?;
        self.save_link()?;
        for place in 0..self.order.len() {
            self.go_to(place);
            let o = self.order.at(place);
            self.place(o)?;
            if self.marks.least.is_above(self.task.most) {
                return None;
            }
        }
        self.finish()
    }
}
