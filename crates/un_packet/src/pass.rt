//! One packet: its reads, its writes, its call and where it leads.

ghost use Rattle.std.specs.Prelude.{◌≡◌, ◌<◌, ◌≤◌, ◌+◌, ◌^◌, ℕ, List, ◌∷◌, length, find, Some, None};
ghost use Rattle.un_isa.specs.Fit.{IsFit};
ghost use Rattle.un_isa.specs.declared.instr.Instr.{Instr};
ghost use Rattle.un_isa.specs.declared.start.Reply.{Reply};
ghost use Rattle.un_packet.specs.Passes.{IsPassed, led, HasSpare, UsesReplies};
ghost use Rattle.un_packet.specs.Runnable.{AreRunnable, calls_in};
ghost use Rattle.un_packet.specs.Step.{PacketState, after, answered, issue_cycle, leads, record_of, regs_after, with_call, packet_step};
ghost use Rattle.un_isa.specs.Does.{is_return};

use crate::effects::call_in;
use crate::state::{Spare, State};
use crate::writes::{spill_all, store_all, take_reply, wait_for_call};
use un_base::name::Name;
use un_isa::instr::Instr;
use un_isa::outcome::{CallRecord, End};
use un_isa::reg::REGISTERS;
use un_isa::table::Table;

/// What a packet came to: the next packet, a label, or the end of the run.
#[derive(Drop)]
pub enum Passed {
    Went,
    Jumped(Name),
    Stopped(End),
}

/// Where a packet leads, by the state before it and its writes: to the next packet, to a label, or back to an address.
#[derive(Clone, Copy)]
pub enum Transfer {
    Next,
    To(Name),
    Back(u32),
}

impl State {
    /// Where a packet leads that leaves these registers.
    fn transfer(&self, new: &[u32; REGISTERS as usize], packet: &[Instr]) -> Transfer
        requires runnable { AreRunnable packet.now }
        requires written { new.now ≡ regs_after self.now packet.now self.now.regs }
        ensures { (t : PacketState) → leads (find (λ i. is_return i.op) packet.now) self.now packet.now t ≡ led result t }
    {
        match self.return_target(packet) {
            Some(target) => Transfer::Back(target),
            None => match self.jump_label(new, packet) {
                Some(label) => Transfer::To(label),
                None => Transfer::Next,
            },
        }
    }

    /// What a packet comes to that left this state.
    fn arrive(&self, transfer: Transfer) -> Passed
        ensures passed { IsPassed (led transfer self.now) result self.now }
    {
        match transfer {
            Transfer::Next => Passed::Went,
            Transfer::To(label) => Passed::Jumped(label),
            Transfer::Back(target) => Passed::Stopped(End::Returned {
                result: Some(self.register(0)),
                target: Some(target),
            }),
        }
    }

    /// All writes of a packet, which come together; those of registers leave `regs`.
    fn apply(&mut self, t: &Table, packet: &[Instr], regs: [u32; REGISTERS as usize])
        requires runnable { AreRunnable packet.now }
        requires written { regs ≡ regs_after self.old packet.now self.old.regs }
        requires fit { IsFit t.now }
        requires counter { self.old.cycle < 2 ^ 63 }
        ensures after { self.new ≡ after t.now (issue_cycle self.old packet.now) self.old packet.now }
        ensures counter { self.new.cycle ≤ self.old.cycle + 2 }
        ensures words { length self.new.memory ≡ length self.old.memory }
    {
        let cycle = self.issue_cycle(packet);
        let ready = self.ready_after(t, cycle, packet);
        store_all(&mut self.memory, &self.regs, packet);
        spill_all(&mut self.frame, self.frame_start, &self.regs, packet);
        self.regs = regs;
        self.ready = ready;
        self.cycle = cycle;
    }

    /// Takes the reply of a call with this record.
    fn answer(&mut self, t: &Table, call: CallRecord)
        requires fit { IsFit t.now }
        requires counter { self.old.cycle < 2 ^ 63 + 2 }
        requires some { 0 < length self.old.replies }
        ensures answered { (reply : Reply) → (rest : List Reply) → self.old.replies ≡ reply ∷ rest
            → self.new ≡ answered t.now call reply rest self.old }
        ensures words { length self.new.memory ≡ length self.old.memory }
        ensures replies { length self.new.replies + 1 ≡ length self.old.replies }
        ensures counter { self.new.cycle ≡ self.old.cycle }
    {
        let replies = self.replies.len();
        prove!(self.answered < replies);
        let reply = self.replies.get(self.answered);
        take_reply(&mut self.regs, t, reply);
        self.memory.set_all(reply.changed.as_slice());
        wait_for_call(&mut self.ready, t, self.cycle);
        self.answered += 1;
        match self.calls.push(call) {
            Ok(()) => {}
            Err(_) => unreachable!(),
        }
    }
}

impl State {
    /// Runs a packet without a call.
    fn complete(&mut self, t: &Table, packet: &[Instr]) -> Passed
        requires runnable { AreRunnable packet.now }
        requires fit { IsFit t.now }
        requires counter { self.old.cycle < 2 ^ 63 }
        ensures step { IsPassed (with_call t.now None self.old.replies self.old packet.now) result self.new }
        ensures counter { self.new.cycle ≤ self.old.cycle + 2 }
        ensures words { length self.new.memory ≡ length self.old.memory }
        ensures replies { self.new.replies ≡ self.old.replies }
    {
        let regs = self.regs_after(packet);
        let leads = self.transfer(&regs, packet);
        self.apply(t, packet, regs);
        self.arrive(leads)
    }

    /// Runs a packet with its reply, where there is one, and with the record of its call.
    fn complete_call(&mut self, t: &Table, packet: &[Instr], call: CallRecord) -> Passed
        requires runnable { AreRunnable packet.now }
        requires fit { IsFit t.now }
        requires counter { self.old.cycle < 2 ^ 63 }
        ensures step { (i : Instr) → call ≡ record_of self.old i
            → IsPassed (with_call t.now (Some i) self.old.replies self.old packet.now) result self.new }
        ensures counter { self.new.cycle ≤ self.old.cycle + 2 }
        ensures words { length self.new.memory ≡ length self.old.memory }
        ensures replies { UsesReplies result 1 self.old.replies self.new.replies }
    {
        if self.answered >= self.replies.len() {
            return Passed::Stopped(End::Waiting(call));
        }
        let regs = self.regs_after(packet);
        let transfer = self.transfer(&regs, packet);
        self.apply(t, packet, regs);
        self.answer(t, call);
        self.arrive(transfer)
    }

    /// Runs a packet, with room for the record of its call, where it has one.
    pub(crate) fn pass(&mut self, t: &Table, packet: &[Instr], spare: Option<Spare>) -> Passed
        requires runnable { AreRunnable packet.now }
        requires fit { IsFit t.now }
        requires counter { self.old.cycle < 2 ^ 63 }
        requires room { HasSpare (length self.old.memory) (calls_in packet.now) spare }
        ensures step { IsPassed (packet_step t.now packet.now self.old) result self.new }
        ensures counter { self.new.cycle ≤ self.old.cycle + 2 }
        ensures words { length self.new.memory ≡ length self.old.memory }
        ensures replies { UsesReplies result (calls_in packet.now) self.old.replies self.new.replies }
    {
        if self.any_traps(packet) {
            return Passed::Stopped(End::Trapped);
        }
        match call_in(packet) {
            None => self.complete(t, packet),
            Some(i) => match spare {
                None => unreachable!(),
                Some(spare) => {
                    let call = self.record(i, spare);
                    self.complete_call(t, packet, call)
                }
            },
        }
    }
}
