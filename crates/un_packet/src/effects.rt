//! What the instructions of a packet read and write, all by the state before it.

ghost use Rattle.std.specs.Prelude.{◌≡◌, ◌<◌, ◌≤◌, ◌+◌, ◌-◌, ◌^◌, ℕ, List, length, true, false, max, map, slice_index, find, MatchOption};
ghost use Rattle.std.specs.Prelude.{Some, None};
ghost use Rattle.std.specs.List.{fold, list_any};
ghost use Rattle.std.specs.Option.{option_to_list, option_map};
ghost use Rattle.un_isa.specs.Operands.{IsShift};
ghost use Rattle.un_isa.specs.Words.{address_of};
ghost use Rattle.un_packet.specs.Runnable.{IsRunnable, AreRunnable};
ghost use Rattle.un_packet.specs.Step.{reg_in, operand_in, word_place, frame_place, traps, value_of, writes_of, reads_of, issue_cycle};
ghost use Rattle.un_packet.specs.Step.{regs_after, ready_after, is_taken, jumps, operand_of};
ghost use Rattle.un_isa.specs.Does.{is_return, is_call};

use crate::state::{State, at, put, put_ready, ready_at};
use un_base::name::Name;
use un_isa::alu::value;
use un_isa::does::{Does, When, does_of, is_call, is_return};
use un_isa::instr::Instr;
use un_isa::op::Op;
use un_isa::reg::{REGISTERS, Reg, STACK};
use un_isa::table::{Table, latency};

/// The latest of a cycle and of those from which registers can be read.
fn latest(ready: &[u64; REGISTERS as usize], regs: &[Reg], cycle: u64) -> u64
    ensures { result ≡ fold max cycle (map (slice_index ready.now) (map (λ r. r.0) regs.now)) }
{
    let mut latest = cycle;
    for r in regs {
        latest = latest.max(ready_at(ready, r.0));
    }
    latest
}

/// Whether a jump is taken, by the values of its predicate before its packet and behind the packet's writes.
fn is_taken(when: When, old: u32, new: u32) -> bool
    ensures { result ≡ is_taken when old new }
{
    match when {
        When::Always => true,
        When::IfTrue => old != 0,
        When::IfFalse => old == 0,
        When::IfNewTrue => new != 0,
        When::IfNewFalse => new == 0,
    }
}

/// The address of an access: a base and an offset, which wrap at 32 bits.
pub(crate) fn address(base: u32, offset: i32) -> u32
    ensures { result ≡ address_of base offset }
{
    base.wrapping_add(offset.cast_unsigned())
}

/// The place of the word with an address, among so many words from `start` on.
pub(crate) fn word_place(start: u32, words: usize, address: u32) -> Option<usize>
    ensures { result ≡ word_place start words address }
{
    if address < start || address % 4 != 0 {
        return None;
    }
    let place = ((address - start) / 4) as usize;
    if place < words { Some(place) } else { None }
}

/// The value of an operand in these registers, 0 where there is none.
pub(crate) fn operand_of(regs: &[u32; REGISTERS as usize], i: &Instr, k: usize) -> u32
    ensures { result ≡ operand_of regs.now i.now k }
{
    let srcs = i.srcs.as_slice();
    if k < srcs.len() {
        at(regs, srcs[k].0)
    } else {
        0
    }
}

/// The first call of a packet.
pub(crate) fn call_in(packet: &[Instr]) -> Option<&Instr>
    ensures { MatchOption result (find (λ i. is_call i.op) packet.now ≡ None)
        (λ i. find (λ i. is_call i.op) packet.now ≡ Some i.now) }
{
    for i in packet {
        if is_call(i.op) {
            return Some(i);
        }
    }
    None
}

impl State {
    /// The value of an operand, 0 where there is none.
    pub(crate) fn operand(&self, i: &Instr, k: usize) -> u32
        ensures { result ≡ operand_in self.now i.now k }
    {
        let srcs = i.srcs.as_slice();
        if k < srcs.len() {
            at(&self.regs, srcs[k].0)
        } else {
            0
        }
    }

    /// The place in the frame of an access, where it is one of its words.
    fn frame_place(&self, i: &Instr) -> Option<usize>
        ensures { result ≡ frame_place self.now i.now }
    {
        let a = address(at(&self.regs, STACK), i.imm);
        word_place(self.frame_start, self.frame.len(), a)
    }

    /// Whether an instruction accesses an address that is not there.
    fn traps(&self, i: &Instr) -> bool
        ensures { result ≡ traps self.now i.now }
    {
        match i.op {
            Op::Load | Op::Store => {
                let word = self.memory.get(address(self.operand(i, 0), i.imm));
                word.is_none()
            }
            Op::Spill | Op::Reload => self.frame_place(i).is_none(),
            _ => false,
        }
    }

    /// Whether some instruction of a packet does.
    pub(crate) fn any_traps(&self, packet: &[Instr]) -> bool
        ensures { result ≡ list_any (traps self.now) packet.now }
    {
        for i in packet {
            if self.traps(i) {
                return true;
            }
        }
        false
    }

    /// The word of the frame at a place, 0 where there is none.
    fn frame_word(&self, place: usize) -> u32
        ensures { result ≡ slice_index self.now.frame place }
    {
        let frame = self.frame.as_slice();
        if place < frame.len() { frame[place] } else { 0 }
    }

    /// The value that an instruction writes to its register.
    fn value(&self, i: &Instr) -> u32
        requires { IsShift i.now.op i.now.imm }
        ensures { result ≡ value_of self.now i.now }
    {
        match i.op {
            Op::Load => self
                .memory
                .get(address(self.operand(i, 0), i.imm))
                .unwrap_or(0),
            Op::Reload => self.frame_word(self.frame_place(i).unwrap_or(0)),
            _ => value(
                i.op,
                self.operand(i, 0),
                self.operand(i, 1),
                self.operand(i, 2),
                i.imm,
            ),
        }
    }

    /// The register that an instruction writes, with its value.
    fn writes(&self, i: &Instr) -> Option<(u32, u32)>
        requires { IsShift i.now.op i.now.imm }
        ensures { writes_of self.now i.now ≡ option_to_list result }
    {
        match i.op {
            Op::Enter | Op::Leave => Some((STACK, address(at(&self.regs, STACK), i.imm))),
            _ => match i.dst {
                Some(r) => Some((r.0, self.value(i))),
                None => None,
            },
        }
    }

    /// The registers after the writes of a packet.
    pub(crate) fn regs_after(&self, packet: &[Instr]) -> [u32; REGISTERS as usize]
        requires { AreRunnable packet.now }
        ensures { result ≡ regs_after self.now packet.now self.now.regs }
    {
        let mut regs = self.regs;
        for i in packet {
            if let Some((r, v)) = self.writes(i) {
                put(&mut regs, r, v);
            }
        }
        regs
    }

    /// The cycle from which all that an instruction waits for can be read, `cycle` at least.
    fn readable_from(&self, i: &Instr, cycle: u64) -> u64
        ensures { result ≡ fold max cycle (map (slice_index self.now.ready) (reads_of i.now)) }
    {
        match i.op {
            Op::JumpIfNew | Op::JumpIfNotNew => cycle,
            Op::Enter | Op::Leave => cycle.max(ready_at(&self.ready, STACK)),
            Op::Spill | Op::Reload => {
                let stack = cycle.max(ready_at(&self.ready, STACK));
                latest(&self.ready, i.srcs.as_slice(), stack)
            }
            _ => latest(&self.ready, i.srcs.as_slice(), cycle),
        }
    }

    /// The cycle in which a packet issues: the one after the last packet, or later, when all that it reads can be read.
    pub(crate) fn issue_cycle(&self, packet: &[Instr]) -> u64
        requires counter { self.now.cycle < 2 ^ 63 }
        ensures { result ≡ issue_cycle self.now packet.now }
    {
        let mut cycle = self.cycle + 1;
        for i in packet {
            cycle = self.readable_from(i, cycle);
        }
        cycle
    }

    /// The cycles from which the registers can be read, after a packet that issues in this cycle.
    pub(crate) fn ready_after(
        &self,
        t: &Table,
        cycle: u64,
        packet: &[Instr],
    ) -> [u64; REGISTERS as usize]
        requires runnable { AreRunnable packet.now }
        requires room { cycle < 2 ^ 64 - 2 ^ 32 }
        ensures { result ≡ ready_after t.now cycle self.now packet.now self.now.ready }
    {
        let mut ready = self.ready;
        for i in packet {
            if let Some((r, _)) = self.writes(i) {
                put_ready(&mut ready, r, cycle + latency(t, i.op) as u64);
            }
        }
        ready
    }

    /// The address to which a packet returns, where it does: the operand of its Jumpr.
    pub(crate) fn return_target(&self, packet: &[Instr]) -> Option<u32>
        ensures { result ≡ option_map (λ i. operand_in self.now i 0) (find (λ i. is_return i.op) packet.now) }
    {
        for i in packet {
            if is_return(i.op) {
                return Some(self.operand(i, 0));
            }
        }
        None
    }

    /// Whether an instruction jumps, where its packet leaves these registers.
    fn jumps(&self, new: &[u32; REGISTERS as usize], i: &Instr) -> bool
        ensures { result ≡ jumps self.now new.now i.now }
    {
        match does_of(i.op) {
            Does::Jumps(when) => is_taken(when, self.operand(i, 0), operand_of(new, i, 0)),
            _ => false,
        }
    }

    /// The label to which a packet jumps, where it does, if it leaves these registers.
    pub(crate) fn jump_label(
        &self,
        new: &[u32; REGISTERS as usize],
        packet: &[Instr],
    ) -> Option<Name>
        requires { AreRunnable packet.now }
        ensures { MatchOption result (find (jumps self.now new.now) packet.now ≡ None)
            (λ label. option_map (λ i. i.label) (find (jumps self.now new.now) packet.now) ≡ Some (Some label)) }
    {
        for i in packet {
            if self.jumps(new, i) {
                return i.label;
            }
        }
        None
    }
}
