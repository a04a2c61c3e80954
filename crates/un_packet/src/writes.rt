//! What a packet writes to memory and to the frame, and what a call's reply writes.

ghost use Rattle.std.specs.Prelude.{◌≡◌, ◌<◌, ◌≤◌, ◌+◌, ◌-◌, ◌^◌, ◌++◌, [], ◌∷◌, slice_set, ℕ, List, length, map, drop, slice_index};
ghost use Rattle.std.specs.Prelude.{vec_len, vec_capacity};
ghost use Rattle.un_isa.specs.Words.{address_of};
ghost use Rattle.un_packet.specs.Runnable.{IsSpare};
ghost use Rattle.un_packet.specs.Step.{PacketState, memory_by, memory_after, frame_by, frame_after, each_from, replied, call_ready};
ghost use Rattle.un_packet.specs.Step.{record_of};

use crate::effects::{address, operand_of, word_place};
use crate::state::{Spare, State, at};
use un_isa::instr::Instr;
use un_isa::memory::Memory;
use un_isa::op::Op;
use un_isa::outcome::CallRecord;
use un_isa::reg::{REGISTERS, Reg, STACK};
use un_isa::reg_set::RegSet;
use un_isa::start::Reply;
use un_isa::table::{Table, latency};
use un_lists::items::Items;

/// What an instruction stores, by the registers before its packet.
fn store(memory: &mut Memory, regs: &[u32; REGISTERS as usize], i: &Instr)
    ensures { (s : PacketState) → s.regs ≡ regs.now → memory.new ≡ memory_by i.now.op s i.now memory.old }
{
    match i.op {
        Op::Store => {
            let a = address(operand_of(regs, i, 0), i.imm);
            memory.set(a, operand_of(regs, i, 1));
        }
        _ => {}
    }
}

/// The stores of a packet, by the registers before it.
pub(crate) fn store_all(memory: &mut Memory, regs: &[u32; REGISTERS as usize], packet: &[Instr])
    ensures { (s : PacketState) → s.regs ≡ regs.now → memory.new ≡ memory_after s packet.now memory.old }
{
    for i in packet {
        store(memory, regs, i);
    }
}

/// Puts another word into the frame. A place that is not there stays out.
fn put_word(frame: &mut Items<u32>, place: usize, word: u32)
    ensures { frame.new ≡ slice_set frame.old place word }
{
    if place < frame.len() {
        frame.set(place, word);
    }
}

/// The address of the frame word of an instruction.
fn frame_address(regs: &[u32; REGISTERS as usize], i: &Instr) -> u32
    ensures { result ≡ address_of (slice_index regs.now STACK) i.now.imm }
{
    address(at(regs, STACK), i.imm)
}

/// What an instruction spills, by the registers before its packet.
fn spill(frame: &mut Items<u32>, start: u32, regs: &[u32; REGISTERS as usize], i: &Instr)
    ensures word { (s : PacketState) → s.regs ≡ regs.now → s.frame_start ≡ start → length s.frame ≡ length frame.old
        → frame.new ≡ frame_by i.now.op s i.now frame.old }
    ensures long { length frame.new ≡ length frame.old }
{
    match i.op {
        Op::Spill => {
            let a = frame_address(regs, i);
            let place = word_place(start, frame.len(), a).unwrap_or(0);
            put_word(frame, place, operand_of(regs, i, 0));
        }
        _ => {}
    }
}

/// The spills of a packet, by the registers before it.
pub(crate) fn spill_all(
    frame: &mut Items<u32>,
    start: u32,
    regs: &[u32; REGISTERS as usize],
    packet: &[Instr],
)
    ensures { (s : PacketState) → s.regs ≡ regs.now → s.frame_start ≡ start → length s.frame ≡ length frame.old
        → frame.new ≡ frame_after s packet.now frame.old }
{
    for i in packet {
        spill(frame, start, regs, i);
    }
}

/// What a call's reply leaves in the registers: its result, and junk in the other clobbered ones.
pub(crate) fn take_reply(regs: &mut [u32; REGISTERS as usize], t: &Table, reply: &Reply)
    ensures { regs.new ≡ each_from (replied t.now reply.now) 0 regs.old }
{
    let clobbered = RegSet::of_mask(t.clobbered);
    for r in 0..REGISTERS {
        let place = r as usize;
        if clobbered.contains(r) {
            regs[place] = if r == u32::from(t.result) {
                reply.result
            } else {
                reply.junk[place]
            };
        }
    }
}

/// From when on the registers can be read after a call in this cycle.
pub(crate) fn wait_for_call(ready: &mut [u64; REGISTERS as usize], t: &Table, cycle: u64)
    requires { cycle < 2 ^ 64 - 2 ^ 32 }
    ensures { ready.new ≡ each_from (call_ready t.now cycle) 0 ready.old }
{
    let clobbered = RegSet::of_mask(t.clobbered);
    let from = cycle + u64::from(latency(t, Op::Call));
    for r in 0..REGISTERS {
        if clobbered.contains(r) {
            ready[r as usize] = from;
        }
    }
}

/// Puts a word behind those of a list that has room for it.
fn push_within(args: &mut Vec<u32>, word: u32)
    requires { vec_len args.old < vec_capacity args.old }
    ensures items { args.new.items ≡ args.old.items ++ word ∷ [] }
    ensures len { vec_len args.new ≡ vec_len args.old + 1 }
    ensures room { vec_capacity args.old ≤ vec_capacity args.new }
{
    match args.push(word) {
        Ok(()) => {}
        Err(_) => unreachable!(),
    }
}

impl State {
    ghost use Rattle.std.specs.Prelude.{◌≡◌, ◌≤◌, map, length, [], vec_capacity};
    ghost use Rattle.un_packet.specs.CodeRules.{IsThere};
    ghost use Rattle.un_packet.specs.Step.{reg_in};

    /// Puts the values of registers into an empty list, which has room for them.
    fn put_args(&self, args: &mut Vec<u32>, srcs: &[Reg])
        requires none { args.old.items ≡ [] }
        requires room { length srcs.now ≤ vec_capacity args.old }
        ensures { args.new.items ≡ map (reg_in self.now) srcs.now }
    {
        for r in srcs {
            push_within(args, at(&self.regs, r.0));
        }
    }

    /// A call as its callee sees it, in this room.
    pub(crate) fn record(&self, call: &Instr, spare: Spare) -> CallRecord
        requires few { length call.now.srcs ≤ 6 }
        requires named { IsThere call.now.label }
        requires room { IsSpare (length self.now.memory) spare }
        ensures { result ≡ record_of self.now call.now }
    {
        let Spare {
            mut args,
            mut memory,
        } = spare;
        self.put_args(&mut args, call.srcs.as_slice());
        memory.copy_from(&self.memory);
        match call.label {
            Some(name) => CallRecord {
                name,
                args: Items::from_vec(args),
                memory,
            },
            None => unreachable!(),
        }
    }
}
