//! The machine: it runs code packet by packet.

ghost use Rattle.std.specs.Prelude.{◌≡◌, ◌<◌, ◌≤◌, ◌+◌, ◌-◌, ◌^◌, ℕ, All, false, length, vec_len, Some, IfOk};
ghost use Rattle.un_isa.specs.Fit.{IsFit};
ghost use Rattle.un_packet.specs.Machine.{moved, first_machine, IsInCode};
ghost use Rattle.un_packet.specs.Passes.{IsPassed, HasSpare};
ghost use Rattle.un_packet.specs.Run.{label_place};
ghost use Rattle.un_packet.specs.Runnable.{AreRunnable, IsSpare, calls_in};
ghost use Rattle.un_packet.specs.Step.{packet_step};

use crate::code::{ARGUMENTS, Code, CodeBlock};
use crate::effects::call_in;
use crate::pass::Passed;
use crate::state::{Spare, State};
use std::alloc::Global;
use std::marker::Model;
use un_base::ids::BlockId;
use un_base::memory_error::NoMemory;
use un_base::name::Name;
use un_isa::instr::Instr;
use un_isa::memory::Memory;
use un_isa::outcome::{End, Outcome};
use un_isa::start::Start;
use un_isa::table::Table;

/// A machine with its state, the table that it runs by, the place of its next packet and whether its run has ended:
/// contracts see a record of these. It has room for the record of one call a reply that is left, and of one more.
#[derive(Drop)]
pub struct Machine {
    table: Table,
    state: State,
    spares: Vec<Spare>,
    block: u32,
    place: usize,
    ended: bool,
}

impl Model for Machine {
    ghost use Rattle.std.specs.Prelude.{◌≡◌, ◌+◌, All, false, length, vec_len};
    ghost use Rattle.un_isa.specs.Fit.{IsFit};
    ghost use Rattle.un_packet.specs.Machine.{MachineState};
    ghost use Rattle.un_packet.specs.Runnable.{IsSpare};

    ghost Value = { MachineState };

    ghost view = { λ m. record { table = m.table; state = m.state; block = m.block; place = m.place; ended = m.ended } };

    ghost invariant = { λ m. IsFit m.table × All (IsSpare (length m.state.memory)) m.spares.items
        × (m.ended ≡ false → vec_len m.spares ≡ length m.state.replies + 1) };
}

/// What a step came to: the next packet of the block, another block, or the end of the run.
#[derive(Drop)]
pub enum Stepped {
    Went,
    Left(BlockId),
    Ended(End),
}

/// Room for the record of a call, with a memory of as many words as this one.
fn spare(alloc: Global, memory: &Memory) -> Result<Spare, NoMemory>
    ensures { IfOk result (IsSpare (length memory.now)) }
{
    let args = Vec::with_capacity(alloc, ARGUMENTS as usize)?;
    let memory = memory.clone()?;
    Ok(Spare { args, memory })
}

/// Room for so many records.
fn spares(alloc: Global, memory: &Memory, n: usize) -> Result<Vec<Spare>, NoMemory>
    ensures room { IfOk result (λ spares. All (IsSpare (length memory.now)) spares.items) }
    ensures many { IfOk result (λ spares. vec_len spares ≡ n) }
{
    let mut spares = Vec::new(alloc);
    for _i in 0..n {
        match spares.push(spare(alloc, memory)?) {
            Ok(()) => {}
            Err(_) => return Err(NoMemory),
        }
    }
    Ok(spares)
}

/// Room for the record of a packet's call, where it has one.
fn take_spare(spares: &mut Vec<Spare>, packet: &[Instr]) -> Option<Spare>
    requires { 0 < vec_len spares.old }
    ensures room { (words : ℕ) → All (IsSpare words) spares.old.items → HasSpare words (calls_in packet.now) result }
    ensures rest { (words : ℕ) → All (IsSpare words) spares.old.items → All (IsSpare words) spares.new.items }
    ensures count { vec_len spares.new + calls_in packet.now ≡ vec_len spares.old }
{
    match call_in(packet) {
        None => None,
        Some(_) => spares.pop(),
    }
}

/// The number of the block with a label, the number of blocks where there is none.
fn label_place(blocks: &[CodeBlock], label: Name) -> u32
    requires { length blocks.now < 2 ^ 32 }
    ensures { result ≡ label_place blocks.now label }
{
    let mut place = 0;
    for block in blocks {
        if block.label.as_bytes() == label.as_bytes() {
            return place;
        }
        place += 1;
    }
    place
}

impl Machine {
    ghost use Rattle.un_packet.specs.Outcomes.{IsStep, IsNext, StandsAfter};

    /// The machine at the first packet of the code, with the state of the start: the frame's words and the cycle counter
    /// are 0. It reserves the memory that its steps need.
    pub fn new(alloc: Global, c: &Code, t: &Table, start: &Start) -> Result<Machine, NoMemory>
        requires { IsFit t.now }
        ensures { IfOk result (λ m. m ≡ first_machine t.now c.now start.now) }
    {
        let state = State::first(alloc, c, start)?;
        let spares = spares(alloc, &start.memory, start.replies.len() + 1)?;
        Ok(Machine {
            table: *t,
            state,
            spares,
            block: 0,
            place: 0,
            ended: false,
        })
    }

    /// The number of the block in which the machine stands.
    pub(crate) fn block(&self) -> u32
        ensures { result ≡ self.now.block }
    {
        self.block
    }

    /// Goes to the start of another block.
    fn leave(&mut self, block: u32) -> Stepped
        ensures left { result ≡ Stepped.Left (record { 0 = block }) }
        ensures new { self.new ≡ moved self.old self.old.state block 0 }
    {
        self.block = block;
        self.place = 0;
        Stepped::Left(BlockId(block))
    }

    /// Runs a packet, and stays at its place.
    fn run_packet(&mut self, packet: &[Instr]) -> Passed
        requires runnable { AreRunnable packet.now }
        requires going { self.old.ended ≡ false }
        requires counter { self.old.state.cycle < 2 ^ 63 }
        ensures passed { IsPassed (packet_step self.old.table packet.now self.old.state) result self.new.state }
        ensures stands { StandsAfter result self.old self.new }
        ensures counter { self.new.state.cycle ≤ self.old.state.cycle + 2 }
    {
        let spare = take_spare(&mut self.spares, packet);
        let passed = self.state.pass(&self.table, packet, spare);
        match &passed {
            Passed::Stopped(_) => self.ended = true,
            Passed::Went => {}
            Passed::Jumped(_) => {}
        }
        passed
    }

    /// Runs one packet, and takes no memory. A block without packets is left and nothing else changes.
    pub fn step(&mut self, c: &Code) -> Stepped
        requires going { self.old.ended ≡ false }
        requires counter { self.old.state.cycle < 2 ^ 63 }
        requires place { IsInCode c.now self.old }
        ensures step { IsStep c.now self.old self.new result }
        ensures counter { self.new.state.cycle ≤ self.old.state.cycle + 2 }
    {
        let block = self.block;
        let place = self.place;
        let blocks = c.blocks.as_slice();
        let packets = blocks[block as usize].packets.as_slice();
        if place >= packets.len() {
            return self.leave(block + 1);
        }
        match self.run_packet(packets[place].instrs.as_slice()) {
            Passed::Went => self.go_on(packets.len()),
            Passed::Jumped(label) => self.leave(label_place(blocks, label)),
            Passed::Stopped(end) => Stepped::Ended(end),
        }
    }

    /// Goes on behind a packet, in a block of so many packets.
    fn go_on(&mut self, packets: usize) -> Stepped
        requires place { self.old.place < packets }
        requires block { self.old.block < 2 ^ 32 - 1 }
        ensures { IsNext packets self.old self.new result }
    {
        if self.place + 1 < packets {
            self.place += 1;
            return Stepped::Went;
        }
        self.leave(self.block + 1)
    }

    /// The outcome of a run that ended so.
    pub(crate) fn outcome(self, end: End) -> Outcome
        ensures { result ≡ record { end = end; memory = self.state.memory; calls = self.state.calls; cycles = Some self.state.cycle } }
    {
        self.state.outcome(end)
    }
}
