//! The state of a run: registers, memory, frame, calls, replies, and cycles.

ghost use Rattle.std.specs.Prelude.{◌≡◌, slice_index, slice_set, replicate, Some, IfOk};
ghost use Rattle.un_packet.specs.Run.{first_state};

use crate::code::Code;
use std::alloc::Global;
use std::marker::Model;
use un_base::memory_error::NoMemory;
use un_isa::memory::Memory;
use un_isa::outcome::{CallRecord, End, Outcome};
use un_isa::reg::{REGISTERS, STACK};
use un_isa::start::{Reply, Start};
use un_lists::items::Items;

/// A state of the packet machine, which contracts see as a record of its parts. Its list of calls has room for one record a
/// reply that is left.
#[derive(Drop)]
pub struct State {
    /// What each register holds, by number: r0 to r31, and p0 to p3 behind them, which are 0 or 1.
    pub(crate) regs: [u32; REGISTERS as usize],
    /// The memory now, without the frame.
    pub(crate) memory: Memory,
    /// The words of the frame, by rising address.
    pub(crate) frame: Items<u32>,
    /// The address of the frame's first word: what r29 holds at the start less the frame's size in bytes.
    pub(crate) frame_start: u32,
    /// The calls that were answered so far, in order.
    pub(crate) calls: Vec<CallRecord>,
    /// All replies of the start, in order.
    pub(crate) replies: Items<Reply>,
    /// How many of the replies were taken.
    pub(crate) answered: usize,
    /// The cycle in which the last completed packet issued, from 1; 0 before the first.
    pub(crate) cycle: u64,
    /// For each register, by number, the first cycle in which it can be read.
    pub(crate) ready: [u64; REGISTERS as usize],
}

impl Model for State {
    ghost use Rattle.un_packet.specs.Step.{PacketState};
    ghost use Rattle.un_packet.specs.Cycles.{IsReadyBy};
    ghost use Rattle.std.specs.Prelude.{◌+◌, ◌≤◌, drop, length, vec_len, vec_capacity};

    ghost Value = { PacketState };

    ghost view = { λ s. record {
      regs = s.regs;
      memory = s.memory;
      frame = s.frame;
      frame_start = s.frame_start;
      calls = s.calls.items;
      replies = drop s.answered s.replies;
      cycle = s.cycle;
      ready = s.ready;
    } };

    ghost invariant = { λ s. IsReadyBy (s.cycle + 2) s.ready × (s.answered ≤ length s.replies)
        × (vec_len s.calls + length s.replies ≤ vec_capacity s.calls + s.answered) };
}

/// Room for the record of a call to come.
#[derive(Drop)]
pub struct Spare {
    /// Room for as many arguments as a call may have.
    pub(crate) args: Vec<u32>,
    /// A memory of as many words as the run's, which is written over.
    pub(crate) memory: Memory,
}

impl State {
    /// The state at the start of a run: the frame's words and the cycle counter are 0.
    pub fn first(alloc: Global, c: &Code, start: &Start) -> Result<State, NoMemory>
        ensures { IfOk result (λ s. s ≡ first_state c.now.frame start.now) }
    {
        let words = vec![in alloc; 0; c.frame as usize / 4]?;
        let memory = start.memory.clone()?;
        let replies = start.replies.clone()?;
        let calls = Vec::with_capacity(alloc, replies.len())?;
        Ok(State {
            regs: start.regs,
            memory,
            frame: Items::from_vec(words),
            frame_start: at(&start.regs, STACK).saturating_sub(c.frame),
            calls,
            replies,
            answered: 0,
            cycle: 0,
            ready: read_at_once(),
        })
    }
}

impl State {
    /// The value of a register, 0 where there is none.
    pub(crate) fn register(&self, r: u32) -> u32
        ensures { result ≡ slice_index self.now.regs r }
    {
        at(&self.regs, r)
    }

    /// The outcome of a run that ended so in this state.
    pub(crate) fn outcome(self, end: End) -> Outcome
        ensures { result ≡ record { end = end; memory = self.memory; calls = self.calls; cycles = Some self.cycle } }
    {
        Outcome {
            end,
            memory: self.memory,
            calls: Items::from_vec(self.calls),
            cycles: Some(self.cycle),
        }
    }
}

/// Every register can be read at once.
fn read_at_once() -> [u64; REGISTERS as usize]
    ensures { result ≡ replicate REGISTERS 0 }
{
    [0; REGISTERS as usize]
}

/// The number at a place, 0 where there is none.
pub(crate) fn at(regs: &[u32; REGISTERS as usize], r: u32) -> u32
    ensures { result ≡ slice_index regs.now r }
{
    let place = r as usize;
    if place < regs.len() { regs[place] } else { 0 }
}

/// Puts another value into a register. A register that is not there stays out.
pub(crate) fn put(regs: &mut [u32; REGISTERS as usize], r: u32, value: u32)
    ensures { regs.new ≡ slice_set regs.old r value }
{
    let place = r as usize;
    if place < regs.len() {
        regs[place] = value;
    }
}

/// The cycle from which a register can be read, 0 where there is none.
pub(crate) fn ready_at(ready: &[u64; REGISTERS as usize], r: u32) -> u64
    ensures { result ≡ slice_index ready.now r }
{
    let place = r as usize;
    if place < ready.len() { ready[place] } else { 0 }
}

/// Puts another cycle for a register.
pub(crate) fn put_ready(ready: &mut [u64; REGISTERS as usize], r: u32, cycle: u64)
    ensures { ready.new ≡ slice_set ready.old r cycle }
{
    let place = r as usize;
    if place < ready.len() {
        ready[place] = cycle;
    }
}
