//! Runs of code from a start.

ghost use Rattle.std.specs.Prelude.{◌≡◌, ◌<◌, ◌≤◌, ◌+◌, ◌^◌, false, length, IfOk};
ghost use Rattle.un_isa.specs.Fit.{IsFit};
ghost use Rattle.un_packet.specs.Run.{packet_run, enter};
ghost use Rattle.un_packet.specs.Ends.{IsOutcome, EndsRun};
ghost use Rattle.un_packet.specs.Outcomes.{IsBlockRun};

use crate::code::Code;
use crate::machine::{Machine, Stepped};
use std::alloc::Global;
use un_base::memory_error::NoMemory;
use un_isa::outcome::{End, Outcome};
use un_isa::start::Start;
use un_isa::table::Table;
use un_lists::items::Items;

/// Runs the packets of the machine's block from its start, until they leave it or the run ends.
fn run_block(machine: &mut Machine, c: &Code) -> Stepped
    requires going { machine.old.ended ≡ false }
    requires place { machine.old.place ≡ 0 }
    requires block { machine.old.block < length c.now.blocks }
    requires counter { machine.old.state.cycle < 2 ^ 62 }
    ensures run { IsBlockRun c.now machine.old machine.new result }
    ensures counter { machine.new.state.cycle ≤ machine.old.state.cycle + 2 ^ 29 }
{
    let packets = c.blocks.as_slice()[machine.block() as usize].packets.len();
    for place in 1..packets {
        match machine.step(c) {
            Stepped::Went => {}
            Stepped::Left(to) => return Stepped::Left(to),
            Stepped::Ended(end) => return Stepped::Ended(end),
        }
    }
    machine.step(c)
}

/// Runs code from the first packet, where at most `n` labels are entered.
fn run(alloc: Global, machine: &mut Machine, c: &Code, n: u32) -> End
    requires going { machine.old.ended ≡ false }
    requires start { (machine.old.block ≡ 0) × (machine.old.place ≡ 0) }
    requires counter { machine.old.state.cycle ≡ 0 }
    ensures { EndsRun c.now.blocks (enter machine.old.table c.now.blocks n 0 machine.old.state) result machine.new.state }
{
    for _i in 0..n {
        match run_block(machine, c) {
            Stepped::Ended(end) => return end,
            Stepped::Left(_) => {}
            Stepped::Went => unreachable!(),
        }
    }
    End::Running {
        label: c.blocks.as_slice()[machine.block() as usize].label,
        values: Items::new(alloc),
    }
}

/// Runs code from a start, where at most `n` labels are entered, the first block's among them. Where a further one would be
/// entered, the outcome is Running with its label.
///
/// # Errors
/// `NoMemory` where there is no memory for the state.
pub fn run_packets(
    alloc: Global,
    c: &Code,
    t: &Table,
    start: &Start,
    n: u32,
) -> Result<Outcome, NoMemory>
    requires { IsFit t.now }
    ensures { IfOk result (IsOutcome c.now.blocks (packet_run t.now c.now start.now n)) }
{
    let mut machine = Machine::new(alloc, c, t, start)?;
    let end = run(alloc, &mut machine, c, n);
    Ok(machine.outcome(end))
}
