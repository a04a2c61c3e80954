//! Whether an assignment is a solution. The clauses that are the soonest asked come first, and none is asked after one that is not kept.

ghost use Rattle.std.specs.Prelude.{◌≡◌, ◌<◌, ◌↔◌, IsTrue, IfOk, All, length};
ghost use Rattle.un_model.specs.Congruences.{KeepsCongruences};
ghost use Rattle.un_model.specs.Cost.{value_of};
ghost use Rattle.un_model.specs.Schedules.{schedule_of};
ghost use Rattle.un_model.specs.Solutions.{latency_gap, IsSchedule, IsSolution, KeepsChoices, KeepsDomains, KeepsFrame, KeepsHomes};
ghost use Rattle.un_model.specs.Solutions.{KeepsLatencies, KeepsMemory, KeepsPackets, KeepsRegisters, KeepsSpaces, KeepsZeros};
ghost use Rattle.un_model.specs.Variables.{IsModel};

use crate::bounds::{Rule, keeps_order};
use crate::clauses::{keeps_choices, keeps_domains, keeps_latencies, keeps_spaces, keeps_zeros};
use crate::frame::keeps_frame;
use crate::packets::keeps_packets;
use crate::violations::{keeps_places, keeps_registers};
use std::alloc::Global;
use un_base::memory_error::NoMemory;
use un_isa::table::Table;
use un_model::cost::value;
use un_model::model::{Model, Solution};
use un_model::placement::schedule;
use un_model::schedule::Schedule;

/// Whether what is read was given before, and is there.
fn keeps_times(table: &Table, t: &Schedule) -> bool
    ensures { IsTrue result ↔ (KeepsLatencies (latency_gap table.now) t.now × KeepsChoices t.now) }
{
    let reads = t.reads.as_slice();
    let ranges = t.ranges.as_slice();
    if !keeps_latencies(table, t.issues.as_slice(), reads, ranges) {
        return false;
    }
    keeps_choices(reads, ranges)
}

/// Whether registers are in their spaces, and 0 where they are not used.
fn keeps_kinds(t: &Schedule) -> bool
    ensures { IsTrue result ↔ (KeepsSpaces t.now × KeepsZeros t.now) }
{
    let ranges = t.ranges.as_slice();
    if !keeps_spaces(t.reads.as_slice(), ranges) {
        return false;
    }
    keeps_zeros(t.issues.as_slice(), ranges)
}

/// Whether packets have room for what they issue, and what is written to memory stays in order.
fn keeps_packing(alloc: Global, m: &Model, t: &Schedule) -> Result<bool, NoMemory>
    requires issued { All (λ i. i.block.0 < length m.now.ext.blocks) t.now.issues }
    ensures { IfOk result (λ kept. IsTrue kept ↔ (KeepsPackets m.now.ext.table t.now × KeepsMemory t.now)) }
{
    let issues = t.issues.as_slice();
    if !keeps_packets(alloc, &m.ext.table, issues)? {
        return Ok(false);
    }
    keeps_order(alloc, m.ext.blocks.len(), Rule::Memory, issues)
}

/// Whether the frame is as its flag says, and each value is in its domain.
fn keeps_flag(alloc: Global, m: &Model, values: &[u32], t: &Schedule) -> Result<bool, NoMemory>
    requires issued { All (λ i. i.block.0 < length m.now.ext.blocks) t.now.issues }
    ensures { IfOk result (λ kept. IsTrue kept ↔ (KeepsFrame (value_of values.now m.now.flag) t.now × KeepsDomains m.now.domains values.now)) }
{
    if !keeps_frame(alloc, m.ext.blocks.len(), value(values, m.flag), t)? {
        return Ok(false);
    }
    Ok(keeps_domains(m.domains.as_slice(), values))
}

/// Whether values stand in their registers, and the frame and the domains are kept.
fn keeps_places_and_flag(
    alloc: Global,
    m: &Model,
    values: &[u32],
    t: &Schedule,
) -> Result<bool, NoMemory>
    requires issued { All (λ i. i.block.0 < length m.now.ext.blocks) t.now.issues }
    ensures { IfOk result (λ kept. IsTrue kept ↔ ((KeepsHomes t.now × KeepsCongruences m.now.ext.blocks t.now)
        × (KeepsFrame (value_of values.now m.now.flag) t.now × KeepsDomains m.now.domains values.now))) }
{
    if !keeps_places(alloc, m.ext.blocks.as_slice(), t)? {
        return Ok(false);
    }
    keeps_flag(alloc, m, values, t)
}

/// Whether temporaries are apart and spared, and the clauses after that are kept.
fn keeps_sharing(alloc: Global, m: &Model, values: &[u32], t: &Schedule) -> Result<bool, NoMemory>
    requires issued { All (λ i. i.block.0 < length m.now.ext.blocks) t.now.issues }
    ensures { IfOk result (λ kept. IsTrue kept ↔ (KeepsRegisters m.now.ext.table.clobbered t.now
        × ((KeepsHomes t.now × KeepsCongruences m.now.ext.blocks t.now)
        × (KeepsFrame (value_of values.now m.now.flag) t.now × KeepsDomains m.now.domains values.now)))) }
{
    if !keeps_registers(alloc, m.ext.table.clobbered, t)? {
        return Ok(false);
    }
    keeps_places_and_flag(alloc, m, values, t)
}

/// Whether all clauses are kept that ask for more than one operation.
fn keeps_together(alloc: Global, m: &Model, values: &[u32], t: &Schedule) -> Result<bool, NoMemory>
    requires issued { All (λ i. i.block.0 < length m.now.ext.blocks) t.now.issues }
    ensures { IfOk result (λ kept. IsTrue kept ↔ ((KeepsPackets m.now.ext.table t.now × KeepsMemory t.now)
        × (KeepsRegisters m.now.ext.table.clobbered t.now
        × ((KeepsHomes t.now × KeepsCongruences m.now.ext.blocks t.now)
        × (KeepsFrame (value_of values.now m.now.flag) t.now × KeepsDomains m.now.domains values.now))))) }
{
    if !keeps_packing(alloc, m, t)? {
        return Ok(false);
    }
    keeps_sharing(alloc, m, values, t)
}

/// Whether all clauses are kept that ask for one operation, read or temporary at a time.
fn keeps_alone(table: &Table, t: &Schedule) -> bool
    ensures { IsTrue result ↔ ((KeepsLatencies (latency_gap table.now) t.now × KeepsChoices t.now)
        × (KeepsSpaces t.now × KeepsZeros t.now)) }
{
    if !keeps_times(table, t) {
        return false;
    }
    keeps_kinds(t)
}

/// Whether all clauses are kept.
fn keeps_clauses(alloc: Global, m: &Model, values: &[u32], t: &Schedule) -> Result<bool, NoMemory>
    requires issued { All (λ i. i.block.0 < length m.now.ext.blocks) t.now.issues }
    ensures { IfOk result (λ kept. IsTrue kept
        ↔ (((KeepsLatencies (latency_gap m.now.ext.table) t.now × KeepsChoices t.now) × (KeepsSpaces t.now × KeepsZeros t.now))
        × ((KeepsPackets m.now.ext.table t.now × KeepsMemory t.now) × (KeepsRegisters m.now.ext.table.clobbered t.now
        × ((KeepsHomes t.now × KeepsCongruences m.now.ext.blocks t.now)
        × (KeepsFrame (value_of values.now m.now.flag) t.now × KeepsDomains m.now.domains values.now)))))) }
{
    if !keeps_alone(&m.ext.table, t) {
        return Ok(false);
    }
    keeps_together(alloc, m, values, t)
}

/// Whether the schedule of these values is one of a solution.
fn is_schedule(alloc: Global, m: &Model, values: &[u32], t: &Schedule) -> Result<bool, NoMemory>
    requires { t.now ≡ schedule_of m.now values.now }
    ensures { IfOk result (λ kept. IsTrue kept
        ↔ IsSchedule (latency_gap m.now.ext.table) m.now.domains m.now values.now (schedule_of m.now values.now)) }
{
    let kept = keeps_clauses(alloc, m, values, t)?;
    Ok(kept)
}

/// Whether an assignment is a solution: where `violations` lists no clause. It ends at the first clause that is not kept.
///
/// # Errors
/// `NoMemory` where there is no memory for the schedule.
pub fn is_solution(alloc: Global, m: &Model, s: &Solution) -> Result<bool, NoMemory>
    requires model { IsModel m.now }
    ensures { IfOk result (λ is. IsTrue is ↔ IsSolution m.now s.now) }
{
    let t = schedule(alloc, m, s)?;
    let kept = is_schedule(alloc, m, s.values.as_slice(), &t)?;
    Ok(kept)
}
