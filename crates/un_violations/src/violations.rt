//! Which clauses of a solution an assignment breaks.

ghost use Rattle.std.specs.Prelude.{◌≡◌, ◌↔◌, ◌++◌, ◌∷◌, [], IsTrue, IfOk, OnOk, map, length};
ghost use Rattle.un_model.specs.Congruences.{KeepsCongruences};
ghost use Rattle.un_model.specs.Schedules.{schedule_of};
ghost use Rattle.un_model.specs.Solutions.{latency_gap, KeepsRegisters, KeepsHomes, Tells, broken, broken_after, broken_clauses};
ghost use Rattle.un_model.specs.Solutions.{IsSolution, IsSchedule, ListsBroken};
ghost use Rattle.un_model.specs.Variables.{IsModel};
ghost use Rattle.un_violations.specs.Loose.{loose_domains, IsLoose};

use crate::bounds::{Rule, keeps_order};
use crate::clauses::{
    keeps_choices, keeps_domains, keeps_homes, keeps_latencies, keeps_spaces, keeps_zeros,
};
use crate::congruences::keeps_congruences;
use crate::frame::keeps_frame;
use crate::loose::loose_domains;
use crate::occupations::{are_apart, are_spared};
use crate::packets::keeps_packets;
use std::alloc::Global;
use un_base::memory_error::NoMemory;
use un_domains::domain::Domain;
use un_ir::extended::ExtBlock;
use un_model::cost::value;
use un_model::model::{Model, Solution};
use un_model::placement::schedule;
use un_model::schedule::Schedule;
use un_model::verdict::{Broken, Verdict};

/// Whether temporaries are apart, and spared by calls.
pub(crate) fn keeps_registers(alloc: Global, clobbered: u64, t: &Schedule) -> Result<bool, NoMemory>
    ensures { IfOk result (λ kept. IsTrue kept ↔ KeepsRegisters clobbered t.now) }
{
    let ranges = t.ranges.as_slice();
    let apart = are_apart(alloc, ranges)?;
    let spared = are_spared(alloc, clobbered, t.issues.as_slice(), ranges)?;
    Ok(apart && spared)
}

/// Whether temporaries have their homes, and values stand in one register on both sides of an edge.
pub(crate) fn keeps_places(
    alloc: Global,
    blocks: &[ExtBlock],
    t: &Schedule,
) -> Result<bool, NoMemory>
    ensures { IfOk result (λ kept. IsTrue kept ↔ (KeepsHomes t.now × KeepsCongruences blocks.now t.now)) }
{
    let congruent = keeps_congruences(alloc, blocks, t)?;
    Ok(congruent && keeps_homes(t.reads.as_slice(), t.ranges.as_slice()))
}

/// Which clauses a schedule keeps, its values in these domains.
fn verdict(
    alloc: Global,
    m: &Model,
    domains: &[Domain],
    values: &[u32],
    t: &Schedule,
) -> Result<Verdict, NoMemory>
    requires { t.now ≡ schedule_of m.now values.now }
    ensures { IfOk result (λ v. Tells (latency_gap m.now.ext.table) domains.now m.now values.now t.now v) }
{
    let table = &m.ext.table;
    let blocks = m.ext.blocks.as_slice();
    let issues = t.issues.as_slice();
    let reads = t.reads.as_slice();
    let ranges = t.ranges.as_slice();
    let memory = keeps_order(alloc, blocks.len(), Rule::Memory, issues)?;
    let registers = keeps_registers(alloc, table.clobbered, t)?;
    let packets = keeps_packets(alloc, table, issues)?;
    let homes = keeps_places(alloc, blocks, t)?;
    let frame = keeps_frame(alloc, blocks.len(), value(values, m.flag), t)?;
    Ok(Verdict {
        domains: keeps_domains(domains, values),
        zeros: keeps_zeros(issues, ranges),
        choices: keeps_choices(reads, ranges),
        spaces: keeps_spaces(reads, ranges),
        latencies: keeps_latencies(table, issues, reads, ranges),
        memory,
        registers,
        packets,
        homes,
        frame,
    })
}

/// A clause after those so far, where it is not kept.
fn push_broken(list: &mut Vec<Broken>, clause: u8, kept: bool) -> Result<(), NoMemory>
    ensures { OnOk result
        (map (λ b. b.clause) list.new.items ≡ map (λ b. b.clause) list.old.items ++ broken clause kept) }
{
    if !kept {
        match list.push(Broken { clause }) {
            Ok(()) => {}
            Err(_) => return Err(NoMemory),
        }
    }
    Ok(())
}

/// The clauses after the first that are not kept, after those so far.
fn push_all(list: &mut Vec<Broken>, v: Verdict) -> Result<(), NoMemory>
    ensures { OnOk result
        (map (λ b. b.clause) list.new.items ≡ map (λ b. b.clause) list.old.items ++ broken_after v) }
{
    push_broken(list, 2, v.zeros)?;
    push_broken(list, 3, v.choices)?;
    push_broken(list, 4, v.spaces)?;
    push_broken(list, 5, v.latencies)?;
    push_broken(list, 6, v.memory)?;
    push_broken(list, 7, v.registers)?;
    push_broken(list, 8, v.packets)?;
    push_broken(list, 9, v.homes)?;
    push_broken(list, 10, v.frame)
}

/// The clauses that a verdict says are not kept.
fn listed(alloc: Global, v: Verdict) -> Result<Vec<Broken>, NoMemory>
    ensures { IfOk result (λ list. map (λ b. b.clause) list.items ≡ broken_clauses v) }
{
    let mut list = Vec::new(alloc);
    if v.domains {
        push_all(&mut list, v)?;
    } else {
        push_broken(&mut list, 1, false)?;
    }
    Ok(list)
}

/// The clauses that a schedule breaks, its values in these domains.
fn broken_in(
    alloc: Global,
    m: &Model,
    domains: &[Domain],
    s: &Solution,
) -> Result<Vec<Broken>, NoMemory>
    requires model { IsModel m.now }
    ensures lists { IfOk result
        (λ list. ListsBroken (latency_gap m.now.ext.table) domains.now m.now s.now.values (map (λ b. b.clause) list.items)) }
    ensures solves { IfOk result (λ list. (list.items ≡ [])
        ↔ IsSchedule (latency_gap m.now.ext.table) domains.now m.now s.now.values (schedule_of m.now s.now.values)) }
{
    let t = schedule(alloc, m, s)?;
    let found = verdict(alloc, m, domains, s.values.as_slice(), &t)?;
    let list = listed(alloc, found)?;
    Ok(list)
}

/// The clauses that a solution breaks, rising, each once: none exactly where it is one. Where there are not as many values
/// as variables, or a value is not in its domain, only clause 1 is listed.
pub fn violations(alloc: Global, m: &Model, s: &Solution) -> Result<Vec<Broken>, NoMemory>
    requires model { IsModel m.now }
    ensures lists { IfOk result
        (λ list. ListsBroken (latency_gap m.now.ext.table) m.now.domains m.now s.now.values (map (λ b. b.clause) list.items)) }
    ensures solves { IfOk result (λ list. (list.items ≡ []) ↔ IsSolution m.now s.now) }
{
    broken_in(alloc, m, m.domains.as_slice(), s)
}

/// The same where no cycle and no end of a block is too late: the clauses that keep an assignment from being a schedule of any
/// length.
pub fn loose_violations(alloc: Global, m: &Model, s: &Solution) -> Result<Vec<Broken>, NoMemory>
    requires model { IsModel m.now }
    ensures lists { IfOk result
        (λ list. ListsBroken (latency_gap m.now.ext.table) (loose_domains m.now) m.now s.now.values (map (λ b. b.clause) list.items)) }
    ensures loose { IfOk result (λ list. (list.items ≡ []) ↔ IsLoose m.now s.now) }
{
    let domains = loose_domains(alloc, m)?;
    broken_in(alloc, m, domains.as_slice(), s)
}
