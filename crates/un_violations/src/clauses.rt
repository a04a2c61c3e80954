//! Whether a schedule keeps the clauses of a solution that ask for one operation, read or temporary at a time.

ghost use Rattle.std.specs.Prelude.{◌≡◌, ℕ, ◌+◌, ◌<◌, ◌≤◌, ◌↔◌, ◌⊎◌, IsTrue, true, All, Contains, IfSome, length, slice_get};
ghost use Rattle.un_model.specs.Instructions.{space_read, space_given};
ghost use Rattle.un_isa.specs.Does.{is_transfer};
ghost use Rattle.un_model.specs.Solutions.{InDomain, KeepsDomains, IsIdleAtZero, IsZeroRange, IsLive, InSpace, ReadsInSpace};
ghost use Rattle.un_model.specs.Solutions.{IsGivenInSpace, IsLast, IsWithin, IsPlacedAs, IsPlaced, LeavesGap, latency_gap, HasHome};
ghost use Rattle.un_model.specs.Solutions.{ReadsHome};

use un_domains::domain::Domain;
use un_isa::does::is_transfer;
use un_isa::op::Op;
use un_isa::reg::{Reg, Space, space_of};
use un_isa::table::Table;
use un_model::instructions::{gap, space_given, space_read};
use un_model::schedule::{Issue, LiveRange, Read};

/// Whether a value is in a domain.
fn in_domain(v: u32, d: &Domain) -> bool
    ensures { IsTrue result ↔ InDomain v d.now }
{
    match d {
        Domain::Range { lo, hi } => *lo <= v && v <= *hi,
        Domain::Set(values) => values.as_slice().contains(&v),
    }
}

/// Whether each value is in its domain, and there are as many as domains.
pub(crate) fn keeps_domains(domains: &[Domain], values: &[u32]) -> bool
    ensures { IsTrue result ↔ KeepsDomains domains.now values.now }
{
    if domains.len() != values.len() {
        return false;
    }
    for k in 0..values.len() {
        if !in_domain(values[k], &domains[k]) {
            return false;
        }
    }
    true
}

/// Whether the cycle and the choices of an operation are 0 where it is inactive.
fn is_idle_at_zero(i: &Issue) -> bool
    ensures { IsTrue result ↔ IsIdleAtZero i.now }
{
    i.active || i.zero
}

/// Whether the register of a temporary is 0 where it is inactive.
fn is_zero_range(h: &LiveRange) -> bool
    ensures { IsTrue result ↔ IsZeroRange h.now }
{
    h.active || h.reg == 0
}

/// Whether the variables of inactive operations are 0.
pub(crate) fn keeps_zeros(issues: &[Issue], ranges: &[LiveRange]) -> bool
    ensures { IsTrue result ↔ (All IsIdleAtZero issues.now × All IsZeroRange ranges.now) }
{
    if !issues.iter().all(|i| is_idle_at_zero(i)) {
        return false;
    }
    ranges.iter().all(|h| is_zero_range(h))
}

/// Whether an operand chooses an active temporary.
fn chooses_active(r: &Read, ranges: &[LiveRange]) -> bool
    ensures { IsTrue result ↔ IsLive (slice_get ranges.now r.now.temp.0) }
{
    match ranges.get(r.temp.0 as usize) {
        None => false,
        Some(h) => h.active,
    }
}

/// Whether every operand chooses an active temporary.
pub(crate) fn keeps_choices(reads: &[Read], ranges: &[LiveRange]) -> bool
    ensures { IsTrue result ↔ All (λ r. IsLive (slice_get ranges.now r.temp.0)) reads.now }
{
    reads.iter().all(|r| chooses_active(r, ranges))
}

/// Whether a register lies in a space.
fn in_space(reg: u32, space: Option<Space>) -> bool
    ensures { IsTrue result ↔ InSpace reg space }
{
    match space {
        None => true,
        Some(Space::R) => matches!(space_of(reg), Space::R),
        Some(Space::P) => matches!(space_of(reg), Space::P),
        Some(Space::M) => matches!(space_of(reg), Space::M),
    }
}

/// Whether the temporary that an operand chooses lies in the operand's space.
fn reads_in_space(r: &Read, ranges: &[LiveRange]) -> bool
    ensures { IsTrue result ↔ ReadsInSpace r.now (slice_get ranges.now r.now.temp.0) }
{
    match ranges.get(r.temp.0 as usize) {
        None => false,
        Some(h) => in_space(h.reg, space_read(r.instr, r.operand)),
    }
}

/// Whether a temporary lies in the space of its definer's results.
fn is_given_in_space(h: &LiveRange) -> bool
    ensures { IsTrue result ↔ IsGivenInSpace h.now }
{
    in_space(h.reg, space_given(h.instr))
}

/// Whether operands and results lie in the spaces of their instructions.
pub(crate) fn keeps_spaces(reads: &[Read], ranges: &[LiveRange]) -> bool
    ensures { IsTrue result
        ↔ (All (λ r. ReadsInSpace r (slice_get ranges.now r.temp.0)) reads.now × All IsGivenInSpace ranges.now) }
{
    if !reads.iter().all(|r| reads_in_space(r, ranges)) {
        return false;
    }
    ranges.iter().all(|h| is_given_in_space(h))
}

/// Whether a control transfer is in the last cycle of its block.
fn is_last(cycle: u32, end: u32, op: Op) -> bool
    ensures { IsTrue result ↔ IsLast cycle end (is_transfer op) }
{
    if is_transfer(op) {
        u64::from(cycle) + 1 == u64::from(end)
    } else {
        true
    }
}

/// Whether an instruction in this cycle is where its block, which has this end, lets it be.
fn is_placed_as(cycle: u32, end: u32, op: Op) -> bool
    ensures { IsTrue result ↔ IsPlacedAs cycle end op }
{
    0 < cycle && cycle < end && is_last(cycle, end, op)
}

/// Whether an operation issues where its block lets it.
fn is_placed(i: &Issue) -> bool
    ensures { IsTrue result ↔ IsPlaced i.now }
{
    match i.instr {
        None => true,
        Some(op) => is_placed_as(i.cycle, i.end, op),
    }
}

/// Whether a user leaves the gap after the definer of what it reads, where that is active.
fn is_ready(t: &Table, h: &LiveRange, r: &Read) -> bool
    ensures { IsTrue result
        ↔ (h.now.active ≡ true → h.now.from + latency_gap t.now h.now.instr r.now.instr ≤ r.now.cycle) }
{
    !h.active || u64::from(h.from) + u64::from(gap(t, h.instr, r.instr)) <= u64::from(r.cycle)
}

/// Whether a user waits for the definer of what it reads.
fn waits(t: &Table, r: &Read, ranges: &[LiveRange]) -> bool
    ensures { IsTrue result
        ↔ LeavesGap (latency_gap t.now) r.now (slice_get ranges.now r.now.temp.0) }
{
    match ranges.get(r.temp.0 as usize) {
        None => false,
        Some(h) => is_ready(t, h, r),
    }
}

/// Whether operations lie within their block, and users wait for their definers.
pub(crate) fn keeps_latencies(
    t: &Table,
    issues: &[Issue],
    reads: &[Read],
    ranges: &[LiveRange],
) -> bool
    ensures { IsTrue result
        ↔ (All IsPlaced issues.now
        × All (λ r. LeavesGap (latency_gap t.now) r (slice_get ranges.now r.temp.0)) reads.now) }
{
    if !issues.iter().all(|i| is_placed(i)) {
        return false;
    }
    reads.iter().all(|r| waits(t, r, ranges))
}

/// Whether a temporary has this home, where there is one.
fn has_home(home: Option<Reg>, h: &LiveRange) -> bool
    ensures { IsTrue result ↔ HasHome home h.now }
{
    match home {
        None => true,
        Some(reg) => h.reg == reg.0,
    }
}

/// Whether the temporary that an operand chooses has the operand's home.
fn reads_home(r: &Read, ranges: &[LiveRange]) -> bool
    ensures { IsTrue result ↔ ReadsHome r.now (slice_get ranges.now r.now.temp.0) }
{
    match ranges.get(r.temp.0 as usize) {
        None => false,
        Some(h) => has_home(r.home, h),
    }
}

/// Whether the temporaries that preassigned operands choose have their homes.
pub(crate) fn keeps_homes(reads: &[Read], ranges: &[LiveRange]) -> bool
    ensures { IsTrue result ↔ All (λ r. ReadsHome r (slice_get ranges.now r.temp.0)) reads.now }
{
    reads.iter().all(|r| reads_home(r, ranges))
}
