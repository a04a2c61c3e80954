//! What operations of a block take of the packets, and how many cycles that fills: its own operations, with Spills and Reloads beside them.

ghost use Rattle.std.specs.Prelude.{◌≡◌, ◌+◌, ◌*◌, IfOk, fold, map, max};
ghost use Rattle.std.specs.List.{list_any};
ghost use Rattle.un_ir.specs.Extended.{is_leave};
ghost use Rattle.un_isa.specs.declared.packet_counts.Resource.{Resource};
ghost use Rattle.un_sites.specs.Shares.{own_share, spills_share, reloads_share, has_leave, cycles_for, cycles_with};
ghost use Rattle.un_sites.specs.Sites.{place_of};
ghost use Rattle.un_sites.specs.declared.sites.Spot.{Spot};

use un_base::memory_error::NoMemory;
use un_base::numbers::later;
use un_isa::op::Op;
use un_isa::packet_counts::{Resource, places};
use un_isa::table::Table;
use un_model::instructions::{instruction, share};
use un_sites::edges::Accesses;
use un_sites::sites::Spot;

/// Whether one of these operations is a Leave.
fn any_leave(spots: &[Spot<'_>]) -> bool
    ensures { result ≡ list_any (λ (p : Spot). is_leave (place_of p).it.kind) spots.now }
{
    spots.iter().any(|p| p.it.kind.is_leave())
}

/// Whether a block with these operations has a Leave.
pub(crate) fn has_leave(spots: &[Spot<'_>]) -> bool
    ensures { result ≡ has_leave (map place_of spots.now) }
{
    any_leave(spots)
}

/// What these operations take, of which those that a solution may leave out take nothing.
fn own_share(t: &Table, spots: &[Spot<'_>], r: Resource) -> Result<u32, NoMemory>
    ensures { IfOk result (λ n. n ≡ own_share t.now (map place_of spots.now) r) }
{
    let mut n = 0;
    for p in spots {
        n = later(n, share(t, r, instruction(&p.it.kind, 0)))?;
    }
    Ok(n)
}

/// So many times what an instruction takes.
fn times(n: u32, one: u32) -> Result<u32, NoMemory>
    ensures { IfOk result (λ all. all ≡ n * one) }
{
    match n.checked_mul(one) {
        Some(all) => Ok(all),
        None => Err(NoMemory),
    }
}

/// What so many Spills take, with the frame's Enter.
fn spills_share(t: &Table, n: u32, r: Resource) -> Result<u32, NoMemory>
    ensures { IfOk result (λ all. all ≡ spills_share t.now n r) }
{
    if n == 0 {
        return Ok(0);
    }
    let more = times(n, share(t, r, Some(Op::Spill)))?;
    later(share(t, r, Some(Op::Enter)), more)
}

/// What so many Reloads take, with the frame's Leave where the block has one.
fn reloads_share(t: &Table, leaves: bool, n: u32, r: Resource) -> Result<u32, NoMemory>
    ensures { IfOk result (λ all. all ≡ reloads_share t.now leaves n r) }
{
    if n == 0 {
        return Ok(0);
    }
    let more = times(n, share(t, r, Some(Op::Reload)))?;
    let leave = if leaves {
        share(t, r, Some(Op::Leave))
    } else {
        0
    };
    later(leave, more)
}

/// The fewest cycles that have so much of a resource.
fn cycles_for(r: Resource, n: u32) -> Result<u32, NoMemory>
    ensures { IfOk result (λ cycles. cycles ≡ cycles_for r n) }
{
    let more = later(n, places(r) - 1)?;
    Ok(more / places(r))
}

/// The fewest cycles that have what these operations and accesses take of a resource.
fn cycles_of(
    t: &Table,
    spots: &[Spot<'_>],
    leaves: bool,
    asked: Accesses,
    r: Resource,
) -> Result<u32, NoMemory>
    ensures { IfOk result (λ cycles. cycles ≡ cycles_for r (own_share t.now (map place_of spots.now) r
        + (spills_share t.now asked.spills r + reloads_share t.now leaves asked.reloads r))) }
{
    let own = own_share(t, spots, r)?;
    let spilled = spills_share(t, asked.spills, r)?;
    let reloaded = reloads_share(t, leaves, asked.reloads, r)?;
    let accesses = later(spilled, reloaded)?;
    cycles_for(r, later(own, accesses)?)
}

/// The fewest cycles that have what these operations and accesses take of each of these resources.
fn cycles_over(
    t: &Table,
    spots: &[Spot<'_>],
    leaves: bool,
    asked: Accesses,
    resources: &[Resource],
) -> Result<u32, NoMemory>
    ensures { IfOk result (λ cycles. cycles ≡ fold max 0 (map (λ (r : Resource). cycles_for r (own_share t.now (map place_of spots.now) r
        + (spills_share t.now asked.spills r + reloads_share t.now leaves asked.reloads r))) resources.now)) }
{
    let mut most = 0;
    for r in resources {
        let cycles = cycles_of(t, spots, leaves, asked, *r)?;
        most = most.max(cycles);
    }
    Ok(most)
}

/// The fewest cycles that have what these operations and accesses take.
pub(crate) fn cycles_with(
    t: &Table,
    spots: &[Spot<'_>],
    leaves: bool,
    asked: Accesses,
) -> Result<u32, NoMemory>
    ensures { IfOk result (λ cycles. cycles
        ≡ cycles_with t.now (map place_of spots.now) leaves asked.spills asked.reloads) }
{
    cycles_over(t, spots, leaves, asked, &Resource::ALL)
}
