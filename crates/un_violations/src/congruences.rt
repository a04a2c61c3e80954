//! Whether values stand in one register where a block hands them over and where the next one takes them.

ghost use Rattle.std.specs.Prelude.{◌≡◌, ℕ, ◌+◌, ◌-◌, ◌^◌, ◌<◌, ◌==◌, ◌↔◌, IsTrue, unwrap_or, if◌then◌else◌, List, IfOk, Some, None};
ghost use Rattle.std.specs.Prelude.{is_none, Contains, length, slice_get};
ghost use Rattle.std.specs.List.{filter, position_or_len};
ghost use Rattle.un_base.specs.declared.ids.TempId.{TempId};
ghost use Rattle.un_ir.specs.declared.extended.ExtBlock.{ExtBlock};
ghost use Rattle.un_ir.specs.declared.function.Term.{Term};
ghost use Rattle.un_model.specs.declared.schedule.Read.{Read};
ghost use Rattle.un_ir.specs.Linear.{place_over};
ghost use Rattle.un_model.specs.Congruences.{register_of, register_read, KeepsCongruences};
ghost use Rattle.un_violations.specs.Orders.{AllCongruent, HandsAll, AllHandOn};

use std::alloc::Global;
use un_base::ids::TempId;
use un_base::memory_error::NoMemory;
use un_ir::extended::ExtBlock;
use un_ir::function::Term;
use un_lists::items::Items;
use un_model::ends::{live_in_temps, place, term};
use un_model::schedule::{LiveRange, Read, Schedule};

/// The register of a temporary.
fn register_of(ranges: &[LiveRange], x: TempId) -> Option<u32>
    ensures { result ≡ register_of ranges.now x }
{
    match ranges.get(x.0 as usize) {
        None => None,
        Some(h) => Some(h.reg),
    }
}

/// The register of what is read at place `k` of these reads.
fn register_at(ranges: &[LiveRange], reads: &[Read], k: usize) -> Option<u32>
    ensures { result ≡ register_read ranges.now (slice_get reads.now k) }
{
    match reads.get(k) {
        None => None,
        Some(read) => register_of(ranges, read.temp),
    }
}

/// Whether two registers are one.
fn is_one(a: Option<u32>, b: Option<u32>) -> bool
    ensures { IsTrue result ↔ (a ≡ b) }
{
    match (a, b) {
        (None, None) => true,
        (Some(p), Some(q)) => p == q,
        (None, Some(_)) => false,
        (Some(_), None) => false,
    }
}

/// Whether the value that block `b` takes at place `j` stands in one register where block `a` hands it over in one of these
/// reads, and where `b` takes it as `x`.
fn is_congruent(
    ranges: &[LiveRange],
    handed: &[Read],
    a: &ExtBlock,
    b: &ExtBlock,
    j: usize,
    x: TempId,
) -> bool
    requires { j < 2 ^ 62 }
    ensures { IsTrue result ↔ (register_read ranges.now (slice_get handed.now (place_over a.now b.now j)) ≡ register_of ranges.now x) }
{
    is_one(
        register_at(ranges, handed, place(a, b, j)),
        register_of(ranges, x),
    )
}

/// Whether block `a`, which hands over what these reads read, hands all its values over to block `b`.
fn hands_over(ranges: &[LiveRange], handed: &[Read], a: &ExtBlock, b: &ExtBlock) -> bool
    ensures { IsTrue result ↔ AllCongruent ranges.now handed.now a.now b.now }
{
    let temps = live_in_temps(&b.ops);
    for j in 0..temps.len() {
        if !is_congruent(ranges, handed, a, b, j, temps[j]) {
            return false;
        }
    }
    true
}

/// Whether block `a` hands its values over to block `l`, where there is one.
fn hands_to(
    blocks: &[ExtBlock],
    ranges: &[LiveRange],
    handed: &[Read],
    a: &ExtBlock,
    l: usize,
) -> bool
    ensures { IsTrue result ↔ ((b : ExtBlock) → slice_get blocks.now l ≡ Some b → AllCongruent ranges.now handed.now a.now b) }
{
    match blocks.get(l) {
        None => true,
        Some(b) => hands_over(ranges, handed, a, b),
    }
}

/// Whether block `a`, number `k`, hands its values over to each block to which it may lead.
fn hands_on(
    blocks: &[ExtBlock],
    ranges: &[LiveRange],
    handed: &[Read],
    k: usize,
    a: &ExtBlock,
) -> bool
    requires { k < length blocks.now }
    ensures { IsTrue result ↔ HandsAll blocks.now ranges.now handed.now k a.now }
{
    match term(&a.ops) {
        Term::Fall => hands_to(blocks, ranges, handed, a, k + 1),
        Term::Jump(to) => hands_to(blocks, ranges, handed, a, to.0 as usize),
        Term::Branch { to, .. } => {
            hands_to(blocks, ranges, handed, a, k + 1)
                && hands_to(blocks, ranges, handed, a, to.0 as usize)
        }
        Term::Ret(_) => true,
    }
}

/// The reads of the blocks' ends.
fn end_reads(alloc: Global, reads: &[Read]) -> Result<Items<Read>, NoMemory>
    ensures { IfOk result (λ found. found ≡ filter (λ r. is_none r.instr) reads.now) }
{
    let mut found = Items::new(alloc);
    for r in reads {
        if r.instr.is_none() {
            found.push(*r)?;
        }
    }
    Ok(found)
}

/// What block `k` hands over, of the reads of the blocks' ends.
fn handed_by(alloc: Global, k: usize, ends: &[Read]) -> Result<Items<Read>, NoMemory>
    ensures { IfOk result (λ found. found ≡ filter (λ r. r.block.0 == k) ends.now) }
{
    let mut found = Items::new(alloc);
    for r in ends {
        if r.block.0 as usize == k {
            found.push(*r)?;
        }
    }
    Ok(found)
}

/// Whether each block hands its values over to each block to which it may lead.
fn all_hand_on(
    alloc: Global,
    blocks: &[ExtBlock],
    ranges: &[LiveRange],
    ends: &[Read],
) -> Result<bool, NoMemory>
    ensures { IfOk result (λ kept. IsTrue kept ↔ AllHandOn blocks.now ranges.now ends.now) }
{
    for k in 0..blocks.len() {
        let handed = handed_by(alloc, k, ends)?;
        if !hands_on(blocks, ranges, handed.as_slice(), k, &blocks[k]) {
            return Ok(false);
        }
    }
    Ok(true)
}

/// Whether values stand in one register where a block hands them over and where the next one takes them.
pub(crate) fn keeps_congruences(
    alloc: Global,
    blocks: &[ExtBlock],
    t: &Schedule,
) -> Result<bool, NoMemory>
    ensures { IfOk result (λ kept. IsTrue kept ↔ KeepsCongruences blocks.now t.now) }
{
    let ends = end_reads(alloc, t.reads.as_slice())?;
    let kept = all_hand_on(alloc, blocks, t.ranges.as_slice(), ends.as_slice())?;
    Ok(kept)
}
