//! What calls separate: an operation behind a call that reads a register which the call clobbers waits for what writes it after the
//! call.

ghost use Rattle.std.specs.Prelude.{◌≡◌, ◌+◌, ◌<◌, ◌≤◌, ◌==◌, [], ◌∷◌, ◌++◌, All, IfOk, IfSome, OnOk, map, filter};
ghost use Rattle.std.specs.List.{list_any};
ghost use Rattle.std.specs.Option.{option_map};
ghost use Rattle.un_base.specs.declared.ids.TempId.{TempId};
ghost use Rattle.un_model.specs.Pairs.{any_from, joined};
ghost use Rattle.un_prop.specs.declared.act.Act.TheVariants.{Always};
ghost use Rattle.un_sites.specs.CallBefores.{is_clobbered_home, reads_clobbered, is_home, reads_reply, reads_anew, waits_anew};
ghost use Rattle.un_sites.specs.CallBefores.{anew_count, anew_gap, anew_after};
ghost use Rattle.un_sites.specs.CallBefores.{is_comparison, compares, reads_compared, own_wait};
ghost use Rattle.un_sites.specs.CallBefores.{is_between, of_call, of_calls, call_befores_by};
ghost use Rattle.un_kinds.specs.Constraints as constraint;
ghost use Rattle.un_rooms.specs.Waits.{befores_by};
ghost use Rattle.un_sites.specs.Places.{time_of};
ghost use Rattle.un_ir.specs.Kinds.{is_call_kind};
ghost use Rattle.un_sites.specs.Postings.{with_kind};
ghost use Rattle.un_rooms.specs.Reach.{IsWithin, IsArcWithin};
ghost use Rattle.un_sites.specs.Sites.{place_of};
ghost use Rattle.un_sites.specs.declared.sites.Spot.{Spot};

use crate::call_sides::on_side;
use crate::reach::Reach;
use crate::span::reach_of;
use crate::wait::Wait;
use std::alloc::{AllocError, Global};
use un_base::ids::TempId;
use un_base::memory_error::NoMemory;
use un_base::numbers::number;
use un_ir::extended::{ExtKind, Operand, first_of};
use un_isa::does::is_compare;
use un_isa::packet_counts::PACKET;
use un_isa::reg::{Reg, Space};
use un_isa::reg_set::is_in_mask;
use un_isa::table::Table;
use un_lists::items::Items;
use un_model::instructions::{instruction, least_wait, space_read};
use un_model::model::Arc;
use un_sites::sites::{Spot, spot_at};

/// Whether calls clobber a home.
fn is_clobbered_home(mask: u64, home: Option<Reg>) -> bool
    ensures { result ≡ is_clobbered_home mask home }
{
    match home {
        None => false,
        Some(r) => is_in_mask(mask, r.0),
    }
}

/// Whether a home is this register.
fn is_home(reg: u8, home: Option<Reg>) -> bool
    ensures { result ≡ is_home reg home }
{
    match home {
        None => false,
        Some(r) => r.0 == u32::from(reg),
    }
}

/// Whether the operand at place `j` of an operation is in a register that calls clobber.
fn reads_clobbered(mask: u64, kind: &ExtKind, j: u32, x: &Operand) -> bool
    ensures { result ≡ reads_clobbered mask kind.now j x.now }
{
    matches!(space_read(instruction(kind, 0), j), Some(Space::P)) || is_clobbered_home(mask, x.home)
}

/// Whether temporary `n` is one of these.
fn is_among(xs: &[TempId], n: u32) -> bool
    ensures { result ≡ list_any (λ (y : TempId). y.0 == n) xs.now }
{
    xs.iter().any(|y| y.0 == n)
}

/// Whether an operand reads what a call gives, in the register in which the call gives it.
fn reads_reply(reg: u8, call: &Spot<'_>, x: &Operand) -> bool
    ensures { result ≡ reads_reply reg (place_of call.now) x.now }
{
    is_among(call.it.results.as_slice(), first_of(x.alts.as_slice())) && is_home(reg, x.home)
}

/// Whether what the operand at place `j` of an operation reads has to be written after a call.
fn reads_anew(t: &Table, call: &Spot<'_>, kind: &ExtKind, j: u32, x: &Operand) -> bool
    ensures { result ≡ reads_anew t.now (place_of call.now) kind.now j x.now }
{
    reads_clobbered(t.clobbered, kind, j, x) && !reads_reply(t.result, call, x)
}

/// Whether some operand of an operation reads what has to be written after a call.
fn any_anew(t: &Table, call: &Spot<'_>, u: &Spot<'_>) -> Result<bool, NoMemory>
    ensures { IfOk result (λ b. b ≡ any_from (reads_anew t.now (place_of call.now) u.now.it.now.kind) 0 u.now.it.now.operands) }
{
    for j in 0..u.it.operands.len() {
        let at = number(j)?;
        if reads_anew(t, call, &u.it.kind, at, u.it.operands.get(j)) {
            return Ok(true);
        }
    }
    Ok(false)
}

/// Whether an operation that every solution issues has such an operand.
fn waits_anew(t: &Table, call: &Spot<'_>, u: &Spot<'_>) -> Result<bool, NoMemory>
    ensures { IfOk result (λ b. b ≡ waits_anew t.now (place_of call.now) (place_of u.now)) }
{
    if u.it.kind.is_mandatory() {
        any_anew(t, call, u)
    } else {
        Ok(false)
    }
}

/// How many operands of an operation read what has to be written after a call.
fn anew_count(t: &Table, call: &Spot<'_>, u: &Spot<'_>) -> Result<usize, NoMemory>
    ensures { IfOk result (λ k. k ≡ anew_count t.now (place_of call.now) (place_of u.now)) }
{
    let mut count = 0;
    for j in 0..u.it.operands.len() {
        let at = number(j)?;
        if reads_anew(t, call, &u.it.kind, at, u.it.operands.get(j)) {
            count += 1;
        }
    }
    Ok(count)
}

/// Whether an operation is a comparison.
fn is_comparison(kind: &ExtKind) -> bool
    ensures { result ≡ is_comparison kind.now }
{
    match kind {
        ExtKind::Body(o) => is_compare(o.op),
        _ => false,
    }
}

/// Whether an operation is a comparison that gives what an operand reads.
fn compares(x: &Operand, p: &Spot<'_>) -> bool
    ensures { result ≡ compares x.now (place_of p.now) }
{
    is_comparison(&p.it.kind) && is_among(p.it.results.as_slice(), first_of(x.alts.as_slice()))
}

/// Whether an operand reads what a comparison among these operations gives.
fn reads_compared(spots: &[Spot<'_>], x: &Operand) -> bool
    ensures { result ≡ list_any (λ (p : Spot). compares x.now (place_of p)) spots.now }
{
    spots.iter().any(|p| compares(x, p))
}

/// Whether some operand of an operation reads what a comparison among these operations gives.
fn any_compared(spots: &[Spot<'_>], u: &Spot<'_>) -> bool
    ensures { result ≡ any_from (reads_compared (map place_of spots.now)) 0 u.now.it.now.operands }
{
    for j in 0..u.it.operands.len() {
        if reads_compared(spots, u.it.operands.get(j)) {
            return true;
        }
    }
    false
}

/// How many cycles an operation of a block waits for what writes its operands, at least.
fn own_wait(t: &Table, spots: &[Spot<'_>], u: &Spot<'_>) -> u32
    ensures wait { result ≡ own_wait t.now (map place_of spots.now) (place_of u.now) }
    ensures small { result ≤ 1 }
{
    let least = least_wait(t, instruction(&u.it.kind, 0));
    if least == 1 || any_compared(spots, u) {
        least
    } else {
        1
    }
}

/// How many cycles such an operation of a block is after the call, at least.
fn anew_gap(t: &Table, spots: &[Spot<'_>], call: &Spot<'_>, u: &Spot<'_>) -> Result<u32, NoMemory>
    ensures { IfOk result (λ gap. gap ≡ anew_gap t.now (map place_of spots.now) (place_of call.now) (place_of u.now)) }
{
    let least = 1 + own_wait(t, spots, u);
    if !u.it.kind.is_call() {
        return Ok(least);
    }
    let count = anew_count(t, call, u)?;
    if count > PACKET as usize {
        Ok(3)
    } else {
        Ok(least)
    }
}

/// An operation waits for what is written after a call.
fn add_wait(
    waits: &mut Items<Wait>,
    call: &Spot<'_>,
    u: &Spot<'_>,
    gap: u32,
) -> Result<(), AllocError>
    ensures { OnOk result (befores_by waits.new ≡ befores_by waits.old
        ++ constraint.Before (time_of (place_of call.now)) Always (time_of (place_of u.now)) Always gap ∷ []) }
{
    waits.push(Wait {
        from: call.time(),
        to: u.time(),
        gap,
    })
}

/// What an operation of a block behind a call waits for.
fn add_anew(
    waits: &mut Items<Wait>,
    t: &Table,
    spots: &[Spot<'_>],
    call: &Spot<'_>,
    u: &Spot<'_>,
) -> Result<(), NoMemory>
    ensures { OnOk result (befores_by waits.new
        ≡ befores_by waits.old ++ anew_after t.now (map place_of spots.now) (place_of call.now) (place_of u.now)) }
{
    if waits_anew(t, call, u)? {
        let gap = anew_gap(t, spots, call, u)?;
        add_wait(waits, call, u, gap)?;
    }
    Ok(())
}

/// What those operations of a block that are behind a call wait for.
fn add_all_anew(
    waits: &mut Items<Wait>,
    t: &Table,
    spots: &[Spot<'_>],
    call: &Spot<'_>,
    behind: &[Spot<'_>],
) -> Result<(), NoMemory>
    ensures { OnOk result (befores_by waits.new ≡ befores_by waits.old
        ++ joined (map (anew_after t.now (map place_of spots.now) (place_of call.now)) (map place_of behind.now))) }
{
    for u in behind {
        add_anew(waits, t, spots, call, u)?;
    }
    Ok(())
}

/// Those of the operations that are behind a call, but not behind the next one.
fn between<'a>(
    alloc: Global,
    reach: Reach,
    arcs: &[Arc],
    call: &Spot<'a>,
    next: Option<Spot<'a>>,
    spots: &[Spot<'a>],
) -> Result<Items<Spot<'a>>, AllocError>
    requires arcs { All (IsArcWithin reach.low reach.count) arcs.now }
    requires call { IsWithin reach.low reach.count call.now.op }
    requires next { IfSome next (λ (d : Spot). IsWithin reach.low reach.count d.op) }
    ensures { IfOk result (λ found. map place_of found
        ≡ filter (is_between arcs.now (place_of call.now) (option_map place_of next.entry)) (map place_of spots.now)) }
{
    let found = on_side(alloc, reach, arcs, call, true, spots)?;
    match next {
        None => Ok(found),
        Some(d) => {
            let rest = on_side(alloc, reach, arcs, &d, false, found.as_slice())?;
            Ok(rest)
        }
    }
}

/// What operations wait for after a call of a block, of which this is the next one.
fn add_call<'a>(
    alloc: Global,
    waits: &mut Items<Wait>,
    t: &Table,
    reach: Reach,
    arcs: &[Arc],
    spots: &[Spot<'a>],
    call: &Spot<'a>,
    next: Option<Spot<'a>>,
) -> Result<(), NoMemory>
    requires arcs { All (IsArcWithin reach.low reach.count) arcs.now }
    requires call { IsWithin reach.low reach.count call.now.op }
    requires next { IfSome next (λ (d : Spot). IsWithin reach.low reach.count d.op) }
    ensures { OnOk result (befores_by waits.new ≡ befores_by waits.old
        ++ of_call t.now arcs.now (map place_of spots.now) (option_map place_of next.entry) (place_of call.now)) }
{
    let found = between(alloc, reach, arcs, call, next, spots)?;
    add_all_anew(waits, t, spots, call, found.as_slice())
}

/// What operations wait for after the calls of a block.
fn add_calls<'a>(
    alloc: Global,
    waits: &mut Items<Wait>,
    t: &Table,
    reach: Reach,
    arcs: &[Arc],
    spots: &[Spot<'a>],
    calls: &[Spot<'a>],
) -> Result<(), NoMemory>
    requires arcs { All (IsArcWithin reach.low reach.count) arcs.now }
    requires calls { All (λ (p : Spot). IsWithin reach.low reach.count p.op) calls.now }
    ensures { OnOk result (befores_by waits.new ≡ befores_by waits.old
        ++ of_calls t.now arcs.now (map place_of spots.now) (map place_of calls.now)) }
{
    for i in 0..calls.len() {
        let next = spot_at(calls, i + 1);
        add_call(alloc, waits, t, reach, arcs, spots, &calls[i], next)?;
    }
    Ok(())
}

/// The calls among the operations of a block.
pub(crate) fn calls_in<'a>(
    alloc: Global,
    reach: Reach,
    spots: &[Spot<'a>],
) -> Result<Items<Spot<'a>>, AllocError>
    requires { All (λ (p : Spot). IsWithin reach.low reach.count p.op) spots.now }
    ensures calls { IfOk result (λ calls. map place_of calls ≡ with_kind is_call_kind (map place_of spots.now)) }
    ensures within { IfOk result (All (λ (p : Spot). IsWithin reach.low reach.count p.op)) }
{
    let mut calls = Items::new(alloc);
    for p in spots {
        if p.it.kind.is_call() {
            calls.push(*p)?;
        }
    }
    Ok(calls)
}

/// Adds what the operations of a block with these arcs wait for after its calls.
pub(crate) fn add_call_waits(
    alloc: Global,
    waits: &mut Items<Wait>,
    t: &Table,
    arcs: &[Arc],
    spots: &[Spot<'_>],
) -> Result<(), NoMemory>
    ensures { OnOk result (befores_by waits.new ≡ befores_by waits.old
        ++ call_befores_by t.now arcs.now (map place_of spots.now)) }
{
    let reach = reach_of(spots, arcs);
    let calls = calls_in(alloc, reach, spots)?;
    add_calls(alloc, waits, t, reach, arcs, spots, calls.as_slice())
}
