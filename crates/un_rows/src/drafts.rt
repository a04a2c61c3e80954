//! What a block owes by one of several drafts at a time, where so many saved values have slots.

ghost use Rattle.std.specs.Prelude.{◌≡◌, ◌++◌, ◌&&◌, IfOk, OnOk, if◌then◌else◌, [], ◌∷◌, length, nat_lt, replicate};
ghost use Rattle.un_rows.specs.Drafts.{owed, no_draft, before_calls, behind_calls, spilling, entry_draft, reloading, leaving, return_draft};
ghost use Rattle.un_rows.specs.Drafts.{behind_call, call_draft, crossed_draft, call_drafts, is_crowded, drafts_of};

use crate::draft::{Draft, Owed};
use crate::known::{Basis, Crossed, Known};
use crate::role::Role;
use std::alloc::{AllocError, Global};
use un_base::memory_error::NoMemory;
use un_base::numbers::{advance, later, number};
use un_isa::op::Op;
use un_isa::table::{Table, latency};
use un_length::block::Precedence;
use un_lists::items::Items;

/// An instruction that is owed.
fn owed(op: Op, head: u32, tail: u32) -> Owed
    ensures { result ≡ owed op head tail }
{
    Owed { op, head, tail }
}

/// The draft of nothing.
fn no_draft(alloc: Global) -> Draft
    ensures { result ≡ no_draft }
{
    Draft {
        owed: Items::new(alloc),
        front: Items::new(alloc),
        back: Items::new(alloc),
    }
}

/// Adds the same instruction so many times.
fn add_times(list: &mut Items<Owed>, one: Owed, many: u32) -> Result<(), AllocError>
    ensures { OnOk result (list.new ≡ list.old ++ replicate many one) }
{
    for _ in 0..many {
        list.push(one)?;
    }
    Ok(())
}

/// The one at place `n` issues before each call.
fn before_calls(alloc: Global, n: u32, calls: &[Crossed]) -> Result<Items<Precedence>, AllocError>
    ensures { IfOk result (λ arcs. arcs ≡ before_calls n calls.now) }
{
    let mut arcs = Items::new(alloc);
    for call in calls {
        arcs.push(Precedence {
            from: n,
            to: call.place,
            gap: 1,
        })?;
    }
    Ok(arcs)
}

/// The one at place `n` issues behind each call.
fn behind_calls(alloc: Global, n: u32, calls: &[Crossed]) -> Result<Items<Precedence>, AllocError>
    ensures { IfOk result (λ arcs. arcs ≡ behind_calls n calls.now) }
{
    let mut arcs = Items::new(alloc);
    for call in calls {
        arcs.push(Precedence {
            from: call.place,
            to: n,
            gap: 1,
        })?;
    }
    Ok(arcs)
}

/// So many Spills behind Enter.
fn spilling(alloc: Global, n: u32, calls: &[Crossed], s: u32) -> Result<Draft, AllocError>
    ensures { IfOk result (λ d. d ≡ spilling n calls.now s) }
{
    let mut list = Items::new(alloc);
    list.push(owed(Op::Enter, 1, 2))?;
    add_times(&mut list, owed(Op::Spill, 2, 1), s)?;
    let front = before_calls(alloc, n, calls)?;
    Ok(Draft {
        owed: list,
        front,
        back: Items::new(alloc),
    })
}

/// What the entry owes.
fn entry_draft(alloc: Global, n: u32, calls: &[Crossed], s: u32) -> Result<Draft, AllocError>
    ensures { IfOk result (λ d. d ≡ entry_draft n calls.now s) }
{
    if s == 0 {
        return Ok(no_draft(alloc));
    }
    spilling(alloc, n, calls, s)
}

/// So many Reloads before the end.
fn reloading(alloc: Global, t: &Table, s: u32) -> Result<Draft, AllocError>
    ensures { IfOk result (λ d. d ≡ reloading t.now s) }
{
    let mut list = Items::new(alloc);
    add_times(&mut list, owed(Op::Reload, 1, latency(t, Op::Reload)), s)?;
    Ok(Draft {
        owed: list,
        front: Items::new(alloc),
        back: Items::new(alloc),
    })
}

/// The same, with Leave behind the calls.
fn leaving(alloc: Global, t: &Table, n: u32, calls: &[Crossed], s: u32) -> Result<Draft, AllocError>
    ensures { IfOk result (λ d. d ≡ leaving t.now n calls.now s) }
{
    let mut list = Items::new(alloc);
    list.push(owed(Op::Leave, 1, 1))?;
    add_times(&mut list, owed(Op::Reload, 1, latency(t, Op::Reload)), s)?;
    let back = behind_calls(alloc, n, calls)?;
    Ok(Draft {
        owed: list,
        front: Items::new(alloc),
        back,
    })
}

/// What a block owes that reads its saved values in registers.
fn return_draft(
    alloc: Global,
    t: &Table,
    leaves: bool,
    n: u32,
    calls: &[Crossed],
    s: u32,
) -> Result<Draft, AllocError>
    ensures { IfOk result (λ d. d ≡ return_draft t.now leaves n calls.now s) }
{
    if leaves && 0 < s {
        let d = leaving(alloc, t, n, calls, s)?;
        return Ok(d);
    }
    reloading(alloc, t, s)
}

/// Each of these, from place `n` on, issues behind the call at place `call`.
fn behind_call(
    alloc: Global,
    call: u32,
    n: u32,
    owed: &[Owed],
) -> Result<Items<Precedence>, NoMemory>
    ensures { IfOk result (λ arcs. arcs ≡ behind_call call n owed.now) }
{
    let mut arcs = Items::new(alloc);
    for i in 0..owed.len() {
        let to = advance(n, i)?;
        arcs.push(Precedence {
            from: call,
            to,
            gap: 1,
        })?;
    }
    Ok(arcs)
}

/// So many Reloads behind a call, each for an operation before the end.
fn call_draft(alloc: Global, t: &Table, n: u32, call: u32, many: u32) -> Result<Draft, NoMemory>
    ensures { IfOk result (λ d. d ≡ call_draft t.now n call many) }
{
    let tail = later(latency(t, Op::Reload), 1)?;
    let mut list = Items::new(alloc);
    add_times(&mut list, owed(Op::Reload, 1, tail), many)?;
    let back = behind_call(alloc, call, n, list.as_slice())?;
    Ok(Draft {
        owed: list,
        front: Items::new(alloc),
        back,
    })
}

/// What a block owes for the names that cross one of its calls.
fn crossed_draft(
    alloc: Global,
    t: &Table,
    basis: Basis,
    s: u32,
    n: u32,
    call: Crossed,
) -> Result<Draft, NoMemory>
    ensures { IfOk result (λ d. d ≡ crossed_draft t.now basis s n call) }
{
    let room = later(s, basis.kept)?.saturating_sub(basis.saved);
    call_draft(alloc, t, n, call.place, call.names.saturating_sub(room))
}

/// What it owes for each of its calls.
fn call_drafts(
    alloc: Global,
    t: &Table,
    basis: Basis,
    s: u32,
    n: u32,
    calls: &[Crossed],
) -> Result<Items<Draft>, NoMemory>
    ensures { IfOk result (λ ds. ds ≡ call_drafts t.now basis s n calls.now) }
{
    let mut drafts = Items::new(alloc);
    for call in calls {
        let one = crossed_draft(alloc, t, basis, s, n, *call)?;
        drafts.push(one)?;
    }
    Ok(drafts)
}

/// Whether fewer registers are kept than there are saved values that have no slots, in a block with calls.
fn is_crowded(basis: Basis, s: u32, calls: &[Crossed]) -> Result<bool, NoMemory>
    ensures { IfOk result (λ crowded. crowded ≡ is_crowded basis s calls.now) }
{
    let room = later(s, basis.kept)?;
    Ok(!calls.is_empty() && room < basis.saved)
}

/// One draft alone.
fn alone(alloc: Global, d: Draft) -> Result<Items<Draft>, AllocError>
    ensures { IfOk result (λ ds. ds ≡ d ∷ []) }
{
    let mut drafts = Items::new(alloc);
    drafts.push(d)?;
    Ok(drafts)
}

/// What a block with operations in so many places and these calls owes that keeps the saved values in their places; nothing where that
/// cannot be.
fn middle_drafts(
    alloc: Global,
    t: &Table,
    basis: Basis,
    s: u32,
    n: u32,
    calls: &[Crossed],
) -> Result<Option<Items<Draft>>, NoMemory>
    ensures { IfOk result (λ ds. ds
        ≡ (if is_crowded basis s calls.now then None else Some (call_drafts t.now basis s n calls.now))) }
{
    if is_crowded(basis, s, calls)? {
        return Ok(None);
    }
    let drafts = call_drafts(alloc, t, basis, s, n, calls)?;
    Ok(Some(drafts))
}

/// What a block owes where `s` saved values have slots, by one of several drafts at a time; nothing where that cannot be.
pub(crate) fn drafts_of(
    alloc: Global,
    t: &Table,
    basis: Basis,
    s: u32,
    known: &Known,
) -> Result<Option<Items<Draft>>, NoMemory>
    ensures { IfOk result (λ ds. ds ≡ drafts_of t.now basis s known.now) }
{
    let n = number(known.ops.len())?;
    let calls = known.calls.as_slice();
    match known.role {
        Role::Entry => {
            let d = entry_draft(alloc, n, calls, s)?;
            Ok(Some(alone(alloc, d)?))
        }
        Role::Return => {
            let d = return_draft(alloc, t, known.leaves, n, calls, s)?;
            Ok(Some(alone(alloc, d)?))
        }
        Role::Middle => { middle_drafts(alloc, t, basis, s, n, calls) }
        Role::Other => Ok(Some(Items::new(alloc))),
    }
}
