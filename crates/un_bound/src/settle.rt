//! The least end of a block in a box: its operations at the earliest cycles of their sets that their precedences allow.

ghost use Rattle.std.specs.Prelude.{◌≡◌, ◌<◌, ◌≤◌, ◌↔◌, IsTrue, IfSome, length, slice_get};
ghost use Rattle.un_domains.specs.Sets.{NoneEmpty};
ghost use Rattle.un_bound.specs.Arcs.{MayWait, LeadOn, LeadsOn};
ghost use Rattle.un_bound.specs.Lengths.{AreChosen, AreEarliest, first_cycle};
ghost use Rattle.un_bound.specs.Relaxations.{IsValue};
ghost use Rattle.un_bound.specs.Choices.{IsNext, own_var, InSets, IsKnown, AreKnown, IsStarted, IsRaised, IsSettled, FitsBefore};
ghost use Rattle.un_bound.specs.Choices.{TransfersFit, MayStop, IsLeastStop};

use crate::lengths::{first_cycle, least_end};
use un_base::ids::VarId;
use un_domains::store::Store;
use un_ir::extended::{ExtBlock, ExtKind, ExtOp};
use un_isa::does::is_transfer;
use un_model::instructions::instruction;
use un_model::model::{Arc, BlockVars, OpVars};

/// The least value of a variable from `at` on.
fn next(store: &Store, v: VarId, at: u64) -> Option<u32>
    requires there { v.0 < length store.now.sets }
    requires live { NoneEmpty store.now.sets }
    ensures { IsNext (IsValue store.now.sets v) at result }
{
    let max = u64::from(store.max(v));
    let mut x = at.max(u64::from(store.min(v)));
    while x <= max {
        if store.has(v, x as u32) {
            return Some(x as u32);
        }
        x += 1;
    }
    None
}

/// The variable of the cycle of an operation that every solution issues, and of a block's end.
fn own_var(end: VarId, kind: &ExtKind, vars: &OpVars) -> Option<VarId>
    ensures { result ≡ own_var end kind.now vars.now }
{
    match kind {
        ExtKind::Out => Some(end),
        ExtKind::Body(_) | ExtKind::End(_) => vars.cycle,
        ExtKind::In | ExtKind::Copy(_) | ExtKind::Enter | ExtKind::Leave => None,
    }
}

/// A block in a box: its operations, of which the first has the number `first`, with their variables.
#[derive(Clone, Copy)]
pub(crate) struct Boxed<'a> {
    pub store: &'a Store,
    pub first: usize,
    pub end: VarId,
    pub ops: &'a [ExtOp],
    pub vars: &'a [OpVars],
}

/// The first cycle of operation `i` in its set.
fn first_in(b: &Boxed<'_>, i: usize) -> Option<u32>
    requires live { NoneEmpty b.now.store.now.sets }
    requires known { AreKnown (length b.now.store.now.sets) b.now.end b.now.ops.now b.now.vars.now }
    requires there { i < length b.now.ops.now }
    ensures { IsNext (InSets b.now.store.now.sets b.now.end b.now.ops.now b.now.vars.now i) 0 result }
{
    let kind = &b.ops[i].kind;
    let at = first_cycle(kind);
    match own_var(b.end, kind, &b.vars[i]) {
        None => Some(at),
        Some(v) => next(b.store, v, u64::from(at)),
    }
}

/// Lets each operation issue in the first cycle of its set; false where one has none.
fn start(b: &Boxed<'_>, cycles: &mut [u32]) -> bool
    requires live { NoneEmpty b.now.store.now.sets }
    requires known { AreKnown (length b.now.store.now.sets) b.now.end b.now.ops.now b.now.vars.now }
    requires long { length cycles.old ≡ length b.now.ops.now }
    ensures { IsStarted (InSets b.now.store.now.sets b.now.end b.now.ops.now b.now.vars.now) (length b.now.ops.now) cycles.new result }
{
    for i in 0..b.ops.len() {
        match first_in(b, i) {
            None => return false,
            Some(cycle) => cycles[i] = cycle,
        }
    }
    true
}

/// The first cycle of operation `i` in its set from `at` on. What waits has a variable for its cycle.
fn next_in(b: &Boxed<'_>, i: usize, at: u64) -> Option<u32>
    requires live { NoneEmpty b.now.store.now.sets }
    requires known { AreKnown (length b.now.store.now.sets) b.now.end b.now.ops.now b.now.vars.now }
    requires there { i < length b.now.ops.now }
    requires waits { IfSome (slice_get b.now.ops.now i) (λ op. MayWait op.kind) }
    requires first { IfSome (slice_get b.now.ops.now i) (λ op. first_cycle op.kind ≤ at) }
    ensures { IsNext (InSets b.now.store.now.sets b.now.end b.now.ops.now b.now.vars.now i) at result }
{
    match own_var(b.end, &b.ops[i].kind, &b.vars[i]) {
        None => None,
        Some(v) => next(b.store, v, at),
    }
}

/// Raises the operation to which an arc leads to the earliest cycle of its set that the arc allows; false where there is none.
fn raise_by(b: &Boxed<'_>, cycles: &mut [u32], arc: Arc) -> bool
    requires live { NoneEmpty b.now.store.now.sets }
    requires known { AreKnown (length b.now.store.now.sets) b.now.end b.now.ops.now b.now.vars.now }
    requires long { length cycles.old ≡ length b.now.ops.now }
    requires arc { LeadsOn b.now.first b.now.ops.now arc }
    requires chosen { AreChosen (InSets b.now.store.now.sets b.now.end b.now.ops.now b.now.vars.now) (length b.now.ops.now) cycles.old }
    ensures { IsRaised (InSets b.now.store.now.sets b.now.end b.now.ops.now b.now.vars.now) b.now.first arc cycles.old cycles.new result }
{
    let from = arc.from.0 as usize - b.first;
    let to = arc.to.0 as usize - b.first;
    let at = u64::from(cycles[to]).max(u64::from(cycles[from]) + u64::from(arc.gap));
    match next_in(b, to, at) {
        None => false,
        Some(cycle) => {
            cycles[to] = cycle;
            true
        }
    }
}

/// Raises each operation to the earliest cycle of its set that the arcs to it allow; false where one has none.
fn raise(b: &Boxed<'_>, cycles: &mut [u32], arcs: &[Arc]) -> bool
    requires live { NoneEmpty b.now.store.now.sets }
    requires known { AreKnown (length b.now.store.now.sets) b.now.end b.now.ops.now b.now.vars.now }
    requires arcs { LeadOn b.now.first b.now.ops.now arcs.now }
    requires start { AreEarliest (InSets b.now.store.now.sets b.now.end b.now.ops.now b.now.vars.now)
        (length b.now.ops.now) b.now.first arcs.now 0 cycles.old }
    ensures { IsSettled (InSets b.now.store.now.sets b.now.end b.now.ops.now b.now.vars.now)
        (length b.now.ops.now) b.now.first arcs.now (length arcs.now) cycles.new result }
{
    for arc in arcs {
        if !raise_by(b, cycles, *arc) {
            return false;
        }
    }
    true
}

/// Whether an operation, where it is a transfer, has the cycle before an end in its set.
fn fits_before(store: &Store, kind: &ExtKind, vars: &OpVars, end: u32) -> bool
    requires { IsKnown (length store.now.sets) kind.now vars.now.cycle }
    ensures { IsTrue result ↔ FitsBefore store.now.sets end kind.now vars.now }
{
    let Some(op) = instruction(kind, 0) else {
        return true;
    };
    match vars.cycle {
        None => true,
        Some(v) => !is_transfer(op) || store.has(v, end.saturating_sub(1)),
    }
}

/// Whether each transfer has the cycle before an end in its set.
fn transfers_fit(b: &Boxed<'_>, end: u32) -> bool
    requires known { AreKnown (length b.now.store.now.sets) b.now.end b.now.ops.now b.now.vars.now }
    ensures { IsTrue result ↔ TransfersFit b.now.store.now.sets b.now.ops.now b.now.vars.now end }
{
    for i in 0..b.ops.len() {
        if !fits_before(b.store, &b.ops[i].kind, &b.vars[i], end) {
            return false;
        }
    }
    true
}

/// The least end of a block from `low` on at which its transfers may issue.
fn find_end(b: &Boxed<'_>, low: u64) -> Option<u32>
    requires live { NoneEmpty b.now.store.now.sets }
    requires known { AreKnown (length b.now.store.now.sets) b.now.end b.now.ops.now b.now.vars.now }
    ensures { IsNext (MayStop b.now.store.now.sets b.now.end b.now.ops.now b.now.vars.now) low result }
{
    let mut at = low;
    while let Some(end) = next(b.store, b.end, at) {
        if transfers_fit(b, end) {
            return Some(end);
        }
        at = u64::from(end) + 1;
    }
    None
}

/// The least end of a block in a box, by way of `cycles`, which has a place for each operation; None where it has none.
fn least_stop_by(b: &Boxed<'_>, cycles: &mut [u32], arcs: &[Arc]) -> Option<u32>
    requires live { NoneEmpty b.now.store.now.sets }
    requires known { AreKnown (length b.now.store.now.sets) b.now.end b.now.ops.now b.now.vars.now }
    requires long { length cycles.old ≡ length b.now.ops.now }
    requires arcs { LeadOn b.now.first b.now.ops.now arcs.now }
    ensures { IsLeastStop b.now.store.now.sets b.now.first b.now.end b.now.ops.now b.now.vars.now arcs.now result }
{
    if !start(b, cycles) {
        return None;
    }
    if !raise(b, cycles, arcs) {
        return None;
    }
    find_end(b, least_end(cycles, b.ops))
}

/// The least end of a block in a box, by way of `room`, which has a place for each operation; None where it has none.
pub(crate) fn least_stop(
    store: &Store,
    room: &mut [u32],
    first: usize,
    block: &ExtBlock,
    vars: &BlockVars,
    arcs: &[Arc],
) -> Option<u32>
    requires live { NoneEmpty store.now.sets }
    requires known { AreKnown (length store.now.sets) vars.now.end block.now.ops vars.now.ops }
    requires long { length block.now.ops ≤ length room.old }
    requires arcs { LeadOn first block.now.ops arcs.now }
    ensures { IsLeastStop store.now.sets first vars.now.end block.now.ops vars.now.ops arcs.now result }
{
    let b = Boxed {
        store,
        first,
        end: vars.end,
        ops: block.ops.as_slice(),
        vars: vars.ops.as_slice(),
    };
    let cycles = &mut room[..block.ops.len()];
    least_stop_by(&b, cycles, arcs)
}
