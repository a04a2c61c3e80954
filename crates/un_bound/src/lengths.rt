//! The least length of a block: its operations at the earliest cycles that their precedences allow.

ghost use Rattle.std.specs.Prelude.{◌≡◌, ◌+◌, ◌*◌, ◌≤◌, length};
ghost use Rattle.un_bound.specs.Arcs.{LeadOn};
ghost use Rattle.un_bound.specs.Timings.{IsLeastLength};
ghost use Rattle.un_bound.specs.Lengths.{first_cycle, StartAtFirst, FromFirst, AreEarliest, end_after, IsLeastEnd, AreSmall};

use un_ir::extended::{BLOCK_OPS, ExtKind, ExtOp};
use un_model::instructions::instruction;
use un_model::model::Arc;

/// The most operations of a block for which there is room: as many as a block of any function has.
pub const ROOM: usize = BLOCK_OPS as usize;

/// The first cycle of an operation that every solution issues.
pub(crate) fn first_cycle(kind: &ExtKind) -> u32
    ensures { result ≡ first_cycle kind.now }
{
    match instruction(kind, 0) {
        None => 0,
        Some(_) => 1,
    }
}

/// Lets each operation issue in its first cycle.
fn start(cycles: &mut [u32], ops: &[ExtOp])
    requires { length cycles.old ≡ length ops.now }
    ensures { StartAtFirst cycles.new ops.now }
{
    for i in 0..ops.len() {
        cycles[i] = first_cycle(&ops[i].kind);
    }
}

/// Raises each operation, of which the first has the number `first`, to the earliest cycle that the arcs to it allow.
fn raise(cycles: &mut [u32], first: usize, ops: &[ExtOp], arcs: &[Arc])
    requires long { length cycles.old ≡ length ops.now }
    requires room { length ops.now ≤ ROOM }
    requires arcs { LeadOn first ops.now arcs.now }
    requires start { StartAtFirst cycles.old ops.now }
    ensures earliest { AreEarliest (FromFirst ops.now) (length ops.now) first arcs.now (length arcs.now) cycles.new }
    ensures small { AreSmall cycles.new }
{
    for arc in arcs {
        let from = arc.from.0 as usize - first;
        let to = arc.to.0 as usize - first;
        cycles[to] = cycles[to].max(cycles[from] + arc.gap);
    }
}

/// The least end of a block in which an operation has this cycle.
fn end_after(cycle: u32, kind: &ExtKind) -> u64
    ensures { result ≡ end_after cycle kind.now }
{
    match kind {
        ExtKind::Out => u64::from(cycle),
        _ => match instruction(kind, 0) {
            None => 0,
            Some(_) => u64::from(cycle) + 1,
        },
    }
}

/// The least end of a block whose operations have these cycles.
pub(crate) fn least_end(cycles: &[u32], ops: &[ExtOp]) -> u64
    requires { length cycles.now ≡ length ops.now }
    ensures { IsLeastEnd result cycles.now ops.now }
{
    let mut end = 0;
    for i in 0..ops.len() {
        end = end.max(end_after(cycles[i], &ops[i].kind));
    }
    end
}

/// The least length of a block, by way of `cycles`, which has a place for each operation.
fn length_by(cycles: &mut [u32], first: usize, ops: &[ExtOp], arcs: &[Arc]) -> u64
    requires long { length cycles.old ≡ length ops.now }
    requires room { length ops.now ≤ ROOM }
    requires arcs { LeadOn first ops.now arcs.now }
    ensures least { IsLeastLength first ops.now arcs.now result }
    ensures few { result ≤ 2 + 255 * ROOM }
{
    start(cycles, ops);
    raise(cycles, first, ops, arcs);
    least_end(cycles, ops).saturating_sub(1)
}

/// The least length of a block, by way of `room`, which has a place for each operation.
pub(crate) fn least_length(room: &mut [u32], first: usize, ops: &[ExtOp], arcs: &[Arc]) -> u64
    requires long { length ops.now ≤ length room.old }
    requires room { length ops.now ≤ ROOM }
    requires arcs { LeadOn first ops.now arcs.now }
    ensures least { IsLeastLength first ops.now arcs.now result }
    ensures few { result ≤ 2 + 255 * ROOM }
{
    let cycles = &mut room[..ops.len()];
    length_by(cycles, first, ops, arcs)
}
