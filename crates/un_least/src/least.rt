//! The least end before which the operations of a block have room, whatever the store.

ghost use Rattle.std.specs.Prelude.{◌≡◌, ◌+◌, ◌<◌, ◌≤◌, ◌^◌, ℕ, IfOk, length, max, slice_index};
ghost use Rattle.un_least.specs.Least.{head_cycle, tail_cycle, earliest_of, latest_of, fits_before, least_end_of};
ghost use Rattle.un_length.specs.Places.{at_place};

use std::alloc::Global;
use un_base::memory_error::NoMemory;
use un_base::numbers::number;
use un_length::block::{Block, Task};
use un_length::crowd::{all_fit, in_order};
use un_length::mixed::mixed_room;
use un_length::window::{lower_all, raise_all};

/// The first cycle of an operation in any store: 1 for all but the end, from its head on.
fn head_cycle(task: Task) -> u32
    ensures { result ≡ head_cycle task }
{
    task.head.max(task.tail.min(1))
}

/// Writes the first cycle of each operation.
fn write_heads(ops: &[Task], early: &mut [u32])
    requires room { length ops.now ≤ length early.old }
    ensures { (i : ℕ) → i < length ops.now → slice_index early.new i ≡ at_place head_cycle ops.now i }
{
    for i in 0..ops.len() {
        early[i] = head_cycle(ops[i]);
    }
}

/// The last cycle of an operation before an end.
fn tail_cycle(task: Task, end: u32) -> u32
    ensures { result ≡ tail_cycle end task }
{
    end.saturating_sub(task.tail)
}

/// Writes the last cycle of each operation before an end.
fn write_tails(ops: &[Task], end: u32, late: &mut [u32])
    requires room { length ops.now ≤ length late.old }
    ensures { (i : ℕ) → i < length ops.now → slice_index late.new i ≡ at_place (tail_cycle end) ops.now i }
{
    for i in 0..ops.len() {
        late[i] = tail_cycle(ops[i], end);
    }
}

/// Finds the earliest cycles.
fn find_heads(block: &Block, early: &mut [u32])
    requires room { length block.now.ops ≤ length early.old }
    ensures { (i : ℕ) → i < length block.now.ops → slice_index early.new i ≡ earliest_of block.now.ops block.now.arcs i }
{
    write_heads(block.ops.as_slice(), early);
    raise_all(block.arcs.as_slice(), early);
}

/// Finds the latest cycles before an end.
fn find_tails(block: &Block, end: u32, late: &mut [u32])
    requires room { length block.now.ops ≤ length late.old }
    ensures { (i : ℕ) → i < length block.now.ops → slice_index late.new i ≡ latest_of block.now.ops block.now.arcs end i }
{
    write_tails(block.ops.as_slice(), end, late);
    lower_all(block.arcs.as_slice(), late);
}

/// Whether the operations have room before an end, from these earliest cycles on.
fn has_room_before(
    block: &Block,
    end: u32,
    early: &[u32],
    late: &mut [u32],
    counts: &mut [u32],
) -> bool
    requires few { length block.now.ops < 2 ^ 32 }
    requires early { (i : ℕ) → i < length block.now.ops → slice_index early.now i ≡ earliest_of block.now.ops block.now.arcs i }
    requires long { length block.now.ops ≤ length early.now }
    requires late { length block.now.ops ≤ length late.old }
    requires counts { block.now.horizon ≤ length counts.old }
    requires near { end < block.now.horizon }
    ensures { result ≡ fits_before block.now.ops block.now.arcs block.now.horizon end }
{
    let _horizon = block.horizon;
    let past = end + 1;
    let (row, _) = counts.split_at_mut(past as usize);
    find_tails(block, end, late);
    let ops = block.ops.as_slice();
    if !in_order(ops, early, late) {
        return false;
    }
    if !all_fit(ops, early, late, past, row) {
        return false;
    }
    mixed_room(ops, early, late, past, row)
}

/// The later of two ends.
fn later_of(a: u32, b: u32) -> u32
    ensures { result ≡ max a b }
{
    a.max(b)
}

/// The first end from `from` on before which they have, looked for up to the horizon.
fn least_from(block: &Block, from: u32, early: &[u32], late: &mut [u32], counts: &mut [u32]) -> u32
    requires few { length block.now.ops < 2 ^ 32 }
    requires early { (i : ℕ) → i < length block.now.ops → slice_index early.now i ≡ earliest_of block.now.ops block.now.arcs i }
    requires long { length block.now.ops ≤ length early.now }
    requires late { length block.now.ops ≤ length late.old }
    requires counts { block.now.horizon ≤ length counts.old }
    ensures { result ≡ least_end_of block.now.ops block.now.arcs block.now.horizon from }
{
    for end in from..block.horizon {
        if has_room_before(block, end, early, late, counts) {
            return end;
        }
    }
    later_of(block.horizon, from)
}

/// The least end of `from` and the later ones before which the operations have room, looked for up to the horizon; the horizon where there
/// is none before it.
pub fn least_end(alloc: Global, block: &Block, from: u32) -> Result<u32, NoMemory>
    ensures { IfOk result (λ end. end ≡ least_end_of block.now.ops block.now.arcs block.now.horizon from) }
{
    let count = number(block.ops.len())? as usize;
    let mut early = vec![in alloc; 0; count]?;
    let mut late = vec![in alloc; 0; count]?;
    let mut counts = vec![in alloc; 0; block.horizon as usize]?;
    find_heads(block, early.as_mut_slice());
    let end = least_from(
        block,
        from,
        early.as_slice(),
        late.as_mut_slice(),
        counts.as_mut_slice(),
    );
    Ok(end)
}
