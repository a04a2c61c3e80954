//! Whether an assignment keeps the precedences of a block and its end, and has room in each cycle.

ghost use Rattle.std.specs.Prelude.{◌≡◌, nat_le};
ghost use Rattle.std.specs.List.{list_all};
ghost use Rattle.un_length.specs.Places.{at_place};
ghost use Rattle.un_length.specs.Blocks.{cycle_of, arc_holds, taken_by, taken, has_room, task_holds, block_holds};
ghost use Rattle.un_isa.specs.PacketCounts.{places_of};

use crate::block::{Block, Precedence, Task};
use un_isa::packet_counts::{Resource, places, share};
use un_prop::act::value;

/// The cycle of the operation at a place; 0 past the end.
fn cycle_at(ops: &[Task], fixed: &[u32], place: u32) -> u32
    ensures { result ≡ at_place (cycle_of fixed.now) ops.now place }
{
    let i = place as usize;
    if i >= ops.len() {
        return 0;
    }
    value(fixed, ops[i].at)
}

/// Whether a precedence is kept.
fn arc_holds(ops: &[Task], fixed: &[u32], arc: Precedence) -> bool
    ensures { result ≡ arc_holds ops.now fixed.now arc }
{
    let from = u64::from(cycle_at(ops, fixed, arc.from));
    let to = u64::from(cycle_at(ops, fixed, arc.to));
    from + u64::from(arc.gap) <= to
}

/// How much of a resource an operation takes in cycle `c`.
fn taken_by(r: Resource, c: u32, fixed: &[u32], task: &Task) -> u32
    ensures { result ≡ taken_by r c fixed.now task.now }
{
    if value(fixed, task.at) == c {
        u32::from(share(r, task.needs))
    } else {
        0
    }
}

/// Whether the operations take no more of a resource in cycle `c` than a packet has.
fn fits(r: Resource, ops: &[Task], fixed: &[u32], c: u32) -> bool
    ensures { result ≡ nat_le (taken r ops.now fixed.now c) (places_of r) }
{
    let mut left = places(r);
    for task in ops {
        let share = taken_by(r, c, fixed, task);
        if share > left {
            return false;
        }
        left -= share;
    }
    true
}

/// Whether they take no more than a packet has.
fn has_room(ops: &[Task], fixed: &[u32], c: u32) -> bool
    ensures { result ≡ has_room ops.now fixed.now c }
{
    fits(Resource::Instructions, ops, fixed, c)
        && fits(Resource::Memory, ops, fixed, c)
        && fits(Resource::Stores, ops, fixed, c)
        && fits(Resource::MultiplyOrControl, ops, fixed, c)
        && fits(Resource::Control, ops, fixed, c)
}

/// Whether an operation issues neither too early nor too near the end, and its cycle has room.
fn task_holds(block: &Block, fixed: &[u32], task: &Task) -> bool
    ensures { result ≡ task_holds block.now.ops block.now.end fixed.now task.now }
{
    let at = value(fixed, task.at);
    if at < task.head {
        return false;
    }
    if u64::from(at) + u64::from(task.tail) > u64::from(value(fixed, block.end)) {
        return false;
    }
    has_room(block.ops.as_slice(), fixed, at)
}

/// Whether the precedences are kept.
fn arcs_hold(block: &Block, fixed: &[u32]) -> bool
    ensures { result ≡ list_all (arc_holds block.now.ops fixed.now) block.now.arcs }
{
    let ops = block.ops.as_slice();
    block
        .arcs
        .as_slice()
        .iter()
        .all(|arc| arc_holds(ops, fixed, *arc))
}

/// Whether each operation's end and cycle are.
fn tasks_hold(block: &Block, fixed: &[u32]) -> bool
    ensures { result ≡ list_all (task_holds block.now.ops block.now.end fixed.now) block.now.ops }
{
    block
        .ops
        .as_slice()
        .iter()
        .all(|task| task_holds(block, fixed, task))
}

/// Whether all are.
pub(crate) fn block_holds(block: &Block, fixed: &[u32]) -> bool
    ensures { result ≡ block_holds block.now.ops block.now.arcs block.now.end fixed.now }
{
    arcs_hold(block, fixed) && tasks_hold(block, fixed)
}
