//! Where a block ends at least, by its precedences and by what its packets have.

use un_trial::facts::{BlockFacts, Operation};
use un_trial::machine::{RESOURCES, ROOM};
use un_trial::table::NONE;

/// What operations need of the packets together, of each resource.
type Sums = [u32; RESOURCES];

/// Adds what an operation needs of its packet.
fn add_needs(sums: &mut Sums, op: &Operation) {
    for k in 0..RESOURCES {
        sums[k] = sums[k].saturating_add(u32::from(op.needs[k]));
    }
}

/// What the operations need together that every solution issues so many cycles before the block's end, or more.
fn needs_before(block: &BlockFacts, tail: u32) -> Sums {
    let mut sums = [0; RESOURCES];
    let mut o = 0u32;
    for op in block.operations.as_slice() {
        let is_issued = op.cycle != NONE && op.instruction == NONE;
        if is_issued && block.tails.at(o) >= tail {
            add_needs(&mut sums, op);
        }
        o = o.saturating_add(1);
    }
    sums
}

/// How many packets have as much.
fn packets(sums: Sums) -> u32 {
    let mut most = 0;
    for k in 0..RESOURCES {
        let room = u32::from(ROOM[k]).max(1);
        most = most.max(sums[k].div_ceil(room));
    }
    most
}

/// The most cycles that the block goes on behind one of its operations.
fn longest_tail(block: &BlockFacts) -> u32 {
    let mut longest = 0;
    for tail in block.tails.as_slice() {
        longest = longest.max(*tail);
    }
    longest
}

/// Where a block ends at least: behind the packets of the operations with a tail of so many cycles or more, and the tail.
pub(crate) fn end_by_packets(block: &BlockFacts) -> u32 {
    let mut end = 0;
    for tail in 0..longest_tail(block).saturating_add(1) {
        let behind = packets(needs_before(block, tail)).saturating_add(tail);
        end = end.max(behind);
    }
    end
}
