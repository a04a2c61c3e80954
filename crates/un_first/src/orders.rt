//! Orders of a block's operations, with one operation moved by chance.

use crate::chance::Noise;
use un_blocks::facts::{Block, at};
use un_trial::facts::Operation;

/// Whether an operation has to stand before this one.
fn follows(op: &Operation, other: u32) -> bool {
    for gap in &op.before {
        if gap.from == other {
            return true;
        }
    }
    false
}

/// The first place to which the operation at place `from` can move: behind the last that has to stand before it.
fn first_place(block: &Block, order: &[u32], from: u32) -> u32 {
    let op = block.operation(at(order, from));
    for step in 0..from {
        let behind = from.saturating_sub(step);
        if follows(op, at(order, behind.saturating_sub(1))) {
            return behind;
        }
    }
    0
}

/// The last place to which it can move: before the first that has to stand behind it.
fn last_place(block: &Block, order: &[u32], from: u32, count: u32) -> u32 {
    let o = at(order, from);
    for p in from..count {
        if follows(block.operation(at(order, p)), o) {
            return p.saturating_sub(1);
        }
    }
    count.saturating_sub(1)
}

/// Exchanges an item with the next.
fn swap_next(list: &mut [u32], i: u32) {
    let place = i as usize;
    if place < list.len() && list.len() - place > 1 {
        list.swap(place, place + 1);
    }
}

/// Moves an item of a list to another place.
fn move_item(list: &mut [u32], from: u32, to: u32) {
    if from < to {
        for i in from..to {
            swap_next(list, i);
        }
    } else {
        for i in 0..from.saturating_sub(to) {
            swap_next(list, from.saturating_sub(i).saturating_sub(1));
        }
    }
}

/// Moves one operation, by chance, to another place that keeps the precedences.
pub fn move_one(block: &Block, order: &mut [u32], noise: &mut Noise) {
    let count = u32::try_from(order.len()).unwrap_or(u32::MAX);
    let from = noise.place(count);
    if count == 0 {
        return;
    }
    let first = first_place(block, order, from);
    let last = last_place(block, order, from, count);
    let span = last.saturating_add(1).saturating_sub(first);
    let to = first.saturating_add(noise.place(span));
    move_item(order, from, to.min(count.saturating_sub(1)));
}
