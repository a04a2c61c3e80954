//! What a search splits, and the values where no choice is left.

ghost use Rattle.std.specs.Prelude.{◌≡◌, ◌↔◌, ℕ, ◌<◌, ◌≤◌, IsTrue, IfSome, IfOk, IfNone, length};
ghost use Rattle.un_domains.specs.Sets.{IsSingle, NoneEmpty, set_at};
ghost use Rattle.un_tree.specs.Boxes.{Splits};
ghost use Rattle.un_tree.specs.Searched.{HasTwo};

use crate::order::BlockOrder;
use std::alloc::{AllocError, Global};
use un_base::ids::VarId;
use un_domains::store::Store;

/// Where a box is split in two.
#[derive(Clone, Copy)]
pub(crate) struct Choice {
    /// The variable whose values are split.
    pub var: VarId,
    /// The greatest value of the left side; the right side has the values above it.
    pub val: u32,
}

/// Whether this is a variable with two values.
fn has_two(store: &Store, v: VarId) -> bool
    ensures { IsTrue result ↔ ((v.0 < length store.now.sets) × (1 < length (set_at store.now.sets v.0))) }
{
    if v.0 >= store.len() {
        return false;
    }
    if store.is_single(v) {
        return false;
    }
    store.size(v) > 1
}

/// The first variable with two values.
pub(crate) fn first_open(store: &Store) -> Option<VarId>
    ensures some { IfSome result (λ v. (v.0 < length store.now.sets) × (1 < length (set_at store.now.sets v.0))) }
    ensures none { IfNone result ((v : ℕ) → v < length store.now.sets → length (set_at store.now.sets v) ≤ 1) }
{
    for v in 0..store.len() {
        if has_two(store, VarId(v)) {
            return Some(VarId(v));
        }
    }
    None
}

/// How much the cost can still differ by a block's end.
fn spread(store: &Store, block: &BlockOrder) -> u64 {
    if !has_two(store, block.end) {
        return 0;
    }
    let width = store.max(block.end).saturating_sub(store.min(block.end));
    u64::from(width) * u64::from(block.freq)
}

/// The end of the block by which the cost can differ most, of the first on a tie.
fn widest_end(store: &Store, order: &[BlockOrder]) -> Option<VarId>
    ensures { IfSome result (λ v. (v.0 < length store.now.sets) × (1 < length (set_at store.now.sets v.0))) }
{
    let mut widest = None;
    let mut most = 0;
    for block in order {
        let here = spread(store, block);
        if here > most && has_two(store, block.end) {
            most = here;
            widest = Some(block.end);
        }
    }
    widest
}

/// The variable with the fewest values of these, but more than one; the first on a tie.
fn smallest_of(store: &Store, vars: &[VarId]) -> Option<VarId>
    ensures { IfSome result (λ v. (v.0 < length store.now.sets) × (1 < length (set_at store.now.sets v.0))) }
{
    let mut smallest = None;
    let mut least = u32::MAX;
    for v in vars {
        if has_two(store, *v) && store.size(*v) < least {
            least = store.size(*v);
            smallest = Some(*v);
        }
    }
    smallest
}

/// The first variable with two values of these.
fn first_of(store: &Store, vars: &[VarId]) -> Option<VarId>
    ensures { IfSome result (λ v. (v.0 < length store.now.sets) × (1 < length (set_at store.now.sets v.0))) }
{
    for v in vars {
        if has_two(store, *v) {
            return Some(*v);
        }
    }
    None
}

/// The variable of a block that is split: a cycle that every solution has, before all others.
fn in_block(store: &Store, block: &BlockOrder) -> Option<VarId>
    ensures { IfSome result (λ v. (v.0 < length store.now.sets) × (1 < length (set_at store.now.sets v.0))) }
{
    match smallest_of(store, block.cycles.as_slice()) {
        Some(v) => Some(v),
        None => first_of(store, block.others.as_slice()),
    }
}

/// The variable of the first block that has two values of one.
fn in_blocks(store: &Store, order: &[BlockOrder]) -> Option<VarId>
    ensures { IfSome result (λ v. (v.0 < length store.now.sets) × (1 < length (set_at store.now.sets v.0))) }
{
    for block in order {
        match in_block(store, block) {
            None => {}
            Some(v) => return Some(v),
        }
    }
    None
}

/// The variable that is split: the end of a block, the flag of the frame, a variable of a block, and then any.
fn open_var(store: &Store, flag: VarId, order: &[BlockOrder]) -> Option<VarId>
    ensures some { IfSome result (λ v. (v.0 < length store.now.sets) × (1 < length (set_at store.now.sets v.0))) }
    ensures none { IfNone result ((v : ℕ) → v < length store.now.sets → length (set_at store.now.sets v) ≤ 1) }
{
    if let Some(end) = widest_end(store, order) {
        return Some(end);
    }
    if has_two(store, flag) {
        return Some(flag);
    }
    match in_blocks(store, order) {
        Some(v) => Some(v),
        None => first_open(store),
    }
}

/// Splits a variable between its least value and the others.
pub(crate) fn choice_of(store: &Store, flag: VarId, order: &[BlockOrder]) -> Choice
    requires two { HasTwo store.now.sets }
    ensures { Splits store.now.sets result.var result.val }
{
    store.facts();
    match open_var(store, flag, order) {
        None => unreachable!(),
        Some(var) => Choice {
            var,
            val: store.min(var),
        },
    }
}

/// The values of a store in which each variable has one.
pub(crate) fn single_values(alloc: Global, store: &Store) -> Result<Vec<u32>, AllocError>
    requires live { NoneEmpty store.now.sets }
    requires single { (v : ℕ) → v < length store.now.sets → length (set_at store.now.sets v) ≤ 1 }
    ensures { IfOk result (λ x. IsSingle x.items store.now.sets) }
{
    let mut values = Vec::new(alloc);
    for v in 0..store.len() {
        values.push(store.min(VarId(v)))?;
    }
    Ok(values)
}
