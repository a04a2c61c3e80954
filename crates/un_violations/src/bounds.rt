//! Whether operations of a block are as far apart as their instructions ask: accesses to memory, and uses of the frame.

ghost use Rattle.std.specs.Prelude.{◌≡◌, ℕ, ◌+◌, ◌<◌, ◌≤◌, ◌↔◌, IsTrue, IfOk, OnOk, Some, max, All, AllPairs, List, [], ◌∷◌, ◌++◌, length};
ghost use Rattle.std.specs.Prelude.{get_or};
ghost use Rattle.un_model.specs.declared.schedule.Issue.{Issue};
ghost use Rattle.un_violations.specs.Orders.{cycle_after, bound_for, AreBounds, HaveBounds, IsAfter, distance_of};
ghost use Rattle.un_model.specs.Solutions.{memory_distance, frame_distance, Precedes};
ghost use Rattle.un_model.specs.Solutions.{KeepsFrameOrder};

use std::alloc::Global;
use un_base::memory_error::NoMemory;
use un_isa::op::Op;
use un_model::distances::{frame_distance, memory_distance};
use un_model::schedule::Issue;

/// Which operations are kept apart: accesses to memory, or uses of the frame.
#[derive(Clone, Copy)]
pub enum Rule {
    Memory,
    Frame,
}

/// The cycles of a block from which on further operations may issue, each 0 where nothing before holds them back.
#[derive(Clone, Copy)]
pub struct Bounds {
    /// From which cycle a further Load may issue.
    pub load: u64,
    /// From which cycle a further Store may issue.
    pub store: u64,
    /// From which cycle a further Call may issue.
    pub call: u64,
    /// From which cycle a further Spill or Reload may issue.
    pub access: u64,
    /// From which cycle a Leave may issue.
    pub leave: u64,
}

/// How far after an instruction another issues.
fn distance(rule: Rule, earlier: Option<Op>, later: Op) -> Option<u32>
    ensures { result ≡ distance_of rule earlier (Some later) }
{
    match rule {
        Rule::Memory => memory_distance(earlier, Some(later)),
        Rule::Frame => frame_distance(earlier, Some(later)),
    }
}

/// The cycle from which an instruction may issue after an operation in this cycle, at this distance.
fn cycle_after(cycle: u32, distance: Option<u32>) -> u64
    ensures { result ≡ cycle_after cycle distance }
{
    match distance {
        None => 0,
        Some(n) => u64::from(cycle) + u64::from(n),
    }
}

/// The bounds after an operation.
fn after(rule: Rule, bounds: &Bounds, i: &Issue) -> Bounds
    ensures { IsAfter rule bounds.now i.now result }
{
    let load = cycle_after(i.cycle, distance(rule, i.instr, Op::Load));
    let store = cycle_after(i.cycle, distance(rule, i.instr, Op::Store));
    let call = cycle_after(i.cycle, distance(rule, i.instr, Op::Call));
    let access = cycle_after(i.cycle, distance(rule, i.instr, Op::Spill));
    let leave = cycle_after(i.cycle, distance(rule, i.instr, Op::Leave));
    Bounds {
        load: bounds.load.max(load),
        store: bounds.store.max(store),
        call: bounds.call.max(call),
        access: bounds.access.max(access),
        leave: bounds.leave.max(leave),
    }
}

/// The cycle from which an instruction may issue.
fn bound(bounds: &Bounds, instr: Option<Op>) -> u64
    ensures { result ≡ bound_for bounds.now instr }
{
    match instr {
        Some(Op::Load) => bounds.load,
        Some(Op::Store) => bounds.store,
        Some(Op::Call) => bounds.call,
        Some(Op::Spill) | Some(Op::Reload) => bounds.access,
        Some(Op::Leave) => bounds.leave,
        _ => 0,
    }
}

/// Whether an operation issues no earlier than the bounds of its block let it.
fn is_late_enough(table: &[Bounds], i: &Issue) -> bool
    requires { i.now.block.0 < length table.now }
    ensures { IsTrue result ↔ ((d : Bounds) → bound_for (get_or table.now i.now.block.0 d) i.now.instr ≤ i.now.cycle) }
{
    bound(&table[i.block.0 as usize], i.instr) <= u64::from(i.cycle)
}

/// The bounds of `n` blocks before any operation.
fn no_bounds(alloc: Global, n: usize) -> Result<Vec<Bounds>, NoMemory>
    ensures { IfOk result (λ table. (rule : Rule) → HaveBounds rule [] n table.items) }
{
    let none = Bounds {
        load: 0,
        store: 0,
        call: 0,
        access: 0,
        leave: 0,
    };
    let table = vec![in alloc; none; n]?;
    Ok(table)
}

/// The bounds of all blocks after a further operation.
fn add_issue(rule: Rule, table: &mut Vec<Bounds>, i: &Issue)
    requires { i.now.block.0 < length table.old.items }
    ensures { (issues : List Issue) (n : ℕ) → HaveBounds rule issues n table.old.items
        → HaveBounds rule (issues ++ i.now ∷ []) n table.new.items }
{
    let b = i.block.0 as usize;
    table[b] = after(rule, &table[b], i);
}

/// Whether each operation is far enough after those before it, in the blocks below `n`.
pub(crate) fn keeps_order(
    alloc: Global,
    n: usize,
    rule: Rule,
    issues: &[Issue],
) -> Result<bool, NoMemory>
    requires { All (λ i. i.block.0 < n) issues.now }
    ensures { IfOk result (λ kept. IsTrue kept ↔ AllPairs (Precedes (distance_of rule)) issues.now) }
{
    let mut table = no_bounds(alloc, n)?;
    for i in issues {
        if !is_late_enough(table.as_slice(), i) {
            return Ok(false);
        }
        add_issue(rule, &mut table, i);
    }
    Ok(true)
}

/// The bounds of the blocks below `n` after all operations.
fn all_bounds(
    alloc: Global,
    n: usize,
    rule: Rule,
    issues: &[Issue],
) -> Result<Vec<Bounds>, NoMemory>
    requires { All (λ i. i.block.0 < n) issues.now }
    ensures { IfOk result (λ table. HaveBounds rule issues.now n table.items) }
{
    let mut table = no_bounds(alloc, n)?;
    for i in issues {
        add_issue(rule, &mut table, i);
    }
    Ok(table)
}

/// Whether the operations are all late enough.
fn are_late_enough(table: &[Bounds], issues: &[Issue]) -> bool
    requires { All (λ i. i.block.0 < length table.now) issues.now }
    ensures { IsTrue result ↔ All (λ i. (d : Bounds) → bound_for (get_or table.now i.block.0 d) i.instr ≤ i.cycle) issues.now }
{
    for i in issues {
        if !is_late_enough(table, i) {
            return false;
        }
    }
    true
}

/// Whether each two operations, in whatever order they stand, are as far apart as the frame asks.
pub(crate) fn keeps_frame_order(alloc: Global, n: usize, issues: &[Issue]) -> Result<bool, NoMemory>
    requires { All (λ i. i.block.0 < n) issues.now }
    ensures { IfOk result (λ kept. IsTrue kept ↔ KeepsFrameOrder issues.now) }
{
    let table = all_bounds(alloc, n, Rule::Frame, issues)?;
    Ok(are_late_enough(table.as_slice(), issues))
}
