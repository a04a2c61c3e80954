//! The earliest and the latest cycles of the operations of a block, as a store and the precedences leave them.

ghost use Rattle.std.specs.Prelude.{◌≡◌, ◌<◌, ◌≤◌, ◌-◌, ℕ, All, length, max, min, slice_index, true};
ghost use Rattle.un_domains.specs.Sets.{NoneEmpty, greatest, least, set_at};
ghost use Rattle.un_prop.specs.Among.{among};
ghost use Rattle.un_prop.specs.Rounds.{HasVars};
ghost use Rattle.un_length.specs.Places.{at_place, Leads};
ghost use Rattle.un_length.specs.Blocks.{TaskVars, BlockVars};
ghost use Rattle.un_length.specs.Windows.{raise, raised, lower, lowered, first_cycle, last_cycle, earliest, latest};

use crate::block::{Block, Precedence, Task};
use un_base::ids::VarId;
use un_domains::window::Window;

/// The first cycle of an operation.
fn first_cycle(task: Task, w: &Window<'_>) -> u32
    requires there { task.at.0 < length w.now.store.now.sets }
    requires live { NoneEmpty w.now.store.now.sets }
    ensures { result ≡ max (least (set_at w.now.store.now.sets task.at.0)) task.head }
{
    w.min(task.at).max(task.head)
}

/// Writes the first cycle of each operation.
fn write_firsts(ops: &[Task], w: &Window<'_>, early: &mut [u32])
    requires vars { TaskVars w.now.vars.now ops.now }
    requires known { HasVars w.now.vars.now w.now.store.now.sets }
    requires live { NoneEmpty w.now.store.now.sets }
    requires room { length ops.now ≤ length early.old }
    ensures { (i : ℕ) → i < length ops.now → slice_index early.new i ≡ at_place (first_cycle w.now.store.now.sets) ops.now i }
{
    for i in 0..ops.len() {
        early[i] = first_cycle(ops[i], w);
    }
}

/// Raises the second operation of a precedence to the gap after the first.
fn raise(arc: Precedence, early: &mut [u32])
    requires of_from { arc.from < length early.old }
    requires of_to { arc.to < length early.old }
    ensures { (i : ℕ) → slice_index early.new i ≡ raise arc (slice_index early.old) i }
{
    let to = arc.to as usize;
    let reach = early[arc.from as usize].saturating_add(arc.gap);
    early[to] = early[to].max(reach);
}

/// Raises the operations by each precedence in turn.
pub fn raise_all(arcs: &[Precedence], early: &mut [u32])
    requires { All (Leads (length early.old)) arcs.now }
    ensures { (i : ℕ) → slice_index early.new i ≡ raised arcs.now (slice_index early.old) i }
{
    for arc in arcs {
        raise(*arc, early);
    }
}

/// The last cycle of an operation before the greatest end.
fn last_cycle(task: Task, w: &Window<'_>, end: u32) -> u32
    requires there { task.at.0 < length w.now.store.now.sets }
    requires live { NoneEmpty w.now.store.now.sets }
    ensures { result ≡ min (greatest (set_at w.now.store.now.sets task.at.0)) (end - task.tail) }
{
    w.max(task.at).min(end.saturating_sub(task.tail))
}

/// Writes the last cycle of each operation before the greatest end.
fn write_lasts(ops: &[Task], end: VarId, w: &Window<'_>, late: &mut [u32])
    requires vars { TaskVars w.now.vars.now ops.now }
    requires of_end { among w.now.vars.now end ≡ true }
    requires known { HasVars w.now.vars.now w.now.store.now.sets }
    requires live { NoneEmpty w.now.store.now.sets }
    requires room { length ops.now ≤ length late.old }
    ensures { (i : ℕ) → i < length ops.now → slice_index late.new i ≡ at_place (last_cycle end w.now.store.now.sets) ops.now i }
{
    let greatest = w.max(end);
    for i in 0..ops.len() {
        late[i] = last_cycle(ops[i], w, greatest);
    }
}

/// Lowers the first operation of a precedence to the gap before the second.
fn lower(arc: Precedence, late: &mut [u32])
    requires of_from { arc.from < length late.old }
    requires of_to { arc.to < length late.old }
    ensures { (i : ℕ) → slice_index late.new i ≡ lower arc (slice_index late.old) i }
{
    let from = arc.from as usize;
    let reach = late[arc.to as usize].saturating_sub(arc.gap);
    late[from] = late[from].min(reach);
}

/// Lowers the operations by each precedence in turn, the last one first.
pub fn lower_all(arcs: &[Precedence], late: &mut [u32])
    requires { All (Leads (length late.old)) arcs.now }
    ensures { (i : ℕ) → slice_index late.new i ≡ lowered arcs.now (slice_index late.old) i }
{
    let mut j = arcs.len();
    while j > 0 {
        j -= 1;
        lower(arcs[j], late);
    }
}

/// Finds the earliest cycles.
pub(crate) fn find_earliest(block: &Block, w: &Window<'_>, early: &mut [u32])
    requires vars { BlockVars w.now.vars.now block.now.ops block.now.end }
    requires known { HasVars w.now.vars.now w.now.store.now.sets }
    requires live { NoneEmpty w.now.store.now.sets }
    requires room { length block.now.ops ≤ length early.old }
    ensures { (i : ℕ) → i < length block.now.ops
        → slice_index early.new i ≡ earliest block.now.ops block.now.arcs w.now.store.now.sets i }
{
    write_firsts(block.ops.as_slice(), w, early);
    raise_all(block.arcs.as_slice(), early);
}

/// Finds the latest cycles.
pub(crate) fn find_latest(block: &Block, w: &Window<'_>, late: &mut [u32])
    requires vars { BlockVars w.now.vars.now block.now.ops block.now.end }
    requires known { HasVars w.now.vars.now w.now.store.now.sets }
    requires live { NoneEmpty w.now.store.now.sets }
    requires room { length block.now.ops ≤ length late.old }
    ensures { (i : ℕ) → i < length block.now.ops
        → slice_index late.new i ≡ latest block.now.ops block.now.arcs block.now.end w.now.store.now.sets i }
{
    write_lasts(block.ops.as_slice(), block.end, w, late);
    lower_all(block.arcs.as_slice(), late);
}
