//! Whether the operations of a block have room before its greatest end.

ghost use Rattle.std.specs.Prelude.{◌≡◌, ◌+◌, ◌<◌, ◌≤◌, ◌^◌, length};
ghost use Rattle.un_domains.specs.Sets.{NoneEmpty, set_at, greatest};
ghost use Rattle.un_prop.specs.Going.{Stepped};
ghost use Rattle.un_prop.specs.Rounds.{HasVars};
ghost use Rattle.un_prop.specs.Pruning.{HasRoom};
ghost use Rattle.un_prop.specs.declared.propagator.Pruned.TheVariants.{Same};
ghost use Rattle.un_length.specs.Blocks.{BlockVars};
ghost use Rattle.un_length.specs.Windows.{earliest, latest};
ghost use Rattle.un_length.specs.Mixed.{fit_mixed};
ghost use Rattle.un_length.specs.Lengths.{is_near, length_test, length_cut};

use crate::block::Block;
use crate::crowd::{all_fit, in_order};
use crate::mixed::mixed_room;
use crate::window::{find_earliest, find_latest};
use un_domains::window::Window;
use un_prop::propagator::{Pruned, Scratch};
use un_prop::step::fail;

/// Whether the greatest end and the number of operations are together less than the horizon, and there is a variable for each.
fn is_near(block: &Block, w: &Window<'_>) -> bool
    requires vars { BlockVars w.now.vars.now block.now.ops block.now.end }
    requires known { HasVars w.now.vars.now w.now.store.now.sets }
    requires live { NoneEmpty w.now.store.now.sets }
    ensures { result ≡ is_near w.now.vars.now block.now.ops block.now.end block.now.horizon w.now.store.now.sets }
{
    let end = w.max(block.end) as usize;
    let count = block.ops.len();
    if end.saturating_add(count) >= block.horizon as usize {
        return false;
    }
    count <= w.vars.len()
}

/// Whether the operations have room between their earliest and their latest cycles.
fn have_room(block: &Block, w: &Window<'_>, cycles: &mut [u32], late: &mut [u32]) -> bool
    requires vars { BlockVars w.now.vars.now block.now.ops block.now.end }
    requires known { HasVars w.now.vars.now w.now.store.now.sets }
    requires live { NoneEmpty w.now.store.now.sets }
    requires near { greatest (set_at w.now.store.now.sets block.now.end.0) + length block.now.ops < block.now.horizon }
    requires cycles { block.now.horizon ≤ length cycles.old }
    requires late { length block.now.ops ≤ length late.old }
    ensures { result ≡ fit_mixed block.now.ops block.now.horizon (earliest block.now.ops block.now.arcs w.now.store.now.sets)
        (latest block.now.ops block.now.arcs block.now.end w.now.store.now.sets) }
{
    let greatest = w.max(block.end);
    let end = greatest + 1;
    let (counts, early) = cycles.split_at_mut(end as usize);
    find_earliest(block, w, early);
    find_latest(block, w, late);
    let ops = block.ops.as_slice();
    if !in_order(ops, early, late) {
        return false;
    }
    if !all_fit(ops, early, late, end, counts) {
        return false;
    }
    mixed_room(ops, early, late, end, counts)
}

/// Whether they have, where the end is near.
fn passes(block: &Block, w: &Window<'_>, scratch: &mut Scratch) -> bool
    requires vars { BlockVars w.now.vars.now block.now.ops block.now.end }
    requires known { HasVars w.now.vars.now w.now.store.now.sets }
    requires live { NoneEmpty w.now.store.now.sets }
    requires fixed { length w.now.vars.now ≤ length scratch.old.fixed.items }
    requires span { block.now.horizon ≤ length scratch.old.cycles.items }
    ensures test { result ≡ length_test w.now.vars.now block.now.ops block.now.arcs block.now.end block.now.horizon w.now.store.now.sets }
    ensures fixed { length scratch.new.fixed.items ≡ length scratch.old.fixed.items }
    ensures cycles { length scratch.new.cycles.items ≡ length scratch.old.cycles.items }
{
    if !is_near(block, w) {
        return true;
    }
    have_room(
        block,
        w,
        scratch.cycles.as_mut_slice(),
        scratch.fixed.as_mut_slice(),
    )
}

/// Fails where they have not.
pub(crate) fn keep_length(block: &Block, w: &mut Window<'_>, scratch: &mut Scratch) -> Pruned
    requires vars { BlockVars w.old.vars.now block.now.ops block.now.end }
    requires known { HasVars w.old.vars.now w.old.store.now.sets }
    requires live { NoneEmpty w.old.store.now.sets }
    requires fixed { length w.old.vars.now ≤ length scratch.old.fixed.items }
    requires span { block.now.horizon ≤ length scratch.old.cycles.items }
    ensures step { Stepped w.old.vars.now (length_cut w.old.vars.now block.now.ops block.now.arcs block.now.end block.now.horizon)
        w.old.store.now w.new.store.now Same result }
    ensures fixed { length scratch.new.fixed.items ≡ length scratch.old.fixed.items }
    ensures cycles { length scratch.new.cycles.items ≡ length scratch.old.cycles.items }
    ensures same_reference { w.new.store.ghost_name ≡ w.old.store.ghost_name }
    ensures vars { w.new.vars ≡ w.old.vars }
{
    if passes(block, w, scratch) {
        return Pruned::Same;
    }
    fail(w, Pruned::Same)
}
