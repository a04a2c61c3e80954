//! Orders of two times that the frame asks for, and what they let a store keep.

ghost use Rattle.std.specs.Prelude.{◌≡◌, ◌≢◌, ◌<◌, ◌≤◌, length};
ghost use Rattle.un_domains.specs.Sets.{NoneEmpty, set_at};
ghost use Rattle.un_prop.specs.Acts.{act_vars};
ghost use Rattle.un_prop.specs.Going.{Stepped};
ghost use Rattle.un_prop.specs.Looks.{act_set};
ghost use Rattle.un_prop.specs.Rounds.{HasVars};
ghost use Rattle.un_prop.specs.When.{when_cut};
ghost use Rattle.un_prop.specs.declared.propagator.Pruned.TheVariants.{Failed};
ghost use Rattle.un_alt.specs.FrameCuts.{is_within, is_ordered, late_test, early_test, order_cut, OrderVars};

use crate::frame::Frame;
use un_base::ids::VarId;
use un_domains::window::Window;
use un_prop::act::Act;
use un_prop::propagator::Pruned;
use un_prop::step::{keep_gt, keep_le};
use un_prop::when::is_only;

/// Two times of which the second is late enough after the first, where an instruction is one of those that ask for it.
#[derive(Clone, Copy)]
pub struct Order {
    /// The variable of the first cycle.
    pub from: VarId,
    /// The variable of the second cycle.
    pub to: VarId,
    /// How many cycles the second is after the first, at least.
    pub gap: u32,
    /// The activity that gives the number of the instruction.
    pub instr: Act,
    /// The least number with which it asks for the gap.
    pub least: u32,
    /// The greatest number with which it asks for the gap.
    pub most: u32,
}

/// Whether all values of a variable are from `low` to `high`.
pub(crate) fn is_within(w: &Window<'_>, v: VarId, low: u32, high: u32) -> bool
    requires there { v.0 < length w.now.store.now.sets }
    requires live { NoneEmpty w.now.store.now.sets }
    ensures { result ≡ is_within low high (set_at w.now.store.now.sets v.0) }
{
    low <= w.min(v) && w.max(v) <= high
}

/// Whether an instruction has only numbers from `low` to `high`.
fn counts(w: &Window<'_>, instr: Act, low: u32, high: u32) -> bool
    requires known { HasVars (act_vars instr) w.now.store.now.sets }
    requires live { NoneEmpty w.now.store.now.sets }
    ensures { result ≡ is_within low high (act_set instr w.now.store.now.sets) }
{
    match instr {
        Act::Always => low <= 1 && 1 <= high,
        Act::Var(v) => is_within(w, v, low, high),
    }
}

/// Whether the flag is 1 and the instruction counts for sure.
fn is_ordered(w: &Window<'_>, p: &Frame, o: Order) -> bool
    requires of_order { OrderVars p.now.vars o }
    requires known { HasVars p.now.vars w.now.store.now.sets }
    requires live { NoneEmpty w.now.store.now.sets }
    ensures { result ≡ is_ordered p.now.flag o w.now.store.now.sets }
{
    if !is_only(w, p.flag, 1) {
        return false;
    }
    counts(w, o.instr, o.least, o.most)
}

/// The second is late enough for the least time of the first.
fn keep_late(w: &mut Window<'_>, before: Pruned, p: &Frame, o: Order) -> Pruned
    requires gap { o.gap ≤ 1 }
    requires vars { w.old.vars.now ≡ p.now.vars }
    requires of_order { OrderVars p.now.vars o }
    requires known { HasVars p.now.vars w.old.store.now.sets }
    requires live { before ≢ Failed → NoneEmpty w.old.store.now.sets }
    ensures step { Stepped w.old.vars.now (when_cut (is_ordered p.now.flag o) (late_test o) o.to) w.old.store.now w.new.store.now before result }
    ensures same_reference { w.new.store.ghost_name ≡ w.old.store.ghost_name }
    ensures vars { w.new.vars ≡ w.old.vars }
{
    if before == Pruned::Failed {
        return before;
    }
    if !is_ordered(w, p, o) {
        return before;
    }
    let start = u64::from(w.min(o.from));
    let gap = u64::from(o.gap);
    let low = start + gap;
    let least = u64::from(w.min(o.to));
    if low <= least {
        return before;
    }
    let below = low - 1;
    keep_gt(w, before, o.to, below as u32)
}

/// The first is early enough for the greatest time of the second.
fn keep_early(w: &mut Window<'_>, before: Pruned, p: &Frame, o: Order) -> Pruned
    requires vars { w.old.vars.now ≡ p.now.vars }
    requires of_order { OrderVars p.now.vars o }
    requires known { HasVars p.now.vars w.old.store.now.sets }
    requires live { before ≢ Failed → NoneEmpty w.old.store.now.sets }
    ensures step { Stepped w.old.vars.now (when_cut (is_ordered p.now.flag o) (early_test o) o.from) w.old.store.now w.new.store.now
        before result }
    ensures same_reference { w.new.store.ghost_name ≡ w.old.store.ghost_name }
    ensures vars { w.new.vars ≡ w.old.vars }
{
    if before == Pruned::Failed {
        return before;
    }
    if !is_ordered(w, p, o) {
        return before;
    }
    let high = w.max(o.to).saturating_sub(o.gap);
    keep_le(w, before, o.from, high)
}

/// All that an order lets a store keep.
pub(crate) fn keep_order(w: &mut Window<'_>, before: Pruned, p: &Frame, o: Order) -> Pruned
    requires gap { o.gap ≤ 1 }
    requires vars { w.old.vars.now ≡ p.now.vars }
    requires of_order { OrderVars p.now.vars o }
    requires known { HasVars p.now.vars w.old.store.now.sets }
    requires live { before ≢ Failed → NoneEmpty w.old.store.now.sets }
    ensures step { Stepped w.old.vars.now (order_cut p.now.flag o) w.old.store.now w.new.store.now before result }
    ensures same_reference { w.new.store.ghost_name ≡ w.old.store.ghost_name }
    ensures vars { w.new.vars ≡ w.old.vars }
{
    let first = keep_late(w, before, p, o);
    keep_early(w, first, p, o)
}
