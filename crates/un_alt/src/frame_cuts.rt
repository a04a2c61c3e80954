//! What the frame lets a store keep, as steps of a pruning.

ghost use Rattle.std.specs.Prelude.{◌≡◌, ◌≢◌, ◌<◌, ◌≤◌, Contains, length, true};
ghost use Rattle.std.specs.List.{list_any};
ghost use Rattle.un_base.specs.declared.ids.VarId.{VarId};
ghost use Rattle.un_domains.specs.Sets.{NoneEmpty, set_at};
ghost use Rattle.un_prop.specs.Among.{among};
ghost use Rattle.un_prop.specs.Going.{Stepped};
ghost use Rattle.un_prop.specs.Rounds.{HasVars, round};
ghost use Rattle.un_prop.specs.When.{is_only, when_cut, other_than, up_to};
ghost use Rattle.un_prop.specs.declared.propagator.Pruned.TheVariants.{Failed, Same};
ghost use Rattle.un_alt.specs.Frame.{FrameOpVars, FrameUseVars, FrameLeaveVars};
ghost use Rattle.un_alt.specs.FrameCuts.{is_within, is_unused, sure_use, flag_cut, touch_cut, slot_cut, op_cut, leave_op_cut, entry_cut, copy_cut};
ghost use Rattle.un_alt.specs.FrameCuts.{call_cut, left_cut, use_steps, op_steps, order_steps, frame_steps, enter_cut, entry_steps};

use crate::frame::{Frame, FrameLeave, FrameOp, FrameUse};
use crate::order::{Order, is_within, keep_order};
use un_base::ids::VarId;
use un_domains::window::Window;
use un_ir::extended::{RELOAD, SPILL};
use un_isa::reg::FIRST_SLOT;
use un_prop::act::Act;
use un_prop::propagator::Pruned;
use un_prop::step::keep_eq;
use un_prop::when::{drop_when, is_only, keep_le_when};

/// Whether one of these variables has only values from `low` to `high`.
fn any_within(w: &Window<'_>, vars: &[VarId], low: u32, high: u32) -> bool
    requires known { HasVars vars.now w.now.store.now.sets }
    requires live { NoneEmpty w.now.store.now.sets }
    ensures { result ≡ list_any (λ (v : VarId). is_within low high (set_at w.now.store.now.sets v.0)) vars.now }
{
    for v in vars {
        if is_within(w, *v, low, high) {
            return true;
        }
    }
    false
}

/// Whether the frame is used for sure.
fn sure_use(w: &Window<'_>, touch: &[VarId], ins: &[VarId]) -> bool
    requires of_touch { HasVars touch.now w.now.store.now.sets }
    requires of_ins { HasVars ins.now w.now.store.now.sets }
    requires live { NoneEmpty w.now.store.now.sets }
    ensures { result ≡ sure_use touch.now ins.now w.now.store.now.sets }
{
    if any_within(w, touch, SPILL, RELOAD) {
        return true;
    }
    any_within(w, ins, FIRST_SLOT, u32::MAX)
}

/// Where the frame is used for sure, the flag is 1.
fn keep_flag(w: &mut Window<'_>, p: &Frame) -> Pruned
    requires vars { w.old.vars.now ≡ p.now.vars }
    requires known { HasVars p.now.vars w.old.store.now.sets }
    requires live { NoneEmpty w.old.store.now.sets }
    ensures step { Stepped w.old.vars.now (flag_cut p.now.flag p.now.touch p.now.ins) w.old.store.now w.new.store.now Same result }
    ensures same_reference { w.new.store.ghost_name ≡ w.old.store.ghost_name }
    ensures vars { w.new.vars ≡ w.old.vars }
{
    let touch = p.touch.as_slice();
    let ins = p.ins.as_slice();
    if !sure_use(w, touch, ins) {
        return Pruned::Same;
    }
    keep_eq(w, Pruned::Same, p.flag, 1)
}

/// Whether the flag is not 1.
fn is_unused(w: &Window<'_>, p: &Frame) -> bool
    requires { HasVars p.now.vars w.now.store.now.sets }
    ensures { result ≡ is_unused p.now.flag w.now.store.now.sets }
{
    !w.has(p.flag, 1)
}

/// Where the flag is not 1, a copy is no Spill and no Reload. One that can be neither any more is left alone: so are most.
fn keep_copy(w: &mut Window<'_>, before: Pruned, p: &Frame, v: VarId) -> Pruned
    requires vars { w.old.vars.now ≡ p.now.vars }
    requires of_v { among p.now.vars v ≡ true }
    requires known { HasVars p.now.vars w.old.store.now.sets }
    requires live { before ≢ Failed → NoneEmpty w.old.store.now.sets }
    ensures step { Stepped w.old.vars.now (touch_cut p.now.flag v) w.old.store.now w.new.store.now before result }
    ensures same_reference { w.new.store.ghost_name ≡ w.old.store.ghost_name }
    ensures vars { w.new.vars ≡ w.old.vars }
{
    if before == Pruned::Failed {
        return before;
    }
    if w.max(v) < SPILL {
        return before;
    }
    let unused = is_unused(w, p);
    let first = drop_when(w, before, unused, v, SPILL);
    let still = is_unused(w, p);
    drop_when(w, first, still, v, RELOAD)
}

/// Where the flag is not 1, no copy is a Spill or a Reload.
fn keep_copies(w: &mut Window<'_>, before: Pruned, p: &Frame) -> Pruned
    requires vars { w.old.vars.now ≡ p.now.vars }
    requires known { HasVars p.now.vars w.old.store.now.sets }
    requires live { before ≢ Failed → NoneEmpty w.old.store.now.sets }
    ensures step { Stepped w.old.vars.now (round (touch_cut p.now.flag) p.now.touch) w.old.store.now w.new.store.now before result }
    ensures same_reference { w.new.store.ghost_name ≡ w.old.store.ghost_name }
    ensures vars { w.new.vars ≡ w.old.vars }
{
    if before == Pruned::Failed {
        return before;
    }
    if !is_unused(w, p) {
        return before;
    }
    let touch = p.touch.as_slice();
    let mut did = before;
    for v in touch {
        did = keep_copy(w, did, p, *v);
    }
    did
}

/// Where the flag is not 1, a value at a block's start has no slot. One that can have none any more is left alone.
fn keep_value(w: &mut Window<'_>, before: Pruned, p: &Frame, v: VarId) -> Pruned
    requires vars { w.old.vars.now ≡ p.now.vars }
    requires of_v { among p.now.vars v ≡ true }
    requires known { HasVars p.now.vars w.old.store.now.sets }
    requires live { before ≢ Failed → NoneEmpty w.old.store.now.sets }
    ensures step { Stepped w.old.vars.now (slot_cut p.now.flag v) w.old.store.now w.new.store.now before result }
    ensures same_reference { w.new.store.ghost_name ≡ w.old.store.ghost_name }
    ensures vars { w.new.vars ≡ w.old.vars }
{
    if before == Pruned::Failed {
        return before;
    }
    if w.max(v) < FIRST_SLOT {
        return before;
    }
    let unused = is_unused(w, p);
    keep_le_when(w, before, unused, v, FIRST_SLOT - 1)
}

/// Where the flag is not 1, no value at a block's start has a slot.
fn keep_values(w: &mut Window<'_>, before: Pruned, p: &Frame) -> Pruned
    requires vars { w.old.vars.now ≡ p.now.vars }
    requires known { HasVars p.now.vars w.old.store.now.sets }
    requires live { before ≢ Failed → NoneEmpty w.old.store.now.sets }
    ensures step { Stepped w.old.vars.now (round (slot_cut p.now.flag) p.now.ins) w.old.store.now w.new.store.now before result }
    ensures same_reference { w.new.store.ghost_name ≡ w.old.store.ghost_name }
    ensures vars { w.new.vars ≡ w.old.vars }
{
    if before == Pruned::Failed {
        return before;
    }
    if !is_unused(w, p) {
        return before;
    }
    let ins = p.ins.as_slice();
    let mut did = before;
    for v in ins {
        did = keep_value(w, did, p, *v);
    }
    did
}

/// Where the flag is 0, Enter or a Leave is inactive.
fn keep_off(w: &mut Window<'_>, before: Pruned, p: &Frame, op: FrameOp) -> Pruned
    requires vars { w.old.vars.now ≡ p.now.vars }
    requires of_op { FrameOpVars p.now.vars op }
    requires known { HasVars p.now.vars w.old.store.now.sets }
    requires live { before ≢ Failed → NoneEmpty w.old.store.now.sets }
    ensures step { Stepped w.old.vars.now (when_cut (is_only p.now.flag 0) (up_to 0) op.instr) w.old.store.now w.new.store.now before result }
    ensures same_reference { w.new.store.ghost_name ≡ w.old.store.ghost_name }
    ensures vars { w.new.vars ≡ w.old.vars }
{
    if before == Pruned::Failed {
        return before;
    }
    let off = is_only(w, p.flag, 0);
    keep_le_when(w, before, off, op.instr, 0)
}

/// Where the flag is 1, Enter or a Leave is active.
fn keep_on(w: &mut Window<'_>, before: Pruned, p: &Frame, op: FrameOp) -> Pruned
    requires vars { w.old.vars.now ≡ p.now.vars }
    requires of_op { FrameOpVars p.now.vars op }
    requires known { HasVars p.now.vars w.old.store.now.sets }
    requires live { before ≢ Failed → NoneEmpty w.old.store.now.sets }
    ensures step { Stepped w.old.vars.now (when_cut (is_only p.now.flag 1) (other_than 0) op.instr) w.old.store.now w.new.store.now
        before result }
    ensures same_reference { w.new.store.ghost_name ≡ w.old.store.ghost_name }
    ensures vars { w.new.vars ≡ w.old.vars }
{
    if before == Pruned::Failed {
        return before;
    }
    let on = is_only(w, p.flag, 1);
    drop_when(w, before, on, op.instr, 0)
}

/// Enter or a Leave is active as the flag says.
fn keep_op(w: &mut Window<'_>, before: Pruned, p: &Frame, op: FrameOp) -> Pruned
    requires vars { w.old.vars.now ≡ p.now.vars }
    requires of_op { FrameOpVars p.now.vars op }
    requires known { HasVars p.now.vars w.old.store.now.sets }
    requires live { before ≢ Failed → NoneEmpty w.old.store.now.sets }
    ensures step { Stepped w.old.vars.now (op_cut p.now.flag op) w.old.store.now w.new.store.now before result }
    ensures same_reference { w.new.store.ghost_name ≡ w.old.store.ghost_name }
    ensures vars { w.new.vars ≡ w.old.vars }
{
    let first = keep_off(w, before, p, op);
    keep_on(w, first, p, op)
}

/// Enter, where there is one, is active as the flag says.
fn keep_enter(w: &mut Window<'_>, before: Pruned, p: &Frame) -> Pruned
    requires vars { w.old.vars.now ≡ p.now.vars }
    requires known { HasVars p.now.vars w.old.store.now.sets }
    requires live { before ≢ Failed → NoneEmpty w.old.store.now.sets }
    ensures step { Stepped w.old.vars.now (enter_cut p.now.flag p.now.enter) w.old.store.now w.new.store.now before result }
    ensures same_reference { w.new.store.ghost_name ≡ w.old.store.ghost_name }
    ensures vars { w.new.vars ≡ w.old.vars }
{
    match p.enter {
        None => before,
        Some(op) => keep_op(w, before, p, op),
    }
}

/// Every Leave is active as the flag says.
fn keep_leaves(w: &mut Window<'_>, before: Pruned, p: &Frame) -> Pruned
    requires vars { w.old.vars.now ≡ p.now.vars }
    requires known { HasVars p.now.vars w.old.store.now.sets }
    requires live { before ≢ Failed → NoneEmpty w.old.store.now.sets }
    ensures step { Stepped w.old.vars.now (round (leave_op_cut p.now.flag) p.now.leaves) w.old.store.now w.new.store.now before result }
    ensures same_reference { w.new.store.ghost_name ≡ w.old.store.ghost_name }
    ensures vars { w.new.vars ≡ w.old.vars }
{
    let leaves = p.leaves.as_slice();
    let mut did = before;
    for l in leaves {
        did = keep_op(w, did, p, l.leave);
    }
    did
}

/// Where the flag is 1, what surely needs the frame in the entry block is after Enter.
fn keep_after(w: &mut Window<'_>, before: Pruned, p: &Frame, enter: FrameOp) -> Pruned
    requires vars { w.old.vars.now ≡ p.now.vars }
    requires of_enter { FrameOpVars p.now.vars enter }
    requires known { HasVars p.now.vars w.old.store.now.sets }
    requires live { before ≢ Failed → NoneEmpty w.old.store.now.sets }
    ensures step { Stepped w.old.vars.now (round (entry_cut p.now.flag enter) p.now.entry) w.old.store.now w.new.store.now
        before result }
    ensures same_reference { w.new.store.ghost_name ≡ w.old.store.ghost_name }
    ensures vars { w.new.vars ≡ w.old.vars }
{
    if before == Pruned::Failed {
        return before;
    }
    if !is_only(w, p.flag, 1) {
        return before;
    }
    let entry = p.entry.as_slice();
    let mut did = before;
    for u in entry {
        let order = Order {
            from: enter.at,
            to: u.at,
            gap: 1,
            instr: u.instr,
            least: u.least,
            most: u.most,
        };
        did = keep_order(w, did, p, order);
    }
    did
}

/// The entry block, where Enter is there.
fn keep_entry(w: &mut Window<'_>, before: Pruned, p: &Frame) -> Pruned
    requires vars { w.old.vars.now ≡ p.now.vars }
    requires known { HasVars p.now.vars w.old.store.now.sets }
    requires live { before ≢ Failed → NoneEmpty w.old.store.now.sets }
    ensures step { Stepped w.old.vars.now (entry_steps p.now.flag p.now.enter p.now.entry) w.old.store.now w.new.store.now before result }
    ensures same_reference { w.new.store.ghost_name ≡ w.old.store.ghost_name }
    ensures vars { w.new.vars ≡ w.old.vars }
{
    match p.enter {
        None => before,
        Some(op) => keep_after(w, before, p, op),
    }
}

/// Where the flag is 1, a copy that surely needs the frame is not after Leave.
fn keep_last_copies(w: &mut Window<'_>, before: Pruned, p: &Frame, l: &FrameLeave) -> Pruned
    requires vars { w.old.vars.now ≡ p.now.vars }
    requires of_leave { FrameLeaveVars p.now.vars l.now }
    requires known { HasVars p.now.vars w.old.store.now.sets }
    requires live { before ≢ Failed → NoneEmpty w.old.store.now.sets }
    ensures step { Stepped w.old.vars.now (round (copy_cut p.now.flag l.now.leave) l.now.copies) w.old.store.now w.new.store.now
        before result }
    ensures same_reference { w.new.store.ghost_name ≡ w.old.store.ghost_name }
    ensures vars { w.new.vars ≡ w.old.vars }
{
    let copies = l.copies.as_slice();
    let mut did = before;
    for u in copies {
        let order = Order {
            from: u.at,
            to: l.leave.at,
            gap: 0,
            instr: u.instr,
            least: u.least,
            most: u.most,
        };
        did = keep_order(w, did, p, order);
    }
    did
}

/// Where the flag is 1, a call is before Leave.
fn keep_calls(w: &mut Window<'_>, before: Pruned, p: &Frame, l: &FrameLeave) -> Pruned
    requires vars { w.old.vars.now ≡ p.now.vars }
    requires of_leave { FrameLeaveVars p.now.vars l.now }
    requires known { HasVars p.now.vars w.old.store.now.sets }
    requires live { before ≢ Failed → NoneEmpty w.old.store.now.sets }
    ensures step { Stepped w.old.vars.now (round (call_cut p.now.flag l.now.leave) l.now.calls) w.old.store.now w.new.store.now
        before result }
    ensures same_reference { w.new.store.ghost_name ≡ w.old.store.ghost_name }
    ensures vars { w.new.vars ≡ w.old.vars }
{
    let calls = l.calls.as_slice();
    let mut did = before;
    for v in calls {
        let order = Order {
            from: *v,
            to: l.leave.at,
            gap: 1,
            instr: Act::Always,
            least: 1,
            most: 1,
        };
        did = keep_order(w, did, p, order);
    }
    did
}

/// The copies and the calls of a block with Leave.
fn keep_left(w: &mut Window<'_>, before: Pruned, p: &Frame, l: &FrameLeave) -> Pruned
    requires vars { w.old.vars.now ≡ p.now.vars }
    requires of_leave { FrameLeaveVars p.now.vars l.now }
    requires known { HasVars p.now.vars w.old.store.now.sets }
    requires live { before ≢ Failed → NoneEmpty w.old.store.now.sets }
    ensures step { Stepped w.old.vars.now (left_cut p.now.flag l.now) w.old.store.now w.new.store.now before result }
    ensures same_reference { w.new.store.ghost_name ≡ w.old.store.ghost_name }
    ensures vars { w.new.vars ≡ w.old.vars }
{
    let first = keep_last_copies(w, before, p, l);
    keep_calls(w, first, p, l)
}

/// The copies and the calls of each block with Leave.
fn keep_all_left(w: &mut Window<'_>, before: Pruned, p: &Frame) -> Pruned
    requires vars { w.old.vars.now ≡ p.now.vars }
    requires known { HasVars p.now.vars w.old.store.now.sets }
    requires live { before ≢ Failed → NoneEmpty w.old.store.now.sets }
    ensures step { Stepped w.old.vars.now (round (left_cut p.now.flag) p.now.leaves) w.old.store.now w.new.store.now before result }
    ensures same_reference { w.new.store.ghost_name ≡ w.old.store.ghost_name }
    ensures vars { w.new.vars ≡ w.old.vars }
{
    if before == Pruned::Failed {
        return before;
    }
    if !is_only(w, p.flag, 1) {
        return before;
    }
    let leaves = p.leaves.as_slice();
    let mut did = before;
    for l in leaves {
        did = keep_left(w, did, p, l);
    }
    did
}

/// The flag by the use of the frame, and the use by the flag.
fn keep_use(w: &mut Window<'_>, p: &Frame) -> Pruned
    requires vars { w.old.vars.now ≡ p.now.vars }
    requires known { HasVars p.now.vars w.old.store.now.sets }
    requires live { NoneEmpty w.old.store.now.sets }
    ensures step { Stepped w.old.vars.now (use_steps p.now.flag p.now.touch p.now.ins) w.old.store.now w.new.store.now Same result }
    ensures same_reference { w.new.store.ghost_name ≡ w.old.store.ghost_name }
    ensures vars { w.new.vars ≡ w.old.vars }
{
    let first = keep_flag(w, p);
    let second = keep_copies(w, first, p);
    keep_values(w, second, p)
}

/// All that the frame lets a store keep.
pub(crate) fn keep_frame(w: &mut Window<'_>, p: &Frame) -> Pruned
    requires vars { w.old.vars.now ≡ p.now.vars }
    requires known { HasVars p.now.vars w.old.store.now.sets }
    requires live { NoneEmpty w.old.store.now.sets }
    ensures step { Stepped w.old.vars.now (frame_steps p.now.flag p.now.touch p.now.ins p.now.enter p.now.entry p.now.leaves)
        w.old.store.now w.new.store.now Same result }
    ensures same_reference { w.new.store.ghost_name ≡ w.old.store.ghost_name }
    ensures vars { w.new.vars ≡ w.old.vars }
{
    let used = keep_use(w, p);
    let enter = keep_enter(w, used, p);
    let leaves = keep_leaves(w, enter, p);
    let entry = keep_entry(w, leaves, p);
    keep_all_left(w, entry, p)
}
