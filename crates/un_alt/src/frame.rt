//! The frame: its flag, Enter and Leave agree with its use.

ghost use Rattle.std.specs.Prelude.{◌≡◌, ◌&&◌, not, nat_lt, slice_index};
ghost use Rattle.un_base.specs.declared.ids.VarId.{VarId};
ghost use Rattle.std.specs.List.{list_any, list_all};
ghost use Rattle.un_prop.specs.LastLaws.{Ascend};
ghost use Rattle.un_alt.specs.Frame.{is_access, is_slot, uses_frame, is_on, all_on, none_on, counts, is_after, is_until, is_left, in_order};
ghost use Rattle.un_alt.specs.Frame.{enter_on, enter_off, all_entered};
ghost use Rattle.un_alt.specs.Frame.{FrameVars};

use crate::frame_cuts::keep_frame;
use un_base::ids::VarId;
use un_domains::window::Window;
use un_ir::extended::{RELOAD, SPILL};
use un_isa::reg::FIRST_SLOT;
use un_lists::items::Items;
use un_prop::act::{Act, number, value};
use un_prop::last::check_last;
use un_prop::propagator::{Predicate, Propagator, Pruned, Scratch};

/// Enter or a Leave.
#[derive(Clone, Copy)]
pub struct FrameOp {
    /// The variable of its instruction: 1 where it is active, else 0.
    pub instr: VarId,
    /// The variable of its cycle.
    pub at: VarId,
}

/// An operation that needs the frame where the number of its instruction is within bounds.
#[derive(Clone, Copy)]
pub struct FrameUse {
    /// The activity that gives the number of its instruction; a call, which is always active, has 1.
    pub instr: Act,
    /// The least number with which it needs the frame: that of Spill for a copy, 1 for a call or a Leave.
    pub least: u32,
    /// The greatest number with which it needs the frame: that of Reload for a copy, 1 for a call or a Leave.
    pub most: u32,
    /// The variable of its cycle.
    pub at: VarId,
}

/// A Leave with what has to issue before it in its block.
#[derive(Drop)]
pub struct FrameLeave {
    /// The Leave itself.
    pub leave: FrameOp,
    /// The copies of its block: where they need the frame, they issue no later than it.
    pub copies: Items<FrameUse>,
    /// The variables of the cycles of its block's calls, which issue before it.
    pub calls: Items<VarId>,
}

/// Whether a copy is a Spill or a Reload.
fn accesses(fixed: &[u32], v: VarId) -> bool
    ensures { result ≡ is_access fixed.now v }
{
    let n = value(fixed, v);
    SPILL <= n && n <= RELOAD
}

/// Whether one of these copies is a Spill or a Reload.
fn any_access(fixed: &[u32], touch: &[VarId]) -> bool
    ensures { result ≡ list_any (is_access fixed.now) touch.now }
{
    touch.iter().any(|v| accesses(fixed, *v))
}

/// Whether a value at a block's start has a slot.
fn any_slot(fixed: &[u32], ins: &[VarId]) -> bool
    ensures { result ≡ list_any (is_slot fixed.now) ins.now }
{
    ins.iter().any(|v| value(fixed, *v) >= FIRST_SLOT)
}

/// Whether a copy is a Spill or a Reload, or a value at a block's start has a slot.
fn uses(fixed: &[u32], touch: &[VarId], ins: &[VarId]) -> bool
    ensures { result ≡ uses_frame touch.now ins.now fixed.now }
{
    if any_access(fixed, touch) {
        return true;
    }
    any_slot(fixed, ins)
}

/// Whether Enter or a Leave is active.
fn is_on(fixed: &[u32], op: FrameOp) -> bool
    ensures { result ≡ is_on fixed.now op }
{
    value(fixed, op.instr) != 0
}

/// Whether every Leave is active.
fn leaves_on(fixed: &[u32], leaves: &[FrameLeave]) -> bool
    ensures { result ≡ list_all (λ (l : FrameLeave). is_on fixed.now l.leave) leaves.now }
{
    leaves.iter().all(|l| is_on(fixed, l.leave))
}

/// Whether no Leave is active.
fn leaves_off(fixed: &[u32], leaves: &[FrameLeave]) -> bool
    ensures { result ≡ list_all (λ (l : FrameLeave). not (is_on fixed.now l.leave)) leaves.now }
{
    leaves.iter().all(|l| !is_on(fixed, l.leave))
}

/// Whether Enter, where there is one, is active.
fn enter_on(fixed: &[u32], enter: Option<FrameOp>) -> bool
    ensures { result ≡ enter_on fixed.now enter }
{
    match enter {
        None => true,
        Some(op) => is_on(fixed, op),
    }
}

/// Whether Enter, where there is one, is inactive.
fn enter_off(fixed: &[u32], enter: Option<FrameOp>) -> bool
    ensures { result ≡ enter_off fixed.now enter }
{
    match enter {
        None => true,
        Some(op) => !is_on(fixed, op),
    }
}

/// Whether Enter, where there is one, and every Leave are active.
fn all_on(fixed: &[u32], enter: Option<FrameOp>, leaves: &[FrameLeave]) -> bool
    ensures { result ≡ all_on enter leaves.now fixed.now }
{
    if !enter_on(fixed, enter) {
        return false;
    }
    leaves_on(fixed, leaves)
}

/// Whether neither Enter nor any Leave is active.
fn none_on(fixed: &[u32], enter: Option<FrameOp>, leaves: &[FrameLeave]) -> bool
    ensures { result ≡ none_on enter leaves.now fixed.now }
{
    if !enter_off(fixed, enter) {
        return false;
    }
    leaves_off(fixed, leaves)
}

/// Whether an operation needs the frame.
fn counts(fixed: &[u32], u: FrameUse) -> bool
    ensures { result ≡ counts fixed.now u }
{
    let n = number(fixed, u.instr);
    u.least <= n && n <= u.most
}

/// Whether an operation does not need the frame, or issues after `t`.
fn is_after(fixed: &[u32], t: u32, u: FrameUse) -> bool
    ensures { result ≡ is_after t fixed.now u }
{
    if !counts(fixed, u) {
        return true;
    }
    t < value(fixed, u.at)
}

/// Whether an operation does not need the frame, or issues at `t` or before.
fn is_until(fixed: &[u32], t: u32, u: FrameUse) -> bool
    ensures { result ≡ is_until t fixed.now u }
{
    if !counts(fixed, u) {
        return true;
    }
    value(fixed, u.at) <= t
}

/// Whether no operation that needs the frame issues after `t`.
fn all_until(fixed: &[u32], t: u32, copies: &[FrameUse]) -> bool
    ensures { result ≡ list_all (is_until t fixed.now) copies.now }
{
    copies.iter().all(|u| is_until(fixed, t, *u))
}

/// Whether each call issues before `t`.
fn all_before(fixed: &[u32], t: u32, calls: &[VarId]) -> bool
    ensures { result ≡ list_all (λ (v : VarId). nat_lt (slice_index fixed.now v.0) t) calls.now }
{
    calls.iter().all(|v| value(fixed, *v) < t)
}

/// Whether all that needs the frame issues after `t`.
fn all_after(fixed: &[u32], t: u32, entry: &[FrameUse]) -> bool
    ensures { result ≡ list_all (is_after t fixed.now) entry.now }
{
    entry.iter().all(|u| is_after(fixed, t, *u))
}

/// Whether no copy that needs the frame issues after Leave, and each call before it.
fn is_left(fixed: &[u32], l: &FrameLeave) -> bool
    ensures { result ≡ is_left fixed.now l.now }
{
    let t = value(fixed, l.leave.at);
    if !all_until(fixed, t, l.copies.as_slice()) {
        return false;
    }
    all_before(fixed, t, l.calls.as_slice())
}

/// Whether every Leave is in order.
fn all_left(fixed: &[u32], leaves: &[FrameLeave]) -> bool
    ensures { result ≡ list_all (is_left fixed.now) leaves.now }
{
    leaves.iter().all(|l| is_left(fixed, l))
}

/// Whether what needs the frame in the entry block issues after Enter, where Enter is there.
fn all_entered(fixed: &[u32], enter: Option<FrameOp>, entry: &[FrameUse]) -> bool
    ensures { result ≡ all_entered enter entry.now fixed.now }
{
    match enter {
        None => true,
        Some(op) => all_after(fixed, value(fixed, op.at), entry),
    }
}

/// Whether what needs the frame in the entry block issues after Enter, and every Leave is in order.
fn in_order(
    fixed: &[u32],
    enter: Option<FrameOp>,
    entry: &[FrameUse],
    leaves: &[FrameLeave],
) -> bool
    ensures { result ≡ in_order enter entry.now leaves.now fixed.now }
{
    if !all_entered(fixed, enter, entry) {
        return false;
    }
    all_left(fixed, leaves)
}

/// Whether Enter and every Leave are active and in order.
fn stands(fixed: &[u32], enter: Option<FrameOp>, entry: &[FrameUse], leaves: &[FrameLeave]) -> bool
    ensures { result ≡ all_on enter leaves.now fixed.now && in_order enter entry.now leaves.now fixed.now }
{
    if !all_on(fixed, enter, leaves) {
        return false;
    }
    in_order(fixed, enter, entry, leaves)
}

/// Where a copy of `touch` is a Spill or a Reload, or a value of `ins` at a block's start has a slot, `flag` is 1; and where `is_whole`,
/// it is 1 there alone. Where it is 1, `enter` and every Leave of `leaves` are active; what needs the frame in the entry block, `entry`,
/// issues after Enter; in a block with a Leave no copy that needs the frame issues after it, and each call before it. Where `flag` is 0,
/// Enter and Leave are inactive.
#[derive(Drop)]
pub struct Frame {
    /// Whether all of the function is here. A part of it may have the flag set for a use elsewhere.
    pub is_whole: bool,
    /// The variable of the frame flag: 1 where the code has a frame, else 0.
    pub flag: VarId,
    /// The variables of the instructions of the copies.
    pub touch: Items<VarId>,
    /// The variables of the registers of the values at blocks' starts.
    pub ins: Items<VarId>,
    /// Enter, where the entry block is here.
    pub enter: Option<FrameOp>,
    /// What issues after Enter where it needs the frame: the copies and calls of the entry block, and its Leave.
    pub entry: Items<FrameUse>,
    /// Each Leave, with what has to issue before it.
    pub leaves: Items<FrameLeave>,
    /// The variables of all other fields, rising, each once: it reads these, and cuts these alone.
    pub vars: Items<VarId>,
    ghost ascend: { Ascend vars },
    ghost among: { FrameVars vars flag touch ins enter entry leaves },
}

impl Predicate for Frame {
    ghost use Rattle.un_alt.specs.Frame.{frame_holds};
    ghost use Rattle.un_alt.specs.FrameLaws.{frame_looks};

    ghost scope = { λ p. p.vars };

    ghost holds = { λ p x. frame_holds p.is_whole p.flag p.touch p.ins p.enter p.entry p.leaves x };

    fn reads(&self) -> &[VarId] {
        self.vars.as_slice()
    }

    fn test(&self, fixed: &[u32]) -> bool {
        let used = uses(fixed, self.touch.as_slice(), self.ins.as_slice());
        match value(fixed, self.flag) {
            1 => {
                if self.is_whole && !used {
                    return false;
                }
                stands(
                    fixed,
                    self.enter,
                    self.entry.as_slice(),
                    self.leaves.as_slice(),
                )
            }
            0 => {
                if used {
                    return false;
                }
                none_on(fixed, self.enter, self.leaves.as_slice())
            }
            _ => !used,
        }
    }

    ghost looks = { λ p x y same. frame_looks p.vars x y same p.is_whole p.flag p.touch p.ins p.enter p.entry p.leaves p.among };
}

impl Propagator for Frame {
    ghost use Rattle.un_prop.specs.Last.{last_cut};
    ghost use Rattle.un_prop.specs.PartLaws.{one_part, one_whole, lawful_checked, keeps_checked, forward_checked};
    ghost use Rattle.std.specs.Prelude.{option_and_then};
    ghost use Rattle.un_prop.specs.WithinLaws.{one_within};
    ghost use Rattle.un_alt.specs.Frame.{frame_holds};
    ghost use Rattle.un_alt.specs.FrameLaws.{frame_looks};
    ghost use Rattle.un_alt.specs.FrameCuts.{frame_steps};
    ghost use Rattle.un_alt.specs.FrameCutLaws.{frame_lawful, frame_keeps};

    ghost cut = { λ p s. option_and_then (last_cut p.vars (frame_holds p.is_whole p.flag p.touch p.ins p.enter p.entry p.leaves))
        (frame_steps p.flag p.touch p.ins p.enter p.entry p.leaves s) };

    ghost parts = { λ p. one_part p.vars (frame_holds p.is_whole p.flag p.touch p.ins p.enter p.entry p.leaves) };

    ghost strong = { λ p s. Unit {0} };

    ghost span = { λ p. 0 };

    fn prune_in(&self, w: &mut Window<'_>, scratch: &mut Scratch) -> Pruned {
        let did = keep_frame(w, self);
        check_last(self, w, scratch, did)
    }

    ghost keeps = { λ p s x k full there holds. keeps_checked p.vars (frame_holds p.is_whole p.flag p.touch p.ins p.enter p.entry p.leaves)
        (λ x y same. frame_looks p.vars x y same p.is_whole p.flag p.touch p.ins p.enter p.entry p.leaves p.among) p.ascend
        (frame_steps p.flag p.touch p.ins p.enter p.entry p.leaves)
        (frame_lawful p.vars p.flag p.touch p.ins p.enter p.entry p.leaves p.among) s x k
        (frame_keeps p.vars p.flag p.touch p.ins p.enter p.entry p.leaves p.among p.is_whole s x k there holds) there.long holds };

    ghost lawful = { λ p. lawful_checked p.vars (frame_holds p.is_whole p.flag p.touch p.ins p.enter p.entry p.leaves)
        (λ x y same. frame_looks p.vars x y same p.is_whole p.flag p.touch p.ins p.enter p.entry p.leaves p.among) p.ascend
        (frame_steps p.flag p.touch p.ins p.enter p.entry p.leaves)
        (frame_lawful p.vars p.flag p.touch p.ins p.enter p.entry p.leaves p.among) };

    ghost whole = { λ p x. one_whole p.vars (frame_holds p.is_whole p.flag p.touch p.ins p.enter p.entry p.leaves) x };

    ghost within = { λ p. one_within p.vars (frame_holds p.is_whole p.flag p.touch p.ins p.enter p.entry p.leaves) };

    ghost forward = { λ p. forward_checked p.vars (frame_holds p.is_whole p.flag p.touch p.ins p.enter p.entry p.leaves)
        (λ x y same. frame_looks p.vars x y same p.is_whole p.flag p.touch p.ins p.enter p.entry p.leaves p.among) p.ascend
        (frame_steps p.flag p.touch p.ins p.enter p.entry p.leaves)
        (frame_lawful p.vars p.flag p.touch p.ins p.enter p.entry p.leaves p.among) };

    ghost strength = { λ p s k full words grounded e. tt };
}
