//! Whether the frame flag, Enter and Leave agree with the use of the frame.

ghost use Rattle.std.specs.Prelude.{◌≡◌, ℕ, ◌<◌, ◌||◌, ◌↔◌, IsTrue, IfOk, All, true};
ghost use Rattle.std.specs.List.{list_any};
ghost use Rattle.un_model.specs.Solutions.{is_frame_access, starts_in_slot, uses_frame, HasFrame, KeepsFrameOrder, KeepsFrame};

use crate::bounds::keeps_frame_order;
use std::alloc::Global;
use un_base::memory_error::NoMemory;
use un_isa::op::Op;
use un_isa::reg::FIRST_SLOT;
use un_model::schedule::{Issue, LiveRange, Schedule};

/// Whether an operation is an active Spill or Reload.
fn is_frame_access(i: &Issue) -> bool
    ensures { result ≡ is_frame_access i.now.instr }
{
    match i.instr {
        Some(Op::Spill) | Some(Op::Reload) => true,
        _ => false,
    }
}

/// Whether a temporary is a value at a block's start that has a slot.
fn starts_in_slot(h: &LiveRange) -> bool
    ensures { result ≡ starts_in_slot h.now }
{
    h.active && h.instr.is_none() && FIRST_SLOT <= h.reg
}

/// Whether some operation is an active Spill or Reload.
fn any_access(issues: &[Issue]) -> bool
    ensures { result ≡ list_any (λ i. is_frame_access i.instr) issues.now }
{
    issues.iter().any(|i| is_frame_access(i))
}

/// Whether some value at a block's start has a slot.
fn any_start_in_slot(ranges: &[LiveRange]) -> bool
    ensures { result ≡ list_any starts_in_slot ranges.now }
{
    ranges.iter().any(|h| starts_in_slot(h))
}

/// Whether a schedule uses the frame.
fn uses_frame(t: &Schedule) -> bool
    ensures { result ≡ uses_frame t.now }
{
    any_access(t.issues.as_slice()) || any_start_in_slot(t.ranges.as_slice())
}

/// Whether an operation, where it is Enter or Leave, is active or not.
fn has_frame(active: bool, i: &Issue) -> bool
    ensures { IsTrue result ↔ HasFrame active i.now }
{
    !i.frame || i.active == active
}

/// Whether Enter and each Leave are active or not.
fn all_have_frame(active: bool, issues: &[Issue]) -> bool
    ensures { IsTrue result ↔ All (HasFrame active) issues.now }
{
    issues.iter().all(|i| has_frame(active, i))
}

/// Whether Enter and each Leave are active, and the uses of the frame stand between them.
fn is_framed(alloc: Global, n: usize, issues: &[Issue]) -> Result<bool, NoMemory>
    requires { All (λ i. i.block.0 < n) issues.now }
    ensures { IfOk result (λ kept. IsTrue kept ↔ (All (HasFrame true) issues.now × KeepsFrameOrder issues.now)) }
{
    if !all_have_frame(true, issues) {
        return Ok(false);
    }
    keeps_frame_order(alloc, n, issues)
}

/// Whether a schedule, whose operations are in the blocks below `n`, agrees with this frame flag.
pub(crate) fn keeps_frame(
    alloc: Global,
    n: usize,
    flag: u32,
    t: &Schedule,
) -> Result<bool, NoMemory>
    requires { All (λ i. i.block.0 < n) t.now.issues }
    ensures { IfOk result (λ kept. IsTrue kept ↔ KeepsFrame flag t.now) }
{
    if (flag == 1) != uses_frame(t) {
        return Ok(false);
    }
    match flag {
        0 => Ok(all_have_frame(false, t.issues.as_slice())),
        1 => { is_framed(alloc, n, t.issues.as_slice()) }
        _ => Ok(true),
    }
}
