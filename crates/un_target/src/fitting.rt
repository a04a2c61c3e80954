//! Which tables fit.

ghost use Rattle.std.specs.Prelude.{◌≡◌, ◌↔◌, ℕ, ◌<◌, IsTrue};
ghost use Rattle.un_isa.specs.declared.op.Op.{Op};
ghost use Rattle.un_isa.specs.Fit.{IsFit, AreFitNeeds, may_be_saved};
ghost use Rattle.un_isa.specs.Hexagon.{is_saved};
ghost use Rattle.un_isa.specs.Starts.{is_clobbered};
ghost use Rattle.un_isa.specs.Tables.{in_mask};
ghost use Rattle.un_target.specs.Fitting.{HasFitLatency, HasFitNeeds, IsFitRegister, HasFitRest};

use crate::latencies::is_fit_latency;
use crate::names::op_at;
use un_isa::op::{OPERATIONS, Op};
use un_isa::reg::{GENERALS, LINK, REGISTERS, STACK};
use un_isa::reg_set::is_in_mask;
use un_isa::table::{Needs, Table, hexagon, uses};

/// Whether each operation has a latency that it may have.
fn have_fit_latencies(t: &Table) -> bool
    ensures { IsTrue result ↔ ((op : Op) → HasFitLatency t.now op) }
{
    for number in 0..OPERATIONS {
        if !is_fit_latency(op_at(number), t.lat[number], t.fresh) {
            return false;
        }
    }
    true
}

/// Whether needs are 1 at most, and no less than the least ones.
fn are_fit_needs(least: &Needs, n: &Needs) -> bool
    ensures { IsTrue result ↔ AreFitNeeds least.now n.now }
{
    least.mem <= n.mem
        && n.mem <= 1
        && least.store <= n.store
        && n.store <= 1
        && least.xc <= n.xc
        && n.xc <= 1
        && least.control <= n.control
        && n.control <= 1
}

/// Whether an operation has needs that it may have.
fn has_fit_needs(t: &Table, op: Op) -> bool
    ensures { IsTrue result ↔ HasFitNeeds t.now op }
{
    are_fit_needs(&uses(&hexagon(), op), &uses(t, op))
}

/// Whether each operation has needs that it may have.
fn have_fit_needs(t: &Table) -> bool
    ensures { IsTrue result ↔ ((op : Op) → HasFitNeeds t.now op) }
{
    for number in 0..OPERATIONS {
        if !has_fit_needs(t, op_at(number)) {
            return false;
        }
    }
    true
}

/// Whether a call writes a register where it is not saved.
fn is_clobbered(r: u32) -> bool
    ensures { result ≡ is_clobbered r }
{
    r < 16 || r == 28 || r == LINK || GENERALS <= r
}

/// Whether HEXAGON saves a register.
fn is_saved(r: u32) -> bool
    ensures { result ≡ is_saved r }
{
    16 <= r && r <= 27
}

/// Whether a register may be saved.
fn may_be_saved(r: u32) -> bool
    ensures { result ≡ may_be_saved r }
{
    6 <= r && r < STACK
}

/// Whether a register may be saved or not, and clobbered or not.
fn is_fit_register(keeps: bool, spoils: bool, r: u32) -> bool
    ensures { IsTrue result ↔ IsFitRegister keeps spoils r }
{
    let least = is_saved(r);
    let most = may_be_saved(r);
    let clobbers = is_clobbered(r);
    if keeps {
        most && !spoils
    } else {
        !least && spoils == clobbers
    }
}

/// Whether each register is saved and clobbered as it may be.
fn have_fit_registers(t: &Table) -> bool
    ensures { IsTrue result ↔ ((r : ℕ) → r < REGISTERS → IsFitRegister (in_mask t.now.saved r) (in_mask t.now.clobbered r) r) }
{
    for r in 0..REGISTERS {
        if !is_fit_register(is_in_mask(t.saved, r), is_in_mask(t.clobbered, r), r) {
            return false;
        }
    }
    true
}

/// Whether masks have no bits but of registers, and arguments and result are where they are on HEXAGON.
fn has_fit_rest(t: &Table) -> bool
    ensures { IsTrue result ↔ HasFitRest t.now }
{
    t.clobbered < 1 << REGISTERS
        && t.saved < 1 << REGISTERS
        && t.args == [0, 1, 2, 3, 4, 5]
        && t.result == 0
}

/// Whether a table fits. It takes no memory.
pub fn fit(t: &Table) -> bool
    ensures { IsTrue result ↔ IsFit t.now }
{
    if !have_fit_latencies(t) {
        return false;
    }
    if !have_fit_needs(t) {
        return false;
    }
    if !have_fit_registers(t) {
        return false;
    }
    has_fit_rest(t)
}
