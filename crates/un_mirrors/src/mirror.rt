//! Whether a leaf where a walk stands mirrors the left side of a branch above it.

ghost use Rattle.std.specs.Prelude.{◌≡◌, ◌↔◌, ◌<◌, ◌≤◌, ℕ, true, IsTrue, All, length, take};
ghost use Rattle.un_domains.specs.Sets.{Sets, set_at, has, NoneEmpty};
ghost use Rattle.un_domains.specs.Sides.{side_test};
ghost use Rattle.un_model.specs.Boxes.{root_of};
ghost use Rattle.un_model.specs.Variables.{IsModel};
ghost use Rattle.un_symm.specs.Exchanges.{exchanged};
ghost use Rattle.un_walk.specs.Stands.{IsStandAt};
ghost use Rattle.un_mirrors.specs.Exchanged.{AreRegisters, Passes, PassesExchanged, left_of};
ghost use Rattle.un_mirrors.specs.Mirrors.{IsMirror};

use crate::registers::Registers;
use un_domains::side::Side;
use un_domains::store::Store;
use un_isa::reg::Reg;
use un_model::model::Model;
use un_symm::interchangeable::interchangeable;
use un_tree::node::Decision;
use un_walk::stand::Stand;

/// Whether a value is on the side of a decision.
fn is_on(d: Decision, x: u32) -> bool
    ensures { result ≡ side_test d.side d.val x }
{
    match d.side {
        Side::AtMost => x <= d.val,
        Side::Above => x > d.val,
    }
}

/// Whether the values of a register variable, which are on the side of a decision, are on it with two registers exchanged.
fn passes(cuts: &Store, a: Reg, b: Reg, d: Decision) -> bool
    requires there { d.var.0 < length cuts.now.sets }
    requires alone { Passes cuts.now.sets d }
    ensures { IsTrue result ↔ ((x : ℕ) → has (set_at cuts.now.sets d.var.0) x ≡ true → side_test d.side d.val (exchanged a.0 b.0 x) ≡ true) }
{
    (!cuts.has(d.var, a.0) || is_on(d, b.0)) && (!cuts.has(d.var, b.0) || is_on(d, a.0))
}

/// Whether the values of the box are on the sides of the first decisions, with two registers exchanged.
fn pass_all(m: &Model, registers: &Registers, stand: &Stand, a: Reg, b: Reg, depth: usize) -> bool
    requires registers { AreRegisters m.now registers.now }
    requires at { IsStandAt (root_of m.now) stand.now }
    requires within { depth ≤ length stand.now.path.items }
    ensures { IsTrue result ↔ All (PassesExchanged m.now.temps a.0 b.0 stand.now.cuts.sets) (take depth stand.now.path.items) }
{
    let _ = m;
    for k in 0..depth {
        let d = stand.path[k];
        if registers.has(d.var) && !passes(&stand.cuts, a, b, d) {
            return false;
        }
    }
    true
}

/// Whether a value above `val` is one of two registers, and the other one is at most `val`.
fn moves_below(a: Reg, b: Reg, x: u32, val: u32) -> bool
    requires { val < x }
    ensures { IsTrue result ↔ (exchanged a.0 b.0 x ≤ val) }
{
    (x == a.0 && b.0 <= val) || (x == b.0 && a.0 <= val)
}

/// Whether the values of a decision's variable, which are on its right side, are on the left one with two registers exchanged: then
/// the variable is a register that has one value left, since each value is one of the two and the other of them is on the left.
fn turns_left(m: &Model, registers: &Registers, stand: &Stand, a: Reg, b: Reg, at: Decision) -> bool
    requires registers { AreRegisters m.now registers.now }
    requires there { at.var.0 < length stand.now.cuts.sets }
    requires same { length stand.now.cuts.sets ≡ length m.now.domains }
    requires full { NoneEmpty stand.now.cuts.sets }
    requires above { (x : ℕ) → has (set_at stand.now.cuts.sets at.var.0) x ≡ true → at.val < x }
    ensures { IsTrue result ↔ PassesExchanged m.now.temps a.0 b.0 stand.now.cuts.sets (left_of at) }
{
    let _ = m;
    if !registers.has(at.var) {
        return false;
    }
    let x = stand.cuts.min(at.var);
    if x < stand.cuts.max(at.var) {
        return false;
    }
    moves_below(a, b, x, at.val)
}

/// Whether a leaf where a walk stands mirrors the left side of the branch with `depth` decisions above it: the two registers are
/// interchangeable, the walk is on the right side of that branch, and with the two exchanged the box lies in the box of its left
/// side. It takes no memory. First boxes are closed under the exchange, and the box lies in each box above it: so only the variables
/// of the first decisions and of that branch are looked at.
pub fn is_mirror(
    m: &Model,
    registers: &Registers,
    stand: &Stand,
    a: Reg,
    b: Reg,
    depth: u32,
) -> bool
    requires model { IsModel m.now }
    requires registers { AreRegisters m.now registers.now }
    requires at { IsStandAt (root_of m.now) stand.now }
    ensures { IsTrue result ↔ IsMirror m.now a.0 b.0 depth stand.now.path.items }
{
    let depth = depth as usize;
    let Some(at) = stand.path.as_slice().get(depth) else {
        return false;
    };
    if let Side::AtMost = at.side {
        return false;
    }
    if !turns_left(m, registers, stand, a, b, *at) {
        return false;
    }
    if !pass_all(m, registers, stand, a, b, depth) {
        return false;
    }
    interchangeable(m, a, b)
}
