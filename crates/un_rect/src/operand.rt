//! An operand, and the registers that it may have, as far as a store says.

ghost use Rattle.std.specs.Prelude.{◌≡◌, ℕ, Bool, true, false, MatchOption};
ghost use Rattle.un_domains.specs.Sets.{set_at, has, NoneEmpty};
ghost use Rattle.un_prop.specs.Rounds.{HasVars};
ghost use Rattle.un_prop.specs.Among.{among, AllAmong};
ghost use Rattle.un_prop.specs.Choices.{passes_at};
ghost use Rattle.un_rect.specs.Operands.{SideVars, side_passes, may_have, avoids_at, may_avoid, may_be};
ghost use Rattle.un_rect.specs.Sides.{side_of};

use un_base::ids::VarId;
use un_domains::window::Window;
use un_prop::act::value;
use un_prop::place::Choice;
use un_prop::propagator::Predicate;

/// An operand: its choice names a place among its registers, and the register there has to be an allowed one.
#[derive(Clone, Copy)]
pub struct Operand<'a> {
    /// The variable of the operand's choice: a place in `regs`.
    pub choice: VarId,
    /// The variables of the registers of the temporaries that it may choose, in the order of the alternatives.
    pub regs: &'a [VarId],
    /// The numbers of the registers that the chosen temporary may have.
    pub allowed: &'a [u32],
}

/// Whether the register at a place may be `r`.
fn has_at(w: &Window<'_>, regs: &[VarId], i: u32, r: u32) -> bool
    requires vars { AllAmong w.now.vars.now regs.now }
    requires known { HasVars w.now.vars.now w.now.store.now.sets }
    ensures { result ≡ passes_at (λ v. has (set_at w.now.store.now.sets v.0) r) regs.now i }
{
    let i = i as usize;
    if i < regs.len() {
        w.has(regs[i], r)
    } else {
        false
    }
}

/// Whether the register of an operand may be `r`.
fn may_have(w: &Window<'_>, o: &Operand<'_>, r: u32) -> bool
    requires vars { SideVars w.now.vars.now (side_of o.now) }
    requires known { HasVars w.now.vars.now w.now.store.now.sets }
    requires live { NoneEmpty w.now.store.now.sets }
    ensures { result ≡ may_have (side_of o.now) w.now.store.now.sets r }
{
    let low = u64::from(w.min(o.choice));
    let end = u64::from(w.max(o.choice)) + 1;
    for i in low..end {
        if w.has(o.choice, i as u32) {
            if has_at(w, o.regs, i as u32, r) {
                return true;
            }
        }
    }
    false
}

/// Whether the register at a place may be an allowed one other than `r`.
fn avoids_at(w: &Window<'_>, o: &Operand<'_>, i: u32, r: u32) -> bool
    requires vars { AllAmong w.now.vars.now o.now.regs.now }
    requires known { HasVars w.now.vars.now w.now.store.now.sets }
    ensures { result ≡ avoids_at (side_of o.now) w.now.store.now.sets r i }
{
    for q in o.allowed {
        if *q != r {
            if has_at(w, o.regs, i, *q) {
                return true;
            }
        }
    }
    false
}

/// Whether the register of an operand may be an allowed one other than `r`. A place has many registers mostly, so it is looked at as a
/// whole before the next one.
pub(crate) fn may_avoid(w: &Window<'_>, o: &Operand<'_>, r: u32) -> bool
    requires vars { SideVars w.now.vars.now (side_of o.now) }
    requires known { HasVars w.now.vars.now w.now.store.now.sets }
    requires live { NoneEmpty w.now.store.now.sets }
    ensures { result ≡ may_avoid (side_of o.now) w.now.store.now.sets r }
{
    let low = u64::from(w.min(o.choice));
    let end = u64::from(w.max(o.choice)) + 1;
    for i in low..end {
        if w.has(o.choice, i as u32) {
            if avoids_at(w, o, i as u32, r) {
                return true;
            }
        }
    }
    false
}

/// Whether the register of an operand may be two allowed ones, so that it may be another than any.
pub(crate) fn is_free(w: &Window<'_>, o: &Operand<'_>) -> bool
    requires vars { SideVars w.now.vars.now (side_of o.now) }
    requires known { HasVars w.now.vars.now w.now.store.now.sets }
    requires live { NoneEmpty w.now.store.now.sets }
    ensures { result ≡ true → (r : ℕ) → may_avoid (side_of o.now) w.now.store.now.sets r ≡ true }
{
    for q in o.allowed {
        if may_have(w, o, *q) {
            return may_avoid(w, o, *q);
        }
    }
    false
}

/// Whether the variable `v` may be an allowed register of an operand, and another one that of the operand `other`.
pub(crate) fn may_be(w: &Window<'_>, o: &Operand<'_>, other: &Operand<'_>, v: VarId) -> bool
    requires there { among w.now.vars.now v ≡ true }
    requires vars { SideVars w.now.vars.now (side_of other.now) }
    requires known { HasVars w.now.vars.now w.now.store.now.sets }
    requires live { NoneEmpty w.now.store.now.sets }
    ensures { result ≡ may_be (side_of o.now) (side_of other.now) w.now.store.now.sets v }
{
    for r in o.allowed {
        if w.has(v, *r) {
            if may_avoid(w, other, *r) {
                return true;
            }
        }
    }
    false
}

/// An operand, and another that reads a different value.
#[derive(Drop)]
pub struct Facing<'a> {
    /// The operand that is cut.
    pub one: Operand<'a>,
    /// The operand whose register has to be another than that of `one`.
    pub other: Operand<'a>,
    /// The variables of both operands, rising, each once.
    pub vars: &'a [VarId],
    ghost of_one: { SideVars vars.now (side_of one) },
    ghost of_other: { SideVars vars.now (side_of other) },
}

/// Whether a set has a number.
pub(crate) fn is_in(set: &[u32], n: u32) -> bool
    ensures { result ≡ has set.now n }
{
    set.iter().any(|m| n == *m)
}

/// The register of an operand, where it has an allowed one.
fn chosen(fixed: &[u32], o: &Operand<'_>) -> Option<u32>
    ensures { MatchOption result ((p : ℕ → Bool) → side_passes p (side_of o.now) fixed.now ≡ false)
        (λ r. (p : ℕ → Bool) → side_passes p (side_of o.now) fixed.now ≡ p r) }
{
    let i = value(fixed, o.choice) as usize;
    if i >= o.regs.len() {
        return None;
    }
    let r = value(fixed, o.regs[i]);
    if is_in(o.allowed, r) { Some(r) } else { None }
}

impl Predicate for Facing<'_> {
    ghost use Rattle.un_rect.specs.Operands.{operands_holds};
    ghost use Rattle.un_rect.specs.OperandsLaws.{operands_looks};

    ghost scope = { λ p. p.vars.now };

    ghost holds = { λ p x. operands_holds (side_of p.one) (side_of p.other) x };

    fn reads(&self) -> &[VarId] {
        self.vars
    }

    fn test(&self, fixed: &[u32]) -> bool {
        match chosen(fixed, &self.one) {
            None => false,
            Some(q) => match chosen(fixed, &self.other) {
                None => false,
                Some(r) => r != q,
            },
        }
    }

    ghost looks = { λ p x y same. operands_looks p.vars.now x y same (side_of p.one) (side_of p.other) p.of_one p.of_other };
}

impl Choice for Facing<'_> {
    ghost use Rattle.un_rect.specs.Operands.{side_can};

    ghost can = { λ p s i. side_can (side_of p.one) (side_of p.other) s i };

    fn can_choose(&self, w: &Window<'_>, i: u32) -> bool {
        let i = i as usize;
        if i < self.one.regs.len() {
            may_be(w, &self.one, &self.other, self.one.regs[i])
        } else {
            false
        }
    }
}
