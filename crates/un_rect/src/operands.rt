//! Operands: two that read different values have different registers.

ghost use Rattle.std.specs.Prelude.{◌≡◌, ◌≢◌, ◌<◌, true, length};
ghost use Rattle.un_domains.specs.Sets.{NoneEmpty};
ghost use Rattle.un_prop.specs.Rounds.{HasVars};
ghost use Rattle.un_prop.specs.Among.{among};
ghost use Rattle.un_prop.specs.Going.{Stepped};
ghost use Rattle.un_prop.specs.LastLaws.{Ascend};
ghost use Rattle.un_prop.specs.declared.propagator.Pruned.TheVariants.{Failed};
ghost use Rattle.un_rect.specs.Entries.{each_entry};
ghost use Rattle.un_rect.specs.Operands.{side, SideVars, other_cut, chosen_cut, fixed_cut, side_steps};
ghost use Rattle.un_rect.specs.Sides.{side_of};

use crate::operand::{Facing, Operand, is_free, is_in, may_avoid};
use crate::values::{ValueTest, keep_passing};
use un_base::ids::VarId;
use un_domains::window::Window;
use un_lists::items::Items;
use un_prop::act::Act;
use un_prop::last::check_last;
use un_prop::place::{keep_choice, places};
use un_prop::propagator::{Predicate, Propagator, Pruned, Scratch};
use un_prop::step::drop_value;

/// A set of registers.
#[derive(Drop)]
struct Allowed<'a>(&'a [u32]);

impl ValueTest for Allowed<'_> {
    ghost use Rattle.un_domains.specs.Sets.{has};

    ghost lets = { λ t y. has t.0.now y };

    fn passes(&self, y: u32) -> bool {
        is_in(self.0, y)
    }
}

/// Takes the register `r` from `v`, where the operand `other` cannot have another.
fn keep_other(w: &mut Window<'_>, before: Pruned, other: &Operand<'_>, v: VarId, r: u32) -> Pruned
    requires lent { among w.old.vars.now v ≡ true }
    requires vars { SideVars w.old.vars.now (side_of other.now) }
    requires known { HasVars w.old.vars.now w.old.store.now.sets }
    requires live { before ≢ Failed → NoneEmpty w.old.store.now.sets }
    ensures step { Stepped w.old.vars.now (other_cut (side_of other.now) v r) w.old.store.now w.new.store.now before result }
    ensures same_reference { w.new.store.ghost_name ≡ w.old.store.ghost_name }
    ensures vars { w.new.vars ≡ w.old.vars }
{
    if before == Pruned::Failed {
        return before;
    }
    if !w.has(v, r) {
        return before;
    }
    if may_avoid(w, other, r) {
        return before;
    }
    drop_value(w, before, v, r)
}

/// Takes the register that the operand `other` needs from `v`. It needs none where it may have two.
fn keep_others(w: &mut Window<'_>, before: Pruned, other: &Operand<'_>, v: VarId) -> Pruned
    requires lent { among w.old.vars.now v ≡ true }
    requires vars { SideVars w.old.vars.now (side_of other.now) }
    requires known { HasVars w.old.vars.now w.old.store.now.sets }
    requires live { before ≢ Failed → NoneEmpty w.old.store.now.sets }
    ensures step { Stepped w.old.vars.now (each_entry (other_cut (side_of other.now) v) other.now.allowed.now) w.old.store.now
        w.new.store.now before result }
    ensures same_reference { w.new.store.ghost_name ≡ w.old.store.ghost_name }
    ensures vars { w.new.vars ≡ w.old.vars }
{
    if before == Pruned::Failed {
        return before;
    }
    if is_free(w, other) {
        return before;
    }
    let mut did = before;
    for r in other.allowed {
        did = keep_other(w, did, other, v, *r);
    }
    did
}

/// Keeps of `v`, the register that the operand `one` chooses, what it may be beside the operand `other`.
fn keep_chosen(
    w: &mut Window<'_>,
    before: Pruned,
    one: &Operand<'_>,
    other: &Operand<'_>,
    v: VarId,
) -> Pruned
    requires lent { among w.old.vars.now v ≡ true }
    requires vars { SideVars w.old.vars.now (side_of other.now) }
    requires known { HasVars w.old.vars.now w.old.store.now.sets }
    requires live { before ≢ Failed → NoneEmpty w.old.store.now.sets }
    ensures step { Stepped w.old.vars.now (chosen_cut (side_of one.now) (side_of other.now) v) w.old.store.now w.new.store.now before
        result }
    ensures same_reference { w.new.store.ghost_name ≡ w.old.store.ghost_name }
    ensures vars { w.new.vars ≡ w.old.vars }
{
    let allowed = Allowed(one.allowed);
    let first = keep_passing(&allowed, w, before, v);
    keep_others(w, first, other, v)
}

/// Where one place is left of the operand `one`, keeps of the register there what it may be beside the operand `other`.
fn keep_fixed(w: &mut Window<'_>, before: Pruned, one: &Operand<'_>, other: &Operand<'_>) -> Pruned
    requires of_one { SideVars w.old.vars.now (side_of one.now) }
    requires of_other { SideVars w.old.vars.now (side_of other.now) }
    requires known { HasVars w.old.vars.now w.old.store.now.sets }
    requires live { before ≢ Failed → NoneEmpty w.old.store.now.sets }
    ensures step { Stepped w.old.vars.now (fixed_cut (side_of one.now) (side_of other.now)) w.old.store.now w.new.store.now before result }
    ensures same_reference { w.new.store.ghost_name ≡ w.old.store.ghost_name }
    ensures vars { w.new.vars ≡ w.old.vars }
{
    if before == Pruned::Failed {
        return before;
    }
    if !w.is_single(one.choice) {
        return before;
    }
    let i = w.min(one.choice) as usize;
    if i < one.regs.len() {
        keep_chosen(w, before, one, other, one.regs[i])
    } else {
        before
    }
}

/// All that is known of an operand beside the other.
fn keep_operand(w: &mut Window<'_>, before: Pruned, f: &Facing<'_>) -> Pruned
    requires vars { w.old.vars.now ≡ f.now.vars.now }
    requires known { HasVars f.now.vars.now w.old.store.now.sets }
    requires live { before ≢ Failed → NoneEmpty w.old.store.now.sets }
    ensures step { Stepped w.old.vars.now (side_steps (side_of f.now.one) (side_of f.now.other)) w.old.store.now w.new.store.now before
        result }
    ensures same_reference { w.new.store.ghost_name ≡ w.old.store.ghost_name }
    ensures vars { w.new.vars ≡ w.old.vars }
{
    let n = places(f.one.regs);
    let first = keep_choice(f, w, before, Act::Always, f.one.choice, n);
    keep_fixed(w, first, &f.one, &f.other)
}

/// The register that `first` chooses among `first_regs` is in `first_set`, the one that `second` chooses among `second_regs` is in
/// `second_set`, and the two differ.
#[derive(Drop)]
pub struct Operands {
    /// The variable of the first operand's choice: a place in `first_regs`.
    pub first: VarId,
    /// The variables of the registers of the temporaries that the first operand may choose, in the order of its alternatives.
    pub first_regs: Items<VarId>,
    /// The numbers of the registers that the first operand's temporary may have.
    pub first_set: Items<u32>,
    /// The variable of the second operand's choice: a place in `second_regs`.
    pub second: VarId,
    /// The variables of the registers of the temporaries that the second operand may choose, in the order of its alternatives.
    pub second_regs: Items<VarId>,
    /// The numbers of the registers that the second operand's temporary may have.
    pub second_set: Items<u32>,
    /// The variables of both operands, rising, each once: it reads these, and cuts these alone.
    pub vars: Items<VarId>,
    ghost ascend: { Ascend vars },
    ghost of_first: { SideVars vars (side first first_regs first_set) },
    ghost of_second: { SideVars vars (side second second_regs second_set) },
}

impl Operands {
    /// The first operand beside the second.
    fn first_facing(&self) -> Facing<'_>
        ensures one { side_of result.one ≡ side self.now.first self.now.first_regs self.now.first_set }
        ensures other { side_of result.other ≡ side self.now.second self.now.second_regs self.now.second_set }
        ensures vars { result.vars.now ≡ self.now.vars }
    {
        let one = Operand {
            choice: self.first,
            regs: self.first_regs.as_slice(),
            allowed: self.first_set.as_slice(),
        };
        let other = Operand {
            choice: self.second,
            regs: self.second_regs.as_slice(),
            allowed: self.second_set.as_slice(),
        };
        Facing {
            one,
            other,
            vars: self.vars.as_slice(),
        }
    }

    /// The second operand beside the first.
    fn second_facing(&self) -> Facing<'_>
        ensures one { side_of result.one ≡ side self.now.second self.now.second_regs self.now.second_set }
        ensures other { side_of result.other ≡ side self.now.first self.now.first_regs self.now.first_set }
        ensures vars { result.vars.now ≡ self.now.vars }
    {
        let Facing { one, other, vars } = self.first_facing();
        Facing {
            one: other,
            other: one,
            vars,
        }
    }
}

impl Predicate for Operands {
    ghost use Rattle.un_rect.specs.Operands.{operands_holds};
    ghost use Rattle.un_rect.specs.OperandsLaws.{operands_looks};

    ghost scope = { λ p. p.vars };

    ghost holds = { λ p x. operands_holds (side p.first p.first_regs p.first_set) (side p.second p.second_regs p.second_set) x };

    fn reads(&self) -> &[VarId] {
        self.vars.as_slice()
    }

    fn test(&self, fixed: &[u32]) -> bool {
        self.first_facing().test(fixed)
    }

    ghost looks = { λ p x y same. operands_looks p.vars x y same (side p.first p.first_regs p.first_set)
        (side p.second p.second_regs p.second_set) p.of_first p.of_second };
}

impl Propagator for Operands {
    ghost use Rattle.un_prop.specs.PartLaws.{one_part, one_whole};
    ghost use Rattle.un_prop.specs.WithinLaws.{one_within};
    ghost use Rattle.un_rect.specs.Operands.{operands_holds, operands_cut};
    ghost use Rattle.un_rect.specs.OperandsLaws.{operands_cut_lawful, operands_cut_keeps, operands_cut_forward};

    ghost cut = { λ p. operands_cut p.vars (side p.first p.first_regs p.first_set) (side p.second p.second_regs p.second_set) };

    ghost parts = { λ p. one_part p.vars (operands_holds (side p.first p.first_regs p.first_set)
        (side p.second p.second_regs p.second_set)) };

    ghost strong = { λ p s. Unit {0} };

    ghost span = { λ p. 0 };

    fn prune_in(&self, w: &mut Window<'_>, scratch: &mut Scratch) -> Pruned {
        let first = keep_operand(w, Pruned::Same, &self.first_facing());
        let did = keep_operand(w, first, &self.second_facing());
        check_last(self, w, scratch, did)
    }

    ghost keeps = { λ p s x k full. operands_cut_keeps p.vars (side p.first p.first_regs p.first_set)
        (side p.second p.second_regs p.second_set) p.of_first p.of_second p.ascend s x k };

    ghost lawful = { λ p. operands_cut_lawful p.vars (side p.first p.first_regs p.first_set) (side p.second p.second_regs p.second_set)
        p.of_first p.of_second p.ascend };

    ghost whole = { λ p x. one_whole p.vars (operands_holds (side p.first p.first_regs p.first_set)
        (side p.second p.second_regs p.second_set)) x };

    ghost within = { λ p. one_within p.vars (operands_holds (side p.first p.first_regs p.first_set)
        (side p.second p.second_regs p.second_set)) };

    ghost forward = { λ p. operands_cut_forward p.vars (side p.first p.first_regs p.first_set) (side p.second p.second_regs p.second_set)
        p.of_first p.of_second p.ascend };

    ghost strength = { λ p s k full words grounded e. tt };
}
