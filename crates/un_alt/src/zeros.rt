//! Inactive operations: their variables are 0.

ghost use Rattle.std.specs.Prelude.{◌≡◌, ◌≢◌, true};
ghost use Rattle.un_domains.specs.Sets.{NoneEmpty};
ghost use Rattle.un_prop.specs.Among.{among};
ghost use Rattle.un_prop.specs.Going.{Stepped};
ghost use Rattle.un_prop.specs.LastLaws.{Ascend};
ghost use Rattle.un_prop.specs.Rounds.{HasVars, round};
ghost use Rattle.un_prop.specs.When.{when_cut, other_than};
ghost use Rattle.un_prop.specs.declared.propagator.Pruned.TheVariants.{Failed, Same};
ghost use Rattle.un_alt.specs.Zeros.{ZerosVars, all_zero, some_live, zero_cut};

use un_base::ids::VarId;
use un_domains::window::Window;
use un_lists::items::Items;
use un_prop::act::value;
use un_prop::last::check_last;
use un_prop::propagator::{Predicate, Propagator, Pruned, Scratch};
use un_prop::when::{drop_when, is_only, keep_le_when};

/// Where the instruction `instr` of an operation is 0, the operation is inactive, and its `others`, as its cycle, its choices and
/// its register, are 0.
#[derive(Drop)]
pub struct Zeros {
    /// The variable of the operation's instruction: 0 where it is inactive.
    pub instr: VarId,
    /// The operation's other variables, which are 0 where it is inactive.
    pub others: Items<VarId>,
    /// The operation's variables, rising, each once: it reads these, and cuts these alone.
    pub vars: Items<VarId>,
    ghost ascend: { Ascend vars },
    ghost among: { ZerosVars vars instr others },
}

/// Whether all of these variables are 0.
fn are_zero(fixed: &[u32], vars: &[VarId]) -> bool
    ensures { result ≡ all_zero vars.now fixed.now }
{
    for v in vars {
        if value(fixed, *v) != 0 {
            return false;
        }
    }
    true
}

/// Whether some of these variables cannot be 0.
fn some_live(w: &Window<'_>, vars: &[VarId]) -> bool
    requires { HasVars vars.now w.now.store.now.sets }
    ensures { result ≡ some_live vars.now w.now.store.now.sets }
{
    for v in vars {
        if !w.has(*v, 0) {
            return true;
        }
    }
    false
}

/// Where another variable cannot be 0, the instruction is not 0.
fn keep_active(w: &mut Window<'_>, p: &Zeros) -> Pruned
    requires vars { w.old.vars.now ≡ p.now.vars }
    requires known { HasVars p.now.vars w.old.store.now.sets }
    requires live { NoneEmpty w.old.store.now.sets }
    ensures step { Stepped w.old.vars.now (when_cut (some_live p.now.others) (other_than 0) p.now.instr) w.old.store.now w.new.store.now
        Same result }
    ensures same_reference { w.new.store.ghost_name ≡ w.old.store.ghost_name }
    ensures vars { w.new.vars ≡ w.old.vars }
{
    let active = some_live(w, p.others.as_slice());
    drop_when(w, Pruned::Same, active, p.instr, 0)
}

/// Where 0 alone is left of the instruction, a variable is 0.
fn keep_zero(w: &mut Window<'_>, before: Pruned, p: &Zeros, v: VarId) -> Pruned
    requires vars { w.old.vars.now ≡ p.now.vars }
    requires of_v { among p.now.vars v ≡ true }
    requires known { HasVars p.now.vars w.old.store.now.sets }
    requires live { before ≢ Failed → NoneEmpty w.old.store.now.sets }
    ensures step { Stepped w.old.vars.now (zero_cut p.now.instr v) w.old.store.now w.new.store.now before result }
    ensures same_reference { w.new.store.ghost_name ≡ w.old.store.ghost_name }
    ensures vars { w.new.vars ≡ w.old.vars }
{
    if before == Pruned::Failed {
        return before;
    }
    let idle = is_only(w, p.instr, 0);
    keep_le_when(w, before, idle, v, 0)
}

/// Where 0 alone is left of the instruction, all others are 0.
fn keep_zeros(w: &mut Window<'_>, before: Pruned, p: &Zeros) -> Pruned
    requires vars { w.old.vars.now ≡ p.now.vars }
    requires known { HasVars p.now.vars w.old.store.now.sets }
    requires live { before ≢ Failed → NoneEmpty w.old.store.now.sets }
    ensures step { Stepped w.old.vars.now (round (zero_cut p.now.instr) p.now.others) w.old.store.now w.new.store.now before result }
    ensures same_reference { w.new.store.ghost_name ≡ w.old.store.ghost_name }
    ensures vars { w.new.vars ≡ w.old.vars }
{
    let others = p.others.as_slice();
    let mut did = before;
    for v in others {
        did = keep_zero(w, did, p, *v);
    }
    did
}

impl Predicate for Zeros {
    ghost use Rattle.un_alt.specs.Zeros.{zeros_holds};
    ghost use Rattle.un_alt.specs.ZerosLaws.{zeros_looks};

    ghost scope = { λ p. p.vars };

    ghost holds = { λ p x. zeros_holds p.instr p.others x };

    fn reads(&self) -> &[VarId] {
        self.vars.as_slice()
    }

    fn test(&self, fixed: &[u32]) -> bool {
        if value(fixed, self.instr) != 0 {
            return true;
        }
        are_zero(fixed, self.others.as_slice())
    }

    ghost looks = { λ p x y same. zeros_looks p.vars p.instr p.others p.among x y same };
}

impl Propagator for Zeros {
    ghost use Rattle.un_prop.specs.Last.{last_cut};
    ghost use Rattle.un_prop.specs.PartLaws.{one_part, one_whole, lawful_checked, keeps_checked, forward_checked, stable_first};
    ghost use Rattle.std.specs.Prelude.{option_and_then};
    ghost use Rattle.un_alt.specs.Zeros.{zeros_holds, zeros_steps, ZerosStrong};
    ghost use Rattle.un_alt.specs.ZerosLaws.{zeros_looks, zeros_lawful, zeros_keeps, zeros_strong};
    ghost use Rattle.un_prop.specs.WithinLaws.{one_within};

    ghost cut = { λ p s. option_and_then (last_cut p.vars (zeros_holds p.instr p.others)) (zeros_steps p.instr p.others s) };

    ghost parts = { λ p. one_part p.vars (zeros_holds p.instr p.others) };

    ghost strong = { λ p s. ZerosStrong p.instr p.others s };

    ghost span = { λ p. 0 };

    fn prune_in(&self, w: &mut Window<'_>, scratch: &mut Scratch) -> Pruned {
        let first = keep_active(w, self);
        let did = keep_zeros(w, first, self);
        check_last(self, w, scratch, did)
    }

    ghost keeps = { λ p s x k full there holds. keeps_checked p.vars (zeros_holds p.instr p.others)
        (zeros_looks p.vars p.instr p.others p.among) p.ascend (zeros_steps p.instr p.others)
        (zeros_lawful p.vars p.instr p.others p.among) s x k
        (zeros_keeps p.vars p.instr p.others p.among s x k there holds) there.long holds };

    ghost lawful = { λ p. lawful_checked p.vars (zeros_holds p.instr p.others) (zeros_looks p.vars p.instr p.others p.among) p.ascend
        (zeros_steps p.instr p.others) (zeros_lawful p.vars p.instr p.others p.among) };

    ghost whole = { λ p x. one_whole p.vars (zeros_holds p.instr p.others) x };

    ghost within = { λ p. one_within p.vars (zeros_holds p.instr p.others) };

    ghost forward = { λ p. forward_checked p.vars (zeros_holds p.instr p.others) (zeros_looks p.vars p.instr p.others p.among) p.ascend
        (zeros_steps p.instr p.others) (zeros_lawful p.vars p.instr p.others p.among) };

    ghost strength = { λ p s k full words grounded e. zeros_strong p.vars p.instr p.others p.among s k full
        (stable_first p.vars (zeros_holds p.instr p.others) (zeros_looks p.vars p.instr p.others p.among) p.ascend
        (zeros_steps p.instr p.others) (zeros_lawful p.vars p.instr p.others p.among) s k full e) };
}
