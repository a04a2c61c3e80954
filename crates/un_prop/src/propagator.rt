//! What a propagator is: a predicate on assignments, and a cut of stores that keeps each assignment for which it holds.

ghost use Rattle.std.specs.Prelude.{◌≡◌, ℕ, ◌+◌, ◌<◌, ◌≤◌, Option, Some, MatchOption, ⊤, List, length, All, true, IfOk, Bool, Contains};
ghost use Rattle.un_base.specs.declared.ids.VarId.{VarId};
ghost use Rattle.un_domains.specs.Sets.{Sets, IsIn, NoneEmpty, Kept};
ghost use Rattle.un_prop.specs.Rounds.{HasVars};
ghost use Rattle.un_prop.specs.Lawful.{Lawful};
ghost use Rattle.un_prop.specs.Among.{AllAmong};
ghost use Rattle.un_prop.specs.Looks.{InWords};
ghost use Rattle.un_prop.specs.Parts.{Part, all_meet, SameAt, ChecksForward};

use std::alloc::Global;
use un_base::ids::VarId;
use un_base::memory_error::NoMemory;
use un_domains::store::Store;
use un_domains::window::Window;

/// What a pruning did: it took no value away, it took some and left some of each variable, or it found that no
/// assignment of the store holds, and left some variable without a value.
#[derive(Clone, Copy, PartialEq)]
pub enum Pruned {
    Same,
    Tighter,
    Failed,
}

/// Room for propagation. Its content is not promised.
#[derive(Drop)]
pub struct Scratch {
    /// A number for each variable of the store: room for an assignment, or for as many other numbers.
    pub fixed: Vec<u32>,
    /// A number for each cycle from 0 to the greatest horizon: room for counts by cycle, and for lists.
    pub cycles: Vec<u32>,
}

impl Scratch {
    ghost use Rattle.un_prop.specs.Pruning.{HasRoom};

    /// Room for so many variables, and for cycles from 0 to `horizon`.
    pub fn new(alloc: Global, vars: u32, horizon: u32) -> Result<Scratch, NoMemory>
        ensures { IfOk result (HasRoom vars (horizon + 1)) }
    {
        let fixed = vec![in alloc; 0; vars as usize]?;
        let cycles = vec![in alloc; 0; horizon as usize + 1]?;
        Ok(Scratch { fixed, cycles })
    }
}

/// A predicate on assignments, which gives each variable a number.
pub trait Predicate {
    /// The variables that it reads, rising.
    ghost scope: { Self → List VarId };

    /// Whether it holds for an assignment.
    ghost holds: { Self → List ℕ → Bool };

    /// The variables that it reads.
    fn reads(&self) -> &[VarId]
        ensures { result.now ≡ scope self.now };

    /// Whether it holds for an assignment.
    fn test(&self, fixed: &[u32]) -> bool
        requires { All (λ v. v.0 < length fixed.now) (scope self.now) }
        ensures { result ≡ holds self.now fixed.now };

    /// It looks at its variables alone.
    ghost looks: { (p : Self) (x y : List ℕ) → SameAt (scope p) x y → holds p x ≡ holds p y };
}

/// A predicate with a cut, which takes values away that no assignment for which it holds has.
pub trait Propagator: Predicate {
    ghost use Rattle.un_prop.specs.Pruning.{IsPrune, HasRoom};

    /// The sets that it leaves, or none where it fails.
    ghost cut: { Self → Sets → Option Sets };

    /// It holds where all its parts are met.
    ghost parts: { Self → List Part };

    /// What is so of a store that it leaves as it is.
    ghost strong: { Self → Sets → Type 0 };

    /// How many cycles, from 0, it counts over.
    ghost span: { Self → ℕ };

    /// Whether its prunings are dear, so that it waits until no light one does. Which waits longer changes no set.
    fn is_heavy(&self) -> bool {
        false
    }

    /// Takes values away through a window on its own variables.
    fn prune_in(&self, w: &mut Window<'_>, scratch: &mut Scratch) -> Pruned
        requires vars { w.old.vars.now ≡ Self.scope self.now }
        requires known { HasVars (Self.scope self.now) w.old.store.now.sets }
        requires live { NoneEmpty w.old.store.now.sets }
        requires room { HasRoom (length w.old.store.now.sets) (span self.now) scratch.old }
        ensures prune { IsPrune (Self.scope self.now) (cut self.now w.old.store.now.sets) w.old.store.now w.new.store.now result }
        ensures fixed { length scratch.new.fixed.items ≡ length scratch.old.fixed.items }
        ensures cycles { length scratch.new.cycles.items ≡ length scratch.old.cycles.items }
        ensures same_reference { w.new.store.ghost_name ≡ w.old.store.ghost_name };

    /// Takes values away, of its own variables alone.
    fn prune(&self, store: &mut Store, scratch: &mut Scratch) -> Pruned
        requires known { HasVars (Self.scope self.now) store.old.sets }
        requires live { NoneEmpty store.old.sets }
        requires room { HasRoom (length store.old.sets) (span self.now) scratch.old }
        ensures prune { IsPrune (Self.scope self.now) (cut self.now store.old.sets) store.old store.new result }
        ensures fixed { length scratch.new.fixed.items ≡ length scratch.old.fixed.items }
        ensures cycles { length scratch.new.cycles.items ≡ length scratch.old.cycles.items }
    {
        let mut w = store.window(self.reads());
        self.prune_in(&mut w, scratch)
    }

    /// No assignment for which it holds is lost; so it fails only where there is none.
    ghost keeps: { (p : Self) (s : Sets) (x : List ℕ) → HasVars (Self.scope p) s → NoneEmpty s → IsIn x s → Self.holds p x ≡ true
        → Kept x (cut p s) };

    /// Values are only taken away, less is left where less was there, and only its variables are looked at and cut.
    ghost lawful: { (p : Self) → Lawful (Self.scope p) (cut p) };

    /// It holds where all its parts are met.
    ghost whole: { (p : Self) (x : List ℕ) → Self.holds p x ≡ all_meet (parts p) x };

    /// The parts speak of its variables alone.
    ghost within: { (p : Self) (part : Part) → Contains (parts p) part → AllAmong (Self.scope p) part.vars };

    /// A part with one variable left is checked at each of its values.
    ghost forward: { (p : Self) (part : Part) → Contains (parts p) part → ChecksForward part (Self.scope p) (cut p) };

    /// What is so of a store that it leaves as it is. A propagator that reads no variable holds.
    ghost strength: { (p : Self) (s : Sets) → HasVars (Self.scope p) s → NoneEmpty s → InWords s
        → (length (Self.scope p) ≡ 0 → (x : List ℕ) → Self.holds p x ≡ true) → cut p s ≡ Some s → strong p s };
}
