//! Rounds of propagators.

ghost use Rattle.std.specs.Prelude.{◌≡◌, ◌≢◌, ℕ, ◌<◌, ◌≤◌, List, length, All, true, Some, MatchOption, Contains, None, false, ◌↔◌};
ghost use Rattle.un_domains.specs.Sets.{Sets, IsIn, IsSingle, Kept, NoneEmpty};
ghost use Rattle.un_prop.specs.Rounds.{HasVars, round, fix_of};
ghost use Rattle.un_prop.specs.Pruning.{IsFix, Ends, HasRoom};
ghost use Rattle.un_prop.specs.Fixes.{IsGreatest};

use crate::propagator::{Propagator, Pruned, Scratch};
use un_domains::store::Store;

/// How rounds ended: at a store that no propagator changes, or at a propagator that failed.
#[derive(Clone, Copy, PartialEq)]
pub enum Fix {
    Stable,
    Failed,
}

/// One round: each propagator in its turn, until one fails.
fn run_round<P: Propagator>(props: &[P], store: &mut Store, scratch: &mut Scratch) -> Pruned
    requires known { All (λ p. HasVars (P.scope p) store.old.sets) props.now }
    requires live { NoneEmpty store.old.sets }
    requires room { All (λ p. HasRoom (length store.old.sets) (P.span p) scratch.old) props.now }
    ensures ends { Ends (round P.cut props.now store.old.sets) store.old.sets store.new.sets result }
    ensures long { length store.new.sets ≡ length store.old.sets }
    ensures marked { store.new.marked ≡ store.old.marked }
    ensures fixed { length scratch.new.fixed.items ≡ length scratch.old.fixed.items }
    ensures cycles { length scratch.new.cycles.items ≡ length scratch.old.cycles.items }
{
    let mut changed = false;
    for p in props {
        match p.prune(store, scratch) {
            Pruned::Same => {}
            Pruned::Tighter => changed = true,
            Pruned::Failed => return Pruned::Failed,
        }
    }
    if changed {
        Pruned::Tighter
    } else {
        Pruned::Same
    }
}

/// Runs the propagators in order, round after round, until one fails or a round changes nothing. It takes no memory.
pub fn run_all<P: Propagator>(props: &[P], store: &mut Store, scratch: &mut Scratch) -> Fix
    requires known { All (λ p. HasVars (P.scope p) store.old.sets) props.now }
    requires live { NoneEmpty store.old.sets }
    requires room { All (λ p. HasRoom (length store.old.sets) (P.span p) scratch.old) props.now }

    // The sets afterwards are those of the rounds.
    ensures rounds { IsFix (fix_of P.cut props.now store.old.sets) store.new.sets result }

    // No assignment is lost for which all hold, so it fails only where there is none.
    ensures keeps { (x : List ℕ) → IsIn x store.old.sets → All (λ p. P.holds p x ≡ true) props.now
        → (result ≡ Fix.Stable) × IsIn x store.new.sets }

    // A store that no propagator changes, and the greatest within the first.
    ensures greatest { result ≡ Fix.Stable → IsGreatest P.cut props.now store.old.sets store.new.sets }
    ensures long { length store.new.sets ≡ length store.old.sets }
    ensures marked { store.new.marked ≡ store.old.marked }
    ensures fixed { length scratch.new.fixed.items ≡ length scratch.old.fixed.items }
    ensures cycles { length scratch.new.cycles.items ≡ length scratch.old.cycles.items }
{
    loop {
        match run_round(props, store, scratch) {
            Pruned::Same => return Fix::Stable,
            Pruned::Tighter => {}
            Pruned::Failed => return Fix::Failed,
        }
    }
}

/// Lists of the same propagators, in whatever order, end alike.
pub fn same_in_any_order<P: Propagator>(props: &[P], others: &[P])
    ensures { (s : Sets) → All (λ p. HasVars (P.scope p) s) props.now → All (λ p. HasVars (P.scope p) s) others.now → NoneEmpty s
        → All (Contains props.now) others.now → All (Contains others.now) props.now
        → fix_of P.cut props.now s ≡ fix_of P.cut others.now s }
{
    let _ = props;
    let _ = others;
}

/// Rounds lose no assignment for which all propagators hold, so they fail only where there is none.
pub fn rounds_keep<P: Propagator>(props: &[P])
    ensures { (s : Sets) (x : List ℕ) → All (λ p. HasVars (P.scope p) s) props.now → IsIn x s
        → All (λ p. P.holds p x ≡ true) props.now → Kept x (fix_of P.cut props.now s) }
{
    let _ = props;
}

/// On a store of single values, a propagator that reads some variable fails exactly where it does not hold, and one that leaves the
/// store as it is holds.
pub fn exact_on_single_values<P: Propagator>(p: &P)
    ensures exact { (s : Sets) (x : List ℕ) → HasVars (P.scope p.now) s → IsSingle x s → 0 < length (P.scope p.now)
        → (P.cut p.now s ≡ None) ↔ (P.holds p.now x ≡ false) }
    ensures holds { (s : Sets) (x : List ℕ) → HasVars (P.scope p.now) s → IsSingle x s
        → (length (P.scope p.now) ≡ 0 → P.holds p.now x ≡ true) → P.cut p.now s ≡ Some s → P.holds p.now x ≡ true }
{
    let _ = p;
}
