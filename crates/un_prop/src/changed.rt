//! A run of those propagators alone whose variables changed.

ghost use Rattle.std.specs.Prelude.{◌≡◌, ◌≢◌, ℕ, ◌<◌, ◌≤◌, ◌^◌, List, length, All, true, false};
ghost use Rattle.un_domains.specs.Sets.{Sets, NoneEmpty};
ghost use Rattle.un_prop.specs.Rounds.{HasVars, fix_of};
ghost use Rattle.un_prop.specs.Pruning.{IsFix, HasRoom};
ghost use Rattle.un_prop.specs.Queues.{IsTable, IsReady, IsSizes, waits};

use crate::propagator::{Propagator, Pruned, Scratch};
use crate::queue::{Queue, wake_changed};
use crate::readers::Readers;
use crate::run::Fix;
use un_domains::store::Store;
use un_domains::trail::Words;

/// Runs the propagators that wait, and those that read what they change, until one fails or none waits.
pub fn run_from<P: Propagator>(
    props: &[P],
    readers: &Readers,
    store: &mut Store,
    scratch: &mut Scratch,
    waiting: &mut Queue,
    sizes: &mut Words,
) -> Fix
    requires known { All (λ p. HasVars (P.scope p) store.old.sets) props.now }
    requires live { NoneEmpty store.old.sets }
    requires room { All (λ p. HasRoom (length store.old.sets) (P.span p) scratch.old) props.now }
    requires table { IsTable P.scope props.now (length store.old.sets) readers.now.rows.items }
    requires flags { length waiting.old ≡ length props.now }
    requires sizes { IsSizes sizes.old.words store.old.sets }
    requires ready { IsReady P.cut props.now waiting.old store.old.sets }

    // The store afterwards is that of the rounds.
    ensures rounds { IsFix (fix_of P.cut props.now store.old.sets) store.new.sets result }
    ensures long { length store.new.sets ≡ length store.old.sets }
    ensures marked { store.new.marked ≡ store.old.marked }
    ensures noted { sizes.new.marked ≡ sizes.old.marked }
    ensures fixed { length scratch.new.fixed.items ≡ length scratch.old.fixed.items }
    ensures cycles { length scratch.new.cycles.items ≡ length scratch.old.cycles.items }
    ensures flags { length waiting.new ≡ length waiting.old }
    ensures rests { result ≡ Fix.Stable → (i : ℕ) → waits waiting.new i ≡ false }
    ensures sizes { result ≡ Fix.Stable → IsSizes sizes.new.words store.new.sets }
{
    loop {
        match waiting.take() {
            None => return Fix::Stable,
            Some(i) => {
                let p = &props[i];
                match p.prune(store, scratch) {
                    Pruned::Same => {}
                    Pruned::Tighter => {
                        // It may find more to take away.
                        waiting.raise(i);
                        wake_changed(p.reads(), store, readers.rows.as_slice(), sizes, waiting);
                    }
                    Pruned::Failed => return Fix::Failed,
                }
            }
        }
    }
}
