//! The step of a search: from what the rounds leave of a node's box to what they leave of the box of a side under it.

ghost use Rattle.std.specs.Prelude.{◌≡◌, ◌≢◌, ℕ, ◌<◌, ◌≤◌, List, length, All, Some, option_and_then, true, false};
ghost use Rattle.un_domains.specs.Sets.{Sets, NoneEmpty, cut_by};
ghost use Rattle.un_prop.specs.Rounds.{HasVars, fix_of};
ghost use Rattle.un_prop.specs.Pruning.{IsFix, Ends, HasRoom};
ghost use Rattle.un_prop.specs.Queues.{IsTable, IsReady, IsSizes, waits};
ghost use Rattle.un_domains.specs.Sides.{side_test};

use crate::changed::run_from;
use crate::propagator::{Propagator, Pruned, Scratch};
use crate::queue::{Queue, wake_changed};
use crate::readers::Readers;
use crate::run::Fix;
use crate::step::answer;
use un_base::ids::VarId;
use un_domains::side::Side;
use un_domains::store::Store;
use un_domains::trail::Words;

/// Cuts a store to one side of a decision.
fn decide(store: &mut Store, v: VarId, x: u32, side: Side) -> Pruned
    requires there { v.0 < length store.old.sets }
    requires live { NoneEmpty store.old.sets }
    ensures ends { Ends (cut_by (side_test side x) v.0 store.old.sets) store.old.sets store.new.sets result }
    ensures marked { store.new.marked ≡ store.old.marked }
    ensures long { length store.new.sets ≡ length store.old.sets }
{
    match side {
        Side::AtMost => answer(store.keep_le(v, x)),
        Side::Above => answer(store.keep_gt(v, x)),
    }
}

/// From what the rounds left of a node's box, what they leave of the box of one side of the decision on `v` at `x`, without
/// any pruning in between. It takes no memory.
pub fn run_child<P: Propagator>(
    props: &[P],
    readers: &Readers,
    store: &mut Store,
    scratch: &mut Scratch,
    waiting: &mut Queue,
    sizes: &mut Words,
    v: VarId,
    x: u32,
    side: Side,
) -> Fix
    requires known { All (λ p. HasVars (P.scope p) store.old.sets) props.now }
    requires live { NoneEmpty store.old.sets }
    requires room { All (λ p. HasRoom (length store.old.sets) (P.span p) scratch.old) props.now }
    requires table { IsTable P.scope props.now (length store.old.sets) readers.now.rows.items }
    requires flags { length waiting.old ≡ length props.now }
    requires sizes { IsSizes sizes.old.words store.old.sets }
    requires there { v.0 < length store.old.sets }

    // The node's run ended.
    requires stable { All (λ p. P.cut p store.old.sets ≡ Some store.old.sets) props.now }

    // Where the store is what the rounds leave of the node's box, it then is what they leave of the side's box.
    ensures long { length store.new.sets ≡ length store.old.sets }
    ensures marked { store.new.marked ≡ store.old.marked }
    ensures sizes { result ≡ Fix.Stable → IsSizes sizes.new.words store.new.sets }
    ensures noted { sizes.new.marked ≡ sizes.old.marked }
    ensures fixed { length scratch.new.fixed.items ≡ length scratch.old.fixed.items }
    ensures cycles { length scratch.new.cycles.items ≡ length scratch.old.cycles.items }
    ensures flags { length waiting.new ≡ length waiting.old }
    ensures rests { ((i : ℕ) → waits waiting.old i ≡ false) → result ≡ Fix.Stable → (i : ℕ) → waits waiting.new i ≡ false }
    ensures child { (box : Sets) → NoneEmpty box → All (λ p. HasVars (P.scope p) box) props.now → v.0 < length box
        → fix_of P.cut props.now box ≡ Some store.old.sets
        → IsFix (option_and_then (fix_of P.cut props.now) (cut_by (side_test side x) v.0 box)) store.new.sets result }
{
    match decide(store, v, x, side) {
        Pruned::Same => Fix::Stable,
        Pruned::Failed => Fix::Failed,
        Pruned::Tighter => {
            let vars = [v];
            wake_changed(
                vars.as_slice(),
                store,
                readers.rows.as_slice(),
                sizes,
                waiting,
            );
            run_from(props, readers, store, scratch, waiting, sizes)
        }
    }
}
