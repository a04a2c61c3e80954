//! An engine: propagators with a store, and all that runs of them need.

ghost use Rattle.std.specs.Prelude.{◌≡◌, ℕ, ◌<◌, ◌≤◌, List, [], ◌∷◌, ◌++◌, length, All, IfOk, OnOk, OnErr, None, Some, option_and_then};
ghost use Rattle.std.specs.Prelude.{slice_index_or, slice_set};
ghost use Rattle.un_domains.specs.Sets.{Sets, NoneEmpty, cut_by};
ghost use Rattle.un_prop.specs.Rounds.{HasVars, fix_of};
ghost use Rattle.un_prop.specs.Pruning.{IsFix};
ghost use Rattle.un_domains.specs.Sides.{side_test};
ghost use Rattle.un_engine.specs.Ends.{IsEnd, IsDeeper};

use std::alloc::Global;
use std::marker::Model;
use un_base::ids::VarId;
use un_base::memory_error::NoMemory;
use un_domains::side::Side;
use un_domains::store::Store;
use un_domains::trail::Words;
use un_prop::changed::run_from;
use un_prop::child::run_child;
use un_prop::propagator::{Propagator, Scratch};
use un_prop::queue::{Queue, measure, rest_all, wake_all};
use un_prop::readers::Readers;
use un_prop::run::Fix;

/// Propagators with a store, and all that runs of them need. Where no set is empty, no propagator changes the sets. Contracts
/// see the propagators, and the sets with their marks.
#[derive(Drop)]
pub struct Engine<P: Propagator + Drop> {
    alloc: Global,
    props: Vec<P>,
    readers: Readers,
    store: Store,
    scratch: Scratch,
    waiting: Queue,
    sizes: Words,
}

impl<P: Propagator + Drop> Model for Engine<P> {
    ghost use Rattle.std.specs.Prelude.{length};
    ghost use Rattle.un_engine.specs.Engines.{State, IsEngine};

    ghost Value = { State P };

    ghost view = { λ e. record { props = e.props.items; store = e.store } };

    ghost invariant = { λ e. IsEngine P.scope P.cut P.span e.props.items e.store e.readers.rows.items (length e.waiting) e.sizes
        e.scratch };
}

impl<P: Propagator + Drop> Engine<P> {
    /// An engine at what the rounds leave of the store, or none where they fail. Cycles go from 0 to `horizon`.
    ///
    /// # Errors
    /// Where memory is short.
    pub fn new(
        alloc: Global,
        props: Vec<P>,
        store: Store,
        horizon: u32,
    ) -> Result<Option<Engine<P>>, NoMemory>
        requires known { All (λ p. HasVars (P.scope p) store.sets) props.items }
        requires spans { All (λ p. P.span p ≤ horizon) props.items }
        requires live { NoneEmpty store.sets }
        requires fresh { store.marked ≡ [] }
        ensures { IfOk result (IsEnd P.cut props.items store.sets) }
    {
        let mut store = store;
        let vars = store.len();
        let readers = Readers::new(alloc, props.as_slice(), vars as usize)?;
        let mut scratch = Scratch::new(alloc, vars, horizon)?;
        let mut waiting = Queue::new(alloc, props.as_slice())?;
        let mut counts = vec![in alloc; 0; vars as usize]?;
        measure(&store, counts.as_mut_slice());
        let mut sizes = Words::new(alloc, counts);
        wake_all(&mut waiting);
        let fix = run_from(
            props.as_slice(),
            &readers,
            &mut store,
            &mut scratch,
            &mut waiting,
            &mut sizes,
        );
        match fix {
            Fix::Failed => Ok(None),
            Fix::Stable => Ok(Some(Engine {
                alloc,
                props,
                readers,
                store,
                scratch,
                waiting,
                sizes,
            })),
        }
    }

    /// Puts a propagator of the same variables in the place of one that changes no sets that it leaves as they are, and runs what that
    /// wakes: at first it alone. Where it fails, some set is empty from then on. It takes no memory.
    pub fn tighten(&mut self, at: usize, p: P) -> Fix
        requires there { at < length self.old.props }
        requires live { NoneEmpty self.old.store.sets }
        requires fresh { self.old.store.marked ≡ [] }
        requires scope { P.scope p ≡ P.scope (slice_index_or self.old.props at p) }
        requires span { P.span p ≤ P.span (slice_index_or self.old.props at p) }
        requires stricter { (s : Sets) → NoneEmpty s → HasVars (P.scope p) s → P.cut p s ≡ Some s
            → P.cut (slice_index_or self.old.props at p) s ≡ Some s }
        ensures props { self.new.props ≡ slice_set self.old.props at p }
        ensures long { length self.new.store.sets ≡ length self.old.store.sets }
        ensures fresh { self.new.store.marked ≡ [] }

        // From what the rounds leave of a box to what they leave of it with the new one.
        ensures fix { (box : Sets) → NoneEmpty box → length box ≡ length self.old.store.sets
            → fix_of P.cut self.old.props box ≡ Some self.old.store.sets
            → IsFix (fix_of P.cut (slice_set self.old.props at p) box) self.new.store.sets result }
    {
        self.props[at] = p;
        self.waiting.raise(at);
        run_from(
            self.props.as_slice(),
            &self.readers,
            &mut self.store,
            &mut self.scratch,
            &mut self.waiting,
            &mut self.sizes,
        )
    }

    /// The propagators.
    pub fn props(&self) -> &[P]
        ensures { result.now ≡ self.now.props }
    {
        self.props.as_slice()
    }

    /// The store.
    pub fn store(&self) -> &Store
        ensures { result.now ≡ self.now.store }
    {
        &self.store
    }

    /// No propagator changes the sets, where none of them is empty.
    pub fn facts(&self)
        ensures { NoneEmpty self.now.store.sets → fix_of P.cut self.now.props self.now.store.sets ≡ Some self.now.store.sets }
    {
        let _ = &self.store;
    }

    /// Marks the sets, cuts them to one side of the decision on `v` at `x`, and runs what that wakes. Where it fails, some set is
    /// empty until the next `undo`.
    ///
    /// # Errors
    /// Where memory is short; then nothing changed.
    pub fn decide(&mut self, v: VarId, x: u32, side: Side) -> Result<Fix, NoMemory>
        requires there { v.0 < length self.old.store.sets }
        requires live { NoneEmpty self.old.store.sets }

        // From the end of a box to the end of its side.
        ensures child { IfOk result (λ fix. (box : Sets) → NoneEmpty box → length box ≡ length self.old.store.sets
            → fix_of P.cut self.old.props box ≡ Some self.old.store.sets
            → IsFix (option_and_then (fix_of P.cut self.old.props) (cut_by (side_test side x) v.0 box)) self.new.store.sets fix) }
        ensures deeper { OnOk result (IsDeeper self.old self.new) }
        ensures err { OnErr result (self.new ≡ self.old) }
    {
        self.sizes.mark(self.alloc)?;
        match self.store.mark() {
            Ok(()) => {}
            Err(error) => {
                self.sizes.undo();
                return Err(error);
            }
        }
        let fix = run_child(
            self.props.as_slice(),
            &self.readers,
            &mut self.store,
            &mut self.scratch,
            &mut self.waiting,
            &mut self.sizes,
            v,
            x,
            side,
        );
        Ok(fix)
    }

    /// Takes the sets of the last mark back, and that mark away, also after a decision that failed. It costs what changed since.
    pub fn undo(&mut self)
        requires { 0 < length self.old.store.marked }
        ensures back { IsDeeper self.new self.old }
        ensures live { NoneEmpty self.new.store.sets }
    {
        self.store.undo();
        self.sizes.undo();
        rest_all(&mut self.waiting);
    }
}
