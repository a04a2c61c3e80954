//! Which propagators wait, since a variable that they read has changed.

ghost use Rattle.std.specs.Prelude.{◌≡◌, ℕ, ◌<◌, ◌≤◌, ◌^◌, ◌⊎◌, List, [], ◌∷◌, length, All, IfOk, MatchOption, true, false, slice_index};
ghost use Rattle.std.specs.Prelude.{slice_index_or, slice_set, replicate};
ghost use Rattle.std.specs.VecDeque.{deque_capacity};
ghost use Rattle.un_domains.specs.Sets.{Sets, set_at, has};
ghost use Rattle.un_prop.specs.Queues.{waits, Grows, AllWait, IsSizes};

use crate::propagator::Propagator;
use std::alloc::{AllocError, Global};
use std::collections::VecDeque;
use std::marker::Model;
use un_base::ids::VarId;
use un_domains::store::Store;
use un_domains::trail::Words;
use un_lists::items::Items;

/// The places of propagators that wait, in the order in which they came: the light ones, and the heavy ones.
#[derive(Drop)]
struct Places {
    light: VecDeque<usize>,
    heavy: VecDeque<usize>,
}

/// Which propagators wait: a flag for each, and the places of those that wait. Contracts see the flags.
#[derive(Drop)]
pub struct Queue {
    flags: Vec<bool>,
    heavy: Vec<bool>,
    places: Places,
}

impl Model for Queue {
    ghost use Rattle.std.specs.Prelude.{List, Bool, length};
    ghost use Rattle.std.specs.VecDeque.{deque_capacity};
    ghost use Rattle.un_prop.specs.Queues.{IsQueue};

    ghost Value = { List Bool };

    ghost view = { λ a. a.flags.items };

    ghost invariant = { λ a. IsQueue a.flags.items (length a.heavy.items) a.places.light.items (deque_capacity a.places.light)
        a.places.heavy.items (deque_capacity a.places.heavy) };
}

/// No places, with room for `n` of either weight.
fn no_places(alloc: Global, n: usize) -> Result<Places, AllocError>
    ensures light { IfOk result (λ p. (p.light.items ≡ []) × (n ≤ deque_capacity p.light)) }
    ensures heavy { IfOk result (λ p. (p.heavy.items ≡ []) × (n ≤ deque_capacity p.heavy)) }
{
    let light = VecDeque::with_capacity(alloc, n)?;
    let heavy = VecDeque::with_capacity(alloc, n)?;
    Ok(Places { light, heavy })
}

/// Which of these propagators are heavy.
fn weights<P: Propagator>(alloc: Global, props: &[P]) -> Result<Vec<bool>, AllocError>
    ensures { IfOk result (λ ws. length ws.items ≡ length props.now) }
{
    let mut heavy = Vec::new(alloc);
    for p in props {
        heavy.push(p.is_heavy())?;
    }
    Ok(heavy)
}

impl Queue {
    ghost use Rattle.un_prop.specs.Queues.{waits};

    /// A queue of these propagators, of which none waits, with room for all.
    pub fn new<P: Propagator>(alloc: Global, props: &[P]) -> Result<Queue, AllocError>
        ensures { IfOk result (λ q. q ≡ replicate (length props.now) false) }
    {
        let heavy = weights(alloc, props)?;
        let places = no_places(alloc, props.len())?;
        let flags = vec![in alloc; false; props.len()]?;
        Ok(Queue {
            flags,
            heavy,
            places,
        })
    }

    /// How many propagators there are.
    pub fn len(&self) -> usize
        ensures { result ≡ length self.now }
    {
        self.flags.len()
    }

    /// A propagator that waits, which then waits no more. Of the light ones it is the one that waits longest; a heavy one comes after
    /// them.
    pub fn take(&mut self) -> Option<usize>
        ensures next { MatchOption result ((i : ℕ) → waits self.old i ≡ false) (λ i. (i < length self.old) × (waits self.old i ≡ true)) }
        ensures rests { MatchOption result (self.new ≡ self.old) (λ i. self.new ≡ slice_set self.old i false) }
    {
        match self.places.light.pop_front() {
            Some(i) => {
                self.flags[i] = false;
                Some(i)
            }
            None => match self.places.heavy.pop_front() {
                Some(i) => {
                    self.flags[i] = false;
                    Some(i)
                }
                None => None,
            },
        }
    }

    /// Lets a propagator wait. It takes no memory.
    pub fn raise(&mut self, i: usize)
        requires { i < length self.old }
        ensures { self.new ≡ slice_set self.old i true }
    {
        if self.flags[i] {
            return;
        }
        self.flags[i] = true;
        if self.heavy[i] {
            self.places.heavy.push_back_reserved(i);
        } else {
            self.places.light.push_back_reserved(i);
        }
    }
}

/// Lets the propagators at these places wait.
pub(crate) fn wake(places: &[usize], waiting: &mut Queue)
    requires { (i : ℕ) → has places.now i ≡ true → i < length waiting.old }
    ensures flags { length waiting.new ≡ length waiting.old }
    ensures there { (i : ℕ) → has places.now i ≡ true → waits waiting.new i ≡ true }
    ensures grows { Grows waiting.old waiting.new }
{
    for i in places {
        waiting.raise(*i);
    }
}

/// How many values a variable has. Most have one, which their ends tell.
fn count(store: &Store, v: VarId) -> u64
    requires { v.0 < length store.now.sets }
    ensures { result ≡ length (set_at store.now.sets v.0) }
{
    if store.is_single(v) {
        return 1;
    }
    store.size(v) as u64
}

/// Lets all propagators wait that read a variable of these which has another number of values than was noted, and
/// notes it.
pub(crate) fn wake_changed(
    vars: &[VarId],
    store: &Store,
    table: &[Items<usize>],
    sizes: &mut Words,
    waiting: &mut Queue,
)
    requires known { All (λ v. v.0 < length store.now.sets) vars.now }
    requires sizes { length sizes.old.words ≡ length store.now.sets }
    requires table { length table.now ≡ length store.now.sets }
    requires within { (v i : ℕ) → has (set_at table.now v) i ≡ true → i < length waiting.old }
    ensures flags { length waiting.new ≡ length waiting.old }
    ensures noted { All (λ v. slice_index sizes.new.words v.0 ≡ length (set_at store.now.sets v.0)) vars.now }
    ensures others { (w : ℕ) → All (λ v. (w ≡ v.0) → ⊥) vars.now → slice_index sizes.new.words w ≡ slice_index sizes.old.words w }
    ensures woken { (w : ℕ) → (slice_index sizes.new.words w ≡ slice_index sizes.old.words w) ⊎ AllWait table.now waiting.new w }
    ensures long { length sizes.new.words ≡ length sizes.old.words }
    ensures marked { sizes.new.marked ≡ sizes.old.marked }
    ensures grows { Grows waiting.old waiting.new }
{
    for v in vars {
        let at = v.0 as usize;
        let size = count(store, *v);
        if size != sizes.get(at) {
            sizes.set(at, size);
            wake(table[at].as_slice(), waiting);
        }
    }
}

/// Notes how many values each variable has.
pub fn measure(store: &Store, sizes: &mut [u64])
    requires long { length sizes.old ≡ length store.now.sets }
    requires small { length sizes.old ≤ 2 ^ 32 }
    ensures { IsSizes sizes.new store.now.sets }
{
    for i in 0..sizes.len() {
        sizes[i] = store.size(VarId(i as u32)) as u64;
    }
}

/// Lets all wait, as at a root.
pub fn wake_all(waiting: &mut Queue)
    ensures flags { length waiting.new ≡ length waiting.old }
    ensures wait { (i : ℕ) → i < length waiting.old → waits waiting.new i ≡ true }
{
    for i in 0..waiting.len() {
        waiting.raise(i);
    }
}

/// Lets none wait, as after a run that failed. It costs what the number of those that wait does.
pub fn rest_all(waiting: &mut Queue)
    ensures flags { length waiting.new ≡ length waiting.old }
    ensures rest { (i : ℕ) → waits waiting.new i ≡ false }
{
    loop {
        match waiting.take() {
            None => return,
            Some(_) => {}
        }
    }
}
