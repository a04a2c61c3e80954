//! A dive: an engine that goes down by decisions which do not fail, and back. Nothing is promised of where it comes to but that it comes
//! back to where it began.

ghost use Rattle.std.specs.Prelude.{◌≡◌, ◌<◌, [], OnOk, length};
ghost use Rattle.un_domains.specs.Sets.{NoneEmpty};
ghost use Rattle.un_search.specs.Dives.{base_of};

use std::marker::Model;
use un_base::ids::VarId;
use un_base::memory_error::NoMemory;
use un_domains::side::Side;
use un_domains::store::Store;
use un_engine::engine::Engine;
use un_kinds::any::AnyProp;
use un_prop::run::Fix;

/// An engine in which no set is empty, and how many decisions may still be made. Contracts see its propagators, and the sets from which
/// it went down.
#[derive(Drop)]
pub(crate) struct Dive {
    engine: Engine<AnyProp>,
    left: u32,
}

/// Goes to one side of a variable. Whether the rounds held; where they failed, the engine is where it was.
fn go(engine: &mut Engine<AnyProp>, v: VarId, x: u32, side: Side) -> Result<bool, NoMemory>
    requires there { v.0 < length engine.old.store.sets }
    requires live { NoneEmpty engine.old.store.sets }
    ensures live { NoneEmpty engine.new.store.sets }
    ensures base { OnOk result (base_of engine.new ≡ base_of engine.old) }
{
    engine.facts();
    match engine.decide(v, x, side)? {
        Fix::Stable => Ok(true),
        Fix::Failed => {
            engine.undo();
            Ok(false)
        }
    }
}

/// An engine that has gone back to its first mark.
fn up(engine: Engine<AnyProp>) -> Engine<AnyProp>
    ensures props { result.props ≡ engine.props }
    ensures sets { result.store.sets ≡ (base_of engine).sets }
    ensures fresh { result.store.marked ≡ [] }
{
    let mut engine = engine;
    while engine.store().marks() > 0 {
        engine.undo();
    }
    engine
}

/// The least value of a variable; 0 where there is none of this number.
fn least_of(store: &Store, v: VarId) -> u32
    requires { NoneEmpty store.now.sets }
{
    if v.0 < store.len() { store.min(v) } else { 0 }
}

/// The greatest value of a variable; 0 where there is none of this number.
fn greatest_of(store: &Store, v: VarId) -> u32
    requires { NoneEmpty store.now.sets }
{
    if v.0 < store.len() { store.max(v) } else { 0 }
}

impl Model for Dive {
    ghost use Rattle.un_domains.specs.Sets.{NoneEmpty};
    ghost use Rattle.un_search.specs.Dives.{Base, base_of};

    ghost Value = { Base };

    ghost view = { λ d. base_of d.engine };

    ghost invariant = { λ d. NoneEmpty d.engine.store.sets };
}

impl Dive {
    /// A dive from where an engine is, with so many decisions.
    pub(crate) fn new(engine: Engine<AnyProp>, left: u32) -> Dive
        requires { NoneEmpty engine.store.sets }
        ensures { result ≡ base_of engine }
    {
        Dive { engine, left }
    }

    /// The engine, where the dive began.
    pub(crate) fn into_engine(self) -> Engine<AnyProp>
        ensures props { result.props ≡ self.props }
        ensures sets { result.store.sets ≡ self.sets }
        ensures fresh { result.store.marked ≡ [] }
    {
        up(self.engine)
    }

    /// How many decisions may still be made.
    pub(crate) fn left(&self) -> u32 {
        self.left
    }

    fn store(&self) -> &Store
        ensures live { NoneEmpty result.now.sets }
    {
        self.engine.store()
    }

    /// How many values a variable has; 0 where there is none of this number.
    pub(crate) fn size(&self, v: VarId) -> u32 {
        let store = self.store();
        if v.0 < store.len() { store.size(v) } else { 0 }
    }

    /// Whether a variable has more than one value.
    pub(crate) fn is_open(&self, v: VarId) -> bool {
        let store = self.store();
        v.0 < store.len() && !store.is_single(v)
    }

    /// Whether a variable has this value.
    pub(crate) fn has(&self, v: VarId, x: u32) -> bool {
        let store = self.store();
        v.0 < store.len() && store.has(v, x)
    }

    /// The least value of a variable; 0 where there is none of this number.
    pub(crate) fn least(&self, v: VarId) -> u32 {
        least_of(self.store(), v)
    }

    /// The greatest value of a variable; 0 where there is none of this number.
    pub(crate) fn greatest(&self, v: VarId) -> u32 {
        greatest_of(self.store(), v)
    }

    /// Goes to one side of a variable. Whether the rounds held; where they failed, or no decision was left, the dive is where it was.
    pub(crate) fn decide(&mut self, v: VarId, x: u32, side: Side) -> Result<bool, NoMemory>
        ensures { OnOk result (self.new ≡ self.old) }
    {
        if self.left == 0 || v.0 >= self.engine.store().len() {
            return Ok(false);
        }
        self.left -= 1;
        go(&mut self.engine, v, x, side)
    }

    /// Goes back by one decision, where there is one.
    pub(crate) fn back(&mut self)
        ensures { self.new ≡ self.old }
    {
        if self.engine.store().marks() > 0 {
            self.engine.undo();
        }
    }

    /// Goes back to where the dive began.
    pub(crate) fn rise(&mut self)
        ensures { self.new ≡ self.old }
    {
        for _ in 0..self.store().marks() {
            self.back();
        }
    }
}
