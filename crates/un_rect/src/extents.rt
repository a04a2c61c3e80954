//! What a store says of each temporary, noted once for many looks: its starts, its least end, its last reading and its register.

ghost use Rattle.std.specs.Prelude.{◌≡◌, ◌≢◌, All};
ghost use Rattle.un_domains.specs.Sets.{NoneEmpty};
ghost use Rattle.un_prop.specs.Rounds.{HasVars};
ghost use Rattle.un_prop.specs.declared.propagator.Pruned.TheVariants.{Same, Failed};
ghost use Rattle.un_rect.specs.Extents.{extent_of, unsure_extent, may_clash, is_settled, may_lead, may_order, AreExtents, AreExtentsBefore};
ghost use Rattle.std.specs.Prelude.{◌+◌, ◌<◌, length};
ghost use Rattle.un_rect.specs.Spans.{TempVars};

use crate::spans::{is_on, last_reading, least_end};
use un_domains::window::Window;
use un_prop::act::Temp;
use un_prop::look::{greatest_time, least_time};
use un_prop::propagator::Pruned;

/// How many temporaries of a block are noted where it has few, some, many or most of them; those after them are looked at without a note.
/// Room for more than a block has would cost time at each pruning.
pub(crate) const FEW: usize = 64;

pub(crate) const SOME: usize = 192;

pub(crate) const MANY: usize = 512;

pub(crate) const MOST: usize = 2_048;

/// The greatest and the least start of a temporary that is sure, its last reading where one register is left, its least register and
/// its least end, whether it is sure, and whether one register is left.
#[derive(Clone, Copy)]
pub(crate) struct Extent {
    pub start: u32,
    pub first: u32,
    pub last: u32,
    pub reg: u32,
    pub end: u64,
    pub sure: bool,
    pub one: bool,
}

/// What is written of a temporary that is not sure, and before it is noted.
pub(crate) fn no_extent() -> Extent
    ensures { result ≡ unsure_extent }
{
    Extent {
        start: 0,
        first: 0,
        last: 0,
        reg: 0,
        end: 0,
        sure: false,
        one: false,
    }
}

/// What the store says of a temporary. One that is not sure neither clashes nor has an order.
fn extent_of(w: &Window<'_>, a: &Temp) -> Extent
    requires vars { TempVars w.now.vars.now a.now }
    requires known { HasVars w.now.vars.now w.now.store.now.sets }
    requires live { NoneEmpty w.now.store.now.sets }
    ensures { result ≡ extent_of a.now w.now.store.now.sets }
{
    if !is_on(w, a.on) {
        return no_extent();
    }
    let start = greatest_time(w, a.at);
    let first = least_time(w, a.at);
    let reg = w.min(a.reg);
    let end = least_end(w, a);
    let one = w.is_single(a.reg);
    let last = if one {
        last_reading(w, a.users.as_slice())
    } else {
        0
    };
    Extent {
        start,
        first,
        last,
        reg,
        end,
        sure: true,
        one,
    }
}

/// Notes what the store says of each temporary for which there is room.
fn note(w: &Window<'_>, temps: &[Temp], extents: &mut [Extent])
    requires of_temps { All (TempVars w.now.vars.now) temps.now }
    requires known { HasVars w.now.vars.now w.now.store.now.sets }
    requires live { NoneEmpty w.now.store.now.sets }
    ensures { AreExtents temps.now w.now.store.now.sets extents.new }
{
    for i in 0..temps.len().min(extents.len()) {
        extents[i] = extent_of(w, &temps[i]);
    }
}

/// Notes all again where a step since the last note changed something.
pub(crate) fn note_again(w: &Window<'_>, did: Pruned, temps: &[Temp], extents: &mut [Extent])
    requires of_temps { All (TempVars w.now.vars.now) temps.now }
    requires known { HasVars w.now.vars.now w.now.store.now.sets }
    requires live { did ≢ Failed → NoneEmpty w.now.store.now.sets }
    requires are { did ≡ Same → AreExtents temps.now w.now.store.now.sets extents.old }
    ensures { did ≢ Failed → AreExtents temps.now w.now.store.now.sets extents.new }
{
    if did == Pruned::Tighter {
        note(w, temps, extents);
    }
}

/// Notes what the store says of the temporary at place `j`, if there is room.
pub(crate) fn note_next(w: &Window<'_>, temps: &[Temp], extents: &mut [Extent], j: usize)
    requires there { j < length temps.now }
    requires of_temps { All (TempVars w.now.vars.now) temps.now }
    requires known { HasVars w.now.vars.now w.now.store.now.sets }
    requires live { NoneEmpty w.now.store.now.sets }
    requires are { AreExtentsBefore j temps.now w.now.store.now.sets extents.old }
    ensures { AreExtentsBefore (j + 1) temps.now w.now.store.now.sets extents.new }
{
    if j < extents.len() {
        extents[j] = extent_of(w, &temps[j]);
    }
}

/// Notes what the store says of each temporary before place `n` for which there is room.
fn note_before(w: &Window<'_>, temps: &[Temp], extents: &mut [Extent], n: usize)
    requires of_temps { All (TempVars w.now.vars.now) temps.now }
    requires known { HasVars w.now.vars.now w.now.store.now.sets }
    requires live { NoneEmpty w.now.store.now.sets }
    ensures { AreExtentsBefore n temps.now w.now.store.now.sets extents.new }
{
    for i in 0..n.min(temps.len()).min(extents.len()) {
        extents[i] = extent_of(w, &temps[i]);
    }
}

/// Notes those before place `n` again where a step since the last note changed something.
pub(crate) fn before_again(
    w: &Window<'_>,
    did: Pruned,
    temps: &[Temp],
    extents: &mut [Extent],
    n: usize,
)
    requires of_temps { All (TempVars w.now.vars.now) temps.now }
    requires known { HasVars w.now.vars.now w.now.store.now.sets }
    requires live { did ≢ Failed → NoneEmpty w.now.store.now.sets }
    requires are { did ≡ Same → AreExtentsBefore n temps.now w.now.store.now.sets extents.old }
    ensures { did ≢ Failed → AreExtentsBefore n temps.now w.now.store.now.sets extents.new }
{
    if did == Pruned::Tighter {
        note_before(w, temps, extents, n);
    }
}

/// Whether two temporaries of these extents may clash: they surely overlap, one has one register left, and not both have other ones.
pub(crate) fn may_clash(x: Extent, y: Extent) -> bool
    ensures { result ≡ may_clash x y }
{
    if x.end <= u64::from(y.start) {
        return false;
    }
    if y.end <= u64::from(x.start) {
        return false;
    }
    if x.one && y.one {
        x.reg == y.reg
    } else {
        x.one || y.one
    }
}

/// Whether the second of two temporaries of these extents starts behind the first and its readings.
fn is_settled(x: Extent, y: Extent) -> bool
    ensures { result ≡ is_settled x y }
{
    x.end <= u64::from(y.first) && x.start < y.start && x.last <= y.start
}

/// Whether the first comes first, and is not settled before the second.
fn may_lead(x: Extent, y: Extent) -> bool
    ensures { result ≡ may_lead x y }
{
    u64::from(x.start) < y.end && !is_settled(x, y)
}

/// Whether two temporaries of these extents are sure and have the same one register left, and one of them may still be cut where it
/// comes first.
pub(crate) fn may_order(x: Extent, y: Extent) -> bool
    ensures { result ≡ may_order x y }
{
    if !(x.sure && y.sure && x.one && y.one && x.reg == y.reg) {
        return false;
    }
    may_lead(x, y) || may_lead(y, x)
}
