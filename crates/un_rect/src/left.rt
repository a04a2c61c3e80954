//! What is left to decide of each temporary, noted once for many checks.

ghost use Rattle.std.specs.Prelude.{◌≡◌, ◌≢◌, ◌<◌, ◌≤◌, ℕ, All, Some, length, slice_index_or};
ghost use Rattle.un_domains.specs.Sets.{NoneEmpty};
ghost use Rattle.un_prop.specs.Rounds.{HasVars};
ghost use Rattle.un_prop.specs.declared.act.Temp.{Temp};
ghost use Rattle.un_prop.specs.declared.propagator.Pruned.TheVariants.{Same, Failed};
ghost use Rattle.un_rect.specs.Extents.{is_idle, left_opened, left_of, are_parted, opened_both, left_both, AreLeft, IsNoted};
ghost use Rattle.un_rect.specs.Spans.{TempVars};
ghost use Rattle.un_rect.specs.declared.opened.Opened.{Opened};
ghost use Rattle.un_rect.specs.declared.opened.Opened.TheVariants.{More};

use crate::checks::{is_idle, is_off};
use crate::opened::{Opened, is_more, with_temp};
use crate::spans::greatest_end;
use un_domains::window::Window;
use un_prop::act::Temp;
use un_prop::look::least_time;
use un_prop::propagator::Pruned;

/// Which variables of a temporary are open, more than one where it is off; its least register and whether it is the only one; its
/// least start and its greatest end, 0 where more than one variable is open.
#[derive(Clone, Copy)]
pub(crate) struct Left {
    pub opened: Opened,
    pub reg: u32,
    pub one: bool,
    pub first: u32,
    pub end: u64,
}

/// What is written of a temporary before it is noted.
pub(crate) fn nothing_left() -> Left {
    Left {
        opened: Opened::Nothing,
        reg: 0,
        one: false,
        first: 0,
        end: 0,
    }
}

/// Which variables of a temporary are open. There is nothing to check of one that is off, as where more than one are open.
fn left_opened(w: &Window<'_>, a: &Temp) -> Opened
    requires vars { TempVars w.now.vars.now a.now }
    requires known { HasVars w.now.vars.now w.now.store.now.sets }
    requires live { NoneEmpty w.now.store.now.sets }
    ensures { result ≡ left_opened a.now w.now.store.now.sets }
{
    if is_off(w, a.on) {
        return Opened::More;
    }
    with_temp(w, Opened::Nothing, a)
}

/// What is left to decide of a temporary.
fn left_of(w: &Window<'_>, a: &Temp) -> Left
    requires vars { TempVars w.now.vars.now a.now }
    requires known { HasVars w.now.vars.now w.now.store.now.sets }
    requires live { NoneEmpty w.now.store.now.sets }
    ensures { result ≡ left_of a.now w.now.store.now.sets }
{
    let opened = left_opened(w, a);
    let reg = w.min(a.reg);
    let one = w.is_single(a.reg);
    let first = least_time(w, a.at);
    let end = if is_more(opened) {
        0
    } else {
        greatest_end(w, a)
    };
    Left {
        opened,
        reg,
        one,
        first,
        end,
    }
}

/// Notes what is left to decide of each temporary for which there is room.
pub(crate) fn note_left(w: &Window<'_>, temps: &[Temp], left: &mut [Left])
    requires of_temps { All (TempVars w.now.vars.now) temps.now }
    requires known { HasVars w.now.vars.now w.now.store.now.sets }
    requires live { NoneEmpty w.now.store.now.sets }
    ensures { AreLeft temps.now w.now.store.now.sets left.new }
{
    for i in 0..temps.len().min(left.len()) {
        left[i] = left_of(w, &temps[i]);
    }
}

/// Notes all again where a step since the last note changed something.
pub(crate) fn left_again(w: &Window<'_>, did: Pruned, temps: &[Temp], left: &mut [Left])
    requires of_temps { All (TempVars w.now.vars.now) temps.now }
    requires known { HasVars w.now.vars.now w.now.store.now.sets }
    requires live { did ≢ Failed → NoneEmpty w.now.store.now.sets }
    requires are { did ≡ Same → AreLeft temps.now w.now.store.now.sets left.old }
    ensures { did ≢ Failed → AreLeft temps.now w.now.store.now.sets left.new }
{
    if did == Pruned::Tighter {
        note_left(w, temps, left);
    }
}

/// Whether there is nothing to check of the temporary at place `j` with any other.
pub(crate) fn is_done(w: &Window<'_>, temps: &[Temp], left: &[Left], j: usize) -> bool
    requires there { j < length temps.now }
    requires of_temps { All (TempVars w.now.vars.now) temps.now }
    requires known { HasVars w.now.vars.now w.now.store.now.sets }
    requires live { NoneEmpty w.now.store.now.sets }
    requires are { AreLeft temps.now w.now.store.now.sets left.now }
    ensures { (b : Temp) → result ≡ is_idle (slice_index_or temps.now j b) w.now.store.now.sets }
{
    if j < left.len() {
        is_more(left[j].opened)
    } else {
        is_idle(w, &temps[j])
    }
}

/// Which variables of two temporaries are open.
fn opened_both(x: Opened, y: Opened) -> Opened
    ensures { result ≡ opened_both x y }
{
    match x {
        Opened::Nothing => y,
        Opened::One(u) => match y {
            Opened::Nothing => x,
            Opened::One(v) => { if u.0 == v.0 { x } else { Opened::More } }
            Opened::More => y,
        },
        Opened::More => x,
    }
}

/// Whether one of two temporaries of which this is left ends before the other starts.
fn are_parted(x: Left, y: Left) -> bool
    ensures { result ≡ are_parted x y }
{
    x.end <= u64::from(y.first) || y.end <= u64::from(x.first)
}

/// Which variables are open of two temporaries of which this is left. There is nothing to check of two with other registers, or where
/// one ends before the other starts, as where more than one are open.
fn left_both(x: Left, y: Left) -> Opened
    ensures { result ≡ left_both x y }
{
    if x.one && y.one && x.reg != y.reg {
        return Opened::More;
    }
    if are_parted(x, y) {
        return Opened::More;
    }
    opened_both(x.opened, y.opened)
}

/// The same of the temporaries at two places, where both were noted and nothing changed since.
pub(crate) fn noted_both(left: &[Left], did: Pruned, i: usize, j: usize) -> Option<Opened>
    ensures { (o : Opened) → result ≡ Some o → IsNoted left.now did i j o }
{
    if did != Pruned::Same {
        return None;
    }
    if i >= left.len() {
        return None;
    }
    if j >= left.len() {
        return None;
    }
    Some(left_both(left[i], left[j]))
}

/// The first place from `from` on of which there may be something to check with the temporary at place `j`, by what was noted of them;
/// `j` where there is none. Nothing is known of them any more once something changed.
pub(crate) fn next_left(left: &[Left], did: Pruned, from: usize, j: usize) -> usize
    requires { from ≤ j }
    ensures low { from ≤ result }
    ensures high { result ≤ j }
    ensures passed { (i : ℕ) → from ≤ i → i < result → IsNoted left.now did i j More }
{
    if did != Pruned::Same || j >= left.len() {
        return from;
    }
    let y = left[j];
    for i in from..j {
        match left_both(left[i], y) {
            Opened::More => {}
            _ => return i,
        }
    }
    j
}
