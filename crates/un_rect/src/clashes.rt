//! Registers that a sure temporary takes from those that it surely overlaps.

ghost use Rattle.std.specs.Prelude.{◌≡◌, ◌≢◌, ◌+◌, ◌<◌, ◌≤◌, ℕ, All, length, nat_eq, nat_lt, slice_index_or, true, Some};
ghost use Rattle.un_domains.specs.Sets.{NoneEmpty, least, set_at};
ghost use Rattle.un_prop.specs.Going.{Stepped};
ghost use Rattle.un_prop.specs.Rounds.{HasVars};
ghost use Rattle.un_prop.specs.declared.act.Temp.{Temp};
ghost use Rattle.un_prop.specs.declared.propagator.Pruned.TheVariants.{Same, Failed};
ghost use Rattle.un_rect.specs.Spans.{last_sure_use, least_end, UserVars, TempVars};
ghost use Rattle.un_rect.specs.Apart.{sure_overlap, clash_cut, clash_pair, clashes_cut};
ghost use Rattle.un_rect.specs.Checks.{IsClash};
ghost use Rattle.un_rect.specs.Extents.{AreExtents, AreExtentsBefore, extent_of};
ghost use Rattle.un_rect.specs.Pairs.{each_before};

use crate::extents::{Extent, before_again, may_clash, note_next};
use crate::spans::{is_on, is_sure_user};
use un_domains::window::Window;
use un_prop::act::{Temp, UserOf};
use un_prop::look::{greatest_time, least_time};
use un_prop::propagator::Pruned;
use un_prop::step::{drop_value, joined};

/// Whether the least time of some sure user is after `t`. Times are looked at first, since few are.
fn is_used_after(w: &Window<'_>, users: &[UserOf], t: u32) -> bool
    requires vars { All (UserVars w.now.vars.now) users.now }
    requires known { HasVars w.now.vars.now w.now.store.now.sets }
    requires live { NoneEmpty w.now.store.now.sets }
    ensures { result ≡ nat_lt t (last_sure_use users.now w.now.store.now.sets) }
{
    for u in users {
        if least_time(w, u.at) > t {
            if is_sure_user(w, u) {
                return true;
            }
        }
    }
    false
}

/// Whether the least end of a temporary is after `t`.
pub(crate) fn ends_after(w: &Window<'_>, a: &Temp, t: u32) -> bool
    requires vars { TempVars w.now.vars.now a.now }
    requires known { HasVars w.now.vars.now w.now.store.now.sets }
    requires live { NoneEmpty w.now.store.now.sets }
    ensures { result ≡ nat_lt t (least_end a.now w.now.store.now.sets) }
{
    if least_time(w, a.at) >= t {
        return true;
    }
    is_used_after(w, a.users.as_slice(), t)
}

/// Whether two temporaries are sure and overlap.
fn overlaps(w: &Window<'_>, a: &Temp, b: &Temp) -> bool
    requires of_a { TempVars w.now.vars.now a.now }
    requires of_b { TempVars w.now.vars.now b.now }
    requires known { HasVars w.now.vars.now w.now.store.now.sets }
    requires live { NoneEmpty w.now.store.now.sets }
    ensures { result ≡ sure_overlap a.now b.now w.now.store.now.sets }
{
    if !is_on(w, a.on) {
        return false;
    }
    if !is_on(w, b.on) {
        return false;
    }
    if !ends_after(w, a, greatest_time(w, b.at)) {
        return false;
    }
    ends_after(w, b, greatest_time(w, a.at))
}

/// The register that is left of `a`, where `b` has it and may not keep it.
fn clash(w: &Window<'_>, a: &Temp, b: &Temp) -> Option<u32>
    requires of_a { TempVars w.now.vars.now a.now }
    requires of_b { TempVars w.now.vars.now b.now }
    requires known { HasVars w.now.vars.now w.now.store.now.sets }
    requires live { NoneEmpty w.now.store.now.sets }
    ensures { IsClash a.now b.now w.now.store.now.sets result }
{
    if !w.is_single(a.reg) {
        return None;
    }
    let r = w.min(a.reg);
    if !w.has(b.reg, r) {
        return None;
    }
    if overlaps(w, a, b) { Some(r) } else { None }
}

/// Where both are sure and overlap, the one register that is left of `a` goes from `b`.
fn keep_clash(w: &mut Window<'_>, before: Pruned, a: &Temp, b: &Temp) -> Pruned
    requires of_a { TempVars w.old.vars.now a.now }
    requires of_b { TempVars w.old.vars.now b.now }
    requires known { HasVars w.old.vars.now w.old.store.now.sets }
    requires live { before ≢ Failed → NoneEmpty w.old.store.now.sets }
    ensures step { Stepped w.old.vars.now (clash_cut a.now b.now) w.old.store.now w.new.store.now before result }
    ensures same_reference { w.new.store.ghost_name ≡ w.old.store.ghost_name }
    ensures vars { w.new.vars ≡ w.old.vars }
{
    if before == Pruned::Failed {
        return before;
    }
    match clash(w, a, b) {
        None => before,
        Some(r) => drop_value(w, before, b.reg, r),
    }
}

/// And the other way round.
fn keep_clashes(w: &mut Window<'_>, before: Pruned, a: &Temp, b: &Temp) -> Pruned
    requires of_a { TempVars w.old.vars.now a.now }
    requires of_b { TempVars w.old.vars.now b.now }
    requires known { HasVars w.old.vars.now w.old.store.now.sets }
    requires live { before ≢ Failed → NoneEmpty w.old.store.now.sets }
    ensures step { Stepped w.old.vars.now (clash_pair a.now b.now) w.old.store.now w.new.store.now before result }
    ensures same_reference { w.new.store.ghost_name ≡ w.old.store.ghost_name }
    ensures vars { w.new.vars ≡ w.old.vars }
{
    let first = keep_clash(w, before, a, b);
    keep_clash(w, first, b, a)
}

/// Whether two temporaries of these extents do not clash: by what was noted of them, or the other has lost the one register that is left
/// of one.
fn passes(w: &Window<'_>, a: &Temp, b: &Temp, x: Extent, y: Extent) -> bool
    requires of_a { TempVars w.now.vars.now a.now }
    requires of_b { TempVars w.now.vars.now b.now }
    requires known { HasVars w.now.vars.now w.now.store.now.sets }
    requires live { NoneEmpty w.now.store.now.sets }
    requires first { x ≡ extent_of a.now w.now.store.now.sets }
    requires second { y ≡ extent_of b.now w.now.store.now.sets }
    ensures { result ≡ true → clash_pair a.now b.now w.now.store.now.sets ≡ Some w.now.store.now.sets }
{
    if !may_clash(x, y) {
        return true;
    }
    if !y.one {
        return !w.has(b.reg, x.reg);
    }
    if !x.one {
        return !w.has(a.reg, y.reg);
    }
    false
}

/// The first place from `from` on whose temporary may clash with that at place `j`, by what was noted of them; `j` where there is none.
fn next_noted(w: &Window<'_>, temps: &[Temp], extents: &[Extent], from: usize, j: usize) -> usize
    requires there { j < length temps.now }
    requires order { from ≤ j }
    requires of_temps { All (TempVars w.now.vars.now) temps.now }
    requires known { HasVars w.now.vars.now w.now.store.now.sets }
    requires live { NoneEmpty w.now.store.now.sets }
    requires are { AreExtents temps.now w.now.store.now.sets extents.now }
    ensures low { from ≤ result }
    ensures high { result ≤ j }
    ensures passed { (i : ℕ) (a b : Temp) → from ≤ i → i < result → clash_pair (slice_index_or temps.now i a) (slice_index_or temps.now j b)
        w.now.store.now.sets ≡ Some w.now.store.now.sets }
{
    if j >= extents.len() {
        return from;
    }
    let b = &temps[j];
    let y = extents[j];
    for i in from..j {
        if !passes(w, &temps[i], b, extents[i], y) {
            return i;
        }
    }
    j
}

/// Whether a temporary cannot clash with another of which it is told whether one register is left, and the least one: neither has one
/// register left, or the other has lost that of one.
fn misses(w: &Window<'_>, a: &Temp, b: &Temp, one: bool, reg: u32) -> bool
    requires of_a { TempVars w.now.vars.now a.now }
    requires of_b { TempVars w.now.vars.now b.now }
    requires known { HasVars w.now.vars.now w.now.store.now.sets }
    requires live { NoneEmpty w.now.store.now.sets }
    requires one { one ≡ nat_eq (length (set_at w.now.store.now.sets b.now.reg.0)) 1 }
    requires reg { reg ≡ least (set_at w.now.store.now.sets b.now.reg.0) }
    ensures { result ≡ true → clash_pair a.now b.now w.now.store.now.sets ≡ Some w.now.store.now.sets }
{
    let first = w.is_single(a.reg);
    if one {
        if first {
            return false;
        }
        return !w.has(a.reg, reg);
    }
    if first {
        return !w.has(b.reg, w.min(a.reg));
    }
    true
}

/// The same place by the registers alone that are left of them.
fn next_single(w: &Window<'_>, temps: &[Temp], from: usize, j: usize) -> usize
    requires there { j < length temps.now }
    requires order { from ≤ j }
    requires of_temps { All (TempVars w.now.vars.now) temps.now }
    requires known { HasVars w.now.vars.now w.now.store.now.sets }
    requires live { NoneEmpty w.now.store.now.sets }
    ensures low { from ≤ result }
    ensures high { result ≤ j }
    ensures passed { (i : ℕ) (a b : Temp) → from ≤ i → i < result → clash_pair (slice_index_or temps.now i a) (slice_index_or temps.now j b)
        w.now.store.now.sets ≡ Some w.now.store.now.sets }
{
    let b = &temps[j];
    let one = w.is_single(b.reg);
    let reg = w.min(b.reg);
    for i in from..j {
        if !misses(w, &temps[i], b, one, reg) {
            return i;
        }
    }
    j
}

/// The first place from `from` on whose temporary may clash with that at place `j`, or `j`. What was noted of them stands until something
/// changed; from then on the registers that are left are looked at.
fn next_clash(
    w: &Window<'_>,
    temps: &[Temp],
    extents: &[Extent],
    did: Pruned,
    from: usize,
    j: usize,
) -> usize
    requires there { j < length temps.now }
    requires order { from ≤ j }
    requires of_temps { All (TempVars w.now.vars.now) temps.now }
    requires known { HasVars w.now.vars.now w.now.store.now.sets }
    requires live { did ≢ Failed → NoneEmpty w.now.store.now.sets }
    requires are { did ≡ Same → AreExtents temps.now w.now.store.now.sets extents.now }
    ensures low { from ≤ result }
    ensures high { result ≤ j }
    ensures passed { (i : ℕ) (a b : Temp) → from ≤ i → i < result → clash_pair (slice_index_or temps.now i a) (slice_index_or temps.now j b)
        w.now.store.now.sets ≡ Some w.now.store.now.sets }
{
    match did {
        Pruned::Same => next_noted(w, temps, extents, from, j),
        Pruned::Tighter => next_single(w, temps, from, j),
        Pruned::Failed => from,
    }
}

/// Of the temporary at place `j` with each one before it. There is nothing to do where it is not sure.
fn keep_row(w: &mut Window<'_>, temps: &[Temp], extents: &[Extent], j: usize) -> Pruned
    requires there { j < length temps.now }
    requires of_temps { All (TempVars w.old.vars.now) temps.now }
    requires known { HasVars w.old.vars.now w.old.store.now.sets }
    requires live { NoneEmpty w.old.store.now.sets }
    requires are { AreExtents temps.now w.old.store.now.sets extents.now }
    ensures step { (b : Temp) → Stepped w.old.vars.now (each_before clash_pair temps.now (slice_index_or temps.now j b) j)
        w.old.store.now w.new.store.now Same result }
    ensures same_reference { w.new.store.ghost_name ≡ w.old.store.ghost_name }
    ensures vars { w.new.vars ≡ w.old.vars }
{
    let b = &temps[j];
    if !is_on(w, b.on) {
        return Pruned::Same;
    }
    let mut did = Pruned::Same;
    let mut i = next_clash(w, temps, extents, did, 0, j);
    while i < j {
        did = keep_clashes(w, did, &temps[i], b);
        i = next_clash(w, temps, extents, did, i + 1, j);
    }
    did
}

/// The same, after other rows. Those up to place `j` are noted, again where it changes something: the later ones are not looked at yet.
fn keep_next(
    w: &mut Window<'_>,
    before: Pruned,
    temps: &[Temp],
    extents: &mut [Extent],
    j: usize,
) -> Pruned
    requires there { j < length temps.now }
    requires of_temps { All (TempVars w.old.vars.now) temps.now }
    requires known { HasVars w.old.vars.now w.old.store.now.sets }
    requires live { before ≢ Failed → NoneEmpty w.old.store.now.sets }
    requires are { before ≢ Failed → AreExtentsBefore j temps.now w.old.store.now.sets extents.old }
    ensures step { (b : Temp) → Stepped w.old.vars.now (each_before clash_pair temps.now (slice_index_or temps.now j b) j)
        w.old.store.now w.new.store.now before result }
    ensures are { result ≢ Failed → AreExtentsBefore (j + 1) temps.now w.new.store.now.sets extents.new }
    ensures same_reference { w.new.store.ghost_name ≡ w.old.store.ghost_name }
    ensures vars { w.new.vars ≡ w.old.vars }
{
    if before == Pruned::Failed {
        return before;
    }
    note_next(w, temps, extents, j);
    let end = extents.len().min(j + 1);
    let did = keep_row(w, temps, &extents[..end], j);
    before_again(w, did, temps, extents, j + 1);
    joined(before, did)
}

/// Of each two sure temporaries that overlap, takes the one register left of one from the other. Notes their extents.
pub(crate) fn keep_all(
    w: &mut Window<'_>,
    before: Pruned,
    temps: &[Temp],
    extents: &mut [Extent],
) -> Pruned
    requires of_temps { All (TempVars w.old.vars.now) temps.now }
    requires known { HasVars w.old.vars.now w.old.store.now.sets }
    requires live { before ≢ Failed → NoneEmpty w.old.store.now.sets }
    ensures step { Stepped w.old.vars.now (clashes_cut temps.now) w.old.store.now w.new.store.now before result }
    ensures are { result ≢ Failed → AreExtents temps.now w.new.store.now.sets extents.new }
    ensures same_reference { w.new.store.ghost_name ≡ w.old.store.ghost_name }
    ensures vars { w.new.vars ≡ w.old.vars }
{
    let mut did = before;
    for j in 0..temps.len() {
        did = keep_next(w, did, temps, extents, j);
    }
    did
}
