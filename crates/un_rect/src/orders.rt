//! The order of two sure temporaries with the same one register left.

ghost use Rattle.std.specs.Prelude.{◌≡◌, ◌≢◌, ◌<◌, ◌≤◌, ◌+◌, ℕ, All, length, slice_index_or};
ghost use Rattle.un_domains.specs.Sets.{NoneEmpty};
ghost use Rattle.un_prop.specs.Going.{Stepped};
ghost use Rattle.un_prop.specs.Rounds.{HasVars};
ghost use Rattle.un_prop.specs.declared.propagator.Pruned.TheVariants.{Same, Failed};
ghost use Rattle.un_rect.specs.Spans.{least_end, UserVars, TempVars};
ghost use Rattle.un_rect.specs.Orders.{share_one, comes_first, time_cut, late_test, early_test, user_test, sure_late};
ghost use Rattle.un_rect.specs.Orders.{reader_cut, user_cut, users_cut, order_steps, order_cut, order_pair, orders_cut};
ghost use Rattle.un_rect.specs.Extents.{AreExtents, AreSpared, may_order};
ghost use Rattle.un_rect.specs.Pairs.{each_before};

use crate::clashes::ends_after;
use crate::extents::{Extent, may_order, note_again};
use crate::spans::{is_on, is_only, is_sure_user, last_sure_use};
use un_domains::window::Window;
use un_prop::act::{At, Temp, UserOf};
use un_prop::look::{greatest_time, least_time};
use un_prop::propagator::Pruned;
use un_prop::step::{drop_value, joined, keep_gt, keep_le};

/// Whether two temporaries have the same one register left.
fn share_one(w: &Window<'_>, a: &Temp, b: &Temp) -> bool
    requires of_a { TempVars w.now.vars.now a.now }
    requires of_b { TempVars w.now.vars.now b.now }
    requires known { HasVars w.now.vars.now w.now.store.now.sets }
    requires live { NoneEmpty w.now.store.now.sets }
    ensures { result ≡ share_one a.now b.now w.now.store.now.sets }
{
    if !w.is_single(a.reg) {
        return false;
    }
    is_only(w, b.reg, w.min(a.reg))
}

/// Whether the first comes first: the second cannot end before the first starts.
fn comes_first(w: &Window<'_>, a: &Temp, b: &Temp) -> bool
    requires of_a { TempVars w.now.vars.now a.now }
    requires of_b { TempVars w.now.vars.now b.now }
    requires known { HasVars w.now.vars.now w.now.store.now.sets }
    requires live { NoneEmpty w.now.store.now.sets }
    ensures { result ≡ comes_first a.now b.now w.now.store.now.sets }
{
    if !share_one(w, a, b) {
        return false;
    }
    if !is_on(w, a.on) {
        return false;
    }
    if !is_on(w, b.on) {
        return false;
    }
    ends_after(w, b, greatest_time(w, a.at))
}

/// The last cycle before the least end of a temporary.
fn last_cycle(w: &Window<'_>, a: &Temp) -> u32
    requires vars { TempVars w.now.vars.now a.now }
    requires known { HasVars w.now.vars.now w.now.store.now.sets }
    requires live { NoneEmpty w.now.store.now.sets }
    ensures { result + 1 ≡ least_end a.now w.now.store.now.sets }
{
    let start = least_time(w, a.at);
    let last = last_sure_use(w, a.users.as_slice()).saturating_sub(1);
    start.max(last)
}

/// The second starts no sooner than the first can end.
fn keep_late(w: &mut Window<'_>, before: Pruned, a: &Temp, b: &Temp) -> Pruned
    requires of_a { TempVars w.old.vars.now a.now }
    requires of_b { TempVars w.old.vars.now b.now }
    requires known { HasVars w.old.vars.now w.old.store.now.sets }
    requires live { before ≢ Failed → NoneEmpty w.old.store.now.sets }
    ensures step { Stepped w.old.vars.now (time_cut (late_test a.now) b.now.at) w.old.store.now w.new.store.now before result }
    ensures same_reference { w.new.store.ghost_name ≡ w.old.store.ghost_name }
    ensures vars { w.new.vars ≡ w.old.vars }
{
    if before == Pruned::Failed {
        return before;
    }
    match b.at {
        At::Const(_) => before,
        At::Var(v) => {
            let last = last_cycle(w, a);
            keep_gt(w, before, v, last)
        }
    }
}

/// The first starts before the second.
fn keep_early(w: &mut Window<'_>, before: Pruned, a: &Temp, b: &Temp) -> Pruned
    requires of_a { TempVars w.old.vars.now a.now }
    requires of_b { TempVars w.old.vars.now b.now }
    requires known { HasVars w.old.vars.now w.old.store.now.sets }
    requires live { before ≢ Failed → NoneEmpty w.old.store.now.sets }
    ensures step { Stepped w.old.vars.now (time_cut (early_test b.now) a.now.at) w.old.store.now w.new.store.now before result }
    ensures same_reference { w.new.store.ghost_name ≡ w.old.store.ghost_name }
    ensures vars { w.new.vars ≡ w.old.vars }
{
    if before == Pruned::Failed {
        return before;
    }
    match a.at {
        At::Const(_) => before,
        At::Var(v) => {
            let high = greatest_time(w, b.at).saturating_sub(1);
            keep_le(w, before, v, high)
        }
    }
}

/// A sure user of the first is no later than the start of the second.
fn keep_user(w: &mut Window<'_>, before: Pruned, b: &Temp, u: &UserOf) -> Pruned
    requires of_b { TempVars w.old.vars.now b.now }
    requires of_u { UserVars w.old.vars.now u.now }
    requires known { HasVars w.old.vars.now w.old.store.now.sets }
    requires live { before ≢ Failed → NoneEmpty w.old.store.now.sets }
    ensures step { Stepped w.old.vars.now (time_cut (user_test b.now u.now) u.now.at) w.old.store.now w.new.store.now before result }
    ensures same_reference { w.new.store.ghost_name ≡ w.old.store.ghost_name }
    ensures vars { w.new.vars ≡ w.old.vars }
{
    if before == Pruned::Failed {
        return before;
    }
    if !is_sure_user(w, u) {
        return before;
    }
    match u.at {
        At::Const(_) => before,
        At::Var(v) => {
            let high = greatest_time(w, b.at);
            keep_le(w, before, v, high)
        }
    }
}

/// Whether a user is surely active, and too late to read what ends before the second starts.
fn is_late(w: &Window<'_>, b: &Temp, u: &UserOf) -> bool
    requires of_b { TempVars w.now.vars.now b.now }
    requires of_u { UserVars w.now.vars.now u.now }
    requires known { HasVars w.now.vars.now w.now.store.now.sets }
    requires live { NoneEmpty w.now.store.now.sets }
    ensures { result ≡ sure_late b.now u.now w.now.store.now.sets }
{
    if !is_on(w, u.on) {
        return false;
    }
    greatest_time(w, b.at) < least_time(w, u.at)
}

/// What is surely active and too late is no user of the first.
fn keep_reader(w: &mut Window<'_>, before: Pruned, b: &Temp, u: &UserOf) -> Pruned
    requires of_b { TempVars w.old.vars.now b.now }
    requires of_u { UserVars w.old.vars.now u.now }
    requires known { HasVars w.old.vars.now w.old.store.now.sets }
    requires live { before ≢ Failed → NoneEmpty w.old.store.now.sets }
    ensures step { Stepped w.old.vars.now (reader_cut b.now u.now) w.old.store.now w.new.store.now before result }
    ensures same_reference { w.new.store.ghost_name ≡ w.old.store.ghost_name }
    ensures vars { w.new.vars ≡ w.old.vars }
{
    if before == Pruned::Failed {
        return before;
    }
    match u.choice {
        None => before,
        Some(v) => {
            if is_late(w, b, u) {
                drop_value(w, before, v, u.value)
            } else {
                before
            }
        }
    }
}

/// What is known of a user of the first.
fn keep_both(w: &mut Window<'_>, before: Pruned, b: &Temp, u: &UserOf) -> Pruned
    requires of_b { TempVars w.old.vars.now b.now }
    requires of_u { UserVars w.old.vars.now u.now }
    requires known { HasVars w.old.vars.now w.old.store.now.sets }
    requires live { before ≢ Failed → NoneEmpty w.old.store.now.sets }
    ensures step { Stepped w.old.vars.now (user_cut b.now u.now) w.old.store.now w.new.store.now before result }
    ensures same_reference { w.new.store.ghost_name ≡ w.old.store.ghost_name }
    ensures vars { w.new.vars ≡ w.old.vars }
{
    let first = keep_user(w, before, b, u);
    keep_reader(w, first, b, u)
}

/// What is known of all users of the first.
fn keep_users(w: &mut Window<'_>, before: Pruned, b: &Temp, users: &[UserOf]) -> Pruned
    requires of_b { TempVars w.old.vars.now b.now }
    requires of_users { All (UserVars w.old.vars.now) users.now }
    requires known { HasVars w.old.vars.now w.old.store.now.sets }
    requires live { before ≢ Failed → NoneEmpty w.old.store.now.sets }
    ensures step { Stepped w.old.vars.now (users_cut b.now users.now (length users.now)) w.old.store.now w.new.store.now before result }
    ensures same_reference { w.new.store.ghost_name ≡ w.old.store.ghost_name }
    ensures vars { w.new.vars ≡ w.old.vars }
{
    let mut did = before;
    for u in users {
        did = keep_both(w, did, b, u);
    }
    did
}

/// What is known where the first comes first.
fn keep_steps(w: &mut Window<'_>, before: Pruned, a: &Temp, b: &Temp) -> Pruned
    requires of_a { TempVars w.old.vars.now a.now }
    requires of_b { TempVars w.old.vars.now b.now }
    requires known { HasVars w.old.vars.now w.old.store.now.sets }
    requires live { before ≢ Failed → NoneEmpty w.old.store.now.sets }
    ensures step { Stepped w.old.vars.now (order_steps a.now b.now) w.old.store.now w.new.store.now before result }
    ensures same_reference { w.new.store.ghost_name ≡ w.old.store.ghost_name }
    ensures vars { w.new.vars ≡ w.old.vars }
{
    let first = keep_late(w, before, a, b);
    let second = keep_early(w, first, a, b);
    keep_users(w, second, b, a.users.as_slice())
}

/// Where the first comes first, all that is known of it.
fn keep_order(w: &mut Window<'_>, before: Pruned, a: &Temp, b: &Temp) -> Pruned
    requires of_a { TempVars w.old.vars.now a.now }
    requires of_b { TempVars w.old.vars.now b.now }
    requires known { HasVars w.old.vars.now w.old.store.now.sets }
    requires live { before ≢ Failed → NoneEmpty w.old.store.now.sets }
    ensures step { Stepped w.old.vars.now (order_cut a.now b.now) w.old.store.now w.new.store.now before result }
    ensures same_reference { w.new.store.ghost_name ≡ w.old.store.ghost_name }
    ensures vars { w.new.vars ≡ w.old.vars }
{
    if before == Pruned::Failed {
        return before;
    }
    if comes_first(w, a, b) {
        keep_steps(w, before, a, b)
    } else {
        before
    }
}

/// And the other way round. Where they do not have the same one register left, there is nothing to do.
fn keep_orders(w: &mut Window<'_>, before: Pruned, a: &Temp, b: &Temp) -> Pruned
    requires of_a { TempVars w.old.vars.now a.now }
    requires of_b { TempVars w.old.vars.now b.now }
    requires known { HasVars w.old.vars.now w.old.store.now.sets }
    requires live { before ≢ Failed → NoneEmpty w.old.store.now.sets }
    ensures step { Stepped w.old.vars.now (order_pair a.now b.now) w.old.store.now w.new.store.now before result }
    ensures same_reference { w.new.store.ghost_name ≡ w.old.store.ghost_name }
    ensures vars { w.new.vars ≡ w.old.vars }
{
    if before == Pruned::Failed {
        return before;
    }
    if !share_one(w, a, b) {
        return before;
    }
    let first = keep_order(w, before, a, b);
    keep_order(w, first, b, a)
}

/// The first place from `from` on whose temporary may be cut with that at place `j`, by what was noted of them; `j` where there is none.
/// Nothing is known of them any more once something changed.
fn next_order(extents: &[Extent], did: Pruned, from: usize, j: usize) -> usize
    requires order { from ≤ j }
    ensures low { from ≤ result }
    ensures high { result ≤ j }
    ensures passed { (i : ℕ) → from ≤ i → i < result → AreSpared may_order extents.now did i j }
{
    if did != Pruned::Same || j >= extents.len() {
        return from;
    }
    let y = extents[j];
    for i in from..j {
        if may_order(extents[i], y) {
            return i;
        }
    }
    j
}

/// Of the temporary at place `j` with each one before it. There is nothing to do where it has other than one register, or is not sure.
fn keep_row(w: &mut Window<'_>, temps: &[Temp], extents: &[Extent], j: usize) -> Pruned
    requires there { j < length temps.now }
    requires of_temps { All (TempVars w.old.vars.now) temps.now }
    requires known { HasVars w.old.vars.now w.old.store.now.sets }
    requires live { NoneEmpty w.old.store.now.sets }
    requires are { AreExtents temps.now w.old.store.now.sets extents.now }
    ensures step { (b : Temp) → Stepped w.old.vars.now (each_before order_pair temps.now (slice_index_or temps.now j b) j)
        w.old.store.now w.new.store.now Same result }
    ensures same_reference { w.new.store.ghost_name ≡ w.old.store.ghost_name }
    ensures vars { w.new.vars ≡ w.old.vars }
{
    let b = &temps[j];
    if !w.is_single(b.reg) {
        return Pruned::Same;
    }
    if !is_on(w, b.on) {
        return Pruned::Same;
    }
    let mut did = Pruned::Same;
    let mut i = next_order(extents, did, 0, j);
    while i < j {
        did = keep_orders(w, did, &temps[i], b);
        i = next_order(extents, did, i + 1, j);
    }
    did
}

/// The same, after other rows. Where it changes something, all is noted again.
fn keep_next(
    w: &mut Window<'_>,
    before: Pruned,
    temps: &[Temp],
    extents: &mut [Extent],
    j: usize,
) -> Pruned
    requires there { j < length temps.now }
    requires of_temps { All (TempVars w.old.vars.now) temps.now }
    requires known { HasVars w.old.vars.now w.old.store.now.sets }
    requires live { before ≢ Failed → NoneEmpty w.old.store.now.sets }
    requires are { before ≢ Failed → AreExtents temps.now w.old.store.now.sets extents.old }
    ensures step { (b : Temp) → Stepped w.old.vars.now (each_before order_pair temps.now (slice_index_or temps.now j b) j)
        w.old.store.now w.new.store.now before result }
    ensures are { result ≢ Failed → AreExtents temps.now w.new.store.now.sets extents.new }
    ensures same_reference { w.new.store.ghost_name ≡ w.old.store.ghost_name }
    ensures vars { w.new.vars ≡ w.old.vars }
{
    if before == Pruned::Failed {
        return before;
    }
    let did = keep_row(w, temps, extents, j);
    note_again(w, did, temps, extents);
    joined(before, did)
}

/// Of each two temporaries with the same one register left, keeps the times with which one comes first. Their extents were noted.
pub(crate) fn keep_all(
    w: &mut Window<'_>,
    before: Pruned,
    temps: &[Temp],
    extents: &mut [Extent],
) -> Pruned
    requires of_temps { All (TempVars w.old.vars.now) temps.now }
    requires known { HasVars w.old.vars.now w.old.store.now.sets }
    requires live { before ≢ Failed → NoneEmpty w.old.store.now.sets }
    requires are { before ≢ Failed → AreExtents temps.now w.old.store.now.sets extents.old }
    ensures step { Stepped w.old.vars.now (orders_cut temps.now) w.old.store.now w.new.store.now before result }
    ensures are { result ≢ Failed → AreExtents temps.now w.new.store.now.sets extents.new }
    ensures same_reference { w.new.store.ghost_name ≡ w.old.store.ghost_name }
    ensures vars { w.new.vars ≡ w.old.vars }
{
    let mut did = before;
    for j in 0..temps.len() {
        did = keep_next(w, did, temps, extents, j);
    }
    did
}
