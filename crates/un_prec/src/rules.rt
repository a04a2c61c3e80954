//! What links let a store keep, each a step of a pruning.

ghost use Rattle.std.specs.Prelude.{◌≡◌, ◌≢◌, ◌<◌, ◌&&◌, ℕ, length, true};
ghost use Rattle.un_domains.specs.Sets.{set_at, NoneEmpty};
ghost use Rattle.un_prop.specs.Rounds.{HasVars};
ghost use Rattle.un_prop.specs.Failing.{first_cut};
ghost use Rattle.un_prop.specs.Going.{Stepped};
ghost use Rattle.un_prop.specs.declared.propagator.Pruned.TheVariants.{Failed};
ghost use Rattle.un_prec.specs.Links.{LinkVars, both_sure, at_cut, later_test, earlier_test, apart_test, close_test, link_steps};

use crate::link::Link;
use un_domains::window::Window;
use un_prop::act::At;
use un_prop::look::{greatest_time, is_sure, least_time};
use un_prop::propagator::Pruned;
use un_prop::step::{fail, keep_gt, keep_le};

/// Whether both operations of a link are surely active.
fn are_sure(w: &Window<'_>, link: Link) -> bool
    requires vars { LinkVars w.now.vars.now link }
    requires known { HasVars w.now.vars.now w.now.store.now.sets }
    ensures { result ≡ both_sure link w.now.store.now.sets }
{
    if !is_sure(w, link.from_on) {
        return false;
    }
    is_sure(w, link.to_on)
}

/// Where both operations are sure, the second is late enough for the least time of the first.
pub fn later(w: &mut Window<'_>, before: Pruned, link: Link) -> Pruned
    requires vars { LinkVars w.old.vars.now link }
    requires known { HasVars w.old.vars.now w.old.store.now.sets }
    requires live { before ≢ Failed → NoneEmpty w.old.store.now.sets }
    ensures step { Stepped w.old.vars.now (at_cut (later_test link) link.to) w.old.store.now w.new.store.now before result }
    ensures same_reference { w.new.store.ghost_name ≡ w.old.store.ghost_name }
    ensures vars { w.new.vars ≡ w.old.vars }
{
    if before == Pruned::Failed {
        return before;
    }
    if !are_sure(w, link) {
        return before;
    }
    let least = u64::from(least_time(w, link.from));
    let gap = u64::from(link.gap);
    let low = least + gap;
    match link.to {
        At::Const(_) => before,
        At::Var(v) => {
            if low == 0 {
                before
            } else {
                let below = (low - 1).min(u64::from(u32::MAX));
                keep_gt(w, before, v, below as u32)
            }
        }
    }
}

/// Where both operations are sure, the first is early enough for the greatest time of the second.
pub fn earlier(w: &mut Window<'_>, before: Pruned, link: Link) -> Pruned
    requires vars { LinkVars w.old.vars.now link }
    requires known { HasVars w.old.vars.now w.old.store.now.sets }
    requires live { before ≢ Failed → NoneEmpty w.old.store.now.sets }
    ensures step { Stepped w.old.vars.now (at_cut (earlier_test link) link.from) w.old.store.now w.new.store.now before result }
    ensures same_reference { w.new.store.ghost_name ≡ w.old.store.ghost_name }
    ensures vars { w.new.vars ≡ w.old.vars }
{
    if before == Pruned::Failed {
        return before;
    }
    if !are_sure(w, link) {
        return before;
    }
    let high = greatest_time(w, link.to).saturating_sub(link.gap);
    match link.from {
        At::Const(_) => before,
        At::Var(v) => keep_le(w, before, v, high),
    }
}

/// Where both operations are sure, the first is no more than the gap before the least time of the second.
pub fn close(w: &mut Window<'_>, before: Pruned, link: Link) -> Pruned
    requires vars { LinkVars w.old.vars.now link }
    requires known { HasVars w.old.vars.now w.old.store.now.sets }
    requires live { before ≢ Failed → NoneEmpty w.old.store.now.sets }
    ensures step { Stepped w.old.vars.now (at_cut (close_test link) link.from) w.old.store.now w.new.store.now before result }
    ensures same_reference { w.new.store.ghost_name ≡ w.old.store.ghost_name }
    ensures vars { w.new.vars ≡ w.old.vars }
{
    if before == Pruned::Failed {
        return before;
    }
    if !are_sure(w, link) {
        return before;
    }
    let low = least_time(w, link.to);
    match link.from {
        At::Const(_) => before,
        At::Var(v) => {
            if low <= link.gap {
                before
            } else {
                keep_gt(w, before, v, low - link.gap - 1)
            }
        }
    }
}

/// Fails where both operations are sure and no time of the second is late enough for any of the first: it takes every
/// value from the first variable of the window, if it has one.
pub fn apart(w: &mut Window<'_>, before: Pruned, link: Link) -> Pruned
    requires vars { LinkVars w.old.vars.now link }
    requires known { HasVars w.old.vars.now w.old.store.now.sets }
    requires live { before ≢ Failed → NoneEmpty w.old.store.now.sets }
    ensures step { Stepped w.old.vars.now (first_cut (apart_test link) w.old.vars.now) w.old.store.now w.new.store.now before result }
    ensures same_reference { w.new.store.ghost_name ≡ w.old.store.ghost_name }
    ensures vars { w.new.vars ≡ w.old.vars }
{
    if before == Pruned::Failed {
        return before;
    }
    if !are_sure(w, link) {
        return before;
    }
    let least = u64::from(least_time(w, link.from));
    let gap = u64::from(link.gap);
    let low = least + gap;
    let high = u64::from(greatest_time(w, link.to));
    if low <= high {
        return before;
    }
    fail(w, before)
}

/// All that a link lets a store keep. There is nothing to do where an operation may be inactive.
pub(crate) fn keep_link(w: &mut Window<'_>, before: Pruned, link: Link) -> Pruned
    requires vars { LinkVars w.old.vars.now link }
    requires known { HasVars w.old.vars.now w.old.store.now.sets }
    requires live { before ≢ Failed → NoneEmpty w.old.store.now.sets }
    ensures step { Stepped w.old.vars.now (link_steps w.old.vars.now link) w.old.store.now w.new.store.now before result }
    ensures same_reference { w.new.store.ghost_name ≡ w.old.store.ghost_name }
    ensures vars { w.new.vars ≡ w.old.vars }
{
    if before == Pruned::Failed {
        return before;
    }
    if !are_sure(w, link) {
        return before;
    }
    let first = apart(w, before, link);
    let second = later(w, first, link);
    earlier(w, second, link)
}
