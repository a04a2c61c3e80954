//! When a temporary starts and ends: by an assignment, and what a store says of it.

ghost use Rattle.std.specs.Prelude.{◌≡◌, ◌+◌, ◌<◌, All, length};
ghost use Rattle.un_domains.specs.Sets.{set_at, NoneEmpty};
ghost use Rattle.un_prop.specs.Among.{AllAmong};
ghost use Rattle.un_prop.specs.Acts.{act_vars, chooses, is_user};
ghost use Rattle.un_prop.specs.Looks.{sure};
ghost use Rattle.un_prop.specs.Rounds.{HasVars};
ghost use Rattle.un_rect.specs.Spans.{last_use, ends, is_only, sure_choice, sure_user, last_sure_use, least_end};
ghost use Rattle.un_rect.specs.Spans.{may_choose, reading_time, last_reading, last_possible_use, greatest_end};
ghost use Rattle.un_rect.specs.Spans.{choice_vars, UserVars, TempVars};

use un_base::ids::VarId;
use un_domains::window::Window;
use un_prop::act::{Act, Temp, UserOf, active, time, value};
use un_prop::look::{greatest_time, least_time};

/// Whether a user reads its temporary.
pub(crate) fn reads(fixed: &[u32], u: &UserOf) -> bool
    ensures { result ≡ is_user u.now fixed.now }
{
    if !active(fixed, u.on) {
        return false;
    }
    match u.choice {
        None => true,
        Some(v) => value(fixed, v) == u.value,
    }
}

/// The largest time of the users that read their temporary, or 0.
fn last_use(fixed: &[u32], users: &[UserOf]) -> u32
    ensures { result ≡ last_use users.now fixed.now }
{
    let mut last = 0;
    for u in users {
        if reads(fixed, u) {
            last = time(fixed, u.at).max(last);
        }
    }
    last
}

/// When a temporary ends.
pub(crate) fn end(fixed: &[u32], a: &Temp) -> u64
    ensures { result ≡ ends a.now fixed.now }
{
    let start = u64::from(time(fixed, a.at));
    let last = u64::from(last_use(fixed, a.users.as_slice()));
    last.max(start + 1)
}

/// Whether `n` is the one value left of a variable.
pub(crate) fn is_only(w: &Window<'_>, v: VarId, n: u32) -> bool
    requires there { v.0 < length w.now.store.now.sets }
    requires live { NoneEmpty w.now.store.now.sets }
    ensures { result ≡ is_only (set_at w.now.store.now.sets v.0) n }
{
    w.is_single(v) && w.min(v) == n
}

/// Whether a choice, where there is one, has this one value left.
fn is_sure_choice(w: &Window<'_>, choice: Option<VarId>, n: u32) -> bool
    requires vars { AllAmong w.now.vars.now (choice_vars choice) }
    requires known { HasVars w.now.vars.now w.now.store.now.sets }
    requires live { NoneEmpty w.now.store.now.sets }
    ensures { result ≡ sure_choice choice n w.now.store.now.sets }
{
    match choice {
        None => true,
        Some(v) => is_only(w, v, n),
    }
}

/// Whether an activity is surely on: its least number is not 0.
pub(crate) fn is_on(w: &Window<'_>, on: Act) -> bool
    requires known { HasVars (act_vars on) w.now.store.now.sets }
    requires live { NoneEmpty w.now.store.now.sets }
    ensures { result ≡ sure on w.now.store.now.sets }
{
    match on {
        Act::Always => true,
        Act::Var(v) => w.min(v) != 0,
    }
}

/// Whether a user surely reads its temporary.
pub(crate) fn is_sure_user(w: &Window<'_>, u: &UserOf) -> bool
    requires vars { UserVars w.now.vars.now u.now }
    requires known { HasVars w.now.vars.now w.now.store.now.sets }
    requires live { NoneEmpty w.now.store.now.sets }
    ensures { result ≡ sure_user u.now w.now.store.now.sets }
{
    if !is_on(w, u.on) {
        return false;
    }
    is_sure_choice(w, u.choice, u.value)
}

/// The largest of the least times of the sure users, or 0. Times are looked at first, since few are larger than those before.
pub(crate) fn last_sure_use(w: &Window<'_>, users: &[UserOf]) -> u32
    requires vars { All (UserVars w.now.vars.now) users.now }
    requires known { HasVars w.now.vars.now w.now.store.now.sets }
    requires live { NoneEmpty w.now.store.now.sets }
    ensures { result ≡ last_sure_use users.now w.now.store.now.sets }
{
    let mut last = 0;
    for u in users {
        let time = least_time(w, u.at);
        if time > last {
            if is_sure_user(w, u) {
                last = time;
            }
        }
    }
    last
}

/// Whether a choice, where there is one, may have this value.
fn may_choose(w: &Window<'_>, choice: Option<VarId>, n: u32) -> bool
    requires vars { AllAmong w.now.vars.now (choice_vars choice) }
    requires known { HasVars w.now.vars.now w.now.store.now.sets }
    ensures { result ≡ may_choose choice n w.now.store.now.sets }
{
    match choice {
        None => true,
        Some(v) => w.has(v, n),
    }
}

/// The greatest time of a user that surely reads its temporary where it is active, the least of one that may, else 0.
fn reading_time(w: &Window<'_>, u: &UserOf) -> u32
    requires vars { UserVars w.now.vars.now u.now }
    requires known { HasVars w.now.vars.now w.now.store.now.sets }
    requires live { NoneEmpty w.now.store.now.sets }
    ensures { result ≡ reading_time w.now.store.now.sets u.now }
{
    if is_sure_choice(w, u.choice, u.value) {
        return greatest_time(w, u.at);
    }
    if may_choose(w, u.choice, u.value) {
        return least_time(w, u.at);
    }
    0
}

/// The largest of these times of the users that are surely active, or 0.
pub(crate) fn last_reading(w: &Window<'_>, users: &[UserOf]) -> u32
    requires vars { All (UserVars w.now.vars.now) users.now }
    requires known { HasVars w.now.vars.now w.now.store.now.sets }
    requires live { NoneEmpty w.now.store.now.sets }
    ensures { result ≡ last_reading users.now w.now.store.now.sets }
{
    let mut last = 0;
    for u in users {
        if is_on(w, u.on) {
            last = reading_time(w, u).max(last);
        }
    }
    last
}

/// The least end of a temporary.
pub(crate) fn least_end(w: &Window<'_>, a: &Temp) -> u64
    requires vars { TempVars w.now.vars.now a.now }
    requires known { HasVars w.now.vars.now w.now.store.now.sets }
    requires live { NoneEmpty w.now.store.now.sets }
    ensures { result ≡ least_end a.now w.now.store.now.sets }
{
    let start = u64::from(least_time(w, a.at));
    let last = u64::from(last_sure_use(w, a.users.as_slice()));
    last.max(start + 1)
}

/// The largest of the greatest times of the users that may choose their temporary, or 0. Times are looked at first, as above.
fn last_possible_use(w: &Window<'_>, users: &[UserOf]) -> u32
    requires vars { All (UserVars w.now.vars.now) users.now }
    requires known { HasVars w.now.vars.now w.now.store.now.sets }
    requires live { NoneEmpty w.now.store.now.sets }
    ensures { result ≡ last_possible_use users.now w.now.store.now.sets }
{
    let mut last = 0;
    for u in users {
        let time = greatest_time(w, u.at);
        if time > last {
            if may_choose(w, u.choice, u.value) {
                last = time;
            }
        }
    }
    last
}

/// The greatest end of a temporary.
pub(crate) fn greatest_end(w: &Window<'_>, a: &Temp) -> u64
    requires vars { TempVars w.now.vars.now a.now }
    requires known { HasVars w.now.vars.now w.now.store.now.sets }
    requires live { NoneEmpty w.now.store.now.sets }
    ensures { result ≡ greatest_end a.now w.now.store.now.sets }
{
    let start = u64::from(greatest_time(w, a.at));
    let last = u64::from(last_possible_use(w, a.users.as_slice()));
    last.max(start + 1)
}
