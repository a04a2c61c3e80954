//! Calls: a temporary that lives across a call has a register that the call keeps.

ghost use Rattle.std.specs.Prelude.{◌≡◌, ◌≢◌, ◌<◌, ◌≤◌, ℕ, ◌&&◌, ◌+◌, true, length, min, nat_le, nat_lt, not, All};
ghost use Rattle.std.specs.List.{list_any};
ghost use Rattle.un_domains.specs.Sets.{NoneEmpty, set_at, least, greatest};
ghost use Rattle.un_isa.specs.Tables.{in_mask};
ghost use Rattle.un_prop.specs.Acts.{is_user};
ghost use Rattle.un_prop.specs.Looks.{sure};
ghost use Rattle.un_prop.specs.Among.{among};
ghost use Rattle.un_prop.specs.Rounds.{HasVars};
ghost use Rattle.un_prop.specs.Going.{Stepped};
ghost use Rattle.un_prop.specs.LastLaws.{Ascend};
ghost use Rattle.un_prop.specs.declared.propagator.Pruned.TheVariants.{Failed};
ghost use Rattle.un_rect.specs.Spans.{sure_user, UserVars, TempVars};
ghost use Rattle.un_rect.specs.Entries.{each_entry};
ghost use Rattle.un_rect.specs.Clobber.{CallVars, avoids, spares, may_survive, covers, is_read_behind, lasts, hit_cut, off_cut, cycle_cut};
ghost use Rattle.un_rect.specs.Clobber.{reader_cut, call_steps, check_call, IsOpen};

use crate::clashes::ends_after;
use crate::opened::{Opened, is_more, with_temp, with_users, with_var};
use crate::spans::{end, is_sure_user, least_end, reads};
use crate::values::{ValueTest, keep_passing};
use un_base::ids::VarId;
use un_domains::window::Window;
use un_isa::reg_set::is_in_mask;
use un_lists::items::Items;
use un_prop::act::{Act, Temp, UserOf, active, time, value};
use un_prop::last::{fill, try_all};
use un_prop::look::{greatest_time, is_sure};
use un_prop::propagator::{Predicate, Propagator, Pruned, Scratch};
use un_prop::step::{drop_value, joined, keep_le};

/// A call, as it bears on one temporary.
#[derive(Drop)]
pub struct ClobberCall {
    /// The variable of the call's cycle.
    pub at: VarId,
    /// Whether it is defined before the call whatever the cycles: at the block's start, or by what leads to the call over arcs.
    pub before: bool,
    /// Those users of the temporary that issue after the call whatever the cycles.
    pub behind: Items<UserOf>,
}

/// The registers outside a mask.
#[derive(Drop)]
struct Kept(u64);

impl ValueTest for Kept {
    ghost lets = { λ t y. not (in_mask t.0 y) };

    fn passes(&self, y: u32) -> bool {
        !is_in_mask(self.0, y)
    }
}

/// Whether some user reads its temporary.
fn any_reads(fixed: &[u32], users: &[UserOf]) -> bool
    ensures { result ≡ list_any (λ u. is_user u fixed.now) users.now }
{
    for u in users {
        if reads(fixed, u) {
            return true;
        }
    }
    false
}

/// Whether a temporary does not live across a call.
fn avoids(fixed: &[u32], a: &Temp, c: &ClobberCall) -> bool
    ensures { result ≡ avoids a.now c.now fixed.now }
{
    let t = value(fixed, c.at);
    if t >= time(fixed, a.at) && u64::from(t) < end(fixed, a) {
        return false;
    }
    if c.before {
        !any_reads(fixed, c.behind.as_slice())
    } else {
        true
    }
}

/// Whether a variable may be a register outside a mask, by a look at each.
fn any_survives(w: &Window<'_>, mask: u64, a: &Temp) -> bool
    requires there { a.now.reg.0 < length w.now.store.now.sets }
    requires live { NoneEmpty w.now.store.now.sets }
    ensures { result ≡ may_survive mask a.now w.now.store.now.sets }
{
    let low = u64::from(w.min(a.reg));
    let high = u64::from(w.max(a.reg)) + 1;
    for r in low..high {
        if w.has(a.reg, r as u32) {
            if !is_in_mask(mask, r as u32) {
                return true;
            }
        }
    }
    false
}

/// Whether a variable may be a register outside a mask: mostly the greatest is, as a slot.
fn may_survive(w: &Window<'_>, mask: u64, a: &Temp) -> bool
    requires there { a.now.reg.0 < length w.now.store.now.sets }
    requires live { NoneEmpty w.now.store.now.sets }
    ensures { result ≡ may_survive mask a.now w.now.store.now.sets }
{
    let most = w.max(a.reg);
    if !is_in_mask(mask, most) {
        return true;
    }
    any_survives(w, mask, a)
}

/// Where the registers of a mask end that a variable may be whose greatest value this is: a mask has none from 64 on, and slots are
/// many.
fn mask_end(most: u32) -> u64
    ensures { result ≡ min (most + 1) 64 }
{
    if most < 64 { u64::from(most) + 1 } else { 64 }
}

/// Whether a variable may be a register of a mask.
fn may_be_hit(w: &Window<'_>, mask: u64, a: &Temp) -> bool
    requires there { a.now.reg.0 < length w.now.store.now.sets }
    requires live { NoneEmpty w.now.store.now.sets }
    ensures { result ≡ list_any (in_mask mask) (set_at w.now.store.now.sets a.now.reg.0) }
{
    let low = u64::from(w.min(a.reg));
    let high = mask_end(w.max(a.reg));
    for r in low..high {
        if w.has(a.reg, r as u32) {
            if is_in_mask(mask, r as u32) {
                return true;
            }
        }
    }
    false
}

/// Whether some user surely reads its temporary.
fn any_sure(w: &Window<'_>, users: &[UserOf]) -> bool
    requires vars { All (UserVars w.now.vars.now) users.now }
    requires known { HasVars w.now.vars.now w.now.store.now.sets }
    requires live { NoneEmpty w.now.store.now.sets }
    ensures { result ≡ list_any (λ u. sure_user u w.now.store.now.sets) users.now }
{
    for u in users {
        if is_sure_user(w, u) {
            return true;
        }
    }
    false
}

/// Whether a call is in a temporary's time for sure.
fn covers(w: &Window<'_>, a: &Temp, c: &ClobberCall) -> bool
    requires of_temp { TempVars w.now.vars.now a.now }
    requires of_call { CallVars w.now.vars.now c.now }
    requires known { HasVars w.now.vars.now w.now.store.now.sets }
    requires live { NoneEmpty w.now.store.now.sets }
    ensures { result ≡ covers a.now c.now w.now.store.now.sets }
{
    if greatest_time(w, a.at) > w.min(c.at) {
        return false;
    }
    ends_after(w, a, w.max(c.at))
}

/// Whether a temporary is defined before a call for sure, and read behind it for sure.
fn is_read_behind(w: &Window<'_>, c: &ClobberCall) -> bool
    requires of_call { CallVars w.now.vars.now c.now }
    requires known { HasVars w.now.vars.now w.now.store.now.sets }
    requires live { NoneEmpty w.now.store.now.sets }
    ensures { result ≡ is_read_behind c.now w.now.store.now.sets }
{
    if c.before {
        any_sure(w, c.behind.as_slice())
    } else {
        false
    }
}

/// Whether a temporary, where it is active, lives across a call for sure.
fn lasts(w: &Window<'_>, a: &Temp, c: &ClobberCall) -> bool
    requires of_temp { TempVars w.now.vars.now a.now }
    requires of_call { CallVars w.now.vars.now c.now }
    requires known { HasVars w.now.vars.now w.now.store.now.sets }
    requires live { NoneEmpty w.now.store.now.sets }
    ensures { result ≡ lasts a.now c.now w.now.store.now.sets }
{
    if covers(w, a, c) {
        return true;
    }
    is_read_behind(w, c)
}

/// Where a temporary is active and lives across a call for sure, takes the registers of the mask from it.
fn keep_register(w: &mut Window<'_>, before: Pruned, mask: u64, a: &Temp, c: &ClobberCall) -> Pruned
    requires of_temp { TempVars w.old.vars.now a.now }
    requires of_call { CallVars w.old.vars.now c.now }
    requires known { HasVars w.old.vars.now w.old.store.now.sets }
    requires live { before ≢ Failed → NoneEmpty w.old.store.now.sets }
    ensures step { Stepped w.old.vars.now (hit_cut mask a.now c.now) w.old.store.now w.new.store.now before result }
    ensures same_reference { w.new.store.ghost_name ≡ w.old.store.ghost_name }
    ensures vars { w.new.vars ≡ w.old.vars }
{
    if before == Pruned::Failed {
        return before;
    }
    if !is_sure(w, a.on) {
        return before;
    }
    if !lasts(w, a, c) {
        return before;
    }
    keep_passing(&Kept(mask), w, before, a.reg)
}

/// Where a temporary lives across a call for sure, and no register is left outside the mask, makes it inactive.
fn keep_off(w: &mut Window<'_>, before: Pruned, mask: u64, a: &Temp, c: &ClobberCall) -> Pruned
    requires of_temp { TempVars w.old.vars.now a.now }
    requires of_call { CallVars w.old.vars.now c.now }
    requires known { HasVars w.old.vars.now w.old.store.now.sets }
    requires live { before ≢ Failed → NoneEmpty w.old.store.now.sets }
    ensures step { Stepped w.old.vars.now (off_cut mask a.now c.now) w.old.store.now w.new.store.now before result }
    ensures same_reference { w.new.store.ghost_name ≡ w.old.store.ghost_name }
    ensures vars { w.new.vars ≡ w.old.vars }
{
    if before == Pruned::Failed {
        return before;
    }
    match a.on {
        Act::Always => before,
        Act::Var(v) => {
            if may_survive(w, mask, a) {
                return before;
            }
            if lasts(w, a, c) {
                keep_le(w, before, v, 0)
            } else {
                before
            }
        }
    }
}

/// The cycles that are not in a temporary's time for sure: from its greatest start to its least end.
#[derive(Drop)]
struct Outside {
    start: u32,
    end: u64,
}

impl ValueTest for Outside {
    ghost use Rattle.std.specs.Prelude.{◌&&◌, nat_le, nat_lt};

    ghost lets = { λ t y. not (nat_le t.start y && nat_lt y t.end) };

    fn passes(&self, y: u32) -> bool {
        !(self.start <= y && u64::from(y) < self.end)
    }
}

/// Where a temporary is active, and no register is left outside the mask, takes the cycles of its time from a call.
fn keep_cycle(w: &mut Window<'_>, before: Pruned, mask: u64, a: &Temp, c: &ClobberCall) -> Pruned
    requires of_temp { TempVars w.old.vars.now a.now }
    requires of_call { CallVars w.old.vars.now c.now }
    requires known { HasVars w.old.vars.now w.old.store.now.sets }
    requires live { before ≢ Failed → NoneEmpty w.old.store.now.sets }
    ensures step { Stepped w.old.vars.now (cycle_cut mask a.now c.now) w.old.store.now w.new.store.now before result }
    ensures same_reference { w.new.store.ghost_name ≡ w.old.store.ghost_name }
    ensures vars { w.new.vars ≡ w.old.vars }
{
    if before == Pruned::Failed {
        return before;
    }
    if !is_sure(w, a.on) {
        return before;
    }
    if may_survive(w, mask, a) {
        return before;
    }
    let start = greatest_time(w, a.at);
    let end = least_end(w, a);
    if end <= u64::from(start) {
        return before;
    }
    keep_passing(&Outside { start, end }, w, before, c.at)
}

/// Whether a temporary and a user are active for sure, and no register is left outside the mask.
fn is_doomed(w: &Window<'_>, mask: u64, a: &Temp, u: &UserOf) -> bool
    requires of_temp { TempVars w.now.vars.now a.now }
    requires of_user { UserVars w.now.vars.now u.now }
    requires known { HasVars w.now.vars.now w.now.store.now.sets }
    requires live { NoneEmpty w.now.store.now.sets }
    ensures { result ≡ ((sure a.now.on w.now.store.now.sets && sure u.now.on w.now.store.now.sets) &&
        not (may_survive mask a.now w.now.store.now.sets)) }
{
    if !is_sure(w, a.on) {
        return false;
    }
    if !is_sure(w, u.on) {
        return false;
    }
    !may_survive(w, mask, a)
}

/// Where a temporary is active and defined before a call for sure, and no register is left outside the mask, a user behind the
/// call does not choose it.
fn keep_reader(
    w: &mut Window<'_>,
    before: Pruned,
    mask: u64,
    a: &Temp,
    c: &ClobberCall,
    u: &UserOf,
) -> Pruned
    requires of_temp { TempVars w.old.vars.now a.now }
    requires of_user { UserVars w.old.vars.now u.now }
    requires known { HasVars w.old.vars.now w.old.store.now.sets }
    requires live { before ≢ Failed → NoneEmpty w.old.store.now.sets }
    ensures step { Stepped w.old.vars.now (reader_cut mask a.now c.now u.now) w.old.store.now w.new.store.now before result }
    ensures same_reference { w.new.store.ghost_name ≡ w.old.store.ghost_name }
    ensures vars { w.new.vars ≡ w.old.vars }
{
    if before == Pruned::Failed {
        return before;
    }
    if !c.before {
        return before;
    }
    match u.choice {
        None => before,
        Some(v) => {
            if is_doomed(w, mask, a, u) {
                drop_value(w, before, v, u.value)
            } else {
                before
            }
        }
    }
}

/// No user behind a call chooses a temporary that does not survive it.
fn keep_readers(w: &mut Window<'_>, before: Pruned, mask: u64, a: &Temp, c: &ClobberCall) -> Pruned
    requires of_temp { TempVars w.old.vars.now a.now }
    requires of_call { CallVars w.old.vars.now c.now }
    requires known { HasVars w.old.vars.now w.old.store.now.sets }
    requires live { before ≢ Failed → NoneEmpty w.old.store.now.sets }
    ensures step { Stepped w.old.vars.now (each_entry (reader_cut mask a.now c.now) c.now.behind) w.old.store.now w.new.store.now before
        result }
    ensures same_reference { w.new.store.ghost_name ≡ w.old.store.ghost_name }
    ensures vars { w.new.vars ≡ w.old.vars }
{
    let mut did = before;
    for u in c.behind.as_slice() {
        did = keep_reader(w, did, mask, a, c, u);
    }
    did
}

/// All that is known of a temporary and a call.
fn keep_call(w: &mut Window<'_>, before: Pruned, mask: u64, a: &Temp, c: &ClobberCall) -> Pruned
    requires of_temp { TempVars w.old.vars.now a.now }
    requires of_call { CallVars w.old.vars.now c.now }
    requires known { HasVars w.old.vars.now w.old.store.now.sets }
    requires live { before ≢ Failed → NoneEmpty w.old.store.now.sets }
    ensures step { Stepped w.old.vars.now (call_steps mask a.now c.now) w.old.store.now w.new.store.now before result }
    ensures same_reference { w.new.store.ghost_name ≡ w.old.store.ghost_name }
    ensures vars { w.new.vars ≡ w.old.vars }
{
    let first = keep_register(w, before, mask, a, c);
    let second = keep_off(w, first, mask, a, c);
    let third = keep_cycle(w, second, mask, a, c);
    keep_readers(w, third, mask, a, c)
}

/// Whether a call has no cycle before `start`, and none from `end` on.
fn is_within(w: &Window<'_>, c: &ClobberCall, start: u32, end: u64) -> bool
    requires of_call { CallVars w.now.vars.now c.now }
    requires known { HasVars w.now.vars.now w.now.store.now.sets }
    requires live { NoneEmpty w.now.store.now.sets }
    ensures { result ≡ (nat_le start (least (set_at w.now.store.now.sets c.now.at.0)) &&
        nat_lt (greatest (set_at w.now.store.now.sets c.now.at.0)) end) }
{
    if start > w.min(c.at) {
        return false;
    }
    u64::from(w.max(c.at)) < end
}

/// Whether some call is in a temporary's time for sure. When it starts and ends is asked once for all calls.
fn any_covers(w: &Window<'_>, a: &Temp, calls: &[ClobberCall]) -> bool
    requires of_temp { TempVars w.now.vars.now a.now }
    requires of_calls { All (CallVars w.now.vars.now) calls.now }
    requires known { HasVars w.now.vars.now w.now.store.now.sets }
    requires live { NoneEmpty w.now.store.now.sets }
    ensures { result ≡ list_any (λ c. covers a.now c w.now.store.now.sets) calls.now }
{
    let start = greatest_time(w, a.at);
    let end = least_end(w, a);
    for c in calls {
        if is_within(w, c, start, end) {
            return true;
        }
    }
    false
}

/// Whether a temporary is defined before some call for sure, and read behind it for sure.
fn any_read_behind(w: &Window<'_>, calls: &[ClobberCall]) -> bool
    requires of_calls { All (CallVars w.now.vars.now) calls.now }
    requires known { HasVars w.now.vars.now w.now.store.now.sets }
    requires live { NoneEmpty w.now.store.now.sets }
    ensures { result ≡ list_any (λ c. is_read_behind c w.now.store.now.sets) calls.now }
{
    for c in calls {
        if is_read_behind(w, c) {
            return true;
        }
    }
    false
}

/// Whether a temporary, where it is active, lives across some call for sure.
fn any_lasts(w: &Window<'_>, a: &Temp, calls: &[ClobberCall]) -> bool
    requires of_temp { TempVars w.now.vars.now a.now }
    requires of_calls { All (CallVars w.now.vars.now) calls.now }
    requires known { HasVars w.now.vars.now w.now.store.now.sets }
    requires live { NoneEmpty w.now.store.now.sets }
    ensures { result ≡ list_any (λ c. lasts a.now c w.now.store.now.sets) calls.now }
{
    if any_covers(w, a, calls) {
        return true;
    }
    any_read_behind(w, calls)
}

/// Whether some register is left outside the mask; not after a failure.
fn survives(w: &Window<'_>, before: Pruned, mask: u64, a: &Temp) -> bool
    requires there { a.now.reg.0 < length w.now.store.now.sets }
    requires live { before ≢ Failed → NoneEmpty w.now.store.now.sets }
    ensures { result ≡ true → may_survive mask a.now w.now.store.now.sets ≡ true }
{
    if before == Pruned::Failed {
        return false;
    }
    may_survive(w, mask, a)
}

/// All that is known of a temporary and each call, where some register is left outside the mask. A call takes registers alone then,
/// and the first one that takes some takes all of the mask, so that nothing is left to take for the others.
fn keep_survivor(
    w: &mut Window<'_>,
    before: Pruned,
    mask: u64,
    a: &Temp,
    calls: &[ClobberCall],
) -> Pruned
    requires of_temp { TempVars w.old.vars.now a.now }
    requires of_calls { All (CallVars w.old.vars.now) calls.now }
    requires known { HasVars w.old.vars.now w.old.store.now.sets }
    requires live { before ≢ Failed → NoneEmpty w.old.store.now.sets }
    requires survives { may_survive mask a.now w.old.store.now.sets ≡ true }
    ensures step { Stepped w.old.vars.now (each_entry (call_steps mask a.now) calls.now) w.old.store.now w.new.store.now before result }
    ensures same_reference { w.new.store.ghost_name ≡ w.old.store.ghost_name }
    ensures vars { w.new.vars ≡ w.old.vars }
{
    if before == Pruned::Failed {
        return before;
    }
    if !is_sure(w, a.on) {
        return before;
    }
    if !any_lasts(w, a, calls) {
        return before;
    }
    keep_passing(&Kept(mask), w, before, a.reg)
}

/// All that is known of a temporary and each call, call by call.
fn keep_each(
    w: &mut Window<'_>,
    before: Pruned,
    mask: u64,
    a: &Temp,
    calls: &[ClobberCall],
) -> Pruned
    requires of_temp { TempVars w.old.vars.now a.now }
    requires of_calls { All (CallVars w.old.vars.now) calls.now }
    requires known { HasVars w.old.vars.now w.old.store.now.sets }
    requires live { before ≢ Failed → NoneEmpty w.old.store.now.sets }
    ensures step { Stepped w.old.vars.now (each_entry (call_steps mask a.now) calls.now) w.old.store.now w.new.store.now before result }
    ensures same_reference { w.new.store.ghost_name ≡ w.old.store.ghost_name }
    ensures vars { w.new.vars ≡ w.old.vars }
{
    let mut did = before;
    for c in calls {
        did = keep_call(w, did, mask, a, c);
    }
    did
}

/// All that is known of a temporary and each call.
fn keep_calls(
    w: &mut Window<'_>,
    before: Pruned,
    mask: u64,
    a: &Temp,
    calls: &[ClobberCall],
) -> Pruned
    requires of_temp { TempVars w.old.vars.now a.now }
    requires of_calls { All (CallVars w.old.vars.now) calls.now }
    requires known { HasVars w.old.vars.now w.old.store.now.sets }
    requires live { before ≢ Failed → NoneEmpty w.old.store.now.sets }
    ensures step { Stepped w.old.vars.now (each_entry (call_steps mask a.now) calls.now) w.old.store.now w.new.store.now before result }
    ensures same_reference { w.new.store.ghost_name ≡ w.old.store.ghost_name }
    ensures vars { w.new.vars ≡ w.old.vars }
{
    if survives(w, before, mask, a) {
        return keep_survivor(w, before, mask, a, calls);
    }
    keep_each(w, before, mask, a, calls)
}

/// A call, and a temporary that it has to spare.
#[derive(Drop)]
struct CallPart<'a> {
    mask: u64,
    temp: &'a Temp,
    call: &'a ClobberCall,
    vars: &'a [VarId],
    ghost of_temp: { TempVars vars.now temp.now },
    ghost of_call: { CallVars vars.now call.now },
}

/// Whether a call spares a temporary.
fn spares(fixed: &[u32], mask: u64, a: &Temp, c: &ClobberCall) -> bool
    ensures { result ≡ spares mask a.now c.now fixed.now }
{
    if !active(fixed, a.on) {
        return true;
    }
    if !is_in_mask(mask, value(fixed, a.reg)) {
        return true;
    }
    avoids(fixed, a, c)
}

impl Predicate for CallPart<'_> {
    ghost use Rattle.un_rect.specs.ClobberLaws.{spares_looks};

    ghost scope = { λ p. p.vars.now };

    ghost holds = { λ p x. spares p.mask p.temp.now p.call.now x };

    fn reads(&self) -> &[VarId] {
        self.vars
    }

    fn test(&self, fixed: &[u32]) -> bool {
        spares(fixed, self.mask, self.temp, self.call)
    }

    ghost looks = { λ p x y same. spares_looks p.vars.now p.mask p.temp.now p.call.now p.of_temp p.of_call x y same };
}

/// The variable of a call's part that is left to decide, if there is one alone; the register where all have one value.
fn undecided(w: &Window<'_>, p: &CallPart<'_>) -> Option<VarId>
    requires vars { w.now.vars.now ≡ p.now.vars.now }
    requires ascend { Ascend p.now.vars.now }
    requires known { HasVars p.now.vars.now w.now.store.now.sets }
    requires live { NoneEmpty w.now.store.now.sets }
    ensures { IsOpen p.now.vars.now p.now.mask p.now.temp.now p.now.call.now w.now.store.now.sets result }
{
    let first = with_temp(w, Opened::Nothing, p.temp);
    if is_more(first) {
        return None;
    }
    let second = with_var(w, first, p.call.at);
    match with_users(w, second, p.call.behind.as_slice()) {
        Opened::Nothing => Some(p.temp.reg),
        Opened::One(v) => Some(v),
        Opened::More => None,
    }
}

/// Where one variable of a call's part is left to decide, it keeps the values that meet the part.
fn check(w: &mut Window<'_>, before: Pruned, p: &CallPart<'_>, fixed: &mut [u32]) -> Pruned
    requires vars { w.old.vars.now ≡ p.now.vars.now }
    requires ascend { Ascend p.now.vars.now }
    requires known { HasVars p.now.vars.now w.old.store.now.sets }
    requires live { before ≢ Failed → NoneEmpty w.old.store.now.sets }
    requires room { length w.old.store.now.sets ≤ length fixed.old }
    ensures step { Stepped w.old.vars.now (check_call p.now.vars.now p.now.mask p.now.temp.now p.now.call.now) w.old.store.now
        w.new.store.now before result }
    ensures same_reference { w.new.store.ghost_name ≡ w.old.store.ghost_name }
    ensures vars { w.new.vars ≡ w.old.vars }
{
    if before == Pruned::Failed {
        return before;
    }
    match undecided(w, p) {
        None => before,
        Some(v) => {
            fill(p.vars, w, fixed);
            let did = try_all(p, w, v, fixed);
            joined(before, did)
        }
    }
}

/// The temporary `temp`, while it is active, occupies no register of `mask` in the cycle of a call of `calls`; nor is one of `mask`
/// read behind a call that comes after the temporary's definer for sure, by a user that issues after the call for sure.
#[derive(Drop)]
pub struct Clobber {
    /// The calls of the temporary's block, but for the one of which it is the result.
    pub calls: Items<ClobberCall>,
    /// The temporary that calls are not to destroy.
    pub temp: Temp,
    /// The registers that a call writes: bit r stands for register r.
    pub mask: u64,
    /// The variables of the temporary and of the calls, rising, each once: it reads these, and cuts these alone.
    pub vars: Items<VarId>,
    ghost ascend: { Ascend vars },
    ghost of_temp: { TempVars vars temp },
    ghost of_calls: { All (CallVars vars) calls },
}

/// Where one variable of a part is left to decide, it keeps the values that meet the part, part by part.
fn check_each(w: &mut Window<'_>, before: Pruned, p: &Clobber, fixed: &mut [u32]) -> Pruned
    requires vars { w.old.vars.now ≡ p.now.vars }
    requires known { HasVars p.now.vars w.old.store.now.sets }
    requires live { before ≢ Failed → NoneEmpty w.old.store.now.sets }
    requires room { length w.old.store.now.sets ≤ length fixed.old }
    ensures step { Stepped w.old.vars.now (each_entry (check_call p.now.vars p.now.mask p.now.temp) p.now.calls) w.old.store.now
        w.new.store.now before result }
    ensures same_reference { w.new.store.ghost_name ≡ w.old.store.ghost_name }
    ensures vars { w.new.vars ≡ w.old.vars }
{
    let vars = p.vars.as_slice();
    let mut did = before;
    for call in p.calls.as_slice() {
        let part = CallPart {
            mask: p.mask,
            temp: &p.temp,
            call,
            vars,
        };
        did = check(w, did, &part, fixed);
    }
    did
}

/// The same. Where more than one variable of the temporary is open, no part has one alone that is left to decide.
fn check_calls(w: &mut Window<'_>, before: Pruned, p: &Clobber, fixed: &mut [u32]) -> Pruned
    requires vars { w.old.vars.now ≡ p.now.vars }
    requires known { HasVars p.now.vars w.old.store.now.sets }
    requires live { before ≢ Failed → NoneEmpty w.old.store.now.sets }
    requires room { length w.old.store.now.sets ≤ length fixed.old }
    ensures step { Stepped w.old.vars.now (each_entry (check_call p.now.vars p.now.mask p.now.temp) p.now.calls) w.old.store.now
        w.new.store.now before result }
    ensures same_reference { w.new.store.ghost_name ≡ w.old.store.ghost_name }
    ensures vars { w.new.vars ≡ w.old.vars }
{
    if before == Pruned::Failed {
        return before;
    }
    if is_more(with_temp(w, Opened::Nothing, &p.temp)) {
        return before;
    }
    check_each(w, before, p, fixed)
}

impl Predicate for Clobber {
    ghost use Rattle.un_rect.specs.Clobber.{clobber_holds};
    ghost use Rattle.un_rect.specs.ClobberLaws.{clobber_looks};

    ghost scope = { λ p. p.vars };

    ghost holds = { λ p x. clobber_holds p.mask p.temp p.calls x };

    fn reads(&self) -> &[VarId] {
        self.vars.as_slice()
    }

    fn test(&self, fixed: &[u32]) -> bool {
        let calls = self.calls.as_slice();
        for i in 0..calls.len() {
            if !spares(fixed, self.mask, &self.temp, &calls[i]) {
                return false;
            }
        }
        true
    }

    ghost looks = { λ p x y same. clobber_looks p.vars p.mask p.temp p.calls p.of_temp p.of_calls x y same };
}

impl Propagator for Clobber {
    ghost use Rattle.un_rect.specs.Clobber.{clobber_parts, clobber_cut, ClobberStrong};
    ghost use Rattle.un_rect.specs.PartsWithin.{clobber_within};
    ghost use Rattle.un_rect.specs.ClobberLaws.{clobber_whole, clobber_lawful, clobber_keeps, clobber_forward, clobber_strong};

    ghost cut = { λ p s. clobber_cut p.vars p.mask p.temp p.calls s };

    ghost parts = { λ p. clobber_parts p.vars p.mask p.temp p.calls };

    ghost strong = { λ p s. ClobberStrong p.mask p.temp p.calls s };

    ghost span = { λ p. 0 };

    fn prune_in(&self, w: &mut Window<'_>, scratch: &mut Scratch) -> Pruned {
        // A temporary that has no register of the mask left is spared.
        if !may_be_hit(w, self.mask, &self.temp) {
            return Pruned::Same;
        }
        let did = keep_calls(
            w,
            Pruned::Same,
            self.mask,
            &self.temp,
            self.calls.as_slice(),
        );
        check_calls(w, did, self, scratch.fixed.as_mut_slice())
    }

    ghost keeps = { λ p s x k full there holds. clobber_keeps p.vars p.mask p.temp p.of_temp p.ascend p.calls p.of_calls s x k there
        holds };

    ghost lawful = { λ p. clobber_lawful p.vars p.mask p.temp p.of_temp p.ascend p.calls p.of_calls };

    ghost whole = { λ p x. clobber_whole p.vars p.mask p.temp p.calls x };

    ghost within = { λ p. clobber_within p.vars p.mask p.temp p.calls };

    ghost forward = { λ p. clobber_forward p.vars p.mask p.temp p.of_temp p.ascend p.calls p.of_calls };

    ghost strength = { λ p s k full words grounded e. clobber_strong p.vars p.mask p.temp p.of_temp p.ascend p.calls p.of_calls s k full
        e };
}
