//! An operand: its user issues late enough after the definer of the temporary that it chooses.

ghost use Rattle.std.specs.Prelude.{◌≡◌, ◌≢◌, ℕ, ◌+◌, ◌-◌, ◌^◌, ◌<◌, ◌≤◌, ◌||◌, length, min, nat_le, nat_lt, true, All, MatchOption};
ghost use Rattle.std.specs.List.{list_any};
ghost use Rattle.un_domains.specs.Sets.{set_at, cut_by, NoneEmpty};
ghost use Rattle.un_prop.specs.Rounds.{HasVars};
ghost use Rattle.un_prop.specs.Among.{among};
ghost use Rattle.un_prop.specs.Choices.{passes_at};
ghost use Rattle.un_prop.specs.Going.{Stepped};
ghost use Rattle.un_prop.specs.LastLaws.{Ascend};
ghost use Rattle.un_prop.specs.Looks.{act_set};
ghost use Rattle.un_prop.specs.Places.{each_place};
ghost use Rattle.un_prop.specs.Somewhere.{is_by};
ghost use Rattle.un_prop.specs.declared.propagator.Pruned.TheVariants.{Failed};
ghost use Rattle.un_prec.specs.Links.{at_cut};
ghost use Rattle.un_prec.specs.Reads.{is_late, may_be_late, may_read, soon_test, early_cut, ends_by, ReadAltVars, ReadsVars};

use un_base::ids::VarId;
use un_domains::window::Window;
use un_lists::items::Items;
use un_prop::act::{Act, At, active, number, time, value};
use un_prop::last::check_last;
use un_prop::look::{greatest_time, is_sure, least_time};
use un_prop::place::{Choice, keep_choice, places};
use un_prop::propagator::{Predicate, Propagator, Pruned, Scratch};
use un_prop::step::{keep_gt, keep_le};
use un_prop::when::is_only;

/// A definer that an operand may choose.
#[derive(Drop)]
pub struct ReadAlt {
    /// The time at which it issues; 0 for a block's start.
    pub at: At,
    /// Its activity, whose number says which gap it has: that of its instruction, or 1 for one that is always active.
    pub on: Act,
    /// How many cycles after it the reader issues, at least, at the place of its activity's number.
    pub gaps: Items<u32>,
}

/// Whether a user at `t` is late enough after a definer.
fn is_late(fixed: &[u32], t: u32, a: &ReadAlt) -> bool
    ensures { result ≡ is_late t fixed.now a.now }
{
    let n = number(fixed, a.on) as usize;
    let gaps = a.gaps.as_slice();
    if n < gaps.len() {
        let at = u64::from(time(fixed, a.at));
        at + u64::from(gaps[n]) <= u64::from(t)
    } else {
        false
    }
}

/// Whether a user at `t` is late enough after the definer at a place.
fn is_late_at(fixed: &[u32], t: u32, alts: &[ReadAlt], i: u32) -> bool
    ensures { result ≡ passes_at (is_late t fixed.now) alts.now i }
{
    let i = i as usize;
    if i < alts.len() {
        is_late(fixed, t, &alts[i])
    } else {
        false
    }
}

/// The earlier of two times, where there are any.
fn sooner(a: Option<u64>, b: Option<u64>) -> Option<u64>
    ensures { (t : ℕ) → is_by result t ≡ (is_by a t || is_by b t) }
{
    match (a, b) {
        (None, _) => b,
        (Some(_), None) => a,
        (Some(x), Some(y)) => Some(x.min(y)),
    }
}

/// The end of the gap at a number, after a time, where there is such a gap.
fn end_of_gap(least: u32, gaps: &[u32], n: u32) -> Option<u64>
    ensures { (t : ℕ) → is_by result t ≡ passes_at (λ g. nat_le (least + g) t) gaps.now n }
{
    let n = n as usize;
    if n < gaps.len() {
        Some(u64::from(least) + u64::from(gaps[n]))
    } else {
        None
    }
}

/// The first end of a gap at a number that `v` has left, after a time.
fn first_end(w: &Window<'_>, v: VarId, least: u32, gaps: &[u32]) -> Option<u64>
    requires there { v.0 < length w.now.store.now.sets }
    requires live { NoneEmpty w.now.store.now.sets }
    ensures { (t : ℕ) → is_by result t ≡ list_any (λ n. passes_at (λ g. nat_le (least + g) t) gaps.now n)
        (set_at w.now.store.now.sets v.0) }
{
    let low = u64::from(w.min(v));
    let end = u64::from(w.max(v)) + 1;
    let mut first = None;
    for n in low..end {
        if w.has(v, n as u32) {
            let next = end_of_gap(least, gaps, n as u32);
            first = sooner(first, next);
        }
    }
    first
}

/// The first end of a gap of a definer, at a number that it has left, after a time.
fn first_from(w: &Window<'_>, a: &ReadAlt, least: u32) -> Option<u64>
    requires vars { ReadAltVars w.now.vars.now a.now }
    requires known { HasVars w.now.vars.now w.now.store.now.sets }
    requires live { NoneEmpty w.now.store.now.sets }
    ensures { (t : ℕ) → is_by result t ≡ list_any (λ n. passes_at (λ g. nat_le (least + g) t) a.now.gaps n)
        (act_set a.now.on w.now.store.now.sets) }
{
    match a.on {
        Act::Always => end_of_gap(least, a.gaps.as_slice(), 1),
        Act::Var(v) => first_end(w, v, least, a.gaps.as_slice()),
    }
}

/// The first time at which a user may be late enough after a definer.
fn first_late(w: &Window<'_>, a: &ReadAlt) -> Option<u64>
    requires vars { ReadAltVars w.now.vars.now a.now }
    requires known { HasVars w.now.vars.now w.now.store.now.sets }
    requires live { NoneEmpty w.now.store.now.sets }
    ensures { (t : ℕ) → is_by result t ≡ may_be_late w.now.store.now.sets t a.now }
{
    let least = least_time(w, a.at);
    first_from(w, a, least)
}

/// The first time at which a user may be late enough after the definer at a place.
fn first_at(w: &Window<'_>, alts: &[ReadAlt], i: u32) -> Option<u64>
    requires vars { All (ReadAltVars w.now.vars.now) alts.now }
    requires known { HasVars w.now.vars.now w.now.store.now.sets }
    requires live { NoneEmpty w.now.store.now.sets }
    ensures { (t : ℕ) → is_by result t ≡ passes_at (may_be_late w.now.store.now.sets t) alts.now i }
{
    let i = i as usize;
    if i < alts.len() {
        first_late(w, &alts[i])
    } else {
        None
    }
}

/// The first time at which a user may be late enough after a definer that is left to choose.
fn first_read(w: &Window<'_>, choice: VarId, alts: &[ReadAlt]) -> Option<u64>
    requires choice { among w.now.vars.now choice ≡ true }
    requires vars { All (ReadAltVars w.now.vars.now) alts.now }
    requires known { HasVars w.now.vars.now w.now.store.now.sets }
    requires live { NoneEmpty w.now.store.now.sets }
    ensures { (t : ℕ) → is_by result t ≡ may_read choice alts.now w.now.store.now.sets t }
{
    let low = u64::from(w.min(choice));
    let end = u64::from(w.max(choice)) + 1;
    let mut first = None;
    for i in low..end {
        if w.has(choice, i as u32) {
            let next = first_at(w, alts, i as u32);
            first = sooner(first, next);
        }
    }
    first
}

/// What a time has to be greater than for a first time to come by then; none where each time will do.
fn below(first: Option<u64>) -> Option<u32>
    ensures { MatchOption result ((y : ℕ) → (nat_le (2 ^ 32) y || is_by first y) ≡ true)
        (λ b. (y : ℕ) → (nat_le (2 ^ 32) y || is_by first y) ≡ nat_lt b y) }
{
    match first {
        None => Some(u32::MAX),
        Some(t) => {
            if t == 0 {
                None
            } else {
                let b = (t - 1).min(u64::from(u32::MAX));
                Some(b as u32)
            }
        }
    }
}

/// Where the user is sure, it is late enough for some definer that is left to choose.
fn keep_soon(w: &mut Window<'_>, before: Pruned, reads: &Reads) -> Pruned
    requires vars { w.old.vars.now ≡ reads.now.vars }
    requires known { HasVars reads.now.vars w.old.store.now.sets }
    requires live { before ≢ Failed → NoneEmpty w.old.store.now.sets }
    ensures step { Stepped w.old.vars.now (at_cut (soon_test reads.now.user_on reads.now.choice reads.now.alts) reads.now.user)
        w.old.store.now w.new.store.now before result }
    ensures same_reference { w.new.store.ghost_name ≡ w.old.store.ghost_name }
    ensures vars { w.new.vars ≡ w.old.vars }
{
    if before == Pruned::Failed {
        return before;
    }
    if !is_sure(w, reads.user_on) {
        return before;
    }
    match reads.user {
        At::Const(_) => before,
        At::Var(v) => {
            let first = first_read(w, reads.choice, reads.alts.as_slice());
            match below(first) {
                None => before,
                Some(b) => keep_gt(w, before, v, b),
            }
        }
    }
}

/// The gap, or where there is none one that never ends.
fn or_never(gap: Option<u64>) -> u64
    ensures { (high y : ℕ) → high < 2 ^ 64 - 1 → ends_by gap high y ≡ nat_le (y + result) high }
{
    match gap {
        None => u64::MAX,
        Some(g) => g,
    }
}

/// Keeps the values of `v` that end by `high` with the least gap; none where there is no gap.
fn keep_by(w: &mut Window<'_>, before: Pruned, v: VarId, high: u32, gap: Option<u64>) -> Pruned
    requires there { v.0 < length w.old.store.now.sets }
    requires live { NoneEmpty w.old.store.now.sets }
    requires lent { among w.old.vars.now v ≡ true }
    requires going { before ≢ Failed }
    ensures step { Stepped w.old.vars.now (cut_by (ends_by gap high) v.0) w.old.store.now w.new.store.now before result }
    ensures same_reference { w.new.store.ghost_name ≡ w.old.store.ghost_name }
    ensures vars { w.new.vars ≡ w.old.vars }
{
    let least = or_never(gap);
    let top = w.max(v);
    let last = u64::from(high);
    if least <= last {
        let end = last - least;
        keep_le(w, before, v, end as u32)
    } else {
        keep_gt(w, before, v, top)
    }
}

/// Where the user is sure and place `i` alone is left to choose, the definer there is in time.
fn keep_early(w: &mut Window<'_>, before: Pruned, p: &Reads, i: usize) -> Pruned
    requires there { i < length p.now.alts }
    requires small { i < 2 ^ 32 }
    requires vars { w.old.vars.now ≡ p.now.vars }
    requires known { HasVars p.now.vars w.old.store.now.sets }
    requires live { before ≢ Failed → NoneEmpty w.old.store.now.sets }
    ensures step { Stepped w.old.vars.now (early_cut p.now.user p.now.user_on p.now.choice p.now.alts i) w.old.store.now w.new.store.now
        before result }
    ensures same_reference { w.new.store.ghost_name ≡ w.old.store.ghost_name }
    ensures vars { w.new.vars ≡ w.old.vars }
{
    if before == Pruned::Failed {
        return before;
    }
    if !is_sure(w, p.user_on) {
        return before;
    }
    if !is_only(w, p.choice, i as u32) {
        return before;
    }
    let alts = p.alts.as_slice();
    let a = &alts[i];
    match a.at {
        At::Const(_) => before,
        At::Var(v) => {
            let gap = first_from(w, a, 0);
            let high = greatest_time(w, p.user);
            keep_by(w, before, v, high, gap)
        }
    }
}

/// Where the user is sure and one place is left to choose, the definer there is in time.
fn keep_earlies(w: &mut Window<'_>, before: Pruned, p: &Reads, n: usize) -> Pruned
    requires there { n ≤ length p.now.alts }
    requires small { n ≤ 2 ^ 32 }
    requires vars { w.old.vars.now ≡ p.now.vars }
    requires known { HasVars p.now.vars w.old.store.now.sets }
    requires live { before ≢ Failed → NoneEmpty w.old.store.now.sets }
    ensures step { Stepped w.old.vars.now (each_place (early_cut p.now.user p.now.user_on p.now.choice p.now.alts) n) w.old.store.now
        w.new.store.now before result }
    ensures same_reference { w.new.store.ghost_name ≡ w.old.store.ghost_name }
    ensures vars { w.new.vars ≡ w.old.vars }
{
    let mut did = before;
    for i in 0..n {
        did = keep_early(w, did, p, i);
    }
    did
}

/// The operation `user`, where it is active, issues at least the gap after the definer that it chooses of `alts`, by the number of
/// that definer's activity.
#[derive(Drop)]
pub struct Reads {
    /// The time of the operation that reads: its cycle, or the end of the block for `out`.
    pub user: At,
    /// The activity of the operation that reads.
    pub user_on: Act,
    /// The variable of the operand's choice: a place in `alts`.
    pub choice: VarId,
    /// The definers of the operand's alternatives, in order.
    pub alts: Items<ReadAlt>,
    /// The variables of the user, the choice and the definers, rising, each once: it reads these, and cuts these alone.
    pub vars: Items<VarId>,
    ghost ascend: { Ascend vars },
    ghost among: { ReadsVars vars user user_on choice alts },
}

impl Predicate for Reads {
    ghost use Rattle.un_prec.specs.Reads.{reads_holds};
    ghost use Rattle.un_prec.specs.ReadsLaws.{reads_looks};

    ghost scope = { λ p. p.vars };

    ghost holds = { λ p x. reads_holds p.user p.user_on p.choice p.alts x };

    fn reads(&self) -> &[VarId] {
        self.vars.as_slice()
    }

    fn test(&self, fixed: &[u32]) -> bool {
        if !active(fixed, self.user_on) {
            return true;
        }
        let t = time(fixed, self.user);
        is_late_at(fixed, t, self.alts.as_slice(), value(fixed, self.choice))
    }

    ghost looks = { λ p x y same. reads_looks p.vars p.user p.user_on p.choice p.alts p.among x y same };
}

impl Choice for Reads {
    ghost use Rattle.un_prec.specs.Reads.{reads_can};

    ghost can = { λ p s i. reads_can p.user p.alts s i };

    fn can_choose(&self, w: &Window<'_>, i: u32) -> bool {
        let high = u64::from(greatest_time(w, self.user));
        match first_at(w, self.alts.as_slice(), i) {
            None => false,
            Some(t) => t <= high,
        }
    }
}

impl Propagator for Reads {
    ghost use Rattle.un_prop.specs.Last.{last_cut};
    ghost use Rattle.un_prop.specs.PartLaws.{one_part, one_whole, lawful_checked, keeps_checked, forward_checked, stable_first};
    ghost use Rattle.un_prop.specs.WithinLaws.{one_within};
    ghost use Rattle.std.specs.Prelude.{option_and_then};
    ghost use Rattle.un_prec.specs.Reads.{reads_holds, reads_steps, ReadsStrong};
    ghost use Rattle.un_prec.specs.ReadsLaws.{reads_looks, reads_lawful, reads_keeps, reads_strong};

    ghost cut = { λ p s. option_and_then (last_cut p.vars (reads_holds p.user p.user_on p.choice p.alts))
        (reads_steps p.user p.user_on p.choice p.alts s) };

    ghost parts = { λ p. one_part p.vars (reads_holds p.user p.user_on p.choice p.alts) };

    ghost strong = { λ p s. ReadsStrong p.user p.user_on p.choice p.alts s };

    ghost span = { λ p. 0 };

    fn prune_in(&self, w: &mut Window<'_>, scratch: &mut Scratch) -> Pruned {
        let first = keep_soon(w, Pruned::Same, self);
        let n = places(self.alts.as_slice());
        let second = keep_choice(self, w, first, self.user_on, self.choice, n);
        let did = keep_earlies(w, second, self, n);
        check_last(self, w, scratch, did)
    }

    ghost keeps = { λ p s x k full there holds. keeps_checked p.vars (reads_holds p.user p.user_on p.choice p.alts)
        (reads_looks p.vars p.user p.user_on p.choice p.alts p.among) p.ascend (reads_steps p.user p.user_on p.choice p.alts)
        (reads_lawful p.vars p.user p.user_on p.choice p.alts p.among) s x k
        (reads_keeps p.vars p.user p.user_on p.choice p.alts p.among s x k there holds) there.long holds };

    ghost lawful = { λ p. lawful_checked p.vars (reads_holds p.user p.user_on p.choice p.alts)
        (reads_looks p.vars p.user p.user_on p.choice p.alts p.among) p.ascend (reads_steps p.user p.user_on p.choice p.alts)
        (reads_lawful p.vars p.user p.user_on p.choice p.alts p.among) };

    ghost whole = { λ p x. one_whole p.vars (reads_holds p.user p.user_on p.choice p.alts) x };

    ghost within = { λ p. one_within p.vars (reads_holds p.user p.user_on p.choice p.alts) };

    ghost forward = { λ p. forward_checked p.vars (reads_holds p.user p.user_on p.choice p.alts)
        (reads_looks p.vars p.user p.user_on p.choice p.alts p.among) p.ascend (reads_steps p.user p.user_on p.choice p.alts)
        (reads_lawful p.vars p.user p.user_on p.choice p.alts p.among) };

    ghost strength = { λ p s k full words grounded e. reads_strong p.vars p.user p.user_on p.choice p.alts p.among s k full words
        (stable_first p.vars (reads_holds p.user p.user_on p.choice p.alts) (reads_looks p.vars p.user p.user_on p.choice p.alts p.among)
        p.ascend (reads_steps p.user p.user_on p.choice p.alts) (reads_lawful p.vars p.user p.user_on p.choice p.alts p.among) s k full
        e) };
}
