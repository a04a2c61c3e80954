//! Checks of two temporaries of which one variable is left to decide: it keeps the values that meet their part.

ghost use Rattle.std.specs.Prelude.{◌≡◌, ◌≢◌, ◌≤◌, ◌<◌, ℕ, All, Some, length, true, slice_index, slice_index_or, slice_set};
ghost use Rattle.un_domains.specs.Sets.{set_at, least, NoneEmpty};
ghost use Rattle.un_prop.specs.Among.{among};
ghost use Rattle.un_prop.specs.Acts.{act_vars};
ghost use Rattle.un_prop.specs.Going.{Stepped};
ghost use Rattle.un_prop.specs.Last.{point};
ghost use Rattle.un_prop.specs.LastLaws.{Ascend};
ghost use Rattle.un_prop.specs.Rounds.{HasVars};
ghost use Rattle.un_prop.specs.declared.propagator.Pruned.TheVariants.{Same, Failed};
ghost use Rattle.un_rect.specs.Spans.{TempVars};
ghost use Rattle.un_rect.specs.Apart.{shares, pair_holds, check_pair, check_row, checks_cut};
ghost use Rattle.un_rect.specs.Checks.{is_off, differ, surely_apart, Written, decide_cut, try_cut, IsUndecided};
ghost use Rattle.un_rect.specs.Extents.{is_idle, var_of, AreLeft};
ghost use Rattle.un_rect.specs.declared.opened.Opened.{Opened};

use crate::left::{Left, is_done, left_again, next_left, note_left, noted_both};
use crate::opened::{Opened, is_more, with_temp};
use crate::spans::end;
use un_base::ids::VarId;
use un_domains::window::Window;
use un_prop::act::{Act, Temp, active, time, value};
use un_prop::last::fill;
use un_prop::propagator::Pruned;
use un_prop::step::{drop_value, joined};

/// Whether two temporaries are active and have one register.
fn share(fixed: &[u32], a: &Temp, b: &Temp) -> bool
    ensures { result ≡ shares a.now b.now fixed.now }
{
    if !active(fixed, a.on) {
        return false;
    }
    if !active(fixed, b.on) {
        return false;
    }
    value(fixed, a.reg) == value(fixed, b.reg)
}

/// Whether an assignment meets the part of two temporaries.
pub(crate) fn are_apart(fixed: &[u32], a: &Temp, b: &Temp) -> bool
    ensures { result ≡ pair_holds a.now b.now fixed.now }
{
    if !share(fixed, a, b) {
        return true;
    }
    if end(fixed, a) <= u64::from(time(fixed, b.at)) {
        return true;
    }
    end(fixed, b) <= u64::from(time(fixed, a.at))
}

/// Whether an activity is surely off.
pub(crate) fn is_off(w: &Window<'_>, on: Act) -> bool
    requires known { HasVars (act_vars on) w.now.store.now.sets }
    requires live { NoneEmpty w.now.store.now.sets }
    ensures { result ≡ is_off on w.now.store.now.sets }
{
    match on {
        Act::Always => false,
        Act::Var(v) => w.max(v) == 0,
    }
}

/// Whether two variables have one value each, and not the same.
fn differ(w: &Window<'_>, u: VarId, v: VarId) -> bool
    requires first { u.0 < length w.now.store.now.sets }
    requires second { v.0 < length w.now.store.now.sets }
    requires live { NoneEmpty w.now.store.now.sets }
    ensures { result ≡ differ u v w.now.store.now.sets }
{
    if !w.is_single(u) {
        return false;
    }
    if !w.is_single(v) {
        return false;
    }
    w.min(u) != w.min(v)
}

/// Whether one of two temporaries is off, or their registers differ.
fn surely_apart(w: &Window<'_>, a: &Temp, b: &Temp) -> bool
    requires of_a { TempVars w.now.vars.now a.now }
    requires of_b { TempVars w.now.vars.now b.now }
    requires known { HasVars w.now.vars.now w.now.store.now.sets }
    requires live { NoneEmpty w.now.store.now.sets }
    ensures { result ≡ surely_apart a.now b.now w.now.store.now.sets }
{
    if is_off(w, a.on) {
        return true;
    }
    if is_off(w, b.on) {
        return true;
    }
    differ(w, a.reg, b.reg)
}

/// The variable of two temporaries that is left to decide, if there is one alone; their register where all have one value.
fn undecided(w: &Window<'_>, a: &Temp, b: &Temp) -> Option<VarId>
    requires ascend { Ascend w.now.vars.now }
    requires of_a { TempVars w.now.vars.now a.now }
    requires of_b { TempVars w.now.vars.now b.now }
    requires known { HasVars w.now.vars.now w.now.store.now.sets }
    requires live { NoneEmpty w.now.store.now.sets }
    ensures { IsUndecided w.now.vars.now a.now b.now w.now.store.now.sets result }
{
    if surely_apart(w, a, b) {
        return None;
    }
    let first = with_temp(w, Opened::Nothing, a);
    match with_temp(w, first, b) {
        Opened::Nothing => Some(a.reg),
        Opened::One(v) => Some(v),
        Opened::More => None,
    }
}

/// The variable to decide where this is open of two temporaries; the register of the first where nothing is.
fn var_of(reg: VarId, opened: Opened) -> Option<VarId>
    ensures { result ≡ var_of reg opened }
{
    match opened {
        Opened::Nothing => Some(reg),
        Opened::One(v) => Some(v),
        Opened::More => None,
    }
}

/// The variable of two temporaries that is left to decide, by what was noted of them where that still stands.
fn to_decide(w: &Window<'_>, a: &Temp, b: &Temp, noted: Option<Opened>) -> Option<VarId>
    requires ascend { Ascend w.now.vars.now }
    requires of_a { TempVars w.now.vars.now a.now }
    requires of_b { TempVars w.now.vars.now b.now }
    requires known { HasVars w.now.vars.now w.now.store.now.sets }
    requires live { NoneEmpty w.now.store.now.sets }
    requires noted { (o : Opened) → noted ≡ Some o
        → IsUndecided w.now.vars.now a.now b.now w.now.store.now.sets (var_of a.now.reg o) }
    ensures { IsUndecided w.now.vars.now a.now b.now w.now.store.now.sets result }
{
    match noted {
        None => undecided(w, a, b),
        Some(opened) => var_of(a.reg, opened),
    }
}

/// Takes the value `y` from `v`, where two temporaries are not apart for it and what is written of the others. Mostly it is gone already.
fn try_value(
    w: &mut Window<'_>,
    before: Pruned,
    a: &Temp,
    b: &Temp,
    v: VarId,
    y: u32,
    fixed: &mut [u32],
) -> Pruned
    requires lent { among w.old.vars.now v ≡ true }
    requires known { HasVars w.old.vars.now w.old.store.now.sets }
    requires live { before ≢ Failed → NoneEmpty w.old.store.now.sets }
    requires room { length w.old.store.now.sets ≤ length fixed.old }
    ensures step { Stepped w.old.vars.now (try_cut a.now b.now v y fixed.old) w.old.store.now w.new.store.now before result }
    ensures others { (u : ℕ) → u ≢ v.0 → slice_index fixed.new u ≡ slice_index fixed.old u }
    ensures same_reference { w.new.store.ghost_name ≡ w.old.store.ghost_name }
    ensures vars { w.new.vars ≡ w.old.vars }
{
    if before == Pruned::Failed {
        return before;
    }
    if !w.has(v, y) {
        return before;
    }
    fixed[v.0 as usize] = y;
    if are_apart(fixed, a, b) {
        return before;
    }
    drop_value(w, before, v, y)
}

/// Tries each value of `v`, with what is written of the others.
fn try_all(w: &mut Window<'_>, a: &Temp, b: &Temp, v: VarId, fixed: &mut [u32]) -> Pruned
    requires of_a { TempVars w.old.vars.now a.now }
    requires of_b { TempVars w.old.vars.now b.now }
    requires lent { among w.old.vars.now v ≡ true }
    requires known { HasVars w.old.vars.now w.old.store.now.sets }
    requires live { NoneEmpty w.old.store.now.sets }
    requires room { length w.old.store.now.sets ≤ length fixed.old }
    requires written { Written w.old.vars.now w.old.store.now.sets fixed.old }
    ensures step { Stepped w.old.vars.now (decide_cut a.now b.now v w.old.store.now.sets) w.old.store.now w.new.store.now Same result }
    ensures others { (u : ℕ) → u ≢ v.0 → slice_index fixed.new u ≡ slice_index fixed.old u }
    ensures same_reference { w.new.store.ghost_name ≡ w.old.store.ghost_name }
    ensures vars { w.new.vars ≡ w.old.vars }
{
    let low = u64::from(w.min(v));
    let last = u64::from(w.max(v)) + 1;
    let mut did = Pruned::Same;
    for y in low..last {
        did = try_value(w, did, a, b, v, y as u32, fixed);
    }
    did
}

/// Tries the value of `v` that another variable has, where two temporaries are apart for each other one.
fn try_other(
    w: &mut Window<'_>,
    a: &Temp,
    b: &Temp,
    v: VarId,
    other: VarId,
    fixed: &mut [u32],
) -> Pruned
    requires of_a { TempVars w.old.vars.now a.now }
    requires of_b { TempVars w.old.vars.now b.now }
    requires lent { among w.old.vars.now v ≡ true }
    requires known { HasVars w.old.vars.now w.old.store.now.sets }
    requires live { NoneEmpty w.old.store.now.sets }
    requires room { length w.old.store.now.sets ≤ length fixed.old }
    requires written { Written w.old.vars.now w.old.store.now.sets fixed.old }
    requires there { among w.old.vars.now other ≡ true }
    requires apart { (y : ℕ) → y ≢ least (set_at w.old.store.now.sets other.0)
        → pair_holds a.now b.now (slice_set (point w.old.store.now.sets) v.0 y) ≡ true }
    ensures step { Stepped w.old.vars.now (decide_cut a.now b.now v w.old.store.now.sets) w.old.store.now w.new.store.now Same result }
    ensures others { (u : ℕ) → u ≢ v.0 → slice_index fixed.new u ≡ slice_index fixed.old u }
    ensures same_reference { w.new.store.ghost_name ≡ w.old.store.ghost_name }
    ensures vars { w.new.vars ≡ w.old.vars }
{
    let y = value(fixed, other);
    try_value(w, Pruned::Same, a, b, v, y, fixed)
}

/// Tries the values of `v` for which two temporaries may not be apart: of the register of one the register of the other.
fn try_some(w: &mut Window<'_>, a: &Temp, b: &Temp, v: VarId, fixed: &mut [u32]) -> Pruned
    requires of_a { TempVars w.old.vars.now a.now }
    requires of_b { TempVars w.old.vars.now b.now }
    requires lent { among w.old.vars.now v ≡ true }
    requires known { HasVars w.old.vars.now w.old.store.now.sets }
    requires live { NoneEmpty w.old.store.now.sets }
    requires room { length w.old.store.now.sets ≤ length fixed.old }
    requires written { Written w.old.vars.now w.old.store.now.sets fixed.old }
    ensures step { Stepped w.old.vars.now (decide_cut a.now b.now v w.old.store.now.sets) w.old.store.now w.new.store.now Same result }
    ensures others { (u : ℕ) → u ≢ v.0 → slice_index fixed.new u ≡ slice_index fixed.old u }
    ensures same_reference { w.new.store.ghost_name ≡ w.old.store.ghost_name }
    ensures vars { w.new.vars ≡ w.old.vars }
{
    if a.reg.0 == b.reg.0 {
        return try_all(w, a, b, v, fixed);
    }
    if v.0 == a.reg.0 {
        return try_other(w, a, b, v, b.reg, fixed);
    }
    if v.0 == b.reg.0 {
        return try_other(w, a, b, v, a.reg, fixed);
    }
    try_all(w, a, b, v, fixed)
}

/// Decides `v`, and writes its least value that is left.
fn decide(
    w: &mut Window<'_>,
    before: Pruned,
    a: &Temp,
    b: &Temp,
    v: VarId,
    fixed: &mut [u32],
) -> Pruned
    requires of_a { TempVars w.old.vars.now a.now }
    requires of_b { TempVars w.old.vars.now b.now }
    requires lent { among w.old.vars.now v ≡ true }
    requires known { HasVars w.old.vars.now w.old.store.now.sets }
    requires going { before ≢ Failed }
    requires live { NoneEmpty w.old.store.now.sets }
    requires room { length w.old.store.now.sets ≤ length fixed.old }
    requires written { Written w.old.vars.now w.old.store.now.sets fixed.old }
    ensures step { Stepped w.old.vars.now (decide_cut a.now b.now v w.old.store.now.sets) w.old.store.now w.new.store.now before result }
    ensures written { result ≢ Failed → Written w.old.vars.now w.new.store.now.sets fixed.new }
    ensures same_reference { w.new.store.ghost_name ≡ w.old.store.ghost_name }
    ensures vars { w.new.vars ≡ w.old.vars }
{
    let did = try_some(w, a, b, v, fixed);
    if did == Pruned::Failed {
        return Pruned::Failed;
    }
    fixed[v.0 as usize] = w.min(v);
    joined(before, did)
}

/// Where one variable of two temporaries is left to decide, it keeps the values that meet their part.
fn check(
    w: &mut Window<'_>,
    before: Pruned,
    a: &Temp,
    b: &Temp,
    noted: Option<Opened>,
    fixed: &mut [u32],
) -> Pruned
    requires ascend { Ascend w.old.vars.now }
    requires of_a { TempVars w.old.vars.now a.now }
    requires of_b { TempVars w.old.vars.now b.now }
    requires known { HasVars w.old.vars.now w.old.store.now.sets }
    requires live { before ≢ Failed → NoneEmpty w.old.store.now.sets }
    requires noted { before ≢ Failed → (o : Opened) → noted ≡ Some o
        → IsUndecided w.old.vars.now a.now b.now w.old.store.now.sets (var_of a.now.reg o) }
    requires room { length w.old.store.now.sets ≤ length fixed.old }
    requires written { before ≢ Failed → Written w.old.vars.now w.old.store.now.sets fixed.old }
    ensures step { Stepped w.old.vars.now (check_pair w.old.vars.now a.now b.now) w.old.store.now w.new.store.now before result }
    ensures written { result ≢ Failed → Written w.old.vars.now w.new.store.now.sets fixed.new }
    ensures same_reference { w.new.store.ghost_name ≡ w.old.store.ghost_name }
    ensures vars { w.new.vars ≡ w.old.vars }
{
    if before == Pruned::Failed {
        return before;
    }
    match to_decide(w, a, b, noted) {
        None => before,
        Some(v) => decide(w, before, a, b, v, fixed),
    }
}

/// Whether there is nothing to check of a temporary with any other: it is off, or more than one variable is open.
pub(crate) fn is_idle(w: &Window<'_>, b: &Temp) -> bool
    requires of_b { TempVars w.now.vars.now b.now }
    requires known { HasVars w.now.vars.now w.now.store.now.sets }
    requires live { NoneEmpty w.now.store.now.sets }
    ensures { result ≡ is_idle b.now w.now.store.now.sets }
{
    if is_off(w, b.on) {
        return true;
    }
    is_more(with_temp(w, Opened::Nothing, b))
}

/// Of the temporary at place `j` with each one before it.
fn check_row(
    w: &mut Window<'_>,
    temps: &[Temp],
    left: &[Left],
    j: usize,
    fixed: &mut [u32],
) -> Pruned
    requires there { j < length temps.now }
    requires ascend { Ascend w.old.vars.now }
    requires of_temps { All (TempVars w.old.vars.now) temps.now }
    requires known { HasVars w.old.vars.now w.old.store.now.sets }
    requires live { NoneEmpty w.old.store.now.sets }
    requires room { length w.old.store.now.sets ≤ length fixed.old }
    requires written { Written w.old.vars.now w.old.store.now.sets fixed.old }
    requires are { AreLeft temps.now w.old.store.now.sets left.now }
    ensures step { (b : Temp) → Stepped w.old.vars.now (check_row w.old.vars.now temps.now (slice_index_or temps.now j b) j)
        w.old.store.now w.new.store.now Same result }
    ensures written { result ≢ Failed → Written w.old.vars.now w.new.store.now.sets fixed.new }
    ensures same_reference { w.new.store.ghost_name ≡ w.old.store.ghost_name }
    ensures vars { w.new.vars ≡ w.old.vars }
{
    if is_done(w, temps, left, j) {
        return Pruned::Same;
    }
    let b = &temps[j];
    let mut did = Pruned::Same;
    let mut i = next_left(left, did, 0, j);
    while i < j {
        let noted = noted_both(left, did, i, j);
        did = check(w, did, &temps[i], b, noted, fixed);
        i = next_left(left, did, i + 1, j);
    }
    did
}

/// The same, after other rows. Where it changes something, all is noted again.
fn check_next(
    w: &mut Window<'_>,
    before: Pruned,
    temps: &[Temp],
    left: &mut [Left],
    j: usize,
    fixed: &mut [u32],
) -> Pruned
    requires there { j < length temps.now }
    requires ascend { Ascend w.old.vars.now }
    requires of_temps { All (TempVars w.old.vars.now) temps.now }
    requires known { HasVars w.old.vars.now w.old.store.now.sets }
    requires live { before ≢ Failed → NoneEmpty w.old.store.now.sets }
    requires room { length w.old.store.now.sets ≤ length fixed.old }
    requires written { before ≢ Failed → Written w.old.vars.now w.old.store.now.sets fixed.old }
    requires are { before ≢ Failed → AreLeft temps.now w.old.store.now.sets left.old }
    ensures step { (b : Temp) → Stepped w.old.vars.now (check_row w.old.vars.now temps.now (slice_index_or temps.now j b) j)
        w.old.store.now w.new.store.now before result }
    ensures written { result ≢ Failed → Written w.old.vars.now w.new.store.now.sets fixed.new }
    ensures are { result ≢ Failed → AreLeft temps.now w.new.store.now.sets left.new }
    ensures same_reference { w.new.store.ghost_name ≡ w.old.store.ghost_name }
    ensures vars { w.new.vars ≡ w.old.vars }
{
    if before == Pruned::Failed {
        return before;
    }
    let did = check_row(w, temps, left, j, fixed);
    left_again(w, did, temps, left);
    joined(before, did)
}

/// Tries the values of each two temporaries of which one variable is left to decide.
pub(crate) fn check_all(
    w: &mut Window<'_>,
    before: Pruned,
    temps: &[Temp],
    left: &mut [Left],
    fixed: &mut [u32],
) -> Pruned
    requires ascend { Ascend w.old.vars.now }
    requires of_temps { All (TempVars w.old.vars.now) temps.now }
    requires known { HasVars w.old.vars.now w.old.store.now.sets }
    requires live { before ≢ Failed → NoneEmpty w.old.store.now.sets }
    requires room { length w.old.store.now.sets ≤ length fixed.old }
    ensures step { Stepped w.old.vars.now (checks_cut w.old.vars.now temps.now) w.old.store.now w.new.store.now before result }
    ensures same_reference { w.new.store.ghost_name ≡ w.old.store.ghost_name }
    ensures vars { w.new.vars ≡ w.old.vars }
{
    if before == Pruned::Failed {
        return before;
    }
    let vars = w.vars;
    fill(vars, w, fixed);
    note_left(w, temps, left);
    let mut did = before;
    for j in 0..temps.len() {
        did = check_next(w, did, temps, left, j, fixed);
    }
    did
}
