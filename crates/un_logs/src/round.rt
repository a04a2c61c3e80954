//! Rounds of the rules: at each turn the values that may go are taken, run after run, and a line is written for each run.

ghost use Rattle.std.specs.Prelude.{◌≡◌, ◌≢◌, ◌++◌, ◌∷◌, [], ◌<◌, ◌≤◌, ◌^◌, ℕ, length, OnOk, IfOk, slice_get};
ghost use Rattle.std.specs.Bool.{OnTrue, OnFalse};
ghost use Rattle.un_domains.specs.Sets.{set_at, NoneEmpty, total};
ghost use Rattle.un_judge.specs.Lines.{Fits, rule_number, step_line};
ghost use Rattle.un_steps.specs.Allowed.{MayGo, after, places_of};
ghost use Rattle.un_logs.specs.Goods.{Does, Writes};
ghost use Rattle.un_logs.specs.Rounds.{IsTurn, step_of, all_rules, turns_at, turns_by, turns_of};

use crate::pass::{Pass, joined};
use crate::print::put_step;
use crate::run::run_behind;
use crate::turn::{Run, Turn};
use crate::vars::vars_at;
use un_base::memory_error::NoMemory;
use un_domains::store::Store;
use un_judge::leaf::{Rules, take};
use un_steps::allowed::{has_place, is_full_at};
use un_steps::look;
use un_steps::step::{Rule, Step};

/// The numbers of a step have 32 bits. It does nothing.
fn are_small(place: u32, var: u32, first: u32, last: u32)
    ensures place { place < 2 ^ 32 }
    ensures var { var < 2 ^ 32 }
    ensures first { first < 2 ^ 32 }
    ensures last { last < 2 ^ 32 }
{
    let _ = place;
    let _ = var;
    let _ = first;
    let _ = last;
}

/// Takes a run of values, and writes its line.
fn take_run(cuts: &mut Store, text: &mut Vec<u8>, t: &Turn, run: Run) -> Result<(), NoMemory>
    requires { t.now.var.0 < length cuts.old.sets }
    ensures sets { OnOk result (cuts.new.sets ≡ after cuts.old.sets (step_of t.now run)) }
    ensures text { OnOk result (text.new.items ≡ text.old.items ++ step_line (step_of t.now run)) }
    ensures fits { OnOk result ((rules : ℕ) → rule_number t.now.rule ≤ rules → Fits rules (step_of t.now run)) }
    ensures marked { cuts.new.marked ≡ cuts.old.marked }
{
    let step = Step {
        rule: t.rule,
        place: t.place,
        var: t.var,
        first: run.first,
        last: run.last,
    };
    are_small(t.place, t.var.0, run.first, run.last);
    put_step(text, &step)?;
    take(cuts, &step);
    Ok(())
}

/// Takes run after run of values that may go. Answers whether some went.
fn take_runs(
    r: &Rules<'_>,
    cuts: &mut Store,
    text: &mut Vec<u8>,
    t: &Turn,
) -> Result<bool, NoMemory>
    requires rule { rule_number t.now.rule ≤ r.now.rules }
    requires full { NoneEmpty cuts.old.sets }
    ensures turn { OnOk result (IsTurn r.now.m.now r.now.limit t.now cuts.old.sets cuts.new.sets) }
    ensures writes { OnOk result (Writes r.now cuts.old.sets cuts.new.sets text.old.items text.new.items) }
    ensures long { OnOk result (length cuts.new.sets ≡ length cuts.old.sets) }
    ensures others { OnOk result ((v : ℕ) → v ≢ t.now.var.0 → set_at cuts.new.sets v ≡ set_at cuts.old.sets v) }
    ensures went { IfOk result (λ went. OnTrue went ((t.now.var.0 < length cuts.old.sets) × (total cuts.new.sets < total cuts.old.sets))) }
    ensures stayed { IfOk result (λ went. OnFalse went (cuts.new.sets ≡ cuts.old.sets)) }
    ensures marked { cuts.new.marked ≡ cuts.old.marked }
{
    let mut went = false;
    let mut from: u64 = 0;
    while let Some(run) = run_behind(r, cuts, t, from, went) {
        take_run(cuts, text, t, run)?;
        from = u64::from(run.last) + 1;
        went = true;
    }
    Ok(went)
}

/// A turn.
fn take_turn(
    r: &Rules<'_>,
    cuts: &mut Store,
    text: &mut Vec<u8>,
    t: &Turn,
) -> Result<Pass, NoMemory>
    requires rule { rule_number t.now.rule ≤ r.now.rules }
    requires full { NoneEmpty cuts.old.sets }
    ensures does { IfOk result (Does r.now (t.now ∷ []) cuts.old.sets cuts.new.sets) }
    ensures writes { OnOk result (Writes r.now cuts.old.sets cuts.new.sets text.old.items text.new.items) }
    ensures marked { cuts.new.marked ≡ cuts.old.marked }
{
    let went = take_runs(r, cuts, text, t)?;
    if !went {
        return Ok(Pass::Same);
    }
    if look::size(cuts, t.var) == 0 {
        return Ok(Pass::Emptied);
    }
    Ok(Pass::Taken)
}

/// The turns of a rule at a place.
fn take_at(
    r: &Rules<'_>,
    cuts: &mut Store,
    text: &mut Vec<u8>,
    rule: Rule,
    place: u32,
) -> Result<Pass, NoMemory>
    requires rule { rule_number rule ≤ r.now.rules }
    requires full { NoneEmpty cuts.old.sets }
    ensures does { IfOk result (Does r.now (turns_at r.now.m.now rule place) cuts.old.sets cuts.new.sets) }
    ensures writes { OnOk result (Writes r.now cuts.old.sets cuts.new.sets text.old.items text.new.items) }
    ensures marked { cuts.new.marked ≡ cuts.old.marked }
{
    let mut pass = Pass::Same;
    for var in &vars_at(*text.allocator(), rule, r.m, place)? {
        let turn = Turn {
            rule,
            place,
            var: *var,
        };
        let next = take_turn(r, cuts, text, &turn)?;
        pass = joined(pass, next);
        if let Pass::Emptied = pass {
            return Ok(pass);
        }
    }
    Ok(pass)
}

/// Whether it is known without a turn that a rule takes nothing at a place: the packets of a block tell no variable and no value from
/// another.
fn is_quiet(r: &Rules<'_>, s: &Store, rule: Rule, place: u32) -> bool
    ensures { OnTrue result ((v y : ℕ) → MayGo rule r.now.m.now r.now.limit s.now.sets place v y → ⊥) }
{
    match rule {
        Rule::TooFull => !is_full_at(r.m, s, place),
        _ => false,
    }
}

/// The turns of a rule at a place, of which none is taken where it is known that nothing goes.
fn take_place(
    r: &Rules<'_>,
    cuts: &mut Store,
    text: &mut Vec<u8>,
    rule: Rule,
    place: u32,
) -> Result<Pass, NoMemory>
    requires rule { rule_number rule ≤ r.now.rules }
    requires full { NoneEmpty cuts.old.sets }
    ensures does { IfOk result (Does r.now (turns_at r.now.m.now rule place) cuts.old.sets cuts.new.sets) }
    ensures writes { OnOk result (Writes r.now cuts.old.sets cuts.new.sets text.old.items text.new.items) }
    ensures marked { cuts.new.marked ≡ cuts.old.marked }
{
    if is_quiet(r, cuts, rule, place) {
        return Ok(Pass::Same);
    }
    let pass = take_at(r, cuts, text, rule, place)?;
    Ok(pass)
}

/// The turns of a rule at each of its places.
fn take_by(
    r: &Rules<'_>,
    cuts: &mut Store,
    text: &mut Vec<u8>,
    rule: Rule,
) -> Result<Pass, NoMemory>
    requires rule { rule_number rule ≤ r.now.rules }
    requires full { NoneEmpty cuts.old.sets }
    ensures does { IfOk result (Does r.now (turns_by r.now.m.now rule) cuts.old.sets cuts.new.sets) }
    ensures writes { OnOk result (Writes r.now cuts.old.sets cuts.new.sets text.old.items text.new.items) }
    ensures marked { cuts.new.marked ≡ cuts.old.marked }
{
    let mut pass = Pass::Same;
    for place in 0..u32::MAX {
        if !has_place(rule, r.m, place) {
            return Ok(pass);
        }
        let next = take_place(r, cuts, text, rule, place)?;
        pass = joined(pass, next);
        if let Pass::Emptied = pass {
            return Ok(pass);
        }
    }
    Err(NoMemory)
}

/// The rule at place `k` of all, from 0.
fn rule_at(k: u32) -> Option<Rule>
    ensures { result ≡ slice_get all_rules k }
{
    match k {
        0 => Some(Rule::TooSoon),
        1 => Some(Rule::Idle),
        2 => Some(Rule::OutsideBlock),
        3 => Some(Rule::FromIdle),
        4 => Some(Rule::TooLateFor),
        5 => Some(Rule::OutsideSpace),
        6 => Some(Rule::NoSpace),
        7 => Some(Rule::Alike),
        8 => Some(Rule::NotHome),
        9 => Some(Rule::NotCongruent),
        10 => Some(Rule::TooDear),
        11 => Some(Rule::NoFrame),
        12 => Some(Rule::TooFull),
        _ => None,
    }
}

/// A round of the first so many rules. It ends as soon as some set is empty.
pub(crate) fn round(r: &Rules<'_>, cuts: &mut Store, text: &mut Vec<u8>) -> Result<Pass, NoMemory>
    requires full { NoneEmpty cuts.old.sets }
    ensures does { IfOk result (Does r.now (turns_of r.now.rules r.now.m.now) cuts.old.sets cuts.new.sets) }
    ensures writes { OnOk result (Writes r.now cuts.old.sets cuts.new.sets text.old.items text.new.items) }
    ensures marked { cuts.new.marked ≡ cuts.old.marked }
{
    let mut pass = Pass::Same;
    for k in 0..r.rules {
        match rule_at(k) {
            None => return Ok(pass),
            Some(rule) => {
                let next = take_by(r, cuts, text, rule)?;
                pass = joined(pass, next);
                if let Pass::Emptied = pass {
                    return Ok(pass);
                }
            }
        }
    }
    Ok(pass)
}
