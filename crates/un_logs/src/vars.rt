//! The variables that a rule can take values of at a place.

ghost use Rattle.std.specs.Prelude.{◌≡◌, ◌++◌, ◌∷◌, [], OnOk, IfOk, map, slice_get};
ghost use Rattle.std.specs.List.{flat_map};
ghost use Rattle.un_steps.specs.Found.{operation_of};
ghost use Rattle.un_steps.specs.Full.{operations_of as of_block};
ghost use Rattle.un_steps.specs.Words.{number_of, reg_numbers, result_vars, other_vars, operation_at};
ghost use Rattle.un_logs.specs.Vars.{vars_of, one_var, time_vars, arc_vars, choice_vars, operation_vars, vars_at};

use std::alloc::{AllocError, Global};
use un_base::ids::{TempId, VarId};
use un_base::memory_error::NoMemory;
use un_model::model::{Arc, Model};
use un_steps::allowed::{arc, block};
use un_steps::full::{Block, at, count};
use un_steps::operation::{Found, operation, temp_vars, time};
use un_steps::step::Rule;

/// Appends a variable.
fn push_var(vars: &mut Vec<VarId>, v: VarId) -> Result<(), AllocError>
    ensures { OnOk result (map number_of vars.new.items ≡ map number_of vars.old.items ++ v.0 ∷ []) }
{
    vars.push(v)?;
    Ok(())
}

/// Appends a variable, where there is one.
fn push_some(vars: &mut Vec<VarId>, w: Option<VarId>) -> Result<(), AllocError>
    ensures { OnOk result (map number_of vars.new.items ≡ map number_of vars.old.items ++ one_var w) }
{
    match w {
        None => Ok(()),
        Some(v) => push_var(vars, v),
    }
}

/// Appends variables.
fn push_all(vars: &mut Vec<VarId>, more: &[VarId]) -> Result<(), AllocError>
    ensures { OnOk result (map number_of vars.new.items ≡ map number_of vars.old.items ++ map number_of more.now) }
{
    vars.extend_from_slice(more)?;
    Ok(())
}

/// Appends the register of a temporary.
fn push_register(vars: &mut Vec<VarId>, m: &Model, x: TempId) -> Result<(), AllocError>
    ensures { OnOk result (map number_of vars.new.items ≡ map number_of vars.old.items ++ reg_numbers (slice_get m.now.temps x.0)) }
{
    match temp_vars(m, x) {
        None => Ok(()),
        Some(t) => push_var(vars, t.reg),
    }
}

/// Appends the registers of the results of an operation.
fn push_results(vars: &mut Vec<VarId>, m: &Model, p: &Found<'_>) -> Result<(), AllocError>
    ensures { OnOk result (map number_of vars.new.items ≡ map number_of vars.old.items ++ result_vars m.now (operation_of p.now)) }
{
    for j in 0..p.op.results.len() {
        let x = p.op.results.get(j);
        push_register(vars, m, *x)?;
    }
    Ok(())
}

/// Appends the variables of an operation, but not that of its instruction.
fn push_others(vars: &mut Vec<VarId>, m: &Model, p: &Found<'_>) -> Result<(), AllocError>
    ensures { OnOk result (map number_of vars.new.items ≡ map number_of vars.old.items ++ other_vars m.now (operation_of p.now)) }
{
    push_some(vars, p.vars.cycle)?;
    push_all(vars, p.vars.choices.as_slice())?;
    push_results(vars, m, p)?;
    Ok(())
}

/// Appends the choices of an operation.
fn push_choices(vars: &mut Vec<VarId>, p: &Found<'_>) -> Result<(), AllocError>
    ensures { OnOk result (map number_of vars.new.items ≡ map number_of vars.old.items ++ choice_vars (operation_of p.now)) }
{
    push_all(vars, p.vars.choices.as_slice())
}

/// Appends the variable of the instruction of an operation, and all others of it.
fn push_own(vars: &mut Vec<VarId>, m: &Model, p: &Found<'_>) -> Result<(), AllocError>
    ensures { OnOk result (map number_of vars.new.items
        ≡ map number_of vars.old.items ++ (one_var p.now.vars.now.instr ++ other_vars m.now (operation_of p.now))) }
{
    push_some(vars, p.vars.instr)?;
    push_others(vars, m, p)?;
    Ok(())
}

/// Appends a variable, where there is one, and another.
fn push_both(vars: &mut Vec<VarId>, w: Option<VarId>, v: VarId) -> Result<(), AllocError>
    ensures { OnOk result (map number_of vars.new.items ≡ map number_of vars.old.items ++ (one_var w ++ v.0 ∷ [])) }
{
    push_some(vars, w)?;
    push_var(vars, v)?;
    Ok(())
}

/// Appends what a rule of operations can take values of at one.
fn push_vars(vars: &mut Vec<VarId>, rule: Rule, m: &Model, p: &Found<'_>) -> Result<(), AllocError>
    ensures { OnOk result (map number_of vars.new.items
        ≡ map number_of vars.old.items ++ operation_vars rule m.now (operation_of p.now)) }
{
    match rule {
        Rule::TooSoon => Ok(()),
        Rule::Idle => push_own(vars, m, p),
        Rule::OutsideBlock => push_both(vars, p.vars.cycle, p.end),
        Rule::FromIdle => push_choices(vars, p),
        Rule::TooLateFor => push_choices(vars, p),
        Rule::OutsideSpace => push_results(vars, m, p),
        Rule::NoSpace => push_choices(vars, p),
        Rule::Alike => push_choices(vars, p),
        Rule::NotHome => push_choices(vars, p),
        Rule::NotCongruent => push_choices(vars, p),
        Rule::TooDear => Ok(()),
        Rule::NoFrame => push_both(vars, p.vars.instr, m.flag),
        Rule::TooFull => Ok(()),
    }
}

/// Appends what a rule of operations can take values of at operation `n`.
fn push_at(vars: &mut Vec<VarId>, rule: Rule, m: &Model, n: u32) -> Result<(), AllocError>
    ensures { OnOk result (map number_of vars.new.items
        ≡ map number_of vars.old.items ++ vars_of (operation_vars rule m.now) (operation_at m.now n)) }
{
    match operation(m, n) {
        None => Ok(()),
        Some(p) => push_vars(vars, rule, m, &p),
    }
}

/// Appends the time of operation `n`.
fn push_time(vars: &mut Vec<VarId>, m: &Model, n: u32) -> Result<(), AllocError>
    ensures { OnOk result (map number_of vars.new.items
        ≡ map number_of vars.old.items ++ vars_of time_vars (operation_at m.now n)) }
{
    match operation(m, n) {
        None => Ok(()),
        Some(p) => push_some(vars, time(&p)),
    }
}

/// Appends the times of both ends of an arc.
fn push_times(vars: &mut Vec<VarId>, m: &Model, a: &Arc) -> Result<(), AllocError>
    ensures { OnOk result (map number_of vars.new.items ≡ map number_of vars.old.items ++ arc_vars m.now a.now) }
{
    push_time(vars, m, a.to.0)?;
    push_time(vars, m, a.from.0)?;
    Ok(())
}

/// Appends the times of both ends of arc `n`.
fn push_arc(vars: &mut Vec<VarId>, m: &Model, n: u32) -> Result<(), AllocError>
    ensures { OnOk result (map number_of vars.new.items ≡ map number_of vars.old.items ++ vars_at Rule.TooSoon m.now n) }
{
    match arc(m, n) {
        None => Ok(()),
        Some(a) => push_times(vars, m, &a),
    }
}

/// Appends the end of block `n`.
fn push_end(vars: &mut Vec<VarId>, m: &Model, n: u32) -> Result<(), AllocError>
    ensures { OnOk result (map number_of vars.new.items ≡ map number_of vars.old.items ++ vars_at Rule.TooDear m.now n) }
{
    match m.blocks.as_slice().get(n as usize) {
        None => Ok(()),
        Some(b) => push_var(vars, b.end),
    }
}

/// Appends the time of operation `i` of a block.
fn push_time_in(vars: &mut Vec<VarId>, b: &Block<'_>, i: usize) -> Result<(), AllocError>
    ensures { OnOk result (map number_of vars.new.items
        ≡ map number_of vars.old.items ++ vars_of time_vars (slice_get (of_block b.now) i)) }
{
    match at(b, i) {
        None => Ok(()),
        Some(p) => push_some(vars, time(&p)),
    }
}

/// Appends the times of the operations of a block.
fn push_times_of(vars: &mut Vec<VarId>, b: &Block<'_>) -> Result<(), AllocError>
    ensures { OnOk result (map number_of vars.new.items ≡ map number_of vars.old.items ++ flat_map time_vars (of_block b.now)) }
{
    for i in 0..count(b) {
        push_time_in(vars, b, i)?;
    }
    Ok(())
}

/// Appends the times of the operations of block `n`.
fn push_packets(vars: &mut Vec<VarId>, m: &Model, n: u32) -> Result<(), AllocError>
    ensures { OnOk result (map number_of vars.new.items ≡ map number_of vars.old.items ++ vars_at Rule.TooFull m.now n) }
{
    match block(m, n) {
        None => Ok(()),
        Some(b) => push_times_of(vars, &b),
    }
}

/// Appends what a rule can take values of at place `n`.
fn push_place(vars: &mut Vec<VarId>, rule: Rule, m: &Model, n: u32) -> Result<(), AllocError>
    ensures { OnOk result (map number_of vars.new.items ≡ map number_of vars.old.items ++ vars_at rule m.now n) }
{
    match rule {
        Rule::TooSoon => push_arc(vars, m, n),
        Rule::Idle => push_at(vars, Rule::Idle, m, n),
        Rule::OutsideBlock => push_at(vars, Rule::OutsideBlock, m, n),
        Rule::FromIdle => push_at(vars, Rule::FromIdle, m, n),
        Rule::TooLateFor => push_at(vars, Rule::TooLateFor, m, n),
        Rule::OutsideSpace => push_at(vars, Rule::OutsideSpace, m, n),
        Rule::NoSpace => push_at(vars, Rule::NoSpace, m, n),
        Rule::Alike => push_at(vars, Rule::Alike, m, n),
        Rule::NotHome => push_at(vars, Rule::NotHome, m, n),
        Rule::NotCongruent => push_at(vars, Rule::NotCongruent, m, n),
        Rule::TooDear => push_end(vars, m, n),
        Rule::NoFrame => push_at(vars, Rule::NoFrame, m, n),
        Rule::TooFull => push_packets(vars, m, n),
    }
}

/// The variables that a rule can take values of at place `n`.
pub(crate) fn vars_at(alloc: Global, rule: Rule, m: &Model, n: u32) -> Result<Vec<VarId>, NoMemory>
    ensures { IfOk result (λ vars. map number_of vars.items ≡ vars_at rule m.now n) }
{
    let mut vars = Vec::new(alloc);
    push_place(&mut vars, rule, m, n)?;
    Ok(vars)
}
