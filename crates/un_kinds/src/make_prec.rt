//! Propagators of precedence, from their fields.

ghost use Rattle.std.specs.Prelude.{◌++◌, IfOk};
ghost use Rattle.un_prop.specs.Acts.{act_vars, at_vars};
ghost use Rattle.un_kinds.specs.Constraints as constraint;
ghost use Rattle.un_kinds.specs.Scopes.{IsScope, Makes, vars_in, own_var, alt_vars, end_var};

use crate::any::AnyProp;
use crate::vars::{Naming, rising};
use std::alloc::{AllocError, Global};
use un_base::ids::VarId;
use un_base::memory_error::NoMemory;
use un_lists::items::Items;
use un_prec::before::Before;
use un_prec::below::{Below, Weighted};
use un_prec::inside::Inside;
use un_prec::last::Last;
use un_prec::reads::{ReadAlt, Reads};
use un_prop::act::{Act, At};

/// The variables of a precedence.
fn before_vars(
    alloc: Global,
    a: At,
    a_on: Act,
    b: At,
    b_on: Act,
) -> Result<Items<VarId>, AllocError>
    ensures { IfOk result (λ vs. IsScope vs (at_vars a ++ act_vars a_on ++ at_vars b ++ act_vars b_on)) }
{
    let mut vars = Vec::new(alloc);
    a.add_to(&mut vars)?;
    a_on.add_to(&mut vars)?;
    b.add_to(&mut vars)?;
    b_on.add_to(&mut vars)?;
    rising(alloc, vars)
}

/// A precedence: `b` at least `gap` after `a`, where both are active.
pub fn make_before(
    alloc: Global,
    a: At,
    a_on: Act,
    b: At,
    b_on: Act,
    gap: u32,
) -> Result<AnyProp, NoMemory>
    ensures { IfOk result (Makes (constraint.Before a a_on b b_on gap)) }
{
    let vars = before_vars(alloc, a, a_on, b, b_on)?;
    let made = Before {
        a,
        a_on,
        b,
        b_on,
        gap,
        vars,
    };
    Ok(AnyProp::Before(made))
}

/// The variables of an operand that waits.
fn reads_vars(
    alloc: Global,
    user: At,
    on: Act,
    choice: VarId,
    alts: &Items<ReadAlt>,
) -> Result<Items<VarId>, AllocError>
    ensures { IfOk result (λ vs. IsScope vs (at_vars user ++ act_vars on ++ own_var choice ++ vars_in alt_vars alts.now)) }
{
    let mut vars = Vec::with_capacity(alloc, alts.len().saturating_mul(2).saturating_add(3))?;
    user.add_to(&mut vars)?;
    on.add_to(&mut vars)?;
    choice.add_to(&mut vars)?;
    alts.add_to(&mut vars)?;
    rising(alloc, vars)
}

/// An operand of `user` that waits for what it chooses.
pub fn make_reads(
    alloc: Global,
    user: At,
    user_on: Act,
    choice: VarId,
    alts: Items<ReadAlt>,
) -> Result<AnyProp, NoMemory>
    ensures { IfOk result (Makes (constraint.Reads user user_on choice alts)) }
{
    let vars = reads_vars(alloc, user, user_on, choice, &alts)?;
    let made = Reads {
        user,
        user_on,
        choice,
        alts,
        vars,
    };
    Ok(AnyProp::Reads(made))
}

/// The variables of an operation and its block's end.
fn inside_vars(alloc: Global, at: VarId, on: Act, end: VarId) -> Result<Items<VarId>, AllocError>
    ensures { IfOk result (λ vs. IsScope vs (own_var at ++ act_vars on ++ own_var end)) }
{
    let mut vars = Vec::new(alloc);
    at.add_to(&mut vars)?;
    on.add_to(&mut vars)?;
    end.add_to(&mut vars)?;
    rising(alloc, vars)
}

/// An operation that issues inside its block.
pub fn make_inside(alloc: Global, at: VarId, on: Act, end: VarId) -> Result<AnyProp, NoMemory>
    ensures { IfOk result (Makes (constraint.Inside at on end)) }
{
    let vars = inside_vars(alloc, at, on, end)?;
    Ok(AnyProp::Inside(Inside { at, on, end, vars }))
}

/// The variables of a control transfer and its block's end.
fn last_vars(alloc: Global, at: VarId, end: VarId) -> Result<Items<VarId>, AllocError>
    ensures { IfOk result (λ vs. IsScope vs (own_var at ++ own_var end)) }
{
    let mut vars = Vec::new(alloc);
    at.add_to(&mut vars)?;
    end.add_to(&mut vars)?;
    rising(alloc, vars)
}

/// A control transfer that issues in the last cycle of its block.
pub fn make_last(alloc: Global, at: VarId, end: VarId) -> Result<AnyProp, NoMemory>
    ensures { IfOk result (Makes (constraint.Last at end)) }
{
    let vars = last_vars(alloc, at, end)?;
    Ok(AnyProp::Last(Last { at, end, vars }))
}

/// The variables of ends.
fn below_vars(alloc: Global, ends: &Items<Weighted>) -> Result<Items<VarId>, AllocError>
    ensures { IfOk result (λ vs. IsScope vs (vars_in end_var ends.now)) }
{
    let mut vars = Vec::new(alloc);
    ends.add_to(&mut vars)?;
    rising(alloc, vars)
}

/// A cost below a limit.
pub fn make_below(alloc: Global, ends: Items<Weighted>, limit: u64) -> Result<AnyProp, NoMemory>
    ensures { IfOk result (Makes (constraint.Below ends limit)) }
{
    let vars = below_vars(alloc, &ends)?;
    Ok(AnyProp::Below(Below { ends, limit, vars }))
}
