//! Propagators of rectangles, from their fields.

ghost use Rattle.std.specs.Prelude.{◌++◌, IfOk};
ghost use Rattle.un_rect.specs.Operands.{side};
ghost use Rattle.un_kinds.specs.Constraints as constraint;
ghost use Rattle.un_kinds.specs.Scopes.{IsScope, Makes, vars_in, own_var, rectangle_vars, clobber_vars};

use crate::any::AnyProp;
use crate::vars::{Naming, rising};
use std::alloc::{AllocError, Global};
use un_base::ids::VarId;
use un_base::memory_error::NoMemory;
use un_lists::items::Items;
use un_prop::act::Temp;
use un_rect::apart::Apart;
use un_rect::clobber::{Clobber, ClobberCall};
use un_rect::operands::Operands;

/// The variables of temporaries.
fn apart_vars(alloc: Global, temps: &Items<Temp>) -> Result<Items<VarId>, AllocError>
    ensures { IfOk result (λ vs. IsScope vs (vars_in rectangle_vars temps.now)) }
{
    let mut vars = Vec::new(alloc);
    temps.add_to(&mut vars)?;
    rising(alloc, vars)
}

/// Temporaries of which no two with one register overlap.
pub fn make_apart(alloc: Global, temps: Items<Temp>) -> Result<AnyProp, NoMemory>
    ensures { IfOk result (Makes (constraint.Apart temps)) }
{
    let vars = apart_vars(alloc, &temps)?;
    let made = Apart { temps, vars };
    Ok(AnyProp::Apart(made))
}

/// The variables of a temporary and of calls.
fn across_vars(
    alloc: Global,
    temp: &Temp,
    calls: &Items<ClobberCall>,
) -> Result<Items<VarId>, AllocError>
    ensures { IfOk result (λ vs. IsScope vs (rectangle_vars temp.now ++ vars_in clobber_vars calls.now)) }
{
    let mut vars = Vec::new(alloc);
    temp.add_to(&mut vars)?;
    calls.add_to(&mut vars)?;
    rising(alloc, vars)
}

/// A temporary that has no register of the mask across the calls.
pub fn make_clobber(
    alloc: Global,
    mask: u64,
    temp: Temp,
    calls: Items<ClobberCall>,
) -> Result<AnyProp, NoMemory>
    ensures { IfOk result (Makes (constraint.Clobber mask temp calls)) }
{
    let vars = across_vars(alloc, &temp, &calls)?;
    let made = Clobber {
        calls,
        temp,
        mask,
        vars,
    };
    Ok(AnyProp::Clobber(made))
}

/// An operand with the registers of what it may choose, and those that it may have.
#[derive(Drop)]
pub struct OperandFields {
    /// The variable of the operand's choice: a place in `regs`.
    pub choice: VarId,
    /// The variables of the registers of the temporaries that it may choose, in the order of its alternatives.
    pub regs: Items<VarId>,
    /// The numbers of the registers that the chosen temporary may have.
    pub allowed: Items<u32>,
}

/// The variables of two operands.
fn operands_vars(
    alloc: Global,
    a: &OperandFields,
    b: &OperandFields,
) -> Result<Items<VarId>, AllocError>
    ensures { IfOk result (λ vs. IsScope vs (own_var a.now.choice ++ vars_in own_var a.now.regs
        ++ (own_var b.now.choice ++ vars_in own_var b.now.regs))) }
{
    let mut vars = Vec::with_capacity(
        alloc,
        a.regs.len().saturating_add(b.regs.len()).saturating_add(2),
    )?;
    a.choice.add_to(&mut vars)?;
    a.regs.add_to(&mut vars)?;
    b.choice.add_to(&mut vars)?;
    b.regs.add_to(&mut vars)?;
    rising(alloc, vars)
}

/// Two operands that read different values.
pub fn make_operands(alloc: Global, a: OperandFields, b: OperandFields) -> Result<AnyProp, NoMemory>
    ensures { IfOk result (Makes (constraint.Operands (side a.choice a.regs a.allowed) (side b.choice b.regs b.allowed))) }
{
    let vars = operands_vars(alloc, &a, &b)?;
    let OperandFields {
        choice: first,
        regs: first_regs,
        allowed: first_set,
    } = a;
    let OperandFields {
        choice: second,
        regs: second_regs,
        allowed: second_set,
    } = b;
    let made = Operands {
        first,
        first_regs,
        first_set,
        second,
        second_regs,
        second_set,
        vars,
    };
    Ok(AnyProp::Operands(made))
}
