//! Propagators of pressure, from their fields.

ghost use Rattle.std.specs.Prelude.{IfOk};
ghost use Rattle.un_kinds.specs.Constraints as constraint;
ghost use Rattle.un_kinds.specs.Scopes.{IsScope, Makes, vars_in, own_var, span_vars};

use crate::any::AnyProp;
use crate::vars::{Naming, rising};
use std::alloc::{AllocError, Global};
use un_base::ids::VarId;
use un_base::memory_error::NoMemory;
use un_lists::items::Items;
use un_press::across::Across;
use un_press::live::{Live, Span};

/// The variables of the times of values.
fn live_vars(alloc: Global, values: &Items<Span>) -> Result<Items<VarId>, AllocError>
    ensures { IfOk result (λ vs. IsScope vs (vars_in span_vars values.now)) }
{
    let mut vars = Vec::new(alloc);
    values.add_to(&mut vars)?;
    rising(alloc, vars)
}

/// Values for which there is room in each cycle.
pub fn make_live(
    alloc: Global,
    values: Items<Span>,
    room: u32,
    horizon: u32,
) -> Result<AnyProp, NoMemory>
    ensures { IfOk result (Makes (constraint.Live values room horizon)) }
{
    let vars = live_vars(alloc, &values)?;
    let made = Live {
        values,
        room,
        horizon,
        vars,
    };
    Ok(AnyProp::Live(made))
}

/// The variable of a call's cycle.
fn call_vars(alloc: Global, call: VarId) -> Result<Items<VarId>, AllocError>
    ensures { IfOk result (λ vs. IsScope vs (own_var call)) }
{
    let mut vars = Vec::new(alloc);
    call.add_to(&mut vars)?;
    rising(alloc, vars)
}

/// A call for which there is room for the values that cross it.
pub fn make_across(alloc: Global, call: VarId, sure: u32, room: u32) -> Result<AnyProp, NoMemory>
    ensures { IfOk result (Makes (constraint.Across call sure room)) }
{
    let vars = call_vars(alloc, call)?;
    let made = Across {
        call,
        sure,
        room,
        vars,
    };
    Ok(AnyProp::Across(made))
}
