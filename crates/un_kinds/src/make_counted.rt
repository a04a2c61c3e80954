//! The propagator of counts, from its fields.

ghost use Rattle.std.specs.Prelude.{IfOk};
ghost use Rattle.un_kinds.specs.Constraints as constraint;
ghost use Rattle.un_kinds.specs.Scopes.{IsScope, Makes, vars_in, row_vars};

use crate::any::AnyProp;
use crate::vars::{Naming, rising};
use std::alloc::{AllocError, Global};
use un_base::ids::VarId;
use un_base::memory_error::NoMemory;
use un_counted::counted::{Counted, LeastEnd};
use un_lists::items::Items;

/// The variables of the ends of rows.
fn row_vars(alloc: Global, rows: &Items<Items<LeastEnd>>) -> Result<Items<VarId>, AllocError>
    ensures { IfOk result (λ vs. IsScope vs (vars_in row_vars rows.now)) }
{
    let mut vars = Vec::new(alloc);
    rows.add_to(&mut vars)?;
    rising(alloc, vars)
}

/// Ends of blocks that one of several rows has no later, at a cost below a limit.
pub fn make_counted(
    alloc: Global,
    rows: Items<Items<LeastEnd>>,
    limit: u64,
) -> Result<AnyProp, NoMemory>
    ensures { IfOk result (Makes (constraint.Counted rows limit)) }
{
    let vars = row_vars(alloc, &rows)?;
    Ok(AnyProp::Counted(Counted { rows, limit, vars }))
}

/// The same rows below another limit.
pub fn counted_below(alloc: Global, p: &Counted, limit: u64) -> Result<AnyProp, NoMemory>
    ensures { IfOk result (Makes (constraint.Counted p.now.rows limit)) }
{
    let rows = p.rows.clone()?;
    make_counted(alloc, rows, limit)
}
