//! Which propagators read each variable, in a table that is built once.

ghost use Rattle.std.specs.Prelude.{◌≡◌, ℕ, ◌<◌, ◌⊎◌, List, [], ◌∷◌, length, All, IfOk, OnOk, replicate, true};
ghost use Rattle.un_domains.specs.Sets.{set_at, has};
ghost use Rattle.un_prop.specs.Queues.{IsTable, Entered};

use crate::propagator::Predicate;
use std::alloc::{AllocError, Global};
use un_base::ids::VarId;
use un_lists::items::Items;

/// Which propagators read each variable.
#[derive(Drop)]
pub struct Readers {
    /// For each variable, at its number, the rising places in the list of propagators of those that read it.
    pub rows: Vec<Items<usize>>,
}

/// For so many propagators that read a variable there is room at once.
const EXPECTED_READERS: usize = 8;

/// A row without a propagator.
fn empty_row(alloc: Global) -> Result<Items<usize>, AllocError>
    ensures { IfOk result (λ row. row ≡ []) }
{
    let row = Vec::with_capacity(alloc, EXPECTED_READERS)?;
    Ok(Items::from_vec(row))
}

fn empty_rows(alloc: Global, vars: usize) -> Result<Vec<Items<usize>>, AllocError>
    ensures { IfOk result (λ rows. rows.items ≡ replicate vars []) }
{
    let mut rows = Vec::with_capacity(alloc, vars)?;
    for _ in 0..vars {
        let row = empty_row(alloc)?;
        rows.push(row)?;
    }
    Ok(rows)
}

/// Enters a propagator at its variables.
fn enter(vars: &[VarId], i: usize, rows: &mut Vec<Items<usize>>) -> Result<(), AllocError>
    requires { All (λ v. v.0 < length rows.old.items) vars.now }
    ensures { OnOk result (Entered vars.now i rows.old.items rows.new.items) }
{
    for v in vars {
        rows[v.0 as usize].push(i)?;
    }
    Ok(())
}

impl Readers {
    /// The table of these propagators over so many variables.
    pub fn new<P: Predicate>(alloc: Global, props: &[P], vars: usize) -> Result<Readers, AllocError>
        requires { All (λ p. All (λ v. v.0 < vars) (P.scope p)) props.now }
        ensures { IfOk result (λ r. IsTable P.scope props.now vars r.rows.items) }
    {
        let mut rows = empty_rows(alloc, vars)?;
        for i in 0..props.len() {
            enter(props[i].reads(), i, &mut rows)?;
        }
        Ok(Readers { rows })
    }
}
