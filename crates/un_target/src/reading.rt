//! The table that a text is.

ghost use Rattle.std.specs.Prelude.{◌≡◌, ℕ, IfOk, IfErr};
ghost use Rattle.un_isa.specs.Fit.{IsFit};
ghost use Rattle.serde_json.specs.View.{view};
ghost use Rattle.un_target.specs.Lending.{lent_parts};
ghost use Rattle.un_target.specs.Texts.{IsJson};
ghost use Rattle.un_target.specs.Tables.{IsTableOf, IsTableText, IsBadOf, IsRefused};

use crate::error::{TableCause, TableError};
use crate::latencies::latencies;
use crate::parts::{Lent, parts};
use crate::saved::{clobbered_mask, saved_mask};
use crate::uses::all_needs;
use serde_json::Value;
use std::alloc::Global;
use un_isa::table::Table;

/// The JSON value that a text is.
fn json(alloc: Global, text: &[u8]) -> Result<Value, TableError>
    ensures ok { IfOk result (λ v. IsJson text.now (view v)) }
    ensures bad { IfErr result (IsRefused text.now) }
{
    match Value::from_slice(alloc, text) {
        Ok(value) => Ok(value),
        Err(error) => {
            if error.is_memory() {
                Err(TableError::NoMemory)
            } else {
                Err(TableError::Bad(TableCause::NotJson))
            }
        }
    }
}

/// The table of the parts of a value.
fn table(parts: &Lent<'_>) -> Result<Table, TableCause>
    ensures ok { IfOk result (IsTableOf (lent_parts parts.now)) }
    ensures bad { IfErr result (IsBadOf (lent_parts parts.now)) }
{
    let Some(lat) = latencies(parts) else {
        return Err(TableCause::BadLatency);
    };
    let Some(uses) = all_needs(parts) else {
        return Err(TableCause::BadUse);
    };
    let Some(saved) = saved_mask(parts.saved) else {
        return Err(TableCause::BadSaved);
    };
    Ok(Table {
        lat,
        uses,
        clobbered: clobbered_mask(saved),
        args: [0, 1, 2, 3, 4, 5],
        result: 0,
        saved,
        fresh: parts.fresh,
    })
}

/// The table that a JSON text is.
///
/// # Errors
/// `Bad` with the first cause that stands where the text is no table's. `NoMemory` where there is no memory for the reading.
pub fn read_table(alloc: Global, text: &[u8]) -> Result<Table, TableError>
    ensures ok { IfOk result (IsTableText text.now) }
    ensures fit { IfOk result IsFit }
    ensures bad { IfErr result (IsRefused text.now) }
{
    let value = json(alloc, text)?;
    let Some(parts) = parts(&value) else {
        return Err(TableError::Bad(TableCause::BadShape));
    };
    match table(&parts) {
        Ok(table) => Ok(table),
        Err(cause) => Err(TableError::Bad(cause)),
    }
}
