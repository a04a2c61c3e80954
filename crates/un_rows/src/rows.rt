//! The rows of a model, of which each block is known.

ghost use Rattle.std.specs.Prelude.{◌≡◌, ◌++◌, IfOk, OnOk};
ghost use Rattle.std.specs.Option.{option_to_list};
ghost use Rattle.un_rows.specs.Rows.{draft_end, ends_of, least_by_count, end_at, end_by_count, row_by, rows_by};

use crate::draft::Draft;
use crate::drafted::{drafted, later_of};
use crate::drafts::drafts_of;
use crate::known::{Basis, Known};
use std::alloc::{AllocError, Global};
use un_base::memory_error::NoMemory;
use un_base::numbers::later;
use un_counted::counted::LeastEnd;
use un_isa::table::Table;
use un_least::least::least_end;
use un_lists::items::Items;

/// The least end that a block's operations leave with those of a draft.
fn draft_end(alloc: Global, t: &Table, known: &Known, d: &Draft) -> Result<u32, NoMemory>
    ensures { IfOk result (λ end. end ≡ draft_end t.now known.now d.now) }
{
    let block = drafted(alloc, t, known, d)?;
    least_end(alloc, &block, known.own)
}

/// The greatest of those that several leave, and of its own.
fn ends_of(alloc: Global, t: &Table, known: &Known, drafts: &[Draft]) -> Result<u32, NoMemory>
    ensures { IfOk result (λ end. end ≡ ends_of t.now known.now drafts.now) }
{
    let mut end = known.own;
    for d in drafts {
        let left = draft_end(alloc, t, known, d)?;
        end = later_of(end, left);
    }
    Ok(end)
}

/// What a block's end is at least where `s` saved values have slots; nothing where that cannot be.
fn least_by_count(
    alloc: Global,
    t: &Table,
    basis: Basis,
    s: u32,
    known: &Known,
) -> Result<Option<u32>, NoMemory>
    ensures { IfOk result (λ end. end ≡ least_by_count t.now basis s known.now) }
{
    match drafts_of(alloc, t, basis, s, known)? {
        None => Ok(None),
        Some(drafts) => {
            let end = ends_of(alloc, t, known, drafts.as_slice())?;
            Ok(Some(end))
        }
    }
}

/// A block's end in a row.
fn end_at(known: &Known, least: u32) -> LeastEnd
    ensures { result ≡ end_at known.now least }
{
    LeastEnd {
        end: known.end,
        freq: known.freq,
        least,
    }
}

/// That of the row for `s` saved values in slots.
fn end_by_count(
    alloc: Global,
    t: &Table,
    basis: Basis,
    s: u32,
    known: &Known,
) -> Result<Option<LeastEnd>, NoMemory>
    ensures { IfOk result (λ end. end ≡ end_by_count t.now basis s known.now) }
{
    match least_by_count(alloc, t, basis, s, known)? {
        None => Ok(None),
        Some(least) => Ok(Some(end_at(known, least))),
    }
}

/// The row for `s` saved values in slots; nothing where some block cannot be so.
fn row_by(
    alloc: Global,
    t: &Table,
    basis: Basis,
    knowns: &[Known],
    s: u32,
) -> Result<Option<Items<LeastEnd>>, NoMemory>
    ensures { IfOk result (λ row. row ≡ row_by t.now basis knowns.now s) }
{
    let mut row = Items::new(alloc);
    for known in knowns {
        match end_by_count(alloc, t, basis, s, known)? {
            None => return Ok(None),
            Some(end) => row.push(end)?,
        }
    }
    Ok(Some(row))
}

/// Adds a row, where there is one.
fn add_row(
    rows: &mut Items<Items<LeastEnd>>,
    row: Option<Items<LeastEnd>>,
) -> Result<(), AllocError>
    ensures { OnOk result (rows.new ≡ rows.old ++ option_to_list row) }
{
    match row {
        None => Ok(()),
        Some(ends) => rows.push(ends),
    }
}

/// The rows for none of the saved values in slots up to all of them, of a function with these blocks.
pub fn rows_by(
    alloc: Global,
    t: &Table,
    basis: Basis,
    knowns: &[Known],
) -> Result<Items<Items<LeastEnd>>, NoMemory>
    ensures { IfOk result (λ rows. rows ≡ rows_by t.now basis knowns.now) }
{
    let mut rows = Items::new(alloc);
    let past = later(basis.saved, 1)?;
    for s in 0..past {
        let row = row_by(alloc, t, basis, knowns, s)?;
        add_row(&mut rows, row)?;
    }
    Ok(rows)
}
