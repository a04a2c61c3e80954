//! A listing compared with a function and its report, as text.

ghost use Rattle.un_isa.specs.Fit.{IsFit};

use crate::least::least_packets;
use crate::report::{Figures, best_in, figures_in};
use std::alloc::Global;
use un_base::memory_error::NoMemory;
use un_foreign::listing::Listing;
use un_foreign::matched::{By, Matched, match_blocks};
use un_foreign::rows::{Sheet, Sum, put_table};
use un_foreign::subset::unknown;
use un_foreign::waits::waits;
use un_ir::function::Function;
use un_ir::text::{put_number, put_text};
use un_isa::table::Table;

/// Appends texts and numbers by turns, and a text.
fn put_parts(out: &mut Vec<u8>, parts: &[(&[u8], u64)], end: &[u8]) -> Result<(), NoMemory> {
    for (text, number) in parts {
        put_text(out, text)?;
        put_number(out, *number)?;
    }
    put_text(out, end)
}

/// Appends how blocks are matched, where that is not by label.
fn put_by(out: &mut Vec<u8>, f: &Function, listing: &Listing<'_>, by: By) -> Result<(), NoMemory> {
    let own = u64::try_from(f.blocks.len()).unwrap_or(u64::MAX);
    match by {
        By::Labels => Ok(()),
        By::Order => put_text(
            out,
            b"blocks: matched in order, since there are as many and the labels differ\n",
        ),
        By::Some => put_parts(
            out,
            &[
                (
                    b"blocks: cannot be matched: the listing has ",
                    u64::from(listing.blocks),
                ),
                (b", the function ", own),
            ],
            b", and the labels differ: frequencies are those of the first block and of equal labels\n",
        ),
    }
}

/// Appends the table of a listing whose blocks are matched, where it is known what the function's blocks have; answers what it costs.
fn put_beside(
    alloc: Global,
    out: &mut Vec<u8>,
    t: &Table,
    f: &Function,
    listing: &Listing<'_>,
    matched: &Matched,
    best: &[Option<u64>],
    least: &[u64],
) -> Result<Sum, NoMemory> {
    let waits = waits(alloc, t, listing, f)?;
    let sheet = Sheet {
        f,
        listing,
        matched,
        waits: waits.as_slice(),
        best,
        least,
    };
    put_table(alloc, out, &sheet)
}

/// Appends the table of a listing whose blocks are matched, and answers what it costs.
fn put_rows(
    alloc: Global,
    out: &mut Vec<u8>,
    t: &Table,
    f: &Function,
    listing: &Listing<'_>,
    matched: &Matched,
    report: &[u8],
) -> Result<Sum, NoMemory>
    requires { IsFit t.now }
{
    let best = best_in(alloc, f, report)?;
    let least = least_packets(alloc, t, f)?;
    put_beside(
        alloc,
        out,
        t,
        f,
        listing,
        matched,
        best.as_slice(),
        least.as_slice(),
    )
}

/// Appends the table and how blocks are matched, and answers what the listing costs.
fn put_figures(
    alloc: Global,
    out: &mut Vec<u8>,
    t: &Table,
    f: &Function,
    listing: &Listing<'_>,
    report: &[u8],
) -> Result<Sum, NoMemory>
    requires { IsFit t.now }
{
    let matched = match_blocks(alloc, listing, f)?;
    let sum = put_rows(alloc, out, t, f, listing, &matched, report)?;
    put_by(out, f, listing, matched.by)?;
    Ok(sum)
}

/// Appends the instructions of a listing that are not of the subset.
fn put_unknown(
    alloc: Global,
    out: &mut Vec<u8>,
    f: &Function,
    listing: &Listing<'_>,
) -> Result<(), NoMemory> {
    let unknown = unknown(alloc, listing, f)?;
    for instr in unknown.as_slice() {
        put_parts(out, &[(b"line ", u64::from(instr.line))], b" `")?;
        put_text(out, instr.text)?;
        put_text(out, b"` is not of the subset\n")?;
    }
    Ok(())
}

/// Appends what the listing costs.
fn put_cost(out: &mut Vec<u8>, sum: &Sum) -> Result<(), NoMemory> {
    if sum.uncounted == 0 {
        return put_parts(out, &[(b"yours ", sum.cost)], b"");
    }
    put_parts(
        out,
        &[(b"yours at least ", sum.cost), (b", and ", sum.uncounted)],
        b" cycles in blocks without a frequency",
    )
}

/// Appends that a listing costs less than code of the subset can, where it does.
fn put_below(out: &mut Vec<u8>, sum: &Sum, bound: u64) -> Result<(), NoMemory> {
    if sum.uncounted > 0 || sum.cost >= bound {
        return Ok(());
    }
    put_text(
        out,
        b"yours is below what the subset can do: it has other instructions, or moves work between blocks, or does something else\n",
    )
}

/// Appends the line of what the listing costs, what the best code that is known here does, and what no code costs less than.
fn put_last(out: &mut Vec<u8>, sum: &Sum, figures: Option<Figures>) -> Result<(), NoMemory> {
    let Some(figures) = figures else {
        put_cost(out, sum)?;
        return put_text(out, b", there is no code here\n");
    };
    put_below(out, sum, figures.bound.unwrap_or(0))?;
    put_cost(out, sum)?;
    put_parts(out, &[(b", best here ", figures.cost)], b"")?;
    match figures.bound {
        Some(bound) => put_parts(
            out,
            &[(b", no code of the subset costs less than ", bound)],
            b"\n",
        ),
        None => put_text(out, b"\n"),
    }
}

/// Appends a comparison, by a table of the processor, of a listing with a function and its report: a row for each block, the instructions that are not of the subset, and what all cost.
///
/// # Errors
/// `NoMemory` where there is no memory for it.
pub(crate) fn put_compared(
    alloc: Global,
    out: &mut Vec<u8>,
    t: &Table,
    f: &Function,
    listing: &Listing<'_>,
    report: &[u8],
) -> Result<(), NoMemory>
    requires { IsFit t.now }
{
    let sum = put_figures(alloc, out, t, f, listing, report)?;
    put_unknown(alloc, out, f, listing)?;
    put_last(out, &sum, figures_in(report))
}
