//! A solution explained, block by block.

use crate::blocks::{Section, Sheet, cost_of, whole_cost};
use crate::cause::least_packets;
use crate::crossing::put_needs;
use crate::given::Given;
use crate::held::put_held;
use crate::pieces::{put_numbers, put_share};
use crate::spent::put_spent;
use crate::table::put_head;
use std::alloc::Global;
use un_base::memory_error::NoMemory;
use un_ir::text::put_text;

/// Code as a whole.
#[derive(Clone, Copy)]
struct Whole {
    /// What it costs.
    cost: u64,
    /// Whether a report's bound is its cost: the search proved that no code costs less.
    is_proved: bool,
}

/// Appends what is said of a block.
fn put_section(
    alloc: Global,
    out: &mut Vec<u8>,
    sheet: &Sheet<'_>,
    section: &Section<'_>,
    whole: Whole,
) -> Result<(), NoMemory> {
    let least = least_packets(alloc, sheet, section)?;
    put_head(out, section, least)?;
    put_own_cost(out, section, whole.cost)?;
    put_held(alloc, out, sheet, section, whole.is_proved)?;
    put_needs(alloc, out, sheet, section)?;
    put_spent(out, sheet, section)
}

/// Appends what a block costs, and what share of the whole that is.
fn put_own_cost(out: &mut Vec<u8>, section: &Section<'_>, cost: u64) -> Result<(), NoMemory> {
    put_numbers(out, &[(b", cost ", cost_of(section))])?;
    put_text(out, b" (")?;
    put_share(out, cost_of(section), cost)?;
    put_text(out, b")\n")
}

/// What every solution costs at least by precedences and counts alone.
fn plain_bound(
    alloc: Global,
    sheet: &Sheet<'_>,
    sections: &[Section<'_>],
) -> Result<u64, NoMemory> {
    let mut sum: u64 = 0;
    for section in sections {
        let least = u64::from(least_packets(alloc, sheet, section)?);
        sum = sum.saturating_add(u64::from(section.block.freq).saturating_mul(least));
    }
    Ok(sum)
}

/// Appends that no code costs less, and who says so.
fn put_met(out: &mut Vec<u8>, given: &Given<'_>) -> Result<(), NoMemory> {
    match given.bound {
        Some(_) => put_text(out, b": the search proved that no code costs less\n"),
        None => put_text(
            out,
            b": no code costs less, by precedences and counts alone\n",
        ),
    }
}

/// Appends how much may be saved, and who says so.
fn put_open(out: &mut Vec<u8>, given: &Given<'_>, cost: u64, bound: u64) -> Result<(), NoMemory> {
    let more = cost.saturating_sub(bound);
    put_numbers(out, &[(b": at most ", more)])?;
    put_text(out, b" (")?;
    put_share(out, more, cost)?;
    put_text(out, b") may be saved; ")?;
    if given.bound.is_none() {
        return put_text(out, b"the bound is of precedences and counts alone\n");
    }
    put_numbers(
        out,
        &[(b"open leaves of the tree: ", u64::from(given.open))],
    )?;
    put_text(out, b"\n")
}

/// Appends whether the bound meets the cost.
fn put_bound(out: &mut Vec<u8>, given: &Given<'_>, cost: u64, bound: u64) -> Result<(), NoMemory> {
    put_numbers(out, &[(b"cost ", cost), (b", bound ", bound)])?;
    if cost > bound {
        put_open(out, given, cost, bound)
    } else {
        put_met(out, given)
    }
}

/// Appends the paragraphs of all blocks, and last whether the bound meets the cost.
pub(crate) fn put_explained(
    alloc: Global,
    out: &mut Vec<u8>,
    sheet: &Sheet<'_>,
    sections: &[Section<'_>],
    given: &Given<'_>,
) -> Result<(), NoMemory> {
    let cost = whole_cost(sections);
    let whole = Whole {
        cost,
        is_proved: given.bound == Some(cost),
    };
    for section in sections {
        put_section(alloc, out, sheet, section, whole)?;
        put_text(out, b"\n")?;
    }
    let bound = match given.bound {
        Some(bound) => bound,
        None => plain_bound(alloc, sheet, sections)?,
    };
    put_bound(out, given, cost, bound)
}
