//! What a report says of this project's code: its cost, its bound, and how many packets its blocks have. A report is read leniently, and not
//! checked.

use std::alloc::Global;
use un_base::decimal::read_decimal;
use un_base::memory_error::NoMemory;
use un_foreign::listing::Listing;
use un_foreign::matched::{Matched, match_blocks};
use un_foreign::reader::{Unread, read_listing};
use un_foreign::rows::packets_in;
use un_foreign::text::{around, cut};
use un_ir::function::Function;
use un_isa::table::LAST;
use un_lists::items::Items;

/// A cost, and a bound of what code of the subset costs.
#[derive(Clone, Copy)]
pub struct Figures {
    pub cost: u64,
    /// None where the report is older than the subset of today.
    pub bound: Option<u64>,
}

/// The number behind the first line that begins with a word.
fn number_behind(report: &[u8], word: &[u8]) -> Option<u64> {
    for line in report.split(|b| *b == b'\n') {
        if let Some(rest) = line.strip_prefix(word) {
            return read_decimal(rest);
        }
    }
    None
}

/// Whether a report is of the last version.
fn is_last(report: &[u8]) -> bool {
    number_behind(report, b"unison ") == Some(u64::from(LAST))
}

/// The bound of what code of the subset costs that a report has; None where it has none.
fn bound_in(report: &[u8]) -> Option<u64> {
    if is_last(report) {
        number_behind(report, b"bound ")
    } else {
        None
    }
}

/// The cost and the bound of a report; None where it has no code.
pub(crate) fn figures_in(report: &[u8]) -> Option<Figures> {
    let cost = number_behind(report, b"cost ")?;
    let bound = bound_in(report);
    Some(Figures { cost, bound })
}

/// The listing of a report.
fn listing_in(report: &[u8]) -> Option<&[u8]> {
    let behind = cut(around(report, b"\nlisting ")?.behind, b'\n').behind;
    Some(around(behind, b"\nsolution ")?.front)
}

/// How many packets a listing has in the blocks that are the function's block at a place.
fn packets_at(listing: &Listing<'_>, matched: &Matched, place: usize) -> u64 {
    let mut count: u64 = 0;
    for (block, own) in matched.blocks.as_slice().iter().enumerate() {
        if *own == Some(place) {
            let number = u32::try_from(block).unwrap_or(u32::MAX);
            count = count.saturating_add(packets_in(listing, number));
        }
    }
    count
}

/// How many packets a listing has in each block of the function.
fn counts(
    alloc: Global,
    f: &Function,
    listing: &Listing<'_>,
) -> Result<Items<Option<u64>>, NoMemory> {
    let matched = match_blocks(alloc, listing, f)?;
    let mut found = Items::new(alloc);
    for place in 0..f.blocks.len() {
        found.push(Some(packets_at(listing, &matched, place)))?;
    }
    Ok(found)
}

/// How many packets the code of a report has in each block of the function; nothing where it has no code.
pub(crate) fn best_in(
    alloc: Global,
    f: &Function,
    report: &[u8],
) -> Result<Items<Option<u64>>, NoMemory> {
    let Some(text) = listing_in(report) else {
        return Ok(Items::new(alloc));
    };
    match read_listing(alloc, f, text) {
        Ok(listing) => counts(alloc, f, &listing),
        Err(Unread::NoMemory) => Err(NoMemory),
        Err(Unread::Line { .. }) => Ok(Items::new(alloc)),
    }
}
