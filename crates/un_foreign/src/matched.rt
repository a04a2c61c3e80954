//! Which blocks of a listing are which of the function's.

use crate::listing::{Listing, label_of};
use std::alloc::Global;
use un_base::memory_error::NoMemory;
use un_ir::function::Function;
use un_lists::items::Items;

/// How blocks are matched.
#[derive(Clone, Copy)]
pub enum By {
    /// Each block of the listing has the label of one of the function.
    Labels,
    /// There are as many of both, and labels differ.
    Order,
    /// Neither: those that have labels of the function, and the first, are matched.
    Some,
}

/// The blocks of the function that those of a listing are, in the listing's order.
#[derive(Drop)]
pub struct Matched {
    pub by: By,
    pub blocks: Items<Option<usize>>,
}

/// A label without what an assembler's source puts before it: `.L`, the function's name and `_`.
fn bare<'a>(f: &Function, label: &'a [u8]) -> &'a [u8] {
    let Some(rest) = label.strip_prefix(b".L") else {
        return label;
    };
    let Some(rest) = rest.strip_prefix(f.name.as_bytes()) else {
        return label;
    };
    match rest.strip_prefix(b"_") {
        Some(rest) => rest,
        None => label,
    }
}

/// The block of the function that a label names.
pub fn own_block(f: &Function, label: &[u8]) -> Option<usize> {
    let label = bare(f, label);
    f.blocks
        .as_slice()
        .iter()
        .position(|block| block.label.as_bytes() == label)
}

/// The block of the function that a label of a block of a listing names; the first block is the entry where it has none.
fn named_block(listing: &Listing<'_>, f: &Function, block: u32) -> Option<usize> {
    for label in listing.labels.as_slice() {
        if label.block == block {
            if let Some(own) = own_block(f, label.text) {
                return Some(own);
            }
        }
    }
    match label_of(listing, block) {
        None if block == 0 => Some(0),
        _ => None,
    }
}

/// The blocks of the function that the labels name.
fn by_labels(
    alloc: Global,
    listing: &Listing<'_>,
    f: &Function,
) -> Result<Items<Option<usize>>, NoMemory> {
    let mut blocks = Items::new(alloc);
    for block in 0..listing.blocks {
        blocks.push(named_block(listing, f, block))?;
    }
    Ok(blocks)
}

/// Each block as the one with the same place.
fn by_order(alloc: Global, count: usize) -> Result<Items<Option<usize>>, NoMemory> {
    let mut blocks = Items::new(alloc);
    for block in 0..count {
        blocks.push(Some(block))?;
    }
    Ok(blocks)
}

/// Whether each block is matched.
fn are_all(blocks: &[Option<usize>]) -> bool {
    blocks.iter().all(|block| block.is_some())
}

/// The entry for a first block that is not matched.
fn with_entry(blocks: &mut [Option<usize>]) {
    if let Some(first) = blocks.first_mut() {
        if first.is_none() {
            *first = Some(0);
        }
    }
}

/// Matches the blocks of a listing with the function's: by label where each has one of the function, else in order where there are as
/// many, else those with labels of the function, and the first one as the entry.
pub fn match_blocks(
    alloc: Global,
    listing: &Listing<'_>,
    f: &Function,
) -> Result<Matched, NoMemory> {
    let blocks = by_labels(alloc, listing, f)?;
    if are_all(blocks.as_slice()) {
        return Ok(Matched {
            by: By::Labels,
            blocks,
        });
    }
    if blocks.len() == f.blocks.len() {
        let blocks = by_order(alloc, f.blocks.len())?;
        return Ok(Matched {
            by: By::Order,
            blocks,
        });
    }
    let mut blocks = blocks.into_vec();
    with_entry(blocks.as_mut_slice());
    Ok(Matched {
        by: By::Some,
        blocks: Items::from_vec(blocks),
    })
}
