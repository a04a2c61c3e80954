//! The boundaries of blocks, and marks of them.

use un_lists::items::Items;

/// The start or the end of a block, which has this number.
#[derive(Clone, Copy)]
pub enum Boundary {
    /// Where a block takes values.
    StartOf(u32),
    /// Where a block hands values over.
    EndOf(u32),
}

/// Two boundaries that have the saved values in the same places.
#[derive(Clone, Copy)]
pub struct Link {
    pub from: Boundary,
    pub to: Boundary,
}

/// Which boundaries are marked.
#[derive(Drop)]
pub struct Marks {
    /// Whether the start of each block is.
    pub starts: Items<bool>,
    /// Whether the end of each block is.
    pub ends: Items<bool>,
}
