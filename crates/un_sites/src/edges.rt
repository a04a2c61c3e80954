//! The edges between blocks, and the Spills and Reloads that are asked for.

/// The end of one block leads to another.
#[derive(Clone, Copy)]
pub struct Edge {
    /// The number of the block that it leaves: its place among the function's blocks, 0 for the entry.
    pub from: u32,
    /// The number of the block to which it leads.
    pub to: u32,
}

/// How many Spills and Reloads there are.
#[derive(Clone, Copy)]
pub struct Accesses {
    pub spills: u32,
    pub reloads: u32,
}
