//! What is known of a block wherever the saved values stand.

use crate::role::Role;
use un_base::ids::VarId;
use un_length::block::{Precedence, Task};
use un_lists::items::Items;

/// A call of a block by its place among the operations, and how many names cross it that are read in registers behind it.
#[derive(Clone, Copy)]
pub struct Crossed {
    pub place: u32,
    pub names: u32,
}

/// A block as the rows of a model see it.
#[derive(Drop)]
pub struct Known {
    /// The variable of its end.
    pub end: VarId,
    /// How often it runs.
    pub freq: u32,
    /// Its end is looked for up to this cycle.
    pub horizon: u32,
    /// The operations that each solution issues, and the end, as the length of the block has them.
    pub ops: Items<Task>,
    /// Precedences between places of `ops`.
    pub arcs: Items<Precedence>,
    /// The least end that these leave.
    pub own: u32,
    /// Whether it has a Leave.
    pub leaves: bool,
    /// What it is to the saved values.
    pub role: Role,
    /// Its calls.
    pub calls: Items<Crossed>,
}

/// What the rows of a model count with.
#[derive(Clone, Copy)]
pub struct Basis {
    /// How many registers a call keeps.
    pub kept: u32,
    /// How many values are saved: those of the registers that a call keeps, and the link.
    pub saved: u32,
}
