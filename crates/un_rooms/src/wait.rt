//! How long an operation waits for another.

use un_prop::act::At;

/// A precedence between two operations that every solution issues.
#[derive(Clone, Copy)]
pub struct Wait {
    /// The time of the first: its cycle, or 0 for a block's start.
    pub from: At,
    /// The time of the one that waits: its cycle, or the end of the block for `out`.
    pub to: At,
    /// How many cycles the second is after the first, at least.
    pub gap: u32,
}
