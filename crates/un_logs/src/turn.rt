//! Turns of a round, and runs of values.

use un_base::ids::VarId;
use un_steps::step::Rule;

/// A rule at one of its places, for a variable.
#[derive(Clone, Copy)]
pub struct Turn {
    /// The rule.
    pub rule: Rule,
    /// Where it is applied: the number of an operation, of an arc over all blocks, or of a block.
    pub place: u32,
    /// The variable.
    pub var: VarId,
}

/// Values that go at once: all from the first to the last that are left.
#[derive(Clone, Copy)]
pub struct Run {
    /// The first value.
    pub first: u32,
    /// The last value.
    pub last: u32,
}
