//! Steps of a log.

use un_base::ids::VarId;

/// How many rules need no counting, from the first on.
pub const PLAIN_RULES: u32 = 12;

/// How many rules there are: after those that need none, the one that counts what a block's packets are to hold.
pub const ALL_RULES: u32 = 13;

/// By which rule values go.
#[derive(Clone, Copy, PartialEq)]
pub enum Rule {
    /// Cycles too close to the other end of an arc.
    TooSoon,
    /// All but 0 of an operation that is off.
    Idle,
    /// Cycles and ends that leave no place in the block.
    OutsideBlock,
    /// Alternatives whose definer is off.
    FromIdle,
    /// Alternatives that are given too late.
    TooLateFor,
    /// Registers outside the space of a copy's one instruction.
    OutsideSpace,
    /// Alternatives without a register in the operand's space.
    NoSpace,
    /// Alternatives that leave another operand no register.
    Alike,
    /// Alternatives that cannot be at the operand's home.
    NotHome,
    /// Alternatives that cannot stand where a successor takes them.
    NotCongruent,
    /// Ends that cost the limit.
    TooDear,
    /// What accesses a frame that there is not, and that there is none.
    NoFrame,
    /// Cycles and the end of a block where some of its packets are to hold more than they can.
    TooFull,
}

/// Values of a variable that go.
#[derive(Clone, Copy)]
pub struct Step {
    /// The rule by which they go.
    pub rule: Rule,
    /// Where the rule is applied: the number of an operation, of an arc over all blocks, or of a block.
    pub place: u32,
    /// The variable.
    pub var: VarId,
    /// The first value that goes.
    pub first: u32,
    /// The last value that goes.
    pub last: u32,
}
