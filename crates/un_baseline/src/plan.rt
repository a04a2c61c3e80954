//! What the plan of a block goes by while it is made.

use un_base::ids::NameId;
use un_ir::function::Term;
use un_isa::reg::GENERALS;

/// The predicate that holds each truth value: p0.
pub(crate) const PREDICATE: u32 = GENERALS;

/// What the copies of operands before an operation are for: the operands of an operation or of a branch, the address to which
/// a return goes, the result at a block's end, or nothing.
#[derive(Clone, Copy)]
pub enum Purpose {
    Operands,
    Link,
    Returned,
    Unread,
}

/// What defined the values whose copies come next: the start of the entry, an operation that assigns a name, or what has no
/// values to keep.
#[derive(Clone, Copy)]
pub enum Definer {
    Start,
    Assigns(NameId),
    Other,
}

/// What holds in the whole of a block.
#[derive(Clone, Copy)]
pub struct Setting {
    /// Whether it is the function's first block.
    pub is_entry: bool,
    /// How the block ends.
    pub term: Term,
    /// The slot that keeps the link register's value, as a register.
    pub link: u32,
    /// How many values the block's start defines.
    pub values: u32,
    /// The values below this temporary stand where they are kept from the block's start on.
    pub placed: u32,
}

/// How far the plan of a block has come.
#[derive(Clone, Copy)]
pub struct Progress {
    /// The cycle in which the next operation issues.
    pub cycle: u32,
    /// How many values of the last operation that is no copy have had their first copy since.
    pub values: u32,
    /// How many operands of the next operation that is no copy have had their first copy so far.
    pub operands: u32,
    /// What defined the values whose copies come next.
    pub definer: Definer,
}

/// What a copy does: all is 0 where it does nothing.
#[derive(Clone, Copy)]
pub struct Move {
    /// The number of its instruction: `MOVE`, `SPILL` and the others of copies, and 0 where it is inactive.
    pub instr: u32,
    /// The cycle in which it issues.
    pub cycle: u32,
    /// The place among its operand's alternatives of the temporary that it reads.
    pub place: u32,
    /// The number of the register or slot that it writes: slots from `FIRST_SLOT` on.
    pub register: u32,
}
