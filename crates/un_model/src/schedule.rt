//! A solution read as a schedule: where each operation issues, which temporaries are read and which registers they occupy.

use un_base::ids::{BlockId, OpId, TempId};
use un_isa::op::Op;
use un_isa::reg::Reg;
use un_lists::items::Items;

/// An operation as a solution issues it.
#[derive(Clone, Copy)]
pub struct Issue {
    /// The block of the operation.
    pub block: BlockId,
    /// The operation, by its number in the function.
    pub op: OpId,
    /// The instruction that it issues: None for the values at a block's start and at its end, and where it is inactive.
    pub instr: Option<Op>,
    /// Whether it is active: a block's start and end are, and what issues an instruction.
    pub active: bool,
    /// Whether it is Enter or Leave, active or not.
    pub frame: bool,
    /// Whether its cycle and its choices are 0.
    pub zero: bool,
    /// Its cycle: 0 for a block's start, the block's end for that end, and else the value of its variable.
    pub cycle: u32,
    /// The end of its block.
    pub end: u32,
}

/// An operand of an active operation, with the temporary that it chooses.
#[derive(Clone, Copy)]
pub struct Read {
    /// The block of the operation that reads.
    pub block: BlockId,
    /// The operation that reads.
    pub user: OpId,
    /// The instruction of the user, None at a block's end.
    pub instr: Option<Op>,
    /// The place of the operand among those of its operation, from 0.
    pub operand: u32,
    /// The temporary that it chooses, by its number in the function.
    pub temp: TempId,
    /// The cycle of the user.
    pub cycle: u32,
    /// The register to which the operand is preassigned; None where there is none.
    pub home: Option<Reg>,
}

/// The live range of a temporary: its register, which it occupies from cycle `from` to cycle `last`, both inclusive.
#[derive(Clone, Copy)]
pub struct LiveRange {
    /// The block of the temporary.
    pub block: BlockId,
    /// The operation that defines the temporary.
    pub op: OpId,
    /// The instruction of the definer, None for a value at a block's start and where the definer is inactive.
    pub instr: Option<Op>,
    /// Whether its definer is active; where it is not, the range occupies nothing.
    pub active: bool,
    /// The number of its register: slots from 36 on.
    pub reg: u32,
    /// The first cycle in which it occupies its register: that of its definer.
    pub from: u32,
    /// The last such cycle: the one before that of its last reader, and no less than `from`.
    pub last: u32,
}

/// A solution as a schedule.
#[derive(Drop)]
pub struct Schedule {
    /// The operations as they issue, by number.
    pub issues: Items<Issue>,
    /// What each operand of each active operation reads, in their order.
    pub reads: Items<Read>,
    /// The live range of each temporary, by number.
    pub ranges: Items<LiveRange>,
}
