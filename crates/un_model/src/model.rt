//! Models and solutions.

ghost use Rattle.std.specs.Prelude.{◌≡◌, ◌<◌, ◌↔◌, AllPairs, Contains, length, slice_get, Some};
ghost use Rattle.un_ir.specs.declared.extended.ExtBlock.{ExtBlock};
ghost use Rattle.un_model.specs.declared.model.Arc.{Arc};
ghost use Rattle.un_model.specs.Arcs.{IsArcOf, RisesTo, first_number};
ghost use Rattle.un_model.specs.Variables.{IsModel};

use un_base::ids::{BlockId, OpId, TempId, VarId};
use un_domains::domain::Domain;
use un_ir::extended::Ext;
use un_isa::reg::STACK;
use un_lists::items::Items;

/// The largest number of registers that an option may name: r0 to r28 may be assigned.
pub const ASSIGNABLE: u32 = STACK;

/// What a solution may use of the processor's registers and of the frame.
#[derive(Clone, Copy)]
pub struct Options {
    /// How many general registers may be assigned, r0 to r(n − 1), where n is 1 to 29; None for all of r0 to r28 and r31.
    pub regs: Option<u32>,
    /// How many frame slots there are, 0 to 64: the registers from 36 on.
    pub slots: u32,
}

/// A temporary.
#[derive(Clone, Copy)]
pub struct TempVars {
    /// The operation that defines it.
    pub op: OpId,
    /// The value that it carries, as that value's own temporary: itself where it is no copy.
    pub value: TempId,
    /// The variable of its register, 0 where its definer is inactive.
    pub reg: VarId,
}

/// The variables of an operation.
#[derive(Drop)]
pub struct OpVars {
    /// The variable of its instruction's number, 0 where it is inactive; None where it is not optional.
    pub instr: Option<VarId>,
    /// The variable of its cycle, 0 where it is inactive; None for a block's start and end.
    pub cycle: Option<VarId>,
    /// The variables of its operands' choices, in order; none for a copy d, whose operand has one alternative.
    pub choices: Items<VarId>,
}

/// The variables of a block.
#[derive(Drop)]
pub struct BlockVars {
    /// The variables of each of its operations, in order.
    pub ops: Items<OpVars>,
    /// The variable of its end, in cycles: one more than the cycle of its last packet.
    pub end: VarId,
}

/// A precedence between two operations of a block that every solution issues.
#[derive(Clone, Copy)]
pub struct Arc {
    /// The operation that comes first.
    pub from: OpId,
    /// The operation that waits.
    pub to: OpId,
    /// How many cycles after the first the second issues, at least.
    pub gap: u32,
}

/// The variables of an extended function under some options, and the arcs of each block. OpIds and TempIds are numbered over
/// the whole function.
#[derive(Drop)]
pub struct Model {
    /// The extended function whose problem it is.
    pub ext: Ext,
    /// The options under which it was made.
    pub options: Options,
    /// The domain of each variable, by number.
    pub domains: Items<Domain>,
    /// The temporaries, by number.
    pub temps: Items<TempVars>,
    /// The variables of each block, in order.
    pub blocks: Items<BlockVars>,
    /// The variable of the frame flag: 1 where the code has a frame, else 0. It is the last one.
    pub flag: VarId,
    /// The precedences of each block: each pair of operations once, by rising `to` and then rising `from`.
    pub arcs: Items<Items<Arc>>,
}

impl Model {
    /// The arcs of block `b`: each pair of operations once, with its largest gap, by rising `to` and then rising `from`.
    pub fn arcs(&self, b: BlockId) -> &[Arc]
        requires { b.0 < length self.now.arcs }
        ensures is { slice_get self.now.arcs b.0 ≡ Some result.now }
        ensures rising { IsModel self.now → AllPairs RisesTo result.now }
        ensures each { IsModel self.now → (block : ExtBlock) → slice_get self.now.ext.blocks b.0 ≡ Some block
            → (a : Arc) → Contains result.now a
            ↔ IsArcOf self.now.ext.table self.now.temps (first_number self.now.ext.blocks b.0) block.ops a }
    {
        self.arcs.get(b.0 as usize).as_slice()
    }
}

/// An assignment: a solution where it keeps the ten clauses.
#[derive(Drop)]
pub struct Solution {
    /// The value of each variable, by number.
    pub values: Items<u32>,
}
