//! Functions, blocks, operations and terminators.

ghost use Rattle.std.specs.Prelude.{◌≡◌};
ghost use Rattle.un_ir.specs.WellFormed.{IsWellFormed};

use std::alloc::AllocError;
use un_base::ids::{BlockId, NameId};
use un_base::name::Name;
use un_isa::op::Op;
use un_lists::few::Few;
use un_lists::items::Items;

/// How many blocks a function may have.
pub const BLOCKS: u32 = 64;

/// How many operations a function may have, terminators not counted.
pub const OPS: u32 = 400;

/// How many names a function may have, of both kinds together.
pub const NAMES: u32 = 120;

/// How many parameters a function may have, and how many arguments a call.
pub const PARAMS: u32 = 6;

/// The largest frequency of a block.
pub const FREQUENCY: u32 = 1_000_000;

/// What a name stands for: a word, or a truth value.
#[derive(Clone, Copy, Hash, PartialEq, Eq)]
pub enum Kind {
    General,
    Pred,
}

/// An operation of the source.
#[derive(Drop)]
pub struct SrcOp {
    /// What it does.
    pub op: Op,
    /// The name that it assigns; None where it assigns none.
    pub dst: Option<NameId>,
    /// The names that it reads, in the order of the text.
    pub srcs: Few<NameId>,
    /// Its literal; 0 where it has none.
    pub imm: i32,
    /// The name of the function that a Call calls; None for other operations.
    pub callee: Option<Name>,
}

impl Clone for SrcOp {
    ghost is_clone = { λ a b. b ≡ a };

    fn clone(&self) -> Result<Self, AllocError> {
        let srcs = self.srcs.clone()?;
        Ok(SrcOp {
            op: self.op,
            dst: self.dst,
            srcs,
            imm: self.imm,
            callee: self.callee,
        })
    }
}

/// How a block ends: it falls through to the next, jumps, jumps where a predicate has the value `sense`, or returns.
#[derive(Clone, Copy, PartialEq)]
pub enum Term {
    Fall,
    Jump(BlockId),
    Branch {
        pred: NameId,
        sense: bool,
        to: BlockId,
    },
    Ret(Option<NameId>),
}

/// A block of the source.
#[derive(Drop)]
pub struct Block {
    /// Its label, which no other block of the function has.
    pub label: Name,
    /// How often it runs for each run of the function: 1 to 1,000,000.
    pub freq: u32,
    /// Its operations, in order.
    pub ops: Items<SrcOp>,
    /// How it ends.
    pub term: Term,
}

/// A function of the input language.
///
/// The type keeps that the function has no fault: there is a block; the numbers of blocks, operations, names and
/// parameters and the frequencies are within the limits above; no name of a kind, no label and no parameter stands twice;
/// each operation reads and assigns names of its kinds, and its literal is in range; each terminator leads to a block of
/// the function and never to the entry, so the last block jumps or returns; all returns give a value or none does; and
/// only parameters are live at the start of the entry.
#[derive(Drop)]
pub struct Function {
    /// The function's name.
    pub name: Name,
    /// The parameters, which start with r0 to r5 in this order: at most 6, and the first of `names`.
    pub params: Items<NameId>,
    /// The names with their kinds, in the order of their first appearance in the text: a NameId is a place here.
    pub names: Items<(Name, Kind)>,
    /// The blocks, in order; the first is the entry.
    pub blocks: Items<Block>,
    pub ghost well_formed: { ∥ IsWellFormed name params names blocks ∥₁ },
}
