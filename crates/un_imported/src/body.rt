//! A function of the input language while it is made: its blocks, their operations and their ends.

use crate::names::{NameId, Names};
use un_isa::op::Op;
use un_lists::few::Few;

/// A block by its place.
pub type BlockId = usize;

/// An operation.
#[derive(Drop)]
pub struct Step<'a> {
    pub op: Op,
    pub dst: Option<NameId>,
    pub srcs: Few<NameId>,
    pub imm: i32,
    /// The function that a call calls.
    pub callee: &'a [u8],
}

/// A branch: where it leads if a predicate is true, or false where it is negated, and else.
#[derive(Clone, Copy)]
pub struct Fork {
    pub pred: NameId,
    pub negated: bool,
    pub yes: BlockId,
    pub no: BlockId,
}

/// How a block ends.
#[derive(Clone, Copy)]
pub enum End {
    Jump(BlockId),
    Fork(Fork),
    Return(Option<NameId>),
}

/// What a block is called: as LLVM called it, or a new name.
#[derive(Clone, Copy)]
pub enum Label<'a> {
    Given(&'a [u8]),
    New,
}

/// A block.
#[derive(Drop)]
pub struct Block<'a> {
    pub label: Label<'a>,
    pub freq: u64,
    pub steps: Vec<Step<'a>>,
    pub end: End,
    /// The block of LLVM's behind which it is to stand.
    pub origin: BlockId,
}

/// A function.
#[derive(Drop)]
pub struct Body<'a> {
    pub names: Names<'a>,
    pub parameters: Vec<NameId>,
    pub blocks: Vec<Block<'a>>,
}

/// Where a block leads.
pub(crate) fn ways_out(end: End) -> [Option<BlockId>; 2] {
    match end {
        End::Jump(to) => [Some(to), None],
        End::Fork(fork) => [Some(fork.yes), Some(fork.no)],
        End::Return(_) => [None, None],
    }
}

/// The name that the end of a block reads.
pub(crate) fn read_at_end(end: End) -> Option<NameId> {
    match end {
        End::Jump(_) => None,
        End::Fork(fork) => Some(fork.pred),
        End::Return(name) => name,
    }
}
