//! What a block issues besides its own operations where so many saved values have slots.

use un_isa::op::Op;
use un_length::block::Precedence;
use un_lists::items::Items;

/// An instruction that is issued from cycle `head` on, and `tail` cycles before the block's end.
#[derive(Clone, Copy)]
pub struct Owed {
    pub op: Op,
    /// The least cycle in which it may issue.
    pub head: u32,
    /// How many cycles before the block's end it issues, at least.
    pub tail: u32,
}

/// Such instructions, and which of them wait for calls and for which of them calls wait, by the places of both among the block's operations:
/// those that a call waits for stand in `front`.
#[derive(Drop)]
pub struct Draft {
    pub owed: Items<Owed>,
    pub front: Items<Precedence>,
    pub back: Items<Precedence>,
}
