//! Nodes, trees and decisions.

use un_base::ids::VarId;
use un_domains::side::Side;

/// A node of a tree.
#[derive(Clone, Copy)]
pub enum Node {
    /// A choice: first comes the subtree where `var` is at most `val`, then the one where it is greater.
    Branch { var: VarId, val: u32 },
    /// A leaf without a solution below the limit.
    Closed,
    /// A leaf that was not searched.
    Open,
    /// A leaf that is refuted block by block: behind it comes a part for each block, in the order of the blocks.
    Split,
    /// The first node of a part, before its tree of Branch and Closed nodes, which refutes what costs less than `least` in the block,
    /// or all of the block where there is none.
    Part { least: Option<u64> },
}

/// A tree of a search.
#[derive(Drop)]
pub struct Tree {
    /// Its nodes in preorder: behind a Branch comes the left subtree, and then the right one.
    pub nodes: Vec<Node>,
}

/// A decision on a variable, which keeps the values on one side.
#[derive(Clone, Copy)]
pub struct Decision {
    /// The variable that is decided on.
    pub var: VarId,
    /// The greatest value of the lower side.
    pub val: u32,
    /// Which side is kept: the values up to `val`, or those above it.
    pub side: Side,
}
