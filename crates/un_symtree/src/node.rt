//! Nodes of a tree with mirrors.

use un_base::ids::VarId;
use un_isa::reg::Reg;

/// A node of a tree with mirrors.
#[derive(Clone, Copy)]
pub enum SymNode {
    /// A choice: first comes the subtree where `var` is at most `val`, then the one where it is greater.
    Branch { var: VarId, val: u32 },
    /// A leaf on whose box the rounds of propagation fail.
    Closed,
    /// A leaf on the right side of the Branch that has `depth` decisions above it. With the registers `a` and `b` exchanged its box
    /// lies in the box of that Branch's left side, which comes before it and holds no solution.
    Mirror { a: Reg, b: Reg, depth: u32 },
}

/// A tree with mirrors.
#[derive(Drop)]
pub struct SymTree {
    /// Its nodes in preorder: behind a Branch comes the left subtree, and then the right one.
    pub nodes: Vec<SymNode>,
}
