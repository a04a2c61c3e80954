//! What the check of a tree with mirrors answers.

/// The answer of the check of a tree with mirrors. Nodes are counted from 0.
#[derive(Clone, Copy)]
pub enum SymVerdict {
    /// The nodes are one whole tree, and no node breaks a point.
    Yes,
    /// A branch's variable is not of the model, or has not values of its box on both sides.
    NotStrict(u32),
    /// The rounds do not fail on the box of a closed leaf.
    NotClosed(u32),
    /// The registers of a mirror are not interchangeable, or it is not on the right side of a branch at its depth, or with them
    /// exchanged its box does not lie in the box of that branch's left side.
    NotMirror(u32),
    /// The list ends inside the tree, or goes on after it.
    Short,
}
