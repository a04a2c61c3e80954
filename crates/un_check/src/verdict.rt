//! What the check of a tree answers.

/// The answer of the check of a tree. Nodes are counted from 0.
#[derive(Clone, Copy)]
pub enum TreeVerdict {
    /// The nodes are one whole tree that keeps all points. `least` is the least of the least costs of the relaxation in the boxes of
    /// its open leaves, none where no leaf is open; `open_leaves` is how many they are.
    Yes {
        least: Option<u64>,
        open_leaves: u32,
    },
    /// A branch's variable is not of the model, or has not values of its box on both sides; or it is in a part, and not of its block.
    NotStrict(u32),
    /// A Split's box has more than one value of the flag or of a register at a block's start, or its parts do not come to the limit; or a
    /// node may not stand where it does: a Part where none begins, another node where one must, an open leaf or a Split in a part.
    NotSplit(u32),
    /// The box of a branch or an open leaf outside of parts has no relaxation under the limit.
    NotAlive(u32),
    /// The rounds do not fail on the box of a closed leaf: those of the model, or in a part those of its block under its number.
    NotClosed(u32),
    /// The list ends inside the tree, or goes on after it.
    Short,
}
