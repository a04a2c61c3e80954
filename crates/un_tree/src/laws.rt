//! What trees say of the boxes of their leaves.

ghost use Rattle.std.specs.Prelude.{ℕ, ◌≤◌, All};
ghost use Rattle.un_domains.specs.Sets.{Sets, NoneEmpty};
ghost use Rattle.un_tree.specs.Boxes.{volume};
ghost use Rattle.un_tree.specs.Waits.{HasSides, visits_of, leaves};

use crate::node::Node;

/// A tree whose branches have both sides has at most as many leaves outside of parts as its box has assignments.
pub fn few_leaves(nodes: &[Node])
    ensures { (n : ℕ) (box : Sets) → NoneEmpty box → All HasSides (visits_of n box nodes.now)
        → leaves (visits_of n box nodes.now) ≤ volume box }
{
    let _ = nodes;
}
