//! The first Split of a tree.

ghost use Rattle.std.specs.Prelude.{◌≡◌, ◌≢◌, ◌↔◌, IsTrue, IfSome, IfNone, All};
ghost use Rattle.un_tree.specs.declared.node.Node.TheVariants.{Split};
ghost use Rattle.un_tree.specs.Splits.{IsFirstSplit};

use crate::node::Node;

/// Whether a node is a Split.
fn is_split(node: Node) -> bool
    ensures { IsTrue result ↔ (node ≡ Split) }
{
    match node {
        Node::Split => true,
        Node::Branch { .. } | Node::Closed | Node::Open | Node::Part { .. } => false,
    }
}

/// The place of the first Split, from 0.
pub fn first_split(nodes: &[Node]) -> Option<usize>
    ensures some { IfSome result (IsFirstSplit nodes.now) }
    ensures none { IfNone result (All (λ n. n ≢ Split) nodes.now) }
{
    for (i, node) in nodes.iter().enumerate() {
        if is_split(*node) {
            return Some(i);
        }
    }
    None
}
