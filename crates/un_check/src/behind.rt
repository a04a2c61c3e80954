//! What stands behind a Split: the numbers that its parts are under, which are read before the Split is judged.

ghost use Rattle.std.specs.Prelude.{◌≡◌, ◌+◌, ◌<◌, List, All, drop, length};
ghost use Rattle.un_tree.specs.Parts.{part_numbers, told};
ghost use Rattle.un_tree.specs.Texts.{Fits, tree_text};
ghost use Rattle.un_tree.specs.declared.node.Node.{Node};
ghost use Rattle.un_tree.specs.declared.node.Node.TheVariants.{Split};

use un_tree::node::Node;
use un_tree::parts::{Parts, parts_in, parts_of};

/// The nodes behind the one at a place.
pub(crate) fn nodes_behind(nodes: &[Node], i: usize) -> &[Node]
    requires { i < length nodes.now }
    ensures { result.now ≡ drop (i + 1) nodes.now }
{
    &nodes[i + 1..]
}

/// What is told of the parts behind a node, where it is a Split; of another node nothing is asked.
pub(crate) fn told_in(node: Node, rest: &[Node], blocks: usize) -> Parts
    ensures { node ≡ Split → result ≡ told (part_numbers blocks rest.now) }
{
    match node {
        Node::Split => parts_in(rest, blocks),
        Node::Branch { .. } | Node::Closed | Node::Open | Node::Part { .. } => Parts::Torn,
    }
}

/// The same where the text of the nodes behind it is given.
pub(crate) fn told_of(node: Node, rest: &[u8], blocks: usize) -> Parts
    ensures { (nodes : List Node) → All Fits nodes → rest.now ≡ tree_text nodes
        → node ≡ Split → result ≡ told (part_numbers blocks nodes) }
{
    match node {
        Node::Split => parts_of(rest, blocks),
        Node::Branch { .. } | Node::Closed | Node::Open | Node::Part { .. } => Parts::Torn,
    }
}
