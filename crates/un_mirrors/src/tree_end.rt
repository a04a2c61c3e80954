//! Where a whole tree in a list of nodes ends.

ghost use Rattle.std.specs.Prelude.{◌<◌, ◌≤◌, length, drop};
ghost use Rattle.un_mirrors.specs.Works.{BeginsWithTree, IsTreeTo};

use un_tree::node::Node;

/// The place behind the tree that begins at a place.
pub(crate) fn tree_end(nodes: &[Node], from: usize) -> usize
    requires { BeginsWithTree (drop from nodes.now) }
    ensures tree { IsTreeTo nodes.now from result }
    ensures later { from < result }
    ensures within { result ≤ length nodes.now }
{
    let mut to = from;
    let mut owed = 1usize;
    while owed > 0 {
        if let Node::Branch { .. } = nodes[to] {
            owed += 1;
        } else {
            owed -= 1;
        }
        to += 1;
    }
    to
}
