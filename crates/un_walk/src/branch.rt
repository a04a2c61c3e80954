//! Where a node of a tree branches, and whether a branch has both sides.

ghost use Rattle.std.specs.Prelude.{◌≡◌, true, false};
ghost use Rattle.un_domains.specs.Sets.{NoneEmpty};
ghost use Rattle.un_tree.specs.Boxes.{Splits};
ghost use Rattle.un_walk.specs.Routes.{branch_at};

use un_base::ids::VarId;
use un_domains::store::Store;
use un_tree::node::Node;

/// The variable and the greatest value of the side below, where the node branches.
pub fn branch_of(node: Node) -> Option<(VarId, u32)>
    ensures { result ≡ branch_at node }
{
    match node {
        Node::Branch { var, val } => Some((var, val)),
        Node::Closed => None,
        Node::Open => None,
        Node::Split => None,
        Node::Part { .. } => None,
    }
}

/// Whether a variable has values of a box on both sides.
pub fn splits(store: &Store, var: VarId, val: u32) -> bool
    requires { NoneEmpty store.now.sets }
    ensures both { result ≡ true → Splits store.now.sets var val }
    ensures one { result ≡ false → Splits store.now.sets var val → ⊥ }
{
    if var.0 >= store.len() {
        return false;
    }
    store.min(var) <= val && val < store.max(var)
}
