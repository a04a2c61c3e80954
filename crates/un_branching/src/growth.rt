//! A tree that grows: a list of nodes in which each knows the next one, and the parents of its Branches.

ghost use Rattle.std.specs.Prelude.{◌≡◌, ℕ, ◌+◌, ◌<◌, ◌^◌, [], ◌∷◌, ◌++◌, length, OnOk, IfOk, None};
ghost use Rattle.un_domains.specs.Sets.{Sets};
ghost use Rattle.un_tree.specs.Boxes.{reached};
ghost use Rattle.un_walk.specs.Stands.{AllSplit};
ghost use Rattle.un_branching.specs.Growths.{link_at, link_to, box_under, IsEarlier, IsSplit, opened, listing, branched, Stays};

use std::alloc::{AllocError, Global};
use un_base::ids::VarId;
use un_domains::side::Side;
use un_tree::node::{Decision, Node, Tree};

/// A node of a tree that grows.
#[derive(Clone, Copy)]
pub struct Entry {
    /// The node itself: a Branch, or a leaf that is open or closed.
    pub node: Node,
    /// The place in the list of the node that comes next in preorder; behind the last node it is 0.
    pub next: usize,
}

/// The link of a node to its parent, the Branch above it.
#[derive(Clone, Copy)]
pub struct Link {
    /// The number of its parent, in the order in which open nodes became Branches.
    pub parent: usize,
    /// The decision that leads from its parent to the node.
    pub decision: Decision,
}

/// A tree that grows.
#[derive(Drop)]
pub struct Growth {
    /// Its nodes, in the order in which they were made.
    pub nodes: Vec<Entry>,
    /// The link of each Branch, in the order in which open nodes became Branches; the root has none.
    pub branches: Vec<Option<Link>>,
}

/// The tree of an open root.
pub fn begin(alloc: Global) -> Result<Growth, AllocError>
    ensures nodes { IfOk result (λ tree. tree.nodes.items ≡ opened ∷ []) }
    ensures branches { IfOk result (λ tree. tree.branches.items ≡ []) }
{
    let mut nodes = Vec::new(alloc);
    nodes.push(Entry {
        node: Node::Open,
        next: 0,
    })?;
    let branches = Vec::new(alloc);
    Ok(Growth { nodes, branches })
}

/// The link of a child to the Branch with this number.
pub fn side_of(parent: usize, var: VarId, val: u32, side: Side) -> Link
    ensures { result ≡ link_to parent var val side }
{
    Link {
        parent,
        decision: Decision { var, val, side },
    }
}

/// The decisions that lead to a node.
pub(crate) fn path_to(
    alloc: Global,
    branches: &[Option<Link>],
    link: Option<Link>,
) -> Result<Vec<Decision>, AllocError>
    requires earlier { (i : ℕ) → i < length branches.now → IsEarlier i (link_at branches.now i) }
    requires there { IsEarlier (length branches.now) link }
    ensures leads { IfOk result (λ path. (root : Sets) (box : ℕ → Sets)
        → ((i : ℕ) → i < length branches.now → box i ≡ box_under root box (link_at branches.now i))
        → reached root path.items ≡ box_under root box link) }
    ensures split { IfOk result (λ path. (root : Sets) (box : ℕ → Sets)
        → ((i : ℕ) → i < length branches.now → box i ≡ box_under root box (link_at branches.now i))
        → ((i : ℕ) → i < length branches.now → IsSplit box (link_at branches.now i))
        → IsSplit box link → AllSplit root path.items) }
{
    let mut path = Vec::new(alloc);
    let mut at = link;
    while let Some(above) = at {
        path.push(above.decision)?;
        at = branches[above.parent];
    }
    path.reverse();
    Ok(path)
}

/// Puts a Branch and its two leaves in the place of an open leaf with this link.
pub fn branch(
    tree: &mut Growth,
    place: usize,
    link: Option<Link>,
    var: VarId,
    val: u32,
    left: Node,
    right: Node,
) -> Result<(), AllocError>
    requires there { place < length tree.old.nodes.items }
    requires room { length tree.old.nodes.items + 2 < 2 ^ 32 }
    ensures nodes { OnOk result (tree.new.nodes.items ≡ branched tree.old.nodes.items place var val left right) }
    ensures branches { OnOk result (tree.new.branches.items ≡ tree.old.branches.items ++ link ∷ []) }
{
    let next = tree.nodes[place].next;
    let count = tree.nodes.len();
    tree.nodes.push(Entry { node: right, next })?;
    tree.nodes.push(Entry {
        node: left,
        next: count,
    })?;
    tree.nodes[place] = Entry {
        node: Node::Branch { var, val },
        next: count + 1,
    };
    tree.branches.push(link)?;
    Ok(())
}

/// The nodes in the tree's order.
pub fn list(alloc: Global, tree: &[Entry]) -> Result<Tree, AllocError>
    requires { Stays tree.now (length tree.now) 0 }
    ensures { IfOk result (λ t. t.nodes.items ≡ listing tree.now) }
{
    let mut nodes = Vec::new(alloc);
    let mut at = 0;
    let mut left = tree.len();
    while left > 0 {
        let entry = tree[at];
        nodes.push(entry.node)?;
        at = entry.next;
        left -= 1;
    }
    Ok(Tree { nodes })
}

/// A tree of one leaf.
pub fn leaf_alone(alloc: Global, leaf: Node) -> Result<Tree, AllocError>
    ensures { IfOk result (λ t. t.nodes.items ≡ leaf ∷ []) }
{
    let mut nodes = Vec::new(alloc);
    nodes.push(leaf)?;
    Ok(Tree { nodes })
}
