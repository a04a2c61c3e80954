//! An attempt: a search with at most so many nodes.

ghost use Rattle.std.specs.Prelude.{◌≡◌, ℕ, ◌+◌, ◌<◌, ◌≤◌, ◌^◌, List, [], ◌∷◌, length, IfOk, MatchOption};
ghost use Rattle.std.specs.List.Sorted.{IsPermutation};
ghost use Rattle.un_domains.specs.Sets.{NoneEmpty};
ghost use Rattle.un_tree.specs.Searched.{IsOpenBox};
ghost use Rattle.un_branching.specs.Searched.{IsTried, IsByRoot};
ghost use Rattle.un_branching.specs.Searching.{Enters, Searching, Taken, root_node};

use crate::growth::{Growth, Link, begin, branch, leaf_alone, list, path_to, side_of};
use crate::open_nodes::{OpenNode, OpenNodes};
use crate::problem::{Expansion, Look, Problem};
use std::alloc::{AllocError, Global};
use un_base::memory_error::NoMemory;
use un_domains::side::Side;
use un_tree::node::{Node, Tree};

/// What an attempt found: a solution, a tree without an open leaf, or a tree of all nodes that it was given, with the least cost
/// in the box of an open leaf.
#[derive(Drop)]
pub enum Tried {
    Found(Vec<u32>),
    Refuted(Tree),
    Cut { tree: Tree, least: u64 },
}

/// A leaf, or a solution in its place.
#[derive(Drop)]
pub enum Entered {
    Leaf(Node),
    Solution(Vec<u32>),
}

/// Puts a new leaf among the open nodes, where it is open.
fn enter(
    waiting: &mut OpenNodes,
    look: Look,
    place: usize,
    link: Link,
) -> Result<Entered, AllocError>
    ensures { IfOk result (Enters look place link waiting.old waiting.new) }
{
    match look {
        Look::Failed => Ok(Entered::Leaf(Node::Closed)),
        Look::Found(solution) => Ok(Entered::Solution(solution)),
        Look::Open(least) => {
            waiting.push(OpenNode {
                least,
                place,
                link: Some(link),
            })?;
            Ok(Entered::Leaf(Node::Open))
        }
    }
}

/// Makes a Branch of an open node. The left side is entered last, so it comes first on a tie.
fn step<P: Problem>(
    alloc: Global,
    problem: &P,
    room: &mut P::Room,
    tree: &mut Growth,
    waiting: &mut OpenNodes,
    taken: OpenNode,
) -> Result<Option<Vec<u32>>, NoMemory>
    requires ready { P.is_ready problem.now room.old }
    requires taken { Taken (P.root problem.now) (P.fix problem.now) (P.least problem.now)
        tree.old.nodes.items tree.old.branches.items waiting.old taken }
    requires space { length tree.old.nodes.items + 2 < 2 ^ 32 }
    ensures ready { IfOk result (λ r. P.is_ready problem.now room.new) }
    ensures went { IfOk result (λ r. MatchOption r
        (Searching (P.root problem.now) (P.fix problem.now) (P.least problem.now) tree.new.nodes.items tree.new.branches.items waiting.new
        × (length tree.new.nodes.items ≡ length tree.old.nodes.items + 2))
        (λ x. P.is_good problem.now x.items)) }
{
    let path = path_to(alloc, tree.branches.as_slice(), taken.link)?;
    let Expansion {
        var,
        val,
        left,
        right,
    } = problem.expand(room, path.as_slice())?;
    let count = tree.nodes.len();
    let parent = tree.branches.len();
    let above = side_of(parent, var, val, Side::Above);
    let right_leaf = match enter(waiting, right, count, above)? {
        Entered::Solution(solution) => return Ok(Some(solution)),
        Entered::Leaf(node) => node,
    };
    let at_most = side_of(parent, var, val, Side::AtMost);
    let left_leaf = match enter(waiting, left, count + 1, at_most)? {
        Entered::Solution(solution) => return Ok(Some(solution)),
        Entered::Leaf(node) => node,
    };
    branch(
        tree,
        taken.place,
        taken.link,
        var,
        val,
        left_leaf,
        right_leaf,
    )?;
    Ok(None)
}

/// The first box waits.
fn first_waits(alloc: Global, least: u64) -> Result<OpenNodes, AllocError>
    ensures { IfOk result (IsPermutation (root_node least ∷ [])) }
{
    let mut waiting = OpenNodes::new(alloc);
    waiting.push(OpenNode {
        least,
        place: 0,
        link: None,
    })?;
    Ok(waiting)
}

/// Searches from an open first box.
fn search<P: Problem>(
    alloc: Global,
    problem: &P,
    room: &mut P::Room,
    least: u64,
    nodes: u32,
) -> Result<Tried, NoMemory>
    requires ready { P.is_ready problem.now room.old }
    requires full { NoneEmpty (P.root problem.now) }
    requires choice { IsOpenBox (P.fix problem.now) (P.root problem.now) }
    requires least { P.least problem.now (P.root problem.now) least }
    requires some { 0 < nodes }
    ensures ready { IfOk result (λ t. P.is_ready problem.now room.new) }
    ensures tried { IfOk result
        (IsTried (P.block_count problem.now) (P.root problem.now) (P.fix problem.now) (P.least problem.now) (P.is_good problem.now) nodes) }
    ensures first { nodes < 3 → IfOk result
        (IsByRoot (P.root problem.now) (P.fix problem.now) (P.least problem.now) (P.is_good problem.now)) }
{
    let mut tree = begin(alloc)?;
    let mut waiting = first_waits(alloc, least)?;
    loop {
        let top = match waiting.pop() {
            None => return Ok(Tried::Refuted(list(alloc, tree.nodes.as_slice())?)),
            Some(top) => top,
        };
        if tree.nodes.len() + 2 > nodes as usize {
            return Ok(Tried::Cut {
                tree: list(alloc, tree.nodes.as_slice())?,
                least: top.least,
            });
        }
        match step(alloc, problem, room, &mut tree, &mut waiting, top)? {
            None => {}
            Some(solution) => return Ok(Tried::Found(solution)),
        }
    }
}

/// Searches with at most so many nodes. The next open node is the one with the least cost in its box, on a tie the one made last.
pub fn attempt<P: Problem>(
    alloc: Global,
    problem: &P,
    room: &mut P::Room,
    nodes: u32,
) -> Result<Tried, NoMemory>
    requires fresh { P.is_fresh problem.now room.old }
    requires full { NoneEmpty (P.root problem.now) }
    requires some { 0 < nodes }
    ensures ready { IfOk result (λ t. P.is_ready problem.now room.new) }
    ensures tried { IfOk result
        (IsTried (P.block_count problem.now) (P.root problem.now) (P.fix problem.now) (P.least problem.now) (P.is_good problem.now) nodes) }
    ensures first { nodes < 3 → IfOk result
        (IsByRoot (P.root problem.now) (P.fix problem.now) (P.least problem.now) (P.is_good problem.now)) }
{
    match problem.first(room)? {
        Look::Found(solution) => Ok(Tried::Found(solution)),
        Look::Open(least) => search(alloc, problem, room, least, nodes),
        Look::Failed => Ok(Tried::Refuted(leaf_alone(alloc, Node::Closed)?)),
    }
}
