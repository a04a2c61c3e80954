//! The open nodes of a search: a slab keeps the parent and the decision of each, and a heap names them by their keys.

ghost use Rattle.std.specs.Prelude.{◌≡◌, [], ◌∷◌, OnOk, IfNone, IfSome};
ghost use Rattle.std.specs.List.Sorted.{IsPermutation};
ghost use Rattle.std.specs.BinaryHeap.{IsUpperBound};
ghost use Rattle.un_branching.specs.Queues.{order};

use crate::growth::Link;
use slab::Slab;
use std::alloc::{AllocError, Global};
use std::cmp::Reverse;
use std::collections::BinaryHeap;
use std::marker::Model;

/// An open node.
#[derive(Clone, Copy)]
pub struct OpenNode {
    /// The least cost in its box.
    pub least: u64,
    /// Its place in the tree's list, which rises with each node that is made.
    pub place: usize,
    /// Its link to its parent; the root has none.
    pub link: Option<Link>,
}

/// How the heap names an open node. The greatest name has the least cost, and on a tie is that of the node made last.
#[derive(Clone, Copy, PartialEq, Eq, PartialOrd, Ord)]
struct Name {
    /// The least cost in its box.
    least: Reverse<u64>,
    /// Its place in the tree's list.
    place: usize,
    /// The key of its link in the slab.
    key: usize,
}

/// The open nodes. Contracts see a list of them, in any order.
#[derive(Drop)]
pub struct OpenNodes {
    /// The parent and the decision of each; the root has neither.
    links: Slab<Option<Link>>,
    /// A name for each.
    names: BinaryHeap<Name>,
}

impl Model for OpenNodes {
    ghost use Rattle.std.specs.Prelude.{List, map};
    ghost use Rattle.std.specs.BinaryHeap.{heap_items};
    ghost use Rattle.un_branching.specs.declared.open_nodes.OpenNode.{OpenNode};

    ghost Value = { List OpenNode };

    ghost use Rattle.un_branching.specs.Queues.{named, IsQueue};

    ghost view = { λ a. map (named a.links) (heap_items a.names) };

    ghost invariant = { λ a. IsQueue a.links (heap_items a.names) };
}

impl OpenNodes {
    /// No open node.
    pub fn new(alloc: Global) -> OpenNodes
        ensures { result ≡ [] }
    {
        OpenNodes {
            links: Slab::new(alloc),
            names: BinaryHeap::new(alloc),
        }
    }

    /// Adds an open node, under a key that no other open node has.
    pub fn push(&mut self, node: OpenNode) -> Result<(), AllocError>
        ensures { OnOk result (IsPermutation (node ∷ self.old) self.new) }
    {
        self.links.reserve(1)?;
        let key = self.links.vacant_key();
        self.names.push(Name {
            least: Reverse(node.least),
            place: node.place,
            key,
        })?;
        self.links.insert_reserved(node.link);
        Ok(())
    }

    /// Takes the open node with the least cost in its box out, on a tie the one made last. Its key is used again.
    pub fn pop(&mut self) -> Option<OpenNode>
        ensures rest { IfSome result (λ node. IsPermutation self.old (node ∷ self.new)) }
        ensures best { IfSome result (λ node. IsUpperBound order node self.old) }
        ensures none { IfNone result (self.old ≡ []) }
    {
        match self.names.pop() {
            None => None,
            Some(name) => {
                let link = self.links.remove(name.key);
                Some(OpenNode {
                    least: name.least.0,
                    place: name.place,
                    link,
                })
            }
        }
    }
}
