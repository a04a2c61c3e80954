//! Trees from text.

ghost use Rattle.std.specs.Prelude.{◌≡◌, ◌++◌, ◌∷◌, [], List, All, IfOk, IfErr, OnOk};
ghost use Rattle.un_tree.specs.declared.node.Node.{Node};
ghost use Rattle.un_tree.specs.Texts.{Fits, tree_text, IsStep, IsErrorOf, IsReadBack};

use crate::line::node_of;
use crate::node::{Node, Tree};
use std::alloc::{AllocError, Global};
use un_base::lines::cut;
use un_base::memory_error::NoMemory;
use un_base::numbers::number;

/// The first line of a text of nodes.
#[derive(Clone, Copy)]
pub enum Step<'a> {
    /// The text is empty.
    End,
    /// The first line is no node's, or lacks its line feed.
    Bad,
    /// The node of the first line, the line without its line feed, and what stands behind that.
    Node {
        node: Node,
        line: &'a [u8],
        rest: &'a [u8],
    },
}

/// Why there is no tree: there was no memory, or a line is no node's, counted from 1.
#[derive(Clone, Copy)]
pub enum TreeError {
    NoMemory,
    BadNode { line: u32 },
}

impl From<NoMemory> for TreeError {
    ghost use Rattle.std.specs.Prelude.{◌≡◌};
    ghost use Rattle.un_tree.specs.declared.read.TreeError.TheVariants.{NoMemory};

    ghost from_gives = { λ _ error. error ≡ NoMemory };

    fn from(_error: NoMemory) -> TreeError {
        TreeError::NoMemory
    }
}

/// Reads the first line of a text of nodes. It takes no memory.
pub fn first_node(text: &[u8]) -> Step<'_>
    ensures { IsStep text.now result }
{
    if text.is_empty() {
        return Step::End;
    }
    match cut(text, b'\n') {
        None => Step::Bad,
        Some((line, rest)) => match node_of(line) {
            None => Step::Bad,
            Some(node) => Step::Node { node, line, rest },
        },
    }
}

/// Adds a node.
fn push(nodes: &mut Vec<Node>, node: Node) -> Result<(), AllocError>
    ensures { OnOk result (nodes.new.items ≡ nodes.old.items ++ node ∷ []) }
{
    nodes.push(node)?;
    Ok(())
}

/// Adds a node.
fn add(nodes: &mut Vec<Node>, node: Node) -> Result<(), NoMemory>
    ensures { OnOk result (nodes.new.items ≡ nodes.old.items ++ node ∷ []) }
{
    push(nodes, node)?;
    Ok(())
}

/// The tree whose text this is.
///
/// # Errors
/// `BadNode` with the first line that is no node's, where there is one; `NoMemory` where there is no memory for the tree.
pub fn read_tree(alloc: Global, text: &[u8]) -> Result<Tree, TreeError>
    ensures ok { IfOk result (λ t. text.now ≡ tree_text t.nodes.items) }
    ensures err { IfErr result (IsErrorOf text.now) }
    ensures whole { (nodes : List Node) → All Fits nodes → text.now ≡ tree_text nodes → IsReadBack nodes result }
{
    let mut nodes = Vec::new(alloc);
    let mut left = text;
    loop {
        match first_node(left) {
            Step::End => return Ok(Tree { nodes }),
            Step::Bad => {
                let line = number(nodes.len() + 1)?;
                return Err(TreeError::BadNode { line });
            }
            Step::Node { node, rest, .. } => {
                add(&mut nodes, node)?;
                left = rest;
            }
        }
    }
}
