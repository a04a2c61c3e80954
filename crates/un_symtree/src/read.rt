//! Trees with mirrors from text, line by line.

ghost use Rattle.un_symtree.specs.SymTexts.{IsSymStep};

use crate::line::sym_node_of;
use crate::node::SymNode;
use un_base::lines::cut;

/// The first line of a text of nodes.
#[derive(Clone, Copy)]
pub enum SymStep<'a> {
    /// The text is empty.
    End,
    /// The first line is no node's, or lacks its line feed.
    Bad,
    /// The node of the first line, the line without its line feed, and what stands behind that.
    Node {
        node: SymNode,
        line: &'a [u8],
        rest: &'a [u8],
    },
}

/// Reads the first line of a text of nodes. It takes no memory.
pub fn first_sym_node(text: &[u8]) -> SymStep<'_>
    ensures { IsSymStep text.now result }
{
    if text.is_empty() {
        return SymStep::End;
    }
    match cut(text, b'\n') {
        None => SymStep::Bad,
        Some((line, rest)) => match sym_node_of(line) {
            None => SymStep::Bad,
            Some(node) => SymStep::Node { node, line, rest },
        },
    }
}
