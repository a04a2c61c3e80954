//! Trees as text.

ghost use Rattle.std.specs.Prelude.{◌≡◌, ◌++◌, ◌∷◌, [], IfOk, OnOk, codes, decimal};
ghost use Rattle.un_tree.specs.Texts.{node_line, number_text, tree_text};

use crate::node::{Node, Tree};
use std::alloc::Global;
use un_base::decimal::write_decimal;
use un_base::ids::VarId;
use un_base::memory_error::NoMemory;

/// Appends a text.
fn put_text(out: &mut Vec<u8>, text: &[u8]) -> Result<(), NoMemory>
    ensures { OnOk result (out.new.items ≡ out.old.items ++ text.now) }
{
    out.extend_from_slice(text)?;
    Ok(())
}

/// Appends the numbers of a Branch.
fn put_numbers(alloc: Global, out: &mut Vec<u8>, var: VarId, val: u32) -> Result<(), NoMemory>
    ensures { OnOk result (out.new.items ≡ out.old.items ++ (decimal var.0 ++ (codes " " ++ decimal val))) }
{
    write_decimal(alloc, out, u64::from(var.0))?;
    put_text(out, b" ")?;
    write_decimal(alloc, out, u64::from(val))
}

/// Appends the number that a part is under, or a dash.
fn put_least(alloc: Global, out: &mut Vec<u8>, least: Option<u64>) -> Result<(), NoMemory>
    ensures { OnOk result (out.new.items ≡ out.old.items ++ number_text least) }
{
    match least {
        None => put_text(out, b"-"),
        Some(n) => write_decimal(alloc, out, n),
    }
}

/// Appends the line of a node, without its line feed.
fn put_node(alloc: Global, out: &mut Vec<u8>, node: Node) -> Result<(), NoMemory>
    ensures { OnOk result (out.new.items ≡ out.old.items ++ node_line node) }
{
    match node {
        Node::Branch { var, val } => {
            put_text(out, b"B ")?;
            put_numbers(alloc, out, var, val)
        }
        Node::Closed => put_text(out, b"C"),
        Node::Open => put_text(out, b"O"),
        Node::Split => put_text(out, b"S"),
        Node::Part { least } => {
            put_text(out, b"P ")?;
            put_least(alloc, out, least)
        }
    }
}

/// Appends the lines of a tree.
pub fn put_tree(alloc: Global, out: &mut Vec<u8>, t: &Tree) -> Result<(), NoMemory>
    ensures { OnOk result (out.new.items ≡ out.old.items ++ tree_text t.now.nodes.items) }
{
    for node in &t.nodes {
        put_node(alloc, out, *node)?;
        put_text(out, b"\n")?;
    }
    Ok(())
}

/// The text of a tree: a line for each node, `B VAR VAL`, `C`, `O`, `S`, `P N` or `P -`.
///
/// # Errors
/// `NoMemory` where there is no memory for the text.
pub fn print_tree(alloc: Global, t: &Tree) -> Result<Vec<u8>, NoMemory>
    ensures { IfOk result (λ text. text.items ≡ tree_text t.now.nodes.items) }
{
    let mut out = Vec::new(alloc);
    put_tree(alloc, &mut out, t)?;
    Ok(out)
}
