//! Trees with mirrors as text.

ghost use Rattle.std.specs.Prelude.{◌≡◌, ◌++◌, OnOk, codes, decimal};
ghost use Rattle.un_symtree.specs.SymTexts.{sym_line, sym_text};

use crate::node::{SymNode, SymTree};
use std::alloc::Global;
use un_base::decimal::write_decimal;
use un_base::memory_error::NoMemory;
use un_isa::reg::Reg;

/// Appends a text.
fn put_text(out: &mut Vec<u8>, text: &[u8]) -> Result<(), NoMemory>
    ensures { OnOk result (out.new.items ≡ out.old.items ++ text.now) }
{
    out.extend_from_slice(text)?;
    Ok(())
}

/// Appends two numbers with a space between.
fn put_pair(alloc: Global, out: &mut Vec<u8>, first: u32, second: u32) -> Result<(), NoMemory>
    ensures { OnOk result (out.new.items ≡ out.old.items ++ (decimal first ++ (codes " " ++ decimal second))) }
{
    write_decimal(alloc, out, u64::from(first))?;
    put_text(out, b" ")?;
    write_decimal(alloc, out, u64::from(second))
}

/// Appends the numbers of a Mirror.
fn put_mirror(alloc: Global, out: &mut Vec<u8>, a: Reg, b: Reg, depth: u32) -> Result<(), NoMemory>
    ensures { OnOk result (out.new.items ≡ out.old.items ++ (decimal a.0 ++ (codes " " ++ (decimal b.0 ++ (codes " " ++ decimal depth))))) }
{
    write_decimal(alloc, out, u64::from(a.0))?;
    put_text(out, b" ")?;
    put_pair(alloc, out, b.0, depth)
}

/// Appends the line of a node, without its line feed.
fn put_node(alloc: Global, out: &mut Vec<u8>, node: SymNode) -> Result<(), NoMemory>
    ensures { OnOk result (out.new.items ≡ out.old.items ++ sym_line node) }
{
    match node {
        SymNode::Branch { var, val } => {
            put_text(out, b"B ")?;
            put_pair(alloc, out, var.0, val)
        }
        SymNode::Closed => put_text(out, b"C"),
        SymNode::Mirror { a, b, depth } => {
            put_text(out, b"M ")?;
            put_mirror(alloc, out, a, b, depth)
        }
    }
}

/// Appends the lines of a tree with mirrors: `B VAR VAL`, `C` or `M A B DEPTH` for each node.
///
/// # Errors
/// `NoMemory` where there is no memory for the text.
pub fn put_sym_tree(alloc: Global, out: &mut Vec<u8>, t: &SymTree) -> Result<(), NoMemory>
    ensures { OnOk result (out.new.items ≡ out.old.items ++ sym_text t.now.nodes.items) }
{
    for node in &t.nodes {
        put_node(alloc, out, *node)?;
        put_text(out, b"\n")?;
    }
    Ok(())
}
