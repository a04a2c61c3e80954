//! The lines of the tree, read.

ghost use Rattle.std.specs.Prelude.{◌≡◌, ◌++◌, ◌∷◌, [], IfOk, IfErr, OnOk, length};
ghost use Rattle.un_report_reader.specs.Errors.{IsErrorAt, IsRead};
ghost use Rattle.un_symtree.specs.SymTexts.{sym_text};
ghost use Rattle.un_refutation.specs.Refutations.{AreNodes};
ghost use Rattle.un_refutation.specs.FirstBad.{IsBadNode};

use std::alloc::{AllocError, Global};
use un_base::memory_error::NoMemory;
use un_report_reader::error::ReportError;
use un_report_reader::place::{Place, bad_line, behind};
use un_symtree::node::SymNode;
use un_symtree::read::{SymStep, first_sym_node};

/// Adds a node.
fn push(nodes: &mut Vec<SymNode>, node: SymNode) -> Result<(), AllocError>
    ensures { OnOk result (nodes.new.items ≡ nodes.old.items ++ node ∷ []) }
{
    nodes.push(node)?;
    Ok(())
}

/// Adds a node.
fn add(nodes: &mut Vec<SymNode>, node: SymNode) -> Result<(), NoMemory>
    ensures { OnOk result (nodes.new.items ≡ nodes.old.items ++ node ∷ []) }
{
    push(nodes, node)?;
    Ok(())
}

/// The nodes of so many lines.
pub(crate) fn read_nodes<'a>(
    alloc: Global,
    at: Place<'a>,
    count: u32,
) -> Result<(Vec<SymNode>, Place<'a>), ReportError>
    ensures ok { IfOk result (λ p. IsRead (AreNodes count) sym_text length at.entry p.0.items p.1) }
    ensures bad { IfErr result (IsErrorAt (IsBadNode count) at.entry) }
{
    let mut nodes = Vec::new(alloc);
    let mut left = at.rest;
    for k in 0..count {
        match first_sym_node(left) {
            SymStep::Node { node, rest, .. } => {
                add(&mut nodes, node)?;
                left = rest;
            }
            SymStep::End => return Err(bad_line(at, k + 1)),
            SymStep::Bad => return Err(bad_line(at, k + 1)),
        }
    }
    Ok((nodes, behind(at, left, count)?))
}
