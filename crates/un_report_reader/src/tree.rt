//! The tree in a report, and its end.

ghost use Rattle.std.specs.Prelude.{◌≡◌, ◌≢◌, ℕ, ◌+◌, ◌<◌, ◌↔◌, List, [], ◌∷◌, ◌++◌, IsTrue, IfOk, IfErr, IfSome, IfNone, OnOk};
ghost use Rattle.un_report_reader.specs.Errors.{IsErrorAt, IsRead};
ghost use Rattle.un_report_reader.specs.FirstBad.{BeginsNoAllowed, IsBadLine, IsBadNode, InTree, InEnd, InNothing};
ghost use Rattle.un_report_reader.specs.Limits.{IsAllowed};
ghost use Rattle.un_report_reader.specs.Lines.{IsPlain, one, end_text};
ghost use Rattle.un_report_reader.specs.Trees.{IsNodeRead, IsNodesRead, IsTreeRead};

use crate::cut::after;
use crate::error::ReportError;
use crate::head::number_line;
use crate::limits::Limits;
use crate::place::{Place, bad_line, behind};
use un_tree::node::Node;
use un_tree::read::{Step, first_node};

/// Whether a tree may have a node.
fn is_allowed(node: Node, limits: Limits) -> bool
    ensures { IsTrue result ↔ IsAllowed limits node }
{
    match node {
        Node::Branch { .. } | Node::Closed | Node::Open => true,
        Node::Split => limits.splits,
        Node::Part { .. } => limits.splits,
    }
}

/// What is left behind the line of a node with which a text begins.
fn behind_node(text: &[u8], limits: Limits) -> Option<&[u8]>
    ensures some { IfSome result (λ rest. IsNodeRead limits text.now rest.now) }
    ensures none { IfNone result (BeginsNoAllowed limits text.now) }
{
    match first_node(text) {
        Step::Node { node, rest, .. } => {
            if is_allowed(node, limits) {
                Some(rest)
            } else {
                None
            }
        }
        Step::End => None,
        Step::Bad => None,
    }
}

/// So many lines of nodes.
fn nodes<'a>(
    at: Place<'a>,
    limits: Limits,
    count: u32,
) -> Result<(&'a [u8], Place<'a>), ReportError>
    ensures ok { IfOk result (λ p. IsNodesRead limits count at.entry p.0.now p.1) }
    ensures bad { IfErr result (IsErrorAt (IsBadNode limits count) at.entry) }
{
    let mut left = at.rest;
    for k in 0..count {
        match behind_node(left, limits) {
            Some(rest) => left = rest,
            None => return Err(bad_line(at, k + 1)),
        }
    }
    let lines = &at.rest[..at.rest.len() - left.len()];
    Ok((lines, behind(at, left, count)?))
}

/// The lines of a tree and how many they are.
#[derive(Clone, Copy)]
pub(crate) struct Lines<'a> {
    pub(crate) text: &'a [u8],
    pub(crate) count: u32,
}

/// The lines of the tree, with the line of how many they are.
pub(crate) fn tree(at: Place, limits: Limits) -> Result<(Lines, Place), ReportError>
    ensures ok { IfOk result (λ p. IsTreeRead limits at.entry p.0 p.1) }
    ensures bad { IfErr result (IsErrorAt (InTree limits) at.entry) }
{
    let (count, at) = number_line(at, b"tree ", 1, limits.lines as u64)?;
    let count = count as u32;
    let (text, at) = nodes(at, limits, count)?;
    Ok((Lines { text, count }, at))
}

/// The line of the end.
fn end_line(at: Place) -> Result<Place, ReportError>
    ensures ok { IfOk result (λ next. IsRead IsPlain end_text one at.entry tt next) }
    ensures bad { IfErr result (IsErrorAt (IsBadLine IsPlain end_text) at.entry) }
{
    match after(at.rest, b"end\n") {
        Some(rest) => behind(at, rest, 1),
        None => Err(bad_line(at, 1)),
    }
}

/// Asks for the end, and nothing behind it.
pub fn end(at: Place) -> Result<(), ReportError>
    ensures ok { OnOk result (at.entry.rest.now ≡ end_text tt) }
    ensures bad { IfErr result (IsErrorAt InEnd at.entry) }
{
    let at = end_line(at)?;
    if at.rest.is_empty() {
        Ok(())
    } else {
        Err(bad_line(at, 1))
    }
}
