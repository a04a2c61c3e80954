//! The line of a node, read, and its parts.

ghost use Rattle.std.specs.Prelude.{◌≡◌, ◌≢◌, ℕ, ◌<◌, ◌^◌, List, ◌∷◌, ◌++◌, Option, IfSome, IfNone, codes, decimal};
ghost use Rattle.un_base.specs.declared.ids.VarId.{VarId};
ghost use Rattle.un_tree.specs.declared.node.Node.{Node};
ghost use Rattle.un_tree.specs.Texts.{Fits, IsUnnumbered, node_line, number_text};

use crate::node::Node;
use un_base::decimal::{number_of, read_decimal};
use un_base::ids::VarId;
use un_base::lines::cut;

/// What stands behind these first bytes.
fn behind<'a>(line: &'a [u8], start: &[u8]) -> Option<&'a [u8]>
    ensures some { IfSome result (λ rest. line.now ≡ start.now ++ rest.now) }
    ensures none { IfNone result ((rest : List ℕ) → line.now ≢ start.now ++ rest) }
{
    line.strip_prefix(start)
}

/// The Branch with these numbers.
fn branch_of(numbers: &[u8]) -> Option<Node>
    ensures some { IfSome result (λ n. node_line n ≡ codes "B " ++ numbers.now) }
    ensures none { IfNone result ((var : VarId) (val : ℕ) → var.0 < 2 ^ 32 → val < 2 ^ 32
        → numbers.now ≢ decimal var.0 ++ 32 ∷ decimal val) }
{
    let (var, val) = cut(numbers, b' ')?;
    let var = number_of(var)?;
    let val = number_of(val)?;
    Some(Node::Branch {
        var: VarId(var),
        val,
    })
}

/// The Part under this number, or under none.
fn part_of(number: &[u8]) -> Option<Node>
    ensures some { IfSome result (λ n. node_line n ≡ codes "P " ++ number.now) }
    ensures none { IfNone result ((least : Option ℕ) → IfSome least (λ n. n < 2 ^ 64) → number.now ≢ number_text least) }
{
    if number == b"-".as_slice() {
        return Some(Node::Part { least: None });
    }
    let least = read_decimal(number)?;
    Some(Node::Part { least: Some(least) })
}

/// The node of one letter whose line this is.
fn letter(line: &[u8]) -> Option<Node>
    ensures some { IfSome result (λ n. line.now ≡ node_line n) }
    ensures none { IfNone result ((line.now ≢ codes "C") × (line.now ≢ codes "O") × (line.now ≢ codes "S")) }
{
    if line == b"C".as_slice() {
        return Some(Node::Closed);
    }
    if line == b"O".as_slice() {
        return Some(Node::Open);
    }
    if line == b"S".as_slice() {
        return Some(Node::Split);
    }
    None
}

/// The node of a letter and numbers whose line this is.
fn numbered(line: &[u8]) -> Option<Node>
    ensures some { IfSome result (λ n. line.now ≡ node_line n) }
    ensures none { IfNone result (IsUnnumbered line.now) }
{
    match behind(line, b"B ") {
        Some(numbers) => branch_of(numbers),
        None => part_of(behind(line, b"P ")?),
    }
}

/// The node whose line this is.
pub(crate) fn node_of(line: &[u8]) -> Option<Node>
    ensures some { IfSome result (λ n. line.now ≡ node_line n) }
    ensures none { IfNone result ((n : Node) → Fits n → line.now ≢ node_line n) }
{
    match letter(line) {
        Some(node) => Some(node),
        None => numbered(line),
    }
}
