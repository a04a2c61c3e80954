//! What a Split says of the parts behind it: the numbers that they are under, read up to the last part's end.

ghost use Rattle.std.specs.Prelude.{◌≡◌, ℕ, ◌+◌, ◌-◌, ◌<◌, ◌≤◌, ◌^◌, ◌↔◌, ◌∷◌, ⊤, List, Option, IsTrue, IfSome, IfNone, MatchOption, All};
ghost use Rattle.un_tree.specs.declared.node.Node.{Node};
ghost use Rattle.un_tree.specs.Parts.{ComeTo, at_most_64, part_numbers, told};
ghost use Rattle.un_tree.specs.Reading.{IsOver, told_behind, with_number};
ghost use Rattle.un_tree.specs.Texts.{Fits, tree_text};

use crate::node::Node;
use crate::read::{Step, first_node};

/// The numbers that the parts behind a Split are under.
#[derive(Clone, Copy)]
pub enum Parts {
    /// The list ends before the last part does, or a node comes of a kind that cannot stand at its place.
    Torn,
    /// Whether some part is under no number, and the sum of the numbers of the others, or the greatest number of 64 bits where that is
    /// less.
    Numbers { free: bool, sum: u64 },
}

/// How far parts are read.
#[derive(Clone, Copy)]
pub(crate) struct Reading {
    /// How many trees wait in the part that is read.
    pub trees: usize,
    /// How many parts wait behind it.
    pub parts: usize,
    /// Whether some part so far is under no number.
    pub free: bool,
    /// The sum of the numbers so far, or the greatest number of 64 bits where that is less.
    pub sum: u64,
}

/// Before the parts of so many blocks.
fn before(blocks: usize) -> Reading
    ensures behind { (nodes : List Node) → told_behind result nodes ≡ told (part_numbers blocks nodes) }
    ensures none { result.trees ≡ 0 }
{
    Reading {
        trees: 0,
        parts: blocks,
        free: false,
        sum: 0,
    }
}

/// Whether all parts are read.
fn is_over(reading: Reading) -> bool
    ensures { IsTrue result ↔ IsOver reading }
{
    reading.trees == 0 && reading.parts == 0
}

/// One part more, under a number or none.
fn begun(reading: Reading, least: Option<u64>) -> Reading
    requires { 0 < reading.parts }
    ensures { result ≡ with_number reading least }
{
    let parts = reading.parts - 1;
    match least {
        None => Reading {
            trees: 1,
            parts,
            free: true,
            sum: reading.sum,
        },
        Some(n) => Reading {
            trees: 1,
            parts,
            free: reading.free,
            sum: reading.sum.saturating_add(n),
        },
    }
}

/// How far parts are read behind a node; none where it cannot stand there.
fn passed(reading: Reading, node: Node) -> Option<Reading>
    requires waits { IsOver reading → ⊥ }
    requires few { reading.trees + 1 < 2 ^ 64 }
    ensures some { IfSome result (λ r. (nodes : List Node) → told_behind reading (node ∷ nodes) ≡ told_behind r nodes) }
    ensures few { IfSome result (λ r. r.trees ≤ reading.trees + 1) }
    ensures none { IfNone result ((nodes : List Node) → told_behind reading (node ∷ nodes) ≡ Parts.Torn) }
{
    match node {
        Node::Part { least } => {
            if reading.trees > 0 {
                return None;
            }
            Some(begun(reading, least))
        }
        Node::Branch { .. } => {
            if reading.trees == 0 {
                return None;
            }
            let trees = reading.trees + 1;
            Some(Reading { trees, ..reading })
        }
        Node::Closed => {
            if reading.trees == 0 {
                return None;
            }
            let trees = reading.trees - 1;
            Some(Reading { trees, ..reading })
        }
        Node::Open => None,
        Node::Split => None,
    }
}

/// What is told of the numbers, where all parts are read.
fn numbers(reading: Reading) -> Parts
    requires { IsOver reading }
    ensures { (nodes : List Node) → result ≡ told_behind reading nodes }
{
    Parts::Numbers {
        free: reading.free,
        sum: reading.sum,
    }
}

/// The numbers of the parts of so many blocks at the front of a list.
pub fn parts_in(nodes: &[Node], blocks: usize) -> Parts
    ensures { result ≡ told (part_numbers blocks nodes.now) }
{
    let mut reading = before(blocks);
    for node in nodes {
        if is_over(reading) {
            return numbers(reading);
        }
        match passed(reading, *node) {
            None => return Parts::Torn,
            Some(next) => reading = next,
        }
    }
    if is_over(reading) {
        return numbers(reading);
    }
    Parts::Torn
}

/// The numbers of the parts of so many blocks at the front of a text of nodes. It takes no memory.
pub fn parts_of(text: &[u8], blocks: usize) -> Parts
    ensures { (nodes : List Node) → All Fits nodes → text.now ≡ tree_text nodes → result ≡ told (part_numbers blocks nodes) }
{
    let mut reading = before(blocks);
    let mut left = text;
    while !is_over(reading) {
        match first_node(left) {
            Step::Node { node, rest, .. } => match passed(reading, node) {
                None => return Parts::Torn,
                Some(next) => {
                    reading = next;
                    left = rest;
                }
            },
            Step::End | Step::Bad => return Parts::Torn,
        }
    }
    numbers(reading)
}

/// Whether numbers whose sum is told come to a limit.
fn is_enough(sum: u64, limit: u64) -> bool
    ensures { (all : ℕ) → sum ≡ at_most_64 all → IsTrue result ↔ (limit ≤ all) }
{
    limit <= sum
}

/// Whether the parts of a Split come to the limit, as far as they can be read.
pub fn come_to(parts: Parts, limit: Option<u64>) -> bool
    ensures { (ps : Option (List (Option ℕ))) → parts ≡ told ps → IsTrue result ↔ MatchOption ps ⊤ (ComeTo limit) }
{
    match (parts, limit) {
        (Parts::Torn, _) => true,
        (Parts::Numbers { free, .. }, None) => free,
        (Parts::Numbers { free, sum }, Some(limit)) => free || is_enough(sum, limit),
    }
}
