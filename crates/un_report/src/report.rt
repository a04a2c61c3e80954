//! What a report holds.

use un_base::name::Name;
use un_model::model::{Options, Solution};
use un_packet::code::Code;
use un_tree::node::Tree;

/// How many numbers of a solution stand on a line.
pub const NUMBERS: usize = 16;

/// What a search answered: code with its cost, a bound that no solution costs less than, and the solution that it was made of; that there
/// is no solution; or that it stopped before it knew.
#[derive(Drop)]
pub enum Answered {
    Code {
        cost: u64,
        bound: u64,
        code: Code,
        solution: Solution,
    },
    Infeasible,
    Spent,
}

/// A report: what a search answered for a function.
#[derive(Drop)]
pub struct Report {
    /// Its version, 1 to the last: it says what the report may have, and by which table it is judged.
    pub version: u8,
    /// The name of the function.
    pub name: Name,
    /// The options of its model: the registers and the frame slots that the search might use.
    pub options: Options,
    /// How many nodes the search was given for its tree, 1 to 200,000.
    pub nodes: u32,
    /// Code with its cost, bound and solution; or that there is no solution; or that the search stopped before it knew.
    pub answer: Answered,
    /// The tree of its last attempt.
    pub tree: Tree,
}
