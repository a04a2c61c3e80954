//! Best-first search over any `Problem`: a tree of boxes grows from its open node with the least cost bound.
#![tactic(auto)]

pub mod attempt;
pub mod growth;
mod open_nodes;
pub mod problem;
