//! The check of a tree and of a report: what is said of them is so.
#![tactic(auto)]

mod answer;
mod behind;
mod judge;
pub mod laws;
pub mod leaves;
pub mod lines;
mod outer;
mod part;
pub mod report;
mod stage;
pub mod tree;
pub mod verdict;
mod walk;
