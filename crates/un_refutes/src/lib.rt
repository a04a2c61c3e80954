//! The check of a tree with mirrors: where all is well, no solution costs less than the limit.
#![tactic(auto)]

pub mod check;
mod judge;
pub mod laws;
pub mod shorten;
pub mod verdict;
mod walk;
