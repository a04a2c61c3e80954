//! The judge of step logs: the lines of each closed leaf of a tree take values by the rules of step logs until some set is empty. No
//! propagator is in it.
#![tactic(auto)]

pub mod judge;
pub mod laws;
pub mod leaf;
pub mod line;
pub mod verdict;
