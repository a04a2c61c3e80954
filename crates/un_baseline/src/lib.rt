//! Spill everywhere: a solution for every function, which keeps each name in a frame slot of its own.
#![tactic(auto)]

mod copies;
pub mod plan;
pub mod roomy;
pub mod spill;
