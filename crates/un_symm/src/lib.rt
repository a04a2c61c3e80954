//! Registers that stand in each other's place, and solutions in which two such registers are exchanged.
#![tactic(auto)]

pub mod exchange;
mod homes;
pub mod interchangeable;
pub mod laws;
