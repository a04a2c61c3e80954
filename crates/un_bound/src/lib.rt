//! Bounds on what the solutions of a model cost.
#![tactic(auto)]

pub mod lengths;
pub mod plain;
pub mod relax;
mod settle;
