//! The problem of a function: its extended function, and the model of that.
#![tactic(auto)]

pub mod problem;
