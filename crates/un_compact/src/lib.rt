//! Schedules of any length brought to the length of a solution.
#![tactic(auto)]

pub mod compact;
pub mod laws;
mod squeeze;
