//! Outcomes of runs as text.
#![tactic(auto)]

mod pieces;
pub mod print;
