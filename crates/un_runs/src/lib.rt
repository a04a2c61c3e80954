//! Runs of functions and of code from starts, as the program shows them, and generated functions as text.
#![tactic(auto)]

pub mod input;
pub mod refused;
pub mod runs;
