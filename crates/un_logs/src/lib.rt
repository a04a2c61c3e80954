//! Step logs of trees, made: at each closed leaf the rules of step logs take all values that may go, round after round, until some set
//! is empty or nothing goes any more. No propagator is in it.
#![tactic(auto)]

mod ends;
pub mod laws;
pub mod leaf;
pub mod log;
pub mod pass;
mod print;
pub mod reach;
mod round;
mod run;
pub mod turn;
mod vars;
