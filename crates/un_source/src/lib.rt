//! Runs of functions, operation by operation.
#![tactic(auto)]

mod blocks;
mod ops;
pub mod run;
mod state;
