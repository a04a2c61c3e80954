//! Functions generated from a seed: every size and seed gives one, so that there is always something to compile.
#![tactic(auto)]

mod blocks;
mod draws;
pub mod generate;
mod ops;
