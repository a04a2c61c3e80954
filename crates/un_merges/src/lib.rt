//! Solutions whose packets stand as close as they can: no two neighbouring packets of a block can be made one.
#![tactic(auto)]

mod guess;
pub mod merges;
mod packing;
