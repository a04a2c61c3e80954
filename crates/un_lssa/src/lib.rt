//! Linear functions: every block defines its own temporaries.
#![tactic(auto)]

mod blocks;
pub mod linearize;
mod names;
mod ops;
