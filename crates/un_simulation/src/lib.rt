//! What it means that packets do what a function does, and what they cost.
#![tactic(auto)]

pub mod count;
