//! The saved values of a function over its blocks: where each solution of a model has them at the boundaries of blocks, and which Spills
//! and Reloads it owes to that.
#![tactic(auto)]

pub mod boundary;
pub mod joined;
pub mod laws;
pub mod places;
pub mod reads;
