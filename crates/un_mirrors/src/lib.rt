//! Leaves that mirror the left side of a branch above them, and trees shortened by them.
#![tactic(auto)]

pub mod mirror;
mod nearest;
pub mod registers;
pub mod shorten;
mod tree_end;
