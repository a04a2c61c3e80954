//! Refutations: that a function has no solution below a limit, with a tree with mirrors, as text; written and read. Trees that were cut
//! off, written.
#![tactic(auto)]

pub mod options;
pub mod print;
pub mod read;
pub mod refutation;
pub mod tree;
