//! Trees of a search: nodes in preorder, where they stand, and their text, written and read.
#![tactic(auto)]

pub mod laws;
pub mod line;
pub mod node;
pub mod parts;
pub mod print;
pub mod read;
pub mod split;
