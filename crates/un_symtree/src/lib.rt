//! Trees with mirrors: a side that mirrors a finished one is one leaf. Their nodes, and their text, written and read.
#![tactic(auto)]

pub mod line;
pub mod node;
pub mod print;
pub mod read;
