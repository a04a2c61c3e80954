//! Reports: what a search answered for a function, with its tree, as text.
#![tactic(auto)]

pub mod print;
pub mod report;
pub mod view;
