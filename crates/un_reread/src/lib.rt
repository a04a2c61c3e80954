//! Printing a function and reading what was printed, which gives the function back.
#![tactic(auto)]

pub mod read_back;
