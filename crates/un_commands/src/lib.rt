//! The words of a command line: which command they ask for, or the first place at which they are those of none.
#![tactic(auto)]

mod alloc;
mod check;
pub mod command;
mod generate;
pub mod laws;
pub mod line;
mod place;
mod refute;
mod run;
pub mod setting;
mod steps;
