//! The whole program over any outside.
#![tactic(auto)]

pub mod by_table;
mod check;
pub mod faults;
pub mod generated;
pub mod improve;
pub mod laws;
pub mod limits;
pub mod output;
pub mod produce;
pub mod program;
mod reading;
mod refutation;
mod refute;
pub mod run;
pub mod search;
mod steps;
