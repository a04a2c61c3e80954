//! The parts of a function's problem as text: live names, linear and extended functions.
#![tactic(auto)]

pub mod extended;
pub mod live;
pub mod pieces;
