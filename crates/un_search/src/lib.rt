//! A search for solutions of a model: an attempt at one that costs less than a limit, with at most so many nodes, and attempts until
//! there is none that costs less than the best so far.
#![tactic(auto)]

pub mod attempt;
mod best;
mod choices;
mod dive;
mod expand;
mod lifts;
mod look;
mod near;
pub mod order;
mod root;
pub mod rounds;
mod settle;
pub mod solve;
pub mod start;
mod window;
