//! Steps of a log: which values may go from a box by thirteen rules, of which each says of every solution below a limit that it keeps
//! its own. No propagator is in them.
#![tactic(auto)]

pub mod allowed;
pub mod full;
pub mod laws;
pub mod look;
pub mod operation;
mod reads;
mod rules;
pub mod step;
