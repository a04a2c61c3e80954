//! Propagators: their laws, and rounds of them.
#![tactic(auto)]

pub mod act;
pub mod changed;
pub mod child;
pub mod last;
pub mod look;
pub mod place;
pub mod propagator;
pub mod queue;
pub mod readers;
pub mod run;
pub mod step;
pub mod when;
