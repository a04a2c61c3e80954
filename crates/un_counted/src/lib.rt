//! The propagator of counts: the ends of blocks are no less than one of several rows has them, and cost less than a limit.
#![tactic(auto)]

pub mod counted;
