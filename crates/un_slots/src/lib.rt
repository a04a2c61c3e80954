//! The propagator of packets: in each cycle the operations take no more of each resource than a packet has.
#![tactic(auto)]

pub mod crowd;
mod issue;
pub mod item;
mod keep;
mod listing;
mod load;
pub mod per_cycle;
mod takes;
