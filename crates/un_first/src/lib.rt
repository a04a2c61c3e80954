//! A first solution: trials of blocks under given places of the names and saved values at the block boundaries, and hill climbing on
//! the places. What it answers was judged, so nothing else is promised of its parts but that they are safe and end.
#![tactic(auto)]

mod assemble;
mod assign;
mod chance;
mod changes;
mod climb;
pub mod first;
mod lists;
mod orders;
mod places;
mod plan;
mod search;
mod start;
mod wishes;
