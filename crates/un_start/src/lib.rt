//! Starts of runs from their texts.
#![tactic(auto)]

mod draft;
pub mod line;
pub mod place;
pub mod read;
pub mod word;
