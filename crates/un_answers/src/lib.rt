//! What runs of the programs beside `unison` come to.
#![tactic(auto)]

pub mod answer;
