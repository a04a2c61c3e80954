//! Reports from their texts.
#![tactic(auto)]

mod answer;
pub mod cut;
pub mod error;
pub mod head;
pub mod kind;
pub mod limits;
mod listing;
mod numbers;
pub mod place;
pub mod read;
pub mod tree;
