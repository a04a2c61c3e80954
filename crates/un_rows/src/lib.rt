//! The rows of a model: for each number of saved values in slots the least ends of its blocks.
#![tactic(auto)]

pub mod draft;
mod drafted;
mod drafts;
pub mod known;
pub mod laws;
pub mod role;
pub mod roles;
pub mod rows;
