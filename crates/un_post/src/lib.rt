//! What is posted for a model, and for one block of it: the propagators that hold exactly at its solutions, or at what the block allows.
#![tactic(auto)]

pub mod laws;
pub mod lower;
pub mod part;
pub mod post;
mod post_counts;
mod post_parts;
pub mod post_store;
