//! The operations and the definers of temporaries of a model, as propagators name them, and what is posted for a model, in words.
#![tactic(auto)]

pub mod edges;
pub mod laws;
pub mod numbers;
pub mod sites;
pub mod space_sets;
pub mod tables;
