//! A solution of a model is what the parts of its blocks allow together.
#![tactic(auto)]

pub mod laws;
