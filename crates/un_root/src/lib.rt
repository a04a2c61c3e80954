//! The first box of a model: a store in which each variable has all values of its domain.
#![tactic(auto)]

pub mod store;
