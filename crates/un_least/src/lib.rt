//! The least end before which the operations of a block have room, whatever the store.
#![tactic(auto)]

pub mod least;
