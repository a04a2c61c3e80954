//! What a first solution knows of a function, read from its model: the blocks as trials read them, and the groups of block boundaries
//! that edges join. Nothing is promised of it but that it is safe: what is made from it is judged by the model.
#![tactic(auto)]

pub mod facts;
mod gather;
pub mod grid;
pub mod groups;
mod packets;
mod temporaries;
