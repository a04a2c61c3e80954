//! Trials of blocks: a block is allocated and scheduled in one sweep, under given places of its values at its start and end. Nothing
//! is promised of a trial but that it is safe and ends: its answers are judged by those who ask for it.
#![tactic(auto)]

pub mod facts;
pub mod machine;
pub mod packets;
pub mod pairs;
pub mod recipe;
pub mod sets;
pub mod table;
pub mod trial;
