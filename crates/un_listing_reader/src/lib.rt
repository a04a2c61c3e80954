//! Code from its listing: the rules of packets, what a line spells, and which lines stand.
#![tactic(auto)]

pub mod forms;
pub mod judge;
pub mod labels;
pub mod line;
pub mod lines;
mod needs;
pub mod packet;
pub mod read;
pub mod rules;
