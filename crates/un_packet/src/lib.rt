//! Packets of instructions, and what they do.
#![tactic(auto)]

pub mod code;
mod effects;
pub mod exact;
pub mod machine;
pub mod pass;
pub mod run;
pub mod state;
mod writes;
