//! Functions over virtual registers, as they are read.
#![tactic(auto)]

pub mod extended;
pub mod function;
pub mod print;
pub mod text;
