//! The text of code, and the instruction that the words of a text spell.
#![tactic(auto)]

pub mod form;
mod pieces;
pub mod print;
pub mod recognize;
pub mod word;
