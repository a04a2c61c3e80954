//! What every crate stands on: ids, names and numbers, lines of texts and decimal numbers, and want of memory.
#![tactic(auto)]

pub mod decimal;
pub mod ids;
pub mod lines;
pub mod memory_error;
pub mod name;
pub mod numbers;
