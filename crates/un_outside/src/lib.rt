//! The outside of the program: sources and sinks with the causes of each failure, words of a command line, and statuses.
#![tactic(auto)]

pub mod files;
pub mod memory;
pub mod outside;
pub mod status;
pub mod transfer;
pub mod words;
