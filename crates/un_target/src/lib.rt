//! Tables of the processor as JSON texts: the table that a text is, or the first cause why it is none; which tables fit.
#![tactic(auto)]

mod entries;
pub mod error;
pub mod fitting;
mod latencies;
pub mod laws;
pub mod names;
mod parts;
pub mod reading;
mod saved;
mod uses;
