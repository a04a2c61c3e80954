//! The model of a function: its variables with their domains, its solutions read as schedules, and their cost.
#![tactic(auto)]

pub mod arcs;
pub mod build;
pub mod cost;
pub mod distances;
pub mod ends;
mod homes;
pub mod instructions;
pub mod model;
pub mod placement;
mod registers;
pub mod schedule;
pub mod verdict;
