//! Which names are live at the start of each block of a function.
#![tactic(auto)]

pub mod live;
pub mod marks;
mod meeting;
mod tables;
