//! What is said of the first fault of a function's text, beside its line and code: where in the line it stands, what is wrong, and what
//! would be accepted. The fault itself is the reader's. No clause is asked of these texts but that they are made safely and end.
#![tactic(auto)]

pub mod blocks;
pub mod calls;
pub mod commands;
pub mod forms;
pub mod heads;
pub mod lesson;
pub mod limits;
pub mod lines;
pub mod literals;
pub mod near;
pub mod numbers;
pub mod operations;
pub mod packets;
pub mod parts;
pub mod row;
pub mod taught;
pub mod unset;
pub mod word;
