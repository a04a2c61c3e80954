//! What stands before a line, and the faults of a line and of a whole text.
#![tactic(auto)]

pub mod before;
pub mod fault;
pub mod line_fault;
pub mod literal;
pub mod names;
mod new_names;
pub mod text_fault;
