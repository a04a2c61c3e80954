//! Code by another hand: a listing as `alloc` prints it or as LLVM prints Hexagon's assembly, its packets under their blocks, which blocks of
//! the function they are, the cycles that they wait, and what all that costs beside this project's code; and starts from which both may be run.
//! No clause is asked of these texts and figures but that they are made safely and end.
#![tactic(auto)]

pub mod listing;
pub mod matched;
pub mod plain;
pub mod reader;
pub mod rows;
pub mod spelling;
pub mod starts;
pub mod subset;
pub mod text;
pub mod unread;
pub mod waits;
