//! What each solution of a model owes to the registers: what carries a value in a cycle, and how many values leave the registers at a
//! call. The propagators of pressure: in each cycle, and across each call, there is room for the values that are there.
#![tactic(auto)]

pub mod across;
pub mod carrier;
pub mod live;
