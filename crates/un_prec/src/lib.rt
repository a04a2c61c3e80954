//! Propagators of precedence: one time at least so much after another, and the cost of ends.
#![tactic(auto)]

pub mod before;
pub mod below;
pub mod inside;
pub mod last;
pub mod link;
pub mod reads;
pub mod rules;
