//! The clauses of a solution that values of a model's variables break, and whether they break none.
#![tactic(auto)]

mod bounds;
mod clauses;
mod congruences;
mod frame;
mod loose;
mod occupations;
mod packets;
pub mod solution;
pub mod violations;
