//! The parts of a model as text: its variables with their domains, solutions and their code, precedences with their bound, and all of it
//! as plain facts; and the numbers of an input.
#![tactic(auto)]

pub mod arcs;
pub mod domains;
pub mod emission;
pub mod facts;
pub mod input;
pub mod solution;
pub mod text;
pub mod variables;
