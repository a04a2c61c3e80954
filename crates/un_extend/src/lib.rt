//! Extended functions: optional copies of values and operands, with the alternatives of each operand.
#![tactic(auto)]

mod copies;
pub mod extend;
mod ops;
mod values;
