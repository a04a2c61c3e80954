//! Functions of LLVM's in the input language: from values that are assigned once to names that are assigned many times, and to the
//! operations that the language has.
//! No clause is asked of these texts but that they are made safely and end.
#![tactic(auto)]

mod arithmetic;
mod bits;
mod body;
mod coalesce;
mod comparisons;
mod division;
mod edges;
mod flow;
mod frequency;
pub mod import;
mod instructions;
mod limits;
mod live;
mod loops;
mod lowering;
mod memory;
mod names;
mod print;
mod reuse;
mod tidy;
