//! LLVM's intermediate language, as text: a function of a module with its blocks and instructions, whose values are words, truth values and
//! addresses; what is none of these is refused with its line.
//! No clause is asked of what is read but that it is read safely and that reading ends.
#![tactic(auto)]

mod calls;
mod cursor;
pub mod function;
mod instructions;
pub mod lists;
mod memory;
pub mod module;
mod places;
pub mod refusal;
mod statements;
mod terminators;
mod token;
mod types;
