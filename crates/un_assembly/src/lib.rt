//! Code as assembly that LLVM's assembler for Hexagon takes and a linker links.
//! No clause is asked of these texts but that they are made safely and end.
#![tactic(auto)]

pub mod assembly;
mod packets;
