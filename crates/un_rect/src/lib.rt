//! Propagators of rectangles: temporaries in registers over cycles.
#![tactic(auto)]

pub mod apart;
mod checks;
mod clashes;
pub mod clobber;
mod extents;
mod left;
mod opened;
mod operand;
pub mod operands;
mod orders;
pub mod spans;
mod values;
