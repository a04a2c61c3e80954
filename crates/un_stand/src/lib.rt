//! Where a walk over boxes stands, with an engine at what rounds leave of the box there: those of a model, or of one of its blocks.
#![tactic(auto)]

pub mod jump;
pub mod room;
pub mod rules;
