//! A walk over a tree: where it stands, on its way down to sides and up again. It knows no model and no propagators.
#![tactic(auto)]

pub mod branch;
pub mod stand;
