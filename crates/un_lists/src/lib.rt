//! Lists of the project's own over the collections, which contracts see as the list of their items.
#![tactic(auto)]

pub mod exact;
pub mod few;
pub mod items;
pub mod shared;
