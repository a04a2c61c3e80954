//! What is posted of a model's single operations, its edges, its arcs, its frame and its cost.
#![tactic(auto)]

pub mod post_arcs;
pub mod post_edges;
pub mod post_frame;
pub mod post_limit;
pub mod post_own;
pub mod post_places;
pub mod post_reads;
pub mod post_spaces;
