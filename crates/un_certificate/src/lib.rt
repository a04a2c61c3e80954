//! What a tree says of a model under a limit on the cost: each solution below the limit is in an open leaf's box, and none costs less
//! than the tree's bound.
#![tactic(auto)]

pub mod bound;
pub mod laws;
pub mod split;
