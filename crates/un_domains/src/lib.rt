//! Finite sets of numbers, one for each variable, with marks that can be taken back.
#![tactic(auto)]

pub mod bounds;
pub mod cut;
pub mod domain;
pub mod ends;
pub mod levels;
pub mod places;
pub mod rows;
pub mod scan;
pub mod shape;
pub mod side;
pub mod store;
pub mod trail;
pub mod window;
