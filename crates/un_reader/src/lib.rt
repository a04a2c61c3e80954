//! Reading functions: the first fault of a text, or the function that it is.
#![tactic(auto)]

pub mod build;
pub mod check;
pub mod draft;
pub mod entry;
pub mod error;
pub mod limits;
pub mod read;
