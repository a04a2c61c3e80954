//! The words of a text's lines and the shapes of lines: from bytes to lines as they are spelled.
#![tactic(auto)]

pub mod forms;
pub mod line;
pub mod number;
pub mod pieces;
pub mod shape;
pub mod slot;
pub mod token;
pub mod words;
