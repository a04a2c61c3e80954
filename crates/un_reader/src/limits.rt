//! The limit of a function's text beside those of the function.

/// How many bytes a text may have.
pub const TEXT: usize = 262_144;
