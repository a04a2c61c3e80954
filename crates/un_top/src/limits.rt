//! How much the program reads.

/// The most bytes of an input in two parts.
pub const INPUT: usize = 16_777_216;

const _: () = prove!(INPUT == 16_777_216);
