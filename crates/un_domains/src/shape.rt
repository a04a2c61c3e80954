//! Where the sets of variables stand in one list of words.

use crate::domain::Domain;

/// Where a variable's set stands among the store's words: its first place, then the place after its last, and then words of bits.
#[derive(Drop)]
pub struct Shape {
    /// The place of the first of these words.
    pub at: usize,
    /// How many words of bits there are: 64 places have one.
    pub n: usize,
    /// The variable's first domain: the value at a place is that domain's.
    pub first: Domain,
}
