//! What a cut of a store did.

/// `Emptied` where the variable has no value left, `Same` where it lost none, else `Changed`.
#[derive(Clone, Copy, PartialEq)]
pub enum Cut {
    Same,
    Changed,
    Emptied,
}
