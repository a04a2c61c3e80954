//! The sides of a decision.

/// The side of a decision on a variable at a value: the values that are at most that value, or those above it.
#[derive(Clone, Copy)]
pub enum Side {
    AtMost,
    Above,
}
