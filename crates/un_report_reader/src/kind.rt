//! The kinds of answers.

/// What a report's answer is: code, that there is no solution, or that the search stopped before it knew.
#[derive(Clone, Copy)]
pub enum Kind {
    Code,
    Infeasible,
    Spent,
}
