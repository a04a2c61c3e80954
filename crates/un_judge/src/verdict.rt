//! What a step log comes to.

/// What a step log comes to.
#[derive(Clone, Copy)]
pub enum StepVerdict {
    /// Each closed leaf has its steps, and no line is left.
    Yes,
    /// The line with this number, from 1, is no step or not allowed, or a dot where no set is empty.
    BadStep(u32),
    /// The log ends before the last leaf does, or goes on behind it.
    Short,
}
