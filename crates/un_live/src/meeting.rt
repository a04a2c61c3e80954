//! What a block does to a name first.

use std::alloc::AllocError;

/// What operations and the terminator behind them do to a name first: read it, assign it, or neither.
#[derive(Copy)]
pub enum Meeting {
    Read,
    Assigned,
    Neither,
}

impl Clone for Meeting {
    ghost use Rattle.std.specs.Prelude.{◌≡◌};

    ghost is_clone = { λ a b. b ≡ a };

    fn clone(&self) -> Result<Self, AllocError> {
        Ok(*self)
    }
}
