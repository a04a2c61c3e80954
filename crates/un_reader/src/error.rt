//! What the reader answers other than a function.

use std::alloc::AllocError;
use thiserror::Error;
use un_base::memory_error::NoMemory;

/// Why there is no function: there was no memory, or the text has a fault. A fault's line is counted from 1, and is 0
/// where the text is too long. Its code is that of `Fault`.
#[derive(Clone, Copy, Debug, PartialEq, Eq, Error)]
pub enum ReadError {
    #[error("no memory")]
    NoMemory,
    #[error("line {line}: fault {code}")]
    TextFault { line: u32, code: u8 },
}

impl From<NoMemory> for ReadError {
    ghost use Rattle.std.specs.Prelude.{◌≡◌};
    ghost use Rattle.un_reader.specs.declared.error.ReadError.TheVariants.{NoMemory};

    ghost from_gives = { λ _ e. e ≡ NoMemory };

    fn from(_error: NoMemory) -> ReadError {
        ReadError::NoMemory
    }
}

impl From<AllocError> for ReadError {
    ghost use Rattle.std.specs.Prelude.{◌≡◌};
    ghost use Rattle.un_reader.specs.declared.error.ReadError.TheVariants.{NoMemory};

    ghost from_gives = { λ _ e. e ≡ NoMemory };

    fn from(_error: AllocError) -> ReadError {
        ReadError::NoMemory
    }
}
