//! Why there is no outcome.

ghost use Rattle.std.specs.Prelude.{◌≡◌};
ghost use Rattle.un_runs.specs.Refusals.{function_refused, start_refused, listing_refused};

use un_base::memory_error::NoMemory;
use un_listing_reader::read::ListingError;
use un_reader::error::ReadError;
use un_start::read::StartError;

/// There was no memory, the function's text has a fault, or a line of another part is bad, counted from 1 in that part.
#[derive(Clone, Copy)]
pub enum Refused {
    NoMemory,
    TextFault { line: u32, code: u8 },
    BadSecond { line: u32 },
}

impl From<NoMemory> for Refused {
    ghost use Rattle.std.specs.Prelude.{◌≡◌};
    ghost use Rattle.un_runs.specs.declared.refused.Refused.TheVariants.{NoMemory};

    ghost from_gives = { λ _ error. error ≡ NoMemory };

    fn from(_error: NoMemory) -> Refused {
        Refused::NoMemory
    }
}

/// The answer where a function's text is not read.
pub(crate) fn function_refused(error: ReadError) -> Refused
    ensures { result ≡ function_refused error }
{
    match error {
        ReadError::NoMemory => Refused::NoMemory,
        ReadError::TextFault { line, code } => Refused::TextFault { line, code },
    }
}

/// The answer where a start's text is not read.
pub(crate) fn start_refused(error: StartError) -> Refused
    ensures { result ≡ start_refused error }
{
    match error {
        StartError::NoMemory => Refused::NoMemory,
        StartError::BadStart { line } => Refused::BadSecond { line },
    }
}

/// The answer where a listing is not read.
pub(crate) fn listing_refused(error: ListingError) -> Refused
    ensures { result ≡ listing_refused error }
{
    match error {
        ListingError::NoMemory => Refused::NoMemory,
        ListingError::BadListing { line } => Refused::BadSecond { line },
    }
}
