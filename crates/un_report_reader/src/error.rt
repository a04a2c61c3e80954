//! Why a text is no report.

use thiserror::Error;
use un_base::memory_error::NoMemory;

/// Why there is no report: there was no memory, or a line is bad, counted from 1.
#[derive(Clone, Copy, Debug, Error)]
pub enum ReportError {
    #[error("no memory")]
    NoMemory,
    #[error("line {line}: bad report")]
    BadReport { line: u32 },
}

impl From<NoMemory> for ReportError {
    ghost use Rattle.std.specs.Prelude.{◌≡◌};
    ghost use Rattle.un_report_reader.specs.declared.error.ReportError.TheVariants.{NoMemory};

    ghost from_gives = { λ _ error. error ≡ NoMemory };

    fn from(_error: NoMemory) -> ReportError {
        ReportError::NoMemory
    }
}
