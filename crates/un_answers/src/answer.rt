//! What a run of a program comes to: a text for standard output, what is told on standard error, and how it ends.

ghost use Rattle.std.specs.Prelude.{◌≡◌, []};
ghost use Rattle.un_outside.specs.declared.status.Status.{Status};

use std::alloc::Global;
use un_base::memory_error::NoMemory;
use un_ir::text::{put_number, put_text};
use un_outside::status::Status;

/// What a run comes to.
#[derive(Drop)]
pub struct Answer {
    /// What goes to standard output.
    pub out: Vec<u8>,
    /// What is told on standard error before the status has its line.
    pub told: Vec<u8>,
    /// How the run ends.
    pub status: Status,
}

impl Answer {
    /// A whole output.
    pub fn done(alloc: Global, out: Vec<u8>) -> Answer
        ensures out { result.out.items ≡ out.items }
        ensures told { result.told.items ≡ [] }
        ensures status { result.status ≡ Status.Done }
    {
        Answer {
            out,
            told: Vec::new(alloc),
            status: Status::Done,
        }
    }

    /// No output, for this cause.
    pub fn failed(alloc: Global, status: Status) -> Answer
        ensures out { result.out.items ≡ [] }
        ensures told { result.told.items ≡ [] }
        ensures status { result.status ≡ status }
    {
        Answer::told(alloc, Vec::new(alloc), status)
    }

    /// No output, for a cause that is told in words.
    pub fn told(alloc: Global, told: Vec<u8>, status: Status) -> Answer
        ensures out { result.out.items ≡ [] }
        ensures told { result.told.items ≡ told.items }
        ensures status { result.status ≡ status }
    {
        Answer {
            out: Vec::new(alloc),
            told,
            status,
        }
    }
}

/// Appends the line of a text and a number.
fn put_numbered(out: &mut Vec<u8>, before: &[u8], number: u32) -> Result<(), NoMemory> {
    put_text(out, before)?;
    put_number(out, u64::from(number))?;
    put_text(out, b"\n")
}

/// Appends the line for a status to what is told; a fault of a text that was told in words has none.
///
/// # Errors
/// `NoMemory` where there is no memory for the line.
pub fn put_cause(told: &mut Vec<u8>, status: Status) -> Result<(), NoMemory> {
    match status {
        Status::Usage { word } => put_numbered(told, b"usage: word ", word),
        Status::TextFault { line, .. } if told.is_empty() => {
            put_numbered(told, b"bad function: line ", line)
        }
        Status::BadReport { line } => put_numbered(told, b"bad report: line ", line),
        Status::ReadFault => put_text(told, b"read fault\n"),
        Status::WriteFault => put_text(told, b"write fault\n"),
        Status::NoMemory => put_text(told, b"no memory\n"),
        _ => Ok(()),
    }
}
