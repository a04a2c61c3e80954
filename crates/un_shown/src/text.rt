//! A number between two texts.

use un_base::memory_error::NoMemory;
use un_ir::text::{put_number, put_text};

/// Appends a number between two texts.
pub fn put_between(out: &mut Vec<u8>, before: &[u8], n: u64, after: &[u8]) -> Result<(), NoMemory> {
    put_text(out, before)?;
    put_number(out, n)?;
    put_text(out, after)
}
