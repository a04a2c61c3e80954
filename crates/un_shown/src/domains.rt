//! Domains as text.

use un_base::memory_error::NoMemory;
use un_domains::domain::Domain;
use un_ir::text::{put_number, put_text};

/// Appends the values from `low` to `high`, which are one or more.
fn put_run(out: &mut Vec<u8>, low: u32, high: u32) -> Result<(), NoMemory> {
    put_number(out, u64::from(low))?;
    if low == high {
        return Ok(());
    }
    put_text(out, b"..")?;
    put_number(out, u64::from(high))
}

/// Appends rising values, those that follow one another as one run.
pub fn put_values(out: &mut Vec<u8>, values: &[u32]) -> Result<(), NoMemory> {
    let Some(first) = values.first() else {
        return Ok(());
    };
    let mut low = *first;
    let mut high = *first;
    for value in values {
        if *value > high.saturating_add(1) {
            put_run(out, low, high)?;
            put_text(out, b" ")?;
            low = *value;
        }
        high = *value;
    }
    put_run(out, low, high)
}

/// Appends the values of a domain.
pub(crate) fn put_domain(out: &mut Vec<u8>, domain: &Domain) -> Result<(), NoMemory> {
    match domain {
        Domain::Range { lo, hi } => put_run(out, *lo, *hi),
        Domain::Set(values) => put_values(out, values.as_slice()),
    }
}
