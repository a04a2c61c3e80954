//! Lists that grow.

use un_base::memory_error::NoMemory;

/// Adds an item to a list.
pub fn push<T: Drop>(items: &mut Vec<T>, item: T) -> Result<(), NoMemory> {
    match items.push(item) {
        Ok(()) => Ok(()),
        Err(_) => Err(NoMemory),
    }
}
