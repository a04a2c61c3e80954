//! Numbers of things, which are below 2^32: more things are not held in memory.

ghost use Rattle.std.specs.Prelude.{◌≡◌, ◌+◌, ◌≤◌, ◌^◌, IfOk, IfErr};

use crate::memory_error::NoMemory;

/// The number of a thing.
pub fn number(n: usize) -> Result<u32, NoMemory>
    ensures number { IfOk result (λ k. k ≡ n) }
    ensures past { IfErr result (λ _. 2 ^ 32 ≤ n) }
{
    match u32::try_from(n) {
        Ok(k) => Ok(k),
        Err(_) => Err(NoMemory),
    }
}

/// The number that stands so many places after `n`.
pub fn later(n: u32, count: u32) -> Result<u32, NoMemory>
    ensures later { IfOk result (λ k. k ≡ n + count) }
    ensures past { IfErr result (λ _. 2 ^ 32 ≤ n + count) }
{
    match n.checked_add(count) {
        Some(k) => Ok(k),
        None => Err(NoMemory),
    }
}

/// The number that stands so many places after `n`.
pub fn advance(n: u32, count: usize) -> Result<u32, NoMemory>
    ensures later { IfOk result (λ k. k ≡ n + count) }
    ensures past { IfErr result (λ _. 2 ^ 32 ≤ n + count) }
{
    let more = number(count)?;
    later(n, more)
}
