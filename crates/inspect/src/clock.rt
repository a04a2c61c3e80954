//! Means of times, as text.

use std::alloc::Global;
use std::time::{CpuClock, Duration};
use un_base::memory_error::NoMemory;
use un_ir::text::put_text;

/// The time of the processor that was used so far; none where the clock fails.
pub fn now(rt: &impl CpuClock) -> Duration {
    match rt.thread_cpu_time() {
        Ok(time) => time,
        Err(_) => Duration::ZERO,
    }
}

/// The mean time of a call in nanoseconds, where so many calls began at a time and have ended now.
pub fn mean(rt: &impl CpuClock, start: Duration, calls: u64) -> u64 {
    let all = now(rt).saturating_sub(start).as_nanos();
    (all / u128::from(calls.max(1))).min(u128::from(u64::MAX)) as u64
}

/// Appends the line of a part's mean time.
pub(crate) fn put_time(
    alloc: Global,
    out: &mut Vec<u8>,
    part: &str,
    mean: u64,
) -> Result<(), NoMemory> {
    let line = format!(in alloc; "{part:<12} {mean:>12} ns\n")?;
    put_text(out, line.as_bytes())
}
