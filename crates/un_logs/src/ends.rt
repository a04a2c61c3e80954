//! The least and the greatest values that are left in a box without an empty set: looks that count no values.

ghost use Rattle.std.specs.Prelude.{◌≡◌, ◌<◌, ◌≤◌, ◌^◌, ℕ, true};
ghost use Rattle.un_domains.specs.Sets.{set_at, has, NoneEmpty};
ghost use Rattle.un_steps.specs.Found.{operation_of};
ghost use Rattle.un_steps.specs.Words.{cycles, least_of, greatest_of};

use un_base::ids::VarId;
use un_domains::store::Store;
use un_steps::operation::{Found, time};

/// The least value that is left.
pub(crate) fn least(s: &Store, v: VarId) -> Option<u32>
    requires { NoneEmpty s.now.sets }
    ensures { result ≡ least_of (set_at s.now.sets v.0) }
{
    if v.0 >= s.len() {
        return None;
    }
    Some(s.min(v))
}

/// The greatest value that is left.
pub(crate) fn greatest(s: &Store, v: VarId) -> Option<u32>
    requires { NoneEmpty s.now.sets }
    ensures { result ≡ greatest_of (set_at s.now.sets v.0) }
{
    if v.0 >= s.len() {
        return None;
    }
    Some(s.max(v))
}

/// One more than the greatest value that is left, 0 where there is none.
pub(crate) fn end(s: &Store, v: VarId) -> u64
    requires { NoneEmpty s.now.sets }
    ensures above { (y : ℕ) → has (set_at s.now.sets v.0) y ≡ true → y < result }
    ensures small { result ≤ 2 ^ 32 }
{
    match greatest(s, v) {
        None => 0,
        Some(last) => u64::from(last) + 1,
    }
}

/// The least cycle that is left to an operation.
pub(crate) fn least_cycle(s: &Store, p: &Found<'_>) -> Option<u32>
    requires { NoneEmpty s.now.sets }
    ensures { result ≡ least_of (cycles s.now.sets (operation_of p.now)) }
{
    match time(p) {
        None => Some(0),
        Some(v) => least(s, v),
    }
}

/// The greatest cycle that is left to an operation.
pub(crate) fn greatest_cycle(s: &Store, p: &Found<'_>) -> Option<u32>
    requires { NoneEmpty s.now.sets }
    ensures { result ≡ greatest_of (cycles s.now.sets (operation_of p.now)) }
{
    match time(p) {
        None => Some(0),
        Some(v) => greatest(s, v),
    }
}
