//! The bounds of a set of places in words of bits: a place is in the set where it is from `lo` to `end` and its bit is
//! set. Bits outside the bounds do not count.

ghost use Rattle.std.specs.Prelude.{◌≡◌, ℕ, ◌+◌, ◌-◌, ◌*◌, ◌^◌, ◌<◌, ◌≤◌, List, length, filter, nat_le, nat_lt, nat_eq, not};
ghost use Rattle.un_domains.specs.Bits.{bit, inside, members, IsTight};

use crate::scan::{last_set, next_set, test};

/// The bounds of a set of places: both are one number where the set is empty.
#[derive(Clone, Copy)]
pub struct Bounds {
    /// The first place of the set.
    pub lo: usize,
    /// The place after its last one.
    pub end: usize,
}

/// Whether place `i` is in the set.
pub fn has(words: &[u64], bounds: Bounds, i: usize) -> bool
    requires { bounds.end ≤ 64 * length words.now }
    ensures { result ≡ inside words.now bounds.lo bounds.end i }
{
    if bounds.lo <= i {
        if i < bounds.end {
            return test(words, i);
        }
    }
    false
}

/// The bounds of the places before `k`.
pub fn before(words: &[u64], bounds: Bounds, k: usize) -> Bounds
    requires { IsTight words.now bounds.lo bounds.end }
    ensures set { members words.now result.lo result.end ≡ filter (λ i. nat_lt i k) (members words.now bounds.lo bounds.end) }
    ensures tight { IsTight words.now result.lo result.end }
    ensures within { result.end ≤ bounds.end }
{
    let lo = bounds.lo;
    if k < bounds.end {
        let stop = k.max(lo);
        let end = last_set(words, lo, stop);
        Bounds { lo, end }
    } else {
        bounds
    }
}

/// The bounds of the places from `k` on.
pub fn from(words: &[u64], bounds: Bounds, k: usize) -> Bounds
    requires { IsTight words.now bounds.lo bounds.end }
    ensures set { members words.now result.lo result.end ≡ filter (λ i. nat_le k i) (members words.now bounds.lo bounds.end) }
    ensures tight { IsTight words.now result.lo result.end }
    ensures within { result.end ≤ bounds.end }
{
    let end = bounds.end;
    if bounds.lo < k {
        let start = k.min(end);
        let lo = next_set(words, start, end);
        Bounds { lo, end }
    } else {
        bounds
    }
}

/// The bounds of place `k` alone, where it is in the set, else of none.
pub fn only(words: &[u64], bounds: Bounds, k: usize) -> Bounds
    requires { IsTight words.now bounds.lo bounds.end }
    ensures set { members words.now result.lo result.end ≡ filter (λ i. nat_eq i k) (members words.now bounds.lo bounds.end) }
    ensures tight { IsTight words.now result.lo result.end }
    ensures within { result.end ≤ bounds.end }
{
    if has(words, bounds, k) {
        Bounds { lo: k, end: k + 1 }
    } else {
        Bounds {
            lo: bounds.lo,
            end: bounds.lo,
        }
    }
}

/// The bounds of the same set, each at a place of the set.
pub fn tighten(words: &[u64], bounds: Bounds) -> Bounds
    requires small { 64 * length words.now ≤ 2 ^ 32 }
    requires within { bounds.end ≤ 64 * length words.now }
    requires order { bounds.lo ≤ bounds.end }
    ensures set { members words.now result.lo result.end ≡ members words.now bounds.lo bounds.end }
    ensures tight { IsTight words.now result.lo result.end }
    ensures within { result.end ≤ bounds.end }
{
    let lo = next_set(words, bounds.lo, bounds.end);
    let end = last_set(words, lo, bounds.end);
    Bounds { lo, end }
}
