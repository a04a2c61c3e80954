//! The values of a domain by their places in it, from 0.

ghost use Rattle.std.specs.Prelude.{◌≡◌, ℕ, ◌+◌, ◌-◌, ◌<◌, ◌≤◌, List, length, nat_le, nat_lt, nat_eq, slice_index, IfSome};
ghost use Rattle.un_domains.specs.Domains.{values_of, value_at, Rises};

use crate::domain::Domain;

/// How many values a domain has.
pub fn count(domain: &Domain) -> usize
    ensures { result ≡ length (values_of domain.now) }
{
    match domain {
        Domain::Range { lo, hi } => {
            if lo <= hi {
                (*hi - *lo) as usize + 1
            } else {
                0
            }
        }
        Domain::Set(values) => values.len(),
    }
}

/// The value at place `i`.
pub fn value_at(domain: &Domain, i: usize) -> u32
    requires { i < length (values_of domain.now) }
    ensures { result ≡ value_at domain.now i }
{
    match domain {
        Domain::Range { lo, hi } => {
            let (first, _last) = (*lo, *hi);
            first + i as u32
        }
        Domain::Set(values) => values.as_slice()[i],
    }
}

/// How many of these rising values are at most `x`, by halves.
fn rank(values: &[u32], x: u32) -> usize
    requires { Rises values.now }
    ensures within { result ≤ length values.now }
    ensures agree { (i : ℕ) → i < length values.now → nat_lt i result ≡ nat_le (slice_index values.now i) x }
{
    let mut low = 0;
    let mut high = values.len();
    while low < high {
        let middle = low + (high - low) / 2;
        if values[middle] <= x {
            low = middle + 1;
        } else {
            high = middle;
        }
    }
    low
}

/// The place of `x` in these rising values, where none is missing between the least and `x`, or between `x` and the greatest: so it is
/// with registers and slots. Else there may be no answer.
fn near(values: &[u32], x: u32) -> Option<usize>
    ensures { IfSome result (λ k. (k < length values.now) × (slice_index values.now k ≡ x)) }
{
    let all = values.len();
    if all == 0 {
        return None;
    }
    let (least, greatest) = (values[0], values[all - 1]);
    if x < least {
        return None;
    }
    let up = (x - least) as usize;
    if up < all {
        if values[up] == x {
            return Some(up);
        }
    }
    if greatest < x {
        return None;
    }
    let down = (greatest - x) as usize;
    if down < all {
        if values[all - 1 - down] == x {
            return Some(all - 1 - down);
        }
    }
    None
}

/// How many of these rising values are at most `x`.
fn count_to(values: &[u32], x: u32) -> usize
    requires { Rises values.now }
    ensures within { result ≤ length values.now }
    ensures agree { (i : ℕ) → i < length values.now → nat_lt i result ≡ nat_le (slice_index values.now i) x }
{
    match near(values, x) {
        Some(k) => k + 1,
        None => rank(values, x),
    }
}

/// How many values are at most `x`: those at the places before it.
pub(crate) fn places_to(domain: &Domain, x: u32) -> usize
    requires { Rises (values_of domain.now) }
    ensures within { result ≤ length (values_of domain.now) }
    ensures agree { (i : ℕ) → i < length (values_of domain.now) → nat_lt i result ≡ nat_le (value_at domain.now i) x }
{
    match domain {
        Domain::Range { lo, .. } => {
            let all = count(domain);
            if x < *lo {
                0
            } else {
                all.min((x - *lo) as usize + 1)
            }
        }
        Domain::Set(values) => count_to(values.as_slice(), x),
    }
}

/// The place of the value `x`, or how many values there are where it is none of them.
pub fn place_of(domain: &Domain, x: u32) -> usize
    requires { Rises (values_of domain.now) }
    ensures within { result ≤ length (values_of domain.now) }
    ensures agree { (i : ℕ) → i < length (values_of domain.now) → nat_eq i result ≡ nat_eq (value_at domain.now i) x }
{
    let after = places_to(domain, x);
    if after > 0 {
        if value_at(domain, after - 1) == x {
            return after - 1;
        }
    }
    count(domain)
}
