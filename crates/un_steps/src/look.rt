//! Looks at the values that a box leaves to a variable.

ghost use Rattle.std.specs.Prelude.{◌≡◌, ◌↔◌, ◌^◌, ◌<◌, ◌≤◌, ℕ, nat_eq, IsTrue, true, List, [], ◌∷◌, filter, length};
ghost use Rattle.un_domains.specs.Sets.{set_at, has};
ghost use Rattle.un_steps.specs.Words.{least_of, greatest_of, is_positive, IsNeverZero, IsZeroAlone};

use un_base::ids::VarId;
use un_domains::store::Store;

/// Whether `y` is left to a variable.
pub fn has(s: &Store, v: VarId, y: u32) -> bool
    ensures { result ≡ has (set_at s.now.sets v.0) y }
{
    v.0 < s.len() && s.has(v, y)
}

/// How many values are left to a variable.
pub fn size(s: &Store, v: VarId) -> u32
    ensures value { result ≡ length (set_at s.now.sets v.0) }
    ensures there { 0 < result → v.0 < length s.now.sets }
{
    if v.0 >= s.len() {
        return 0;
    }
    s.size(v)
}

/// The least value that is left.
pub fn least(s: &Store, v: VarId) -> Option<u32>
    ensures { result ≡ least_of (set_at s.now.sets v.0) }
{
    if size(s, v) == 0 {
        return None;
    }
    Some(s.min(v))
}

/// The greatest value that is left.
pub fn greatest(s: &Store, v: VarId) -> Option<u32>
    ensures { result ≡ greatest_of (set_at s.now.sets v.0) }
{
    if size(s, v) == 0 {
        return None;
    }
    Some(s.max(v))
}

/// One more than the greatest value that is left, 0 where there is none.
pub fn end(s: &Store, v: VarId) -> u64
    ensures above { (y : ℕ) → has (set_at s.now.sets v.0) y ≡ true → y < result }
    ensures small { result ≤ 2 ^ 32 }
{
    if size(s, v) == 0 {
        return 0;
    }
    u64::from(s.max(v)) + 1
}

/// The least value other than 0 that is left.
pub(crate) fn least_positive(s: &Store, v: VarId) -> Option<u32>
    ensures { result ≡ least_of (filter is_positive (set_at s.now.sets v.0)) }
{
    let end = end(s, v);
    for y in 1..end {
        if has(s, v, y as u32) {
            return Some(y as u32);
        }
    }
    None
}

/// Whether a variable, where there is one, cannot be 0.
pub(crate) fn is_never_zero(s: &Store, v: Option<VarId>) -> bool
    ensures { IsTrue result ↔ IsNeverZero s.now.sets v }
{
    match v {
        None => true,
        Some(w) => !has(s, w, 0),
    }
}

/// Whether `y` alone is left.
pub fn is_only(s: &Store, v: VarId, y: u32) -> bool
    ensures { IsTrue result ↔ (set_at s.now.sets v.0 ≡ y ∷ []) }
{
    if size(s, v) != 1 {
        return false;
    }
    has(s, v, y)
}

/// Whether a variable, where there is one, is 0.
pub(crate) fn is_zero_alone(s: &Store, v: Option<VarId>) -> bool
    ensures { IsTrue result ↔ IsZeroAlone s.now.sets v }
{
    match v {
        None => false,
        Some(w) => is_only(s, w, 0),
    }
}
