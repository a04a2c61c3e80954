//! Ranges of numbers, as the registers of a space, which contracts see as lists.

ghost use Rattle.std.specs.Prelude.{◌≡◌, ◌+◌, ◌<◌, ◌^◌, length};
ghost use Rattle.std.specs.List.{list_any, range_with_len};
ghost use Rattle.un_domains.specs.Sets.{has, set_at};

use std::marker::Model;
use un_base::ids::VarId;
use un_domains::window::Window;

/// So many numbers from a first one on, rising.
#[derive(Drop)]
pub struct Span {
    first: u32,
    count: u32,
}

impl Model for Span {
    ghost use Rattle.std.specs.Prelude.{ℕ, List, ◌+◌, ◌<◌, ◌^◌};
    ghost use Rattle.std.specs.List.{range_with_len};

    ghost Value = { List ℕ };

    ghost view = { λ s. range_with_len s.first s.count };

    ghost invariant = { λ s. s.first + s.count < 2 ^ 32 };
}

/// Whether a number is one of so many from `first` on.
fn is_from(first: u32, count: u32, n: u32) -> bool
    ensures { result ≡ has (range_with_len first count) n }
{
    if n < first {
        return false;
    }
    n - first < count
}

/// Whether a variable has one of so many numbers from `first` on.
fn meets_range(w: &Window<'_>, v: VarId, first: u32, count: u32) -> bool
    requires there { v.0 < length w.now.store.now.sets }
    requires small { first + count < 2 ^ 32 }
    ensures { result ≡ list_any (has (set_at w.now.store.now.sets v.0)) (range_with_len first count) }
{
    for r in first..first + count {
        if w.has(v, r) {
            return true;
        }
    }
    false
}

impl Span {
    /// So many numbers from `first` on.
    pub fn new(first: u32, count: u32) -> Span
        requires { first + count < 2 ^ 32 }
        ensures { result ≡ range_with_len first count }
    {
        Span { first, count }
    }

    /// Whether a number is one of the span's.
    pub fn contains(&self, n: u32) -> bool
        ensures { result ≡ has self.now n }
    {
        is_from(self.first, self.count, n)
    }

    /// Whether a variable has a value that is one of the span's.
    pub fn meets(&self, w: &Window<'_>, v: VarId) -> bool
        requires { v.0 < length w.now.store.now.sets }
        ensures { result ≡ list_any (has (set_at w.now.store.now.sets v.0)) self.now }
    {
        meets_range(w, v, self.first, self.count)
    }
}
