//! One variable's set of places among the words of all: its bounds at `at`, then `n` words of bits.

ghost use Rattle.std.specs.Prelude.{◌≡◌, ℕ, ◌+◌, ◌*◌, ◌/◌, ◌^◌, ◌<◌, ◌≤◌, List, length, filter, nat_lt, nat_le, nat_eq, not, slice_index};
ghost use Rattle.std.specs.Prelude.{slice_set};
ghost use Rattle.un_domains.specs.Bits.{bit, members, IsTight};
ghost use Rattle.un_domains.specs.Shapes.{row_of, places_of, BoundsAnswer, IsPlacesCut, IsCleared, SameBut};

use crate::bounds::{Bounds, before, from, has, only, tighten};
use crate::cut::Cut;
use crate::scan::{WORD, count};
use crate::trail::Words;

/// A variable's words of bits.
pub fn row(words: &[u64], at: usize, n: usize) -> &[u64]
    requires { at + 2 + n ≤ length words.now }
    ensures { result.now ≡ row_of words.now at n }
{
    let rest = &words[at + 2..];
    &rest[..n]
}

/// A variable's bounds.
pub(crate) fn bounds_at(words: &[u64], at: usize) -> Bounds
    requires { at + 2 ≤ length words.now }
    ensures lo { result.lo ≡ slice_index words.now at }
    ensures end { result.end ≡ slice_index words.now (at + 1) }
{
    Bounds {
        lo: words[at] as usize,
        end: words[at + 1] as usize,
    }
}

/// How many places a variable has.
pub fn count_at(words: &[u64], at: usize, n: usize) -> usize
    requires within { at + 2 + n ≤ length words.now }
    requires tight { IsTight (row_of words.now at n) (slice_index words.now at) (slice_index words.now (at + 1)) }
    ensures { result ≡ length (places_of words.now at n) }
{
    let bounds = bounds_at(words, at);
    count(row(words, at, n), bounds.lo, bounds.end)
}

/// Writes a variable's bounds.
fn write(words: &mut Words, at: usize, bounds: Bounds)
    requires within { at + 2 ≤ length words.old.words }
    requires small { at + 2 < 2 ^ 64 }
    ensures words { words.new.words ≡ slice_set (slice_set words.old.words at bounds.lo) (at + 1) bounds.end }
    ensures marked { words.new.marked ≡ words.old.marked }
{
    words.set(at, bounds.lo as u64);
    words.set(at + 1, bounds.end as u64);
}

/// What a change of bounds alone says of the set.
fn answer(old: Bounds, new: Bounds) -> Cut
    ensures { BoundsAnswer old.lo old.end new.lo new.end result }
{
    if new.lo == new.end {
        Cut::Emptied
    } else if new.lo == old.lo && new.end == old.end {
        Cut::Same
    } else {
        Cut::Changed
    }
}

/// Keeps the places before `k`. It takes no memory.
pub(crate) fn keep_before(words: &mut Words, at: usize, n: usize, k: usize) -> Cut
    requires within { at + 2 + n ≤ length words.old.words }
    requires small { at + 2 < 2 ^ 64 }
    requires tight { IsTight (row_of words.old.words at n) (slice_index words.old.words at) (slice_index words.old.words (at + 1)) }
    ensures { IsPlacesCut (λ i. nat_lt i k) at n words.old words.new result }
{
    let all = words.as_slice();
    let old = bounds_at(all, at);
    let new = before(row(all, at, n), old, k);
    write(words, at, new);
    answer(old, new)
}

/// Keeps the places from `k` on. It takes no memory.
pub(crate) fn keep_from(words: &mut Words, at: usize, n: usize, k: usize) -> Cut
    requires within { at + 2 + n ≤ length words.old.words }
    requires small { at + 2 < 2 ^ 64 }
    requires tight { IsTight (row_of words.old.words at n) (slice_index words.old.words at) (slice_index words.old.words (at + 1)) }
    ensures { IsPlacesCut (λ i. nat_le k i) at n words.old words.new result }
{
    let all = words.as_slice();
    let old = bounds_at(all, at);
    let new = from(row(all, at, n), old, k);
    write(words, at, new);
    answer(old, new)
}

/// Keeps place `k` alone. It takes no memory.
pub(crate) fn keep_only(words: &mut Words, at: usize, n: usize, k: usize) -> Cut
    requires within { at + 2 + n ≤ length words.old.words }
    requires small { at + 2 < 2 ^ 64 }
    requires tight { IsTight (row_of words.old.words at n) (slice_index words.old.words at) (slice_index words.old.words (at + 1)) }
    ensures { IsPlacesCut (λ i. nat_eq i k) at n words.old words.new result }
{
    let all = words.as_slice();
    let old = bounds_at(all, at);
    let new = only(row(all, at, n), old, k);
    write(words, at, new);
    answer(old, new)
}

/// Clears the bit of place `k`. It takes no memory.
fn clear(words: &mut Words, at: usize, n: usize, k: usize)
    requires within { at + 2 + n ≤ length words.old.words }
    requires place { k < 64 * n }
    requires small { at + 2 + n < 2 ^ 64 }
    ensures row { IsCleared k (row_of words.old.words at n) (row_of words.new.words at n) }
    ensures outside { SameBut (at + 2 + k / 64) words.old.words words.new.words }
    ensures marked { words.new.marked ≡ words.old.marked }
{
    let i = at + 2 + k / WORD;
    let word = words.get(i);
    words.set(i, word & !(1 << (k % WORD)));
}

/// Takes place `k` away. It takes no memory.
pub(crate) fn drop_place(words: &mut Words, at: usize, n: usize, k: usize) -> Cut
    requires within { at + 2 + n ≤ length words.old.words }
    requires small { at + 2 + n < 2 ^ 64 }
    requires tight { IsTight (row_of words.old.words at n) (slice_index words.old.words at) (slice_index words.old.words (at + 1)) }
    requires some { 0 < length (places_of words.old.words at n) }
    ensures { IsPlacesCut (λ i. not (nat_eq i k)) at n words.old words.new result }
{
    let all = words.as_slice();
    let old = bounds_at(all, at);
    if !has(row(all, at, n), old, k) {
        return Cut::Same;
    }
    clear(words, at, n, k);
    let new = tighten(row(words.as_slice(), at, n), old);
    write(words, at, new);
    if new.lo == new.end {
        Cut::Emptied
    } else {
        Cut::Changed
    }
}
