//! Stores with the sets of a text, and whether a store has these sets. Sets stand between spaces, their values or runs of values between
//! commas, as `1,5-9`.

ghost use Rattle.std.specs.Prelude.{◌≡◌, ◌<◌, length, All, IfOk, MatchOption, ⊤, true};
ghost use Rattle.un_domains.specs.Domains.{IsDomain, Rises};
ghost use Rattle.un_domains.specs.Sets.{NoneEmpty};

use crate::words::{cut, number};
use std::alloc::{AllocError, Global};
use un_base::ids::VarId;
use un_base::memory_error::NoMemory;
use un_domains::domain::Domain;
use un_domains::store::Store;
use un_lists::items::Items;

/// Whether each value is less than the next.
fn rises(values: &[u32]) -> bool
    ensures { result ≡ true → Rises values.now }
{
    for i in 1..values.len() {
        if values[i - 1] >= values[i] {
            return false;
        }
    }
    true
}

/// The domain of these values, where they are one.
fn listed(alloc: Global, values: Items<u32>) -> Result<Option<Domain>, AllocError>
    ensures { IfOk result (λ d. MatchOption d ⊤ IsDomain) }
{
    let few = !values.is_empty() && values.len() <= 1000;
    if few && rises(values.as_slice()) {
        let d = Domain::of(alloc, values.into_vec())?;
        Ok(Some(d))
    } else {
        Ok(None)
    }
}

/// The domain of a run of values, where it is one.
pub(crate) fn range(lo: u32, hi: u32) -> Option<Domain>
    ensures { MatchOption result ⊤ IsDomain }
{
    if lo <= hi && hi < 10_000 {
        Some(Domain::Range { lo, hi })
    } else {
        None
    }
}

/// The numbers of a text, between commas.
fn numbers(alloc: Global, text: &[u8]) -> Result<Items<u32>, AllocError> {
    let mut items = Items::new(alloc);
    for word in text.split(|b| *b == b',') {
        items.push(number(word))?;
    }
    Ok(items)
}

/// The domain of a set: a range where it is one run, else a list.
fn domain(alloc: Global, set: &[u8]) -> Result<Option<Domain>, AllocError>
    ensures { IfOk result (λ o. MatchOption o ⊤ IsDomain) }
{
    let (lo, hi) = cut(set, b'-');
    if !hi.is_empty() {
        return Ok(range(number(lo), number(hi)));
    }
    let values = numbers(alloc, set)?;
    listed(alloc, values)
}

/// The domains of variables with the sets of a text, where each is one.
fn domains(alloc: Global, sets: &[u8]) -> Result<Option<Vec<Domain>>, AllocError>
    ensures { IfOk result (λ o. MatchOption o ⊤ (λ v. All IsDomain v.items)) }
{
    let mut all = Vec::new(alloc);
    for set in sets.split(|b| *b == b' ') {
        match domain(alloc, set)? {
            None => return Ok(None),
            Some(domain) => all.push(domain)?,
        }
    }
    Ok(Some(all))
}

/// The store of variables with the sets of a text.
pub(crate) fn store_of(alloc: Global, sets: &[u8]) -> Result<Option<Store>, NoMemory>
    ensures { IfOk result (λ o. MatchOption o ⊤ (λ s. NoneEmpty s.sets)) }
{
    match domains(alloc, sets)? {
        Some(all) => {
            if all.len() > 1000 {
                return Ok(None);
            }
            let store = Store::new(alloc, all)?;
            Ok(Some(store))
        }
        None => Ok(None),
    }
}

/// How many values from `lo` to `hi` a variable has.
fn held(store: &Store, v: VarId, lo: u32, hi: u32) -> u32
    requires { v.0 < length store.now.sets }
{
    let mut count: u32 = 0;
    for x in lo..hi {
        if store.has(v, x) {
            count = count.saturating_add(1);
        }
    }
    if store.has(v, hi) {
        count.saturating_add(1)
    } else {
        count
    }
}

/// How many values a run has, where a variable has all of them, and 0 where it lacks one.
fn run(store: &Store, v: VarId, word: &[u8]) -> u32
    requires { v.0 < length store.now.sets }
{
    let (first, last) = cut(word, b'-');
    let lo = number(first);
    let hi = if last.is_empty() { lo } else { number(last) };
    let size = hi.saturating_sub(lo).saturating_add(1);
    if held(store, v, lo, hi) == size {
        size
    } else {
        0
    }
}

/// Whether a variable has the values of a set and no other. `none` is the empty set.
fn has_set(store: &Store, v: VarId, set: &[u8]) -> bool
    requires { v.0 < length store.now.sets }
{
    let mut count: u32 = 0;
    for word in set.split(|b| *b == b',') {
        let size = run(store, v, word);
        if size == 0 {
            return set == b"none".as_slice() && store.size(v) == 0;
        }
        count = count.saturating_add(size);
    }
    store.size(v) == count
}

/// Whether each variable has the set at its place in a text, and there are no other variables.
pub(crate) fn has_sets(store: &Store, sets: &[u8]) -> bool {
    let mut v: u32 = 0;
    for set in sets.split(|b| *b == b' ') {
        if v >= store.len() || !has_set(store, VarId(v), set) {
            return false;
        }
        v = v.saturating_add(1);
    }
    v == store.len()
}
