//! The registers and slots in which what a block defines may be.

ghost use Rattle.std.specs.Prelude.{◌≡◌, ◌+◌, ◌<◌, ◌&&◌, ◌||◌, nat_le, ℕ, false, IfOk, Some, filter, length, map};
ghost use Rattle.std.specs.List.{list_any, range_with_len};
ghost use Rattle.un_domains.specs.Sets.{has};
ghost use Rattle.un_isa.specs.declared.reg.TheConstants.{FIRST_SLOT, SLOTS};
ghost use Rattle.un_rooms.specs.Marked.{is_marked};
ghost use Rattle.un_sites.specs.Pressures.{in_domain, may_have, room_of, registers_among, spared_room, block_room};
ghost use Rattle.un_sites.specs.Places.{definers_of};
ghost use Rattle.un_sites.specs.Sites.{place_of, definer_at, definers_in};

use crate::carried::is_marked;
use crate::post_aparts::temps_in;
use std::alloc::{AllocError, Global};
use un_base::memory_error::NoMemory;
use un_domains::domain::Domain;
use un_isa::reg::{FIRST_SLOT, SLOTS};
use un_isa::reg_set::is_in_mask;
use un_model::model::Model;
use un_sites::sites::{Site, Spot, sites_at};

/// One more than the greatest number of a register or slot.
const PLACES: u32 = FIRST_SLOT + SLOTS;

/// Marks the places from `lo` to `hi`.
fn mark_range(marks: &mut [bool], lo: u32, hi: u32)
    ensures len { length marks.new ≡ length marks.old }
    ensures is { (r : ℕ) → r < length marks.old → is_marked marks.new r ≡ (is_marked marks.old r || (nat_le lo r && nat_le r hi)) }
{
    let end = marks.len().min(hi as usize + 1);
    let start = end.min(lo as usize);
    for i in start..end {
        marks[i] = true;
    }
}

/// Marks these places.
fn mark_each(marks: &mut [bool], values: &[u32])
    ensures len { length marks.new ≡ length marks.old }
    ensures is { (r : ℕ) → r < length marks.old → is_marked marks.new r ≡ (is_marked marks.old r || has values.now r) }
{
    for v in values {
        let i = *v as usize;
        if i < marks.len() {
            marks[i] = true;
        }
    }
}

/// Marks the places of a variable with this domain.
fn mark_domain(marks: &mut [bool], domain: &Domain)
    ensures len { length marks.new ≡ length marks.old }
    ensures is { (r : ℕ) → r < length marks.old → is_marked marks.new r ≡ (is_marked marks.old r || in_domain (Some domain.now) r) }
{
    match domain {
        Domain::Range { lo, hi } => mark_range(marks, *lo, *hi),
        Domain::Set(values) => mark_each(marks, values.as_slice()),
    }
}

/// Marks the places in which what a definer gives may be.
fn mark_site(marks: &mut [bool], domains: &[Domain], site: &Site<'_>)
    ensures len { length marks.new ≡ length marks.old }
    ensures is { (r : ℕ) → r < length marks.old → is_marked marks.new r
        ≡ (is_marked marks.old r || may_have domains.now r (definer_at site.now)) }
{
    match domains.get(site.reg.0 as usize) {
        None => {}
        Some(domain) => mark_domain(marks, domain),
    }
}

/// Marks the places in which something of what these definers give may be.
fn mark_sites(marks: &mut [bool], domains: &[Domain], sites: &[Site<'_>])
    ensures len { length marks.new ≡ length marks.old }
    ensures is { (r : ℕ) → r < length marks.old → is_marked marks.new r
        ≡ (is_marked marks.old r || list_any (may_have domains.now r) (definers_in sites.now)) }
{
    for site in sites {
        mark_site(marks, domains, site);
    }
}

/// So many numbers of which none is marked.
fn no_marks(alloc: Global, count: usize) -> Result<Vec<bool>, AllocError>
    ensures len { IfOk result (λ marks. length marks.items ≡ count) }
    ensures none { IfOk result (λ marks. (r : ℕ) → is_marked marks.items r ≡ false) }
{
    let marks = vec![in alloc; false; count]?;
    Ok(marks)
}

/// Marks of the first `count` places in which something of what these definers give may be.
fn marks_of(
    alloc: Global,
    domains: &[Domain],
    sites: &[Site<'_>],
    count: u32,
) -> Result<Vec<bool>, AllocError>
    ensures { IfOk result (λ marks. (r : ℕ) → r < count
        → is_marked marks.items r ≡ list_any (may_have domains.now r) (definers_in sites.now)) }
{
    let mut marks = no_marks(alloc, count as usize)?;
    mark_sites(marks.as_mut_slice(), domains, sites);
    Ok(marks)
}

/// The places that are marked, rising.
fn marked_places(alloc: Global, marks: &[bool]) -> Result<Vec<u32>, AllocError>
    ensures { IfOk result (λ room. room.items ≡ filter (is_marked marks.now) (range_with_len 0 (FIRST_SLOT + SLOTS))) }
{
    (0..PLACES).filter(|r| is_marked(marks, *r)).collect(alloc)
}

/// How many registers are marked.
fn marked_registers(marks: &[bool]) -> usize
    ensures { result ≡ length (filter (is_marked marks.now) (range_with_len 0 FIRST_SLOT)) }
{
    (0..FIRST_SLOT).filter(|r| is_marked(marks, *r)).count()
}

/// The registers and slots in which something of what these definers give may be, rising.
fn room_of(alloc: Global, domains: &[Domain], sites: &[Site<'_>]) -> Result<Vec<u32>, AllocError>
    ensures { IfOk result (λ room. room.items ≡ room_of domains.now (definers_in sites.now)) }
{
    let marks = marks_of(alloc, domains, sites, PLACES)?;
    let room = marked_places(alloc, marks.as_slice())?;
    Ok(room)
}

/// How many registers there are in which something of what these definers give may be: the slots are not looked at.
fn registers_of(alloc: Global, domains: &[Domain], sites: &[Site<'_>]) -> Result<usize, AllocError>
    ensures { IfOk result (λ n. n ≡ length (registers_among (room_of domains.now (definers_in sites.now)))) }
{
    let marks = marks_of(alloc, domains, sites, FIRST_SLOT)?;
    Ok(marked_registers(marks.as_slice()))
}

/// The registers and slots in which something of what these operations define may be, rising.
pub(crate) fn block_room(
    alloc: Global,
    domains: &[Domain],
    sites: &[Site<'_>],
    spots: &[Spot<'_>],
) -> Result<Vec<u32>, NoMemory>
    ensures { IfOk result (λ room. room.items ≡ block_room domains.now (definers_in sites.now) (map place_of spots.now)) }
{
    let temps = temps_in(alloc, spots)?;
    let found = sites_at(alloc, sites, temps.as_slice())?;
    let room = room_of(alloc, domains, found.as_slice())?;
    Ok(room)
}

/// How many registers and slots a call leaves as they are.
pub(crate) fn spared_count(mask: u64, room: &[u32]) -> usize
    ensures { result ≡ length (spared_room mask room.now) }
{
    room.iter().filter(|r| !is_in_mask(mask, **r)).count()
}

/// How many registers there are in which something of what these operations of a model define may be.
pub(crate) fn register_count(
    alloc: Global,
    m: &Model,
    sites: &[Site<'_>],
    spots: &[Spot<'_>],
) -> Result<usize, NoMemory>
    requires { definers_in sites.now ≡ definers_of m.now }
    ensures { IfOk result (λ n. n ≡ length (registers_among (block_room m.now.domains (definers_of m.now) (map place_of spots.now)))) }
{
    let temps = temps_in(alloc, spots)?;
    let found = sites_at(alloc, sites, temps.as_slice())?;
    let count = registers_of(alloc, m.domains.as_slice(), found.as_slice())?;
    Ok(count)
}
