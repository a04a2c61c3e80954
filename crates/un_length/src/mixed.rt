//! What cycles lose where few operations of a sort may issue in them. The operations are counted once more as their latest cycles come,
//! and what a cycle loses is counted beside them, as if it were taken.

ghost use Rattle.std.specs.Prelude.{◌≡◌, ◌+◌, ◌<◌, ◌≤◌, ◌^◌, ◌&&◌, if◌then◌else◌, ℕ, length, slice_index, nat_eq, nat_lt, true, false};
ghost use Rattle.std.specs.Prelude.{min};
ghost use Rattle.un_isa.specs.PacketCounts.{places_of, share_of};
ghost use Rattle.un_length.specs.Sums.{as_number};
ghost use Rattle.un_length.specs.Rooms.{in_order};
ghost use Rattle.un_length.specs.Mixed.{passes, is_of, may_issue, issuable, holds_of, lost_at, are_countless, mixes_fit, mixed_room};

use crate::block::Task;
use crate::crowd::{add_ending, clear, takes};
use un_isa::packet_counts::{Resource, places};
use un_slots::crowd::has_room;

/// Sorts of operations by two resources.
#[derive(Clone, Copy)]
pub enum Sort {
    /// Some of the first is taken, and none of the second.
    First,
    /// Some of both.
    Both,
    /// None of either.
    Neither,
}

/// The operations of a block with their earliest and their latest cycles.
#[derive(Drop)]
struct Timed<'a> {
    ops: &'a [Task],
    early: &'a [u32],
    late: &'a [u32],
    ghost early_long: { length ops.now ≤ length early.now },
    ghost late_long: { length ops.now ≤ length late.now },
    ghost few: { length ops.now + 4 < 2 ^ 32 },
}

/// Whether an operation is of a sort.
fn is_of(sort: Sort, r: Resource, s: Resource, task: &Task) -> bool
    ensures { result ≡ passes sort (nat_lt 0 (share_of r task.now.needs)) (nat_lt 0 (share_of s task.now.needs)) }
{
    let first = takes(r, task);
    let second = takes(s, task);
    match sort {
        Sort::First => first && !second,
        Sort::Both => first && second,
        Sort::Neither => !first && !second,
    }
}

/// 1 for an operation of a sort that may issue in cycle `q`, else 0.
fn one_of(t: &Timed<'_>, sort: Sort, r: Resource, s: Resource, q: u32, i: usize) -> u32
    requires there { i < length t.now.ops.now }
    ensures { result ≡ as_number (is_of sort r s t.now.ops.now i
        && may_issue (slice_index t.now.early.now) (slice_index t.now.late.now) q i) }
{
    if !is_of(sort, r, s, &t.ops[i]) {
        return 0;
    }
    if t.early[i] <= q && q <= t.late[i] {
        1
    } else {
        0
    }
}

/// How many operations of a sort may issue in cycle `q`, or `most` where they are more: no more than these are looked for.
fn issuable(t: &Timed<'_>, sort: Sort, r: Resource, s: Resource, q: u32, most: u32) -> u32
    ensures count { result ≡ min most (issuable (is_of sort r s t.now.ops.now) t.now.ops.now
        (slice_index t.now.early.now) (slice_index t.now.late.now) q) }
    ensures few { result ≤ length t.now.ops.now }
{
    let mut many = 0;
    for i in 0..t.ops.len() {
        if many >= most {
            return most;
        }
        many += one_of(t, sort, r, s, q, i);
    }
    many.min(most)
}

/// How many of those that take some of a resource a cycle can hold, where some of them take a scarcer one too.
fn holds_of(t: &Timed<'_>, r: Resource, s: Resource, q: u32) -> u32
    ensures { result ≡ holds_of r s t.now.ops.now (slice_index t.now.early.now) (slice_index t.now.late.now) q }
{
    let first = issuable(t, Sort::First, r, s, q, places(r));
    let both = issuable(t, Sort::Both, r, s, q, places(s));
    places(r).min(first + both)
}

/// How many places of a packet a cycle loses: none where operations that take only an instruction fill it.
fn lost_at(t: &Timed<'_>, q: u32) -> u32
    ensures { result ≡ lost_at t.now.ops.now (slice_index t.now.early.now) (slice_index t.now.late.now) q }
{
    let all = places(Resource::Instructions);
    let free = issuable(
        t,
        Sort::Neither,
        Resource::Memory,
        Resource::MultiplyOrControl,
        q,
        all,
    );
    if free >= all {
        return 0;
    }
    let memory = holds_of(t, Resource::Memory, Resource::Stores, q);
    let others = holds_of(t, Resource::MultiplyOrControl, Resource::Control, q);
    all - all.min(free + (memory + others))
}

/// Counts what a cycle loses.
fn lose(counts: &mut [u32], c: usize, lost: u32)
    requires room { c < length counts.old }
    requires small { slice_index counts.old c + lost < 2 ^ 32 }
    ensures { (k : ℕ) → slice_index counts.new k ≡ slice_index counts.old k + (if nat_eq c k then lost else 0) }
{
    counts[c] = counts[c] + lost;
}

/// Whether all intervals before `end` have room, with what their cycles lose.
fn mixes_fit(t: &Timed<'_>, end: u32, counts: &mut [u32]) -> bool
    requires ordered { in_order t.now.ops.now (slice_index t.now.early.now) (slice_index t.now.late.now) ≡ true }
    requires room { length counts.old ≡ end }
    requires none { (c : ℕ) → slice_index counts.old c ≡ 0 }
    ensures { result ≡ mixes_fit t.now.ops.now end (slice_index t.now.early.now) (slice_index t.now.late.now) }
{
    let mut total = 0;
    for high in 0..end {
        let many = add_ending(t.ops, Resource::Instructions, t.early, t.late, high, counts);
        let lost = lost_at(t, high);
        lose(counts, high as usize, lost);
        total += u64::from(many) + u64::from(lost);
        if !has_room(counts, Resource::Instructions, high, many + lost, total) {
            return false;
        }
    }
    true
}

/// Whether the operations have room, with what the cycles before `end` lose, where numbers count them.
pub fn mixed_room(ops: &[Task], early: &[u32], late: &[u32], end: u32, counts: &mut [u32]) -> bool
    requires early { length ops.now ≤ length early.now }
    requires late { length ops.now ≤ length late.now }
    requires ordered { in_order ops.now (slice_index early.now) (slice_index late.now) ≡ true }
    requires room { length counts.old ≡ end }
    ensures { result ≡ mixed_room ops.now end (slice_index early.now) (slice_index late.now) }
{
    if ops.len() as u64 + u64::from(places(Resource::Instructions)) >= 1 << 32 {
        return true;
    }
    clear(counts);
    mixes_fit(&Timed { ops, early, late }, end, counts)
}
