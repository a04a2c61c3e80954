//! 13: whether the operations of a block take more in some cycles than the packets have.

ghost use Rattle.std.specs.Prelude.{◌≡◌, ◌↔◌, ◌+◌, ◌-◌, ◌*◌, ◌^◌, ◌<◌, ◌≤◌, ℕ, IsTrue, IsSomeAnd};
ghost use Rattle.std.specs.Prelude.{IfSome, length, sum_by, slice_get};
ghost use Rattle.std.specs.Option.{option_map};
ghost use Rattle.un_isa.specs.PacketCounts.{places_of};
ghost use Rattle.un_steps.specs.Found.{operation_of};
ghost use Rattle.un_steps.specs.Full.{operations_of, less, IsLeastTo, takes_by, IsFullTo, IsFullFrom};
ghost use Rattle.un_steps.specs.Rules.{are_among, issues_in, share_with, least_share, takes_in, IsFullIn, IsTimeOf, IsTooFull};
ghost use Rattle.un_steps.specs.Words.{IsVar, time_of, cycles, instrs, least_of, greatest_of};

use crate::operation::{
    Found, greatest_cycle, has_instr, in_block, instr_end, is_sure, is_var, least_cycle, time,
};
use un_base::ids::VarId;
use un_domains::store::Store;
use un_ir::extended::ExtBlock;
use un_isa::packet_counts::{Resource, places};
use un_model::instructions::{instruction, share};
use un_model::model::{BlockVars, Model};

/// A block of a model.
#[derive(Clone, Copy)]
pub struct Block<'a> {
    /// Its number.
    pub number: usize,
    /// The block itself.
    pub owner: &'a ExtBlock,
    /// Its variables.
    pub vars: &'a BlockVars,
}

/// How many operations a block has.
pub fn count(b: &Block<'_>) -> usize
    ensures { result ≡ length (operations_of b.now) }
{
    b.owner.ops.len().min(b.vars.ops.len())
}

/// Operation `i` of a block, counted from its first.
pub fn at<'a>(b: &Block<'a>, i: usize) -> Option<Found<'a>>
    ensures { option_map operation_of result ≡ slice_get (operations_of b.now) i }
{
    if i < count(b) {
        return Some(in_block(b.number, b.owner, b.vars, i));
    }
    None
}

/// Whether `v` is the variable of the time of operation `i`.
fn is_time_at(b: &Block<'_>, v: VarId, i: usize) -> bool
    ensures { IsTrue result ↔ IsSomeAnd (slice_get (operations_of b.now) i) (λ p. IsVar (time_of p) v.0) }
{
    match at(b, i) {
        None => false,
        Some(p) => is_var(time(&p), v),
    }
}

/// Whether `v` is the variable of the time of an operation.
fn is_time(b: &Block<'_>, v: VarId) -> bool
    ensures { IsTrue result ↔ IsTimeOf (operations_of b.now) v.0 }
{
    for i in 0..count(b) {
        if is_time_at(b, v, i) {
            return true;
        }
    }
    false
}

/// The less of two numbers, of which one need not be there.
fn less(known: Option<u32>, n: u32) -> u32
    ensures { result ≡ less known n }
{
    match known {
        None => n,
        Some(k) => k.min(n),
    }
}

/// How much of a resource an operation takes with instruction `i`, or what is less, if that is left.
fn lesser(
    m: &Model,
    s: &Store,
    r: Resource,
    p: &Found<'_>,
    known: Option<u32>,
    i: u32,
) -> Option<u32>
    requires { IfSome known (λ k. k < 2 ^ 8) }
    ensures least { IsLeastTo (share_with m.now r (operation_of p.now)) (instrs s.now.sets (operation_of p.now)) i known
        → IsLeastTo (share_with m.now r (operation_of p.now)) (instrs s.now.sets (operation_of p.now)) (i + 1) result }
    ensures few { IfSome result (λ k. k < 2 ^ 8) }
{
    if !has_instr(s, p, i) {
        return known;
    }
    Some(less(known, share(&m.ext.table, r, instruction(&p.op.kind, i))))
}

/// How much of a resource an operation takes at least, by the instructions that are left to it.
fn least_share(m: &Model, s: &Store, r: Resource, p: &Found<'_>) -> u32
    ensures value { result ≡ least_share m.now s.now.sets r (operation_of p.now) }
    ensures few { result < 2 ^ 8 }
{
    let end = instr_end(s, p);
    let mut known: Option<u32> = None;
    for i in 0..end {
        known = lesser(m, s, r, p, known, i as u32);
    }
    known.unwrap_or(0)
}

/// Whether two cycles, where both are there, are of the `n` from `a` on.
fn are_among(a: u32, n: u64, first: Option<u32>, last: Option<u32>) -> bool
    requires { n ≤ 2 ^ 32 }
    ensures { result ≡ are_among a n first last }
{
    match first {
        None => false,
        Some(c) => match last {
            None => false,
            Some(d) => a <= c && u64::from(d) < u64::from(a) + n,
        },
    }
}

/// Whether an operation is sure, and all cycles that are left to it are of the `n` from `a` on.
fn issues_in(s: &Store, a: u32, n: u64, p: &Found<'_>) -> bool
    requires { n ≤ 2 ^ 32 }
    ensures { result ≡ issues_in s.now.sets a n (operation_of p.now) }
{
    is_sure(s, p) && are_among(a, n, least_cycle(s, p), greatest_cycle(s, p))
}

/// How much of a resource an operation takes for sure in the `n` cycles from `a` on.
fn takes_in(m: &Model, s: &Store, r: Resource, a: u32, n: u64, p: &Found<'_>) -> u32
    requires { n ≤ 2 ^ 32 }
    ensures value { result ≡ takes_in m.now s.now.sets r a n (operation_of p.now) }
    ensures few { result < 2 ^ 8 }
{
    if !issues_in(s, a, n, p) {
        return 0;
    }
    least_share(m, s, r, p)
}

/// The same of operation `i`, 0 where there is none.
fn takes_at(m: &Model, s: &Store, r: Resource, a: u32, n: u64, b: &Block<'_>, i: usize) -> u32
    requires { n ≤ 2 ^ 32 }
    ensures value { result ≡ takes_by m.now s.now.sets r a n (slice_get (operations_of b.now) i) }
    ensures few { result < 2 ^ 8 }
{
    match at(b, i) {
        None => 0,
        Some(p) => takes_in(m, s, r, a, n, &p),
    }
}

/// How much of it the operations of a block take together.
fn taken(m: &Model, s: &Store, r: Resource, a: u32, n: u64, b: &Block<'_>) -> u128
    requires { n ≤ 2 ^ 32 }
    ensures { result ≡ sum_by (takes_in m.now s.now.sets r a n) (operations_of b.now) }
{
    let mut sum: u128 = 0;
    for i in 0..count(b) {
        sum += u128::from(takes_at(m, s, r, a, n, b, i));
    }
    sum
}

/// Whether that is more than the packets have.
fn is_short_of(m: &Model, s: &Store, r: Resource, a: u32, n: u64, b: &Block<'_>) -> bool
    requires { n ≤ 2 ^ 32 }
    ensures { IsTrue result ↔ (n * places_of r < sum_by (takes_in m.now s.now.sets r a n) (operations_of b.now)) }
{
    u128::from(n) * u128::from(places(r)) < taken(m, s, r, a, n, b)
}

/// Whether it is of some resource.
fn is_full_in(m: &Model, s: &Store, a: u32, n: u64, b: &Block<'_>) -> bool
    requires { n ≤ 2 ^ 32 }
    ensures { IsTrue result ↔ IsFullIn m.now s.now.sets (operations_of b.now) a n }
{
    if is_short_of(m, s, Resource::Instructions, a, n, b) {
        return true;
    }
    if is_short_of(m, s, Resource::Memory, a, n, b) {
        return true;
    }
    if is_short_of(m, s, Resource::Stores, a, n, b) {
        return true;
    }
    if is_short_of(m, s, Resource::MultiplyOrControl, a, n, b) {
        return true;
    }
    is_short_of(m, s, Resource::Control, a, n, b)
}

/// How many cycles there are from `a` to `last`.
fn cycles_to(a: u32, last: u32) -> u64
    ensures value { result ≡ last + 1 - a }
    ensures small { result ≤ 2 ^ 32 }
{
    (u64::from(last) + 1).saturating_sub(u64::from(a))
}

/// Whether the cycles from `a` to the greatest of an operation that is sure are too few.
fn is_full_to(m: &Model, s: &Store, a: u32, b: &Block<'_>, q: &Found<'_>) -> bool
    ensures { IsTrue result ↔ IsFullTo m.now s.now.sets (operations_of b.now) a (operation_of q.now) }
{
    match greatest_cycle(s, q) {
        None => false,
        Some(last) => is_sure(s, q) && is_full_in(m, s, a, cycles_to(a, last), b),
    }
}

/// The same of operation `j`.
fn is_full_to_at(m: &Model, s: &Store, a: u32, b: &Block<'_>, j: usize) -> bool
    ensures { IsTrue result ↔ IsSomeAnd (slice_get (operations_of b.now) j) (IsFullTo m.now s.now.sets (operations_of b.now) a) }
{
    match at(b, j) {
        None => false,
        Some(q) => is_full_to(m, s, a, b, &q),
    }
}

/// Whether some cycles from `a` on are too few.
fn is_full_after(m: &Model, s: &Store, a: u32, b: &Block<'_>) -> bool
    ensures { IsTrue result ↔ ((n : ℕ) × IsFullIn m.now s.now.sets (operations_of b.now) a n) }
{
    for j in 0..count(b) {
        if is_full_to_at(m, s, a, b, j) {
            return true;
        }
    }
    false
}

/// Whether some cycles from the least of an operation that is sure are too few.
fn is_full_from(m: &Model, s: &Store, b: &Block<'_>, p: &Found<'_>) -> bool
    ensures { IsTrue result ↔ IsFullFrom m.now s.now.sets (operations_of b.now) (operation_of p.now) }
{
    match least_cycle(s, p) {
        None => false,
        Some(a) => is_sure(s, p) && is_full_after(m, s, a, b),
    }
}

/// The same of operation `i`.
fn is_full_from_at(m: &Model, s: &Store, b: &Block<'_>, i: usize) -> bool
    ensures { IsTrue result ↔ IsSomeAnd (slice_get (operations_of b.now) i) (IsFullFrom m.now s.now.sets (operations_of b.now)) }
{
    match at(b, i) {
        None => false,
        Some(p) => is_full_from(m, s, b, &p),
    }
}

/// Whether some cycles are too few.
pub(crate) fn is_full(m: &Model, s: &Store, b: &Block<'_>) -> bool
    ensures { IsTrue result ↔ ((a : ℕ) × (n : ℕ) × IsFullIn m.now s.now.sets (operations_of b.now) a n) }
{
    for i in 0..count(b) {
        if is_full_from_at(m, s, b, i) {
            return true;
        }
    }
    false
}

/// 13: of a block, its end and the cycles of its operations, where in some cycles its operations take more than the packets have.
pub(crate) fn is_too_full(m: &Model, s: &Store, b: &Block<'_>, v: VarId) -> bool
    ensures { IsTrue result ↔ IsTooFull m.now s.now.sets (operations_of b.now) v.0 }
{
    is_time(b, v) && is_full(m, s, b)
}
