//! What there is for each number of an operation.

ghost use Rattle.std.specs.Prelude.{◌≡◌, Option, IfOk, slice_index};
ghost use Rattle.std.specs.List.{range_with_len};
ghost use Rattle.un_ir.specs.Kinds.{is_optional};
ghost use Rattle.un_model.specs.Solutions.{latency_gap};
ghost use Rattle.un_sites.specs.Places.{numbers_of, by_number};
ghost use Rattle.un_sites.specs.Postings.{gaps_of};
ghost use Rattle.un_sites.specs.Sites.{place_of, definer_at};

use crate::sites::{Site, Spot};
use std::alloc::{AllocError, Global};
use un_ir::extended::ExtKind;
use un_isa::op::Op;
use un_isa::table::Table;
use un_lists::items::Items;
use un_model::instructions::{gap, instruction};

/// How many numbers an operation has.
pub fn number_count(kind: &ExtKind) -> u32
    ensures { range_with_len 0 result ≡ numbers_of kind.now }
{
    if kind.is_optional() { 6 } else { 2 }
}

/// How long an instruction waits for what an operation gives, by the operation's numbers.
fn gaps_after(
    alloc: Global,
    t: &Table,
    kind: &ExtKind,
    user: Option<Op>,
) -> Result<Items<u32>, AllocError>
    ensures { IfOk result (λ gaps. gaps ≡ by_number (λ (i : Option Op). latency_gap t.now i user) kind.now) }
{
    let count = number_count(kind);
    let mut gaps = Items::from_vec(Vec::with_capacity(alloc, count as usize)?);
    for n in 0..count {
        gaps.push(gap(t, instruction(kind, n), user))?;
    }
    Ok(gaps)
}

/// How long a user waits for a definer, by the definer's numbers; what is not defined is as the values at a block's start.
pub fn gaps(
    alloc: Global,
    t: &Table,
    user: &Spot<'_>,
    site: &Site<'_>,
) -> Result<Items<u32>, AllocError>
    ensures { IfOk result (λ gaps. gaps ≡ gaps_of t.now (place_of user.now) (definer_at site.now)) }
{
    let instr = instruction(&user.it.kind, 0);
    match site.place {
        None => gaps_after(alloc, t, &ExtKind::In, instr),
        Some(p) => gaps_after(alloc, t, &p.it.kind, instr),
    }
}

/// How long a user waits for a definer that is always active.
pub fn first_gap(t: &Table, user: &Spot<'_>, site: &Site<'_>) -> u32
    ensures { result ≡ slice_index (gaps_of t.now (place_of user.now) (definer_at site.now)) 1 }
{
    let instr = instruction(&user.it.kind, 0);
    match site.place {
        None => gap(t, instruction(&ExtKind::In, 1), instr),
        Some(p) => gap(t, instruction(&p.it.kind, 1), instr),
    }
}
