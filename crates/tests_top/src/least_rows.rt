//! What the rows of a function cost, one for each number of saved values in slots: values worked out by hand.

use crate::rows::wrong_row;
use crate::searches::{model_under, options};
use std::alloc::Global;
use un_base::memory_error::NoMemory;
use un_counted::counted::LeastEnd;
use un_ir::text::{put_number, put_text};
use un_lists::items::Items;
use un_model::model::Model;
use un_rooms::knowns::rows_of;
use un_sites::tables::{all_sites, all_spots};

/// Functions, and what each of their rows costs at its least ends.
static ROWS: &[u8] =
    b"# With s saved values in slots the entry has its last Spill in cycle s + 1, and the exit its last Reload in half of s, rounded up.\
|# The call keeps 12 registers for 13 saved values, and the sum and the count cross it: both are reloaded behind it at s = 1, one at\
 s = 2, and each time the loop has one packet more. With s = 0 it cannot be.\
|func sum %p %n
block e freq 1
  %s = imm #0
block l freq 100
  %w = load %p, #0
  %r = call g0 %w
  %s = add %s, %r
  %p = addi %p, #4
  %n = addi %n, #-1
  $c = cmpgti %n, #0
  if $c jump l
block x freq 1
  ret %s
?kept: 604 605 507 508 510 511 513 514 516 517 519 520 522\
|func map %p %q %n
block l0 freq 1
block l freq 100
  %w = load %p, #0
  %r = call f %w
  store %q, #0, %r
  %p = addi %p, #4
  %q = addi %q, #4
  %n = addi %n, #-1
  $c = cmpgti %n, #0
  if $c jump l
block x freq 1
  ret
?kept: 604 605 507 508 510 511 513 514 516 517 519 520 522\
|# No edge joins the blocks m and d to the entry: what they do with the saved values is their own. As m has a call, one of them comes to d\
 in a slot, and is reloaded there.\
|func dead %p
block e freq 1
  %q = addi %p, #1
block x freq 1
  ret %q
block m freq 100
  %z = imm #1
  %y = call g1 %z
block d freq 1
  ret %y
?kept: 204 206 207 209 210 212 213 215 216 218 219 221 222 224\
|func dead2 %p %n
block e freq 1
  %s = imm #0
block l freq 100
  %w = load %p, #0
  %r = call g0 %w
  %s = add %s, %r
  %n = addi %n, #-1
  $c = cmpgti %n, #0
  if $c jump l
block x freq 1
  ret %s
block m freq 1
  %z = imm #1
block d freq 1000
  ret %z
?kept: 1605 1606 1508 1509 1511 1512 1514 1515 1517 1518 1520 1521 1523\
|# One block hands no value over.\
|func one %a
block e freq 1
  %b = call h %a
  ret %b
?kept:";

/// What a row costs at its least ends.
fn cost_of(row: &[LeastEnd]) -> u64 {
    let mut cost: u64 = 0;
    for end in row {
        let packets = u64::from(end.least.saturating_sub(1));
        cost = cost.saturating_add(packets.saturating_mul(u64::from(end.freq)));
    }
    cost
}

/// Appends what each row costs, each number behind a space.
fn put_costs(out: &mut Vec<u8>, rows: &Items<Items<LeastEnd>>) -> Result<(), NoMemory> {
    for k in 0..rows.len() {
        put_text(out, b" ")?;
        put_number(out, cost_of(rows.get(k).as_slice()))?;
    }
    Ok(())
}

/// Appends what the rows of a model cost.
fn put_rows_of(alloc: Global, out: &mut Vec<u8>, m: &Model) -> Result<(), NoMemory> {
    let spots = all_spots(alloc, m)?;
    let sites = all_sites(alloc, spots.as_slice(), m.temps.as_slice())?;
    let rows = rows_of(alloc, m, sites.as_slice(), spots.as_slice())?;
    put_costs(out, &rows)
}

/// Appends what the rows of a function cost.
pub(crate) fn put_kept(alloc: Global, out: &mut Vec<u8>, function: &[u8]) -> Result<(), NoMemory> {
    let m = model_under(alloc, function, &options(b""))?;
    put_rows_of(alloc, out, &m)
}

#[test]
fn rows_cost_what_is_worked_out(rt: HostRuntime) {
    let wrong = wrong_row(rt.alloc(), ROWS);
    assert!(rt; wrong.is_empty(), "{wrong}");
}
