//! First solutions for other tables than the usual one, and under options that leave few registers or slots: one is found for each
//! function, and none is refused.

ghost use Rattle.un_isa.specs.Fit.{IsFit};
ghost use Rattle.un_model.specs.Options.{AreOptions};

use crate::rows::named;
use std::alloc::Global;
use un_base::memory_error::NoMemory;
use un_first::first::first;
use un_isa::op::Op;
use un_isa::reg::SLOTS;
use un_isa::table::{Table, hexagon};
use un_model::model::Options;
use un_problem::problem::model;
use un_reader::read::read_function;

/// How many trials a first solution has.
const TRIALS: u32 = 1_000;

/// How many options `options_at` has.
const OPTIONS: u32 = 7;

/// A loop, values across a call, a predicate across one, two calls in blocks, and more values than registers.
static FUNCTIONS: &[u8] = b"func dot %x %y %n
block e freq 1
  %s = imm #0
block l freq 100
  %a = load %x, #0
  %b = load %y, #0
  %a = mpyi %a, %b
  %s = add %s, %a
  %x = addi %x, #4
  %y = addi %y, #4
  %n = addi %n, #-1
  $p = cmpgti %n, #0
  if $p jump l
block z freq 1
  ret %s
|func late %a %b %c
block e freq 1
  %s = imm #0
  %r = call g %a, %s
  %t = add %r, %b
  %s = xor %s, %t
  %s = add %s, %r
  %s = sub %s, %c
  ret %s
|func q %a %b
block e freq 1
  $p = cmpeq %a, %b
  call h %a
  %r = mux $p, %a, %b
  ret %r
|func tree %t
block e freq 10
  $z = cmpeqi %t, #0
  if !$z jump a
block r freq 5
  %r = imm #0
  ret %r
block a freq 5
  %l = load %t, #0
  %a = call tree %l
  %m = load %t, #4
  %b = call tree %m
  %v = load %t, #8
  %a = add %a, %b
  %a = add %a, %v
  ret %a
";

/// The table of a processor on which functions keep r15 and r28 too.
fn keeping_more() -> Table
    ensures { IsFit result }
{
    Table {
        clobbered: 0xF_8000_7FFF,
        saved: 0x1FFF_8000,
        ..hexagon()
    }
}

/// The table of a processor whose loads take one cycle.
fn loading_at_once() -> Table
    ensures { IsFit result }
{
    let mut t = hexagon();
    t.lat[Op::Load as usize] = 1;
    t.lat[Op::Reload as usize] = 1;
    t
}

/// Options that leave few slots or registers, and those that leave all.
fn options_at(k: u32) -> Options
    ensures { AreOptions result }
{
    let (regs, slots) = match k {
        0 => (None, 4),
        1 => (None, 16),
        2 => (Some(6), SLOTS),
        3 => (Some(8), SLOTS),
        4 => (Some(12), SLOTS),
        5 => (Some(20), SLOTS),
        _ => (None, SLOTS),
    };
    Options { regs, slots }
}

/// Whether a first solution is found for the function of a text.
fn is_found(alloc: Global, text: &[u8], t: &Table, options: &Options) -> Result<bool, NoMemory>
    requires fit { IsFit t.now }
    requires options { AreOptions options.now }
{
    let Ok(f) = read_function(alloc, text) else {
        return Ok(false);
    };
    let m = model(alloc, &f, t, options)?;
    let found = first(alloc, &m, [].as_slice(), TRIALS)?;
    Ok(found.is_some())
}

/// The first function for which none is found under these options, if there is one.
fn missed_under(
    alloc: Global,
    t: &Table,
    options: &Options,
) -> Result<Option<&'static [u8]>, NoMemory>
    requires fit { IsFit t.now }
    requires options { AreOptions options.now }
{
    for text in FUNCTIONS.split(|b| *b == b'|') {
        if !is_found(alloc, text, t, options)? {
            return Ok(Some(text));
        }
    }
    Ok(None)
}

/// The first function for which none is found under some of the options, if there is one.
fn missed(alloc: Global, t: &Table) -> Result<Option<&'static [u8]>, NoMemory>
    requires { IsFit t.now }
{
    for k in 0..OPTIONS {
        let missed = missed_under(alloc, t, &options_at(k))?;
        if missed.is_some() {
            return Ok(missed);
        }
    }
    Ok(None)
}

#[test]
fn first_solutions_on_hexagon(rt: HostRuntime) {
    let missed = named(missed(rt.alloc(), &hexagon()));
    assert!(rt; missed.is_empty(), "{missed}");
}

#[test]
fn first_solutions_where_more_is_kept(rt: HostRuntime) {
    let missed = named(missed(rt.alloc(), &keeping_more()));
    assert!(rt; missed.is_empty(), "{missed}");
}

#[test]
fn first_solutions_where_loads_are_quick(rt: HostRuntime) {
    let missed = named(missed(rt.alloc(), &loading_at_once()));
    assert!(rt; missed.is_empty(), "{missed}");
}
