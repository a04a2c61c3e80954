//! What is posted for functions, and how rounds of it end: values from outside, counted by another program from the rules alone.

ghost use Rattle.std.specs.Prelude.{All, IfOk};
ghost use Rattle.un_domains.specs.Sets.{NoneEmpty};
ghost use Rattle.un_ir.specs.Extended.{IsExtended};
ghost use Rattle.un_isa.specs.Fit.{IsFit};
ghost use Rattle.un_model.specs.Options.{AreOptions};
ghost use Rattle.un_model.specs.Variables.{IsModel};
ghost use Rattle.un_post.specs.Posts.{ReadsFrom, SpansAtMost};

use crate::rows::{number_at, wrong_row};
use std::alloc::Global;
use un_base::ids::BlockId;
use un_base::memory_error::NoMemory;
use un_base::numbers::number;
use un_domains::store::Store;
use un_ir::text::{put_number, put_text};
use un_isa::reg::SLOTS;
use un_isa::table::hexagon;
use un_kinds::any::AnyProp;
use un_model::model::{Model, Options};
use un_post::part::post_block;
use un_post::post::{Posted, post};
use un_problem::problem::{default_options, model};
use un_prop::propagator::Scratch;
use un_prop::run::{Fix, run_all};
use un_reader::read::read_function;

/// Functions, and how many propagators of each kind are posted without a limit, in the order of `kind`, under all registers and 64 slots;
/// or for all blocks, each by itself; then how rounds end under so many registers, or under all; and how many propagators of two operands
/// there are.
static POSTS: &[u8] = b"func dot %x %y %n
block entry freq 1
  %s = imm #0
block loop freq 100
  %u = load %x, #0
  %v = load %y, #0
  %m = mpyi %u, %v
  %s = add %s, %m
  %x = addi %x, #4
  %y = addi %y, #4
  %n = addi %n, #-1
  $c = cmpgti %n, #0
  if $c jump loop
block exit freq 1
  ret %s
?posts: 107 102 2 0 107 93 194 48 13 1 3 147 2 3 3 3 0\
|&?parts: 107 102 2 0 107 93 194 48 13 3 3 147 2 3 0 0 0\
|func s
block e freq 1
  %a = imm #1
  %b = imm #2
  %c = imm #3
  %d = imm #4
  %e = imm #5
  %p = add %a, %b
  %q = add %c, %d
  %r = add %p, %q
  %t = add %r, %e
  ret %t
?posts: 44 55 1 0 44 46 97 0 13 1 1 66 4 1 1 1 0\
|func w %x
block e freq 1
  %v0 = load %x, #0
  %v1 = load %x, #4
  %v2 = load %x, #8
  %v3 = load %x, #12
  %v4 = load %x, #16
  %v5 = load %x, #20
  %v6 = load %x, #24
  %v7 = load %x, #28
  %v8 = load %x, #32
  %v9 = load %x, #36
  %v10 = load %x, #40
  %v11 = load %x, #44
  %v12 = load %x, #48
  %v13 = load %x, #52
  %v14 = load %x, #56
  %v15 = load %x, #60
  %s = call h
  %s = add %s, %v0
  %s = add %s, %v1
  %s = add %s, %v2
  %s = add %s, %v3
  %s = add %s, %v4
  %s = add %s, %v5
  %s = add %s, %v6
  %s = add %s, %v7
  %s = add %s, %v8
  %s = add %s, %v9
  %s = add %s, %v10
  %s = add %s, %v11
  %s = add %s, %v12
  %s = add %s, %v13
  %s = add %s, %v14
  %s = add %s, %v15
  ret %s
?posts: 124 144 1 0 124 111 267 0 13 1 1 156 16 1 1 1 1\
|func c %a
block e freq 1
  %r = call h %a
  %s = add %r, %a
  ret %s
?posts: 34 37 1 0 34 35 70 0 14 1 1 49 1 1 1 1 1\
|func x %a %b
block e freq 1
  call h %b, %a
  ret
?posts: 30 33 1 0 30 32 63 0 14 1 1 45 1 1 1 1 1\
|# A sum whose operands have no two registers where there is only one.\
|func two
block e freq 1
  %a = imm #1
  %b = imm #2
  %c = add %a, %b
  ret %c
?ends 1:failed\
|&?ends:stable\
|# Each two of three operands that read different values, neighbours or not.\
|func three %a %b %c
block e freq 1
  call h %c, %a, %b
  ret
?operands:3\
|func m %a %b
block e freq 1
  $p = cmpeqi %a, #0
  %m = mux $p, %a, %b
  ret %m
?operands:3";

/// The number of a propagator's kind.
fn kind(p: &AnyProp) -> usize {
    match p {
        AnyProp::Reads(_) => 0,
        AnyProp::Inside(_) => 1,
        AnyProp::Last(_) => 2,
        AnyProp::Below(_) => 3,
        AnyProp::Chosen(_) => 4,
        AnyProp::Zeros(_) => 5,
        AnyProp::Spaces(_) => 6,
        AnyProp::Same(_) => 7,
        AnyProp::Home(_) => 8,
        AnyProp::Frame(_) => 9,
        AnyProp::Apart(_) => 10,
        AnyProp::Clobber(_) => 11,
        AnyProp::Operands(_) => 12,
        AnyProp::PerCycle(_) => 13,
        AnyProp::Length(_) => 14,
        AnyProp::Live(_) => 15,
        AnyProp::Across(_) => 16,
        AnyProp::Counted(_) => 17,
        AnyProp::Before(_) => 18,
    }
}

/// How many propagators are of the kind with this number.
fn count(props: &[AnyProp], n: usize) -> u64 {
    let mut found: u64 = 0;
    for p in props {
        if kind(p) == n {
            found = found.saturating_add(1);
        }
    }
    found
}

/// Appends how many propagators there are of each kind, each number behind a space.
fn put_kinds(out: &mut Vec<u8>, props: &[AnyProp]) -> Result<(), NoMemory> {
    for n in 0..17 {
        put_text(out, b" ")?;
        put_number(out, count(props, n))?;
    }
    Ok(())
}

/// The model of the function that a text is, under options.
fn model_under(alloc: Global, function: &[u8], options: &Options) -> Result<Model, NoMemory>
    requires { AreOptions options.now }
    ensures model { IfOk result IsModel }
    ensures extended { IfOk result (λ m. IsExtended m.ext) }
    ensures fit { IfOk result (λ m. IsFit m.ext.table) }
    ensures options { IfOk result (λ m. AreOptions m.options) }
{
    let Ok(f) = read_function(alloc, function) else {
        return Err(NoMemory);
    };
    model(alloc, &f, &hexagon(), options)
}

/// What is posted for a function without a limit.
fn posted(alloc: Global, function: &[u8], options: &Options) -> Result<Posted, NoMemory>
    requires { AreOptions options.now }
    ensures live { IfOk result (λ p. NoneEmpty p.store.sets) }
    ensures reads { IfOk result (λ p. All (ReadsFrom p.store.sets) p.props.items) }
    ensures spans { IfOk result (λ p. All (SpansAtMost p.horizon) p.props.items) }
{
    let m = model_under(alloc, function, options)?;
    post(alloc, &m, None)
}

/// Appends how many propagators of each kind are posted for a function.
pub(crate) fn put_counts(
    alloc: Global,
    out: &mut Vec<u8>,
    function: &[u8],
) -> Result<(), NoMemory> {
    let posted = posted(alloc, function, &default_options())?;
    put_kinds(out, posted.props.as_slice())
}

/// How many propagators of a kind are posted for the blocks of a model, each by itself.
fn count_in_parts(alloc: Global, m: &Model, kind: usize) -> Result<u64, NoMemory>
    requires model { IsModel m.now }
    requires extended { IsExtended m.now.ext }
    requires fit { IsFit m.now.ext.table }
    requires options { AreOptions m.now.options }
{
    let mut found: u64 = 0;
    for k in 0..m.ext.blocks.len() {
        let b = BlockId(number(k)?);
        let posted = post_block(alloc, m, b, None)?;
        found = found.saturating_add(count(posted.props.as_slice(), kind));
    }
    Ok(found)
}

/// Appends how many propagators of each kind are posted for the blocks of a function, each by itself.
pub(crate) fn put_parts(alloc: Global, out: &mut Vec<u8>, function: &[u8]) -> Result<(), NoMemory> {
    let m = model_under(alloc, function, &default_options())?;
    for kind in 0..17 {
        put_text(out, b" ")?;
        put_number(out, count_in_parts(alloc, &m, kind)?)?;
    }
    Ok(())
}

/// Appends how many propagators of two operands are posted for a function.
pub(crate) fn put_operands(
    alloc: Global,
    out: &mut Vec<u8>,
    function: &[u8],
) -> Result<(), NoMemory> {
    let posted = posted(alloc, function, &default_options())?;
    put_number(out, count(posted.props.as_slice(), 12))
}

/// How rounds on a store end.
fn end_on(
    alloc: Global,
    props: &[AnyProp],
    store: &mut Store,
    horizon: u32,
) -> Result<Fix, NoMemory>
    requires live { NoneEmpty store.old.sets }
    requires reads { All (ReadsFrom store.old.sets) props.now }
    requires spans { All (SpansAtMost horizon) props.now }
{
    let mut scratch = Scratch::new(alloc, store.len(), horizon)?;
    Ok(run_all(props, store, &mut scratch))
}

/// How rounds of what is posted end.
fn end_of(alloc: Global, posted: Posted) -> Result<Fix, NoMemory>
    requires live { NoneEmpty posted.store.sets }
    requires reads { All (ReadsFrom posted.store.sets) posted.props.items }
    requires spans { All (SpansAtMost posted.horizon) posted.props.items }
{
    let Posted {
        props,
        mut store,
        horizon,
        ..
    } = posted;
    end_on(alloc, props.as_slice(), &mut store, horizon)
}

/// The options of a question: so many registers, or all.
fn options(question: &[u8]) -> Options
    ensures { AreOptions result }
{
    if number_at(question, 1) == 1 {
        Options {
            regs: Some(1),
            slots: SLOTS,
        }
    } else {
        default_options()
    }
}

/// Appends how rounds of what is posted for a function end.
pub(crate) fn put_end(
    alloc: Global,
    out: &mut Vec<u8>,
    function: &[u8],
    question: &[u8],
) -> Result<(), NoMemory> {
    let posted = posted(alloc, function, &options(question))?;
    match end_of(alloc, posted)? {
        Fix::Failed => put_text(out, b"failed"),
        Fix::Stable => put_text(out, b"stable"),
    }
}

#[test]
fn counts_what_is_posted(rt: HostRuntime) {
    let wrong = wrong_row(rt.alloc(), POSTS);
    assert!(rt; wrong.is_empty(), "{wrong}");
}
