//! Runs from texts of starts: of functions and of listings, with what they come to as it is printed.

use crate::rows::{About, all_answered, cut};
use std::alloc::Global;
use un_base::memory_error::NoMemory;
use un_ir::function::Function;
use un_ir::text::put_text;
use un_isa::start::Start;
use un_isa::table::hexagon;
use un_listing_reader::read::read_code;
use un_outcome::print::print_outcome;
use un_packet::code::Code;
use un_packet::run::run_packets;
use un_reader::read::read_function;
use un_source::run::run_source;
use un_start::read::read_start;

/// Functions and listings with starts, and what they come to, made by another program from the rules alone: two of each way to end.
static ROWS: &[u8] = b"# Of functions and of code.
|func e
block a freq 3
block b freq 7
block c freq 2
  ret
?source
blocks 3
:returned
|func c %a
block e freq 1
  %r = call h %a
  %s = add %r, %a
  ret %s
?source
reg 0 5
reply 7
blocks 5
:returned 12
call h 5
|func e
block a freq 3
block b freq 7
block c freq 2
  ret
?source
blocks 0
:running a
|func keep %a
block e freq 1
block m freq 4
  call h %a
block z freq 1
  ret %a
?source
reg 0 3
reply 1
blocks 2
:running z
value %a 3
call h 3
|func t %a %b
block e freq 1
  %x = load %a, #0
  %y = load %b, #0
  store %a, #0, %y
  ret %x
?source
reg 0 256
reg 1 258
mem 256 17
blocks 5
:trapped
mem 256 17
|func twocalls %a
block e freq 1
  %b = call h %a
  store %a, #0, %b
  %c = call k %b, %a
  %d = load %a, #0
  %e = add %c, %d
  ret %e
?source
reg 0 6
mem 8 1
reply 5
reply 6
blocks 1
:trapped
call h 6
mem 8 1
|func x %a %b
block e freq 1
  call h %b, %a
  ret
?source
reg 0 5
reg 1 9
blocks 1
:waiting h 9 5
|func twocalls %a
block e freq 1
  %b = call h %a
  store %a, #0, %b
  %c = call k %b, %a
  %d = load %a, #0
  %e = add %c, %d
  ret %e
?source
reg 0 8
mem 8 1
reply 5
set 8 77
junk 1 3
blocks 1
:waiting k 5 8
call h 8
mem 8 5
|frame 0
block e
{ call h() }
{ jumpr r31 }
?packets
reg 0 8
reg 31 100
reply 6
blocks 3
:returned 6 target 0
call h
cycles 2
|frame 0
block l
{ r0 = r1; r1 = r0; jump l }
?packets
reg 0 3
reg 1 8
blocks 5
:running l
cycles 5
|frame 0
block e
{ call h() }
block m
block z
{ r0 = p3; jumpr r28 }
?packets
reply 1
junk 28 5
junk 35 1
blocks 2
:running z
call h
cycles 1
|frame 8
block e
{ r0 = memw(r29+#0) }
{ jumpr r31 }
?packets
reg 29 16
blocks 1
:trapped
cycles 0
|frame 0
block e
{ call a() }
block m
{ call b(r0) }
{ jumpr r31 }
?packets
reg 0 9
reply 5
blocks 3
:waiting b 5
call a
cycles 1
";

/// The start of a text, with its number of blocks.
fn start_of(alloc: Global, text: &[u8]) -> Result<(Start, u32), NoMemory> {
    match read_start(alloc, text) {
        Ok(read) => Ok(read),
        Err(_) => Err(NoMemory),
    }
}

/// What a run of a function comes to.
fn source_run(alloc: Global, f: &Function, start: &[u8]) -> Result<Vec<u8>, NoMemory> {
    let (start, blocks) = start_of(alloc, start)?;
    let outcome = run_source(alloc, f, &start, blocks)?;
    print_outcome(alloc, f.names.as_slice(), &outcome)
}

/// What a run of code comes to.
fn code_run(alloc: Global, code: &Code, start: &[u8]) -> Result<Vec<u8>, NoMemory> {
    let (start, blocks) = start_of(alloc, start)?;
    let outcome = run_packets(alloc, code, &hexagon(), &start, blocks)?;
    print_outcome(alloc, &[], &outcome)
}

/// What the run of a function's text comes to.
fn source_text(alloc: Global, text: &[u8], start: &[u8]) -> Result<Vec<u8>, NoMemory> {
    match read_function(alloc, text) {
        Ok(f) => source_run(alloc, &f, start),
        Err(_) => Err(NoMemory),
    }
}

/// What the run of a listing comes to.
fn code_text(alloc: Global, text: &[u8], start: &[u8]) -> Result<Vec<u8>, NoMemory> {
    match read_code(alloc, text) {
        Ok(code) => code_run(alloc, &code, start),
        Err(_) => Err(NoMemory),
    }
}

/// Appends what the run of a text comes to, from the start behind the first line of the question.
pub(crate) fn put_of_run(
    alloc: Global,
    out: &mut Vec<u8>,
    text: &[u8],
    question: &[u8],
) -> Result<(), NoMemory> {
    let (word, start) = cut(question, b'\n');
    let shown = if word == b"source".as_slice() {
        source_text(alloc, text, start)?
    } else {
        code_text(alloc, text, start)?
    };
    put_text(out, shown.as_slice())
}

#[test]
fn answers_of_runs(rt: HostRuntime) {
    let well = matches!(all_answered(rt.alloc(), About::Runs, ROWS), Ok(true));
    assert!(rt; well);
}
