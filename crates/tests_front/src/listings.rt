//! Listings: lines and texts that are read, and runs of code: an exchange and calls, memory, a trap, a predicate across a call, a loop over
//! spilled values.

use crate::framed::framed_code;
use crate::processor::{computes, put_in_range, put_memory, put_saved};
use crate::rows::{About, all_answered, cut, number_at};
use crate::starts::start;
use std::alloc::Global;
use un_base::memory_error::NoMemory;
use un_ir::text::{put_number, put_text};
use un_isa::reg::FRAME;
use un_isa::start::Start;
use un_isa::table::hexagon;
use un_listing::print::print_code;
use un_listing_reader::line::{Line, read_frame, read_line};
use un_listing_reader::read::{ListingError, read_code};
use un_outcome::print::print_outcome;
use un_packet::code::Code;
use un_packet::run::run_packets;

/// What the processor and listings are.
static ROWS: &[u8] =
    b"# Words that a memory keeps, how many registers calls keep, and the code that enters and leaves the largest frame: it returns to r31 in its second cycle.\
|?memory:yes\
|?saved:12\
|?enter 10;;:returned 0 target 100
cycles 2
|# Numbers at the ends of ranges, and whether they are within.\
|-32768?in signed16:yes\
|-32769?in signed16:no\
|32767?in signed16:yes\
|32768?in signed16:no\
|-512?in signed10:yes\
|-513?in signed10:no\
|511?in signed10:yes\
|512?in signed10:no\
|31?in unsigned5:yes\
|32?in unsigned5:no\
|0?in unsigned5:yes\
|-1?in unsigned5:no\
|-4096?in memory:yes\
|-4100?in memory:no\
|4092?in memory:yes\
|4096?in memory:no\
|2?in memory:no\
|-4?in frame:no\
|0?in frame:yes\
|4096?in frame:no\
|# Lines that spell something in code with a frame of 8 bytes, and lines that spell nothing; those are broken that are packets by their form and break a rule.\
|block e\n?line:yes\
|block loop.2\n?line:yes\
|{ nop }\n?line:yes\
|{ r7 = #-5 }\n?line:yes\
|{ r1 = r8; r2 = add(r0,r1) }\n?line:yes\
|{ p0 = cmp.eq(r5,#0) }\n?line:yes\
|{ r3 = mux(p1,r0,r4) }\n?line:yes\
|{ r6 = memw(r0+#-4) }\n?line:yes\
|{ memw(r0+#4) = r6 }\n?line:yes\
|{ memw(r29+#8) = r6 }\n?line:yes\
|{ r6 = memw(r29+#8) }\n?line:yes\
|{ r29 = add(r29,#-8) }\n?line:yes\
|{ r29 = add(r29,#8); jumpr r31 }\n?line:yes\
|{ call h(r0,r1) }\n?line:yes\
|{ call h.2() }\n?line:yes\
|{ jump r5 }\n?line:yes\
|{ if (p0) jump loop }\n?line:yes\
|{ if (!p1) jump loop }\n?line:yes\
|{ r0 = p1 }\n?line:yes\
|{ p1 = r0 }\n?line:yes\
|{ r4 = lsr(r5,#31) }\n?line:yes\
|{ r0 = r1; r2 = r1; r3 = r1; r4 = r1 }\n?line:yes\
|block 2\n?line:no\
|block e?line:no\
|block  e\n?line:no\
|{ }\n?line:no\
|{ nop; nop }\n?line:broken\
|{ nop; r0 = r1 }\n?line:broken\
|{ r0 = r1; r0 = r2 }\n?line:broken\
|{ r0 = r1 ;r2 = r1 }\n?line:no\
|{ r0 = #05 }\n?line:no\
|{ r0 = #32768 }\n?line:no\
|{ r32 = r0 }\n?line:no\
|{ r29 = r0 }\n?line:broken\
|{ r29 = add(r29,#16) }\n?line:broken\
|{ r0 = memw(r29+#-4) }\n?line:no\
|{ call h(r1) }\n?line:broken\
|{ call h(p0) }\n?line:no\
|{ r29 = add(r29,#40000) }\n?line:no\
|{ call h(); r0 = r1 }\n?line:broken\
|{ call h(); r31 = r1 }\n?line:broken\
|{ call h(); p3 = r1 }\n?line:broken\
|{ call h(); r6 = r1 }\n?line:yes\
|{ memw(r0+#0) = r1; memw(r0+#4) = r2 }\n?line:broken\
|{ r0 = r1; r2 = r1; r3 = r1; r4 = r1; r5 = r1 }\n?line:broken\
|# Lines, and the frames that they are read as.\
|frame 0\n?frame:0\
|frame 256\n?frame:256\
|frame 264\n?frame:264\
|frame 1024\n?frame:1024\
|frame 1032\n?frame:none\
|frame 12\n?frame:none\
|frame 08\n?frame:none\
|frame 8?frame:none\
|# Texts and their first bad lines, 0 where there is none.\
|?text:1\
|frame 0\n?text:2\
|frame 0?text:1\
|frame 4\n?text:1\
|frame 0\nblock e\n?text:2\
|frame 0\nblock e\n{ r0 = r1; r0 = r2 }\n{ jumpr r31 }\n?text:3\
|frame 0\nblock a\nblock b\nblock c\n{ jumpr r31 }\n?text:0\
|frame 0\nblock e\n{ jumpr r31 }?text:3\
|frame 0\n{ jumpr r31 }\n?text:2\
|frame 0\nblock e\nblock e\n{ jumpr r31 }\n?text:3\
|frame 0\nblock e\n{ jump f }\n?text:3\
|frame 0\nblock e\n{ jump e }\n?text:0\
|frame 0\nblock e\n{ jump e }\n{ nop }\n?text:3\
|frame 0\nblock e\n{ jumpr r31 }\n{ jumpr r31 }\n?text:3\
|frame 0\nblock e\n{ jumpr r31 }\n{ r0 = r1; r0 = r2 }\n?text:3\
|frame 0\nblock e\n{ jumpr r31 }\n{ r29 = add(r29,#16) }\n?text:3\
|frame 0\nblock e\n{ jumpr r31 }\n{ r0 = #32768 }\n?text:4\
|frame 0\nblock e\n{ jumpr r31 }\n{ r0 = r1;r2 = r1 }\n?text:4\
|frame 0\nblock e\n{ nop }\n{ r0 = r1; r0 = r2 }\n?text:4\
|frame 0\nblock e\n{ jump e }\nnop\n?text:4\
|frame 0\nblock e\n{ nop }\n?text:3\
|frame 0\nblock e\n{ if (p0) jump e }\n?text:3\
|frame 0\nblock e\n{ if (p0) jump f }\nblock f\n{ jumpr r31 }\n?text:0\
|frame 0\nblock e\n{ nop; r0 = r1 }\n{ jumpr r31 }\n?text:3\
|frame 8\nblock e\n{ r29 = add(r29,#-8) }\n{ r29 = add(r29,#8); jumpr r31 }\n?text:0\
|frame 0\nblock e\n{ r29 = add(r29,#-8) }\n{ jumpr r31 }\n?text:3\
|frame 0\nblock e\n{ r29 = add(r29,#0); jumpr r31 }\n?text:3\
|frame 0\nblock e\n{ r0 = r1; jumpr r31 }\n\n?text:4\
|# Jumps on fresh predicates, by a model of another hand.\
|frame 0\nblock e\n{ p0 = cmp.gt(r0,#0); if (p0.new) jump t }\nblock t\n{ jumpr r31 }\n?text:0\
|frame 0\nblock e\n{ p0 = cmp.gt(r0,#0); if (!p0.new) jump t }\nblock t\n{ jumpr r31 }\n?text:0\
|frame 0\nblock e\n{ p0 = cmp.eq(r0,r1); if (p0.new) jump t }\nblock t\n{ jumpr r31 }\n?text:0\
|frame 0\nblock e\n{ p0 = cmp.eq(r0,#5); if (p0.new) jump t }\nblock t\n{ jumpr r31 }\n?text:0\
|frame 0\nblock e\n{ p0 = cmp.gt(r0,r1); if (p1.new) jump t }\nblock t\n{ jumpr r31 }\n?text:3\
|frame 0\nblock e\n{ if (p0.new) jump t }\nblock t\n{ jumpr r31 }\n?text:3\
|frame 0\nblock e\n{ r0 = p0; if (p0.new) jump t }\nblock t\n{ jumpr r31 }\n?text:3\
|frame 0\nblock e\n{ p0 = cmp.gt(r0,#0); p1 = cmp.gt(r1,#0); if (p1.new) jump t }\nblock t\n{ jumpr r31 }\n?text:0\
|frame 0\nblock e\n{ p0 = cmp.gt(r0,#0); if (p0.new) jump t; jump t }\nblock t\n{ jumpr r31 }\n?text:3\
|frame 0\nblock e\n{ p0 = cmp.gt(r0,#0); if (p0.new) jump t; if (!p0.new) jump t }\nblock t\n{ jumpr r31 }\n?text:3\
|frame 0\nblock e\n{ p0 = cmp.gt(r0,#0); if (p0) jump t }\nblock t\n{ jumpr r31 }\n?text:0\
|frame 0\nblock e\n{ p0 = cmp.gt(r0,#0); if (p0.new) jump e }\nblock t\n{ jumpr r31 }\n?text:0\
|frame 0\nblock e\n{ p0 = cmp.gt(r0,#0); if (p4.new) jump t }\nblock t\n{ jumpr r31 }\n?text:3\
|frame 0\nblock e\n{ p0 = cmp.gt(r0,#0); if ( p0.new) jump t }\nblock t\n{ jumpr r31 }\n?text:3\
|frame 0\nblock e\n{ p0 = cmp.gt(r0,#0); if (p0 .new) jump t }\nblock t\n{ jumpr r31 }\n?text:3\
|frame 0\nblock e\n{ p0 = cmp.gt(r0,#0); if (!p0.new)jump t }\nblock t\n{ jumpr r31 }\n?text:3\
|frame 0\nblock e\n{ p0 = cmp.gt(r0,#0); jump.new t }\nblock t\n{ jumpr r31 }\n?text:3\
|frame 0\nblock e\n{ p0 = cmp.gt(r0,#0); if (p0.new) jump t; r1 = r2; r2 = r1; r3 = r4 }\nblock t\n{ jumpr r31 }\n?text:3\
|frame 0\nblock e\n{ r5 = mpyi(r1,r2); p0 = cmp.gt(r0,#0); if (p0.new) jump t }\nblock t\n{ jumpr r31 }\n?text:0\
|frame 0\nblock e\n{ r5 = memw(r1+#0); r6 = memw(r2+#0); p0 = cmp.gt(r0,#0); if (p0.new) jump t }\nblock t\n{ jumpr r31 }\n?text:0\
|frame 0\nblock e\n{ p0 = cmp.gt(r0,#0); call f(r0); if (p0.new) jump t }\nblock t\n{ jumpr r31 }\n?text:3\
|frame 0\nblock e\n{ p0 = cmp.gt(r0,#0); call f() }\nblock t\n{ jumpr r31 }\n?text:3\
|frame 0\nblock e\n{ p0 = cmp.gt(r0,#512); if (p0.new) jump t }\nblock t\n{ jumpr r31 }\n?text:3\
|frame 0\nblock e\n{ p0 = cmp.gt(r29,#0); if (p0.new) jump t }\nblock t\n{ jumpr r31 }\n?text:0\
|frame 0\nblock e\n{ p0 = r1; p1 = cmp.gt(r0,#0); if (p1.new) jump t }\nblock t\n{ jumpr r31 }\n?text:0\
|frame 0\nblock e\n{ p0 = cmp.gt(r0,#0) }\n{ if (p0.new) jump t }\nblock t\n{ jumpr r31 }\n?text:4\
|frame 0\nblock e\n{ p0 = cmp.gt(r0,#0); if (p0.new) jump t }\n?text:3\
|frame 0\nblock e\nblock t\n{ jumpr r31 }\n{ p0 = cmp.gt(r0,#0); if (p0.new) jump t }\n?text:4\
|frame 0\nblock e\n{ p0 = cmp.gt(r0,#0); if (p0.new) jump t }\nblock t\n?text:4\
|frame 8\nblock e\n{ r29 = add(r29,#-8); p0 = cmp.gt(r0,#0); if (p0.new) jump t }\nblock t\n{ jumpr r31 }\n?text:0\
|frame 8\nblock e\n{ memw(r29+#0) = r1; p0 = cmp.gt(r0,#0); if (p0.new) jump t }\nblock t\n{ jumpr r31 }\n?text:0\
|frame 1032\nblock e\n{ p0 = cmp.gt(r0,#0); if (p0.new) jump t }\nblock t\n{ jumpr r31 }\n?text:1\
|# Listings, and what comes out of their runs.
|frame 8
block e
{ r29 = add(r29,#-8); r0 = r1; r1 = r0 }
{ memw(r29+#0) = r16; r16 = r31; call h(r0,r1) }
{ r29 = add(r29,#8); r31 = r16; r16 = memw(r29+#0) }
{ jumpr r31 }
?packets 10;5 9 0 0 0 0 44;;0:returned 0 target 100
call h 9 5
cycles 4
|frame 8
block e
{ r29 = add(r29,#-8) }
{ memw(r29+#0) = r16; r16 = r31 }
{ r17 = r0; memw(r29+#4) = r17; call h(r0) }
{ r0 = add(r0,r17); r31 = r16; r16 = memw(r29+#0); r17 = memw(r29+#4) }
{ r29 = add(r29,#8); jumpr r31 }
?packets 10;5 0 0 0 0 0 0;;7:returned 12 target 100
call h 5
cycles 5
|&?packets 10;5 0 0 0 0 0 0;:waiting h 5
cycles 2
|frame 0
block entry
{ r3 = #0 }
block loop
{ r4 = memw(r0+#0); r5 = memw(r1+#0); r0 = add(r0,#4); r1 = add(r1,#4) }
{ r2 = add(r2,#-1) }
{ r4 = mpyi(r4,r5); p0 = cmp.gt(r2,#0) }
{ nop }
{ r3 = add(r3,r4); if (p0) jump loop }
block exit
{ r0 = r3; jumpr r31 }
?packets 10;256 272 2 0 0 0 0;256=3 260=4 272=5 276=6:returned 39 target 100
mem 256 3
mem 260 4
mem 272 5
mem 276 6
cycles 12
|frame 0
block e
{ memw(r0+#0) = r2; r3 = memw(r1+#0) }
{ jumpr r31 }
?packets 10;256 258 9 0 0 0 0;256=17:trapped
mem 256 17
cycles 0
|frame 0
block e
{ r3 = memw(r0+#0); memw(r0+#0) = r2 }
{ nop }
{ r0 = r3; jumpr r31 }
?packets 10;256 0 9 0 0 0 0;256=17:returned 17 target 100
mem 256 9
cycles 3
|frame 24
block e
{ r29 = add(r29,#-24) }
{ memw(r29+#0) = r0 }
{ memw(r29+#4) = r1 }
{ memw(r29+#16) = r31 }
{ r0 = memw(r29+#0) }
{ nop }
{ r1 = memw(r29+#4) }
{ nop }
{ p0 = cmp.eq(r0,r1) }
{ r0 = p0 }
{ memw(r29+#8) = r0 }
{ r0 = memw(r29+#0) }
{ nop }
{ call h(r0) }
{ r0 = memw(r29+#8) }
{ nop }
{ p0 = r0 }
{ r1 = memw(r29+#0) }
{ nop }
{ r2 = memw(r29+#4) }
{ nop }
{ r0 = mux(p0,r1,r2) }
{ r31 = memw(r29+#16) }
{ nop }
{ r29 = add(r29,#24) }
{ jumpr r31 }
?packets 10;5 9 0 0 0 0 0;;0:returned 9 target 100
call h 5
cycles 26
|&?packets 10;9 9 0 0 0 0 0;;0:returned 9 target 100
call h 9
cycles 26
|frame 16
block entry
{ r29 = add(r29,#-16); r3 = #0 }
{ memw(r29+#0) = r3 }
block loop
{ r3 = memw(r29+#0); r4 = memw(r0+#0) }
{ r0 = add(r0,#4); r2 = add(r2,#-1) }
{ r3 = add(r3,r4); p0 = cmp.gt(r2,#0) }
{ memw(r29+#0) = r3; if (p0) jump loop }
block exit
{ r0 = memw(r29+#0) }
{ nop }
{ r29 = add(r29,#16); jumpr r31 }
?packets 10;256 0 2 0 0 0 0;256=3 260=4 272=5 276=6:returned 7 target 100
mem 256 3
mem 260 4
mem 272 5
mem 276 6
cycles 13
";

/// Appends whether something is so.
pub(crate) fn put_truth(out: &mut Vec<u8>, is_so: bool) -> Result<(), NoMemory> {
    put_text(out, if is_so { b"yes" } else { b"no" })
}

/// Appends whether a line spells something, or is a packet's by its form and breaks a rule.
fn put_line(alloc: Global, out: &mut Vec<u8>, line: &[u8]) -> Result<(), NoMemory> {
    match read_line(alloc, 8, line)? {
        Some(Line::Broken) => put_text(out, b"broken"),
        line => put_truth(out, line.is_some()),
    }
}

/// Appends the frame that a line is read as.
fn put_frame(out: &mut Vec<u8>, line: &[u8]) -> Result<(), NoMemory> {
    match read_frame(line, FRAME) {
        Some(frame) => put_number(out, u64::from(frame)),
        None => put_text(out, b"none"),
    }
}

/// Whether code is printed as a text.
fn is_printed(alloc: Global, code: &Code, text: &[u8]) -> bool {
    match print_code(alloc, code) {
        Ok(printed) => printed.as_slice() == text,
        Err(_) => false,
    }
}

/// Appends the first bad line of a text, 0 where it is the listing of what is read.
fn put_first_bad(alloc: Global, out: &mut Vec<u8>, text: &[u8]) -> Result<(), NoMemory> {
    match read_code(alloc, text) {
        Ok(code) => put_text(
            out,
            if is_printed(alloc, &code, text) {
                b"0"
            } else {
                b"?"
            },
        ),
        Err(ListingError::NoMemory) => Err(NoMemory),
        Err(ListingError::BadListing { line }) => put_number(out, u64::from(line)),
    }
}

/// What a run of at most so many blocks comes to.
fn run_from(alloc: Global, code: &Code, start: &Start, blocks: u32) -> Result<Vec<u8>, NoMemory> {
    let outcome = run_packets(alloc, code, &hexagon(), start, blocks)?;
    print_outcome(alloc, &[], &outcome)
}

/// What the run of a question comes to.
fn run_of(alloc: Global, code: &Code, question: &[u8]) -> Result<Vec<u8>, NoMemory> {
    let (blocks, given) = cut(question, b';');
    let start = start(alloc, given)?;
    run_from(alloc, code, &start, number_at(blocks, 1))
}

/// Appends what the run of a question comes to.
fn put_run_of(
    alloc: Global,
    out: &mut Vec<u8>,
    code: &Code,
    question: &[u8],
) -> Result<(), NoMemory> {
    let shown = run_of(alloc, code, question)?;
    put_text(out, shown.as_slice())
}

/// Appends what the run of the code of the largest frame comes to.
fn put_framed(alloc: Global, out: &mut Vec<u8>, question: &[u8]) -> Result<(), NoMemory> {
    let code = framed_code(alloc)?;
    put_run_of(alloc, out, &code, question)
}

/// Appends what the run of a listing comes to.
fn put_run(alloc: Global, out: &mut Vec<u8>, text: &[u8], question: &[u8]) -> Result<(), NoMemory> {
    match read_code(alloc, text) {
        Ok(code) => put_run_of(alloc, out, &code, question),
        Err(_) => Err(NoMemory),
    }
}

/// Appends the answer to a question about a listing.
pub(crate) fn put_of_listing(
    alloc: Global,
    out: &mut Vec<u8>,
    text: &[u8],
    question: &[u8],
) -> Result<(), NoMemory> {
    match question.first() {
        Some(b'l') => put_line(alloc, out, text),
        Some(b'f') => put_frame(out, text),
        Some(b'e') => put_framed(alloc, out, question),
        Some(b'i') => put_in_range(out, text, question),
        Some(b'm') => put_memory(alloc, out),
        Some(b's') => put_saved(alloc, out),
        Some(b't') => put_first_bad(alloc, out, text),
        _ => put_run(alloc, out, text, question),
    }
}

#[test]
fn answers_of_listings(rt: HostRuntime) {
    let well = matches!(all_answered(rt.alloc(), About::Listings, ROWS), Ok(true));
    assert!(rt; well && computes());
}
