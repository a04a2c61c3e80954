//! `run` over sources and sinks in memory.

use crate::rows::{cut, number, number_at, wrong_row};
use std::alloc::{AllocError, Global};
use std::str::from_utf8;
use un_base::memory_error::NoMemory;
use un_ir::text::{put_number, put_text};
use un_outside::memory::{MemSink, MemSource};
use un_outside::status::Status;
use un_outside::words::Word;
use un_top::run::run;

/// Texts and the words of a run, behind `;` also how many bytes a call of the source or of `out` moves, how many bytes `out`
/// holds, and the numbers of the calls of the source, of `out` and of `err` that fail, where `-` is none. Then what is left: the
/// status, and what `out` and `err` hold, behind `>` each.
static RUNS: &[u8] = b"# The smallest function, by pieces of any size and in another spelling.\
|func f
block e freq 1
  ret
?alloc:done>unison 3
function f
model regs all slots 256 nodes 2000
answer code
cost 1
bound 1
listing 3
frame 0
block e
{ jumpr r31 }
solution 124
16 17 18 19 20 21 22 23 24 25 26 27 31 0 0 0
0 0 0 0 0 0 0 0 0 0 0 0 0 0 0 0
0 0 0 0 0 0 0 0 0 0 0 0 0 0 0 0
0 0 0 0 0 0 0 0 0 0 0 0 1 0 0 0
0 0 0 0 0 0 0 0 0 0 0 0 0 0 0 0
0 0 0 0 0 0 0 0 0 0 0 0 0 0 0 0
0 0 0 0 0 0 0 0 0 0 0 0 0 0 0 0
0 0 0 0 0 0 0 0 0 0 2 0
tree 1
C
end
>\
|&?alloc;1:done>unison 3
function f
model regs all slots 256 nodes 2000
answer code
cost 1
bound 1
listing 3
frame 0
block e
{ jumpr r31 }
solution 124
16 17 18 19 20 21 22 23 24 25 26 27 31 0 0 0
0 0 0 0 0 0 0 0 0 0 0 0 0 0 0 0
0 0 0 0 0 0 0 0 0 0 0 0 0 0 0 0
0 0 0 0 0 0 0 0 0 0 0 0 1 0 0 0
0 0 0 0 0 0 0 0 0 0 0 0 0 0 0 0
0 0 0 0 0 0 0 0 0 0 0 0 0 0 0 0
0 0 0 0 0 0 0 0 0 0 0 0 0 0 0 0
0 0 0 0 0 0 0 0 0 0 2 0
tree 1
C
end
>\
|; the smallest\r\n\r\nfunc f ; no parameter\r\n\tblock e freq 001 ; once\r\n\r\nret ; at once?alloc:done>unison 3
function f
model regs all slots 256 nodes 2000
answer code
cost 1
bound 1
listing 3
frame 0
block e
{ jumpr r31 }
solution 124
16 17 18 19 20 21 22 23 24 25 26 27 31 0 0 0
0 0 0 0 0 0 0 0 0 0 0 0 0 0 0 0
0 0 0 0 0 0 0 0 0 0 0 0 0 0 0 0
0 0 0 0 0 0 0 0 0 0 0 0 1 0 0 0
0 0 0 0 0 0 0 0 0 0 0 0 0 0 0 0
0 0 0 0 0 0 0 0 0 0 0 0 0 0 0 0
0 0 0 0 0 0 0 0 0 0 0 0 0 0 0 0
0 0 0 0 0 0 0 0 0 0 2 0
tree 1
C
end
>\
|# A sum of two parameters and its return share a packet; the block runs ten times.\
|func g %a %b
block e freq 10
  %c = add %a, %b
  ret %c
?alloc:done>unison 3
function g
model regs all slots 256 nodes 2000
answer code
cost 10
bound 10
listing 3
frame 0
block e
{ r0 = add(r0,r1); jumpr r31 }
...\
|# The loop of a dot product has five packets.\
|func dot %x %y %n
block entry freq 1
  %s = imm #0
block loop freq 100
  %u = load %x, #0
  %v = load %y, #0
  %m = mpyi %u, %v
  %s = add %s, %m
  %x = addi %x, #4
  %y = addi %y, #4
  %n = addi %n, #-1
  $c = cmpgti %n, #0
  if $c jump loop
block exit freq 1
  ret %s
?alloc:done>unison 3
function dot
model regs all slots 256 nodes 2000
answer code
cost 502
bound 502
...\
|# Blocks without an operation have no packet.\
|func e
block a freq 3
block b freq 7
block c freq 2
  ret
?alloc:done>unison 3
function e
model regs all slots 256 nodes 2000
answer code
cost 2
bound 2
listing 5
frame 0
block a
block b
block c
{ jumpr r31 }
...\
|# Four constants fill a packet, and the fifth waits.\
|func s
block e freq 1
  %a = imm #1
  %b = imm #2
  %c = imm #3
  %d = imm #4
  %e = imm #5
  %p = add %a, %b
  %q = add %c, %d
  %r = add %p, %q
  %t = add %r, %e
  ret %t
?alloc:done>unison 3
function s
model regs all slots 256 nodes 2000
answer code
cost 4
bound 4
...\
|&?numbers alloc --nodes 50:done cost 4.. bound 4 frame 0..\
|# A predicate across a call, by one node: each name is kept in a slot, and the bound is what precedences say.\
|func q %a %b
block e freq 1
  $p = cmpeq %a, %b
  call h %a
  %r = mux $p, %a, %b
  ret %r
?alloc --nodes 1:done>unison 3
function q
model regs all slots 256 nodes 1
answer code
cost 29
bound 2
listing 31
frame 24
block e
{ r29 = add(r29,#-24) }
{ memw(r29+#0) = r0 }
{ memw(r29+#4) = r1 }
{ memw(r29+#16) = r31 }
{ r0 = memw(r29+#0) }
{ nop }
{ r1 = memw(r29+#4) }
{ nop }
{ p0 = cmp.eq(r0,r1) }
{ r0 = p0 }
{ memw(r29+#8) = r0 }
{ r0 = memw(r29+#0) }
{ nop }
{ call h(r0) }
{ r0 = memw(r29+#8) }
{ nop }
{ p0 = r0 }
{ r1 = memw(r29+#0) }
{ nop }
{ r2 = memw(r29+#4) }
{ nop }
{ r0 = mux(p0,r1,r2) }
{ memw(r29+#12) = r0 }
{ r0 = memw(r29+#12) }
{ nop }
{ r31 = memw(r29+#16) }
{ nop }
{ r29 = add(r29,#24) }
{ jumpr r31 }
...tree 1
O
end
>\
|# Two operands cannot stand in one register.\
|func two
block e freq 1
  %a = imm #1
  %b = imm #2
  %c = add %a, %b
  ret %c
?alloc --regs 1:infeasible>unison 3
function two
model regs 1 slots 256 nodes 2000
answer infeasible
tree 1
C
end
>\
|&?alloc --nodes 1 --regs 1:infeasible>unison 3
function two
model regs 1 slots 256 nodes 1
answer infeasible
tree 1
C
end
>\
|# Twelve saved values and the link register's cross the call, which keeps twelve registers, and there is no slot.\
|func k
block e freq 1
  call h
  ret
?alloc --slots 0:infeasible>unison 3
function k
model regs all slots 0 nodes 2000
answer infeasible
tree 1
C
end
>\
|# One node, with too few registers for the arguments of every call, and with enough.\
|func f
block e freq 1
  ret
?alloc --regs 5 --nodes 1:spent>unison 3
function f
model regs 5 slots 256 nodes 1
answer spent
tree 1
O
end
>\
|&?alloc --regs 29 --nodes 1:done>unison 3
function f
model regs 29 slots 256 nodes 1
answer code
cost 6
bound 1
listing 8
frame 8
block e
{ r29 = add(r29,#-8) }
{ memw(r29+#0) = r31 }
{ r31 = memw(r29+#0) }
{ nop }
{ r29 = add(r29,#8) }
{ jumpr r31 }
...\
|&?alloc --nodes 1:done>unison 3
function f
model regs all slots 256 nodes 1
answer code
cost 6
bound 1
listing 8
frame 8
block e
{ r29 = add(r29,#-8) }
{ memw(r29+#0) = r31 }
{ r31 = memw(r29+#0) }
{ nop }
{ r29 = add(r29,#8) }
{ jumpr r31 }
...tree 1
O
end
>\
|# Sixteen blocks that run a million times each; all but the last only lead on.\
|func f
block b0 freq 1000000
  jump b1
block b1 freq 1000000
  jump b2
block b2 freq 1000000
  jump b3
block b3 freq 1000000
  jump b4
block b4 freq 1000000
  jump b5
block b5 freq 1000000
  jump b6
block b6 freq 1000000
  jump b7
block b7 freq 1000000
  jump b8
block b8 freq 1000000
  jump b9
block b9 freq 1000000
  jump b10
block b10 freq 1000000
  jump b11
block b11 freq 1000000
  jump b12
block b12 freq 1000000
  jump b13
block b13 freq 1000000
  jump b14
block b14 freq 1000000
  jump b15
block b15 freq 1000000
  ret
?alloc:done>unison 3
function f
model regs all slots 256 nodes 2000
answer code
cost 16000000
bound 16000000
...\
|# Words that are no command.\
|func f
block e freq 1
  ret
?:usage 0>>usage: word 0
|&?alloc --nodes 0:usage 2>>usage: word 2
|&?alloc --regs:usage 2>>usage: word 2
|&?alloc --slots 1 --slots 1:usage 3>>usage: word 3
|&?alloc x:usage 1>>usage: word 1
|&?x alloc x:usage 0>>usage: word 0
|# Texts with a fault of the input language, with its line and its code.\
|?alloc:fault 1 6>>line 1: 6 NoBlock\n\
|func f\nblock e freq 0\n  ret\n?alloc:fault 2 14>>line 2: 14 BadFreq\n\
|func f\nblock e freq 1\n?alloc:fault 2 8>>line 2: 8 FallsOff\n\
|func f\nblock e freq 3\n  %a = imm #40000\n?alloc:fault 3 3>>line 3: 3 WideLiteral\n\
|func f\nblock e freq 3\n  %a = cmpeq %b, %c\n?alloc:fault 3 10>>line 3: 10 KindClash\n\
|func f\nblock e freq 3\n---\n?alloc:fault 3 2>>line 3: 2 BadLine\n\
|func f\nblock e freq 3\n  jump e\n?alloc:fault 3 9>>line 3: 9 JumpToEntry\n\
|func f\nblock e freq 3\n  jump g\n?alloc:fault 3 5>>line 3: 5 UnknownLabel\n\
|func u\nblock a freq 1\n  ret %x\n?alloc:fault 2 12>>line 2: 12 LiveAtEntry\n\
|func f\nblock e freq 3\n  ret\n  ret\n?alloc:fault 4 7>>line 4: 7 AfterEnd\n\
|func f\nblock e freq 3\n  ret\nblock e freq 3\n?alloc:fault 4 4>>line 4: 4 DupLabel\n\
|func f %a\nblock e freq 3\n  ret\nblock g freq 3\n  ret %a\n?alloc:fault 5 11>>line 5: 11 MixedResult\n\
|func f\x01\n?alloc:fault 1 1>>line 1: 1 BadByte\n\
|func f %a %b %c %d %e %f %g\n?alloc:fault 1 13>>line 1: 13 TooMany\n\
|# A text may have 262,144 bytes and no more.\
|x^262144?alloc:fault 1 2>>line 1: 2 BadLine
|x^262145?alloc:fault 0 13>>line 0: 13 TooMany
|# Each call of the source may fail: two that give bytes, and one that gives none.\
|func f
block e freq 1
  ret
?alloc;16 65536 0:read fault>>read fault
|&?alloc;16 65536 1:read fault>>read fault
|&?alloc;16 65536 2:read fault>>read fault
|# Each of the first calls of `out` may fail, and leaves the pieces before it.\
|func f
block e freq 1
  ret
?alloc;64 65536 - 0:write fault>>write fault
|&?alloc;64 65536 - 1:write fault>unison 3
function f
model regs all slots 256 nodes 2000
answer c>write fault
|&?alloc;64 65536 - 2:write fault>unison 3
function f
model regs all slots 256 nodes 2000
answer code
cost 1
bound 1
listing 3
frame 0
block e
{ jumpr r31 }
solut>write fault
|&?alloc;64 65536 - 3:write fault>unison 3
function f
model regs all slots 256 nodes 2000
answer code
cost 1
bound 1
listing 3
frame 0
block e
{ jumpr r31 }
solution 124
16 17 18 19 20 21 22 23 24 25 26 27 31 0 0 0
0 0 0 0 0 0>write fault
|# `out` keeps what has room, and a fault of `err` changes no status.\
|func f
block e freq 1
  ret
?alloc;4096 10:write fault>unison 3
f>write fault
|?alloc;4096 65536 - - 0:fault 1 6>>";

/// The same, of more values than there are registers. It takes longer than the others.
static PRESSED: &[u8] =
    b"# Across the call 29 values live, sixteen loaded ones, twelve saved ones and the link, and twelve registers are kept. A load, the call
# and sixteen sums stand one behind another, in 18 packets with the return; with each name in a slot there are 187.\
|func w %x
block e freq 1
  %v0 = load %x, #0
  %v1 = load %x, #4
  %v2 = load %x, #8
  %v3 = load %x, #12
  %v4 = load %x, #16
  %v5 = load %x, #20
  %v6 = load %x, #24
  %v7 = load %x, #28
  %v8 = load %x, #32
  %v9 = load %x, #36
  %v10 = load %x, #40
  %v11 = load %x, #44
  %v12 = load %x, #48
  %v13 = load %x, #52
  %v14 = load %x, #56
  %v15 = load %x, #60
  %s = call h
  %s = add %s, %v0
  %s = add %s, %v1
  %s = add %s, %v2
  %s = add %s, %v3
  %s = add %s, %v4
  %s = add %s, %v5
  %s = add %s, %v6
  %s = add %s, %v7
  %s = add %s, %v8
  %s = add %s, %v9
  %s = add %s, %v10
  %s = add %s, %v11
  %s = add %s, %v12
  %s = add %s, %v13
  %s = add %s, %v14
  %s = add %s, %v15
  ret %s
?numbers alloc --nodes 3:done cost 18..186 bound 18..186 frame 72..\
|# Seventeen words are loaded before the first is stored. In the cycle of that store sixteen of them, both addresses, twelve saved values
# and the link are read later, one more than there are registers. So by then there are 19 accesses with a Spill, which fill ten cycles, and
# sixteen stores come after it.\
|func l %x %y
block e freq 1
  %v0 = load %x, #0
  %v1 = load %x, #4
  %v2 = load %x, #8
  %v3 = load %x, #12
  %v4 = load %x, #16
  %v5 = load %x, #20
  %v6 = load %x, #24
  %v7 = load %x, #28
  %v8 = load %x, #32
  %v9 = load %x, #36
  %v10 = load %x, #40
  %v11 = load %x, #44
  %v12 = load %x, #48
  %v13 = load %x, #52
  %v14 = load %x, #56
  %v15 = load %x, #60
  %v16 = load %x, #64
  store %y, #0, %v0
  store %y, #4, %v1
  store %y, #8, %v2
  store %y, #12, %v3
  store %y, #16, %v4
  store %y, #20, %v5
  store %y, #24, %v6
  store %y, #28, %v7
  store %y, #32, %v8
  store %y, #36, %v9
  store %y, #40, %v10
  store %y, #44, %v11
  store %y, #48, %v12
  store %y, #52, %v13
  store %y, #56, %v14
  store %y, #60, %v15
  store %y, #64, %v16
  ret %x
?numbers alloc --nodes 3:done cost 26 bound 26 frame 8..\
|# With sixteen words there are as many values as registers: 17 accesses fill nine cycles, and fifteen stores come after them.\
|func m %x %y
block e freq 1
  %v0 = load %x, #0
  %v1 = load %x, #4
  %v2 = load %x, #8
  %v3 = load %x, #12
  %v4 = load %x, #16
  %v5 = load %x, #20
  %v6 = load %x, #24
  %v7 = load %x, #28
  %v8 = load %x, #32
  %v9 = load %x, #36
  %v10 = load %x, #40
  %v11 = load %x, #44
  %v12 = load %x, #48
  %v13 = load %x, #52
  %v14 = load %x, #56
  %v15 = load %x, #60
  store %y, #0, %v0
  store %y, #4, %v1
  store %y, #8, %v2
  store %y, #12, %v3
  store %y, #16, %v4
  store %y, #20, %v5
  store %y, #24, %v6
  store %y, #28, %v7
  store %y, #32, %v8
  store %y, #36, %v9
  store %y, #40, %v10
  store %y, #44, %v11
  store %y, #48, %v12
  store %y, #52, %v13
  store %y, #56, %v14
  store %y, #60, %v15
  ret %x
?numbers alloc --nodes 3:done cost 24 bound 24 frame 0..";

/// Adds a word.
fn add(words: &mut Vec<Word>, word: Word) -> Result<(), AllocError> {
    words.push(word)?;
    Ok(())
}

/// The words of a command line.
fn words_of(alloc: Global, text: &[u8]) -> Result<Vec<Word>, NoMemory> {
    let mut words = Vec::new(alloc);
    for word in text.split(|b| *b == b' ') {
        if !word.is_empty() {
            let word = Word::new(alloc, from_utf8(word).unwrap_or(""))?;
            add(&mut words, word)?;
        }
    }
    Ok(words)
}

/// A text; where it goes on behind `^`, it is filled with `x`.
fn bytes_of(alloc: Global, text: &[u8]) -> Result<Vec<u8>, AllocError> {
    let (head, size) = cut(text, b'^');
    let mut bytes = head.to_vec(alloc)?;
    if !size.is_empty() {
        bytes.resize(number(size).min(300_000) as usize, b'x')?;
    }
    Ok(bytes)
}

/// The source over a text.
fn source(alloc: Global, text: &[u8], outside: &[u8]) -> Result<MemSource, AllocError> {
    let fails = [number_at(outside, 2)].to_vec(alloc)?;
    let bytes = bytes_of(alloc, text)?;
    let piece = number_at(outside, 0).clamp(1, 4096) as usize;
    Ok(MemSource::new(bytes, piece, fails))
}

/// A sink with so much room, whose call of this number fails.
fn sink(alloc: Global, room: u64, piece: u64, fails: u64) -> Result<MemSink, NoMemory> {
    let fails = [fails].to_vec(alloc)?;
    let room = room.min(262_144) as usize;
    MemSink::new(alloc, room, piece.clamp(1, 4096) as usize, fails)
}

/// Appends words and a number.
fn put_number_of(found: &mut Vec<u8>, words: &[u8], n: u32) -> Result<(), NoMemory> {
    put_text(found, words)?;
    put_number(found, u64::from(n))
}

/// Appends a status.
fn put_status(found: &mut Vec<u8>, status: Status) -> Result<(), NoMemory> {
    match status {
        Status::Done => put_text(found, b"done"),
        Status::Infeasible => put_text(found, b"infeasible"),
        Status::Spent => put_text(found, b"spent"),
        Status::ReadFault => put_text(found, b"read fault"),
        Status::WriteFault => put_text(found, b"write fault"),
        Status::NoMemory => put_text(found, b"no memory"),
        Status::Usage { word } => put_number_of(found, b"usage ", word),
        Status::BadReport { line } => put_number_of(found, b"bad ", line),
        Status::BadTable { code } => put_number_of(found, b"bad table ", u32::from(code)),
        Status::NoLog { node } => put_number_of(found, b"no log ", node),
        Status::BadSteps { line } => put_number_of(found, b"bad steps ", line),
        Status::Found { cost } => {
            put_text(found, b"found ")?;
            put_number(found, cost)
        }
        Status::Cut => put_text(found, b"cut"),
        Status::TextFault { line, code } => {
            put_number_of(found, b"fault ", line)?;
            put_number_of(found, b" ", u32::from(code))
        }
        Status::No(_) => put_text(found, b"no"),
    }
}

/// Appends a status, and what `out` and `err` hold.
fn put_held(
    found: &mut Vec<u8>,
    status: Status,
    out: &MemSink,
    err: &MemSink,
) -> Result<(), NoMemory> {
    put_status(found, status)?;
    put_text(found, b">")?;
    put_text(found, out.bytes())?;
    put_text(found, b">")?;
    put_text(found, err.bytes())
}

/// Appends what a run over this source and `out` leaves.
fn put_run_in(
    alloc: Global,
    found: &mut Vec<u8>,
    words: &[Word],
    src: &mut MemSource,
    out: &mut MemSink,
    outside: &[u8],
) -> Result<(), NoMemory> {
    let mut err = sink(alloc, 4096, 4096, number_at(outside, 4))?;
    let status = run(alloc, words, src, out, &mut err);
    put_held(found, status, out, &err)
}

/// Appends what a run over this source leaves.
fn put_run_from(
    alloc: Global,
    found: &mut Vec<u8>,
    words: &[Word],
    src: &mut MemSource,
    outside: &[u8],
) -> Result<(), NoMemory> {
    let (piece, room) = (number_at(outside, 0), number_at(outside, 1));
    let mut out = sink(alloc, room, piece, number_at(outside, 3))?;
    put_run_in(alloc, found, words, src, &mut out, outside)
}

/// Appends what a run by these words leaves.
fn put_run_by(
    alloc: Global,
    found: &mut Vec<u8>,
    words: &[Word],
    text: &[u8],
    outside: &[u8],
) -> Result<(), NoMemory> {
    let mut src = source(alloc, text, outside)?;
    put_run_from(alloc, found, words, &mut src, outside)
}

/// Appends what the run of a question leaves: its status, and what `out` and `err` hold.
pub(crate) fn put_run(
    alloc: Global,
    found: &mut Vec<u8>,
    text: &[u8],
    question: &[u8],
) -> Result<(), NoMemory> {
    let (words, outside) = cut(question, b';');
    let words = words_of(alloc, words)?;
    put_run_by(alloc, found, words.as_slice(), text, outside)
}

/// Appends the status of a run of `alloc`, and the cost, the bound and the frame of its report.
pub(crate) fn put_numbers(
    alloc: Global,
    out: &mut Vec<u8>,
    text: &[u8],
    question: &[u8],
) -> Result<(), NoMemory> {
    let mut found = Vec::new(alloc);
    put_run(alloc, &mut found, text, cut(question, b' ').1)?;
    let (status, report) = cut(found.as_slice(), b'>');
    put_text(out, status)?;
    for line in report.split(|b| *b == b'\n') {
        if matches!(cut(line, b' ').0, b"cost" | b"bound" | b"frame") {
            put_text(out, b" ")?;
            put_text(out, line)?;
        }
    }
    Ok(())
}

#[test]
fn runs_leave_what_is_wanted(rt: HostRuntime) {
    let wrong = wrong_row(rt.alloc(), RUNS);
    assert!(rt; wrong.is_empty(), "{wrong}");
}

#[test]
fn runs_spill_what_has_no_register(rt: HostRuntime) {
    let wrong = wrong_row(rt.alloc(), PRESSED);
    assert!(rt; wrong.is_empty(), "{wrong}");
}
