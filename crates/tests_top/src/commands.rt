//! The commands `run`, `run --code` and `gen`, over sources and sinks in memory: rows worked out by hand from the rules of the processor,
//! of starts and of outcomes, and generated functions as another program made them.

use crate::rows::wrong_row;

/// Inputs, the words of a run, and what is left, as for runs of `alloc`.
static COMMANDS: &[u8] =
    b"# Two arguments change places while a frame is made, and the call reads them so.\
|frame 8
block e
{ r29 = add(r29,#-8); r0 = r1; r1 = r0 }
{ memw(r29+#0) = r16; r16 = r31; call h(r0,r1) }
{ r29 = add(r29,#8); r31 = r16; r16 = memw(r29+#0) }
{ jumpr r31 }
---
reg 0 5
reg 1 9
reg 16 44
reg 29 4096
reg 31 100
reply 0
blocks 5
?run --code:done>returned 0 target 100
call h 9 5
cycles 4
>\
|# A dot product of two numbers: five packets a turn, two turns, and a packet before and behind.\
|frame 0
block entry
{ r3 = #0 }
block loop
{ r4 = memw(r0+#0); r5 = memw(r1+#0); r0 = add(r0,#4); r1 = add(r1,#4) }
{ r2 = add(r2,#-1) }
{ r4 = mpyi(r4,r5); p0 = cmp.gt(r2,#0) }
{ nop }
{ r3 = add(r3,r4); if (p0) jump loop }
block exit
{ r0 = r3; jumpr r31 }
---
reg 0 256
reg 1 272
reg 2 2
reg 31 100
mem 256 3
mem 260 4
mem 272 5
mem 276 6
blocks 10
?run --code:done>returned 39 target 100
mem 256 3
mem 260 4
mem 272 5
mem 276 6
cycles 12
>\
|# The same by the function.\
|func dot %x %y %n
block entry freq 1
  %s = imm #0
block loop freq 100
  %u = load %x, #0
  %v = load %y, #0
  %m = mpyi %u, %v
  %s = add %s, %m
  %x = addi %x, #4
  %y = addi %y, #4
  %n = addi %n, #-1
  $c = cmpgti %n, #0
  if $c jump loop
block exit freq 1
  ret %s
---
reg 0 256
reg 1 272
reg 2 2
reg 31 100
mem 256 3
mem 260 4
mem 272 5
mem 276 6
blocks 10
?run:done>returned 39
mem 256 3
mem 260 4
mem 272 5
mem 276 6
>\
|# One block alone may be entered: the next one's label, and what is live there.\
|func dot %x %y %n
block entry freq 1
  %s = imm #0
block loop freq 100
  %u = load %x, #0
  %v = load %y, #0
  %m = mpyi %u, %v
  %s = add %s, %m
  %x = addi %x, #4
  %y = addi %y, #4
  %n = addi %n, #-1
  $c = cmpgti %n, #0
  if $c jump loop
block exit freq 1
  ret %s
---
reg 0 256
reg 1 272
reg 2 2
reg 31 100
mem 256 3
mem 260 4
mem 272 5
mem 276 6
blocks 1
?run:done>running loop
value %x 256
value %y 272
value %n 2
value %s 0
mem 256 3
mem 260 4
mem 272 5
mem 276 6
>\
|# A call with a reply, and without one: it waits, and its packet is not done.\
|frame 8
block e
{ r29 = add(r29,#-8) }
{ memw(r29+#0) = r16; r16 = r31 }
{ r17 = r0; memw(r29+#4) = r17; call h(r0) }
{ r0 = add(r0,r17); r31 = r16; r16 = memw(r29+#0); r17 = memw(r29+#4) }
{ r29 = add(r29,#8); jumpr r31 }
---
reg 0 5
reg 29 4096
reg 31 100
reply 7
blocks 5
?run --code:done>returned 12 target 100
call h 5
cycles 5
>\
|frame 8
block e
{ r29 = add(r29,#-8) }
{ memw(r29+#0) = r16; r16 = r31 }
{ r17 = r0; memw(r29+#4) = r17; call h(r0) }
{ r0 = add(r0,r17); r31 = r16; r16 = memw(r29+#0); r17 = memw(r29+#4) }
{ r29 = add(r29,#8); jumpr r31 }
---
reg 0 5
reg 29 4096
reg 31 100
blocks 5
?run --code:done>waiting h 5
cycles 2
>\
|func c %a
block e freq 1
  %r = call h %a
  %s = add %r, %a
  ret %s
---\r
reg 0 5
reg 29 4096
reg 31 100
reply 7
blocks 5
?run:done>returned 12
call h 5
>\
|func c %a
block e freq 1
  %r = call h %a
  %s = add %r, %a
  ret %s
---
reg 0 5
blocks 5
?run:done>waiting h 5
>\
|# A predicate across a call.\
|func q %a %b
block e freq 1
  $p = cmpeq %a, %b
  call h %a
  %r = mux $p, %a, %b
  ret %r
---
reg 0 5
reg 1 9
reply 0
blocks 5
?run:done>returned 9
call h 5
>\
|# A load that traps: nothing behind it is done, and no write of its packet is kept.\
|func t %a %b
block e freq 1
  %x = load %a, #0
  %y = load %b, #0
  store %a, #0, %y
  ret %x
---
reg 0 256
reg 1 258
mem 256 17
blocks 5
?run:done>trapped
mem 256 17
>\
|frame 0
block e
{ memw(r0+#0) = r2; r3 = memw(r1+#0) }
{ jumpr r31 }
---
reg 0 256
reg 1 258
reg 2 9
mem 256 17
blocks 5
?run --code:done>trapped
mem 256 17
cycles 0
>\
|# Two instructions of a packet write one register; a label is missing; there is no listing.\
|frame 0
block e
{ r0 = r1; r0 = r2 }
{ jumpr r31 }
?run --code:bad 3>>bad report: line 3
|frame 0
block e
{ jump g }
---
blocks 1
?run --code:bad 3>>bad report: line 3
|---
blocks 1
?run --code:bad 1>>bad report: line 1
|x^70000?run --code:bad 1>>bad report: line 1
|# The listing is looked at first, then the start: its lines in order, and the stack pointer with the frame's room.\
|frame 0
block e
{ jumpr r32 }
---
x
?run --code:bad 3>>bad report: line 3
|frame 0
block e
{ jumpr r31 }
?run --code:bad 1>>bad report: line 1
|frame 8
block e
{ r29 = add(r29,#-8) }
{ r29 = add(r29,#8); jumpr r31 }
---
reg 29 12
blocks 1
?run --code:bad 2>>bad report: line 2
|frame 8
block e
{ r29 = add(r29,#-8) }
{ r29 = add(r29,#8); jumpr r31 }
---
blocks 1
?run --code:bad 1>>bad report: line 1
|frame 256
block e
{ r29 = add(r29,#-256) }
{ r29 = add(r29,#256); jumpr r31 }
---
reg 29 248
blocks 5
x
?run --code:bad 2>>bad report: line 2
|# The function is looked at first, with its faults, then the start.\
|func f
block e freq 0
  ret
---
x
?run:fault 2 14>>line 2: 14 BadFreq
|x^270000?run:fault 0 13>>line 0: 13 TooMany
|func f
block e freq 1
  ret
?run:bad 1>>bad report: line 1
|func f
block e freq 1
  ret
---
reg 1 2
reg 0 1
blocks 1
?run:bad 2>>bad report: line 2
|func f
block e freq 1
  ret
---
blocks 1
---
?run:bad 2>>bad report: line 2
|func f
block e freq 1
  ret
---
blocks 1000001
?run:bad 1>>bad report: line 1
|# Generated functions: the source is not read, and may fail.\
|?gen 7 1;4096 65536 0:done>func gen %v0 %v1 %v2 %v3
block b0 freq 1
  %v4 = imm #4
  %v5 = imm #5
  %v6 = imm #6
  %v7 = imm #7
  $p0 = cmpeq %v0, %v1
  ret %v0
>\
|?gen 7 16;4096 65536 0:done>func gen %v0 %v1 %v2 %v3
block b0 freq 1
  %v4 = imm #4
  %v5 = imm #5
  %v6 = imm #6
  %v7 = imm #7
  $p0 = cmpeq %v0, %v1
block b1 freq 232
  %v1 = sub %v1, %v3
  %v4 = add %v3, %v6
  %v3 = xor %v0, %v0
  %v2 = addi %v5, #-1
  if $p0 jump b12
block b2 freq 937
...\
|# Their reports: the six instructions of the first fill two packets, since a packet has at most four.\
|?gen 7 1 --nodes 50;4096 65536 0:done>seed 7 size 1 blocks 1 operations 5 cost 2 bound 2 nodes ...\
|?gen 7 16 --nodes 1;4096 65536 0:done>seed 7 size 16 blocks 16 operations 65 cost ...\
|# Words that are no command.\
|?run x:usage 1>>usage: word 1
|?run --code x:usage 2>>usage: word 2
|?gen:usage 1>>usage: word 1
|?gen 07 1:usage 1>>usage: word 1
|?gen 18446744073709551616 1:usage 1>>usage: word 1
|?gen 7:usage 2>>usage: word 2
|?gen 7 0:usage 2>>usage: word 2
|?gen 7 17:usage 2>>usage: word 2
|?gen 7 1 x:usage 3>>usage: word 3
|?gen 7 1 --nodes:usage 4>>usage: word 4
|?gen 7 1 --nodes 0:usage 4>>usage: word 4
|?gen 7 1 --nodes 5 x:usage 5>>usage: word 5
|# Reads and writes that fail, and an `err` that does.\
|func f
block e freq 1
  ret
---
blocks 1
?run;16 65536 0:read fault>>read fault
|&?run;16 65536 2:read fault>>read fault
|&?run --code;16 65536 1:read fault>>read fault
|&?run;4 65536 - 1:write fault>retu>write fault
|?gen 7 1;64 65536 - 0:write fault>>write fault
|?gen 7 1;64 65536 - 1:write fault>func gen %v0 %v1 %v2 %v3
block b0 freq 1
  %v4 = imm #4
  %v5 = >write fault
|func f
block e freq 1
  ret
---
?run;4096 65536 - - 0:bad 1>>\
|?gen;4096 65536 - - 0:usage 1>>";

#[test]
fn commands_leave_what_is_wanted(rt: HostRuntime) {
    let wrong = wrong_row(rt.alloc(), COMMANDS);
    assert!(rt; wrong.is_empty(), "{wrong}");
}
