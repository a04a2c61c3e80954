//! `check` on reports of each version: by which limits they are read. The answers are those of another program.

use crate::reports::put_changed;
use crate::rows::wrong_row;
use std::alloc::Global;
use un_base::memory_error::NoMemory;

/// The smallest function, and a report of version 1 of code with a frame.
static OLD: &[u8] = b"func f
block e freq 1
  ret
---
unison 1
function f
model regs all slots 64 nodes 1
answer code
cost 5
bound 1
listing 7
frame 8
block e
{ r29 = add(r29,#-8) }
{ memw(r29+#0) = r31 }
{ r31 = memw(r29+#0) }
{ r29 = add(r29,#8) }
{ jumpr r31 }
solution 124
16 17 18 19 20 21 22 23 24 25 26 27 31 0 0 0
0 0 0 0 0 0 0 0 0 0 0 0 0 0 0 0
0 0 0 0 0 0 0 0 0 0 0 0 0 0 0 0
0 2 2 36 1 1 1 4 3 3 1 31 5 2 0 0
0 0 0 0 0 0 0 0 0 0 0 0 0 0 0 0
0 0 0 0 0 0 0 0 0 0 0 0 0 0 0 0
0 0 0 0 0 0 0 0 0 0 0 0 0 0 0 0
0 0 0 0 0 0 0 0 0 0 6 1
tree 1
O
end";

/// The same, of version 2.
static NEW: &[u8] = b"func f
block e freq 1
  ret
---
unison 2
function f
model regs all slots 256 nodes 1
answer code
cost 5
bound 1
listing 7
frame 8
block e
{ r29 = add(r29,#-8) }
{ memw(r29+#0) = r31 }
{ r31 = memw(r29+#0) }
{ r29 = add(r29,#8) }
{ jumpr r31 }
solution 124
16 17 18 19 20 21 22 23 24 25 26 27 31 0 0 0
0 0 0 0 0 0 0 0 0 0 0 0 0 0 0 0
0 0 0 0 0 0 0 0 0 0 0 0 0 0 0 0
0 2 2 36 1 1 1 4 3 3 1 31 5 2 0 0
0 0 0 0 0 0 0 0 0 0 0 0 0 0 0 0
0 0 0 0 0 0 0 0 0 0 0 0 0 0 0 0
0 0 0 0 0 0 0 0 0 0 0 0 0 0 0 0
0 0 0 0 0 0 0 0 0 0 6 1
tree 1
O
end";

/// A function with a jump, and a report of version 3, whose bound is another than those of versions 1 and 2.
static JUMPS: &[u8] = b"func n %a
block e freq 1
  $p = cmpgti %a, #0
  if $p jump t
block u freq 1
  ret %a
block t freq 1
  ret %a
---
unison 3
function n
model regs all slots 256 nodes 1
answer code
cost 17
bound 3
listing 21
frame 16
block e
{ r29 = add(r29,#-16) }
{ memw(r29+#0) = r0 }
{ memw(r29+#8) = r31; r0 = memw(r29+#0) }
{ nop }
{ p0 = cmp.gt(r0,#0) }
{ r0 = p0 }
{ memw(r29+#4) = r0 }
{ r0 = memw(r29+#4) }
{ nop }
{ p0 = r0 }
{ if (p0) jump t }
block u
{ r31 = memw(r29+#8); r0 = memw(r29+#0) }
{ r29 = add(r29,#16) }
{ jumpr r31 }
block t
{ r31 = memw(r29+#8); r0 = memw(r29+#0) }
{ r29 = add(r29,#16) }
{ jumpr r31 }
solution 414
0 16 17 18 19 20 21 22 23 24 25 26 27 31 2 2
36 0 0 0 0 0 0 0 0 0 0 0 0 0 0 0
0 0 0 0 0 0 0 0 0 0 0 0 0 0 0 0
0 0 0 0 0 2 3 38 1 1 3 3 1 0 5 2
32 4 6 0 2 7 1 37 3 8 2 0 5 10 3 32
11 4 0 0 0 0 0 0 0 0 0 0 0 0 0 0
0 0 0 0 0 0 0 0 0 0 0 0 0 0 0 0
0 0 0 0 0 0 0 0 0 0 0 0 0 0 0 0
0 0 0 0 0 0 0 0 0 0 1 0 0 0 0 0
0 0 0 0 0 0 0 1 12 36 16 17 18 19 20 21
22 23 24 25 26 27 38 0 0 0 0 0 0 0 0 0
0 0 0 0 0 0 0 0 0 0 0 0 0 0 0 0
0 0 0 0 0 0 0 0 0 0 0 0 0 0 0 0
0 1 2 3 1 0 31 3 2 3 1 0 0 0 0 0
0 0 0 0 0 0 0 0 0 0 0 0 0 0 0 0
0 0 0 0 0 0 0 0 0 0 0 0 0 0 0 0
0 0 0 0 0 0 0 0 0 0 0 0 0 2 0 0
0 0 0 0 0 0 0 0 0 0 4 36 16 17 18 19
20 21 22 23 24 25 26 27 38 0 0 0 0 0 0 0
0 0 0 0 0 0 0 0 0 0 0 0 0 0 0 0
0 0 0 0 0 0 0 0 0 0 0 0 0 0 0 0
0 0 0 1 2 3 1 0 31 3 2 3 1 0 0 0
0 0 0 0 0 0 0 0 0 0 0 0 0 0 0 0
0 0 0 0 0 0 0 0 0 0 0 0 0 0 0 0
0 0 0 0 0 0 0 0 0 0 0 0 0 0 0 2
0 0 0 0 0 0 0 0 0 0 0 0 4 1
tree 1
O
end";

/// A function with a call, and a report of version 1.
static CALLS: &[u8] = b"func c %a
block e freq 1
  %r = call h %a
  %s = add %r, %a
  ret %s
---
unison 1
function c
model regs all slots 64 nodes 1
answer code
cost 13
bound 2
listing 15
frame 16
block e
{ r29 = add(r29,#-16) }
{ memw(r29+#0) = r0 }
{ memw(r29+#12) = r31; r0 = memw(r29+#0) }
{ nop }
{ call h(r0) }
{ memw(r29+#4) = r0 }
{ r0 = memw(r29+#4); r1 = memw(r29+#0) }
{ nop }
{ r0 = add(r0,r1) }
{ memw(r29+#8) = r0 }
{ r31 = memw(r29+#12); r0 = memw(r29+#8) }
{ r29 = add(r29,#16) }
{ jumpr r31 }
solution 158
0 16 17 18 19 20 21 22 23 24 25 26 27 31 2 2
36 0 0 0 0 0 0 0 0 0 0 0 0 0 0 0
0 0 0 0 0 0 0 0 0 0 0 0 0 0 0 0
0 0 0 0 0 2 3 39 1 1 3 3 1 0 5 2
0 2 6 37 3 7 1 0 3 7 1 1 9 2 3 0
2 10 38 1 12 3 11 1 31 13 2 3 11 1 0 0
0 0 0 0 0 0 0 0 0 0 0 0 0 0 0 0
0 0 0 0 0 0 0 0 0 0 0 0 0 0 0 0
0 0 0 0 0 0 0 0 0 0 0 0 0 0 0 2
0 0 0 0 0 0 0 0 0 0 0 0 14 1
tree 1
O
end";

/// The lines that are changed in an input, as for reports that are judged, with `?N` for the input, and then what a run leaves.
static VERSIONS: &[u8] = b"# Rows of each input in turn.\
|?1check:done>yes code cost 5 bound 1\n>\
|5 unison 0?1check:bad 1>>bad report: line 1\n\
|5 unison 0\n7 model regs all slots 63 nodes 1?1check:bad 1>>bad report: line 1\n\
|5 unison 0\n7 model regs all slots 65 nodes 1?1check:bad 1>>bad report: line 1\n\
|5 unison 0\n7 model regs all slots 256 nodes 1?1check:bad 1>>bad report: line 1\n\
|5 unison 1\n7 model regs all slots 0 nodes 1?1check:no>no solution 1\n>\
|5 unison 1\n7 model regs all slots 65 nodes 1?1check:bad 3>>bad report: line 3\n\
|5 unison 1\n7 model regs all slots 255 nodes 1?1check:bad 3>>bad report: line 3\n\
|5 unison 1\n7 model regs all slots 257 nodes 1?1check:bad 3>>bad report: line 3\n\
|5 unison 1\n12 frame 0?1check:bad 10>>bad report: line 10\n\
|5 unison 1\n12 frame 256?1check:bad 10>>bad report: line 10\n\
|5 unison 1\n12 frame 264?1check:bad 8>>bad report: line 8\n\
|5 unison 1\n12 frame 1024?1check:bad 8>>bad report: line 8\n\
|5 unison 1\n12 frame 1032?1check:bad 8>>bad report: line 8\n\
|5 unison 1\n28 tree 0?1check:bad 24>>bad report: line 24\n\
|5 unison 1\n28 tree 200000?1check:bad 26>>bad report: line 26\n\
|5 unison 1\n28 tree 400000?1check:bad 24>>bad report: line 24\n\
|5 unison 1\n29 B 0 0?1check:no>no strict 0\n>\
|5 unison 2?1check:done>yes code cost 5 bound 1\n>\
|5 unison 2\n7 model regs all slots 63 nodes 1?1check:done>yes code cost 5 bound 1\n>\
|5 unison 2\n7 model regs all slots 255 nodes 1?1check:done>yes code cost 5 bound 1\n>\
|5 unison 2\n7 model regs all slots 256 nodes 1?1check:done>yes code cost 5 bound 1\n>\
|5 unison 2\n29 B 0 0?1check:no>no strict 0\n>\
|5 unison 2\n29 B 4294967295 4294967295?1check:no>no strict 0\n>\
|5 unison 4?1check:bad 1>>bad report: line 1\n\
|5 unison 1\n7 model regs all slots 64 nodes 3\n28 tree 3\n29 B 123 0/O/O?1check:done>yes code cost 5 bound 1\n>\
|5 unison 1\n28 tree 200000\n29 O^200000?1check:no>no short\n>\
|5 unison 1\n14 { memw(r29+#4092) = r16 }?1check:no>no listing\n>\
|5 unison 1\n7 model regs 29 slots 64 nodes 200000?1check:no>no spent\n>\
|5 unison 2\n28 tree 200000\n29 O^200000?1check:no>no short\n>\
|5 unison 2\n12 frame 1024\n14 { memw(r29+#1020) = r16 }?1check:bad 13>>bad report: line 13\n\
|?2check:done>yes code cost 5 bound 1\n>\
|5 unison 0?2check:bad 1>>bad report: line 1\n\
|5 unison 0\n7 model regs all slots 63 nodes 1?2check:bad 1>>bad report: line 1\n\
|5 unison 0\n7 model regs all slots 64 nodes 1?2check:bad 1>>bad report: line 1\n\
|5 unison 0\n7 model regs all slots 255 nodes 1?2check:bad 1>>bad report: line 1\n\
|5 unison 1?2check:bad 3>>bad report: line 3\n\
|5 unison 1\n7 model regs all slots 0 nodes 1?2check:no>no solution 1\n>\
|5 unison 1\n7 model regs all slots 64 nodes 1?2check:done>yes code cost 5 bound 1\n>\
|5 unison 1\n7 model regs all slots 65 nodes 1?2check:bad 3>>bad report: line 3\n\
|5 unison 1\n7 model regs all slots 257 nodes 1?2check:bad 3>>bad report: line 3\n\
|5 unison 1\n12 frame 0?2check:bad 3>>bad report: line 3\n\
|5 unison 1\n12 frame 256?2check:bad 3>>bad report: line 3\n\
|5 unison 1\n12 frame 264?2check:bad 3>>bad report: line 3\n\
|5 unison 1\n12 frame 1024?2check:bad 3>>bad report: line 3\n\
|5 unison 1\n12 frame 1032?2check:bad 3>>bad report: line 3\n\
|5 unison 1\n28 tree 0?2check:bad 3>>bad report: line 3\n\
|5 unison 1\n28 tree 200000?2check:bad 3>>bad report: line 3\n\
|5 unison 1\n28 tree 400000?2check:bad 3>>bad report: line 3\n\
|5 unison 2\n7 model regs all slots 63 nodes 1?2check:done>yes code cost 5 bound 1\n>\
|5 unison 2\n7 model regs all slots 65 nodes 1?2check:done>yes code cost 5 bound 1\n>\
|5 unison 2\n7 model regs all slots 255 nodes 1?2check:done>yes code cost 5 bound 1\n>\
|5 unison 2\n29 B 0 0?2check:no>no strict 0\n>\
|5 unison 4?2check:bad 1>>bad report: line 1\n\
|5 unison 1\n28 tree 200001\n29 O^200001?2check:bad 3>>bad report: line 3\n\
|5 unison 1\n28 tree 200000\n29 O^200000?2check:bad 3>>bad report: line 3\n\
|5 unison 1\n12 frame 1024\n14 { memw(r29+#1020) = r16 }?2check:bad 3>>bad report: line 3\n\
|5 unison 2\n7 model regs all slots 256 nodes 3\n28 tree 3\n29 B 123 0/O/O?2check:done>yes code cost 5 bound 1\n>\
|5 unison 2\n12 frame 1024\n14 { memw(r29+#1020) = r16 }?2check:bad 13>>bad report: line 13\n\
|5 unison 2\n14 { memw(r29+#4092) = r16 }?2check:no>no listing\n>\
|5 unison 2\n7 model regs 29 slots 256 nodes 200000?2check:no>no spent\n>\
|?3check:done>yes code cost 17 bound 3\n>\
|10 unison 0?3check:bad 1>>bad report: line 1\n\
|10 unison 0\n12 model regs all slots 63 nodes 1?3check:bad 1>>bad report: line 1\n\
|10 unison 0\n12 model regs all slots 64 nodes 1?3check:bad 1>>bad report: line 1\n\
|10 unison 1?3check:bad 3>>bad report: line 3\n\
|10 unison 1\n12 model regs all slots 0 nodes 1?3check:no>no solution 1\n>\
|10 unison 1\n12 model regs all slots 63 nodes 1?3check:no>no bound\n>\
|10 unison 1\n12 model regs all slots 255 nodes 1?3check:bad 3>>bad report: line 3\n\
|10 unison 1\n12 model regs all slots 257 nodes 1?3check:bad 3>>bad report: line 3\n\
|10 unison 1\n17 frame 8?3check:bad 3>>bad report: line 3\n\
|10 unison 1\n17 frame 248?3check:bad 3>>bad report: line 3\n\
|10 unison 1\n17 frame 264?3check:bad 3>>bad report: line 3\n\
|10 unison 1\n17 frame 1016?3check:bad 3>>bad report: line 3\n\
|10 unison 1\n17 frame 1032?3check:bad 3>>bad report: line 3\n\
|10 unison 1\n17 frame 260?3check:bad 3>>bad report: line 3\n\
|10 unison 1\n65 tree 200000?3check:bad 3>>bad report: line 3\n\
|10 unison 2?3check:no>no bound\n>\
|10 unison 2\n12 model regs all slots 63 nodes 1?3check:no>no bound\n>\
|10 unison 2\n12 model regs all slots 65 nodes 1?3check:no>no bound\n>\
|10 unison 2\n12 model regs all slots 255 nodes 1?3check:no>no bound\n>\
|10 unison 2\n66 B 0 0?3check:no>no strict 0\n>\
|10 unison 4?3check:bad 1>>bad report: line 1\n\
|10 unison 1\n65 tree 200001\n66 O^200001?3check:bad 3>>bad report: line 3\n\
|10 unison 1\n65 tree 200000\n66 O^200000?3check:bad 3>>bad report: line 3\n\
|10 unison 1\n17 frame 1024\n19 { memw(r29+#1020) = r16 }?3check:bad 3>>bad report: line 3\n\
|10 unison 2\n17 frame 1024\n19 { memw(r29+#1020) = r16 }?3check:bad 23>>bad report: line 23\n\
|10 unison 2\n19 { memw(r29+#4092) = r16 }?3check:no>no listing\n>\
|10 unison 2\n12 model regs 29 slots 256 nodes 200000?3check:no>no spent\n>\
|?4check:done>yes code cost 13 bound 2\n>\
|7 unison 0?4check:bad 1>>bad report: line 1\n\
|7 unison 0\n9 model regs all slots 63 nodes 1?4check:bad 1>>bad report: line 1\n\
|7 unison 0\n9 model regs all slots 65 nodes 1?4check:bad 1>>bad report: line 1\n\
|7 unison 0\n9 model regs all slots 256 nodes 1?4check:bad 1>>bad report: line 1\n\
|7 unison 1\n9 model regs all slots 0 nodes 1?4check:no>no solution 1\n>\
|7 unison 1\n9 model regs all slots 65 nodes 1?4check:bad 3>>bad report: line 3\n\
|7 unison 1\n9 model regs all slots 256 nodes 1?4check:bad 3>>bad report: line 3\n\
|7 unison 1\n9 model regs all slots 257 nodes 1?4check:bad 3>>bad report: line 3\n\
|7 unison 1\n14 frame 8?4check:bad 10>>bad report: line 10\n\
|7 unison 1\n14 frame 248?4check:bad 10>>bad report: line 10\n\
|7 unison 1\n14 frame 264?4check:bad 8>>bad report: line 8\n\
|7 unison 1\n14 frame 1016?4check:bad 8>>bad report: line 8\n\
|7 unison 1\n14 frame 1032?4check:bad 8>>bad report: line 8\n\
|7 unison 1\n14 frame 260?4check:bad 8>>bad report: line 8\n\
|7 unison 1\n40 tree 200000?4check:bad 36>>bad report: line 36\n\
|7 unison 1\n41 B 0 0?4check:no>no strict 0\n>\
|7 unison 2?4check:done>yes code cost 13 bound 2\n>\
|7 unison 2\n9 model regs all slots 63 nodes 1?4check:done>yes code cost 13 bound 2\n>\
|7 unison 2\n9 model regs all slots 255 nodes 1?4check:done>yes code cost 13 bound 2\n>\
|7 unison 2\n9 model regs all slots 256 nodes 1?4check:done>yes code cost 13 bound 2\n>\
|7 unison 2\n41 B 0 0?4check:no>no strict 0\n>\
|7 unison 2\n41 B 4294967295 4294967295?4check:no>no strict 0\n>\
|7 unison 4?4check:bad 1>>bad report: line 1\n\
|7 unison 1\n9 model regs all slots 64 nodes 3\n40 tree 3\n41 B 157 0/O/O?4check:done>yes code cost 13 bound 2\n>\
|7 unison 1\n40 tree 200000\n41 O^200000?4check:no>no short\n>\
|7 unison 1\n16 { memw(r29+#4092) = r16 }?4check:no>no listing\n>\
|7 unison 1\n9 model regs 29 slots 64 nodes 200000?4check:no>no spent\n>\
|7 unison 2\n40 tree 200000\n41 O^200000?4check:no>no short\n>\
|7 unison 2\n14 frame 1024\n16 { memw(r29+#1020) = r16 }?4check:bad 21>>bad report: line 21\n\
|# Version 3: jumps may test what their packets write.\
|5 unison 3\n7 model regs all slots 0 nodes 1?1check:no>no solution 1\n>\
|5 unison 3\n7 model regs all slots 63 nodes 1?1check:done>yes code cost 5 bound 1\n>\
|5 unison 3\n7 model regs all slots 65 nodes 1?1check:done>yes code cost 5 bound 1\n>\
|5 unison 3\n7 model regs all slots 256 nodes 1?1check:done>yes code cost 5 bound 1\n>\
|5 unison 3\n29 B 4294967295 4294967295?1check:no>no strict 0\n>\
|5 unison 3\n7 model regs all slots 64 nodes 3\n28 tree 3\n29 B 123 0/O/O?1check:done>yes code cost 5 bound 1\n>\
|5 unison 3\n28 tree 200000\n29 O^200000?1check:no>no short\n>\
|5 unison 3\n12 frame 1024\n14 { memw(r29+#1020) = r16 }?1check:bad 13>>bad report: line 13\n\
|5 unison 3\n14 { memw(r29+#4092) = r16 }?1check:no>no listing\n>\
|5 unison 3\n7 model regs 29 slots 64 nodes 200000?1check:no>no spent\n>\
|5 unison 3\n7 model regs all slots 0 nodes 1?2check:no>no solution 1\n>\
|5 unison 3\n7 model regs all slots 63 nodes 1?2check:done>yes code cost 5 bound 1\n>\
|5 unison 3\n7 model regs all slots 64 nodes 1?2check:done>yes code cost 5 bound 1\n>\
|5 unison 3\n7 model regs all slots 255 nodes 1?2check:done>yes code cost 5 bound 1\n>\
|5 unison 3\n29 B 0 0?2check:no>no strict 0\n>\
|5 unison 3\n29 B 4294967295 4294967295?2check:no>no strict 0\n>\
|10 unison 3\n12 model regs all slots 0 nodes 1?3check:no>no solution 1\n>\
|10 unison 3\n12 model regs all slots 64 nodes 1?3check:done>yes code cost 17 bound 3\n>\
|10 unison 3\n12 model regs all slots 65 nodes 1?3check:done>yes code cost 17 bound 3\n>\
|10 unison 3\n66 B 0 0?3check:no>no strict 0\n>\
|10 unison 3\n66 B 4294967295 4294967295?3check:no>no strict 0\n>\
|10 unison 3\n12 model regs all slots 256 nodes 3\n65 tree 3\n66 B 413 0/O/O?3check:done>yes code cost 17 bound 3\n>\
|7 unison 3\n9 model regs all slots 0 nodes 1?4check:no>no solution 1\n>\
|7 unison 3\n9 model regs all slots 63 nodes 1?4check:done>yes code cost 13 bound 2\n>\
|7 unison 3\n9 model regs all slots 65 nodes 1?4check:done>yes code cost 13 bound 2\n>\
|7 unison 3\n9 model regs all slots 256 nodes 1?4check:done>yes code cost 13 bound 2\n>\
|7 unison 3\n41 B 4294967295 4294967295?4check:no>no strict 0\n>\
|7 unison 3\n9 model regs all slots 64 nodes 3\n40 tree 3\n41 B 157 0/O/O?4check:done>yes code cost 13 bound 2\n>\
|7 unison 3\n40 tree 200000\n41 O^200000?4check:no>no short\n>\
|7 unison 3\n14 frame 1024\n16 { memw(r29+#1020) = r16 }?4check:bad 21>>bad report: line 21\n\
|7 unison 3\n16 { memw(r29+#4092) = r16 }?4check:no>no listing\n>\
|7 unison 3\n9 model regs 29 slots 64 nodes 200000?4check:no>no spent\n>";

/// Appends what the check of an input leaves, with lines of it changed.
pub(crate) fn put_version(
    alloc: Global,
    found: &mut Vec<u8>,
    changes: &[u8],
    question: &[u8],
) -> Result<(), NoMemory> {
    let input = match question.first() {
        Some(b'1') => OLD,
        Some(b'2') => NEW,
        Some(b'3') => JUMPS,
        _ => CALLS,
    };
    put_changed(alloc, found, input, changes, b"check")
}

#[test]
fn versions_have_their_limits(rt: HostRuntime) {
    let wrong = wrong_row(rt.alloc(), VERSIONS);
    assert!(rt; wrong.is_empty(), "{wrong}");
}
