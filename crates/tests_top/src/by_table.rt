//! Runs of the commands that go by a table in their input.

use crate::rows::wrong_row;

/// Inputs, the words of a run, and what is left, as for runs of `alloc`.
static RUNS: &[u8] = b"# Where a load takes one cycle, the loop of a dot product has four packets.\
|func dot %x %y %n
block entry freq 1
  %s = imm #0
block loop freq 100
  %u = load %x, #0
  %v = load %y, #0
  %m = mpyi %u, %v
  %s = add %s, %m
  %x = addi %x, #4
  %y = addi %y, #4
  %n = addi %n, #-1
  $c = cmpgti %n, #0
  if $c jump loop
block exit freq 1
  ret %s
---
{\"latency\":{\"Load\":1},\"uses\":{},\"saved\":[16,17,18,19,20,21,22,23,24,25,26,27],\"fresh\":true}
?alloc --table:done>unison 3
function dot
model regs all slots 256 nodes 2000
answer code
cost 402
bound 402
...>\
|# No latency is 3.\
|func dot %x %y %n
block entry freq 1
  %s = imm #0
block loop freq 100
  %u = load %x, #0
  %v = load %y, #0
  %m = mpyi %u, %v
  %s = add %s, %m
  %x = addi %x, #4
  %y = addi %y, #4
  %n = addi %n, #-1
  $c = cmpgti %n, #0
  if $c jump loop
block exit freq 1
  ret %s
---
{\"latency\":{\"Load\":3},\"uses\":{},\"saved\":[16,17,18,19,20,21,22,23,24,25,26,27],\"fresh\":true}
?alloc --nodes 3 --table:bad table 3>>bad table: 3 BadLatency
\
|# A list is no table.\
|func dot %x %y %n
block entry freq 1
  %s = imm #0
block loop freq 100
  %u = load %x, #0
  %v = load %y, #0
  %m = mpyi %u, %v
  %s = add %s, %m
  %x = addi %x, #4
  %y = addi %y, #4
  %n = addi %n, #-1
  $c = cmpgti %n, #0
  if $c jump loop
block exit freq 1
  ret %s
---
[]
?alloc --table --nodes 3:bad table 2>>bad table: 2 BadShape
\
|# A function's fault comes before its table's.\
|func f
block e freq 1
  jump e
---
[]
?alloc --table:fault 3 9>>line 3: 9 JumpToEntry
\
|# A jump tests what its packet compares, or waits a cycle.\
|func n %a
block e freq 1
  $p = cmpgti %a, #0
  if $p jump t
block u freq 1
  ret %a
block t freq 1
  ret %a
---
{\"latency\":{\"Load\":1},\"uses\":{},\"saved\":[16,17,18,19,20,21,22,23,24,25,26,27],\"fresh\":true}
?alloc --table:done>unison 3
function n
model regs all slots 256 nodes 2000
answer code
cost 3
bound 3
...>\
|func n %a
block e freq 1
  $p = cmpgti %a, #0
  if $p jump t
block u freq 1
  ret %a
block t freq 1
  ret %a
---
{\"latency\":{},\"uses\":{},\"saved\":[16,17,18,19,20,21,22,23,24,25,26,27],\"fresh\":false}
?alloc --table:done>unison 3
function n
model regs all slots 256 nodes 2000
answer code
cost 4
bound 4
...>\
|# Where r15 is kept, there are thirteen such values.\
|func f
block e freq 1
  ret
---
{\"latency\":{},\"uses\":{},\"saved\":[15,16,17,18,19,20,21,22,23,24,25,26,27],\"fresh\":true}
?alloc --nodes 5 --table:done>unison 3
function f
model regs all slots 256 nodes 5
answer code
cost 1
bound 1
listing 3
frame 0
block e
{ jumpr r31 }
solution 133
15 16 17 18 19 20 21 22 23 24 25 26 27 31 0 0
0 0 0 0 0 0 0 0 0 0 0 0 0 0 0 0
0 0 0 0 0 0 0 0 0 0 0 0 0 0 0 0
0 0 0 0 0 0 0 0 0 0 0 0 0 0 0 0
1 0 0 0 0 0 0 0 0 0 0 0 0 0 0 0
0 0 0 0 0 0 0 0 0 0 0 0 0 0 0 0
0 0 0 0 0 0 0 0 0 0 0 0 0 0 0 0
0 0 0 0 0 0 0 0 0 0 0 0 0 0 0 0
0 0 0 2 0
tree 1
C
end
>\
|func f
block e freq 1
  ret
---
{\"latency\":{},\"uses\":{},\"saved\":[15,16,17,18,19,20,21,22,23,24,25,26,27],\"fresh\":true}
---
unison 3
function f
model regs all slots 256 nodes 5
answer code
cost 1
bound 1
listing 3
frame 0
block e
{ jumpr r31 }
solution 133
15 16 17 18 19 20 21 22 23 24 25 26 27 31 0 0
0 0 0 0 0 0 0 0 0 0 0 0 0 0 0 0
0 0 0 0 0 0 0 0 0 0 0 0 0 0 0 0
0 0 0 0 0 0 0 0 0 0 0 0 0 0 0 0
1 0 0 0 0 0 0 0 0 0 0 0 0 0 0 0
0 0 0 0 0 0 0 0 0 0 0 0 0 0 0 0
0 0 0 0 0 0 0 0 0 0 0 0 0 0 0 0
0 0 0 0 0 0 0 0 0 0 0 0 0 0 0 0
0 0 0 2 0
tree 1
C
end
?check --table:done>yes code cost 1 bound 1
>\
|func f
block e freq 1
  ret
---
{\"latency\":{\"Load\":1},\"uses\":{},\"saved\":[16,17,18,19,20,21,22,23,24,25,26,27],\"fresh\":true}
---
unison 3
function f
model regs all slots 256 nodes 5
answer code
cost 1
bound 1
listing 3
frame 0
block e
{ jumpr r31 }
solution 133
15 16 17 18 19 20 21 22 23 24 25 26 27 31 0 0
0 0 0 0 0 0 0 0 0 0 0 0 0 0 0 0
0 0 0 0 0 0 0 0 0 0 0 0 0 0 0 0
0 0 0 0 0 0 0 0 0 0 0 0 0 0 0 0
1 0 0 0 0 0 0 0 0 0 0 0 0 0 0 0
0 0 0 0 0 0 0 0 0 0 0 0 0 0 0 0
0 0 0 0 0 0 0 0 0 0 0 0 0 0 0 0
0 0 0 0 0 0 0 0 0 0 0 0 0 0 0 0
0 0 0 2 0
tree 1
C
end
?check --table:no>no solution 1
>\
|# The table is looked at before the report.\
|func f
block e freq 1
  ret
---
{}
---
unison
?check --table:bad table 2>>bad table: 2 BadShape
\
|func f
block e freq 1
  ret
---
{\"latency\":{},\"uses\":{},\"saved\":[15,16,17,18,19,20,21,22,23,24,25,26,27],\"fresh\":true}
---
unison
?check --table:bad 1>>bad report: line 1
\
|# Code waits for a load as the table says.\
|frame 0
block e
{ r0 = memw(r0+#0) }
{ r0 = add(r0,r0); jumpr r31 }
---
{\"latency\":{\"Load\":1},\"uses\":{},\"saved\":[16,17,18,19,20,21,22,23,24,25,26,27],\"fresh\":true}
---
reg 0 256
reg 31 100
mem 256 21
blocks 5
?run --code --table:done>returned 42 target 100
mem 256 21
cycles 2
>\
|frame 0
block e
{ r0 = memw(r0+#0) }
{ r0 = add(r0,r0); jumpr r31 }
---
{\"latency\":{},\"uses\":{},\"saved\":[16,17,18,19,20,21,22,23,24,25,26,27],\"fresh\":false}
---
reg 0 256
reg 31 100
mem 256 21
blocks 5
?run --code --table:done>returned 42 target 100
mem 256 21
cycles 3
>\
|# A call leaves no junk in a register that the table keeps.\
|frame 0
block e
{ call h() }
{ r0 = r15; jumpr r31 }
---
{\"latency\":{},\"uses\":{},\"saved\":[15,16,17,18,19,20,21,22,23,24,25,26,27],\"fresh\":true}
---
reg 15 7
reg 31 100
reply 1
junk 15 9
blocks 5
?run --code --table:done>returned 7 target 0
call h
cycles 2
>\
|frame 0
block e
{ call h() }
{ r0 = r15; jumpr r31 }
---
{\"latency\":{},\"uses\":{},\"saved\":[16,17,18,19,20,21,22,23,24,25,26,27],\"fresh\":false}
---
reg 15 7
reg 31 100
reply 1
junk 15 9
blocks 5
?run --code --table:done>returned 9 target 0
call h
cycles 2
>\
|x
---
{\"latency\":{},\"uses\":{},\"saved\":[16,17,18,19,20,21,22,23,24,25,26,27],\"fresh\":false}
---
blocks 5
?run --code --table:bad 1>>bad report: line 1
\
|# The table is looked at before the listing.\
|x
---
{}
---
blocks 5
?run --code --table:bad table 2>>bad table: 2 BadShape\n";

#[test]
fn commands_go_by_tables(rt: HostRuntime) {
    let wrong = wrong_row(rt.alloc(), RUNS);
    assert!(rt; wrong.is_empty(), "{wrong}");
}
