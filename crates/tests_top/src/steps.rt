//! `steps` and `steps --check` over sources and sinks in memory.

use crate::rows::wrong_row;

/// Functions with their reports, with logs behind them, the words of a run, and what is left, as for runs of `alloc`.
static STEPS: &[u8] = b"# Two operands cannot stand in one register.\
|func two
block e freq 1
  %a = imm #1
  %b = imm #2
  %c = add %a, %b
  ret %c
---
unison 3
function two
model regs 1 slots 256 nodes 2000
answer infeasible
tree 1
C
end
?steps:done>1 0 72 1 1
1 0 54 81 81
1 1 59 81 81
1 4 152 1 2
8 21 73 0 2
.
>\
|func two
block e freq 1
  %a = imm #1
  %b = imm #2
  %c = add %a, %b
  ret %c
---
unison 3
function two
model regs 1 slots 256 nodes 2000
answer infeasible
tree 1
C
end
---
1 0 72 1 1
1 0 54 81 81
1 1 59 81 81
1 4 152 1 2
8 21 73 0 2
.
?steps --check:done>yes steps
>\
|# So does one step.\
|func two
block e freq 1
  %a = imm #1
  %b = imm #2
  %c = add %a, %b
  ret %c
---
unison 3
function two
model regs 1 slots 256 nodes 2000
answer infeasible
tree 1
C
end
---
8 21 73 0 2
.
?steps --check:done>yes steps
>\
|&?steps --check --counts:done>yes steps
>\
|func two
block e freq 1
  %a = imm #1
  %b = imm #2
  %c = add %a, %b
  ret %c
---
unison 3
function two
model regs 1 slots 256 nodes 2000
answer infeasible
tree 1
C
end
---
8 21 73 0 1
.
?steps --check:bad steps 2>>bad steps: line 2
|func two
block e freq 1
  %a = imm #1
  %b = imm #2
  %c = add %a, %b
  ret %c
---
unison 3
function two
model regs 1 slots 256 nodes 2000
answer infeasible
tree 1
C
end
---
7 21 73 0 2
.
?steps --check:bad steps 1>>bad steps: line 1
|# A log that ends early, one that goes on, and a last line without its line feed.\
|func two
block e freq 1
  %a = imm #1
  %b = imm #2
  %c = add %a, %b
  ret %c
---
unison 3
function two
model regs 1 slots 256 nodes 2000
answer infeasible
tree 1
C
end
---
?steps --check:bad steps 1>>bad steps: line 1
|func two
block e freq 1
  %a = imm #1
  %b = imm #2
  %c = add %a, %b
  ret %c
---
unison 3
function two
model regs 1 slots 256 nodes 2000
answer infeasible
tree 1
C
end
---
8 21 73 0 2
.
x
?steps --check:bad steps 4>>bad steps: line 4
|func two
block e freq 1
  %a = imm #1
  %b = imm #2
  %c = add %a, %b
  ret %c
---
unison 3
function two
model regs 1 slots 256 nodes 2000
answer infeasible
tree 1
C
end
---
8 21 73 0 2
.?steps --check:bad steps 2>>bad steps: line 2
|# A tree without a closed leaf has the empty log.\
|func two
block e freq 1
  %a = imm #1
  %b = imm #2
  %c = add %a, %b
  ret %c
---
unison 3
function two
model regs 5 slots 256 nodes 1
answer spent
tree 1
O
end
?steps:done>>\
|# The report of the smallest function has a log.\
|func f
block e freq 1
ret
---
unison 3
function f
model regs all slots 256 nodes 2000
answer code
cost 1
bound 1
listing 3
frame 0
block e
{ jumpr r31 }
solution 124
16 17 18 19 20 21 22 23 24 25 26 27 31 0 0 0
0 0 0 0 0 0 0 0 0 0 0 0 0 0 0 0
0 0 0 0 0 0 0 0 0 0 0 0 0 0 0 0
0 0 0 0 0 0 0 0 0 0 0 0 1 0 0 0
0 0 0 0 0 0 0 0 0 0 0 0 0 0 0 0
0 0 0 0 0 0 0 0 0 0 0 0 0 0 0 0
0 0 0 0 0 0 0 0 0 0 0 0 0 0 0 0
0 0 0 0 0 0 0 0 0 0 2 0
tree 1
C
end
?steps:done>3 17 122 1 1
11 0 122 2 64
.
>\
|func f
block e freq 1
ret
---
unison 3
function f
model regs all slots 256 nodes 2000
answer code
cost 1
bound 1
listing 3
frame 0
block e
{ jumpr r31 }
solution 124
16 17 18 19 20 21 22 23 24 25 26 27 31 0 0 0
0 0 0 0 0 0 0 0 0 0 0 0 0 0 0 0
0 0 0 0 0 0 0 0 0 0 0 0 0 0 0 0
0 0 0 0 0 0 0 0 0 0 0 0 1 0 0 0
0 0 0 0 0 0 0 0 0 0 0 0 0 0 0 0
0 0 0 0 0 0 0 0 0 0 0 0 0 0 0 0
0 0 0 0 0 0 0 0 0 0 0 0 0 0 0 0
0 0 0 0 0 0 0 0 0 0 2 0
tree 1
C
end
---
3 17 122 1 1
11 0 122 2 64
.
?steps --check:done>yes steps
>\
|# Two products and a return do not share a packet: this is told by counting alone.\
|func m %a
block e freq 1
  %b = mpyi %a, %a
  %c = mpyi %a, %a
  ret
---
unison 3
function m
model regs all slots 256 nodes 2000
answer code
cost 2
bound 2
listing 4
frame 0
block e
{ r1 = mpyi(r0,r0); r0 = mpyi(r0,r0) }
{ jumpr r31 }
solution 158
0 16 17 18 19 20 21 22 23 24 25 26 27 31 0 0
0 0 0 0 0 0 0 0 0 0 0 0 0 0 0 0
0 0 0 0 0 0 0 0 0 0 0 0 0 0 0 0
0 0 0 0 0 0 0 0 0 0 0 0 0 0 0 0
0 0 1 0 0 1 0 0 0 0 0 0 0 0 0 0
0 1 0 0 0 0 0 0 0 0 0 0 0 0 2 0
0 0 0 0 0 0 0 0 0 0 0 0 0 0 0 0
0 0 0 0 0 0 0 0 0 0 0 0 0 0 0 0
0 0 0 0 0 0 0 0 0 0 0 0 0 0 0 0
0 0 0 0 0 0 0 0 0 0 0 0 3 0
tree 1
C
end
?steps:no log 0>>no log: node 0
|&?steps --counts:done>3 18 156 1 1
11 0 156 3 82
3 18 66 2 81
3 22 81 2 81
3 26 94 2 81
5 18 67 1 2
5 18 68 1 3
5 22 82 1 4
5 22 83 1 5
5 26 95 1 2
13 0 15 0 81
.
>\
|func m %a
block e freq 1
  %b = mpyi %a, %a
  %c = mpyi %a, %a
  ret
---
unison 3
function m
model regs all slots 256 nodes 2000
answer code
cost 2
bound 2
listing 4
frame 0
block e
{ r1 = mpyi(r0,r0); r0 = mpyi(r0,r0) }
{ jumpr r31 }
solution 158
0 16 17 18 19 20 21 22 23 24 25 26 27 31 0 0
0 0 0 0 0 0 0 0 0 0 0 0 0 0 0 0
0 0 0 0 0 0 0 0 0 0 0 0 0 0 0 0
0 0 0 0 0 0 0 0 0 0 0 0 0 0 0 0
0 0 1 0 0 1 0 0 0 0 0 0 0 0 0 0
0 1 0 0 0 0 0 0 0 0 0 0 0 0 2 0
0 0 0 0 0 0 0 0 0 0 0 0 0 0 0 0
0 0 0 0 0 0 0 0 0 0 0 0 0 0 0 0
0 0 0 0 0 0 0 0 0 0 0 0 0 0 0 0
0 0 0 0 0 0 0 0 0 0 0 0 3 0
tree 1
C
end
---
3 18 156 1 1
11 0 156 3 82
3 18 66 2 81
3 22 81 2 81
3 26 94 2 81
5 18 67 1 2
5 18 68 1 3
5 22 82 1 4
5 22 83 1 5
5 26 95 1 2
13 0 15 0 81
.
?steps --check:bad steps 11>>bad steps: line 11
|&?steps --check --counts:done>yes steps
>\
|# A tree with a Split has no log, whatever is given as one.\
|func two
block e freq 1
  %a = imm #1
  %b = imm #2
  %c = add %a, %b
  ret %c
---
unison 2
function two
model regs 1 slots 64 nodes 2000
answer infeasible
tree 5
B 153 0
S
P -
C
C
end
?steps:no log 1>>no log: node 1
|&?steps --counts:no log 1>>no log: node 1
|func two
block e freq 1
  %a = imm #1
  %b = imm #2
  %c = add %a, %b
  ret %c
---
unison 2
function two
model regs 1 slots 64 nodes 2000
answer infeasible
tree 5
B 153 0
S
P -
C
C
end
---
.
?steps --check:no log 1>>no log: node 1
|# A report that is not accepted has no log.\
|func two
block e freq 1
  %a = imm #1
  %b = imm #2
  %c = add %a, %b
  ret %c
---
unison 3
function two
model regs 5 slots 256 nodes 2000
answer infeasible
tree 1
C
end
?steps:no>no closed 0
>\
|func two
block e freq 1
  %a = imm #1
  %b = imm #2
  %c = add %a, %b
  ret %c
---
unison 3
function three
model regs 1 slots 256 nodes 2000
answer infeasible
tree 1
C
end
---
8 21 73 0 1
?steps --check:no>no name
>\
|# A bad line of a report, and a fault of a function, come first.\
|func two
block e freq 1
  %a = imm #1
  %b = imm #2
  %c = add %a, %b
  ret %c
---
unison 3
function two
model regs 0 slots 256 nodes 2000
---
8 21 73 0 1
?steps --check:bad 3>>bad report: line 3
|func f
block e freq 1
  ret
?steps:bad 1>>bad report: line 1
|func f
block e freq 0
  ret
?steps --counts:fault 2 14>>line 2: 14 BadFreq
|# Words.\
|?steps x:usage 1>>usage: word 1
|?steps --check x:usage 2>>usage: word 2
|?steps --counts --check:usage 2>>usage: word 2
|?steps --check --counts x:usage 3>>usage: word 3
";

#[test]
fn logs_leave_what_is_wanted(rt: HostRuntime) {
    let wrong = wrong_row(rt.alloc(), STEPS);
    assert!(rt; wrong.is_empty(), "{wrong}");
}
