//! Functions with the precedences of a block and the least costs of their models, worked out by hand.

/// Precedences of a block stand a line each: the earlier operation, the later one and the gap. `relaxed` has the place of a block and what
/// its end is at most.
pub(crate) static ORDERS: &[u8] =
    b"# A dot product's loop: both loads feed the product and that the sum; the loads are free among themselves.\
|func dot %x %y %n
block entry freq 1
  %s = imm #0
block loop freq 100
  %u = load %x, #0
  %v = load %y, #0
  %m = mpyi %u, %v
  %s = add %s, %m
  %x = addi %x, #4
  %y = addi %y, #4
  %n = addi %n, #-1
  $c = cmpgti %n, #0
  if $c jump loop
block exit freq 1
  ret %s
^?arcs 1:38 44 1
38 47 1
44 51 2
47 51 2
38 55 1
51 55 2
38 58 1
38 61 1
38 64 1
64 67 1
67 72 1
38 77 1
55 77 1
58 77 1
61 77 1
64 77 1
|&?bound:502\
|&?relaxed 1 6:502\
|&?relaxed 1 5:empty\
|# A Load, a Store, a Load, a Call and a Store: by data and by memory the larger gap counts.\
|func memory %a
block e freq 1
  %x = load %a, #0
  store %a, #4, %x
  %y = load %a, #8
  call f %y
  store %a, #12, %y
  ret
^?arcs 0:0 17 1
0 21 1
17 21 2
0 23 1
21 23 1
17 26 1
21 26 1
23 26 2
0 29 1
17 29 0
21 29 1
23 29 2
26 29 1
0 32 1
0 45 1
|# A call's result that one operation reads twice.\
|func twice
block e freq 1
  %r = call g
  %s = add %r, %r
  ret %s
^?arcs 0:15 19 1
0 23 1
0 37 1
19 37 1
|# Five constants and their sum, in steps of two: four steps one after another.\
|func s
block e freq 1
  %a = imm #1
  %b = imm #2
  %c = imm #3
  %d = imm #4
  %e = imm #5
  %p = add %a, %b
  %q = add %c, %d
  %r = add %p, %q
  %t = add %r, %e
  ret %t
^?bound:4\
|&?relaxed 0 9999:4\
|# Sixteen loads before a call, and a sum of sixteen steps behind it.\
|func w %x
block e freq 1
  %v0 = load %x, #0
  %v1 = load %x, #4
  %v2 = load %x, #8
  %v3 = load %x, #12
  %v4 = load %x, #16
  %v5 = load %x, #20
  %v6 = load %x, #24
  %v7 = load %x, #28
  %v8 = load %x, #32
  %v9 = load %x, #36
  %v10 = load %x, #40
  %v11 = load %x, #44
  %v12 = load %x, #48
  %v13 = load %x, #52
  %v14 = load %x, #56
  %v15 = load %x, #60
  %s = call h
  %s = add %s, %v0
  %s = add %s, %v1
  %s = add %s, %v2
  %s = add %s, %v3
  %s = add %s, %v4
  %s = add %s, %v5
  %s = add %s, %v6
  %s = add %s, %v7
  %s = add %s, %v8
  %s = add %s, %v9
  %s = add %s, %v10
  %s = add %s, %v11
  %s = add %s, %v12
  %s = add %s, %v13
  %s = add %s, %v14
  %s = add %s, %v15
  ret %s
^?bound:18\
|# A call whose result is read, and a return in the cycle of that.\
|func c %a
block e freq 1
  %r = call h %a
  %s = add %r, %a
  ret %s
^?bound:2\
|# A call beside a return.\
|func x %a %b
block e freq 1
  call h %b, %a
  ret
^?bound:1\
|# What packets hold counts where precedences would let all issue at once: two loads, four instructions, two shifts or transfers.\
|func l %a
block e freq 7
  %v = load %a, #0
  %w = load %a, #4
  %x = load %a, #8
  %y = load %a, #12
  %z = load %a, #16
  ret
^?bound:21\
|func i
block e freq 1
  %r = imm #1
  %s = imm #2
  %t = imm #3
  %u = imm #4
  %v = imm #5
  %w = imm #6
  %x = imm #7
  %y = imm #8
  %z = imm #9
  ret
^?bound:3\
|func x %a
block e freq 1
  %v = asl %a, #1
  %w = asl %a, #2
  %x = asl %a, #3
  %y = asl %a, #4
  %z = asl %a, #5
  ret
^?bound:3";
