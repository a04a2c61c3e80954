//! Functions, values of the variables of their models that are a solution, and the clauses that break where some of the values are others.
//! Another program that goes by the rules alone gave the clauses.

/// Functions with a solution under all registers and 64 slots; then places of values and others in place of them, and the numbers of the
/// clauses that these break.
pub(crate) static WAYS: &[u8] = b"# Two blocks with a call, and each name in a frame slot.\
|# the values as they are\
|func two %a %b
block e freq 10
  %x = load %a, #0
  $p = cmpgt %x, %b
  store %a, #0, %b
  %y = load %b, #4
  %z = call h %y
  if $p jump r
block r freq 3
  %s = mpyi %z, %a
  ret %s
^0 1 16 17 18 19 20 21 22 23 24 25 26 27 31 2 2 36 2 3 37 0 0 0 0 0 0 0 0 0 0 0 0 0 0 0 0 0 0 0 0 0 0 0 0 0 0 0 0 0 0 0 0 0 0 0 0 2 4 43 1
1 3 5 1 0 7 2 0 2 9 38 3 10 1 0 3 12 1 1 14 2 2 32 4 15 0 2 16 1 39 3 17 1 0 3 19 1 1 21 3 3 3 22 1 0 24 4 0 2 26 40 3 27 1 0 29 2 0 2 30
41 3 31 2 0 5 33 3 32 34 4 0 0 0 0 0 0 0 0 0 0 0 0 0 0 0 0 0 0 0 0 0 0 0 0 0 0 0 0 0 0 0 0 0 0 0 0 0 0 0 0 0 0 0 0 0 0 0 0 0 0 0 0 0 0 0 0
0 0 0 0 1 1 0 0 0 0 0 0 0 0 0 0 0 0 1 35 36 41 16 17 18 19 20 21 22 23 24 25 26 27 43 0 0 0 0 0 0 0 0 0 0 0 0 0 0 0 0 0 0 0 0 0 0 0 0 0 0
0 0 0 0 0 0 0 0 0 0 0 0 0 0 0 0 0 0 0 3 1 0 0 3 3 0 1 5 2 2 0 2 7 42 1 12 3 10 0 31 13 2 3 8 1 0 0 0 0 0 0 0 0 0 0 0 0 0 0 0 0 0 0 0 0 0 0
0 0 0 0 0 0 0 0 0 0 0 0 0 0 0 0 0 0 0 0 0 0 0 0 0 0 0 2 0 0 0 0 0 0 0 0 0 0 0 0 14 1?with:\
|# a register that is never assigned\
|&?with 68=29: 1\
|# a cycle past the horizon\
|&?with 66=108: 1\
|# a mandatory operation at cycle 0\
|&?with 66=0: 1\
|# a choice past the alternatives\
|&?with 67=3: 1\
|# an instruction that a general copy has not\
|&?with 15=4: 1\
|# a call's result in another register\
|&?with 118=1: 1\
|# an end of 0\
|&?with 207=0: 1\
|# a flag of 2\
|&?with 357=2: 1\
|# an inactive copy with a cycle\
|&?with 22=3: 2\
|# an inactive copy with a register\
|&?with 23=5: 2\
|# an inactive copy with a choice\
|&?with 134=1: 2\
|# a Reload chooses an inactive copy, which has register 0\
|&?with 270=1: 3 4\
|# an operation chooses an inactive copy\
|&?with 290=1: 3\
|# an operand of the end chooses an inactive copy, which has no register\
|&?with 192=4: 3 9\
|# a Spill to a register\
|&?with 17=6: 4 7 9\
|# a Reload from a register\
|&?with 64=0: 4\
|# a Reload to a slot\
|&?with 65=50: 4\
|# a Mov to a slot\
|&?with 15=1: 4\
|# a Spill of a predicate's own register\
|&?with 89=0: 4\
|# a P2R to a predicate register\
|&?with 86=33: 4\
|# an R2P from a slot\
|&?with 128=2: 4\
|# an operation reads a slot\
|&?with 67=1: 4\
|# a jump reads a general register\
|&?with 131=3: 4\
|# an active copy at cycle 0\
|&?with 21=1 23=5: 5\
|# an operation at the end\
|&?with 66=35: 5 6 7\
|# a copy at the end\
|&?with 119=2 120=35: 5 7\
|# a user one cycle after a load\
|&?with 70=8: 5\
|# a user one cycle after a Reload\
|&?with 66=6: 5\
|# a user in the cycle of its definer\
|&?with 120=29: 5\
|# the end reads a Reload too early\
|&?with 292=13: 5 10\
|# a jump before the last cycle\
|&?with 207=36: 5\
|# a return before the last cycle\
|&?with 289=12: 5\
|# a load in the cycle of an earlier store\
|&?with 106=21 107=3 105=1: 6\
|# a load in the cycle of a later store\
|&?with 96=4 99=7 100=2:\
|# a load after a later store\
|&?with 96=4 66=8 70=10 73=12 99=7 100=2: 6\
|# a store in the cycle of a later call\
|&?with 99=29 100=2 101=2: 6 7\
|# two values in one register\
|&?with 79=0: 7\
|# a predicate in p0 through a call\
|&?with 131=0 129=33: 7\
|# a value in r31 through a call\
|&?with 206=0: 7 9\
|# a value in r6 through a call\
|&?with 21=1 22=2 23=6 194=1: 7 9\
|# two Spills in a cycle\
|&?with 19=2: 8\
|# two Reloads in a cycle\
|&?with 273=1:\
|# three Reloads in a cycle\
|&?with 273=1 286=1: 8\
|# five instructions in a cycle\
|&?with 21=1 22=2 23=5 24=1 25=2 26=6 27=1 28=2 29=7 30=1 31=2 32=8: 8\
|# a call and a jump in a cycle\
|&?with 116=34: 5 7 8\
|# a value at the other end of an edge in another slot\
|&?with 208=50: 9\
|# an argument in another register\
|&?with 115=1: 9\
|# a saved register that is not restored\
|&?with 210=28: 9\
|# a result in another register\
|&?with 294=1: 9\
|# Spills without the flag\
|&?with 357=0: 10\
|# the flag, but no Enter\
|&?with 60=0 61=0: 10\
|# the flag, but no Leave\
|&?with 283=0 284=0: 10\
|# Enter in the cycle of a Spill\
|&?with 61=2: 10\
|# Leave before a Reload\
|&?with 284=9: 10\
|# Leave in the cycle of a Reload\
|&?with 284=10:\
|# A call in a block that enters and leaves the frame.\
|# the values as they are\
|func one %a
block e freq 1
  %r = call h %a
  ret %r
^0 16 17 18 19 20 21 22 23 24 25 26 27 31 2 2 36 0 0 0 0 0 0 0 0 0 0 0 0 0 0 0 0 0 0 0 0 0 0 0 0 0 0 0 0 0 0 0 0 0 0 0 0 2 3 38 1 1 3 4 1 0
6 2 0 2 7 37 1 12 3 10 1 31 13 2 3 8 1 0 0 0 0 0 0 0 0 0 0 0 0 0 0 0 0 0 0 0 0 0 0 0 0 0 0 0 0 0 0 0 0 0 0 0 0 0 0 0 0 0 0 0 0 0 0 0 0 0 2
0 0 0 0 0 0 0 0 0 0 0 0 14 1?with:\
|# a call in the cycle of Enter\
|&?with 57=6: 10\
|# a Spill in the cycle of Enter\
|&?with 57=2: 10\
|# Leave before Enter\
|&?with 57=13: 10\
|# Leave in the cycle of the call\
|&?with 69=6: 10\
|# Two blocks without a frame.\
|# the values as they are\
|func leaf %a
block e freq 2
  %b = addi %a, #1
block r freq 1
  ret %b
^0 16 17 18 19 20 21 22 23 24 25 26 27 31 0 0 0 0 0 0 0 0 0 0 0 0 0 0 0 0 0 0 0 0 0 0 0 0 0 0 0 0 0 0 0 0 0 0 0 0 0 0 0 0 0 0 0 0 0 0 0 0 1
0 0 0 0 0 0 0 0 0 0 0 0 0 0 0 0 0 0 0 0 0 0 0 0 0 0 0 0 0 0 0 0 0 0 0 0 0 0 0 0 0 0 0 0 0 0 0 0 0 0 0 0 0 0 0 0 0 0 0 0 0 0 0 0 0 0 0 0 0
0 0 0 0 0 0 2 0 16 17 18 19 20 21 22 23 24 25 26 27 31 0 0 0 0 0 0 0 0 0 0 0 0 0 0 0 0 0 0 0 0 0 0 0 0 0 0 0 0 0 0 0 0 0 0 0 0 0 0 0 0 0 0
0 0 0 0 0 0 1 0 0 0 0 0 0 0 0 0 0 0 0 0 0 0 0 0 0 0 0 0 0 0 0 0 0 0 0 0 0 0 0 0 0 0 0 0 0 0 0 0 0 0 0 0 0 0 0 0 0 0 0 0 0 0 0 0 0 0 0 0 0
0 0 0 0 2 0?with:\
|# the flag, but no use of the frame\
|&?with 269=1: 10\
|# the flag with Enter and Leave, but no use of the frame\
|&?with 56=1 57=1 195=1 196=1 269=1: 10\
|# Enter without the flag\
|&?with 56=1 57=1: 10\
|# Leave without the flag\
|&?with 195=1 196=1: 10\
|# a Spill without the flag\
|&?with 65=2 66=1 67=36: 5 10\
|# a slot at a block's start without the flag\
|&?with 139=36: 9 10\
|# the values as they are, and one more\
|func leaf %a
block e freq 2
  %b = addi %a, #1
block r freq 1
  ret %b
^0 16 17 18 19 20 21 22 23 24 25 26 27 31 0 0 0 0 0 0 0 0 0 0 0 0 0 0 0 0 0 0 0 0 0 0 0 0 0 0 0 0 0 0 0 0 0 0 0 0 0 0 0 0 0 0 0 0 0 0 0 0 1
0 0 0 0 0 0 0 0 0 0 0 0 0 0 0 0 0 0 0 0 0 0 0 0 0 0 0 0 0 0 0 0 0 0 0 0 0 0 0 0 0 0 0 0 0 0 0 0 0 0 0 0 0 0 0 0 0 0 0 0 0 0 0 0 0 0 0 0 0
0 0 0 0 0 0 2 0 16 17 18 19 20 21 22 23 24 25 26 27 31 0 0 0 0 0 0 0 0 0 0 0 0 0 0 0 0 0 0 0 0 0 0 0 0 0 0 0 0 0 0 0 0 0 0 0 0 0 0 0 0 0 0
0 0 0 0 0 0 1 0 0 0 0 0 0 0 0 0 0 0 0 0 0 0 0 0 0 0 0 0 0 0 0 0 0 0 0 0 0 0 0 0 0 0 0 0 0 0 0 0 0 0 0 0 0 0 0 0 0 0 0 0 0 0 0 0 0 0 0 0 0
0 0 0 0 2 0 0?with: 1";
