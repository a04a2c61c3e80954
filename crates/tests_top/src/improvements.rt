//! `improve` over sources and sinks in memory.

use crate::rows::wrong_row;

/// Functions with numbers behind them, the words of a run, and what is left, as for runs of `alloc`; or behind `n` the cost, the bound and the
/// frame alone.
static IMPROVEMENTS: &[u8] =
    b"# A return in cycle 500 of a block that ends in 501: it comes to cycle 2, and the end to 3.\
|func f
block e freq 1
  ret
---
solution 124
16 17 18 19 20 21 22 23 24 25 26 27 31 0 0 0
0 0 0 0 0 0 0 0 0 0 0 0 0 0 0 0
0 0 0 0 0 0 0 0 0 0 0 0 0 0 0 0
0 0 0 0 0 0 0 0 0 0 0 0 500 0 0 0
0 0 0 0 0 0 0 0 0 0 0 0 0 0 0 0
0 0 0 0 0 0 0 0 0 0 0 0 0 0 0 0
0 0 0 0 0 0 0 0 0 0 0 0 0 0 0 0
0 0 0 0 0 0 0 0 0 0 501 0
?n improve --nodes 1:done cost 1..2 bound 1 frame 0..\
|&?n improve:done cost 1 bound 1 frame 0\
|&?n improve --slots 0 --nodes 5:done cost 1 bound 1 frame 0\
|# The end is two cycles behind the return.\
|func f
block e freq 1
  ret
---
solution 124
16 17 18 19 20 21 22 23 24 25 26 27 31 0 0 0
0 0 0 0 0 0 0 0 0 0 0 0 0 0 0 0
0 0 0 0 0 0 0 0 0 0 0 0 0 0 0 0
0 0 0 0 0 0 0 0 0 0 0 0 500 0 0 0
0 0 0 0 0 0 0 0 0 0 0 0 0 0 0 0
0 0 0 0 0 0 0 0 0 0 0 0 0 0 0 0
0 0 0 0 0 0 0 0 0 0 0 0 0 0 0 0
0 0 0 0 0 0 0 0 0 0 502 0
?improve --nodes 1:no>no solution 5
>\
|# A number too few, and the cycle 0 of what has to be.\
|func f
block e freq 1
  ret
---
solution 123
16 17 18 19 20 21 22 23 24 25 26 27 31 0 0 0
0 0 0 0 0 0 0 0 0 0 0 0 0 0 0 0
0 0 0 0 0 0 0 0 0 0 0 0 0 0 0 0
0 0 0 0 0 0 0 0 0 0 0 0 500 0 0 0
0 0 0 0 0 0 0 0 0 0 0 0 0 0 0 0
0 0 0 0 0 0 0 0 0 0 0 0 0 0 0 0
0 0 0 0 0 0 0 0 0 0 0 0 0 0 0 0
0 0 0 0 0 0 0 0 0 0 501
?improve:no>no solution 1
>\
|func f
block e freq 1
  ret
---
solution 124
16 17 18 19 20 21 22 23 24 25 26 27 31 0 0 0
0 0 0 0 0 0 0 0 0 0 0 0 0 0 0 0
0 0 0 0 0 0 0 0 0 0 0 0 0 0 0 0
0 0 0 0 0 0 0 0 0 0 0 0 0 0 0 0
0 0 0 0 0 0 0 0 0 0 0 0 0 0 0 0
0 0 0 0 0 0 0 0 0 0 0 0 0 0 0 0
0 0 0 0 0 0 0 0 0 0 0 0 0 0 0 0
0 0 0 0 0 0 0 0 0 0 501 0
?improve:no>no solution 1
>\
|# The numbers are read to their end, behind the function.\
|func f
block e freq 1
  ret
---
solution 124
16 17 18 19 20 21 22 23 24 25 26 27 31 0 0 0
0 0 0 0 0 0 0 0 0 0 0 0 0 0 0 0
0 0 0 0 0 0 0 0 0 0 0 0 0 0 0 0
0 0 0 0 0 0 0 0 0 0 0 0 500 0 0 0
0 0 0 0 0 0 0 0 0 0 0 0 0 0 0 0
0 0 0 0 0 0 0 0 0 0 0 0 0 0 0 0
0 0 0 0 0 0 0 0 0 0 0 0 0 0 0 0
0 0 0 0 0 0 0 0 0 0 501 0
x
?improve:bad 10>>bad report: line 10
|func f
block e freq 1
  ret
---
solution 2
1 2 3
?improve:bad 2>>bad report: line 2
|func f
block e freq 1
  ret
?improve:bad 1>>bad report: line 1
|func f
block e freq 0
  ret
---
x
?improve:fault 2 14>>line 2: 14 BadFreq
|# Words.\
|?improve x:usage 1>>usage: word 1
|?improve --nodes:usage 2>>usage: word 2
|?improve --regs 30:usage 2>>usage: word 2
|?improve --slots 1 --slots 1:usage 3>>usage: word 3
";

#[test]
fn improvements_leave_what_is_wanted(rt: HostRuntime) {
    let wrong = wrong_row(rt.alloc(), IMPROVEMENTS);
    assert!(rt; wrong.is_empty(), "{wrong}");
}
