//! `refute` and `refute --check` over sources and sinks in memory.

use crate::rows::wrong_row;

/// Functions, with refutations behind them or alone, the words of a run, and what is left, as for runs of `alloc`.
static REFUTATIONS: &[u8] =
    b"# Two operands cannot stand in one register: the root refutes it, whatever the limit.\
|func two
block e freq 1
  %a = imm #1
  %b = imm #2
  %c = add %a, %b
  ret %c
?refute 1000 --regs 1:done>refuted 1000
function two
model regs 1 slots 256
nodes 1
C
end
>\
|&?refute 18446744073709551615 --regs 1 --nodes 1:done>refuted 18446744073709551615
function two
model regs 1 slots 256
nodes 1
C
end
>\
|# There is code of cost 2, and none that costs less.\
|&?refute 3:found 2>cost 2
>\
|&?refute 2:done>refuted 2
function two
model regs all slots 256
nodes 1
C
end
>\
|&?refute 0:done>refuted 0
function two
model regs all slots 256
nodes 1
C
end
>\
|# With one node the root alone is looked at.\
|&?refute 1000 --nodes 1:cut>cut 1000
function two
model regs all slots 256
nodes 1
O
end
>\
|# A right side whose register is one for another that the left side has is one line.\
|func f
block e freq 1
  ret
---
refuted 1
function f
model regs all slots 256
nodes 5
B 15 36
C
B 15 37
M 36 37 0
C
end
?refute --check:done>yes refuted 1
>\
|func f
block e freq 1
  ret
---
refuted 1
function f
model regs all slots 256
nodes 5
B 15 36
C
B 15 37
M 0 37 0
C
end
?refute --check:no>no mirror 3
>\
|# A mirror stands on the right side of its branch, has the branch's depth, and registers that can stand for one another.\
|func f
block e freq 1
  ret
---
refuted 1
function f
model regs all slots 256
nodes 3
B 15 36
M 36 37 0
C
end
?refute --check:no>no mirror 1
>\
|func f
block e freq 1
  ret
---
refuted 1
function f
model regs all slots 256
nodes 5
B 15 36
C
B 15 37
M 36 37 1
C
end
?refute --check:no>no mirror 3
>\
|func f
block e freq 1
  ret
---
refuted 2
function f
model regs all slots 256
nodes 1
C
end
?refute --check:no>no closed 0
>\
|func f
block e freq 1
  ret
---
refuted 1
function f
model regs all slots 256
nodes 3
B 15 1000
C
C
end
?refute --check:no>no strict 0
>\
|func f
block e freq 1
  ret
---
refuted 1
function f
model regs all slots 256
nodes 2
C
C
end
?refute --check:no>no short
>\
|func f
block e freq 1
  ret
---
refuted 1
function g
model regs all slots 256
nodes 1
C
end
?refute --check:no>no name
>\
|# The grammar, and the function before it.\
|func f
block e freq 1
  ret
---
refuted 1
function f
model regs all slots 257
nodes 1
C
end
?refute --check:bad 3>>bad report: line 3
|func f
block e freq 1
  ret
---
refuted 1
function f
model regs all slots 256
nodes 1
O
end
?refute --check:bad 5>>bad report: line 5
|func f
block e freq 1
  ret
---
refuted 1
function f
model regs all slots 256
nodes 1
C
end
x
?refute --check:bad 7>>bad report: line 7
|func f
block e freq 1
  ret
?refute --check:bad 1>>bad report: line 1
|func f
block e freq 0
  ret
---
x
?refute --check:fault 2 14>>line 2: 14 BadFreq
|func f
block e freq 0
  ret
?refute 7:fault 2 14>>line 2: 14 BadFreq
|# Words.\
|?refute:usage 1>>usage: word 1
|?refute x:usage 1>>usage: word 1
|?refute 18446744073709551616:usage 1>>usage: word 1
|?refute --check x:usage 2>>usage: word 2
|?refute 5 --nodes:usage 3>>usage: word 3
|?refute 5 --table:usage 2>>usage: word 2
|?refute --nodes 5 5:usage 1>>usage: word 1
";

#[test]
fn refutations_leave_what_is_wanted(rt: HostRuntime) {
    let wrong = wrong_row(rt.alloc(), REFUTATIONS);
    assert!(rt; wrong.is_empty(), "{wrong}");
}
