//! The least ends of blocks at which the rounds do not fail, worked out by hand: one cycle less is the greatest end at which they do.

use crate::rows::wrong_row;
use crate::searches::{model_under, options, put_part};
use std::alloc::Global;
use un_base::memory_error::NoMemory;
use un_search::start::least_ends;

/// Functions, and for each block the least end at which the rounds do not fail. In each row but the last such an end is also the least
/// that a block of some solution has.
static ENDS: &[u8] =
    b"# A chain of three issues in cycles 1 to 3, and its result is ready at the end.\
|func chain
block e freq 1
  %a = imm #1
  %b = addi %a, #1
  %c = addi %b, #1
  ret %c
?blocks: 4\
|# Five constants and a return are six instructions, of which a packet has four.\
|func crowd
block e freq 1
  %a = imm #1
  %b = imm #2
  %c = imm #3
  %d = imm #4
  %e = imm #5
  ret %a
?blocks: 3\
|# Two stores issue in two cycles, and the return beside the second.\
|func stores %a %b
block e freq 1
  store %a, #0, %b
  store %a, #4, %b
  ret
?blocks: 3\
|# A product is ready two cycles later, and the sum that reads it at the end.\
|func product %a %b
block e freq 1
  %c = mpyi %a, %b
  %d = add %c, %a
  ret %d
?blocks: 4\
|# Six loads, nineteen sums of one of them each, and a return are twenty-six instructions. In cycles 1 and 2 nothing but two loads each can
# issue, so four of the twenty-eight places of seven packets are lost, and it takes eight.\
|func mixed %p
block e freq 1
  %a = load %p, #0
  %b = load %p, #4
  %c = load %p, #8
  %d = load %p, #12
  %e = load %p, #16
  %f = load %p, #20
  %x = addi %a, #1
  %x = addi %b, #2
  %x = addi %c, #3
  %x = addi %d, #4
  %x = addi %e, #5
  %x = addi %f, #6
  %x = addi %a, #7
  %x = addi %b, #8
  %x = addi %c, #9
  %x = addi %d, #10
  %x = addi %e, #11
  %x = addi %f, #12
  %x = addi %a, #13
  %x = addi %b, #14
  %x = addi %c, #15
  %x = addi %d, #16
  %x = addi %e, #17
  %x = addi %f, #18
  %x = addi %a, #19
  ret
?blocks: 9\
|# Where four of the sums are constants they stand beside the loads, and seven packets do.\
|func spread %p
block e freq 1
  %a = load %p, #0
  %b = load %p, #4
  %c = load %p, #8
  %d = load %p, #12
  %e = load %p, #16
  %f = load %p, #20
  %y = imm #0
  %y = imm #1
  %y = imm #2
  %y = imm #3
  %x = addi %e, #5
  %x = addi %f, #6
  %x = addi %a, #7
  %x = addi %b, #8
  %x = addi %c, #9
  %x = addi %d, #10
  %x = addi %e, #11
  %x = addi %f, #12
  %x = addi %a, #13
  %x = addi %b, #14
  %x = addi %c, #15
  %x = addi %d, #16
  %x = addi %e, #17
  %x = addi %f, #18
  %x = addi %a, #19
  ret
?blocks: 8\
|# Twelve saved values and the link cross the call, which keeps twelve registers. The frame is entered in cycle 1, so one of them is
# spilled in cycle 2 and the call issues there; it is reloaded in cycle 3, and is ready at the end, cycle 5.\
|func across
block e freq 1
  call h
  ret
?blocks: 5\
|# With two calls the second issues a cycle later, and so does the Reload.\
|func twice
block e freq 1
  call h
  call h
  ret
?blocks: 6\
|# The block with the call has no copies of the thirteen saved values, of which the call keeps twelve: one is in a slot from its start to
# its end. So the entry enters the frame in cycle 1, spills it in cycle 2, and ends in cycle 3; the last block reloads it in cycle 1, and it
# is ready at the end, cycle 3.\
|func between
block e freq 1
block m freq 1
  call h
block x freq 1
  ret
?blocks: 3 2 3\
|# A call clobbers all predicates: the one that is read behind it crosses it in a kept register, so two of fourteen values are spilled, in
# cycles 2 and 3, the call issues in cycle 3, the predicate comes back in cycle 4, and the jump reads it in cycle 5.\
|func predicate %a %b
block e freq 1
  $p = cmpgt %a, %b
  call h
  if $p jump x
block m freq 1
block x freq 1
  ret
?blocks: 6 1 2";

/// Appends the least end of each block below which the rounds fail.
pub(crate) fn put_ends(alloc: Global, out: &mut Vec<u8>, function: &[u8]) -> Result<(), NoMemory> {
    let m = model_under(alloc, function, &options(b""))?;
    if let Some(ends) = least_ends(alloc, &m)? {
        for end in &ends {
            put_part(out, b" ", u64::from(*end))?;
        }
    }
    Ok(())
}

#[test]
fn blocks_are_as_long_as_was_worked_out(rt: HostRuntime) {
    let wrong = wrong_row(rt.alloc(), ENDS);
    assert!(rt; wrong.is_empty(), "{wrong}");
}
