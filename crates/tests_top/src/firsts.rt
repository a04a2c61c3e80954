//! First solutions, under the least ends that a search hands them: what they cost on functions whose least cost was worked out by hand.

use crate::rows::wrong_row;
use crate::searches::{model_under, nodes, options, put_part};
use std::alloc::Global;
use un_base::memory_error::NoMemory;
use un_first::first::first;
use un_ir::text::put_text;
use un_model::cost::cost;
use un_search::start::least_ends;

/// Functions, and what the first solution of so many trials costs, where it finds one: the least cost of each.
static FIRSTS: &[u8] = b"# A chain: the load and the product are each read two cycles later.\
|func chain %a
block e freq 1
  %b = add %a, %a
  %c = load %b, #0
  %d = mpyi %c, %b
  %e = add %d, %c
  ret %e
?first 200:cost 6\
|# A ring of two moves and one of three: they issue in one packet with Enter, the call in the next with the Spill and the move that
# save the link, and the return waits for what brings it back.\
|func x %a %b
block e freq 1
  call h %b, %a
  ret
?first 200:cost 4\
|func ring %a %b %c
block e freq 1
  call h %b, %c, %a
  ret
?first 200:cost 4\
|# A value, and a predicate, across a call.\
|func c %a
block e freq 1
  %r = call h %a
  %s = add %r, %a
  ret %s
?first 200:cost 5\
|func q %a %b
block e freq 1
  $p = cmpeq %a, %b
  call h %a
  %r = mux $p, %a, %b
  ret %r
?first 200:cost 5\
|# More values than registers: sixteen of the eighteen loads have one, so that two kept registers are spilled. With these Spills and
# the store that makes eleven packets of two memory instructions; the last load issues in the twelfth, and the sums two cycles later.\
|func many %x
block e freq 1
  %v0 = load %x, #0
  %v1 = load %x, #4
  %v2 = load %x, #8
  %v3 = load %x, #12
  %v4 = load %x, #16
  %v5 = load %x, #20
  %v6 = load %x, #24
  %v7 = load %x, #28
  %v8 = load %x, #32
  %v9 = load %x, #36
  %v10 = load %x, #40
  %v11 = load %x, #44
  %v12 = load %x, #48
  %v13 = load %x, #52
  %v14 = load %x, #56
  %v15 = load %x, #60
  %v16 = load %x, #64
  %v17 = load %x, #68
  store %x, #0, %x
  %s = load %x, #4
  %s = add %s, %v0
  %s = add %s, %v1
  %s = add %s, %v2
  %s = add %s, %v3
  %s = add %s, %v4
  %s = add %s, %v5
  %s = add %s, %v6
  %s = add %s, %v7
  %s = add %s, %v8
  %s = add %s, %v9
  %s = add %s, %v10
  %s = add %s, %v11
  %s = add %s, %v12
  %s = add %s, %v13
  %s = add %s, %v14
  %s = add %s, %v15
  %s = add %s, %v16
  %s = add %s, %v17
  ret %s
?first 200:cost 31\
|# Four values cross the call: the sum's two stand in kept registers, which are spilled, and %c, which is read last, in a slot beside the
# link: as many Spills as there are packets from Enter to the call, and the Reloads have time behind it.\
|func late %a %b %c
block e freq 1
  %s = imm #0
  %r = call g %a, %s
  %t = add %r, %b
  %s = xor %s, %t
  %s = add %s, %r
  %s = sub %s, %c
  ret %s
?first 2000:cost 9\
|# The second call's argument is loaded into its register at once, since what the first call returned leaves it in the packet of the load.\
|func tree %t
block e freq 10
  $z = cmpeqi %t, #0
  if !$z jump a
block r freq 5
  %r = imm #0
  ret %r
block a freq 5
  %l = load %t, #0
  %a = call tree %l
  %m = load %t, #4
  %b = call tree %m
  %v = load %t, #8
  %a = add %a, %b
  %a = add %a, %v
  ret %a
?first 2000:cost 70\
|# Two blocks that want other registers for %c: the call its second argument's, in which it stands, the other return r0, to which it
# moves in the packet of the return. The branch waits for the compare, and behind the call the link is brought back.\
|func two %a %b
block e freq 1
  %c = add %a, %b
  $p = cmpgt %a, %b
  if $p jump z
block y freq 10
  ret %c
block z freq 100
  %d = call h %b, %c
  ret %d
?first 2000:cost 312\
|&?first 1:none";

/// Appends what the first solution of a function costs.
pub(crate) fn put_first(
    alloc: Global,
    out: &mut Vec<u8>,
    function: &[u8],
    question: &[u8],
) -> Result<(), NoMemory> {
    let m = model_under(alloc, function, &options(question))?;
    let Some(ends) = least_ends(alloc, &m)? else {
        return put_text(out, b"none");
    };
    match first(alloc, &m, ends.as_slice(), nodes(question))? {
        None => put_text(out, b"none"),
        Some(solution) => put_part(out, b"cost ", cost(&m, &solution)),
    }
}

#[test]
fn first_solutions_cost_the_least(rt: HostRuntime) {
    let wrong = wrong_row(rt.alloc(), FIRSTS);
    assert!(rt; wrong.is_empty(), "{wrong}");
}
