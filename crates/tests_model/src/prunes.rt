//! Stores before and after propagators of each kind prune them.

ghost use Rattle.std.specs.Prelude.{◌≡◌, ◌<◌, ◌≤◌, All, length, true};
ghost use Rattle.un_base.specs.declared.ids.VarId.{VarId};
ghost use Rattle.un_domains.specs.Sets.{NoneEmpty};
ghost use Rattle.un_kinds.specs.AnyProps.{span_of};

use crate::kinds::prop;
use crate::sets::{has_sets, store_of};
use crate::stores::is_live;
use crate::words::cut;
use std::alloc::Global;
use un_base::ids::VarId;
use un_base::lines::lines;
use un_base::memory_error::NoMemory;
use un_domains::store::Store;
use un_kinds::any::AnyProp;
use un_prop::propagator::{Predicate, Propagator, Pruned, Scratch};

/// A kind, sets of its variables before, and what pruning leaves: `failed`, `same`, or sets.
static ROWS: &[u8] = b"# Sets of a time at least 2 after another, with their activities.
before 1,2,5 1 2,3,4,9 1>1,2,5 1 3,4,9 1
before 1,5,8 1 2,4 2>1 1 4 2
before 4 1 5 0,1>4 1 5 0
before 4 0,1 5 1>4 0 5 1
before 1,2 0,1 1,2 1>same
before 1000,7000 3 1001,1002,5000 3>1000 3 1002,5000 3
before 5 1 6 1>failed
# Sets of a cycle, its activity and an end.
inside 0,1,3,7 1 2,5>1,3 1 2,5
inside 0 0,1 1>0 0 1
inside 3,4 1 2,5>3,4 1 5
inside 1,2 1 3,4>same
inside 0,9 0,1 3,4>same
inside 3 1 3>failed
# Sets of a cycle and an end.
last 1,4,6 3,5>4 5
last 2,3 3,4>same
last 2 3>same
last 1,9 2,10>same
last 2 5>failed
# Sets of two ends, of blocks that are run 3 and 10 times, under the limit 50.
# Each end keeps what the limit leaves it, the other being at its least: 36 of 50 are left here, 3 cycles of the second block.
cost 2,5 2,9>2,5 2
cost 2,14,15 2,5,6>2,14 2,5
cost 2 2,5,6>2 2,5
# 6 are left, two cycles of the first block and none of the second.
cost 2,5 5,6>2 5
cost 2,4,5 5,6>2,4 5
# An end at 0 costs nothing, as one at 1 does.
cost 0 5,6>0 5
cost 0,1,4,5 5,6>0,1,4 5
cost 0,1,17 0,1,5>same
cost 4 6,7>failed
# Sets of a user's time, its activity and its choice, the first definer's time, the second's time and its activity.
reads 1,2,3,9 1 0,1 2 6 1,2>3,9 1 0,1 2 6 1,2
reads 1,2,3,6 1 0,1 2 6 1,2>3,6 1 0 2 6 1,2
reads 0,1 0,1 0,1 2 6 1,2>0,1 0 0,1 2 6 1,2
reads 1,7,8 1 1 2 5,6 2>7,8 1 1 2 5,6 2
reads 3 1 0 2 6 1>same
reads 7 1 1 2 6 1,2>7 1 1 2 6 1
reads 2 1 0 2 6 1>failed
# The only definer that is left to choose is in time for the user's last time, by the least gap of its numbers.
reads 6,7,8 1 1 2 5,6,7,8 1,2>6,7,8 1 1 2 5,6,7 1,2
reads 7,8 1 1 2 5,6,7,8 2>7,8 1 1 2 5,6 2
reads 3,4 1 0 1,2,3,9 6 1>3,4 1 0 1,2,3 6 1
# The user may be inactive, or choose another.
reads 3,4 0,1 0 1,2,9 6 1>same
reads 3,9 1 0,1 2,9 6,9 1>same
# A place past the list, and a number past the gaps.
reads 9 1 2 2 6 1>failed
reads 9 1 1 2 6 3>failed
# Sets of a user, its choice, and the activity of the second definer.
definers 1 0,1 0>1 0 0
definers 0,1 1 0>0 1 0
definers 1 1 0,1>1 1 1
definers 0,1 0,1 0,1>same
definers 1 1 0>failed
definers 1,2 0,1 0>1,2 0 0
definers 0,3 1 0>0 1 0
# A place past the list.
definers 1 2 0,1>failed
definers 0,1 2 1>0 2 1
# The only definer that is left to choose is active, where the user is.
definers 1,2 1 0,1,3>1,2 1 1,3
definers 0,1 1 0,1>same
definers 1,2 0,1 0,1>same
# Sets of an instruction and two other variables of its operation.
zeros 0 0 0,4>0 0 0
zeros 0,1 0 5>1 0 5
zeros 0,1 0,1 0>same
zeros 2 1 3>same
zeros 0 1 0>failed
# What is inactive has only zeros.
zeros 0 0,1 0,4>0 0 0
zeros 0 0,1 3,4>failed
# What has a cycle or a register other than 0 is active.
zeros 0,1,2 0,1 3,4>1,2 0,1 3,4
zeros 0,2 1,2 0,3>2 1,2 0,3
# It may be inactive.
zeros 0,1 0,1 0,3>same
# Sets of an instruction, a choice and two registers; its sets are none, r1 and r2, and two slots.
spaces 1 0 1,2,36 5>1 0 1,2 5
spaces 1,2 0 36 5>2 0 36 5
spaces 1 0,1 1 36>1 0 1 36
spaces 0 1 9 9>same
spaces 3 0 1 1>failed
spaces 1 0,1 1,2,40 36,37>1 0 1,2,40 36,37
spaces 0,1 0,1 5,6 36,40>0 0,1 5,6 36,40
spaces 1,2 0,1 5,6 36,40>1,2 1 5,6 36,40
# Sets of a choice, two registers, and another.
moves 0 5,6 7 6>0 6 7 6
moves 0,1 5 7 7>1 5 7 7
moves 0 5 7 4,5>0 5 7 5
moves 0,1 5,6 6,7 6>same
moves 0 5 7 6>failed
moves 0 6 7 5>failed
moves 0,1 5,6 7,8 6,9>0 5,6 7,8 6,9
moves 0,1 5,7 8,9 6>failed
# A place past the list.
moves 2 5 7 5>failed
# Sets of a choice and two registers, of which the chosen one is r3.
home 0 1,3 9>0 3 9
home 0,1 3 9>0 3 9
home 0,1 3,4 3>same
home 0 4 3>failed
home 0,1 3,4 4,5>0 3,4 4,5
home 0,1 5,6 4,5>failed
# Sets of the flag, a copy's instruction, a register at a block's start, Enter and its cycle, the copy's cycle, Leave and its cycle,
# a call's cycle.
frame 0,1 2 4 1 1 2 1 5 3>1 2 4 1 1 2 1 5 3
frame 0,1 0 36 1 1 0 1 5 3>1 0 36 1 1 0 1 5 3
frame 0,1 1 4 0 0 2 0 0 3>0 1 4 0 0 2 0 0 3
frame 1 2 4 1 3 2,3,4,9 1 9 3>1 2 4 1 3 4,9 1 9 3
frame 1 3 4 1 1 2,3,5,6 1 5 3>1 3 4 1 1 2,3,5 1 5 3
frame 1 2 4 1 1 2 1 5 4,5,6>1 2 4 1 1 2 1 5 4
frame 0,1 0,2 4 1 1 2 1 5 3>same
frame 1 1 4 1 1 2 1 5 3>failed
frame 0 1 4 1 1 2 0 0 3>failed
# Without the frame there is no spill, no slot, no Enter and no Leave.
frame 0 0,2 4,36 0,1 0,1 0,2 0,1 0,5 3,4>0 0 4 0 0,1 0,2 0 0,5 3,4
# With it Enter and Leave are active; what is a spill for sure is after Enter and no later than Leave, and a call is before that.
frame 1 2 4,36 0,1 2,3,9 1,2,3,8,9 0,1 5,8 3,4,8,9>1 2 4,36 1 2,3 3,8 1 5,8 3,4
# What may be a move is in no order.
frame 1 1,2 36 1 3,4 2,9 1 5,8 3>same
# A copy that is a spill or a reload, whichever, uses the frame.
frame 0,1 2,3 4 0,1 0,1 2,3 0,1 5 3>1 2,3 4 1 0,1 2,3 1 5 3
# There is no cycle after Enter's.
frame 1 2 4 1 9 2,3 1 9 3>failed
# The same of a part of a function without Enter, whose sets stay as they are: a set flag needs no use there.
unentered 1 1 4 0 9 2 1 5 3>same
unentered 1 2 4 0,1 9 2,6 0,1 5 3>1 2 4 0,1 9 2 1 5 3
unentered 0,1 2 4 0 9 2 1 5 3>1 2 4 0 9 2 1 5 3
unentered 0 1 4 0,1 9 2 0,1 5 3>0 1 4 0,1 9 2 0 5 3
unentered 0 2 4 0 9 2 0 5 3>failed
# Sets of the time, activity and register of a temporary and the time of its user, for two temporaries.
# The first surely has its register from 2 to 4, and the second starts by 3 and ends after 4.
two 1,2 1 5 4,6 1,3 1 5,7 5,9>1,2 1 5 4,6 1,3 1 7 5,9
# It has no other register.
two 1,2 1 5 4,6 1,3 1 5 5,9>failed
# The second may start where the first ends.
two 1,2 1 5 4,6 1,4 1 5,7 5,9>same
# The second may be inactive, and two variables are open.
two 1,2 1 5 4 3 0,1 5 5>same
# It has to be inactive.
two 1 1 5 4 2 0,3 5 3>1 1 5 4 2 0 5 3
# The first has its register from 3 to 5, the second from 1 to 2, 3 or 6.
two 3 1 5 5 1 1 5 2,3,6>3 1 5 5 1 1 5 2,3
# The second starts before or after the first, and not while that has the register.
two 3 1 5 5 1,3,4,5,8 1 5 0>3 1 5 5 1,5,8 1 5 0
# A temporary whose users are before it has its register in the cycle of its definer.
two 2 1 5 1 2,3 1 5 0>2 1 5 1 3 1 5 0
# The second cannot end before the first starts, so it starts no sooner than the first can end.
two 1,4 1 5 3,6 2,9 1 5 8,9>1,4 1 5 3,6 9 1 5 8,9
# And the first and its user are no later than the second.
two 1,9 1 5 3,12 2,7 1 5 10,11>1 1 5 3 7 1 5 10,11
# All is fixed, and one register is held twice at 4.
two 1 1 5 5 4 1 5 6>failed
# A value that is saved, spilled and reloaded, and another. Sets of: the time and register of the value; the instruction and time of
# its spill, and the slot; the instruction, time, choice and register of its reload; the time and choice of its user; the register
# of the other, which has it from 4 to 7.
# The user reads what was reloaded: the value is free from 2 on.
values 1 3 2 2 40 3 8 1 3,5 10 2 3,6>same
# It reads the value itself, which so has its register up to 10.
values 1 3 2 2 40 3 8 1 3,5 10 0 3,6>1 3 2 2 40 3 8 1 5 10 0 6
# With the register given to the other, the user reads what was reloaded.
values 1 3 2 2 40 3 8 1 5 10 0,2 3>1 3 2 2 40 3 8 1 5 10 2 3
# Also while it is open when it does so.
values 1 3 2 2 40 3 8 1 5 9,10 0,2 3>1 3 2 2 40 3 8 1 5 9,10 2 3
# A late spill holds the register too.
values 1 3 2 4,5,8 40 3 9 1 5 10 2 3>1 3 2 4 40 3 9 1 5 10 2 3
# So does a reload that reads the value.
values 1 3 2 2 40 3 8 0 5 10 2 3,6>1 3 2 2 40 3 8 0 5 10 2 6
# The value is needed in the other's cycles, and has no other register.
values 1 3 0 0 0 0 0 0 0 10 0 3>failed
# Sets of the place and the registers of an operand that may have 1, 2 and 3, and of one that may have 2, 3 and 4.
# Both have 2, whatever they choose.
operands 0,1 2 2 0,1 2 2,7>failed
# The first has 2, so the second has not.
operands 0,1 2 2 0 2,3,4 9>0,1 2 2 0 3,4 9
# The second has 2, so the first has not.
operands 1 9 1,2,3 0,1 2 0,2>1 9 1,3 0,1 2 0,2
# What has no register of its set is not chosen.
operands 0 1,2 9 0,1 5,6 3,4>0 1,2 9 1 5,6 3,4
# Nor is what has the other's register alone.
operands 0,1 3 1,2 1 9 3>1 3 1,2 1 9 3
# What is chosen has registers of its set.
operands 0 0,1,2 9 0 2,3,8 9>0 1,2 9 0 2,3 9
operands 0 1,2 9 0 2,3 9>same
operands 1 9 2 0 4 9>same
# There is no third register to choose.
operands 2 1 1 0 4 4>failed
# Sets of: the time, activity and register of a temporary, where calls take the registers 0 to 7; the instruction and time of its
# copy; the time and place of a user that may choose it; the times of two calls, which are after it, the first before the copy and
# the second before that user; the time of a user that reads it.
# The first call is at 4, when the temporary surely has its register.
across 1,2 1 3,16 0 0 9 0 4 20 6,7>1,2 1 16 0 0 9 0 4 20 6,7
# So is the second.
across 1,2 1 3,16 0 0 9 0 20 4 6,7>1,2 1 16 0 0 9 0 20 4 6,7
# It has no other register.
across 1,2 1 3,5 0 0 9 0 3,4,5 20 6,7>failed
# The call is before it or after it.
across 1,2 1 3,5 0 0 9 0 1,2,5,6,8 20 6,7>1,2 1 3,5 0 0 9 0 1,6,8 20 6,7
# The copy reads it behind the first call, whatever the times.
across 1,2 1 3,16 2 8,9 9 0 3,20 30 2>1,2 1 16 2 8,9 9 0 3,20 30 2
# The user that has chosen it reads it behind the second.
across 1,2 1 3,16 0 0 8,9 1 30 3,20 2>1,2 1 16 0 0 8,9 1 30 3,20 2
# What does not survive the second call is not chosen behind it.
across 1,2 1 3,5 0 0 8,9 0,1 30 3,20 2>1,2 1 3,5 0 0 8,9 0 30 3,20 2
# Where it is read behind a call and has no other register, it is inactive.
across 0,2 0,1 0,3 2 8,9 9 0 3,20 30 2>0,2 0 0,3 2 8,9 9 0 3,20 30 2
# Each call may be before it or after it.
across 1,2 1 3,16 0 0 9 0 5,6 1,9 6,7>same
# It ends by the call.
across 2 1 3 0 0 9 0 4 20 3,4,5>2 1 3 0 0 9 0 4 20 3,4
across 2 1 3 0 0 9 0 1 5 6>failed
# An inactive temporary has no register.
across 0 0 0 0 0 9 0 4 5 6>same
# Sets of the cycles of a load, a store, a control transfer and a load or a store of two cycles each before cycle 8, and the numbers
# of the last two: an operation that is a store or, by its number 2, none of the places for memory, and a copy that may be inactive,
# a register move, a store or a load.
# One store and one load fill the places for memory in cycle 3: a load is not there.
packets 3 3 5 2,3 2 3,4,5 3>3 3 5 2,3 2 4,5 3
# The only place for stores is taken in cycle 3, but there is one for a load.
packets 1 3 5 2,3 1 3,4 3>1 3 5 2 1 3,4 3
# A number that needs no place for memory is left, so no cycle goes.
packets 1 3 5 2,3 1,2 3,4 0>same
# Cycle 8 is past the end; of an operation that may be inactive it stays.
packets 1,7,8 3,9 5 2 1 3,8 0,1>1,7 3 5 2 1 3,8 0,1
# What is inactive, or may be, takes no place.
packets 3 4,6 5 3 1 3 0,3>same
# Two stores in one cycle.
packets 1,2 3 5 3 1 4,5 0,1>failed
# The last variable loses what does not fit: a load beside a load and a store.
packets 3 3 5 4 2 3 0,1,2,3>3 3 5 4 2 3 0,1
# There are no needs for the number 3.
packets 3 4 5 6 1,2,3 1 0>3 4 5 6 1,2 1 0
# One cycle that is lost leaves one, which is then taken.
packets 3,4 3,4 5 3 1 4,5 2>3,4 4 5 3 1 5 2
# Two stores have room in cycles 2 and 3.
packets 5,6 2,3 5 2,3 1 6,7 2>same
# Three have not, though none is settled.
packets 5,6 2,3 5 2,3 1 2,3 2>failed
# What may be no store is not counted.
packets 5,6 2,3 5 2,3 1 2,3 1,2>same
# Two stores fill cycles 2 and 3, but none is settled there: no cycle of a third goes.
packets 5,6 2,3 5 2,3 1 1,2,3,6 2>same
# The third has room behind them.
packets 5,6 2,3 5 2,3,6 1 2,3 2>same
# A load and two stores leave one of the places for memory in cycles 2 and 3.
packets 2,4 2,3 5 2,3 1 2,3 3>same
# Sets of four times of three values, of which there is room for two in each cycle before 8. In cycle 2 all three are there.
each 1 4 2 6>failed
# In cycle 3 they would be; what is read in a cycle is not there in it.
each 1 4 2,3,4,5 6>1 4 4,5 6
each 1 4 4 6>same
# While two times are open nothing is taken, whatever is left.
each 1 4,5 2,3 6>same
# From cycle 8 on it counts none, so in cycle 7 alone these are too many.
each 7 20 7 30>failed
each 8 20 8 30>same
# The last time that is open keeps no cycle.
each 1 9 2,3 6>failed
# Rows of two ends, 4 and 2, or 2 and 5, of which the first costs 3 a cycle and the second 10, together less than 50. No row may be met.
joint 1,2,3 2,3,4>failed
# One may: the first, the second, either.
joint 1,4 2,3>same
joint 1,2,3 2,5>same
joint 1,2,3,4,5 1,2,3,4,5,6>same
# Both may be met at ends that are great, but cost too much; one less does not.
joint 5 5,6>failed
joint 4,5 5,6>same
# It takes no end away, for all that none of these is met by a row: but the last one that is open.
joint 1,2,3,4 1,2,3,4>same
joint 3 1,2,3,4,5>3 5
joint 4 1,2,5,6>4 2,5
# A call that thirteen values cross, where there is room for twelve, and one that twelve cross: whatever its cycle.
narrow 1,2,7>failed
wide 1,2,7>same";

/// Whether there are these variables among so many.
fn knows(vars: &[VarId], n: u32) -> bool
    ensures { result ≡ true → All (λ v. v.0 < n) vars.now }
{
    for v in vars {
        if v.0 >= n {
            return false;
        }
    }
    true
}

/// Over how many cycles a propagator counts.
fn span(p: &AnyProp) -> u32
    ensures { span_of p.now ≤ result }
{
    match p {
        AnyProp::PerCycle(p) => p.horizon,
        AnyProp::Length(p) => p.block.horizon,
        _ => 0,
    }
}

/// Whether a pruning answered and left what is wanted.
fn is_wanted(answer: Pruned, store: &Store, before: &[u8], want: &[u8]) -> bool {
    match answer {
        Pruned::Failed => want == b"failed".as_slice() && !is_live(store),
        Pruned::Same => want == b"same".as_slice() && has_sets(store, before),
        Pruned::Tighter => has_sets(store, want),
    }
}

/// Whether pruning a store with the sets of a row answers and leaves what is wanted.
fn prunes_store(
    alloc: Global,
    p: &AnyProp,
    store: &mut Store,
    sets: &[u8],
) -> Result<bool, NoMemory>
    requires { NoneEmpty store.old.sets }
{
    let (before, want) = cut(sets, b'>');
    if !knows(p.reads(), store.len()) {
        return Ok(false);
    }
    let mut scratch = Scratch::new(alloc, store.len(), span(p))?;
    let answer = p.prune(store, &mut scratch);
    Ok(is_wanted(answer, store, before, want))
}

/// What prunes as rows say.
trait Prunes {
    /// Whether pruning the store of the sets before `>` answers and leaves what is wanted.
    fn prunes(&self, alloc: Global, sets: &[u8]) -> Result<bool, NoMemory>;
}

impl Prunes for AnyProp {
    fn prunes(&self, alloc: Global, sets: &[u8]) -> Result<bool, NoMemory> {
        match store_of(alloc, cut(sets, b'>').0)? {
            None => Ok(false),
            Some(mut store) => prunes_store(alloc, self, &mut store, sets),
        }
    }
}

/// The same for what was made. The type is a parameter, so that its drop is one step here.
fn made_prunes<P: Prunes + Drop>(
    alloc: Global,
    made: Result<P, NoMemory>,
    sets: &[u8],
) -> Result<bool, NoMemory> {
    match made {
        Ok(p) => p.prunes(alloc, sets),
        Err(e) => Err(e),
    }
}

/// The same for a propagator of the kind of a row.
fn row_prunes(alloc: Global, row: &[u8]) -> Result<bool, NoMemory> {
    let (kind, sets) = cut(row, b' ');
    made_prunes(alloc, prop(alloc, kind), sets)
}

/// Whether each row but for comments is so.
fn all_prune(alloc: Global) -> Result<bool, NoMemory> {
    for row in lines(ROWS) {
        if !row.starts_with(b"#") && !row_prunes(alloc, row)? {
            return Ok(false);
        }
    }
    Ok(true)
}

#[test]
fn kinds_prune_as_was_worked_out(rt: HostRuntime) {
    let well = matches!(all_prune(rt.alloc()), Ok(true));
    assert!(rt; well);
}
