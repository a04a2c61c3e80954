//! Outsides that fail, reports that are cut short, and a deep tree: what a run leaves there.

use crate::rows::wrong_row;
use crate::runs::put_run;
use std::alloc::Global;
use un_base::memory_error::NoMemory;
use un_ir::text::{put_number, put_text};

/// Texts with what is asked of them, as for runs and for altered reports; behind `?deep` the text is the second line of the deep tree.
static ROWS: &[u8] =
    b"# Each byte is a call of the source, and one more finds the end: each of them may fail, and behind them none is made.\
|func f\nblock e freq 1\nret?alloc;1 65536 0:read fault>>read fault\n\
|&?alloc;1 65536 1:read fault>>read fault\n\
|&?alloc;1 65536 2:read fault>>read fault\n\
|&?alloc;1 65536 3:read fault>>read fault\n\
|&?alloc;1 65536 4:read fault>>read fault\n\
|&?alloc;1 65536 5:read fault>>read fault\n\
|&?alloc;1 65536 6:read fault>>read fault\n\
|&?alloc;1 65536 7:read fault>>read fault\n\
|&?alloc;1 65536 8:read fault>>read fault\n\
|&?alloc;1 65536 9:read fault>>read fault\n\
|&?alloc;1 65536 10:read fault>>read fault\n\
|&?alloc;1 65536 11:read fault>>read fault\n\
|&?alloc;1 65536 12:read fault>>read fault\n\
|&?alloc;1 65536 13:read fault>>read fault\n\
|&?alloc;1 65536 14:read fault>>read fault\n\
|&?alloc;1 65536 15:read fault>>read fault\n\
|&?alloc;1 65536 16:read fault>>read fault\n\
|&?alloc;1 65536 17:read fault>>read fault\n\
|&?alloc;1 65536 18:read fault>>read fault\n\
|&?alloc;1 65536 19:read fault>>read fault\n\
|&?alloc;1 65536 20:read fault>>read fault\n\
|&?alloc;1 65536 21:read fault>>read fault\n\
|&?alloc;1 65536 22:read fault>>read fault\n\
|&?alloc;1 65536 23:read fault>>read fault\n\
|&?alloc;1 65536 24:read fault>>read fault\n\
|&?alloc;1 65536 25:read fault>>read fault\n\
|&?alloc;1 65536 26:done>unison 3\nfunction f\n...\
|# An `err` that fails at its first call changes no status.\
|&?alloc;4096 65536 - - 0:done>unison 3\nfunction f\n...\
|&?alloc --regs 5 --nodes 1;4096 65536 - - 0:spent>unison 3\nfunction f\n...\
|&?alloc x;4096 65536 - - 0:usage 1>>\
|&?alloc;1 65536 25 - 0:read fault>>\
|&?alloc;64 65536 - 0 0:write fault>>\
|&?run;4096 65536 - - 0:bad 1>>\
|9 cost 2?=check;4096 65536 - - 0:no>no cost\n>\
|5 -?=check;4096 65536 - - 0:bad 1>>\
|func two\nblock e freq 1\n  %a = imm #1\n  %b = imm #2\n  %c = add %a, %b\n  ret %c\n?alloc --regs 1;4096 65536 - - 0:infeasible>unison 3\nfunction two\n...\
|func f\n?alloc;4096 65536 - - 0:fault 2 6>>\
|# A report that is cut behind each of its lines.\
|5 -?=check:bad 1>>bad report: line 1\n\
|6 -?=check:bad 2>>bad report: line 2\n\
|7 -?=check:bad 3>>bad report: line 3\n\
|8 -?=check:bad 4>>bad report: line 4\n\
|9 -?=check:bad 5>>bad report: line 5\n\
|10 -?=check:bad 6>>bad report: line 6\n\
|11 -?=check:bad 7>>bad report: line 7\n\
|12 -?=check:bad 8>>bad report: line 8\n\
|13 -?=check:bad 9>>bad report: line 9\n\
|14 -?=check:bad 10>>bad report: line 10\n\
|15 -?=check:bad 11>>bad report: line 11\n\
|16 -?=check:bad 12>>bad report: line 12\n\
|17 -?=check:bad 13>>bad report: line 13\n\
|18 -?=check:bad 14>>bad report: line 14\n\
|19 -?=check:bad 15>>bad report: line 15\n\
|20 -?=check:bad 16>>bad report: line 16\n\
|21 -?=check:bad 17>>bad report: line 17\n\
|22 -?=check:bad 18>>bad report: line 18\n\
|23 -?=check:bad 19>>bad report: line 19\n\
|24 -?=check:bad 20>>bad report: line 20\n\
|25 -?=check:bad 21>>bad report: line 21\n\
|26 -?=check:bad 22>>bad report: line 22\n\
|# A tree of a path of 819 branches, and with its second line changed.\
|B 14 61?deep:done>yes spent\n>\
|B 14 62?deep:no>no strict 1\n>";

/// The smallest function, and a report of it up to its tree.
static HEAD: &[u8] = b"func f
block e freq 1
  ret
---
unison 1
function f
model regs all slots 64 nodes 1639
answer spent
tree 1639
";

/// The cycle of the first copy of each saved value.
static CYCLES: [u64; 13] = [14, 17, 20, 23, 26, 29, 32, 35, 38, 41, 44, 47, 50];

/// How many nodes are open leaves.
const LEAVES: u32 = 820;

/// Appends a branch.
fn put_branch(out: &mut Vec<u8>, var: u64, val: u64) -> Result<(), NoMemory> {
    put_text(out, b"B ")?;
    put_number(out, var)?;
    put_text(out, b" ")?;
    put_number(out, val)?;
    put_text(out, b"\n")
}

/// Appends branches on a cycle, from the last but one on; `second` stands in place of the second one.
fn put_cycle(out: &mut Vec<u8>, var: u64, second: &[u8]) -> Result<(), NoMemory> {
    for step in 0..63u64 {
        if step == 1 && !second.is_empty() {
            put_text(out, second)?;
            put_text(out, b"\n")?;
        } else {
            put_branch(out, var, 62 - step)?;
        }
    }
    Ok(())
}

/// Appends the open leaves.
fn put_leaves(out: &mut Vec<u8>) -> Result<(), NoMemory> {
    for _ in 0..LEAVES {
        put_text(out, b"O\n")?;
    }
    Ok(())
}

/// Appends the deep tree, whose second line is this one.
fn put_tree(out: &mut Vec<u8>, second: &[u8]) -> Result<(), NoMemory> {
    let mut changed = second;
    for var in &CYCLES {
        put_cycle(out, *var, changed)?;
        changed = &[];
    }
    put_leaves(out)
}

/// Appends what the check of the deep tree leaves.
pub(crate) fn put_deep(alloc: Global, found: &mut Vec<u8>, second: &[u8]) -> Result<(), NoMemory> {
    let mut input = Vec::new(alloc);
    put_text(&mut input, HEAD)?;
    put_tree(&mut input, second)?;
    put_text(&mut input, b"end\n")?;
    put_run(alloc, found, input.as_slice(), b"check")
}

#[test]
fn hostile_outsides_and_texts(rt: HostRuntime) {
    let wrong = wrong_row(rt.alloc(), ROWS);
    assert!(rt; wrong.is_empty(), "{wrong}");
}
