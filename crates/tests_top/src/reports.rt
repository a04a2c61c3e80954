//! `check` on altered reports.

use crate::rows::{cut, number, wrong_row};
use crate::runs::put_run;
use std::alloc::Global;
use un_base::memory_error::NoMemory;
use un_ir::text::put_text;

/// The smallest function and its report.
static ACCEPTED: &[u8] = b"func f
block e freq 1
  ret
---
unison 1
function f
model regs all slots 64 nodes 2000
answer code
cost 1
bound 1
listing 3
frame 0
block e
{ jumpr r31 }
solution 124
16 17 18 19 20 21 22 23 24 25 26 27 31 0 0 0
0 0 0 0 0 0 0 0 0 0 0 0 0 0 0 0
0 0 0 0 0 0 0 0 0 0 0 0 0 0 0 0
0 0 0 0 0 0 0 0 0 0 0 0 1 0 0 0
0 0 0 0 0 0 0 0 0 0 0 0 0 0 0 0
0 0 0 0 0 0 0 0 0 0 0 0 0 0 0 0
0 0 0 0 0 0 0 0 0 0 0 0 0 0 0 0
0 0 0 0 0 0 0 0 0 0 2 0
tree 1
C
end";

/// The lines of that input that are changed, each its number and what stands there, `/` before a further line, or `-` where the input ends
/// before it; then what a run leaves: the status, and what `out` and `err` hold, behind `>` each. Behind `?check` the text is the whole
/// input.
static CHECKS: &[u8] = b"# As it is, and with one thing changed after another.\
|?=check:done>yes code cost 1 bound 1\n>\
|6 function g?=check:no>no name\n>\
|19 0 0 0 0 0 0 0 0 0 0 0 0 2 0 0 0?=check:no>no solution 5\n>\
|9 cost 2?=check:no>no cost\n>\
|11 listing 4\n14 { nop }/{ jumpr r31 }?=check:no>no listing\n>\
|24 tree 3\n25 B 0 16/C/C?=check:no>no strict 0\n>\
|25 O?=check:no>no alive 0\n>\
|24 tree 2\n25 C/C?=check:no>no short\n>\
|# Code that is later by a packet: its tree shows nothing.\
|19 0 0 0 0 0 0 0 0 0 0 0 0 2 0 0 0\n23 0 0 0 0 0 0 0 0 0 0 3 0\n11 listing 4\n14 { nop }/{ jumpr r31 }\n9 cost 2\n10 bound 2?=check:no>no closed 0\n>\
|# Another bound.\
|10 bound 2?=check:no>no bound\n>\
|10 bound 0?=check:no>no bound\n>\
|# Reports that are cut, or go on.\
|26?=check:bad 22>>bad report: line 22\n\
|26 end/end?=check:bad 23>>bad report: line 23\n\
|func f\nblock e freq 1\n  ret\n?check:bad 1>>bad report: line 1\n\
|# The function is looked at first.\
|3 go\n26?=check:fault 3 2>>line 3: 2 BadLine\n\
|?check x:usage 1>>usage: word 1\n\
|# Reports without code.\
|func f\nblock e freq 1\n  ret\n---\nunison 1\nfunction f\nmodel regs 5 slots 64 nodes 1\nanswer spent\ntree 1\nO\nend\n?check:done>yes spent\n>\
|func f\nblock e freq 1\n  ret\n---\nunison 1\nfunction f\nmodel regs 5 slots 64 nodes 3\nanswer spent\ntree 1\nO\nend\n?check:no>no spent\n>\
|# A Split where the flag is single, whose one part has nothing at all; and one where the flag is not single.\
|func two\nblock e freq 1\n  %a = imm #1\n  %b = imm #2\n  %c = add %a, %b\n  ret %c\n---\nunison 2\nfunction two\nmodel regs 1 slots 64 nodes 2000\nanswer infeasible\ntree 5\nB 153 0\nS\nP -\nC\nC\nend\n?check:done>yes infeasible\n>\
|func two\nblock e freq 1\n  %a = imm #1\n  %b = imm #2\n  %c = add %a, %b\n  ret %c\n---\nunison 2\nfunction two\nmodel regs 1 slots 64 nodes 2000\nanswer infeasible\ntree 3\nS\nP -\nC\nend\n?check:no>no split 0\n>\
|# Numbers come to no limit where there is none; a part is not left out, nor begun by another line, nor left open.\
|func two\nblock e freq 1\n  %a = imm #1\n  %b = imm #2\n  %c = add %a, %b\n  ret %c\n---\nunison 2\nfunction two\nmodel regs 1 slots 64 nodes 2000\nanswer infeasible\ntree 5\nB 153 0\nS\nP 9\nC\nC\nend\n?check:no>no split 1\n>\
|func two\nblock e freq 1\n  %a = imm #1\n  %b = imm #2\n  %c = add %a, %b\n  ret %c\n---\nunison 2\nfunction two\nmodel regs 1 slots 64 nodes 2000\nanswer infeasible\ntree 4\nB 153 0\nS\nC\nC\nend\n?check:no>no split 2\n>\
|func two\nblock e freq 1\n  %a = imm #1\n  %b = imm #2\n  %c = add %a, %b\n  ret %c\n---\nunison 2\nfunction two\nmodel regs 1 slots 64 nodes 2000\nanswer infeasible\ntree 5\nB 153 0\nS\nP -\nO\nC\nend\n?check:no>no split 3\n>\
|func two\nblock e freq 1\n  %a = imm #1\n  %b = imm #2\n  %c = add %a, %b\n  ret %c\n---\nunison 2\nfunction two\nmodel regs 1 slots 64 nodes 2000\nanswer infeasible\ntree 2\nP -\nC\nend\n?check:no>no split 0\n>\
|# A part does not branch on the flag.\
|func two\nblock e freq 1\n  %a = imm #1\n  %b = imm #2\n  %c = add %a, %b\n  ret %c\n---\nunison 2\nfunction two\nmodel regs 1 slots 64 nodes 2000\nanswer infeasible\ntree 7\nB 153 0\nS\nP -\nB 153 0\nC\nC\nC\nend\n?check:no>no strict 3\n>\
|# Version 1 has no Splits.\
|func two\nblock e freq 1\n  %a = imm #1\n  %b = imm #2\n  %c = add %a, %b\n  ret %c\n---\nunison 1\nfunction two\nmodel regs 1 slots 64 nodes 2000\nanswer infeasible\ntree 3\nS\nP -\nC\nend\n?check:bad 6>>bad report: line 6\n";

/// Appends a line so often as stands behind `^`, and once where nothing does.
fn put_often(out: &mut Vec<u8>, text: &[u8]) -> Result<(), NoMemory> {
    let (line, count) = cut(text, b'^');
    let count = if count.is_empty() { 1 } else { number(count) };
    for _ in 0..count.min(300_000) {
        put_text(out, line)?;
        put_text(out, b"\n")?;
    }
    Ok(())
}

/// Appends lines, which stand behind `/`.
fn put_lines(out: &mut Vec<u8>, text: &[u8]) -> Result<(), NoMemory> {
    for line in text.split(|b| *b == b'/') {
        if !line.is_empty() {
            put_often(out, line)?;
        }
    }
    Ok(())
}

/// Appends the line of this number, as it is changed.
fn put_line(out: &mut Vec<u8>, line: &[u8], place: u64, changes: &[u8]) -> Result<(), NoMemory> {
    for change in changes.split(|b| *b == b'\n') {
        let (changed, text) = cut(change, b' ');
        let changed = number(changed);
        if changed <= place && text == b"-".as_slice() {
            return Ok(());
        }
        if changed == place {
            return put_lines(out, text);
        }
    }
    put_text(out, line)?;
    put_text(out, b"\n")
}

/// Appends what a run by these words over an input leaves, where lines of it are changed.
pub(crate) fn put_changed(
    alloc: Global,
    found: &mut Vec<u8>,
    given: &[u8],
    changes: &[u8],
    words: &[u8],
) -> Result<(), NoMemory> {
    let mut input = Vec::new(alloc);
    let mut place: u64 = 1;
    for line in given.split(|b| *b == b'\n') {
        put_line(&mut input, line, place, changes)?;
        place = place.saturating_add(1);
    }
    put_run(alloc, found, input.as_slice(), words)
}

/// Appends what the run of a question over the changed input leaves.
pub(crate) fn put_altered(
    alloc: Global,
    found: &mut Vec<u8>,
    changes: &[u8],
    question: &[u8],
) -> Result<(), NoMemory> {
    put_changed(alloc, found, ACCEPTED, changes, cut(question, b'=').1)
}

#[test]
fn reports_are_judged(rt: HostRuntime) {
    let wrong = wrong_row(rt.alloc(), CHECKS);
    assert!(rt; wrong.is_empty(), "{wrong}");
}
