//! The check of trees of small functions, and of their lines, under a limit on the cost, or under none: values from outside, made from the
//! rules of trees alone.

use crate::rows::{cut, number_at, wrong_row};
use crate::searches::{model_under, options};
use std::alloc::Global;
use un_base::memory_error::NoMemory;
use un_check::lines::count_lines;
use un_check::tree::{check_lines, check_tree};
use un_check::verdict::TreeVerdict;
use un_ir::text::{put_number, put_text};
use un_tree::read::read_tree;

/// Functions, each with a tree behind `^`, and the verdict under the limit that is asked for: the least cost in the boxes of the open leaves
/// and how many these are, or the first node that breaks a point, and which. `lines` asks it of the lines of the tree.
static VERDICTS: &[u8] =
    b"# The trees of reports on the smallest function, which costs 1: its own, and others.\
|func f\nblock e freq 1\n  ret\n^C\n?verdict 1:yes none open 0\
|&?lines 1:yes none open 0\
|func f\nblock e freq 1\n  ret\n^B 0 16\nC\nC\n?verdict 1:strict 0\
|&?lines 1:strict 0\
|func f\nblock e freq 1\n  ret\n^O\n?verdict 1:alive 0\
|&?lines 1:alive 0\
|func f\nblock e freq 1\n  ret\n^C\nC\n?verdict 1:short\
|&?lines 1:short\
|func f\nblock e freq 1\n  ret\n^?verdict 1:short\
|&?lines 1:short\
|# The smallest function has a solution that costs less than 2, so rounds do not close the root.\
|func f\nblock e freq 1\n  ret\n^C\n?verdict 2:closed 0\
|&?lines 2:closed 0\
|# Other trees, of which no closed leaf has a relaxation below the limit.\
|func f\nblock e freq 1\n  ret\n^O\n?verdict 8:yes 1 open 1\
|func f\nblock e freq 1\n  ret\n^B 123 1\nO\nO\n?verdict:strict 0\
|func f\nblock e freq 1\n  ret\n^B 122 1\nO\nO\n?verdict:alive 1\
|func f\nblock e freq 1\n  ret\n^B 60 1\nO\n?verdict 8:short\
|func f\nblock e freq 1\n  ret\n^B 60 7\nB 23 1\nO\nB 99 4\nO\nO\nC\n?verdict 8:yes 1 open 3\
|func f\nblock e freq 1\n  ret\n^B 122 5\nO\nO\nC\n?verdict 5:alive 2\
|func f\nblock e freq 1\n  ret\n^B 60 22\nB 32 2\nO\nO\nC\n?verdict 5:yes 1 open 2\
|func f\nblock e freq 1\n  ret\n^B 60 8\nB 117 0\nB 25 1\nO\nB 60 5\nO\nO\nB 25 1\nO\nB 117 1\nO\nO\nC\n?verdict 8:yes 1 open 6\
|func f\nblock e freq 1\n  ret\n^B 60 8\nB 117 0\nB 25 1\nO\nB 60 5\nO\nO\nB 25 1\nO\nO\nO\nC\n?verdict 8:alive 10\
|func g %a %b\nblock e freq 10\n  %c = add %a, %b\n  ret %c\n^O\n?verdict 10:alive 0\
|func g %a %b\nblock e freq 10\n  %c = add %a, %b\n  ret %c\n^C\n?verdict 10:yes none open 0\
|func g %a %b\nblock e freq 10\n  %c = add %a, %b\n  ret %c\n^C\nO\n?verdict 10:short\
|func g %a %b\nblock e freq 10\n  %c = add %a, %b\n  ret %c\n^B 0 0\nO\nO\n?verdict 17:strict 0\
|func g %a %b\nblock e freq 10\n  %c = add %a, %b\n  ret %c\n^B 150 2\nO\nB 70 1\nO\nO\n?verdict 11:alive 2\
|func g %a %b\nblock e freq 10\n  %c = add %a, %b\n  ret %c\n^B 70 2\nB 151 0\nO\nO\nO\nC\n?verdict 10:alive 0\
|func g %a %b\nblock e freq 10\n  %c = add %a, %b\n  ret %c\n^B 83 1\nO\nB 112 4\nB 150 4\nO\nO\nO\n?verdict:yes 10 open 4\
|func g %a %b\nblock e freq 10\n  %c = add %a, %b\n  ret %c\n^B 20 90\nB 20 2\nO\nO\nB 20 92\nO\nO\nO\n?verdict:short\
|func g %a %b\nblock e freq 10\n  %c = add %a, %b\n  ret %c\n^B 100 2\nO\nO\n?verdict 11:yes 10 open 2";

/// Appends a word and a number.
fn put_part(out: &mut Vec<u8>, word: &[u8], n: u64) -> Result<(), NoMemory> {
    put_text(out, word)?;
    put_number(out, n)
}

/// Appends the verdict on a whole tree that keeps all points.
fn put_yes(out: &mut Vec<u8>, least: Option<u64>, open_leaves: u32) -> Result<(), NoMemory> {
    match least {
        None => put_text(out, b"yes none")?,
        Some(least) => put_part(out, b"yes ", least)?,
    }
    put_part(out, b" open ", u64::from(open_leaves))
}

/// Appends a verdict.
fn put_told(out: &mut Vec<u8>, verdict: TreeVerdict) -> Result<(), NoMemory> {
    match verdict {
        TreeVerdict::Yes { least, open_leaves } => put_yes(out, least, open_leaves),
        TreeVerdict::NotStrict(place) => put_part(out, b"strict ", u64::from(place)),
        TreeVerdict::NotSplit(place) => put_part(out, b"split ", u64::from(place)),
        TreeVerdict::NotAlive(place) => put_part(out, b"alive ", u64::from(place)),
        TreeVerdict::NotClosed(place) => put_part(out, b"closed ", u64::from(place)),
        TreeVerdict::Short => put_text(out, b"short"),
    }
}

/// The limit of a question, where it has one.
fn limit(question: &[u8]) -> Option<u64> {
    match number_at(question, 1) {
        u64::MAX => None,
        n => Some(n),
    }
}

/// Appends the verdict on the tree of a row.
pub(crate) fn put_verdict(
    alloc: Global,
    out: &mut Vec<u8>,
    text: &[u8],
    question: &[u8],
) -> Result<(), NoMemory> {
    let (function, lines) = cut(text, b'^');
    let m = model_under(alloc, function, &options(b""))?;
    let Ok(tree) = read_tree(alloc, lines) else {
        return Err(NoMemory);
    };
    let verdict = check_tree(alloc, &m, limit(question), &tree)?;
    put_told(out, verdict)
}

/// Appends the verdict on the lines of the tree of a row.
pub(crate) fn put_verdict_by_lines(
    alloc: Global,
    out: &mut Vec<u8>,
    text: &[u8],
    question: &[u8],
) -> Result<(), NoMemory> {
    let (function, lines) = cut(text, b'^');
    let m = model_under(alloc, function, &options(b""))?;
    let Some(_) = count_lines(lines) else {
        return Err(NoMemory);
    };
    let verdict = check_lines(alloc, &m, limit(question), lines)?;
    put_told(out, verdict)
}

#[test]
fn trees_are_judged(rt: HostRuntime) {
    let wrong = wrong_row(rt.alloc(), VERDICTS);
    assert!(rt; wrong.is_empty(), "{wrong}");
}
