//! Runs at the limits of what the program takes: a tree of so many nodes, so many nodes for a search, functions of so many blocks,
//! operations and names, and the greatest frequency.

use crate::rows::{is_wanted, wrong_row};
use crate::runs::{put_numbers, put_run};
use std::alloc::Global;
use un_base::memory_error::NoMemory;
use un_ir::text::{put_number, put_text};

/// The smallest function, and a report of it up to its tree.
static HEAD: &[u8] = b"func f
block e freq 1
  ret
---
unison 1
function f
model regs all slots 64 nodes 32767
answer spent
tree 32767
";

/// Variables of the smallest function with a value on both sides of a number: the cycles of the first copies of saved values, and the
/// instruction of one of them.
static DECISIONS: [(u64, u64); 14] = [
    (14, 31),
    (17, 31),
    (20, 31),
    (23, 31),
    (26, 31),
    (29, 31),
    (32, 31),
    (35, 31),
    (38, 31),
    (41, 31),
    (44, 31),
    (47, 31),
    (50, 31),
    (13, 1),
];

/// The text of a branch with this text for both sides.
fn branch(alloc: Global, var: u64, val: u64, side: &[u8]) -> Result<Vec<u8>, NoMemory> {
    let mut out = Vec::new(alloc);
    put_text(&mut out, b"B ")?;
    put_number(&mut out, var)?;
    put_text(&mut out, b" ")?;
    put_number(&mut out, val)?;
    put_text(&mut out, b"\n")?;
    put_text(&mut out, side)?;
    put_text(&mut out, side)?;
    Ok(out)
}

/// The text of a tree whose leaves are open and stand below as many branches as there are decisions.
fn tree(alloc: Global) -> Result<Vec<u8>, NoMemory> {
    let mut text = Vec::new(alloc);
    put_text(&mut text, b"O\n")?;
    for (var, val) in &DECISIONS {
        text = branch(alloc, *var, *val, text.as_slice())?;
    }
    Ok(text)
}

/// Appends lines, which stand behind `/` each, of number `n`: `@` is the number, and `^` the next one.
fn put_lines(out: &mut Vec<u8>, lines: &[u8], n: u64) -> Result<(), NoMemory> {
    for b in lines {
        match *b {
            b'@' => put_number(out, n)?,
            b'^' => put_number(out, n.saturating_add(1))?,
            b'/' => put_text(out, b"\n")?,
            other => put_text(out, [other].as_slice())?,
        }
    }
    Ok(())
}

/// Appends lines of so many numbers, from 0 on.
fn put_many(out: &mut Vec<u8>, lines: &[u8], count: u64) -> Result<(), NoMemory> {
    for n in 0..count {
        put_lines(out, lines, n)?;
    }
    Ok(())
}

/// Whether a run over a text leaves what is wanted.
fn leaves(alloc: Global, text: &[u8], question: &[u8], wanted: &[u8]) -> Result<bool, NoMemory> {
    let mut found = Vec::new(alloc);
    put_run(alloc, &mut found, text, question)?;
    Ok(found.as_slice() == wanted)
}

/// Whether the report of a run by few nodes has these numbers, behind the status.
fn costs(alloc: Global, text: &[u8], wanted: &[u8]) -> Result<bool, NoMemory> {
    let mut found = Vec::new(alloc);
    put_numbers(alloc, &mut found, text, b"numbers alloc --nodes 1")?;
    Ok(is_wanted(found.as_slice(), wanted))
}

/// Whether a tree of 32,767 nodes is read and checked.
fn many_nodes(alloc: Global) -> Result<bool, NoMemory> {
    let tree = tree(alloc)?;
    let mut text = Vec::new(alloc);
    put_text(&mut text, HEAD)?;
    put_text(&mut text, tree.as_slice())?;
    put_text(&mut text, b"end\n")?;
    leaves(alloc, text.as_slice(), b"check", b"done>yes spent\n>")
}

/// Whether code of sixty-four blocks, each of which leads on to the next one, runs: a packet a block.
fn many_blocks(alloc: Global) -> Result<bool, NoMemory> {
    let mut text = Vec::new(alloc);
    put_text(&mut text, b"frame 0\n")?;
    put_many(&mut text, b"block b@/{ jump b^ }/", 63)?;
    put_text(
        &mut text,
        b"block b63\n{ jumpr r31 }\n---\nreg 31 100\nblocks 64\n",
    )?;
    leaves(
        alloc,
        text.as_slice(),
        b"run --code",
        b"done>returned 0 target 100\ncycles 64\n>",
    )
}

/// Whether four hundred operations on 120 names at the greatest frequency have code. With each name in a slot a constant takes two
/// packets, a sum six, what begins two and what ends six.
fn many_names(alloc: Global) -> Result<bool, NoMemory> {
    let mut text = Vec::new(alloc);
    put_text(&mut text, b"func f\nblock e freq 1000000\n")?;
    put_many(&mut text, b"%v@ = imm #@/", 120)?;
    put_many(&mut text, b"%v@ = add %v@, %v^/", 119)?;
    put_many(&mut text, b"%v@ = add %v@, %v^/", 119)?;
    put_many(&mut text, b"%v@ = add %v@, %v^/", 41)?;
    put_text(&mut text, b"%v119 = add %v119, %v0\nret %v119\n")?;
    costs(
        alloc,
        text.as_slice(),
        b"done cost 1928000000 bound 1000000..1928000000 frame 488",
    )
}

/// Whether five calls with six arguments in each of sixty-four blocks have code, which costs more than four thousand million. With each
/// name in a slot a call takes two packets an argument, one for itself and one for what it gives; what begins eight, and what ends six.
fn many_calls(alloc: Global) -> Result<bool, NoMemory> {
    let mut text = Vec::new(alloc);
    put_text(&mut text, b"func f %a %b %c %d %e %f\n")?;
    for block in 0..64 {
        put_lines(&mut text, b"block b@ freq 1000000/", block)?;
        put_many(&mut text, b"%s = call h %a, %b, %c, %d, %e, %f/", 5)?;
    }
    put_text(&mut text, b"ret %s\n")?;
    costs(
        alloc,
        text.as_slice(),
        b"done cost 4494000000 bound 1000000..4494000000 frame 32",
    )
}

/// Whether a function of sixty-four blocks, each of which leads on to the next one, has code of a packet a block.
fn many_source_blocks(alloc: Global) -> Result<bool, NoMemory> {
    let mut text = Vec::new(alloc);
    put_text(&mut text, b"func f\n")?;
    put_many(&mut text, b"block b@ freq 1000000/jump b^/", 63)?;
    put_text(&mut text, b"block b63 freq 1000000\nret\n")?;
    let mut found = Vec::new(alloc);
    put_numbers(alloc, &mut found, text.as_slice(), b"numbers alloc")?;
    Ok(is_wanted(
        found.as_slice(),
        b"done cost 64000000 bound 64000000 frame 0",
    ))
}

/// Small functions by two nodes, which leave each name in its slot as one does, and by as many as there can be.
static ROWS: &[u8] = b"func g %a %b
block e freq 10
  %c = add %a, %b
  ret %c
?numbers alloc --nodes 1:done cost 160 bound 10..160 frame 16\
|&?numbers alloc --nodes 2:done cost 160 bound 10..160 frame 16\
|func f
block e freq 1
  ret
?numbers alloc --nodes 200000:done cost 1 bound 1 frame 0";

#[test]
fn few_and_many_nodes_are_given(rt: HostRuntime) {
    let wrong = wrong_row(rt.alloc(), ROWS);
    assert!(rt; wrong.is_empty(), "{wrong}");
}

#[test]
fn a_tree_of_many_nodes_is_checked(rt: HostRuntime) {
    let well = matches!(many_nodes(rt.alloc()), Ok(true));
    assert!(rt; well);
}

#[test]
fn many_blocks_run_and_have_code(rt: HostRuntime) {
    let run = matches!(many_blocks(rt.alloc()), Ok(true));
    let coded = matches!(many_source_blocks(rt.alloc()), Ok(true));
    assert!(rt; run && coded);
}

#[test]
fn many_operations_have_code(rt: HostRuntime) {
    let names = matches!(many_names(rt.alloc()), Ok(true));
    let calls = matches!(many_calls(rt.alloc()), Ok(true));
    assert!(rt; names && calls);
}
