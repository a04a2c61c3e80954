//! Trees as text: which texts are read, at which line others are refused, and that what is read is printed as it stood.

use crate::words::{cut, number_at};
use std::alloc::Global;
use un_base::lines::lines;
use un_base::memory_error::NoMemory;
use un_ir::text::put_text;
use un_tree::print::print_tree;
use un_tree::read::{Step, TreeError, first_node, read_tree};

/// A text, with `/` for each line feed, and how many nodes it has or which line is bad.
static ROWS: &[u8] = b"# whole trees, trees that end inside, and trees with nodes past their end
O/>nodes 1
C/>nodes 1
B 123 1/O/O/>nodes 3
B 122 2/O/C/>nodes 3
B 60 1/O/>nodes 2
B 60 7/B 23 1/O/B 99 4/O/O/C/>nodes 7
B 60 7/B 23 1/O/B 99 4/O/C/O/C/>nodes 8
B 122 5/B 45 0/O/O/C/>nodes 5
C/O/>nodes 2
B 4294967295 4294967295/O/O/>nodes 3
# Splits and parts, also where they cannot stand
S/P -/C/>nodes 3
B 60 7/S/P 3/C/P -/B 61 2/C/C/O/>nodes 9
P -/>nodes 1
O/P 3/>nodes 2
O/S/C/>nodes 3
P 0/P 18446744073709551615/>nodes 2
# no node
>nodes 0
# lines that are spelled otherwise
B 0 1/O/B 00 1/>bad 3
S />bad 1
s/>bad 1
P/>bad 1
P />bad 1
P-/>bad 1
P - />bad 1
P --/>bad 1
P  1/>bad 1
P 1 />bad 1
P 01/>bad 1
P +1/>bad 1
P -1/>bad 1
P 1 2/>bad 1
P 18446744073709551616/>bad 1
B 60 7/S/P 3/C/p -/C/O/>bad 5
B 4294967296 0/O/O/>bad 1
B 0 4294967296/O/O/>bad 1
B 1/>bad 1
B 1 2 3/>bad 1
B 1 2 /O/O/>bad 1
B  1 2/O/O/>bad 1
 O/>bad 1
O /C/>bad 1
o/>bad 1
B -1 0/>bad 1
B 1 +2/>bad 1
B /C/>bad 1
# an empty line, and a last line without its line feed
O//C/>bad 2
O>bad 1
B 1 2/O/O>bad 3";

/// The text of a row.
fn text_of(alloc: Global, row: &[u8]) -> Result<Vec<u8>, NoMemory> {
    let mut text = Vec::new(alloc);
    for b in row {
        let byte = if *b == b'/' { b'\n' } else { *b };
        put_text(&mut text, [byte].as_slice())?;
    }
    Ok(text)
}

/// How many nodes the lines of a text have before one that is no node's, and whether there is none such.
fn walked(text: &[u8]) -> (u32, bool) {
    let mut left = text;
    let mut count: u32 = 0;
    for _ in text {
        match first_node(left) {
            Step::End => return (count, true),
            Step::Bad => return (count, false),
            Step::Node { rest, .. } => {
                left = rest;
                count = count.saturating_add(1);
            }
        }
    }
    (count, left.is_empty())
}

/// Whether a text is read as its row says, and what is read is printed as the text.
fn is_read(alloc: Global, text: &[u8], word: &[u8], n: u32) -> Result<bool, NoMemory> {
    let (count, whole) = walked(text);
    match read_tree(alloc, text) {
        Ok(tree) => {
            let alike = word == b"nodes".as_slice() && whole && count == n;
            let printed = print_tree(alloc, &tree)?;
            Ok(alike && tree.nodes.len() == n as usize && printed.as_slice() == text)
        }
        Err(TreeError::BadNode { line }) => {
            let alike = word == b"bad".as_slice() && !whole;
            Ok(alike && line == n && count.saturating_add(1) == n)
        }
        Err(TreeError::NoMemory) => Err(NoMemory),
    }
}

/// Whether a row is so.
fn is_row(alloc: Global, row: &[u8]) -> Result<bool, NoMemory> {
    let (spelled, answer) = cut(row, b'>');
    let text = text_of(alloc, spelled)?;
    is_read(
        alloc,
        text.as_slice(),
        cut(answer, b' ').0,
        number_at(answer, 1),
    )
}

/// Whether each row but for comments is so.
fn all_read(alloc: Global) -> Result<bool, NoMemory> {
    for row in lines(ROWS) {
        if !row.starts_with(b"#") && !is_row(alloc, row)? {
            return Ok(false);
        }
    }
    Ok(true)
}

#[test]
fn trees_are_read_and_printed_as_was_worked_out(rt: HostRuntime) {
    let well = matches!(all_read(rt.alloc()), Ok(true));
    assert!(rt; well);
}
