//! Texts of refutations: read back and printed again, and their first bad lines; and those of trees that were cut off.

use crate::rows::{About, all_answered};
use std::alloc::Global;
use un_base::memory_error::NoMemory;
use un_base::name::Name;
use un_ir::text::{put_number, put_text};
use un_model::model::Options;
use un_refutation::print::{print_cut, print_refutation};
use un_refutation::read::read_refutation;
use un_report_reader::error::ReportError;
use un_tree::read::read_tree;

/// Texts, each with its first bad line, or that it is printed again as it stands; and the lines of a tree, with the text of a search for a
/// refutation of f below 7, with registers r0 to r2 and two slots, that was cut off there.
static ROWS: &[u8] = b"# Whole texts.\
|refuted 1\nfunction f\nmodel regs all slots 256\nnodes 5\nB 15 36\nC\nB 15 37\nM 36 37 0\nC\nend\n?same:yes\
|refuted 18446744073709551615\nfunction f\nmodel regs 29 slots 0\nnodes 1\nC\nend\n?same:yes\
|refuted 0\nfunction long.name_1\nmodel regs 1 slots 1\nnodes 1\nM 4294967295 0 4294967295\nend\n?same:yes\
|# The line of the limit.\
|?same:bad 1\
|refuted\nfunction f\nmodel regs all slots 256\nnodes 1\nC\nend\n?same:bad 1\
|refuted 01\nfunction f\nmodel regs all slots 256\nnodes 1\nC\nend\n?same:bad 1\
|refuted 18446744073709551616\nfunction f\nmodel regs all slots 256\nnodes 1\nC\nend\n?same:bad 1\
|cut 1\nfunction f\nmodel regs all slots 256\nnodes 1\nC\nend\n?same:bad 1\
|# Those of the name, the options and the number of nodes.\
|refuted 1\n?same:bad 2\
|refuted 1\nfunction 1f\nmodel regs all slots 256\nnodes 1\nC\nend\n?same:bad 2\
|refuted 1\nfunction f\nmodel regs 0 slots 256\nnodes 1\nC\nend\n?same:bad 3\
|refuted 1\nfunction f\nmodel regs 30 slots 256\nnodes 1\nC\nend\n?same:bad 3\
|refuted 1\nfunction f\nmodel regs all slots 257\nnodes 1\nC\nend\n?same:bad 3\
|refuted 1\nfunction f\nmodel regs all slots 256 nodes 1\nC\nend\n?same:bad 3\
|refuted 1\nfunction f\nmodel regs all slots 256\nnodes 0\nend\n?same:bad 4\
|refuted 1\nfunction f\nmodel regs all slots 256\nnodes 200001\nC\nend\n?same:bad 4\
|# Those of the tree, and its end.\
|refuted 1\nfunction f\nmodel regs all slots 256\nnodes 200000\nC\nend\n?same:bad 6\
|refuted 1\nfunction f\nmodel regs all slots 256\nnodes 1\nC\nC\nend\n?same:bad 6\
|refuted 1\nfunction f\nmodel regs all slots 256\nnodes 1\nO\nend\n?same:bad 5\
|refuted 1\nfunction f\nmodel regs all slots 256\nnodes 1\nC\r\nend\n?same:bad 5\
|refuted 1\nfunction f\nmodel regs all slots 256\nnodes 1\nB 15\nend\n?same:bad 5\
|refuted 1\nfunction f\nmodel regs all slots 256\nnodes 1\nB 15 4294967296\nend\n?same:bad 5\
|refuted 1\nfunction f\nmodel regs all slots 256\nnodes 1\nM 36 37\nend\n?same:bad 5\
|refuted 1\nfunction f\nmodel regs all slots 256\nnodes 1\nM 36 37 0 1\nend\n?same:bad 5\
|refuted 1\nfunction f\nmodel regs all slots 256\nnodes 1\nM 36  37 0\nend\n?same:bad 5\
|refuted 1\nfunction f\nmodel regs all slots 256\nnodes 1\nC\nend?same:bad 6\
|refuted 1\nfunction f\nmodel regs all slots 256\nnodes 1\nC\nend\n\n?same:bad 7\
|# Trees that were cut off.\
|B 15 36\nC\nO\n?cut:cut 7\nfunction f\nmodel regs 3 slots 2\nnodes 3\nB 15 36\nC\nO\nend\n";

/// Appends whether the refutation of a text is printed as that text, or the first bad line.
fn put_again(alloc: Global, out: &mut Vec<u8>, text: &[u8]) -> Result<(), NoMemory> {
    match read_refutation(alloc, text) {
        Ok(r) => {
            let printed = print_refutation(alloc, r.limit, r.name, r.options, &r.tree)?;
            let word: &[u8] = if printed.as_slice() == text {
                b"yes"
            } else {
                b"no"
            };
            put_text(out, word)
        }
        Err(ReportError::NoMemory) => Err(NoMemory),
        Err(ReportError::BadReport { line }) => {
            put_text(out, b"bad ")?;
            put_number(out, u64::from(line))
        }
    }
}

/// Appends the text of a search that was cut off at a tree with these lines.
fn put_cut(alloc: Global, out: &mut Vec<u8>, lines: &[u8]) -> Result<(), NoMemory> {
    let options = Options {
        regs: Some(3),
        slots: 2,
    };
    match (Name::from_bytes(b"f"), read_tree(alloc, lines)) {
        (Some(name), Ok(tree)) => {
            let text = print_cut(alloc, 7, name, options, &tree)?;
            put_text(out, text.as_slice())
        }
        _ => Err(NoMemory),
    }
}

/// Appends the answer to a question about a text of a refutation.
pub(crate) fn put_of_refutation(
    alloc: Global,
    out: &mut Vec<u8>,
    text: &[u8],
    question: &[u8],
) -> Result<(), NoMemory> {
    match question.first() {
        Some(b'c') => put_cut(alloc, out, text),
        _ => put_again(alloc, out, text),
    }
}

#[test]
fn answers_of_refutations(rt: HostRuntime) {
    assert!(rt; matches!(all_answered(rt.alloc(), About::Refutations, ROWS), Ok(true)));
}
