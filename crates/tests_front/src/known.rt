//! What is known of a function, as texts.

use crate::rows::{cut, number_at};
use crate::starts::start;
use std::alloc::Global;
use un_base::memory_error::NoMemory;
use un_extend::extend::extend;
use un_ir::extended::{Ext, Lssa};
use un_ir::function::Function;
use un_ir::text::put_text;
use un_isa::start::Start;
use un_isa::table::hexagon;
use un_live::live::live_in;
use un_lssa::linearize::linearize;
use un_outcome::print::print_outcome;
use un_parts::extended::{extended_text, linear_text};
use un_parts::live::live_text;
use un_reader::read::read_function;
use un_source::run::run_source;

/// The names live at the start of each block.
fn names(alloc: Global, f: &Function) -> Result<Vec<u8>, NoMemory> {
    let live = live_in(alloc, f)?;
    live_text(alloc, f, &live)
}

/// The linear function.
fn linear_of(alloc: Global, f: &Function) -> Result<Lssa, NoMemory> {
    let live = live_in(alloc, f)?;
    linearize(alloc, f, &live, &hexagon())
}

/// The linear function as text.
fn linear(alloc: Global, f: &Function) -> Result<Vec<u8>, NoMemory> {
    let linear = linear_of(alloc, f)?;
    linear_text(alloc, &linear)
}

/// The extended function.
fn extended_of(alloc: Global, f: &Function) -> Result<Ext, NoMemory> {
    let linear = linear_of(alloc, f)?;
    extend(alloc, &linear)
}

/// The extended function as text.
fn extended(alloc: Global, f: &Function) -> Result<Vec<u8>, NoMemory> {
    let e = extended_of(alloc, f)?;
    extended_text(alloc, &e)
}

/// What a run of at most so many blocks comes to.
fn run_from(alloc: Global, f: &Function, start: &Start, blocks: u32) -> Result<Vec<u8>, NoMemory> {
    let outcome = run_source(alloc, f, start, blocks)?;
    print_outcome(alloc, f.names.as_slice(), &outcome)
}

/// What the run of a question comes to.
fn run(alloc: Global, f: &Function, question: &[u8]) -> Result<Vec<u8>, NoMemory> {
    let (blocks, given) = cut(question, b';');
    let start = start(alloc, given)?;
    run_from(alloc, f, &start, number_at(blocks, 1))
}

/// The answer to a question about a function.
fn known(alloc: Global, f: &Function, question: &[u8]) -> Result<Vec<u8>, NoMemory> {
    match question.first() {
        Some(b'n') => names(alloc, f),
        Some(b'l') => linear(alloc, f),
        Some(b'e') => extended(alloc, f),
        _ => run(alloc, f, question),
    }
}

/// The same of the function of a text; an error where it is none.
fn known_of(alloc: Global, text: &[u8], question: &[u8]) -> Result<Vec<u8>, NoMemory> {
    match read_function(alloc, text) {
        Ok(f) => known(alloc, &f, question),
        Err(_) => Err(NoMemory),
    }
}

/// Appends the answer to a question about the function of a text.
pub(crate) fn put_of_function(
    alloc: Global,
    out: &mut Vec<u8>,
    text: &[u8],
    question: &[u8],
) -> Result<(), NoMemory> {
    let answer = known_of(alloc, text, question)?;
    put_text(out, answer.as_slice())
}
