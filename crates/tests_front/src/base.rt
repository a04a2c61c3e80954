//! Decimal numbers, lines, words and whole transfers over sources and sinks in memory.

use crate::rows::{About, all_answered, cut, number_at};
use crate::scripts::{put_offered, put_scripted};
use std::alloc::{AllocError, Global};
use un_base::decimal::{read_decimal, write_decimal};
use un_base::lines::lines;
use un_base::memory_error::NoMemory;
use un_ir::text::put_text;
use un_outside::memory::{MemSink, MemSource, SureSource};
use un_outside::outside::Source;
use un_outside::transfer::{ReadAll, read_all, write_all};
use un_outside::words::Word;

/// What bytes are.
static ROWS: &[u8] = b"# Texts, and the numbers that they write.\
|0?decimal:0\
|4096?decimal:4096\
|18446744073709551615?decimal:18446744073709551615\
|18446744073709551616?decimal:none\
|99999999999999999999999?decimal:none\
|?decimal:none\
|007?decimal:none\
|00?decimal:none\
|+7?decimal:none\
|7 ?decimal:none\
|# Texts, and their lines, each before `/`.\
|first\r\n\nlast?joined:first\r//last/\
|?joined:\
|one\n?joined:one/\
|\n\n?joined://\
|a\nb\n?joined:a/b/\
|# Readings of a text, in pieces of so many bytes, at most so many bytes, by a source whose call of a number fails: what the first call of `read_all` gives, and what a second one of at most 9 bytes gives. Then what a source gives that is sure.\
|func f?read 1 6 99:func f/\
|func f?read 4096 4 99:too long/f\
|func f?read 4 9 1:fault/ f\
|func f?read 4 9 0:fault/func f\
|func f?sure:func f\
|# Writings of a text to a sink with this room and piece, whose call of a number fails: whether it takes the whole, and what it holds.\
|cost 1?write 9 1 99:whole/cost 1\
|cost 1?write 6 64 99:whole/cost 1\
|cost 1?write 4 3 99:failed/cost\
|cost 1?write 9 2 2:failed/cost\
|# What calls of a reader and a writer answer in turn, and what the adapters over them answer: the end at once, short counts, errors before and after bytes, and more bytes than a page.\
|0?adapters:0 /0 \
|310?adapters:3 1 0 /3 1 0 \
|x2?adapters:x 2 /x 2 \
|5xx0?adapters:5 x x 0 /5 x x 0 \
|mn?adapters:5000 16384 /5000 16384 \
|# Texts, and whether `write_all` writes the whole over a writer that answers so many calls alone: one byte, and then all that is offered.\
|cost 1?offered 1n:whole\
|cost 1?offered n:whole\
|cost 1?offered 11:failed";

/// Appends the number that a text writes.
fn put_decimal(alloc: Global, out: &mut Vec<u8>, text: &[u8]) -> Result<(), NoMemory> {
    match read_decimal(text) {
        Some(n) => write_decimal(alloc, out, n),
        None => put_text(out, b"none"),
    }
}

/// Appends the lines of a text, each before `/`.
fn put_joined(out: &mut Vec<u8>, text: &[u8]) -> Result<(), NoMemory> {
    for line in lines(text) {
        put_text(out, line)?;
        put_text(out, b"/")?;
    }
    Ok(())
}

/// Appends what `read_all` gives.
fn put_read<S: Source>(
    alloc: Global,
    out: &mut Vec<u8>,
    source: &mut S,
    max: usize,
) -> Result<(), NoMemory> {
    match read_all(alloc, source, max) {
        Ok(text) => put_text(out, text.as_slice()),
        Err(ReadAll::TooLong) => put_text(out, b"too long"),
        Err(ReadAll::ReadFault) => put_text(out, b"fault"),
        Err(ReadAll::NoMemory) => Err(NoMemory),
    }
}

/// The source over a text, whose call of this number fails.
fn source(alloc: Global, text: &[u8], piece: usize, fail: u64) -> Result<MemSource, AllocError> {
    let fails = [fail].to_vec(alloc)?;
    let text = text.to_vec(alloc)?;
    Ok(MemSource::new(text, piece.max(1), fails))
}

/// Appends what a first and a second reading give.
fn put_readings(
    alloc: Global,
    out: &mut Vec<u8>,
    text: &[u8],
    question: &[u8],
) -> Result<(), NoMemory> {
    let piece = number_at(question, 1) as usize;
    let mut source = source(alloc, text, piece, u64::from(number_at(question, 3)))?;
    put_read(alloc, out, &mut source, number_at(question, 2) as usize)?;
    put_text(out, b"/")?;
    put_read(alloc, out, &mut source, 9)
}

/// Appends what a source gives that is sure.
fn put_sure(alloc: Global, out: &mut Vec<u8>, text: &[u8]) -> Result<(), NoMemory> {
    let text = text.to_vec(alloc)?;
    let mut source = SureSource::new(text);
    put_read(alloc, out, &mut source, 6)
}

/// Appends whether a sink takes the whole of a text, and what it then holds.
fn put_written(out: &mut Vec<u8>, sink: &mut MemSink, text: &[u8]) -> Result<(), NoMemory> {
    match write_all(sink, text) {
        Ok(()) => put_text(out, b"whole/")?,
        Err(_) => put_text(out, b"failed/")?,
    }
    put_text(out, sink.bytes())
}

/// The same for the sink of a question.
fn put_writing(
    alloc: Global,
    out: &mut Vec<u8>,
    text: &[u8],
    question: &[u8],
) -> Result<(), NoMemory> {
    let fails = [u64::from(number_at(question, 3))].to_vec(alloc)?;
    let room = number_at(question, 1) as usize;
    let piece = number_at(question, 2) as usize;
    let mut sink = MemSink::new(alloc, room, piece.max(1), fails)?;
    put_written(out, &mut sink, text)
}

/// Appends the answer to a question about bytes.
pub(crate) fn put_of_bytes(
    alloc: Global,
    out: &mut Vec<u8>,
    text: &[u8],
    question: &[u8],
) -> Result<(), NoMemory> {
    match question.first() {
        Some(b'd') => put_decimal(alloc, out, text),
        Some(b'j') => put_joined(out, text),
        Some(b'r') => put_readings(alloc, out, text, question),
        Some(b's') => put_sure(alloc, out, text),
        Some(b'w') => put_writing(alloc, out, text, question),
        Some(b'a') => put_scripted(out, text),
        Some(b'o') => put_offered(out, text, cut(question, b' ').1),
        _ => put_text(out, b"?"),
    }
}

/// Whether a word keeps its bytes.
fn words_are_kept(alloc: Global) -> Result<bool, NoMemory> {
    let word = Word::new(alloc, "--nodes")?;
    Ok(word.is(b"--nodes") && word.as_bytes() == b"--nodes".as_slice() && !word.is(b"--node"))
}

#[test]
fn answers_of_bytes(rt: HostRuntime) {
    let answered = matches!(all_answered(rt.alloc(), About::Bytes, ROWS), Ok(true));
    let kept = matches!(words_are_kept(rt.alloc()), Ok(true));
    assert!(rt; answered && kept);
}
