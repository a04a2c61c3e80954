//! Rows of texts with what is asked of them. Between two `|` stands a row: a text, `?`, a question, `:` and the answer. `&` is the
//! text of the row before, and a row that begins with `#` is a comment. A question begins with its letter, which counts alone, and
//! may have numbers.

ghost use Rattle.std.specs.Prelude.{◌<◌, ◌^◌};

use crate::base::put_of_bytes;
use crate::faults::put_of_text;
use crate::generated::put_of_seed;
use crate::known::put_of_function;
use crate::listings::put_of_listing;
use crate::refutation_texts::put_of_refutation;
use crate::report_texts::put_of_report;
use crate::run_texts::put_of_run;
use crate::start_texts::put_of_start;
use crate::tables::put_of_table;
use std::alloc::Global;
use un_base::decimal::read_decimal;
use un_base::memory_error::NoMemory;
use un_ir::text::put_text;

/// What rows are about.
#[derive(Clone, Copy)]
pub(crate) enum About {
    Bytes,
    Listings,
    Texts,
    Functions,
    Seeds,
    Starts,
    Runs,
    Reports,
    Refutations,
    Tables,
}

/// What stands before and behind the first byte of this kind.
pub(crate) fn cut(text: &[u8], byte: u8) -> (&[u8], &[u8]) {
    let at = text.iter().position(|b| *b == byte).unwrap_or(text.len());
    (
        &text[..at.min(text.len())],
        &text[at.saturating_add(1).min(text.len())..],
    )
}

/// The number that a word is, and 0 for another word.
pub(crate) fn number(word: &[u8]) -> u32 {
    match read_decimal(word) {
        Some(n) => if n <= 4294967295 { n as u32 } else { 0 },
        None => 0,
    }
}

/// The number at place `k` among the words of a text, and 0 where there is none.
pub(crate) fn number_at(text: &[u8], k: usize) -> u32 {
    number(text.split(|b| *b == b' ').nth(k).unwrap_or(&[]))
}

/// Appends the answer to a question about a text.
fn put_answer(
    alloc: Global,
    out: &mut Vec<u8>,
    about: About,
    text: &[u8],
    question: &[u8],
) -> Result<(), NoMemory> {
    match about {
        About::Bytes => put_of_bytes(alloc, out, text, question),
        About::Listings => put_of_listing(alloc, out, text, question),
        About::Texts => put_of_text(alloc, out, text, question),
        About::Functions => put_of_function(alloc, out, text, question),
        About::Seeds => put_of_seed(alloc, out, question),
        About::Starts => put_of_start(alloc, out, text, question),
        About::Runs => put_of_run(alloc, out, text, question),
        About::Reports => put_of_report(alloc, out, text, question),
        About::Refutations => put_of_refutation(alloc, out, text, question),
        About::Tables => put_of_table(alloc, out, text),
    }
}

/// Whether a part stands in a text.
fn stands_in(part: &[u8], text: &[u8]) -> bool {
    let n = part.len();
    n != 0 && text.windows(n).any(|w| w == part)
}

/// Whether an answer is what is wanted: of extended functions some blocks, else the whole.
fn is_wanted(question: &[u8], found: &[u8], answer: &[u8]) -> bool {
    found == answer || question == b"extended".as_slice() && stands_in(answer, found)
}

/// Whether a text has the answer of a section.
fn is_answered(alloc: Global, about: About, text: &[u8], section: &[u8]) -> Result<bool, NoMemory> {
    let (question, answer) = cut(section, b':');
    let mut out = Vec::new(alloc);
    put_answer(alloc, &mut out, about, text, question)?;
    Ok(is_wanted(question, out.as_slice(), answer))
}

/// Whether each row has its answer.
pub(crate) fn all_answered(alloc: Global, about: About, rows: &[u8]) -> Result<bool, NoMemory> {
    let mut text: &[u8] = &[];
    for row in rows.split(|b| *b == b'|') {
        let (own, section) = cut(row, b'?');
        if own.starts_with(b"#") {
            continue;
        }
        if own != b"&".as_slice() {
            text = own;
        }
        if !is_answered(alloc, about, text, section)? {
            return Ok(false);
        }
    }
    Ok(true)
}
