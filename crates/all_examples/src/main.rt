//! Runs the program on each example, and compares the first lines that it writes, up to the cost, with the file of what is
//! expected, and what the function and its code do from some starts with what a twin in C does; and draws and explains some reports,
//! whose texts it compares with files too.
#![tactic(auto)]

mod drawings;
mod rows;
mod runs;

use crate::drawings::is_drawn_as;
use crate::runs::wrong_runs;
use std::alloc::Global;
use std::rt::Files;
use std::{fs, io};
use un_base::memory_error::NoMemory;
use un_outside::memory::{MemSink, MemSource};
use un_outside::words::Word;
use un_top::run::run;

/// The names of the examples: `functions/NAME.uni` has the function, `expected/NAME.out` the first lines of its report, with the cost that a
/// second program found.
static EXAMPLES: [&str; 12] = [
    "absolute",
    "checksum",
    "copy",
    "dot",
    "gcd",
    "grade",
    "maximum",
    "pass",
    "population",
    "search",
    "sum",
    "total",
];

/// The names of reports that are drawn and explained: `expected/NAME.report` has a function, a line `---` and a report on it, and
/// `expected/NAME.drawn` what is expected.
static DRAWN: [&str; 5] = ["ack", "call", "gcd", "keep", "total"];

/// How many bytes are written at most.
const ROOM: usize = 65536;

/// Whether a run over an outside writes a report that begins as expected, or the line that is expected on `err` and no report.
fn writes(
    alloc: Global,
    words: &[Word],
    src: &mut MemSource,
    out: &mut MemSink,
    err: &mut MemSink,
    want: &[u8],
) -> bool {
    let _ = run(alloc, words, src, out, err);
    let report = out.bytes();
    if report.is_empty() {
        return err.bytes() == want;
    }
    !want.is_empty() && report.starts_with(want)
}

/// The same with sinks for it.
fn writes_from(
    alloc: Global,
    words: &[Word],
    src: &mut MemSource,
    want: &[u8],
) -> Result<bool, NoMemory> {
    let mut out = MemSink::new(alloc, ROOM, ROOM, Vec::new(alloc))?;
    let mut err = MemSink::new(alloc, ROOM, ROOM, Vec::new(alloc))?;
    Ok(writes(alloc, words, src, &mut out, &mut err, want))
}

/// Whether what `alloc` writes for a text is the expected one.
fn is_as_expected(alloc: Global, text: &[u8], want: &[u8]) -> Result<bool, NoMemory> {
    let word = Word::new(alloc, "alloc")?;
    let mut source = MemSource::new(text.to_vec(alloc)?, ROOM, Vec::new(alloc));
    writes_from(alloc, &[word], &mut source, want)
}

/// What is said of an example's output.
fn verdict(expected: Result<bool, NoMemory>) -> &'static str {
    match expected {
        Ok(true) => "as expected",
        Ok(false) => "otherwise",
        Err(_) => "no memory",
    }
}

/// Says of an example whether its output is the expected one, and how many of its runs are not as its twin's: of 0 where
/// there is no memory for them.
fn tell(rt: &(impl Print + AllocGlobal), name: &str, text: &[u8], want: &[u8]) -> io::Result<()> {
    let said = verdict(is_as_expected(rt.alloc(), text, want));
    let (wrong, all) = wrong_runs(rt.alloc(), name.as_bytes(), text).unwrap_or((0, 0));
    println!(rt; "{name}: {said}, {wrong} of {all} runs otherwise")
}

/// The text of a file with what is expected of an example.
fn expected(rt: &(impl Files + AllocGlobal), name: &str, ending: &str) -> io::Result<String> {
    let path = format!(in rt.alloc(); "expected/{name}.{ending}")?;
    fs::read_to_string(rt, path.as_str())
}

/// Says the same of an example with this text.
fn tell_of(rt: &(impl Files + Print + AllocGlobal), name: &str, text: &[u8]) -> io::Result<()> {
    let want = expected(rt, name, "out")?;
    tell(rt, name, text, want.as_bytes())
}

/// Says the same of the example of this name.
fn tell_named(rt: &(impl Files + Print + AllocGlobal), name: &str) -> io::Result<()> {
    let path = format!(in rt.alloc(); "functions/{name}.uni")?;
    let text = fs::read_to_string(rt, path.as_str())?;
    tell_of(rt, name, text.as_bytes())
}

/// Says of a report whether it is drawn and explained as expected.
fn tell_drawn(rt: &(impl Files + Print + AllocGlobal), name: &str, input: &[u8]) -> io::Result<()> {
    let want = expected(rt, name, "drawn")?;
    let said = verdict(Ok(is_drawn_as(rt.alloc(), input, want.as_bytes())));
    println!(rt; "{name}, drawn and explained: {said}")
}

/// Says the same of the report of this name.
fn tell_drawing(rt: &(impl Files + Print + AllocGlobal), name: &str) -> io::Result<()> {
    let input = expected(rt, name, "report")?;
    tell_drawn(rt, name, input.as_bytes())
}

fn main(rt: HostRuntime) -> io::Result<()> {
    for name in EXAMPLES.iter() {
        tell_named(&rt, name)?;
    }
    for name in DRAWN.iter() {
        tell_drawing(&rt, name)?;
    }
    Ok(())
}
