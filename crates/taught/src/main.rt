//! Says more of a fault than its line and code, for a user: the words at fault underlined, what is wrong, and what would be accepted.
//! `text` teaches of a function's text on standard input, `texts` of the files that a file of this name lists, which are functions, or
//! listings with the ending `.lst`, `words` of the words behind it, and `start N`, `listing N` and `report N` of the line N of such a part
//! on standard input.
#![tactic(auto)]

use std::alloc::Global;
use std::process::ExitCode;
use std::rt::Files;
use std::{fs, io};
use un_base::decimal::read_decimal;
use un_base::lines::lines;
use un_base::memory_error::NoMemory;
use un_outside::files::{StdSink, StdSource};
use un_outside::outside::{Sink, Source};
use un_outside::status::Status;
use un_outside::transfer::{read_all, write_all};
use un_outside::words::{Word, words};
use un_taught::commands::advise;
use un_taught::parts::{grammar_of, teach_part};
use un_taught::taught::{teach, written};

/// How many bytes of a text are read at most.
const ROOM: usize = 1 << 20;

/// What is said of a function's text.
fn of_text(alloc: Global, text: &[u8]) -> Result<String, NoMemory> {
    match teach(alloc, text)? {
        Some(lesson) => Ok(written(alloc, text, &lesson)?),
        None => Ok(format!(in alloc; "the text has no fault\n")?),
    }
}

/// What is said of words.
fn of_words(alloc: Global, words: &[Word]) -> Result<String, NoMemory> {
    match advise(alloc, words)? {
        Some(advice) => {
            let wrong = advice.wrong.as_str();
            let help = advice.help.as_str();
            Ok(format!(in alloc; "{wrong}\n  = {help}\n")?)
        }
        None => Ok(format!(in alloc; "the words are a command\n")?),
    }
}

/// The number that a word is, 1 where it is none.
fn number_of(word: Option<&Word>) -> usize {
    match word {
        Some(word) => match read_decimal(word.as_bytes()) {
            Some(number) => usize::try_from(number).unwrap_or(1),
            None => 1,
        },
        None => 1,
    }
}

/// What is said of the line of this number of a part of this kind.
fn of_line(alloc: Global, kind: &[u8], number: usize, text: &[u8]) -> Result<String, NoMemory> {
    match grammar_of(kind) {
        Some(grammar) => {
            let lesson = teach_part(alloc, text, number, grammar)?;
            Ok(written(alloc, text, &lesson)?)
        }
        None => Ok(format!(in alloc;
            "the word is text, texts, words, start, listing or report\n"
        )?),
    }
}

/// What is said of what the words name, of this text.
fn of_input(
    alloc: Global,
    kind: &[u8],
    line: Option<&Word>,
    text: &[u8],
) -> Result<String, NoMemory> {
    if kind == b"text".as_slice() {
        of_text(alloc, text)
    } else {
        of_line(alloc, kind, number_of(line), text)
    }
}

/// The bytes of a source, and what is said of them.
fn of_source<S: Source>(alloc: Global, words: &[Word], src: &mut S) -> Result<String, Status> {
    let kind: &[u8] = match words.first() {
        Some(word) => word.as_bytes(),
        None => b"",
    };
    let said = if kind == b"words".as_slice() {
        of_words(alloc, words.get(1..).unwrap_or(&[]))
    } else {
        let Ok(text) = read_all(alloc, src, ROOM) else {
            return Err(Status::ReadFault);
        };
        of_input(alloc, kind, words.get(1), text.as_slice())
    };
    match said {
        Ok(said) => Ok(said),
        Err(_) => Err(Status::NoMemory),
    }
}

/// What is said of each packet of a listing.
fn of_packets(alloc: Global, text: &[u8]) -> Result<String, NoMemory> {
    let mut said = String::new(alloc);
    let mut number: usize = 0;
    for line in lines(text) {
        number = number.saturating_add(1);
        if line.starts_with(b"{") {
            let one = of_line(alloc, b"listing", number, text)?;
            said.push_str(one.as_str())?;
        }
    }
    Ok(said)
}

/// What is said of a file's text, by the end of its name: of the packets of a listing, or of a function.
fn of_named(alloc: Global, name: &[u8], text: &[u8]) -> Result<String, NoMemory> {
    if name.ends_with(b".lst") {
        of_packets(alloc, text)
    } else {
        of_text(alloc, text)
    }
}

/// Says what is said of the text of a file.
fn tell_file(rt: &(impl Files + Print + AllocGlobal), name: &str) -> io::Result<()> {
    let text = fs::read_to_string(rt, name)?;
    let said = match of_named(rt.alloc(), name.as_bytes(), text.as_bytes()) {
        Ok(said) => said,
        Err(_) => format!(in rt.alloc(); "no memory\n")?,
    };
    let said = said.as_str();
    print!(rt; "{name}\n{said}")
}

/// Says the same of each file of a list of names, which stands in a file.
fn tell_files(rt: &(impl Files + Print + AllocGlobal), list: &str) -> io::Result<()> {
    let names = fs::read_to_string(rt, list)?;
    for name in names.as_str().lines() {
        tell_file(rt, name)?;
    }
    Ok(())
}

/// Writes what is said, and answers how that ended.
fn put<K: Sink>(out: &mut K, said: Result<String, Status>) -> Status {
    match said {
        Ok(said) => match write_all(out, said.as_bytes()) {
            Ok(()) => Status::Done,
            Err(_) => Status::WriteFault,
        },
        Err(status) => status,
    }
}

fn main(rt: HostRuntime) -> ExitCode {
    let Ok(words) = words(&rt) else {
        return ExitCode::from(Status::NoMemory.number());
    };
    let status = match words.first() {
        Some(word) if word.is(b"texts") => match tell_files(&rt, "texts") {
            Ok(()) => Status::Done,
            Err(_) => Status::ReadFault,
        },
        _ => {
            let mut source = StdSource::new(rt.stdin());
            let mut out = StdSink::new(rt.stdout());
            let said = of_source(rt.alloc(), words.as_slice(), &mut source);
            put(&mut out, said)
        }
    };
    ExitCode::from(status.number())
}
