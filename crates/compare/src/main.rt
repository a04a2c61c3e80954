//! A program beside `unison`: it compares a listing with a function and its report. Standard input has the function, the report and the
//! listing, and a table of the processor where all is to go by one, parted by lines `---`; with the word `files` it compares those that a file of this name lists. For runs of both, `plain` prints
//! the listing in the spelling that `alloc` prints, `lines` for each line of that where its packet begins in the listing, and `starts`
//! prints starts for the function.
#![tactic(auto)]

mod compared;
mod input;
mod least;
mod report;

use crate::input::{Asked, answer_to, read};
use std::alloc::Global;
use std::process::ExitCode;
use std::rt::Files;
use std::{fs, io};
use un_answers::answer::{Answer, put_cause};
use un_outside::files::{StdSink, StdSource};
use un_outside::status::Status;
use un_outside::transfer::write_all;
use un_outside::words::{Word, words};

/// What the input of a source comes to.
fn of_input(alloc: Global, asked: Asked, input: Result<Vec<u8>, Status>) -> Answer {
    match input {
        Ok(input) => answer_to(alloc, asked, input.as_slice()),
        Err(status) => Answer::failed(alloc, status),
    }
}

/// The text of a file, with an ending such as `.uni` behind its name.
fn file_text(rt: &(impl Files + AllocGlobal), name: &str, ending: &str) -> io::Result<String> {
    let path = format!(in rt.alloc(); "{name}{ending}")?;
    fs::read_to_string(rt, path.as_str())
}

/// The input that the files of a name make: its function, its report and its listing.
fn files_input(rt: &(impl Files + AllocGlobal), name: &str) -> io::Result<String> {
    let function = file_text(rt, name, ".uni")?;
    let report = file_text(rt, name, ".report")?;
    let listing = file_text(rt, name, ".listing")?;
    let function = function.as_str();
    let report = report.as_str();
    let listing = listing.as_str();
    Ok(format!(in rt.alloc(); "{function}---\n{report}---\n{listing}")?)
}

/// Prints what the files of a name come to.
fn tell_files(rt: &(impl Files + Print + AllocGlobal), name: &str) -> io::Result<()> {
    let input = files_input(rt, name)?;
    let answer = answer_to(rt.alloc(), Asked::Comparison, input.as_str().as_bytes());
    let text = String::from_utf8(answer.out).unwrap_or(String::new(rt.alloc()));
    let told = String::from_utf8(answer.told).unwrap_or(String::new(rt.alloc()));
    let text = text.as_str();
    let told = told.as_str();
    print!(rt; "{name}\n{text}{told}")
}

/// Prints what the files come to of each name that a file lists.
fn tell_all(rt: &(impl Files + Print + AllocGlobal), list: &str) -> io::Result<()> {
    let names = fs::read_to_string(rt, list)?;
    for name in names.as_str().lines() {
        tell_files(rt, name)?;
    }
    Ok(())
}

/// What the words ask for; None where they are others.
fn asked_for(words: &[Word]) -> Option<Asked> {
    match words {
        [] => Some(Asked::Comparison),
        [word] if word.is(b"plain") => Some(Asked::Plain),
        [word] if word.is(b"lines") => Some(Asked::Lines),
        [word] if word.is(b"starts") => Some(Asked::Starts),
        _ => None,
    }
}

/// Whether the words ask for what a file lists.
fn asks_for_files(words: &[Word]) -> bool {
    match words.first() {
        Some(word) => word.is(b"files"),
        None => false,
    }
}

fn main(rt: HostRuntime) -> ExitCode {
    let Ok(words) = words(&rt) else {
        let _ = eprintln!(rt; "no memory");
        return ExitCode::from(Status::NoMemory.number());
    };
    if asks_for_files(words.as_slice()) {
        let status = match tell_all(&rt, "files") {
            Ok(()) => Status::Done,
            Err(_) => Status::ReadFault,
        };
        return ExitCode::from(status.number());
    }
    let mut source = StdSource::new(rt.stdin());
    let answer = match asked_for(words.as_slice()) {
        Some(asked) => of_input(rt.alloc(), asked, read(rt.alloc(), &mut source)),
        None => Answer::failed(rt.alloc(), Status::Usage { word: 0 }),
    };
    let mut out = StdSink::new(rt.stdout());
    let status = match write_all(&mut out, answer.out.as_slice()) {
        Ok(()) => answer.status,
        Err(_) => Status::WriteFault,
    };
    let mut told = answer.told;
    let _ = put_cause(&mut told, status);
    let mut err = StdSink::new(rt.stderr());
    let _ = write_all(&mut err, told.as_slice());
    ExitCode::from(status.number())
}
