//! A second program beside `unison`: it shows the parts of a function's problem as text, for a user who asks why code is
//! as it is, and for tests that compare them with another reading of what they are; and, for developers, how long the parts of
//! `alloc` and of a search take. It reads standard input; the first word says which part, options of the model or counts may follow.
#![tactic(auto)]

mod attempts;
mod chains;
mod clock;
mod firsts;
mod help;
mod node;
mod part;
mod request;
mod rounds;
mod runs;
mod shown;
mod sweep;
mod swept;
mod times;

use crate::request::asked_for;
use crate::shown::put_asked;
use std::process::ExitCode;
use un_outside::files::{StdSink, StdSource};
use un_outside::status::Status;
use un_outside::transfer::write_all;
use un_outside::words::words;
use un_top::faults::write_line;

fn main(rt: HostRuntime) -> ExitCode {
    let Ok(words) = words(&rt) else {
        let _ = eprintln!(rt; "no memory");
        return ExitCode::from(Status::NoMemory.number());
    };
    let mut source = StdSource::new(rt.stdin());
    let mut text = Vec::new(rt.alloc());
    let outcome = match asked_for(words.as_slice()) {
        Ok(asked) => put_asked(&rt, rt.alloc(), &mut text, &asked, &mut source),
        Err(word) => Err(Status::Usage { word }),
    };
    let mut out = StdSink::new(rt.stdout());
    let status = match outcome {
        Ok(()) => match write_all(&mut out, text.as_slice()) {
            Ok(()) => Status::Done,
            Err(_) => Status::WriteFault,
        },
        Err(status) => status,
    };
    let mut err = StdSink::new(rt.stderr());
    let _ = write_line(&mut err, status);
    ExitCode::from(status.number())
}
