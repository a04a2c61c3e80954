//! A program beside `unison`: the way out to an assembler, and the way in from a compiler. It reads standard input; the first word says what
//! is asked for, `asm` the assembly of a report, `import` a function of LLVM's in the input language.
#![tactic(auto)]

mod asm;
mod imported;
mod input;
mod request;

use crate::input::answered;
use crate::request::asked_for;
use std::process::ExitCode;
use un_answers::answer::{Answer, put_cause};
use un_outside::files::{StdSink, StdSource};
use un_outside::status::Status;
use un_outside::transfer::write_all;
use un_outside::words::words;

fn main(rt: HostRuntime) -> ExitCode {
    let Ok(words) = words(&rt) else {
        let _ = eprintln!(rt; "no memory");
        return ExitCode::from(Status::NoMemory.number());
    };
    let mut source = StdSource::new(rt.stdin());
    let answer = match asked_for(words.as_slice()) {
        Ok(asked) => answered(rt.alloc(), &asked, &mut source),
        Err(word) => Answer::failed(rt.alloc(), Status::Usage { word }),
    };
    let mut out = StdSink::new(rt.stdout());
    let status = match write_all(&mut out, answer.out.as_slice()) {
        Ok(()) => answer.status,
        Err(_) => Status::WriteFault,
    };
    let mut told = answer.told;
    let _ = put_cause(&mut told, status);
    let mut err = StdSink::new(rt.stderr());
    let _ = write_all(&mut err, told.as_slice());
    ExitCode::from(status.number())
}
