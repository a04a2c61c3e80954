//! Tries steps of step logs on boxes, and logs on trees of one closed leaf: rows whose answers another program worked out from the rules
//! alone. Between two `|` stands a row: a function, `^`, what is tried, `?`, and the steps or the log. `&` is the function of the row
//! before. What is tried is a line of a letter, the numbers of general registers (0 for all) and of slots, a report's version and a
//! limit (`-` for none). Behind the letter `b` are lines of a box, `VAR LO HI`: the variable keeps the values of its first domain from
//! LO to HI; each step is tried by itself on this box. Behind the letters `l` and `c` there are none: a log is judged, and one is made and
//! judged, by the rules that need no counting, or by all.
#![tactic(auto)]

mod rows;

use crate::rows::put_rows;
use std::process::ExitCode;
use un_outside::files::{StdSink, StdSource};
use un_outside::transfer::{read_all, write_all};

/// How many bytes are read at most.
const MOST: usize = 1_048_576;

fn main(rt: HostRuntime) -> ExitCode {
    let mut source = StdSource::new(rt.stdin());
    let Ok(text) = read_all(rt.alloc(), &mut source, MOST) else {
        return ExitCode::from(1);
    };
    let mut out = Vec::new(rt.alloc());
    if put_rows(rt.alloc(), &mut out, text.as_slice()).is_err() {
        return ExitCode::from(1);
    }
    let mut sink = StdSink::new(rt.stdout());
    match write_all(&mut sink, out.as_slice()) {
        Ok(_) => ExitCode::from(0),
        Err(_) => ExitCode::from(1),
    }
}
