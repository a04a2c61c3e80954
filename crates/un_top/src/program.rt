//! The program over the outside of its process: its words, and standard input, output and error.

ghost use Rattle.std.specs.Prelude.{◌≡◌, ℕ, ◌⊎◌, IfSome, IfOk, OnErr};
ghost use Rattle.std.specs.Io.KnownBytes.{Appends};
ghost use Rattle.std.specs.Process.{exit_status};
ghost use Rattle.un_commands.specs.Commands.{IsBadWord};
ghost use Rattle.un_outside.specs.Causes.{Rose, AppendsPrefix};
ghost use Rattle.un_outside.specs.Statuses.{number_of};
ghost use Rattle.un_outside.specs.declared.status.Status.{Status};
ghost use Rattle.un_top.specs.Runs.{KeepsOut, OutAfter, line_of};

use crate::faults::write_line;
use crate::run::run;
use std::alloc::Global;
use std::process::ExitCode;
use un_base::memory_error::NoMemory;
use un_outside::files::{StdSink, StdSource};
use un_outside::outside::{Sink, Source};
use un_outside::status::Status;
use un_outside::words::{Word, words};

/// The exit status for a status: its number.
fn exit_by(status: Status) -> ExitCode
    ensures { exit_status result ≡ number_of status }
{
    ExitCode::from(status.number())
}

/// Runs the program on the words that it has, over an outside, and exits with the number of its status. Where there was no memory for the
/// words, that is said on `err`.
pub(crate) fn run_on<S: Source, K: Sink, E: Sink>(
    alloc: Global,
    words: Result<Vec<Word>, NoMemory>,
    src: &mut S,
    out: &mut K,
    err: &mut E,
) -> ExitCode
    ensures no_words { OnErr words ((exit_status result ≡ 7) × (K.held out.new ≡ K.held out.old)
        × AppendsPrefix (E.held err.old) (E.held err.new) (line_of Status.NoMemory)
        × (Rose (E.faults err.old) (E.faults err.new) ⊎ Appends (E.held err.old) (E.held err.new) (line_of Status.NoMemory))) }
    ensures refused { IfOk words (λ ws. (place : ℕ) → IsBadWord ws.items place → exit_status result ≡ 4) }
    ensures told { IfOk words (λ ws. (status : Status) × (exit_status result ≡ number_of status)
        × IfSome (S.left src.old) (λ text. OutAfter status ws.items text (K.held out.old) (K.held out.new))
        × KeepsOut status (K.held out.old) (K.held out.new)
        × AppendsPrefix (E.held err.old) (E.held err.new) (line_of status)
        × (Rose (E.faults err.old) (E.faults err.new) ⊎ Appends (E.held err.old) (E.held err.new) (line_of status))) }
{
    match words {
        Ok(words) => exit_by(run(alloc, words.as_slice(), src, out, err)),
        Err(_) => {
            let _ = write_line(err, Status::NoMemory);
            exit_by(Status::NoMemory)
        }
    }
}

/// The whole program: its arguments, standard input, output and error, handed to `run_on` once.
pub fn program(rt: &HostRuntime) -> ExitCode {
    let mut source = StdSource::new(rt.stdin());
    let mut out = StdSink::new(rt.stdout());
    let mut err = StdSink::new(rt.stderr());
    run_on(rt.alloc(), words(rt), &mut source, &mut out, &mut err)
}
