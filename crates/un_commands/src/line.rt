//! Which command the words of a command line ask for.

ghost use Rattle.std.specs.Prelude.{◌≡◌, ℕ, Err, IfOk};
ghost use Rattle.un_commands.specs.Commands.{IsCommand, IsBadWord, IsRanged};

use crate::alloc::{read_alloc, read_improve};
use crate::check::read_check;
use crate::command::Command;
use crate::generate::read_generate;
use crate::refute::read_refute;
use crate::run::read_run;
use crate::steps::read_steps;
use un_outside::words::Word;

/// The command that the words are, with its numbers in their ranges. It takes no memory.
///
/// # Errors
/// The least place, from 0, at which no command begins with the words up to and with that place. It is the number of words
/// where more are needed.
pub fn read_command(words: &[Word]) -> Result<Command, u32>
    ensures ok { IfOk result (IsCommand words.now) }
    ensures exactly { (place : ℕ) → IsBadWord words.now place → result ≡ Err place }
    ensures bad { (place : ℕ) → result ≡ Err place → IsBadWord words.now place }
    ensures ranged { IfOk result IsRanged }
{
    let Some(first) = words.first() else {
        return Err(0);
    };
    if first.is(b"alloc") {
        read_alloc(words)
    } else if first.is(b"run") {
        read_run(words)
    } else if first.is(b"check") {
        read_check(words)
    } else if first.is(b"gen") {
        read_generate(words)
    } else if first.is(b"improve") {
        read_improve(words)
    } else if first.is(b"refute") {
        read_refute(words)
    } else if first.is(b"steps") {
        read_steps(words)
    } else {
        Err(0)
    }
}
