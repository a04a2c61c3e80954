//! The words of `refute`: a limit with settings, or the flag `--check`.

ghost use Rattle.std.specs.Prelude.{IfOk, IfErr, codes};
ghost use Rattle.un_commands.specs.Commands.{IsCommand, IsBadWord};
ghost use Rattle.un_commands.specs.Places.{StandsAt};

use crate::alloc::read_settings;
use crate::command::{Command, ReadingCommand};
use crate::place::{end_at, number_at, word_at};
use un_outside::words::Word;

/// The command of words that begin with `refute`.
///
/// # Errors
/// The first place that is bad.
#[tactic(auto, using(crate::proofs::Openers::refute_opens, crate::proofs::Openers::refutes))]
pub(crate) fn read_refute(words: &[Word]) -> Result<Command, u32>
    requires { StandsAt words.now 0 (codes "refute") }
    ensures ok { IfOk result (IsCommand words.now) }
    ensures bad { IfErr result (IsBadWord words.now) }
{
    if word_at(words, 1, b"--check").is_ok() {
        end_at(words, 2)?;
        return Ok(Command::Reads(ReadingCommand::RefuteCheck));
    }
    let limit = number_at(words, 1)?;
    let (_, options) = read_settings(words, 2, false)?;
    Ok(Command::Reads(ReadingCommand::Refute { limit, options }))
}
