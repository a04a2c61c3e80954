//! The words of `check`.

ghost use Rattle.std.specs.Prelude.{IfOk, IfErr, codes};
ghost use Rattle.un_commands.specs.Commands.{IsCommand, IsBadWord};
ghost use Rattle.un_commands.specs.Places.{StandsAt};

use crate::command::{Command, ReadingCommand};
use crate::place::{end_at, word_at};
use un_outside::words::Word;

/// The command of words that begin with `check`.
///
/// # Errors
/// The first place that is bad.
pub(crate) fn read_check(words: &[Word]) -> Result<Command, u32>
    requires { StandsAt words.now 0 (codes "check") }
    ensures ok { IfOk result (IsCommand words.now) }
    ensures bad { IfErr result (IsBadWord words.now) }
{
    if words.len() == 1 {
        return Ok(Command::Reads(ReadingCommand::Check));
    }
    word_at(words, 1, b"--table")?;
    end_at(words, 2)?;
    Ok(Command::Reads(ReadingCommand::CheckTable))
}
