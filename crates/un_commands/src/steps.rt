//! The words of `steps`: the flag `--check` or not, and then the flag `--counts` or not.

ghost use Rattle.std.specs.Prelude.{◌+◌, ◌<◌, ◌^◌, IfOk, IfErr, codes};
ghost use Rattle.un_commands.specs.Commands.{IsCommand, IsBadWord};
ghost use Rattle.un_commands.specs.Places.{StandsAt};
ghost use Rattle.un_commands.specs.Steps.{EndsWith, IsBadEnd};

use crate::command::{Command, ReadingCommand};
use crate::place::{end_at, word_at};
use un_outside::words::Word;

/// Whether the flag `--counts` stands at a place, as the last word; it does not where the words end before that.
///
/// # Errors
/// The first place that is bad.
fn counts_at(words: &[Word], place: u32) -> Result<bool, u32>
    requires small { place + 1 < 2 ^ 32 }
    ensures ok { IfOk result (EndsWith words.now place) }
    ensures bad { IfErr result (IsBadEnd words.now place) }
{
    if words.len() <= place as usize {
        return Ok(false);
    }
    word_at(words, place, b"--counts")?;
    end_at(words, place + 1)?;
    Ok(true)
}

/// The command of words that begin with `steps`.
///
/// # Errors
/// The first place that is bad.
pub(crate) fn read_steps(words: &[Word]) -> Result<Command, u32>
    requires { StandsAt words.now 0 (codes "steps") }
    ensures ok { IfOk result (IsCommand words.now) }
    ensures bad { IfErr result (IsBadWord words.now) }
{
    if word_at(words, 1, b"--check").is_ok() {
        let counts = counts_at(words, 2)?;
        return Ok(Command::Reads(ReadingCommand::StepsCheck { counts }));
    }
    let counts = counts_at(words, 1)?;
    Ok(Command::Reads(ReadingCommand::Steps { counts }))
}
