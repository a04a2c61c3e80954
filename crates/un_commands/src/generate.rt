//! The words of `gen`.

ghost use Rattle.std.specs.Prelude.{IfOk, IfErr, codes};
ghost use Rattle.un_commands.specs.Commands.{IsCommand, IsBadWord};
ghost use Rattle.un_commands.specs.Places.{StandsAt};
ghost use Rattle.un_commands.specs.Generate.{AsksFor};

use crate::command::{Command, MOST_NODES, MOST_SIZE, MakingCommand};
use crate::place::{end_at, number_at, number_within, word_at};
use un_outside::words::Word;

/// The command of words that begin with `gen`, a seed and a size.
///
/// # Errors
/// The first place that is bad.
fn read_rest(words: &[Word], seed: u64, size: u32) -> Result<Command, u32>
    requires { AsksFor words.now seed size }
    ensures ok { IfOk result (IsCommand words.now) }
    ensures bad { IfErr result (IsBadWord words.now) }
{
    if words.len() == 3 {
        return Ok(Command::Makes(MakingCommand::Generate { seed, size }));
    }
    word_at(words, 3, b"--nodes")?;
    let nodes = number_within(words, 4, 1, MOST_NODES)?;
    end_at(words, 5)?;
    Ok(Command::Makes(MakingCommand::GenerateAlloc { seed, size, nodes }))
}

/// The command of words that begin with `gen`.
///
/// # Errors
/// The first place that is bad.
pub(crate) fn read_generate(words: &[Word]) -> Result<Command, u32>
    requires { StandsAt words.now 0 (codes "gen") }
    ensures ok { IfOk result (IsCommand words.now) }
    ensures bad { IfErr result (IsBadWord words.now) }
{
    let seed = number_at(words, 1)?;
    let size = number_within(words, 2, 1, MOST_SIZE)?;
    read_rest(words, seed, size)
}
