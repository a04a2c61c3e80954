//! What commands and their words have to do with each other.

ghost use Rattle.std.specs.Prelude.{◌≡◌, ℕ, List};
ghost use Rattle.un_commands.specs.declared.command.Command.{Command};
ghost use Rattle.un_commands.specs.Commands.{IsCommand, IsRanged};

use un_outside::words::Word;

/// Words are those of one command at most, and every command whose numbers are in their ranges can be asked for.
pub fn commands_and_words(words: &[Word])
    ensures one { (a : Command) → (b : Command) → IsCommand words.now a → IsCommand words.now b → a ≡ b }
    ensures every { (command : Command) → IsRanged command → (spelled : List (List ℕ)) × IsCommand spelled command }
{
    let _ = words;
}
