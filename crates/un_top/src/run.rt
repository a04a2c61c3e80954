//! Everything that the program does.

ghost use Rattle.std.specs.Prelude.{◌≡◌, ℕ, List, ◌⊎◌, ◌<◌, Ok, Err, IfSome, IfOk, IfErr, OnErr};
ghost use Rattle.std.specs.Io.KnownBytes.{Appends, IsAtEnd};
ghost use Rattle.un_commands.specs.Commands.{IsBadWord, IsCommand};
ghost use Rattle.un_commands.specs.declared.command.Command.{Command};
ghost use Rattle.un_commands.specs.declared.command.MakingCommand.{MakingCommand};
ghost use Rattle.un_commands.specs.declared.command.ReadingCommand.{ReadingCommand};
ghost use Rattle.un_outside.specs.Causes.{Rose, AppendsPrefix};
ghost use Rattle.un_outside.specs.declared.status.Status.{Status};
ghost use Rattle.un_top.specs.Behaviours.{behaviour_of, IsDone};
ghost use Rattle.un_top.specs.Runs.{IsFaultOf, IsLateOf, IsLate, IsOfWhole, OutAfter, KeepsOut, AnswersFault, AnswersLate, AnswersAccepted};
ghost use Rattle.un_top.specs.Runs.{IsAnswer, IsRefusal, IsWritten, Wrote, line_of};

use crate::faults::write_line;
use crate::output::Output;
use crate::produce::produce;
use std::alloc::Global;
use un_outside::outside::{Sink, Source};
use un_outside::status::Status;
use un_outside::transfer::write_all;
use un_outside::words::Word;

/// Writes the output, or hands the refusal on.
fn finish<K: Sink>(outcome: Result<Output, Status>, out: &mut K) -> Status
    requires refusal { IfErr outcome IsRefusal }
    requires written { IfOk outcome (λ o. IsWritten o.status) }
    ensures err { IfErr outcome (λ s. result ≡ s) }
    ensures kept { OnErr outcome (K.held out.new ≡ K.held out.old) }
    ensures wrote { IfOk outcome (λ o. Wrote o.status o.text.items result (K.held out.old) (K.held out.new)) }
    ensures fault { result ≡ Status.WriteFault → Rose (K.faults out.old) (K.faults out.new) }
{
    match outcome {
        Ok(output) => match write_all(out, output.text.as_slice()) {
            Ok(()) => output.status,
            Err(_) => Status::WriteFault,
        },
        Err(status) => status,
    }
}

/// Does all that the program does: `words` are the arguments without the program's own name, the input of their command is read
/// from `src`, where it has one, its output goes to `out`, and a refusal to `err` as one line. The output is built whole before the
/// first write, and a failure of `err` changes no status.
///
/// The answers come in this order: the words, reading, the text, writing. Want of memory may stand at each of them after
/// the words.
pub fn run<S: Source, K: Sink, E: Sink>(
    alloc: Global,
    words: &[Word],
    src: &mut S,
    out: &mut K,
    err: &mut E,
) -> Status
    // The output is that of the command over the text, whole, or a prefix of it where writing failed.
    ensures out { IfSome (S.left src.old) (λ text. OutAfter result words.now text (K.held out.old) (K.held out.new)) }
    ensures kept { KeepsOut result (K.held out.old) (K.held out.new) }

    // A command that reads its input reads it to the end before it writes, or answers for a later part of it.
    ensures read_whole { (command : ReadingCommand) → IsCommand words.now (Command.Reads command) → IsOfWhole result
        → IsAtEnd (S.left src.new) }

    // One that reads none leaves the source alone, and its output is so whatever the source tells, unless writing failed or there was no
    // memory.
    ensures left { (command : MakingCommand) → IsCommand words.now (Command.Makes command) → S.left src.new ≡ S.left src.old }
    ensures calls { (command : MakingCommand) → IsCommand words.now (Command.Makes command) → S.calls src.new ≡ S.calls src.old }
    ensures made { (command : MakingCommand) → IsCommand words.now (Command.Makes command) → (text : List ℕ)
        → OutAfter result words.now text (K.held out.old) (K.held out.new) }
    ensures made_well { (command : MakingCommand) → IsCommand words.now (Command.Makes command)
        → (result ≡ Status.WriteFault) ⊎ IsDone result }

    // When each other answer comes.
    ensures answers { IsAnswer words.now result }
    ensures usage { (place : ℕ) → result ≡ Status.Usage place → IsBadWord words.now place }
    ensures unread { (place : ℕ) → result ≡ Status.Usage place → S.left src.new ≡ S.left src.old }
    ensures not_called { (place : ℕ) → result ≡ Status.Usage place → S.calls src.new ≡ S.calls src.old }
    ensures exactly_usage { (place : ℕ) → IsBadWord words.now place → result ≡ Status.Usage place }
    ensures read { result ≡ Status.ReadFault → Rose (S.faults src.old) (S.faults src.new) }
    ensures fault { (line code : ℕ) → result ≡ Status.TextFault line code
        → IfSome (S.left src.old) (λ text. IsFaultOf words.now text line code) }
    ensures exactly_fault { IfSome (S.left src.old) (λ text. (line code : ℕ) → IsFaultOf words.now text line code
        → AnswersFault result line code) }
    ensures accepted { IfSome (S.left src.old) (λ text. (command : ReadingCommand) → IsCommand words.now (Command.Reads command)
        → (behaviour_of command).Faultless text → AnswersAccepted result) }
    ensures late { IsLate result → IfSome (S.left src.old) (λ text. IsLateOf words.now text result) }
    ensures exactly_late { IfSome (S.left src.old) (λ text. (status : Status) → IsLateOf words.now text status
        → AnswersLate result status) }
    ensures write { result ≡ Status.WriteFault → Rose (K.faults out.old) (K.faults out.new) }

    // A good input is answered by its output, or there was no memory, where nothing outside fails.
    ensures complete { IfSome (S.left src.old) (λ text. (command : ReadingCommand) → IsCommand words.now (Command.Reads command)
        → (behaviour_of command).Good text
        → Rose (S.faults src.old) (S.faults src.new)
        ⊎ (Rose (K.faults out.old) (K.faults out.new) ⊎ (behaviour_of command).EndsWell text result)) }

    // The line for the status goes to `err`, whole where its count did not rise.
    ensures err_line { AppendsPrefix (E.held err.old) (E.held err.new) (line_of result) }
    ensures err_whole { Rose (E.faults err.old) (E.faults err.new)
        ⊎ Appends (E.held err.old) (E.held err.new) (line_of result) }
{
    let outcome = produce(alloc, words, src);
    let status = finish(outcome, out);
    let _ = write_line(err, status);
    status
}
