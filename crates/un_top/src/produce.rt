//! The whole output, before anything is written.

ghost use Rattle.std.specs.Prelude.{◌≡◌, ℕ, ◌≤◌, List, Err, IfSome, IfOk, IfErr, OnOk, length};
ghost use Rattle.std.specs.Io.KnownBytes.{IsAtEnd};
ghost use Rattle.un_commands.specs.Alloc.{AreSearchOptions, model_options};
ghost use Rattle.un_commands.specs.Commands.{IsBadWord, IsCommand, IsRanged};
ghost use Rattle.un_commands.specs.Settings.{IsCountOfNodes};
ghost use Rattle.un_commands.specs.declared.command.Command.{Command};
ghost use Rattle.un_commands.specs.declared.command.MakingCommand.{MakingCommand};
ghost use Rattle.un_commands.specs.declared.command.ReadingCommand.{ReadingCommand};
ghost use Rattle.un_isa.specs.Fit.{IsFit};
ghost use Rattle.un_isa.specs.Versions.{table_of};
ghost use Rattle.un_isa.specs.declared.table.TheConstants.{LAST};
ghost use Rattle.un_problem.specs.Problems.{IsProblemOf, IsExtOf};
ghost use Rattle.un_reader.specs.Read.{IsRead};
ghost use Rattle.un_top.specs.Behaviours.{of_alloc, of_run, of_run_code, of_check, of_improve, behaviour_of, IsMade};
ghost use Rattle.un_top.specs.Reports.{IsReportOf, IsSearchText, UsesRoom};
ghost use Rattle.un_top.specs.Runs.{status_by, IsOutputOf, EndsSo, IsWritten, IsLate, RefusesText, Refuses, RefusesWords};
ghost use Rattle.un_top.specs.declared.limits.TheConstants.{INPUT};

use crate::by_table::{table_check, table_report, table_run};
use crate::check::check_input;
use crate::generated::generated_report;
use crate::improve::improve_input;
use crate::limits::INPUT;
use crate::output::{Output, printed};
use crate::refutation::refutation_output;
use crate::refute::refute_output;
use crate::search::search_report;
use crate::steps::{steps_check_output, steps_output};
use std::alloc::Global;
use un_base::memory_error::NoMemory;
use un_commands::command::{Command, MakingCommand, ReadingCommand, SearchOptions};
use un_commands::line::read_command;
use un_ir::function::Function;
use un_isa::table::{LAST, Table, table_of};
use un_model::model::Model;
use un_outside::outside::Source;
use un_outside::status::Status;
use un_outside::transfer::{ReadAll, read_all};
use un_outside::words::Word;
use un_problem::problem::model;
use un_reader::limits::TEXT;
use un_runs::refused::Refused;
use un_runs::runs::{code_run, function_of, generated_text, source_run};

/// The code of a text that is too long.
const TOO_MANY: u8 = 13;

/// The report of a search for code of a function.
fn found(alloc: Global, f: &Function, m: &Model, nodes: u32) -> Result<Output, NoMemory>
    requires problem { IsProblemOf f.now m.now }
    requires nodes { IsCountOfNodes nodes }
    ensures found { IfOk result (λ out. (e : IsExtOf m.now.ext.table f.now m.now.ext)
        → IsSearchText f.now m.now nodes (UsesRoom f.now m.now e.live) out.status out.text.items) }
    ensures written { IfOk result (λ out. IsWritten out.status) }
{
    let report = search_report(alloc, f, m, nodes)?;
    let output = printed(alloc, &report)?;
    Ok(output)
}

/// The report of a function's text by a table of the processor.
pub(crate) fn report_by(
    alloc: Global,
    text: &[u8],
    f: &Function,
    t: &Table,
    options: SearchOptions,
) -> Result<Output, NoMemory>
    requires read { IsRead text.now f.now }
    requires fit { IsFit t.now }
    requires options { AreSearchOptions options }
    ensures report { IfOk result (λ out. IsReportOf t.now (model_options options) options.nodes text.now out.status out.text.items) }
    ensures written { IfOk result (λ out. IsWritten out.status) }
{
    let _ = text;
    let model = model(alloc, f, t, &options.model_options())?;
    let output = found(alloc, f, &model, options.nodes)?;
    Ok(output)
}

/// The report of a function's text.
fn report_of(
    alloc: Global,
    text: &[u8],
    f: &Function,
    options: SearchOptions,
) -> Result<Output, NoMemory>
    requires read { IsRead text.now f.now }
    requires options { AreSearchOptions options }
    ensures report { IfOk result (λ out. IsReportOf (table_of LAST) (model_options options) options.nodes text.now out.status out.text.items) }
    ensures written { IfOk result (λ out. IsWritten out.status) }
{
    let table = table_of(LAST);
    let output = report_by(alloc, text, f, &table, options)?;
    Ok(output)
}

/// How a run of the program ends where there is no outcome.
pub(crate) fn status_by(refused: Refused) -> Status
    ensures { result ≡ status_by refused }
{
    match refused {
        Refused::NoMemory => Status::NoMemory,
        Refused::TextFault { line, code } => Status::TextFault { line, code },
        Refused::BadSecond { line } => Status::BadReport { line },
    }
}

/// What comes of a text that is the whole output.
pub(crate) fn done(text: Vec<u8>) -> Output
    ensures status { result.status ≡ Status.Done }
    ensures text { result.text ≡ text }
{
    Output {
        text,
        status: Status::Done,
    }
}

/// The report of a text.
fn report(alloc: Global, text: &[u8], options: SearchOptions) -> Result<Output, Status>
    requires options { AreSearchOptions options }
    ensures ok { IfOk result (λ out. (of_alloc options).Output text.now out.status out.text.items) }
    ensures written { IfOk result (λ out. IsWritten out.status) }
    ensures refused { IfErr result (RefusesText (of_alloc options) text.now) }
{
    let f = match function_of(alloc, text) {
        Ok(f) => f,
        Err(refused) => return Err(status_by(refused)),
    };
    match report_of(alloc, text, &f, options) {
        Ok(out) => Ok(out),
        Err(_) => Err(Status::NoMemory),
    }
}

/// The outcome of a function from a start.
fn source_output(alloc: Global, text: &[u8]) -> Result<Output, Status>
    requires few { length text.now ≤ INPUT }
    ensures ok { IfOk result (λ out. of_run.Output text.now out.status out.text.items) }
    ensures written { IfOk result (λ out. IsWritten out.status) }
    ensures refused { IfErr result (RefusesText of_run text.now) }
{
    match source_run(alloc, text) {
        Ok(shown) => Ok(done(shown)),
        Err(refused) => Err(status_by(refused)),
    }
}

/// The outcome of code from a start.
fn code_output(alloc: Global, text: &[u8]) -> Result<Output, Status>
    requires few { length text.now ≤ INPUT }
    ensures ok { IfOk result (λ out. of_run_code.Output text.now out.status out.text.items) }
    ensures written { IfOk result (λ out. IsWritten out.status) }
    ensures refused { IfErr result (RefusesText of_run_code text.now) }
{
    match code_run(alloc, text) {
        Ok(shown) => Ok(done(shown)),
        Err(refused) => Err(status_by(refused)),
    }
}

/// The answer to a report on a function.
fn check_output(alloc: Global, text: &[u8]) -> Result<Output, Status>
    requires few { length text.now ≤ INPUT }
    ensures ok { IfOk result (λ out. of_check.Output text.now out.status out.text.items) }
    ensures written { IfOk result (λ out. IsWritten out.status) }
    ensures refused { IfErr result (RefusesText of_check text.now) }
{
    match check_input(alloc, text) {
        Ok(output) => Ok(output),
        Err(refused) => Err(status_by(refused)),
    }
}

/// The answer to the numbers of a schedule of a function.
fn improve_output(alloc: Global, text: &[u8], options: SearchOptions) -> Result<Output, Status>
    requires options { AreSearchOptions options }
    requires few { length text.now ≤ INPUT }
    ensures ok { IfOk result (λ out. (of_improve options).Output text.now out.status out.text.items) }
    ensures written { IfOk result (λ out. IsWritten out.status) }
    ensures refused { IfErr result (RefusesText (of_improve options) text.now) }
{
    match improve_input(alloc, text, options) {
        Ok(output) => Ok(output),
        Err(refused) => Err(status_by(refused)),
    }
}

/// How many bytes the input of a command may have.
fn most_bytes(command: ReadingCommand) -> usize
    ensures { result ≡ (behaviour_of command).most }
{
    match command {
        ReadingCommand::Alloc(_) => TEXT,
        ReadingCommand::Run => INPUT,
        ReadingCommand::RunCode => INPUT,
        ReadingCommand::Check => INPUT,
        ReadingCommand::Improve(_) => INPUT,
        ReadingCommand::AllocTable(_) => INPUT,
        ReadingCommand::CheckTable => INPUT,
        ReadingCommand::RunCodeTable => INPUT,
        ReadingCommand::Refute { .. } => TEXT,
        ReadingCommand::RefuteCheck => INPUT,
        ReadingCommand::Steps { .. } => INPUT,
        ReadingCommand::StepsCheck { .. } => INPUT,
    }
}

/// What a command puts out over an input.
fn over_input(alloc: Global, command: ReadingCommand, text: &[u8]) -> Result<Output, Status>
    requires ranged { IsRanged (Command.Reads command) }
    requires few { length text.now ≤ (behaviour_of command).most }
    ensures ok { IfOk result (λ out. (behaviour_of command).Output text.now out.status out.text.items) }
    ensures written { IfOk result (λ out. IsWritten out.status) }
    ensures refused { IfErr result (RefusesText (behaviour_of command) text.now) }
{
    match command {
        ReadingCommand::Alloc(options) => report(alloc, text, options),
        ReadingCommand::Run => source_output(alloc, text),
        ReadingCommand::RunCode => code_output(alloc, text),
        ReadingCommand::Check => check_output(alloc, text),
        ReadingCommand::Improve(options) => improve_output(alloc, text, options),
        ReadingCommand::AllocTable(options) => table_report(alloc, text, options),
        ReadingCommand::CheckTable => table_check(alloc, text),
        ReadingCommand::RunCodeTable => table_run(alloc, text),
        ReadingCommand::Refute { limit, options } => refute_output(alloc, text, limit, options),
        ReadingCommand::RefuteCheck => refutation_output(alloc, text),
        ReadingCommand::Steps { counts } => steps_output(alloc, text, counts),
        ReadingCommand::StepsCheck { counts } => steps_check_output(alloc, text, counts),
    }
}

/// The input of a command, whole.
fn input_of<S: Source>(
    alloc: Global,
    command: ReadingCommand,
    src: &mut S,
) -> Result<Vec<u8>, Status>
    ensures told { IfOk result (λ text. IfSome (S.left src.old) (λ bs. text.items ≡ bs)) }
    ensures end { OnOk result (IsAtEnd (S.left src.new)) }
    ensures few { IfOk result (λ text. length text.items ≤ (behaviour_of command).most) }
    ensures early { IfErr result (λ s. IsLate s → ⊥) }
    ensures refused { IfErr result (Refuses (behaviour_of command) (S.left src.old) (S.faults src.old) (S.faults src.new)) }
{
    match read_all(alloc, src, most_bytes(command)) {
        Ok(text) => Ok(text),
        Err(ReadAll::ReadFault) => Err(Status::ReadFault),
        Err(ReadAll::TooLong) => Err(Status::TextFault {
            line: 0,
            code: TOO_MANY,
        }),
        Err(ReadAll::NoMemory) => Err(Status::NoMemory),
    }
}

/// What a command puts out over what a source gives.
fn read_and_run<S: Source>(
    alloc: Global,
    command: ReadingCommand,
    src: &mut S,
) -> Result<Output, Status>
    requires ranged { IsRanged (Command.Reads command) }
    ensures ok { IfOk result (λ out. IfSome (S.left src.old) (λ text. (behaviour_of command).Output text out.status out.text.items)) }
    ensures written { IfOk result (λ out. IsWritten out.status) }
    ensures ends { IfOk result (λ out. (behaviour_of command).Ending out.status) }
    ensures end { OnOk result (IsAtEnd (S.left src.new)) }
    ensures end_late { IfErr result (λ s. IsLate s → IsAtEnd (S.left src.new)) }
    ensures refused { IfErr result (Refuses (behaviour_of command) (S.left src.old) (S.faults src.old) (S.faults src.new)) }
{
    let text = match input_of(alloc, command, src) {
        Ok(text) => text,
        Err(status) => return Err(status),
    };
    over_input(alloc, command, text.as_slice())
}

/// The text of a generated function.
fn generated(alloc: Global, seed: u64, size: u32) -> Result<Output, NoMemory>
    requires { IsRanged (Command.Makes (MakingCommand.Generate seed size)) }
    ensures output { IfOk result (λ out. IsMade (MakingCommand.Generate seed size) out.status out.text.items) }
    ensures written { IfOk result (λ out. IsWritten out.status) }
{
    let text = generated_text(alloc, seed, size)?;
    Ok(done(text))
}

/// What a command puts out that reads nothing.
fn made(alloc: Global, command: MakingCommand) -> Result<Output, NoMemory>
    requires { IsRanged (Command.Makes command) }
    ensures output { IfOk result (λ out. IsMade command out.status out.text.items) }
    ensures written { IfOk result (λ out. IsWritten out.status) }
{
    match command {
        MakingCommand::Generate { seed, size } => generated(alloc, seed, size),
        MakingCommand::GenerateAlloc { seed, size, nodes } => {
            generated_report(alloc, seed, size, nodes)
        }
    }
}

/// The same, with want of memory as the status of a run.
fn make(alloc: Global, command: MakingCommand) -> Result<Output, Status>
    requires { IsRanged (Command.Makes command) }
    ensures output { IfOk result (λ out. IsMade command out.status out.text.items) }
    ensures written { IfOk result (λ out. IsWritten out.status) }
    ensures short { IfErr result (λ s. s ≡ Status.NoMemory) }
{
    match made(alloc, command) {
        Ok(output) => Ok(output),
        Err(_) => Err(Status::NoMemory),
    }
}

/// Looks at the words, reads the input and makes the output. Nothing is read where the words are no command, or one that reads nothing.
pub(crate) fn produce<S: Source>(
    alloc: Global,
    words: &[Word],
    src: &mut S,
) -> Result<Output, Status>
    ensures ok { IfOk result (λ out. IfSome (S.left src.old) (λ text. IsOutputOf words.now text out.status out.text.items)) }
    ensures written { IfOk result (λ out. IsWritten out.status) }
    ensures ends { IfOk result (λ out. EndsSo words.now out.status) }
    ensures refused { IfErr result (RefusesWords words.now (S.left src.old) (S.faults src.old) (S.faults src.new)) }
    ensures exactly_usage { (place : ℕ) → IsBadWord words.now place → result ≡ Err (Status.Usage place) }
    ensures made { (command : MakingCommand) → IsCommand words.now (Command.Makes command)
        → IfOk result (λ out. (text : List ℕ) → IsOutputOf words.now text out.status out.text.items) }
    ensures short { (command : MakingCommand) → IsCommand words.now (Command.Makes command) → IfErr result (λ s. s ≡ Status.NoMemory) }
    ensures end { (command : ReadingCommand) → IsCommand words.now (Command.Reads command) → OnOk result (IsAtEnd (S.left src.new)) }
    ensures end_late { (command : ReadingCommand) → IsCommand words.now (Command.Reads command)
        → IfErr result (λ s. IsLate s → IsAtEnd (S.left src.new)) }
    ensures left { (command : MakingCommand) → IsCommand words.now (Command.Makes command) → S.left src.new ≡ S.left src.old }
    ensures calls { (command : MakingCommand) → IsCommand words.now (Command.Makes command) → S.calls src.new ≡ S.calls src.old }
    ensures unread { (place : ℕ) → IsBadWord words.now place → S.left src.new ≡ S.left src.old }
    ensures not_called { (place : ℕ) → IsBadWord words.now place → S.calls src.new ≡ S.calls src.old }
{
    match read_command(words) {
        Ok(Command::Reads(command)) => read_and_run(alloc, command, src),
        Ok(Command::Makes(command)) => make(alloc, command),
        Err(word) => Err(Status::Usage { word }),
    }
}
