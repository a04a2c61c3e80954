//! Runs and generated functions as text.

ghost use Rattle.std.specs.Prelude.{◌≡◌, ◌<◌, ◌≤◌, ◌^◌, true, count_by, take, IfOk, IfErr};
ghost use Rattle.std.specs.List.{concat};
ghost use Rattle.un_base.specs.Lines.{is_line_feed, pieces_of};
ghost use Rattle.un_ir.specs.declared.function.TheConstants.{BLOCKS};
ghost use Rattle.un_isa.specs.Fit.{IsFit};
ghost use Rattle.un_isa.specs.Hexagon.{HEXAGON};
ghost use Rattle.un_listing_reader.specs.Reading.{IsListingOf};
ghost use Rattle.un_reader.specs.Read.{IsRead};
ghost use Rattle.un_start.specs.StartTexts.{IsStartText, IsFirstBad};
ghost use Rattle.un_runs.specs.declared.refused.Refused.TheVariants as Refused;
ghost use Rattle.un_runs.specs.Refusals.{RefusesFunction, RefusesStart, RefusesListing, IsTight, RefusesFor, RefusesSource, RefusesRun, RefusesCode};
ghost use Rattle.un_runs.specs.Shown.{has_room, IsRunOf, IsSourceRun, IsRunOfCode, IsRunOfListing, IsCodeRun, IsGeneratedText};

use crate::input::split;
use crate::refused::{Refused, function_refused, listing_refused, start_refused};
use std::alloc::Global;
use un_base::memory_error::NoMemory;
use un_base::numbers::number;
use un_gen::generate::generate;
use un_ir::function::{BLOCKS, Function};
use un_ir::print::print_function;
use un_isa::reg::{REGISTERS, STACK};
use un_isa::start::Start;
use un_isa::table::{Table, hexagon};
use un_listing_reader::read::read_code;
use un_outcome::print::print_outcome;
use un_packet::code::Code;
use un_packet::run::run_packets;
use un_reader::read::read_function;
use un_source::run::run_source;
use un_start::read::{StartError, read_start};
use un_words::pieces::first_len;

/// The function of a text.
///
/// # Errors
/// Why the text is refused, or that there is no memory.
#[tactic(auto, using(crate::proofs::RunLaws::function_is_refused))]
pub fn function_of(alloc: Global, text: &[u8]) -> Result<Function, Refused>
    ensures ok { IfOk result (IsRead text.now) }
    ensures refused { IfErr result (RefusesFunction text.now) }
{
    match read_function(alloc, text) {
        Ok(f) => Ok(f),
        Err(error) => Err(function_refused(error)),
    }
}

/// The start of a text, with the number of blocks.
#[tactic(auto, using(crate::proofs::RunLaws::start_is_refused))]
fn start_of(alloc: Global, text: &[u8]) -> Result<(Start, u32), Refused>
    ensures ok { IfOk result (λ read. IsStartText text.now read.0 read.1) }
    ensures refused { IfErr result (RefusesStart text.now) }
{
    match read_start(alloc, text) {
        Ok(read) => Ok(read),
        Err(error) => Err(start_refused(error)),
    }
}

/// The code of a listing.
#[tactic(auto, using(crate::proofs::RunLaws::listing_is_refused))]
fn code_of(alloc: Global, text: &[u8]) -> Result<Code, Refused>
    ensures ok { IfOk result (IsListingOf text.now) }
    ensures refused { IfErr result (RefusesListing text.now) }
{
    match read_code(alloc, text) {
        Ok(code) => Ok(code),
        Err(error) => Err(listing_refused(error)),
    }
}

/// What a function comes to from the start of a text.
fn run_of(alloc: Global, f: &Function, text: &[u8]) -> Result<Vec<u8>, Refused>
    ensures ok { IfOk result (λ out. IsRunOf f.now text.now out.items) }
    ensures refused { IfErr result (RefusesStart text.now) }
{
    let (start, count) = start_of(alloc, text)?;
    let outcome = run_source(alloc, f, &start, count)?;
    let out = print_outcome(alloc, f.names.as_slice(), &outcome)?;
    Ok(out)
}

/// What the function in the first part of an input comes to from the start in the second one.
///
/// # Errors
/// `TextFault` with the first fault of the function's text; `BadSecond` with the first bad line of the start; `NoMemory` where there is no
/// memory for the run.
pub fn source_run(alloc: Global, input: &[u8]) -> Result<Vec<u8>, Refused>
    ensures ok { IfOk result (λ out. IsSourceRun input.now out.items) }
    ensures refused { IfErr result (RefusesSource input.now) }
{
    let parts = split(input);
    let f = function_of(alloc, parts.first)?;
    let out = run_of(alloc, &f, parts.second)?;
    Ok(out)
}

/// Whether the stack pointer is a multiple of 8 with room for a frame below it.
fn has_room(frame: u32, regs: &[u32; REGISTERS as usize]) -> bool
    ensures { result ≡ has_room frame regs.now }
{
    let stack = regs[STACK as usize];
    stack % 8 == 0 && frame <= stack
}

/// How many line feeds a text has.
fn feed_count(text: &[u8]) -> usize
    ensures { result ≡ count_by is_line_feed text.now }
{
    text.iter().filter(|b| **b == b'\n').count()
}

/// The answer where a start has no room.
fn no_room(text: &[u8]) -> Refused
    ensures tight { IsTight text.now result }
    ensures exact { count_by is_line_feed text.now < 2 ^ 32 → result ≡ Refused.BadSecond (count_by is_line_feed text.now) }
{
    match number(feed_count(text)) {
        Ok(line) => Refused::BadSecond { line },
        Err(_) => Refused::NoMemory,
    }
}

/// The first lines of a text, so many, all where it has fewer.
fn first_lines(text: &[u8], count: u32) -> &[u8]
    ensures { result.now ≡ concat (take count (pieces_of text.now)) }
{
    let mut rest = text;
    let mut left = count;
    while left > 0 {
        if rest.is_empty() {
            return text;
        }
        let (_, behind) = rest.split_at(first_len(rest));
        rest = behind;
        left -= 1;
    }
    &text[..text.len() - rest.len()]
}

/// The answer where this is the first line of a text that does not stand where a start's may: the line before it is bad where those up to
/// there are a start without room for the frame.
fn refused_at(alloc: Global, frame: u32, text: &[u8], line: u32) -> Refused
    requires { IsFirstBad text.now line }
    ensures { RefusesFor frame text.now result }
{
    let front = first_lines(text, line - 1);
    match read_start(alloc, front) {
        Ok((start, _)) => {
            if has_room(frame, &start.regs) {
                Refused::BadSecond { line }
            } else {
                no_room(front)
            }
        }
        Err(StartError::NoMemory) => Refused::NoMemory,
        Err(StartError::BadStart { .. }) => Refused::BadSecond { line },
    }
}

/// The start of a text, with the number of blocks, where it has room for a frame.
fn roomy_start(alloc: Global, frame: u32, text: &[u8]) -> Result<(Start, u32), Refused>
    ensures ok { IfOk result (λ read. IsStartText text.now read.0 read.1) }
    ensures room { IfOk result (λ read. has_room frame read.0.regs ≡ true) }
    ensures refused { IfErr result (RefusesFor frame text.now) }
{
    match read_start(alloc, text) {
        Ok((start, count)) => {
            if has_room(frame, &start.regs) {
                Ok((start, count))
            } else {
                Err(no_room(text))
            }
        }
        Err(StartError::NoMemory) => Err(Refused::NoMemory),
        Err(StartError::BadStart { line }) => Err(refused_at(alloc, frame, text, line)),
    }
}

/// What code comes to by a table of the processor from the start of a text.
fn code_run_of(alloc: Global, t: &Table, code: &Code, text: &[u8]) -> Result<Vec<u8>, Refused>
    requires fit { IsFit t.now }
    ensures ok { IfOk result (λ out. IsRunOfCode t.now code.now text.now out.items) }
    ensures refused { IfErr result (RefusesFor code.now.frame text.now) }
{
    let (start, count) = roomy_start(alloc, code.frame, text)?;
    let outcome = run_packets(alloc, code, t, &start, count)?;
    let out = print_outcome(alloc, &[], &outcome)?;
    Ok(out)
}

/// What the code of a listing comes to by a table of the processor from the start of a text.
///
/// # Errors
/// `BadSecond` with the first bad line of the listing, counted there, else with that of the start, whose last line is bad where the stack
/// pointer is no multiple of 8 or has no room for the code's frame, also where more lines stand behind it; `NoMemory` where there is no
/// memory for the run.
pub fn code_run_by(
    alloc: Global,
    t: &Table,
    listing: &[u8],
    text: &[u8],
) -> Result<Vec<u8>, Refused>
    requires fit { IsFit t.now }
    ensures ok { IfOk result (λ out. IsRunOfListing t.now listing.now text.now out.items) }
    ensures refused { IfErr result (RefusesRun listing.now text.now) }
{
    let code = code_of(alloc, listing)?;
    let out = code_run_of(alloc, t, &code, text)?;
    Ok(out)
}

/// What the code whose listing is the first part of an input comes to from the start in the second one, by the machine's table.
///
/// # Errors
/// Those of `code_run_by` for the two parts.
pub fn code_run(alloc: Global, input: &[u8]) -> Result<Vec<u8>, Refused>
    ensures ok { IfOk result (λ out. IsCodeRun HEXAGON input.now out.items) }
    ensures refused { IfErr result (RefusesCode input.now) }
{
    let parts = split(input);
    code_run_by(alloc, &hexagon(), parts.first, parts.second)
}

/// The text of the function of so many blocks, 1 to 16, that a seed generates.
///
/// # Errors
/// `NoMemory` where there is no memory for it.
pub fn generated_text(alloc: Global, seed: u64, size: u32) -> Result<Vec<u8>, NoMemory>
    requires some { 0 < size }
    requires few { size ≤ BLOCKS }
    ensures { IfOk result (λ out. IsGeneratedText seed size out.items) }
{
    let f = generate(alloc, seed, size)?;
    let text = print_function(alloc, &f)?;
    Ok(text)
}
