//! Runs of an example and of its code, beside what its twin in C does.

ghost use Rattle.std.specs.Prelude.{◌≡◌, ℕ, List, IfOk, true};
ghost use Rattle.std.specs.List.{list_all};
ghost use Rattle.un_isa.specs.Starts.{is_reply};
ghost use Rattle.un_problem.specs.Problems.{IsProblemOf};

use crate::rows::{ROWS, Row, row_for};
use std::alloc::{AllocError, Global};
use un_base::lines::lines;
use un_base::memory_error::NoMemory;
use un_ir::function::Function;
use un_isa::memory::Memory;
use un_isa::outcome::{End, Outcome};
use un_isa::reg::{LINK, REGISTERS, STACK};
use un_isa::start::{Reply, Start};
use un_isa::table::{LAST, hexagon, table_of};
use un_lists::items::Items;
use un_model::model::Model;
use un_packet::code::Code;
use un_packet::run::run_packets;
use un_problem::problem::{default_options, model};
use un_reader::read::read_function;
use un_report::report::{Answered, Report};
use un_source::run::run_source;
use un_top::search::search_report;

/// Where the words of a row stand.
const BASE: u32 = 256;

/// What the called functions give, call after call.
static GIVEN: [u32; 3] = [10, 4294967295, 30];

/// How many nodes a search has.
const NODES: u32 = 2_000;

/// How many blocks are entered at most.
const ENTERED: u32 = 1000;

/// The words with their addresses.
fn addressed(alloc: Global, words: &[u32]) -> Result<Vec<(u32, u32)>, AllocError> {
    let mut pairs = Vec::new(alloc);
    let mut address = BASE;
    for word in words {
        pairs.push((address, *word))?;
        address = address.saturating_add(4);
    }
    Ok(pairs)
}

/// The memory with these words.
fn memory_of(alloc: Global, words: &[u32]) -> Result<Memory, NoMemory> {
    match Memory::new(addressed(alloc, words)?) {
        Some(memory) => Ok(memory),
        None => Err(NoMemory),
    }
}

/// A reply that changes no memory and leaves no junk.
fn reply(alloc: Global, given: u32) -> Reply
    ensures { (memory : List (ℕ × ℕ)) → is_reply memory result ≡ true }
{
    Reply {
        result: given,
        changed: Items::new(alloc),
        junk: [0; REGISTERS as usize],
    }
}

/// The replies of the called functions.
fn replies_of(alloc: Global, memory: &Memory) -> Result<Items<Reply>, NoMemory>
    ensures { IfOk result (λ replies. list_all (is_reply memory.now) replies ≡ true) }
{
    let _ = memory;
    let mut replies = Items::new(alloc);
    replies.push(reply(alloc, GIVEN[0]))?;
    replies.push(reply(alloc, GIVEN[1]))?;
    replies.push(reply(alloc, GIVEN[2]))?;
    Ok(replies)
}

/// The start of a row, with room for a frame.
fn start_of(alloc: Global, row: &Row) -> Result<Start, NoMemory> {
    let memory = memory_of(alloc, &row[3..11])?;
    let replies = replies_of(alloc, &memory)?;
    let mut regs = [0; REGISTERS as usize];
    regs[0] = row[0];
    regs[1] = row[1];
    regs[2] = row[2];
    regs[STACK as usize] = 4096;
    regs[LINK as usize] = 64;
    Ok(Start {
        regs,
        memory,
        replies,
    })
}

/// Whether a run returned.
fn returned(outcome: &Outcome) -> bool {
    match outcome.end {
        End::Returned { .. } => true,
        _ => false,
    }
}

/// The result of a run, where it returned with one.
fn result_of(outcome: &Outcome) -> Option<u32> {
    match outcome.end {
        End::Returned { result, .. } => result,
        _ => None,
    }
}

/// Whether these are the words of a row behind its run.
fn are_after(words: &[(u32, u32)], row: &Row) -> bool {
    if words.len() != 8 {
        return false;
    }
    for i in 0..8usize {
        if words[i].1 != row[12 + i] {
            return false;
        }
    }
    true
}

/// Whether memory has the words of a row behind its run, and it made as many calls.
fn leaves(outcome: &Outcome, row: &Row) -> bool {
    are_after(outcome.memory.words(), row) && outcome.calls.len() == row[20] as usize
}

/// Whether both runs return what a row says. Code leaves a value in r0 too where its function has no result.
fn return_as(source: &Outcome, packets: &Outcome, row: &Row) -> bool {
    match result_of(source) {
        Some(result) => result == row[11] && result_of(packets) == Some(result),
        None => row[11] == 0 && returned(source) && returned(packets),
    }
}

/// Whether code runs from a start as a row says, where its function ran so.
fn code_runs(
    alloc: Global,
    code: &Code,
    start: &Start,
    source: &Outcome,
    row: &Row,
) -> Result<bool, NoMemory> {
    let packets = run_packets(alloc, code, &hexagon(), start, ENTERED)?;
    Ok(return_as(source, &packets, row) && leaves(source, row) && leaves(&packets, row))
}

/// Whether a function and its code run from a start as a row says.
fn both_run(
    alloc: Global,
    f: &Function,
    code: &Code,
    start: &Start,
    row: &Row,
) -> Result<bool, NoMemory> {
    let source = run_source(alloc, f, start, ENTERED)?;
    code_runs(alloc, code, start, &source, row)
}

/// Whether a function and its code run as a row says.
fn run_as(alloc: Global, f: &Function, code: &Code, row: &Row) -> Result<bool, NoMemory> {
    let start = start_of(alloc, row)?;
    both_run(alloc, f, code, &start, row)
}

/// How many rows of this name a function and its code do not run as, out of how many.
fn wrong_rows(
    alloc: Global,
    name: &[u8],
    f: &Function,
    code: &Code,
) -> Result<(usize, usize), NoMemory> {
    let mut wrong = 0usize;
    let mut all = 0usize;
    for line in lines(ROWS.as_bytes()) {
        if let Some(row) = row_for(line, name) {
            all = all.saturating_add(1);
            if !run_as(alloc, f, code, &row)? {
                wrong = wrong.saturating_add(1);
            }
        }
    }
    Ok((wrong, all))
}

/// The same of a function and the code of a report on it, where it has some.
fn wrong_of_report(
    alloc: Global,
    name: &[u8],
    f: &Function,
    report: &Report,
) -> Result<(usize, usize), NoMemory> {
    match &report.answer {
        Answered::Code { code, .. } => wrong_rows(alloc, name, f, code),
        _ => Ok((1, 1)),
    }
}

/// The same of a function and the code that a search makes for it.
fn wrong_of_model(
    alloc: Global,
    name: &[u8],
    f: &Function,
    m: &Model,
) -> Result<(usize, usize), NoMemory>
    requires { IsProblemOf f.now m.now }
{
    let report = search_report(alloc, f, m, NODES)?;
    wrong_of_report(alloc, name, f, &report)
}

/// The same of a function and the code that is made for it.
fn wrong_of(alloc: Global, name: &[u8], f: &Function) -> Result<(usize, usize), NoMemory> {
    let m = model(alloc, f, &table_of(LAST), &default_options())?;
    wrong_of_model(alloc, name, f, &m)
}

/// How many rows of this name the function of a text and its code do not run as, out of how many; of a text with a fault none run.
pub(crate) fn wrong_runs(
    alloc: Global,
    name: &[u8],
    text: &[u8],
) -> Result<(usize, usize), NoMemory> {
    match read_function(alloc, text) {
        Ok(f) => wrong_of(alloc, name, &f),
        Err(_) => Ok((0, 0)),
    }
}
