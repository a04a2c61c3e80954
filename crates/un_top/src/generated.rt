//! The report of a generated function, behind a line that sums it up.

ghost use Rattle.std.specs.Prelude.{◌≡◌, ◌<◌, ◌++◌, decimal, length, IfOk, OnOk};
ghost use Rattle.un_commands.specs.Commands.{IsRanged};
ghost use Rattle.un_commands.specs.Settings.{IsCountOfNodes};
ghost use Rattle.un_commands.specs.declared.command.Command.{Command};
ghost use Rattle.un_commands.specs.declared.command.MakingCommand.{MakingCommand};
ghost use Rattle.un_problem.specs.Problems.{IsProblemOf, IsExtOf};
ghost use Rattle.un_report.specs.Reports.{report_text};
ghost use Rattle.un_top.specs.Generated.{cost_in, bound_in, op_count, function_words, report_words, summary_line};
ghost use Rattle.un_top.specs.Generated.{IsSummedUp, IsGeneratedReport};
ghost use Rattle.un_top.specs.Runs.{IsWritten};

use crate::output::{Output, status_of};
use crate::search::search_report;
use std::alloc::Global;
use un_base::memory_error::NoMemory;
use un_base::numbers::advance;
use un_commands::command::Command;
use un_gen::generate::generate;
use un_ir::function::{Block, Function};
use un_ir::text::{put_number, put_text};
use un_isa::table::{LAST, table_of};
use un_model::model::Model;
use un_problem::problem::{default_options, model};
use un_report::print::print_report;
use un_report::report::{Answered, Report};

/// The cost of an answer, 0 where there is no code.
fn cost_in(answer: &Answered) -> u64
    ensures { result ≡ cost_in answer.now }
{
    match answer {
        Answered::Code { cost, .. } => *cost,
        Answered::Infeasible => 0,
        Answered::Spent => 0,
    }
}

/// Its bound, 0 where there is no code.
fn bound_in(answer: &Answered) -> u64
    ensures { result ≡ bound_in answer.now }
{
    match answer {
        Answered::Code { bound, .. } => *bound,
        Answered::Infeasible => 0,
        Answered::Spent => 0,
    }
}

/// How many operations blocks have.
fn op_count(blocks: &[Block]) -> Result<u32, NoMemory>
    ensures { IfOk result (λ n. n ≡ op_count blocks.now) }
{
    let mut count = 0;
    for block in blocks {
        count = advance(count, block.ops.len())?;
    }
    Ok(count)
}

/// Appends a word and a number.
fn put_named(out: &mut Vec<u8>, word: &[u8], n: u64) -> Result<(), NoMemory>
    ensures { OnOk result (out.new.items ≡ out.old.items ++ (word.now ++ decimal n)) }
{
    put_text(out, word)?;
    put_number(out, n)
}

/// Appends what is said of a function: its seed and its size, and how many blocks and operations it has.
fn put_function(out: &mut Vec<u8>, seed: u64, size: u32, f: &Function) -> Result<(), NoMemory>
    ensures { OnOk result (out.new.items ≡ out.old.items ++ function_words seed size f.now) }
{
    let ops = op_count(f.blocks.as_slice())?;
    put_named(out, b"seed ", seed)?;
    put_named(out, b" size ", u64::from(size))?;
    put_named(out, b" blocks ", f.blocks.len() as u64)?;
    put_named(out, b" operations ", u64::from(ops))
}

/// Appends what is said of a report: its cost, its bound and its nodes, which in a tree without parts are outer ones.
fn put_report(out: &mut Vec<u8>, r: &Report) -> Result<(), NoMemory>
    ensures { OnOk result (out.new.items ≡ out.old.items ++ report_words r.now (length r.now.tree.nodes.items)) }
{
    put_named(out, b" cost ", cost_in(&r.answer))?;
    put_named(out, b" bound ", bound_in(&r.answer))?;
    put_named(out, b" nodes ", r.tree.nodes.len() as u64)?;
    put_text(out, b"\n")
}

/// The summary line and the report of a function.
fn summed_up(
    alloc: Global,
    seed: u64,
    size: u32,
    f: &Function,
    r: &Report,
) -> Result<Vec<u8>, NoMemory>
    ensures { IfOk result (λ text. text.items
        ≡ summary_line seed size f.now r.now (length r.now.tree.nodes.items) ++ report_text r.now) }
{
    let report = print_report(alloc, r)?;
    let mut out = Vec::new(alloc);
    put_function(&mut out, seed, size, f)?;
    put_report(&mut out, r)?;
    put_text(&mut out, report.as_slice())?;
    Ok(out)
}

/// The report of a search for code of a generated function, whose model this is.
fn searched(
    alloc: Global,
    seed: u64,
    size: u32,
    nodes: u32,
    f: &Function,
    m: &Model,
) -> Result<Output, NoMemory>
    requires problem { IsProblemOf f.now m.now }
    requires nodes { IsCountOfNodes nodes }
    ensures summed { IfOk result (λ out. (e : IsExtOf m.now.ext.table f.now m.now.ext)
        → IsSummedUp seed size nodes f.now m.now e.live out.status out.text.items) }
    ensures written { IfOk result (λ out. IsWritten out.status) }
{
    let report = search_report(alloc, f, m, nodes)?;
    let text = summed_up(alloc, seed, size, f, &report)?;
    Ok(Output {
        text,
        status: status_of(&report.answer),
    })
}

/// The report of a search with so many nodes for code of the function that a seed and a size generate, behind a line that sums it up.
///
/// # Errors
/// `NoMemory` where there is no memory for the search or the code.
pub(crate) fn generated_report(
    alloc: Global,
    seed: u64,
    size: u32,
    nodes: u32,
) -> Result<Output, NoMemory>
    requires { IsRanged (Command.Makes (MakingCommand.GenerateAlloc seed size nodes)) }
    ensures report { IfOk result (λ out. IsGeneratedReport seed size nodes out.status out.text.items) }
    ensures written { IfOk result (λ out. IsWritten out.status) }
{
    let f = generate(alloc, seed, size)?;
    let m = model(alloc, &f, &table_of(LAST), &default_options())?;
    let output = searched(alloc, seed, size, nodes, &f, &m)?;
    Ok(output)
}
