//! Reports as text. Each function that appends has `NoMemory` where it finds no room.

ghost use Rattle.std.specs.Prelude.{◌≡◌, ◌++◌, ◌<◌, ◌-◌, ◌^◌, OnOk, IfOk, length};
ghost use Rattle.un_listing.specs.Listing.{code_lines, code_text};
ghost use Rattle.un_report.specs.Reports.{after_number, numbers_text, regs_text, model_text, solution_text, listing_text, costs_text};
ghost use Rattle.un_report.specs.Reports.{answer_text, tree_part, head_text, report_text};

use crate::report::{Answered, NUMBERS, Report};
use std::alloc::Global;
use un_base::memory_error::NoMemory;
use un_base::numbers::{advance, later};
use un_ir::text::{put_number, put_text};
use un_listing::print::print_code;
use un_model::model::{Options, Solution};
use un_packet::code::Code;
use un_tree::node::Tree;
use un_tree::print::put_tree;

/// What stands after the number at place `k` of so many.
fn after_number(k: usize, count: usize) -> &'static [u8]
    requires { k < 2 ^ 64 - 1 }
    ensures { result.now ≡ after_number count k }
{
    if (k + 1) % NUMBERS == 0 || k + 1 == count {
        b"\n"
    } else {
        b" "
    }
}

/// Appends numbers, so many on a line.
fn put_numbers(out: &mut Vec<u8>, values: &[u32]) -> Result<(), NoMemory>
    ensures { OnOk result (out.new.items ≡ out.old.items ++ numbers_text values.now) }
{
    for (k, value) in values.iter().enumerate() {
        put_number(out, u64::from(*value))?;
        put_text(out, after_number(k, values.len()))?;
    }
    Ok(())
}

/// Appends the numbers of a solution.
fn put_solution(out: &mut Vec<u8>, s: &Solution) -> Result<(), NoMemory>
    ensures { OnOk result (out.new.items ≡ out.old.items ++ solution_text s.now.values) }
{
    put_text(out, b"solution ")?;
    put_number(out, s.values.len() as u64)?;
    put_text(out, b"\n")?;
    put_numbers(out, s.values.as_slice())
}

/// How many lines the listing of code has.
fn line_count(c: &Code) -> Result<u32, NoMemory>
    ensures { IfOk result (λ n. n ≡ length (code_lines c.now)) }
{
    let mut count = 1;
    for block in c.blocks.as_slice() {
        let label = later(count, 1)?;
        count = advance(label, block.packets.len())?;
    }
    Ok(count)
}

/// Appends the listing of code, with the number of its lines before it.
fn put_listing(alloc: Global, out: &mut Vec<u8>, c: &Code) -> Result<(), NoMemory>
    ensures { OnOk result (out.new.items ≡ out.old.items ++ listing_text c.now) }
{
    let count = line_count(c)?;
    put_text(out, b"listing ")?;
    put_number(out, u64::from(count))?;
    put_text(out, b"\n")?;
    let listing = print_code(alloc, c)?;
    put_text(out, listing.as_slice())
}

/// Appends how many registers there are.
fn put_regs(out: &mut Vec<u8>, regs: Option<u32>) -> Result<(), NoMemory>
    ensures { OnOk result (out.new.items ≡ out.old.items ++ regs_text regs) }
{
    match regs {
        None => put_text(out, b"all"),
        Some(n) => put_number(out, u64::from(n)),
    }
}

/// Appends the line of the options and of the number of nodes.
fn put_model(out: &mut Vec<u8>, options: &Options, nodes: u32) -> Result<(), NoMemory>
    ensures { OnOk result (out.new.items ≡ out.old.items ++ model_text options.now nodes) }
{
    put_text(out, b"model regs ")?;
    put_regs(out, options.regs)?;
    put_text(out, b" slots ")?;
    put_number(out, u64::from(options.slots))?;
    put_text(out, b" nodes ")?;
    put_number(out, u64::from(nodes))?;
    put_text(out, b"\n")
}

/// Appends the lines of a cost and a bound of it.
fn put_costs(out: &mut Vec<u8>, cost: u64, bound: u64) -> Result<(), NoMemory>
    ensures { OnOk result (out.new.items ≡ out.old.items ++ costs_text cost bound) }
{
    put_text(out, b"answer code\ncost ")?;
    put_number(out, cost)?;
    put_text(out, b"\nbound ")?;
    put_number(out, bound)?;
    put_text(out, b"\n")
}

/// Appends the lines of an answer.
fn put_answer(alloc: Global, out: &mut Vec<u8>, answer: &Answered) -> Result<(), NoMemory>
    ensures { OnOk result (out.new.items ≡ out.old.items ++ answer_text answer.now) }
{
    match answer {
        Answered::Code {
            cost,
            bound,
            code,
            solution,
        } => {
            put_costs(out, *cost, *bound)?;
            put_listing(alloc, out, code)?;
            put_solution(out, solution)
        }
        Answered::Infeasible => put_text(out, b"answer infeasible\n"),
        Answered::Spent => put_text(out, b"answer spent\n"),
    }
}

/// Appends the lines of a tree, and the last line.
fn put_tree_part(alloc: Global, out: &mut Vec<u8>, t: &Tree) -> Result<(), NoMemory>
    ensures { OnOk result (out.new.items ≡ out.old.items ++ tree_part t.now.nodes.items) }
{
    put_text(out, b"tree ")?;
    put_number(out, t.nodes.len() as u64)?;
    put_text(out, b"\n")?;
    put_tree(alloc, out, t)?;
    put_text(out, b"end\n")
}

/// Appends the lines before the answer.
fn put_head(out: &mut Vec<u8>, r: &Report) -> Result<(), NoMemory>
    ensures { OnOk result (out.new.items ≡ out.old.items ++ head_text r.now) }
{
    put_text(out, b"unison ")?;
    put_number(out, u64::from(r.version))?;
    put_text(out, b"\nfunction ")?;
    put_text(out, r.name.as_bytes())?;
    put_text(out, b"\n")?;
    put_model(out, &r.options, r.nodes)
}

/// Appends a report.
fn put_report(alloc: Global, out: &mut Vec<u8>, r: &Report) -> Result<(), NoMemory>
    ensures { OnOk result (out.new.items ≡ out.old.items ++ report_text r.now) }
{
    put_head(out, r)?;
    put_answer(alloc, out, &r.answer)?;
    put_tree_part(alloc, out, &r.tree)
}

/// The text of a report: its version, the function's name, options and nodes; the answer, for code with its cost, its bound, its listing
/// and the numbers of its solution; and the tree.
///
/// # Errors
/// `NoMemory` where there is no memory for the text.
pub fn print_report(alloc: Global, r: &Report) -> Result<Vec<u8>, NoMemory>
    ensures { IfOk result (λ text. text.items ≡ report_text r.now) }
{
    let mut out = Vec::new(alloc);
    put_report(alloc, &mut out, r)?;
    Ok(out)
}
