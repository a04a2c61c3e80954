//! Attempts and searches of functions: values from outside, worked out by hand or counted by another program.

ghost use Rattle.std.specs.Prelude.{◌<◌, IfOk};
ghost use Rattle.un_model.specs.Options.{AreOptions};
ghost use Rattle.tests_top.specs.Searches.{IsSearchable};

use crate::rows::{number_at, wrong_row};
use std::alloc::Global;
use un_base::memory_error::NoMemory;
use un_ir::text::{put_number, put_text};
use un_isa::reg::SLOTS;
use un_isa::table::hexagon;
use un_model::cost::cost;
use un_model::model::{Model, Options};
use un_problem::problem::model;
use un_reader::read::read_function;
use un_search::attempt::{Tried, attempt};
use un_search::solve::{Answer, solve};
use un_tree::node::Tree;

/// Functions, and what a search with so many nodes finds, without a start and under so many registers, or under all where there is no
/// second number: the cost and the bound of code, or why there is none, with the nodes of the tree. Then what an attempt finds with so
/// many nodes, under a limit where there is a second number.
static SEARCHES: &[u8] = b"func f
block e freq 1
  ret
?solve 2000:code 1 1\
|&?tries 2000:found 1\
|&?tries 2000 2:found 1\
|&?tries 2000 1:refuted 1\
|&?tries 1 7:cut 1 1\
|&?solve 1:spent 1\
|func g %a %b
block e freq 10
  %c = add %a, %b
  ret %c
?solve 2000:code 10 10\
|func e
block a freq 3
block b freq 7
block c freq 2
  ret
?solve 2000:code 2 2\
|func s
block e freq 1
  %a = imm #1
  %b = imm #2
  %c = imm #3
  %d = imm #4
  %e = imm #5
  %p = add %a, %b
  %q = add %c, %d
  %r = add %p, %q
  %t = add %r, %e
  ret %t
?solve 2000:code 4 4\
|# A sum whose operands have no two registers where there is only one.\
|func two
block e freq 1
  %a = imm #1
  %b = imm #2
  %c = add %a, %b
  ret %c
?solve 2000 1:infeasible 1\
|&?solve 1 1:infeasible 1";

/// The options of a question: so many registers, or all.
pub(crate) fn options(question: &[u8]) -> Options
    ensures { AreOptions result }
{
    let regs = number_at(question, 2);
    Options {
        regs: if regs == 1 { Some(1) } else { None },
        slots: SLOTS,
    }
}

/// The number of nodes, or of trials, of a question.
pub(crate) fn nodes(question: &[u8]) -> u32
    ensures { 0 < result }
{
    match u32::try_from(number_at(question, 1)) {
        Ok(n) => n.max(1),
        Err(_) => 1,
    }
}

/// The limit of a question, where it has one.
fn limit(question: &[u8]) -> Option<u64> {
    match number_at(question, 2) {
        u64::MAX => None,
        n => Some(n),
    }
}

/// The model of the function that a text is, under options.
pub(crate) fn model_under(
    alloc: Global,
    function: &[u8],
    options: &Options,
) -> Result<Model, NoMemory>
    requires { AreOptions options.now }
    ensures { IfOk result IsSearchable }
{
    let Ok(f) = read_function(alloc, function) else {
        return Err(NoMemory);
    };
    model(alloc, &f, &hexagon(), options)
}

/// Appends a word and a number.
pub(crate) fn put_part(out: &mut Vec<u8>, word: &[u8], n: u64) -> Result<(), NoMemory> {
    put_text(out, word)?;
    put_number(out, n)
}

/// How many nodes a tree has.
fn count(tree: &Tree) -> u64 {
    tree.nodes.len() as u64
}

/// Appends what a search found.
fn put_search(out: &mut Vec<u8>, answer: &Answer) -> Result<(), NoMemory> {
    match answer {
        Answer::Code {
            solution: _,
            cost,
            bound,
            tree: _,
        } => {
            put_part(out, b"code ", *cost)?;
            put_part(out, b" ", *bound)
        }
        Answer::Infeasible(tree) => put_part(out, b"infeasible ", count(tree)),
        Answer::Spent(tree) => put_part(out, b"spent ", count(tree)),
    }
}

/// Appends what a search for a function finds.
pub(crate) fn put_solved(
    alloc: Global,
    out: &mut Vec<u8>,
    function: &[u8],
    question: &[u8],
) -> Result<(), NoMemory> {
    let m = model_under(alloc, function, &options(question))?;
    let answer = solve(alloc, &m, None, nodes(question))?;
    put_search(out, &answer)
}

/// Appends what an attempt found.
fn put_attempt(out: &mut Vec<u8>, m: &Model, tried: &Tried) -> Result<(), NoMemory>
    requires { IsSearchable m.now }
{
    match tried {
        Tried::Found(solution) => put_part(out, b"found ", cost(m, solution)),
        Tried::Refuted(tree) => put_part(out, b"refuted ", count(tree)),
        Tried::Cut { tree, least } => {
            put_part(out, b"cut ", count(tree))?;
            put_part(out, b" ", *least)
        }
    }
}

/// Appends what an attempt at a function finds.
pub(crate) fn put_tried(
    alloc: Global,
    out: &mut Vec<u8>,
    function: &[u8],
    question: &[u8],
) -> Result<(), NoMemory> {
    let m = model_under(alloc, function, &options(b""))?;
    let tried = attempt(alloc, &m, limit(question), nodes(question))?;
    put_attempt(out, &m, &tried)
}

#[test]
fn searches_find_what_is_wanted(rt: HostRuntime) {
    let wrong = wrong_row(rt.alloc(), SEARCHES);
    assert!(rt; wrong.is_empty(), "{wrong}");
}
