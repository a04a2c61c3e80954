//! What code costs with each number of registers.

ghost use Rattle.std.specs.Prelude.{◌≤◌, ◌<◌, IfOk, IfSome};
ghost use Rattle.un_isa.specs.Fit.{IsFit};
ghost use Rattle.un_model.specs.Options.{AreOptions};
ghost use Rattle.un_model.specs.Solutions.{IsSolution};
ghost use Rattle.un_problem.specs.Problems.{IsProblemOf};

use std::alloc::Global;
use un_base::memory_error::NoMemory;
use un_baseline::roomy::is_roomy;
use un_baseline::spill::spill_everywhere;
use un_ir::function::Function;
use un_ir::text::put_text;
use un_isa::table::Table;
use un_model::model::{ASSIGNABLE, Model, Options, Solution};
use un_problem::problem::model;
use un_search::solve::{Answer, solve};
use un_shown::text::put_between;
use un_violations::violations::violations;

/// How many registers code may use where no option says it: those that an option may name, and the link register.
pub const ALL: u32 = ASSIGNABLE + 1;

/// These options with so many registers.
pub(crate) fn with_registers(options: &Options, registers: u32) -> Options
    requires options { AreOptions options.now }
    requires some { 1 ≤ registers }
    ensures { AreOptions result }
{
    if registers > ASSIGNABLE {
        return Options {
            regs: None,
            slots: options.slots,
        };
    }
    Options {
        regs: Some(registers),
        slots: options.slots,
    }
}

/// The solution that keeps each name in a frame slot of its own, where the options have room for it.
fn kept_in_slots(alloc: Global, f: &Function, m: &Model) -> Result<Option<Solution>, NoMemory>
    requires problem { IsProblemOf f.now m.now }
    ensures { IfOk result (λ s. IfSome s (λ s. IsSolution m.now s)) }
{
    if !is_roomy(f, &m.options) {
        return Ok(None);
    }
    let s = spill_everywhere(alloc, m)?;
    Ok(Some(s))
}

/// What a search starts from: the last solution, where it is one of this model too, and else the one that keeps each name in a slot.
fn start(
    alloc: Global,
    f: &Function,
    m: &Model,
    last: Option<Solution>,
) -> Result<Option<Solution>, NoMemory>
    requires problem { IsProblemOf f.now m.now }
    ensures { IfOk result (λ s. IfSome s (λ s. IsSolution m.now s)) }
{
    if let Some(s) = last {
        let broken = violations(alloc, m, &s)?;
        if broken.is_empty() {
            return Ok(Some(s));
        }
    }
    kept_in_slots(alloc, f, m)
}

/// What a search with at most so many nodes answers for a function under options, from the last solution on.
pub fn answer_of(
    alloc: Global,
    f: &Function,
    t: &Table,
    options: &Options,
    last: Option<Solution>,
    nodes: u32,
) -> Result<Answer, NoMemory>
    requires fit { IsFit t.now }
    requires options { AreOptions options.now }
    requires some { 0 < nodes }
{
    let m = model(alloc, f, t, options)?;
    let start = start(alloc, f, &m, last)?;
    solve(alloc, &m, start, nodes)
}

/// Appends what an answer says, and answers its solution.
fn put_answer(out: &mut Vec<u8>, answer: Answer) -> Result<Option<Solution>, NoMemory> {
    match answer {
        Answer::Code {
            solution,
            cost,
            bound,
            tree: _,
        } => {
            put_between(out, b" cost ", cost, b"")?;
            put_between(out, b" bound ", bound, b"\n")?;
            Ok(Some(solution))
        }
        Answer::Infeasible(_) => {
            put_text(out, b" none\n")?;
            Ok(None)
        }
        Answer::Spent(_) => {
            put_text(out, b" open\n")?;
            Ok(None)
        }
    }
}

/// Appends for so many registers how many they are.
fn put_registers(out: &mut Vec<u8>, registers: u32) -> Result<(), NoMemory> {
    if registers < ALL {
        put_between(out, b"regs ", u64::from(registers), b"")
    } else {
        put_text(out, b"regs all")
    }
}

/// Appends a line for each number of registers: what the best code that a search with at most so many nodes finds costs, and what no code
/// costs less than; or that there is none, or that none was found. Each search begins with the solution of the one before, so that costs
/// never rise.
pub(crate) fn put_sweep(
    alloc: Global,
    out: &mut Vec<u8>,
    f: &Function,
    t: &Table,
    options: &Options,
    nodes: u32,
) -> Result<(), NoMemory>
    requires fit { IsFit t.now }
    requires options { AreOptions options.now }
    requires some { 0 < nodes }
{
    let mut last = None;
    for registers in 1..ALL + 1 {
        let options = with_registers(options, registers);
        let answer = answer_of(alloc, f, t, &options, last, nodes)?;
        put_registers(out, registers)?;
        last = put_answer(out, answer)?;
    }
    Ok(())
}
