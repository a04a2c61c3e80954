//! What would make code cheaper, where that is sure: more registers, with which there is code that costs less.

ghost use Rattle.un_isa.specs.Fit.{IsFit};
ghost use Rattle.un_model.specs.Options.{AreOptions};
ghost use Rattle.un_problem.specs.Problems.{IsProblemOf};

use crate::sweep::{ALL, answer_of, with_registers};
use std::alloc::Global;
use un_base::memory_error::NoMemory;
use un_drawn::given::read_given;
use un_ir::function::Function;
use un_ir::text::put_text;
use un_isa::table::Table;
use un_model::cost::cost;
use un_model::model::{Model, Options};
use un_search::solve::Answer;
use un_shown::solution::solution_of;
use un_shown::text::put_between;
use un_violations::violations::violations;

/// How many nodes a search has for each number of registers: it takes a first solution, and makes one choice.
const NODES: u32 = 3;

/// What the solution costs that a text gives, where it is one of a function's model.
fn cost_given(alloc: Global, f: &Function, m: &Model, text: &[u8]) -> Result<Option<u64>, NoMemory>
    requires { IsProblemOf f.now m.now }
{
    let _ = f;
    let Ok(s) = solution_of(alloc, read_given(text).values) else {
        return Ok(None);
    };
    let broken = violations(alloc, m, &s)?;
    if !broken.is_empty() {
        return Ok(None);
    }
    Ok(Some(cost(m, &s)))
}

/// What the code costs that an answer has.
fn cost_of(answer: &Answer) -> Option<u64> {
    match answer {
        Answer::Code { cost, .. } => Some(*cost),
        _ => None,
    }
}

/// A number of registers, and what code costs with it.
#[derive(Clone, Copy)]
struct Offer {
    registers: u32,
    cost: u64,
}

/// The cheapest offer with more registers, the one with the fewest of those; the present one where none is cheaper.
fn cheapest(
    alloc: Global,
    f: &Function,
    t: &Table,
    options: &Options,
    present: Offer,
) -> Result<Offer, NoMemory>
    requires fit { IsFit t.now }
    requires options { AreOptions options.now }
{
    let mut best = present;
    for registers in 1..ALL + 1 {
        if registers > present.registers {
            let options = with_registers(options, registers);
            let answer = answer_of(alloc, f, t, &options, None, NODES)?;
            let cost = cost_of(&answer).unwrap_or(best.cost);
            if cost < best.cost {
                best = Offer { registers, cost };
            }
        }
    }
    Ok(best)
}

/// Appends how many registers would make code cheaper than the present one, where some would.
fn put_offer(out: &mut Vec<u8>, best: Offer, present: Offer) -> Result<(), NoMemory> {
    if best.cost >= present.cost {
        return Ok(());
    }
    if best.registers < ALL {
        put_between(out, b"with ", u64::from(best.registers), b" registers ")?;
    } else {
        put_text(out, b"with all registers ")?;
    }
    put_between(out, b"", best.cost, b" in place of ")?;
    put_between(out, b"", present.cost, b"\n")
}

/// Appends how many registers would make the code cheaper that a text gives for a model with few registers, where some would.
pub(crate) fn put_help(
    alloc: Global,
    out: &mut Vec<u8>,
    f: &Function,
    t: &Table,
    m: &Model,
    text: &[u8],
) -> Result<(), NoMemory>
    requires problem { IsProblemOf f.now m.now }
    requires fit { IsFit t.now }
{
    let Some(registers) = m.options.regs else {
        return Ok(());
    };
    let Some(cost) = cost_given(alloc, f, m, text)? else {
        return Ok(());
    };
    let present = Offer { registers, cost };
    let best = cheapest(alloc, f, t, &m.options, present)?;
    put_offer(out, best, present)
}
