//! The text of a part of a function's problem. Each function appends one.

ghost use Rattle.un_baseline.specs.RoomyOptions.{AreRoomyFor};
ghost use Rattle.un_isa.specs.Fit.{IsFit};
ghost use Rattle.un_model.specs.Extended.{HasSmallCounts};
ghost use Rattle.un_model.specs.Options.{AreOptions};
ghost use Rattle.un_model.specs.Variables.{IsModel};
ghost use Rattle.un_problem.specs.Problems.{IsProblemOf};

use crate::attempts::put_attempts;
use crate::firsts::put_first;
use crate::help::put_help;
use crate::node::node_of;
use crate::request::{Part, Request, Shown};
use crate::rounds::put_rounds;
use crate::sweep::put_sweep;
use crate::times::put_timed;
use std::alloc::Global;
use std::time::CpuClock;
use un_base::memory_error::NoMemory;
use un_baseline::spill::spill_everywhere;
use un_drawn::drawn::{Form, put_drawn};
use un_ir::function::Function;
use un_ir::text::put_text;
use un_isa::table::Table;
use un_live::live::live_in;
use un_model::model::{Model, Options};
use un_outside::status::Status;
use un_parts::extended::extended_text;
use un_parts::live::live_text;
use un_problem::problem::{default_options, extended, model};
use un_shown::arcs::put_all_arcs;
use un_shown::emission::put_emitted;
use un_shown::facts::put_facts;
use un_shown::input::Parts;
use un_shown::solution::{put_values, put_verdict, solution_of};
use un_shown::variables::put_variables;

/// What a call answered, with the status for want of memory.
fn told(answer: Result<(), NoMemory>) -> Result<(), Status> {
    match answer {
        Ok(()) => Ok(()),
        Err(_) => Err(Status::NoMemory),
    }
}

/// The names live at each block's start.
fn put_live(alloc: Global, out: &mut Vec<u8>, f: &Function) -> Result<(), NoMemory> {
    let live = live_in(alloc, f)?;
    let text = live_text(alloc, f, &live)?;
    put_text(out, text.as_slice())
}

/// The extended function.
fn put_extended(alloc: Global, out: &mut Vec<u8>, f: &Function, t: &Table) -> Result<(), NoMemory> {
    let ext = extended(alloc, f, t)?;
    let text = extended_text(alloc, &ext)?;
    put_text(out, text.as_slice())
}

/// What the values that a text writes come to, of a model.
fn verdict(alloc: Global, out: &mut Vec<u8>, m: &Model, rest: &[u8]) -> Result<(), Status>
    requires model { IsModel m.now }
    requires counts { HasSmallCounts m.now.ext }
{
    let s = solution_of(alloc, rest)?;
    told(put_verdict(alloc, out, m, &s))
}

/// The code of the values that a text writes, of a function's model.
fn code(
    alloc: Global,
    out: &mut Vec<u8>,
    f: &Function,
    m: &Model,
    rest: &[u8],
) -> Result<(), Status>
    requires { IsProblemOf f.now m.now }
{
    let s = solution_of(alloc, rest)?;
    told(put_emitted(alloc, out, f, m, &s))
}

/// What the rounds leave at the node that a text describes, of a function's model.
fn rounds(
    alloc: Global,
    out: &mut Vec<u8>,
    f: &Function,
    m: &Model,
    rest: &[u8],
) -> Result<(), Status>
    requires { IsProblemOf f.now m.now }
{
    let _ = f;
    let node = node_of(alloc, rest, m.domains.len())?;
    told(put_rounds(alloc, out, m, &node))
}

/// The precedences of a function's model, and the bound that they give.
fn arcs(out: &mut Vec<u8>, f: &Function, m: &Model) -> Result<(), NoMemory>
    requires { IsProblemOf f.now m.now }
{
    let _ = f;
    put_all_arcs(out, m)
}

/// The solution that a text gives, drawn or explained; and behind an explanation what would help.
fn drawn(
    alloc: Global,
    out: &mut Vec<u8>,
    f: &Function,
    t: &Table,
    m: &Model,
    rest: &[u8],
    form: Form,
) -> Result<(), Status>
    requires problem { IsProblemOf f.now m.now }
    requires fit { IsFit t.now }
{
    put_drawn(alloc, out, f, m, rest, form)?;
    match form {
        Form::Words => told(put_help(alloc, out, f, t, m, rest)),
        _ => Ok(()),
    }
}

/// What is shown of a function's model, and of what stands behind the function.
fn put_of_model(
    alloc: Global,
    out: &mut Vec<u8>,
    shown: Shown,
    f: &Function,
    t: &Table,
    m: &Model,
    rest: &[u8],
) -> Result<(), Status>
    requires problem { IsProblemOf f.now m.now }
    requires fit { IsFit t.now }
{
    match shown {
        Shown::Variables => told(put_variables(out, m)),
        Shown::Violations => verdict(alloc, out, m, rest),
        Shown::Emit => code(alloc, out, f, m, rest),
        Shown::Arcs => told(arcs(out, f, m)),
        Shown::Facts => told(put_facts(out, f, m)),
        Shown::Rounds => rounds(alloc, out, f, m, rest),
        Shown::Drawn(form) => drawn(alloc, out, f, t, m, rest, form),
    }
}

/// The same for a table and under options.
fn put_shown(
    alloc: Global,
    out: &mut Vec<u8>,
    shown: Shown,
    f: &Function,
    t: &Table,
    options: &Options,
    rest: &[u8],
) -> Result<(), Status>
    requires fit { IsFit t.now }
    requires options { AreOptions options.now }
{
    match model(alloc, f, t, options) {
        Ok(m) => put_of_model(alloc, out, shown, f, t, &m, rest),
        Err(_) => Err(Status::NoMemory),
    }
}

/// The values of the solution that keeps each name in a frame slot.
fn baseline(alloc: Global, out: &mut Vec<u8>, f: &Function, m: &Model) -> Result<(), NoMemory>
    requires problem { IsProblemOf f.now m.now }
    requires roomy { AreRoomyFor f.now m.now.options }
{
    let _ = f;
    let s = spill_everywhere(alloc, m)?;
    put_values(out, &s)
}

/// What is told of a function's model under default options: the values of a solution, the first one, attempts at better ones, or times.
fn put_by_default(
    rt: &impl CpuClock,
    alloc: Global,
    out: &mut Vec<u8>,
    asked: &Request,
    f: &Function,
    t: &Table,
    text: &[u8],
) -> Result<(), NoMemory>
    requires { IsFit t.now }
{
    let m = model(alloc, f, t, &default_options())?;
    match asked.part {
        Part::Times => put_timed(rt, alloc, out, asked.counts, text, f, &m),
        Part::Search => put_attempts(rt, alloc, out, asked.counts, f, &m),
        Part::First => put_first(rt, alloc, out, asked.counts, f, &m),
        _ => baseline(alloc, out, f, &m),
    }
}

/// How many nodes a search has for each number of registers, where no word says it.
const NODES: u32 = 200;

/// What code costs with each number of registers.
fn swept(
    alloc: Global,
    out: &mut Vec<u8>,
    asked: &Request,
    f: &Function,
    t: &Table,
) -> Result<(), NoMemory>
    requires options { AreOptions asked.now.options }
    requires fit { IsFit t.now }
{
    let nodes = asked.counts.first.unwrap_or(NODES).max(1);
    put_sweep(alloc, out, f, t, &asked.options, nodes)
}

/// What is asked for, of a function and an input, which has the function's text, for a table.
pub fn put_part(
    rt: &impl CpuClock,
    alloc: Global,
    out: &mut Vec<u8>,
    asked: &Request,
    f: &Function,
    t: &Table,
    input: Parts<'_>,
) -> Result<(), Status>
    requires options { AreOptions asked.now.options }
    requires fit { IsFit t.now }
{
    match asked.part {
        Part::Live => told(put_live(alloc, out, f)),
        Part::Extended => told(put_extended(alloc, out, f, t)),
        Part::Model(shown) => put_shown(alloc, out, shown, f, t, &asked.options, input.rest),
        Part::Sweep => told(swept(alloc, out, asked, f, t)),
        _ => told(put_by_default(rt, alloc, out, asked, f, t, input.function)),
    }
}
