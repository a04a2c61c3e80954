//! From a function's model and what stands behind the function to a drawing or an explanation.

ghost use Rattle.un_model.specs.Solutions.{IsSolution};
ghost use Rattle.un_problem.specs.Problems.{IsProblemOf};

use crate::blocks::{Section, Sheet, sections};
use crate::explained::put_explained;
use crate::given::{Given, read_given};
use crate::svg::put_drawing;
use crate::table::put_tables;
use std::alloc::Global;
use un_base::memory_error::NoMemory;
use un_ir::function::Function;
use un_ir::print::print_function;
use un_isa::reg_set::saved_registers;
use un_model::model::{Model, Solution};
use un_model::placement::schedule;
use un_outside::status::Status;
use un_packet::code::CodeBlock;
use un_shown::emission::code_of;
use un_shown::solution::{put_broken, solution_of};
use un_violations::violations::violations;

/// How a solution is shown: as tables, as a drawing in SVG, or explained in words.
#[derive(Clone, Copy)]
pub enum Form {
    Tables,
    Drawing,
    Words,
}

/// Appends a solution in a form, with all that it is drawn from.
fn put_sheet(
    alloc: Global,
    out: &mut Vec<u8>,
    sheet: &Sheet<'_>,
    sections: &[Section<'_>],
    given: &Given<'_>,
    form: Form,
) -> Result<(), NoMemory> {
    match form {
        Form::Tables => put_tables(alloc, out, sheet, sections),
        Form::Drawing => put_drawing(alloc, out, sheet, sections, given),
        Form::Words => put_explained(alloc, out, sheet, sections, given),
    }
}

/// Appends a solution in a form, with its code.
fn put_coded(
    alloc: Global,
    out: &mut Vec<u8>,
    f: &Function,
    m: &Model,
    s: &Solution,
    code: &[CodeBlock],
    given: &Given<'_>,
    form: Form,
) -> Result<(), NoMemory> {
    let plan = schedule(alloc, m, s)?;
    let saved = saved_registers(alloc, &m.ext.table)?;
    let sections = sections(alloc, m, s.values.as_slice())?;
    let source = print_function(alloc, f)?;
    let sheet = Sheet {
        name: &f.name,
        source: source.as_slice(),
        names: f.names.as_slice(),
        m,
        plan: &plan,
        saved: saved.as_slice(),
        code,
    };
    put_sheet(alloc, out, &sheet, sections.as_slice(), given, form)
}

/// Appends a solution in a form.
fn put_solution(
    alloc: Global,
    out: &mut Vec<u8>,
    f: &Function,
    m: &Model,
    s: &Solution,
    given: &Given<'_>,
    form: Form,
) -> Result<(), NoMemory>
    requires problem { IsProblemOf f.now m.now }
    requires solution { IsSolution m.now s.now }
{
    let code = code_of(alloc, f, m, s)?;
    put_coded(alloc, out, f, m, s, code.blocks.as_slice(), given, form)
}

/// Appends values of a model's variables in a form, where they are a solution, and else the clauses that they break.
fn put_judged(
    alloc: Global,
    out: &mut Vec<u8>,
    f: &Function,
    m: &Model,
    s: &Solution,
    given: &Given<'_>,
    form: Form,
) -> Result<(), NoMemory>
    requires { IsProblemOf f.now m.now }
{
    let broken = violations(alloc, m, s)?;
    if broken.is_empty() {
        put_solution(alloc, out, f, m, s, given, form)
    } else {
        put_broken(out, broken.as_slice())
    }
}

/// The status of a text of values before which so many lines stand.
fn behind(status: Status, before: u32) -> Status {
    match status {
        Status::BadReport { line } => Status::BadReport {
            line: line.saturating_add(before),
        },
        other => other,
    }
}

/// Appends what stands behind a function, a report or values of its model's variables, in a form: where they are a solution, and else
/// the clauses that they break.
///
/// # Errors
/// `BadReport` with the first line, from 1, where something else than numbers stands among the values; `NoMemory`.
pub fn put_drawn(
    alloc: Global,
    out: &mut Vec<u8>,
    f: &Function,
    m: &Model,
    text: &[u8],
    form: Form,
) -> Result<(), Status>
    requires { IsProblemOf f.now m.now }
{
    let given = read_given(text);
    let s = match solution_of(alloc, given.values) {
        Ok(s) => s,
        Err(status) => return Err(behind(status, given.before)),
    };
    match put_judged(alloc, out, f, m, &s, &given, form) {
        Ok(()) => Ok(()),
        Err(_) => Err(Status::NoMemory),
    }
}
