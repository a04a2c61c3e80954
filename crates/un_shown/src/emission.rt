//! Values of a model's variables as code, or the clauses that they break.

ghost use Rattle.un_model.specs.Solutions.{IsSolution};
ghost use Rattle.un_problem.specs.Problems.{IsProblemOf};

use crate::solution::put_broken;
use std::alloc::Global;
use un_base::memory_error::NoMemory;
use un_emit::emit::emit;
use un_ir::function::Function;
use un_ir::text::put_text;
use un_listing::print::print_code;
use un_model::model::{Model, Solution};
use un_packet::code::Code;
use un_violations::violations::violations;

/// The code of a solution of a function's model.
///
/// # Errors
/// `NoMemory` where there is no memory for it.
pub fn code_of(alloc: Global, f: &Function, m: &Model, s: &Solution) -> Result<Code, NoMemory>
    requires problem { IsProblemOf f.now m.now }
    requires solution { IsSolution m.now s.now }
{
    emit(alloc, f, &m.ext, m, s)
}

/// Appends the listing of the code of a solution.
fn put_listing(
    alloc: Global,
    out: &mut Vec<u8>,
    f: &Function,
    m: &Model,
    s: &Solution,
) -> Result<(), NoMemory>
    requires problem { IsProblemOf f.now m.now }
    requires solution { IsSolution m.now s.now }
{
    let code = code_of(alloc, f, m, s)?;
    let text = print_code(alloc, &code)?;
    put_text(out, text.as_slice())
}

/// Appends the listing of the code of values of a model's variables, where they are a solution, and else the clauses that they
/// break.
pub fn put_emitted(
    alloc: Global,
    out: &mut Vec<u8>,
    f: &Function,
    m: &Model,
    s: &Solution,
) -> Result<(), NoMemory>
    requires { IsProblemOf f.now m.now }
{
    let broken = violations(alloc, m, s)?;
    if broken.is_empty() {
        put_listing(alloc, out, f, m, s)
    } else {
        put_broken(out, broken.as_slice())
    }
}
