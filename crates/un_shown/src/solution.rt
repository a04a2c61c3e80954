//! Values of a model's variables, and what they come to: a cost, or the clauses that they break.

ghost use Rattle.un_model.specs.Extended.{HasSmallCounts};
ghost use Rattle.un_model.specs.Variables.{IsModel};

use crate::input::numbers;
use crate::text::put_between;
use std::alloc::Global;
use un_base::memory_error::NoMemory;
use un_ir::text::put_text;
use un_lists::items::Items;
use un_model::cost::cost;
use un_model::model::{Model, Solution};
use un_model::verdict::Broken;
use un_outside::status::Status;
use un_violations::violations::violations;

/// The values that a text writes.
///
/// # Errors
/// `BadReport` with the first line, from 1, on which something else than numbers stands; `NoMemory`.
pub fn solution_of(alloc: Global, text: &[u8]) -> Result<Solution, Status> {
    let values = numbers(alloc, text)?;
    Ok(Solution {
        values: Items::from_vec(values),
    })
}

/// Appends the line for broken clauses.
pub fn put_broken(out: &mut Vec<u8>, broken: &[Broken]) -> Result<(), NoMemory> {
    put_text(out, b"broken")?;
    for clause in broken {
        put_between(out, b" ", u64::from(clause.clause), b"")?;
    }
    put_text(out, b"\n")
}

/// Appends the line for values of a model's variables: the cost, where they are a solution, and else the clauses that they break.
pub fn put_verdict(
    alloc: Global,
    out: &mut Vec<u8>,
    m: &Model,
    s: &Solution,
) -> Result<(), NoMemory>
    requires model { IsModel m.now }
    requires counts { HasSmallCounts m.now.ext }
{
    let broken = violations(alloc, m, s)?;
    if broken.is_empty() {
        put_between(out, b"solution cost ", cost(m, s), b"\n")
    } else {
        put_broken(out, broken.as_slice())
    }
}

/// How many values stand on a line.
const ON_A_LINE: usize = 16;

/// What stands between the value at a place and the one before it.
fn separator(place: usize) -> &'static [u8] {
    if place == 0 {
        b""
    } else if place % ON_A_LINE == 0 {
        b"\n"
    } else {
        b" "
    }
}

/// Appends the values of a solution, sixteen on a line.
pub fn put_values(out: &mut Vec<u8>, s: &Solution) -> Result<(), NoMemory> {
    for (place, value) in s.values.as_slice().iter().enumerate() {
        put_between(out, separator(place), u64::from(*value), b"")?;
    }
    put_text(out, b"\n")
}
