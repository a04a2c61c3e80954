//! From the input to the text that is asked for.

ghost use Rattle.un_model.specs.Options.{AreOptions};

use crate::chains::put_scale;
use crate::part::put_part;
use crate::request::{Part, Request, Shown};
use std::alloc::Global;
use std::time::CpuClock;
use un_drawn::given::version_of;
use un_ir::function::Function;
use un_isa::table::table_of;
use un_outside::outside::Source;
use un_outside::status::Status;
use un_outside::transfer::{ReadAll, read_all};
use un_reader::error::ReadError;
use un_reader::limits::TEXT;
use un_reader::read::read_function;
use un_shown::input::{Parts, split_input};

/// How many bytes an input of two parts may have.
const INPUT: usize = 16_777_216;

/// The code of a text that is too long.
const TOO_MANY: u8 = 13;

/// The status of a text that is too long.
fn too_long() -> Status {
    Status::TextFault {
        line: 0,
        code: TOO_MANY,
    }
}

/// The function that a text is.
fn function(alloc: Global, text: &[u8]) -> Result<Function, Status> {
    if text.len() > TEXT {
        return Err(too_long());
    }
    match read_function(alloc, text) {
        Ok(f) => Ok(f),
        Err(ReadError::NoMemory) => Err(Status::NoMemory),
        Err(ReadError::TextFault { line, code }) => Err(Status::TextFault { line, code }),
    }
}

/// Whether something stands behind the function.
fn has_rest(part: Part) -> bool {
    match part {
        Part::Model(Shown::Violations | Shown::Emit | Shown::Rounds | Shown::Drawn(_)) => true,
        _ => false,
    }
}

/// An input in its parts.
fn input_of(part: Part, text: &[u8]) -> Parts<'_> {
    if has_rest(part) {
        split_input(text)
    } else {
        Parts {
            function: text,
            rest: b"",
        }
    }
}

/// Appends what is asked for, of an input.
fn put_of(
    rt: &impl CpuClock,
    alloc: Global,
    out: &mut Vec<u8>,
    asked: &Request,
    text: &[u8],
) -> Result<(), Status>
    requires { AreOptions asked.now.options }
{
    let input = input_of(asked.part, text);
    let f = function(alloc, input.function)?;
    let table = table_of(version_of(input.rest));
    put_part(rt, alloc, out, asked, &f, &table, input)
}

/// The bytes of a source.
fn read<S: Source>(alloc: Global, src: &mut S) -> Result<Vec<u8>, Status> {
    match read_all(alloc, src, INPUT) {
        Ok(input) => Ok(input),
        Err(ReadAll::ReadFault) => Err(Status::ReadFault),
        Err(ReadAll::TooLong) => Err(too_long()),
        Err(ReadAll::NoMemory) => Err(Status::NoMemory),
    }
}

/// Reads the input, and appends what is asked for.
fn put_read<S: Source>(
    rt: &impl CpuClock,
    alloc: Global,
    out: &mut Vec<u8>,
    asked: &Request,
    src: &mut S,
) -> Result<(), Status>
    requires { AreOptions asked.now.options }
{
    let input = read(alloc, src)?;
    put_of(rt, alloc, out, asked, input.as_slice())
}

/// Appends what is asked for, and reads the input for it where it is of a function.
pub fn put_asked<S: Source>(
    rt: &impl CpuClock,
    alloc: Global,
    out: &mut Vec<u8>,
    asked: &Request,
    src: &mut S,
) -> Result<(), Status>
    requires { AreOptions asked.now.options }
{
    match asked.part {
        Part::Chains => match put_scale(rt, alloc, out, asked.counts.first, asked.counts.second) {
            Ok(()) => Ok(()),
            Err(_) => Err(Status::NoMemory),
        },
        _ => put_read(rt, alloc, out, asked, src),
    }
}
