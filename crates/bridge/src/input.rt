//! From the input to the answer.

use crate::asm::asm;
use crate::imported::imported;
use crate::request::Request;
use std::alloc::Global;
use un_answers::answer::Answer;
use un_outside::outside::Source;
use un_outside::status::Status;
use un_outside::transfer::{ReadAll, read_all};

/// How many bytes an input may have.
const INPUT: usize = 16_777_216;

/// The code of a text that is too long.
const TOO_MANY: u8 = 13;

/// The bytes of a source.
fn read<S: Source>(alloc: Global, src: &mut S) -> Result<Vec<u8>, Status> {
    match read_all(alloc, src, INPUT) {
        Ok(input) => Ok(input),
        Err(ReadAll::ReadFault) => Err(Status::ReadFault),
        Err(ReadAll::TooLong) => Err(Status::TextFault {
            line: 0,
            code: TOO_MANY,
        }),
        Err(ReadAll::NoMemory) => Err(Status::NoMemory),
    }
}

/// What is asked for, of an input.
fn answer_to(alloc: Global, asked: &Request<'_>, input: &[u8]) -> Answer {
    match asked {
        Request::Asm => asm(alloc, input),
        Request::Import(name) => imported(alloc, input, *name),
    }
}

/// Reads the input, and answers what is asked for.
pub fn answered<S: Source>(alloc: Global, asked: &Request<'_>, src: &mut S) -> Answer {
    match read(alloc, src) {
        Ok(input) => answer_to(alloc, asked, input.as_slice()),
        Err(status) => Answer::failed(alloc, status),
    }
}
