//! From the parts of an input to the answer.

ghost use Rattle.std.specs.Prelude.{IfOk};
ghost use Rattle.un_isa.specs.Fit.{IsFit};

use crate::compared::put_compared;
use std::alloc::Global;
use un_answers::answer::Answer;
use un_base::memory_error::NoMemory;
use un_foreign::listing::Listing;
use un_foreign::plain::{put_lines, put_listing};
use un_foreign::reader::{Unread, read_listing};
use un_foreign::starts::put_starts;
use un_foreign::text::at_rule;
use un_foreign::unread::put_unread;
use un_ir::function::Function;
use un_ir::text::put_text;
use un_isa::table::{LAST, Table, table_of};
use un_outside::outside::Source;
use un_outside::status::Status;
use un_outside::transfer::{ReadAll, read_all};
use un_reader::error::ReadError;
use un_reader::read::read_function;
use un_target::error::TableError;
use un_target::reading::read_table;

/// What is asked for.
#[derive(Clone, Copy)]
pub enum Asked {
    /// A comparison of a listing with a function and its report.
    Comparison,
    /// The listing in the spelling that `alloc` prints.
    Plain,
    /// For each line of that the line at which its packet begins in the listing.
    Lines,
    /// Starts for the function, parted by lines `---`.
    Starts,
}

/// How many bytes an input may have.
const INPUT: usize = 16_777_216;

/// The code of a text that is too long.
const TOO_MANY: u8 = 13;

/// The parts of an input.
#[derive(Clone, Copy)]
struct Parts<'a> {
    function: &'a [u8],
    report: &'a [u8],
    listing: &'a [u8],
    /// The text of a table, where there is one.
    table: Option<&'a [u8]>,
}

/// The parts of an input; None where there is no listing.
fn parts_of(input: &[u8]) -> Option<Parts<'_>> {
    let first = at_rule(input)?;
    let second = at_rule(first.behind)?;
    let (listing, table) = match at_rule(second.behind) {
        Some(third) => (third.front, Some(third.behind)),
        None => (second.behind, None),
    };
    Some(Parts {
        function: first.front,
        report: second.front,
        listing,
        table,
    })
}

/// The table that all goes by: that of the text where there is one, else that of the last version.
fn table_in(alloc: Global, text: Option<&[u8]>) -> Result<Table, Status>
    ensures { IfOk result IsFit }
{
    let Some(text) = text else {
        return Ok(table_of(LAST));
    };
    match read_table(alloc, text) {
        Ok(table) => Ok(table),
        Err(TableError::NoMemory) => Err(Status::NoMemory),
        Err(TableError::Bad(cause)) => Err(Status::BadTable { code: cause.code() }),
    }
}

/// The bytes of a source.
pub fn read<S: Source>(alloc: Global, src: &mut S) -> Result<Vec<u8>, Status> {
    match read_all(alloc, src, INPUT) {
        Ok(input) => Ok(input),
        Err(ReadAll::ReadFault) => Err(Status::ReadFault),
        Err(ReadAll::TooLong) => Err(Status::TextFault {
            line: 0,
            code: TOO_MANY,
        }),
        Err(ReadAll::NoMemory) => Err(Status::NoMemory),
    }
}

/// What is told where a listing is not read.
fn unread(alloc: Global, listing: &[u8], why: Unread) -> Answer {
    match why {
        Unread::NoMemory => Answer::failed(alloc, Status::NoMemory),
        Unread::Line { line, why } => {
            let mut told = Vec::new(alloc);
            let _ = put_unread(&mut told, listing, line, why);
            Answer::told(alloc, told, Status::BadReport { line })
        }
    }
}

/// Appends what is asked for of a listing.
fn put_asked(
    alloc: Global,
    out: &mut Vec<u8>,
    asked: Asked,
    t: &Table,
    f: &Function,
    listing: &Listing<'_>,
    report: &[u8],
) -> Result<(), NoMemory>
    requires { IsFit t.now }
{
    match asked {
        Asked::Comparison => put_compared(alloc, out, t, f, listing, report),
        Asked::Plain => put_listing(out, listing, f),
        Asked::Lines => put_lines(out, listing),
        Asked::Starts => put_starts(out, f),
    }
}

/// What is asked for of a function's listing and its report.
fn text_of(
    alloc: Global,
    asked: Asked,
    t: &Table,
    f: &Function,
    parts: &Parts<'_>,
) -> Result<Vec<u8>, Unread>
    requires { IsFit t.now }
{
    let listing = read_listing(alloc, f, parts.listing)?;
    let mut out = Vec::new(alloc);
    put_asked(alloc, &mut out, asked, t, f, &listing, parts.report)?;
    Ok(out)
}

/// The answer for a function by a table.
fn by_table(alloc: Global, asked: Asked, t: &Table, f: &Function, parts: &Parts<'_>) -> Answer
    requires { IsFit t.now }
{
    match text_of(alloc, asked, t, f, parts) {
        Ok(out) => Answer::done(alloc, out),
        Err(why) => unread(alloc, parts.listing, why),
    }
}

/// The answer for a function.
fn of_function(alloc: Global, asked: Asked, f: &Function, parts: &Parts<'_>) -> Answer {
    match table_in(alloc, parts.table) {
        Ok(table) => by_table(alloc, asked, &table, f, parts),
        Err(status) => Answer::failed(alloc, status),
    }
}

/// What is told where an input has no listing.
fn no_listing(alloc: Global) -> Answer {
    let mut told = Vec::new(alloc);
    let _ = put_text(
        &mut told,
        b"the input has a function, its report and a listing, parted by lines `---`\n",
    );
    Answer::told(alloc, told, Status::BadReport { line: 1 })
}

/// What is asked for of an input.
pub fn answer_to(alloc: Global, asked: Asked, input: &[u8]) -> Answer {
    let Some(parts) = parts_of(input) else {
        return no_listing(alloc);
    };
    match read_function(alloc, parts.function) {
        Ok(f) => of_function(alloc, asked, &f, &parts),
        Err(ReadError::NoMemory) => Answer::failed(alloc, Status::NoMemory),
        Err(ReadError::TextFault { line, code }) => {
            Answer::failed(alloc, Status::TextFault { line, code })
        }
    }
}
