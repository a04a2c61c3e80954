//! The listing in a report, read.

ghost use Rattle.std.specs.Prelude.{◌≡◌, ◌≢◌, ℕ, ◌+◌, ◌<◌, List, [], ◌∷◌, ◌++◌, IfOk, IfErr, IfSome, IfNone, codes, length};
ghost use Rattle.un_base.specs.Lines.{pieces_of};
ghost use Rattle.un_listing.specs.Listing.{code_text};
ghost use Rattle.un_listing_reader.specs.Reading.{IsErrorWithin};
ghost use Rattle.un_report_reader.specs.Answers.{IsBehindLines, IsListingRead, IsErrorFrom};
ghost use Rattle.un_report_reader.specs.Errors.{IsErrorAt, IsRead};
ghost use Rattle.un_report_reader.specs.FirstBad.{IsBadCode, InListing, lines_in_code};
ghost use Rattle.un_report_reader.specs.Limits.{AreSmall};
ghost use Rattle.un_report_reader.specs.Lines.{HasLines};

use crate::error::ReportError;
use crate::head::number_line;
use crate::limits::Limits;
use crate::place::{Place, bad_line, behind};
use std::alloc::{AllocError, Global};
use un_base::memory_error::NoMemory;
use un_listing_reader::read::{ListingError, read_code_within};
use un_packet::code::Code;
use un_words::pieces::first_len;

/// What is left behind the first lines of a text, where it has so many.
fn behind_lines(text: &[u8], count: u32) -> Option<&[u8]>
    ensures some { IfSome result (λ rest. IsBehindLines text.now count rest.now) }
    ensures none { IfNone result (length (pieces_of text.now) < count) }
{
    let mut rest = text;
    for _k in 0..count {
        if rest.is_empty() {
            return None;
        }
        rest = &rest[first_len(rest)..];
    }
    Some(rest)
}

/// An error of a listing that begins at a place.
fn refused(at: Place, error: ListingError) -> ReportError
    ensures { IsErrorFrom at.entry error result }
{
    match error {
        ListingError::NoMemory => ReportError::NoMemory,
        ListingError::BadListing { line } => bad_line(at, line),
    }
}

/// A text with a byte more, which ends no line.
fn going_on(alloc: Global, text: &[u8]) -> Result<Vec<u8>, AllocError>
    ensures { IfOk result (λ longer. longer.items ≡ text.now ++ codes "?") }
{
    let mut longer = Vec::new(alloc);
    longer.extend_from_slice(text)?;
    longer.push(b'?')?;
    Ok(longer)
}

/// The error of a listing whose lines are not all there.
fn cut_short(alloc: Global, at: Place, limits: Limits) -> ReportError
    requires { AreSmall limits }
    ensures { (count : ℕ) → length (pieces_of at.entry.rest.now) < count → IsErrorAt (IsBadCode limits count) at.entry result }
{
    match going_on(alloc, at.rest) {
        Ok(text) => match read_code_within(alloc, text.as_slice(), limits.frame) {
            // No listing is such a text, since each ends with a line feed.
            Ok(_) => ReportError::NoMemory,
            Err(error) => refused(at, error),
        },
        Err(_) => ReportError::NoMemory,
    }
}

/// Code from so many lines of a listing.
fn code<'a>(
    alloc: Global,
    at: Place<'a>,
    count: u32,
    limits: Limits,
) -> Result<(Code, Place<'a>), ReportError>
    requires { AreSmall limits }
    ensures ok { IfOk result (λ p. IsRead (HasLines limits count) code_text (lines_in_code count) at.entry p.0 p.1) }
    ensures bad { IfErr result (IsErrorAt (IsBadCode limits count) at.entry) }
{
    let Some(rest) = behind_lines(at.rest, count) else {
        return Err(cut_short(alloc, at, limits));
    };
    let lines = &at.rest[..at.rest.len() - rest.len()];
    match read_code_within(alloc, lines, limits.frame) {
        Ok(code) => Ok((code, behind(at, rest, count)?)),
        Err(error) => Err(refused(at, error)),
    }
}

/// The listing, with the line of how many lines it has.
pub(crate) fn listing<'a>(
    alloc: Global,
    at: Place<'a>,
    limits: Limits,
) -> Result<(Code, Place<'a>), ReportError>
    requires { AreSmall limits }
    ensures ok { IfOk result (λ p. IsListingRead limits at.entry p.0 p.1) }
    ensures bad { IfErr result (IsErrorAt (InListing limits) at.entry) }
{
    let (count, at) = number_line(at, b"listing ", 0, u32::MAX as u64)?;
    code(alloc, at, count as u32, limits)
}
