//! Code from its listing.

ghost use Rattle.std.specs.Prelude.{◌≡◌, ◌≢◌, ◌+◌, ◌<◌, ◌≤◌, ◌^◌, ◌++◌, ◌∷◌, [], ℕ, List, Option, IfOk, IfErr, OnOk, MatchOption};
ghost use Rattle.un_isa.specs.declared.reg.TheConstants.{FRAME};
ghost use Rattle.un_listing_reader.specs.Reading.{AllStand, IsErrorOf, IsErrorWithin, IsFirstBadOf, IsFirstBadWithin, IsListingOf};
ghost use Rattle.un_listing_reader.specs.Reading.{IsListingWithin, IsReadBack, IsUnder, LineValue, labels_in, lines_in};
ghost use Rattle.un_listing_reader.specs.LabelSets.{IsBefore, SameLabels};

use crate::judge::stands;
use crate::labels::{Before, Labels};
use crate::line::{Line, read_frame};
use crate::lines::read_lines;
use std::alloc::Global;
use thiserror::Error;
use un_base::memory_error::NoMemory;
use un_base::name::Name;
use un_isa::reg::FRAME;
use un_lists::items::Items;
use un_packet::code::{Code, CodeBlock, Packet};
use un_words::pieces::first_len;

/// Why there is no code: there was no memory, or a line is bad, counted from 1.
#[derive(Clone, Copy, Debug, Error)]
pub enum ListingError {
    #[error("no memory")]
    NoMemory,
    #[error("line {line}: bad listing")]
    BadListing { line: u32 },
}

/// The label of one line more.
fn add_label_of(labels: &mut Labels, line: &Option<Line>) -> Result<(), NoMemory>
    ensures { OnOk result ((lines : List (Option LineValue)) → SameLabels labels.old (labels_in lines)
        → SameLabels labels.new (labels_in (lines ++ line.now ∷ []))) }
{
    match line {
        Some(Line::Block(label)) => labels.add(label),
        Some(Line::Packet(_)) => Ok(()),
        Some(Line::Broken) => Ok(()),
        None => Ok(()),
    }
}

/// The labels of lines.
fn all_labels(alloc: Global, lines: &[Option<Line>]) -> Result<Labels, NoMemory>
    ensures { IfOk result (λ labels. SameLabels labels (labels_in lines.now)) }
{
    let mut labels = Labels::new(alloc);
    for line in lines {
        add_label_of(&mut labels, line)?;
    }
    Ok(labels)
}

/// One line more before.
fn note(before: &mut Before, line: &Line) -> Result<(), NoMemory>
    ensures { OnOk result ((lines : List (Option LineValue)) → IsBefore before.old lines
        → IsBefore before.new (lines ++ Some line.now ∷ [])) }
{
    before.some = true;
    match line {
        Line::Block(label) => {
            before.labels.add(label)?;
            before.blocks = before.blocks.saturating_add(1);
        }
        Line::Packet(_) => before.packets = before.packets.saturating_add(1),
        Line::Broken => {}
    }
    Ok(())
}

/// The place of the first of these lines that does not stand, with nothing before them.
fn scan(
    labels: &Labels,
    before: &mut Before,
    lines: &[Option<Line>],
) -> Result<Option<usize>, NoMemory>
    requires labels { SameLabels labels.now (labels_in lines.now) }
    requires start { IsBefore before.old [] }
    requires some { lines.now ≢ [] }
    ensures { IfOk result (λ place. MatchOption place (AllStand lines.now) (IsFirstBadOf lines.now)) }
{
    for (k, line) in lines.iter().enumerate() {
        if !stands(labels, before, line, &lines[k + 1..]) {
            return Ok(Some(k));
        }
        if let Some(line) = line {
            note(before, line)?;
        }
    }
    Ok(None)
}

/// The same for all lines of a listing with these labels.
fn first_among(
    alloc: Global,
    labels: &Labels,
    lines: &[Option<Line>],
) -> Result<Option<usize>, NoMemory>
    requires labels { SameLabels labels.now (labels_in lines.now) }
    requires some { lines.now ≢ [] }
    ensures { IfOk result (λ place. MatchOption place (AllStand lines.now) (IsFirstBadOf lines.now)) }
{
    let mut before = Before {
        labels: Labels::new(alloc),
        blocks: 0,
        packets: 0,
        some: false,
    };
    scan(labels, &mut before, lines)
}

/// The place of the first line that does not stand, 0 where there is none at all.
fn first_bad(alloc: Global, lines: &[Option<Line>]) -> Result<Option<usize>, NoMemory>
    ensures { IfOk result (λ place. MatchOption place (AllStand lines.now) (IsFirstBadOf lines.now)) }
{
    if lines.is_empty() {
        return Ok(Some(0));
    }
    let labels = all_labels(alloc, lines)?;
    first_among(alloc, &labels, lines)
}

/// One block more.
fn push_block(blocks: &mut Vec<CodeBlock>, block: CodeBlock) -> Result<(), NoMemory>
    ensures { OnOk result (blocks.new.items ≡ blocks.old.items ++ block ∷ []) }
{
    match blocks.push(block) {
        Ok(_) => Ok(()),
        Err(_) => Err(NoMemory),
    }
}

/// One line more in the blocks: a label's line starts a block, and a packet goes to the last one.
fn add_line(alloc: Global, blocks: &mut Vec<CodeBlock>, line: Line) -> Result<(), NoMemory>
    ensures { OnOk result (IsUnder blocks.old.items line → lines_in blocks.new.items ≡ lines_in blocks.old.items ++ Some line ∷ []) }
{
    match line {
        Line::Block(label) => {
            let packets = Items::new(alloc);
            push_block(blocks, CodeBlock { label, packets })
        }
        Line::Packet(packet) => match blocks.pop() {
            Some(CodeBlock { label, mut packets }) => {
                packets.push(packet)?;
                push_block(blocks, CodeBlock { label, packets })
            }
            None => Ok(()),
        },
        Line::Broken => Ok(()),
    }
}

/// The blocks that the lines spell, where each stands at its place.
fn assemble(alloc: Global, lines: Items<Option<Line>>) -> Result<Items<CodeBlock>, NoMemory>
    ensures { IfOk result (λ blocks. AllStand lines → lines_in blocks ≡ lines) }
{
    let mut blocks = Vec::new(alloc);
    for line in lines.into_vec() {
        if let Some(line) = line {
            add_line(alloc, &mut blocks, line)?;
        }
    }
    Ok(Items::from_vec(blocks))
}

/// The answer where the first bad line stands at a place behind the frame's. A number that is too large for a line is answered as
/// want of memory.
fn refusal(place: usize) -> ListingError
    ensures { (most : ℕ) (text : List ℕ) → IsFirstBadWithin most text (place + 2) → IsErrorWithin most text result }
{
    match u32::try_from(place.saturating_add(2)) {
        Ok(line) => ListingError::BadListing { line },
        Err(_) => ListingError::NoMemory,
    }
}

/// The code whose listing this is, where its frame has at most so many bytes; the listing of each such code is read back as that code.
/// A label's line at which there would be 2^28 blocks is bad, and a packet's line at which there would be 2^28 packets.
///
/// # Errors
/// `BadListing` with the first line outside the grammar, from 1; `NoMemory` where there is no memory for the code.
pub fn read_code_within(alloc: Global, text: &[u8], most: u32) -> Result<Code, ListingError>
    requires { most ≤ FRAME }
    ensures ok { IfOk result (IsListingWithin most text.now) }
    ensures bad { IfErr result (IsErrorWithin most text.now) }
    ensures whole { (c : Code) → IsListingWithin most text.now c → IsReadBack c result }
{
    if text.is_empty() {
        return Err(ListingError::BadListing { line: 1 });
    }
    let len = first_len(text);
    let Some(frame) = read_frame(&text[..len], most) else {
        return Err(ListingError::BadListing { line: 1 });
    };
    let Ok(lines) = read_lines(alloc, frame, &text[len..]) else {
        return Err(ListingError::NoMemory);
    };
    match first_bad(alloc, lines.as_slice()) {
        Err(_) => return Err(ListingError::NoMemory),
        Ok(Some(k)) => return Err(refusal(k)),
        Ok(None) => {}
    }
    match assemble(alloc, lines) {
        Ok(blocks) => Ok(Code { frame, blocks }),
        Err(_) => Err(ListingError::NoMemory),
    }
}

/// The same with the greatest frame that code may have.
///
/// # Errors
/// As `read_code_within` has them.
pub fn read_code(alloc: Global, text: &[u8]) -> Result<Code, ListingError>
    ensures ok { IfOk result (IsListingOf text.now) }
    ensures bad { IfErr result (IsErrorOf text.now) }
    ensures whole { (c : Code) → IsListingOf text.now c → IsReadBack c result }
{
    read_code_within(alloc, text, FRAME)
}
