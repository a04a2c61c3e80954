//! The lines of a listing behind the first, as they are read.

ghost use Rattle.std.specs.Prelude.{◌≡◌, ◌≢◌, ℕ, List, [], ◌∷◌, ◌++◌, ◌≤◌, true, IfOk, IfSome, IfNone, codes};
ghost use Rattle.un_isa.specs.declared.reg.TheConstants.{FRAME};
ghost use Rattle.un_base.specs.Names.{is_name};
ghost use Rattle.un_listing_reader.specs.PacketReads.{line_of};
ghost use Rattle.un_listing_reader.specs.Reading.{Spells, IsReadAs, IsFrameLine};

use crate::packet::{PacketRead, read_packet};
use std::alloc::Global;
use un_base::decimal::read_decimal;
use un_base::memory_error::NoMemory;
use un_base::name::Name;
use un_packet::code::Packet;

/// A line behind the first: the line of a block's label, that of a packet, or one that is a packet's by its form and breaks a rule
/// of packets.
#[derive(Drop)]
pub enum Line {
    Block(Name),
    Packet(Packet),
    Broken,
}

/// What stands between a text and the line feed.
fn within<'a>(line: &'a [u8], start: &[u8]) -> Option<&'a [u8]>
    ensures some { IfSome result (λ rest. line.now ≡ start.now ++ (rest.now ++ 10 ∷ [])) }
    ensures none { IfNone result ((rest : List ℕ) → line.now ≢ start.now ++ (rest ++ 10 ∷ [])) }
{
    line.strip_prefix(start)?.strip_suffix(b"\n")
}

/// The label of a block's line.
fn block_label(line: &[u8]) -> Option<Name>
    ensures some { IfSome result (λ label. (is_name label ≡ true) × (line.now ≡ codes "block " ++ (label ++ codes "\n"))) }
    ensures whole { (label : List ℕ) → is_name label ≡ true → line.now ≡ codes "block " ++ (label ++ codes "\n") → result ≡ Some label }
{
    Name::from_bytes(within(line, b"block ")?)
}

/// The line that it is, by what it is as a packet's.
fn line_of(read: PacketRead) -> Option<Line>
    ensures { result ≡ line_of read }
{
    match read {
        PacketRead::Good(packet) => Some(Line::Packet(packet)),
        PacketRead::Broken => Some(Line::Broken),
        PacketRead::Other => None,
    }
}

/// What a line of a listing with a frame of so many bytes is, behind its first line.
///
/// # Errors
/// `NoMemory` where there is no memory for the line or for what it is compared with.
pub fn read_line(alloc: Global, frame: u32, text: &[u8]) -> Result<Option<Line>, NoMemory>
    requires { frame ≤ FRAME }
    ensures read { IfOk result (IsReadAs frame text.now) }
    ensures whole { (line : Line) → Spells frame text.now line → IfOk result (λ r. r ≡ Some line) }
{
    if let Some(label) = block_label(text) {
        return Ok(Some(Line::Block(label)));
    }
    let read = read_packet(alloc, frame, text)?;
    Ok(line_of(read))
}

/// The size of the frame in bytes, at most so many, where the first line spells it.
pub fn read_frame(text: &[u8], most: u32) -> Option<u32>
    ensures some { IfSome result (IsFrameLine most text.now) }
    ensures none { IfNone result ((frame : ℕ) → ¬ (IsFrameLine most text.now frame)) }
{
    let frame = read_decimal(within(text, b"frame ")?)?;
    if frame % 8 == 0 && frame <= u64::from(most) {
        Some(frame as u32)
    } else {
        None
    }
}
