//! The packet that a line spells, and what a line is as a packet's.

ghost use Rattle.std.specs.Prelude.{◌≡◌, ◌≤◌, ◌++◌, ◌↔◌, IsTrue, IfOk, All, length, codes};
ghost use Rattle.std.specs.List.{position_or_len};
ghost use Rattle.un_isa.specs.declared.reg.TheConstants.{FRAME};
ghost use Rattle.un_packet.specs.CodeRules.{IsGoodPacket};
ghost use Rattle.un_listing.specs.Listing.{packet_line};
ghost use Rattle.un_listing.specs.ListingWords.{words_of};
ghost use Rattle.un_listing.specs.Recognized.{instr_of};
ghost use Rattle.un_listing_reader.specs.PacketForms.{IsFormed};
ghost use Rattle.un_listing_reader.specs.PacketReads.{IsByRules, IsPacketReadAs};
ghost use Rattle.un_listing_reader.specs.PacketWords.{is_semicolon, parts_of, instrs_in, IsPacketLine};

use crate::forms::are_formed;
use crate::rules::is_good_packet;
use std::alloc::Global;
use un_base::memory_error::NoMemory;
use un_isa::instr::Instr;
use un_listing::print::put_packet;
use un_listing::recognize::recognize;
use un_listing::word::{behind, words};
use un_lists::items::Items;
use un_packet::code::Packet;

/// Where the first part ends: at the first semicolon, or at the end of the text.
fn part_end(text: &[u8]) -> usize
    ensures place { result ≡ position_or_len is_semicolon text.now }
    ensures bound { result ≤ length text.now }
{
    for (i, b) in text.iter().enumerate() {
        if *b == b';' {
            return i;
        }
    }
    text.len()
}

/// The instruction that a part spells.
fn read_instr(alloc: Global, part: &[u8]) -> Result<Option<Instr>, NoMemory>
    ensures { IfOk result (λ instr. instr ≡ instr_of (words_of part.now)) }
{
    let found = words(alloc, part)?;
    recognize(alloc, found.as_slice())
}

/// The instructions of a line, where each part between its semicolons spells one.
fn read_instrs(alloc: Global, text: &[u8]) -> Result<Option<Items<Instr>>, NoMemory>
    ensures { IfOk result (λ instrs. instrs ≡ instrs_in (parts_of text.now)) }
{
    let mut found = Items::new(alloc);
    let mut rest = text;
    'parts: loop {
        let end = part_end(rest);
        match read_instr(alloc, &rest[..end])? {
            Some(instr) => found.push(instr)?,
            None => return Ok(None),
        }
        if end >= rest.len() {
            return Ok(Some(found));
        }
        rest = behind(rest, end);
    }
}

/// Whether the line is that of the packet, with its line feed.
fn is_printed(alloc: Global, packet: &Packet, line: &[u8]) -> Result<bool, NoMemory>
    ensures { IfOk result (λ same. IsTrue same ↔ (packet_line packet.now ++ codes "\n" ≡ line.now)) }
{
    let mut text = Vec::new(alloc);
    put_packet(&mut text, packet)?;
    Ok(text.as_slice() == line)
}

/// Whether the instructions have the form of instructions, and this is the line of their packet.
fn is_form_of(alloc: Global, packet: &Packet, line: &[u8]) -> Result<bool, NoMemory>
    ensures { IfOk result (λ is. IsTrue is ↔ (All IsFormed packet.now.instrs × (packet_line packet.now ++ codes "\n" ≡ line.now))) }
{
    if !are_formed(packet.instrs.as_slice()) {
        return Ok(false);
    }
    let same = is_printed(alloc, packet, line)?;
    Ok(same)
}

/// What a line is as a packet's: that of a packet of code, one with a packet's form that breaks a rule, or another.
#[derive(Drop)]
pub enum PacketRead {
    Good(Packet),
    Broken,
    Other,
}

/// A packet whose line has the form of one, by the rules of code with a frame of so many bytes.
fn by_rules(alloc: Global, frame: u32, packet: Packet) -> Result<PacketRead, NoMemory>
    requires { frame ≤ FRAME }
    ensures { IfOk result (IsByRules frame packet) }
{
    if is_good_packet(alloc, frame, &packet)? {
        Ok(PacketRead::Good(packet))
    } else {
        Ok(PacketRead::Broken)
    }
}

/// What a line with its line feed is as a packet's, in code with a frame of so many bytes.
///
/// # Errors
/// `NoMemory` where there is no memory for the packet or for what it is compared with.
pub(crate) fn read_packet(alloc: Global, frame: u32, line: &[u8]) -> Result<PacketRead, NoMemory>
    requires { frame ≤ FRAME }
    ensures read { IfOk result (IsPacketReadAs frame line.now) }
    ensures whole { (p : Packet) → IsPacketLine frame line.now p → IfOk result (λ r. r ≡ PacketRead.Good p) }
{
    let Some(instrs) = read_instrs(alloc, line)? else {
        return Ok(PacketRead::Other);
    };
    let packet = Packet { instrs };
    if is_form_of(alloc, &packet, line)? {
        let read = by_rules(alloc, frame, packet)?;
        Ok(read)
    } else {
        Ok(PacketRead::Other)
    }
}
